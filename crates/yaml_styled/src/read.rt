// Trees read from their lines, as `style.rt` of `yaml_writer` writes them.
ghost use Rattle.std.specs.Prelude.{◌≡◌, ◌+◌, ◌*◌, ◌^◌, ◌<◌, IfOk, OnOk, true, false};
ghost use Rattle.yaml_styled.specs.Prelude.{lines_after_dash, value_at, indented, value_indented, is_filled};
ghost use Rattle.yaml_styled.specs.Parts.{lines_of, IsRead};

use crate::build::Build;
use crate::flat::read_flat;
use crate::guess::begins_collection;
use crate::keys::take_key;
use crate::lines::Lines;
use crate::miss::Miss;
use crate::open_keys::OpenKeys;
use std::alloc::Global;

/// Reads a collection with rows, the first of which is without the spaces before it. It may be `levels` deeper than a
/// text.
#[cycle(reading)]
pub(crate) fn read_rows<'t, V: Build>(
    alloc: Global,
    lines: &mut Lines<'t>,
    keys: &mut OpenKeys<'t>,
    pending: &mut V::Pending,
    indent: u64,
    levels: u64,
) -> Result<V, Miss>
    requires room { indent + 2 * levels + 4 < 2 ^ 64 }
    ensures read { IfOk result (λ made. IsRead (λ t. V.Means made t × (is_filled t ≡ true))
        (λ t. lines_of t indent) indented (levels + 1)
        lines.old.rest.now lines.old.counted lines.new.rest.now lines.new.counted) }
    ensures keys { OnOk result (keys.new.keys.items ≡ keys.old.keys.items) }
    ensures elements { OnOk result (V.elements pending.new ≡ V.elements pending.old) }
    ensures members { OnOk result (V.members pending.new ≡ V.members pending.old) }
{
    if levels == 0 {
        return Err(Miss::OtherForm);
    }
    if lines.first() == Some(b'-') {
        read_elements(alloc, lines, keys, pending, indent, levels - 1)
    } else {
        read_members(alloc, lines, keys, pending, indent, levels - 1)
    }
}

/// Reads the elements of a sequence at `indent`; each may be `levels` deeper than a text.
#[cycle(reading)]
fn read_elements<'t, V: Build>(
    alloc: Global,
    lines: &mut Lines<'t>,
    keys: &mut OpenKeys<'t>,
    pending: &mut V::Pending,
    indent: u64,
    levels: u64,
) -> Result<V, Miss>
    requires room { indent + 2 * levels + 6 < 2 ^ 64 }
    ensures read { IfOk result (λ made. IsRead (λ t. V.Means made t × (is_filled t ≡ true))
        (λ t. lines_of t indent) indented (levels + 2)
        lines.old.rest.now lines.old.counted lines.new.rest.now lines.new.counted) }
    ensures keys { OnOk result (keys.new.keys.items ≡ keys.old.keys.items) }
    ensures elements { OnOk result (V.elements pending.new ≡ V.elements pending.old) }
    ensures members { OnOk result (V.members pending.new ≡ V.members pending.old) }
{
    let start = V::elements_start(pending);
    'rows: for _ in 0..u64::MAX {
        lines.take("- ")?;
        let element = read_element(alloc, lines, keys, pending, indent, levels)?;
        V::add_element(pending, element)?;
        let more = lines.next_row(indent)?;
        if !more {
            let made = V::end_sequence(pending, start)?;
            return Ok(made);
        }
    }
    Err(Miss::OtherForm)
}

/// Reads an element after its `- ` at `indent`.
#[cycle(reading)]
fn read_element<'t, V: Build>(
    alloc: Global,
    lines: &mut Lines<'t>,
    keys: &mut OpenKeys<'t>,
    pending: &mut V::Pending,
    indent: u64,
    levels: u64,
) -> Result<V, Miss>
    requires room { indent + 2 * levels + 6 < 2 ^ 64 }
    ensures read { IfOk result (λ made. IsRead (V.Means made)
        (λ t. lines_after_dash t indent) indented (levels + 1)
        lines.old.rest.now lines.old.counted lines.new.rest.now lines.new.counted) }
    ensures keys { OnOk result (keys.new.keys.items ≡ keys.old.keys.items) }
    ensures elements { OnOk result (V.elements pending.new ≡ V.elements pending.old) }
    ensures members { OnOk result (V.members pending.new ≡ V.members pending.old) }
{
    if begins_collection(lines.rest()) {
        read_rows(alloc, lines, keys, pending, indent + 2, levels)
    } else {
        read_flat(alloc, lines, indent + 2)
    }
}

/// Reads the members of a mapping at `indent`; each value may be `levels` deeper than a text.
#[cycle(reading)]
fn read_members<'t, V: Build>(
    alloc: Global,
    lines: &mut Lines<'t>,
    keys: &mut OpenKeys<'t>,
    pending: &mut V::Pending,
    indent: u64,
    levels: u64,
) -> Result<V, Miss>
    requires room { indent + 2 * levels + 6 < 2 ^ 64 }
    ensures read { IfOk result (λ made. IsRead (λ t. V.Means made t × (is_filled t ≡ true))
        (λ t. lines_of t indent) indented (levels + 2)
        lines.old.rest.now lines.old.counted lines.new.rest.now lines.new.counted) }
    ensures keys { OnOk result (keys.new.keys.items ≡ keys.old.keys.items) }
    ensures elements { OnOk result (V.elements pending.new ≡ V.elements pending.old) }
    ensures members { OnOk result (V.members pending.new ≡ V.members pending.old) }
{
    let from = keys.count();
    let start = V::members_start(pending);
    'rows: for _ in 0..u64::MAX {
        let key = take_key(lines, indent)?;
        keys.add(key)?;
        let value = read_value_lines(alloc, lines, keys, pending, indent, levels)?;
        V::add_member(alloc, pending, key, value)?;
        let more = lines.next_row(indent)?;
        if !more {
            keys.close(alloc, from)?;
            let made = V::end_mapping(pending, start)?;
            return Ok(made);
        }
    }
    Err(Miss::OtherForm)
}

/// Reads a value after the `:` of its key, which is at `indent`. It may be `levels` deeper than a text.
#[cycle(reading)]
fn read_value_lines<'t, V: Build>(
    alloc: Global,
    lines: &mut Lines<'t>,
    keys: &mut OpenKeys<'t>,
    pending: &mut V::Pending,
    indent: u64,
    levels: u64,
) -> Result<V, Miss>
    requires room { indent + 2 * levels + 6 < 2 ^ 64 }
    ensures read { IfOk result (λ made. IsRead (V.Means made) (λ t. value_at t indent) value_indented
        (levels + 1)
        lines.old.rest.now lines.old.counted lines.new.rest.now lines.new.counted) }
    ensures keys { OnOk result (keys.new.keys.items ≡ keys.old.keys.items) }
    ensures elements { OnOk result (V.elements pending.new ≡ V.elements pending.old) }
    ensures members { OnOk result (V.members pending.new ≡ V.members pending.old) }
{
    if lines.first() == Some(b' ') {
        read_beside(alloc, lines, indent)
    } else {
        read_below(alloc, lines, keys, pending, indent, levels)
    }
}

/// Reads a value with rows below its key, which is at `indent`.
#[cycle(reading)]
pub(crate) fn read_below<'t, V: Build>(
    alloc: Global,
    lines: &mut Lines<'t>,
    keys: &mut OpenKeys<'t>,
    pending: &mut V::Pending,
    indent: u64,
    levels: u64,
) -> Result<V, Miss>
    requires room { indent + 2 * levels + 6 < 2 ^ 64 }
    ensures read { IfOk result (λ made. IsRead (λ t. V.Means made t × (is_filled t ≡ true))
        (λ t. value_at t indent) value_indented (levels + 1)
        lines.old.rest.now lines.old.counted lines.new.rest.now lines.new.counted) }
    ensures keys { OnOk result (keys.new.keys.items ≡ keys.old.keys.items) }
    ensures elements { OnOk result (V.elements pending.new ≡ V.elements pending.old) }
    ensures members { OnOk result (V.members pending.new ≡ V.members pending.old) }
{
    lines.take("\n")?;
    lines.indent(indent + 2)?;
    read_rows(alloc, lines, keys, pending, indent + 2, levels)
}

/// Reads a value on the line of its key, which is at `indent`.
pub(crate) fn read_beside<V: Build>(
    alloc: Global,
    lines: &mut Lines<'_>,
    indent: u64,
) -> Result<V, Miss>
    requires room { indent + 2 < 2 ^ 64 }
    ensures { IfOk result (λ made. IsRead (λ t. V.Means made t × (is_filled t ≡ false))
        (λ t. value_at t indent) value_indented 1
        lines.old.rest.now lines.old.counted lines.new.rest.now lines.new.counted) }
{
    lines.take(" ")?;
    read_flat(alloc, lines, indent + 2)
}
