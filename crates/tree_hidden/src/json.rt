// The JSON text of a value in which some places are hidden (RFC 8259, 3 to 5, but for the mark).
ghost use Rattle.std.specs.Prelude.{◌≡◌, ◌≤◌, ◌++◌, [], codes, decimal, OnOk};
ghost use Rattle.tree_hidden.specs.Prelude.{chars, depth, tree_of, elements_of, members_of, own_limits, json_member, path_of};
ghost use Rattle.tree_hidden.specs.Hidden.{below, below_all, mark, shown_at, shown_elements, shown_json, shown_members};
ghost use Rattle.tree_hidden.specs.Tokens.{paths_of, tokens_of};

use crate::paths::{Tokens, below, below_all, hides_whole, tokens_of};
use itoa::Buffer;
use json_pointer::PathFault;
use std::alloc::{AllocError, Global};
use yaml_data::{Text, Tree};
use yaml_forms::write_json_string;
use yaml_writer::Sink;

/// What stands for a value that is hidden.
const MARK: &str = "hidden";

/// Writes the JSON text of a value at the place to which a pointer leads (RFC 8259, RFC 6901), on one line and without
/// whitespace. What is at one of the paths, or below it, is hidden: the word `hidden` stands for it. If the place
/// itself is at or below one, or the text is no pointer, that word is all.
///
/// A mapping is an object with its members in order, a sequence an array, and each text a string. A token `-` of the
/// place leads to a new element of a sequence, whose index it does not say: so it leads wherever another token does.
///
/// It fails only if memory runs out. The call stack grows with the depth, which therefore is at most 131;
/// [`is_deeper_than`](Tree::is_deeper_than) tests that.
pub fn write_shown<S: Sink<Fault = AllocError>>(
    alloc: Global,
    pointer: &str,
    value: &Tree,
    paths: &[Tokens<'_>],
    sink: &mut S,
) -> Result<(), AllocError>
    requires { depth (tree_of value.now) ≤ own_limits.depth }
    ensures { OnOk result (S.Takes sink.old
        (shown_at (path_of (chars pointer.now)) (paths_of paths.now) (tree_of value.now)) sink.new) }
{
    match tokens_of(alloc, pointer) {
        Ok(place) => write_placed(alloc, &place, value, paths, sink),
        Err(PathFault::OutOfMemory) => Err(AllocError),
        Err(_) => write_mark(sink),
    }
}

/// Writes a value at a place.
fn write_placed<S: Sink<Fault = AllocError>>(
    alloc: Global,
    place: Tokens<'_>,
    value: &Tree,
    paths: &[Tokens<'_>],
    sink: &mut S,
) -> Result<(), AllocError>
    ensures { OnOk result (S.Takes sink.old
        (shown_json (below_all (tokens_of place.now) (paths_of paths.now)) (tree_of value.now)) sink.new) }
{
    let left = below_all(alloc, place, paths)?;
    write_value(alloc, value, &left, sink)
}

/// Writes what stands for a value that is hidden.
fn write_mark<S: Sink<Fault = AllocError>>(sink: &mut S) -> Result<(), AllocError>
    ensures { OnOk result (S.Takes sink.old mark sink.new) }
{
    sink.put_text(MARK)
}

/// Writes a value, or the mark if the whole of it is hidden.
#[cycle(shown)]
fn write_value<S: Sink<Fault = AllocError>>(
    alloc: Global,
    value: &Tree,
    paths: &[Tokens<'_>],
    sink: &mut S,
) -> Result<(), AllocError>
    ensures { OnOk result (S.Takes sink.old
        (shown_json (paths_of paths.now) (tree_of value.now)) sink.new) }
{
    if hides_whole(paths) {
        return write_mark(sink);
    }
    match value {
        Tree::Text(text) => write_json_string(text, sink),
        Tree::Seq(items) => write_array(alloc, items, paths, sink),
        Tree::Map(pairs) => write_object(alloc, pairs, paths, sink),
    }
}

/// Writes a sequence as an array.
#[cycle(shown)]
fn write_array<S: Sink<Fault = AllocError>>(
    alloc: Global,
    items: &[Tree],
    paths: &[Tokens<'_>],
    sink: &mut S,
) -> Result<(), AllocError>
    ensures { OnOk result (S.Takes sink.old
        (codes "[" ++ shown_elements (paths_of paths.now) [] 0 (elements_of items.now) ++ codes "]")
        sink.new) }
{
    sink.put_char('[')?;
    let mut lead = "";
    for (index, item) in items.iter().enumerate() {
        sink.put_text(lead)?;
        write_element(alloc, index, item, paths, sink)?;
        lead = ",";
    }
    sink.put_char(']')
}

/// Writes an element of an array.
#[cycle(shown)]
fn write_element<S: Sink<Fault = AllocError>>(
    alloc: Global,
    index: usize,
    item: &Tree,
    paths: &[Tokens<'_>],
    sink: &mut S,
) -> Result<(), AllocError>
    ensures { OnOk result (S.Takes sink.old
        (shown_json (below (decimal index) (paths_of paths.now)) (tree_of item.now)) sink.new) }
{
    let mut digits = Buffer::new();
    let left = below(alloc, digits.format(index), paths)?;
    write_value(alloc, item, &left, sink)
}

/// Writes a mapping as an object.
#[cycle(shown)]
fn write_object<S: Sink<Fault = AllocError>>(
    alloc: Global,
    pairs: &[(Text, Tree)],
    paths: &[Tokens<'_>],
    sink: &mut S,
) -> Result<(), AllocError>
    ensures { OnOk result (S.Takes sink.old
        (codes "{" ++ shown_members (paths_of paths.now) [] (members_of pairs.now) ++ codes "}")
        sink.new) }
{
    sink.put_char('{')?;
    let mut lead = "";
    for (key, value) in pairs {
        sink.put_text(lead)?;
        write_member(alloc, key, value, paths, sink)?;
        lead = ",";
    }
    sink.put_char('}')
}

/// Writes a member of an object: its key, a colon and its value.
#[cycle(shown)]
fn write_member<S: Sink<Fault = AllocError>>(
    alloc: Global,
    key: &str,
    value: &Tree,
    paths: &[Tokens<'_>],
    sink: &mut S,
) -> Result<(), AllocError>
    ensures { OnOk result (S.Takes sink.old
        (json_member (chars key.now) (shown_json (below (chars key.now) (paths_of paths.now)) (tree_of value.now)))
        sink.new) }
{
    write_json_string(key, sink)?;
    sink.put_char(':')?;
    let left = below(alloc, key, paths)?;
    write_value(alloc, value, &left, sink)
}
