// The configurations on the lines of a base.
ghost use Rattle.std.specs.Prelude.{◌≡◌, codes, IfOk};
ghost use Rattle.conf_record.specs.Prelude.{chars, tree_of, text_bytes, element_size, Sound, entries_of};
ghost use Rattle.conf_record.specs.Entries.{IsEntry, AreEntries};

use crate::written::is_end;
use std::alloc::Global;
use yaml_styled::{Miss, read_key, read_value};
use yaml_tree::{Config, Limits, Size, Text, Tree};

/// A configuration that lines begin with, under its name.
#[derive(Drop)]
pub(crate) struct Entry<'t> {
    pub name: Text,
    pub tree: Tree,
    /// The size of the tree as an element.
    pub size: Size,
    /// What comes after it.
    pub rest: &'t str,
}

/// The configurations by name on the lines of a base, up to the end of the document.
pub(crate) fn read_entries(alloc: Global, lines: &str) -> Result<Vec<(String, Config)>, Miss>
    ensures { IfOk result (λ parts. AreEntries lines.now (entries_of parts.items) (codes "...\n")) }
{
    let mut parts = Vec::new(alloc);
    let mut left = lines;
    'entries: for _ in 0..lines.len() {
        if is_end(left) {
            return Ok(parts);
        }
        let entry = read_entry(alloc, left)?;
        left = entry.rest;
        let name = entry.name.into_string(alloc)?;
        let config = config_of(entry.tree, entry.size)?;
        parts.push((name, config))?;
    }
    Err(Miss::OtherForm)
}

/// The configuration that the lines begin with.
pub(crate) fn read_entry(alloc: Global, lines: &str) -> Result<Entry<'_>, Miss>
    ensures { IfOk result (λ entry. IsEntry lines.now (chars (text_bytes entry.name))
        (tree_of entry.tree) entry.size entry.rest.now) }
{
    let Some(row) = lines.strip_prefix("  ") else {
        return Err(Miss::OtherForm);
    };
    let (name, value) = read_key(alloc, row, 2)?;
    let styled = read_value(alloc, value, 2)?;
    Ok(Entry {
        name,
        tree: styled.value,
        size: styled.size,
        rest: styled.rest,
    })
}

/// The configuration of a tree whose size as an element is known, if it is within the limits of one.
fn config_of(tree: Tree, size: Size) -> Result<Config, Miss>
    requires size { size ≡ element_size (tree_of tree) }
    requires sound { Sound (tree_of tree) 128 }
    ensures { IfOk result (λ config. config ≡ tree) }
{
    if size.bytes > u128::from(Limits::KEPT.style) {
        return Err(Miss::OtherForm);
    }
    Ok(Config::with_size(tree, size))
}
