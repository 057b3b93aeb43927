// How an edit changes the length of a tree in the one style.
ghost use Rattle.std.specs.Prelude.{◌≡◌, ◌+◌, ◌*◌, ◌^◌, ◌<◌, ◌≤◌};
ghost use Rattle.yaml_config.specs.Prelude.{chars, byte_len, depth, style_text, own_limits, tree_of, element_size};
ghost use Rattle.yaml_config.specs.Prelude.{length_at};
ghost use Rattle.yaml_config.specs.Changes.{growth, reversed_change, shifted_change, shifted_size, slot_in, first_row, child_size, row_of_element, row_of_member};

use yaml_data::Tree;
use yaml_writer::Size;

/// The bytes of `[]` or `{}` with a line feed.
const EMPTY: Size = Size { bytes: 3, lines: 0 };

/// No bytes, and no lines.
const NOTHING: Size = Size { bytes: 0, lines: 0 };

/// What an edit takes out of a tree's text in the one style, and what it puts in. Both grow with the indentation of the
/// whole tree, which is 0 for a tree by itself, and two more than its key's for the value of a key.
#[derive(Clone, Copy, Debug, PartialEq, Eq)]
pub struct Change {
    /// What is taken out.
    pub removed: Size,
    /// What is put in.
    pub added: Size,
}

impl Change {
    /// The length in bytes, after the change, of a text that had `before` bytes, where the tree's indentation is
    /// `indent` spaces, at most 4. The change takes out no more than there is then.
    pub fn length_after(self, before: u64, indent: u64) -> u128
        requires bytes { self.added.bytes < 2 ^ 100 }
        requires lines { self.added.lines < 2 ^ 100 }
        requires indent { indent ≤ 4 }
        requires there { length_at self.removed indent ≤ before + length_at self.added indent }
        ensures { result + length_at self.removed indent ≡ before + length_at self.added indent }
    {
        let indent = u128::from(indent);
        let added = self.added.bytes + indent * self.added.lines;
        u128::from(before) + added - (self.removed.bytes + indent * self.removed.lines)
    }

    /// The change back: what was put in is taken out.
    pub(crate) fn reversed(self) -> Change
        ensures { result ≡ reversed_change self }
    {
        Change {
            removed: self.added,
            added: self.removed,
        }
    }

    /// What the edit takes out and puts in where the whole tree is indented by `by` spaces more.
    pub(crate) fn shifted(self, by: u128) -> Change
        requires removed { self.removed.bytes + by * self.removed.lines < 2 ^ 128 }
        requires added { self.added.bytes + by * self.added.lines < 2 ^ 128 }
        ensures { result ≡ shifted_change by self }
    {
        Change {
            removed: shifted_size(self.removed, by),
            added: shifted_size(self.added, by),
        }
    }
}

/// The size of a part of a tree that is indented by `by` spaces more: each of its indented lines has as many bytes
/// more.
fn shifted_size(size: Size, by: u128) -> Size
    requires { size.bytes + by * size.lines < 2 ^ 128 }
    ensures { result ≡ shifted_size by size }
{
    Size {
        bytes: size.bytes + by * size.lines,
        lines: size.lines,
    }
}

/// The context of a node. A whole tree counts as a value.
#[derive(Clone, Copy, Debug, PartialEq, Eq)]
pub enum Slot {
    /// After the `:` of a key.
    Value,
    /// After a `- `.
    Element,
}

impl Slot {
    /// The context of the values in a collection.
    pub(crate) fn in_collection(tree: &Tree) -> Slot
        ensures { result ≡ slot_in (tree_of tree.now) }
    {
        match tree {
            Tree::Map(_) => Slot::Value,
            _ => Slot::Element,
        }
    }

    /// The size of a value in this context.
    pub(crate) fn size_of(self, tree: &Tree) -> Size
        requires deep { depth (tree_of tree.now) ≤ own_limits.depth }
        requires long { byte_len (style_text (tree_of tree.now)) ≤ own_limits.style }
        ensures size { result ≡ child_size self (tree_of tree.now) }
        ensures small { (result.bytes < 2 ^ 32) × (result.lines < 2 ^ 32) }
    {
        match self {
            Slot::Value => Size::of_value(tree),
            Slot::Element => Size::of_element(tree),
        }
    }

    /// The size of a value in this context, from its size as an element.
    pub(crate) fn size_from(self, element: Size, tree: &Tree) -> Size
        requires element { element ≡ element_size (tree_of tree.now) }
        requires small { (element.bytes < 2 ^ 32) × (element.lines < 2 ^ 32) }
        ensures { result ≡ child_size self (tree_of tree.now) }
    {
        match self {
            Slot::Value => element.after_key(tree),
            Slot::Element => element,
        }
    }
}

/// The size of an element that isn't the first, with the spaces before its `- `, from its size after the `- `.
pub(crate) fn element_row(element: Size) -> Size
    requires small { (element.bytes < 2 ^ 33) × (element.lines < 2 ^ 32 + 1) }
    ensures size { result ≡ row_of_element element }
    ensures small { (result.bytes < 2 ^ 80) × (result.lines < 2 ^ 33) }
{
    Size {
        bytes: 2 + element.bytes,
        lines: 1 + element.lines,
    }
}

/// The size of a member that isn't the first, with the spaces before its key, from the size of its value.
pub(crate) fn member_row(key: &str, value: Size) -> Size
    requires small { (value.bytes < 2 ^ 33) × (value.lines < 2 ^ 32 + 1) }
    ensures size { result ≡ row_of_member (chars key.now) value }
    ensures small { (result.bytes < 2 ^ 80) × (result.lines < 2 ^ 33) }
{
    let key = Size::of_key(key);
    Size {
        bytes: key.bytes + value.bytes,
        lines: 1 + key.lines + value.lines,
    }
}

/// What one more row changes in a collection of `count` values in this slot. The row is the new value's, as one that
/// isn't the first; an empty collection is `[]` or `{}` before.
pub(crate) fn growth(count: usize, row: Size, slot: Slot) -> Change
    requires { 0 < row.lines }
    ensures { result ≡ growth count row slot }
{
    if count == 0 {
        return Change {
            removed: EMPTY,
            added: first_row(slot, row),
        };
    }
    Change {
        removed: NOTHING,
        added: row,
    }
}

/// The size of a row that is the first: in a collection after a `- ` it has no spaces before it.
fn first_row(slot: Slot, row: Size) -> Size
    requires { 0 < row.lines }
    ensures { result ≡ first_row slot row }
{
    match slot {
        Slot::Value => row,
        Slot::Element => Size {
            bytes: row.bytes,
            lines: row.lines - 1,
        },
    }
}
