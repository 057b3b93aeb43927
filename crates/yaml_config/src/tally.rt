// The size of a tree in the one style, which may have any length.
ghost use Rattle.std.specs.Prelude.{◌≡◌, ◌+◌, ◌*◌, ◌-◌, ◌^◌, ◌<◌, ◌≤◌, min};
ghost use Rattle.yaml_config.specs.Prelude.{chars, byte_len, tree_of, element_size, value_size, style_text, depth, own_limits};
ghost use Rattle.yaml_writer.specs.Sizes.{is_filled, indented_key_lines};
ghost use Rattle.yaml_config.specs.Prelude.{sequence, mapping};
ghost use Rattle.yaml_config.specs.Tallies.{IsTally, most};
ghost use Rattle.yaml_data.specs.Seen.{elements_of, members_of};
ghost use Rattle.yaml_grammar.specs.Style.{key_lines, plain_in_style, in_double_quotes};
ghost use Rattle.yaml_grammar.specs.Trees as grammar;

use crate::limits::Limits;
use yaml_data::{Text, Tree};
use yaml_writer::{ByteCount, ScalarStyle, Size, key_style, style_len, value_style, write_quoted};

/// The most bytes of a plain text.
const LONGEST_PLAIN: usize = 128;

/// How many bytes a text has at most that is within the limits in any style.
const SHORT: usize = 1_000_000;

/// No bytes, and no lines.
const NOTHING: Tally = Tally { bytes: 0, lines: 0 };

/// The bytes of `[]` or `{}` with a line feed.
const EMPTY: Tally = Tally { bytes: 3, lines: 0 };

/// The `- ` of an element, which begins an indented line.
const DASH: Tally = Tally { bytes: 2, lines: 1 };

/// The space before a value on the line of its key.
const VALUE_SIGN: Tally = Tally { bytes: 1, lines: 0 };

/// The line feed and the two spaces before a collection that holds something, below its key.
const FILLED_SIGNS: Tally = Tally { bytes: 3, lines: 1 };

/// More bytes than any configuration has.
const MOST: Tally = Tally {
    bytes: u64::MAX,
    lines: u64::MAX,
};

/// A [`Size`] that is counted up to the greatest number of bytes. That number says that the tree has more bytes than
/// any configuration; the lines then mean nothing.
#[derive(Clone, Copy)]
pub(crate) struct Tally {
    /// The bytes at the indentation 0.
    pub(crate) bytes: u64,
    /// How many lines are indented.
    pub(crate) lines: u64,
}

impl Tally {
    /// The size of an element after its `- `.
    pub(crate) fn of_element(tree: &Tree) -> Tally
        ensures { IsTally result.bytes result.lines (byte_len (style_text (tree_of tree.now)))
            (element_size (tree_of tree.now)) }
    {
        element_tally(tree)
    }

    /// The size of a key through its `:`, and of the start of its line, which is indented.
    #[inline(always)]
    fn of_row_key(key: &str) -> Tally
        ensures bytes { result.bytes ≡ min (byte_len (key_lines 0 (chars key.now))) most }
        ensures lines { result.lines ≡ 1 + indented_key_lines (chars key.now) }
    {
        if key.len() <= LONGEST_PLAIN && is_plain(key) {
            return Tally {
                bytes: 1 + key.len() as u64,
                lines: 1,
            };
        }
        Tally::of_other_key(key)
    }

    /// The same for a key that is long or not plain.
    #[inline(never)]
    fn of_other_key(key: &str) -> Tally
        ensures bytes { result.bytes ≡ min (byte_len (key_lines 0 (chars key.now))) most }
        ensures lines { result.lines ≡ 1 + indented_key_lines (chars key.now) }
    {
        let size = Size::of_key(key);
        Tally {
            bytes: size.bytes.min(u128::from(u64::MAX)) as u64,
            lines: 1 + size.lines as u64,
        }
    }

    /// The size of this part and another one together.
    fn plus(self, other: Tally) -> Tally
        ensures bytes { result.bytes ≡ min (self.bytes + other.bytes) most }
        ensures lines { result.lines ≡ min (self.lines + other.lines) most }
    {
        Tally {
            bytes: self.bytes.saturating_add(other.bytes),
            lines: self.lines.saturating_add(other.lines),
        }
    }

    /// The size of a tree as the value after the `:` of a key, from its size as an element. A collection that holds
    /// something begins on a line of its own.
    fn after_key(self, tree: &Tree) -> Tally
        requires { IsTally self.bytes self.lines (byte_len (style_text (tree_of tree.now)))
            (element_size (tree_of tree.now)) }
        ensures { IsTally result.bytes result.lines (byte_len (style_text (tree_of tree.now)))
            (value_size (tree_of tree.now)) }
    {
        if is_filled(tree) {
            self.plus(FILLED_SIGNS)
        } else {
            self.plus(VALUE_SIGN)
        }
    }

    /// The size of a collection after a `- `, from that of its rows, each of which begins an indented line.
    fn after_dash(self) -> Tally
        ensures bytes { result.bytes ≡ min (self.bytes + 2 * (self.lines - 1)) most }
        ensures lines { result.lines ≡ self.lines - 1 }
    {
        let lines = self.lines.saturating_sub(1);
        Tally {
            bytes: self.bytes.saturating_add(lines).saturating_add(lines),
            lines,
        }
    }
}

/// The size of an element after its `- `.
#[cycle(tallies)]
fn element_tally(tree: &Tree) -> Tally
    ensures { IsTally result.bytes result.lines (byte_len (style_text (tree_of tree.now)))
        (element_size (tree_of tree.now)) }
{
    match tree {
        Tree::Text(text) => text_tally(tree, text),
        Tree::Seq(items) => elements_tally(items),
        Tree::Map(pairs) => members_tally(pairs),
    }
}

/// The size of the elements of a sequence that is an element itself, after its `- `.
#[cycle(tallies)]
fn elements_tally(items: &[Tree]) -> Tally
    ensures { IsTally result.bytes result.lines
        (byte_len (style_text (sequence (elements_of items.now))))
        (element_size (sequence (elements_of items.now))) }
{
    if items.is_empty() {
        return EMPTY;
    }
    let mut rows = NOTHING;
    for item in items {
        rows = rows.plus(DASH).plus(element_tally(item));
    }
    rows.after_dash()
}

/// The size of the members of a mapping that is an element, after its `- `.
#[cycle(tallies)]
fn members_tally(pairs: &[(Text, Tree)]) -> Tally
    ensures { IsTally result.bytes result.lines
        (byte_len (style_text (mapping (members_of pairs.now))))
        (element_size (mapping (members_of pairs.now))) }
{
    if pairs.is_empty() {
        return EMPTY;
    }
    let mut rows = NOTHING;
    for (key, value) in pairs {
        rows = rows.plus(Tally::of_row_key(key));
        rows = rows.plus(element_tally(value).after_key(value));
    }
    rows.after_dash()
}

/// Whether a tree is a collection that holds something.
fn is_filled(tree: &Tree) -> bool
    ensures { result ≡ is_filled (tree_of tree.now) }
{
    match tree {
        Tree::Text(_) => false,
        Tree::Seq(items) => !items.is_empty(),
        Tree::Map(pairs) => !pairs.is_empty(),
    }
}

/// The size of a text after a `- `. The tree is this text.
#[inline(always)]
fn text_tally(tree: &Tree, text: &str) -> Tally
    requires { tree_of tree.now ≡ grammar.text (chars text.now) }
    ensures { IsTally result.bytes result.lines (byte_len (style_text (tree_of tree.now)))
        (element_size (tree_of tree.now)) }
{
    if text.len() > LONGEST_PLAIN {
        return long_tally(tree, text);
    }
    match value_style(text) {
        ScalarStyle::Plain => Tally {
            bytes: 1 + text.len() as u64,
            lines: 0,
        },
        ScalarStyle::Double => Tally {
            bytes: 1 + quoted_length(text),
            lines: 0,
        },
        _ => long_tally(tree, text),
    }
}

/// How many bytes a short text has in double quotes.
fn quoted_length(text: &str) -> u64
    requires { byte_len (in_double_quotes (chars text.now)) < 2 ^ 32 }
    ensures { result ≡ byte_len (in_double_quotes (chars text.now)) }
{
    let mut bytes = ByteCount::new();
    match write_quoted(text, &mut bytes) {
        Ok(()) => bytes.total() as u64,
        Err(never) => match never {},
    }
}

/// The size of a text that is long, or a literal. The tree is this text.
#[inline(never)]
fn long_tally(tree: &Tree, text: &str) -> Tally
    requires { tree_of tree.now ≡ grammar.text (chars text.now) }
    ensures { IsTally result.bytes result.lines (byte_len (style_text (tree_of tree.now)))
        (element_size (tree_of tree.now)) }
{
    if text.len() <= SHORT {
        return exact_tally(tree);
    }
    match style_len(tree, Limits::KEPT.style) {
        None => MOST,
        Some(_) => exact_tally(tree),
    }
}

/// The size of a tree within the limits after a `- `.
fn exact_tally(tree: &Tree) -> Tally
    requires deep { depth (tree_of tree.now) ≤ own_limits.depth }
    requires long { byte_len (style_text (tree_of tree.now)) ≤ own_limits.style }
    ensures { IsTally result.bytes result.lines (byte_len (style_text (tree_of tree.now)))
        (element_size (tree_of tree.now)) }
{
    let size = Size::of_element(tree);
    Tally {
        bytes: size.bytes as u64,
        lines: size.lines as u64,
    }
}

/// Whether a text is plain in the one style.
fn is_plain(text: &str) -> bool
    ensures { result ≡ plain_in_style (chars text.now) }
{
    key_style(text) == ScalarStyle::Plain
}
