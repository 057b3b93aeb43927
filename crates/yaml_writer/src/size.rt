// How the length of a part grows with its indentation.
ghost use Rattle.std.specs.Prelude.{◌≡◌, true, ◌+◌, ◌*◌, ◌^◌, ◌<◌, ◌≤◌};
ghost use Rattle.yaml_writer.specs.Prelude.{chars, byte_len, depth, sequence, mapping, style_text, scalar_lines};
ghost use Rattle.yaml_writer.specs.Prelude.{elements_at, members_at, lines_after_dash, literal_lines, in_double_quotes};
ghost use Rattle.yaml_writer.specs.Prelude.{key_text, own_limits, tree_of, elements_of, members_of};
ghost use Rattle.yaml_writer.specs.Lines.{line_text};
ghost use Rattle.yaml_writer.specs.Sizes.{element_size, value_size, key_size, is_filled, indented_literal_lines};
ghost use Rattle.yaml_grammar.specs.Trees as grammar;

use crate::count::{ByteCount, is_long_key};
use crate::lines::split_line;
use crate::quoted::write_quoted;
use crate::scalar_style::{ScalarStyle, value_style};
use crate::style::write_key_text;
use yaml_data::{Text, Tree};

/// No bytes, and no lines.
const NOTHING: Size = Size { bytes: 0, lines: 0 };

/// The bytes of `[]` or `{}` with a line feed.
const EMPTY: Size = Size { bytes: 3, lines: 0 };

/// The `- ` of an element, which begins an indented line.
const DASH: Size = Size { bytes: 2, lines: 1 };

/// The start of the line of a member, which is indented.
const MEMBER_LINE: Size = Size { bytes: 0, lines: 1 };

/// The bytes of `? `, a line feed and `:`, which a long key has beside its text.
const LONG_KEY_SIGNS: u128 = 4;

/// How many bytes a part of a tree has in the one style, as its indentation grows: at the indentation `i` it has
/// `bytes + i * lines`.
#[derive(Clone, Copy, Debug, PartialEq, Eq)]
pub struct Size {
    /// The bytes at the indentation 0.
    pub bytes: u128,
    /// How many lines are indented. The first line isn't, nor are the empty lines of a literal.
    pub lines: u128,
}

impl Size {
    /// The size of an element after its `- `, which is at the indentation. The tree is within the limits of a
    /// configuration (`yaml_tree::Config`).
    pub fn of_element(tree: &Tree) -> Size
        requires deep { depth (tree_of tree.now) ≤ own_limits.depth }
        requires long { byte_len (style_text (tree_of tree.now)) ≤ own_limits.style }
        ensures size { result ≡ element_size (tree_of tree.now) }
        ensures small { (result.bytes < 2 ^ 32) × (result.lines < 2 ^ 32) }
    {
        element_size(tree)
    }

    /// The size of a value after the `:` of its key, which is at the indentation. The tree is within the limits of a
    /// configuration (`yaml_tree::Config`).
    pub fn of_value(tree: &Tree) -> Size
        requires deep { depth (tree_of tree.now) ≤ own_limits.depth }
        requires long { byte_len (style_text (tree_of tree.now)) ≤ own_limits.style }
        ensures size { result ≡ value_size (tree_of tree.now) }
        ensures small { (result.bytes < 2 ^ 32) × (result.lines < 2 ^ 32) }
    {
        element_size(tree).after_key(tree)
    }

    /// The size of a key through its `:`, which is at the indentation.
    pub fn of_key(key: &str) -> Size
        ensures size { result ≡ key_size (chars key.now) }
        ensures small { (result.bytes < 2 ^ 70) × (result.lines ≤ 1) }
    {
        let bytes = key_text_length(key);
        if is_long_key(key) {
            return Size {
                bytes: LONG_KEY_SIGNS + bytes,
                lines: 1,
            };
        }
        Size {
            bytes: 1 + bytes,
            lines: 0,
        }
    }

    /// The size of a tree as the value after the `:` of a key, from its size as an element after a `- `, which the call
    /// is on. A collection that holds something begins on a line of its own.
    pub fn after_key(self, tree: &Tree) -> Size
        requires element { self ≡ element_size (tree_of tree.now) }
        requires small { (self.bytes < 2 ^ 100) × (self.lines < 2 ^ 100) }
        ensures { result ≡ value_size (tree_of tree.now) }
    {
        if is_filled(tree) {
            return Size {
                bytes: 3 + self.bytes,
                lines: 1 + self.lines,
            };
        }
        Size {
            bytes: 1 + self.bytes,
            lines: self.lines,
        }
    }

    /// The size of this part and another one together.
    fn plus(self, other: Size) -> Size
        requires bytes { self.bytes + other.bytes < 2 ^ 128 }
        requires lines { self.lines + other.lines < 2 ^ 128 }
        ensures bytes { result.bytes ≡ self.bytes + other.bytes }
        ensures lines { result.lines ≡ self.lines + other.lines }
    {
        Size {
            bytes: self.bytes + other.bytes,
            lines: self.lines + other.lines,
        }
    }

    /// The size of a collection after a `- `, from that of its rows, each of which begins an indented line. The first
    /// row is on the line of the `- `, and the others are indented by two spaces more than it.
    fn after_dash(self) -> Size
        requires rows { 0 < self.lines }
        requires small { (self.bytes < 2 ^ 100) × (self.lines < 2 ^ 100) }
        ensures bytes { result.bytes ≡ self.bytes + 2 * result.lines }
        ensures lines { 1 + result.lines ≡ self.lines }
    {
        let lines = self.lines - 1;
        Size {
            bytes: self.bytes + 2 * lines,
            lines,
        }
    }
}

/// Whether a tree is a collection that holds something.
fn is_filled(tree: &Tree) -> bool
    ensures { result ≡ is_filled (tree_of tree.now) }
{
    match tree {
        Tree::Text(_) => false,
        Tree::Seq(items) => !items.is_empty(),
        Tree::Map(pairs) => !pairs.is_empty(),
    }
}

/// How many bytes a key has as it is written, without its `:`.
fn key_text_length(key: &str) -> u128
    ensures length { result ≡ byte_len (key_text (chars key.now)) }
    ensures small { result < 2 ^ 69 }
{
    let mut bytes = ByteCount::new();
    match write_key_text(key, &mut bytes) {
        Ok(()) => bytes.total(),
        Err(never) => match never {},
    }
}

/// The size of an element after its `- `, which is at the indentation.
#[cycle(sizes)]
fn element_size(tree: &Tree) -> Size
    requires { byte_len (lines_after_dash (tree_of tree.now) 0) < 2 ^ 64 }
    ensures { result ≡ element_size (tree_of tree.now) }
{
    match tree {
        Tree::Text(text) => scalar_size(text),
        Tree::Seq(items) => elements_size(items),
        Tree::Map(pairs) => members_size(pairs),
    }
}

/// The size of the elements of a sequence that is an element itself, after its `- `.
#[cycle(sizes)]
fn elements_size(items: &[Tree]) -> Size
    requires { byte_len (elements_at (elements_of items.now) 2) < 2 ^ 64 }
    ensures { result ≡ element_size (sequence (elements_of items.now)) }
{
    if items.is_empty() {
        return EMPTY;
    }
    let mut rows = NOTHING;
    for item in items {
        rows = rows.plus(DASH).plus(element_size(item));
    }
    rows.after_dash()
}

/// The size of the members of a mapping that is an element, after its `- `.
#[cycle(sizes)]
fn members_size(pairs: &[(Text, Tree)]) -> Size
    requires { byte_len (members_at (members_of pairs.now) 2) < 2 ^ 64 }
    ensures { result ≡ element_size (mapping (members_of pairs.now)) }
{
    if pairs.is_empty() {
        return EMPTY;
    }
    let mut rows = NOTHING;
    for (key, value) in pairs {
        let value = element_size(value).after_key(value);
        rows = rows.plus(MEMBER_LINE).plus(Size::of_key(key)).plus(value);
    }
    rows.after_dash()
}

/// The size of a text after a `- `.
fn scalar_size(text: &str) -> Size
    requires { byte_len (scalar_lines 2 (chars text.now)) < 2 ^ 64 }
    ensures { result ≡ element_size (grammar.text (chars text.now)) }
{
    match value_style(text) {
        ScalarStyle::Plain => Size {
            bytes: 1 + text.len() as u128,
            lines: 0,
        },
        ScalarStyle::Double => Size {
            bytes: 1 + quoted_length(text),
            lines: 0,
        },
        ScalarStyle::LiteralStrip => literal_size(3, text),
        ScalarStyle::LiteralClip => literal_size(2, text),
        ScalarStyle::LiteralKeep => literal_size(3, text),
    }
}

/// How many bytes a text has in double quotes.
fn quoted_length(text: &str) -> u128
    requires { byte_len (in_double_quotes (chars text.now)) < 2 ^ 64 }
    ensures { result ≡ byte_len (in_double_quotes (chars text.now)) }
{
    let mut bytes = ByteCount::new();
    match write_quoted(text, &mut bytes) {
        Ok(()) => bytes.total(),
        Err(never) => match never {},
    }
}

/// The size of a literal after a `- `: of its header, which has `header` bytes, and of its lines, which are indented by
/// two spaces more than the `- `.
fn literal_size(header: u128, text: &str) -> Size
    requires header { header ≤ 3 }
    requires short { byte_len (literal_lines 2 true (chars text.now)) < 2 ^ 64 }
    ensures bytes { result.bytes ≡ header + byte_len (literal_lines 2 true (chars text.now)) }
    ensures lines { result.lines ≡ indented_literal_lines true (chars text.now) }
{
    let mut size = Size {
        bytes: header,
        lines: 0,
    };
    let mut rest = text;
    while let Some((line, after)) = split_line(rest) {
        size = size.plus(line_size(line));
        rest = after;
    }
    if rest.is_empty() {
        return size;
    }
    size.plus(line_size(rest))
}

/// The size of a line of a literal, with its line feed, at an indentation that is two spaces more.
fn line_size(line: &str) -> Size
    ensures bytes { result.bytes ≡ byte_len (line_text 2 (chars line.now)) }
    ensures lines { result.bytes ≡ byte_len (line_text 0 (chars line.now)) + 2 * result.lines }
    ensures small { (result.bytes < 2 ^ 65) × (result.lines ≤ 1) }
{
    if line.is_empty() {
        return Size { bytes: 1, lines: 0 };
    }
    Size {
        bytes: 3 + line.len() as u128,
        lines: 1,
    }
}
