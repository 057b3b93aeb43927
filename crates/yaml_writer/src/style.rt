// The one style: the text of a tree, written to a sink.
ghost use Rattle.std.specs.Prelude.{◌+◌, ◌*◌, ◌^◌, ◌<◌, ◌≤◌, ◌++◌, true, codes, OnOk};
ghost use Rattle.yaml_writer.specs.Prelude.{chars, spaces, depth, elements_depth, members_depth, literal_lines};
ghost use Rattle.yaml_writer.specs.Prelude.{scalar_lines, key_text, key_lines, elements_at, lines_after_dash};
ghost use Rattle.yaml_writer.specs.Prelude.{members_at, value_at, style_text, own_limits, tree_of, elements_of};
ghost use Rattle.yaml_writer.specs.Prelude.{members_of};
ghost use Rattle.yaml_grammar.specs.Trees as grammar;

use crate::count::is_long_key;
use crate::literal::write_literal_lines;
use crate::quoted::write_quoted;
use crate::scalar_style::{ScalarStyle, key_style, value_style};
use crate::sink::Sink;
use yaml_data::{Text, Tree};

/// Writes a tree in the one style: the text, with the end of its last line. It fails only if the sink does. The call
/// stack grows with the depth, which therefore is at most 131; [`is_deeper_than`](Tree::is_deeper_than) tests that.
pub fn write_style<S: Sink>(tree: &Tree, sink: &mut S) -> Result<(), S::Fault>
    requires { depth (tree_of tree.now) ≤ own_limits.depth }
    ensures { OnOk result (S.Takes sink.old (style_text (tree_of tree.now)) sink.new) }
{
    match tree {
        Tree::Text(text) => write_scalar(text, 2, sink),
        Tree::Seq(items) => write_elements(items, 0, sink),
        Tree::Map(pairs) => write_members(pairs, 0, sink),
    }
}

/// Writes a text as the value after the `:` of its key, with the end of its last line. The key's line is indented by
/// `indent` spaces, and two more fit in a `u64`. It fails only if the sink does.
pub fn write_text<S: Sink>(text: &str, indent: u64, sink: &mut S) -> Result<(), S::Fault>
    requires { indent + 2 < 2 ^ 64 }
    ensures { OnOk result (S.Takes sink.old (value_at
        (grammar.text (chars text.now)) indent) sink.new) }
{
    sink.put_char(' ')?;
    write_scalar(text, indent + 2, sink)
}

/// Writes a text as a value, with the end of its last line; a literal's lines come after `indent` spaces. It fails only
/// if the sink does.
pub fn write_scalar<S: Sink>(text: &str, indent: u64, sink: &mut S) -> Result<(), S::Fault>
    ensures { OnOk result (S.Takes sink.old (scalar_lines indent (chars text.now)) sink.new) }
{
    match value_style(text) {
        ScalarStyle::Plain => {
            sink.put_text(text)?;
            sink.put_char('\n')
        }
        ScalarStyle::Double => {
            write_quoted(text, sink)?;
            sink.put_char('\n')
        }
        ScalarStyle::LiteralStrip => write_literal("|-\n", text, indent, sink),
        ScalarStyle::LiteralClip => write_literal("|\n", text, indent, sink),
        ScalarStyle::LiteralKeep => write_literal("|+\n", text, indent, sink),
    }
}

/// Writes a literal: its header, and its lines after `indent` spaces.
fn write_literal<S: Sink>(
    header: &str,
    text: &str,
    indent: u64,
    sink: &mut S,
) -> Result<(), S::Fault>
    ensures { OnOk result (S.Takes sink.old
        (chars header.now ++ literal_lines indent true (chars text.now)) sink.new) }
{
    sink.put_text(header)?;
    write_literal_lines(text, indent, sink)
}

/// Writes a key without its `:`.
pub(crate) fn write_key_text<S: Sink>(key: &str, sink: &mut S) -> Result<(), S::Fault>
    ensures { OnOk result (S.Takes sink.old (key_text (chars key.now)) sink.new) }
{
    match key_style(key) {
        ScalarStyle::Plain => sink.put_text(key),
        _ => write_quoted(key, sink),
    }
}

/// Writes a key through its `:`, without the spaces before its line. A key that has more than 1,000 characters as
/// written comes after `? `, and its `:` on the next line after `indent` spaces (YAML 1.2.2, 8.2.2). It fails only if
/// the sink does.
pub fn write_key<S: Sink>(key: &str, indent: u64, sink: &mut S) -> Result<(), S::Fault>
    ensures { OnOk result (S.Takes sink.old (key_lines indent (chars key.now)) sink.new) }
{
    if is_long_key(key) {
        return write_long_key(key, indent, sink);
    }
    write_key_text(key, sink)?;
    sink.put_char(':')
}

/// Writes a long key after `? `, and its `:` on the next line.
fn write_long_key<S: Sink>(key: &str, indent: u64, sink: &mut S) -> Result<(), S::Fault>
    ensures { OnOk result (S.Takes sink.old
        (codes "? " ++ key_text (chars key.now) ++ codes "\n" ++ spaces indent ++ codes ":")
        sink.new) }
{
    sink.put_text("? ")?;
    write_key_text(key, sink)?;
    sink.put_char('\n')?;
    sink.put_spaces(indent)?;
    sink.put_char(':')
}

/// Writes the elements of a sequence, each after `- `, at `indent`; the first without its spaces.
#[cycle(lines)]
fn write_elements<S: Sink>(items: &[Tree], indent: u64, sink: &mut S) -> Result<(), S::Fault>
    requires room { indent + 2 * elements_depth (elements_of items.now) < 2 ^ 64 }
    ensures { OnOk result (S.Takes sink.old (elements_at (elements_of items.now) indent) sink.new) }
{
    if items.is_empty() {
        return sink.put_text("[]\n");
    }
    let mut lead = 0u64;
    for item in items {
        sink.put_spaces(lead)?;
        sink.put_text("- ")?;
        write_element(item, indent, sink)?;
        lead = indent;
    }
    Ok(())
}

/// Writes an element after its `- ` at `indent`.
#[cycle(lines)]
pub(crate) fn write_element<S: Sink>(tree: &Tree, indent: u64, sink: &mut S) -> Result<(), S::Fault>
    requires room { indent + 2 * depth (tree_of tree.now) < 2 ^ 64 }
    ensures { OnOk result (S.Takes sink.old (lines_after_dash (tree_of tree.now) indent) sink.new) }
{
    match tree {
        Tree::Text(text) => write_scalar(text, indent + 2, sink),
        Tree::Seq(items) => write_elements(items, indent + 2, sink),
        Tree::Map(pairs) => write_members(pairs, indent + 2, sink),
    }
}

/// Writes the members of a mapping at `indent`, the first without its spaces.
#[cycle(lines)]
fn write_members<S: Sink>(pairs: &[(Text, Tree)], indent: u64, sink: &mut S) -> Result<(), S::Fault>
    requires room { indent + 2 * members_depth (members_of pairs.now) < 2 ^ 64 }
    ensures { OnOk result (S.Takes sink.old (members_at (members_of pairs.now) indent) sink.new) }
{
    if pairs.is_empty() {
        return sink.put_text("{}\n");
    }
    let mut lead = 0u64;
    for (key, value) in pairs {
        sink.put_spaces(lead)?;
        write_key(key, indent, sink)?;
        write_value_lines(value, indent, sink)?;
        lead = indent;
    }
    Ok(())
}

/// Writes a value after the `:` of its key, with the end of its last line. The key's line is indented by `indent`
/// spaces, and 262 more fit in a `u64`. It fails only if the sink does. The call stack grows with the depth, which
/// therefore is at most 131; [`is_deeper_than`](Tree::is_deeper_than) tests that.
pub fn write_value<S: Sink>(tree: &Tree, indent: u64, sink: &mut S) -> Result<(), S::Fault>
    requires deep { depth (tree_of tree.now) ≤ own_limits.depth }
    requires room { indent + 2 * own_limits.depth < 2 ^ 64 }
    ensures { OnOk result (S.Takes sink.old (value_at (tree_of tree.now) indent) sink.new) }
{
    write_value_lines(tree, indent, sink)
}

/// Writes a value after the `:` of its key at `indent`.
#[cycle(lines)]
fn write_value_lines<S: Sink>(tree: &Tree, indent: u64, sink: &mut S) -> Result<(), S::Fault>
    requires room { indent + 2 * depth (tree_of tree.now) < 2 ^ 64 }
    ensures { OnOk result (S.Takes sink.old (value_at (tree_of tree.now) indent) sink.new) }
{
    match tree {
        Tree::Text(text) => write_text(text, indent, sink),
        Tree::Seq(items) => {
            if items.is_empty() {
                return sink.put_text(" []\n");
            }
            sink.put_char('\n')?;
            sink.put_spaces(indent + 2)?;
            write_elements(items, indent + 2, sink)
        }
        Tree::Map(pairs) => {
            if pairs.is_empty() {
                return sink.put_text(" {}\n");
            }
            sink.put_char('\n')?;
            sink.put_spaces(indent + 2)?;
            write_members(pairs, indent + 2, sink)
        }
    }
}
