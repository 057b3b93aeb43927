// The plain form of a tree: the one style, with values of other types than text plain (YAML 1.2.2, 10.3.2).
ghost use Rattle.std.specs.Prelude.{◌≡◌, ◌+◌, ◌*◌, ◌^◌, ◌<◌, ◌≤◌, ◌++◌, codes, IfOk, OnOk, encode_utf8_all};
ghost use Rattle.std.specs.Prelude.{string_bytes};
ghost use Rattle.yaml_forms.specs.Prelude.{chars, depth, elements_depth, members_depth, own_limits, tree_of};
ghost use Rattle.yaml_forms.specs.Prelude.{elements_of, members_of};
ghost use Rattle.yaml_forms.specs.PlainForm.{elements_at, lines_after_dash, members_at, plain_text, value_at, value_lines};

use crate::typed::is_typed;
use std::alloc::{AllocError, Global};
use yaml_data::{Text, Tree};
use yaml_writer::{Sink, write_key, write_scalar};

/// The plain form of a tree, for readers with types: the one style, but a value that YAML's core schema resolves to
/// null, a truth value, an integer or a float stands plain (YAML 1.2.2, 10.3.2). So `8080` is a number there, and so is
/// a version `1.10`. The empty text is `""`, and keys are as in the one style. It fails only if memory runs out.
///
/// The call stack grows with the depth, which therefore is at most 131. No tree that `yaml_tree` reads is deeper;
/// [`is_deeper_than`](Tree::is_deeper_than) tests any other one.
pub fn plain(alloc: Global, tree: &Tree) -> Result<String, AllocError>
    requires { depth (tree_of tree.now) ≤ own_limits.depth }
    ensures { IfOk result (λ text.
        string_bytes text ≡ encode_utf8_all (plain_text (tree_of tree.now))) }
{
    let mut text = String::new(alloc);
    write_plain(tree, &mut text)?;
    Ok(text)
}

/// Writes a tree as [`plain`] gives it. It fails only if the sink does. The depth is at most 131, as for [`plain`].
pub fn write_plain<S: Sink>(tree: &Tree, sink: &mut S) -> Result<(), S::Fault>
    requires { depth (tree_of tree.now) ≤ own_limits.depth }
    ensures { OnOk result (S.Takes sink.old (plain_text (tree_of tree.now)) sink.new) }
{
    match tree {
        Tree::Text(text) => write_text(text, 2, sink),
        Tree::Seq(items) => write_elements(items, 0, sink),
        Tree::Map(pairs) => write_members(pairs, 0, sink),
    }
}

/// Writes a text as a value, with the end of its last line; a literal's lines come after `indent` spaces.
fn write_text<S: Sink>(text: &str, indent: u64, sink: &mut S) -> Result<(), S::Fault>
    ensures { OnOk result (S.Takes sink.old (value_lines indent (chars text.now)) sink.new) }
{
    if is_typed(text) {
        write_line(text, sink)
    } else {
        write_scalar(text, indent, sink)
    }
}

/// Writes a text as it is, and a line feed.
fn write_line<S: Sink>(text: &str, sink: &mut S) -> Result<(), S::Fault>
    ensures { OnOk result (S.Takes sink.old (chars text.now ++ codes "\n") sink.new) }
{
    sink.put_text(text)?;
    sink.put_char('\n')
}

/// Writes a text as the value after the `:` of its key.
fn write_text_value<S: Sink>(text: &str, indent: u64, sink: &mut S) -> Result<(), S::Fault>
    requires { indent + 2 < 2 ^ 64 }
    ensures { OnOk result
        (S.Takes sink.old (codes " " ++ value_lines (indent + 2) (chars text.now)) sink.new) }
{
    sink.put_char(' ')?;
    write_text(text, indent + 2, sink)
}

/// Writes the elements of a sequence, each after `- `, at `indent`; the first without its spaces.
#[cycle(plain)]
fn write_elements<S: Sink>(items: &[Tree], indent: u64, sink: &mut S) -> Result<(), S::Fault>
    requires room { indent + 2 * elements_depth (elements_of items.now) < 2 ^ 64 }
    ensures { OnOk result (S.Takes sink.old (elements_at (elements_of items.now) indent) sink.new) }
{
    if items.is_empty() {
        return sink.put_text("[]\n");
    }
    let mut lead = 0u64;
    for item in items {
        sink.put_spaces(lead)?;
        sink.put_text("- ")?;
        write_element(item, indent, sink)?;
        lead = indent;
    }
    Ok(())
}

/// Writes an element after its `- ` at `indent`.
#[cycle(plain)]
fn write_element<S: Sink>(tree: &Tree, indent: u64, sink: &mut S) -> Result<(), S::Fault>
    requires room { indent + 2 * depth (tree_of tree.now) < 2 ^ 64 }
    ensures { OnOk result (S.Takes sink.old (lines_after_dash (tree_of tree.now) indent) sink.new) }
{
    match tree {
        Tree::Text(text) => write_text(text, indent + 2, sink),
        Tree::Seq(items) => write_elements(items, indent + 2, sink),
        Tree::Map(pairs) => write_members(pairs, indent + 2, sink),
    }
}

/// Writes the members of a mapping at `indent`, the first without its spaces.
#[cycle(plain)]
fn write_members<S: Sink>(pairs: &[(Text, Tree)], indent: u64, sink: &mut S) -> Result<(), S::Fault>
    requires room { indent + 2 * members_depth (members_of pairs.now) < 2 ^ 64 }
    ensures { OnOk result (S.Takes sink.old (members_at (members_of pairs.now) indent) sink.new) }
{
    if pairs.is_empty() {
        return sink.put_text("{}\n");
    }
    let mut lead = 0u64;
    for (key, value) in pairs {
        sink.put_spaces(lead)?;
        write_key(key, indent, sink)?;
        write_value(value, indent, sink)?;
        lead = indent;
    }
    Ok(())
}

/// Writes a value after the `:` of its key at `indent`.
#[cycle(plain)]
fn write_value<S: Sink>(tree: &Tree, indent: u64, sink: &mut S) -> Result<(), S::Fault>
    requires room { indent + 2 * depth (tree_of tree.now) < 2 ^ 64 }
    ensures { OnOk result (S.Takes sink.old (value_at (tree_of tree.now) indent) sink.new) }
{
    match tree {
        Tree::Text(text) => write_text_value(text, indent, sink),
        Tree::Seq(items) => {
            if items.is_empty() {
                return sink.put_text(" []\n");
            }
            sink.put_char('\n')?;
            sink.put_spaces(indent + 2)?;
            write_elements(items, indent + 2, sink)
        }
        Tree::Map(pairs) => {
            if pairs.is_empty() {
                return sink.put_text(" {}\n");
            }
            sink.put_char('\n')?;
            sink.put_spaces(indent + 2)?;
            write_members(pairs, indent + 2, sink)
        }
    }
}
