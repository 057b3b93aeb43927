// The JSON text of a tree (RFC 8259, 3 to 5).
ghost use Rattle.std.specs.Prelude.{◌≡◌, ◌≤◌, IfOk, OnOk, encode_utf8_all, string_bytes};
ghost use Rattle.yaml_forms.specs.Prelude.{chars, depth, mapping, sequence, own_limits, tree_of, elements_of};
ghost use Rattle.yaml_forms.specs.Prelude.{members_of};
ghost use Rattle.yaml_forms.specs.Json.{json_line, json_member, json_text};

use crate::json_string::write_json_string;
use std::alloc::{AllocError, Global};
use yaml_data::{Text, Tree};
use yaml_writer::Sink;

/// The JSON text of a tree (RFC 8259), on one line and without whitespace. A mapping is an object with its members in
/// order, a sequence an array, and each text a string, also one that looks like a number. It takes time linear in the
/// text's length, and fails only if memory runs out.
///
/// The call stack grows with the depth, which therefore is at most 131. No tree that `yaml_tree` reads is deeper;
/// [`is_deeper_than`](Tree::is_deeper_than) tests any other one.
pub fn json(alloc: Global, tree: &Tree) -> Result<String, AllocError>
    requires { depth (tree_of tree.now) ≤ own_limits.depth }
    ensures { IfOk result (λ text.
        string_bytes text ≡ encode_utf8_all (json_text (tree_of tree.now))) }
{
    let mut text = String::new(alloc);
    write_json(tree, &mut text)?;
    Ok(text)
}

/// The JSON text of a tree as [`json`] gives it, with a line feed after it. It fails only if memory runs out. The depth
/// is at most 131, as for [`json`].
pub fn json_line(alloc: Global, tree: &Tree) -> Result<String, AllocError>
    requires { depth (tree_of tree.now) ≤ own_limits.depth }
    ensures { IfOk result (λ line.
        string_bytes line ≡ encode_utf8_all (json_line (tree_of tree.now))) }
{
    let mut line = String::new(alloc);
    write_json(tree, &mut line)?;
    line.put_char('\n')?;
    Ok(line)
}

/// Writes the JSON text of a tree, as [`json`] gives it. It fails only if the sink does. The depth is at most 131, as
/// for [`json`].
pub fn write_json<S: Sink>(tree: &Tree, sink: &mut S) -> Result<(), S::Fault>
    requires { depth (tree_of tree.now) ≤ own_limits.depth }
    ensures { OnOk result (S.Takes sink.old (json_text (tree_of tree.now)) sink.new) }
{
    write_json_value(tree, sink)
}

/// Writes the JSON text of a tree.
#[cycle(json)]
fn write_json_value<S: Sink>(tree: &Tree, sink: &mut S) -> Result<(), S::Fault>
    ensures { OnOk result (S.Takes sink.old (json_text (tree_of tree.now)) sink.new) }
{
    match tree {
        Tree::Text(text) => write_json_string(text, sink),
        Tree::Seq(items) => write_array(items, sink),
        Tree::Map(pairs) => write_object(pairs, sink),
    }
}

/// Writes a sequence as an array: each element after `[` or a comma, and `]`.
#[cycle(json)]
fn write_array<S: Sink>(items: &[Tree], sink: &mut S) -> Result<(), S::Fault>
    ensures { OnOk result
        (S.Takes sink.old (json_text (sequence (elements_of items.now))) sink.new) }
{
    if items.is_empty() {
        return sink.put_text("[]");
    }
    let mut lead = '[';
    for item in items {
        sink.put_char(lead)?;
        write_json_value(item, sink)?;
        lead = ',';
    }
    sink.put_char(']')
}

/// Writes a mapping as an object: each member after `{` or a comma, and `}`.
#[cycle(json)]
fn write_object<S: Sink>(pairs: &[(Text, Tree)], sink: &mut S) -> Result<(), S::Fault>
    ensures { OnOk result
        (S.Takes sink.old (json_text (mapping (members_of pairs.now))) sink.new) }
{
    if pairs.is_empty() {
        return sink.put_text("{}");
    }
    let mut lead = '{';
    for (key, value) in pairs {
        sink.put_char(lead)?;
        write_member(key, value, sink)?;
        lead = ',';
    }
    sink.put_char('}')
}

/// Writes a member of an object: its key, a colon and its value.
#[cycle(json)]
fn write_member<S: Sink>(key: &str, value: &Tree, sink: &mut S) -> Result<(), S::Fault>
    ensures { OnOk result (S.Takes sink.old
        (json_member (chars key.now) (json_text (tree_of value.now))) sink.new) }
{
    write_json_string(key, sink)?;
    sink.put_char(':')?;
    write_json_value(value, sink)
}
