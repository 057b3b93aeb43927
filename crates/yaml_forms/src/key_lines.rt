// The keys of a mapping, or the indexes of a sequence, as lines.
ghost use Rattle.std.specs.Prelude.{◌≡◌, ℕ, ◌++◌, not, ◌==◌, IfOk, IfErr, OnOk, codes, decimal, encode_utf8_all};
ghost use Rattle.std.specs.Prelude.{string_bytes};
ghost use Rattle.yaml_forms.specs.Prelude.{list_all, chars, double_quote, shown, first, tree_of, elements_of};
ghost use Rattle.yaml_forms.specs.Prelude.{members_of};
ghost use Rattle.yaml_forms.specs.KeyLines.{HasKeys, LacksKeys, index_lines, key_in_line, member_lines, stands_in_line};

use crate::keys_fault::KeysFault;
use crate::shown::is_shown;
use itoa::Buffer;
use std::alloc::{AllocError, Global};
use yaml_data::{Text, Tree};
use yaml_writer::{Sink, write_quoted};

/// The keys of a mapping in order, a line each, with a line feed after each; of a sequence the indexes of its elements,
/// in decimal digits from 0 on. An empty collection has no lines.
///
/// A key that begins with something else than `"`, and each of whose characters the one style shows as itself, is the
/// line. Any other key, and the empty one, is in double quotes as the one style writes it. So each line is one key, a
/// line that begins with `"` is a quoted one, and the keys are read back from the lines
/// ([`keys_are_read_back`](crate::keys_are_read_back)). The time is linear in the length of the lines.
///
/// # Errors
/// - [`KeysFault::NotCollection`] if the value is a text.
/// - [`KeysFault::OutOfMemory`], only for a collection.
pub fn keys(alloc: Global, tree: &Tree) -> Result<String, KeysFault>
    ensures ok { IfOk result (λ lines. HasKeys (tree_of tree.now) (string_bytes lines)) }
    ensures refused { IfErr result (λ fault. LacksKeys (tree_of tree.now) fault) }
{
    match tree {
        Tree::Text(_) => Err(KeysFault::NotCollection),
        Tree::Seq(items) => Ok(indexes_of(alloc, items)?),
        Tree::Map(pairs) => Ok(keys_of(alloc, pairs)?),
    }
}

/// The keys of these pairs as lines.
fn keys_of(alloc: Global, pairs: &[(Text, Tree)]) -> Result<String, AllocError>
    ensures { IfOk result (λ lines.
        string_bytes lines ≡ encode_utf8_all (member_lines (members_of pairs.now))) }
{
    let mut lines = String::new(alloc);
    for (key, _) in pairs {
        write_key_line(key, &mut lines)?;
    }
    Ok(lines)
}

/// The indexes of these elements as lines.
fn indexes_of(alloc: Global, items: &[Tree]) -> Result<String, AllocError>
    ensures { IfOk result (λ lines.
        string_bytes lines ≡ encode_utf8_all (index_lines 0 (elements_of items.now))) }
{
    let mut lines = String::new(alloc);
    for index in 0..items.len() {
        write_index_line(index, &mut lines)?;
    }
    Ok(lines)
}

/// Writes an index and a line feed.
fn write_index_line<S: Sink>(index: usize, sink: &mut S) -> Result<(), S::Fault>
    ensures { OnOk result (S.Takes sink.old (decimal index ++ codes "\n") sink.new) }
{
    let mut digits = Buffer::new();
    sink.put_text(digits.format(index))?;
    end_line(sink)
}

/// Writes a key in a line, and a line feed.
fn write_key_line<S: Sink>(key: &str, sink: &mut S) -> Result<(), S::Fault>
    ensures { OnOk result (S.Takes sink.old (key_in_line (chars key.now) ++ codes "\n") sink.new) }
{
    write_key(key, sink)?;
    end_line(sink)
}

/// Writes the line feed that ends a line.
fn end_line<S: Sink>(sink: &mut S) -> Result<(), S::Fault>
    ensures { OnOk result (S.Takes sink.old (codes "\n") sink.new) }
{
    sink.put_char('\n')
}

/// Writes a key as it is, or in double quotes.
fn write_key<S: Sink>(key: &str, sink: &mut S) -> Result<(), S::Fault>
    ensures { OnOk result (S.Takes sink.old (key_in_line (chars key.now)) sink.new) }
{
    if stands_in_line(key) {
        sink.put_text(key)
    } else {
        write_quoted(key, sink)
    }
}

/// Whether a key is a line as it is.
fn stands_in_line(key: &str) -> bool
    ensures { result ≡ stands_in_line (chars key.now) }
{
    begins_unquoted(key) && are_all_shown(key)
}

/// Whether a text begins with something else than `"`.
fn begins_unquoted(text: &str) -> bool
    ensures { result ≡ first (λ c. not (c == double_quote)) (chars text.now) }
{
    text.chars().next().is_some_and(|c| c != '"')
}

/// Whether each character is shown.
fn are_all_shown(text: &str) -> bool
    ensures { result ≡ list_all shown (chars text.now) }
{
    text.chars().all(is_shown)
}
