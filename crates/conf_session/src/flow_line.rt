// Sets and deletes that are spelled as a flow mapping on one line, read without the general reader.
ghost use Rattle.std.specs.Prelude.{◌≡◌, ◌≤◌, ◌++◌, Bool, true, codes, IfOk, IfSome, length, take};
ghost use Rattle.conf_session.specs.Prelude.{command_of, list_all};
ghost use Rattle.conf_session.specs.FlowLine.{BeginsWith, IsKeyOf, IsMember, IsFlowLine, flow_char, gap};
ghost use Rattle.conf_session.specs.{PartLines.part_cut, Said.{Says, single_part}};
ghost use Rattle.conf_session.specs.Requests.{Asks, changing};

use crate::field_lines::{begins_bare, cut_quoted, is_bare_char};
use crate::part_lines::made_part;
use crate::parts::Part;
use crate::said::PIECE_LIMIT;
use conf_record::EditMembers;
use conf_state::Command;
use std::alloc::{AllocError, Global};
use std::str;
use yaml_chars::flow_indicator;
use yaml_recognizers::texts::unambiguous;

/// The end of a mapping's line, and the closing line.
const END: &str = "}\n...\n";

/// The command of a piece that is a `set` of a text or a `delete` in a flow mapping on one line (YAML 1.2.2, 7.4.2), as
/// a JSON object is (RFC 8259, 4), with the closing line after it. Its members are in the order of the one style. A
/// space may stand before each of them, before the closing brace, and behind a `:`; behind that of a plain key it has
/// to. Each text is as [`cut_quoted`] or [`cut_bare`] takes it. `None` says nothing of the piece. It fails only if
/// memory runs out.
pub(crate) fn edit_in_flow(alloc: Global, piece: &[u8]) -> Result<Option<Command>, AllocError>
    ensures { IfOk result (λ found. IfSome found
        (λ command. Asks piece.now (changing (command_of command)))) }
{
    let Some(texts) = texts_in_piece(piece) else {
        return Ok(None);
    };
    match made_part(alloc, texts)? {
        Some(Part::Plain(edit)) => Ok(Some(Command::from(edit))),
        _ => Ok(None),
    }
}

/// The texts of such a piece.
fn texts_in_piece(piece: &[u8]) -> Option<EditMembers<&str, &str>>
    ensures { IfSome result (λ texts. Says piece.now (single_part (part_cut texts))) }
{
    unambiguous();
    if piece.len() as u64 > PIECE_LIMIT {
        return None;
    }
    let Ok(text) = str::from_utf8(piece) else {
        return None;
    };
    texts_in_line(text)
}

/// The texts of such a mapping and of the closing line.
fn texts_in_line(text: &str) -> Option<EditMembers<&str, &str>>
    ensures { IfSome result (λ texts. IsFlowLine text.now (part_cut texts)) }
{
    let members = text.strip_prefix('{')?;
    match set_in_flow(members) {
        Some(texts) => Some(texts),
        None => delete_in_flow(members),
    }
}

/// The texts of a `set`, from the text behind the opening brace.
fn set_in_flow(members: &str) -> Option<EditMembers<&str, &str>>
    ensures { IfSome result (λ texts. IsFlowLine (codes "{" ++ members.now) (part_cut texts)) }
{
    let (name, after_name) = cut_member(members, "set")?;
    let path_on = after_name.strip_prefix(',')?;
    let (path, after_path) = cut_member(path_on, "path")?;
    let value_on = after_path.strip_prefix(',')?;
    let (value, end) = cut_member(value_on, "value")?;
    if behind_space(end) != END {
        return None;
    }
    Some(EditMembers::Set { name, path, value })
}

/// The texts of a `delete`, from the text behind the opening brace.
fn delete_in_flow(members: &str) -> Option<EditMembers<&str, &str>>
    ensures { IfSome result (λ texts. IsFlowLine (codes "{" ++ members.now) (part_cut texts)) }
{
    let (name, after_name) = cut_member(members, "delete")?;
    let path_on = after_name.strip_prefix(',')?;
    let (path, end) = cut_member(path_on, "path")?;
    if behind_space(end) != END {
        return None;
    }
    Some(EditMembers::Delete { name, path })
}

/// The text of the first member, which has this key, and the rest behind it.
fn cut_member<'t>(text: &'t str, key: &str) -> Option<(&'t str, &'t str)>
    ensures { IfSome result (λ cut. IsMember text.now key.now cut.0.now cut.1.now) }
{
    let after_key = behind_key(behind_space(text), key)?;
    match cut_quoted(after_key) {
        Some(cut) => Some(cut),
        None => cut_bare(after_key),
    }
}

/// The text behind a key, its `:`, and a space, if one is there.
fn behind_key<'t>(text: &'t str, key: &str) -> Option<&'t str>
    ensures { IfSome result (λ rest. IsKeyOf text.now key.now rest.now) }
{
    if let Some(quoted) = text.strip_prefix('"') {
        let colon_on = quoted.strip_prefix(key)?.strip_prefix("\":")?;
        return Some(behind_space(colon_on));
    }
    match text.strip_prefix('\'') {
        Some(quoted) => {
            let colon_on = quoted.strip_prefix(key)?.strip_prefix("':")?;
            Some(behind_space(colon_on))
        }
        None => text.strip_prefix(key)?.strip_prefix(": "),
    }
}

/// The plain text that a text begins with, and what is behind it. It has only ASCII characters that are not whitespace,
/// `:`, `#` or a flow indicator, and begins with no indicator (YAML 1.2.2, 5.3).
fn cut_bare(text: &str) -> Option<(&str, &str)>
    ensures { IfSome result (λ cut. BeginsWith text.now cut.0.now cut.1.now) }
{
    let (value, rest) = text.split_at_checked(flow_length(text.as_bytes()))?;
    if !begins_bare(value.as_bytes()) {
        return None;
    }
    Some((value, rest))
}

/// How many bytes at the start may stand in a plain text between braces.
fn flow_length(bytes: &[u8]) -> usize
    ensures within { result ≤ length bytes.now }
    ensures all { list_all flow_char (take result bytes.now) ≡ true }
{
    let mut length = 0;
    while length < bytes.len() && is_flow_char(bytes[length]) {
        length += 1;
    }
    length
}

/// Whether a byte may stand in a plain text between braces.
#[inline]
fn is_flow_char(byte: u8) -> bool
    ensures { result ≡ flow_char byte }
{
    is_bare_char(byte) && !flow_indicator(char::from(byte))
}

/// The text behind a space, if it begins with one.
fn behind_space(text: &str) -> &str
    ensures { (spaced : Bool) × (text.now ≡ gap spaced ++ result.now) }
{
    match text.strip_prefix(' ') {
        Some(rest) => rest,
        None => text,
    }
}
