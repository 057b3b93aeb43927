// Reading bytes as a stream of documents.
ghost use Rattle.std.specs.Prelude.{All, ◌≡◌, ◌<◌, ◌≤◌, ◌↔◌, Err, IfOk, IfErr, length};
ghost use Rattle.yaml_docs.specs.Prelude.{IsUtf8, utf8_valid_len, BorrowsPlain, events_of};
ghost use Rattle.yaml_recognizers.specs.Ranges.{RangesInOrder};
ghost use Rattle.yaml_docs.specs.Reading.{ReadsAs, RefusesBytes, IsSyntax};

use crate::documents::stream;
use crate::place::{Place, place_at};
use std::alloc::Global;
use yaml_chars::{CharFault, checked};
use yaml_events::{Events, ReadFault, ScanFault, Why};

/// Returns the events of all documents of a text, in order.
///
/// The text is UTF-8 (YAML 1.2.2, 5.2), and has at most `max` bytes. A byte order mark at its start is skipped. A
/// stream holds any number of documents (9.2). The ranges of scalars count bytes from 0, the byte order mark included.
/// The value of a plain scalar on one line is borrowed.
///
/// # Errors
///
/// - [`ReadFault::TooLong`] exactly if there are more than `max` bytes.
/// - [`ReadFault::NotUtf8`] exactly if there are at most so many and they are not UTF-8, with the length in bytes of
///   the longest prefix that is.
/// - [`ReadFault::Syntax`] only if they are not a stream of the profile, as `docs/READING.md` describes it.
/// - [`ReadFault::OutOfMemory`] if they are UTF-8 and there is no memory for the events.
///
/// It returns no other fault.
pub fn events<'a>(alloc: Global, bytes: &'a [u8], max: u64) -> Result<Events<'a>, ReadFault>
    ensures reads { IfOk result (λ events. ReadsAs bytes.now max events) }
    ensures too_long { (result ≡ Err ReadFault.TooLong) ↔ (max < length bytes.now) }
    ensures not_utf8 { length bytes.now ≤ max → (IsUtf8 bytes.now → ⊥) →
        result ≡ Err (ReadFault.NotUtf8 (utf8_valid_len bytes.now)) }
    ensures refused { IfErr result (RefusesBytes bytes.now max) }
    ensures borrowed { IfOk result (λ events. All (BorrowsPlain bytes.now) events) }
    ensures in_order { IfOk result (λ events.
        RangesInOrder 0 (events_of events) (length bytes.now)) }
{
    if bytes.len() as u64 > max {
        return Err(ReadFault::TooLong);
    }
    let text = match checked(bytes) {
        Ok(text) => text,
        Err(CharFault::NotUtf8 { at }) => return Err(ReadFault::NotUtf8 { at }),
    };
    match stream(alloc, text) {
        Ok(events) => Ok(events),
        Err(ScanFault::At { at, why }) => Err(syntax(text, at, why)),
        Err(ScanFault::OutOfMemory) => Err(ReadFault::OutOfMemory),
    }
}

/// Returns the fault at byte `at`, with its line and column. No contract says which these are, nor which reason it has.
fn syntax(text: &str, at: usize, why: Why) -> ReadFault
    ensures { IsSyntax result }
{
    let Place { line, column } = place_at(text, at);
    let why = match why {
        Why::Character if is_tab_in_indentation(text.as_bytes(), at) => Why::Indent,
        why => why,
    };
    ReadFault::Syntax { line, column, why }
}

/// Whether byte `at` is a TAB that only spaces and TABs come before on its line (YAML 1.2.2, 6.1).
fn is_tab_in_indentation(bytes: &[u8], at: usize) -> bool {
    let (before, after) = bytes.split_at(at.min(bytes.len()));
    let previous = before
        .iter()
        .rev()
        .find(|byte| !matches!(byte, b' ' | b'\t'));
    after.first() == Some(&b'\t') && matches!(previous, None | Some(b'\n' | b'\r'))
}
