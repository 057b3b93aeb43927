// The documents of a stream (YAML 1.2.2, 6.8 and chapter 9).
ghost use Rattle.std.specs.Prelude.{All, ◌≡◌, true, false, Some, None, IfOk, IfErr, IfSome, IfNone};
ghost use Rattle.yaml_docs.specs.Prelude.{IsCharBoundary, chars, rest, BorrowsPlain, events_of, line_starts, Refuses};
ghost use Rattle.yaml_docs.specs.Prelude.{omits, all_comments, section_at, dash, dot, marker_of};
ghost use Rattle.yaml_recognizers.specs.CanonicalComments.{is_line_end};
ghost use Rattle.yaml_docs.specs.Documents.{ExplicitRead, NoExplicit, DocumentRead, NoDirected};
ghost use Rattle.yaml_docs.specs.Documents.{IsMarkEnd, IsOmitted, SuffixRead, NoSuffix, ExplicitNodeRead, NoExplicitNode};
ghost use Rattle.yaml_docs.specs.Sections.{Begins, BeginsSection, SectionRead, ends_document, read_as, stream_meaning};

use crate::directive::directive_end;
use std::alloc::Global;
use yaml_block::block_node;
use yaml_chars::next_char;
use yaml_events::{BlockContext, Event, Events, ScanFault, Why};
use yaml_scan::{Line, Marker, is_marker, is_marker_of, line_after, solid_line, stands_at};

/// What begins at a line of a stream that holds more than whitespace and a comment.
#[derive(Clone, Copy, Debug, PartialEq, Eq)]
pub(crate) enum Section {
    /// `...`, which ends a document (9.1.2).
    Suffix,
    /// `---` and a document (9.1.4).
    Explicit,
    /// `%YAML`, and after it `---` and a document (9.1.5).
    Directed,
    /// A document without a marker (9.1.3).
    Bare,
}

/// Returns the events of all documents of `text`, in order (9.2).
pub(crate) fn stream<'a>(alloc: Global, text: &'a str) -> Result<Events<'a>, ScanFault>
    ensures found { IfOk result (λ events.
        stream_meaning (chars text.now) ≡ Some (events_of events)) }
    ensures none { IfErr result (λ fault. Refuses fault (stream_meaning (chars text.now) ≡ None)) }
    ensures borrowed { IfOk result (λ events. All (BorrowsPlain text.now) events) }
{
    let mut events = Events::new(alloc);
    // Whether a bare document or a directive may begin at `at`.
    let mut opened = true;
    let mut at = mark_end(text);
    'sections: loop {
        let line = solid_line(text, at);
        if line.start == text.len() {
            return Ok(events);
        }
        let section = section_at(text, line, opened)?;
        at = section_end(alloc, &mut events, text, line.start, section)?;
        opened = ends_document(section);
    }
}

/// Returns whether a section ends the document before it, so that a bare document or a directive may follow.
fn ends_document(section: Section) -> bool
    ensures { result ≡ ends_document section }
{
    matches!(section, Section::Suffix)
}

/// Returns the end of the byte order mark that `text` begins with (5.2), or 0.
fn mark_end(text: &str) -> usize
    ensures { IsMarkEnd text.now result }
{
    let Some((character, len)) = next_char(text, 0) else {
        return 0;
    };
    if character == '\u{feff}' { len } else { 0 }
}

/// Returns what begins at a line that holds more than whitespace and a comment. A bare document or a directive may
/// begin there only if `opened` is true.
fn section_at(text: &str, line: Line, opened: bool) -> Result<Section, ScanFault>
    requires at { IsCharBoundary text.now line.start }
    requires first { IsCharBoundary text.now line.first }
    requires solid { is_line_end (rest text.now line.start) ≡ false }
    ensures found { IfOk result (BeginsSection opened (rest text.now line.start)) }
    ensures none { IfErr result (λ fault.
        Refuses fault (section_at opened true (rest text.now line.start) ≡ None)) }
{
    if is_marker_of(text, line.start, Marker::DocumentEnd) {
        return Ok(Section::Suffix);
    }
    if is_marker_of(text, line.start, Marker::DirectivesEnd) {
        return Ok(Section::Explicit);
    }
    if !opened {
        return Err(ScanFault::At {
            at: line.first,
            why: why_not_opened(text, line),
        });
    }
    if stands_at(text, line.start, b'%') {
        return Ok(Section::Directed);
    }
    Ok(Section::Bare)
}

/// Returns why neither a bare document nor a directive may begin at a line after a document.
fn why_not_opened(text: &str, line: Line) -> Why
    requires { IsCharBoundary text.now line.first }
{
    if stands_at(text, line.first, b'%') {
        Why::Directive
    } else {
        Why::Indent
    }
}

/// Appends the events of the section that begins at `at`, and returns its end.
fn section_end<'a>(
    alloc: Global,
    events: &mut Events<'a>,
    text: &'a str,
    at: usize,
    section: Section,
) -> Result<usize, ScanFault>
    requires at { IsCharBoundary text.now at }
    requires line { line_starts text.now at ≡ true }
    requires begins { Begins section (rest text.now at) }
    ensures reads { IfOk result (SectionRead text.now at section events.old events.new) }
    ensures none { IfErr result (λ fault. Refuses fault (read_as section (rest text.now at) ≡ None)) }
{
    match section {
        Section::Suffix => suffix_end(text, at),
        Section::Explicit => explicit_end(alloc, events, text, at),
        Section::Directed => directed_end(alloc, events, text, at),
        Section::Bare => bare_end(alloc, events, text, at),
    }
}

/// Returns the end of the `...` at `at` and of its line (9.1.2, `l-document-suffix`).
fn suffix_end(text: &str, at: usize) -> Result<usize, ScanFault>
    requires at { IsCharBoundary text.now at }
    requires mark { marker_of dot (rest text.now at) ≡ true }
    ensures reads { IfOk result (SuffixRead text.now at) }
    ensures none { IfErr result (λ fault. Refuses fault (NoSuffix (rest text.now at))) }
{
    let Some(line) = line_after(text, at + 3) else {
        return Err(ScanFault::At {
            at: at + 3,
            why: Why::Marker,
        });
    };
    Ok(line.start)
}

/// Appends the events of the document without a marker at `at`, and returns its end (9.1.3, `l-bare-document`).
fn bare_end<'a>(
    alloc: Global,
    events: &mut Events<'a>,
    text: &'a str,
    at: usize,
) -> Result<usize, ScanFault>
    requires at { IsCharBoundary text.now at }
    requires line { line_starts text.now at ≡ true }
    ensures reads { IfOk result (SectionRead text.now at Section.Bare events.old events.new) }
    ensures none { IfErr result (λ fault.
        Refuses fault (read_as Section.Bare (rest text.now at) ≡ None)) }
{
    events.push(Event::DocStart)?;
    let end = block_node(alloc, events, text, at, -1, BlockContext::Bin)?;
    events.push(Event::DocEnd)?;
    Ok(end)
}

/// Appends the events of the document whose `---` is at `at`, and returns its end (9.1.4, `l-explicit-document`).
fn explicit_end<'a>(
    alloc: Global,
    events: &mut Events<'a>,
    text: &'a str,
    at: usize,
) -> Result<usize, ScanFault>
    requires at { IsCharBoundary text.now at }
    requires mark { marker_of dash (rest text.now at) ≡ true }
    ensures reads { IfOk result (ExplicitRead text.now at events.old events.new) }
    ensures none { IfErr result (λ fault. Refuses fault (NoExplicit (rest text.now at))) }
{
    events.push(Event::DocStart)?;
    let end = explicit_node_end(alloc, events, text, at + 3)?;
    events.push(Event::DocEnd)?;
    Ok(end)
}

/// Appends the events of the node after a `---` that ends at `at`, and returns its end. An omitted node is empty text.
fn explicit_node_end<'a>(
    alloc: Global,
    events: &mut Events<'a>,
    text: &'a str,
    at: usize,
) -> Result<usize, ScanFault>
    requires at { IsCharBoundary text.now at }
    requires inside_line { line_starts text.now at ≡ false }
    ensures reads { IfOk result (ExplicitNodeRead text.now at events.old events.new) }
    ensures none { IfErr result (λ fault. Refuses fault (NoExplicitNode (rest text.now at))) }
{
    let Some(end) = omitted_end(text, at) else {
        return block_node(alloc, events, text, at, -1, BlockContext::Bin);
    };
    events.push_omitted(at)?;
    Ok(end)
}

/// Returns the end of the document if nothing but comments follows its `---`, which ends at `at`. Returns None if a
/// node follows.
fn omitted_end(text: &str, at: usize) -> Option<usize>
    requires { IsCharBoundary text.now at }
    ensures found { IfSome result (IsOmitted text.now at) }
    ensures none { IfNone result (omits 0 false (all_comments false (rest text.now at)) ≡ false) }
{
    let Some(line) = line_after(text, at) else {
        return None;
    };
    if line.start == text.len() {
        return Some(line.start);
    }
    if !is_marker(text, line.start) {
        return None;
    }
    Some(line.start)
}

/// Appends the events of the document whose directive is at `at`, and returns its end (9.1.5,
/// `l-directive-document`).
fn directed_end<'a>(
    alloc: Global,
    events: &mut Events<'a>,
    text: &'a str,
    at: usize,
) -> Result<usize, ScanFault>
    requires { IsCharBoundary text.now at }
    ensures reads { IfOk result (DocumentRead text.now at events.old events.new) }
    ensures none { IfErr result (λ fault. Refuses fault (NoDirected (rest text.now at))) }
{
    let Some(line) = directive_end(text, at) else {
        return Err(ScanFault::At {
            at,
            why: Why::Directive,
        });
    };
    if !is_marker_of(text, line.start, Marker::DirectivesEnd) {
        return Err(ScanFault::At {
            at: line.first,
            why: Why::Directive,
        });
    }
    explicit_end(alloc, events, text, line.start)
}
