// Where the configurations of a base are in its text, found line by line. None is built.
ghost use Rattle.std.specs.Prelude.{◌≡◌, ◌≤◌, ◌-◌, List, codes, length, IfOk, IfSome};
ghost use Rattle.conf_record.specs.Prelude.{text_of, Entry, Contents, count_limit};
ghost use Rattle.yaml_grammar.specs.Trees.{Tree as Meant};
ghost use Rattle.conf_record.specs.BaseSpans.{IsGoodEntry, AreFound, IsFound, bytes_at};

use crate::written::is_end;
use crate::written_base::cut_frame;
use conf_state::good_name;
use indexmap::IndexMap;
use std::alloc::Global;
use yaml_styled::{Miss, read_key, skip_value};
use yaml_tree::Limits;

/// Where the lines of a configuration are in a text, with its name. Both places are counted from the end of the text.
#[derive(Clone, Copy)]
pub(crate) struct Span {
    /// How many bytes the text has from the start of the lines on.
    pub from_start: usize,
    /// How many bytes the text has after the lines.
    pub from_end: usize,
}

impl Span {
    /// How many bytes the lines have.
    pub fn length(&self) -> usize
        ensures { result ≡ self.now.from_start - self.now.from_end }
    {
        self.from_start.saturating_sub(self.from_end)
    }
}

/// The spans of configurations by their names, in order.
pub(crate) type Spans = IndexMap<String, Span>;

/// What is found in the text of a base.
#[derive(Drop)]
pub(crate) struct Found {
    pub spans: Spans,
    /// How many commands were accepted.
    pub count: u64,
    /// How many bytes all configurations have, with their names.
    pub total: u64,
}

/// A configuration that lines begin with, of which nothing is made.
#[derive(Drop)]
struct Skipped<'t> {
    name: String,
    /// What comes after it.
    rest: &'t str,
}

impl Found {
    /// What is found in a text that is the very one that [`base_text`](crate::base_text) writes for a state with a
    /// configuration. A configuration within a few bytes of its limit may be a miss.
    pub fn of(alloc: Global, text: &str) -> Result<Found, Miss>
        ensures { IfOk result (λ found. (s : Contents)
            × IsFound text.now found.spans.entries found.count found.total s) }
    {
        if text.len() as u64 > Limits::KEPT.bytes {
            return Err(Miss::OtherForm);
        }
        let Some(frame) = cut_frame(text) else {
            return Err(Miss::OtherForm);
        };
        let spans = find_spans(alloc, frame.lines)?;
        if spans.is_empty() {
            return Err(Miss::OtherForm);
        }
        Ok(Found::new(spans, frame.count, frame.lines))
    }

    /// These spans on the lines of a base's configurations, which end with the document.
    fn new(spans: Spans, count: u64, lines: &str) -> Found
        ensures spans { result.spans ≡ spans }
        ensures count { (result.count ≡ count) × (count ≤ count_limit) }
        ensures total { result.total ≡ length lines.now - length (codes "...\n") }
    {
        let total = lines.len().saturating_sub("...\n".len());
        Found {
            spans,
            count,
            total: total as u64,
        }
    }
}

/// The spans of the configurations on the lines of a base, up to the end of the document.
fn find_spans(alloc: Global, lines: &str) -> Result<Spans, Miss>
    ensures { IfOk result (λ spans. (es : List Entry)
        × AreFound lines.now spans.entries es (codes "...\n")) }
{
    let mut spans = IndexMap::new(alloc);
    let mut left = lines;
    'entries: for _ in 0..lines.len() {
        if is_end(left) {
            return Ok(spans);
        }
        let entry = skip_entry(alloc, left)?;
        let span = Span {
            from_start: left.len(),
            from_end: entry.rest.len(),
        };
        if spans.insert(entry.name, span)?.is_some() {
            return Err(Miss::OtherForm);
        }
        left = entry.rest;
    }
    Err(Miss::OtherForm)
}

/// The configuration that the lines begin with, if it has a good name and is within its limits.
fn skip_entry(alloc: Global, lines: &str) -> Result<Skipped<'_>, Miss>
    ensures { IfOk result (λ entry. (t : Meant)
        × IsGoodEntry lines.now (text_of entry.name) t entry.rest.now) }
{
    let Some(row) = lines.strip_prefix("  ") else {
        return Err(Miss::OtherForm);
    };
    let (name, value) = read_key(alloc, row, 2)?;
    let skipped = skip_value(alloc, value, 2)?;
    if skipped.size.bytes > u128::from(Limits::CONFIGURATION.style) || !good_name(&name) {
        return Err(Miss::OtherForm);
    }
    Ok(Skipped {
        name: name.into_string(alloc)?,
        rest: skipped.rest,
    })
}

/// The lines of a span; `None` if the text has no such span.
pub(crate) fn lines_at<'t>(text: &'t str, span: &Span) -> Option<&'t str>
    ensures { IfSome result (λ lines. lines.now ≡ bytes_at text.now span.now) }
{
    let start = text.len().saturating_sub(span.from_start);
    let (_, from) = text.split_at_checked(start)?;
    let (lines, _) = from.split_at_checked(span.length())?;
    Some(lines)
}
