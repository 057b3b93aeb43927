// The lines of a tree in the one style, and where each ends in the text that the tree was read from.
ghost use Rattle.std.specs.Prelude.{◌≡◌, IfOk, OnOk};
ghost use Rattle.yaml_events.specs.Meant.{event_ref_of, events_of, style_of};
ghost use Rattle.std.specs.Str.{chars};
ghost use Rattle.comments_kept.specs.Lines as line;
ghost use Rattle.comments_kept.specs.Lines.{Shows};

use crate::long_key::is_long_key;
use crate::signs::{
    after_header, after_sign, byte_at, colon_at, line_start, next_sign, start_of_content,
};
use std::alloc::{AllocError, Global};
use yaml_events::{EventRef, Events, Span, Style};

/// A line of a tree in the one style, without a literal's body.
#[derive(Clone, Copy)]
pub(crate) struct Row {
    /// The byte at which its first token begins in the text.
    pub(crate) start: usize,
    /// The byte behind its last token.
    pub(crate) end: usize,
    /// How many spaces are before it.
    pub(crate) indent: u64,
    /// The innermost block collection that holds it, in the list of collections.
    pub(crate) level: Option<usize>,
}

/// A collection of a text.
#[derive(Clone, Copy)]
pub(crate) struct Collection {
    pub(crate) is_map: bool,
    /// Whether it has brackets.
    pub(crate) has_brackets: bool,
    /// Whether it stands between brackets, or has some.
    pub(crate) is_flow: bool,
    /// How many bytes are before it on its line of the text.
    pub(crate) column: usize,
    /// The indentation that it has in the one style.
    pub(crate) indent: u64,
    /// That of what it holds.
    pub(crate) inside: u64,
    /// The innermost block collection: itself, or one that holds it.
    pub(crate) level: Option<usize>,
    /// The innermost collection that holds it.
    pub(crate) outer: Option<usize>,
}

/// The lines of a tree, and the collections of the text that it was read from.
#[derive(Drop)]
pub(crate) struct Layout {
    pub(crate) rows: Vec<Row>,
    pub(crate) collections: Vec<Collection>,
}

/// A line that has begun.
#[derive(Clone, Copy)]
pub(crate) struct Begun {
    indent: u64,
    /// The byte at which its first token begins.
    start: usize,
}

/// The lines of the tree of a text, while its events come.
#[derive(Drop)]
pub(crate) struct Rows {
    rows: Vec<Row>,
    collections: Vec<Collection>,
    /// The innermost collection that is open.
    within: Option<usize>,
    /// The byte behind the last token.
    at: usize,
    /// Whether a key came last.
    keyed: bool,
    line: Option<Begun>,
}

/// The lines of the one document of a text. `events` are those of the text.
pub(crate) fn layout_of(
    alloc: Global,
    bytes: &[u8],
    events: &Events<'_>,
) -> Result<Layout, AllocError>
    ensures { IfOk result (λ layout.
        Shows bytes.now (events_of events.now) layout.rows.items layout.collections.items) }
{
    let mut rows = Rows {
        rows: Vec::new(alloc),
        collections: Vec::new(alloc),
        within: None,
        at: start_of_content(bytes),
        keyed: false,
        line: None,
    };
    let mut last = EventRef::DocStart;
    for event in events.iter() {
        rows.take(bytes, last, is_end(event))?;
        last = event;
    }
    rows.take(bytes, last, false)?;
    let Rows {
        rows,
        collections,
        ..
    } = rows;
    Ok(Layout { rows, collections })
}

/// Whether a collection ends.
fn is_end(event: EventRef<'_>) -> bool
    ensures { result ≡ line.is_end (event_ref_of event.entry) }
{
    match event {
        EventRef::SeqEnd | EventRef::MapEnd => true,
        EventRef::DocStart
        | EventRef::DocEnd
        | EventRef::SeqStart
        | EventRef::MapStart
        | EventRef::Scalar { .. } => false,
    }
}

/// The byte behind the last token of a scalar's line.
fn scalar_end(bytes: &[u8], style: Style, span: Span) -> usize
    ensures { result ≡ line.scalar_end bytes.now (style_of style) span.start span.end }
{
    match style {
        Style::Literal | Style::Folded => after_header(bytes, span.start),
        Style::Plain | Style::Single | Style::Double | Style::Omitted => span.end,
    }
}

impl Rows {
    /// Takes an event; `ends` says that the next one is the end of a collection.
    fn take(&mut self, bytes: &[u8], event: EventRef<'_>, ends: bool) -> Result<(), AllocError>
        ensures { OnOk result (line.reading_of self.new
            ≡ line.taken bytes.now (event_ref_of event.entry) ends (line.reading_of self.old)) }
    {
        match event {
            EventRef::DocStart | EventRef::DocEnd => Ok(()),
            EventRef::SeqStart => self.start(bytes, false, ends),
            EventRef::MapStart => self.start(bytes, true, ends),
            EventRef::SeqEnd | EventRef::MapEnd => self.end(bytes),
            EventRef::Scalar { style, span, value } => self.scalar(bytes, style, span, value),
        }
    }

    /// The innermost collection that is open.
    fn innermost(&self) -> Option<Collection>
        ensures { result ≡ line.innermost (line.reading_of self.now) }
    {
        self.collections.get(self.within?).copied()
    }

    /// Whether the next node is a key.
    fn is_at_key(&self) -> bool
        ensures { result ≡ line.is_at_key (line.reading_of self.now) }
    {
        match self.innermost() {
            Some(collection) => collection.is_map && !self.keyed,
            None => false,
        }
    }

    /// Begins a line at a byte of the text if none has begun.
    fn begin_line(&mut self, start: usize)
        ensures { line.reading_of self.new ≡ line.begun start (line.reading_of self.old) }
    {
        if self.line.is_none() {
            let indent = match self.innermost() {
                Some(collection) => collection.indent,
                None => 0,
            };
            self.line = Some(Begun { indent, start });
        }
    }

    /// Ends the line at a byte of the text.
    fn end_line(&mut self, end: usize) -> Result<(), AllocError>
        ensures { OnOk result (line.reading_of self.new ≡ line.ended end (line.reading_of self.old)) }
    {
        let level = match self.innermost() {
            Some(collection) => collection.level,
            None => None,
        };
        let row = match self.line {
            Some(begun) => Row {
                start: begun.start,
                end,
                indent: begun.indent,
                level,
            },
            None => Row {
                start: end,
                end,
                indent: 0,
                level,
            },
        };
        self.line = None;
        self.rows.push(row)?;
        Ok(())
    }

    /// Goes on to the next node of the innermost collection: behind the `-` of an element, before a key, or behind the
    /// `:` of a value that is a collection.
    fn begin_node(&mut self, bytes: &[u8])
        ensures { line.reading_of self.new ≡ line.node_begun bytes.now (line.reading_of self.old) }
    {
        let Some(collection) = self.innermost() else {
            return;
        };
        if collection.is_map && self.keyed {
            return;
        }
        self.begin_line(next_sign(bytes, self.at));
        if !collection.is_map && !collection.has_brackets {
            self.at = after_sign(bytes, self.at);
        }
    }

    /// Goes on behind the `:` before a collection, if it is a value, and ends the line there if it is not empty.
    fn pass_colon(&mut self, bytes: &[u8], is_empty: bool) -> Result<(), AllocError>
        ensures { OnOk result (line.reading_of self.new
            ≡ line.colon_passed bytes.now is_empty (line.reading_of self.old)) }
    {
        if !self.keyed {
            return Ok(());
        }
        self.at = after_sign(bytes, self.at);
        if is_empty {
            return Ok(());
        }
        let end = self.at;
        self.end_line(end)
    }

    /// Opens a collection.
    fn start(&mut self, bytes: &[u8], is_map: bool, is_empty: bool) -> Result<(), AllocError>
        ensures { OnOk result (line.reading_of self.new
            ≡ line.started bytes.now is_map is_empty (line.reading_of self.old)) }
    {
        self.begin_node(bytes);
        self.pass_colon(bytes, is_empty)?;
        let sign = next_sign(bytes, self.at);
        if is_empty {
            self.begin_line(sign);
        }
        self.open(bytes, is_map, sign)
    }

    /// Adds a collection that begins at a sign.
    fn open(&mut self, bytes: &[u8], is_map: bool, sign: usize) -> Result<(), AllocError>
        ensures { OnOk result (line.reading_of self.new
            ≡ line.opened bytes.now is_map sign (line.reading_of self.old)) }
    {
        let has_brackets = matches!(byte_at(bytes, sign), b'[' | b'{');
        let column = sign - line_start(bytes, sign);
        let own = self.collections.len();
        let (is_flow, indent, level) = match self.innermost() {
            Some(outer) => (has_brackets || outer.is_flow, outer.inside, outer.level),
            None => (has_brackets, 0, None),
        };
        let level = if is_flow { level } else { Some(own) };
        let Some(inside) = indent.checked_add(2) else {
            return Err(AllocError);
        };
        let outer = self.within;
        self.collections.push(Collection {
            is_map,
            has_brackets,
            is_flow,
            column,
            indent,
            inside,
            level,
            outer,
        })?;
        self.within = Some(own);
        self.keyed = false;
        if has_brackets {
            self.at = after_sign(bytes, self.at);
        }
        Ok(())
    }

    /// Ends the innermost collection, and its line if it is empty.
    fn end(&mut self, bytes: &[u8]) -> Result<(), AllocError>
        ensures { OnOk result (line.reading_of self.new ≡ line.closed bytes.now (line.reading_of self.old)) }
    {
        let Some(collection) = self.innermost() else {
            return Ok(());
        };
        self.within = collection.outer;
        self.keyed = false;
        if collection.has_brackets {
            self.at = after_sign(bytes, self.at);
        }
        if self.line.is_none() {
            return Ok(());
        }
        let end = self.at;
        self.end_line(end)
    }

    /// Takes a scalar.
    fn scalar(
        &mut self,
        bytes: &[u8],
        style: Style,
        span: Span,
        value: &str,
    ) -> Result<(), AllocError>
        ensures { OnOk result (line.reading_of self.new
            ≡ line.scalar_taken bytes.now (style_of style) span.start span.end (chars value.now)
            (line.reading_of self.old)) }
    {
        let is_key = self.is_at_key();
        self.begin_node(bytes);
        let end = scalar_end(bytes, style, span);
        self.at = span.end;
        self.keyed = is_key;
        if is_key {
            return self.take_key(bytes, end, value);
        }
        self.begin_line(span.start);
        self.end_line(end)
    }

    /// Ends the line of a long key, and begins that of its value. A short one has no line of its own.
    fn take_key(&mut self, bytes: &[u8], end: usize, key: &str) -> Result<(), AllocError>
        ensures { OnOk result (line.reading_of self.new
            ≡ line.key_taken bytes.now end (chars key.now) (line.reading_of self.old)) }
    {
        if !is_long_key(key) {
            return Ok(());
        }
        self.end_line(end)?;
        self.begin_line(colon_at(bytes, self.at));
        Ok(())
    }
}
