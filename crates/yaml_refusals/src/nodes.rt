// Where the nodes of a text begin, found from its events.
use std::alloc::{AllocError, Global};
use yaml_events::EventRef;

/// The bytes of a byte order mark.
const MARK: &[u8] = b"\xef\xbb\xbf";

/// An event, by where it is in the text and in the tree.
#[derive(Clone, Copy)]
pub(crate) struct Step {
    /// The byte at which the node begins, from 0. A list that is written in lines begins at its first `-`, and a
    /// mapping that is written in lines at its first key. Of an end it is where the text goes on.
    pub(crate) start: usize,
    /// Whether it is a node in the place of a key.
    pub(crate) is_key: bool,
    /// How deep it is: a node by itself is 1 deep.
    pub(crate) depth: u64,
}

/// How a collection is written.
#[derive(Clone, Copy, PartialEq, Eq)]
enum Form {
    /// A list between brackets.
    FlowList,
    /// A list of lines that begin with `-`.
    BlockList,
    /// A mapping between braces.
    FlowMapping,
    /// A mapping without braces.
    BlockMapping,
}

impl Form {
    fn is_mapping(self) -> bool {
        matches!(self, Form::FlowMapping | Form::BlockMapping)
    }

    /// The sign that closes it.
    fn closing(self) -> Option<u8> {
        match self {
            Form::FlowList => Some(b']'),
            Form::FlowMapping => Some(b'}'),
            Form::BlockList | Form::BlockMapping => None,
        }
    }
}

/// A collection that is open.
#[derive(Clone, Copy)]
struct Open {
    form: Form,
    /// The byte at which it begins, from 0.
    start: usize,
    /// How many nodes it has so far: elements, or keys and values.
    nodes: u64,
}

impl Open {
    /// Whether the next node is the value of a key.
    fn is_at_value(&self) -> bool {
        self.form.is_mapping() && self.nodes % 2 == 1
    }
}

/// Follows the events of a text, and knows where each begins.
#[derive(Drop)]
pub(crate) struct Nodes<'t> {
    text: &'t [u8],
    /// The byte after what the events so far were written in, from 0.
    pub(crate) at: usize,
    open: Vec<Open>,
}

impl<'t> Nodes<'t> {
    /// Before the first event of a text.
    pub(crate) fn new(alloc: Global, text: &'t [u8]) -> Nodes<'t> {
        let at = if text.starts_with(MARK) {
            MARK.len()
        } else {
            0
        };
        Nodes {
            text,
            at,
            open: Vec::new(alloc),
        }
    }

    /// Takes the next event. It fails only if memory runs out.
    pub(crate) fn next(&mut self, event: &EventRef<'_>) -> Result<Step, AllocError> {
        match event {
            EventRef::DocStart => Ok(self.start_document()),
            EventRef::DocEnd => Ok(self.here()),
            EventRef::SeqEnd | EventRef::MapEnd => Ok(self.end()),
            EventRef::Scalar { span, .. } => Ok(self.scalar(span.start, span.end)),
            EventRef::SeqStart => self.start_list(),
            EventRef::MapStart => self.start_mapping(),
        }
    }

    /// An event that begins no node.
    fn here(&self) -> Step {
        Step {
            start: self.at,
            is_key: false,
            depth: self.open.len() as u64,
        }
    }

    /// Goes behind the directives of a document and its `---`.
    fn start_document(&mut self) -> Step {
        let start = next_sign(self.text, self.at);
        if self.text.get(start) == Some(&b'%') {
            self.at = after_first(self.text, start, b"\n---");
        } else if rest(self.text, start).starts_with(b"---") {
            self.at = start.saturating_add(3);
        }
        self.here()
    }

    fn scalar(&mut self, start: usize, end: usize) -> Step {
        let is_key = self.take_place();
        self.at = end;
        Step {
            start,
            is_key,
            depth: (self.open.len() as u64).saturating_add(1),
        }
    }

    fn start_list(&mut self) -> Result<Step, AllocError> {
        let is_key = self.enter();
        let start = self.at;
        if self.text.get(start) == Some(&b'[') {
            self.at = start.saturating_add(1);
            return self.open(Form::FlowList, start, is_key);
        }
        self.open(Form::BlockList, start, is_key)
    }

    fn start_mapping(&mut self) -> Result<Step, AllocError> {
        let is_key = self.enter();
        let start = self.at;
        if self.text.get(start) == Some(&b'{') {
            self.at = start.saturating_add(1);
            return self.open(Form::FlowMapping, start, is_key);
        }
        match self.take_brace() {
            Some(start) => self.open(Form::FlowMapping, start, is_key),
            None => self.open(Form::BlockMapping, start, is_key),
        }
    }

    /// Takes the brace of the innermost open mapping, whose first key is a mapping without a brace at its place: the
    /// brace is that of the key, and the mapping around it has none. Returns where the brace is.
    fn take_brace(&mut self) -> Option<usize> {
        let outer = self.open.last_mut()?;
        if outer.form != Form::FlowMapping || outer.nodes != 1 {
            return None;
        }
        outer.form = Form::BlockMapping;
        Some(outer.start)
    }

    fn open(&mut self, form: Form, start: usize, is_key: bool) -> Result<Step, AllocError> {
        self.open.push(Open {
            form,
            start,
            nodes: 0,
        })?;
        Ok(Step {
            start,
            is_key,
            depth: self.open.len() as u64,
        })
    }

    /// Goes behind the closing bracket of the innermost open collection, if it has one.
    fn end(&mut self) -> Step {
        let closing = match self.open.pop() {
            Some(open) => open.form.closing(),
            None => None,
        };
        let end = self.at;
        let at = self.after_sign(end, b',');
        if closing.is_some() && self.text.get(at).copied() == closing {
            self.at = at.saturating_add(1);
        }
        self.here()
    }

    /// Goes to where a node begins, and notes that its collection has one more. Returns whether it is a key.
    fn enter(&mut self) -> bool {
        self.at = match self.open.last() {
            Some(open) => self.next_node(open),
            None => next_sign(self.text, self.at),
        };
        self.take_place()
    }

    /// Where the next node of a collection begins.
    fn next_node(&self, open: &Open) -> usize {
        match open.form {
            Form::BlockList => self.after_sign(self.at, b'-'),
            Form::FlowList => self.after_sign(self.at, b','),
            _ if open.is_at_value() => self.after_sign(self.at, b':'),
            _ => self.after_sign(self.after_sign(self.at, b','), b'?'),
        }
    }

    /// Notes that the innermost open collection has one node more. Returns whether that is a key.
    fn take_place(&mut self) -> bool {
        let Some(open) = self.open.last_mut() else {
            return false;
        };
        open.nodes = open.nodes.wrapping_add(1);
        open.is_at_value()
    }

    /// The place of the next character that is no blank and in no comment, behind a sign if it is that.
    fn after_sign(&self, at: usize, sign: u8) -> usize {
        let next = next_sign(self.text, at);
        match self.text.get(next) {
            Some(byte) if *byte == sign => next_sign(self.text, next.saturating_add(1)),
            _ => next,
        }
    }
}

/// What of a text is from a place on.
fn rest(text: &[u8], at: usize) -> &[u8] {
    text.get(at..).unwrap_or_default()
}

/// The place of the first byte from a place on that is no blank, no line break and in no comment.
pub(crate) fn next_sign(text: &[u8], from: usize) -> usize {
    let mut in_comment = false;
    for (index, byte) in rest(text, from).iter().enumerate() {
        match byte {
            b'\n' | b'\r' => in_comment = false,
            b' ' | b'\t' => {}
            b'#' => in_comment = true,
            _ if in_comment => {}
            _ => return from.saturating_add(index),
        }
    }
    text.len()
}

/// The place behind the first of these bytes from a place on; the end of the text if there is none.
fn after_first(text: &[u8], from: usize, wanted: &[u8; 4]) -> usize {
    for (index, window) in rest(text, from).windows(wanted.len()).enumerate() {
        if window == wanted.as_slice() {
            return from.saturating_add(index).saturating_add(wanted.len());
        }
    }
    text.len()
}
