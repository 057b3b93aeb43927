// A text of a tree.
ghost use Rattle.std.specs.Prelude.{◌≡◌, length, [], string_bytes, IfOk};
ghost use Rattle.yaml_data.specs.TextBytes.{text_bytes};

use crate::short::Short;
use std::alloc::{AllocError, Global};
use std::fmt;
use std::ops::DerefStr;

/// A text of a tree. A text of at most 23 bytes is stored in the value itself; a longer one has memory of its own.
#[derive(Drop)]
pub struct Text {
    node: Node,
}

#[derive(Drop)]
enum Node {
    Short(Short),
    Long(String),
}

// a tag, and a string or as many bytes as it has
const _: () = prove!(size_of::<Text>() == 32);

impl Text {
    /// The empty text. It takes no memory.
    pub fn empty() -> Text
        ensures { text_bytes result ≡ [] }
    {
        Text {
            node: Node::Short(Short::empty()),
        }
    }

    /// A copy of a text. One of at most 23 bytes takes no memory. It fails only if memory runs out.
    #[inline]
    pub fn new(alloc: Global, text: &str) -> Result<Text, AllocError>
        ensures { IfOk result (λ copy. text_bytes copy ≡ text.now) }
    {
        let node = match Short::new(text) {
            Some(short) => Node::Short(short),
            None => Node::Long(String::from_str(alloc, text)?),
        };
        Ok(Text { node })
    }

    /// The text of a string. A string of more than 23 bytes is moved, with its memory; a shorter one is copied,
    /// and then dropped.
    #[inline]
    pub fn from_string(string: String) -> Text
        ensures { text_bytes result ≡ string_bytes string }
    {
        let node = match Short::new(&string) {
            Some(short) => Node::Short(short),
            None => Node::Long(string),
        };
        Text { node }
    }

    /// The text as a `str`.
    #[inline]
    pub fn as_str(&self) -> &str
        ensures { result.now ≡ text_bytes self.now }
    {
        match &self.node {
            Node::Short(short) => short.as_str(),
            Node::Long(string) => string.as_str(),
        }
    }

    /// The length of the text, in bytes of UTF-8.
    #[inline]
    pub fn len(&self) -> usize
        ensures { result ≡ length (text_bytes self.now) }
    {
        self.as_str().len()
    }

    /// The text as a string. A text of more than 23 bytes is moved, with its memory; a shorter one is copied. It fails
    /// only if memory runs out, and the text is then dropped.
    pub fn into_string(self, alloc: Global) -> Result<String, AllocError>
        ensures { IfOk result (λ string. string_bytes string ≡ text_bytes self) }
    {
        match self.node {
            Node::Short(short) => String::from_str(alloc, short.as_str()),
            Node::Long(string) => Ok(string),
        }
    }

    /// A copy of the text. One of at most 23 bytes takes no memory. It fails only if memory runs out.
    #[inline]
    pub fn try_copy(&self, alloc: Global) -> Result<Text, AllocError>
        ensures { IfOk result (λ copy. text_bytes copy ≡ text_bytes self.now) }
    {
        let node = match &self.node {
            Node::Short(short) => Node::Short(*short),
            Node::Long(string) => Node::Long(String::from_str(alloc, string)?),
        };
        Ok(Text { node })
    }
}

impl DerefStr for Text {
    ghost deref_gives = { λ t bytes. bytes ≡ text_bytes t };

    #[inline]
    fn deref(&self) -> &str {
        self.as_str()
    }
}

/// Formats the text as a `str` is formatted: in quotes, with escapes.
impl fmt::Debug for Text {
    fn fmt<W: fmt::Write>(&self, f: &mut fmt::Formatter<W>) -> fmt::Result {
        fmt::Debug::fmt(&self.as_str(), f)
    }
}
