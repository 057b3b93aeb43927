// A path: the tokens of a pointer.
ghost use Rattle.std.specs.Prelude.{◌≡◌, ◌≢◌, ◌⊎◌, ◌<◌, ◌++◌, ℕ, List, length, IfOk, IfErr, OnOk};
ghost use Rattle.json_pointer.specs.Prelude.{chars};
ghost use Rattle.yaml_chars.specs.Places.{IsRun};
ghost use Rattle.json_pointer.specs.Pointers.{path_of, pointer_text, char_text, unescaped};
ghost use Rattle.json_pointer.specs.Tokens.{escaped_by, texts};

use crate::fault::PathFault;
use std::alloc::{AllocError, Global};
use std::borrow::CowStr;
use std::marker::Model;

/// A path into a tree: a list of tokens, each a text (RFC 6901, 3). Tokens without a `~` are borrowed from the pointer.
#[derive(Debug, Drop)]
pub struct Path<'t> {
    tokens: Vec<CowStr<'t>>,
}

impl<'t> Model for Path<'t> {
    ghost use Rattle.std.specs.Prelude.{List, ℕ, map};
    ghost use Rattle.std.specs.Cow.{cow_str_bytes};
    ghost use Rattle.std.specs.Str.{chars};

    ghost Value = { List (List ℕ) };

    ghost view = { λ p. map (λ token. chars (cow_str_bytes token)) p.tokens.items };
}

impl<'t> Path<'t> {
    /// Reads a pointer (RFC 6901, 3 and 4): empty, or tokens with a `/` before each, in which `~1` means `/` and `~0`
    /// means `~`.
    ///
    /// # Errors
    ///
    /// - [`PathFault::BadPath`] if the text is no pointer. It says where the text is wrong.
    /// - [`PathFault::OutOfMemory`] may come at any point.
    pub fn parse(alloc: Global, text: &'t str) -> Result<Path<'t>, PathFault>
        ensures met { (result ≡ Err PathFault.OutOfMemory) ⊎ (result ≡ path_of (chars text.now)) }
        ensures ok { IfOk result (λ path. chars text.now ≡ pointer_text path) }
        ensures refused { IfErr result
            (λ fault. fault ≢ PathFault.OutOfMemory → (tokens : List (List ℕ))
            → chars text.now ≢ pointer_text tokens) }
    {
        let count = text.bytes().filter(|byte| *byte == b'/').count();
        let mut tokens = Vec::with_capacity(alloc, count)?;
        let mut rest = text.chars();
        while let Some(c) = rest.next() {
            if c == '/' {
                let after = rest.as_str();
                let end = unescaped_end(after);
                tokens.push(CowStr::Borrowed(&after[..end]))?;
                rest = after[end..].chars();
                continue;
            }
            if tokens.is_empty() {
                return Err(PathFault::BadPath { at: 0 });
            }
            if c != '~' {
                lengthen(alloc, &mut tokens, c)?;
                continue;
            }
            let at = text.len() - rest.as_str().len() - 1;
            match escaped(rest.next()) {
                Some(c) => lengthen(alloc, &mut tokens, c)?,
                None => return Err(PathFault::BadPath { at }),
            }
        }
        Ok(Path { tokens })
    }

    /// The number of tokens of the path. The empty pointer has none.
    pub fn steps(&self) -> usize
        ensures { result ≡ length self.now }
    {
        self.tokens.len()
    }

    /// The tokens, in order, with the escapes of the pointer replaced by what they mean.
    pub fn tokens(&self) -> &[CowStr<'t>]
        ensures { texts result.now ≡ self.now }
    {
        &self.tokens
    }

    /// The allocator that the list of tokens was made with.
    pub fn allocator(&self) -> Global {
        *self.tokens.allocator()
    }
}

/// Returns the length in bytes of the characters at the start of a text that a pointer writes as themselves.
fn unescaped_end(text: &str) -> usize
    ensures { IsRun unescaped text.now 0 result }
{
    let bytes = text.as_bytes();
    let mut end = 0;
    while end < bytes.len() && is_unescaped(bytes[end]) {
        end += 1;
    }
    end
}

/// Returns whether a byte belongs to a character that a pointer writes as itself.
fn is_unescaped(byte: u8) -> bool
    ensures { result ≡ unescaped byte }
{
    !matches!(byte, b'/' | b'~')
}

/// The character that a `~` before this one means; `None` if it is neither `0` nor `1`, or not there.
pub(crate) fn escaped(digit: Option<char>) -> Option<char>
    ensures { result ≡ escaped_by digit }
{
    match digit? {
        '0' => Some('~'),
        '1' => Some('/'),
        _ => None,
    }
}

/// Appends a character to the last token. It fails only if memory runs out; that token may then be gone.
fn lengthen(alloc: Global, tokens: &mut Vec<CowStr<'_>>, c: char) -> Result<(), AllocError>
    requires { 0 < length tokens.old.items }
    ensures ok { OnOk result
        (pointer_text (texts tokens.new.items) ≡ pointer_text (texts tokens.old.items)
        ++ char_text c) }
    ensures count { OnOk result (length tokens.new.items ≡ length tokens.old.items) }
{
    let mut last = tokens.pop().unwrap().into_owned(alloc)?;
    last.push(c)?;
    tokens.push(CowStr::Owned(last))?;
    Ok(())
}
