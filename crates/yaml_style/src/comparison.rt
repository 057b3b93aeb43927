// A text compared with one that is written piece by piece.
ghost use Rattle.std.specs.Prelude.{◌≡◌, ◌+◌, ◌<◌, false, true, [], ◌∷◌, IfNone, IfSome};
ghost use Rattle.yaml_style.specs.Prelude.{IsCharBoundary, chars};
ghost use Rattle.yaml_chars.specs.Places.{rest};
ghost use Rattle.yaml_style.specs.Comparing.{comparison_after};

use std::alloc::AllocError;
use yaml_chars::next_char;
use yaml_tree::Sink;

/// A sink that compares what is written with a text. It takes no memory, and never fails.
#[derive(Drop)]
pub(crate) struct Comparison<'a> {
    /// What is left of the text after the longest prefix that it shares with what is written.
    pub(crate) rest: &'a str,
    /// Whether all that is written is that prefix.
    pub(crate) agrees: bool,
}

impl<'a> Comparison<'a> {
    /// A comparison with a text, before anything is written.
    pub(crate) fn new(text: &'a str) -> Comparison<'a>
        ensures rest { result.rest.now ≡ text.now }
        ensures agrees { result.agrees ≡ true }
    {
        Comparison {
            rest: text,
            agrees: true,
        }
    }
}

impl Sink for Comparison<'_> {
    ghost use Rattle.std.specs.Prelude.{◌≡◌};
    ghost use Rattle.std.specs.Str.{chars};
    ghost use Rattle.yaml_style.specs.Comparing.{comparison_after};
    ghost use Rattle.yaml_style.specs.ComparingLaws.{comparison_after-none, comparison_after-both};

    type Fault = AllocError;

    ghost Takes = { λ a cs b. (chars b.rest.now, b.agrees)
        ≡ comparison_after (chars a.rest.now) a.agrees cs };

    ghost takes_none = { λ s. comparison_after-none (chars s.rest.now) s.agrees };

    ghost takes_both = { λ a b c xs ys first second.
        comparison_after-both (chars a.rest.now) a.agrees (chars b.rest.now) b.agrees
        (chars c.rest.now, c.agrees) xs ys first second };

    fn put_text(&mut self, text: &str) -> Result<(), AllocError> {
        if self.agrees {
            let (rest, agrees) = compare(self.rest, text);
            self.rest = rest;
            self.agrees = agrees;
        }
        Ok(())
    }

    fn put_char(&mut self, c: char) -> Result<(), AllocError> {
        if self.agrees {
            match strip_char(self.rest, c) {
                Some(rest) => self.rest = rest,
                None => self.agrees = false,
            }
        }
        Ok(())
    }

    fn put_spaces(&mut self, count: u64) -> Result<(), AllocError> {
        for _ in 0..count {
            self.put_char(' ')?;
        }
        Ok(())
    }
}

/// A sink that compares what is written with a text, and counts it. It takes no memory, and never fails.
#[derive(Drop)]
pub(crate) struct CountedComparison<'a> {
    /// The comparison.
    pub(crate) comparison: Comparison<'a>,
    /// How many bytes are written. The count stops at the greatest `u64`.
    pub(crate) bytes: u64,
}

impl<'a> CountedComparison<'a> {
    /// A comparison with a text, before anything is written.
    pub(crate) fn new(text: &'a str) -> CountedComparison<'a>
        ensures rest { result.comparison.rest.now ≡ text.now }
        ensures agrees { result.comparison.agrees ≡ true }
        ensures bytes { result.bytes ≡ 0 }
    {
        CountedComparison {
            comparison: Comparison::new(text),
            bytes: 0,
        }
    }
}

impl Sink for CountedComparison<'_> {
    ghost use Rattle.std.specs.Prelude.{◌≡◌};
    ghost use Rattle.std.specs.Str.{chars};
    ghost use Rattle.yaml_style.specs.Comparing.{comparison_after, IsCount};
    ghost use Rattle.yaml_style.specs.ComparingLaws.{comparison_after-none, comparison_after-both, IsCount-none, IsCount-both};

    type Fault = AllocError;

    ghost Takes = { λ a cs b. ((chars b.comparison.rest.now, b.comparison.agrees)
        ≡ comparison_after (chars a.comparison.rest.now) a.comparison.agrees cs)
        × IsCount a.bytes cs b.bytes };

    ghost takes_none = { λ s. (
      comparison_after-none (chars s.comparison.rest.now) s.comparison.agrees,
      IsCount-none s.bytes,
    ) };

    ghost takes_both = { λ a b c xs ys first second. (
      comparison_after-both (chars a.comparison.rest.now) a.comparison.agrees
          (chars b.comparison.rest.now) b.comparison.agrees
          (chars c.comparison.rest.now, c.comparison.agrees) xs ys first.0 second.0,
      IsCount-both a.bytes b.bytes c.bytes xs ys first.1 second.1,
    ) };

    fn put_text(&mut self, text: &str) -> Result<(), AllocError> {
        self.bytes = self.bytes.saturating_add(text.len() as u64);
        self.comparison.put_text(text)
    }

    fn put_char(&mut self, c: char) -> Result<(), AllocError> {
        self.bytes = self.bytes.saturating_add(c.len_utf8() as u64);
        self.comparison.put_char(c)
    }

    fn put_spaces(&mut self, count: u64) -> Result<(), AllocError> {
        self.bytes = self.bytes.saturating_add(count);
        self.comparison.put_spaces(count)
    }
}

/// What is left of a text after the longest prefix that it shares with what is written, and whether that is all of it.
pub(crate) fn compare<'a>(text: &'a str, written: &str) -> (&'a str, bool)
    ensures { (chars result.0.now, result.1)
        ≡ comparison_after (chars text.now) true (chars written.now) }
{
    match text.strip_prefix(written) {
        Some(rest) => (rest, true),
        None => (after_common(text, written), false),
    }
}

/// What is left of a text after this character; `None` if it doesn't begin with it.
fn strip_char(text: &str, c: char) -> Option<&str>
    ensures found { IfSome result (λ left. comparison_after (chars text.now) true (c ∷ [])
        ≡ (chars left.now, true)) }
    ensures none { IfNone result (comparison_after (chars text.now) true (c ∷ [])
        ≡ (chars text.now, false)) }
{
    let Some((first, len)) = next_char(text, 0) else {
        return None;
    };
    if first != c {
        return None;
    }
    Some(&text[len..])
}

/// What is left of a text after the longest prefix that it shares with another.
fn after_common<'a>(text: &'a str, other: &str) -> &'a str
    ensures { chars result.now ≡ (comparison_after (chars text.now) true (chars other.now)).0 }
{
    let mut at = 0;
    while let Some(len) = common_char(text, other, at) {
        at += len;
    }
    &text[at..]
}

/// The length in bytes of the character that both texts have at a place; `None` if they differ there, or one ends.
fn common_char(text: &str, other: &str, at: usize) -> Option<usize>
    requires here { IsCharBoundary text.now at }
    requires there { IsCharBoundary other.now at }
    ensures same { IfSome result (λ len. comparison_after (rest text.now at) true
        (rest other.now at)
        ≡ comparison_after (rest text.now (at + len)) true (rest other.now (at + len))) }
    ensures here { IfSome result (λ len. IsCharBoundary text.now (at + len)) }
    ensures there { IfSome result (λ len. IsCharBoundary other.now (at + len)) }
    ensures some { IfSome result (λ len. 0 < len) }
    ensures none { IfNone result ((comparison_after (rest text.now at) true (rest other.now at)).0
        ≡ rest text.now at) }
{
    let Some((c, len)) = next_char(text, at) else {
        return None;
    };
    let Some((d, _)) = next_char(other, at) else {
        return None;
    };
    if c != d {
        return None;
    }
    Some(len)
}
