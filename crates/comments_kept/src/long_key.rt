// Keys as they are written.
ghost use Rattle.std.specs.Prelude.{◌≡◌, OnOk};
ghost use Rattle.std.specs.Str.{chars};
ghost use Rattle.yaml_grammar.specs.Style.{key_text, long_key};

use std::convert::Infallible;
use yaml_writer::{ScalarStyle, Sink, key_style, write_quoted};

/// A count of characters, which stops at the greatest `u64`.
#[derive(Drop)]
struct CharCount {
    count: u64,
}

impl Sink for CharCount {
    ghost use Rattle.std.specs.Prelude.{◌≡◌, ◌+◌, min, length};
    ghost use Rattle.std.proofs.Common.{arith, length-append};

    type Fault = Infallible;

    ghost Takes = { λ a cs b. min b.count 18446744073709551615
        ≡ min (a.count + length cs) 18446744073709551615 };

    ghost takes_none = { λ s. Prim.omega arith };

    ghost takes_both = { λ a b c xs ys first second. Prim.omega (arith, length-append xs ys) };

    fn put_text(&mut self, text: &str) -> Result<(), Infallible> {
        self.count = self.count.saturating_add(text.chars().count() as u64);
        Ok(())
    }

    fn put_char(&mut self, _c: char) -> Result<(), Infallible> {
        self.count = self.count.saturating_add(1);
        Ok(())
    }

    fn put_spaces(&mut self, count: u64) -> Result<(), Infallible> {
        self.count = self.count.saturating_add(count);
        Ok(())
    }
}

/// Whether a key as it is written, with its quotes, has more than 1,000 characters.
pub(crate) fn is_long_key(key: &str) -> bool
    ensures { result ≡ long_key (chars key.now) }
{
    let mut spelling = CharCount { count: 0 };
    match write_key_text(key, &mut spelling) {
        Ok(()) => spelling.count > 1000,
        Err(never) => match never {},
    }
}

/// Writes a key without its `:`. It fails only if the sink does.
pub(crate) fn write_key_text<S: Sink>(key: &str, sink: &mut S) -> Result<(), S::Fault>
    ensures { OnOk result (S.Takes sink.old (key_text (chars key.now)) sink.new) }
{
    match key_style(key) {
        ScalarStyle::Plain => sink.put_text(key),
        _ => write_quoted(key, sink),
    }
}
