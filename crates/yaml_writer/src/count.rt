// Lengths in the one style, counted and not written.
ghost use Rattle.std.specs.Prelude.{◌≡◌, ◌≤◌, Some, is_some};
ghost use Rattle.yaml_writer.specs.Prelude.{chars, byte_len, depth, long_key, style_text, own_limits, tree_of};
ghost use Rattle.std.specs.Option.{SomeIff};
ghost use Rattle.yaml_writer.specs.Budget.{left_after};

use crate::sink::Sink;
use crate::style::{write_key_text, write_style};
use std::convert::Infallible;
use yaml_data::Tree;

/// A count of characters, which stops at the greatest `u64`.
#[derive(Drop)]
struct CharCount {
    count: u64,
}

impl Sink for CharCount {
    ghost use Rattle.std.specs.Prelude.{◌≡◌, ◌+◌, min, length};
    ghost use Rattle.std.proofs.Common.{arith, length-append};

    type Fault = Infallible;

    ghost Takes = { λ a cs b. min b.count 18446744073709551615
        ≡ min (a.count + length cs) 18446744073709551615 };

    ghost takes_none = { λ s. Prim.omega arith };

    ghost takes_both = { λ a b c xs ys first second. Prim.omega (arith, length-append xs ys) };

    fn put_text(&mut self, text: &str) -> Result<(), Infallible> {
        self.count = self.count.saturating_add(text.chars().count() as u64);
        Ok(())
    }

    fn put_char(&mut self, _c: char) -> Result<(), Infallible> {
        self.count = self.count.saturating_add(1);
        Ok(())
    }

    fn put_spaces(&mut self, count: u64) -> Result<(), Infallible> {
        self.count = self.count.saturating_add(count);
        Ok(())
    }
}

/// The most bytes of a key that is surely not long: with its quotes it has at most 998 characters, since each byte has
/// at most six.
const SHORT_KEY: usize = 166;

/// Whether a key as it is written, with its quotes, has more than 1,000 characters.
pub(crate) fn is_long_key(key: &str) -> bool
    ensures { result ≡ long_key (chars key.now) }
{
    if key.len() <= SHORT_KEY {
        return false;
    }
    let mut spelling = CharCount { count: 0 };
    match write_key_text(key, &mut spelling) {
        Ok(()) => spelling.count > 1000,
        Err(never) => match never {},
    }
}

/// A count of bytes, which stops at the greatest `u128`.
#[derive(Drop)]
pub struct ByteCount {
    count: u128,
}

impl ByteCount {
    /// No bytes are counted yet.
    pub fn new() -> ByteCount
        ensures { result.count ≡ 0 }
    {
        ByteCount { count: 0 }
    }

    /// How many bytes are counted.
    pub fn total(&self) -> u128
        ensures { result ≡ self.now.count }
    {
        self.count
    }
}

impl Sink for ByteCount {
    ghost use Rattle.std.specs.Prelude.{◌≡◌, ◌+◌, min};
    ghost use Rattle.std.proofs.Common.{arith};
    ghost use Rattle.yaml_grammar.specs.Texts.{byte_len};
    ghost use Rattle.yaml_writer.specs.BudgetLaws.{byte_len-append};

    type Fault = Infallible;

    ghost Takes = { λ a cs b. min b.count 340282366920938463463374607431768211455
        ≡ min (a.count + byte_len cs) 340282366920938463463374607431768211455 };

    ghost takes_none = { λ s. Prim.omega arith };

    ghost takes_both = { λ a b c xs ys first second. Prim.omega (arith, byte_len-append xs ys) };

    fn put_text(&mut self, text: &str) -> Result<(), Infallible> {
        self.count = self.count.saturating_add(text.len() as u128);
        Ok(())
    }

    fn put_char(&mut self, c: char) -> Result<(), Infallible> {
        self.count = self.count.saturating_add(c.len_utf8() as u128);
        Ok(())
    }

    fn put_spaces(&mut self, count: u64) -> Result<(), Infallible> {
        self.count = self.count.saturating_add(u128::from(count));
        Ok(())
    }
}

/// How many bytes may still come; `None` after more came than the limit.
#[derive(Drop)]
pub(crate) struct ByteBudget {
    left: Option<u64>,
}

impl ByteBudget {
    /// A budget of `limit` bytes.
    pub(crate) fn new(limit: u64) -> ByteBudget
        ensures { result.left ≡ Some limit }
    {
        ByteBudget { left: Some(limit) }
    }

    /// Whether no more bytes came than the limit.
    pub(crate) fn is_kept(&self) -> bool
        ensures { result ≡ is_some self.now.left }
    {
        self.left.is_some()
    }

    /// Counts `bytes` more bytes.
    pub(crate) fn spend(&mut self, bytes: u64)
        ensures { self.new.left ≡ left_after self.old.left bytes }
    {
        self.left = match self.left {
            Some(left) => left.checked_sub(bytes),
            None => None,
        };
    }
}

impl Sink for ByteBudget {
    ghost use Rattle.std.specs.Prelude.{◌≡◌};
    ghost use Rattle.yaml_grammar.specs.Texts.{byte_len};
    ghost use Rattle.yaml_writer.specs.Budget.{left_after};
    ghost use Rattle.yaml_writer.specs.BudgetLaws.{left_after-none, left_after-more};

    type Fault = Infallible;

    ghost Takes = { λ a cs b. b.left ≡ left_after a.left (byte_len cs) };

    ghost takes_none = { λ s. left_after-none s.left };

    ghost takes_both = { λ a b c xs ys first second.
        left_after-more a.left b.left c.left xs ys first second };

    fn put_text(&mut self, text: &str) -> Result<(), Infallible> {
        self.spend(text.len() as u64);
        Ok(())
    }

    fn put_char(&mut self, c: char) -> Result<(), Infallible> {
        self.spend(c.len_utf8() as u64);
        Ok(())
    }

    fn put_spaces(&mut self, count: u64) -> Result<(), Infallible> {
        self.spend(count);
        Ok(())
    }
}

/// How many bytes a tree has in the one style; `None` if it has more than `max`. It takes no memory. The call
/// stack grows with the depth, which therefore is at most 131; [`is_deeper_than`](Tree::is_deeper_than) tests that.
pub fn style_len(tree: &Tree, max: u64) -> Option<u64>
    requires { depth (tree_of tree.now) ≤ own_limits.depth }
    ensures { SomeIff result
        (byte_len (style_text (tree_of tree.now)) ≤ max)
        (byte_len (style_text (tree_of tree.now))) }
{
    let mut budget = ByteBudget::new(max);
    match write_style(tree, &mut budget) {
        Ok(()) => Some(max - budget.left?),
        Err(never) => match never {},
    }
}
