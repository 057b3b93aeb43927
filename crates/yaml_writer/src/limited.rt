// A text of limited length.
ghost use Rattle.std.specs.Prelude.{◌≡◌, ◌≢◌, [], Some, None, is_some, IfOk, IfNone, IfSome, string_bytes};
ghost use Rattle.yaml_writer.specs.Budget.{left_after};
ghost use Rattle.yaml_writer.specs.Limited.{room_left, taken};

use crate::count::ByteBudget;
use crate::sink::Sink;
use std::alloc::{AllocError, Global};

/// A text that takes bytes up to a limit. After more bytes came than that, it takes no others, and there is no text.
#[derive(Drop)]
pub struct LimitedText {
    text: String,
    budget: ByteBudget,
}

impl LimitedText {
    /// An empty text that takes at most `limit` bytes, with memory for `capacity` bytes. It fails only if memory runs
    /// out.
    pub fn with_capacity(
        alloc: Global,
        capacity: usize,
        limit: u64,
    ) -> Result<LimitedText, AllocError>
        ensures { IfOk result (λ limited. (room_left limited ≡ Some limit) × (taken limited ≡ [])) }
    {
        Ok(LimitedText {
            text: String::with_capacity(alloc, capacity)?,
            budget: ByteBudget::new(limit),
        })
    }

    /// The text; `None` if more bytes came than the limit.
    pub fn into_text(self) -> Option<String>
        ensures some { IfSome result (λ text. (room_left self ≢ None)
            × (string_bytes text ≡ taken self)) }
        ensures none { IfNone result (room_left self ≡ None) }
    {
        let LimitedText { text, budget } = self;
        if budget.is_kept() { Some(text) } else { None }
    }

    /// Counts `bytes` more bytes, and returns whether there is room for them and all before.
    fn spend(&mut self, bytes: u64) -> bool
        ensures left { self.new.budget.left ≡ left_after self.old.budget.left bytes }
        ensures room { result ≡ is_some self.new.budget.left }
        ensures text { self.new.text ≡ self.old.text }
    {
        self.budget.spend(bytes);
        self.budget.is_kept()
    }
}

/// Appends what is written to the text while there is room. It fails only if memory runs out.
impl Sink for LimitedText {
    ghost use Rattle.yaml_writer.specs.Limited.{TakesLimited};
    ghost use Rattle.yaml_writer.specs.LimitedLaws.{TakesLimited-none, TakesLimited-both};

    type Fault = AllocError;

    ghost Takes = { TakesLimited };

    ghost takes_none = { TakesLimited-none };

    ghost takes_both = { TakesLimited-both };

    fn put_text(&mut self, text: &str) -> Result<(), AllocError> {
        if self.spend(text.len() as u64) {
            self.text.put_text(text)?;
        }
        Ok(())
    }

    fn put_char(&mut self, c: char) -> Result<(), AllocError> {
        if self.spend(c.len_utf8() as u64) {
            self.text.put_char(c)?;
        }
        Ok(())
    }

    fn put_spaces(&mut self, count: u64) -> Result<(), AllocError> {
        if self.spend(count) {
            self.text.put_spaces(count)?;
        }
        Ok(())
    }
}
