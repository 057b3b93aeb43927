// The next slice of a file that is made part by part.
ghost use Rattle.std.specs.Prelude.{◌≡◌, ◌≤◌, ◌⊎◌, ◌++◌, [], true, false, length, string_bytes, encode_utf8_all, IfOk};
ghost use Rattle.conf_store.specs.Prelude.{chars, entry_named};
ghost use Rattle.conf_store.specs.Staged.{slice_limit};

use crate::part_text::PartText;
use conf_state::State;
use std::alloc::{AllocError, Global};
use std::marker::Model;
use std::mem;

/// The most bytes of a slice.
pub const SLICE: usize = 4_096;

/// The next slice as far as it is made, and what is left of the part that it is cut from.
#[derive(Drop)]
pub struct Cutting {
    slice: Vec<u8>,
    part: PartText,
    cut: usize,
}

impl Model for Cutting {
    ghost use Rattle.std.specs.Prelude.{◌≤◌, drop, length, string_bytes, string_capacity, vec_capacity};
    ghost use Rattle.conf_store.specs.Cuttings.{Cut, cut_code};

    ghost Value = { Cut };

    ghost coded = { cut_code };

    ghost view = { λ c. record {
      slice = c.slice.items;
      rest = drop c.cut (string_bytes c.part.text);
      slice_room = vec_capacity c.slice;
      part_room = string_capacity c.part.text;
    } };

    ghost invariant = { λ c. (c.cut ≤ length (string_bytes c.part.text)) × (length c.slice.items ≤ 4096) };
}

impl Cutting {
    /// Nothing to cut. It takes no memory.
    pub fn none(alloc: Global) -> Cutting
        ensures slice { result.slice ≡ [] }
        ensures rest { result.rest ≡ [] }
    {
        Cutting {
            slice: Vec::new(alloc),
            part: PartText {
                text: String::new(alloc),
            },
            cut: 0,
        }
    }

    /// Nothing is cut of the first part. There is room for a slice, and for parts of so many bytes.
    pub fn begun(alloc: Global, first: &str, room: usize) -> Result<Cutting, AllocError>
        ensures slice { IfOk result (λ c. c.slice ≡ []) }
        ensures rest { IfOk result (λ c. c.rest ≡ first.now) }
        ensures slice_room { IfOk result (λ c. slice_limit ≤ c.slice_room) }
        ensures part_room { IfOk result (λ c. room ≤ c.part_room) }
    {
        let slice = Vec::with_capacity(alloc, SLICE)?;
        let mut text = String::with_capacity(alloc, room)?;
        text.push_str(first)?;
        Ok(Cutting {
            slice,
            part: PartText { text },
            cut: 0,
        })
    }

    /// Cuts from the part until the slice is full or nothing is left of the part.
    pub fn cut_more(&mut self)
        requires { slice_limit ≤ self.old.slice_room }
        ensures same { self.new.slice ++ self.new.rest ≡ self.old.slice ++ self.old.rest }
        ensures far { (length self.new.slice ≡ slice_limit) ⊎ (self.new.rest ≡ []) }
        ensures short { length self.new.slice ≤ slice_limit }
        ensures slice_room { self.old.slice_room ≤ self.new.slice_room }
        ensures part_room { self.new.part_room ≡ self.old.part_room }
    {
        let bytes = self.part.text.as_bytes();
        let count = (SLICE - self.slice.len()).min(bytes.len() - self.cut);
        let end = self.cut + count;
        // It has room.
        let _ = self.slice.extend_from_slice(&bytes[self.cut..end]);
        self.cut = end;
    }

    /// Whether the slice is as long as one may be.
    pub fn is_full(&self) -> bool
        ensures full { result ≡ true → length self.now.slice ≡ slice_limit }
        ensures short { result ≡ false → (length self.now.slice ≡ slice_limit) → ⊥ }
    {
        self.slice.len() == SLICE
    }

    /// The slice as far as it is made.
    pub fn slice(&self) -> &[u8]
        ensures { result.now ≡ self.now.slice }
    {
        &self.slice
    }

    /// Begins the next slice, and returns the length of the one before.
    pub fn pass(&mut self) -> usize
        ensures length { result ≡ length self.old.slice }
        ensures slice { self.new.slice ≡ [] }
        ensures rest { self.new.rest ≡ self.old.rest }
        ensures slice_room { self.new.slice_room ≡ self.old.slice_room }
        ensures part_room { self.new.part_room ≡ self.old.part_room }
    {
        let count = self.slice.len();
        self.slice.clear();
        count
    }

    /// Takes a text as the next part. Nothing may be left of the part before.
    pub fn load(&mut self, text: &str)
        ensures rest { length text.now ≤ self.old.part_room → self.new.rest ≡ text.now }
        ensures slice { self.new.slice ≡ self.old.slice }
        ensures slice_room { self.new.slice_room ≡ self.old.slice_room }
        ensures part_room { self.old.part_room ≤ self.new.part_room }
    {
        self.cut = 0;
        self.part.text.clear();
        // It has room.
        let _ = self.part.text.push_str(text);
    }

    /// Takes the configuration under a name as the next part. Nothing may be left of the part before.
    pub fn load_entry(&mut self, state: &State, name: &str)
        ensures rest { length (encode_utf8_all (entry_named state.now.configs (chars name.now)))
            ≤ self.old.part_room
            → self.new.rest ≡ encode_utf8_all (entry_named state.now.configs (chars name.now)) }
        ensures slice { self.new.slice ≡ self.old.slice }
        ensures slice_room { self.new.slice_room ≡ self.old.slice_room }
        ensures part_room { self.old.part_room ≤ self.new.part_room }
    {
        self.cut = 0;
        self.part.text.clear();
        let Ok(()) = state.write_entry(name, &mut self.part);
    }

    /// Takes the bytes of a text as the next part, and leaves the text empty.
    pub fn take_over(&mut self, text: &mut String)
        ensures rest { self.new.rest ≡ string_bytes text.old }
        ensures slice { self.new.slice ≡ self.old.slice }
        ensures slice_room { self.new.slice_room ≡ self.old.slice_room }
        ensures text { string_bytes text.new ≡ [] }
    {
        self.cut = 0;
        mem::swap(&mut self.part.text, text);
        text.clear();
    }
}
