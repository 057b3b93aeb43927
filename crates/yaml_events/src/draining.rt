// A list whose values are taken from the front, and whose memory is given back meanwhile.
ghost use Rattle.std.specs.Prelude.{◌≡◌, [], ◌∷◌, MatchOption};

use std::marker::Model;

/// Each time that so many values more were taken, their memory is given back.
const GIVEN_BACK: usize = 4096;

/// A list of values, of which some were taken. It keeps no memory for most of these. Contracts see the list of those
/// that are left.
#[derive(Drop)]
pub(crate) struct Draining<T> {
    /// The values that are left, the next one last.
    reversed: Vec<T>,
}

impl<T> Model for Draining<T> {
    ghost use Rattle.std.specs.Prelude.{List, reverse};

    ghost Value = { List T };

    ghost view = { λ d. reverse d.reversed.items };
}

impl<T: Copy> Draining<T> {
    /// Returns the whole list, of which no value was taken yet.
    #[inline(always)]
    pub(crate) fn of(items: Vec<T>) -> Self
        ensures { result ≡ items.items }
    {
        let mut reversed = items;
        reversed.reverse();
        Draining { reversed }
    }

    /// Takes the first value that is left, and returns it. Returns None if none is left.
    #[inline(always)]
    pub(crate) fn next(&mut self) -> Option<T>
        ensures { MatchOption result
            ((self.old ≡ []) × (self.new ≡ []))
            (λ value. self.old ≡ value ∷ self.new) }
    {
        let Some(value) = self.reversed.pop() else {
            return None;
        };
        if self.reversed.len() % GIVEN_BACK == 0 {
            self.reversed.shrink_to_fit();
        }
        Some(value)
    }
}
