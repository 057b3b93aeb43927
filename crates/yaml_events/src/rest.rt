// A list whose values are taken from the front.
ghost use Rattle.std.specs.Prelude.{◌≡◌, [], ◌∷◌, MatchOption};

use std::marker::Model;

/// A list of values, of which some were taken. Contracts see the list of those that are left.
#[derive(Drop)]
pub(crate) struct Rest<T> {
    items: Vec<T>,
    /// How many were taken.
    taken: usize,
}

impl<T> Model for Rest<T> {
    ghost use Rattle.std.specs.Prelude.{◌≤◌, List, length, drop};

    ghost Value = { List T };

    ghost view = { λ r. drop r.taken r.items.items };

    ghost invariant = { λ r. r.taken ≤ length r.items.items };
}

impl<T: Copy> Rest<T> {
    /// Returns the whole list, of which no value was taken yet.
    #[inline(always)]
    pub(crate) fn of(items: Vec<T>) -> Self
        ensures { result ≡ items.items }
    {
        Rest { items, taken: 0 }
    }

    /// Takes the first value that is left, and returns it. Returns None if none is left.
    #[inline(always)]
    pub(crate) fn next(&mut self) -> Option<T>
        ensures { MatchOption result
            ((self.old ≡ []) × (self.new ≡ []))
            (λ value. self.old ≡ value ∷ self.new) }
    {
        let Some(value) = self.items.get(self.taken) else {
            return None;
        };
        let value = *value;
        self.taken += 1;
        Some(value)
    }
}
