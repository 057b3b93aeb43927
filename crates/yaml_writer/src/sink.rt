// Where a text goes, piece by piece.
ghost use Rattle.std.specs.Prelude.{◌≡◌, ℕ, List, [], ◌∷◌, ◌++◌, OnOk};
ghost use Rattle.yaml_writer.specs.Prelude.{chars, spaces};

/// Takes a text piece by piece, as a buffer that grows or as a count. After a fault nothing is promised of what it
/// holds.
pub trait Sink {
    /// Why a piece is not taken.
    type Fault;

    /// The second sink is the first one after it has taken these characters.
    ghost Takes: { Self → List ℕ → Self → Type 0 };

    /// Takes a text.
    fn put_text(&mut self, text: &str) -> Result<(), Self::Fault>
        ensures { OnOk result (Takes self.old (chars text.now) self.new) };

    /// Takes one character.
    fn put_char(&mut self, c: char) -> Result<(), Self::Fault>
        ensures { OnOk result (Takes self.old (c ∷ []) self.new) };

    /// Takes `count` spaces.
    fn put_spaces(&mut self, count: u64) -> Result<(), Self::Fault>
        ensures { OnOk result (Takes self.old (spaces count) self.new) };

    /// A sink that takes no characters stays as it is.
    ghost takes_none: { (s : Self) → Takes s [] s };

    /// A sink that takes one text after another takes both in a row.
    ghost takes_both: { (a b c : Self) (xs ys : List ℕ) → Takes a xs b → Takes b ys c
        → Takes a (xs ++ ys) c };
}
