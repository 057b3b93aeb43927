//! Laws of block scalars (YAML 1.2.2, 8.1).

ghost use Rattle.std.specs.Prelude.{◌≡◌, ℕ, Bool, true, List, ◌++◌, Option, Some, None};
ghost use Rattle.yaml_recognizers.specs.Prelude.{Chomping, Header, Body, BlockScalar, block_text, block_value};
ghost use Rattle.yaml_recognizers.specs.CanonicalBlockScalars.{canonical_block};
ghost use Rattle.yaml_recognizers.specs.BlockScalars.{read_header, read_body, read_block};
ghost use Rattle.yaml_recognizers.specs.BlockScalarFacts.{IsHeader, NoHeader, IsBody, NoBody, BlockStands, SameBlock, NoBlock};

/// Finds each canonical block scalar, and leaves what comes after it.
pub fn block_scalar_found()
    ensures { (b : BlockScalar) (m : ℕ) (after : List ℕ) → canonical_block m b after ≡ true
        → read_block m (block_text b ++ after) ≡ Some (b, after) }
{}

/// What is found as a block scalar is a prefix of the text, and is canonical before the rest.
pub fn block_scalar_fits()
    ensures { (m : ℕ) (text : List ℕ) (b : BlockScalar) (rest : List ℕ)
        → read_block m text ≡ Some (b, rest)
        → (text ≡ block_text b ++ rest) × (canonical_block m b rest ≡ true) }
{}

/// All block scalars that fit at the start of a text have the same text except for the comments after them, and mean
/// the same.
pub fn block_scalar_once()
    ensures { (m : ℕ) (text : List ℕ) (b c : BlockScalar) (rest after : List ℕ)
        → BlockStands m text b rest → BlockStands m text c after → SameBlock b c }
{}

/// If no block scalar is found, there is none.
pub fn block_scalar_missing()
    ensures { (m : ℕ) (text : List ℕ) → read_block m text ≡ None → NoBlock m text }
{}

/// The header that is found is that of each presentation, and leaves the same rest.
pub fn header_found()
    ensures { (text : List ℕ) (h : Header) (rest : List ℕ) → read_header text ≡ Some (h, rest)
        → IsHeader text h.folded h.digit h.chomping rest }
{}

/// If no header is found, there is none.
pub fn header_missing()
    ensures { (text : List ℕ) → read_header text ≡ None → NoHeader text }
{}

/// The body that is found after a header is the only one, and its value is that of each presentation.
pub fn body_found()
    ensures { (digit : Option ℕ) (m : ℕ) (folded : Bool) (chomping : Chomping) (text : List ℕ)
        (b : Body) (rest : List ℕ) → read_body digit m text ≡ Some (b, rest)
        → IsBody digit m folded chomping text (block_value folded chomping b.empties b.texts) rest }
{}

/// If no body is found, there is none.
pub fn body_missing()
    ensures { (digit : Option ℕ) (m : ℕ) (text : List ℕ) → read_body digit m text ≡ None
        → NoBody digit m text }
{}
