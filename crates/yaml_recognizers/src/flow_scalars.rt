//! Laws of flow scalars (YAML 1.2.2, 7.3).

ghost use Rattle.std.specs.Prelude.{◌≡◌, ℕ, Bool, true, List, ◌++◌, Some, None};
ghost use Rattle.yaml_recognizers.specs.Prelude.{FlowContext, one_line, safe, Scalar, scalar_text, scalar_fits};
ghost use Rattle.yaml_recognizers.specs.Prelude.{scalar_value, style_of, scalar, none, is_plain};
ghost use Rattle.yaml_recognizers.specs.Ends.{Stops};
ghost use Rattle.yaml_recognizers.specs.FlowScalars.{read_scalar, scalar_ends, Stands};
ghost use Rattle.yaml_recognizers.specs.WholeScalars.{StandsWhole, IsScalar, NoScalar, stands_on_one_line};

/// Finds each flow scalar that fits and ends before the text after it.
pub fn flow_scalar_found()
    ensures { (n : ℕ) (c : FlowContext) (bol : Bool) (s : Scalar) (after : List ℕ)
        → scalar_fits n c bol s after ≡ true
        → scalar_ends n c s after ≡ true → read_scalar n c bol (scalar_text s ++ after)
        ≡ Some (s, after) }
{}

/// What may follow a flow scalar in a node, between brackets, before a `:` or before comments, ends it.
pub fn flow_scalar_ends()
    ensures { (n : ℕ) (c : FlowContext) (s : Scalar) (after : List ℕ)
        → Stops n c (is_plain (scalar s)) after → scalar_ends n c s after ≡ true }
{}

/// What is found as a flow scalar is a prefix of the text, fits, and ends before the rest.
pub fn flow_scalar_fits()
    ensures { (n : ℕ) (c : FlowContext) (bol : Bool) (text : List ℕ) (s : Scalar) (rest : List ℕ)
        → read_scalar n c bol text ≡ Some (s, rest)
        → Stands n c bol text s rest }
{}

/// Of the flow scalars that fit at the start of a text, at most one is whole: the longest plain one, or one whose
/// closing quote no other follows.
pub fn flow_scalar_once()
    ensures { (n : ℕ) (c : FlowContext) (bol : Bool) (text : List ℕ) (one other : Scalar)
        (rest after : List ℕ) → StandsWhole n c bol text one rest
        → StandsWhole n c bol text other after → (one ≡ other) × (rest ≡ after) }
{}

/// The recognizer decides whether a whole flow scalar is at the start of a text, and finds its style, its value and
/// its end.
pub fn flow_scalar_decided()
    ensures found { (n : ℕ) (c : FlowContext) (bol : Bool) (text : List ℕ) (s : Scalar)
        (rest : List ℕ) → read_scalar n c bol text ≡ Some (s, rest)
        → IsScalar n c bol text (style_of s) (scalar_value s) rest }
    ensures none { (n : ℕ) (c : FlowContext) (bol : Bool) (text : List ℕ)
        → read_scalar n c bol text ≡ None → NoScalar n c bol text }
{}

/// A scalar on one line is found as a key as it is in the wider context, at each indentation.
pub fn flow_scalar_as_key()
    ensures { (c d : FlowContext) → ((x : ℕ) → safe c x ≡ safe d x)
        → (n m : ℕ) (bol : Bool) (text : List ℕ) (s : Scalar) (rest : List ℕ)
        → one_line d ≡ true → stands_on_one_line s ≡ true
        → read_scalar n c bol text ≡ Some (s, rest) → read_scalar m d bol text ≡ Some (s, rest) }
{}
