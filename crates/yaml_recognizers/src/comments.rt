//! Laws of comments and of the gaps between the parts of a flow node (YAML 1.2.2, 6.6 and 6.7).

ghost use Rattle.std.specs.Prelude.{◌≡◌, ℕ, Bool, true, false, not, ◌||◌, List, ◌++◌, Option, Some, None};
ghost use Rattle.yaml_recognizers.specs.Prelude.{white, is_empty, first, LineEnd, comments_text, Sep, gap_text};
ghost use Rattle.yaml_recognizers.specs.CanonicalComments.{is_line_end, canonical_comments, canonical_gap};
ghost use Rattle.yaml_recognizers.specs.Ends.{solid};
ghost use Rattle.yaml_recognizers.specs.Comments.{read_line_end, more_comments, all_comments};
ghost use Rattle.yaml_recognizers.specs.Gaps.{inline_gap, gap_after, read_gap};
ghost use Rattle.yaml_recognizers.specs.Prefixes.{take_while, drop_while};

/// Finds all comment lines at the start of a text, and leaves what comes after them.
pub fn comments_found()
    ensures { (bol : Bool) (comments : List LineEnd) (after : List ℕ)
        → canonical_comments bol comments after ≡ true
        → all_comments bol (comments_text comments ++ after) ≡ (comments, after) }
{}

/// The comments that are found are a prefix of the text. They fit, if a line starts at the start of the text or at
/// least one is found, and no further line of comments is left.
pub fn comments_fit()
    ensures spells { (bol : Bool) (text : List ℕ) → text ≡ comments_text (all_comments bol text).0
        ++ (all_comments bol text).1 }
    ensures fit { (bol : Bool) (text : List ℕ) → bol || not (is_empty (all_comments bol text).0)
        ≡ true → is_line_end (all_comments bol text).1 ≡ false
        → canonical_comments bol (all_comments bol text).0 (all_comments bol text).1 ≡ true }
    ensures whole { (text : List ℕ) → is_line_end (all_comments true text).1 ≡ false }
{}

/// Finds a gap that fits, if something solid follows it.
pub fn gap_found()
    ensures { (n : ℕ) (key : Bool) (gap : Option Sep) (after : List ℕ)
        → canonical_gap n key gap after ≡ true → first solid after ≡ true
        → read_gap n key (gap_text gap ++ after) ≡ (gap, after) }
{}

/// The gap that is found, perhaps none, is a prefix of the text, and fits before the rest.
pub fn gap_fits()
    ensures spells { (n : ℕ) (key : Bool) (text : List ℕ)
        → text ≡ gap_text (read_gap n key text).0 ++ (read_gap n key text).1 }
    ensures fits { (n : ℕ) (key : Bool) (text : List ℕ)
        → canonical_gap n key (read_gap n key text).0 (read_gap n key text).1 ≡ true }
{}

/// The recognizers of comments and gaps in terms of their steps, without a bound on the number of lines.
pub fn comments_steps()
    ensures comments { (bol : Bool) (text : List ℕ)
        → all_comments bol text ≡ more_comments text (λ rest.
        all_comments true rest) (read_line_end bol text) }
    ensures lines { (n : ℕ) (text : List ℕ) (e : LineEnd) (rest : List ℕ)
        → read_line_end false text ≡ Some (e, rest)
        → read_gap n false text ≡ gap_after n text e (all_comments true rest) }
    ensures inline { (n : ℕ) (text : List ℕ) → read_line_end false text ≡ None
        → read_gap n false text ≡ inline_gap (take_while white text) (drop_while white text) }
{}
