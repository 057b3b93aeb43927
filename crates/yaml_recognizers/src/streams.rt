//! Laws of streams (YAML 1.2.2, 6.8 and chapter 9).

ghost use Rattle.std.specs.Prelude.{◌≡◌, ℕ, Bool, true, false, if◌then◌else◌, drop, List, [], ◌++◌, Some, None};
ghost use Rattle.yaml_recognizers.specs.Prelude.{is_empty, first, starts_line, Part, Stream, parts_text, fits};
ghost use Rattle.yaml_recognizers.specs.Prelude.{stream_events, Presents, CanRead};
ghost use Rattle.yaml_recognizers.specs.CanonicalStreams.{section_text, opens, FlatStream, flat_text, canonical_stream, flat_events};
ghost use Rattle.yaml_recognizers.specs.StandingNodes.{EndsNode};
ghost use Rattle.yaml_recognizers.specs.NestedStreams.{nested_stream};
ghost use Rattle.yaml_recognizers.specs.Recognizers.{section_at, sections_at, stream_at};
ghost use Rattle.yaml_recognizers.specs.Streams.{order_mark, more_sections, with_mark};

/// Each stream that is canonical is found.
pub fn stream_found()
    ensures { (stream : FlatStream) → canonical_stream stream ≡ true
        → stream_at (flat_text stream) ≡ Some stream }
{}

/// What is found as a stream spells the whole text, and is canonical.
pub fn stream_fits()
    ensures { (text : List ℕ) (stream : FlatStream) → stream_at text ≡ Some stream
        → (text ≡ flat_text stream) × (canonical_stream stream ≡ true) }
{}

/// If no stream is found, the text has none.
pub fn stream_missing()
    ensures { (text : List ℕ) (stream : FlatStream) → stream_at text ≡ None
        → canonical_stream stream ≡ true → flat_text stream ≡ text → ⊥ }
{}

/// A text has at most one canonical stream.
pub fn stream_once()
    ensures { (one other : FlatStream) → canonical_stream one ≡ true → canonical_stream other ≡ true
        → flat_text one ≡ flat_text other → one ≡ other }
{}

/// The recognizers of streams and their sections in terms of one another, without a bound on the number of sections.
pub fn stream_steps()
    ensures stream { (text : List ℕ) → stream_at text
        ≡ (if first order_mark text then with_mark true (sections_at true true (drop 1 text))
        else with_mark false (sections_at true true text)) }
    ensures sections { (opened bol : Bool) (text : List ℕ) → sections_at opened bol text
        ≡ (if is_empty text then Some [] else more_sections (λ p rest.
        sections_at (opens opened p) (starts_line bol (section_text p)) rest)
        (section_at opened bol text)) }
{}

/// For a canonical stream there is a presentation in the grammar's own form, with the same text and meaning.
pub fn stream_presents()
    ensures presents { (stream : FlatStream) → canonical_stream stream ≡ true
        → Presents (nested_stream stream) (flat_text stream) }
    ensures means { (stream : FlatStream) → canonical_stream stream ≡ true
        → stream_events (nested_stream stream) ≡ flat_events stream }
{}

/// A text in which a stream is found can be read as what that stream means.
pub fn stream_can_be_read()
    ensures { (text : List ℕ) (stream : FlatStream) → stream_at text ≡ Some stream
        → CanRead text (flat_events stream) }
{}

/// In a stream that fits, what follows its first document, or any of its parts, ends the node of a document. It is
/// lines of whitespace or comments, and then the end of the text or a marker.
pub fn document_node_ends()
    ensures { (stream : Stream) (before after : List Part) → fits stream ≡ true
        → stream.parts ≡ before ++ after → EndsNode 0 false (parts_text after) }
{}
