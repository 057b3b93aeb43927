//! What texts mean: the laws that join the recognizers to the presentations of the grammar.

ghost use Rattle.std.specs.Prelude.{All, ◌≡◌, ℕ, true, List, Some, None};
ghost use Rattle.yaml_recognizers.specs.Prelude.{IsText, byte_len, Event, Stream, stream_text, fits, stream_events};
ghost use Rattle.yaml_recognizers.specs.Prelude.{Presents, CanRead, Reads};
ghost use Rattle.yaml_recognizers.specs.CanonicalStreams.{FlatStream, flat_events};
ghost use Rattle.yaml_recognizers.specs.CanonicalForms.{HaveCanonicalForms};
ghost use Rattle.yaml_recognizers.specs.NodePlaces.{NodeSpelled, NodeStands, NodeStarts, stream_places};
ghost use Rattle.yaml_recognizers.specs.Ranges.{RangesInOrder};
ghost use Rattle.yaml_recognizers.specs.Recognizers.{stream_at};

/// Each presentation has a canonical form: a flat stream with the same text and the same meaning.
pub fn canonical_forms()
    ensures { HaveCanonicalForms }
{}

/// In the events of a presentation, the ranges of scalars are in order and within its text.
pub fn ranges_in_order()
    ensures { (presentation : Stream)
        → RangesInOrder 0 (stream_events presentation) (byte_len (stream_text presentation)) }
{}

/// The nodes of a presentation, each with its place in the text, are spelled there. If the presentation fits, a line
/// starts at exactly those of which this is said, each node fits at its place, and what comes after it ends it. So the
/// laws about the node that is found at a place hold for each node of a whole text.
pub fn nodes_stand()
    ensures spelled { (presentation : Stream)
        → All (NodeSpelled (stream_text presentation)) (stream_places presentation) }
    ensures starts { (presentation : Stream) → fits presentation ≡ true
        → All (NodeStarts presentation.mark (stream_text presentation)) (stream_places
        presentation) }
    ensures stand { (presentation : Stream) → fits presentation ≡ true
        → All NodeStands (stream_places presentation) }
{}

/// All presentations of a text, whatever form they have, mean the same.
pub fn unambiguous()
    ensures { (text : List ℕ) (one other : Stream) → Presents one text → Presents other text
        → stream_events one ≡ stream_events other }
{}

/// A text in which a stream is found reads as what that stream means, and as nothing else.
pub fn text_reads()
    ensures { (text : List ℕ) (stream : FlatStream) → IsText text → stream_at text ≡ Some stream
        → Reads text (flat_events stream) }
{}

/// What a text can be read as is found.
pub fn text_reading_found()
    ensures { (text : List ℕ) (events : List Event) → CanRead text events
        → (stream : FlatStream) × (stream_at text ≡ Some stream) × (flat_events stream ≡ events) }
{}

/// Whether a text has a presentation is decided: one in which no stream is found has none.
pub fn decided()
    ensures { (text : List ℕ) (presentation : Stream) → stream_at text ≡ None
        → Presents presentation text → ⊥ }
{}
