//! Laws of flow nodes, and of the keys among them (YAML 1.2.2, 7.4 and 7.5).

ghost use Rattle.std.specs.Prelude.{◌≡◌, ℕ, ◌+◌, ◌*◌, ◌≤◌, ◌==◌, length, Bool, true, false, if◌then◌else◌, List, ◌++◌};
ghost use Rattle.std.specs.Prelude.{Some, None, codes};
ghost use Rattle.yaml_recognizers.specs.Prelude.{white, ns, list_all, first, starts_line, LineEnd, comments_text};
ghost use Rattle.yaml_recognizers.specs.Prelude.{gap_text, FlowContext, outer, block_key, in_flow, one_line, Flow};
ghost use Rattle.yaml_recognizers.specs.Prelude.{scalar, seq, map, none, is_plain, flow_text, short_key, open_bracket};
ghost use Rattle.yaml_recognizers.specs.Prelude.{close_bracket, open_brace, close_brace};
ghost use Rattle.yaml_recognizers.specs.CanonicalComments.{canonical_comments};
ghost use Rattle.yaml_recognizers.specs.CanonicalFlowNodes.{canonical_flow};
ghost use Rattle.yaml_recognizers.specs.Ends.{Stops, less_deep};
ghost use Rattle.yaml_recognizers.specs.Gaps.{read_gap};
ghost use Rattle.yaml_recognizers.specs.FlowScalars.{read_scalar};
ghost use Rattle.yaml_recognizers.specs.OneLine.{widens, on_one_line};
ghost use Rattle.yaml_recognizers.specs.Prefixes.{past};
ghost use Rattle.yaml_recognizers.specs.StandingNodes.{FlowNodeStands, SameFlowNode, IsFlowNode, NoFlowNode};
ghost use Rattle.yaml_recognizers.specs.Reading.{on};
ghost use Rattle.yaml_recognizers.specs.FlowNodes.{in_brackets, next_entry, is_asked, asked_entry, keyed_entry, entry_if_short, some_value, read_flow};
ghost use Rattle.yaml_recognizers.specs.Recognizers.{flow_node_at, flow_entries_at, flow_entry_at, flow_value_at, flow_node_stops, StandsFlow, block_key_in, IsBlockKey};

/// Finds each canonical flow node that ends before the text after it.
pub fn flow_node_found()
    ensures { (n : ℕ) (c : FlowContext) (bol : Bool) (text : List ℕ) (f : Flow) (rest : List ℕ)
        → StandsFlow n c bol text f rest
        → flow_node_at n c bol text ≡ Some (f, rest) }
{}

/// What may follow a flow node in another node, between brackets, before a `:` or before comments, ends it.
pub fn flow_node_ends()
    ensures { (n : ℕ) (c : FlowContext) (f : Flow) (after : List ℕ) → Stops n c (is_plain f) after
        → flow_node_stops n c f after ≡ true }
{}

/// What is found as a flow node is a prefix of the text, is canonical, and ends before the rest.
pub fn flow_node_fits()
    ensures { (n : ℕ) (c : FlowContext) (bol : Bool) (text : List ℕ) (f : Flow) (rest : List ℕ)
        → flow_node_at n c bol text ≡ Some (f, rest)
        → StandsFlow n c bol text f rest }
{}

/// A text has at most one canonical flow node as a prefix that ends before the rest.
pub fn flow_node_once()
    ensures { (n : ℕ) (c : FlowContext) (bol : Bool) (text : List ℕ) (one other : Flow)
        (rest after : List ℕ) → StandsFlow n c bol text one rest
        → StandsFlow n c bol text other after → (one ≡ other) × (rest ≡ after) }
{}

/// If no flow node is found, there is none.
pub fn flow_node_missing()
    ensures { (n : ℕ) (c : FlowContext) (bol : Bool) (text : List ℕ) (f : Flow) (rest : List ℕ)
        → flow_node_at n c bol text ≡ None → StandsFlow n c bol text f rest → ⊥ }
{}

/// Decides the flow nodes at the start of a text, in whatever form. For each, one is found with the same text and
/// meaning and the same rest. What is found is there, and is the only one except for its form. If none is found, there
/// is none.
pub fn flow_node_stands()
    ensures found { (n : ℕ) (c : FlowContext) (bol : Bool) (text : List ℕ) (f : Flow)
        (rest : List ℕ) → FlowNodeStands n c bol text f rest
        → (found : Flow) × (flow_node_at n c bol text ≡ Some (found, rest)) × SameFlowNode found f }
    ensures only { (n : ℕ) (c : FlowContext) (bol : Bool) (text : List ℕ) (f : Flow) (rest : List ℕ)
        → flow_node_at n c bol text ≡ Some (f, rest)
        → IsFlowNode n c bol text f rest }
    ensures missing { (n : ℕ) (c : FlowContext) (bol : Bool) (text : List ℕ)
        → flow_node_at n c bol text ≡ None → NoFlowNode n c bol text }
{}

/// With any depth that is enough for the text, the recognizer of flow nodes finds the same.
pub fn flow_node_any_depth()
    ensures { (fuel n : ℕ) (c : FlowContext) (bol : Bool) (text : List ℕ)
        → 4 * length text + 1 ≤ fuel
        → read_flow read_scalar fuel n c bol text ≡ flow_node_at n c bol text }
{}

/// The recognizers of flow nodes and their parts in terms of one another, without a bound on how deep they go.
pub fn flow_node_steps()
    ensures node { (n : ℕ) (c : FlowContext) (bol : Bool) (text : List ℕ)
        → flow_node_at n c bol text
        ≡ (if first (λ x. x == open_bracket) text
        then in_brackets seq close_bracket (λ gap rest.
        flow_entries_at n (in_flow c) true (starts_line false (gap_text gap)) close_bracket rest)
        (read_gap n (one_line c) (past text))
        else if first (λ x. x == open_brace) text
        then in_brackets map close_brace (λ gap rest.
        flow_entries_at n (in_flow c) false (starts_line false (gap_text gap)) close_brace rest)
        (read_gap n (one_line c) (past text))
        else on (read_scalar n c bol text) (λ s rest. Some (scalar s, rest))) }
    ensures entries { (n : ℕ) (d : FlowContext) (in_seq bol : Bool) (close : ℕ) (text : List ℕ)
        → flow_entries_at n d in_seq bol close text
        ≡ (if first (λ x. x == close) text then Some (none, text)
        else on (flow_entry_at n d in_seq bol text) (λ e rest. next_entry (read_gap n (one_line d))
        (λ gap rest'. flow_entries_at n d in_seq (starts_line false (gap_text gap)) close rest') e
        (read_gap n (one_line d) rest))) }
    ensures entry { (n : ℕ) (d : FlowContext) (in_seq bol : Bool) (text : List ℕ)
        → flow_entry_at n d in_seq bol text
        ≡ (if is_asked d text
        then asked_entry (λ gap rest. flow_node_at n d (starts_line false (gap_text gap)) rest)
        (λ after_plain rest. flow_value_at n d after_plain rest)
        (read_gap n (one_line d) (past text))
        else on (flow_node_at n d bol text) (λ key rest.
        keyed_entry (λ after_plain rest'.
        flow_value_at n d after_plain rest') (entry_if_short n d in_seq bol None) key rest)) }
    ensures value { (n : ℕ) (d : FlowContext) (after_plain : Bool) (text : List ℕ)
        → flow_value_at n d after_plain text
        ≡ some_value d after_plain (read_gap n (one_line d)) (λ gap rest.
        flow_node_at n d (starts_line false (gap_text gap)) rest) text
        (read_gap n (one_line d) text) }
{}

/// A flow node fits as a key exactly if it fits in the wider context and is on one line. The indentations may differ.
pub fn flow_node_as_key()
    ensures wider { (f : Flow) (n m : ℕ) (c d : FlowContext) (bol : Bool) (after : List ℕ)
        → widens c d ≡ true → canonical_flow f n c bol after ≡ true
        → canonical_flow f m d bol after ≡ true }
    ensures narrower { (f : Flow) (n m : ℕ) (c d : FlowContext) (bol : Bool) (after : List ℕ)
        → widens c d ≡ true → on_one_line f ≡ true
        → canonical_flow f n d bol after ≡ true → canonical_flow f m c bol after ≡ true }
    ensures line { (f : Flow) (n : ℕ) (c d : FlowContext) (bol : Bool) (after : List ℕ)
        → widens c d ≡ true → canonical_flow f n c bol after ≡ true
        → on_one_line f ≡ true }
{}

/// Finds the key of a pair of a block mapping, with the whitespace after it, before its `:`, if no ns character
/// follows that.
pub fn block_key_found()
    ensures { (key : Flow) (gap : List ℕ) (bol : Bool) (rest : List ℕ)
        → canonical_flow key 0 block_key bol (gap ++ codes ":" ++ rest) ≡ true
        → list_all white gap ≡ true → short_key key gap ≡ true → first ns rest ≡ false
        → block_key_in bol (flow_text key ++ gap ++ codes ":" ++ rest) ≡ Some ((key, gap), rest) }
{}

/// What is found as a key is a prefix of the text, followed by whitespace and a `:`. It fits, and is short.
pub fn block_key_fits()
    ensures { (bol : Bool) (text : List ℕ) (key : Flow) (gap rest : List ℕ)
        → block_key_in bol text ≡ Some ((key, gap), rest) → IsBlockKey bol text key gap rest }
{}

/// A flow node is not a key if comments follow it, and after them a line that is less deep.
pub fn block_key_missing()
    ensures { (f : Flow) (m : ℕ) (bol start : Bool) (comments : List LineEnd) (after : List ℕ)
        → canonical_flow f m outer bol (comments_text comments ++ after) ≡ true
        → canonical_comments false comments after ≡ true → less_deep m after ≡ true
        → block_key_in start (flow_text f ++ (comments_text comments ++ after)) ≡ None }
{}
