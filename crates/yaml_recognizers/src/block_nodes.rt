//! Laws of block nodes (YAML 1.2.2, 8.2).

ghost use Rattle.std.specs.Prelude.{◌≡◌, ℕ, suc, ◌+◌, ◌==◌, nat_le, Bool, true, false, ◌&&◌, if◌then◌else◌, List, ◌++◌};
ghost use Rattle.std.specs.Prelude.{Some, None};
ghost use Rattle.yaml_recognizers.specs.Prelude.{spaces_before, past_spaces, Node, compact_items, compact_pairs};
ghost use Rattle.yaml_recognizers.specs.Prelude.{node_text, dash, question};
ghost use Rattle.std.proofs.Math.Logic.{◌⊎◌};
ghost use Rattle.yaml_recognizers.specs.CanonicalBlockNodes.{canonical_node};
ghost use Rattle.yaml_recognizers.specs.Ends.{block_node_stops};
ghost use Rattle.yaml_recognizers.specs.StandingNodes.{BlockNodeStands, SameBlockNode, IsBlockNode, NoBlockNode};
ghost use Rattle.yaml_recognizers.specs.Comments.{all_comments};
ghost use Rattle.yaml_recognizers.specs.BlockScalars.{read_block};
ghost use Rattle.yaml_recognizers.specs.Prefixes.{past, sign};
ghost use Rattle.yaml_recognizers.specs.Reading.{on};
ghost use Rattle.yaml_recognizers.specs.BlockNodes.{node_below, more_items, more_pairs, asked_key, key_value, opens_pair, indented_node};
ghost use Rattle.yaml_recognizers.specs.Recognizers.{block_key_in, flow_leaf_at, block_node_at, block_items_at, block_pairs_at, block_pair_at, block_indented_at};

/// Finds each canonical block node, if the text after it ends it.
pub fn block_node_found()
    ensures { (node : Node) (m : ℕ) (shallow bol : Bool) (after : List ℕ)
        → canonical_node node m shallow bol after ≡ true → block_node_stops m shallow after ≡ true
        → block_node_at m shallow bol (node_text node ++ after) ≡ Some (node, after) }
{}

/// What is found as a block node is a prefix of the text, and is canonical before the rest.
pub fn block_node_fits()
    ensures { (m : ℕ) (shallow bol : Bool) (text : List ℕ) (node : Node) (rest : List ℕ)
        → block_node_at m shallow bol text ≡ Some (node, rest)
        → (text ≡ node_text node ++ rest) × (canonical_node node m shallow bol rest ≡ true) }
{}

/// A text has at most one canonical block node as a prefix, followed by something that ends it.
pub fn block_node_once()
    ensures { (one other : Node) (m : ℕ) (shallow bol : Bool) (rest after : List ℕ)
        → node_text one ++ rest ≡ node_text other ++ after
        → canonical_node one m shallow bol rest ≡ true
        → canonical_node other m shallow bol after ≡ true → block_node_stops m shallow rest ≡ true
        → block_node_stops m shallow after ≡ true → (one ≡ other) × (rest ≡ after) }
{}

/// For each block node at the start of a text, in whatever form, one that means the same is found. The rest is what
/// comes after the comment lines that follow the node, or these lines too, if they follow a block scalar that can't
/// have them. All block nodes there mean the same, and have the same rest after the comment lines. What is found fits
/// as the grammar says, and is the only one except for its form. If none is found, there is none.
pub fn block_node_stands()
    ensures found { (m : ℕ) (shallow bol : Bool) (text : List ℕ) (node : Node) (rest : List ℕ)
        (stands : BlockNodeStands m shallow bol text node rest)
        → (found : Node) × (left : List ℕ) × (block_node_at m shallow bol text ≡ Some (found, left))
        × SameBlockNode found node
        × ((left ≡ stands.after.after) ⊎ (left ≡ rest)) }
    ensures once { (m : ℕ) (shallow bol : Bool) (text : List ℕ) (one other : Node)
        (rest after : List ℕ) (stands : BlockNodeStands m shallow bol text one rest)
        (too : BlockNodeStands m shallow bol text other after) → SameBlockNode one other
        × (stands.after.after ≡ too.after.after) }
    ensures only { (m : ℕ) (shallow bol : Bool) (text : List ℕ) (node : Node) (rest : List ℕ)
        → block_node_at m shallow bol text ≡ Some (node, rest)
        → IsBlockNode m shallow bol text node rest }
    ensures missing { (m : ℕ) (shallow bol : Bool) (text : List ℕ)
        → block_node_at m shallow bol text ≡ None → NoBlockNode m shallow bol text }
{}

/// The recognizers of block nodes and their parts in terms of one another, without a bound on how deep they go.
pub fn block_node_steps()
    ensures node { (m : ℕ) (shallow bol : Bool) (text : List ℕ) → block_node_at m shallow bol text
        ≡ node_below block_key_in flow_leaf_at read_block block_items_at block_pairs_at m shallow
        bol (all_comments bol text) }
    ensures items { (k : ℕ) (text : List ℕ) → block_items_at k text
        ≡ (if sign dash text then on (block_indented_at k false (past text)) (λ i rest.
        more_items k (block_items_at k) i rest) else None) }
    ensures pairs { (k : ℕ) (bol : Bool) (text : List ℕ) → block_pairs_at k bol text
        ≡ on (block_pair_at k bol text) (λ p rest.
        more_pairs k (block_pairs_at k (k == 0)) p rest) }
    ensures pair { (k : ℕ) (bol : Bool) (text : List ℕ) → block_pair_at k bol text
        ≡ (if sign question text
        then on (block_indented_at k true (past text)) (λ key rest.
        asked_key k (block_indented_at k true) key rest)
        else on (block_key_in bol text) (λ key rest.
        key_value k (block_node_at (suc k) true false) key rest (all_comments false rest))) }
    ensures indented { (k : ℕ) (shallow : Bool) (text : List ℕ) → block_indented_at k shallow text
        ≡ (if nat_le 1 (spaces_before text) && sign dash (past_spaces text)
        then on (block_items_at (k + 1 + spaces_before text) (past_spaces text)) (λ is rest.
        Some (compact_items (spaces_before text) is, rest))
        else if nat_le 1 (spaces_before text)
        && opens_pair block_key_in flow_leaf_at read_block false (past_spaces text)
        then on (block_pairs_at (k + 1 + spaces_before text) false (past_spaces text)) (λ ps rest.
        Some (compact_pairs (spaces_before text) ps, rest))
        else indented_node k shallow (block_node_at (suc k) shallow false) text
        (all_comments false text)) }
{}
