//! The profile of YAML 1.2.2 by which texts are read, as definitions, and laws about them.
#![tactic(auto)]

ghost use Rattle.std.specs.Prelude.{◌≡◌, ℕ, List};
ghost use Rattle.yaml_grammar.specs.Events.{Event};
ghost use Rattle.yaml_grammar.specs.Reads.{Limits, Reads, Gives};
ghost use Rattle.yaml_grammar.specs.Trees.{Tree};

/// A text has one meaning: all the events that it reads as are the same.
pub fn one_meaning()
    ensures { (text : List ℕ) (one other : List Event) → Reads text one → Reads text other
        → one ≡ other }
{}

/// A text gives at most one tree, whatever the limits.
pub fn one_tree()
    ensures { (text : List ℕ) (limits others : Limits) (one other : Tree) → Gives text limits one
        → Gives text others other → one ≡ other }
{}
