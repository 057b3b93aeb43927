// Laws of the definitions.
ghost use Rattle.std.specs.Prelude.{◌≡◌, ◌↔◌, true, None, Some, List};
ghost use Rattle.yaml_grammar.specs.Trees.{Tree};
ghost use Rattle.conf_state.specs.States.{Contents};
ghost use Rattle.conf_conditions.specs.Conditions.{AllHold, Condition, FailsFirst, first_fault};
ghost use Rattle.conf_conditions.specs.SameTrees.{same_tree};
ghost use Rattle.conf_conditions.specs.declared.fault.ConditionFault.{ConditionFault};

/// What is computed of conditions says whether they hold: there is no fault exactly if all hold, and a fault is that of
/// the first one that does not.
pub fn conditions_hold()
    ensures met { (s : Contents) (conditions : List Condition)
        → (first_fault s conditions ≡ None) ↔ AllHold s conditions }
    ensures unmet { (s : Contents) (conditions : List Condition) (fault : ConditionFault)
        → first_fault s conditions ≡ Some fault → FailsFirst s conditions fault }
{}

/// Trees are compared as they are: the same trees are equal, and equal trees are the same.
pub fn same_trees_are_equal()
    ensures { (one other : Tree) → (same_tree one other ≡ true) ↔ (one ≡ other) }
{}
