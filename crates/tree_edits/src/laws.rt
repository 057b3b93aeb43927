// Laws of the edits, over the definitions alone.
ghost use Rattle.std.specs.Prelude.{◌≡◌, ◌≢◌, ◌++◌, ◌∷◌, [], ℕ, List, Ok, Some, take, drop};
ghost use Rattle.tree_edits.specs.Prelude.{Elements, Tree, at, index_of, pointer_text, push_element};
ghost use Rattle.tree_edits.specs.Changes.{after_set};
ghost use Rattle.tree_edits.specs.Insertions.{insert_element, items, last_of};
ghost use Rattle.tree_edits.specs.Parents.{with_parents};
ghost use Rattle.tree_path.specs.Paths.{after_last};

/// What is set with its parents is found at the pointer, unless the last step is `-`.
pub fn value_is_found()
    ensures { (t u v : Tree) (path : List (List ℕ)) → index_of (last_of path) ≢ after_last
        → after_set t (with_parents t (pointer_text path) v) ≡ Some u → at u path ≡ Ok v }
{}

/// What is inserted is between the elements before the index and those from it on; or behind all elements.
pub fn value_is_between()
    ensures between { (ts us : Elements) (n : ℕ) (v : Tree) → insert_element ts n v ≡ Some us
        → items us ≡ take n (items ts) ++ v ∷ drop n (items ts) }
    ensures last { (ts : Elements) (v : Tree) → items (push_element ts v) ≡ items ts ++ v ∷ [] }
{}
