// Laws of edits, over the definitions alone.
ghost use Rattle.std.specs.Prelude.{◌≡◌, ◌≢◌, ℕ, true, List, [], ◌∷◌, ◌++◌, Ok};
ghost use Rattle.tree_path.specs.Prelude.{Tree, distinct};
ghost use Rattle.tree_path.specs.Paths.{index_of, after_last, at, set, delete};

/// What is set at a path is found there, unless the last step is `-`.
pub fn set_is_found()
    ensures { (t u v : Tree) (parents : List (List ℕ)) (last : List ℕ) → index_of last ≢ after_last
        → set t (parents ++ last ∷ []) v ≡ Ok u → at u (parents ++ last ∷ []) ≡ Ok v }
{}

/// If no mapping of a tree holds a key twice, and none of a value that is set, none of the tree does after an edit.
pub fn keys_stay_distinct()
    ensures set { (t u v : Tree) (path : List (List ℕ)) → distinct t ≡ true → distinct v ≡ true
        → set t path v ≡ Ok u
        → distinct u ≡ true }
    ensures delete { (t u : Tree) (path : List (List ℕ)) → distinct t ≡ true → delete t path ≡ Ok u
        → distinct u ≡ true }
{}
