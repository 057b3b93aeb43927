// Laws of what bytes give as a tree.
ghost use Rattle.std.specs.Prelude.{◌≡◌, ◌≢◌, ℕ, List};
ghost use Rattle.yaml_tree.specs.Prelude.{Limits, Tree, ReadFault, OutOfMemory};
ghost use Rattle.yaml_tree.specs.Reading.{IsRead, Refuses, GivesNone};

/// Bytes give at most one tree.
pub fn bytes_give_one()
    ensures { (bytes : List ℕ) (limits : Limits) (t u : Tree)
        → IsRead bytes limits t → IsRead bytes limits u → t ≡ u }
{}

/// Bytes that are refused give no tree, unless memory ran out.
pub fn refused_bytes_give_none()
    ensures { (bytes : List ℕ) (limits : Limits) (fault : ReadFault) → fault ≢ OutOfMemory
        → Refuses bytes limits fault → GivesNone bytes limits }
{}
