// Laws of the model, each the contract of a function that does nothing.
ghost use Rattle.std.specs.Prelude.{ℕ, List, Option};
ghost use Rattle.conf_journal.specs.Prelude.{Folder, IsImage, LeavesOnly};
ghost use Rattle.conf_journal.specs.Held.{HeldIsLeft, HeldIsNoted, SyncedIsLeft, OnlyHeldIsLeft, HeldIsRead, MissingIsNone};
ghost use Rattle.conf_journal.specs.Store.{LeavesOldStore, LeavesStoreOr};

use conf_disk::Disk;

/// A law: if every stage has the same file under `store.yaml`, a crash leaves that file: its synced bytes, and as many
/// of its pending bytes as there are or fewer, each as it was or zero. If none are pending, it leaves exactly its
/// bytes. It leaves the note of several appends if there is one.
pub fn held_store_is_left()
    ensures held { HeldIsLeft }
    ensures noted { HeldIsNoted }
    ensures synced { SyncedIsLeft }
{}

/// A law: if every stage has the same file under `store.yaml` with nothing pending, or none has a file, a crash can
/// leave only that, and it is what is read. A read returns `Missing` only if there is no file.
pub fn held_store_is_the_only_one()
    ensures left { OnlyHeldIsLeft }
    ensures reads { HeldIsRead }
    ensures missing { MissingIsNone }
{}

/// A law of two runs of calls on an honest disk, one after the other.
///
/// If a crash during either run leaves an image of one folder, so does a crash during both. Suppose that a crash during
/// the first run leaves an old store, and one during the second a store of the folder between them. Then a crash during
/// both leaves an old store. If the second may leave another store as well, so may both.
pub fn runs_of_calls_are_joined<D: Disk>()
    ensures images { D.model.honest → (old between new : D) (folder : Folder)
        → LeavesOnly D.model old between (IsImage folder)
        → LeavesOnly D.model between new (IsImage folder)
        → LeavesOnly D.model old new (IsImage folder) }
    ensures old_store { D.model.honest → (old between new : D)
        → LeavesOldStore D.model old between
        → LeavesOldStore D.model between new
        → LeavesOldStore D.model old new }
    ensures other_store { D.model.honest → (old between new : D) (other : Option (List ℕ))
        → LeavesOldStore D.model old between
        → LeavesStoreOr D.model other between new
        → LeavesStoreOr D.model other old new }
{}
