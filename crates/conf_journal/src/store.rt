// The procedures that append to `store.yaml`.
ghost use Rattle.std.specs.Prelude.{◌≡◌, [], ◌∷◌, Option, IsSome, OnOk, Err, option_map};
ghost use Rattle.conf_journal.specs.Prelude.{File, Append, Sync, after, with_pending, synced_whole, IsImage, image_now};
ghost use Rattle.conf_journal.specs.Prelude.{folder_after, LeavesOnly};
ghost use Rattle.conf_journal.specs.Appends.{LeavesAppended, ReadsAppended};
ghost use Rattle.conf_journal.specs.Fails.{FailsAsCalls};
ghost use Rattle.conf_journal.specs.Held.{HoldsStore};

use conf_disk::{Disk, DiskFault, Name};

/// Appends bytes to `store.yaml`, which has to be there. They are pending until [`sync_store`] returns `Ok`. If others
/// are pending there, it is noted that several appends may have waited for one sync.
///
/// # Errors
/// `Device`: a prefix of the bytes was appended, perhaps none or all of them.
pub fn append_store<D: Disk>(disk: &mut D, bytes: &[u8]) -> Result<(), DiskFault>
    requires { D.model.honest → IsSome (D.model.folder disk.old).now.store }
    ensures folder { D.model.honest →
        OnOk result (D.model.folder disk.new ≡ after (Append Name.Store bytes.now) (D.model.folder disk.old)) }
    // What a crash at any moment leaves, whatever this returns.
    ensures leaves { D.model.honest
        → LeavesAppended D.model bytes.now disk.old disk.new }
    ensures fails { FailsAsCalls D.model disk.old result disk.new }

    ensures reads { D.model.honest →
        OnOk result (ReadsAppended bytes.now (D.model.folder disk.old) (D.model.folder disk.new)) }
    ensures holds { D.model.honest → (file : Option File) → HoldsStore (D.model.folder disk.old) file →
        OnOk result (HoldsStore (D.model.folder disk.new) (option_map (with_pending bytes.now) file)) }
{
    disk.append(Name::Store, bytes)
}

/// Syncs `store.yaml`: after `Ok`, a crash leaves all of its bytes. Without a file it does nothing.
///
/// # Errors
/// `Device`: a crash may still take away pending bytes. What is read is unchanged.
pub fn sync_store<D: Disk>(disk: &mut D) -> Result<(), DiskFault>
    ensures folder { D.model.honest → OnOk result (D.model.folder disk.new
        ≡ after (Sync Name.Store) (D.model.folder disk.old)) }
    ensures any_moment { D.model.honest → LeavesOnly D.model disk.old disk.new
        (IsImage (D.model.folder disk.old)) }
    ensures fails { FailsAsCalls D.model disk.old result disk.new }

    ensures reads { D.model.honest → image_now (D.model.folder disk.new) ≡ image_now (D.model.folder disk.old) }
    ensures holds { D.model.honest → (file : Option File) → HoldsStore (D.model.folder disk.old) file →
        OnOk result (HoldsStore (D.model.folder disk.new) (option_map synced_whole file)) }
{
    disk.sync(Name::Store)
}

/// Appends bytes to `store.yaml`, which has to be there, and syncs it: after `Ok`, a crash leaves all of its bytes.
///
/// # Errors
/// `Device`: a prefix of the bytes was appended, perhaps none or all of them. They may be synced or not.
pub fn append_closed<D: Disk>(disk: &mut D, bytes: &[u8]) -> Result<(), DiskFault>
    requires { D.model.honest → IsSome (D.model.folder disk.old).now.store }
    ensures folder { D.model.honest →
        OnOk result
        (D.model.folder disk.new ≡ folder_after (Append Name.Store bytes.now ∷ Sync Name.Store ∷ [])
        (D.model.folder disk.old)) }
    // What a crash at any moment leaves, whatever this returns.
    ensures leaves { D.model.honest
        → LeavesAppended D.model bytes.now disk.old disk.new }
    ensures fails { FailsAsCalls D.model disk.old result disk.new }

    ensures reads { D.model.honest →
        OnOk result (ReadsAppended bytes.now (D.model.folder disk.old) (D.model.folder disk.new)) }
    ensures holds { D.model.honest → (file : Option File) → HoldsStore (D.model.folder disk.old) file →
        OnOk result
        (HoldsStore (D.model.folder disk.new)
        (option_map synced_whole (option_map (with_pending bytes.now) file))) }
{
    append_store(disk, bytes)?;
    sync_store(disk)
}
