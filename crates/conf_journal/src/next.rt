// The procedures that replace `store.yaml` by a new file.
ghost use Rattle.std.specs.Prelude.{◌≡◌, ◌⊎◌, [], ◌∷◌, Option, IsSome, OnOk, Some, None, false};
ghost use Rattle.conf_journal.specs.Prelude.{File, CreateNext, Append, Sync, RenameNext, RemoveNext, SyncFolder, after};
ghost use Rattle.conf_journal.specs.Prelude.{bytes_under, several_waited, IsImage, image_now, folder_after, LeavesOnly};
ghost use Rattle.conf_journal.specs.Fails.{FailsAsCalls};
ghost use Rattle.conf_journal.specs.Store.{IsSynced, LeavesOldStore, LeavesStoreOrStaged, ReadsAs, file_with_bytes};
ghost use Rattle.conf_journal.specs.Held.{HoldsStaged, HoldsStore};

use conf_disk::{Disk, DiskFault, Name};

/// Makes a new `next.yaml` with no bytes, in place of one that is there. `store.yaml` is unchanged.
///
/// # Errors
/// `Device`: `next.yaml` is the one from before, the new one, or missing.
pub fn begin_next<D: Disk>(disk: &mut D) -> Result<(), DiskFault>
    ensures folder { D.model.honest →
        OnOk result
        (D.model.folder disk.new ≡ folder_after (RemoveNext ∷ CreateNext ∷ []) (D.model.folder disk.old)) }
    ensures any_moment { D.model.honest →
        LeavesOnly D.model disk.old disk.new
        (IsImage (folder_after (RemoveNext ∷ CreateNext ∷ []) (D.model.folder disk.old))) }
    ensures fails { FailsAsCalls D.model disk.old result disk.new }

    ensures reads { D.model.honest →
        OnOk result
        (ReadsAs (D.model.folder disk.new) (bytes_under (D.model.folder disk.old) Name.Store) (Some [])
        (several_waited (D.model.folder disk.old))) }
    // Whatever it returns, `store.yaml` is read as before.
    ensures left_alone { D.model.honest →
        bytes_under (D.model.folder disk.new) Name.Store ≡ bytes_under (D.model.folder disk.old) Name.Store }
    // A crash leaves an old store.
    ensures store { D.model.honest → LeavesOldStore D.model disk.old disk.new }
    ensures holds { D.model.honest → (file : Option File) → HoldsStore (D.model.folder disk.old) file →
        OnOk result (HoldsStore (D.model.folder disk.new) file) }
{
    disk.remove_next()?;
    disk.create_next()
}

/// Appends bytes to `next.yaml`, which has to be there. They are pending until the file is synced. `store.yaml` is
/// unchanged.
///
/// # Errors
/// `Device`: a prefix of the bytes was appended, perhaps none or all of them.
pub fn append_next<D: Disk>(disk: &mut D, bytes: &[u8]) -> Result<(), DiskFault>
    requires { D.model.honest → IsSome (D.model.folder disk.old).now.next }
    ensures folder { D.model.honest →
        OnOk result (D.model.folder disk.new ≡ after (Append Name.Next bytes.now) (D.model.folder disk.old)) }
    ensures any_moment { D.model.honest →
        LeavesOnly D.model disk.old disk.new
        (IsImage (after (Append Name.Next bytes.now) (D.model.folder disk.old))) }
    ensures fails { FailsAsCalls D.model disk.old result disk.new }

    ensures reads { D.model.honest →
        OnOk result
        (ReadsAs (D.model.folder disk.new) (bytes_under (D.model.folder disk.old) Name.Store)
        (file_with_bytes (bytes_under (D.model.folder disk.old) Name.Next) bytes.now)
        (several_waited (D.model.folder disk.old))) }
    // Whatever it returns, `store.yaml` is read as before.
    ensures left_alone { D.model.honest →
        bytes_under (D.model.folder disk.new) Name.Store ≡ bytes_under (D.model.folder disk.old) Name.Store }
    // A crash leaves an old store.
    ensures store { D.model.honest → LeavesOldStore D.model disk.old disk.new }
    ensures holds { D.model.honest → (file : Option File) → HoldsStore (D.model.folder disk.old) file →
        OnOk result (HoldsStore (D.model.folder disk.new) file) }
{
    disk.append(Name::Next, bytes)
}

/// Syncs `next.yaml`: after `Ok` nothing of it is pending. Without a file it does nothing. `store.yaml` is unchanged.
///
/// # Errors
/// `Device`: bytes of `next.yaml` may still be pending. What is read is unchanged.
pub fn sync_next<D: Disk>(disk: &mut D) -> Result<(), DiskFault>
    ensures folder { D.model.honest →
        OnOk result (D.model.folder disk.new ≡ after (Sync Name.Next) (D.model.folder disk.old)) }
    ensures any_moment { D.model.honest →
        LeavesOnly D.model disk.old disk.new (IsImage (D.model.folder disk.old)) }
    ensures fails { FailsAsCalls D.model disk.old result disk.new }

    // Whatever it returns, both files are read as before.
    ensures reads { D.model.honest → image_now (D.model.folder disk.new) ≡ image_now (D.model.folder disk.old) }
    ensures synced { D.model.honest → IsSome (D.model.folder disk.old).now.next →
        OnOk result (IsSynced (D.model.folder disk.new) Name.Next) }
    // A crash leaves an old store.
    ensures store { D.model.honest → LeavesOldStore D.model disk.old disk.new }
    ensures holds { D.model.honest → (file : Option File) → HoldsStore (D.model.folder disk.old) file →
        OnOk result (HoldsStore (D.model.folder disk.new) file) }
{
    disk.sync(Name::Next)
}

/// Makes a new `next.yaml` of these bytes, in place of one that is there, and syncs it, as [`swap_next`] requires.
/// `store.yaml` is unchanged.
///
/// # Errors
/// `Device`: `next.yaml` is the one from before, missing, or a new one with a prefix of the bytes.
pub fn stage_next<D: Disk>(disk: &mut D, bytes: &[u8]) -> Result<(), DiskFault>
    ensures folder { D.model.honest →
        OnOk result
        (D.model.folder disk.new ≡ folder_after
        (RemoveNext ∷ CreateNext ∷ Append Name.Next bytes.now ∷ Sync Name.Next ∷ [])
        (D.model.folder disk.old)) }
    ensures any_moment { D.model.honest →
        LeavesOnly D.model disk.old disk.new
        (IsImage
        (folder_after (RemoveNext ∷ CreateNext ∷ Append Name.Next bytes.now ∷ [])
        (D.model.folder disk.old))) }
    ensures fails { FailsAsCalls D.model disk.old result disk.new }

    ensures reads { D.model.honest →
        OnOk result
        (ReadsAs (D.model.folder disk.new) (bytes_under (D.model.folder disk.old) Name.Store)
        (Some bytes.now) (several_waited (D.model.folder disk.old))) }
    ensures synced { D.model.honest → OnOk result (IsSynced (D.model.folder disk.new) Name.Next) }
    // Whatever it returns, `store.yaml` is read as before.
    ensures left_alone { D.model.honest →
        bytes_under (D.model.folder disk.new) Name.Store ≡ bytes_under (D.model.folder disk.old) Name.Store }
    // A crash leaves an old store.
    ensures store { D.model.honest → LeavesOldStore D.model disk.old disk.new }
    ensures holds { D.model.honest → (file : Option File) → HoldsStore (D.model.folder disk.old) file →
        OnOk result (HoldsStore (D.model.folder disk.new) file) }
{
    begin_next(disk)?;
    append_next(disk, bytes)?;
    sync_next(disk)
}

/// Replaces `store.yaml` by `next.yaml`, which has to be there and synced whole: after `Ok`, every crash leaves it
/// there. The new file has no note of several appends.
///
/// # Errors
/// `Device`: `store.yaml` is the old file or the new one.
pub fn swap_next<D: Disk>(disk: &mut D) -> Result<(), DiskFault>
    requires { D.model.honest → IsSynced (D.model.folder disk.old) Name.Next }
    ensures folder { D.model.honest →
        OnOk result
        (D.model.folder disk.new ≡ folder_after (RenameNext ∷ SyncFolder ∷ []) (D.model.folder disk.old)) }
    ensures any_moment { D.model.honest →
        LeavesOnly D.model disk.old disk.new
        (IsImage (after RenameNext (D.model.folder disk.old))) }
    ensures fails { FailsAsCalls D.model disk.old result disk.new }

    ensures reads { D.model.honest →
        OnOk result
        (ReadsAs (D.model.folder disk.new) (bytes_under (D.model.folder disk.old) Name.Next) None false) }
    // A crash leaves an old store, or the whole staged file.
    ensures store { D.model.honest →
        LeavesStoreOrStaged D.model disk.old disk.new }
    ensures holds { D.model.honest →
        OnOk result (HoldsStaged (D.model.folder disk.old) (D.model.folder disk.new)) }
{
    disk.rename_next()?;
    disk.sync_folder()
}

/// Syncs `next.yaml`, which has to be there, and replaces `store.yaml` by it: after `Ok`, every crash leaves it there.
///
/// # Errors
/// `Device`: `store.yaml` is the old file or the new one.
pub fn finish_next<D: Disk>(disk: &mut D) -> Result<(), DiskFault>
    requires { D.model.honest → IsSome (D.model.folder disk.old).now.next }
    ensures folder { D.model.honest →
        OnOk result
        (D.model.folder disk.new ≡ folder_after (Sync Name.Next ∷ RenameNext ∷ SyncFolder ∷ [])
        (D.model.folder disk.old)) }
    ensures any_moment { D.model.honest →
        LeavesOnly D.model disk.old disk.new
        (λ image. IsImage (D.model.folder disk.old) image
        ⊎ IsImage
        (folder_after (Sync Name.Next ∷ RenameNext ∷ []) (D.model.folder disk.old)) image) }
    ensures fails { FailsAsCalls D.model disk.old result disk.new }

    ensures reads { D.model.honest →
        OnOk result
        (ReadsAs (D.model.folder disk.new) (bytes_under (D.model.folder disk.old) Name.Next) None false) }
    // A crash leaves an old store, or the whole staged file.
    ensures store { D.model.honest →
        LeavesStoreOrStaged D.model disk.old disk.new }
    ensures holds { D.model.honest →
        OnOk result (HoldsStaged (D.model.folder disk.old) (D.model.folder disk.new)) }
{
    sync_next(disk)?;
    swap_next(disk)
}
