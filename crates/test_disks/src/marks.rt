// What decides whether several appends wait, of a folder that is played again.
ghost use Rattle.std.specs.Prelude.{◌≡◌, ℕ, List, Bool, false, ◌||◌, option_map};
ghost use Rattle.conf_disk.specs.Image.{folder_of_image};
ghost use Rattle.conf_disk.specs.Folder.{Append, RenameNext};
ghost use Rattle.test_disks.specs.Marks.{marks_of, marks_after};
ghost use Rattle.test_disks.specs.Replay.{step_of, image_of, items_of, any_bytes};

use crate::folder::{Change, Left};
use conf_disk::Name;

/// Of each name whether bytes of its file are pending, where it has one, and the note of the file under `Store`.
#[derive(Clone, Copy)]
pub(crate) struct Marks {
    pub(crate) store: Option<bool>,
    pub(crate) next: Option<bool>,
    pub(crate) noted: bool,
}

impl Marks {
    /// The marks of what a crash left.
    pub(crate) fn of(left: &Left) -> Marks
        ensures { result ≡ marks_of (folder_of_image (image_of left.now)) }
    {
        Marks {
            store: whole(&left.store),
            next: whole(&left.next),
            noted: left.several,
        }
    }

    /// The marks after a change.
    pub(crate) fn after(self, change: &Change) -> Marks
        ensures { result ≡ marks_after (step_of change.now) self }
    {
        match change {
            Change::CreateNext => Marks {
                next: Some(false),
                ..self
            },
            Change::Append(Name::Store, bytes) => self.after_append(bytes),
            Change::Append(Name::Next, bytes) => Marks {
                next: more(self.next, bytes),
                ..self
            },
            Change::Sync(Name::Store) => Marks {
                store: synced(self.store),
                ..self
            },
            Change::Sync(Name::Next) => Marks {
                next: synced(self.next),
                ..self
            },
            Change::RenameNext => self.after_rename(),
            Change::RemoveNext => Marks { next: None, ..self },
            Change::SyncFolder => self,
        }
    }

    fn after_append(self, bytes: &[u8]) -> Marks
        ensures { result ≡ marks_after (Append Name.Store bytes.now) self }
    {
        Marks {
            store: more(self.store, bytes),
            noted: self.store.unwrap_or(false) || self.noted,
            ..self
        }
    }

    fn after_rename(self) -> Marks
        ensures { result ≡ marks_after RenameNext self }
    {
        match self.next {
            None => self,
            store => Marks {
                store,
                next: None,
                noted: false,
            },
        }
    }
}

/// That nothing of a file is pending, where there is one.
fn whole(bytes: &Option<Vec<u8>>) -> Option<bool>
    ensures { result ≡ option_map (λ (bytes : List ℕ). false) (items_of bytes.now) }
{
    match bytes {
        None => None,
        Some(_) => Some(false),
    }
}

/// Whether bytes of a file are pending after an append to it.
fn more(waits: Option<bool>, bytes: &[u8]) -> Option<bool>
    ensures { result ≡ option_map (λ (waits : Bool). waits || any_bytes bytes.now) waits }
{
    match waits {
        None => None,
        Some(waits) => Some(waits || !bytes.is_empty()),
    }
}

/// The same after a sync of it.
fn synced(waits: Option<bool>) -> Option<bool>
    ensures { result ≡ option_map (λ (waits : Bool). false) waits }
{
    match waits {
        None => None,
        Some(_) => Some(false),
    }
}
