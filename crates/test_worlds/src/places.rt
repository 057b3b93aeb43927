// The folders of a world, by their paths.
ghost use Rattle.std.specs.Prelude.{◌≡◌, ◌≢◌, ◌⊎◌, ◌<◌, [], length, None, Some, true, false, OnOk, OnErr, IfOk, IfErr, IfSome, string_bytes};
ghost use Rattle.test_worlds.specs.Entries.{IsFirst, IsNowhere, Adds};
ghost use Rattle.conf_tools.specs.declared.world.Access.TheVariants.{Reading};
ghost use Rattle.test_worlds.specs.Places.{folder_in, entries_of, held_at, HasWanted, HandsOut, TakesBack};
ghost use Rattle.test_worlds.specs.Shown.{Shows, ShowsIn, ShowsAt, SaysNothing};

use crate::file::MemoryFile;
use crate::new_disk::NewDisk;
use conf_disk::{Content, Disk, DiskFault, Name};
use conf_folder::FolderFault;
use conf_store::Waiting;
use conf_tools::Access;
use std::alloc::{AllocError, Global};

/// A folder at a path.
#[derive(Drop)]
pub(crate) struct Place<D> {
    pub(crate) path: String,
    /// Its disk. There is none while it is handed out.
    pub(crate) disk: Option<D>,
}

/// All folders that were ever made, and where the disk is that is handed out: one at most.
#[derive(Drop)]
pub(crate) struct Places<D> {
    places: Vec<Place<D>>,
    held: Option<usize>,
}

impl<D: Disk + Drop> Place<D> {
    /// Takes the disk of the folder, if it has what is wanted there.
    fn open(&mut self, alloc: Global, access: Access) -> Result<D, FolderFault>
        ensures path { string_bytes self.new.path ≡ string_bytes self.old.path }
        ensures was { D.model.honest → IfOk result (λ disk.
            folder_in D.model self.old ≡ Some (D.model.folder disk)) }
        ensures taken { OnOk result (folder_in D.model self.new ≡ None) }
        ensures wanted { D.model.honest → IfOk result (λ disk. HasWanted access (D.model.folder disk)) }
        ensures refused { D.model.honest → OnErr result
            (folder_in D.model self.new ≡ folder_in D.model self.old) }
        ensures reading { access ≡ Reading → IfErr result SaysNothing }
    {
        let Some(mut disk) = self.disk.take() else {
            return Err(FolderFault::Locked);
        };
        match refusal(alloc, &mut disk, access) {
            Some(fault) => {
                self.disk = Some(disk);
                Err(fault)
            }
            None => Ok(disk),
        }
    }

    /// The file of the store in the folder, or `None` if there is none.
    fn read_store(&mut self, alloc: Global) -> Result<Option<MemoryFile>, FolderFault>
        ensures path { string_bytes self.new.path ≡ string_bytes self.old.path }
        ensures same { D.model.honest → folder_in D.model self.new ≡ folder_in D.model self.old }
        ensures shows { D.model.honest → IfOk result (ShowsIn (folder_in D.model self.old)) }
        ensures fault { IfErr result SaysNothing }
    {
        match &mut self.disk {
            None => Err(FolderFault::Locked),
            Some(disk) => store_of(alloc, disk),
        }
    }
}

/// The file of the store on a disk, or `None` if there is none.
fn store_of<D: Disk>(alloc: Global, disk: &mut D) -> Result<Option<MemoryFile>, FolderFault>
    ensures same { D.model.honest → D.model.folder disk.new ≡ D.model.folder disk.old }
    ensures shows { D.model.honest → IfOk result (Shows (D.model.folder disk.old)) }
    ensures fault { IfErr result SaysNothing }
{
    match disk.read(alloc, Name::Store, u64::MAX) {
        Ok(Content::Missing) => Ok(None),
        Ok(Content::Bytes(bytes)) => Ok(Some(MemoryFile::new(bytes, Waiting::noted_on(disk)))),
        Err(DiskFault::OutOfMemory) => Err(FolderFault::OutOfMemory),
        Ok(Content::TooLong) | Err(DiskFault::Device) => Err(FolderFault::Device),
    }
}

/// Why a folder can't be opened for what is wanted there, if it can't.
fn refusal<D: Disk>(alloc: Global, disk: &mut D, access: Access) -> Option<FolderFault>
    ensures same { D.model.honest → D.model.folder disk.new ≡ D.model.folder disk.old }
    ensures wanted { D.model.honest → result ≡ None → HasWanted access (D.model.folder disk.old) }
    ensures reading { access ≡ Reading → result ≡ None }
{
    let is_missing = matches!(
        disk.read(alloc, Name::Store, u64::MAX),
        Ok(Content::Missing)
    );
    match access {
        Access::Changing if is_missing => Some(FolderFault::NotAStore),
        Access::New if !is_missing => Some(FolderFault::StoreExists),
        _ => None,
    }
}

/// Whether two paths are the same.
fn is_same(path: &str, other: &str) -> bool
    ensures same { result ≡ true → path.now ≡ other.now }
    ensures others { result ≡ false → path.now ≢ other.now }
{
    path == other
}

impl<D: Disk + Drop> Places<D> {
    /// No folders.
    pub(crate) fn new(alloc: Global) -> Self
        ensures folders { entries_of D.model result ≡ [] }
        ensures held { held_at result ≡ None }
    {
        Places {
            places: Vec::new(alloc),
            held: None,
        }
    }

    /// The place of the first folder with a path.
    fn position(&self, path: &str) -> Option<usize>
        ensures found { IfSome result (λ place. IsFirst (entries_of D.model self.now) path.now place) }
        ensures within { IfSome result (λ place. place < length self.now.places.items) }
        ensures nowhere { result ≡ None → IsNowhere (entries_of D.model self.now) path.now }
    {
        for place in 0..self.places.len() {
            if is_same(self.places[place].path.as_str(), path) {
                return Some(place);
            }
        }
        None
    }

    /// Takes the disk of the folder at a path, if it has what is wanted there.
    pub(crate) fn hand_out(
        &mut self,
        alloc: Global,
        access: Access,
        path: &str,
    ) -> Result<D, FolderFault>
        ensures handed_out { D.model.honest → IfOk result (λ disk.
            HandsOut D.model access path.now self.old (D.model.folder disk) self.new) }
        ensures refused { D.model.honest → OnErr result
            (entries_of D.model self.new ≡ entries_of D.model self.old) }
        ensures reading { access ≡ Reading → IfErr result SaysNothing }
    {
        let Some(place) = self.position(path) else {
            return Err(FolderFault::Device);
        };
        match self.places[place].open(alloc, access) {
            Ok(disk) => {
                self.held = Some(place);
                Ok(disk)
            }
            Err(fault) => Err(fault),
        }
    }

    /// Puts back the disk that was handed out.
    pub(crate) fn take_back(&mut self, disk: D)
        ensures { TakesBack D.model (D.model.folder disk) self.old self.new }
    {
        let Some(place) = self.held.take() else {
            return;
        };
        if place < self.places.len() {
            self.places[place].disk = Some(disk);
        }
    }

    /// The file of the store in the folder at a path, or `None` if there is none.
    pub(crate) fn read_store(
        &mut self,
        alloc: Global,
        path: &str,
    ) -> Result<Option<MemoryFile>, FolderFault>
        ensures same { D.model.honest → entries_of D.model self.new ≡ entries_of D.model self.old }
        ensures shows { D.model.honest
            → IfOk result (ShowsAt (entries_of D.model self.old) path.now) }
        ensures fault { IfErr result SaysNothing }
    {
        match self.position(path) {
            Some(place) => self.places[place].read_store(alloc),
            None => Err(FolderFault::Device),
        }
    }
}

impl<D: NewDisk> Places<D> {
    /// Makes a folder, if there is none at the path.
    pub(crate) fn make(&mut self, alloc: Global, path: &str) -> Result<(), AllocError>
        ensures { D.model.honest → (entries_of D.model self.new ≡ entries_of D.model self.old)
            ⊎ Adds (entries_of D.model self.old) (entries_of D.model self.new) path.now }
    {
        if self.position(path).is_some() {
            return Ok(());
        }
        let disk = D::of_new_folder(alloc)?;
        let path = String::from_str(alloc, path)?;
        self.places.push(Place {
            path,
            disk: Some(disk),
        })?;
        Ok(())
    }
}
