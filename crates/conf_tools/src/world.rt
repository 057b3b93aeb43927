// What is around the program besides its three streams.
ghost use Rattle.std.specs.Prelude.{◌≡◌, []};
ghost use Rattle.conf_store.specs.Holes.{is_several};
ghost use Rattle.conf_tools.specs.Worlds.{WorldModel};

use conf_disk::Disk;
use conf_files::{Cause, NewFileFault, ReplaceFault};
use conf_folder::FolderFault;
use conf_store::Waiting;
use conf_words::Reporting;
use std::alloc::Global;
use std::io::Read;

/// For what a folder is opened.
#[derive(Clone, Copy, Debug, PartialEq, Eq)]
pub enum Access {
    /// To change the store in it. A folder without a store is refused, and stays as it is.
    Changing,
    /// To change the store in it, or one that is made there.
    Making,
    /// To make a store in it. A folder with a store is refused, and stays as it is.
    New,
    /// To read the store in it, which is opened as for changes. Where nothing can be written, it is read as it stands.
    Reading,
}

/// The folders of stores, and the files that the program's words name.
///
/// Each clause is of the world's own model, so whoever uses a world can't say what it didn't do: a fact of a folder is
/// had by a call alone, and each call leads from one world to the next.
pub trait World {
    /// The disk of a folder.
    type Disk: Disk + Drop;

    /// A file that is open to be read.
    type File: Read + Drop;

    /// Where a file is that was opened to be replaced.
    type Place: Drop;

    /// What contracts see of it: how each call, its result, and the worlds before and after it go together.
    ghost model: { WorldModel Self Self.Disk Self.File Self.Place };

    /// How much is said of a text that is refused, where the words ask for no more. Nothing is claimed of it.
    fn reporting(&self) -> Reporting;

    /// Why the call on a folder, or on a new file, that failed last did, if the system said so, with the path that the
    /// call was given. Nothing is claimed of it.
    fn cause(&self) -> Option<(Cause, &str)>;

    /// Why the last call on a file failed, or a read of it, if one did and the system said so. Nothing is claimed of
    /// it.
    fn file_cause(&self) -> Option<Cause>;

    /// Makes a folder. Whatever is at the path stays as it is.
    ///
    /// # Errors
    /// `Device` if it can't be made.
    fn make_folder(&mut self, alloc: Global, folder: &str) -> Result<(), FolderFault>
        ensures { model.made_folder folder.now self.old result self.new };

    /// Hands out the disk of a folder.
    ///
    /// # Errors
    /// `Device` if there is no folder or it can't be used, `Locked` if another run holds it, and `OutOfMemory`.
    /// `NotAStore` if a store is wanted and there is none, and `StoreExists` if there is one and none is wanted.
    fn open(
        &mut self,
        alloc: Global,
        access: Access,
        folder: &str,
    ) -> Result<Self::Disk, FolderFault>
        ensures { model.opened access folder.now self.old result self.new };

    /// Hands out the disk of a folder in which a new store is to be made, as [`open`](World::open) does. The new store
    /// has the owner, the group and the mode of `like`, the file of another store, as far as the system allows it.
    ///
    /// # Errors
    /// Those of [`open`](World::open), where no store is wanted.
    fn open_saved(
        &mut self,
        alloc: Global,
        like: &Self::File,
        folder: &str,
    ) -> Result<Self::Disk, FolderFault>
        ensures { model.opened Access.New folder.now self.old result self.new };

    /// Lets go of a disk that was handed out.
    fn give_back(&mut self, disk: Self::Disk)
        ensures { model.given_back disk self.old self.new };

    /// Opens the file of the store in a folder, to be read beside whoever holds the store. `None` if there is none.
    ///
    /// # Errors
    /// `Device` if there is no folder or the file can't be opened, `NotAStore` if it has more than 1,073,741,824 bytes,
    /// and `OutOfMemory`.
    fn open_store(&mut self, alloc: Global, folder: &str) -> Result<Option<Self::File>, FolderFault>
        ensures { model.opened_store folder.now self.old result self.new };

    /// Opens the file of the store in a folder once more, to say behind a fault what is in it. `None` if it can't be
    /// opened. Nothing is claimed of it.
    fn open_again(&self, alloc: Global, folder: &str) -> Option<Self::File>;

    /// How many records of a store may have waited for one sync when its file was opened, as its folder notes it.
    fn waiting(&self, file: &Self::File) -> Waiting
        ensures { is_several result ≡ model.several file.now };

    /// Opens a file to be read. `None` if it can't be opened.
    fn open_file(&mut self, path: &str) -> Option<Self::File>
        ensures { model.opened_file path.now self.old result self.new };

    /// Opens a file to be read and then replaced, with its place.
    ///
    /// # Errors
    /// `Device` if it can't be opened, and `OutOfMemory`.
    fn open_to_replace(
        &mut self,
        alloc: Global,
        path: &str,
    ) -> Result<(Self::File, Self::Place), ReplaceFault>
        ensures { model.opened_to_replace path.now self.old result self.new };

    /// Makes a file of these bytes at a path, where nothing may be.
    ///
    /// # Errors
    /// `FileExists` if something is there, which stays as it is. `Device` if the file can't be made, and `OutOfMemory`.
    fn create_file(&mut self, alloc: Global, path: &str, bytes: &[u8]) -> Result<(), NewFileFault>
        ensures { model.created_file path.now bytes.now self.old result self.new };

    /// Makes an empty file at a path, where nothing may be. It has the rights that a new file gets, and not those of
    /// its owner alone, as [`create_file`](World::create_file) gives.
    ///
    /// # Errors
    /// Those of [`create_file`](World::create_file).
    fn create_empty(&mut self, alloc: Global, path: &str) -> Result<(), NewFileFault>
        ensures { model.created_file path.now [] self.old result self.new };

    /// Puts a file of these bytes in the place of the file that was opened, whole.
    ///
    /// # Errors
    /// `Device` if it can't be replaced, and `OutOfMemory`.
    fn replace(
        &mut self,
        alloc: Global,
        place: Self::Place,
        bytes: &[u8],
    ) -> Result<(), ReplaceFault>
        ensures { model.replaced place bytes.now self.old result self.new };
}
