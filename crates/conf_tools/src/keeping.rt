// What `verify` and `salvage` do where what an opening of a store drops is to be kept in a new file.
ghost use Rattle.std.specs.Prelude.{◌≡◌, ◌≤◌, Ok, Some, IfOk, IfErr, IfSome, length};
ghost use Rattle.conf_store.specs.Holes.{is_several};
ghost use Rattle.conf_tools.specs.Keeping.{CannotKeep, KeepsDropped, KeepsOf, PutsFile, SalvagesTo, Verifies};
ghost use Rattle.conf_tools.specs.Prelude.{RefusesSurvey};
ghost use Rattle.conf_tools.specs.StoreWords.{SavesInFolder};
ghost use Rattle.conf_tools.specs.declared.outcome.Ending.TheVariants.{Of};

use crate::input::read_up_to;
use crate::outcome::Outcome;
use crate::read_words::{
    Question, answer, answer_on_folder, open_file, open_new, salvage_folder, write_saved,
};
use crate::reading_fault::ReadingFault;
use crate::texts::ToolFault;
use crate::world::World;
use conf_files::NewFileFault;
use conf_history::{HistoryFault, find_in_store, salvage};
use conf_journal::STORE_LIMIT;
use conf_store::Waiting;
use std::alloc::Global;
use std::io::{Read, Write};

/// The most bytes of a store's file that are read: one more than it may have, by which one that is too long is found.
pub(crate) const MOST_OF_STORE: usize = STORE_LIMIT as usize + 1;

/// Writes what an opening of the store in a folder would find. Where `keep_dropped` is a path, what the opening would
/// drop, or be refused for, is put into a new file there first, and then the bytes that were read for that are
/// surveyed; if it can't be put there, nothing is written.
pub(crate) fn verify_folder<'w, A: World, W: Write>(
    world: &mut A,
    alloc: Global,
    folder: &'w str,
    keep_dropped: Option<&str>,
    output: &mut W,
) -> Outcome<'w>
    ensures { Verifies A.model A.File.remaining folder.now keep_dropped.entry world.old world.new
        (W.contents output.old) (W.contents output.new) (Of result) }
{
    let Some(path) = keep_dropped else {
        return answer_on_folder(world, alloc, folder, Question::Survey, output);
    };
    match keep_dropped_of(world, alloc, folder, path) {
        Ok((_, waiting, bytes)) => {
            let mut given = bytes.as_slice();
            answer(alloc, &mut given, waiting, folder, Question::Survey, output)
        }
        Err(outcome) => outcome,
    }
}

/// Makes a store in a new folder, of what the file of the store in another one says before its first bad piece. Where
/// `keep_dropped` is a path, the rest is put into a new file there first, and the store is made of the bytes that were
/// read for that; if it can't be put there, no store is made.
pub(crate) fn salvage_to<A: World, W: Write>(
    world: &mut A,
    alloc: Global,
    folder: &str,
    keep_dropped: Option<&str>,
    new: &str,
    output: &mut W,
) -> Outcome<'static>
    ensures { SalvagesTo A.model A.Disk.model A.File.remaining folder.now keep_dropped.entry new.now
        world.old world.new (W.contents output.old) (W.contents output.new) (Of result) }
{
    let Some(path) = keep_dropped else {
        return salvage_folder(world, alloc, folder, new, output);
    };
    match keep_dropped_of(world, alloc, folder, path) {
        Ok((file, waiting, bytes)) => {
            save_bytes(world, alloc, &file, waiting, &bytes, new, output)
        }
        Err(outcome) => outcome,
    }
}

/// Makes a store in a new folder, of what the bytes of a store's file say before their first bad piece. It takes after
/// that file.
fn save_bytes<A: World, W: Write>(
    world: &mut A,
    alloc: Global,
    like: &A::File,
    waiting: Waiting,
    bytes: &[u8],
    new: &str,
    output: &mut W,
) -> Outcome<'static>
    ensures { SavesInFolder A.model A.Disk.model new.now (is_several waiting) (Some bytes.now)
        world.old world.new (W.contents output.old) (W.contents output.new)
        (Of result) }
{
    match open_new(world, alloc, like, new) {
        Ok(disk) => {
            let mut given = bytes;
            let saved = salvage(alloc, &mut given, waiting, disk);
            write_saved(world, alloc, saved, output)
        }
        Err(fault) => Outcome::Reading(fault),
    }
}

/// Puts what an opening of the store in a folder would drop, or be refused for, into a new file at a path, if that is
/// anything. Returns the store's file, which was read, how many of its records may have waited for one sync, and all of
/// its bytes.
///
/// # Errors
/// How the word ends then: the store's file can't be read or does not answer, or the new file can't be made.
fn keep_dropped_of<A: World>(
    world: &mut A,
    alloc: Global,
    folder: &str,
    path: &str,
) -> Result<(A::File, Waiting, Vec<u8>), Outcome<'static>>
    ensures kept { IfOk result (λ read. KeepsDropped A.model A.File.remaining folder.now path.now
        (is_several read.1) read.2.items world.old (Ok tt) world.new) }
    ensures refused { IfErr result (λ outcome. CannotKeep A.model A.File.remaining folder.now path.now
        world.old world.new (Of outcome)) }
{
    let mut file = match open_file(world, alloc, folder) {
        Ok(file) => file,
        Err(fault) => return Err(Outcome::Reading(fault)),
    };
    let waiting = world.waiting(&file);
    let (bytes, kept) = match read_store(alloc, &mut file, waiting) {
        Ok(read) => read,
        Err(fault) => return Err(Outcome::Reading(ReadingFault::History(fault))),
    };
    match put_file(world, alloc, path, &bytes[kept..]) {
        Ok(()) => Ok((file, waiting, bytes)),
        Err(fault) => Err(Outcome::Keeping(fault)),
    }
}

/// Makes a new file of bytes at a path; none of no bytes.
///
/// # Errors
/// Those of [`World::create_file`].
fn put_file<A: World>(
    world: &mut A,
    alloc: Global,
    path: &str,
    bytes: &[u8],
) -> Result<(), NewFileFault>
    ensures { PutsFile A.model path.now bytes.now world.old result world.new }
{
    match bytes {
        [] => Ok(()),
        _ => world.create_file(alloc, path, bytes),
    }
}

/// Reads a store's file to its end, and returns its bytes, and how many of them an opening keeps. It takes memory for
/// all of them.
///
/// # Errors
/// Those of [`find_in_store`].
fn read_store<R: Read>(
    alloc: Global,
    reader: &mut R,
    waiting: Waiting,
) -> Result<(Vec<u8>, usize), HistoryFault>
    ensures ok { IfOk result (λ read. KeepsOf (is_several waiting) (R.remaining reader.old) read.0.items read.1) }
    ensures within { IfOk result (λ read. read.1 ≤ length read.0.items) }
    ensures refused { IfErr result (λ fault.
        IfSome (R.remaining reader.old) (λ bytes. RefusesSurvey bytes fault)) }
{
    let bytes = match read_up_to(alloc, reader, MOST_OF_STORE) {
        Ok(bytes) => bytes,
        Err(ToolFault::Input) => return Err(HistoryFault::Input),
        Err(_) => return Err(HistoryFault::OutOfMemory),
    };
    let mut given = bytes.as_slice();
    match find_in_store(alloc, &mut given, waiting) {
        Ok(findings) => Ok((bytes, findings.kept as usize)),
        Err(fault) => Err(fault),
    }
}
