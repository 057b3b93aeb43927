// The word of the program that makes a store with the base and the records of another one.
ghost use Rattle.std.specs.Prelude.{◌≡◌};
ghost use Rattle.conf_store.specs.Holes.{is_several};
ghost use Rattle.conf_tools.specs.Prelude.{disk_handed_back};
ghost use Rattle.conf_tools.specs.Backups.{BacksUpInFolder, BacksUpStore};
ghost use Rattle.conf_tools.specs.Endings.{ending_after_backup};
ghost use Rattle.conf_tools.specs.declared.outcome.Ending.TheVariants.{Of};

use crate::outcome::Outcome;
use crate::read_words::{open_file, open_new};
use crate::reading_fault::ReadingFault;
use crate::world::World;
use conf_history::{SalvageFault, back_up};
use conf_store::Waiting;
use std::alloc::Global;

/// Makes a store in a new folder, with the base and the records of the store in another one.
pub(crate) fn back_up_folder<A: World>(
    world: &mut A,
    alloc: Global,
    folder: &str,
    new: &str,
) -> Outcome<'static>
    ensures { BacksUpStore A.model A.Disk.model A.File.remaining folder.now new.now
        world.old world.new (Of result) }
{
    match open_file(world, alloc, folder) {
        Ok(mut file) => {
            let waiting = world.waiting(&file);
            back_up_in_folder(world, alloc, &mut file, waiting, new)
        }
        Err(fault) => Outcome::Reading(fault),
    }
}

/// Makes a store in a new folder, with the base and the records of a store's file.
fn back_up_in_folder<A: World>(
    world: &mut A,
    alloc: Global,
    file: &mut A::File,
    waiting: Waiting,
    new: &str,
) -> Outcome<'static>
    ensures { BacksUpInFolder A.model A.Disk.model new.now (is_several waiting)
        (A.File.remaining file.old)
        world.old world.new (Of result) }
{
    match open_new(world, alloc, file, new) {
        Ok(disk) => {
            let ended = back_up(alloc, file, waiting, disk);
            end_backup(world, ended)
        }
        Err(fault) => Outcome::Reading(fault),
    }
}

/// Gives the disk back.
fn end_backup<A: World>(
    world: &mut A,
    ended: Result<A::Disk, (A::Disk, SalvageFault)>,
) -> Outcome<'static>
    ensures back { A.model.given_back (disk_handed_back ended) world.old world.new }
    ensures ends { Of result ≡ ending_after_backup ended }
{
    match ended {
        Ok(disk) => {
            world.give_back(disk);
            Outcome::Done
        }
        Err((disk, fault)) => {
            world.give_back(disk);
            Outcome::Reading(ReadingFault::Salvage(fault))
        }
    }
}
