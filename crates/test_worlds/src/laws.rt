// What runs of the program keep of the stores of a world in memory.
ghost use Rattle.std.specs.Prelude.{List, ℕ};
ghost use Rattle.conf_runs.specs.Folders.{KeepsFolders, HandsOutNone};
ghost use Rattle.conf_runs.specs.FoldersRead.{ShowsFolders};
ghost use Rattle.test_worlds.specs.Files.{remaining_of};
ghost use Rattle.test_worlds.specs.Runs.{MemoryRunsHold};
ghost use Rattle.test_worlds.specs.Reading.{MemoryReadsSeeWrites};
ghost use Rattle.test_worlds.specs.Worlds.{memory_world, memory_leaves};

use crate::{MemoryWorld, NewDisk};
use conf_disk::{Disk, reading_is_an_image};
use conf_protocol::SystemDisk;
use conf_runs::{Folders, reads_see_writes, runs_hold};
use test_system::MemorySystem;

impl<D: NewDisk> Folders for MemoryWorld<D> {
    ghost leaves = { memory_leaves D.model };
}

/// A law: a folder of the world changes by what is done on its disk, and by nothing else. Where a new store is to be
/// made, no disk is handed out that has one. What is read of a folder is what a crash may leave of it. Two paths are
/// two folders.
pub fn memory_worlds_keep_folders<D: NewDisk>()
    ensures keeps { D.model.honest
        → KeepsFolders (memory_world D.model) D.model (memory_leaves D.model) }
    ensures none { D.model.honest → HandsOutNone (memory_world D.model) D.model }
    ensures reads { D.model.honest
        → ShowsFolders (memory_world D.model) remaining_of (memory_leaves D.model) }
{
    reading_is_an_image();
}

/// A law: whatever runs of the program are made in a world in memory over honest disks, and wherever they are cut off
/// and crash, each image of a folder means in the end what is kept of the runs makes of a state that it might mean
/// before them. [`runs_hold`] says this of each world that keeps its folders, and this one does.
pub fn memory_runs_hold<D: NewDisk>()
    ensures { (honest : D.model.honest) (path : List ℕ) → MemoryRunsHold D.model honest path }
{
    runs_hold::<MemoryWorld<D>>();
    memory_worlds_keep_folders::<D>();
}

/// A law: what a run wrote in a world in memory over honest disks, a later one reads. [`reads_see_writes`] says this of
/// each world that keeps its folders and reads of them what a crash may leave.
pub fn memory_reads_see_writes<D: NewDisk>()
    ensures { (honest : D.model.honest) (path name pointer : List ℕ)
        → MemoryReadsSeeWrites D.model honest path name pointer }
{
    reads_see_writes::<MemoryWorld<D>>();
    memory_worlds_keep_folders::<D>();
}

/// A law: [`memory_runs_hold`] at the disk of the protocol over a system in memory. Such a disk is honest, so nothing
/// is premised of the world, nor of any disk or system in it.
pub fn system_runs_hold()
    ensures { (path : List ℕ)
        → MemoryRunsHold ⟦<SystemDisk<MemorySystem> as Disk>⟧.model tt path }
{
    memory_runs_hold::<SystemDisk<MemorySystem>>();
}

/// A law: [`memory_reads_see_writes`] at the same disk, where nothing is premised either.
pub fn system_reads_see_writes()
    ensures { (path name pointer : List ℕ)
        → MemoryReadsSeeWrites ⟦<SystemDisk<MemorySystem> as Disk>⟧.model tt path name pointer }
{
    memory_reads_see_writes::<SystemDisk<MemorySystem>>();
}
