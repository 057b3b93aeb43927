// Disks of new folders.
ghost use Rattle.std.specs.Prelude.{◌≡◌, length, IfOk};
ghost use Rattle.conf_system.specs.Machine.{stages};
ghost use Rattle.test_system.specs.Replay.{new_machine};
ghost use Rattle.test_worlds.specs.Entries.{IsBlank};

use conf_disk::Disk;
use conf_protocol::SystemDisk;
use conf_system::System;
use std::alloc::{AllocError, Global};
use test_system::MemorySystem;

/// A disk of which there is one for each new folder.
pub trait NewDisk: Disk + Drop {
    /// The disk of a folder that has no files, and never had any.
    ///
    /// # Errors
    /// If there is no memory for it.
    fn of_new_folder(alloc: Global) -> Result<Self, AllocError>
        ensures { Self.model.honest → IfOk result (λ disk. IsBlank (Self.model.folder disk)) };
}

/// A system of which there is one for each new folder.
pub trait NewSystem: System + Drop {
    /// The system of a folder in which nothing was ever done.
    ///
    /// # Errors
    /// If there is no memory for it.
    fn of_new_folder(alloc: Global) -> Result<Self, AllocError>
        ensures { Self.model.honest
            → IfOk result (λ system. Self.model.machine system ≡ new_machine) };

    /// How many stages the names may be at after a crash.
    ///
    /// # Errors
    /// If there is no memory for looking.
    fn stage_count(&self) -> Result<usize, AllocError>
        ensures { Self.model.honest
            → IfOk result (λ count. count ≡ length (stages (Self.model.machine self.now))) };
}

impl<S: NewSystem> NewDisk for SystemDisk<S> {
    fn of_new_folder(alloc: Global) -> Result<Self, AllocError> {
        let Ok(disk) = SystemDisk::open(S::of_new_folder(alloc)?) else {
            return Err(AllocError);
        };
        let (system, state) = disk.put_away();
        if system.stage_count()? != 1 {
            return Err(AllocError);
        }
        Ok(SystemDisk::take_up(system, state))
    }
}

impl NewSystem for MemorySystem {
    fn of_new_folder(alloc: Global) -> Result<Self, AllocError> {
        MemorySystem::new(alloc)
    }

    fn stage_count(&self) -> Result<usize, AllocError> {
        self.stages()
    }
}
