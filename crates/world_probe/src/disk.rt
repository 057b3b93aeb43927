// The disk of a folder in memory, for one run.
use crate::guarded::GuardedSystem;
use conf_disk::{Content, Disk, DiskFault, Name};
use conf_protocol::SystemDisk;
use std::alloc::Global;

/// The disk of a folder in memory, by the protocol of real folders. It claims nothing, so each call may be made at any
/// time.
#[derive(Drop)]
pub(crate) struct ProbeDisk {
    disk: SystemDisk<GuardedSystem>,
}

impl ProbeDisk {
    /// The disk of a folder in which an earlier run may have ended in any way. If a call fails, the system is returned.
    pub(crate) fn open(system: GuardedSystem) -> Result<ProbeDisk, GuardedSystem> {
        match SystemDisk::open(system) {
            Ok(disk) => Ok(ProbeDisk { disk }),
            Err(unopened) => Err(unopened.system),
        }
    }

    /// Ends the run.
    pub(crate) fn release(self) -> GuardedSystem {
        let ProbeDisk { disk } = self;
        disk.release()
    }
}

impl Disk for ProbeDisk {
    ghost use Rattle.conf_disk.specs.Folder.{empty_folder};

    ghost model = { record {
      honest = ⊥;
      folder = λ disk. empty_folder;
      moment = λ disk. 0;
      left = λ disk t image. ⊥;
      failure_count = λ disk. disk.disk.failures;
    } };

    ghost counts_now = { λ disk t image honest le is. honest };

    ghost only_now = { λ disk image honest is. absurd honest };

    ghost whole = { λ disk honest. absurd honest };

    fn failures(&self) -> u64 {
        self.disk.failures()
    }

    fn several_waited(&self) -> bool {
        self.disk.several_waited()
    }

    fn read(&mut self, alloc: Global, name: Name, max: u64) -> Result<Content, DiskFault> {
        self.disk.read(alloc, name, max)
    }

    fn create_next(&mut self) -> Result<(), DiskFault> {
        self.disk.create_next()
    }

    fn append(&mut self, name: Name, bytes: &[u8]) -> Result<(), DiskFault> {
        self.disk.append(name, bytes)
    }

    fn sync(&mut self, name: Name) -> Result<(), DiskFault> {
        self.disk.sync(name)
    }

    fn rename_next(&mut self) -> Result<(), DiskFault> {
        self.disk.rename_next()
    }

    fn remove_next(&mut self) -> Result<(), DiskFault> {
        self.disk.remove_next()
    }

    fn sync_folder(&mut self) -> Result<(), DiskFault> {
        self.disk.sync_folder()
    }
}
