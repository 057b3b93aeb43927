// A file that a person names and a new one beside it, as the kernel and the device hold them, as data.
ghost use Rattle.std.specs.Prelude.{◌≡◌, ◌<◌, [], length, take, Some, OnOk, IfOk, option_map};
ghost use Rattle.file_calls.specs.Machine.{Call, CreateBeside, CreateGiven, Rename, after, failing, with_names, with_new};
ghost use Rattle.file_calls.specs.Machine.{file_at, file_bytes, stages, empty_file, rights_at};
ghost use Rattle.test_files.specs.Replay.{file_of, leads_of, machine_of, entry_of, call_of, machine_made, items_of, start_of};
ghost use Rattle.test_files.specs.Crashes.{given_at, pending_of, left_of, torn_bytes};

use crate::change::{Change, Made};
use crate::file::FileData;
use crate::start::{LeadsTo, Start};
use file_calls::Rights;
use std::alloc::{AllocError, Global};

/// What the two names lead to.
#[derive(Clone, Copy)]
pub(crate) struct NamesData {
    pub(crate) given: LeadsTo,
    pub(crate) beside: LeadsTo,
}

/// The file that was there, and the new one; the names before now since the last sync of the folder, oldest first, and
/// now; and what calls failed to do.
#[derive(Drop)]
pub(crate) struct MachineData {
    pub(crate) old_file: FileData,
    pub(crate) new_file: Option<FileData>,
    pub(crate) earlier: Vec<NamesData>,
    pub(crate) current: NamesData,
    pub(crate) is_refused: bool,
    pub(crate) is_left: bool,
}

impl MachineData {
    pub(crate) fn new(alloc: Global, start: &Start) -> Result<Self, AllocError>
        ensures { IfOk result (λ m. machine_of m ≡ start_of start.now) }
    {
        let old_file = FileData {
            device: start.bytes.to_vec(alloc)?,
            pending: Vec::new(alloc),
            failed: false,
            rights: start.rights,
        };
        Ok(MachineData {
            old_file,
            new_file: None,
            earlier: Vec::new(alloc),
            current: NamesData {
                given: start.given,
                beside: LeadsTo::Nothing,
            },
            is_refused: false,
            is_left: false,
        })
    }

    /// Makes a call that changes something, or a part of one that failed.
    pub(crate) fn apply(&mut self, alloc: Global, made: &Made) -> Result<(), AllocError>
        ensures { OnOk result (machine_of self.new
            ≡ machine_made (entry_of made.now) (machine_of self.old)) }
    {
        match made.failed {
            None => self.make(alloc, &made.change),
            Some(0) => self.fail(&made.change),
            Some(part) => self.fail_late(alloc, &made.change, part),
        }
    }

    /// Lets a call fail of which nothing is done.
    fn fail(&mut self, change: &Change) -> Result<(), AllocError>
        ensures { OnOk result (machine_of self.new ≡ failing 0 (call_of change.now) (machine_of self.old)) }
    {
        match change {
            Change::Write(_) => self.write(&[])?,
            Change::SyncNew => self.fail_sync(),
            Change::GiveOwner(_, _) | Change::GiveGroup(_) => self.is_refused = true,
            Change::UnlinkBeside | Change::UnlinkGiven => self.is_left = true,
            _ => {}
        }
        Ok(())
    }

    /// Lets a call fail of which a part is done, or all.
    fn fail_late(&mut self, alloc: Global, change: &Change, part: usize) -> Result<(), AllocError>
        requires { 0 < part }
        ensures { OnOk result (machine_of self.new ≡ failing part (call_of change.now) (machine_of self.old)) }
    {
        match change {
            Change::Write(bytes) => self.write(front_of(bytes, part)),
            Change::SyncNew => {
                self.fail_sync();
                Ok(())
            }
            Change::SyncFolder => Ok(()),
            Change::CreateBeside(_) | Change::CreateGiven(_) => {
                self.make(alloc, change)?;
                self.is_left = true;
                Ok(())
            }
            Change::GiveOwner(_, _) | Change::GiveGroup(_) => {
                self.make(alloc, change)?;
                self.is_refused = true;
                Ok(())
            }
            _ => self.make(alloc, change),
        }
    }

    fn make(&mut self, alloc: Global, change: &Change) -> Result<(), AllocError>
        ensures { OnOk result (machine_of self.new ≡ after (call_of change.now) (machine_of self.old)) }
    {
        match change {
            Change::CreateBeside(rights) => {
                self.new_file = Some(FileData::new(alloc, *rights));
                self.rename(self.current.given, LeadsTo::New)
            }
            Change::CreateGiven(rights) => {
                self.new_file = Some(FileData::new(alloc, *rights));
                self.rename(LeadsTo::New, self.current.beside)
            }
            Change::Write(bytes) => self.write(bytes),
            Change::GiveOwner(owner, group) => {
                self.give_owner(*owner, *group);
                Ok(())
            }
            Change::GiveGroup(group) => {
                self.give_group(*group);
                Ok(())
            }
            Change::SetMode(mode) => {
                self.set_mode(*mode);
                Ok(())
            }
            Change::SyncNew => self.sync(),
            Change::Rename => self.rename(self.current.beside, LeadsTo::Nothing),
            Change::UnlinkBeside => self.rename(self.current.given, LeadsTo::Nothing),
            Change::UnlinkGiven => self.rename(LeadsTo::Nothing, self.current.beside),
            Change::SyncFolder => {
                self.earlier.clear();
                Ok(())
            }
        }
    }

    fn rename(&mut self, given: LeadsTo, beside: LeadsTo) -> Result<(), AllocError>
        ensures { OnOk result (machine_of self.new
            ≡ with_names (machine_of self.old) (leads_of given) (leads_of beside)) }
    {
        self.earlier.push(self.current)?;
        self.current = NamesData { given, beside };
        Ok(())
    }

    fn write(&mut self, bytes: &[u8]) -> Result<(), AllocError>
        ensures { OnOk result (machine_of self.new ≡ after (Call.Write bytes.now) (machine_of self.old)) }
    {
        match &mut self.new_file {
            None => Ok(()),
            Some(file) => file.write(bytes),
        }
    }

    fn sync(&mut self) -> Result<(), AllocError>
        ensures { OnOk result (machine_of self.new ≡ after Call.SyncNew (machine_of self.old)) }
    {
        match &mut self.new_file {
            None => Ok(()),
            Some(file) => file.sync(),
        }
    }

    fn fail_sync(&mut self)
        ensures { machine_of self.new ≡ failing 0 Call.SyncNew (machine_of self.old) }
    {
        if let Some(file) = &mut self.new_file {
            file.fail_sync();
        }
    }

    fn give_owner(&mut self, owner: u32, group: u32)
        ensures { machine_of self.new ≡ after (Call.GiveOwner owner group) (machine_of self.old) }
    {
        if let Some(file) = &mut self.new_file {
            file.rights.owner = owner;
            file.rights.group = group;
        }
    }

    fn give_group(&mut self, group: u32)
        ensures { machine_of self.new ≡ after (Call.GiveGroup group) (machine_of self.old) }
    {
        if let Some(file) = &mut self.new_file {
            file.rights.group = group;
        }
    }

    fn set_mode(&mut self, mode: u32)
        ensures { machine_of self.new ≡ after (Call.SetMode mode) (machine_of self.old) }
    {
        if let Some(file) = &mut self.new_file {
            file.rights.mode = mode;
        }
    }

    /// The file that a name leads to.
    pub(crate) fn file_at(&self, leads: LeadsTo) -> Option<&FileData>
        ensures { option_map (λ file. file_of file.now) result ≡ file_at (machine_of self.now) (leads_of leads) }
    {
        match leads {
            LeadsTo::Nothing => None,
            LeadsTo::Old => Some(&self.old_file),
            LeadsTo::New => self.new_file.as_ref(),
        }
    }

    /// Who may use the file that a name leads to.
    pub(crate) fn rights_at(&self, leads: LeadsTo) -> Option<Rights>
        ensures { result ≡ rights_at (machine_of self.now) (leads_of leads) }
    {
        match self.file_at(leads) {
            None => None,
            Some(file) => Some(file.rights),
        }
    }

    /// What the file reads as that a name leads to.
    pub(crate) fn bytes_at(
        &self,
        alloc: Global,
        leads: LeadsTo,
    ) -> Result<Option<Vec<u8>>, AllocError>
        ensures { IfOk result (λ bytes. items_of bytes
            ≡ option_map file_bytes (file_at (machine_of self.now) (leads_of leads))) }
    {
        match self.file_at(leads) {
            None => Ok(None),
            Some(file) => Ok(Some(file.bytes(alloc)?)),
        }
    }

    pub(crate) fn stage_count(&self) -> usize
        ensures { result ≡ length (stages (machine_of self.now)) }
    {
        self.earlier.len() + 1
    }

    /// What the name leads to at a stage, counted from 0, oldest first; behind the last one, now.
    pub(crate) fn given_at(&self, stage: usize) -> LeadsTo
        ensures { leads_of result ≡ given_at (machine_of self.now) stage }
    {
        if stage < self.earlier.len() {
            self.earlier[stage].given
        } else {
            self.current.given
        }
    }

    /// How many bytes are pending in the file under the name at a stage.
    pub(crate) fn pending(&self, stage: usize) -> usize
        ensures { result ≡ pending_of (file_at (machine_of self.now) (given_at (machine_of self.now) stage)) }
    {
        match self.file_at(self.given_at(stage)) {
            None => 0,
            Some(file) => file.pending.len(),
        }
    }

    /// What a crash leaves under the name: that of a stage, with the pending bytes as `kept` says.
    pub(crate) fn left(
        &self,
        alloc: Global,
        stage: usize,
        kept: &[bool],
    ) -> Result<Option<Vec<u8>>, AllocError>
        ensures { IfOk result (λ bytes. items_of bytes ≡ left_of (machine_of self.now) stage kept.now) }
    {
        match self.file_at(self.given_at(stage)) {
            None => Ok(None),
            Some(file) => Ok(Some(file.torn(alloc, kept)?)),
        }
    }
}

/// The first bytes, at most so many.
fn front_of(bytes: &[u8], count: usize) -> &[u8]
    ensures { result.now ≡ take count bytes.now }
{
    if count < bytes.len() {
        &bytes[..count]
    } else {
        bytes
    }
}
