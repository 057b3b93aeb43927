// A file of the system, as data.
ghost use Rattle.std.specs.Prelude.{◌≡◌, OnOk, IfOk, if◌then◌else◌};
ghost use Rattle.conf_system.specs.Machine.{with_pending, synced, failed_sync};
ghost use Rattle.file_calls.specs.Machine.{empty_file, with_version, file_bytes};
ghost use Rattle.test_files.specs.Replay.{file_of};
ghost use Rattle.test_files.specs.Crashes.{torn_bytes};

use file_calls::Rights;
use std::alloc::{AllocError, Global};

/// A file: the bytes that the device surely has, those after them, whether a sync failed, and who may use it.
#[derive(Drop)]
pub(crate) struct FileData {
    pub(crate) device: Vec<u8>,
    pub(crate) pending: Vec<u8>,
    pub(crate) failed: bool,
    pub(crate) rights: Rights,
}

impl FileData {
    /// An empty file.
    pub(crate) fn new(alloc: Global, rights: Rights) -> Self
        ensures { file_of result ≡ empty_file rights }
    {
        FileData {
            device: Vec::new(alloc),
            pending: Vec::new(alloc),
            failed: false,
            rights,
        }
    }

    pub(crate) fn write(&mut self, bytes: &[u8]) -> Result<(), AllocError>
        ensures { OnOk result (file_of self.new ≡ with_version (with_pending bytes.now) (file_of self.old)) }
    {
        self.pending.extend_from_slice(bytes)?;
        Ok(())
    }

    pub(crate) fn sync(&mut self) -> Result<(), AllocError>
        ensures { OnOk result (file_of self.new ≡ with_version synced (file_of self.old)) }
    {
        if !self.failed {
            self.device.extend_from_slice(&self.pending)?;
            self.pending.clear();
        }
        Ok(())
    }

    pub(crate) fn fail_sync(&mut self)
        ensures { file_of self.new ≡ with_version failed_sync (file_of self.old) }
    {
        self.failed = self.failed || !self.pending.is_empty();
    }

    /// What it reads as.
    pub(crate) fn bytes(&self, alloc: Global) -> Result<Vec<u8>, AllocError>
        ensures { IfOk result (λ bytes. bytes.items ≡ file_bytes (file_of self.now)) }
    {
        let mut bytes = Vec::new(alloc);
        bytes.extend_from_slice(&self.device)?;
        bytes.extend_from_slice(&self.pending)?;
        Ok(bytes)
    }

    /// What a crash leaves of it: of the pending bytes as many as `kept` has places, or all, each as it was if its
    /// place says so, and else zero.
    pub(crate) fn torn(&self, alloc: Global, kept: &[bool]) -> Result<Vec<u8>, AllocError>
        ensures { IfOk result (λ bytes. bytes.items ≡ torn_bytes kept.now (file_of self.now)) }
    {
        let mut bytes = Vec::new(alloc);
        bytes.extend_from_slice(&self.device)?;
        let count = kept.len().min(self.pending.len());
        for place in 0..count {
            bytes.push(byte_left(self.pending[place], kept[place]))?;
        }
        Ok(bytes)
    }
}

/// A byte as it was, or zero.
fn byte_left(byte: u8, kept: bool) -> u8
    ensures { result ≡ (if kept then byte else 0) }
{
    if kept { byte } else { 0 }
}
