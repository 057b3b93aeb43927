// The versions of a file, as data.
ghost use Rattle.std.specs.Prelude.{◌≡◌, ◌≤◌, length, OnOk, IfOk, Some, option_map, slice_get, if◌then◌else◌};
ghost use Rattle.conf_system.specs.Machine.{version_bytes, versions, empty_version, empty_held, replaced, settled, with_now};
ghost use Rattle.test_system.specs.Replay.{version_of, held_of, changed_by};
ghost use Rattle.test_system.specs.Crashes.{pending_of, torn_bytes};

use std::alloc::{AllocError, Global};
use std::mem;

/// A file of the system: the bytes that the device surely has, those after them, and whether a sync failed.
#[derive(Drop)]
pub(crate) struct VersionData {
    pub(crate) device: Vec<u8>,
    pub(crate) pending: Vec<u8>,
    pub(crate) failed: bool,
}

/// What is done to a version.
#[derive(Clone, Copy)]
pub(crate) enum VersionChange<'a> {
    Write(&'a [u8]),
    Sync,
    FailSync,
}

impl VersionData {
    pub(crate) fn new(alloc: Global) -> Self
        ensures { version_of result ≡ empty_version }
    {
        VersionData {
            device: Vec::new(alloc),
            pending: Vec::new(alloc),
            failed: false,
        }
    }

    pub(crate) fn apply(&mut self, change: VersionChange<'_>) -> Result<(), AllocError>
        ensures { OnOk result (version_of self.new ≡ changed_by change.entry (version_of self.old)) }
    {
        match change {
            VersionChange::Write(bytes) => self.pending.extend_from_slice(bytes)?,
            VersionChange::Sync => self.sync()?,
            VersionChange::FailSync => self.failed = self.failed || !self.pending.is_empty(),
        }
        Ok(())
    }

    fn sync(&mut self) -> Result<(), AllocError>
        ensures { OnOk result (version_of self.new ≡ changed_by VersionChange.Sync (version_of self.old)) }
    {
        if !self.failed {
            self.device.extend_from_slice(&self.pending)?;
            self.pending.clear();
        }
        Ok(())
    }

    /// What it reads as.
    pub(crate) fn bytes(&self, alloc: Global) -> Result<Vec<u8>, AllocError>
        ensures { IfOk result (λ bytes. bytes.items ≡ version_bytes (version_of self.now)) }
    {
        let mut bytes = Vec::new(alloc);
        bytes.extend_from_slice(&self.device)?;
        bytes.extend_from_slice(&self.pending)?;
        Ok(bytes)
    }

    /// What a crash leaves of it: of the pending bytes as many as `kept` has places, each as it was if its place says
    /// so, and else zero.
    pub(crate) fn torn(&self, alloc: Global, kept: &[bool]) -> Result<Vec<u8>, AllocError>
        requires { length kept.now ≤ length self.now.pending.items }
        ensures { IfOk result (λ bytes. bytes.items ≡ torn_bytes (version_of self.now) kept.now) }
    {
        let mut bytes = Vec::new(alloc);
        bytes.extend_from_slice(&self.device)?;
        for place in 0..kept.len() {
            bytes.push(byte_left(self.pending[place], kept[place]))?;
        }
        Ok(bytes)
    }
}

/// A byte as it was, or zero.
fn byte_left(byte: u8, kept: bool) -> u8
    ensures { result ≡ (if kept then byte else 0) }
{
    if kept { byte } else { 0 }
}

/// A file as a store knows it: the versions that its name may lead to after a crash instead, oldest first, and the one
/// that it leads to.
#[derive(Drop)]
pub(crate) struct HeldData {
    pub(crate) earlier: Vec<VersionData>,
    pub(crate) current: VersionData,
}

impl HeldData {
    pub(crate) fn new(alloc: Global) -> Self
        ensures { held_of result ≡ empty_held }
    {
        HeldData {
            earlier: Vec::new(alloc),
            current: VersionData::new(alloc),
        }
    }

    pub(crate) fn change(&mut self, change: VersionChange<'_>) -> Result<(), AllocError>
        ensures { OnOk result (held_of self.new
            ≡ with_now (changed_by change.entry) (held_of self.old)) }
    {
        self.current.apply(change)
    }

    /// The names have reached the device.
    pub(crate) fn settle(&mut self)
        ensures { held_of self.new ≡ settled (held_of self.old) }
    {
        self.earlier.clear();
    }

    /// A version takes the file's name.
    pub(crate) fn replace(&mut self, version: VersionData) -> Result<(), AllocError>
        ensures { OnOk result (held_of self.new ≡ replaced (Some (version_of version)) (held_of self.old)) }
    {
        let before = mem::replace(&mut self.current, version);
        self.earlier.push(before)?;
        Ok(())
    }

    /// The version at a place, counted from 0, oldest first.
    pub(crate) fn version(&self, place: usize) -> Option<&VersionData>
        ensures { option_map (λ version. version_of version.now) result
            ≡ slice_get (versions (held_of self.now)) place }
    {
        if place < self.earlier.len() {
            return Some(&self.earlier[place]);
        }
        if place == self.earlier.len() {
            Some(&self.current)
        } else {
            None
        }
    }

    /// How many bytes are pending in the version at a place, if there is one.
    pub(crate) fn pending(&self, place: usize) -> Option<usize>
        ensures { result ≡ pending_of (Some (held_of self.now)) place }
    {
        let version = self.version(place)?;
        Some(version.pending.len())
    }
}
