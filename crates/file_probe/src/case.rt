// A case: what is done to a file, and what it may be then.
ghost use Rattle.conf_files.specs.Creating.{IsUnmade};
ghost use Rattle.test_files.specs.Memory.{memory_machine};

use conf_files::{create_with, replace_with};
use file_calls::Rights;
use std::alloc::{AllocError, Global};
use test_files::{Fault, MemoryFileCalls};

/// Who may use the old file.
pub(crate) const RIGHTS: Rights = Rights {
    owner: 7,
    group: 8,
    mode: 0o640,
};

/// What is done.
#[derive(Clone, Copy, PartialEq, Eq)]
pub(crate) enum Deed {
    Replace,
    Create,
}

/// After what a file is found.
#[derive(Clone, Copy, PartialEq, Eq)]
pub(crate) enum Found {
    AfterKill,
    AfterCrash,
}

/// What is done, where a file of the old bytes is, if there is one.
#[derive(Clone, Copy)]
pub(crate) struct Case<'a> {
    pub(crate) deed: Deed,
    old: Option<&'a [u8]>,
    new: &'a [u8],
}

/// What is left when a case has ended.
#[derive(Drop)]
pub(crate) struct Ended {
    pub(crate) calls: MemoryFileCalls,
    /// Whether it returned `Ok`.
    pub(crate) is_done: bool,
}

/// Who makes the new file, how many names of it are taken, and which call fails.
#[derive(Clone, Copy)]
pub(crate) struct Setting {
    pub(crate) owner: u32,
    pub(crate) group: u32,
    pub(crate) taken: u32,
    pub(crate) call: usize,
    pub(crate) fault: Fault,
}

impl<'a> Case<'a> {
    pub(crate) fn replace(old: &'a [u8], new: &'a [u8]) -> Self {
        Case {
            deed: Deed::Replace,
            old: Some(old),
            new,
        }
    }

    pub(crate) fn create(old: Option<&'a [u8]>, new: &'a [u8]) -> Self {
        Case {
            deed: Deed::Create,
            old,
            new,
        }
    }

    /// Does it.
    pub(crate) fn run(self, alloc: Global, setting: Setting) -> Result<Ended, AllocError> {
        match (self.deed, self.old) {
            (Deed::Replace, Some(old)) => run_replacing(alloc, old, self.new, setting),
            (Deed::Create, Some(old)) => {
                run_creating(
                    MemoryFileCalls::with_file(alloc, old.to_vec(alloc)?, RIGHTS)?,
                    self.new,
                    setting,
                )
            }
            (_, None) => run_creating(MemoryFileCalls::without_file(alloc)?, self.new, setting),
        }
    }

    /// Whether the file may have these bytes, or be missing, at a moment.
    pub(crate) fn allows(self, bytes: Option<&[u8]>, found: Found) -> bool {
        is_same(bytes, self.old) || self.may_be_new(bytes, found)
    }

    /// Whether the new file may have these bytes at a moment.
    fn may_be_new(self, bytes: Option<&[u8]>, found: Found) -> bool {
        match (self.deed, bytes) {
            (Deed::Replace, bytes) => is_same(bytes, Some(self.new)),
            (Deed::Create, Some(bytes)) => self.old.is_none() && is_part(bytes, self.new, found),
            (Deed::Create, None) => false,
        }
    }

    /// Whether the file has to have these bytes once the call returned.
    pub(crate) fn is_done(self, bytes: Option<&[u8]>) -> bool {
        is_same(bytes, Some(self.new))
    }

    /// Whether the file may have these bytes once the call returned an error, and nothing of the new file may be left.
    pub(crate) fn is_undone(self, bytes: Option<&[u8]>) -> bool {
        is_same(bytes, self.old)
            || (is_same(bytes, Some(self.new)) && self.allows(bytes, Found::AfterKill))
    }
}

/// Replaces a file.
fn run_replacing(
    alloc: Global,
    old: &[u8],
    new: &[u8],
    setting: Setting,
) -> Result<Ended, AllocError> {
    let calls = MemoryFileCalls::with_file(alloc, old.to_vec(alloc)?, RIGHTS)?;
    let calls = calls.made_by(setting.owner, setting.group, setting.taken);
    let mut calls = calls.with_fault(setting.call, setting.fault);
    let is_done = replace_with(&mut calls, new).is_ok();
    Ok(Ended { calls, is_done })
}

/// Makes a file.
fn run_creating(calls: MemoryFileCalls, new: &[u8], setting: Setting) -> Result<Ended, AllocError>
    requires { IsUnmade (memory_machine calls) }
{
    let calls = calls.made_by(setting.owner, setting.group, setting.taken);
    let mut calls = calls.with_fault(setting.call, setting.fault);
    let is_done = create_with(&mut calls, new).is_ok();
    Ok(Ended { calls, is_done })
}

/// Whether both are missing, or have the same bytes.
fn is_same(one: Option<&[u8]>, other: Option<&[u8]>) -> bool {
    match (one, other) {
        (None, None) => true,
        (Some(one), Some(other)) => one == other,
        _ => false,
    }
}

/// Whether these are the first of the bytes, each as it is, or after a crash zero.
fn is_part(part: &[u8], bytes: &[u8], found: Found) -> bool {
    if part.len() > bytes.len() {
        return false;
    }
    for place in 0..part.len() {
        let is_same = place < bytes.len() && part[place] == bytes[place];
        if !is_same && !(found == Found::AfterCrash && part[place] == 0) {
            return false;
        }
    }
    true
}
