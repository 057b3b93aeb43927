// Why a folder can't be used as a disk.
ghost use Rattle.std.specs.Prelude.{◌≡◌};

use conf_files::{Cause, Subject};
use std::alloc::AllocError;
use std::io;
use std::io::ErrorKind;
use thiserror::Error;

/// Why a folder can't be used as a disk.
///
/// With `NotAStore` and `StoreExists` the folder is as it was. Otherwise a `store.lock` may be new in it, or have
/// another mode, if it was opened for changes.
#[derive(Clone, Copy, Debug, PartialEq, Eq, Error)]
pub enum FolderFault {
    /// There is no folder at the path, one of its names has something else than a plain file, or a call of the system
    /// failed.
    #[error("Device")]
    Device,
    /// Another run holds the lock on `store.lock`, or the one on the folder where it counts.
    #[error("Locked")]
    Locked,
    /// There is no `store.yaml`, where a store has to be.
    #[error("NotAStore")]
    NotAStore,
    /// There is a `store.yaml`, where a new store is to be.
    #[error("StoreExists")]
    StoreExists,
    /// Out of memory.
    #[error("OutOfMemory")]
    OutOfMemory,
}

/// A [`FolderFault`], and what caused it. The message is the fault's name.
#[derive(Clone, Copy, Debug, Error)]
#[error("{fault}")]
pub struct FolderError {
    pub fault: FolderFault,
    /// Which file or folder it was, and the reason. It is there with `Device` and `Locked`.
    pub cause: Option<Cause>,
}

impl FolderError {
    /// Another run holds the lock of a file or folder.
    pub(crate) fn locked(subject: Subject) -> FolderError
        ensures { result.fault ≡ FolderFault.Locked }
    {
        let error = io::Error::new(ErrorKind::WouldBlock, "another run holds its lock");
        FolderError {
            fault: FolderFault::Locked,
            cause: Some(subject.cause(error)),
        }
    }
}

impl From<Cause> for FolderError {
    ghost use Rattle.std.specs.Prelude.{◌≡◌, ◌⊎◌};
    ghost use Rattle.conf_folder.specs.declared.fault.FolderFault.TheVariants.{Device, OutOfMemory};

    ghost from_gives = { λ _ error. (error.fault ≡ Device) ⊎ (error.fault ≡ OutOfMemory) };

    fn from(cause: Cause) -> FolderError {
        if cause.is_out_of_memory() {
            return FolderError::from(AllocError);
        }
        FolderError {
            fault: FolderFault::Device,
            cause: Some(cause),
        }
    }
}

impl From<FolderFault> for FolderError {
    ghost use Rattle.std.specs.Prelude.{◌≡◌, None};

    ghost from_gives = { λ fault error. error ≡ record { fault = fault; cause = None } };

    fn from(fault: FolderFault) -> FolderError {
        FolderError { fault, cause: None }
    }
}

impl From<AllocError> for FolderError {
    ghost use Rattle.std.specs.Prelude.{◌≡◌};
    ghost use Rattle.conf_folder.specs.declared.fault.FolderFault.TheVariants.{OutOfMemory};

    ghost from_gives = { λ _ error. error.fault ≡ OutOfMemory };

    fn from(_error: AllocError) -> FolderError {
        FolderError::from(FolderFault::OutOfMemory)
    }
}
