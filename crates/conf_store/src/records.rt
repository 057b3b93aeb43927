// The next record of a store's file: the one rule of which piece it is, and what its command is performed on.
ghost use Rattle.std.specs.Prelude.{◌≡◌, ◌⊎◌, ◌<◌, ◌+◌, ℕ, List, Ok, Err, OnOk, OnErr, IfOk, IfErr};
ghost use Rattle.conf_store.specs.Prelude.{command_of, Contents, Enough, IsState, step, IsRecord, IsNoRecord};
ghost use Rattle.conf_store.specs.NextRecords.{PerformsRecord, RefusesRecord};
ghost use Rattle.conf_state.specs.Commands.{Command as Meant};

use conf_record::{NoNext, read_next};
use conf_state::{Command, Origin, Part, Room, State, StoreFault, replay, step};
use std::alloc::{AllocError, Global};
use thiserror::Error;

/// Why a piece after the base is not the next record of a store.
#[derive(Clone, Copy, Debug, PartialEq, Eq)]
pub enum NoRecord {
    /// It is no record.
    NotARecord,
    /// It is a record under another number than the count after the commands before it and one more.
    WrongNumber { found: u64 },
    /// It is the record with the next number, and the state refuses its command with this fault.
    Refused(StoreFault),
}

/// Why a piece was not performed as the next record. The message is the name that opening gives the fault.
#[derive(Clone, Copy, Debug, PartialEq, Eq, Error)]
pub enum RecordFault {
    /// It is not the next record.
    #[error("Damaged")]
    Bad(NoRecord),
    /// Out of memory.
    #[error("OutOfMemory")]
    OutOfMemory,
}

impl From<AllocError> for RecordFault {
    ghost use Rattle.conf_store.specs.declared.records.RecordFault.TheVariants.{OutOfMemory};

    ghost from_gives = { λ _ fault. fault ≡ OutOfMemory };

    fn from(_error: AllocError) -> RecordFault {
        RecordFault::OutOfMemory
    }
}

/// What becomes of the state if its next command is refused.
#[derive(Clone, Copy, Debug, PartialEq, Eq)]
pub enum OnRefusal {
    /// It stays as it was. So a batch copies each configuration that it edits.
    KeepState,
    /// It has to be dropped. So a batch makes its edits in place.
    DropState,
}

/// What the commands of a store's file are performed on: a state, or a part of one. Contracts see its contents.
pub trait Replayed: Drop {
    /// The configurations, and how many commands were accepted.
    ghost contents: { Self → Contents };

    /// If it can stay as it was at a refusal, these are its contents.
    ghost Keeps: { Self → Contents → Type 0 };

    /// It keeps its own contents.
    ghost keeps: { (held : Self) → Keeps held (contents held) };

    /// What it tells of a command with a number that was performed, before and after that.
    ghost Tells: { Self → Self → ℕ → Meant → Type 0 };

    /// How many commands were accepted.
    fn accepted(&self) -> u64
        ensures count { result ≡ (contents self.now).count }
        ensures limits { IsState (contents self.now) };

    /// Performs the command of the next record.
    ///
    /// # Errors
    /// `Bad` with `Refused`. `OutOfMemory`. What becomes of a state says `on_refusal`; a part has to be dropped.
    fn perform(
        &mut self,
        alloc: Global,
        command: Command,
        on_refusal: OnRefusal,
    ) -> Result<(), RecordFault>
        requires { (contents self.old).count < u64.MAX }
        ensures ok { OnOk result (step (contents self.old) (command_of command) Enough
            ≡ Ok (contents self.new)) }
        ensures told { OnOk result
            (Tells self.old self.new ((contents self.old).count + 1) (command_of command)) }
        ensures refused { (piece : List ℕ)
            → IsRecord piece (command_of command) ((contents self.old).count + 1)
            → IfErr result (RefusesRecord piece (contents self.old)) }
        ensures kept { on_refusal ≡ OnRefusal.KeepState
            → OnErr result (Keeps self.new (contents self.old)) };
}

/// Performs the command of a piece, if the piece is the next record. Returns the new count, which is one more than
/// before.
///
/// # Errors
/// `Bad` if it is not. `OutOfMemory`. What becomes of a state says `on_refusal`; a part has to be dropped.
#[inline(always)]
pub fn replay_record<T: Replayed>(
    alloc: Global,
    held: &mut T,
    piece: &[u8],
    on_refusal: OnRefusal,
) -> Result<u64, RecordFault>
    ensures ok { OnOk result (PerformsRecord (T.Tells held.old held.new) piece.now
        (T.contents held.old) (T.contents held.new)) }
    ensures count { IfOk result (λ count. count ≡ (T.contents held.new).count) }
    ensures limits { OnOk result (IsState (T.contents held.new)) }
    ensures refused { IfErr result (RefusesRecord piece.now (T.contents held.old)) }
    ensures kept { on_refusal ≡ OnRefusal.KeepState
        → OnErr result (T.Keeps held.new (T.contents held.old)) }
    // A piece that is no record changes nothing.
    ensures unread { IsNoRecord piece.now → held.new ≡ held.old }
{
    let command = next_command(alloc, held.accepted(), piece)?;
    held.perform(alloc, command, on_refusal)?;
    Ok(held.accepted())
}

/// Reads a piece as the record after `count` commands, and returns its command.
///
/// # Errors
/// `Bad` with `NotARecord` or `WrongNumber`. `OutOfMemory`.
#[inline(always)]
fn next_command(alloc: Global, count: u64, piece: &[u8]) -> Result<Command, RecordFault>
    ensures ok { IfOk result (λ command. IsRecord piece.now (command_of command) (count + 1)) }
    ensures room { OnOk result (count < u64.MAX) }
    ensures refused { IfErr result (λ fault. (s : Contents) → s.count ≡ count
        → RefusesRecord piece.now s fault) }
{
    match read_next(alloc, piece, count) {
        Ok(command) => Ok(command),
        Err(NoNext::NotARecord) => Err(RecordFault::Bad(NoRecord::NotARecord)),
        Err(NoNext::OtherNumber { found }) => {
            Err(RecordFault::Bad(NoRecord::WrongNumber { found }))
        }
        Err(NoNext::OutOfMemory) => Err(RecordFault::OutOfMemory),
    }
}

impl Replayed for State {
    ghost use Rattle.std.specs.Prelude.{◌≡◌, refl};

    ghost contents = { λ state. state };

    ghost Keeps = { λ state s. state ≡ s };

    ghost keeps = { λ state. refl };

    ghost Tells = { λ old new number command. Unit {0} };

    fn accepted(&self) -> u64 {
        self.count()
    }

    fn perform(
        &mut self,
        alloc: Global,
        command: Command,
        on_refusal: OnRefusal,
    ) -> Result<(), RecordFault> {
        match perform(alloc, self, command, on_refusal) {
            Ok(()) => Ok(()),
            Err(StoreFault::OutOfMemory) => Err(RecordFault::OutOfMemory),
            Err(fault) => Err(RecordFault::Bad(NoRecord::Refused(fault))),
        }
    }
}

/// Of the configurations only those are built that records put or edit.
impl<O: Origin> Replayed for Part<O> {
    ghost contents = { λ part. part };

    ghost Keeps = { λ part s. Unit {0} };

    ghost keeps = { λ part. tt };

    ghost Tells = { λ old new number command. Unit {0} };

    fn accepted(&self) -> u64 {
        self.count()
    }

    fn perform(
        &mut self,
        alloc: Global,
        command: Command,
        _on_refusal: OnRefusal,
    ) -> Result<(), RecordFault> {
        match self.replay(alloc, command) {
            Ok(()) => Ok(()),
            Err(StoreFault::OutOfMemory) => Err(RecordFault::OutOfMemory),
            Err(fault) => Err(RecordFault::Bad(NoRecord::Refused(fault))),
        }
    }
}

/// Performs a command whose record is there.
#[inline(always)]
fn perform(
    alloc: Global,
    state: &mut State,
    command: Command,
    on_refusal: OnRefusal,
) -> Result<(), StoreFault>
    ensures ok { OnOk result (step state.old (command_of command) Room.Enough ≡ Ok state.new) }
    ensures refused { IfErr result (λ fault. (fault ≡ StoreFault.OutOfMemory)
        ⊎ (step state.old (command_of command) Room.Enough ≡ Err fault)) }
    ensures unchanged { on_refusal ≡ OnRefusal.KeepState → OnErr result (state.new ≡ state.old) }
{
    match on_refusal {
        OnRefusal::KeepState => step(alloc, state, command, Room::Enough),
        OnRefusal::DropState => replay(alloc, state, command),
    }
}
