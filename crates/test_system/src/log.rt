// The calls that a system keeps.
ghost use Rattle.std.specs.Prelude.{ℕ, ◌+◌, ◌≤◌, vec_len, vec_capacity};
ghost use Rattle.test_system.specs.Replay.{entries_of};
ghost use Rattle.test_system.specs.Runs.{IsAlwaysSound, IsAlwaysSound-prop};
ghost use Rattle.test_system.specs.Spares.{rooms, IsSpent, IsSpent-prop};

use crate::change::{Change, Made};
use crate::machine::MachineData;
use crate::spares::{Spare, Spent};
use std::alloc::{AllocError, Global};

/// What was asked, the first call first. There is always room for each [`Spare`] that is not there already and may
/// change something.
#[derive(Drop)]
pub(crate) struct CallLog {
    calls: Vec<Made>,
    spent: Spent,
    ghost sound: { IsAlwaysSound (entries_of calls) } by { IsAlwaysSound-prop (entries_of calls) },
    ghost room: { vec_len calls + rooms spent ≤ vec_capacity calls },
    ghost spare: { IsSpent spent (entries_of calls) } by { IsSpent-prop spent (entries_of calls) },
}

impl CallLog {
    ghost use Rattle.std.specs.Prelude.{◌≡◌, [], ◌∷◌, ◌++◌, length, take, OnOk, OnErr, IfOk};
    ghost use Rattle.conf_system.specs.Machine.{MayBeCalled, after, after_reading};
    ghost use Rattle.test_system.specs.Replay.{call_of, entry_of, machine_of, bare, MayBeMade};
    ghost use Rattle.test_system.specs.Spares.{spare_entry};
    ghost use Rattle.test_system.specs.Log.{entries, machine_now, KeepsSpare};

    pub(crate) fn new(alloc: Global) -> Result<Self, AllocError>
        ensures { IfOk result (λ log. entries log ≡ []) }
    {
        let mut calls = Vec::new(alloc);
        calls.reserve(4)?;
        Ok(CallLog {
            calls,
            spent: Spent::NONE,
        })
    }

    /// How many calls are kept.
    pub(crate) fn len(&self) -> usize
        ensures { result ≡ length (entries self.now) }
    {
        self.calls.len()
    }

    /// Keeps what was asked.
    pub(crate) fn keep(&mut self, made: Made) -> Result<(), AllocError>
        requires { MayBeMade (entry_of made) (machine_now self.old) }
        ensures kept { OnOk result (entries self.new ≡ entries self.old ++ entry_of made ∷ []) }
        ensures not_kept { OnErr result (entries self.new ≡ entries self.old) }
    {
        if self.spent.is_any() {
            return Err(AllocError);
        }
        self.calls.reserve(5)?;
        self.calls.push(made)?;
        Ok(())
    }

    /// Keeps what has to be kept where there is no memory for a call, unless it changes nothing.
    pub(crate) fn keep_spare(&mut self, alloc: Global, spare: Spare)
        requires { MayBeMade (spare_entry spare) (machine_now self.old) }
        ensures { KeepsSpare spare self.old self.new }
    {
        if self.spent.has(spare) {
            return;
        }
        match self.calls.push(spare.made(alloc)) {
            Ok(()) => self.spent = self.spent.with(spare),
            Err(_) => unreachable!(),
        }
    }

    /// Keeps a call that was done.
    pub(crate) fn make(&mut self, change: Change) -> Result<(), AllocError>
        requires { MayBeCalled (call_of change) (machine_now self.old) }
        ensures { OnOk result (machine_now self.new ≡ after (call_of change) (machine_now self.old)) }
    {
        self.keep(Made::Called {
            change,
            failed: None,
        })?;
        Ok(())
    }

    /// Keeps that the note was read.
    pub(crate) fn read_note(&mut self) -> Result<(), AllocError>
        ensures { OnOk result (machine_now self.new
            ≡ after_reading (machine_now self.old).note (machine_now self.old)) }
    {
        self.keep(Made::NoteRead)?;
        Ok(())
    }

    /// The first of the calls, at most so many.
    pub(crate) fn first(self, count: usize) -> Result<Self, AllocError>
        ensures { IfOk result (λ log. entries log ≡ take count (entries self)) }
    {
        let CallLog { calls, .. } = self;
        let mut calls = calls;
        calls.truncate(count);
        calls.reserve(4)?;
        Ok(CallLog {
            calls,
            spent: Spent::NONE,
        })
    }

    /// What the calls made of an empty folder, but for the note by which the run goes.
    pub(crate) fn replay(&self, alloc: Global) -> Result<MachineData, AllocError>
        ensures { IfOk result (λ m. machine_of m ≡ bare (machine_now self.now)) }
    {
        let mut machine = MachineData::new(alloc);
        for made in &self.calls {
            machine.apply(alloc, made)?;
        }
        Ok(machine)
    }
}
