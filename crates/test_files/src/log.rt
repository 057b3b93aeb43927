// The calls that a system keeps.
ghost use Rattle.std.specs.Prelude.{ℕ, ◌+◌, ◌≤◌, vec_len, vec_capacity};
ghost use Rattle.test_files.specs.Replay.{made_of, start_of};
ghost use Rattle.test_files.specs.Spares.{rooms, IsSpent, IsSpent-prop};

use crate::change::Made;
use crate::machine::MachineData;
use crate::spares::{Spare, Spent};
use crate::start::Start;
use std::alloc::{AllocError, Global};

/// What was there first, and what was asked since, the first call first. There is always room for each [`Spare`] that
/// is not there already and may change something.
#[derive(Drop)]
pub(crate) struct CallLog {
    pub(crate) start: Start,
    calls: Vec<Made>,
    spent: Spent,
    ghost room: { vec_len calls + rooms spent ≤ vec_capacity calls },
    ghost spare: { IsSpent spent (made_of start calls) } by { IsSpent-prop spent (made_of start calls) },
}

impl CallLog {
    ghost use Rattle.std.specs.Prelude.{◌≡◌, [], ◌∷◌, ◌++◌, length, take, OnOk, OnErr, IfOk};
    ghost use Rattle.test_files.specs.Replay.{entry_of, machine_of, with_entry};
    ghost use Rattle.test_files.specs.Log.{history_of, machine_now, KeepsSpare};

    pub(crate) fn new(alloc: Global, start: Start) -> Result<Self, AllocError>
        ensures { IfOk result (λ log. history_of log ≡ record { first = start_of start; entries = [] }) }
    {
        let mut calls = Vec::new(alloc);
        calls.reserve(3)?;
        Ok(CallLog {
            start,
            calls,
            spent: Spent::NONE,
        })
    }

    /// How many calls are kept.
    pub(crate) fn len(&self) -> usize
        ensures { result ≡ length (history_of self.now).entries }
    {
        self.calls.len()
    }

    /// Keeps what was asked.
    pub(crate) fn keep(&mut self, made: Made) -> Result<(), AllocError>
        ensures kept { OnOk result (history_of self.new ≡ with_entry (history_of self.old) (entry_of made)) }
        ensures not_kept { OnErr result (history_of self.new ≡ history_of self.old) }
    {
        if self.spent.is_any() {
            return Err(AllocError);
        }
        self.calls.reserve(4)?;
        self.calls.push(made)?;
        Ok(())
    }

    /// Keeps what has to be kept where there is no memory for a call, unless it changes nothing.
    pub(crate) fn keep_spare(&mut self, spare: Spare)
        ensures { KeepsSpare spare self.old self.new }
    {
        if self.spent.has(spare) {
            return;
        }
        match self.calls.push(spare.made()) {
            Ok(()) => self.spent = self.spent.with(spare),
            Err(_) => unreachable!(),
        }
    }

    /// The first of the calls, at most so many.
    pub(crate) fn first(self, count: usize) -> Result<Self, AllocError>
        ensures { IfOk result (λ log. history_of log
            ≡ record (history_of self) { entries = take count (history_of self).entries }) }
    {
        let CallLog { start, calls, .. } = self;
        let mut calls = calls;
        calls.truncate(count);
        calls.reserve(3)?;
        Ok(CallLog {
            start,
            calls,
            spent: Spent::NONE,
        })
    }

    /// What the calls made of what was there first.
    pub(crate) fn replay(&self, alloc: Global) -> Result<MachineData, AllocError>
        ensures { IfOk result (λ m. machine_of m ≡ machine_now self.now) }
    {
        let mut machine = MachineData::new(alloc, &self.start)?;
        for made in &self.calls {
            machine.apply(alloc, made)?;
        }
        Ok(machine)
    }
}
