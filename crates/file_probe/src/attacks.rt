// What is done to a case, and what the file is then.
use crate::case::{Case, Deed, Ended, Found, RIGHTS, Setting};
use std::alloc::{AllocError, Global};
use test_files::{Fault, MemoryFileCalls};

/// How many calls of a case there are at most.
const MOST: usize = 200;

/// What was tried.
#[derive(Clone, Copy)]
struct Tried {
    runs: usize,
    kills: usize,
    crashes: usize,
}

/// The attacks on a case.
#[derive(Drop)]
struct Attacks<'a> {
    alloc: Global,
    case: Case<'a>,
    setting: Setting,
    tried: Tried,
    /// The first that was wrong.
    wrong: Option<String>,
}

/// Attacks a case, and says what was tried, and what was wrong.
pub(crate) fn attack(alloc: Global, case: Case<'_>) -> Result<String, AllocError> {
    let mut attacks = Attacks {
        alloc,
        case,
        setting: Setting {
            owner: RIGHTS.owner,
            group: RIGHTS.group,
            taken: 0,
            call: 0,
            fault: Fault::None,
        },
        tried: Tried {
            runs: 0,
            kills: 0,
            crashes: 0,
        },
        wrong: None,
    };
    let own = attacks.attack_all()?;
    attacks.setting.owner = 0;
    attacks.setting.group = 0;
    attacks.setting.taken = 2;
    let given = attacks.attack_all()?;
    let tried = attacks.tried;
    let is_enough = tried.runs > own && tried.kills > own && tried.crashes > own;
    match attacks.wrong {
        Some(wrong) => Ok(wrong),
        None if is_enough => format!(in alloc; "{own} and {given} calls, all as it may be"),
        None => format!(in alloc; "{own} and {given} calls, too little tried"),
    }
}

impl Attacks<'_> {
    /// Lets each call fail, in each way, after a run in which none does. Returns how many calls change something in it.
    fn attack_all(&mut self) -> Result<usize, AllocError> {
        self.setting.call = 0;
        self.setting.fault = Fault::None;
        let plain = self.run()?;
        let calls = plain.calls.calls();
        self.look(plain)?;
        for call in 0..calls.min(MOST) {
            self.fail_each(call)?;
        }
        self.fail(calls, Fault::FailReads)?;
        Ok(calls)
    }

    /// Lets a call fail, in each way.
    fn fail_each(&mut self, call: usize) -> Result<(), AllocError> {
        for part in 0..3 {
            self.fail(call, Fault::FailOnce { part })?;
            self.fail(call, Fault::Kill { part })?;
        }
        self.fail(call, Fault::ShortWrite { count: 1 })?;
        self.fail(call, Fault::ShortWrite { count: 0 })?;
        self.fail(call, Fault::FailReads)
    }

    fn fail(&mut self, call: usize, fault: Fault) -> Result<(), AllocError> {
        self.setting.call = call;
        self.setting.fault = fault;
        let ended = self.run()?;
        self.look(ended)
    }

    fn run(&mut self) -> Result<Ended, AllocError> {
        self.tried.runs = self.tried.runs.saturating_add(1);
        self.case.run(self.alloc, self.setting)
    }

    /// Looks at what is there at the end, and at each moment, the last one first.
    fn look(&mut self, ended: Ended) -> Result<(), AllocError> {
        self.look_at_end(&ended)?;
        let mut calls = ended.calls;
        let count = calls.calls();
        for back in 0..count.saturating_add(1).min(MOST) {
            calls = calls.killed_at(count.saturating_sub(back))?;
            self.look_at_moment(&calls)?;
        }
        Ok(())
    }

    /// Looks at what is there once the call returned.
    fn look_at_end(&mut self, ended: &Ended) -> Result<(), AllocError> {
        let calls = &ended.calls;
        let given = calls.given()?;
        let is_left = calls.may_be_left()?;
        if calls.rights_beside()?.is_some() && !is_left {
            self.tell("a file is left beside it", calls)?;
        }
        if !ended.is_done {
            if !is_left && !self.case.is_undone(given.as_deref()) {
                self.tell("a part of the new file is left", calls)?;
            }
            return Ok(());
        }
        if !self.case.is_done(given.as_deref()) {
            self.tell("it is done, and not so", calls)?;
        }
        if calls.stages()? != 1 || calls.pending(0)? != 0 {
            self.tell("it is done, and not on the device", calls)?;
        }
        Ok(())
    }

    /// Looks at what is there at a moment, and what each crash that is tried leaves.
    fn look_at_moment(&mut self, calls: &MemoryFileCalls) -> Result<(), AllocError> {
        self.tried.kills = self.tried.kills.saturating_add(1);
        let given = calls.given()?;
        if !self.case.allows(given.as_deref(), Found::AfterKill) {
            self.tell("the file has other bytes", calls)?;
        }
        self.look_at_rights(calls)?;
        for stage in 0..calls.stages()?.min(MOST) {
            self.crash_at(calls, stage)?;
        }
        Ok(())
    }

    /// Looks at who may use the new file.
    fn look_at_rights(&mut self, calls: &MemoryFileCalls) -> Result<(), AllocError> {
        let most = match self.case.deed {
            Deed::Replace => RIGHTS.mode,
            Deed::Create => 0o600,
        };
        if let Some(rights) = calls.rights_beside()?
            && rights.mode & most != rights.mode
        {
            self.tell("others may use the new file", calls)?;
        }
        Ok(())
    }

    /// Crashes the machine at a stage with each tear that is tried.
    fn crash_at(&mut self, calls: &MemoryFileCalls, stage: usize) -> Result<(), AllocError> {
        let pending = calls.pending(stage)?;
        for hole in 0..pending.saturating_add(2).min(MOST) {
            self.tried.crashes = self.tried.crashes.saturating_add(1);
            let kept = kept_bytes(self.alloc, pending, hole)?;
            let left = calls.left(stage, &kept)?;
            if !self.case.allows(left.as_deref(), Found::AfterCrash) {
                self.tell("a crash leaves other bytes", calls)?;
            }
        }
        Ok(())
    }

    /// Notes what was wrong, if nothing was before.
    fn tell(&mut self, what: &str, calls: &MemoryFileCalls) -> Result<(), AllocError> {
        if self.wrong.is_none() {
            let (call, fault) = (self.setting.call, self.setting.fault);
            let moment = calls.calls();
            let wrong = format!(in self.alloc;
                "wrong: {what}, after {moment} calls, with {fault:?} at {call}"
            )?;
            self.wrong = Some(wrong);
        }
        Ok(())
    }
}

/// Which of so many pending bytes are left: none, all, or all with one that is zero.
fn kept_bytes(alloc: Global, pending: usize, hole: usize) -> Result<Vec<bool>, AllocError> {
    let mut kept = Vec::new(alloc);
    if hole == 0 {
        return Ok(kept);
    }
    for place in 0..pending {
        kept.push(place.saturating_add(2) != hole)?;
    }
    Ok(kept)
}
