// What is kept also where there is no memory for it.
ghost use Rattle.std.specs.Prelude.{◌≡◌, ◌||◌};
ghost use Rattle.test_system.specs.Replay.{entry_of};
ghost use Rattle.test_system.specs.Spares.{has_spent, is_any_spent, spend, spare_entry};

use crate::change::{Change, Made};
use conf_system::FileName;
use std::alloc::Global;

/// What is kept where there is no memory for a call, since the call changes something also if it fails.
#[derive(Clone, Copy)]
pub(crate) enum Spare {
    /// A sync of the file under a name failed: its bytes may be in memory alone.
    FailedSync(FileName),
    /// A write to `store.yaml` added nothing: it may count as one that waits.
    EmptyWrite,
}

impl Spare {
    /// The call, as it is kept.
    pub(crate) fn made(self, alloc: Global) -> Made
        ensures { entry_of result ≡ spare_entry self }
    {
        let change = match self {
            Spare::FailedSync(name) => Change::Sync(name),
            Spare::EmptyWrite => Change::Write(FileName::Store, Vec::new(alloc)),
        };
        Made::Called {
            change,
            failed: Some(0),
        }
    }
}

/// Which of them were kept.
#[derive(Clone, Copy)]
pub(crate) struct Spent {
    pub(crate) store: bool,
    pub(crate) next: bool,
    pub(crate) copy: bool,
    pub(crate) write: bool,
}

impl Spent {
    pub(crate) const NONE: Spent = Spent {
        store: false,
        next: false,
        copy: false,
        write: false,
    };

    pub(crate) fn is_any(self) -> bool
        ensures { result ≡ is_any_spent self }
    {
        self.store || self.next || self.copy || self.write
    }

    pub(crate) fn has(self, spare: Spare) -> bool
        ensures { result ≡ has_spent self spare }
    {
        match spare {
            Spare::FailedSync(FileName::Store) => self.store,
            Spare::FailedSync(FileName::Next) => self.next,
            Spare::FailedSync(FileName::Copy) => self.copy,
            Spare::EmptyWrite => self.write,
        }
    }

    pub(crate) fn with(self, spare: Spare) -> Spent
        ensures { result ≡ spend self spare }
    {
        match spare {
            Spare::FailedSync(FileName::Store) => Spent {
                store: true,
                ..self
            },
            Spare::FailedSync(FileName::Next) => Spent { next: true, ..self },
            Spare::FailedSync(FileName::Copy) => Spent { copy: true, ..self },
            Spare::EmptyWrite => Spent {
                write: true,
                ..self
            },
        }
    }
}
