// What is kept also where there is no memory for it.
ghost use Rattle.std.specs.Prelude.{◌≡◌, ◌||◌};
ghost use Rattle.test_files.specs.Replay.{entry_of};
ghost use Rattle.test_files.specs.Spares.{has_spent, is_any_spent, spend, spare_entry};

use crate::change::{Change, Made};

/// What is kept where there is no memory for a call, since the call changes something also if it fails.
#[derive(Clone, Copy)]
pub(crate) enum Spare {
    /// A sync of the new file failed: its bytes may be in memory alone.
    FailedSync,
    /// A call failed that gives the new file an owner or a group.
    Refused,
    /// A call failed that was to remove the new file.
    Left,
}

impl Spare {
    /// The call, as it is kept.
    pub(crate) fn made(self) -> Made
        ensures { entry_of result ≡ spare_entry self }
    {
        let change = match self {
            Spare::FailedSync => Change::SyncNew,
            Spare::Refused => Change::GiveGroup(0),
            Spare::Left => Change::UnlinkBeside,
        };
        Made {
            change,
            failed: Some(0),
        }
    }
}

/// Which of them were kept.
#[derive(Clone, Copy)]
pub(crate) struct Spent {
    pub(crate) sync: bool,
    pub(crate) refused: bool,
    pub(crate) left: bool,
}

impl Spent {
    pub(crate) const NONE: Spent = Spent {
        sync: false,
        refused: false,
        left: false,
    };

    pub(crate) fn is_any(self) -> bool
        ensures { result ≡ is_any_spent self }
    {
        self.sync || self.refused || self.left
    }

    pub(crate) fn has(self, spare: Spare) -> bool
        ensures { result ≡ has_spent self spare }
    {
        match spare {
            Spare::FailedSync => self.sync,
            Spare::Refused => self.refused,
            Spare::Left => self.left,
        }
    }

    pub(crate) fn with(self, spare: Spare) -> Spent
        ensures { result ≡ spend self spare }
    {
        match spare {
            Spare::FailedSync => Spent { sync: true, ..self },
            Spare::Refused => Spent {
                refused: true,
                ..self
            },
            Spare::Left => Spent { left: true, ..self },
        }
    }
}
