// Why a text is not formatted with its comments.
use std::alloc::AllocError;
use std::fmt;
use yaml_tree::ReadFault;

/// Why a text is not formatted with its comments.
#[derive(Clone, Copy, Debug, PartialEq, Eq)]
pub enum KeepFault {
    /// The text is not read, or memory ran out.
    Read(ReadFault),
    /// What would be written is not left as it is when it is formatted once more. No text is known of which that holds.
    Unsettled,
}

impl fmt::Display for KeepFault {
    fn fmt<W: fmt::Write>(&self, f: &mut fmt::Formatter<W>) -> fmt::Result {
        match self {
            KeepFault::Read(fault) => fmt::Display::fmt(fault, f),
            KeepFault::Unsettled => f.write_str(
                "the text with its comments would change if it were formatted once more",
            ),
        }
    }
}

impl std::error::Error for KeepFault {}

impl From<ReadFault> for KeepFault {
    ghost use Rattle.std.specs.Prelude.{◌≡◌};
    ghost use Rattle.comments_kept.specs.declared.fault.KeepFault.TheVariants.{Read};

    ghost from_gives = { λ read fault. fault ≡ Read read };

    fn from(fault: ReadFault) -> Self {
        KeepFault::Read(fault)
    }
}

impl From<AllocError> for KeepFault {
    ghost use Rattle.std.specs.Prelude.{◌≡◌};
    ghost use Rattle.yaml_tree.specs.Prelude.{OutOfMemory};
    ghost use Rattle.comments_kept.specs.declared.fault.KeepFault.TheVariants.{Read};

    ghost from_gives = { λ _ fault. fault ≡ Read OutOfMemory };

    fn from(_: AllocError) -> Self {
        KeepFault::Read(ReadFault::OutOfMemory)
    }
}
