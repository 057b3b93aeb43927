// The answers to refused requests. They are constants, and take no memory.
ghost use Rattle.std.specs.Prelude.{◌≡◌};
ghost use Rattle.conf_session.specs.Prelude.{framed_text_bytes};
ghost use Rattle.conf_session.specs.Answers.{answered, condition_answered, path_answered, read_answered, refusal, refusal_lines, word};

use crate::fault::SessionFault;
use conf_conditions::ConditionFault;
use conf_state::StoreFault;
use tree_path::PathFault;
use yaml_tree::ReadFault;

/// Why a request is refused. But for `BadCommand` and `AboutLarge` it is one of the faults that a session answers, by
/// the innermost fault's own name. `Unmet` is that of a condition.
#[derive(Clone, Copy)]
pub enum Refusal {
    /// The piece is no command.
    BadCommand,
    EmptyBatch,
    BadName,
    NoConfig,
    BadPath,
    NoSuchPlace,
    NotIndex,
    TooLong,
    NotUtf8,
    Syntax,
    Documents,
    KeyNotText,
    KeyTwice,
    TooDeep,
    LargeInStyle,
    ConfigLarge,
    StoreFull,
    RecordLong,
    JournalLong,
    CountFull,
    Unmet,
    /// The about of a command has a longer key, more pairs or more bytes than an about may have.
    AboutLarge,
}

/// The refusal that answers an import whose text is refused.
///
/// # Errors
/// `OutOfMemory` is not answered: it ends a session.
fn read_answered(fault: ReadFault) -> Result<Refusal, SessionFault>
    ensures { result ≡ read_answered fault }
{
    match fault {
        ReadFault::TooLong => Ok(Refusal::TooLong),
        ReadFault::NotUtf8 { .. } => Ok(Refusal::NotUtf8),
        ReadFault::Syntax { .. } => Ok(Refusal::Syntax),
        ReadFault::Documents { .. } => Ok(Refusal::Documents),
        ReadFault::KeyNotText => Ok(Refusal::KeyNotText),
        ReadFault::KeyTwice => Ok(Refusal::KeyTwice),
        ReadFault::TooDeep => Ok(Refusal::TooDeep),
        ReadFault::LargeInStyle => Ok(Refusal::LargeInStyle),
        ReadFault::OutOfMemory => Err(SessionFault::OutOfMemory),
    }
}

/// The refusal that answers a request whose path is refused.
///
/// # Errors
/// `OutOfMemory` is not answered: it ends a session.
fn path_answered(fault: PathFault) -> Result<Refusal, SessionFault>
    ensures { result ≡ path_answered fault }
{
    match fault {
        PathFault::BadPath { .. } => Ok(Refusal::BadPath),
        PathFault::NoSuchPlace { .. } => Ok(Refusal::NoSuchPlace),
        PathFault::NotIndex { .. } => Ok(Refusal::NotIndex),
        PathFault::OutOfMemory => Err(SessionFault::OutOfMemory),
    }
}

/// The refusal that answers a request.
///
/// # Errors
/// `Reopen`, `Device` and `OutOfMemory` are not answered: they end a session.
pub fn answered(fault: StoreFault) -> Result<Refusal, SessionFault>
    ensures { result ≡ answered fault }
{
    match fault {
        StoreFault::Path(fault) => path_answered(fault),
        StoreFault::Read(fault) => read_answered(fault),
        StoreFault::EmptyBatch => Ok(Refusal::EmptyBatch),
        StoreFault::BadName => Ok(Refusal::BadName),
        StoreFault::NoConfig => Ok(Refusal::NoConfig),
        StoreFault::TooDeep => Ok(Refusal::TooDeep),
        StoreFault::ConfigLarge => Ok(Refusal::ConfigLarge),
        StoreFault::StoreFull => Ok(Refusal::StoreFull),
        StoreFault::RecordLong => Ok(Refusal::RecordLong),
        StoreFault::JournalLong => Ok(Refusal::JournalLong),
        StoreFault::CountFull => Ok(Refusal::CountFull),
        StoreFault::Reopen => Err(SessionFault::Reopen),
        StoreFault::Device => Err(SessionFault::Device),
        StoreFault::OutOfMemory => Err(SessionFault::OutOfMemory),
    }
}

/// The refusal that answers a command one of whose conditions does not hold.
///
/// # Errors
/// `OutOfMemory` is not answered: it ends a session.
pub fn condition_answered(fault: ConditionFault) -> Result<Refusal, SessionFault>
    ensures { result ≡ condition_answered fault }
{
    match fault {
        ConditionFault::Unmet => Ok(Refusal::Unmet),
        ConditionFault::BadName => Ok(Refusal::BadName),
        ConditionFault::Path(fault) => path_answered(fault),
        ConditionFault::OutOfMemory => Err(SessionFault::OutOfMemory),
    }
}

/// The document that has a name under `refused`.
macro_rules! refused {
    ($name:literal) => {
        concat!("---\nrefused: ", $name, "\n...\n")
    };
}

impl Refusal {
    /// The answer to a refused request: a document with the refusal's name under `refused`.
    pub fn answer(self) -> &'static [u8]
        ensures { result.now ≡ framed_text_bytes (refusal (word self)) }
    {
        self.text().as_bytes()
    }

    /// The text of that document.
    fn text(self) -> &'static str
        ensures { result.now ≡ refusal_lines (word self) }
    {
        match self {
            Refusal::BadCommand => refused!("BadCommand"),
            Refusal::EmptyBatch => refused!("EmptyBatch"),
            Refusal::BadName => refused!("BadName"),
            Refusal::NoConfig => refused!("NoConfig"),
            Refusal::BadPath => refused!("BadPath"),
            Refusal::NoSuchPlace => refused!("NoSuchPlace"),
            Refusal::NotIndex => refused!("NotIndex"),
            Refusal::TooLong => refused!("TooLong"),
            Refusal::NotUtf8 => refused!("NotUtf8"),
            Refusal::Syntax => refused!("Syntax"),
            Refusal::Documents => refused!("Documents"),
            Refusal::KeyNotText => refused!("KeyNotText"),
            Refusal::KeyTwice => refused!("KeyTwice"),
            Refusal::TooDeep => refused!("TooDeep"),
            Refusal::LargeInStyle => refused!("LargeInStyle"),
            Refusal::ConfigLarge => refused!("ConfigLarge"),
            Refusal::StoreFull => refused!("StoreFull"),
            Refusal::RecordLong => refused!("RecordLong"),
            Refusal::JournalLong => refused!("JournalLong"),
            Refusal::CountFull => refused!("CountFull"),
            Refusal::Unmet => refused!("Unmet"),
            Refusal::AboutLarge => refused!("AboutLarge"),
        }
    }
}
