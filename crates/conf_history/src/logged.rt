// The part of a store whose commands are logged.
ghost use Rattle.std.specs.Prelude.{◌≡◌, ℕ, IfOk};
ghost use Rattle.conf_history.specs.Prelude.{command_of};
ghost use Rattle.conf_history.specs.Logs.{TellsEntry, TellsLine, entry_bytes};
ghost use Rattle.conf_state.specs.Commands.{Command as Meant};

use crate::asked::is_asked;
use crate::base::Base;
use crate::json_line::json_line;
use crate::line::record_line;
use crate::log::{LogForm, LogRequest};
use conf_state::{Command, Part};
use conf_store::{OnRefusal, RecordFault, Replayed};
use std::alloc::{AllocError, Global};

/// A part of a state that keeps what a log says of the last command.
#[derive(Drop)]
pub(crate) struct Logged<'h> {
    pub part: Part<Base>,
    pub request: LogRequest<'h>,
    /// The line of the last command, or an empty text where no lines are written. `None` if the command is not asked
    /// for.
    pub told: Option<String>,
}

impl<'h> Logged<'h> {
    /// A part of which no command is performed yet.
    pub fn new(part: Part<Base>, request: LogRequest<'h>) -> Logged<'h>
        ensures part { result.part ≡ part }
        ensures request { result.request ≡ request.entry }
    {
        Logged {
            part,
            request,
            told: None,
        }
    }

    /// What is written for the last command, whose record is this piece.
    pub fn entry<'a>(&'a self, piece: &'a [u8]) -> &'a [u8]
        ensures { (number : ℕ) (command : Meant)
            → TellsEntry self.now.request self.now.told number command
            → result.now ≡ entry_bytes self.now.request number piece.now command }
    {
        match (&self.told, self.request.form) {
            (None, _) => &[],
            (Some(line), LogForm::Lines { .. }) => line.as_bytes(),
            (Some(line), LogForm::Json) => line.as_bytes(),
            (Some(_), LogForm::Records) => piece,
        }
    }
}

// The line is made before the command is performed, which takes the command.
impl Replayed for Logged<'_> {
    ghost use Rattle.std.specs.Prelude.{◌≡◌};
    ghost use Rattle.conf_history.specs.Logs.{TellsEntry};

    ghost contents = { λ logged. logged.part };

    ghost Keeps = { λ logged s. Unit {0} };

    ghost keeps = { λ logged. tt };

    ghost Tells = { λ old new number command.
        (new.request ≡ old.request) × TellsEntry old.request new.told number command };

    fn accepted(&self) -> u64 {
        self.part.count()
    }

    fn perform(
        &mut self,
        alloc: Global,
        command: Command,
        on_refusal: OnRefusal,
    ) -> Result<(), RecordFault> {
        let told = told_of(alloc, self.request, self.part.count() + 1, &command)?;
        self.part.perform(alloc, command, on_refusal)?;
        self.told = told;
        Ok(())
    }
}

/// What is kept of a command with a number, if it is asked for. It fails only if memory runs out.
fn told_of(
    alloc: Global,
    request: LogRequest<'_>,
    number: u64,
    command: &Command,
) -> Result<Option<String>, AllocError>
    ensures { IfOk result (λ told. TellsEntry request.entry told number (command_of command.now)) }
{
    if is_asked(request, number, command) {
        Ok(Some(line_of(alloc, request.form, number, command)?))
    } else {
        Ok(None)
    }
}

/// The line of a command with a number, where lines are written.
fn line_of(
    alloc: Global,
    form: LogForm<'_>,
    number: u64,
    command: &Command,
) -> Result<String, AllocError>
    ensures { IfOk result (λ line. TellsLine form.entry line number (command_of command.now)) }
{
    match form {
        LogForm::Lines { form, shown } => record_line(alloc, number, command, form, shown),
        LogForm::Json => json_line(alloc, number, command),
        LogForm::Records => Ok(String::new(alloc)),
    }
}
