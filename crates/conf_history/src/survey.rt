// What an opening of a store would find in its file.
ghost use Rattle.std.specs.Prelude.{◌≡◌, ◌-◌, ◌≤◌, ℕ, List, Option, IfOk, IfErr, IfSome, length};
ghost use Rattle.conf_history.specs.Prelude.{piece_or_rest, is_several, IsState, Contents};
ghost use Rattle.conf_state.specs.Commands.{Command as Meant};
ghost use Rattle.conf_history.specs.Histories.{ReadsSurvey, RefusesSurvey};
ghost use Rattle.conf_history.specs.Walks.{HasLimits, HasRoom, IsAtPiece, IsBadHere, with_state};

use crate::fault::HistoryFault;
use crate::following::{BadKind, Following, look_behind};
use crate::place::{BadPiece, Zeros};
use crate::replayed::{BasePart, OfBase};
use crate::walk::Walk;
use conf_state::State;
use conf_store::{OnRefusal, Waiting};
use std::alloc::Global;
use std::io::Read;

/// The first bad piece of a file, and what follows it.
#[derive(Clone, Copy, Debug, PartialEq, Eq)]
pub struct Bad {
    pub piece: BadPiece,
    /// The zeros that it has, if it has any.
    pub zeros: Option<Zeros>,
    /// The number of closed pieces after it.
    pub following: u64,
    /// Whether a crash may have left it, with all that follows.
    pub kind: BadKind,
}

/// What stands in a store's file.
#[derive(Clone, Copy, Debug, PartialEq, Eq)]
pub struct Findings {
    /// The count of commands in the base.
    pub base: u64,
    /// The number of records that were performed: all of them, or those before the bad piece.
    pub commands: u64,
    /// The number of bytes that an opening keeps: those of the base and of the records that were performed. It drops
    /// what follows, or is refused for it.
    pub kept: u64,
    /// The number of bytes after the last closing line, which an opening drops.
    pub dropped: u64,
    /// The first piece that is not the next record, if there is one. An opening drops it, with all that follows, if a
    /// crash may have left it, and is refused otherwise.
    pub bad: Option<Bad>,
}

/// The state of a store's file, and what stands in the file.
#[derive(Drop)]
pub struct Survey {
    /// The state after the records that were performed.
    pub state: State,
    pub findings: Findings,
}

/// Finds what an opening of a store would find in its file, and goes past the first bad piece to count what follows. A
/// damaged file is no fault here.
///
/// The file is read once, to its end. Of its configurations only those are built that the records put or edit. It takes
/// memory for these, for the text of the base, one piece and 65,536 bytes at most, and time linear in the file.
///
/// # Errors
/// - `Input`: a read failed.
/// - `NotAStore`: the file has more than 1,073,741,824 bytes or no closing line, or its first piece is no base.
/// - `OutOfMemory`.
pub fn find_in_store<R: Read>(
    alloc: Global,
    reader: &mut R,
    waiting: Waiting,
) -> Result<Findings, HistoryFault>
    ensures ok { IfOk result (λ findings. (s : Contents)
        × ReadsSurvey (is_several waiting) (R.remaining reader.old) (R.remaining reader.new) s findings) }
    ensures refused { IfErr result (λ fault.
        IfSome (R.remaining reader.old) (λ bytes. RefusesSurvey bytes fault)) }
{
    let (_, findings) = survey_pieces::<R, BasePart>(alloc, reader, waiting)?;
    Ok(findings)
}

/// Finds what [`find_in_store`] does, and returns it with the state after the records that were performed. It takes
/// memory for that state.
///
/// # Errors
/// Those of [`find_in_store`].
pub fn survey_store<R: Read>(
    alloc: Global,
    reader: &mut R,
    waiting: Waiting,
) -> Result<Survey, HistoryFault>
    ensures ok { IfOk result (λ found. ReadsSurvey (is_several waiting)
        (R.remaining reader.old) (R.remaining reader.new) found.state found.findings) }
    ensures refused { IfErr result (λ fault.
        IfSome (R.remaining reader.old) (λ bytes. RefusesSurvey bytes fault)) }
{
    let (state, findings) = survey_pieces::<R, State>(alloc, reader, waiting)?;
    Ok(Survey { state, findings })
}

/// Finds what [`find_in_store`] does, and returns it with what the commands were performed on.
///
/// # Errors
/// Those of [`find_in_store`].
fn survey_pieces<R: Read, T: OfBase>(
    alloc: Global,
    reader: &mut R,
    waiting: Waiting,
) -> Result<(T, Findings), HistoryFault>
    ensures ok { IfOk result (λ found. (s : Contents)
        × ReadsSurvey (is_several waiting) (R.remaining reader.old) (R.remaining reader.new) s found.1
        × T.Keeps found.0 s) }
    ensures refused { IfErr result (λ fault.
        IfSome (R.remaining reader.old) (λ bytes. RefusesSurvey bytes fault)) }
{
    let mut walk = Walk::begin(alloc, reader)?;
    let mut held: T = walk.take_base(alloc, None)?;
    let base = held.accepted();
    'records: loop {
        let count = held.accepted();
        match walk.step(alloc, reader, None, &mut held, OnRefusal::KeepState) {
            Ok(true) => {}
            Ok(false) => {
                let findings = walk.findings(base, held.accepted(), None);
                return Ok((held, findings));
            }
            Err(HistoryFault::Damaged(bad)) => {
                let findings = walk.find_after(alloc, reader, waiting, base, count, bad)?;
                return Ok((held, findings));
            }
            Err(fault) => return Err(fault),
        }
    }
}

impl Walk {
    /// Looks at what follows a bad piece, at which the walk is, and returns what was found. The file's base has the
    /// count `base`, and the state before the piece `count`.
    ///
    /// # Errors
    /// Those of [`Walk::advance`].
    fn find_after<R: Read>(
        &mut self,
        alloc: Global,
        reader: &mut R,
        waiting: Waiting,
        base: u64,
        count: u64,
        piece: BadPiece,
    ) -> Result<Findings, HistoryFault>
        requires limits { HasLimits self.old.pieces }
        requires room { HasRoom self.old.pieces self.old.place }
        requires base { base ≤ count }
        ensures ok { (given : Option (List ℕ)) (s : Contents) (pieces : List (List ℕ))
            (start : Contents) (commands : List Meant)
            → IsAtPiece given (R.remaining reader.old) (with_state self.old s) pieces start commands
            → IsBadHere (with_state self.old s) piece
            → base ≡ start.count → count ≡ s.count → IsState s
            → IfOk result (ReadsSurvey (is_several waiting) given (R.remaining reader.new) s) }
        ensures refused { (given : Option (List ℕ)) (s : Contents) (pieces : List (List ℕ))
            (start : Contents) (commands : List Meant)
            → IsAtPiece given (R.remaining reader.old) (with_state self.old s) pieces start commands
            → IfErr result (λ fault. IfSome given (λ bytes. RefusesSurvey bytes fault)) }
    {
        let zeros = self.place.zeros_of(self.pieces.piece());
        let Following { pieces, kind } = look_behind(alloc, &mut self.pieces, reader, waiting)?;
        let bad = Bad {
            piece,
            zeros,
            following: pieces,
            kind,
        };
        Ok(self.findings(base, count, Some(bad)))
    }

    /// What was found in a file that was read to its end. Its base has the count `base`, and the state after the
    /// records that were performed `count`.
    fn findings(&self, base: u64, count: u64, bad: Option<Bad>) -> Findings
        requires { base ≤ count }
        ensures { result ≡ record {
          base = base;
          commands = count - base;
          kept = self.now.place.byte;
          dropped = length (piece_or_rest self.now.pieces);
          bad = bad;
        } }
    {
        Findings {
            base,
            commands: count - base,
            kept: self.place.byte,
            dropped: self.pieces.piece().len() as u64,
            bad,
        }
    }
}
