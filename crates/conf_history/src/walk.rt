// A walk over the pieces of a store's file.
ghost use Rattle.std.specs.Prelude.{◌≡◌, ◌≢◌, ◌<◌, ◌≤◌, ◌+◌, ℕ, List, [], ◌∷◌, Option, Some, Ok, true, false};
ghost use Rattle.std.specs.Prelude.{OnOk, OnErr, IfOk, IfErr, IfSome};
ghost use Rattle.conf_history.specs.Prelude.{Contents, IsNoRecord, IsState, is_several, piece_or_rest};
ghost use Rattle.conf_state.specs.Commands.{Command as Meant};
ghost use Rattle.conf_history.specs.Histories.{RefusesSurvey};
ghost use Rattle.conf_history.specs.Walks.{AfterAdvance, AfterGoing, BeginsWith, Ends, Fails, Goes, HasEnded, HasLimits, HasRoom};
ghost use Rattle.conf_history.specs.Walks.{IsBetween, IsOn, IsWalking, Performs, RefusesPiece, RefusesStart, Stops, end_at_bad, with_state};

use crate::fault::{HistoryFault, fault_of_pieces};
use crate::following::{BadKind, Following, look_behind};
use crate::place::{BadPiece, Place};
use crate::replayed::OfBase;
use conf_journal::STORE_LIMIT;
use conf_store::{OnRefusal, Replayed, Waiting, replay_record};
use std::alloc::Global;
use std::io::Read;
use yaml_docs::Pieces;
use yaml_recognizers::closings::one_list_of_pieces;
use yaml_recognizers::zeros::no_zero_read;

/// A walk over the pieces of a store's file: the piece that it is at, and where the next one begins. What the pieces
/// before mean is kept beside it ([`Replayed`]).
#[derive(Drop)]
pub(crate) struct Walk {
    pub pieces: Pieces,
    pub place: Place,
}

impl Walk {
    /// Reads the first piece, which is to be read as a base.
    ///
    /// # Errors
    /// `NotAStore` if there is no closing line within the limit. `Input`, `OutOfMemory`.
    pub fn begin<R: Read>(alloc: Global, reader: &mut R) -> Result<Walk, HistoryFault>
        ensures ok { IfOk result (BeginsWith (R.remaining reader.old) (R.remaining reader.new)) }
        ensures refused { IfErr result (λ fault.
            IfSome (R.remaining reader.old) (λ bytes. RefusesSurvey bytes fault)) }
    {
        one_list_of_pieces();
        let mut pieces = Pieces::new(alloc, STORE_LIMIT, STORE_LIMIT as usize)?;
        match pieces.advance(reader) {
            Ok(true) => {}
            Ok(false) => return Err(HistoryFault::NotAStore),
            Err(fault) => return Err(fault_of_pieces(fault)),
        }
        let place = Place::start().after(pieces.piece());
        Ok(Walk { pieces, place })
    }

    /// Takes the first piece out as a base, and returns what its commands are performed on.
    ///
    /// # Errors
    /// `NotAStore` if it is no base. `NoSuchCommand` if the number `at` is before that of the base. `OutOfMemory`.
    pub fn take_base<T: OfBase>(
        &mut self,
        alloc: Global,
        at: Option<u64>,
    ) -> Result<T, HistoryFault>
        ensures ok { IfOk result (λ held. (given left : Option (List ℕ))
            → BeginsWith given left self.old
            → IsOn at given left (with_state self.new (T.contents held))
            (piece_or_rest self.old.pieces ∷ []) (T.contents held) []) }
        ensures refused { IfErr result (λ fault. (given left : Option (List ℕ))
            → BeginsWith given left self.old → IfSome given (λ bytes. RefusesStart at bytes fault)) }
    {
        one_list_of_pieces();
        let Some(held) = T::of_base(alloc, self.pieces.take_piece())? else {
            return Err(HistoryFault::NotAStore);
        };
        if is_before(at, held.accepted()) {
            return Err(HistoryFault::NoSuchCommand);
        }
        Ok(held)
    }

    /// Performs the next piece as the next record, and goes past it. Returns whether there was one: there is none once
    /// the command with the number `at` is performed, and, without a number, where the file ends, or a piece stands
    /// that a crash may have left, as an opening finds it.
    /// `waiting` says how many records may have waited for one sync.
    ///
    /// # Errors
    /// `Damaged` if the piece is not the next record, and no crash left it. `NoSuchCommand` if the file ends before the
    /// number, or such a piece stands there. `Input` if a read failed. `NotAStore` if the file has more than
    /// 1,073,741,824 bytes. `OutOfMemory`. What becomes of a state says `on_refusal`, and a part has to be dropped.
    pub fn next<R: Read, T: Replayed>(
        &mut self,
        alloc: Global,
        reader: &mut R,
        waiting: Waiting,
        at: Option<u64>,
        held: &mut T,
        on_refusal: OnRefusal,
    ) -> Result<bool, HistoryFault>
        requires { IsWalking at (R.remaining reader.old) (with_state self.old (T.contents held.old)) }
        ensures goes { (given : Option (List ℕ)) (pieces : List (List ℕ)) (start : Contents)
            (commands : List Meant)
            → IsOn at given (R.remaining reader.old) (with_state self.old (T.contents held.old))
            pieces start commands → result ≡ Ok true
            → Goes at given (R.remaining reader.new) (with_state self.new (T.contents held.new))
            (T.Tells held.old held.new ((T.contents held.old).count + 1)) pieces start commands }
        ensures ended { (given : Option (List ℕ)) (pieces : List (List ℕ)) (start : Contents)
            (commands : List Meant)
            → IsOn at given (R.remaining reader.old) (with_state self.old (T.contents held.old))
            pieces start commands → result ≡ Ok false
            → Ends (is_several waiting) at given (R.remaining reader.new)
            (with_state self.new (T.contents held.new)) pieces start commands
            × IsState (T.contents held.new) }
        ensures stops { (given : Option (List ℕ)) (pieces : List (List ℕ)) (start : Contents)
            (commands : List Meant)
            → IsOn at given (R.remaining reader.old) (with_state self.old (T.contents held.old))
            pieces start commands
            → IfErr result (Fails (is_several waiting) at given pieces) }
    {
        one_list_of_pieces();
        no_zero_read();
        match self.step(alloc, reader, at, held, on_refusal) {
            Ok(goes_on) => Ok(goes_on),
            Err(HistoryFault::Damaged(bad)) => {
                let Following { kind, .. } = look_behind(alloc, &mut self.pieces, reader, waiting)?;
                ends_at(bad, kind, at)
            }
            Err(fault) => Err(fault),
        }
    }

    /// Performs the next piece as the next record, as [`Walk::next`] does. It stops at the first piece that is not the
    /// next record.
    ///
    /// # Errors
    /// `Damaged` if the piece is not the next record. The others are those of [`Walk::next`].
    pub fn step<R: Read, T: Replayed>(
        &mut self,
        alloc: Global,
        reader: &mut R,
        at: Option<u64>,
        held: &mut T,
        on_refusal: OnRefusal,
    ) -> Result<bool, HistoryFault>
        requires { IsWalking at (R.remaining reader.old) (with_state self.old (T.contents held.old)) }
        ensures goes { (given : Option (List ℕ)) (pieces : List (List ℕ)) (start : Contents)
            (commands : List Meant)
            → IsOn at given (R.remaining reader.old) (with_state self.old (T.contents held.old))
            pieces start commands → result ≡ Ok true
            → Goes at given (R.remaining reader.new) (with_state self.new (T.contents held.new))
            (T.Tells held.old held.new ((T.contents held.old).count + 1)) pieces start commands }
        ensures ended { (given : Option (List ℕ)) (pieces : List (List ℕ)) (start : Contents)
            (commands : List Meant)
            → IsOn at given (R.remaining reader.old) (with_state self.old (T.contents held.old))
            pieces start commands → result ≡ Ok false
            → HasEnded at given (R.remaining reader.new) (with_state self.new (T.contents held.new))
            pieces start commands × IsState (T.contents held.new) }
        ensures stops { (given : Option (List ℕ)) (pieces : List (List ℕ)) (start : Contents)
            (commands : List Meant)
            → IsOn at given (R.remaining reader.old) (with_state self.old (T.contents held.old))
            pieces start commands
            → IfErr result (Stops at given (R.remaining reader.new)
            (with_state self.new (T.contents held.old)) pieces start commands) }
        ensures kept { on_refusal ≡ OnRefusal.KeepState
            → OnErr result (T.Keeps held.new (T.contents held.old)) }
        ensures limits { IsState (T.contents held.old) }
        // A piece that is no record changes nothing.
        ensures unread { IsNoRecord (piece_or_rest self.new.pieces) → OnErr result (held.new ≡ held.old) }
    {
        if self.goes_on(reader, at, held.accepted())? {
            self.replay_piece(alloc, held, on_refusal)?;
            return Ok(true);
        }
        Ok(false)
    }

    /// Goes on to the next piece, if the command with the number is not the last of the `count` ones. Returns whether
    /// there is one.
    ///
    /// # Errors
    /// `NoSuchCommand` if the file ends before the number. Those of [`Walk::advance`].
    fn goes_on<R: Read>(
        &mut self,
        reader: &mut R,
        at: Option<u64>,
        count: u64,
    ) -> Result<bool, HistoryFault>
        requires { HasLimits self.old.pieces }
        ensures { (given : Option (List ℕ)) (s : Contents) (pieces : List (List ℕ))
            (start : Contents) (commands : List Meant) → count ≡ s.count
            → IsOn at given (R.remaining reader.old) (with_state self.old s) pieces start commands
            → AfterGoing at given (R.remaining reader.new) (with_state self.new s)
            pieces start commands result }
    {
        if is_reached(at, count) {
            return Ok(false);
        }
        if self.advance(reader)? {
            return Ok(true);
        }
        match at {
            Some(_) => Err(HistoryFault::NoSuchCommand),
            None => Ok(false),
        }
    }

    /// Goes on to the next piece, or to the bytes after the last one. Returns whether there is a piece.
    ///
    /// # Errors
    /// `Input` if a read failed. `NotAStore` if the file has more than 1,073,741,824 bytes. `OutOfMemory`.
    fn advance<R: Read>(&mut self, reader: &mut R) -> Result<bool, HistoryFault>
        requires { HasLimits self.old.pieces }
        ensures { (given : Option (List ℕ)) (s : Contents) (pieces : List (List ℕ))
            (start : Contents) (commands : List Meant)
            → IsBetween given (R.remaining reader.old) (with_state self.old s) pieces start commands
            → AfterAdvance given (R.remaining reader.new) (with_state self.new s)
            pieces start commands result }
    {
        match self.pieces.advance(reader) {
            Ok(found) => Ok(found),
            Err(fault) => Err(fault_of_pieces(fault)),
        }
    }

    /// Performs the piece as the next record, and goes past it.
    ///
    /// # Errors
    /// `Damaged` if it is not the next record. `OutOfMemory`. The walk stays as it was. What becomes of a state says
    /// `on_refusal`, and a part has to be dropped.
    fn replay_piece<T: Replayed>(
        &mut self,
        alloc: Global,
        held: &mut T,
        on_refusal: OnRefusal,
    ) -> Result<(), HistoryFault>
        requires { HasRoom self.old.pieces self.old.place }
        ensures ok { OnOk result ((command : Meant)
            × Performs (with_state self.old (T.contents held.old))
            (with_state self.new (T.contents held.new)) command
            × T.Tells held.old held.new ((T.contents held.old).count + 1) command) }
        ensures refused { IfErr result (RefusesPiece (with_state self.old (T.contents held.old))) }
        ensures walk { OnErr result (self.new ≡ self.old) }
        ensures kept { on_refusal ≡ OnRefusal.KeepState
            → OnErr result (T.Keeps held.new (T.contents held.old)) }
        ensures unread { IsNoRecord (piece_or_rest self.old.pieces) → held.new ≡ held.old }
    {
        match replay_record(alloc, held, self.pieces.piece(), on_refusal) {
            Ok(_) => {
                self.place = self.place.after(self.pieces.piece());
                Ok(())
            }
            Err(fault) => Err(self.place.fault_here(fault)),
        }
    }
}

/// What a walk up to a number, or to the end, finds at a bad piece of this kind: an end, or why it stops.
fn ends_at(bad: BadPiece, kind: BadKind, at: Option<u64>) -> Result<bool, HistoryFault>
    ensures { result ≡ end_at_bad bad kind at }
{
    match (kind, at) {
        (BadKind::Unexpected, _) => Err(HistoryFault::Damaged(bad)),
        (BadKind::Torn, Some(_)) => Err(HistoryFault::NoSuchCommand),
        (BadKind::Torn, None) => Ok(false),
    }
}

/// Whether the number is before that of a base with `count` commands.
fn is_before(at: Option<u64>, count: u64) -> bool
    ensures before { result ≡ true → (number : ℕ) × (at ≡ Some number) × (number < count) }
    ensures not_before { result ≡ false → IfSome at (λ number. count ≤ number) }
{
    match at {
        Some(number) => number < count,
        None => false,
    }
}

/// Whether a count is the number that is asked for.
fn is_reached(at: Option<u64>, count: u64) -> bool
    ensures reached { result ≡ true → at ≡ Some count }
    ensures not_yet { result ≡ false → at ≢ Some count }
{
    match at {
        Some(number) => number == count,
        None => false,
    }
}
