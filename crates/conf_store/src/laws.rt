// Laws of the definitions.
ghost use Rattle.conf_store.specs.Calls.{RecordsAreMeasured};
ghost use Rattle.conf_store.specs.Durable.{HolesMean, OneFlushed, NothingWaits};
ghost use Rattle.conf_store.specs.Lives.{LivesHold};
ghost use Rattle.conf_store.specs.OldStores.{OldStoresRead};
ghost use Rattle.conf_store.specs.Opens.{OneMeaning, NoteIsMilder, RefusedMeansNothing, RecoveredIsMeant, WholeIsMeant};

use conf_record::{documents_are_read, documents_close};
use yaml_recognizers::closings::one_list_of_pieces;
use yaml_recognizers::zeros::{no_zero_read, zeros_close_nothing};

/// Whatever crashes happen, no acknowledged command is lost, and no command is kept that was not accepted.
///
/// A life is what happens to a store from one opening to the next: calls with what they returned, the last one perhaps
/// cut off by a crash. Between two calls there are a state that is flushed, a list of commands that wait, and perhaps a
/// checkpoint that runs. At the start nothing waits and none runs. Of the calls that return `Ok`,
///
/// - `submit` adds its command to those that wait;
/// - `submit` of a command that renews the file flushes all commands that wait, with its own as the last, and ends a
///   checkpoint that runs;
/// - `flush`, `apply` and `import` flush all commands that wait, the two with their own command as the last;
/// - `checkpoint`, and a `slice` that is done, flush them too, and end a checkpoint that runs;
/// - `begin_checkpoint`, and a `slice` that is not done, leave what is flushed and what waits.
///
/// A refusal changes nothing, and after `Device` only `Reopen` follows. A crash between two calls leaves the flushed
/// state after a prefix of the commands that wait, and so it may be after a close. A crash within a call, or `Device`,
/// leaves what one before the call or after it would.
///
/// A command is accepted if the state allows it and its call returned `Ok`, returned `Device` or was cut off. It is
/// acknowledged if its own call or a later one of the same life returned `Ok` and flushed.
///
/// Take any list of lives, each starting in the state in which the one before ended. The last state is the first one
/// after a list of commands. This list has, for each life in turn, a prefix of the commands that it accepted. The
/// prefix holds every command that was acknowledged.
///
/// That the calls of a [`Store`](crate::Store) on an honest disk are such lives is what their contracts say. `ok`,
/// `waits` and `flushed` say what is flushed after a call, and what waits; `unchanged`, that a refusal changes nothing;
/// `device` and `reopen`, that after `Device` only `Reopen` follows. `any_moment` says what a crash within a call
/// leaves, and `now` of `needs_reopen` what one between two calls leaves. An opening begins a life, in the state that
/// `store.yaml` means. One that was refused or cut off is a life without calls, since it changes no meaning.
pub fn lives_hold()
    ensures { LivesHold }
{}

/// What is flushed, and which commands wait, is read from the disk alone, in one way at most. Where none waits, the
/// state after a prefix of what waits is the state itself.
pub fn one_state_is_flushed()
    ensures one { OneFlushed }
    ensures nothing { NothingWaits }
{
    documents_are_read();
    documents_close();
    one_list_of_pieces();
}

/// Suppose that records wait for a sync: that of one command, or those of several, which the disk has noted. Then the
/// machine stops. However the crash cuts the records, and whatever zeros it leaves in the place of bytes that had not
/// reached the device, `store.yaml` means the state after a prefix of the commands.
pub fn holes_mean()
    ensures { HolesMean }
{
    documents_close();
    one_list_of_pieces();
    no_zero_read();
    zeros_close_nothing();
}

/// Bytes mean at most one state; it is the one that opening recovers, and bytes that opening refuses mean none. Bytes
/// that mean a state mean it also where it is noted that several records may have waited. Where opening drops none of
/// them, the note says nothing.
pub fn bytes_mean_one_state()
    ensures one { OneMeaning }
    ensures milder { NoteIsMilder }
    ensures whole { WholeIsMeant }
    ensures refused { RefusedMeansNothing }
    ensures recovered { RecoveredIsMeant }
{
    documents_are_read();
    one_list_of_pieces();
    no_zero_read();
}

/// The record that is made for a command, to be measured and then appended, is as long as the record with the number
/// after the count. At the greatest count no number comes after it, so the record is made with the count itself; both
/// numbers have 20 digits.
pub fn records_are_measured()
    ensures { RecordsAreMeasured }
{}

/// Where bytes mean a state as a file of the first format, `confstore-1`, they mean the same state now. So a store that
/// an earlier version wrote opens, with what it held. That format had smaller limits and no batches; its meaning stands
/// on a page of definitions of its own (`specs/First.antt`), which never changes.
pub fn old_stores_read()
    ensures { OldStoresRead }
{}
