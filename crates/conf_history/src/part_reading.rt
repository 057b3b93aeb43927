// One configuration that a store's file held after a command, and the names of all.
ghost use Rattle.std.specs.Prelude.{◌≡◌, map, option_map, IfOk, IfErr, IfSome};
ghost use Rattle.conf_history.specs.Prelude.{chars, tree_of, text_of, Contents, names_of, config_named, is_several};
ghost use Rattle.conf_history.specs.Histories.{ReadsState, RefusesReading};

use crate::fault::HistoryFault;
use crate::reading::read_up_to;
use crate::replayed::BasePart;
use conf_store::Waiting;
use std::alloc::Global;
use std::io::Read;
use yaml_config::Config;

/// Reads the configuration that a store's file held under a name: after all its commands, or after the one with the
/// number `at`. Returns `None` if no configuration had the name.
///
/// The file is read as by [`state_at`](crate::state_at), with the same faults, and all that is read is checked. Of the
/// configurations only this one is built, and those that the records put or edit. Of the others the text of the base is
/// kept, if it is as a store writes it.
///
/// # Errors
/// Those of [`state_at`](crate::state_at).
pub fn config_at<R: Read>(
    alloc: Global,
    reader: &mut R,
    waiting: Waiting,
    at: Option<u64>,
    name: &str,
) -> Result<Option<Config>, HistoryFault>
    ensures ok { IfOk result (λ found. (s : Contents)
        × ReadsState (is_several waiting) (R.remaining reader.old) (R.remaining reader.new) at s
        × (option_map tree_of found ≡ config_named s.configs (chars name.now))) }
    ensures refused { IfErr result (λ fault.
        IfSome (R.remaining reader.old) (λ bytes. RefusesReading (is_several waiting) bytes at fault)) }
{
    let BasePart { part } = read_up_to(alloc, reader, waiting, at)?;
    Ok(part.copy_of(alloc, name)?)
}

/// Reads the names of the configurations that a store's file held, in order: after all its commands, or after the one
/// with the number `at`. It reads as [`config_at`] does.
///
/// # Errors
/// Those of [`state_at`](crate::state_at).
pub fn names_at<R: Read>(
    alloc: Global,
    reader: &mut R,
    waiting: Waiting,
    at: Option<u64>,
) -> Result<Vec<String>, HistoryFault>
    ensures ok { IfOk result (λ names. (s : Contents)
        × ReadsState (is_several waiting) (R.remaining reader.old) (R.remaining reader.new) at s
        × (map text_of names.items ≡ names_of s.configs)) }
    ensures refused { IfErr result (λ fault.
        IfSome (R.remaining reader.old) (λ bytes. RefusesReading (is_several waiting) bytes at fault)) }
{
    let BasePart { part } = read_up_to(alloc, reader, waiting, at)?;
    Ok(part.names(alloc)?)
}
