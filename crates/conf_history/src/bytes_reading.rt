// One configuration that the bytes of a store's file hold, which were read before.
ghost use Rattle.std.specs.Prelude.{◌≡◌, option_map, IfOk, IfErr};
ghost use Rattle.conf_history.specs.Prelude.{chars, tree_of, Contents, config_named, RecoversTo, RefusesBytes, is_several};

use crate::base::Base;
use crate::replayed::{BasePart, OfBase};
use conf_state::Part;
use conf_store::{OpenFault, Opened, Waiting, replay_records};
use std::alloc::Global;
use yaml_config::Config;
use yaml_docs::next_close;
use yaml_recognizers::closings::{one_list_of_pieces, piece_between_closings};

/// Reads the configuration that the bytes of a store's file hold under a name, with what an opening would find in them.
/// There is none if no configuration has the name.
///
/// All of the bytes are checked. Of the configurations only this one is built, and those that the records put or edit.
/// It takes the bytes, and copies only those after the base.
///
/// # Errors
/// `NotAStore` if no closing line ends a base at their start. `Damaged` with the number of the first piece that is not
/// the next record, counted from 1 after the base. `OutOfMemory`.
pub fn config_in(
    alloc: Global,
    bytes: Vec<u8>,
    waiting: Waiting,
    name: &str,
) -> Result<(Option<Config>, Opened), OpenFault>
    ensures ok { IfOk result (λ found. (s : Contents)
        × RecoversTo (is_several waiting) bytes.items s found.1.commands found.1.dropped
        × (option_map tree_of found.0 ≡ config_named s.configs (chars name.now))) }
    ensures refused { IfErr result (RefusesBytes (is_several waiting) bytes.items) }
{
    let (part, opened) = match part_in(alloc, bytes, waiting) {
        Ok(read) => read,
        Err(fault) => return Err(fault),
    };
    match part.copy_of(alloc, name) {
        Ok(config) => Ok((config, opened)),
        Err(_) => Err(OpenFault::OutOfMemory),
    }
}

/// Reads the state that the bytes of a store's file mean, without building it, with what an opening would find in them.
///
/// # Errors
/// Those of [`config_in`].
fn part_in(
    alloc: Global,
    bytes: Vec<u8>,
    waiting: Waiting,
) -> Result<(Part<Base>, Opened), OpenFault>
    ensures ok { IfOk result (λ read.
        RecoversTo (is_several waiting) bytes.items read.0 read.1.commands read.1.dropped) }
    ensures refused { IfErr result (RefusesBytes (is_several waiting) bytes.items) }
{
    piece_between_closings();
    one_list_of_pieces();
    let Some(end) = next_close(&bytes, 0) else {
        return Err(OpenFault::NotAStore);
    };
    let Ok(records) = Vec::from_slice(alloc, &bytes[end..]) else {
        return Err(OpenFault::OutOfMemory);
    };
    let mut base = bytes;
    base.truncate(end);
    match BasePart::of_base(alloc, base) {
        Ok(Some(mut held)) => match replay_records(alloc, &mut held, &records, waiting) {
            Ok(opened) => Ok((held.part, opened)),
            Err(fault) => Err(fault),
        },
        Ok(None) => Err(OpenFault::NotAStore),
        Err(_) => Err(OpenFault::OutOfMemory),
    }
}
