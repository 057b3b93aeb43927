// Reading records and bases from bytes.
ghost use Rattle.std.specs.Prelude.{◌≢◌, OnOk, IfOk, IfSome, IfNone};
ghost use Rattle.conf_record.specs.Prelude.{own_limits, tree_of, command_of};
ghost use Rattle.yaml_tree.specs.Reading.{IsRead, GivesNone};
ghost use Rattle.conf_record.specs.Documents.{IsRecord, IsBase, IsNoRecord, IsNoBase};

use crate::base_reader::base_from;
use crate::command_reader::record_from;
use crate::parts::configurations;
use crate::written_base::written_base;
use conf_state::{Command, State};
use std::alloc::{AllocError, Global};
use yaml_styled::Miss;
use yaml_tree::{Limits, ReadFault, Tree, bytes_give_one, read_one, refused_bytes_give_none};

/// Reads a record: the command and its number. The bytes may spell the document in any way (YAML 1.2.2).
///
/// It returns `None` if the bytes are no record:
/// - they are not one document of texts, sequences and mappings, or are over the limits of a `Config`
///   ([`Limits::KEPT`]);
/// - the mapping has other keys, or the same in another order; in a batch (`batch`) those of each edit count, and a
///   batch may have none;
/// - the number is not decimal digits without a leading zero, or is more than 18,446,744,073,709,551,615;
/// - the name or the path (RFC 6901) of an edit is not good.
///
/// It fails only if memory runs out. It takes time linear in the bytes, and moves the texts and trees that were read.
pub fn read_record(alloc: Global, bytes: &[u8]) -> Result<Option<(Command, u64)>, AllocError>
    ensures some { IfOk result (λ read. IfSome read (λ r.
        IsRecord bytes.now (command_of r.0) r.1)) }
    ensures none { IfOk result (λ read. IfNone read (IsNoRecord bytes.now)) }
{
    bytes_give_one();
    match read_tree(alloc, bytes)? {
        Some(tree) => record_from(alloc, tree),
        None => Ok(None),
    }
}

/// Reads a base: the state that it holds. The bytes may spell the document in any way (YAML 1.2.2).
///
/// It returns `None` if the bytes are no base:
/// - they are not such a document, as for [`read_record`];
/// - the mapping has other keys, or the same in another order, or the format is none of `confstore-1`, `confstore-2`
///   and `confstore-3`;
/// - the count is not decimal digits without a leading zero, or is more than 18,446,744,073,709,551,615;
/// - no state holds the configurations, as for [`State::from_parts`].
///
/// It fails only if memory runs out. It takes time linear in the bytes, and moves the names and trees that were read.
pub fn read_base(alloc: Global, bytes: &[u8]) -> Result<Option<State>, AllocError>
    ensures some { IfOk result (λ read. IfSome read (λ state. IsBase bytes.now state)) }
    ensures none { IfOk result (λ read. IfNone read (IsNoBase bytes.now)) }
{
    match written_base(alloc, bytes) {
        Ok(state) => Ok(Some(state)),
        Err(Miss::OtherForm) => spelled_base(alloc, bytes),
        Err(Miss::OutOfMemory) => Err(AllocError),
    }
}

/// Reads a base in any spelling, as [`read_base`] does.
fn spelled_base(alloc: Global, bytes: &[u8]) -> Result<Option<State>, AllocError>
    ensures some { IfOk result (λ read. IfSome read (λ state. IsBase bytes.now state)) }
    ensures none { IfOk result (λ read. IfNone read (IsNoBase bytes.now)) }
{
    bytes_give_one();
    let tree = match read_tree(alloc, bytes)? {
        Some(tree) => tree,
        None => return Ok(None),
    };
    match base_from(tree) {
        Some((pairs, count)) => {
            let configs = configurations(alloc, pairs)?;
            State::from_parts(alloc, configs, count)
        }
        None => Ok(None),
    }
}

/// The tree that bytes give within the limits of a [`Config`](yaml_tree::Config); `None` if they give none.
fn read_tree(alloc: Global, bytes: &[u8]) -> Result<Option<Tree>, AllocError>
    ensures some { IfOk result (λ read. IfSome read
        (λ tree. IsRead bytes.now own_limits (tree_of tree))) }
    ensures none { IfOk result (λ read. IfNone read (GivesNone bytes.now own_limits)) }
{
    refused_bytes_give_none();
    match read_one(alloc, bytes, &Limits::KEPT) {
        Ok(config) => Ok(Some(config.into_tree())),
        Err(fault) => {
            unless_out_of_memory(fault)?;
            Ok(None)
        }
    }
}

/// Fails if the fault is out of memory. Any other fault says that the bytes give no tree.
fn unless_out_of_memory(fault: ReadFault) -> Result<(), AllocError>
    ensures { OnOk result (fault ≢ ReadFault.OutOfMemory) }
{
    match fault {
        ReadFault::OutOfMemory => Err(AllocError),
        _ => Ok(()),
    }
}
