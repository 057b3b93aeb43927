// Reading a text as one tree.
ghost use Rattle.std.specs.Prelude.{◌≡◌, ◌≤◌, ◌<◌, ◌↔◌, Err, IfOk, IfErr, length};
ghost use Rattle.yaml_tree.specs.Prelude.{events_of, limits_of, own_limits, tree_of};
ghost use Rattle.yaml_tree.specs.Building.{RefusesDeep};
ghost use Rattle.yaml_tree.specs.Reading.{IsRead, Refuses};

use crate::documents::Document;
use crate::in_style::read_in_style;
use crate::parts::document_value;
use crate::sizes::Sizes;
use crate::{Config, Limits};
use std::alloc::Global;
use yaml_data::Tree;
use yaml_events::{Events, ReadFault};

/// Reads a text that is one document, and returns its tree, within limits.
///
/// `bytes` are UTF-8 (YAML 1.2.2, 5.2), read by the failsafe schema (10.1) without aliases, anchors and tags. The
/// limits of depth and style are at most those of a [`Config`]. No tree deeper than the limit is built, and the call
/// stack doesn't grow with the text.
///
/// # Errors
///
/// Each fault of [`ReadFault`] is returned only if it holds and no earlier one does; [`ReadFault::OutOfMemory`] may
/// come at any point.
pub fn read_one(alloc: Global, bytes: &[u8], limits: &Limits) -> Result<Config, ReadFault>
    requires deep { limits.now.depth ≤ own_limits.depth }
    requires long { limits.now.style ≤ own_limits.style }
    ensures given { IfOk result (λ config.
        IsRead bytes.now (limits_of limits.now) (tree_of config)) }
    ensures too_long { (result ≡ Err ReadFault.TooLong) ↔ (limits.now.bytes < length bytes.now) }
    ensures refused { IfErr result (Refuses bytes.now (limits_of limits.now)) }
{
    match read_in_style(alloc, bytes, limits)? {
        Some(config) => Ok(config),
        None => read_by_events(alloc, bytes, limits),
    }
}

/// Reads a text in any form as [`read_one`] does, with the same faults.
fn read_by_events(alloc: Global, bytes: &[u8], limits: &Limits) -> Result<Config, ReadFault>
    requires deep { limits.now.depth ≤ own_limits.depth }
    requires long { limits.now.style ≤ own_limits.style }
    ensures given { IfOk result (λ config.
        IsRead bytes.now (limits_of limits.now) (tree_of config)) }
    ensures too_long { (result ≡ Err ReadFault.TooLong) ↔ (limits.now.bytes < length bytes.now) }
    ensures refused { IfErr result (Refuses bytes.now (limits_of limits.now)) }
{
    let Document {
        events,
        depth,
        sizes,
    } = Document::read(alloc, bytes, limits)?;
    if depth > limits.depth {
        return Err(deep_fault(alloc, events));
    }
    let (tree, keys_differ) = document_value::<Tree>(alloc, events, sizes)?;
    if !keys_differ {
        return Err(ReadFault::KeyTwice);
    }
    match Config::with_distinct_keys(tree, limits) {
        Ok(config) => Ok(config),
        Err(_) => Err(ReadFault::LargeInStyle),
    }
}

/// The fault of a document that is too deep: the first of `KeyNotText`, `KeyTwice` and `TooDeep` that holds; or memory
/// ran out.
fn deep_fault(alloc: Global, events: Events<'_>) -> ReadFault
    ensures { RefusesDeep (events_of events.entry) result }
{
    match document_value::<()>(alloc, events, Sizes::none(alloc)) {
        Ok((_, true)) => ReadFault::TooDeep,
        Ok((_, false)) => ReadFault::KeyTwice,
        Err(fault) => fault,
    }
}
