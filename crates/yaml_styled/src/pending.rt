// The parts of collections that are being read.
ghost use Rattle.std.specs.Prelude.{◌≡◌, ◌+◌, ◌≤◌, drop, take, length, IfOk, OnOk};

use std::alloc::AllocError;
use std::mem;
use yaml_data::{Text, Tree};

/// How many parts a collection has at least whose parts are not copied when it ends.
const MANY: usize = 4096;

/// Elements and members of the collections that are being read, those of an inner collection after those of the one
/// that holds it.
#[derive(Drop)]
pub(crate) struct Pending {
    /// The elements of sequences.
    pub(crate) elements: Vec<Tree>,
    /// The members of mappings.
    pub(crate) members: Vec<(Text, Tree)>,
}

/// Takes off the parts from a place on, with memory for no more than these. It fails only if memory runs out.
pub(crate) fn split_from<T: Drop>(parts: &mut Vec<T>, start: usize) -> Result<Vec<T>, AllocError>
    requires { start ≤ length parts.old.items }
    ensures own { IfOk result (λ own. own.items ≡ drop start parts.old.items) }
    ensures left { OnOk result (parts.new.items ≡ take start parts.old.items) }
{
    let count = parts.len() - start;
    if count < MANY || count < start {
        parts.split_off(start)
    } else {
        split_many(parts, start, count)
    }
}

/// The same for many parts. The ones before them are moved in their place.
#[inline(never)]
fn split_many<T: Drop>(parts: &mut Vec<T>, start: usize, count: usize) -> Result<Vec<T>, AllocError>
    requires { start + count ≡ length parts.old.items }
    ensures own { IfOk result (λ own. own.items ≡ drop start parts.old.items) }
    ensures left { OnOk result (parts.new.items ≡ take start parts.old.items) }
{
    parts.rotate_left(start);
    let before = parts.split_off(count)?;
    let mut own = mem::replace(parts, before);
    own.shrink_to_fit();
    Ok(own)
}
