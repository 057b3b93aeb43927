// The paths that pointers mean.
ghost use Rattle.std.specs.Prelude.{◌≡◌, ◌⊎◌, IfErr, IfOk, Ok, Err, map};
ghost use Rattle.tree_hidden.specs.Pointers.{owned_paths, paths_or};
ghost use Rattle.tree_hidden.specs.Tokens.{paths_of};

use crate::paths::{Tokens, tokens_of};
use json_pointer::PathFault;
use std::alloc::{AllocError, Global};
use yaml_data::Text;

/// The paths that pointers mean (RFC 6901), in order.
///
/// # Errors
/// [`PathFault::BadPath`] of the first text that is no pointer, and [`PathFault::OutOfMemory`].
pub fn paths_of_pointers(alloc: Global, pointers: &[&str]) -> Result<Vec<Vec<Text>>, PathFault>
    ensures ok { IfOk result (λ paths.
        paths_or (map (λ pointer. pointer.now) pointers.now) ≡ Ok (owned_paths paths.items)) }
    ensures refused { IfErr result (λ fault. (fault ≡ PathFault.OutOfMemory)
        ⊎ (paths_or (map (λ pointer. pointer.now) pointers.now) ≡ Err fault)) }
{
    let mut paths = Vec::new(alloc);
    for (place, pointer) in pointers.iter().enumerate() {
        match tokens_of(alloc, pointer) {
            Ok(path) => paths.push(path)?,
            Err(fault) => return Err(fault),
        }
    }
    Ok(paths)
}

/// The tokens of each path, as [`write_shown`](crate::write_shown) takes them. It fails only if memory runs out.
pub fn tokens_of_paths<'h>(
    alloc: Global,
    paths: &'h [Vec<Text>],
) -> Result<Vec<Tokens<'h>>, AllocError>
    ensures { IfOk result (λ all. paths_of all.items ≡ owned_paths paths.now) }
{
    let mut all = Vec::new(alloc);
    for path in paths {
        all.push(path.as_slice())?;
    }
    Ok(all)
}
