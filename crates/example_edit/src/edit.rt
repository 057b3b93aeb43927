// Reading, editing and writing one text.
ghost use Rattle.std.specs.Prelude.{IfOk, string_bytes};
ghost use Rattle.std.specs.Str.{chars};
ghost use Rattle.example_edit.specs.Editing.{IsEdited};

use std::alloc::{AllocError, Global};
use thiserror::Error;
use tree_path::{Path, PathFault, set};
use yaml_emit::style_text;
use yaml_tree::{Config, Limits, ReadFault, Text, Tree, read_one};

/// Why there is no edited text.
#[derive(Debug, Drop, Error)]
pub enum EditFault {
    /// The text gives no tree within the limits.
    #[error("the text is refused: {0}")]
    Text(ReadFault),
    /// The pointer is malformed or leads to no place.
    #[error("the pointer is refused: {0}")]
    Pointer(#[from] PathFault),
    /// The edited tree is over the limits of a configuration.
    #[error("the result is refused: {0}")]
    Result(ReadFault),
    /// Out of memory.
    #[error("out of memory")]
    OutOfMemory(#[from] AllocError),
}

/// Reads a YAML text within the limits of a configuration, puts a text at a pointer (RFC 6901) of its tree, and returns
/// the whole in the one style.
pub fn edited(alloc: Global, bytes: &[u8], pointer: &str, value: &str) -> Result<String, EditFault>
    ensures { IfOk result (λ text.
        IsEdited bytes.now (chars pointer.now) (chars value.now) (chars (string_bytes text))) }
{
    let config = match read_one(alloc, bytes, &Limits::CONFIGURATION) {
        Ok(config) => config,
        Err(fault) => return Err(EditFault::Text(fault)),
    };
    let mut tree = config.into_tree();
    let path = Path::parse(alloc, pointer)?;
    let value = Tree::Text(Text::new(alloc, value)?);
    if let Err((_, fault)) = set(alloc, &mut tree, &path, value) {
        return Err(EditFault::Pointer(fault));
    }
    match Config::new(alloc, tree) {
        Ok(config) => Ok(style_text(alloc, &config)?),
        Err((_, fault)) => Err(EditFault::Result(fault)),
    }
}
