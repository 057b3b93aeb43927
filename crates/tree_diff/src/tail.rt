// What is left of two sequences.
ghost use Rattle.std.specs.Prelude.{◌<◌, ◌+◌, ◌^◌, length};

use yaml_data::Tree;

/// The elements of two sequences from an index on.
#[derive(Clone, Copy)]
pub(crate) struct Tail<'f, 't> {
    pub(crate) first: &'f [Tree],
    pub(crate) second: &'t [Tree],
    pub(crate) index: usize,
    /// How many are compared before those are deleted that the second sequence lacks.
    pub(crate) ahead: usize,
    ghost fits: { index + length first.now < 2 ^ 64 },
}
