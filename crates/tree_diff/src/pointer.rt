// The pointer to the place of a walk.
ghost use Rattle.std.specs.Prelude.{◌≡◌, ◌++◌, ◌∷◌, IfOk, OnOk, string_bytes};
ghost use Rattle.tree_diff.specs.Prelude.{chars, pointer_text, token_text, char_text, slash};
ghost use Rattle.tree_diff.specs.{Differences.index_token, Walks.path_of_levels, Walks.token_of};

use crate::level::{Level, Step};
use itoa::Buffer;
use std::alloc::{AllocError, Global};

/// The pointer (RFC 6901, 3) to the values that the last of these levels compares now.
pub(crate) fn pointer_to(alloc: Global, levels: &[Level<'_, '_>]) -> Result<String, AllocError>
    ensures { IfOk result (λ pointer. chars (string_bytes pointer)
        ≡ pointer_text (path_of_levels levels.now)) }
{
    let mut pointer = String::new(alloc);
    for level in levels {
        push_step(&mut pointer, level.step)?;
    }
    Ok(pointer)
}

/// Appends a step to a pointer.
fn push_step(pointer: &mut String, step: Step<'_>) -> Result<(), AllocError>
    ensures { OnOk result (chars (string_bytes pointer.new)
        ≡ chars (string_bytes pointer.old) ++ slash ∷ token_text (token_of step.entry)) }
{
    pointer.push('/')?;
    match step {
        Step::Key(key) => push_token(pointer, key),
        Step::Index(index) => push_index(pointer, index),
        Step::End => push_token(pointer, "-"),
    }
}

/// Appends an index to a pointer.
fn push_index(pointer: &mut String, index: usize) -> Result<(), AllocError>
    ensures { OnOk result (chars (string_bytes pointer.new)
        ≡ chars (string_bytes pointer.old) ++ token_text (index_token index)) }
{
    let mut digits = Buffer::new();
    push_token(pointer, digits.format(index))
}

/// Appends a token to a pointer, in which `~0` stands for `~` and `~1` for `/` (RFC 6901, 3).
fn push_token(pointer: &mut String, token: &str) -> Result<(), AllocError>
    ensures { OnOk result (chars (string_bytes pointer.new)
        ≡ chars (string_bytes pointer.old) ++ token_text (chars token.now)) }
{
    for c in token.chars() {
        push_char(pointer, c)?;
    }
    Ok(())
}

/// Appends a character of a token to a pointer.
fn push_char(pointer: &mut String, c: char) -> Result<(), AllocError>
    ensures { OnOk result (chars (string_bytes pointer.new)
        ≡ chars (string_bytes pointer.old) ++ char_text c) }
{
    match c {
        '~' => pointer.push_str("~0"),
        '/' => pointer.push_str("~1"),
        _ => pointer.push(c),
    }
}
