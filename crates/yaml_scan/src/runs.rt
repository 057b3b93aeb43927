// Runs of characters from a place on.
ghost use Rattle.std.specs.Prelude.{◌≡◌, ◌<◌, ◌≤◌, false, IfSome, IfNone, length, slice_index};
ghost use Rattle.yaml_scan.specs.Prelude.{IsCharBoundary, nb, space, white, rest, IsRun, first};
ghost use Rattle.yaml_scan.specs.Classes.{ArePassed};
ghost use Rattle.yaml_scan.specs.ScanPlaces.{AreSpaces, AreTaken, IsNb};

use crate::blocks::spaces_in_block;
use crate::classes::{is_line_byte, line_run_end};

/// Returns whether a byte is a space or a TAB (5.5, `s-white`).
pub fn is_white(byte: u8) -> bool
    ensures { result ≡ white byte }
{
    matches!(byte, b' ' | b'\t')
}

/// Returns the end of the whitespace at `at`, which is spaces and TABs (5.5, `s-white`).
pub fn white_end(text: &str, at: usize) -> usize
    requires { IsCharBoundary text.now at }
    ensures run { IsRun white text.now at result }
    ensures taken { AreTaken white text.now at result }
{
    let bytes = text.as_bytes();
    let mut end = at;
    while end < bytes.len() && is_white(bytes[end]) {
        end += 1;
    }
    end
}

fn is_space(byte: u8) -> bool
    ensures { result ≡ space byte }
{
    matches!(byte, b' ')
}

/// Returns the end of the spaces at `at` (6.1, `s-indent`).
pub fn spaces_end(text: &str, at: usize) -> usize
    requires { IsCharBoundary text.now at }
    ensures { AreSpaces text.now at result }
{
    let bytes = text.as_bytes();
    let mut end = at;
    'sixteens: while bytes.len() - end >= 16 {
        let count = spaces_in_block(bytes, end);
        end += count;
        if count < 16 {
            return end;
        }
    }
    last_spaces_end(bytes, end)
}

/// Returns the end of the spaces at `at`, byte by byte, as [`spaces_end`] does in blocks.
#[inline(never)]
fn last_spaces_end(bytes: &[u8], at: usize) -> usize
    requires { at ≤ length bytes.now }
    ensures passed { ArePassed space bytes.now at result }
    ensures stop { result < length bytes.now → space (slice_index bytes.now result) ≡ false }
{
    let mut end = at;
    while end < bytes.len() && is_space(bytes[end]) {
        end += 1;
    }
    end
}

/// Returns the end of the character at `at` if a line may hold it (5.4, `nb-char`), and None otherwise.
#[inline(always)]
pub fn nb_at(text: &str, at: usize) -> Option<usize>
    requires { IsCharBoundary text.now at }
    ensures found { IfSome result (IsNb text.now at) }
    ensures none { IfNone result (first nb (rest text.now at) ≡ false) }
{
    let bytes = text.as_bytes();
    if at == bytes.len() {
        return None;
    }
    if bytes[at] < 128 {
        return if is_line_byte(bytes[at]) {
            Some(at + 1)
        } else {
            None
        };
    }
    decoded_nb_at(text, at)
}

/// Returns the end of the `nb` character at `at`, whatever its bytes; `None` if there is none.
#[inline(never)]
fn decoded_nb_at(text: &str, at: usize) -> Option<usize>
    requires { IsCharBoundary text.now at }
    ensures found { IfSome result (IsNb text.now at) }
    ensures none { IfNone result (first nb (rest text.now at) ≡ false) }
{
    let Some((character, len)) = yaml_chars::next_char(text, at) else {
        return None;
    };
    if !yaml_chars::nb(character) {
        return None;
    }
    Some(at + len)
}

/// Returns the end of the characters at `at` that a line may hold (5.4, `nb-char`).
#[inline(never)]
pub fn nb_end(text: &str, at: usize) -> usize
    requires { IsCharBoundary text.now at }
    ensures { AreTaken nb text.now at result }
{
    let bytes = text.as_bytes();
    let mut end = line_run_end(text, at);
    'characters: while end < bytes.len() && bytes[end] >= 128 {
        let Some(next) = nb_at(text, end) else {
            return end;
        };
        end = line_run_end(text, next);
    }
    end
}
