// Adding bytes to a new file by writes that may be short.
ghost use Rattle.std.specs.Prelude.{length, MatchResult, IsSome, ℕ};
ghost use Rattle.file_calls.specs.Models.{Wrote};

use file_calls::FileCalls;
use std::io;
use std::io::ErrorKind;

/// Adds all the bytes to the new file.
pub(crate) fn write_all<C: FileCalls>(calls: &mut C, bytes: &[u8]) -> io::Result<()>
    requires { C.model.honest → IsSome (C.model.machine calls.old).new }
    ensures { C.model.honest → MatchResult result
        (λ _. Wrote C.model bytes.now (length bytes.now) calls.old calls.new)
        (λ _. (count : ℕ) × Wrote C.model bytes.now count calls.old calls.new) }
{
    let mut done = 0;
    while done < bytes.len() {
        let count = match calls.write(&bytes[done..]) {
            Ok(count) => count,
            Err(error) => return Err(error),
        };
        if count == 0 || count > bytes.len() - done {
            return Err(nothing_written());
        }
        done += count;
    }
    Ok(())
}

/// Why a write fails of which nothing more is written.
fn nothing_written() -> io::Error {
    io::Error::new(ErrorKind::WriteZero, "failed to write whole buffer")
}
