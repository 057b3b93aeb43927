// Writing a log.
ghost use Rattle.std.specs.Prelude.{◌≡◌, ◌<◌, ℕ, OnOk, OnErr, IfErr, length, take};
ghost use Rattle.conf_history.specs.Prelude.{Appends};

use crate::fault::HistoryFault;
use std::io::Write;
use yaml_docs::write_or_count;

/// Writes all the bytes, in as many writes as it takes. It does not flush.
///
/// # Errors
/// `Output` if a write fails, or takes nothing: only the first of the bytes are written.
pub(crate) fn put_bytes<W: Write>(writer: &mut W, bytes: &[u8]) -> Result<(), HistoryFault>
    ensures whole { OnOk result
        (Appends (W.contents writer.old) (W.contents writer.new) bytes.now) }
    ensures part { OnErr result ((kept : ℕ) × (kept < length bytes.now)
        × Appends (W.contents writer.old) (W.contents writer.new) (take kept bytes.now)) }
    ensures fault { IfErr result (λ fault. fault ≡ HistoryFault.Output) }
{
    match write_or_count(writer, bytes) {
        Ok(()) => Ok(()),
        Err(_) => Err(HistoryFault::Output),
    }
}
