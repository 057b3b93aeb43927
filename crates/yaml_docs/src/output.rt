// Writing bytes, part by part.
ghost use Rattle.std.specs.Prelude.{◌<◌, OnOk, IfErr, length, take};
ghost use Rattle.yaml_docs.specs.Prelude.{Appends};

use std::io::Write;

/// Writes all the bytes, in as many writes as it takes. It does not flush.
///
/// # Errors
/// If a write fails, or takes nothing: the number of bytes that were written before. These are the first ones.
pub fn write_or_count<W: Write>(writer: &mut W, bytes: &[u8]) -> Result<(), usize>
    ensures whole { OnOk result
        (Appends (W.contents writer.old) (W.contents writer.new) bytes.now) }
    ensures cut { IfErr result (λ count. count < length bytes.now) }
    ensures prefix { IfErr result (λ count.
        Appends (W.contents writer.old) (W.contents writer.new) (take count bytes.now)) }
{
    let mut done = 0;
    'parts: while done < bytes.len() {
        match writer.write(&bytes[done..]) {
            Ok(0) => return Err(done),
            Ok(count) => done += count,
            Err(_) => return Err(done),
        }
    }
    Ok(())
}
