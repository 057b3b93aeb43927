// Reading an input, up to a limit.
ghost use Rattle.std.specs.Prelude.{◌≡◌, ◌⊎◌, IfOk, IfErr};
ghost use Rattle.conf_tools.specs.Tools.{HasRead, ReadsAtMost};

use crate::texts::ToolFault;
use std::alloc::Global;
use std::io::{ErrorKind, Read};
use yaml_tree::ReadFault;

/// The most bytes that are read at once. A larger room for them would take a short input longer to zero than to read.
const CHUNK: usize = 16_384;

/// The bytes that the reader gives up to its end, or the first `most` of them. Whatever it returns, at most so many are
/// read. A read that was interrupted is tried again.
///
/// # Errors
///
/// - [`ToolFault::Input`] if a read fails.
/// - [`ToolFault::Read`] with `OutOfMemory` if there is no memory for the bytes.
pub fn read_up_to<R: Read>(alloc: Global, reader: &mut R, most: usize) -> Result<Vec<u8>, ToolFault>
    ensures ok { IfOk result (λ bytes.
        HasRead (R.remaining reader.old) (R.remaining reader.new) bytes.items most) }
    ensures faults { IfErr result (λ fault. (fault ≡ ToolFault.Input)
        ⊎ (fault ≡ ToolFault.Read ReadFault.OutOfMemory)) }
    ensures bounded { ReadsAtMost (R.remaining reader.old) (R.remaining reader.new) most }
{
    let mut bytes = Vec::new(alloc);
    let mut chunk = [0; CHUNK];
    for _ in 0..u64::MAX {
        let room = CHUNK.min(most - bytes.len());
        if room == 0 {
            return Ok(bytes);
        }
        match reader.read(&mut chunk[..room]) {
            Ok(0) => return Ok(bytes),
            Ok(count) => bytes.extend_from_slice(&chunk[..count])?,
            Err(error) if error.kind() == ErrorKind::Interrupted => {}
            Err(_) => return Err(ToolFault::Input),
        }
    }
    Err(ToolFault::Input)
}
