ghost use Rattle.std.specs.Prelude.{◌≡◌, ◌⊎◌, Err, IfOk, IfErr};
ghost use Rattle.redo_device.specs.Feed.{SomeStream};
ghost use Rattle.redo_command.specs.declared.failure.Failure.TheVariants.{Memory, NamesRead};
ghost use Rattle.redo_command.specs.NamesFile.{IsCompleteRead, CannotBeRead};

use crate::failure::Failure;
use redo_line::{Broken, Feed};
use std::alloc::Global;

/// The maximum number of bytes of a log, and of the file `names`.
pub const MAX_BYTES: u64 = 1_073_741_824;

// The size of the buffer for one read.
const READ_BYTES: usize = 64 * 1024;

/// Reads all bytes of the file `names`, at most 1,073,741,824. Fails with `NamesRead` if there are more
/// or if a read fails, even if it was only interrupted, and with `Memory` if an allocation fails.
pub fn read_names<R: Feed>(alloc: Global, reader: &mut R) -> Result<Vec<u8>, Failure>
    ensures bytes { IfOk result (λ bytes. SomeStream (R.contents reader.old) (IsCompleteRead bytes.items)) }
    ensures unreadable { result ≡ Err Failure.NamesRead → SomeStream (R.contents reader.old) CannotBeRead }
    ensures either { IfErr result (λ failure. (failure ≡ NamesRead) ⊎ (failure ≡ Memory)) }
{
    let mut buffer = vec![in alloc; 0u8; READ_BYTES]?;
    let buf = buffer.as_mut_slice();
    let mut bytes = Vec::new(alloc);
    'reads: loop {
        match reader.pull(buf) {
            Err(Broken) => return Err(Failure::NamesRead),
            Ok(0) => return Ok(bytes),
            Ok(n) => {
                if n as u64 > MAX_BYTES - bytes.len() as u64 {
                    return Err(Failure::NamesRead);
                }
                bytes.extend_from_slice(&buf[..n])?;
            }
        }
    }
}
