//! Reads the file `facts`.
//!
//! A failed read counts as an empty file: in a file that was cut off somewhere, an earlier log's facts might remain. The file
//! is stored whole before its lines are read, because only its end shows whether anything is known. Texts are copied, because
//! the parts of a command may be in lines that are far apart.
ghost use Rattle.std.specs.Prelude.{◌≡◌, [], IfNone, IfOk, IfSome};
ghost use Rattle.redo_device.specs.Feed.{SomeStream};
ghost use Rattle.redo_facts.specs.Reading.{bytes_that_count, facts_of_stream};

use crate::facts::Facts;
use crate::lines::facts_of_bytes;
use redo_device::{Broken, Feed};
use redo_index::Index;
use std::alloc::{AllocError, Global};

// The size of the buffer for one read.
const READ_BYTES: usize = 64 * 1024;

/// Reads the stream of a file of facts, and returns the facts of each target, in the order of the index.
///
/// Nothing is known of any target if a read fails or if the stream has more than `max_bytes` bytes. A missing file is an empty stream,
/// which states nothing either. A line that is not of a known form, and an unended one, states nothing and changes nothing. The only
/// error is that an allocation failed.
///
/// It stores the whole file, and the facts of each target. For n bytes and m targets, this takes O(n + m) time.
pub fn read_facts<R: Feed>(
    alloc: Global,
    index: &Index,
    reader: &mut R,
    max_bytes: u64,
) -> Result<Vec<Facts>, AllocError>
    // These are the facts of the stream that the reader gives; for an opaque reader, of some stream.
    ensures { IfOk result (λ facts. SomeStream (R.contents reader.old) (λ stream.
        facts.items ≡ facts_of_stream max_bytes index.now stream)) }
{
    let read = read_bytes(alloc, reader, max_bytes)?;
    match read {
        Some(bytes) => facts_of_bytes(alloc, index, &bytes),
        None => facts_of_bytes(alloc, index, b""),
    }
}

// Returns all bytes of a stream, or nothing if a read fails or if there are too many.
fn read_bytes<R: Feed>(
    alloc: Global,
    reader: &mut R,
    max_bytes: u64,
) -> Result<Option<Vec<u8>>, AllocError>
    ensures some { IfOk result (λ read. IfSome read (λ bytes.
        SomeStream (R.contents reader.old) (λ stream. bytes.items ≡ bytes_that_count max_bytes stream))) }
    ensures none { IfOk result (λ read. IfNone read
        (SomeStream (R.contents reader.old) (λ stream. [] ≡ bytes_that_count max_bytes stream))) }
{
    let mut buffer = vec![in alloc; 0u8; READ_BYTES]?;
    let buf = buffer.as_mut_slice();
    let mut bytes = Vec::new(alloc);
    'reads: loop {
        match reader.pull(buf) {
            Err(Broken) => return Ok(None),
            Ok(0) => return Ok(Some(bytes)),
            Ok(n) => {
                if n as u64 > max_bytes - bytes.len() as u64 {
                    return Ok(None);
                }
                bytes.extend_from_slice(&buf[..n])?;
            }
        }
    }
}
