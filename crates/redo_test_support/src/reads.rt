//! How the bytes of a stream are cut into reads.
use std::alloc::{AllocError, Global};

/// How the bytes of each stream are cut.
#[derive(Clone, Copy, Debug)]
pub enum Cut {
    /// Into two reads. The first one has this many bytes.
    At(usize),
    /// Into reads of this many bytes; the last one may be shorter. A size of 0 counts as 1.
    InReadsOf(usize),
}

/// Cuts the bytes into reads.
pub fn cut_into_reads(alloc: Global, bytes: &[u8], cut: Cut) -> Result<Vec<Vec<u8>>, AllocError> {
    match cut {
        Cut::At(at) => in_two_reads(alloc, bytes, at),
        Cut::InReadsOf(size) => in_reads_of(alloc, bytes, size),
    }
}

fn in_two_reads(alloc: Global, bytes: &[u8], at: usize) -> Result<Vec<Vec<u8>>, AllocError> {
    let (front, back) = bytes.split_at(at.min(bytes.len()));
    let mut reads = Vec::new(alloc);
    push_copy(alloc, &mut reads, front)?;
    push_copy(alloc, &mut reads, back)?;
    Ok(reads)
}

fn in_reads_of(alloc: Global, bytes: &[u8], size: usize) -> Result<Vec<Vec<u8>>, AllocError> {
    let mut reads = Vec::new(alloc);
    for read in bytes.chunks(size.max(1)) {
        push_copy(alloc, &mut reads, read)?;
    }
    Ok(reads)
}

fn push_copy(alloc: Global, reads: &mut Vec<Vec<u8>>, read: &[u8]) -> Result<(), AllocError> {
    reads.push(read.to_vec(alloc)?)?;
    Ok(())
}
