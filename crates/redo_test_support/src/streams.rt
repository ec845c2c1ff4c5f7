use crate::reads::{Cut, cut_into_reads};
use crate::targets::entered;
use redo_line::{Pieces, TargetName};
use redo_logs::LogTable;
use std::alloc::{AllocError, Global};
use std::test::Fail;

/// A target, the bytes of its stream, and whether a failed read ends them.
pub type Given<'a> = (&'a str, &'a str, bool);

/// Returns these targets, with streams that no failed read ends.
pub fn whole<'a>(
    alloc: Global,
    given: &[(&'a str, &'a str)],
) -> Result<Vec<Given<'a>>, AllocError> {
    let mut whole = Vec::new(alloc);
    for (name, stream) in given {
        whole.push((*name, *stream, false))?;
    }
    Ok(whole)
}

/// Returns the cuts to try: at each position of the longest stream, and into reads of several sizes.
pub fn cuts(alloc: Global, given: &[Given<'_>]) -> Result<Vec<Cut>, AllocError> {
    let longest = given.iter().map(|given| given.1.len()).max().unwrap_or(0);
    let mut cuts = Vec::new(alloc);
    for at in 0..longest + 1 {
        cuts.push(Cut::At(at))?;
    }
    for size in [1, 2, 3, 1000] {
        cuts.push(Cut::InReadsOf(size))?;
    }
    Ok(cuts)
}

/// Returns a table with an empty log for each target, and a reader for each target.
pub fn captured(
    alloc: Global,
    given: &[Given<'_>],
    cut: Cut,
) -> Result<(LogTable, Vec<Pieces>), Fail> {
    let mut names = Vec::new(alloc);
    let mut readers = Vec::new(alloc);
    for (name, stream, fails) in given {
        names.push(TargetName::resolve(alloc, None, name.as_bytes())?)?;
        readers.push(reader(alloc, stream, *fails, cut)?)?;
    }
    Ok((entered(alloc, names)?, readers))
}

/// Returns a reader that gives the stream cut in this way.
pub fn reader(alloc: Global, stream: &str, fails: bool, cut: Cut) -> Result<Pieces, AllocError> {
    let reads = cut_into_reads(alloc, stream.as_bytes(), cut)?;
    Ok(Pieces::new(reads, fails))
}
