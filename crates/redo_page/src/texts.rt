//! Writes text lines in blocks. Lines that are stored together are written together, up to the end of a block. No text of a log is copied.
ghost use Rattle.std.specs.Prelude.{◌≡◌, ◌<◌, ◌≤◌, [], length, take, OnOk, IfSome, MatchOption};
ghost use Rattle.std.specs.List.{flat_map};
ghost use Rattle.redo_device.specs.Sink.{Writes};
ghost use Rattle.redo_html.specs.Parts.{part_html};
ghost use Rattle.redo_line.specs.Lines.{ended, rest};
ghost use Rattle.redo_page.specs.Private.Streaming.{block_for, fits, line_start};
ghost use Rattle.redo_page.specs.Private.Texts.{AreChunk, BeginsChunk, IsFirstLine, after_lines, lines_parts};

use crate::block::{Block, Pending};
use memchr::memchr;
use redo_device::{Broken, Sink};
use redo_html::{Markup, Piece, Style, write_log_lines, write_pieces};

const MAX_BLOCK_LINES: usize = 500;

const MAX_BLOCK_BYTES: usize = 65536;

const NEW_BLOCK: Block = Block {
    lines: 0,
    bytes: 0,
    style: Style::PLAIN,
};

/// Lines that go into one block.
#[derive(Clone, Copy)]
pub struct Chunk {
    /// The size of the first line.
    pub first: usize,
    /// The number of bytes of all lines.
    pub len: usize,
    /// The number of lines.
    pub count: usize,
}

// Returns whether a line of this size fits into a block.
fn fits(block: Block, size: usize) -> bool
    ensures { result ≡ fits block size }
{
    block.lines < MAX_BLOCK_LINES
        && (block.bytes <= MAX_BLOCK_BYTES && size <= MAX_BLOCK_BYTES - block.bytes)
}

// Returns the block that a line of this size is added to.
fn block_for(pending: Pending, size: usize) -> Block
    ensures { result ≡ block_for pending size }
{
    match pending {
        Pending::Text(block) => { if fits(block, size) { block } else { NEW_BLOCK } }
        _ => NEW_BLOCK,
    }
}

// Writes the parts before a line of this size.
fn write_line_start<W: Sink>(pending: Pending, size: usize, out: &mut W) -> Result<(), Broken>
    ensures { Writes (W.written out.old) (W.written out.new) (flat_map part_html (line_start pending size)) result }
{
    match pending {
        Pending::Nothing => write_pieces(
            &[Piece::Markup(Markup::Item), Piece::Markup(Markup::Pre)],
            out,
        ),
        Pending::Group(_) => write_pieces(
            &[
                Piece::Markup(Markup::EndUnordered),
                Piece::Markup(Markup::EndDetails),
                Piece::Markup(Markup::EndItem),
                Piece::Markup(Markup::Item),
                Piece::Markup(Markup::Pre),
            ],
            out,
        ),
        Pending::Text(block) => {
            if fits(block, size) {
                return Ok(());
            }
            write_pieces(
                &[Piece::Markup(Markup::EndPre), Piece::Markup(Markup::Pre)],
                out,
            )
        }
    }
}

// Returns the size of the first line.
fn first_line(lines: &[u8]) -> usize
    requires some { 0 < length lines.now }
    requires complete { rest lines.now ≡ [] }
    ensures { IsFirstLine lines.now result }
{
    match memchr(b'\n', lines) {
        Some(at) => at + 1,
        None => lines.len(),
    }
}

// Returns the lines at the start that go into one block.
fn next_chunk(pending: Pending, lines: &[u8]) -> Chunk
    requires some { 0 < length lines.now }
    requires complete { rest lines.now ≡ [] }
    ensures { BeginsChunk pending lines.now result }
{
    let first = first_line(lines);
    let block = block_for(pending, first);
    let mut len = first;
    let mut count = 1;
    'lines: while len < lines.len() && count < MAX_BLOCK_LINES.saturating_sub(block.lines) {
        let size = first_line(&lines[len..]);
        if size
            > MAX_BLOCK_BYTES
                .saturating_sub(block.bytes)
                .saturating_sub(len)
        {
            break;
        }
        len += size;
        count += 1;
    }
    Chunk { first, len, count }
}

// Writes lines that go into one block.
fn write_chunk<W: Sink>(
    pending: &mut Pending,
    first: usize,
    count: usize,
    lines: &[u8],
    out: &mut W,
) -> Result<(), Broken>
    requires { AreChunk (block_for pending.old first) first lines.now count }
    ensures written { Writes (W.written out.old) (W.written out.new)
        (flat_map part_html (lines_parts pending.old (ended lines.now))) result }
    ensures state { OnOk result (pending.new ≡ after_lines pending.old (ended lines.now)) }
{
    let block = block_for(*pending, first);
    let mut style = block.style;
    write_line_start(*pending, first, out)?;
    write_log_lines(&mut style, lines, out)?;
    *pending = Pending::Text(Block {
        lines: block.lines + count,
        bytes: block.bytes + lines.len(),
        style,
    });
    Ok(())
}

/// Writes text lines, which are passed with their line feeds.
pub fn write_lines<W: Sink>(pending: &mut Pending, lines: &[u8], out: &mut W) -> Result<(), Broken>
    requires { rest lines.now ≡ [] }
    ensures written { Writes (W.written out.old) (W.written out.new)
        (flat_map part_html (lines_parts pending.old (ended lines.now))) result }
    ensures state { OnOk result (pending.new ≡ after_lines pending.old (ended lines.now)) }
{
    let mut done = 0;
    'chunks: while done < lines.len() {
        let left = &lines[done..];
        let chunk = next_chunk(*pending, left);
        write_chunk(pending, chunk.first, chunk.count, &left[..chunk.len], out)?;
        done += chunk.len;
    }
    Ok(())
}
