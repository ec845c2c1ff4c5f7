//! Writes the texts of entries, part by part.
//!
//! Indents are written 4,096 spaces at once: the text of a million nested logs has 10^12 bytes, nearly all spaces.
ghost use Rattle.std.specs.Prelude.{◌≡◌, ◌<◌, ◌^◌, ◌++◌, [], Some, codes, decimal, if◌then◌else◌};
ghost use Rattle.redo_line.specs.Lines.{with_line_feed};
ghost use Rattle.redo_device.specs.Sink.{Writes};
ghost use Rattle.redo_logs.specs.EntryRef.{entry_value};
ghost use Rattle.redo_view.specs.EventRef.{IsDoneOrNote};
ghost use Rattle.redo_view.specs.Text.{spaces, pad_to_six, pid_column, indent, redo_line, mention_suffix, exit_text, note_text, entry_text};
ghost use Rattle.redo_view.specs.Private.EntryParts.{exit_suffix, check_text};

use itoa::Buffer;
use redo_line::{Broken, How, Sink, TargetName, push_all};
use redo_logs::EntryRef;
use redo_options::Options;

// The beginning of a redo line, up to a depth of 31.
const INDENT: &[u8] = b"redo                                                                ";

// Spaces are written in parts of at most this length.
const SPACES: &[u8] = &[b' '; 4096];

/// Writes the text of an entry that is neither a text line nor a mention.
pub fn write_entry<W: Sink>(
    options: &Options,
    depth: usize,
    entry: EntryRef<'_>,
    out: &mut W,
) -> Result<(), Broken>
    requires depth { depth < 2 ^ 60 }
    requires done_or_note { IsDoneOrNote (entry_value entry) }
    ensures { Writes (W.written out.old) (W.written out.new) (entry_text options.now depth (entry_value entry.entry)) result }
{
    match entry {
        EntryRef::Done { pid, status, name } => write_exit(options, depth, pid, status, name, out),
        EntryRef::Note { pid, kind, text } => write_note(options, depth, pid, kind, text, out),
        EntryRef::Closing { .. } => Ok(()),
        EntryRef::Text(_) | EntryRef::Mention { .. } => unreachable!(),
    }
}

/// Writes text lines, each with its line feed, if details are shown.
pub fn write_lines<W: Sink>(options: &Options, lines: &[u8], out: &mut W) -> Result<(), Broken>
    ensures { Writes (W.written out.old) (W.written out.new) (if options.now.details then lines.now else []) result }
{
    if options.details {
        push_all(out, lines)
    } else {
        Ok(())
    }
}

/// Writes a mention's line as `debug_locks` shows it: the name and its suffix.
pub fn write_mention<W: Sink>(
    options: &Options,
    depth: usize,
    pid: u32,
    how: How,
    name: &TargetName,
    out: &mut W,
) -> Result<(), Broken>
    requires { depth < 2 ^ 60 }
    ensures { Writes (W.written out.old) (W.written out.new) (redo_line options.now depth (Some pid) (name.now ++ mention_suffix how))
        result }
{
    begin_redo_line(options, depth, pid, name.bytes(), out)?;
    push_all(out, ended_mention_suffix(how))
}

/// Writes the redo line of a target: for a record with this pid, or without a pid for a requested target.
pub fn write_target<W: Sink>(
    options: &Options,
    depth: usize,
    pid: Option<u32>,
    name: &TargetName,
    out: &mut W,
) -> Result<(), Broken>
    requires { depth < 2 ^ 60 }
    ensures { Writes (W.written out.old) (W.written out.new) (redo_line options.now depth pid name.now) result }
{
    write_redo_prefix(options, depth, pid, out)?;
    end_line(name.bytes(), out)
}

// Returns the text after the name in a mention's redo line, including the line feed.
fn ended_mention_suffix(how: How) -> &'static [u8]
    ensures { result.now ≡ with_line_feed (mention_suffix how) }
{
    match how {
        How::Made => b"\n",
        How::Waiting => b" (WAITING)\n",
        How::Locked => b" (locked...)\n",
        How::Unlocked => b" (...unlocked!)\n",
        How::Unchanged => b" (unchanged)\n",
    }
}

fn write_exit<W: Sink>(
    options: &Options,
    depth: usize,
    pid: u32,
    status: i32,
    name: &TargetName,
    out: &mut W,
) -> Result<(), Broken>
    requires { depth < 2 ^ 60 }
    ensures { Writes (W.written out.old) (W.written out.new) (exit_text options.now depth pid status name.now) result }
{
    if status == 0 {
        return Ok(());
    }
    begin_redo_line(options, depth, pid, name.bytes(), out)?;
    write_exit_suffix(status, out)
}

// Writes the end of a failed target's line.
fn write_exit_suffix<W: Sink>(status: i32, out: &mut W) -> Result<(), Broken>
    ensures { Writes (W.written out.old) (W.written out.new) (with_line_feed (exit_suffix status)) result }
{
    let mut buffer = Buffer::new();
    push_all(out, b" (exit ")?;
    push_all(out, buffer.format(status).as_bytes())?;
    push_all(out, b")\n")
}

fn write_note<W: Sink>(
    options: &Options,
    depth: usize,
    pid: u32,
    kind: &[u8],
    text: &[u8],
    out: &mut W,
) -> Result<(), Broken>
    requires { depth < 2 ^ 60 }
    ensures { Writes (W.written out.old) (W.written out.new) (note_text options.now depth pid kind.now text.now) result }
{
    if kind == b"check".as_slice() {
        write_check(options, depth, pid, text, out)
    } else {
        write_other_note(text, out)
    }
}

fn write_other_note<W: Sink>(text: &[u8], out: &mut W) -> Result<(), Broken>
    ensures { Writes (W.written out.old) (W.written out.new) (codes "redo: " ++ with_line_feed text.now) result }
{
    push_all(out, b"redo: ")?;
    end_line(text, out)
}

fn write_check<W: Sink>(
    options: &Options,
    depth: usize,
    pid: u32,
    text: &[u8],
    out: &mut W,
) -> Result<(), Broken>
    requires { depth < 2 ^ 60 }
    ensures { Writes (W.written out.old) (W.written out.new) (check_text options.now depth pid text.now) result }
{
    begin_redo_line(options, depth, pid, b"(", out)?;
    push_all(out, text)?;
    push_all(out, b")\n")
}

// Writes the beginning of a redo line for a record with this pid, and the beginning of its text.
fn begin_redo_line<W: Sink>(
    options: &Options,
    depth: usize,
    pid: u32,
    text: &[u8],
    out: &mut W,
) -> Result<(), Broken>
    requires { depth < 2 ^ 60 }
    ensures { Writes (W.written out.old) (W.written out.new) (pid_column options.now (Some pid) ++ indent depth ++ text.now) result }
{
    write_redo_prefix(options, depth, Some(pid), out)?;
    push_all(out, text)
}

// Writes the rest of a line, and a line feed.
fn end_line<W: Sink>(text: &[u8], out: &mut W) -> Result<(), Broken>
    ensures { Writes (W.written out.old) (W.written out.new) (with_line_feed text.now) result }
{
    push_all(out, text)?;
    push_all(out, b"\n")
}

// Writes the beginning of a redo line, before its text.
fn write_redo_prefix<W: Sink>(
    options: &Options,
    depth: usize,
    pid: Option<u32>,
    out: &mut W,
) -> Result<(), Broken>
    requires { depth < 2 ^ 60 }
    ensures { Writes (W.written out.old) (W.written out.new) (pid_column options.now pid ++ indent depth) result }
{
    write_pid(options, pid, out)?;
    write_indent(depth, out)
}

fn write_pid<W: Sink>(options: &Options, pid: Option<u32>, out: &mut W) -> Result<(), Broken>
    ensures { Writes (W.written out.old) (W.written out.new) (pid_column options.now pid) result }
{
    if !options.debug_pids {
        return Ok(());
    }
    match pid {
        Some(pid) => write_number(pid, out),
        None => write_column(b"-", out),
    }
}

fn write_number<W: Sink>(pid: u32, out: &mut W) -> Result<(), Broken>
    ensures { Writes (W.written out.old) (W.written out.new) (pad_to_six (decimal pid) ++ spaces 1) result }
{
    let mut buffer = Buffer::new();
    write_column(buffer.format(pid).as_bytes(), out)
}

// Writes a text, padded with spaces to six bytes if it is shorter, and then one space.
fn write_column<W: Sink>(text: &[u8], out: &mut W) -> Result<(), Broken>
    ensures { Writes (W.written out.old) (W.written out.new) (pad_to_six text.now ++ spaces 1) result }
{
    push_all(out, text)?;
    write_spaces(7 - text.len().min(6), out)
}

fn write_indent<W: Sink>(depth: usize, out: &mut W) -> Result<(), Broken>
    requires { depth < 2 ^ 60 }
    ensures { Writes (W.written out.old) (W.written out.new) (indent depth) result }
{
    let count = 2 + 2 * depth;
    let some = count.min(64);
    push_all(out, &INDENT[..4 + some])?;
    write_spaces(count - some, out)
}

fn write_spaces<W: Sink>(count: usize, out: &mut W) -> Result<(), Broken>
    ensures { Writes (W.written out.old) (W.written out.new) (spaces count) result }
{
    let mut left = count;
    while left > 0 {
        let some = left.min(SPACES.len());
        push_all(out, &SPACES[..some])?;
        left -= some;
    }
    Ok(())
}
