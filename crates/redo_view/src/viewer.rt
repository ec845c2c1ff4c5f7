//! A `Viewer` borrows the numbered logs, the flags (`Visited`), the form and the writer. The flags are two vectors: which
//! names were named, and which logs were opened. They represent the lists of the definition (`MatchesFlags`), whose order
//! doesn't affect the shown events. They are plain vectors, because a type for them would have to know the names. If a
//! viewer owned its flags, its borrow of the writer would not end for the prover, and nothing would be known of the writer
//! afterwards.
//!
//! The viewer returns `ViewFault`, though never `Unknown`; `show_event` and `show_lines` convert the faults of a form.
//! `view_known` has one clause, `RenderedOrFailed`, from which the prover finds the clauses of `view_as`.
ghost use Rattle.std.specs.Prelude.{◌≡◌, ◌↔◌, ℕ, true, not, None, Some, Err, OnOk};
ghost use Rattle.std.specs.List.{list_all};
ghost use Rattle.redo_logs.specs.Logs.{has_ended, targets_of};
ghost use Rattle.redo_view.specs.declared.viewer.ViewFault.TheVariants.{Unknown, Write, OutOfMemory};
ghost use Rattle.redo_view.specs.Expansion.{is_among, shown_events, expansion};
ghost use Rattle.redo_view.specs.Form.{bytes_of, state_after};
ghost use Rattle.redo_view.specs.Private.Progress.{MatchesFlags, initial_state};
ghost use Rattle.redo_view.specs.Private.EntryEffect.{Fits};
ghost use Rattle.redo_view.specs.Private.Rendering.{RenderedOrFailed, rendering};
ghost use Rattle.redo_view.specs.Private.Viewing.{KeepsContext, ShowedTargetOrFailed, WroteEvents};
ghost use Rattle.redo_view.specs.View.{find_unknown, view_fault};
ghost use Rattle.redo_view.specs.Written.{WroteAll, WrotePrefix, WroteNothing, WroteUntilFailed};

use crate::entry::Visited;
use crate::event::{EventRef, Opening};
use crate::form::{Form, FormFault};
use crate::plain::PlainText;
use redo_line::{Broken, Sink, TargetName};
use redo_logs::{LogTable, Numbered};
use redo_options::Options;
use std::alloc::{AllocError, AllocFailed, Global};

/// Why the text wasn't written, or not completely.
#[derive(Clone, Copy, Debug, PartialEq, Eq)]
pub enum ViewFault {
    /// The requested target at this position has no log. Positions are counted from 0, and it is the lowest such
    /// position. Nothing was written.
    Unknown { place: usize },
    /// A write failed. A prefix of the text was written, possibly nothing.
    Write,
    /// An allocation failed. A prefix of the text was written, possibly nothing.
    OutOfMemory,
}

impl From<Broken> for ViewFault {
    ghost from_gives = { λ _ fault. fault ≡ Write };

    fn from(_: Broken) -> ViewFault {
        ViewFault::Write
    }
}

impl From<FormFault> for ViewFault {
    ghost from_gives = { λ form_fault fault. fault ≡ view_fault form_fault };

    fn from(fault: FormFault) -> ViewFault {
        match fault {
            FormFault::Write => ViewFault::Write,
            FormFault::OutOfMemory => ViewFault::OutOfMemory,
        }
    }
}

impl From<AllocError> for ViewFault {
    ghost from_gives = { λ _ fault. fault ≡ OutOfMemory };

    fn from(_: AllocError) -> ViewFault {
        ViewFault::OutOfMemory
    }
}

impl<T: Drop> From<AllocFailed<T>> for ViewFault {
    ghost from_gives = { λ _ fault. fault ≡ OutOfMemory };

    fn from(_: AllocFailed<T>) -> ViewFault {
        ViewFault::OutOfMemory
    }
}

/// The state of showing logs: the options, the visited flags, the form, and the writer that takes the text.
#[derive(Drop)]
pub struct Viewer<'a, 'f, F, W> {
    pub alloc: Global,
    pub logs: &'a Numbered<'a>,
    pub options: Options,
    pub visited: &'a mut Visited,
    pub form: &'f mut F,
    pub out: &'a mut W,
}

/// Writes the text of a table's logs for the requested targets. All logs must have ended. For each target the text
/// has its line and its log, unless the log was shown before. docs/viewing.md has the rules.
///
/// Whether each target has a log is checked before a byte is written and before memory is allocated. A write that
/// fails or takes no byte ends the call, and nothing is written after it. `out` isn't flushed. Nested logs take
/// memory, but no stack.
pub fn view<W: Sink>(
    alloc: Global,
    table: &LogTable,
    options: &Options,
    requested: &[TargetName],
    out: &mut W,
) -> Result<(), ViewFault>
    requires { list_all has_ended table.now ≡ true }

    // The whole text was written, and nothing else.
    ensures ok { OnOk result (WroteAll (W.written out.old) (W.written out.new) (expansion table.now options.now requested.now)) }
    ensures all_found { OnOk result (find_unknown table.now requested.now ≡ None) }

    // A target is unknown exactly if it has no log, and then nothing was written.
    ensures unknown { (place : ℕ) → (result ≡ Err (Unknown place)) ↔ (find_unknown table.now requested.now ≡ Some place) }
    ensures nothing_written { (place : ℕ) → result ≡ Err (Unknown place) → WroteNothing (W.written out.old) (W.written out.new) }

    // The writer failed, once, after a prefix of the text.
    ensures write { result ≡ Err Write →
        WroteUntilFailed (W.written out.old) (W.written out.new) (expansion table.now options.now requested.now) }

    // An allocation failed: a prefix of the text was written, and the writer didn't fail.
    ensures memory { result ≡ Err OutOfMemory →
        WrotePrefix (W.written out.old) (W.written out.new) (expansion table.now options.now requested.now) }
{
    let mut form = PlainText { options: *options };
    view_as(alloc, table, options, &mut form, requested, out)
}

/// Writes the events that [`view`] shows, in any form. `options` determine the events, and the form determines the
/// bytes.
///
/// The form is passed each event, in order. If a target has no log, it is passed none. After any other fault, nothing
/// is known of its state. The rest is as for `view`.
pub fn view_as<F: Form, W: Sink>(
    alloc: Global,
    table: &LogTable,
    options: &Options,
    form: &mut F,
    requested: &[TargetName],
    out: &mut W,
) -> Result<(), ViewFault>
    requires { list_all has_ended table.now ≡ true }

    // The bytes of all events were written, and nothing else. The form has the state after them.
    ensures ok { OnOk result (WroteAll (W.written out.old) (W.written out.new)
        (bytes_of F.bytes F.after form.old (shown_events table.now options.now requested.now))) }
    ensures state { OnOk result (form.new ≡ state_after F.after form.old (shown_events table.now options.now requested.now)) }
    ensures all_found { OnOk result (find_unknown table.now requested.now ≡ None) }

    // A target is unknown exactly if it has no log, and then nothing was written, and the form is unchanged.
    ensures unknown { (place : ℕ) → (result ≡ Err (Unknown place)) ↔ (find_unknown table.now requested.now ≡ Some place) }
    ensures nothing_written { (place : ℕ) → result ≡ Err (Unknown place) → WroteNothing (W.written out.old) (W.written out.new) }
    ensures unchanged { (place : ℕ) → result ≡ Err (Unknown place) → form.new ≡ form.old }

    // The writer failed, once, after a prefix of these bytes.
    ensures write { result ≡ Err Write → WroteUntilFailed (W.written out.old) (W.written out.new)
        (bytes_of F.bytes F.after form.old (shown_events table.now options.now requested.now)) }

    // An allocation failed: a prefix of these bytes was written, and the writer didn't fail.
    ensures memory { result ≡ Err OutOfMemory → WrotePrefix (W.written out.old) (W.written out.new)
        (bytes_of F.bytes F.after form.old (shown_events table.now options.now requested.now)) }
{
    if let Some(place) = find_unknown(table, requested) {
        return Err(ViewFault::Unknown { place });
    }
    view_known(alloc, table, options, form, requested, out)
}

// Shows the requested targets as [`view_as`] does, if each of them has a log.
fn view_known<F: Form, W: Sink>(
    alloc: Global,
    table: &LogTable,
    options: &Options,
    form: &mut F,
    requested: &[TargetName],
    out: &mut W,
) -> Result<(), ViewFault>
    requires { find_unknown table.now requested.now ≡ None }
    ensures { RenderedOrFailed F.bytes F.after (rendering (W.written out.old) form.old) (rendering (W.written out.new) form.new)
        (shown_events table.now options.now requested.now) result }
{
    let logs = table.numbered();
    let mut visited = Visited::new(alloc, &logs)?;
    let mut viewer = Viewer {
        alloc,
        logs: &logs,
        options: *options,
        visited: &mut visited,
        form,
        out,
    };
    viewer.show_targets(requested)
}

// Returns the lowest position of a target that has no log.
fn find_unknown(table: &LogTable, requested: &[TargetName]) -> Option<usize>
    ensures { result ≡ find_unknown table.now requested.now }
{
    requested.iter().position(
        |name: &TargetName| -> bool
            ensures { result ≡ not (is_among name.now (targets_of table.entry.now)) }
        { table.find(name).is_none() },
    )
}

impl<F: Form, W: Sink> Viewer<'_, '_, F, W> {
    // Shows the requested targets. Each of them must have a log. Nothing may have been shown before.
    fn show_targets(&mut self, requested: &[TargetName]) -> Result<(), ViewFault>
        requires known { find_unknown self.old.logs.now.logs requested.now ≡ None }
        requires fits { Fits self.old.logs.now self.old.visited.now }
        requires initial { MatchesFlags self.old.logs.now self.old.visited.now initial_state }
        ensures context { KeepsContext self.old self.new }
        ensures events { WroteEvents F.bytes F.after W.written self.old self.new
            (shown_events self.old.logs.now.logs self.old.options requested.now) result }
    {
        for name in requested {
            self.show_target(name)?;
        }
        Ok(())
    }

    // Shows the line and the log of a target, unless its log was opened before.
    fn show_target(&mut self, name: &TargetName) -> Result<(), ViewFault>
        requires known { is_among name.now (targets_of self.old.logs.now.logs) ≡ true }
        requires fits { Fits self.old.logs.now self.old.visited.now }
        ensures { ShowedTargetOrFailed F.bytes F.after W.written name.now self.old self.new result }
    {
        let Some(number) = self.logs.find(name) else {
            unreachable!()
        };
        if self.visited.opened[number as usize] {
            return Ok(());
        }
        let opening = Opening::OpensHere(number);
        self.show_event(EventRef::Requested { name, opening })?;
        self.show_log(number)
    }
}
