//! The diagnostics of a log.
ghost use Rattle.std.specs.Prelude.{◌≡◌, ◌∷◌, ◌++◌, ℕ, List, [], length, is_some, IfOk, OnOk};
ghost use Rattle.redo_diagnostics.specs.Diagnostic.{parts_of};
ghost use Rattle.redo_compare.specs.Occurrences.{IsFoundIn, occurrence_if};
ghost use Rattle.redo_compare.specs.Private.Finding.{with_last_source, with_source_if};
ghost use Rattle.redo_compare.specs.Source as spec;

use crate::source::source_of;
use redo_diagnostics::{Severity, read_diagnostic};
use std::alloc::{AllocError, Global};
use std::marker::Model;

/// A diagnostic in a log.
#[derive(Drop)]
pub struct Occurrence {
    line: usize,
    severity: Severity,
    key: Vec<u8>,
    source: Vec<u8>,
}

impl Model for Occurrence {
    ghost use Rattle.redo_compare.specs.Occurrences.{OccurrenceValue};

    ghost Value = { OccurrenceValue };

    ghost view = { λ one. record { line = one.line; severity = one.severity; key = one.key.items; source = one.source.items } };
}

impl Occurrence {
    /// Returns the position of the line among the text lines of the log.
    pub fn line(&self) -> usize
        ensures { result ≡ self.now.line }
    {
        self.line
    }

    /// Returns the severity.
    pub fn severity(&self) -> Severity
        ensures { result ≡ self.now.severity }
    {
        self.severity
    }

    /// Returns the key of the diagnostic.
    pub fn key(&self) -> &[u8]
        ensures { result.now ≡ self.now.key }
    {
        &self.key
    }

    /// Returns the source line, without the spaces at its ends. It is empty if the next line of the log shows none.
    pub fn source(&self) -> &[u8]
        ensures { result.now ≡ self.now.source }
    {
        &self.source
    }
}

/// The diagnostics of a log, whose lines are added one by one. They store keys and source lines, and nothing of other lines.
#[derive(Drop)]
pub struct LogDiagnostics {
    occurrences: Vec<Occurrence>,
    // Whether the last line is a diagnostic, so that the next one may show its source line.
    is_last: bool,
}

impl Model for LogDiagnostics {
    ghost use Rattle.redo_compare.specs.Occurrences.{FoundValue};

    ghost Value = { FoundValue };

    ghost view = { λ found. record { occurrences = found.occurrences.items; is_last = found.is_last } };
}

impl LogDiagnostics {
    /// Creates the diagnostics of a log without lines. It does not allocate.
    pub fn new(alloc: Global) -> LogDiagnostics
        ensures { IsFoundIn [] result }
    {
        LogDiagnostics {
            occurrences: Vec::new(alloc),
            is_last: false,
        }
    }

    /// Returns the diagnostics of the lines so far, in order.
    pub fn occurrences(&self) -> &[Occurrence]
        ensures { result.now ≡ self.now.occurrences }
    {
        self.occurrences.as_slice()
    }

    /// Returns whether the last line so far is a diagnostic. Then the next one may show its source line.
    pub(crate) fn is_last(&self) -> bool
        ensures { result ≡ self.now.is_last }
    {
        self.is_last
    }

    /// Adds the next text line of the log, without its line feed. `position` is the number of lines before it. The only error is that
    /// an allocation failed. Then the diagnostics are unspecified.
    pub fn add(&mut self, alloc: Global, position: usize, line: &[u8]) -> Result<(), AllocError>
        ensures { (lines : List (List ℕ)) → position ≡ length lines → IsFoundIn lines self.old
            → OnOk result (IsFoundIn (lines ++ line.now ∷ []) self.new) }
    {
        set_source_if(alloc, &mut self.occurrences, self.is_last, line)?;
        self.is_last = push_if_diagnostic(alloc, &mut self.occurrences, position, line)?;
        Ok(())
    }
}

// If the last line is a diagnostic, sets its source line to the one that the next line shows.
fn set_source_if(
    alloc: Global,
    occurrences: &mut Vec<Occurrence>,
    is_last: bool,
    line: &[u8],
) -> Result<(), AllocError>
    ensures { OnOk result (occurrences.new.items ≡ with_source_if is_last (spec.source_of line.now) occurrences.old.items) }
{
    if is_last {
        set_last_source(alloc, occurrences, line)?;
    }
    Ok(())
}

// Sets the source line of the last occurrence to the one that a line shows.
fn set_last_source(
    alloc: Global,
    occurrences: &mut Vec<Occurrence>,
    line: &[u8],
) -> Result<(), AllocError>
    ensures { OnOk result (occurrences.new.items ≡ with_last_source (spec.source_of line.now) occurrences.old.items) }
{
    if let Some(mut last) = occurrences.pop() {
        last.source = source_of(alloc, line)?;
        occurrences.push(last)?;
    }
    Ok(())
}

// Appends the diagnostic of a line without a source line, if the line is one. Returns whether it is.
fn push_if_diagnostic(
    alloc: Global,
    occurrences: &mut Vec<Occurrence>,
    position: usize,
    line: &[u8],
) -> Result<bool, AllocError>
    ensures occurrences { OnOk result (occurrences.new.items
        ≡ occurrences.old.items ++ occurrence_if position (parts_of line.now) [] []) }
    ensures is { IfOk result (λ is. is ≡ is_some (parts_of line.now)) }
{
    let mut plain = Vec::new(alloc);
    let Some(diagnostic) = read_diagnostic(line, &mut plain)? else {
        return Ok(false);
    };
    let occurrence = Occurrence {
        line: position,
        severity: diagnostic.severity(),
        key: diagnostic.key(alloc)?.to_vec(alloc)?,
        source: Vec::new(alloc),
    };
    occurrences.push(occurrence)?;
    Ok(true)
}
