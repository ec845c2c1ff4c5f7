//! The place that a diagnostic is about.
ghost use Rattle.std.specs.Prelude.{◌≡◌, None, Some, IfNone, IfSome, option_and_then, option_map};
ghost use Rattle.redo_line.specs.Parts.{split_once};
ghost use Rattle.redo_line.specs.Record as record_bytes;
ghost use Rattle.redo_diagnostics.specs.Diagnostic as spec;
ghost use Rattle.redo_diagnostics.specs.Diagnostic.{place_from};
ghost use Rattle.redo_diagnostics.specs.Private.Words.{IsColonOf};

use redo_line::{read_number, split_at_first};
use std::marker::Model;

/// The place that a diagnostic is about. It borrows from the line without colours and links.
#[derive(Drop)]
pub struct Place<'a> {
    file: &'a [u8],
    row: u32,
    column: Option<u32>,
}

impl<'a> Model for Place<'a> {
    ghost use Rattle.redo_diagnostics.specs.Diagnostic.{PlaceValue};

    ghost Value = { PlaceValue };

    ghost view = { λ place. record { file = place.file.now; row = place.row; column = place.column } };
}

impl<'a> Place<'a> {
    /// Returns the name of the file, as written. It is not empty and has no colon.
    pub fn file(&self) -> &'a [u8]
        ensures { result.now ≡ self.now.file }
    {
        self.file
    }

    /// Returns the row, which is below 10^9.
    pub fn row(&self) -> u32
        ensures { result ≡ self.now.row }
    {
        self.row
    }

    /// Returns the column, if the line has one. It is below 10^9.
    pub fn column(&self) -> Option<u32>
        ensures { result ≡ self.now.column }
    {
        self.column
    }
}

/// Returns the file or program that the bytes before a word name. `colon` is the place of their first colon, or after them if they have
/// none.
pub fn origin_of(head: &[u8], colon: usize) -> &[u8]
    requires { IsColonOf head.now colon }
    ensures { result.now ≡ spec.origin_of head.now }
{
    if colon >= head.len() {
        b""
    } else {
        &head[..colon]
    }
}

/// Returns the place in the bytes before a word: `F:R: ` or `F:R:C: `.
pub fn place_of(head: &[u8], colon: usize) -> Option<Place<'_>>
    requires { IsColonOf head.now colon }
    ensures { result ≡ spec.place_of head.now }
{
    if colon >= head.len() {
        return None;
    }
    place_in(&head[..colon], &head[colon + 1..])
}

// Returns the place, from the bytes before and after the first colon.
fn place_in<'a>(file: &'a [u8], others: &[u8]) -> Option<Place<'a>>
    ensures { result ≡ place_from file.now (option_and_then (λ row. spec.row_and_column row) (split_once record_bytes.colon others.now)) }
{
    if file.is_empty() {
        return None;
    }
    let Some((row, others)) = split_at_first(b':', others) else {
        return None;
    };
    match row_and_column(row, others) {
        Some((row, column)) => Some(Place { file, row, column }),
        None => None,
    }
}

// Returns the row, and the column if there is one, from the bytes before and after the colon after the row.
fn row_and_column(row: &[u8], others: &[u8]) -> Option<(u32, Option<u32>)>
    ensures { result ≡ spec.row_and_column (row.now, others.now) }
{
    let row = number_of(row);
    if others == b" ".as_slice() {
        return match row {
            Some(row) => Some((row, None)),
            None => None,
        };
    }
    match (row, column_of(others)) {
        (Some(row), Some(column)) => Some((row, Some(column))),
        _ => None,
    }
}

fn column_of(bytes: &[u8]) -> Option<u32>
    ensures { result ≡ spec.column_in bytes.now }
{
    match split_at_first(b':', bytes) {
        Some((column, others)) if others == b" ".as_slice() => number_of(column),
        _ => None,
    }
}

fn number_of(digits: &[u8]) -> Option<u32>
    ensures { result ≡ spec.number_in digits.now }
{
    match read_number(9, digits) {
        Some(number) => Some(number as u32),
        None => None,
    }
}
