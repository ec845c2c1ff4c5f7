//! Diagnostics whose strings are written as they are. Their objects are joined in memory, and many are one write.
ghost use Rattle.std.specs.Prelude.{◌≡◌, ◌<◌, ◌≤◌, ◌∷◌, ◌++◌, ℕ, List, [], Some, IfSome, None, OnOk, codes, decimal, option_copied};
ghost use Rattle.json.specs.Print.{print};
ghost use Rattle.json.specs.Tree.{json_tokens};
ghost use Rattle.redo_diagnostics.specs.Counts.{AreCounts, stored, times_of};
ghost use Rattle.redo_json.specs.Fields.{boolean_value, field, number_value};
ghost use Rattle.redo_json.specs.Private.Diagnosing.{IsVerbatimDiagnostic};
ghost use Rattle.redo_json.specs.Private.Parts.{comma_field, comma_if, diagnostic_front, diagnostic_text, flag_text, number_text, place_text, severity_text, string_start, strings_text};
ghost use Rattle.redo_json.specs.Private.Writing.{IsAppended, IsVerbatim};

use itoa::Buffer;
use redo_diagnostics::{Diagnostic, Key, KeyCounts, Place, Severity};
use std::alloc::AllocError;

/// Appends the object of a diagnostic, after a comma unless it is the first one, and counts its key. After an error, a part of it may have
/// been appended.
pub fn join_diagnostic<'t>(
    is_first: bool,
    position: usize,
    diagnostic: &Diagnostic<'_>,
    key: Key<'t>,
    new: Option<bool>,
    counts: &mut KeyCounts<'t>,
    object: &mut Vec<u8>,
) -> Result<(), AllocError>
    requires verbatim { IsVerbatimDiagnostic diagnostic.now }
    requires key { key ≡ diagnostic.now.key }
    ensures counted { (keys : List (List ℕ)) → AreCounts counts.old keys → OnOk result (
        AreCounts counts.new (keys ++ diagnostic.now.key ∷ [])) }
    ensures appended { (keys : List (List ℕ)) → AreCounts counts.old keys → OnOk result (IsAppended object.old.items object.new.items
        (diagnostic_text is_first
        (record { line = position; value = diagnostic.now; nth = stored (times_of diagnostic.now.key keys) }, new))) }
{
    join_front(is_first, position, diagnostic, object)?;
    join_strings(diagnostic, &key, object)?;
    let nth = counts.add(key)?;
    join_end(nth, new, object)?;
    Ok(())
}

// Appends the object of a diagnostic up to the first byte of its message, after a comma unless it is the first one.
fn join_front(
    is_first: bool,
    position: usize,
    diagnostic: &Diagnostic<'_>,
    object: &mut Vec<u8>,
) -> Result<(), AllocError>
    requires { IsVerbatimDiagnostic diagnostic.now }
    ensures { OnOk result (IsAppended object.old.items object.new.items (diagnostic_front is_first position diagnostic.now)) }
{
    join_bytes(object_start(is_first), object)?;
    join_number(position as u64, object)?;
    match diagnostic.place() {
        None => join_bytes(front_without_place(diagnostic.severity()), object),
        Some(place) => join_place(diagnostic.severity(), &place, object),
    }
}

// Appends the members with a severity and a place, and the start of the member with the message.
fn join_place(severity: Severity, place: &Place<'_>, object: &mut Vec<u8>) -> Result<(), AllocError>
    requires { IsVerbatim place.now.file }
    ensures { OnOk result (IsAppended object.old.items object.new.items
        (severity_text severity ++ (place_text (Some place.now) ++ string_start (codes "message")))) }
{
    join_bytes(front_of_file(severity), object)?;
    join_bytes(place.file(), object)?;
    join_bytes(b"\",\"row\":", object)?;
    join_number(place.row() as u64, object)?;
    join_bytes(b",\"column\":", object)?;
    join_column(place.column(), object)?;
    join_bytes(b",\"message\":\"", object)
}

/// Appends bytes.
#[inline(always)]
pub fn join_bytes(bytes: &[u8], object: &mut Vec<u8>) -> Result<(), AllocError>
    ensures { OnOk result (IsAppended object.old.items object.new.items bytes.now) }
{
    object.extend_from_slice(bytes)?;
    Ok(())
}

fn join_column(column: Option<u32>, object: &mut Vec<u8>) -> Result<(), AllocError>
    ensures { OnOk result (IsAppended object.old.items object.new.items (print (json_tokens (number_value column)))) }
{
    match column {
        None => join_bytes(b"null", object),
        Some(column) => join_number(column as u64, object),
    }
}

// Appends a number. Most are small, and are written without a buffer.
fn join_number(value: u64, object: &mut Vec<u8>) -> Result<(), AllocError>
    ensures { OnOk result (IsAppended object.old.items object.new.items (decimal value)) }
{
    if value < 10 {
        return join_digit(value, object);
    }
    if value < 100 {
        return join_two(value, object);
    }
    if value < 1000 {
        return join_three(value, object);
    }
    let mut buffer = Buffer::new();
    join_bytes(buffer.format(value).as_bytes(), object)
}

// Appends a number of two digits.
fn join_two(value: u64, object: &mut Vec<u8>) -> Result<(), AllocError>
    requires { (10 ≤ value) × (value < 100) }
    ensures { OnOk result (IsAppended object.old.items object.new.items (decimal value)) }
{
    join_digit(value / 10, object)?;
    join_digit(value % 10, object)
}

// Appends a number of three digits.
fn join_three(value: u64, object: &mut Vec<u8>) -> Result<(), AllocError>
    requires { (100 ≤ value) × (value < 1000) }
    ensures { OnOk result (IsAppended object.old.items object.new.items (decimal value)) }
{
    join_two(value / 10, object)?;
    join_digit(value % 10, object)
}

#[inline(always)]
fn join_digit(digit: u64, object: &mut Vec<u8>) -> Result<(), AllocError>
    requires { digit < 10 }
    ensures { OnOk result (IsAppended object.old.items object.new.items (decimal digit)) }
{
    object.push(b'0' + digit as u8)?;
    Ok(())
}

// Appends the strings with the message, the flag and the key of a diagnostic, from the first byte of its message to the last one of its key.
fn join_strings(
    diagnostic: &Diagnostic<'_>,
    key: &Key<'_>,
    object: &mut Vec<u8>,
) -> Result<(), AllocError>
    requires { key.now ≡ diagnostic.now.key }
    ensures { OnOk result (IsAppended object.old.items object.new.items (strings_text diagnostic.now)) }
{
    let (message, flag) = diagnostic.message_and_flag();
    join_bytes(message, object)?;
    join_flag(flag, object)?;
    join_key(key, object)
}

// Appends a key.
fn join_key(key: &Key<'_>, object: &mut Vec<u8>) -> Result<(), AllocError>
    ensures { OnOk result (IsAppended object.old.items object.new.items key.now) }
{
    let (origin, tail) = key.parts();
    join_bytes(origin, object)?;
    join_bytes(b": ", object)?;
    join_bytes(tail, object)
}

// Appends what is between a message and a key.
fn join_flag(flag: Option<&[u8]>, object: &mut Vec<u8>) -> Result<(), AllocError>
    ensures { OnOk result (IsAppended object.old.items object.new.items (flag_text (option_copied flag.entry))) }
{
    match flag {
        None => join_bytes(b"\",\"flag\":null,\"key\":\"", object),
        Some(flag) => join_known_flag(flag, object),
    }
}

fn join_known_flag(flag: &[u8], object: &mut Vec<u8>) -> Result<(), AllocError>
    ensures { OnOk result (IsAppended object.old.items object.new.items (flag_text (Some flag.now))) }
{
    join_bytes(b"\",\"flag\":\"", object)?;
    join_bytes(flag, object)?;
    join_bytes(b"\",\"key\":\"", object)
}

// Appends what follows a key.
fn join_end(nth: u64, new: Option<bool>, object: &mut Vec<u8>) -> Result<(), AllocError>
    ensures { OnOk result (IsAppended object.old.items object.new.items (number_text nth new)) }
{
    join_bytes(b"\",\"nth\":", object)?;
    join_number(nth, object)?;
    join_bytes(object_end(new), object)
}

// Returns the members with the severity and no place, and the start of the member with the message.
fn front_without_place(severity: Severity) -> &'static [u8]
    ensures { result.now ≡ severity_text severity ++ (place_text None ++ string_start (codes "message")) }
{
    match severity {
        Severity::Warning => {
            b",\"severity\":\"warning\",\"file\":null,\"row\":null,\"column\":null,\"message\":\""
        }
        Severity::Error => {
            b",\"severity\":\"error\",\"file\":null,\"row\":null,\"column\":null,\"message\":\""
        }
        Severity::FatalError => {
            b",\"severity\":\"fatal error\",\"file\":null,\"row\":null,\"column\":null,\"message\":\""
        }
    }
}

// Returns the member with the severity, and the start of the member with the file.
fn front_of_file(severity: Severity) -> &'static [u8]
    ensures { result.now ≡ severity_text severity ++ string_start (codes "file") }
{
    match severity {
        Severity::Warning => b",\"severity\":\"warning\",\"file\":\"",
        Severity::Error => b",\"severity\":\"error\",\"file\":\"",
        Severity::FatalError => b",\"severity\":\"fatal error\",\"file\":\"",
    }
}

/// Returns the end of a diagnostic's object, from the member that says whether it is new.
pub fn object_end(new: Option<bool>) -> &'static [u8]
    ensures { result.now ≡ comma_field (field (codes "new") (boolean_value new)) ++ 125 ∷ [] }
{
    match new {
        None => b",\"new\":null}",
        Some(is_new) => {
            if is_new {
                b",\"new\":true}"
            } else {
                b",\"new\":false}"
            }
        }
    }
}

/// Returns the start of a diagnostic's object up to the position of its line, with the comma before an object that isn't the first one.
pub fn object_start(is_first: bool) -> &'static [u8]
    ensures { result.now ≡ comma_if is_first ++ codes "{\"line\":" }
{
    if is_first {
        b"{\"line\":"
    } else {
        b",{\"line\":"
    }
}
