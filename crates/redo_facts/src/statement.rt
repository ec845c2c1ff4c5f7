//! The statement of a line of `facts`.
//!
//! A line states something if it has one of six forms (`IsStatement`). The law `line_has_one_statement` says that it states
//! one thing only. No line is a fault, so a damaged line harms only its own statement.
ghost use Rattle.std.specs.Prelude.{◌≡◌, None, Some, IfNone, IfSome};
ghost use Rattle.redo_index.specs.Index as index;
ghost use Rattle.redo_facts.specs.Statement as spec;

use redo_line::{read_number, split_at_first};

/// The resources that the processes of a recipe took.
#[derive(Clone, Copy, Debug, PartialEq, Eq)]
pub struct Usage {
    /// Processor time outside of the kernel, in milliseconds.
    pub user_ms: u64,
    /// Processor time in the kernel, in milliseconds.
    pub system_ms: u64,
    /// The most memory that one process had, in kilobytes of 1,024 bytes.
    pub peak_kb: u64,
}

/// The form of a line that states something.
#[derive(Clone, Copy)]
pub enum Form {
    Log,
    Directory,
    Command,
    Truncated,
    More,
    Took(Usage),
}

/// A statement: the number of a log, the form of the line, and the text after the form's word.
#[derive(Clone, Copy)]
pub struct Stated<'a> {
    pub number: u32,
    pub form: Form,
    pub text: &'a [u8],
}

/// Returns the statement of an ended line, if it has one. It does not allocate.
pub fn read_statement(line: &[u8]) -> Option<Stated<'_>>
    ensures some { IfSome result (λ stated.
        spec.statement_of line.now ≡ Some (record { number = stated.number; form = stated.form; text = stated.text.now })) }
    ensures none { IfNone result (spec.statement_of line.now ≡ None) }
{
    let Some((digits, others)) = split_at_first(b' ', line) else {
        return None;
    };
    let Some((word, text)) = split_at_first(b' ', others) else {
        return None;
    };
    let Some(number) = parse_number(digits) else {
        return None;
    };
    let Some(form) = form_of(word, text) else {
        return None;
    };
    Some(Stated { number, form, text })
}

fn parse_number(bytes: &[u8]) -> Option<u32>
    ensures { result ≡ index.parse_number bytes.now }
{
    if bytes.is_empty() || bytes[0] == b'0' {
        return None;
    }
    match read_number(9, bytes) {
        Some(number) => Some(number as u32),
        None => None,
    }
}

// Returns the form of a line with this word and this text.
fn form_of(word: &[u8], text: &[u8]) -> Option<Form>
    ensures { result ≡ spec.form_of word.now text.now }
{
    if word == b"log".as_slice() {
        if_not_empty(Form::Log, text)
    } else if word == b"directory".as_slice() {
        if_not_empty(Form::Directory, text)
    } else if word == b"command".as_slice() {
        Some(Form::Command)
    } else if word == b"truncated".as_slice() {
        Some(Form::Truncated)
    } else if word == b"more".as_slice() {
        Some(Form::More)
    } else if word == b"usage".as_slice() {
        match usage_of(text) {
            Some(usage) => Some(Form::Took(usage)),
            None => None,
        }
    } else {
        None
    }
}

fn if_not_empty(form: Form, text: &[u8]) -> Option<Form>
    ensures { result ≡ spec.if_not_empty form text.now }
{
    if text.is_empty() { None } else { Some(form) }
}

// Returns the resources that a recipe took, if the text is three numbers.
fn usage_of(text: &[u8]) -> Option<Usage>
    ensures { result ≡ spec.usage_of text.now }
{
    let Some((user, others)) = split_at_first(b' ', text) else {
        return None;
    };
    let Some((system, peak)) = split_at_first(b' ', others) else {
        return None;
    };
    usage_from(
        read_number(15, user),
        read_number(15, system),
        read_number(15, peak),
    )
}

fn usage_from(user: Option<u64>, system: Option<u64>, peak: Option<u64>) -> Option<Usage>
    ensures { result ≡ spec.usage_from user system peak }
{
    match (user, system, peak) {
        (Some(user_ms), Some(system_ms), Some(peak_kb)) => Some(Usage {
            user_ms,
            system_ms,
            peak_kb,
        }),
        _ => None,
    }
}
