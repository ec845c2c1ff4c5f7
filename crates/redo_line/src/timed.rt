ghost use Rattle.std.specs.Prelude.{◌≡◌, None, Some, IfSome, IfNone, option_map};
ghost use Rattle.redo_line.specs.Record.{record_fields, timed_parts};

use crate::line::RECORD_PREFIX;
use crate::record::read_fields;

/// The parts of a record from which a time is read. They are as written.
#[derive(Clone, Copy)]
pub struct Timed<'a> {
    /// The name of the record's kind, such as `do`.
    pub kind: &'a [u8],
    /// Seconds since 1970, as 1 to 20 digits, optionally with a point and 1 to 9 digits of a fraction.
    pub time: &'a [u8],
    /// What follows the record's `@@ `.
    pub text: &'a [u8],
}

/// Returns the kind, the time and the text of a line without its line feed, if the line begins with `@@REDO:` and is a
/// record; otherwise `None`. It doesn't test whether the text fits the kind. It does not allocate.
#[inline]
pub fn read_timed(line: &[u8]) -> Option<Timed<'_>>
    ensures some { IfSome result (λ read. option_map timed_parts (record_fields line.now)
        ≡ Some (read.kind.now, read.time.now, read.text.now)) }
    ensures none { IfNone result (record_fields line.now ≡ None) }
{
    let bytes = line.strip_prefix(RECORD_PREFIX)?;
    let fields = read_fields(bytes)?;
    Some(Timed {
        kind: fields.kind,
        time: fields.time,
        text: fields.text,
    })
}
