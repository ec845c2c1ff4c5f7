//! The member of an object with what changed in its target since the baseline.
ghost use Rattle.std.specs.Prelude.{◌≡◌, Some, option_copied};
ghost use Rattle.json.specs.Json as json;
ghost use Rattle.json.specs.Print.{print};
ghost use Rattle.json.specs.Tree.{json_tokens};
ghost use Rattle.redo_device.specs.Sink.{Writes};
ghost use Rattle.redo_json.specs.Object.{baseline_field};
ghost use Rattle.redo_json.specs.Private.Parts.{comma_field};

use crate::part::{Part, write_parts};
use redo_compare::TargetChanges;
use redo_device::{Broken, Sink, push_all};

/// Writes the member with what changed in a target since the baseline, or `null` if there is none.
pub fn write_baseline<W: Sink>(changes: Option<&TargetChanges>, out: &mut W) -> Result<(), Broken>
    ensures { Writes (W.written out.old) (W.written out.new) (comma_field (baseline_field (option_copied changes.entry))) result }
{
    match changes {
        None => push_all(out, b",\"baseline\":null"),
        Some(changes) => write_changes(changes, out),
    }
}

fn write_changes<W: Sink>(changes: &TargetChanges, out: &mut W) -> Result<(), Broken>
    ensures { Writes (W.written out.old) (W.written out.new) (comma_field (baseline_field (Some changes.now))) result }
{
    write_parts(
        &[
            Part::Json(b",\"baseline\":{\"built\":"),
            Part::Json(boolean(changes.was_built())),
            Part::Json(b",\"gone\":"),
            Part::Number(changes.gone() as u64),
            Part::Json(b",\"newly_fails\":"),
            Part::Json(boolean(changes.newly_fails())),
            Part::Json(b",\"fixed\":"),
            Part::Json(boolean(changes.is_fixed())),
            Part::Json(b"}"),
        ],
        out,
    )
}

fn boolean(value: bool) -> &'static [u8]
    ensures { result.now ≡ print (json_tokens (json.boolean value)) }
{
    if value { b"true" } else { b"false" }
}
