//! Texts of logs: plain text is one, a page another.
ghost use Rattle.std.specs.Prelude.{◌≡◌, ℕ, true, None, List};
ghost use Rattle.std.specs.List.{list_all};
ghost use Rattle.redo_logs.specs.Logs.{Log, has_ended};
ghost use Rattle.redo_view.specs.Form.{FormWrites};
ghost use Rattle.redo_view.specs.View.{find_unknown};

use crate::form::FormFault;
use redo_line::{Sink, TargetName};
use redo_logs::LogTable;
use std::alloc::Global;

/// A text of a table's logs for requested targets, such as plain text or a page.
pub trait Render {
    /// The text, from the logs and the requested targets.
    ghost text: { Self → List Log → List (List ℕ) → List ℕ };

    /// Writes the text. All logs must have ended, and each requested target must have a log. A write that fails ends
    /// the call, and nothing is written after it. `out` isn't flushed.
    fn render<W: Sink>(
        &self,
        alloc: Global,
        table: &LogTable,
        requested: &[TargetName],
        out: &mut W,
    ) -> Result<(), FormFault>
        requires ended { list_all has_ended table.now ≡ true }
        requires known { find_unknown table.now requested.now ≡ None }
        ensures { FormWrites (W.written out.old) (W.written out.new) (text self.now table.now requested.now) result };
}
