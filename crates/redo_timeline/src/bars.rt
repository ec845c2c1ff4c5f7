//! The bars of a lane.
ghost use Rattle.std.specs.Prelude.{◌≡◌, ◌++◌, OnOk, map};
ghost use Rattle.redo_timeline.specs.Bars.{IsValidWindow, bar_of, bars_in};

use crate::bar::Bar;
use crate::draft::Draft;
use crate::span::{Span, Window};
use std::alloc::AllocError;

/// Adds the bars of the spans in a lane.
pub fn add_bars(
    window: Window,
    lane: usize,
    spans: &[Span],
    bars: &mut Vec<Bar>,
) -> Result<(), AllocError>
    requires { IsValidWindow window }
    ensures { OnOk result (bars.new.items ≡ bars.old.items ++ map (bar_of window lane) (bars_in window spans.now)) }
{
    let Some((first, rest)) = spans.split_first() else {
        return Ok(());
    };
    let mut draft = Draft::new(window, first);
    for span in rest {
        if draft.joins(window, span) {
            draft.join(span);
        } else {
            bars.push(draft.bar(window, lane))?;
            draft = Draft::new(window, span);
        }
    }
    bars.push(draft.bar(window, lane))?;
    Ok(())
}
