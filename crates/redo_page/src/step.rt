//! The step of an event: how it changes the logs that are open.
ghost use Rattle.std.specs.Prelude.{◌≡◌};
ghost use Rattle.redo_view.specs.EventRef.{event_value};
ghost use Rattle.redo_page.specs.Private.Walking.{step_of, step_of_opening};

use redo_view::{EventRef, Opening};

/// The step of an event.
#[derive(Clone, Copy)]
pub enum Step {
    /// It opens a log.
    Opens,
    /// It ends the log that was opened last.
    Ends,
    /// It does neither.
    Shows,
}

fn step_of_opening(opening: Opening) -> Step
    ensures { result ≡ step_of_opening opening }
{
    match opening {
        Opening::OpensHere(_) => Step::Opens,
        Opening::NotOpened | Opening::OpenedBefore(_) => Step::Shows,
    }
}

/// Returns the step of an event.
pub fn step_of(event: EventRef<'_>) -> Step
    ensures { result ≡ step_of (event_value event.entry) }
{
    match event {
        EventRef::Requested { opening, .. } => step_of_opening(opening),
        EventRef::Mentioned { opening, .. } => step_of_opening(opening),
        EventRef::EntryShown { .. } => Step::Shows,
        EventRef::LogEnds { .. } => Step::Ends,
    }
}
