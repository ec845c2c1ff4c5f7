//! Bars that more spans may join.
//!
//! By definition a bar is the list of its spans, so a law can say that the spans of all bars are a permutation of the input.
//! The code stores a draft of the last bar instead: its times, its position, the number of its spans, and whether each of
//! them is narrow.
ghost use Rattle.std.specs.Prelude.{◌≡◌, ◌+◌, ◌<◌, ◌^◌, [], ◌∷◌};
ghost use Rattle.redo_timeline.specs.Bars.{IsValidWindow, is_narrow, units};
ghost use Rattle.redo_timeline.specs.Private.Drafting.{draft_of, drawn_draft, joined_draft, joins_draft};

use crate::bar::Bar;
use crate::span::{Span, Window};

// The width of a timeline, in units.
const ALL_UNITS: u64 = 10_000;

// A span is narrow if it has fewer units.
const NARROW: u64 = 20;

// A narrow span may join a bar that ended fewer units before it began.
const GAP: u64 = 10;

// A bar of several spans has fewer units.
const JOINED: u64 = 50;

// The least units with which a bar is drawn, and a bar of a target that failed.
const MIN_WIDTH: u64 = 10;

const MIN_FAILED_WIDTH: u64 = 30;

/// The facts about the spans of a bar.
#[derive(Clone, Copy)]
pub struct Draft {
    pub began: u64,
    pub ended: u64,
    pub position: usize,
    pub count: usize,
    /// Whether each span is narrow.
    pub narrow: bool,
    pub failed: bool,
}

impl Draft {
    /// Returns the draft of one span.
    pub fn new(window: Window, span: &Span) -> Draft
        requires { IsValidWindow window }
        ensures { result ≡ draft_of window (span.now ∷ []) }
    {
        Draft {
            began: span.began,
            ended: span.ended,
            position: span.position,
            count: 1,
            narrow: is_narrow(window, span),
            failed: span.failed,
        }
    }

    /// Whether the next span joins the spans of the draft.
    pub fn joins(&self, window: Window, span: &Span) -> bool
        requires { IsValidWindow window }
        ensures { result ≡ joins_draft window self.now span.now }
    {
        is_narrow(window, span)
            && self.narrow
            && units(window, span.began).saturating_sub(units(window, self.ended)) < GAP
            && units(window, span.ended).saturating_sub(units(window, self.began)) < JOINED
    }

    /// Adds a span that joins the spans of the draft.
    pub fn join(&mut self, span: &Span)
        requires { self.old.count + 1 < 2 ^ 64 }
        ensures { self.new ≡ joined_draft span.now self.old }
    {
        if self.ended < span.ended {
            self.ended = span.ended;
        }
        self.count += 1;
    }

    /// Returns the bar of the draft's spans.
    pub fn bar(&self, window: Window, lane: usize) -> Bar
        requires { IsValidWindow window }
        ensures { result ≡ drawn_draft window lane self.now }
    {
        let x = units(window, self.began);
        let width = units(window, self.ended).saturating_sub(x);
        let least = if self.failed {
            MIN_FAILED_WIDTH
        } else {
            MIN_WIDTH
        };
        Bar {
            lane,
            x,
            width: if width < least { least } else { width },
            position: self.position,
            count: self.count,
            began: self.began,
            ended: self.ended,
            failed: self.failed,
        }
    }
}

fn is_narrow(window: Window, span: &Span) -> bool
    requires { IsValidWindow window }
    ensures { result ≡ is_narrow window span.now }
{
    !span.failed && units(window, span.ended).saturating_sub(units(window, span.began)) < NARROW
}

// Returns where a time is drawn, in units.
fn units(window: Window, time: u64) -> u64
    requires { IsValidWindow window }
    ensures { result ≡ units window time }
{
    let after = time.saturating_sub(window.began);
    let offset = if after < window.width {
        after
    } else {
        window.width
    };
    offset * ALL_UNITS / window.width
}
