//! When a shown target ran.
ghost use Rattle.std.specs.Prelude.{◌≡◌};
ghost use Rattle.redo_summary.specs.Spans.{caller_span, mark_of, recipe_span, span_between, span_of};

use redo_timeline::Span;
use redo_times::Times;

/// When a shown target ran, as far as this is known.
#[derive(Clone, Copy)]
pub struct Target {
    pub position: usize,
    /// The position of the target whose log contains its log. A requested target has none.
    pub parent: Option<usize>,
    pub failed: bool,
    pub times: Times,
}

impl Target {
    /// Returns the span of the target, if both times are known.
    pub fn span(&self) -> Option<Span>
        ensures { result ≡ span_of self.now }
    {
        match (self.times.began, self.times.ended) {
            (Some(began), Some(ended)) => Some(self.span_between(began, ended)),
            _ => None,
        }
    }

    /// Returns the span of the target, if both times are known and it ran others.
    pub fn caller_span(&self) -> Option<Span>
        ensures { result ≡ caller_span self.now }
    {
        if self.times.ran_others {
            self.span()
        } else {
            None
        }
    }

    /// Returns the span of the target, if both times are known and it ran no others.
    pub fn recipe_span(&self) -> Option<Span>
        ensures { result ≡ recipe_span self.now }
    {
        if self.times.ran_others {
            None
        } else {
            self.span()
        }
    }

    /// Returns the mark of the target, if one time is known. The log of a run by make is the log of a requested target, and may say
    /// only when it ended: this is no mark.
    pub fn mark(&self) -> Option<Span>
        ensures { result ≡ mark_of self.now }
    {
        match (self.parent, self.times.began, self.times.ended) {
            (_, Some(began), None) => Some(self.span_between(began, began)),
            (Some(_), None, Some(ended)) => Some(self.span_between(ended, ended)),
            _ => None,
        }
    }

    // Returns the target's span from one time to another.
    fn span_between(&self, began: u64, ended: u64) -> Span
        ensures { result ≡ span_between self.now began ended }
    {
        Span {
            began,
            position: self.position,
            ended,
            failed: self.failed,
        }
    }
}
