//! The facts about the times of the shown targets.
ghost use Rattle.std.specs.Prelude.{◌≡◌, IfOk, IfSome};
ghost use Rattle.redo_timeline.specs.Bars.{IsValidWindow};
ghost use Rattle.redo_summary.specs.Summary.{is_timed, summary_of};

use crate::rank::Rank;
use crate::ranking::{longest_alone, longest_of, most_warned};
use crate::spans::{list_callers, list_marks, list_recipes};
use crate::targets::list_targets;
use crate::totals::{bytes_of, sum_of, warnings_of};
use crate::window::{time_over, window_over};
use redo_outline::Node;
use redo_timeline::{Span, Window, most_at_once};
use redo_times::Times;
use std::alloc::{AllocError, Global};
use std::marker::Model;

/// The facts about the times of the shown targets.
#[derive(Drop)]
pub struct Summary {
    window: Option<Window>,
    took: u64,
    callers: Vec<Span>,
    recipes: Vec<Span>,
    marks: Vec<Span>,
    total: u64,
    most: usize,
    warnings: u64,
    bytes: u64,
    longest: Vec<Rank>,
    alone: Vec<Rank>,
    warned: Vec<Rank>,
}

impl Model for Summary {
    ghost use Rattle.std.specs.Prelude.{IfSome};
    ghost use Rattle.redo_timeline.specs.Bars.{IsValidWindow};
    ghost use Rattle.redo_summary.specs.Summary.{Facts};

    ghost Value = { Facts };

    ghost view = { λ summary. record {
      window = summary.window;
      took = summary.took;
      callers = summary.callers.items;
      recipes = summary.recipes.items;
      marks = summary.marks.items;
      sum = summary.total;
      most = summary.most;
      warnings = summary.warnings;
      bytes = summary.bytes;
      longest = summary.longest.items;
      alone = summary.alone.items;
      warned = summary.warned.items;
    } };

    ghost invariant = { λ summary. IfSome summary.window IsValidWindow };
}

impl Summary {
    /// Summarizes the times of the targets of some nodes. The target of a node has the times at the position that is the number of its
    /// log. Nothing is known of a target past the end of the list. The only error is that an allocation failed.
    ///
    /// For n nodes, this takes O(n log n) time.
    pub fn new(alloc: Global, nodes: &[Node], times: &[Times]) -> Result<Summary, AllocError>
        ensures { IfOk result (λ summary. summary ≡ summary_of nodes.now times.now) }
    {
        let targets = list_targets(alloc, nodes, times)?;
        let callers = list_callers(alloc, &targets)?;
        let recipes = list_recipes(alloc, &targets)?;
        let marks = list_marks(alloc, &targets)?;
        let most = most_at_once(alloc, &recipes)?;
        let longest = longest_of(alloc, &recipes)?;
        let alone = longest_alone(alloc, &recipes)?;
        let warned = most_warned(alloc, nodes)?;
        let total = sum_of(&recipes);
        Ok(Summary {
            window: window_over(&targets),
            took: time_over(&targets),
            callers,
            recipes,
            marks,
            total,
            most,
            warnings: warnings_of(nodes),
            bytes: bytes_of(nodes),
            longest,
            alone,
            warned,
        })
    }

    /// Returns the time from the first to the last known time, as a timeline shows it: its width is from 1 to 2^44 - 1 milliseconds. It
    /// is `None` if no time is known.
    pub fn window(&self) -> Option<Window>
        ensures window { result ≡ self.now.window }
        ensures valid { IfSome result IsValidWindow }
    {
        self.window
    }

    /// Returns how long it is from the first to the last known time, in milliseconds: at most 2^44 - 1. It is 0 if no time is known.
    pub fn took(&self) -> u64
        ensures { result ≡ self.now.took }
    {
        self.took
    }

    /// Returns the spans of the targets that ran others, in order of position.
    pub fn callers(&self) -> &[Span]
        ensures { result.now ≡ self.now.callers }
    {
        self.callers.as_slice()
    }

    /// Returns the spans of all other targets whose times are known, in order of position.
    pub fn recipes(&self) -> &[Span]
        ensures { result.now ≡ self.now.recipes }
    {
        self.recipes.as_slice()
    }

    /// Returns the marks of the targets with one known time, in order of position. A requested target has no mark if only its end is
    /// known, because the log of a run by make may say no more.
    pub fn marks(&self) -> &[Span]
        ensures { result.now ≡ self.now.marks }
    {
        self.marks.as_slice()
    }

    /// Returns how long all recipes took, one after another, in milliseconds. A recipe counts 2^44 - 1 at most, and the sum is at most
    /// 2^64 - 1.
    pub fn sum(&self) -> u64
        ensures { result ≡ self.now.sum }
    {
        self.total
    }

    /// Returns the greatest number of recipes that ran at one time.
    pub fn most(&self) -> usize
        ensures { result ≡ self.now.most }
    {
        self.most
    }

    /// Returns the number of warnings in all logs, at most 2^64 - 1.
    pub fn warnings(&self) -> u64
        ensures { result ≡ self.now.warnings }
    {
        self.warnings
    }

    /// Returns the number of bytes of text in all logs, at most 2^64 - 1.
    pub fn bytes(&self) -> u64
        ensures { result ≡ self.now.bytes }
    {
        self.bytes
    }

    /// Returns the ten recipes that took longest, the longest one first. If recipes took equally long, the one with the lowest
    /// position is first. A duration is at most 2^44 - 1 milliseconds.
    pub fn longest(&self) -> &[Rank]
        ensures { result.now ≡ self.now.longest }
    {
        self.longest.as_slice()
    }

    /// Returns the ten recipes that ran alone for the longest time, the longest one first, and only those that ever were. If recipes
    /// were equally long, the one with the lowest position is first. A duration is at most 2^44 - 1 milliseconds.
    pub fn alone(&self) -> &[Rank]
        ensures { result.now ≡ self.now.alone }
    {
        self.alone.as_slice()
    }

    /// Returns the ten targets with the most warnings, the one with the most first, and only those with a warning. If targets have
    /// equally many, the one with the lowest position is first.
    pub fn warned(&self) -> &[Rank]
        ensures { result.now ≡ self.now.warned }
    {
        self.warned.as_slice()
    }

    /// Whether there is a timeline: there is a span, and at most a tenth of all spans and marks are marks.
    pub fn is_timed(&self) -> bool
        ensures { result ≡ is_timed self.now }
    {
        let spans = self.callers.len() as u128 + self.recipes.len() as u128;
        let marks = self.marks.len() as u128;
        spans > 0 && marks * 10 <= spans + marks
    }
}
