//! The timeline of a build: a bar for each target.
ghost use Rattle.std.specs.Prelude.{◌∷◌, []};
ghost use Rattle.std.specs.List.{flat_map};
ghost use Rattle.redo_html.specs.Parts.{part_html};
ghost use Rattle.redo_html.specs.Parts.Part.{ChartPart};
ghost use Rattle.redo_timeline.specs.Bars.{IsValidWindow};
ghost use Rattle.redo_view.specs.Form.{FormWrites};
ghost use Rattle.redo_page.specs.Private.Viewing.{view_of};
ghost use Rattle.redo_page.specs.Timeline.{facts_drawing, timeline_parts, timeline_section};

use crate::labels::{BARS_LEAD, MARKS_OF, MARKS_UNKNOWN, OF, PALE_BARS, TIMELINE};
use crate::scope::Count::{Known, Unknown};
use crate::scope::Scope;
use crate::scope::Test::{HasCallers, HasMarks};
use crate::template::Around::If;
use crate::template::Item::{In, Number, Tag, Text};
use crate::template::{Template, write_template};
use redo_device::Sink;
use redo_html::Markup::{
    EndDiv, EndHeading, EndParagraph, EndSection, QuietParagraph, TimelineHeading, TimelineScroll,
    TimelineSection,
};
use redo_timeline::Window;
use redo_view::FormFault;
use std::alloc::Global;

/// The items before the chart.
pub const START: Template = &[
    Tag(TimelineSection),
    Tag(TimelineHeading),
    Text(TIMELINE),
    Tag(EndHeading),
    In(
        If(HasMarks),
        &[
            Tag(QuietParagraph),
            Text(MARKS_OF),
            Number(Unknown),
            Text(OF),
            Number(Known),
            Text(MARKS_UNKNOWN),
            Tag(EndParagraph),
        ],
    ),
    Tag(TimelineScroll),
];

/// The items after the chart.
pub const END: Template = &[
    Tag(EndDiv),
    Tag(QuietParagraph),
    Text(BARS_LEAD),
    In(If(HasCallers), &[Text(PALE_BARS)]),
    Tag(EndParagraph),
    Tag(EndSection),
];

fn write_chart<W: Sink>(
    alloc: Global,
    scope: &Scope<'_>,
    window: Window,
    out: &mut W,
) -> Result<(), FormFault>
    requires { IsValidWindow window }
    ensures { FormWrites (W.written out.old) (W.written out.new)
        (flat_map part_html (ChartPart (facts_drawing scope.now.table.now scope.now.nodes.now scope.now.facts.now window) ∷ [])) result }
{
    let facts = scope.facts;
    redo_chart::write_timeline(
        alloc,
        scope.table,
        scope.nodes,
        window,
        facts.callers(),
        facts.recipes(),
        facts.marks(),
        out,
    )
}

fn write_section<W: Sink>(
    alloc: Global,
    scope: &Scope<'_>,
    window: Window,
    out: &mut W,
) -> Result<(), FormFault>
    requires { IsValidWindow window }
    ensures { FormWrites (W.written out.old) (W.written out.new) (flat_map part_html (timeline_section (view_of scope.now) window)) result }
{
    write_template(&START, scope, out)?;
    write_chart(alloc, scope, window, out)?;
    write_template(&END, scope, out)?;
    Ok(())
}

/// Writes the section `Timeline`, if most times are known. Nothing of the chart is written before it is laid out.
pub fn write_timeline<W: Sink>(
    alloc: Global,
    scope: &Scope<'_>,
    out: &mut W,
) -> Result<(), FormFault>
    ensures { FormWrites (W.written out.old) (W.written out.new) (flat_map part_html (timeline_parts (view_of scope.now))) result }
{
    match scope.facts.window() {
        Some(window) if scope.facts.is_timed() => write_section(alloc, scope, window, out),
        _ => Ok(()),
    }
}
