//! The text about a build.
ghost use Rattle.std.specs.Prelude.{◌≡◌, true, None};
ghost use Rattle.std.specs.List.{flat_map, list_all};
ghost use Rattle.redo_line.specs.Lines.{with_line_feed};
ghost use Rattle.redo_logs.specs.Logs.{has_ended};
ghost use Rattle.redo_view.specs.Form.{FormWrites};
ghost use Rattle.redo_view.specs.View.{find_unknown};
ghost use Rattle.redo_new.specs.News.{news_text, options_of};
ghost use Rattle.redo_new.specs.Private.Sections.{section_text, target_lines};

use crate::lines::write_new_lines;
use crate::section::Section;
use crate::target::{TargetNews, news_of};
use crate::writing::{write_failing, write_fixed};
use redo_compare::Baseline;
use redo_device::Sink;
use redo_line::{HashKeys, TargetName};
use redo_logs::LogTable;
use redo_outline::{Outline, target_at};
use redo_view::{FormFault, Options};
use std::alloc::Global;

/// Writes what is new, since an earlier build, in the logs that are opened for the requested targets: a line for each target that newly
/// fails, then one for each new diagnostic, and then one for each fixed target. `unchanged` says whether targets that needed no rebuild are
/// included. Each requested target must have a log. All logs must have ended.
///
/// A write that fails or takes no byte ends the call, and nothing is written after it. `out` isn't flushed. Diagnostics are hashed with
/// `keys`; the text doesn't depend on them.
pub fn write_news<W: Sink>(
    alloc: Global,
    keys: HashKeys,
    earlier: &LogTable,
    table: &LogTable,
    unchanged: bool,
    requested: &[TargetName],
    out: &mut W,
) -> Result<(), FormFault>
    requires earlier_ended { list_all has_ended earlier.now ≡ true }
    requires ended { list_all has_ended table.now ≡ true }
    requires known { find_unknown table.now requested.now ≡ None }
    ensures { FormWrites (W.written out.old) (W.written out.new) (news_text unchanged earlier.now table.now requested.now) result }
{
    let options = options_of(unchanged);
    let outline = Outline::without_warnings(alloc, table, &options, requested)?;
    let baseline = Baseline::new(alloc, keys, earlier, &options, requested)?;
    let news = news_of(alloc, &baseline, table, outline.nodes())?;
    write_section(alloc, table, Section::NewlyFailing, &news, out)?;
    write_section(alloc, table, Section::New, &news, out)?;
    write_section(alloc, table, Section::Fixed, &news, out)
}

// Returns the options with which the logs are shown.
fn options_of(unchanged: bool) -> Options
    ensures { result ≡ options_of unchanged }
{
    Options {
        recursive: true,
        unchanged,
        details: true,
        debug_locks: false,
        debug_pids: false,
    }
}

// Writes a section.
fn write_section<W: Sink>(
    alloc: Global,
    table: &LogTable,
    section: Section,
    targets: &[TargetNews],
    out: &mut W,
) -> Result<(), FormFault>
    ensures { FormWrites (W.written out.old) (W.written out.new) (section_text table.now section targets.now) result }
{
    for news in targets {
        write_target(alloc, table, section, news, out)?;
    }
    Ok(())
}

// Writes the lines of a section about one target.
fn write_target<W: Sink>(
    alloc: Global,
    table: &LogTable,
    section: Section,
    news: &TargetNews,
    out: &mut W,
) -> Result<(), FormFault>
    ensures { FormWrites (W.written out.old) (W.written out.new)
        (flat_map with_line_feed (target_lines table.now section news.now)) result }
{
    match section {
        Section::NewlyFailing if news.changes.newly_fails() => {
            write_failing(target_at(table, news.number), news.status, out)
        }
        Section::New => write_new_lines(alloc, table, news.number, news.changes.new(), out),
        Section::Fixed if news.changes.is_fixed() => {
            write_fixed(target_at(table, news.number), out)
        }
        _ => Ok(()),
    }
}
