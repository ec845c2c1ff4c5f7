//! The tooltips of bars.
ghost use Rattle.std.specs.Prelude.{◌≡◌, ◌++◌, ◌-◌, IfOk, OnOk, map};
ghost use Rattle.redo_chart.specs.Private.Fitting.{texts_in};
ghost use Rattle.redo_chart.specs.Titles as spec;

use crate::targets::{name_at, status_at};
use redo_html::GroupKind;
use redo_logs::LogTable;
use redo_outline::Node;
use redo_timeline::Bar;
use redo_units::{Word, duration, push_words};
use std::alloc::{AllocError, Global};

/// Returns the tooltips of bars.
pub fn titles(
    alloc: Global,
    table: &LogTable,
    nodes: &[Node],
    kind: GroupKind,
    bars: &[Bar],
) -> Result<Vec<Vec<u8>>, AllocError>
    ensures { IfOk result (λ titles. texts_in titles.items ≡ map (spec.title_of table.now nodes.now kind) bars.now) }
{
    let mut titles = Vec::new(alloc);
    for bar in bars {
        titles.push(title(alloc, table, nodes, kind, bar)?)?;
    }
    Ok(titles)
}

fn title(
    alloc: Global,
    table: &LogTable,
    nodes: &[Node],
    kind: GroupKind,
    bar: &Bar,
) -> Result<Vec<u8>, AllocError>
    ensures { IfOk result (λ title. title.items ≡ spec.title_of table.now nodes.now kind bar.now) }
{
    let mut text = Vec::new(alloc);
    if bar.count == 1 {
        push_title_of_one(table, nodes, kind, bar, &mut text)?;
    } else {
        push_title_of_many(table, nodes, kind, bar, &mut text)?;
    }
    Ok(text)
}

fn push_title_of_one(
    table: &LogTable,
    nodes: &[Node],
    kind: GroupKind,
    bar: &Bar,
    text: &mut Vec<u8>,
) -> Result<(), AllocError>
    ensures { OnOk result (text.new.items ≡ text.old.items
        ++ spec.title_of_one table.now nodes.now kind bar.now.position (bar.now.ended - bar.now.began)) }
{
    text.extend_from_slice(name_at(table, nodes, bar.position))?;
    push_duration(b", ", kind, bar.ended.saturating_sub(bar.began), text)?;
    push_status(status_at(nodes, bar.position), text)
}

fn push_title_of_many(
    table: &LogTable,
    nodes: &[Node],
    kind: GroupKind,
    bar: &Bar,
    text: &mut Vec<u8>,
) -> Result<(), AllocError>
    ensures { OnOk result (text.new.items ≡ text.old.items
        ++ spec.title_of_many table.now nodes.now kind bar.now.position bar.now.count (bar.now.ended - bar.now.began)) }
{
    push_words(
        &[Word::Number(bar.count as u64), Word::Text(b" targets")],
        text,
    )?;
    push_duration(b" in ", kind, bar.ended.saturating_sub(bar.began), text)?;
    text.extend_from_slice(b", from ")?;
    text.extend_from_slice(name_at(table, nodes, bar.position))
}

// Appends how long the targets of a bar ran, after this word.
fn push_duration(
    word: &[u8],
    kind: GroupKind,
    ms: u64,
    text: &mut Vec<u8>,
) -> Result<(), AllocError>
    ensures { OnOk result (text.new.items ≡ text.old.items ++ spec.duration_after word.now kind ms) }
{
    match kind {
        GroupKind::Axis | GroupKind::Untimed => Ok(()),
        GroupKind::Callers | GroupKind::Recipes => {
            text.extend_from_slice(word)?;
            push_words(&duration(ms), text)
        }
    }
}

// Appends how a target ended.
fn push_status(status: Option<i32>, text: &mut Vec<u8>) -> Result<(), AllocError>
    ensures { OnOk result (text.new.items ≡ text.old.items ++ spec.status_text status) }
{
    match status {
        None => text.extend_from_slice(b", unfinished"),
        Some(0) => Ok(()),
        Some(status) => push_words(
            &[
                Word::Text(before_magnitude(status)),
                Word::Number(u64::from(status.unsigned_abs())),
            ],
            text,
        ),
    }
}

fn before_magnitude(status: i32) -> &'static [u8]
    ensures { result.now ≡ spec.before_magnitude status }
{
    if status < 0 { b", exit -" } else { b", exit " }
}
