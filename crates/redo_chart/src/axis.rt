//! The axis of a chart.
ghost use Rattle.std.specs.Prelude.{◌≡◌, ◌<◌, ◌^◌, ◌+◌, ◌*◌, ◌≤◌, IfOk, map};
ghost use Rattle.std.specs.List.{range_with_len};
ghost use Rattle.redo_html.specs.Chart.{shape_of};
ghost use Rattle.redo_units.specs.Ticks.{tick_step_of, tick_text};
ghost use Rattle.redo_chart.specs.Axis as spec;
ghost use Rattle.redo_chart.specs.Private.Fitting.{texts_in, tick_texts};

use redo_html::{Anchor, ChartItem};
use redo_units::{push_words, tick, tick_step};
use std::alloc::{AllocError, Global};

// The text of a tick after this position ends at its line, in hundredths of a percent.
const NEAR_END: u64 = 9_700;

/// Returns the texts of the ticks for a width in milliseconds.
pub fn tick_texts(alloc: Global, width: u64) -> Result<Vec<Vec<u8>>, AllocError>
    requires { width < 2 ^ 44 }
    ensures { IfOk result (λ texts. texts_in texts.items ≡ tick_texts width) }
{
    let step = tick_step(width);
    let mut texts = Vec::new(alloc);
    for i in 0..width / step + 1 {
        texts.push(text_of(alloc, i * step, step)?)?;
    }
    Ok(texts)
}

fn text_of(alloc: Global, ms: u64, step: u64) -> Result<Vec<u8>, AllocError>
    ensures { IfOk result (λ text. text.items ≡ tick_text ms step) }
{
    let mut text = Vec::new(alloc);
    push_words(&tick(ms, step), &mut text)?;
    Ok(text)
}

/// Returns the items of the axis. `texts` has the texts of its ticks.
pub fn axis_items<'a>(
    alloc: Global,
    bottom: u64,
    width: u64,
    texts: &'a [Vec<u8>],
) -> Result<Vec<ChartItem<'a>>, AllocError>
    requires positive { 0 < width }
    requires width { width < 2 ^ 44 }
    requires texts { texts_in texts.now ≡ tick_texts width }
    ensures { IfOk result (λ items. map shape_of items.items ≡ spec.axis_shapes bottom width) }
{
    let step = tick_step(width);
    let mut items = Vec::new(alloc);
    for (i, text) in texts.iter().enumerate() {
        let i = i as u64;
        let x = i * step * 10_000 / width;
        items.push(ChartItem::Line { x, bottom })?;
        items.push(ChartItem::Tick {
            x,
            anchor: anchor_of(i, x),
            text,
        })?;
    }
    Ok(items)
}

fn anchor_of(i: u64, x: u64) -> Anchor
    ensures { result ≡ spec.anchor_of i x }
{
    if i == 0 {
        Anchor::Start
    } else if x > NEAR_END {
        Anchor::End
    } else {
        Anchor::Middle
    }
}
