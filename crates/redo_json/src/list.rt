//! Members of an object with lists of bytes.
ghost use Rattle.std.specs.Prelude.{◌≡◌, ◌≤◌, true, [], ◌∷◌, length, drop, map, IfNone, IfSome, if◌then◌else◌};
ghost use Rattle.redo_device.specs.Sink.{Writes};
ghost use Rattle.redo_json.specs.Fields.{exact_items, exact_list, exact_name, list_fields};
ghost use Rattle.redo_json.specs.Private.Parts.{IsNextExact, comma_fields, exact_item, item_text, items_text};

use crate::field::is_text;
use crate::part::{Part, write_parts};
use redo_device::{Broken, Sink, push_all};

/// Writes a member with the texts of a list, and another one with the exact bytes of the items whose texts don't have them.
pub fn write_list<W: Sink>(name: &[u8], list: &[&[u8]], out: &mut W) -> Result<(), Broken>
    ensures { Writes (W.written out.old) (W.written out.new)
        (comma_fields (list_fields name.now (map (λ bytes. bytes.now) list.now))) result }
{
    write_parts(
        &[Part::Json(b",\""), Part::Escaped(name), Part::Json(b"\":[")],
        out,
    )?;
    write_items(list, out)?;
    push_all(out, b"]")?;
    write_exact_list(name, list, out)
}

fn write_items<W: Sink>(list: &[&[u8]], out: &mut W) -> Result<(), Broken>
    ensures { Writes (W.written out.old) (W.written out.new) (items_text true (map (λ bytes. bytes.now) list.now)) result }
{
    'items: for at in 0..list.len() {
        write_item(at == 0, list[at], out)?;
    }
    Ok(())
}

// Writes the text of an item, after a comma unless it is the first item.
fn write_item<W: Sink>(is_first: bool, bytes: &[u8], out: &mut W) -> Result<(), Broken>
    ensures { Writes (W.written out.old) (W.written out.new) (item_text is_first bytes.now) result }
{
    write_parts(&[Part::Json(comma_after(is_first)), Part::Text(bytes)], out)
}

/// Returns the comma before an item that isn't the first one.
pub fn comma_after(is_first: bool) -> &'static [u8]
    ensures { result.now ≡ (if is_first then [] else 44 ∷ []) }
{
    if is_first { b"" } else { b"," }
}

// Writes a member with the exact bytes of the items whose texts don't have them, if there are such items.
fn write_exact_list<W: Sink>(name: &[u8], list: &[&[u8]], out: &mut W) -> Result<(), Broken>
    ensures { Writes (W.written out.old) (W.written out.new)
        (comma_fields (exact_list (exact_name name.now) (exact_items 0 (map (λ bytes. bytes.now) list.now)))) result }
{
    let Some(first) = next_exact(list, 0) else {
        return Ok(());
    };
    write_parts(
        &[
            Part::Json(b",\""),
            Part::Escaped(name),
            Part::Json(b"_base64\":{"),
        ],
        out,
    )?;
    write_exact_item(first, list[first], out)?;
    write_other_items(list, first + 1, out)?;
    push_all(out, b"}")
}

// Writes the exact bytes of the items from `from` on whose texts don't have them, each after a comma.
fn write_other_items<W: Sink>(list: &[&[u8]], from: usize, out: &mut W) -> Result<(), Broken>
    requires { from ≤ length list.now }
    ensures { Writes (W.written out.old) (W.written out.new)
        (comma_fields (exact_items from (drop from (map (λ bytes. bytes.now) list.now)))) result }
{
    let mut left = from;
    'items: while let Some(at) = next_exact(list, left) {
        push_all(out, b",")?;
        write_exact_item(at, list[at], out)?;
        left = at + 1;
    }
    Ok(())
}

// Returns the position of the first item from `from` on whose text doesn't have the exact bytes.
fn next_exact(list: &[&[u8]], from: usize) -> Option<usize>
    requires { from ≤ length list.now }
    ensures some { IfSome result (IsNextExact (map (λ bytes. bytes.now) list.now) from) }
    ensures none { IfNone result (exact_items from (drop from (map (λ bytes. bytes.now) list.now)) ≡ []) }
{
    'items: for at in from..list.len() {
        if !is_text(list[at]) {
            return Some(at);
        }
    }
    None
}

/// Writes the exact bytes of the item at this position.
pub fn write_exact_item<W: Sink>(position: usize, bytes: &[u8], out: &mut W) -> Result<(), Broken>
    ensures { Writes (W.written out.old) (W.written out.new) (exact_item position bytes.now) result }
{
    write_parts(
        &[
            Part::Json(b"\""),
            Part::Position(position as u64),
            Part::Json(b"\":"),
            Part::Base64(bytes),
        ],
        out,
    )
}
