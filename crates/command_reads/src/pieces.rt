//! Lists of JSON that are written piece by piece.
ghost use Rattle.std.specs.Prelude.{◌≡◌, ◌++◌, codes, false, flat_map, IfOk, OnOk, string_bytes};
ghost use Rattle.serde_json.specs.Written.{compact_text, has_float};
ghost use Rattle.vol_archive.specs.Write.{Writes};
ghost use Rattle.command_reads.specs.Json.{item_text, later_text, listed_text};

use crate::json::Shown;
use crate::print::put;
use pdp_words::Sink;
use std::alloc::{AllocError, Global};
use vol_archive::WriteFault;

/// The greatest number of items whose text is written at once.
const MOST: usize = 128;

/// Writes the text of the items of a list that have no floats, without the list's brackets.
///
/// Takes memory for the text of at most [`MOST`] items.
pub(crate) fn put_items<T: Shown, O: Sink>(
    alloc: Global,
    items: &[T],
    output: &mut O,
) -> Result<(), WriteFault>
    requires whole { (item : T) → has_float (T.shown item) ≡ false }
    ensures { Writes (O.contents output.old) (O.contents output.new) (O.failed output.old) (O.failed output.new) (listed_text T.shown items.now) result }
{
    let Some((first, rest)) = items.split_first() else {
        return Ok(());
    };
    put_first(alloc, first, output)?;
    put_rest(alloc, rest, output)
}

/// Writes the text of the first item.
fn put_first<T: Shown, O: Sink>(alloc: Global, item: &T, output: &mut O) -> Result<(), WriteFault>
    requires whole { (item : T) → has_float (T.shown item) ≡ false }
    ensures { Writes (O.contents output.old) (O.contents output.new) (O.failed output.old) (O.failed output.new) (item_text T.shown item.now) result }
{
    let text = item_text(alloc, item)?;
    put(text.as_bytes(), output)
}

/// Writes the text of the items after the first, a few at a time.
fn put_rest<T: Shown, O: Sink>(alloc: Global, items: &[T], output: &mut O) -> Result<(), WriteFault>
    requires whole { (item : T) → has_float (T.shown item) ≡ false }
    ensures { Writes (O.contents output.old) (O.contents output.new) (O.failed output.old) (O.failed output.new)
        (flat_map (later_text T.shown) items.now) result }
{
    let mut from = 0;
    while from < items.len() {
        let few = (items.len() - from).min(MOST);
        put_few(alloc, &items[from..from + few], output)?;
        from += few;
    }
    Ok(())
}

/// Writes the text of a few items after the first, at once.
fn put_few<T: Shown, O: Sink>(alloc: Global, items: &[T], output: &mut O) -> Result<(), WriteFault>
    requires whole { (item : T) → has_float (T.shown item) ≡ false }
    ensures { Writes (O.contents output.old) (O.contents output.new) (O.failed output.old) (O.failed output.new)
        (flat_map (later_text T.shown) items.now) result }
{
    let mut text = Vec::new(alloc);
    push_items(alloc, items, &mut text)?;
    put(&text, output)
}

/// Appends the text of items after the first.
fn push_items<T: Shown>(alloc: Global, items: &[T], text: &mut Vec<u8>) -> Result<(), AllocError>
    requires whole { (item : T) → has_float (T.shown item) ≡ false }
    ensures { OnOk result (text.new.items ≡ text.old.items ++ flat_map (later_text T.shown) items.now) }
{
    'items: for item in items {
        push_item(alloc, item, text)?;
    }
    Ok(())
}

/// Appends the text of an item after the first, with the comma before it.
fn push_item<T: Shown>(alloc: Global, item: &T, text: &mut Vec<u8>) -> Result<(), AllocError>
    requires whole { (item : T) → has_float (T.shown item) ≡ false }
    ensures { OnOk result (text.new.items ≡ text.old.items ++ later_text T.shown item.now) }
{
    let item = item_text(alloc, item)?;
    text.push(b',')?;
    text.extend_from_slice(item.as_bytes())?;
    Ok(())
}

/// Returns the text of an item.
fn item_text<T: Shown>(alloc: Global, item: &T) -> Result<String, AllocError>
    requires whole { (item : T) → has_float (T.shown item) ≡ false }
    ensures { IfOk result (λ text. string_bytes text ≡ item_text T.shown item.now) }
{
    let value = item.value(alloc)?;
    value.to_string(alloc)
}
