//! What numbers in an image mean.
ghost use Rattle.std.specs.Prelude.{◌≡◌, ◌++◌, ◌%◌, IfOk, OnOk};
ghost use Rattle.serde_json.specs.View.{view};
ghost use Rattle.vol_layout.specs.Geometry.{Fits};
ghost use Rattle.field_json.specs.Meanings.{meaning, meaning_of, mode_words, words_data};

use pdp_words::Image;
use serde_json::Value;
use std::alloc::{AllocError, Global};
use vol_fields::{Role, Spot, ValueKind, inode_meaning, pointer_meaning};
use vol_inspect::kind_name;
use vol_layout::{Edition, Geometry, Mode};
use vol_listing::json::escaped_text;
use vol_listing::{kind_letters, push_moment};

/// Returns what a number in a part means, or null if it means no more than itself.
pub(crate) fn meaning_value(
    alloc: Global,
    image: &Image,
    geometry: &Geometry,
    roles: &[Role],
    part: Spot,
    sort: ValueKind,
    number: Option<u32>,
) -> Result<Value, AllocError>
    requires { Fits geometry.now image.now }
    ensures { IfOk result (λ value. view value ≡ words_data (meaning_of geometry.now roles.now image.now part sort number)) }
{
    let mut words = Vec::new(alloc);
    if let Some(n) = number {
        push_meaning(alloc, &mut words, image, geometry, roles, part, sort, n)?;
    }
    words_value(alloc, &words)
}

/// Returns some words as text, or null if there are none.
#[tactic(auto, unfolding(crate::specs::Meanings::words_data))]
fn words_value(alloc: Global, words: &[u8]) -> Result<Value, AllocError>
    ensures { IfOk result (λ value. view value ≡ words_data words.now) }
{
    if words.is_empty() {
        return Ok(Value::Null);
    }
    Ok(Value::String(escaped_text(alloc, words)?))
}

/// Appends what a number in a part means.
#[tactic(auto, unfolding(crate::specs::Meanings::meaning))]
fn push_meaning(
    alloc: Global,
    words: &mut Vec<u8>,
    image: &Image,
    geometry: &Geometry,
    roles: &[Role],
    part: Spot,
    sort: ValueKind,
    n: u32,
) -> Result<(), AllocError>
    requires { Fits geometry.now image.now }
    ensures { OnOk result (words.new.items ≡ words.old.items ++ meaning geometry.now roles.now image.now part sort n) }
{
    match sort {
        ValueKind::Mode => push_mode_words(words, geometry.edition, n),
        ValueKind::Moment => push_moment(words, n),
        ValueKind::Inode => {
            Ok(words.extend_from_slice(inode_meaning(image, geometry, n).as_bytes())?)
        }
        ValueKind::Block => {
            let meaning = pointer_meaning(alloc, image, geometry, roles, part, n)?;
            Ok(words.extend_from_slice(meaning.as_bytes())?)
        }
        ValueKind::Number | ValueKind::Name | ValueKind::Bytes => Ok(()),
    }
}

/// Appends the words for a mode: the letters of `ls -l`, or the word for its kind if it has none.
pub fn push_mode_words(words: &mut Vec<u8>, edition: Edition, n: u32) -> Result<(), AllocError>
    ensures { OnOk result (words.new.items ≡ words.old.items ++ mode_words edition (n % 65536)) }
{
    let mode = Mode {
        bits: (n % 65536) as u16,
    };
    let kind = mode.kind(edition);
    match kind_letters(mode, kind) {
        Some(letters) => Ok(words.extend_from_slice(&letters)?),
        None => Ok(words.extend_from_slice(kind_name(kind).as_bytes())?),
    }
}
