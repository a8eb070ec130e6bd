//! Times on the command line.
ghost use Rattle.std.specs.Prelude.{◌≡◌, ◌≢◌, ◌≤◌, ◌*◌, ℕ, None, IfSome, Ok, pos};
ghost use Rattle.jiff.specs.Words.{parse_timestamp};
ghost use Rattle.command_words.specs.Moment.{IsDayOf, IsMomentOf, second_of};

use crate::decimal::long_of;
use arrayvec::ArrayString;
use jiff::Timestamp;

/// Nanoseconds in a second.
const SECOND: u128 = 1_000_000_000;

/// The time of day that a date without a time means, in UTC.
const MIDNIGHT: &str = "T00:00:00Z";

/// The greatest number of bytes of a date without a time, together with the time that it means.
const ROOM: usize = 32;

/// Reads a time, in seconds since the beginning of 1970: a number as [`long_of`] reads it, a date and time with an
/// offset, such as `2026-11-23T12:00:00Z`, or a date, such as `2026-11-23`, which means the midnight at its beginning, in
/// UTC. Returns `None` for any other text, or if the time has a fraction of a second or doesn't fit in 32 bits.
pub(crate) fn moment_of(text: &str) -> Option<u32>
    ensures some { IfSome result (IsMomentOf text.now) }
    ensures none { result ≡ None → (now : ℕ) → IsMomentOf text.now now → ⊥ }
{
    match long_of(text) {
        Some(number) => Some(number),
        None => match date_of(text) {
            Some(moment) => Some(moment),
            None => day_of(text),
        },
    }
}

/// Reads a date without a time.
fn day_of(text: &str) -> Option<u32>
    ensures some { IfSome result (IsDayOf text.now) }
    ensures none { result ≡ None → (now : ℕ) → IsDayOf text.now now → ⊥ }
{
    let mut whole = ArrayString::<ROOM>::new();
    whole.try_push_str(text).ok()?;
    whole.try_push_str(MIDNIGHT).ok()?;
    date_of(whole.as_str())
}

/// Reads a date and time. Returns `None` for any other text, or if the time has a fraction of a second or doesn't fit in 32
/// bits.
fn date_of(text: &str) -> Option<u32>
    ensures some { IfSome result (λ now. parse_timestamp text.now ≡ Ok (second_of now)) }
    ensures none { result ≡ None → (now : ℕ) → now ≤ 4294967295 → parse_timestamp text.now ≢ Ok (second_of now) }
{
    let moment = text.parse::<Timestamp>().ok()?;
    let nanoseconds = u128::try_from(moment.as_nanosecond()).ok()?;
    if nanoseconds % SECOND == 0 {
        u32::try_from(nanoseconds / SECOND).ok()
    } else {
        None
    }
}
