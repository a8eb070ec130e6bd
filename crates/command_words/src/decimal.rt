//! Numbers on the command line.
ghost use Rattle.std.specs.Prelude.{◌≡◌, ◌==◌, SomeIff, slice_index};
ghost use Rattle.std.specs.Str.Parse.{digits_value};
ghost use Rattle.command_words.specs.Decimal.{IsNumberUpTo, IsThreads};

use vol_check::MOST_WORKERS;

/// Reads a 16-bit number: one or more decimal digits, with leading zeros allowed and no sign. Returns `None` for any other
/// text, or if the number has more bits.
pub(crate) fn word_of(text: &str) -> Option<u16>
    ensures { SomeIff result (IsNumberUpTo 65535 text.now) (digits_value 10 text.now) }
{
    if is_signed(text) {
        return None;
    }
    text.parse().ok()
}

/// Reads a number from 0 to 255, written as [`word_of`] reads it.
pub(crate) fn byte_of(text: &str) -> Option<u8>
    ensures { SomeIff result (IsNumberUpTo 255 text.now) (digits_value 10 text.now) }
{
    if is_signed(text) {
        return None;
    }
    text.parse::<u8>().ok()
}

/// Reads a 32-bit number, written as [`word_of`] reads it.
pub(crate) fn long_of(text: &str) -> Option<u32>
    ensures { SomeIff result (IsNumberUpTo 4294967295 text.now) (digits_value 10 text.now) }
{
    if is_signed(text) {
        return None;
    }
    text.parse::<u32>().ok()
}

/// Reads a number of threads, 1 to [`MOST_WORKERS`], written as [`word_of`] reads it. Returns `None` for any other text or
/// number.
pub(crate) fn threads_of(text: &str) -> Option<usize>
    ensures { SomeIff result (IsThreads text.now) (digits_value 10 text.now) }
{
    match word_of(text) {
        Some(number) if 0 < number && usize::from(number) <= MOST_WORKERS => {
            Some(usize::from(number))
        },
        _ => None,
    }
}

/// True if a text begins with a plus sign, which Rust's parser would accept.
pub(crate) fn is_signed(text: &str) -> bool
    ensures { result ≡ (slice_index text.now 0 == 43) }
{
    text.as_bytes().first() == Some(&b'+')
}
