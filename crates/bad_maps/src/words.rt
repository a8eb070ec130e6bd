//! The words of a line of a map.
ghost use Rattle.std.specs.Prelude.{◌≡◌, [], get_or, drop};
ghost use Rattle.line_words.specs.Pieces.{words_of};
ghost use Rattle.bad_maps.specs.Words.{number_of, word_at};

use line_words::{Pieces, next_word, number_in};

/// The first four words of a line. A word that is missing is empty.
#[derive(Clone, Copy)]
pub(crate) struct LineWords<'a> {
    /// The first.
    pub(crate) first: &'a [u8],
    /// The second.
    pub(crate) second: &'a [u8],
    /// The third.
    pub(crate) third: &'a [u8],
    /// The fourth.
    pub(crate) fourth: &'a [u8],
}

impl<'a> LineWords<'a> {
    /// Returns the first four words of a line. Words are apart by spaces.
    pub(crate) fn of(line: &'a [u8]) -> LineWords<'a>
        ensures first { result.first.now ≡ word_at line.now 0 }
        ensures second { result.second.now ≡ word_at line.now 1 }
        ensures third { result.third.now ≡ word_at line.now 2 }
        ensures fourth { result.fourth.now ≡ word_at line.now 3 }
    {
        let mut pieces = Pieces::of(b' ', line);
        let first = word_or_empty(&mut pieces);
        let second = word_or_empty(&mut pieces);
        let third = word_or_empty(&mut pieces);
        let fourth = word_or_empty(&mut pieces);
        LineWords {
            first,
            second,
            third,
            fourth,
        }
    }
}

/// Removes the pieces up to the next word, and returns that, or the empty word if there is none.
fn word_or_empty<'a>(pieces: &mut Pieces<'a>) -> &'a [u8]
    ensures word { result.now ≡ get_or (words_of pieces.old) 0 [] }
    ensures rest { words_of pieces.new ≡ drop 1 (words_of pieces.old) }
{
    match next_word(pieces) {
        Some(word) => word,
        None => b"",
    }
}

/// Returns the number in a word: hexadecimal after `0x`, else decimal. A decimal number has no leading zero, since ddrescue reads it as octal.
pub(crate) fn number_of(word: &[u8]) -> Option<u64>
    ensures { result ≡ number_of word.now }
{
    if let Some(digits) = word.strip_prefix(b"0x".as_slice()) {
        return number_in(16, u64::MAX, digits);
    }
    if word.len() > 1 && word[0] == b'0' {
        return None;
    }
    number_in(10, u64::MAX, word)
}
