//! The lines of a map.
ghost use Rattle.std.specs.Prelude.{◌≡◌};
ghost use Rattle.bad_maps.specs.Lines.{fault_text, is_read_status, is_silent, is_state, is_state_status, is_status, is_pass, range_in};

use crate::words::{LineWords, number_of};

/// What is wrong with a line of a map.
#[derive(Clone, Copy)]
pub enum LineFault {
    /// It isn't ddrescue's own state, which comes before the ranges.
    State,
    /// The map ends before ddrescue's own state.
    Missing,
    /// The position of a range is no number.
    Position,
    /// The size of a range is no number.
    Size,
    /// The status of a range is none of those that ddrescue knows.
    Status,
    /// A range has more words than three.
    More,
    /// A range ends past the last byte that a file can have.
    Far,
    /// A range begins before the end of the one above it.
    Overlap,
}

impl LineFault {
    /// Returns the fault in plain words.
    pub fn text(self) -> &'static [u8]
        ensures { result.now ≡ fault_text self }
    {
        match self {
            LineFault::State =>
                b"it isn't ddrescue's state: a position, one of ? * / - F G +, and perhaps a pass",
            LineFault::Missing => b"the map ends before ddrescue's state",
            LineFault::Position => b"the position is no number",
            LineFault::Size => b"the size is no number",
            LineFault::Status => b"the status is none of ? * / - +",
            LineFault::More => b"it has more than three words",
            LineFault::Far => b"the range ends past the last byte of any file",
            LineFault::Overlap => b"the range begins before the end of the one above",
        }
    }
}

/// A line of a map that is for a range of bytes.
#[derive(Clone, Copy)]
pub(crate) struct MapLine {
    /// The first byte.
    pub(crate) first: u64,
    /// The one after the last.
    pub(crate) end: u64,
    /// True if the bytes were read.
    pub(crate) is_read: bool,
}

/// True if a line has no words, or is a comment.
pub(crate) fn is_silent(line: &[u8]) -> bool
    ensures { result ≡ is_silent line.now }
{
    let word = LineWords::of(line).first;
    word.is_empty() || word[0] == b'#'
}

/// True if a line is ddrescue's own state: a position, the status of its work, and in newer maps the number of its pass.
pub(crate) fn is_state(line: &[u8]) -> bool
    ensures { result ≡ is_state line.now }
{
    let words = LineWords::of(line);
    number_of(words.first).is_some()
        && is_state_status(words.second)
        && is_pass(words.third)
        && words.fourth.is_empty()
}

/// True if a word is the number of a pass, or is missing.
fn is_pass(word: &[u8]) -> bool
    ensures { result ≡ is_pass word.now }
{
    word.is_empty() || number_of(word).is_some()
}

/// True if a word is a status of ddrescue's work: that of a range, or `F` or `G`, for filling and for making a map.
fn is_state_status(word: &[u8]) -> bool
    ensures { result ≡ is_state_status word.now }
{
    is_status(word) || word == b"F".as_slice() || word == b"G".as_slice()
}

/// True if a word is the status of a range.
fn is_status(word: &[u8]) -> bool
    ensures { result ≡ is_status word.now }
{
    is_read_status(word)
        || word == b"?".as_slice()
        || word == b"*".as_slice()
        || word == b"/".as_slice()
        || word == b"-".as_slice()
}

/// True if a word is the status of a range that was read.
fn is_read_status(word: &[u8]) -> bool
    ensures { result ≡ is_read_status word.now }
{
    word == b"+".as_slice()
}

/// Reads a line that is for a range.
pub(crate) fn range_in(line: &[u8]) -> Result<MapLine, LineFault>
    ensures { result ≡ range_in line.now }
{
    let words = LineWords::of(line);
    let Some(first) = number_of(words.first) else {
        return Err(LineFault::Position);
    };
    let Some(size) = number_of(words.second) else {
        return Err(LineFault::Size);
    };
    if !is_status(words.third) {
        return Err(LineFault::Status);
    }
    if !words.fourth.is_empty() {
        return Err(LineFault::More);
    }
    match first.checked_add(size) {
        Some(end) => Ok(MapLine {
            first,
            end,
            is_read: is_read_status(words.third),
        }),
        None => Err(LineFault::Far),
    }
}
