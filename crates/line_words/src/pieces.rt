//! Splits bytes at separators: a text into lines, and a line into words.
ghost use Rattle.std.specs.Prelude.{◌≡◌, ◌∷◌, ◌==◌, ◌↔◌, [], IsTrue, MatchOption, position};
ghost use Rattle.std.specs.List.{slice_split};
ghost use Rattle.line_words.specs.Pieces.{words_of};

use std::marker::Model;

/// The remaining pieces of bytes that are split at separators. Contracts see it as the list of the pieces.
#[derive(Drop)]
pub struct Pieces<'a> {
    separator: u8,
    rest: Option<&'a [u8]>,
}

impl<'a> Model for Pieces<'a> {
    ghost use Rattle.std.specs.Prelude.{List, ℕ};
    ghost use Rattle.line_words.specs.Pieces.{pieces_left};

    ghost Value = { List (List ℕ) };

    ghost view = { λ pieces. pieces_left pieces.separator pieces.rest };
}

impl<'a> Pieces<'a> {
    /// Returns all pieces of some bytes.
    pub fn of(separator: u8, bytes: &'a [u8]) -> Pieces<'a>
        ensures { result ≡ slice_split (λ b. b == separator) bytes.now }
    {
        Pieces {
            separator,
            rest: Some(bytes),
        }
    }

    /// True if no piece is left.
    pub fn is_empty(&self) -> bool
        ensures { IsTrue result ↔ (self.now ≡ []) }
    {
        self.rest.is_none()
    }

    /// Removes the next piece and returns it. Costs its length.
    pub fn take_next(&mut self) -> Option<&'a [u8]>
        ensures { MatchOption result ((self.old ≡ []) × (self.new ≡ [])) (λ piece. self.old ≡ piece.now ∷ self.new) }
    {
        let rest = self.rest?;
        let Some(end) = first_of(self.separator, rest) else {
            self.rest = None;
            return Some(rest);
        };
        self.rest = Some(&rest[end + 1..]);
        Some(&rest[..end])
    }
}

/// Returns the index of the first separator.
fn first_of(separator: u8, bytes: &[u8]) -> Option<usize>
    ensures { result ≡ position (λ b. b == separator) bytes.now }
{
    bytes.iter().position(|byte| *byte == separator)
}

/// Removes the pieces up to the next one that isn't empty, and returns that. Costs their length.
pub fn next_word<'a>(pieces: &mut Pieces<'a>) -> Option<&'a [u8]>
    ensures { MatchOption result ((words_of pieces.old ≡ []) × (words_of pieces.new ≡ [])) (λ word. words_of pieces.old ≡ word.now ∷ words_of pieces.new) }
{
    'pieces: while let Some(piece) = pieces.take_next() {
        if !piece.is_empty() {
            return Some(piece);
        }
    }
    None
}
