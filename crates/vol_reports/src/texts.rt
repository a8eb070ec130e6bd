//! The text of a report.
ghost use Rattle.std.specs.Prelude.{◌≡◌, ◌++◌, ◌∷◌, [], IfOk};
ghost use Rattle.std.specs.Fmt.{decimal};
ghost use Rattle.vol_reports.specs.Texts.{total_word, all_spaced, worded, bare_text, line_text, report_text};

use crate::line::{Line, Total};
use crate::report::Report;
use std::alloc::AllocError;

impl Report {
    /// Appends the text of all lines, each with a newline.
    ///
    /// Takes time in proportion to the length of the text.
    pub fn push_text(&self, text: &mut Vec<u8>) -> Result<(), AllocError>
        ensures { IfOk result (λ _. text.new.items ≡ text.old.items ++ report_text self.now) }
    {
        for line in self.lines() {
            line.push_text(text)?;
        }
        Ok(())
    }
}

impl Line {
    /// Appends the line's text and a newline; names and paths aren't escaped.
    pub fn push_text(&self, text: &mut Vec<u8>) -> Result<(), AllocError>
        ensures { IfOk result (λ _. text.new.items ≡ text.old.items ++ line_text self.now) }
    {
        push_bare(text, self)?;
        text.push(b'\n')?;
        Ok(())
    }
}

impl Total {
    /// Returns the word for this total in a line.
    pub fn word(self) -> &'static str
        ensures { result.now ≡ total_word self }
    {
        match self {
            Total::Files => "files",
            Total::Directories => "directories",
            Total::Special => "special",
            Total::Odd => "odd",
            Total::Used => "used",
            Total::Free => "free",
            Total::Missing => "missing",
        }
    }
}

/// Appends a line's text without its newline.
fn push_bare(text: &mut Vec<u8>, line: &Line) -> Result<(), AllocError>
    ensures { IfOk result (λ _. text.new.items ≡ text.old.items ++ bare_text line.now) }
{
    match line {
        Line::Rule(number) => push_worded(text, b"rule", &[u64::from(*number)]),
        Line::Bad {
            inode,
            count,
            least,
        } => push_worded(text, b"bad", &[u64::from(*inode), *count, *least]),
        Line::Dup {
            block,
            places,
            free,
        } => push_worded(
            text,
            b"dup",
            &[u64::from(*block), *places, u64::from(*free)],
        ),
        Line::Lost(block) => push_worded(text, b"lost", &[u64::from(*block)]),
        Line::FreeList(fault, number) => push_worded(
            text,
            fault.word().as_bytes(),
            &[u64::from(*number)],
        ),
        Line::Total(total, count) => push_worded(text, total.word().as_bytes(), &[*count]),
        Line::Links {
            inode,
            entries,
            links,
        } => {
            push_number(text, u64::from(*inode))?;
            push_numbers(text, &[*entries, u64::from(*links)])
        }
        Line::Name { inode, path } => {
            push_number(text, u64::from(*inode))?;
            text.push(b' ')?;
            text.extend_from_slice(path.as_slice())
        }
    }
}

/// Appends a word, and numbers after it.
fn push_worded(text: &mut Vec<u8>, word: &[u8], numbers: &[u64]) -> Result<(), AllocError>
    ensures { IfOk result (λ _. text.new.items ≡ text.old.items ++ worded word.now numbers.now) }
{
    text.extend_from_slice(word)?;
    push_numbers(text, numbers)
}

/// Appends numbers with a space before each.
fn push_numbers(text: &mut Vec<u8>, numbers: &[u64]) -> Result<(), AllocError>
    ensures { IfOk result (λ _. text.new.items ≡ text.old.items ++ all_spaced numbers.now) }
{
    for number in numbers {
        text.push(b' ')?;
        push_number(text, *number)?;
    }
    Ok(())
}

/// Appends a number in decimal digits.
fn push_number(text: &mut Vec<u8>, number: u64) -> Result<(), AllocError>
    ensures { IfOk result (λ _. text.new.items ≡ text.old.items ++ decimal number) }
{
    if number >= 10 {
        push_number(text, number / 10)?;
    }
    text.push(b'0' + (number % 10) as u8)?;
    Ok(())
}
