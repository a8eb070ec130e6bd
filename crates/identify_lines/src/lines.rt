//! What a file seems to be, as lines.
ghost use Rattle.std.specs.Prelude.{◌≡◌, ◌++◌, IfOk, OnOk, string_bytes};
ghost use Rattle.identify_lines.specs.Lines.{follow_text, identified_line, image_tail, is_cut, seen_lines, tail_line, tail_lines};

use crate::seen::{BLOCK, Seen};
use crate::shell_words::file_word;
use crate::shown_path::ShownPath;
use std::alloc::{AllocError, Global};
use vol_identify::{Guess, Identified, pack_lines};

/// The number of bytes of a file that are read for a guess if no volume may begin at its front.
pub const MOST: usize = 268_435_456;

/// Returns the line of an image in the file at `path`, or the lines of the pack in it, and a line for the bytes after the last whole block of the file.
/// `size` is the number of its bytes, if the system knows it.
pub fn seen_lines(
    alloc: Global,
    path: &str,
    size: Option<u64>,
    seen: &Seen,
) -> Result<String, AllocError>
    ensures { IfOk result (λ lines. string_bytes lines ≡ seen_lines path.now size seen.now) }
{
    match seen {
        Seen::Pack(parts) => {
            let word = file_word(alloc, path)?;
            let shown = format!(in alloc; "{}", ShownPath(path))?;
            let mut lines = pack_lines(alloc, &shown, &word, parts)?;
            push_tail(&mut lines, size)?;
            Ok(lines)
        }
        Seen::Image { found, read } => {
            let mut line = identified_line(alloc, path, *found, *read)?;
            push_image_tail(&mut line, found.guess, size)?;
            Ok(line)
        }
    }
}

/// Appends the line of the bytes after the last whole block of an image, if it is a whole volume and there are any.
fn push_image_tail(lines: &mut String, guess: Guess, size: Option<u64>) -> Result<(), AllocError>
    ensures { OnOk result (string_bytes lines.new ≡ string_bytes lines.old ++ image_tail guess size) }
{
    match guess {
        Guess::Volume(_) => push_tail(lines, size),
        Guess::Empty
        | Guess::Packed(_)
        | Guess::Tar
        | Guess::Swapped(_)
        | Guess::Ext2
        | Guess::CutOff { .. }
        | Guess::Foreign(_)
        | Guess::Inside { .. }
        | Guess::Unknown => Ok(()),
    }
}

/// Appends the line of the bytes after the last whole block of a file, if its size is known and there are any.
fn push_tail(lines: &mut String, size: Option<u64>) -> Result<(), AllocError>
    ensures { OnOk result (string_bytes lines.new ≡ string_bytes lines.old ++ tail_lines size) }
{
    match size {
        None => Ok(()),
        Some(size) => push_tail_line(lines, size),
    }
}

/// Appends the line of the bytes after the last whole block of a file of this size, if there are any.
fn push_tail_line(lines: &mut String, size: u64) -> Result<(), AllocError>
    ensures { OnOk result (string_bytes lines.new ≡ string_bytes lines.old ++ tail_line size) }
{
    let block = size / BLOCK;
    match size % BLOCK {
        0 => Ok(()),
        1 => write!(lines, "  at {block}: 1 byte follows\n"),
        bytes => write!(lines, "  at {block}: {bytes} bytes follow\n"),
    }
}

/// Returns the line of an image of which so many bytes were looked at.
fn identified_line(
    alloc: Global,
    path: &str,
    found: Identified,
    bytes: usize,
) -> Result<String, AllocError>
    ensures { IfOk result (λ line. string_bytes line ≡ identified_line path.now found bytes) }
{
    let path = ShownPath(path);
    if is_cut(found.guess, bytes) {
        format!(in alloc; "{path}: {found}, by its first {bytes} bytes\n")
    } else {
        format!(in alloc; "{path}: {found}\n")
    }
}

/// True if a guess by so many bytes could be changed by bytes after them, which weren't read.
#[tactic(auto, unfolding(crate::specs::Lines::is_cut))]
fn is_cut(guess: Guess, bytes: usize) -> bool
    ensures { result ≡ is_cut guess bytes }
{
    guess.is_open() && MOST <= bytes
}
