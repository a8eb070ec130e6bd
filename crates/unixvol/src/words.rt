//! The words of the command line, from the system.

use std::alloc::{AllocError, Global};
use std::env::{self, Env, FillError};
use std::io;

/// Returns the words of the command line, the first of which is the program's own name. The error is `OutOfMemory` if an allocation
/// was refused, and `InvalidData` if a word isn't UTF-8.
pub fn words<R: Env + AllocGlobal>(rt: &R) -> io::Result<Vec<String>> {
    Ok(env::args(rt)?.collect(rt.alloc())?)
}

/// Returns the number of the first word that isn't UTF-8; the program's own name has the number 0. Returns `None` if all words are UTF-8, or if
/// memory ran out.
pub fn place_of_no_text<R: Env + AllocGlobal>(rt: &R) -> Option<usize> {
    for place in 0..usize::MAX {
        match is_text(rt, rt.alloc(), place) {
            Ok(Some(true)) => {}
            Ok(Some(false)) => return Some(place),
            Ok(None) | Err(_) => return None,
        }
    }
    None
}

/// The size in bytes of the first buffer for a word.
const ROOM: usize = 256;

/// True if the word with this number is UTF-8. Returns `None` if there is no word with this number.
fn is_text<R: Env>(rt: &R, alloc: Global, place: usize) -> Result<Option<bool>, AllocError> {
    let mut room = ROOM;
    for _ in 0..usize::BITS {
        let mut word = vec![in alloc; 0u8; room]?;
        match rt.arg(place, &mut word) {
            Ok(count) => return Ok(Some(str::from_utf8(&word[..count]).is_ok())),
            Err(FillError::NotPresent) => return Ok(None),
            Err(FillError::TooLong) => room = room.saturating_mul(2),
        }
    }
    Err(AllocError)
}
