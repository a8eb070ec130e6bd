//! The faults of a command's words.
ghost use Rattle.std.specs.Prelude.{◌≡◌};
ghost use Rattle.command_words.specs.declared.fault.WordFault.TheVariants as faults;

use std::alloc::AllocError;

/// The reason why the words of a command were refused.
#[derive(Clone, Copy)]
pub enum WordFault<'a> {
    /// Out of memory.
    NoMemory,
    /// A word isn't valid for its argument.
    Wrong(WrongWord<'a>),
}

/// A word that isn't valid for its argument.
#[derive(Clone, Copy)]
pub struct WrongWord<'a> {
    /// The name of the argument.
    pub name: &'a str,
    /// The word given for it.
    pub said: Said<'a>,
    /// The text that describes the expected word.
    pub wanted: &'a str,
}

/// The word given for an argument.
#[derive(Clone, Copy)]
pub enum Said<'a> {
    /// Nothing.
    Nothing,
    /// A word.
    Word(&'a str),
    /// This number of words.
    Words(usize),
    /// The option of this name, which doesn't go together with the argument.
    Option(&'a str),
}

impl<'a> From<AllocError> for WordFault<'a> {
    ghost from_gives = { λ _ fault. fault ≡ faults.NoMemory };

    fn from(_: AllocError) -> WordFault<'a> {
        WordFault::NoMemory
    }
}
