//! The system, and the user's choices for messages.
ghost use Rattle.std.specs.Prelude.{◌≡◌, true, map, string_bytes};
ghost use Rattle.command_line.specs.Explain.{asks_to_explain};

use crate::looks::wants_meanings;
use command_line::asks_to_explain;
use std::env::Env;

/// The system that the program runs on, and the user's choices for messages.
#[derive(Clone, Copy)]
pub struct Surroundings<'a, R> {
    /// The system.
    pub rt: &'a R,
    /// The words of the command line, the first of which is the program's own name.
    pub words: &'a [String],
    /// True if standard error is a terminal, where a user reads the messages.
    pub is_watched: bool,
    /// True if a second line explains each fault.
    pub explains: bool,
}

impl<'a, R: Env + AllocGlobal> Surroundings<'a, R> {
    /// Returns the system with the choices that the words of the command line and the environment make. `is_watched` is true if standard error is a
    /// terminal.
    pub fn new(rt: &'a R, words: &'a [String], is_watched: bool) -> Surroundings<'a, R>
        ensures words { result.words.now ≡ words.now }
        ensures watched { result.is_watched ≡ is_watched }
        ensures asked { asks_to_explain (map string_bytes words.now) ≡ true → result.explains ≡ true }
    {
        Surroundings {
            rt,
            words,
            is_watched,
            explains: asks_to_explain(words) || wants_meanings(rt, is_watched),
        }
    }
}
