//! Runs in which any one allocation may be refused. They check the state after the refusal.
//!
//! refused volume|sessions|views
//!
//! Runs the steps one after another. A step that runs out of memory must leave everything unchanged, which is checked; then it is repeated. Prints
//! the number of broken promises, so the output is the same whichever allocation is refused. `tests/refused.sh` refuses each allocation in turn.

mod found;
mod sessions;
mod volumes;

use crate::refused::found::Found;
use std::alloc::Global;
use std::sync::Wait;

/// Performs the run that the second word names, until it ends or can't go on, and returns the broken promises. A run that couldn't be finished counts
/// as one.
pub(crate) fn run<R: Wait>(rt: &R, alloc: Global, words: &[String]) -> Found {
    let mut found = Found { broken: 0 };
    let finished = match words.get(1) {
        Some(name) => run_named(rt, alloc, name.as_str(), &mut found),
        None => None,
    };
    found.wants(finished.is_some());
    found
}

/// Performs the run with this name. Returns `None` if a step couldn't be done.
fn run_named<R: Wait>(rt: &R, alloc: Global, name: &str, found: &mut Found) -> Option<()> {
    match name {
        "volume" => volumes::change(alloc, found),
        "sessions" => sessions::share(rt, alloc, found, false),
        "views" => sessions::share(rt, alloc, found, true),
        _ => None,
    }
}
