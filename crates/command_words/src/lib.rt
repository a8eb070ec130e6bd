//! The commands and their words, and the functions that read them.
#![tactic(auto)]

mod bad_words;
mod checkers;
mod commands;
mod decimal;
mod disks;
pub mod fault;
pub mod given;
pub mod invocation;
mod moment;
mod owners;
pub mod parameters;
mod permissions;
pub mod read_words;
mod several;
pub mod texts;
pub mod verbs;

pub use fault::{Said, WordFault, WrongWord};
pub use given::Given;
pub use invocation::{
    BadImage, Copying, GivenBad, GuessForm, Invocation, MadeFile, Moment, NewPlace, Serving,
    VolumeFile, Work,
};
pub use parameters::{Need, Parameter, ValueName, WordKind};
pub use read_words::read;
pub use verbs::{VERBS, Verb};
