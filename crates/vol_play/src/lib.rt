//! Plays scripts of calls and queries on a volume that threads share. Each script has one session or one view, and one thread.
#![tactic(auto)]

mod deal;
mod gather;
mod open;
mod performance;
mod play_command;
mod prepare;
mod queries;
mod run;
mod steps;
mod traced;

pub use play_command::{perform, play};
