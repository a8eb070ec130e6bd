//! Scripts of the command `play`: reads their lines and prints their results.
#![tactic(auto)]

mod arguments;
mod commands;
pub mod ending;
mod flaws;
pub mod form;
mod journal;
mod lines;
mod numbers;
pub mod played;
pub mod read;
mod report;
mod report_json;
pub mod steps;
mod texts;
pub mod unread_scripts;

pub use ending::finish;
pub use form::ReportForm;
pub use journal::push_call;
pub use played::Played;
pub use read::{ScriptFault, ScriptsFault, has_bad_start, read_script, read_scripts};
pub use steps::{Script, ScriptStep, Sequence};
pub use unread_scripts::refuse;
