//! The trace of a volume: the records of its journal, each with the fields that it changed.
#![tactic(auto)]

mod indent;
mod replay;
mod trace;

pub use trace::trace_of;
