//! The entries of a tree of whose image blocks are lost: what is left out, and what of the others is right.
#![tactic(auto)]

pub mod damage;
pub mod laws;
pub mod lines;
pub mod notes;
pub mod outcomes;
pub mod repaired;

pub use damage::{Damage, damage_of, without_damaged};
pub use lines::{ToldLosses, push_role, tell_losses, tell_named};
pub use notes::notes_on;
pub use outcomes::known_outcomes;
pub use repaired::tell_repaired;
