//! The steps of scripts.
ghost use Rattle.std.specs.Prelude.{◌≡◌};

use std::marker::Model;
use vol_volume::{Call, Query};

/// A step of a session: one line of a script.
#[derive(Drop)]
pub enum ScriptStep {
    /// A call.
    Change(Call),
    /// A query.
    Question(Query),
    /// Cuts the journal.
    Cut,
}

/// A script, which is played in its own thread.
#[derive(Drop)]
pub enum Script {
    /// A script for a session: one step per line.
    Session(Sequence<ScriptStep>),
    /// A script for a view: one query per line after the first, which is the word `view`.
    View(Sequence<Query>),
}

/// The steps of a script, in order. Contracts see it as the list of the steps.
#[derive(Drop)]
pub struct Sequence<T> {
    items: Vec<T>,
}

impl<T> Model for Sequence<T> {
    ghost use Rattle.std.specs.Prelude.{List};

    ghost Value = { List T };

    ghost view = { λ sequence. sequence.items.items };
}

impl<T> Sequence<T> {
    /// Wraps a list. Takes no memory.
    pub fn from_vec(items: Vec<T>) -> Sequence<T>
        ensures { result ≡ items.items }
    {
        Sequence { items }
    }

    /// Returns the list. Takes no memory.
    pub fn into_vec(self) -> Vec<T>
        ensures { result.items ≡ self }
    {
        self.items
    }

    /// Returns all steps, in order.
    pub fn as_slice(&self) -> &[T]
        ensures { result.now ≡ self.now }
    {
        self.items.as_slice()
    }
}
