//! The words that clap found.
ghost use Rattle.command_line.specs.CommandLine.{words_of};

use clap::ArgMatches;
use command_words::Given;
use std::alloc::{AllocError, Global};

/// The words that clap found after a command.
#[derive(Drop)]
pub(crate) struct ClapWords<'m, 'a> {
    /// Clap's values for the arguments.
    pub values: &'m ArgMatches<'a>,
}

impl<'m, 'a> Given<'a> for ClapWords<'m, 'a> {
    ghost words = { λ found name. words_of found.values.now name };

    fn first(&self, name: &str) -> Option<&'a str> {
        self.values.get_str(name)
    }

    fn all(&self, alloc: Global, name: &str) -> Result<Vec<&'a str>, AllocError> {
        match self.values.get_strs(name) {
            Some(words) => Vec::from_slice(alloc, words),
            None => Ok(Vec::new(alloc)),
        }
    }
}
