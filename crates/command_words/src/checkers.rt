//! Reads the words of the checkers.
ghost use Rattle.std.specs.Prelude.{None, IfErr, IfOk};
ghost use Rattle.command_words.specs.Invocations.{AsksFor, IsOneWrong, TellsOf, checker_verb};
ghost use Rattle.command_words.specs.Verbs.{of_checker};

use crate::fault::WordFault;
use crate::given::{Given, threads_in};
use crate::invocation::{Invocation, Work};
use crate::read_words::{form_in, volume_in};
use vol_check::Checker;

/// Reads the words of a checker's command.
pub(crate) fn read_checker<'a, G: Given<'a>>(
    given: &G,
    checker: Checker,
) -> Result<Invocation<'a>, WordFault<'a>>
    ensures read { IfOk result (AsksFor None (checker_verb checker) (G.words given.now)) }
    ensures refused { IfErr result (TellsOf (IsOneWrong None (G.words given.now) of_checker)) }
{
    let volume = volume_in(given)?;
    let workers = threads_in(given, "WORKERS")?;
    let work = Work::Check {
        checker,
        workers,
        form: form_in(given),
    };
    Ok(Invocation::Work { volume, work })
}
