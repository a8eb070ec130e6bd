//! Reads the words after a command.
ghost use Rattle.std.specs.Prelude.{IfErr, IfOk};
ghost use Rattle.command_words.specs.Invocations.{AsksFor, AsksForNothing, IsFormGiven, IsMadeGiven, IsVolumeBy, IsVolumeGiven, IsVolumeWrong, IsWrongBy, TellsOf};

use crate::commands;
use crate::fault::WordFault;
use crate::given::{EditionWord, Given, edition_in, flag_in, long_or, text_in};
use crate::invocation::{Invocation, MadeFile, VolumeFile};
use crate::verbs::{Verb, list_commands};
use command_terms::OutputForm;
use std::alloc::Global;

/// Reads the words after a command. `clock` is the time of the program's clock, in seconds since the beginning of 1970, if it has one; it is used if
/// the command's time was left out. Returns a fault if a word isn't valid for its argument, a word is missing, there is one word too many, there is
/// no time, two files to copy have the same last name, or the directory or folder to copy them to is the empty word.
#[tactic(auto, using(crate::proofs::Values::no_value))]
pub fn read<'a, G: Given<'a>>(
    alloc: Global,
    verb: Verb,
    given: &G,
    clock: Option<u32>,
) -> Result<Invocation<'a>, WordFault<'a>>
    ensures read { IfOk result (AsksFor clock verb (G.words given.now)) }
    ensures refused { IfErr result (TellsOf (AsksForNothing clock verb (G.words given.now))) }
{
    macro_rules! read_by {
        ([] $($each:ident $module:ident,)*) => {
            match verb {
                $(Verb::$each => commands::$module::read(alloc, given, clock),)*
            }
        };
    }
    list_commands!(read_by)
}

/// Reads the edition and the file of the volume, and the block that it begins at.
pub(crate) fn volume_in<'a, G: Given<'a>>(given: &G) -> Result<VolumeFile<'a>, WordFault<'a>>
    ensures read { IfOk result (IsVolumeGiven (G.words given.now)) }
    ensures refused { IfErr result (TellsOf (IsVolumeWrong (G.words given.now))) }
{
    volume_by(given, "EDITION")
}

/// Reads the same, with the edition that was given for an argument.
pub(crate) fn volume_by<'a, G: Given<'a>>(
    given: &G,
    name: &str,
) -> Result<VolumeFile<'a>, WordFault<'a>>
    ensures read { IfOk result (IsVolumeBy (G.words given.now) name.now) }
    ensures refused { IfErr result (TellsOf (IsWrongBy (G.words given.now) name.now)) }
{
    let EditionWord { edition, is_any } = edition_in(given, name)?;
    let image = text_in(given, "IMAGE");
    let at = long_or(given, "at", 0)?;
    Ok(VolumeFile {
        edition,
        is_any,
        image,
        at,
    })
}

/// Reads the format of a report.
pub(crate) fn form_in<'a, G: Given<'a>>(given: &G) -> OutputForm
    ensures { IsFormGiven (G.words given.now) result }
{
    if flag_in(given, "json") {
        OutputForm::Json
    } else {
        OutputForm::Text
    }
}

/// Reads the file to make, whose path was given for an argument.
pub(crate) fn made_in<'a, G: Given<'a>>(given: &G, name: &str) -> MadeFile<'a>
    ensures { IsMadeGiven (G.words given.now) name.now result }
{
    MadeFile {
        path: text_in(given, name),
        is_new: flag_in(given, "new"),
    }
}
