//! Reads the words of the command line with clap.
#![tactic(auto)]

ghost use Rattle.std.specs.Prelude.{◌≡◌, None, Option, ℕ, IfOk, IfErr, IfSome, map, string_bytes};
ghost use Rattle.clap.specs.Words.{kind_of, subcommand_rows_of};
ghost use Rattle.clap.specs.declared.error.kind.ErrorKind.TheVariants as clap_kinds;
ghost use Rattle.command_words.specs.Invocations.{IsWrong, NameAsksFor};
ghost use Rattle.command_words.specs.Verbs.{IsNoCommand};
ghost use Rattle.command_line.specs.CommandLine.{AsksNothing, IsRead, IsRefused, MetAsks, NameAsksForNothing, TellsOf, words_of};

use clap::error::ErrorKind;
use clap::{ArgMatches, Error};
use command_words::{Need, Said, Verb, WordFault, WrongWord, read_words};
use std::alloc::{AllocError, Global};

mod builder;
mod clap_words;
mod explain;
pub mod laws;
mod reword;

use builder::Builder;
use clap_words::ClapWords;
pub use command_words::{
    Copying, GuessForm, Invocation, MadeFile, NewPlace, Serving, VolumeFile, Work,
};
pub use explain::asks_to_explain;
pub use reword::reworded;

/// Reads the words of the command line, the first of which is the program's own name. `clock` is the time of the program's clock, in seconds since
/// the beginning of 1970, if it has one; it is used if a command's time was left out. The error is clap's, with its text, its stream and its status:
/// its kind is `ValueValidation` if a word isn't valid for its argument, there is no time, or the words for several files can't be used together;
/// `MissingSubcommand` if there is no command; `OutOfMemory` if an allocation was refused; and otherwise the kind that clap chooses for the words.
pub fn read<'a>(
    alloc: Global,
    clock: Option<u32>,
    words: &'a [String],
) -> Result<Invocation<'a>, Error>
    ensures read { IfOk result (IsRead clock (map string_bytes words.entry.now)) }
    ensures refused { IfErr result (IsRefused clock (map string_bytes words.entry.now)) }
{
    let mut command = Builder::new(alloc).command_line()?;
    let matches = command.try_get_matches_from_mut(words)?;
    match read_matches(alloc, clock, &matches)? {
        Some(invocation) => Ok(invocation),
        None => Err(command.error(ErrorKind::MissingSubcommand, "a command is missing")?),
    }
}

/// Reads the words that clap found. Returns `None` if there is no command.
fn read_matches<'a>(
    alloc: Global,
    clock: Option<u32>,
    matches: &ArgMatches<'a>,
) -> Result<Option<Invocation<'a>>, Error>
    ensures read { IfOk result (λ found. IfSome found (MetAsks clock (subcommand_rows_of matches.now))) }
    ensures missing { IfOk result (λ found. found ≡ None → AsksNothing clock (subcommand_rows_of matches.now)) }
    ensures refused { IfErr result (TellsOf (AsksNothing clock (subcommand_rows_of matches.now))) }
{
    match matches.subcommand() {
        Some((name, values)) => read_command(alloc, clock, name, values),
        None => Ok(None),
    }
}

/// Reads the words after a command. Returns `None` if no command has that name.
fn read_command<'a>(
    alloc: Global,
    clock: Option<u32>,
    name: &str,
    values: &ArgMatches<'a>,
) -> Result<Option<Invocation<'a>>, Error>
    ensures read { IfOk result (λ found. IfSome found (NameAsksFor clock name.now (words_of values.now))) }
    ensures refused { IfErr result (TellsOf (NameAsksForNothing clock name.now (words_of values.now))) }
    ensures missing { IfOk result (λ found. found ≡ None → IsNoCommand name.now) }
{
    let Some(verb) = Verb::of(name) else {
        return Ok(None);
    };
    let found = ClapWords { values };
    match read_words::read(alloc, verb, &found, clock) {
        Ok(invocation) => Ok(Some(invocation)),
        Err(fault) => Err(told(alloc, verb, fault)?),
    }
}

/// Returns the error for a fault, in the same words as the help.
fn told(alloc: Global, verb: Verb, fault: WordFault<'_>) -> Result<Error, AllocError>
    ensures kind { IfOk result (λ error. kind_of error ≡ clap_kinds.ValueValidation) }
    ensures wrong { IfOk result (λ _. IsWrong fault.entry) }
{
    match fault {
        WordFault::NoMemory => Err(AllocError),
        WordFault::Wrong(word) => wrong_word(alloc, verb, word),
    }
}

/// Returns the error for a word that isn't valid for its argument.
fn wrong_word(alloc: Global, verb: Verb, word: WrongWord<'_>) -> Result<Error, AllocError>
    ensures { IfOk result (λ error. kind_of error ≡ clap_kinds.ValueValidation) }
{
    let whole_name = whole_name(alloc, verb)?;
    let mut command = Builder::new(alloc)
        .command(verb)?
        .bin_name(whole_name.as_str())?;
    let text = match verb.paths() {
        Some(paths) if word.name == "NOW" => more_text(alloc, verb, paths, word)?,
        _ => wrong_text(alloc, verb, word)?,
    };
    command.error(ErrorKind::ValueValidation, text.as_str())
}

/// Returns the name of a command as the usage shows it.
pub(crate) fn whole_name(alloc: Global, verb: Verb) -> Result<String, AllocError> {
    format!(in alloc; "unixvol {}", verb.name())
}

/// Returns the text for a word that isn't a time, and that may have been meant as another path.
fn more_text(
    alloc: Global,
    verb: Verb,
    paths: &str,
    word: WrongWord<'_>,
) -> Result<String, AllocError> {
    let text = wrong_text(alloc, verb, word)?;
    format!(in alloc; "{text}; {} {paths}", verb.name())
}

/// Returns the text for a word of a command that isn't valid.
fn wrong_text(alloc: Global, verb: Verb, word: WrongWord<'_>) -> Result<String, AllocError> {
    let name = word.name;
    let wanted = word.wanted;
    let argument = argument_text(alloc, verb, name)?;
    match word.said {
        Said::Nothing => format!(in alloc; "no value for '{argument}': {wanted}"),
        Said::Word(text) => format!(in alloc; "invalid value '{text}' for '{argument}': {wanted}"),
        Said::Words(count) => format!(in alloc;
            "invalid value '{count}' for '{argument}': {wanted}"
        ),
        Said::Option(other) => {
            format!(in alloc; "the argument '--{name}' cannot be used with '--{other}'")
        }
    }
}

/// Returns an argument of a command as the help shows it: an option that has a value with the name of that.
fn argument_text(alloc: Global, verb: Verb, name: &str) -> Result<String, AllocError> {
    for parameter in verb.parameters() {
        if let Need::Value(_, value) = parameter.need {
            if parameter.name == name {
                return format!(in alloc; "--{name} <{}>", value.text());
            }
        }
    }
    format!(in alloc; "<{name}>")
}
