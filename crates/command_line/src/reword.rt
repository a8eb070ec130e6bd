//! Rewords errors of clap so that they help more.
ghost use Rattle.std.specs.Prelude.{◌≡◌, IfOk, IfSome};
ghost use Rattle.clap.specs.Words.{kind_of};

use crate::builder::Builder;
use crate::whole_name;
use clap::Error;
use clap::error::ErrorKind;
use command_words::{Verb, texts};
use std::alloc::{AllocError, Global};

/// The beginning of clap's error texts.
const ERROR: &str = "error: ";

/// The beginning of clap's list of an argument's possible values.
const VALUES: &str = "\n  [possible values: ";

/// The beginning of clap's tip on an unknown option. The tip is to pass the option as a value, which would usually replace another word.
const VALUE_TIP: &str = "\n  tip: to pass '";

/// The usage that clap appends to a text.
const USAGE: &str = "\n\nUsage: ";

/// Clap's name for the first path of a command, if it is missing.
const PATH: &str = "<PATH>";

/// Rewords an error of clap, with the usage of the command that the words name. The new text lists the editions if a word isn't one, leaves out the
/// tip to pass an unknown option as a value, and reports a missing file if `put` has a directory but no file. Returns `None` if the error can stay as
/// it is.
pub fn reworded(alloc: Global, words: &[String], error: &Error) -> Result<Option<Error>, AllocError>
    ensures { IfOk result (λ told. IfSome told (λ better. kind_of better ≡ kind_of error.now)) }
{
    let Some(verb) = verb_in(words) else {
        return Ok(None);
    };
    let kind = error.kind();
    let text = format!(in alloc; "{error}")?;
    match better_text(alloc, verb, words, kind, text.as_str())? {
        Some(better) => {
            let whole_name = whole_name(alloc, verb)?;
            let mut command = Builder::new(alloc)
                .command(verb)?
                .bin_name(whole_name.as_str())?;
            Ok(Some(command.error(kind, better.as_str())?))
        }
        None => Ok(None),
    }
}

/// Returns the first command that the words name.
fn verb_in(words: &[String]) -> Option<Verb> {
    for word in words {
        if let Some(verb) = Verb::of(word.as_str()) {
            return Some(verb);
        }
    }
    None
}

/// Returns the better text of an error, without its beginning and the usage.
fn better_text(
    alloc: Global,
    verb: Verb,
    words: &[String],
    kind: ErrorKind,
    text: &str,
) -> Result<Option<String>, AllocError> {
    let text = text.strip_prefix(ERROR).unwrap_or(text);
    match kind {
        ErrorKind::InvalidValue => edition_text(alloc, text),
        ErrorKind::UnknownArgument => untipped(alloc, text),
        ErrorKind::MissingRequiredArgument if verb == Verb::Put && has_target(words) => {
            file_text(alloc, text)
        }
        _ => Ok(None),
    }
}

/// Returns the text for a word that isn't an edition.
fn edition_text(alloc: Global, text: &str) -> Result<Option<String>, AllocError> {
    match text.split_once(VALUES) {
        Some((front, _)) => Ok(Some(format!(in alloc; "{front}: {}", texts::EDITIONS)?)),
        None => Ok(None),
    }
}

/// Returns the text for an unknown option, without the tip to pass it as a value.
fn untipped(alloc: Global, text: &str) -> Result<Option<String>, AllocError> {
    match text.split_once(VALUE_TIP) {
        Some((front, _)) => Ok(Some(String::from_str(alloc, front.trim_end())?)),
        None => Ok(None),
    }
}

/// Returns the text for missing words, when the first of the files was read as the path.
fn file_text(alloc: Global, text: &str) -> Result<Option<String>, AllocError> {
    let Some((front, _)) = text.split_once(USAGE) else {
        return Ok(None);
    };
    match front.strip_suffix(PATH) {
        Some(others) => Ok(Some(format!(in alloc; "{others}<FILE>")?)),
        None => Ok(None),
    }
}

/// True if one of the words is the option that names a directory to put files into.
fn has_target(words: &[String]) -> bool {
    words.iter().any(|word| {
        let word = word.as_str();
        word.starts_with("-t") || word.starts_with("--target-directory")
    })
}
