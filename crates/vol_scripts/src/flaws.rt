//! Finds the first flaw of a line that can't be read.
ghost use Rattle.std.specs.Prelude.{◌≡◌, [], ℕ, List, length, IfOk};
ghost use Rattle.vol_scripts.specs.Flaws.{cannot_become, flaw_from, flaw_in, forms_after, has_form, has_lasting, names_query, stays, wanted_after};

use crate::commands::Command;
use crate::lines::LineFault;
use crate::numbers::{byte_in, bytes_in, device_kind_in, long_in, permissions_in, short_in};
use command_faults::{LineFlaw, WordForm};
use line_words::Pieces;
use pdp_words::Bytes;
use std::alloc::{AllocError, Global};

/// Returns the first flaw of a line whose command must have this form, or `None` if all its words have the required forms. Takes memory for the
/// flawed word, or for the bytes before it.
pub(crate) fn flaw_in(
    alloc: Global,
    command: WordForm,
    line: &[u8],
) -> Result<Option<LineFlaw>, AllocError>
    ensures { IfOk result (λ flaw. flaw ≡ flaw_in command line.now) }
{
    let head = [WordForm::Number, WordForm::Id, WordForm::Id, command];
    let mut wanted = head.as_slice();
    let mut words = Pieces::of(b' ', line);
    let mut at = 0;
    'words: while let Some(word) = words.take_next() {
        let Some((form, others)) = wanted.split_first() else {
            let word = Bytes::from_slice(alloc, word)?;
            return Ok(Some(LineFlaw::Extra { at, word }));
        };
        let wanted_form = *form;
        if !has_form(alloc, wanted_form, word)? {
            let word = Bytes::from_slice(alloc, word)?;
            return Ok(Some(LineFlaw::Word {
                at,
                word,
                wanted: wanted_form,
            }));
        }
        wanted = wanted_after(wanted_form, word, others);
        if words.is_empty() {
            return Ok(missing(wanted));
        }
        at += word.len() as u64 + 1;
    }
    Ok(missing(wanted))
}

/// The length of the longest word of a command, in bytes.
const LONGEST_COMMAND: usize = 8;

/// True if there is a flaw and it stays, whatever follows the first `count` bytes of the line.
pub(crate) fn has_lasting(count: usize, flaw: &Option<LineFlaw>) -> bool
    ensures { result ≡ has_lasting count flaw.now }
{
    match flaw {
        Some(flaw) => stays(count, flaw),
        None => false,
    }
}

/// True if a flaw of the first `count` bytes of a line stays, whatever follows them.
fn stays(count: usize, flaw: &LineFlaw) -> bool
    ensures { result ≡ stays count flaw.now }
{
    match flaw {
        LineFlaw::Word { at, word, wanted } => {
            let length = word.as_slice().len();
            let has_space = (length as u64) < (count as u64).saturating_sub(*at);
            has_space || cannot_become(*wanted, length)
        }
        LineFlaw::Extra { .. } => true,
        LineFlaw::Ends(_) | LineFlaw::Unended | LineFlaw::TooManyViews => false,
    }
}

/// True if no word that begins with `count` bytes which don't have this form has it.
fn cannot_become(form: WordForm, count: usize) -> bool
    ensures { (part : List ℕ) → length part ≡ count → result ≡ cannot_become form part }
{
    match form {
        WordForm::Path | WordForm::Bytes => false,
        WordForm::Command | WordForm::Query => count > LONGEST_COMMAND,
        WordForm::Number
        | WordForm::Id
        | WordForm::Permissions
        | WordForm::DeviceKind
        | WordForm::DeviceNumber => count > 0,
    }
}

/// Returns the flaw of a line that ends before words of these forms, or `None` if there are none.
fn missing(wanted: &[WordForm]) -> Option<LineFlaw>
    ensures { result ≡ flaw_from 0 wanted.now [] }
{
    let form = wanted.first()?;
    Some(LineFlaw::Ends(*form))
}

/// Returns the forms of the words that must follow a word of this form: the forms of a command's words if it is a command, else `others`.
fn wanted_after<'a>(form: WordForm, word: &[u8], others: &'a [WordForm]) -> &'a [WordForm]
    ensures { result.now ≡ wanted_after form word.now others.now }
{
    match form {
        WordForm::Command | WordForm::Query => match Command::named(word) {
            Some(command) => forms_after(command),
            None => &[],
        },
        _ => others,
    }
}

/// True if a word has this form. Takes memory for bytes.
fn has_form(alloc: Global, form: WordForm, word: &[u8]) -> Result<bool, AllocError>
    ensures { IfOk result (λ has. has ≡ has_form form word.now) }
{
    let has = match form {
        WordForm::Number => long_in(word).is_some(),
        WordForm::Id => short_in(word).is_some(),
        WordForm::Command => Command::named(word).is_some(),
        WordForm::Query => names_query(Command::named(word)),
        WordForm::Path => true,
        WordForm::Permissions => permissions_in(word).is_some(),
        WordForm::Bytes => return has_bytes(alloc, word),
        WordForm::DeviceKind => device_kind_in(word).is_some(),
        WordForm::DeviceNumber => byte_in(word).is_some(),
    };
    Ok(has)
}

/// True if a word can be read as bytes.
fn has_bytes(alloc: Global, word: &[u8]) -> Result<bool, AllocError>
    ensures { IfOk result (λ has. has ≡ has_form WordForm.Bytes word.now) }
{
    match bytes_in(alloc, word) {
        Ok(_) => Ok(true),
        Err(LineFault::Unreadable) => Ok(false),
        Err(LineFault::NoMemory) => Err(AllocError),
    }
}

/// True if there is a command and it is a query.
fn names_query(command: Option<Command>) -> bool
    ensures { result ≡ names_query command }
{
    matches!(command, Some(Command::Stat | Command::Read | Command::List))
}

/// Returns the forms of the words after a command.
fn forms_after(command: Command) -> &'static [WordForm]
    ensures { result.now ≡ forms_after command }
{
    match command {
        Command::Create | Command::Mkdir | Command::Chmod => &[
            WordForm::Path,
            WordForm::Permissions,
        ],
        Command::Link => &[WordForm::Path, WordForm::Path],
        Command::Unlink | Command::Rmdir | Command::Stat | Command::List => &[WordForm::Path],
        Command::Write => &[WordForm::Path, WordForm::Number, WordForm::Bytes],
        Command::Truncate => &[WordForm::Path, WordForm::Number],
        Command::Chown => &[WordForm::Path, WordForm::Id, WordForm::Id],
        Command::Times | Command::Read => &[WordForm::Path, WordForm::Number, WordForm::Number],
        Command::Mknod => &[
            WordForm::Path,
            WordForm::Permissions,
            WordForm::DeviceKind,
            WordForm::DeviceNumber,
            WordForm::DeviceNumber,
        ],
        Command::Cut => &[],
    }
}
