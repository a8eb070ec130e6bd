//! Reads the lists of new volumes, with messages for those that can't be read.
ghost use Rattle.std.specs.Prelude.{◌≡◌, ◌++◌, IfErr, IfOk, Ok, OnOk, option_map};
ghost use Rattle.std.specs.String.{string_bytes};
ghost use Rattle.pack_lists.specs.Lists.{list_in, listed};
ghost use Rattle.command_changes.specs.ListLines.{IsUnlisted, IsUnlistedEnding, ends_text, flaw_text, form_text, front_of, list_line, numbered, quote_after, shown_word};

use crate::import_lines::worded_line;
use command_faults::status::BAD_COMMAND_LINE;
use command_faults::{Ending, Fault};
use escaped_text::push_escaped;
use pack_lists::{ListFault, ListFlaw, ListWord, PackList, read_list};
use std::alloc::{AllocError, Global};
use vol_dir::Refusal;

/// The greatest number of bytes of a word that are shown.
const MOST_SHOWN: usize = 40;

/// Reads the list in the text of the file `name`. The ending is that of a command whose list can't be read: with the number of the first line that can't be
/// read, and its first flaw; or what the list ends before. Its status is 2; or memory ran out.
///
/// Takes the memory of [`read_list`], and costs as much.
pub fn list_of(alloc: Global, name: &str, text: &[u8]) -> Result<PackList, Ending>
    ensures ok { IfOk result (λ list. list_in text.now ≡ Ok (listed list)) }
    ensures fault { IfErr result (λ ending. IsUnlisted name.now text.now ending.status ending.fault) }
{
    match read_list(alloc, text) {
        Ok(list) => Ok(list),
        Err(why) => Err(unlisted(alloc, name, &why)),
    }
}

/// Returns the ending of a command whose list, in the file `name`, can't be read for this reason.
fn unlisted(alloc: Global, name: &str, why: &ListFault) -> Ending
    ensures { IsUnlistedEnding name.now why.now result.status result.fault }
{
    match list_line(alloc, name, why) {
        Ok(Some(lines)) => Ending {
            status: BAD_COMMAND_LINE,
            fault: Some(Fault::Worded { rule: None, lines }),
        },
        Ok(None) | Err(_) => Ending::from(Fault::Refused(Refusal::NoMemory)),
    }
}

/// Returns the message for a list that can't be read for this reason, if there is one.
fn list_line(alloc: Global, name: &str, why: &ListFault) -> Result<Option<Vec<u8>>, AllocError>
    ensures { IfOk result (λ line. option_map (λ line. line.items) line ≡ list_line name.now why.now) }
{
    let text = match why {
        ListFault::Line { number, flaw } => numbered_flaw(alloc, *number, flaw)?,
        ListFault::Ends(form) => ends_text(alloc, *form)?,
        ListFault::NoMemory => return Ok(None),
    };
    Ok(Some(worded_line(alloc, name.as_bytes(), &text)?))
}

/// Returns the words for the flaw of a line by its number.
fn numbered_flaw(alloc: Global, number: u64, flaw: &ListFlaw) -> Result<Vec<u8>, AllocError>
    ensures { IfOk result (λ text. text.items ≡ numbered number ++ flaw_text flaw.now) }
{
    let start = numbered(alloc, number)?;
    let mut text = Vec::from_slice(alloc, start.as_bytes())?;
    let flaw = flaw_text(alloc, flaw)?;
    text.extend_from_slice(&flaw)?;
    Ok(text)
}

/// Returns the words for a line by its number.
#[tactic(auto, unfolding(crate::specs::ListLines::numbered))]
fn numbered(alloc: Global, number: u64) -> Result<String, AllocError>
    ensures { IfOk result (λ text. string_bytes text ≡ numbered number) }
{
    format!(in alloc; "line {number}: ")
}

/// Returns the words for the flaw of a line.
fn flaw_text(alloc: Global, flaw: &ListFlaw) -> Result<Vec<u8>, AllocError>
    ensures { IfOk result (λ text. text.items ≡ flaw_text flaw.now) }
{
    match flaw {
        ListFlaw::Word { word, wanted } => {
            let mut text = shown_word(alloc, word.as_slice())?;
            text.extend_from_slice(b" isn't ")?;
            text.extend_from_slice(form_text(*wanted))?;
            Ok(text)
        }
        ListFlaw::Extra { word } => {
            let mut text = shown_word(alloc, word.as_slice())?;
            text.extend_from_slice(b" is one too many")?;
            Ok(text)
        }
        ListFlaw::Ends(form) => ends_text(alloc, *form),
    }
}

/// Returns the words for a list, or a line of one, that ends before a word of this form.
fn ends_text(alloc: Global, form: ListWord) -> Result<Vec<u8>, AllocError>
    ensures { IfOk result (λ text. text.items ≡ ends_text form) }
{
    let mut text = Vec::from_slice(alloc, b"it ends where ")?;
    text.extend_from_slice(form_text(form))?;
    text.extend_from_slice(b" is wanted")?;
    Ok(text)
}

/// Returns a word of a list in quotes, of which a long one is cut.
fn shown_word(alloc: Global, word: &[u8]) -> Result<Vec<u8>, AllocError>
    ensures { IfOk result (λ text. text.items ≡ shown_word word.now) }
{
    let mut text = Vec::from_slice(alloc, b"`")?;
    push_escaped(&mut text, front_of(word))?;
    text.extend_from_slice(quote_after(word))?;
    Ok(text)
}

/// Returns the first bytes of a word, as many as are shown.
#[tactic(auto, unfolding(crate::specs::ListLines::front_of))]
fn front_of(word: &[u8]) -> &[u8]
    ensures { result.now ≡ front_of word.now }
{
    &word[..word.len().min(MOST_SHOWN)]
}

/// Returns the quote after a word, with dots before it if the word is cut.
fn quote_after(word: &[u8]) -> &'static [u8]
    ensures { result.now ≡ quote_after word.now }
{
    if word.len() <= MOST_SHOWN {
        b"`"
    } else {
        b"..`"
    }
}

/// Returns the form that a word of a list must have.
fn form_text(form: ListWord) -> &'static [u8]
    ensures { result.now ≡ form_text form }
{
    match form {
        ListWord::Volume => b"`volume`",
        ListWord::Time => b"`time`",
        ListWord::Line {
            boot: true,
            root: true,
        } => b"`boot`, `root`, `dir`, `file`, `link`, `char` or `block`",
        ListWord::Line {
            boot: true,
            root: false,
        } => b"`boot`, `dir`, `file`, `link`, `char` or `block`",
        ListWord::Line {
            boot: false,
            root: true,
        } => b"`root`, `dir`, `file`, `link`, `char` or `block`",
        ListWord::Line {
            boot: false,
            root: false,
        } => b"`dir`, `file`, `link`, `char` or `block`",
        ListWord::Edition => b"an edition, 6 or 7",
        ListWord::Blocks => b"a number of blocks, or the name of a disk",
        ListWord::ListBlocks => b"a number of blocks up to 65535",
        ListWord::Seconds => b"a number of seconds up to 4294967295",
        ListWord::Path => b"a path with a slash before each name",
        ListWord::Permissions => b"an octal number up to 7777",
        ListWord::Owner => b"a user and a group, as 3:1",
        ListWord::File => b"a path in UTF-8",
        ListWord::DeviceNumber => b"a number up to 255",
    }
}
