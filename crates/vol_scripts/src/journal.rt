//! The journal of a volume, in the format of a script.
ghost use Rattle.std.specs.Prelude.{◌≡◌, ◌++◌, IfOk, OnOk, codes, decimal};
ghost use Rattle.std.specs.String.{string_bytes};
ghost use Rattle.vol_scripts.specs.Grammar.{command_word};
ghost use Rattle.vol_scripts.specs.Journal.{call_text, call_words, command_of, device_after, journal_if, words_after, words_before};
ghost use Rattle.vol_scripts.specs.Texts.{bytes_text, permissions_text};

use crate::commands::Command;
use crate::texts::{bytes_text, device_letter, permissions_text};
use std::alloc::{AllocError, Global};
use vol_dir::Cred;
use vol_layout::DeviceId;
use vol_volume::{Call, Record};

/// Appends a line for each record of a journal, if these lines are wanted. Takes memory for the text.
pub(crate) fn push_journal(
    alloc: Global,
    text: &mut Vec<u8>,
    wanted: bool,
    records: &[Record],
) -> Result<(), AllocError>
    ensures { OnOk result (text.new.items ≡ text.old.items ++ journal_if wanted records.now) }
{
    if wanted {
        'records: for record in records {
            push_call(alloc, text, &record.call)?;
        }
    }
    Ok(())
}

/// Appends the line of a call, as a script has it. Takes memory for the text.
pub fn push_call(alloc: Global, text: &mut Vec<u8>, call: &Call) -> Result<(), AllocError>
    ensures { OnOk result (text.new.items ≡ text.old.items ++ call_text call.now) }
{
    push_words(alloc, text, call)?;
    Ok(text.push(b'\n')?)
}

/// Appends the words of a call, as the line of a script has them. Takes memory for the text.
pub(crate) fn push_words(alloc: Global, text: &mut Vec<u8>, call: &Call) -> Result<(), AllocError>
    ensures { OnOk result (text.new.items ≡ text.old.items ++ call_words call.now) }
{
    let caller = call.caller();
    let before = words_before(alloc, caller.moment, caller.cred, command_of(call).name())?;
    let after = words_after(alloc, call)?;
    text.extend_from_slice(before.as_bytes())?;
    text.extend_from_slice(call.path())?;
    text.extend_from_slice(&after)?;
    Ok(())
}

/// Returns the words before the first path of a call.
#[tactic(auto, using(crate::proofs::TextLemmas::before_pieces))]
fn words_before(alloc: Global, now: u32, cred: Cred, command: &str) -> Result<String, AllocError>
    ensures { IfOk result (λ text. string_bytes text ≡ words_before now cred command.now) }
{
    let Cred { uid, gid } = cred;
    format!(in alloc; "{now} {uid} {gid} {command} ")
}

/// Returns the command for a call.
fn command_of(call: &Call) -> Command
    ensures { result ≡ command_of call.now }
{
    match call {
        Call::Create { .. } => Command::Create,
        Call::Mkdir { .. } => Command::Mkdir,
        Call::Link { .. } => Command::Link,
        Call::Unlink { .. } => Command::Unlink,
        Call::Rmdir { .. } => Command::Rmdir,
        Call::Write { .. } => Command::Write,
        Call::Truncate { .. } => Command::Truncate,
        Call::Chmod { .. } => Command::Chmod,
        Call::Chown { .. } => Command::Chown,
        Call::Times { .. } => Command::Times,
        Call::Mknod { .. } => Command::Mknod,
    }
}

/// Returns the words after the first path of a call, each with a space before it.
fn words_after(alloc: Global, call: &Call) -> Result<Vec<u8>, AllocError>
    ensures { IfOk result (λ text. text.items ≡ words_after call.now) }
{
    match call {
        Call::Create { perm, .. } | Call::Mkdir { perm, .. } | Call::Chmod { perm, .. } => {
            permissions_after(alloc, *perm)
        }
        Call::Link { target, .. } => word_after(alloc, target.as_slice()),
        Call::Unlink { .. } | Call::Rmdir { .. } => Ok(Vec::new(alloc)),
        Call::Write { offset, bytes, .. } => bytes_after(alloc, *offset, bytes.as_slice()),
        Call::Truncate { length, .. } => Ok(format!(in alloc; " {length}")?.into_bytes()),
        Call::Chown { uid, gid, .. } => numbers_after(alloc, u32::from(*uid), u32::from(*gid)),
        Call::Times { atime, mtime, .. } => numbers_after(alloc, *atime, *mtime),
        Call::Mknod { perm, device, .. } => file_after(alloc, *perm, *device),
    }
}

/// Returns two numbers, each with a space before it.
#[tactic(auto, using(crate::proofs::TextLemmas::pair_pieces))]
fn numbers_after(alloc: Global, first: u32, second: u32) -> Result<Vec<u8>, AllocError>
    ensures { IfOk result (λ text. text.items ≡ codes " " ++ decimal first ++ codes " " ++ decimal second) }
{
    let text = format!(in alloc; " {first} {second}")?;
    Ok(text.into_bytes())
}

/// Returns a number and bytes, each with a space before it.
#[tactic(auto, using(crate::proofs::TextLemmas::pair_pieces))]
fn bytes_after(alloc: Global, offset: u32, bytes: &[u8]) -> Result<Vec<u8>, AllocError>
    ensures { IfOk result (λ text. text.items ≡ codes " " ++ decimal offset ++ codes " " ++ bytes_text bytes.now) }
{
    let bytes = bytes_text(alloc, bytes)?;
    let bytes = bytes.as_str();
    let text = format!(in alloc; " {offset} {bytes}")?;
    Ok(text.into_bytes())
}

/// Returns permissions, with a space before them.
fn permissions_after(alloc: Global, bits: u16) -> Result<Vec<u8>, AllocError>
    ensures { IfOk result (λ text. text.items ≡ codes " " ++ permissions_text bits) }
{
    let digits = permissions_text(alloc, bits)?;
    word_after(alloc, digits.as_bytes())
}

/// Returns the permissions and the device of a special file, each word with a space before it.
fn file_after(alloc: Global, bits: u16, device: DeviceId) -> Result<Vec<u8>, AllocError>
    ensures { IfOk result (λ text. text.items ≡ codes " " ++ permissions_text bits ++ device_after device) }
{
    let mut text = permissions_after(alloc, bits)?;
    let device = device_after(alloc, device)?;
    text.extend_from_slice(&device)?;
    Ok(text)
}

/// Returns the words of a device, each with a space before it.
#[tactic(auto, using(crate::proofs::TextLemmas::device_pieces))]
fn device_after(alloc: Global, device: DeviceId) -> Result<Vec<u8>, AllocError>
    ensures { IfOk result (λ text. text.items ≡ device_after device) }
{
    let letter = device_letter(device.kind);
    let DeviceId { major, minor, .. } = device;
    let text = format!(in alloc; " {letter} {major} {minor}")?;
    Ok(text.into_bytes())
}

/// Returns a word, with a space before it.
fn word_after(alloc: Global, word: &[u8]) -> Result<Vec<u8>, AllocError>
    ensures { IfOk result (λ text. text.items ≡ codes " " ++ word.now) }
{
    let mut text = Vec::from_slice(alloc, b" ")?;
    text.extend_from_slice(word)?;
    Ok(text)
}
