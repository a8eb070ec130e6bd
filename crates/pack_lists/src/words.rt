//! Reads the words of a line, one after the other.
ghost use Rattle.std.specs.Prelude.{◌≡◌, ◌≢◌, ◌∷◌, ◌&&◌, ◌==◌, [], true, None, Some, Ok, IfOk, IfErr, MatchOption, not};
ghost use Rattle.std.specs.List.{list_all, slice_split};
ghost use Rattle.std.specs.Str.{is_utf8};
ghost use Rattle.line_words.specs.Pieces.{words_of};
ghost use Rattle.pack_lists.specs.Faults.{TellsLine};
ghost use Rattle.pack_lists.specs.Paths.{are_names, has_byte, is_name, is_path, is_rooted};
ghost use Rattle.pack_lists.specs.Words.{blocks_in, byte_in, edition_in, file_in, is_list_word, last_or, long_in, none_left, owner_in, owner_of, path_in, permissions_in, short_in, taken};

use crate::faults::{LineFault, ListFlaw, ListWord};
use crate::members::{HostPath, LONGEST, ListedOwner, ListedPath};
use disk_sizes::disk_blocks;
use line_words::{Pieces, next_word, number_in};
use pdp_words::Bytes;
use std::alloc::Global;
use vol_layout::Edition;

/// Removes the next word and returns it. The fault is that the line ends before a word of this form.
fn next_of<'a>(words: &mut Pieces<'a>, wanted: ListWord) -> Result<&'a [u8], LineFault>
    ensures ok { IfOk result (λ word. words_of words.old ≡ word.now ∷ words_of words.new) }
    ensures fault { IfErr result (λ fault. (words_of words.old ≡ []) × (fault ≡ LineFault.Flaw (ListFlaw.Ends wanted))) }
{
    match next_word(words) {
        Some(word) => Ok(word),
        None => Err(LineFault::Flaw(ListFlaw::Ends(wanted))),
    }
}

/// Returns the fault of a word that doesn't have this form.
pub(crate) fn flawed(alloc: Global, word: &[u8], wanted: ListWord) -> LineFault
    ensures { result ≢ LineFault.NoMemory → result ≡ LineFault.Flaw (ListFlaw.Word word.now wanted) }
{
    match Bytes::from_slice(alloc, word) {
        Ok(word) => LineFault::Flaw(ListFlaw::Word { word, wanted }),
        Err(_) => LineFault::NoMemory,
    }
}

/// Returns the value that was read from a word of this form, or the fault of the word if there is none.
fn valued<T>(alloc: Global, word: &[u8], wanted: ListWord, value: Option<T>) -> Result<T, LineFault>
    ensures ok { IfOk result (λ read. value ≡ Some read) }
    ensures none { IfErr result (λ fault. value ≡ None) }
    ensures fault { IfErr result (λ fault. fault ≢ LineFault.NoMemory → fault ≡ LineFault.Flaw (ListFlaw.Word word.now wanted)) }
{
    match value {
        Some(read) => Ok(read),
        None => Err(flawed(alloc, word, wanted)),
    }
}

/// Succeeds if no word is left.
pub(crate) fn end(alloc: Global, words: &mut Pieces<'_>) -> Result<(), LineFault>
    ensures ok { IfOk result (λ _. words_of words.old ≡ []) }
    ensures fault { IfErr result (TellsLine (none_left (words_of words.old))) }
{
    match next_word(words) {
        None => Ok(()),
        Some(word) => {
            let word = Bytes::from_slice(alloc, word)?;
            Err(LineFault::Flaw(ListFlaw::Extra { word }))
        }
    }
}

/// Reads the next word as an edition.
pub(crate) fn edition(alloc: Global, words: &mut Pieces<'_>) -> Result<Edition, LineFault>
    ensures ok { IfOk result (λ read. taken ListWord.Edition edition_in (words_of words.old) ≡ Ok (read, words_of words.new)) }
    ensures fault { IfErr result (TellsLine (taken ListWord.Edition edition_in (words_of words.old))) }
{
    let word = next_of(words, ListWord::Edition)?;
    valued(alloc, word, ListWord::Edition, edition_in(word))
}

/// Returns the edition that a word names.
fn edition_in(word: &[u8]) -> Option<Edition>
    ensures { result ≡ edition_in word.now }
{
    if word == b"6".as_slice() {
        Some(Edition::V6)
    } else if word == b"7".as_slice() {
        Some(Edition::V7)
    } else {
        None
    }
}

/// Reads the next word as a number of blocks, or as the name of a disk.
pub(crate) fn blocks(alloc: Global, words: &mut Pieces<'_>) -> Result<u32, LineFault>
    ensures ok { IfOk result (λ read. taken ListWord.Blocks blocks_in (words_of words.old) ≡ Ok (read, words_of words.new)) }
    ensures fault { IfErr result (TellsLine (taken ListWord.Blocks blocks_in (words_of words.old))) }
{
    let word = next_of(words, ListWord::Blocks)?;
    valued(alloc, word, ListWord::Blocks, blocks_in(word))
}

/// Returns the number in a word, or the number of blocks of the disk that it names.
fn blocks_in(word: &[u8]) -> Option<u32>
    ensures { result ≡ blocks_in word.now }
{
    match long_in(word) {
        Some(blocks) => Some(blocks),
        None => disk_blocks(word),
    }
}

/// Reads the one word that is left as a number of blocks of an i-list, or returns `other` if none is left.
pub(crate) fn list_blocks_or(
    alloc: Global,
    words: &mut Pieces<'_>,
    other: u16,
) -> Result<u16, LineFault>
    ensures ok { IfOk result (λ read. last_or ListWord.ListBlocks short_in other (words_of words.old) ≡ Ok read) }
    ensures fault { IfErr result (TellsLine (last_or ListWord.ListBlocks short_in other (words_of words.old))) }
{
    let Some(word) = next_word(words) else {
        return Ok(other);
    };
    let read = valued(alloc, word, ListWord::ListBlocks, short_in(word))?;
    end(alloc, words)?;
    Ok(read)
}

/// Reads the next word as a time.
pub(crate) fn seconds(alloc: Global, words: &mut Pieces<'_>) -> Result<u32, LineFault>
    ensures ok { IfOk result (λ read. taken ListWord.Seconds long_in (words_of words.old) ≡ Ok (read, words_of words.new)) }
    ensures fault { IfErr result (TellsLine (taken ListWord.Seconds long_in (words_of words.old))) }
{
    let word = next_of(words, ListWord::Seconds)?;
    valued(alloc, word, ListWord::Seconds, long_in(word))
}

/// Reads the one word that is left as a time, or returns `other` if none is left.
pub(crate) fn seconds_or(
    alloc: Global,
    words: &mut Pieces<'_>,
    other: u32,
) -> Result<u32, LineFault>
    ensures ok { IfOk result (λ read. last_or ListWord.Seconds long_in other (words_of words.old) ≡ Ok read) }
    ensures fault { IfErr result (TellsLine (last_or ListWord.Seconds long_in other (words_of words.old))) }
{
    let Some(word) = next_word(words) else {
        return Ok(other);
    };
    let read = valued(alloc, word, ListWord::Seconds, long_in(word))?;
    end(alloc, words)?;
    Ok(read)
}

/// Reads the next word as permissions.
pub(crate) fn permissions(alloc: Global, words: &mut Pieces<'_>) -> Result<u16, LineFault>
    ensures ok { IfOk result (λ read. taken ListWord.Permissions permissions_in (words_of words.old) ≡ Ok (read, words_of words.new)) }
    ensures fault { IfErr result (TellsLine (taken ListWord.Permissions permissions_in (words_of words.old))) }
{
    let word = next_of(words, ListWord::Permissions)?;
    valued(alloc, word, ListWord::Permissions, permissions_in(word))
}

/// Reads the next word as a user and a group.
pub(crate) fn owner(alloc: Global, words: &mut Pieces<'_>) -> Result<ListedOwner, LineFault>
    ensures ok { IfOk result (λ read. taken ListWord.Owner owner_in (words_of words.old) ≡ Ok (read, words_of words.new)) }
    ensures fault { IfErr result (TellsLine (taken ListWord.Owner owner_in (words_of words.old))) }
{
    let word = next_of(words, ListWord::Owner)?;
    valued(alloc, word, ListWord::Owner, owner_in(word))
}

/// Reads a user and a group: two numbers with a colon between them.
fn owner_in(word: &[u8]) -> Option<ListedOwner>
    ensures { result ≡ owner_in word.now }
{
    let mut parts = Pieces::of(b':', word);
    let user = parts.take_next()?;
    let group = parts.take_next()?;
    if !parts.is_empty() {
        return None;
    }
    Some(ListedOwner {
        uid: short_in(user)?,
        gid: short_in(group)?,
    })
}

/// Reads the next word as the number of a device.
pub(crate) fn device_number(alloc: Global, words: &mut Pieces<'_>) -> Result<u8, LineFault>
    ensures ok { IfOk result (λ read. taken ListWord.DeviceNumber byte_in (words_of words.old) ≡ Ok (read, words_of words.new)) }
    ensures fault { IfErr result (TellsLine (taken ListWord.DeviceNumber byte_in (words_of words.old))) }
{
    let word = next_of(words, ListWord::DeviceNumber)?;
    valued(alloc, word, ListWord::DeviceNumber, byte_in(word))
}

/// Reads the next word as a path in the volume.
pub(crate) fn path(alloc: Global, words: &mut Pieces<'_>) -> Result<ListedPath, LineFault>
    ensures ok { IfOk result (λ read. taken ListWord.Path path_in (words_of words.old) ≡ Ok (read, words_of words.new)) }
    ensures fault { IfErr result (TellsLine (taken ListWord.Path path_in (words_of words.old))) }
{
    let word = next_of(words, ListWord::Path)?;
    if !is_path(word) {
        return Err(flawed(alloc, word, ListWord::Path));
    }
    Ok(ListedPath::from_slice(alloc, word)?)
}

/// Reads the next word as the path of a file outside the volume.
pub(crate) fn file(alloc: Global, words: &mut Pieces<'_>) -> Result<HostPath, LineFault>
    ensures ok { IfOk result (λ read. taken ListWord.File file_in (words_of words.old) ≡ Ok (read, words_of words.new)) }
    ensures fault { IfErr result (TellsLine (taken ListWord.File file_in (words_of words.old))) }
{
    let word = next_of(words, ListWord::File)?;
    match text_of(word) {
        Some(text) => Ok(HostPath::from_str(alloc, text)?),
        None => Err(flawed(alloc, word, ListWord::File)),
    }
}

/// Returns a word as a text, if it is in UTF-8.
fn text_of(word: &[u8]) -> Option<&str>
    ensures { MatchOption result (file_in word.now ≡ None) (λ text. (text.now ≡ word.now) × (file_in word.now ≡ Some word.now)) }
{
    match str::from_utf8(word) {
        Ok(text) => Some(text),
        Err(_) => None,
    }
}

/// True if a word is a path in a volume: a slash before each of its names, none of which is empty or `.`; no NUL; and at most [`LONGEST`] bytes.
#[tactic(auto, unfolding(crate::specs::Paths::is_path))]
pub fn is_path(word: &[u8]) -> bool
    ensures { result ≡ is_path word.now }
{
    word.len() <= LONGEST && !has_byte(0, word) && is_rooted(word)
}

/// True if bytes can be a word of a list: they aren't empty, and have no space and no newline.
pub fn is_list_word(word: &[u8]) -> bool
    ensures { result ≡ is_list_word word.now }
{
    !word.is_empty() && !has_byte(b' ', word) && !has_byte(b'\n', word)
}

/// True if a word has a byte.
fn has_byte(byte: u8, word: &[u8]) -> bool
    ensures { result ≡ has_byte byte word.now }
{
    word.iter().any(|c| *c == byte)
}

/// True if a word begins with a slash, and names follow it, apart by slashes.
fn is_rooted(word: &[u8]) -> bool
    ensures { result ≡ is_rooted word.now }
{
    match word {
        [] => false,
        [first, names @ ..] => *first == b'/' && are_names(names),
    }
}

/// True if each name between slashes is neither empty nor `.`.
fn are_names(names: &[u8]) -> bool
    ensures { result ≡ are_names names.now }
{
    names.split(|c| *c == b'/').all(|name| is_name(name))
}

/// True if a name is neither empty nor `.`.
fn is_name(name: &[u8]) -> bool
    ensures { result ≡ is_name name.now }
{
    !name.is_empty() && name != b".".as_slice()
}

/// Reads a 32-bit decimal number.
fn long_in(word: &[u8]) -> Option<u32>
    ensures { result ≡ long_in word.now }
{
    let number = number_in(10, u64::from(u32::MAX), word)?;
    Some(number as u32)
}

/// Reads a 16-bit decimal number.
fn short_in(word: &[u8]) -> Option<u16>
    ensures { result ≡ short_in word.now }
{
    let number = number_in(10, u64::from(u16::MAX), word)?;
    Some(number as u16)
}

/// Reads an 8-bit decimal number.
fn byte_in(word: &[u8]) -> Option<u8>
    ensures { result ≡ byte_in word.now }
{
    let number = number_in(10, u64::from(u8::MAX), word)?;
    Some(number as u8)
}

/// Reads permissions, an octal number of at most 7777.
fn permissions_in(word: &[u8]) -> Option<u16>
    ensures { result ≡ permissions_in word.now }
{
    let number = number_in(8, 0o7777, word)?;
    Some(number as u16)
}
