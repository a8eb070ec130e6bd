//! The words given for the arguments of a command.
ghost use Rattle.std.specs.Prelude.{◌≡◌, ◌≤◌, true, ℕ, List, None, IfOk, IfErr, IfSome, IsSome, codes, length, map, option_map, slice_get};
ghost use Rattle.command_words.specs.Decimal.{IsNumberUpTo, IsNumberGiven, IsThreads, IsThreadsGiven};
ghost use Rattle.command_words.specs.Disks.{AreBlocksOf};
ghost use Rattle.command_words.specs.Owners.{IsOwnerGiven, IsOwnerIfAny, IsOwnerNamed, IsOwnerWord};
ghost use Rattle.command_words.specs.Permissions.{ArePermissionsIfAny, IsPermissionsGiven, IsPermissionsOr, IsPermissionsWord};
ghost use Rattle.command_words.specs.Invocations.{IsDeviceKind, IsEditionGiven, IsEditionNamed, IsMomentGiven, IsNodeGiven, IsNodeWord, IsNumberOr, IsPathGiven, IsPathWord, IsPlaceWord, IsRadixGiven, IsRescueGiven, IsTargetGiven, IsValue, IsWrong, TellsOf, is_path, is_set, the_word};
ghost use Rattle.command_words.specs.declared.parameters.WordKind.TheVariants as kinds;

use crate::decimal::{byte_of, long_of, threads_of, word_of};
use crate::disks::blocks_of;
use crate::fault::{Said, WordFault, WrongWord};
use crate::moment::moment_of;
use crate::owners::owner_of;
use crate::permissions::permissions_of;
use crate::texts;
use command_terms::{DumpTarget, NodeName, PermissionChange};
use std::alloc::{AllocError, Global};
use vol_dir::Cred;
use vol_fields::Radix;
use vol_layout::{DeviceKind, Edition};

/// The words given for the arguments of a command.
pub trait Given<'a> {
    ghost words: { Self → List ℕ → List (List ℕ) };

    /// Returns the first word given for an argument.
    fn first(&self, name: &str) -> Option<&'a str>
        ensures { option_map (λ word. word.now) result ≡ slice_get (words self.now name.now) 0 };

    /// Returns all words given for an argument.
    fn all(&self, alloc: Global, name: &str) -> Result<Vec<&'a str>, AllocError>
        ensures { IfOk result (λ found. map (λ word. word.now) found.items ≡ words self.now name.now) };
}

/// Returns the first word given for an argument, or the empty one.
pub(crate) fn text_in<'a, G: Given<'a>>(given: &G, name: &str) -> &'a str
    ensures { result.now ≡ the_word (G.words given.now) name.now }
{
    given.first(name).unwrap_or("")
}

/// True if an option was given.
pub(crate) fn flag_in<'a, G: Given<'a>>(given: &G, name: &str) -> bool
    ensures { result ≡ is_set (G.words given.now name.now) }
{
    text_in(given, name) == SET
}

/// The word of an option that was given.
const SET: &str = "true";

/// The edition of a volume, by its word.
#[derive(Clone, Copy)]
pub(crate) struct EditionWord {
    /// The edition; if `is_any`, the seventh.
    pub edition: Edition,
    /// True if the word stands for the edition of which the volume is sound.
    pub is_any: bool,
}

/// Reads the edition of a volume, which was given for an argument.
pub(crate) fn edition_in<'a, G: Given<'a>>(
    given: &G,
    name: &str,
) -> Result<EditionWord, WordFault<'a>>
    ensures read { IfOk result (λ word. IsEditionGiven word.edition word.is_any (the_word (G.words given.now) name.now)) }
    ensures refused { IfErr result (TellsOf (IsValue None kinds.Edition (G.words given.now name.now) → ⊥)) }
{
    let text = text_in(given, name);
    match text {
        "6" => Ok(EditionWord {
            edition: Edition::V6,
            is_any: false,
        }),
        "7" => Ok(EditionWord {
            edition: Edition::V7,
            is_any: false,
        }),
        "any" => Ok(EditionWord {
            edition: Edition::V7,
            is_any: true,
        }),
        _ => Err(wrong("EDITION", text, texts::EDITIONS)),
    }
}

/// Reads the edition of a volume to make.
pub(crate) fn new_edition_in<'a, G: Given<'a>>(given: &G) -> Result<Edition, WordFault<'a>>
    ensures read { IfOk result (λ edition. IsEditionNamed edition (the_word (G.words given.now) (codes "EDITION"))) }
    ensures refused { IfErr result (TellsOf (IsValue None kinds.NewEdition (G.words given.now (codes "EDITION")) → ⊥)) }
{
    let text = text_in(given, "EDITION");
    match text {
        "6" => Ok(Edition::V6),
        "7" => Ok(Edition::V7),
        _ => Err(wrong("EDITION", text, texts::NEW_EDITIONS)),
    }
}

/// Reads the 16-bit number given for an argument.
pub(crate) fn word_in<'a, G: Given<'a>>(given: &G, name: &'a str) -> Result<u16, WordFault<'a>>
    ensures read { IfOk result (λ number. IsNumberGiven 65535 (the_word (G.words given.now) name.now) number) }
    ensures refused { IfErr result (TellsOf (IsNumberUpTo 65535 (the_word (G.words given.now) name.now) → ⊥)) }
{
    let text = text_in(given, name);
    word_of(text).ok_or(wrong(name, text, texts::WORD))
}

/// Reads the path given for an argument of a command that changes a volume, or returns the root's path if it was left out.
pub(crate) fn path_in<'a, G: Given<'a>>(given: &G, name: &'a str) -> Result<&'a str, WordFault<'a>>
    ensures read { IfOk result (λ path. IsPathGiven (G.words given.now name.now) path.now) }
    ensures refused { IfErr result (TellsOf (IsPathWord (G.words given.now name.now) → ⊥)) }
{
    match given.first(name) {
        Some("") => Err(wrong(name, "", texts::EMPTY_PATH)),
        Some(path) => Ok(path),
        None => Ok(""),
    }
}

/// Reads the file for a rescue, if one was named.
pub(crate) fn rescue_in<'a, G: Given<'a>>(given: &G) -> Result<Option<&'a str>, WordFault<'a>>
    ensures read { IfOk result (λ rescue. IsRescueGiven (G.words given.now (codes "rescue")) (option_map (λ word. word.now) rescue)) }
    ensures refused { IfErr result (TellsOf (IsPathWord (G.words given.now (codes "rescue")) → ⊥)) }
{
    match given.first("rescue") {
        Some("") => Err(wrong("rescue", "", texts::EMPTY_RESCUE)),
        rescue => Ok(rescue),
    }
}

/// Reads the i-node: a path if its word begins with a slash, else a number.
pub(crate) fn node_in<'a, G: Given<'a>>(given: &G) -> Result<NodeName<'a>, WordFault<'a>>
    ensures read { IfOk result (IsNodeGiven (the_word (G.words given.now) (codes "INO"))) }
    ensures refused { IfErr result (TellsOf (IsNodeWord (the_word (G.words given.now) (codes "INO")) → ⊥)) }
{
    let text = text_in(given, "INO");
    if is_path(text) {
        return Ok(NodeName::Path(text));
    }
    match word_of(text) {
        Some(number) => Ok(NodeName::Number(number)),
        None => Err(wrong("INO", text, texts::NO_NODE)),
    }
}

/// Reads what is dumped: the i-node of a path if the word begins with a slash, else the i-node or the block with its number.
pub(crate) fn target_in<'a, G: Given<'a>>(given: &G) -> Result<DumpTarget<'a>, WordFault<'a>>
    ensures read { IfOk result (IsTargetGiven (the_word (G.words given.now) (codes "BLOCK")) (is_set (G.words given.now (codes "inode")))) }
    ensures refused { IfErr result (TellsOf (IsPlaceWord (the_word (G.words given.now) (codes "BLOCK")) → ⊥)) }
{
    let text = text_in(given, "BLOCK");
    if is_path(text) {
        return Ok(DumpTarget::Path(text));
    }
    match long_of(text) {
        Some(number) if flag_in(given, "inode") => Ok(DumpTarget::Inode(number)),
        Some(number) => Ok(DumpTarget::Block(number)),
        None => Err(wrong("BLOCK", text, texts::NO_PLACE)),
    }
}

/// Returns the digits that were chosen.
pub(crate) fn radix_in<'a, G: Given<'a>>(given: &G) -> Radix
    ensures { IsRadixGiven (G.words given.now) result }
{
    if flag_in(given, "octal") {
        Radix::Octal
    } else {
        Radix::Hex
    }
}

/// True if a word begins with a slash.
fn is_path(word: &str) -> bool
    ensures { result ≡ is_path word.now }
{
    !word.is_empty() && word.as_bytes()[0] == b'/'
}

/// Reads the 32-bit number given for an argument.
pub(crate) fn long_in<'a, G: Given<'a>>(given: &G, name: &'a str) -> Result<u32, WordFault<'a>>
    ensures read { IfOk result (λ number. IsNumberGiven 4294967295 (the_word (G.words given.now) name.now) number) }
    ensures refused { IfErr result (TellsOf (IsNumberUpTo 4294967295 (the_word (G.words given.now) name.now) → ⊥)) }
{
    let text = text_in(given, name);
    long_of(text).ok_or(wrong(name, text, texts::LONG))
}

/// Reads the 16-bit number given for an argument, or returns `other` if it was left out.
pub(crate) fn word_or<'a, G: Given<'a>>(
    given: &G,
    name: &'a str,
    other: u16,
) -> Result<u16, WordFault<'a>>
    ensures read { IfOk result (IsNumberOr 65535 other (G.words given.now name.now)) }
    ensures refused { IfErr result (TellsOf (IsValue None kinds.WordOr (G.words given.now name.now) → ⊥)) }
{
    match given.first(name) {
        Some(text) => word_of(text).ok_or(wrong(name, text, texts::WORD)),
        None => Ok(other),
    }
}

/// Reads the 32-bit number given for an argument, or returns `other` if it was left out.
pub(crate) fn long_or<'a, G: Given<'a>>(
    given: &G,
    name: &'a str,
    other: u32,
) -> Result<u32, WordFault<'a>>
    ensures read { IfOk result (IsNumberOr 4294967295 other (G.words given.now name.now)) }
    ensures refused { IfErr result (TellsOf (IsValue None kinds.LongOr (G.words given.now name.now) → ⊥)) }
{
    match given.first(name) {
        Some(text) => long_of(text).ok_or(wrong(name, text, texts::LONG)),
        None => Ok(other),
    }
}

/// Reads the number of blocks.
pub(crate) fn blocks_in<'a, G: Given<'a>>(given: &G) -> Result<u32, WordFault<'a>>
    ensures read { IfOk result (AreBlocksOf (the_word (G.words given.now) (codes "FSIZE"))) }
    ensures refused { IfErr result (TellsOf (IsValue None kinds.Blocks (G.words given.now (codes "FSIZE")) → ⊥)) }
{
    let text = text_in(given, "FSIZE");
    blocks_of(text).ok_or(wrong("FSIZE", text, texts::BLOCKS_OR_DISK))
}

/// Reads the number of threads given for an argument.
pub(crate) fn threads_in<'a, G: Given<'a>>(given: &G, name: &'a str) -> Result<usize, WordFault<'a>>
    ensures read { IfOk result (λ number. IsThreadsGiven (the_word (G.words given.now) name.now) number) }
    ensures refused { IfErr result (TellsOf (IsThreads (the_word (G.words given.now) name.now) → ⊥)) }
{
    let text = text_in(given, name);
    threads_of(text).ok_or(wrong(name, text, texts::THREADS))
}

/// Reads the change of permissions given for an argument.
pub(crate) fn permissions_in<'a, G: Given<'a>>(
    given: &G,
    name: &'a str,
) -> Result<PermissionChange, WordFault<'a>>
    ensures read { IfOk result (IsPermissionsGiven (the_word (G.words given.now) name.now)) }
    ensures refused { IfErr result (TellsOf (IsPermissionsWord (the_word (G.words given.now) name.now) → ⊥)) }
{
    let text = text_in(given, name);
    match permissions_of(text) {
        Some(change) => Ok(change),
        None => Err(wrong(name, text, texts::PERMISSIONS)),
    }
}

/// Reads the change of permissions given for an argument, or returns `other` if it was left out.
pub(crate) fn permissions_or<'a, G: Given<'a>>(
    given: &G,
    name: &'a str,
    other: PermissionChange,
) -> Result<PermissionChange, WordFault<'a>>
    ensures read { IfOk result (IsPermissionsOr other (G.words given.now name.now)) }
    ensures refused { IfErr result (TellsOf (ArePermissionsIfAny (G.words given.now name.now) → ⊥)) }
{
    match given.first(name) {
        Some(text) => match permissions_of(text) {
            Some(change) => Ok(change),
            None => Err(wrong(name, text, texts::PERMISSIONS)),
        },
        None => Ok(other),
    }
}

/// Reads the kind of a device.
pub(crate) fn device_kind_in<'a, G: Given<'a>>(given: &G) -> Result<DeviceKind, WordFault<'a>>
    ensures read { IfOk result (λ kind. IsDeviceKind kind (the_word (G.words given.now) (codes "KIND"))) }
    ensures refused { IfErr result (TellsOf (IsValue None kinds.DeviceKind (G.words given.now (codes "KIND")) → ⊥)) }
{
    let text = text_in(given, "KIND");
    match text {
        "c" => Ok(DeviceKind::Character),
        "b" => Ok(DeviceKind::Block),
        _ => Err(wrong("KIND", text, texts::DEVICE_KINDS)),
    }
}

/// Reads the number from 0 to 255 given for an argument.
pub(crate) fn byte_in<'a, G: Given<'a>>(given: &G, name: &'a str) -> Result<u8, WordFault<'a>>
    ensures read { IfOk result (λ number. IsNumberGiven 255 (the_word (G.words given.now) name.now) number) }
    ensures refused { IfErr result (TellsOf (IsNumberUpTo 255 (the_word (G.words given.now) name.now) → ⊥)) }
{
    let text = text_in(given, name);
    byte_of(text).ok_or(wrong(name, text, texts::BYTE))
}

/// Reads the user and the group of an option, if it was given.
pub(crate) fn owner_in<'a, G: Given<'a>>(given: &G) -> Result<Option<Cred>, WordFault<'a>>
    ensures read { IfOk result (IsOwnerGiven (G.words given.now (codes "owner"))) }
    ensures refused { IfErr result (TellsOf (IsOwnerIfAny (G.words given.now (codes "owner")) → ⊥)) }
{
    match given.first("owner") {
        Some(text) => owner_of_word(text),
        None => Ok(None),
    }
}

/// Reads a user and a group.
fn owner_of_word(text: &str) -> Result<Option<Cred>, WordFault<'_>>
    ensures read { IfOk result (λ owner. IfSome owner (IsOwnerNamed text.now) × IsSome owner) }
    ensures refused { IfErr result (TellsOf (IsOwnerWord text.now → ⊥)) }
{
    match owner_of(text) {
        Some(owner) => Ok(Some(owner)),
        None => Err(wrong("owner", text, texts::OWNER_WORD)),
    }
}

/// Reads the time, or returns the time of the program's clock if it was left out.
pub(crate) fn moment_in<'a, G: Given<'a>>(
    given: &G,
    clock: Option<u32>,
) -> Result<u32, WordFault<'a>>
    ensures read { IfOk result (IsMomentGiven clock (G.words given.now (codes "NOW"))) }
    ensures refused { IfErr result (TellsOf (IsValue clock kinds.Moment (G.words given.now (codes "NOW")) → ⊥)) }
{
    match given.first("NOW") {
        Some(text) => moment_of(text).ok_or(wrong("NOW", text, texts::MOMENT)),
        None => clock.ok_or(missing("NOW", texts::NO_CLOCK)),
    }
}

/// The greatest number of scripts: one for each session that a shared volume may have.
const MOST_SCRIPTS: usize = 64;

/// Returns the scripts that were given.
pub(crate) fn scripts_in<'a, G: Given<'a>>(
    alloc: Global,
    given: &G,
) -> Result<Vec<&'a str>, WordFault<'a>>
    ensures read { IfOk result (λ scripts. (map (λ script. script.now) scripts.items ≡ G.words given.now (codes "SCRIPT"))
        × (1 ≤ length scripts.items) × (length scripts.items ≤ 64)) }
    ensures refused { IfErr result (TellsOf (IsValue None kinds.Scripts (G.words given.now (codes "SCRIPT")) → ⊥)) }
{
    let scripts = given.all(alloc, "SCRIPT")?;
    if scripts.is_empty() || scripts.len() > MOST_SCRIPTS {
        return Err(WordFault::Wrong(WrongWord {
            name: "SCRIPT",
            said: Said::Words(scripts.len()),
            wanted: texts::SCRIPTS,
        }));
    }
    Ok(scripts)
}

/// Returns the fault for the argument `name` when it has no word.
pub(crate) fn missing<'a>(name: &'a str, wanted: &'a str) -> WordFault<'a>
    ensures { IsWrong result }
{
    WordFault::Wrong(WrongWord {
        name,
        said: Said::Nothing,
        wanted,
    })
}

/// Returns the fault for an option that doesn't go together with another one.
pub(crate) fn excluded<'a>(name: &'a str, other: &'a str, wanted: &'a str) -> WordFault<'a>
    ensures { IsWrong result }
{
    WordFault::Wrong(WrongWord {
        name,
        said: Said::Option(other),
        wanted,
    })
}

/// Returns the fault for a word that isn't valid for the argument `name`.
pub(crate) fn wrong<'a>(name: &'a str, word: &'a str, wanted: &'a str) -> WordFault<'a>
    ensures { IsWrong result }
{
    WordFault::Wrong(WrongWord {
        name,
        said: Said::Word(word),
        wanted,
    })
}
