//! The words for several files to copy.
ghost use Rattle.std.specs.Prelude.{◌≡◌, ◌≢◌, ◌≤◌, ◌-◌, [], None, ℕ, List, Option, Some, false, true, IfErr, IfOk, IfSome, codes, flat_map, length, map, option_map};
ghost use Rattle.command_words.specs.Invocations.{AreFilesGiven, ArePathsGiven, EndsInMoment, IsFirstWord, IsLeftOut, IsMomentAfter, TellsOf, are_apart, are_distinct, get_words, last_names, put_words};

use crate::fault::WordFault;
use crate::given::{Given, missing, wrong};
use crate::invocation::Moment;
use crate::moment::moment_of;
use crate::texts;
use std::alloc::{AllocError, Global};
use std::collections::BTreeSet;
use std::path::Path;

/// Files to put, and the time.
#[derive(Drop)]
pub(crate) struct PutFiles<'a> {
    /// The files.
    pub files: Vec<&'a str>,
    /// The time.
    pub now: Moment<'a>,
}

/// Returns the one file to put.
pub(crate) fn file_in<'a, G: Given<'a>>(given: &G) -> Result<&'a str, WordFault<'a>>
    ensures read { IfOk result (λ file. IsFirstWord (G.words given.now) (codes "FILE") file.now) }
    ensures refused { IfErr result (TellsOf (IsLeftOut (G.words given.now) (codes "FILE"))) }
{
    match given.first("FILE") {
        Some(file) => Ok(file),
        None => Err(missing("FILE", texts::NO_FILE)),
    }
}

/// Succeeds if there are no more words; otherwise `wanted` names the option that is missing.
pub(crate) fn no_more<'a, G: Given<'a>>(given: &G, wanted: &'a str) -> Result<(), WordFault<'a>>
    ensures none { IfOk result (λ _. IsLeftOut (G.words given.now) (codes "MORE")) }
    ensures refused { IfErr result (TellsOf (IsLeftOut (G.words given.now) (codes "MORE") → ⊥)) }
{
    left_out(given, "MORE", wanted)
}

/// Succeeds if no word was given for an argument; otherwise `wanted` says what it is for.
pub(crate) fn left_out<'a, G: Given<'a>>(
    given: &G,
    name: &'a str,
    wanted: &'a str,
) -> Result<(), WordFault<'a>>
    ensures none { IfOk result (λ _. IsLeftOut (G.words given.now) name.now) }
    ensures refused { IfErr result (TellsOf (IsLeftOut (G.words given.now) name.now → ⊥)) }
{
    match given.first(name) {
        Some(word) => Err(wrong(name, word, wanted)),
        None => Ok(()),
    }
}

/// The arguments of `put` whose words are files, when several are put.
const PUT_FILES: [&str; 4] = ["PATH", "FILE", "NOW", "MORE"];

/// The arguments of `get` whose words are paths, when several files are read.
const GET_PATHS: [&str; 2] = ["PATH", "MORE"];

/// Returns the files to put, and the time given after them, or the time of the program's clock if there is none.
pub(crate) fn files_in<'a, G: Given<'a>>(
    alloc: Global,
    given: &G,
    clock: Option<u32>,
) -> Result<PutFiles<'a>, WordFault<'a>>
    ensures read { IfOk result (λ found. AreFilesGiven clock (put_words (G.words given.now)) (map (λ file. file.now) found.files.items)
        found.now.seconds (option_map (λ word. word.now) found.now.word)) }
    ensures refused { IfErr result (TellsOf ((files : List (List ℕ)) (now : ℕ) (word : Option (List ℕ))
        → AreFilesGiven clock (put_words (G.words given.now)) files now word → ⊥)) }
{
    let words = words_in(alloc, given, &PUT_FILES)?;
    let found = with_moment(words, clock)?;
    one_or_more("FILE", &found.files)?;
    apart(alloc, "FILE", &found.files)?;
    Ok(found)
}

/// Returns the paths of the files to get.
pub(crate) fn paths_in<'a, G: Given<'a>>(
    alloc: Global,
    given: &G,
) -> Result<Vec<&'a str>, WordFault<'a>>
    ensures read { IfOk result (λ paths. ArePathsGiven (get_words (G.words given.now)) (map (λ path. path.now) paths.items)) }
    ensures refused { IfErr result (TellsOf ((paths : List (List ℕ)) → ArePathsGiven (get_words (G.words given.now)) paths → ⊥)) }
{
    let paths = words_in(alloc, given, &GET_PATHS)?;
    one_or_more("PATH", &paths)?;
    apart(alloc, "PATH", &paths)?;
    Ok(paths)
}

/// Returns all words given for these arguments, argument by argument.
fn words_in<'a, G: Given<'a>>(
    alloc: Global,
    given: &G,
    names: &[&str],
) -> Result<Vec<&'a str>, AllocError>
    ensures { IfOk result (λ found. map (λ word. word.now) found.items ≡ flat_map (G.words given.now) (map (λ name. name.now) names.now)) }
{
    let mut words = Vec::new(alloc);
    for name in names {
        let more = given.all(alloc, name)?;
        words.extend_from_slice(&more)?;
    }
    Ok(words)
}

/// Returns the files among some words, and the time after them, or the time of the program's clock if there is none.
fn with_moment<'a>(words: Vec<&'a str>, clock: Option<u32>) -> Result<PutFiles<'a>, WordFault<'a>>
    ensures read { IfOk result (λ found. IsMomentAfter clock (map (λ word. word.now) words.entry.items) (map (λ file. file.now) found.files.items)
        found.now.seconds (option_map (λ word. word.now) found.now.word)) }
    ensures refused { IfErr result (TellsOf ((files : List (List ℕ)) (now : ℕ) (word : Option (List ℕ))
        → IsMomentAfter clock (map (λ word. word.now) words.entry.items) files now word → ⊥)) }
{
    let mut files = words;
    match moment_after(&files) {
        Some(seconds) => {
            let word = files.pop();
            let now = Moment { seconds, word };
            Ok(PutFiles { files, now })
        }
        None => match clock {
            Some(seconds) => {
                let now = Moment {
                    seconds,
                    word: None,
                };
                Ok(PutFiles { files, now })
            }
            None => Err(missing("NOW", texts::NO_CLOCK)),
        },
    }
}

/// Reads a time from the last of two words or more.
fn moment_after(words: &[&str]) -> Option<u32>
    ensures some { IfSome result (EndsInMoment (map (λ word. word.now) words.now)) }
    ensures none { result ≡ None → (now : ℕ) → EndsInMoment (map (λ word. word.now) words.now) now → ⊥ }
{
    if words.len() < 2 {
        return None;
    }
    moment_of(words[words.len() - 1])
}

/// Succeeds if the word for an option isn't empty.
pub(crate) fn not_empty<'a>(
    name: &'a str,
    word: &'a str,
    wanted: &'a str,
) -> Result<(), WordFault<'a>>
    ensures some { IfOk result (λ _. word.now ≢ []) }
    ensures refused { IfErr result (TellsOf (word.now ≡ [])) }
{
    if word.is_empty() {
        return Err(wrong(name, word, wanted));
    }
    Ok(())
}

/// Succeeds if there is at least one path.
fn one_or_more<'a>(name: &'a str, paths: &[&'a str]) -> Result<(), WordFault<'a>>
    ensures some { IfOk result (λ _. 1 ≤ length paths.now) }
    ensures refused { IfErr result (TellsOf (length paths.now ≡ 0)) }
{
    if paths.is_empty() {
        return Err(missing(name, texts::NO_FILE));
    }
    Ok(())
}

/// Succeeds if no two paths have the same last name, under which they are copied.
fn apart<'a>(alloc: Global, name: &'a str, paths: &[&'a str]) -> Result<(), WordFault<'a>>
    ensures apart { IfOk result (λ _. are_apart (map (λ path. path.now) paths.now) ≡ true) }
    ensures refused { IfErr result (TellsOf (are_apart (map (λ path. path.now) paths.now) ≡ false)) }
{
    let names = last_names(alloc, paths)?;
    match repeated(alloc, &names)? {
        Some(last_name) => Err(wrong(name, last_name, texts::SAME_NAME)),
        None => Ok(()),
    }
}

/// Returns the last names of the paths that have one.
fn last_names<'a>(alloc: Global, paths: &[&'a str]) -> Result<Vec<&'a str>, AllocError>
    ensures { IfOk result (λ names. map (λ name. name.now) names.items ≡ last_names (map (λ path. path.now) paths.now)) }
{
    let mut names = Vec::new(alloc);
    for path in paths {
        if let Some(name) = Path::new(*path).file_name() {
            names.push(name)?;
        }
    }
    Ok(names)
}

/// Returns the first name that equals an earlier one.
///
/// Costs sorting the names.
fn repeated<'a>(alloc: Global, names: &[&'a str]) -> Result<Option<&'a str>, AllocError>
    ensures some { IfOk result (λ found. IfSome found (λ _. are_distinct (map (λ name. name.now) names.now) ≡ false)) }
    ensures none { IfOk result (λ found. found ≡ None → are_distinct (map (λ name. name.now) names.now) ≡ true) }
{
    let mut seen = BTreeSet::new(alloc);
    for &name in names {
        if !seen.insert(name)? {
            return Ok(Some(name));
        }
    }
    Ok(None)
}
