//! The meanings of faults, in words.

use crate::hints::{hint, is_no_volume};
use crate::line_meanings::line_meaning;
use crate::sizes::Sizes;
use crate::subject::{About, Subject};
use command_changes::SPARSE_FILE;
use command_changes::repair::NOT_REPAIRED;
use command_faults::{Fault, LineFlaw};
use command_words::Verb;
use identify_lines::{ShownPath, file_word};
use std::alloc::{AllocError, Global};
use vol_dir::Refusal;
use vol_findings::{Rule, edition_number};
use vol_layout::Edition;

/// The meaning of NoMemory.
pub const NO_MEMORY: &str = "there was too little memory for this";

/// Where the rules of soundness are, and their definitions.
pub const RULES_ARE_IN: &str =
    "docs/FORMATS.md has the twelve rules, and docs/PROOFS.md the file that defines each, under \"Where each definition is\"";

/// The meaning of BadId.
const BAD_ID: &str =
    "the user or the group is above the edition's highest, 255 in the sixth and 32767 in the seventh";

/// The meaning of a sparse file in an archive.
const STORED_SPARSE: &str =
    "it is stored without its zeros; `tar` without -S, or `bsdtar --no-read-sparse`, stores it whole";

/// The meaning of NotRepaired.
const UNREPAIRED: &str =
    "its copy still isn't sound, or would change a file that fits: nothing is saved; `unixvol export --lost` reads what is there";

/// The text for an export that wrote nothing.
const NOTHING_EXPORTED: &str = "; nothing is exported";

/// The text for a listing or a file that wasn't shown of a volume that isn't sound.
const SHOWN_UNSOUND: &str = "; --unsound shows what is there";

/// The text for an export that wrote nothing of a volume that was cut off.
const NOT_CUT: &str = "; nothing is exported: add --cut to read what is there";

/// Returns the meaning of a fault, with the subject of the command. `sizes` are the sizes in the image, if available. Returns `None` for other faults
/// in words, such as those of `export` and `import`.
pub fn meaning_of(
    alloc: Global,
    fault: &Fault,
    subject: Subject<'_>,
    sizes: Option<Sizes>,
) -> Result<Option<String>, AllocError> {
    match fault {
        Fault::Unsound(rule) => rule_meaning(alloc, Some(*rule), true, subject, sizes),
        Fault::Worded { rule: None, lines } => unread_meaning(alloc, lines, subject),
        Fault::Worded { rule, .. } => rule_meaning(alloc, *rule, false, subject, sizes),
        Fault::BadLine {
            script,
            number,
            flaw,
            ..
        } => script_meaning(alloc, *script, *number, flaw, subject),
        Fault::Refused(refusal) => refusal_meaning(alloc, *refusal, subject),
        Fault::RefusedAt { refusal, .. } => named_meaning(alloc, *refusal, subject),
        Fault::Bounds => {
            let about = about_in(alloc, subject)?;
            meaning(alloc, about, "no volume of the edition has these sizes")
        }
        Fault::HasDevice => {
            let image = shown(alloc, subject.image)?;
            meaning(
                alloc,
                image,
                "the volume has a special file, which migrate doesn't keep",
            )
        }
        // If standard output failed, the system's error is printed instead.
        Fault::Output if subject.verb == Verb::Export => {
            let output = shown(alloc, "standard output")?;
            meaning(alloc, output, "it is a terminal, which gets no archive")
        }
        Fault::Output => Ok(None),
    }
}

/// Returns the second line of a fault, without the program's name: the subject and the meaning.
fn meaning(alloc: Global, about: String, words: &str) -> Result<Option<String>, AllocError> {
    Ok(Some(format!(in alloc; "{about}: {words}")?))
}

/// Returns the meaning of an archive that can't be read because it is compressed, or has a sparse file; of a volume that needs more blocks; or of one that
/// isn't repaired.
fn unread_meaning(
    alloc: Global,
    lines: &[u8],
    subject: Subject<'_>,
) -> Result<Option<String>, AllocError> {
    match (subject.verb, subject.packed) {
        (Verb::Import, Some(words)) => {
            let input = shown(alloc, "standard input")?;
            meaning(alloc, input, words)
        }
        (Verb::Import, None) if is_about_sparse(lines) => {
            let member = shown(alloc, "this member")?;
            meaning(alloc, member, STORED_SPARSE)
        }
        (Verb::Resize, _) => needs_meaning(alloc, lines, subject),
        (Verb::Repair, _) if lines == NOT_REPAIRED => {
            let image = shown(alloc, subject.image)?;
            meaning(alloc, image, UNREPAIRED)
        }
        _ => Ok(None),
    }
}

/// Returns the meaning of a volume that can't have fewer blocks: the last block that a file uses.
fn needs_meaning(
    alloc: Global,
    lines: &[u8],
    subject: Subject<'_>,
) -> Result<Option<String>, AllocError> {
    let Some(needed) = needed_in(lines) else {
        return Ok(None);
    };
    let image = shown(alloc, subject.image)?;
    let word = file_word(alloc, subject.image)?;
    let number = edition_number(subject.edition);
    let last = needed.saturating_sub(1);
    let place = match subject.at {
        0 => String::new(alloc),
        at => format!(in alloc; " --at {at}")?,
    };
    let text = format!(in alloc;
        "{image}: block {last} is the last one that a file uses; `unixvol block {number} {word} {last}{place}` says which"
    )?;
    Ok(Some(text))
}

/// Returns the number of blocks in the line that says that a volume needs so many.
fn needed_in(lines: &[u8]) -> Option<u32> {
    let text = str::from_utf8(lines).ok()?;
    let more = text.strip_prefix("unixvol: it needs ")?;
    more.strip_suffix(" blocks\n")?.parse().ok()
}

/// True if a line says that a member is a sparse file.
fn is_about_sparse(lines: &[u8]) -> bool {
    match lines.strip_suffix(b"\n".as_slice()) {
        Some(line) => line.ends_with(SPARSE_FILE),
        None => false,
    }
}

/// Returns the meaning of a broken rule. `is_refused` is true if nothing was shown because of it.
fn rule_meaning(
    alloc: Global,
    rule: Option<u8>,
    is_refused: bool,
    subject: Subject<'_>,
    sizes: Option<Sizes>,
) -> Result<Option<String>, AllocError> {
    let Some(rule) = rule.and_then(Rule::at_number) else {
        return Ok(None);
    };
    let image = shown(alloc, subject.image)?;
    let number = rule.number();
    let sentence = rule.sentence();
    let more = match rule {
        Rule::Whole | Rule::Bounded => sizes_meaning(alloc, rule, &image, subject, sizes)?,
        _ => String::from_str(alloc, "; `unixvol check` says what breaks it")?,
    };
    let end = match (rule, subject.verb) {
        (Rule::Whole, Verb::Export) if is_cut_off(subject.edition, sizes) => NOT_CUT,
        (Rule::Whole | Rule::Bounded, Verb::Export) => NOTHING_EXPORTED,
        (Rule::Whole | Rule::Bounded, _) => "",
        (_, Verb::Ls | Verb::Get) if is_refused => SHOWN_UNSOUND,
        _ => "",
    };
    let text = format!(in alloc; "{image}: it breaks rule {number}, that {sentence}{more}{end}")?;
    Ok(Some(text))
}

/// True if an image with these sizes, which breaks rule 1, can be a volume of an edition that was cut off.
fn is_cut_off(edition: Edition, sizes: Option<Sizes>) -> bool {
    let Some(sizes) = sizes else {
        return false;
    };
    let Some(said) = sizes.said else {
        return false;
    };
    let is_other = match sizes.guess {
        Some(guess) => sizes.other.is_some() || is_no_volume(guess),
        None => sizes.other.is_some(),
    };
    !is_other && said <= edition.constants().block_limit
}

/// Describes the sizes in an image that breaks rule 1 or rule 2, and the edition that the image may belong to; or what its file holds, if that begins
/// with no volume. `image` is its path as it is shown.
fn sizes_meaning(
    alloc: Global,
    rule: Rule,
    image: &str,
    subject: Subject<'_>,
    sizes: Option<Sizes>,
) -> Result<String, AllocError> {
    let mut text = String::new(alloc);
    let Some(sizes) = sizes else {
        return Ok(text);
    };
    let more = match sizes.guess {
        Some(guess) if is_no_volume(guess) => return hint(alloc, image, subject.edition, guess),
        Some(guess) => hint(alloc, image, subject.edition, guess)?,
        None => String::new(alloc),
    };
    if let (Rule::Whole, Some(said)) = (rule, sizes.said) {
        let blocks = sizes.blocks;
        write!(
            text,
            ": it has {blocks} blocks, its super-block says {said}"
        )?;
    }
    if let Some(other) = sizes.other {
        let number = edition_number(other);
        write!(text, "; rules 1 and 2 hold for edition {number}")?;
    }
    text.push_str(&more)?;
    Ok(text)
}

/// Returns the meaning of a script's line that can't be read.
fn script_meaning(
    alloc: Global,
    script: u64,
    line: u64,
    flaw: &Option<LineFlaw>,
    subject: Subject<'_>,
) -> Result<Option<String>, AllocError> {
    let script = match subject.about {
        About::Scripts(scripts) => script_at(scripts, script),
        _ => None,
    };
    let Some(script) = script else {
        return Ok(None);
    };
    let script = shown(alloc, script)?;
    let text = line_meaning(alloc, line, flaw)?;
    Ok(Some(format!(in alloc; "{script}: {text}")?))
}

/// Returns the script with a number, counted from 1.
fn script_at<'a>(scripts: &'a [&'a str], number: u64) -> Option<&'a str> {
    let place = usize::try_from(number.checked_sub(1)?).ok()?;
    scripts.get(place).copied()
}

/// Returns the meaning of a refusal whose first line names a member or a file.
fn named_meaning(
    alloc: Global,
    refusal: Refusal,
    subject: Subject<'_>,
) -> Result<Option<String>, AllocError> {
    let named = match subject.verb {
        Verb::Import => "this member",
        Verb::Build => "this line of the list",
        _ => "this file",
    };
    let words = words_of(refusal, subject.verb);
    Ok(Some(format!(in alloc; "{named}: {words}")?))
}

/// Returns the meaning of a refusal, after the subject of the command.
fn refusal_meaning(
    alloc: Global,
    refusal: Refusal,
    subject: Subject<'_>,
) -> Result<Option<String>, AllocError> {
    // A refusal of `build` without a path is that of its boot block.
    let verb = match subject.verb {
        Verb::Build => Verb::Boot,
        verb => verb,
    };
    let words = words_of(refusal, verb);
    match refusal {
        Refusal::NoMemory => Ok(Some(format!(in alloc; "{words}")?)),
        _ => {
            let about = about_in(alloc, subject)?;
            let end = match subject.verb {
                Verb::Export => NOTHING_EXPORTED,
                _ => "",
            };
            Ok(Some(format!(in alloc; "{about}: {words}{end}")?))
        }
    }
}

/// Returns the subject of a command, as the second line names it.
fn about_in(alloc: Global, subject: Subject<'_>) -> Result<String, AllocError> {
    match subject.about {
        About::Image | About::Scripts(_) => shown(alloc, subject.image),
        About::Path("") => shown(alloc, "/"),
        About::Path(path) => shown(alloc, path),
        About::Names { from, to } => {
            let from = shown(alloc, from)?;
            let to = shown(alloc, to)?;
            format!(in alloc; "{from} to {to}")
        }
        About::Inode(number) => format!(in alloc; "i-node {number}"),
    }
}

/// Returns a word of the command line so that a terminal can show it, as [`ShownPath`] does.
pub fn shown(alloc: Global, word: &str) -> Result<String, AllocError> {
    format!(in alloc; "{}", ShownPath(word))
}

/// Returns the meaning of a refusal for a command, in words.
fn words_of(refusal: Refusal, verb: Verb) -> &'static str {
    match refusal {
        Refusal::NotOwner => "only its owner and user 0 may do this",
        Refusal::NoEntry => no_entry(verb),
        Refusal::NoMemory => NO_MEMORY,
        Refusal::Access => "the permissions don't allow it",
        Refusal::Exists => exists(verb),
        Refusal::NotDirectory => not_directory(verb),
        Refusal::IsDirectory => is_directory(verb),
        Refusal::Invalid => invalid(verb),
        Refusal::TooBig => too_big(verb),
        Refusal::NoSpace => no_space(verb),
        Refusal::TooManyLinks => too_many_links(verb),
        Refusal::NotEmpty => "there are names in it beside . and ..",
        Refusal::NotRegular => not_regular(verb),
        Refusal::NoInode => no_inode(verb),
        Refusal::BadId => BAD_ID,
    }
}

/// Returns the meaning of NoEntry for a command.
fn no_entry(verb: Verb) -> &'static str {
    match verb {
        Verb::Cat => "there is no i-node of this number, it is free, or the path leads to none",
        Verb::Inode => "there is no i-node of this number, or the path leads to none",
        Verb::Dump => "there is no block or i-node of this number, or the path leads to none",
        Verb::Put | Verb::Sync | Verb::Mkdir | Verb::Mknod => {
            "a directory on the way to it isn't there"
        }
        Verb::Import | Verb::Build => {
            "a directory on the way to it, or the file that it is a link to, isn't there"
        }
        Verb::Rm =>
            "no file or directory has this name; or, with -r, it ends in .., or leads through what is to be removed",
        Verb::Ln | Verb::Mv => {
            "the first path leads to nothing, or the directory for the second name isn't there"
        }
        _ => "no file or directory has this name",
    }
}

/// Returns the meaning of Exists for a command.
fn exists(verb: Verb) -> &'static str {
    match verb {
        Verb::Ln => "the second name is there already",
        Verb::Mv => "the new name is there already, and mv replaces no file",
        Verb::Import | Verb::Build | Verb::Sync => {
            "something has its path already that isn't the directory wanted"
        }
        _ => "a file or directory has this name already",
    }
}

/// Returns the meaning of NotDirectory for a command.
fn not_directory(verb: Verb) -> &'static str {
    match verb {
        Verb::Rmdir | Verb::Export | Verb::Sums | Verb::Find | Verb::Import | Verb::Build => {
            "it, or something on the way to it, is no directory"
        }
        Verb::Ls => {
            "it, or something on the way to it, is no directory; `unixvol ls -l` lists a file too"
        }
        Verb::Ln | Verb::Mv => "something on the way of one of the paths is no directory",
        _ => "something on the way to it is no directory",
    }
}

/// Returns the meaning of IsDirectory for a command.
fn is_directory(verb: Verb) -> &'static str {
    match verb {
        Verb::Get => "it is a directory, whose names `unixvol ls` lists",
        Verb::Rm =>
            "it is a directory: rmdir removes an empty one, and rm -r one with all below it",
        Verb::Ln | Verb::Mv =>
            "the first path leads to a directory, and only files get other names",
        Verb::Import | Verb::Build =>
            "what it is a link to is a directory, and only files get other names",
        _ => "it is a directory",
    }
}

/// Returns the meaning of Invalid for a command.
fn invalid(verb: Verb) -> &'static str {
    match verb {
        Verb::Import => "its path, or that of the file that it is a link to, has a zero byte",
        _ => "the root, and what . or .. names, can't be removed",
    }
}

/// Returns the meaning of TooBig for a command.
fn too_big(verb: Verb) -> &'static str {
    match verb {
        Verb::Put | Verb::Sync | Verb::Import | Verb::Build => {
            "the edition has no file, or no directory, of that size"
        }
        Verb::Boot => "a boot block has 512 bytes, and the program more",
        _ => "the directory for the name has the greatest size of the edition",
    }
}

/// Returns the meaning of NoSpace for a command.
fn no_space(verb: Verb) -> &'static str {
    match verb {
        Verb::Migrate => "the files need more blocks than the new volume has for them",
        Verb::Repair =>
            "a directory or an entry that the repair needs has no free block or i-node; --blocks N makes more blocks, and no more i-nodes",
        _ => "more blocks are needed than are free",
    }
}

/// Returns the meaning of TooManyLinks for a command.
fn too_many_links(verb: Verb) -> &'static str {
    match verb {
        Verb::Ln | Verb::Mv => "the file has as many names as the edition lets it have",
        Verb::Import | Verb::Build => {
            "the file, or the directory above, has as many links as the edition lets it have"
        }
        _ => "the directory above has as many directories as the edition lets it have",
    }
}

/// Returns the meaning of NotRegular for a command.
fn not_regular(verb: Verb) -> &'static str {
    match verb {
        Verb::Cat => "it is a special file, or its mode is none of the edition's",
        _ => "it is a special file, which has no bytes",
    }
}

/// Returns the meaning of NoInode for a command.
fn no_inode(verb: Verb) -> &'static str {
    match verb {
        Verb::Migrate => "the i-list of the new volume has no room for the highest i-number",
        _ => "no i-node is free for it",
    }
}
