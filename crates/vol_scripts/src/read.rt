//! Reads scripts.
ghost use Rattle.std.specs.Prelude.{◌≡◌, ◌≤◌, ◌∷◌, ◌++◌, [], IfOk, OnOk, IfErr};
ghost use Rattle.vol_scripts.specs.Flaws.{has_bad_first};
ghost use Rattle.vol_scripts.specs.Scripts.{ReadsScript, has_bad_start, ReadsScripts, asked_in, script_after, script_in, views_after};

use crate::flaws::{flaw_in, has_lasting};
use crate::lines::{FromLine, LineFault};
use crate::steps::{Script, Sequence};
use command_faults::{LineFlaw, WordForm};
use line_words::Pieces;
use std::alloc::{AllocError, Global};
use vol_views::MOST_VIEWS;

/// The reason why a script couldn't be read.
#[derive(Drop)]
pub enum ScriptFault {
    /// The first line that can't be read.
    Line {
        /// Its number, from 1.
        number: u64,
        /// Its first flaw.
        flaw: Option<LineFlaw>,
    },
    /// An allocation was refused.
    NoMemory,
}

impl From<AllocError> for ScriptFault {
    ghost use Rattle.vol_scripts.specs.declared.read.ScriptFault.TheVariants as faults;

    ghost from_gives = { λ _ fault. fault ≡ faults.NoMemory };

    fn from(_: AllocError) -> ScriptFault {
        ScriptFault::NoMemory
    }
}

/// The line that marks a script as one for a view.
const VIEW_LINE: &[u8] = b"view\n";

/// Reads a script. If its first line is the word `view`, the script is for a view, else for a session. Each line ends with a newline, and an empty
/// script has no lines. A script for a view has only queries.
///
/// Takes memory for the steps, their paths and the bytes of their writes. Costs the length of the script.
pub fn read_script(alloc: Global, script: &[u8]) -> Result<Script, ScriptFault>
    ensures { ReadsScript (script_in script.now) result }
{
    match script.strip_prefix(VIEW_LINE) {
        Some(queries) => Ok(Script::View(read_lines(alloc, queries, WordForm::Query, 2)?)),
        None => Ok(Script::Session(read_lines(alloc, script, WordForm::Command, 1)?)),
    }
}

/// True if the first line of a script that begins with these bytes can't be read, whatever follows them. Takes the memory of the line's flaw, and costs
/// the length of the line.
pub fn has_bad_start(alloc: Global, front: &[u8]) -> Result<bool, AllocError>
    ensures { IfOk result (λ is_bad. is_bad ≡ has_bad_start front.now) }
{
    if front.len() < VIEW_LINE.len() {
        return Ok(false);
    }
    if front.starts_with(VIEW_LINE) {
        return Ok(false);
    }
    has_bad_first(alloc, Pieces::of(b'\n', front))
}

/// True if the first of a session's lines can't be read; the last of them may go on.
fn has_bad_first(alloc: Global, mut lines: Pieces<'_>) -> Result<bool, AllocError>
    ensures { IfOk result (λ is_bad. is_bad ≡ has_bad_first lines.entry) }
{
    let Some(line) = lines.take_next() else {
        return Ok(false);
    };
    let flaw = flaw_in(alloc, WordForm::Command, line)?;
    match lines.take_next() {
        Some(_) => Ok(flaw.is_some()),
        None => Ok(has_lasting(line.len(), &flaw)),
    }
}

/// Reads the steps of lines. The first line has the number `first`, and all commands must have this form.
fn read_lines<A: FromLine>(
    alloc: Global,
    text: &[u8],
    command: WordForm,
    first: u64,
) -> Result<Sequence<A>, ScriptFault>
    requires { first ≤ 2 }
    ensures { ReadsScript (asked_in A.written command first text.now) result }
{
    let mut asked = Vec::new(alloc);
    let mut lines = Pieces::of(b'\n', text);
    'lines: while let Some(line) = lines.take_next() {
        let number = asked.len() as u64 + first;
        if lines.is_empty() {
            // The text after the last newline isn't a line and must be empty.
            return if line.is_empty() {
                Ok(Sequence::from_vec(asked))
            } else {
                Err(ScriptFault::Line {
                    number,
                    flaw: Some(LineFlaw::Unended),
                })
            };
        }
        match A::from_line(alloc, line) {
            Ok(item) => push_item(&mut asked, item)?,
            Err(LineFault::Unreadable) => {
                let flaw = flaw_in(alloc, command, line)?;
                return Err(ScriptFault::Line { number, flaw });
            }
            Err(LineFault::NoMemory) => return Err(ScriptFault::NoMemory),
        }
    }
    Ok(Sequence::from_vec(asked))
}

/// Appends the step of a line.
fn push_item<T: Drop>(items: &mut Vec<T>, item: T) -> Result<(), ScriptFault>
    ensures pushed { OnOk result (items.new.items ≡ items.old.items ++ item ∷ []) }
    ensures fault { IfErr result (λ fault. fault ≡ ScriptFault.NoMemory) }
{
    items.push(item).map_err(|_| ScriptFault::NoMemory)
}

/// The reason why several scripts couldn't be read.
#[derive(Drop)]
pub enum ScriptsFault {
    /// The first line that can't be read.
    Line {
        /// The script's number, from 1.
        script: u64,
        /// The line's number in the script, from 1.
        line: u64,
        /// The line's first flaw.
        flaw: Option<LineFlaw>,
    },
    /// An allocation was refused.
    NoMemory,
}

/// Reads several scripts as [`read_script`] does. At most [`MOST_VIEWS`] of them may be for views; the first line of any further one counts as
/// unreadable. Takes the memory of [`read_script`], and memory for a list of the scripts.
pub fn read_scripts(alloc: Global, scripts: &[Vec<u8>]) -> Result<Vec<Script>, ScriptsFault>
    ensures { ReadsScripts scripts.now result }
{
    let mut read = Vec::new(alloc);
    let mut views = 0;
    'scripts: for script in scripts {
        match read_next(alloc, &mut views, script) {
            Ok(script) => push_script(&mut read, script)?,
            Err(ScriptFault::Line { number, flaw }) => {
                let script = read.len() as u64 + 1;
                return Err(ScriptsFault::Line {
                    script,
                    line: number,
                    flaw,
                });
            }
            Err(ScriptFault::NoMemory) => return Err(ScriptsFault::NoMemory),
        }
    }
    Ok(read)
}

/// Reads a script, after `views` scripts for views.
fn read_next(alloc: Global, views: &mut u64, script: &[u8]) -> Result<Script, ScriptFault>
    requires { views.old ≤ MOST_VIEWS }
    ensures read { ReadsScript (script_after views.old script.now) result }
    ensures views { OnOk result (views.new ≡ views_after views.old script.now) }
    ensures most { views.new ≤ MOST_VIEWS }
{
    if script.starts_with(VIEW_LINE) {
        if *views == MOST_VIEWS as u64 {
            return Err(ScriptFault::Line {
                number: 1,
                flaw: Some(LineFlaw::TooManyViews),
            });
        }
        *views += 1;
    }
    read_script(alloc, script)
}

/// Appends a script.
fn push_script(scripts: &mut Vec<Script>, script: Script) -> Result<(), ScriptsFault>
    ensures pushed { OnOk result (scripts.new.items ≡ scripts.old.items ++ script ∷ []) }
    ensures fault { IfErr result (λ fault. fault ≡ ScriptsFault.NoMemory) }
{
    scripts.push(script).map_err(|_| ScriptsFault::NoMemory)
}
