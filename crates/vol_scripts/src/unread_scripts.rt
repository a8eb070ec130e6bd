//! The result of a play whose scripts can't be read.
ghost use Rattle.std.specs.Prelude.{◌≡◌, IfOk};
ghost use Rattle.std.specs.String.{string_bytes};
ghost use Rattle.command_faults.specs.Faults.{line_after};
ghost use Rattle.vol_scripts.specs.Refuse.{AnswersFault, unread_text};

use crate::read::ScriptsFault;
use command_faults::answer::report;
use command_faults::{Answer, Fault};
use std::alloc::{AllocError, Global};
use vol_dir::Refusal;

/// Returns the result of a play whose scripts couldn't be read. There is nothing to save; the fault is the first unreadable line, with status 2, or
/// out of memory, with status 4.
pub fn refuse(alloc: Global, fault: ScriptsFault) -> Answer
    ensures { AnswersFault fault (line_after result.fault) result }
{
    match fault {
        ScriptsFault::Line { script, line, flaw } => match unread_text(alloc, script, line) {
            Ok(text) => report(Err(Fault::BadLine {
                script,
                number: line,
                line: text.into_bytes(),
                flaw,
            })),
            Err(_) => report(Err(Fault::Refused(Refusal::NoMemory))),
        },
        ScriptsFault::NoMemory => report(Err(Fault::Refused(Refusal::NoMemory))),
    }
}

/// Returns the message for an unreadable line of a script.
fn unread_text(alloc: Global, script: u64, line: u64) -> Result<String, AllocError>
    ensures { IfOk result (λ text. string_bytes text ≡ unread_text script line) }
{
    format!(in alloc; "unixvol: script {script} line {line}\n")
}
