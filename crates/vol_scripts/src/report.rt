//! The report of `play`.
ghost use Rattle.std.specs.Prelude.{◌≡◌, ◌++◌, IfOk, OnOk};
ghost use Rattle.std.specs.String.{string_bytes};
ghost use Rattle.vol_scripts.specs.Report.{line_text, lines_text, step_line_text, outcome_text, totals_text};

use crate::played::Played;
use crate::texts::{done_text, reply_text};
use std::alloc::{AllocError, Global};
use std::fmt::Write;
use vol_dir::Refusal;
use vol_receipts::{Confirmed, Outcome};

/// The numbers at the end of a report.
#[derive(Clone, Copy)]
pub(crate) struct Totals {
    /// The number of records in the journal.
    pub(crate) records: u64,
    /// The number of receipts that agree with the journal; 0 if memory for confirming them ran out.
    pub(crate) agree: u64,
    /// The number of receipts whose records were cut, if a script cuts the journal.
    pub(crate) gone: Option<u64>,
    /// The counts of confirmed receipts, or `None` if memory for confirming them ran out.
    pub(crate) confirmed: Option<Confirmed>,
}

/// Returns the text of a call's or query's outcome.
fn outcome_text(alloc: Global, outcome: &Outcome) -> Result<String, AllocError>
    ensures { IfOk result (λ text. string_bytes text ≡ outcome_text outcome.now) }
{
    match outcome {
        Outcome::Accepted(done) => done_text(alloc, *done),
        Outcome::Refused(refusal) => String::from_str(alloc, refusal.text()),
        Outcome::Answered(reply) => reply_text(alloc, reply),
    }
}

/// Appends the lines of a script's steps. `script` is the script's number, from 1. Takes memory for the text, and for the result of one step at a
/// time.
pub(crate) fn push_lines(
    alloc: Global,
    text: &mut String,
    script: u64,
    played: &[Played],
) -> Result<(), AllocError>
    ensures { OnOk result (string_bytes text.new ≡ string_bytes text.old ++ lines_text script 1 played.now) }
{
    let mut line = 1;
    'steps: for came in played {
        push_line(alloc, text, script, line, came)?;
        line += 1;
    }
    Ok(())
}

/// Appends the line of a step. The step that marks a script as one for a view has no line.
fn push_line(
    alloc: Global,
    text: &mut String,
    script: u64,
    line: u64,
    played: &Played,
) -> Result<(), AllocError>
    ensures { OnOk result (string_bytes text.new ≡ string_bytes text.old ++ step_line_text script line played.now) }
{
    match played {
        Played::Told(receipt) => {
            let came = outcome_text(alloc, &receipt.outcome)?;
            push_came(text, script, line, came.as_str())
        }
        Played::Cut(first) => {
            let came = format!(in alloc; "cut {first}")?;
            push_came(text, script, line, came.as_str())
        }
        Played::NoMemory => push_came(text, script, line, Refusal::NoMemory.text()),
        Played::NotEntered => push_came(text, script, line, "NotEntered"),
        Played::View => Ok(()),
    }
}

/// Appends a line with the numbers of a script and of its line, and the result.
fn push_came(text: &mut String, script: u64, line: u64, came: &str) -> Result<(), AllocError>
    ensures { OnOk result (string_bytes text.new ≡ string_bytes text.old ++ line_text script line came.now) }
{
    writeln!(text, "{script}.{line} {came}").map_err(|_| AllocError)
}

/// Appends the last lines: the number of records in the journal, the number of confirmed receipts, and, if a
/// script cuts the journal, the number of receipts whose records were cut.
pub(crate) fn push_totals(text: &mut String, totals: Totals) -> Result<(), AllocError>
    ensures { OnOk result (string_bytes text.new ≡ string_bytes text.old ++ totals_text totals.records totals.agree totals.gone) }
{
    let Totals {
        records,
        agree: confirmed,
        gone,
        ..
    } = totals;
    write!(text, "records {records}\nconfirmed {confirmed}\n").map_err(|_| AllocError)?;
    match gone {
        Some(gone) => writeln!(text, "gone {gone}").map_err(|_| AllocError),
        None => Ok(()),
    }
}
