//! The end of a play, when its volume is no longer shared: the report, the status, and the bytes to save.
ghost use Rattle.std.specs.Prelude.{◌≡◌, ◌++◌, IfOk, IfErr, None, OnOk, Some, count_by, length, nat_lt};
ghost use Rattle.std.specs.String.{string_bytes};
ghost use Rattle.command_faults.specs.Faults.{fault_status, line_after};
ghost use Rattle.vol_scripts.specs.Endings.{AreConfirmed, Finishes, PrintsPlay, Reports, all_receipts, form_text, gone_of, play_json, play_text, receipts_in, script_status, scripts_status, scripts_text, step_status};

use crate::form::ReportForm;
use crate::journal::push_journal;
use crate::played::Played;
use crate::report::{Totals, push_lines, push_totals};
use crate::report_json::{line_values, report_line};
use command_faults::status::{DONE, NO_MEMORY, REFUSED};
use command_faults::{Answer, Ending, Fault};
use pdp_words::{Sink, write_all};
use std::alloc::{AllocError, Global};
use vol_receipts::{Confirmed, Outcome, Receipt, confirm_all};
use vol_volume::Volume;

/// Ends a play, and prints its report: the result of each step of each script, in order, then the number of records in the journal and the number of
/// receipts that agree with it; if a script cuts the journal, also the number of receipts whose records were cut; and the calls of the journal, if it is
/// wanted. As lines, a step and a number have one each, a call has one in the format of a script, and the bytes of the form follow; as JSON, all is one
/// object on one line. The volume's bytes are to be saved in any case.
///
/// The status is 3 if `output` failed; else 4 if a step, this report or confirming the receipts ran out of memory (no receipt then counts as
/// confirmed), or if a view couldn't read the published version; else 1 if a step was refused; else 0. If memory for the report runs out, none of it
/// is printed. The fault reports the failed output, or out of memory for the report.
///
/// Takes memory for the report, a list of the receipts, and confirming them.
pub fn finish<O: Sink>(
    alloc: Global,
    volume: Volume,
    cuts: bool,
    journal: bool,
    form: ReportForm,
    scripts: Vec<Vec<Played>>,
    output: &mut O,
) -> Answer
    ensures { Finishes volume cuts scripts.items
        (PrintsPlay volume scripts.items (form_text volume cuts journal form scripts.items) (O.contents output.old) (O.contents output.new) (O.failed output.old) (O.failed output.new))
        (line_after result.fault) result }
{
    let printed = print_report(alloc, &volume, cuts, journal, form, scripts, output);
    let Ending { status, fault } = ending_of(printed);
    Answer {
        status,
        image: Some(volume.unmount()),
        trace: None,
        fault,
    }
}

/// Returns the result of a play. `printed` is the status if its report was printed, or the fault.
fn ending_of(printed: Result<u8, Fault>) -> Ending
    ensures printed { IfOk printed (λ status. (result.status ≡ status) × (result.fault ≡ None)) }
    ensures fault { IfErr printed (λ fault. (result.status ≡ fault_status fault) × (result.fault ≡ Some fault)) }
{
    match printed {
        Ok(status) => Ending {
            status,
            fault: None,
        },
        Err(fault) => Ending::from(fault),
    }
}

/// Prints the report of a play, and returns its status.
fn print_report<O: Sink>(
    alloc: Global,
    volume: &Volume,
    cuts: bool,
    journal: bool,
    form: ReportForm,
    scripts: Vec<Vec<Played>>,
    output: &mut O,
) -> Result<u8, Fault>
    ensures { PrintsPlay volume.now scripts.items (form_text volume.now cuts journal form scripts.items) (O.contents output.old) (O.contents output.new)
        (O.failed output.old) (O.failed output.new) result }
{
    let worst = scripts_status(&scripts);
    let (text, confirmed) = report_of(alloc, volume, cuts, journal, form, scripts)?;
    let status = match confirmed {
        Some(_) => worst,
        None => NO_MEMORY,
    };
    match write_all(output, &text) {
        Ok(()) => Ok(status),
        Err(_) => Err(Fault::Output),
    }
}

/// Returns the report of a play in a form, with the counts of confirmed receipts, or `None` instead of the counts if memory for confirming ran out.
fn report_of(
    alloc: Global,
    volume: &Volume,
    cuts: bool,
    journal: bool,
    form: ReportForm,
    scripts: Vec<Vec<Played>>,
) -> Result<(Vec<u8>, Option<Confirmed>), AllocError>
    ensures { IfOk result (λ made. Reports volume.now scripts.items (form_text volume.now cuts journal form scripts.items)
        (λ text confirmed. (confirmed ≡ made.1) × (made.0.items ≡ text))) }
{
    match form {
        ReportForm::Lines(more) => text_of(alloc, volume, cuts, journal, &more, scripts),
        ReportForm::Json => json_of(alloc, volume, cuts, journal, scripts),
    }
}

/// Returns the report of a play as lines, with `more` after them.
fn text_of(
    alloc: Global,
    volume: &Volume,
    cuts: bool,
    journal: bool,
    more: &[u8],
    scripts: Vec<Vec<Played>>,
) -> Result<(Vec<u8>, Option<Confirmed>), AllocError>
    ensures { IfOk result (λ made. Reports volume.now scripts.items (play_text volume.now cuts journal more.now scripts.items)
        (λ text confirmed. (confirmed ≡ made.1) × (made.0.items ≡ text))) }
{
    let mut text = lines_of(alloc, &scripts)?;
    let totals = totals_of(alloc, volume, cuts, scripts)?;
    push_totals(&mut text, totals)?;
    let mut text = text.into_bytes();
    push_journal(alloc, &mut text, journal, volume.journal())?;
    text.extend_from_slice(more)?;
    Ok((text, totals.confirmed))
}

/// Returns the report of a play as JSON.
fn json_of(
    alloc: Global,
    volume: &Volume,
    cuts: bool,
    journal: bool,
    scripts: Vec<Vec<Played>>,
) -> Result<(Vec<u8>, Option<Confirmed>), AllocError>
    ensures { IfOk result (λ made. Reports volume.now scripts.items (play_json volume.now cuts journal scripts.items)
        (λ text confirmed. (confirmed ≡ made.1) × (made.0.items ≡ text))) }
{
    let lines = line_values(alloc, &scripts)?;
    let totals = totals_of(alloc, volume, cuts, scripts)?;
    let text = report_line(alloc, lines, totals, journal, volume.journal())?;
    Ok((text.into_bytes(), totals.confirmed))
}

/// Returns the numbers at the end of a report.
fn totals_of(
    alloc: Global,
    volume: &Volume,
    cuts: bool,
    scripts: Vec<Vec<Played>>,
) -> Result<Totals, AllocError>
    ensures confirmed { IfOk result (λ totals. AreConfirmed volume.now (all_receipts scripts.items) totals.confirmed totals.agree) }
    ensures records { IfOk result (λ totals. totals.records ≡ length volume.now.journal) }
    ensures gone { IfOk result (λ totals. totals.gone ≡ gone_of volume.now cuts (all_receipts scripts.items)) }
{
    let receipts = receipts_of(alloc, scripts)?;
    let gone = cuts.then_some(gone_among(volume.first(), &receipts));
    let (confirmed, agree) = confirm(alloc, volume, &receipts);
    Ok(Totals {
        records: volume.journal().len() as u64,
        agree,
        gone,
        confirmed,
    })
}

/// Confirms the receipts. Returns the counts, or `None` if memory runs out, and the number of receipts that agree with the journal, which is 0 if
/// memory runs out.
fn confirm(alloc: Global, volume: &Volume, receipts: &[Receipt]) -> (Option<Confirmed>, u64)
    ensures { AreConfirmed volume.now receipts.now result.0 result.1 }
{
    match confirm_all(volume, alloc, receipts) {
        Ok(confirmed) => (Some(confirmed), confirmed.agree),
        Err(_) => (None, 0),
    }
}

/// Returns the lines of all scripts.
fn lines_of(alloc: Global, scripts: &[Vec<Played>]) -> Result<String, AllocError>
    ensures { IfOk result (λ text. string_bytes text ≡ scripts_text 1 scripts.now) }
{
    let mut text = String::new(alloc);
    let mut number = 1;
    'scripts: for played in scripts {
        push_lines(alloc, &mut text, number, played)?;
        number += 1;
    }
    Ok(text)
}

/// Returns the receipts of all scripts, script by script.
fn receipts_of(alloc: Global, scripts: Vec<Vec<Played>>) -> Result<Vec<Receipt>, AllocError>
    ensures { IfOk result (λ receipts. receipts.items ≡ all_receipts scripts.items) }
{
    let mut receipts = Vec::new(alloc);
    'scripts: for played in scripts {
        push_receipts(&mut receipts, played)?;
    }
    Ok(receipts)
}

/// Appends the receipts of a script.
fn push_receipts(receipts: &mut Vec<Receipt>, played: Vec<Played>) -> Result<(), AllocError>
    ensures { OnOk result (receipts.new.items ≡ receipts.old.items ++ receipts_in played.items) }
{
    'steps: for came in played {
        if let Played::Told(receipt) = came {
            receipts.push(receipt)?;
        }
    }
    Ok(())
}

/// Counts the receipts whose records were cut: their numbers are below `first`, the number of the journal's first record.
fn gone_among(first: u64, receipts: &[Receipt]) -> u64
    ensures { result ≡ count_by (λ receipt. nat_lt receipt.at first) receipts.now }
{
    receipts.iter().filter(|receipt| receipt.at < first).count() as u64
}

/// Returns the status for the results of all steps.
fn scripts_status(scripts: &[Vec<Played>]) -> u8
    ensures { result ≡ scripts_status scripts.now }
{
    let mut worst = DONE;
    'scripts: for played in scripts {
        worst = worst.max(script_status(played));
    }
    worst
}

/// Returns the status for the results of a script's steps.
fn script_status(played: &[Played]) -> u8
    ensures { result ≡ script_status played.now }
{
    let mut worst = DONE;
    'steps: for came in played {
        worst = worst.max(step_status(came));
    }
    worst
}

/// Returns the status for the result of a step.
fn step_status(played: &Played) -> u8
    ensures { result ≡ step_status played.now }
{
    match played {
        Played::NoMemory | Played::NotEntered => NO_MEMORY,
        Played::Told(receipt) => match receipt.outcome {
            Outcome::Refused(_) => REFUSED,
            Outcome::Accepted(_) | Outcome::Answered(_) => DONE,
        },
        Played::Cut(_) | Played::View => DONE,
    }
}
