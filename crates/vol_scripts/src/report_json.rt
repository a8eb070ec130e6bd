//! The report of `play` as JSON.
ghost use Rattle.std.specs.Prelude.{◌≡◌, ◌∷◌, ◌++◌, [], codes, false, IfOk, map, OnOk};
ghost use Rattle.std.specs.String.{string_bytes};
ghost use Rattle.serde_json.specs.View.{items_of, view};
ghost use Rattle.serde_json.specs.Written.{items_have_float};
ghost use Rattle.vol_scripts.specs.ReportJson.{cut_data, done_data, journal_data, kind_word, lines_data, names_data, outcome_data, read_data, record_data, refused_data, reply_data, report_data, report_line, scripts_data, stat_data, step_data};

use crate::journal::push_words;
use crate::played::Played;
use crate::report::Totals;
use serde_json::{Value, json};
use std::alloc::{AllocError, Global};
use vol_dir::Refusal;
use vol_layout::Kind;
use vol_listing::json::{FORMAT, escaped_text, octal};
use vol_receipts::Outcome;
use vol_volume::{Done, Record, Reply, Stat};

/// Returns the objects of the lines of all scripts. Takes memory for these, and for the result of one line at a time.
pub(crate) fn line_values(alloc: Global, scripts: &[Vec<Played>]) -> Result<Vec<Value>, AllocError>
    ensures { IfOk result (λ values. map view values.items ≡ scripts_data 1 scripts.now) }
{
    let mut values = Vec::new(alloc);
    let mut number = 1;
    'scripts: for played in scripts {
        push_lines(alloc, &mut values, number, played)?;
        number += 1;
    }
    Ok(values)
}

/// Appends the objects of a script's lines. `script` is the script's number, from 1.
fn push_lines(
    alloc: Global,
    values: &mut Vec<Value>,
    script: u64,
    played: &[Played],
) -> Result<(), AllocError>
    ensures { OnOk result (map view values.new.items ≡ map view values.old.items ++ lines_data script 1 played.now) }
{
    let mut line = 1;
    'steps: for came in played {
        push_line(alloc, values, script, line, came)?;
        line += 1;
    }
    Ok(())
}

/// Appends the object of a line. The line that marks a script as one for a view has no object.
fn push_line(
    alloc: Global,
    values: &mut Vec<Value>,
    script: u64,
    line: u64,
    played: &Played,
) -> Result<(), AllocError>
    ensures { OnOk result (map view values.new.items ≡ map view values.old.items ++ step_data script line played.now) }
{
    match played {
        Played::Told(receipt) => {
            let value = outcome_value(alloc, script, line, &receipt.outcome)?;
            push_value(values, value)
        }
        Played::Cut(first) => push_value(values, cut_value(alloc, script, line, *first)?),
        Played::NoMemory => {
            let value = refused_value(alloc, script, line, Refusal::NoMemory.text())?;
            push_value(values, value)
        }
        Played::NotEntered => {
            let value = unentered_value(alloc, script, line)?;
            push_value(values, value)
        }
        Played::View => Ok(()),
    }
}

/// Appends an object.
fn push_value(values: &mut Vec<Value>, value: Value) -> Result<(), AllocError>
    ensures { OnOk result (map view values.new.items ≡ map view values.old.items ++ view value ∷ []) }
{
    Ok(values.push(value)?)
}

/// Returns the object of a call's or query's outcome.
fn outcome_value(
    alloc: Global,
    script: u64,
    line: u64,
    outcome: &Outcome,
) -> Result<Value, AllocError>
    ensures { IfOk result (λ value. view value ≡ outcome_data script line outcome.now) }
{
    match outcome {
        Outcome::Accepted(done) => done_value(alloc, script, line, *done),
        Outcome::Refused(refusal) => refused_value(alloc, script, line, refusal.text()),
        Outcome::Answered(reply) => reply_value(alloc, script, line, reply),
    }
}

/// Returns the object of an accepted call.
fn done_value(alloc: Global, script: u64, line: u64, done: Done) -> Result<Value, AllocError>
    ensures { IfOk result (λ value. view value ≡ done_data script line done) }
{
    match done {
        Done::Made(number) => {
            json!(in alloc; {"ino": number, "line": "ok", "line_number": line, "script": script})
        }
        Done::Wrote(bytes) => {
            json!(in alloc; {"count": bytes, "line": "ok", "line_number": line, "script": script})
        }
        Done::Plain => json!(in alloc; {"line": "ok", "line_number": line, "script": script}),
    }
}

/// Returns the object of a line that was refused, with the text of the refusal.
fn refused_value(alloc: Global, script: u64, line: u64, refusal: &str) -> Result<Value, AllocError>
    ensures { IfOk result (λ value. view value ≡ refused_data script line refusal.now) }
{
    json!(in alloc; {
        "line": "refused",
        "line_number": line,
        "refusal": refusal,
        "script": script
    })
}

/// Returns the object of a line of a view that couldn't read the published version.
fn unentered_value(alloc: Global, script: u64, line: u64) -> Result<Value, AllocError>
    ensures { IfOk result (λ value. view value ≡ refused_data script line (codes "NotEntered")) }
{
    refused_value(alloc, script, line, "NotEntered")
}

/// Returns the object of a cut, with the number of the journal's next record.
fn cut_value(alloc: Global, script: u64, line: u64, first: u64) -> Result<Value, AllocError>
    ensures { IfOk result (λ value. view value ≡ cut_data script line first) }
{
    json!(in alloc; {
        "line": "cut",
        "line_number": line,
        "record": first,
        "script": script
    })
}

/// Returns the object of a query's reply.
fn reply_value(alloc: Global, script: u64, line: u64, reply: &Reply) -> Result<Value, AllocError>
    ensures { IfOk result (λ value. view value ≡ reply_data script line reply.now) }
{
    match reply {
        Reply::Stat(stat) => stat_value(alloc, script, line, stat),
        Reply::Bytes(bytes) => read_value(alloc, script, line, bytes.as_slice()),
        Reply::Names(names) => names_value(alloc, script, line, names.as_slice().len()),
    }
}

/// Returns the object of a node's attributes.
fn stat_value(alloc: Global, script: u64, line: u64, stat: &Stat) -> Result<Value, AllocError>
    ensures { IfOk result (λ value. view value ≡ stat_data script line stat.now) }
{
    let permissions = octal(alloc, stat.permissions)?;
    json!(in alloc; {
        "gid": stat.gid,
        "ino": stat.number,
        "kind": kind_word(stat.kind),
        "line": "stat",
        "line_number": line,
        "links": stat.links,
        "permissions": permissions,
        "script": script,
        "size": stat.size,
        "uid": stat.uid
    })
}

/// Returns the object of bytes that were read.
fn read_value(alloc: Global, script: u64, line: u64, bytes: &[u8]) -> Result<Value, AllocError>
    ensures { IfOk result (λ value. view value ≡ read_data script line bytes.now) }
{
    let digits = hex::encode(alloc, bytes)?;
    json!(in alloc; {"hex": digits, "line": "read", "line_number": line, "script": script})
}

/// Returns the object of a directory with this number of names.
fn names_value(alloc: Global, script: u64, line: u64, names: usize) -> Result<Value, AllocError>
    ensures { IfOk result (λ value. view value ≡ names_data script line names) }
{
    json!(in alloc; {"count": names, "line": "list", "line_number": line, "script": script})
}

/// Returns the word for a kind of node.
fn kind_word(kind: Kind) -> &'static str
    ensures { result.now ≡ kind_word kind }
{
    match kind {
        Kind::Regular => "file",
        Kind::Directory => "directory",
        Kind::Free | Kind::Special | Kind::Odd => "special",
    }
}

/// Returns the calls of a journal, each as the line of a script without its newline, if they are wanted, else null.
fn journal_value(alloc: Global, wanted: bool, records: &[Record]) -> Result<Value, AllocError>
    ensures { IfOk result (λ value. view value ≡ journal_data wanted records.now) }
{
    if wanted {
        let calls = record_values(alloc, records)?;
        Ok(Value::Array(calls))
    } else {
        Ok(Value::Null)
    }
}

/// Returns the calls of some records.
fn record_values(alloc: Global, records: &[Record]) -> Result<Vec<Value>, AllocError>
    ensures { IfOk result (λ values. map view values.items ≡ map record_data records.now) }
{
    let mut values = Vec::new(alloc);
    'records: for entry in records {
        values.push(record_value(alloc, entry)?)?;
    }
    Ok(values)
}

/// Returns the call of a record.
fn record_value(alloc: Global, entry: &Record) -> Result<Value, AllocError>
    ensures { IfOk result (λ value. view value ≡ record_data entry.now) }
{
    let mut words = Vec::new(alloc);
    push_words(alloc, &mut words, &entry.call)?;
    let text = escaped_text(alloc, &words)?;
    Ok(Value::String(text))
}

/// Returns a report with these lines as one JSON object, on one line. Takes memory for the journal, if it is wanted.
pub(crate) fn report_line(
    alloc: Global,
    lines: Vec<Value>,
    totals: Totals,
    journal: bool,
    records: &[Record],
) -> Result<String, AllocError>
    requires { items_have_float (items_of (map view lines.items)) ≡ false }
    ensures { IfOk result (λ text. string_bytes text ≡ report_line (map view lines.items) totals.records totals.agree totals.gone (journal_data journal records.now)) }
{
    let value = report_value(alloc, lines, totals, journal, records)?;
    vol_listing::json::line(alloc, &value)
}

/// Returns a report with these lines as a JSON object.
#[tactic(auto, unfolding(crate::specs::ReportJson::report_data))]
fn report_value(
    alloc: Global,
    lines: Vec<Value>,
    totals: Totals,
    journal: bool,
    records: &[Record],
) -> Result<Value, AllocError>
    ensures { IfOk result (λ value. view value ≡ report_data (map view lines.items) totals.records totals.agree totals.gone (journal_data journal records.now)) }
{
    let calls = journal_value(alloc, journal, records)?;
    let lines = Value::Array(lines);
    json!(in alloc; {
        "confirmed": totals.agree,
        "format": FORMAT,
        "gone": totals.gone,
        "journal": calls,
        "lines": lines,
        "records": totals.records
    })
}
