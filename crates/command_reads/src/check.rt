//! The command that checks an image against the rules of soundness, also one with lost blocks.
ghost use Rattle.std.specs.Prelude.{◌≡◌, IfOk, string_bytes};
ghost use Rattle.command_reads.specs.Print.{IsSight};
ghost use Rattle.command_reads.specs.Check.{check_sights, checked, known_sights, known_text, verdict_status, IsJsonReport, IsReportIn};

use crate::check_json::report_json;
use crate::print::{Shown, silent};
use crate::statuses::NO_VOLUME;
use command_faults::Fault;
use command_faults::status::{DONE, REFUSED};
use command_terms::OutputForm;
use pdp_words::Image;
use std::alloc::{AllocError, Global};
use vol_findings::{
    RuleOutcomes, RuleReport, are_held, check_rules, lines_of, make_report, report_text,
};
use vol_layout::{Edition, Geometry};
use vol_rescue::known_outcomes;

/// Returns for each rule of soundness that an image keeps it, or its first violation, or that it can't be checked. The status is 0 if all twelve
/// rules hold, else 1, or 6 if the status is graded and rule 1 or 2 is broken. The image may be any bytes. Fails only if memory ran out.
///
/// Takes the time and memory of [`make_report`].
pub(crate) fn check(
    alloc: Global,
    edition: Edition,
    image: &Image,
    graded: bool,
    form: OutputForm,
) -> Result<Shown, Fault>
    ensures { IsSight (checked edition image.now graded form) result }
{
    let report = report_in(alloc, edition, image, form)?;
    let geometry = Geometry::read(edition, image);
    let status = verdict_status(graded, geometry.is_ok(), report.is_sound);
    Ok(silent(report.text.into_bytes(), status))
}

/// Returns what [`check`] shows of an image of which blocks may be lost: if none is, the same; else what [`check_known`] returns.
pub(crate) fn check_in(
    alloc: Global,
    edition: Edition,
    image: &Image,
    lost: &[bool],
    graded: bool,
    form: OutputForm,
) -> Result<Shown, Fault>
    ensures { IsSight (check_sights edition image.now lost.now graded form) result }
{
    if lost.is_empty() {
        return check(alloc, edition, image, graded, form);
    }
    check_known(alloc, edition, image, lost, graded, form)
}

/// Returns what can be said of each rule of soundness for an image with lost blocks, as [`known_outcomes`] says. The status is 1, since rule 1 is broken,
/// or 6 if the status is graded and rule 2 is broken. Fails only if memory ran out.
fn check_known(
    alloc: Global,
    edition: Edition,
    image: &Image,
    lost: &[bool],
    graded: bool,
    form: OutputForm,
) -> Result<Shown, Fault>
    ensures { IsSight (known_sights edition image.now lost.now graded form) result }
{
    let found = check_rules(alloc, edition, image)?;
    let known = known_outcomes(edition, image, lost, &found);
    let text = known_text(alloc, edition, image, form, &known)?;
    let geometry = Geometry::read(edition, image);
    let status = verdict_status(graded, geometry.is_ok(), false);
    Ok(silent(text.into_bytes(), status))
}

/// Returns the report with these outcomes in some form.
fn known_text(
    alloc: Global,
    edition: Edition,
    image: &Image,
    form: OutputForm,
    known: &RuleOutcomes,
) -> Result<String, AllocError>
    ensures { IfOk result (λ text. string_bytes text ≡ known_text form edition image.now known.now) }
{
    match form {
        OutputForm::Text => report_text(alloc, edition, image, known),
        OutputForm::Json => {
            let lines = lines_of(known);
            report_json(alloc, edition, image, &lines)
        }
    }
}

/// Makes the report on an image in some form.
fn report_in(
    alloc: Global,
    edition: Edition,
    image: &Image,
    form: OutputForm,
) -> Result<RuleReport, AllocError>
    ensures { IfOk result (λ report. IsReportIn form edition image.now (string_bytes report.text) report.is_sound) }
{
    match form {
        OutputForm::Text => make_report(alloc, edition, image),
        OutputForm::Json => make_json(alloc, edition, image),
    }
}

/// Makes the report on an image as JSON.
fn make_json(alloc: Global, edition: Edition, image: &Image) -> Result<RuleReport, AllocError>
    ensures { IfOk result (λ report. IsJsonReport edition image.now (string_bytes report.text) report.is_sound) }
{
    let found = check_rules(alloc, edition, image)?;
    let lines = lines_of(&found);
    let text = report_json(alloc, edition, image, &lines)?;
    Ok(RuleReport {
        text,
        is_sound: are_held(&lines),
    })
}

/// Returns the status of a check: 0 if all rules hold, else 1, or 6 if the status is graded and the image has no geometry.
fn verdict_status(graded: bool, is_measured: bool, is_sound: bool) -> u8
    ensures { result ≡ verdict_status graded is_measured is_sound }
{
    if is_sound {
        DONE
    } else if graded && !is_measured {
        NO_VOLUME
    } else {
        REFUSED
    }
}
