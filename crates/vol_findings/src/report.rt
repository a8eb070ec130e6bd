//! The report on an image: a line for each rule of soundness.
ghost use Rattle.std.specs.Prelude.{◌≡◌, ◌++◌, Some, IfOk, OnOk, string_bytes};
ghost use Rattle.vol_layout.specs.Edition.{constants};
ghost use Rattle.vol_findings.specs.Reports.{line_text, lines_of, report_text, note_text, other_edition, edition_number, are_held, lines_text, IsReport};

use crate::outcome::{RuleOutcome, RuleOutcomes, check_rules};
use pdp_words::Image;
use std::alloc::{AllocError, Global};
use std::fmt;
use vol_judge::Rule;
use vol_layout::{Edition, Geometry};

/// A rule and its outcome.
#[derive(Clone, Copy, Drop)]
pub struct RuleLine {
    /// The rule.
    pub rule: Rule,
    /// The outcome of the rule.
    pub outcome: RuleOutcome,
}

/// A report on an image.
#[derive(Drop)]
pub struct RuleReport {
    /// The lines of the report.
    pub text: String,
    /// True if all twelve rules hold.
    pub is_sound: bool,
}

impl fmt::Display for RuleLine {
    ghost output = { λ line. Some (line_text line) };

    fn fmt<W: fmt::Write>(&self, f: &mut fmt::Formatter<W>) -> fmt::Result {
        let number = self.rule.number();
        let sentence = self.rule.sentence();
        let outcome = self.outcome;
        write!(f, "{number} {sentence}: {outcome}\n")
    }
}

/// Makes the report on an image, which may have any bytes: a line for each of the twelve rules, with its first violation; and, if rule 1 or 2 fails,
/// a note if both hold for the other edition. The first line whose outcome isn't `holds` has the number that [`judge`](vol_judge::judge) returns.
///
/// Takes as much time and memory as [`check_rules`], plus the text.
pub fn make_report(alloc: Global, edition: Edition, image: &Image) -> Result<RuleReport, AllocError>
    ensures { IfOk result (λ report. IsReport edition image.now (string_bytes report.text) report.is_sound) }
{
    let found = check_rules(alloc, edition, image)?;
    let text = report_text(alloc, edition, image, &found)?;
    Ok(RuleReport {
        text,
        is_sound: are_held(&lines_of(&found)),
    })
}

/// Returns the text of the report with these outcomes.
pub fn report_text(
    alloc: Global,
    edition: Edition,
    image: &Image,
    found: &RuleOutcomes,
) -> Result<String, AllocError>
    ensures { IfOk result (λ text. string_bytes text ≡ report_text edition image.now found.now) }
{
    let lines = lines_of(found);
    let mut text = String::new(alloc);
    push_lines(&mut text, &lines)?;
    push_note(&mut text, edition, image)?;
    Ok(text)
}

/// Returns the rules in order, each with its outcome.
pub fn lines_of(found: &RuleOutcomes) -> [RuleLine; 12]
    ensures { result ≡ lines_of found.now }
{
    [
        line_of(Rule::Whole, found.whole),
        line_of(Rule::Bounded, found.bounded),
        line_of(Rule::Kinds, found.kinds),
        line_of(Rule::Sizes, found.sizes),
        line_of(Rule::Zoned, found.zoned),
        line_of(Rule::Listed, found.listed),
        line_of(Rule::Apart, found.apart),
        line_of(Rule::Covered, found.covered),
        line_of(Rule::Entries, found.entries),
        line_of(Rule::Dots, found.dots),
        line_of(Rule::Tree, found.tree),
        line_of(Rule::Links, found.links),
    ]
}

/// Returns a rule with its outcome.
fn line_of(rule: Rule, outcome: RuleOutcome) -> RuleLine
    ensures { result ≡ record { rule = rule; outcome = outcome } }
{
    RuleLine { rule, outcome }
}

/// True if all these rules hold.
pub fn are_held(lines: &[RuleLine]) -> bool
    ensures { result ≡ are_held lines.now }
{
    lines
        .iter()
        .all(|line| matches!(line.outcome, RuleOutcome::Holds))
}

/// Appends these lines.
fn push_lines(text: &mut String, lines: &[RuleLine]) -> Result<(), AllocError>
    ensures { OnOk result (string_bytes text.new ≡ string_bytes text.old ++ lines_text lines.now) }
{
    for line in lines {
        write!(text, "{line}")?;
    }
    Ok(())
}

/// Appends a note if rule 1 or 2 fails and both hold for the other edition.
fn push_note(text: &mut String, edition: Edition, image: &Image) -> Result<(), AllocError>
    ensures { OnOk result (string_bytes text.new ≡ string_bytes text.old ++ note_text edition image.now) }
{
    let other = other_edition(edition);
    if Geometry::read(edition, image).is_err() && Geometry::read(other, image).is_ok() {
        let number = edition_number(other);
        write!(text, "note: rules 1 and 2 hold for edition {number}\n")?;
    }
    Ok(())
}

/// Returns the other edition.
pub fn other_edition(edition: Edition) -> Edition
    ensures { result ≡ other_edition edition }
{
    match edition {
        Edition::V6 => Edition::V7,
        Edition::V7 => Edition::V6,
    }
}

/// Returns the number of an edition.
pub fn edition_number(edition: Edition) -> u8
    ensures { result ≡ edition_number edition }
{
    match edition {
        Edition::V6 => 6,
        Edition::V7 => 7,
    }
}
