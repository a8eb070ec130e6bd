//! The first violation of each rule of soundness.
#![tactic(auto)]

mod blocks;
mod outcome;
mod report;
mod texts;

pub use outcome::{RuleOutcome, RuleOutcomes, check_rules};
pub use report::{
    RuleLine, RuleReport, are_held, edition_number, lines_of, make_report, other_edition,
    report_text,
};
pub use texts::{Spot, spot_of, words_of};
pub use vol_judge::{Finding, Rule};
