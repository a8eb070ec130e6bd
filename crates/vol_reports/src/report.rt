//! Reports.
ghost use Rattle.std.specs.Prelude.{◌≡◌, IfOk};
ghost use Rattle.vol_reports.specs.Ncheck.{dots};
ghost use Rattle.vol_reports.specs.Reports.{rule_lines, is_faulty, has_faults};

use crate::line::{Line, Total};
use std::alloc::{AllocError, Global};
use std::marker::Model;
use vol_layout::GeometryFault;

/// The report of a checker. Contracts see it as the list of its lines.
#[derive(Drop)]
pub struct Report {
    lines: Vec<Line>,
}

impl Model for Report {
    ghost use Rattle.std.specs.Prelude.{List};
    ghost use Rattle.vol_reports.specs.declared.line.Line.{Line};

    ghost Value = { List Line };

    ghost view = { λ held. held.lines.items };
}

impl Report {
    /// Wraps these lines as a report. Takes no memory.
    pub fn from_vec(lines: Vec<Line>) -> Report
        ensures { result ≡ lines.items }
    {
        Report { lines }
    }

    /// Returns its lines, in order.
    pub fn lines(&self) -> &[Line]
        ensures { result.now ≡ self.now }
    {
        self.lines.as_slice()
    }

    /// Returns the report of an image that has no geometry because of this fault. Takes memory for one line.
    pub fn of_fault(alloc: Global, fault: GeometryFault) -> Result<Report, AllocError>
        ensures { IfOk result (λ report. report ≡ rule_lines fault) }
    {
        let rule = match fault {
            GeometryFault::Short => 1,
            GeometryFault::Bounds => 2,
        };
        let mut lines = Vec::new(alloc);
        lines.push(Line::Rule(rule))?;
        Ok(Report { lines })
    }

    /// True if the report has a fault: in a block report, any line before the totals, or a number of odd i-nodes other than 0; in an entry report,
    /// any line; in a name report, a path that begins with dots.
    pub fn has_faults(&self) -> bool
        ensures { result ≡ has_faults self.now }
    {
        self.lines.iter().any(|line| line.is_faulty())
    }
}

impl Line {
    /// True if the line is a fault.
    pub fn is_faulty(&self) -> bool
        ensures { result ≡ is_faulty self.now }
    {
        match self {
            Line::Total(Total::Odd, count) => *count != 0,
            Line::Total(..) => false,
            Line::Name { path, .. } => path.as_slice().starts_with(b"..."),
            _ => true,
        }
    }
}
