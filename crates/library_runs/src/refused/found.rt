//! The broken promises that a run found.

use pdp_words::{Sink, write_all};

/// The number of broken promises.
#[derive(Clone, Copy)]
pub(crate) struct Found {
    pub(crate) broken: u8,
}

impl Found {
    /// Counts a promise as broken unless `kept` is true.
    pub(crate) fn wants(&mut self, kept: bool) {
        if !kept {
            self.broken = self.broken.saturating_add(1);
        }
    }

    /// Prints the number, without taking memory. Returns `None` if it can't be printed.
    pub(crate) fn print<O: Sink>(self, output: &mut O) -> Option<()> {
        let digits = [
            b'0' + self.broken / 100,
            b'0' + self.broken / 10 % 10,
            b'0' + self.broken % 10,
        ];
        write_all(output, &digits).ok()?;
        write_all(output, b" promises broken\n").ok()
    }
}
