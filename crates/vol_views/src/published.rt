//! The published version, and the operations that advance it.
ghost use Rattle.std.specs.Prelude.{◌≡◌, ◌++◌};
ghost use Rattle.vol_views.specs.Absorb.{entries_of};

use crate::seen_prefix::SeenPrefix;
use crate::version::Version;
use left_right::Absorb;
use std::alloc::AllocError;
use vol_volume::Record;

/// A version for readers, with the number of the next record and the log prefix that the version reflects.
#[derive(Drop)]
pub struct Published {
    /// The version.
    pub version: Version,
    /// The number of records that the version reflects, including records that were cut.
    pub at: u64,
    /// The log prefix that it reflects.
    pub prefix: SeenPrefix,
}

/// An operation on the published version: a record to apply, if any, and the number and the log prefix of the resulting version.
#[derive(Drop)]
pub struct Operation {
    /// The record of an accepted call.
    pub made: Option<Record>,
    /// The number of records that the result reflects, including records that were cut.
    pub at: u64,
    /// The log prefix that the result reflects.
    pub prefix: SeenPrefix,
}

impl Absorb<Operation> for Published {
    ghost use Rattle.vol_views.specs.Absorb.{absorbed};

    type State = Published;

    ghost state = { λ p. p };

    ghost applied = { absorbed };

    ghost never_fails = { Unit {0} };

    fn absorb_first(&mut self, operation: &Operation, other: &Published) -> Result<(), AllocError> {
        let _ = other;
        apply(&mut self.version, &operation.made);
        self.at = operation.at;
        self.prefix = operation.prefix.again();
        Ok(())
    }
}

/// Applies a record to a version, if there is one.
fn apply(version: &mut Version, made: &Option<Record>)
    ensures { version.new ≡ version.old ++ entries_of made.now }
{
    if let Some(entry) = made {
        version.apply(entry);
    }
}
