//! The reasons why no part of an image can be shown.
use std::alloc::AllocError;
use vol_layout::GeometryFault;

/// The reason why no part of an image can be shown.
#[derive(Clone, Copy)]
pub enum InspectFault {
    /// The image breaks rule 1 or rule 2.
    Unsound(GeometryFault),
    /// The i-number is 0 or past the last.
    NoEntry,
    /// Memory ran out.
    NoMemory,
}

impl From<AllocError> for InspectFault {
    ghost use Rattle.std.specs.Prelude.{◌≡◌};
    ghost use Rattle.vol_inspect.specs.declared.fault.InspectFault.TheVariants as faults;

    ghost from_gives = { λ _ fault. fault ≡ faults.NoMemory };

    fn from(_: AllocError) -> InspectFault {
        InspectFault::NoMemory
    }
}
