//! The reasons why nothing is removed.
ghost use Rattle.std.specs.Prelude.{◌≡◌};

use std::alloc::AllocError;
use vol_dir::Refusal;
use vol_volume::{Call, MountFault};

/// The reason why a path isn't removed.
#[derive(Drop)]
pub enum RemovalFault {
    /// The image isn't sound; this is the first of the twelve rules that it breaks.
    Unsound(u8),
    /// The path leads nowhere; this is the refusal of a Stat of it.
    Missing(Refusal),
    /// A call is refused.
    Refused(Refusal, Call),
    /// Memory ran out.
    NoMemory,
}

impl From<AllocError> for RemovalFault {
    ghost use Rattle.vol_batch.specs.Removal.{no_memory};

    ghost from_gives = { λ _ fault. fault ≡ no_memory };

    fn from(_: AllocError) -> RemovalFault {
        RemovalFault::NoMemory
    }
}

impl From<MountFault> for RemovalFault {
    ghost use Rattle.vol_batch.specs.Remove.{unmounted};

    ghost from_gives = { λ why fault. fault ≡ unmounted why };

    fn from(fault: MountFault) -> RemovalFault {
        match fault {
            MountFault::Unsound(rule) => RemovalFault::Unsound(rule),
            MountFault::NoMemory => RemovalFault::NoMemory,
        }
    }
}
