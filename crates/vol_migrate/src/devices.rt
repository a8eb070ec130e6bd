//! The special files of a volume that is migrated.
ghost use Rattle.std.specs.Prelude.{◌≡◌, ◌/◌, ◌==◌};
ghost use Rattle.std.specs.List.{list_all};
ghost use Rattle.vol_migrate.specs.Refuse.{keeps};

use vol_layout::Inode;

/// What becomes of special files.
#[derive(Clone, Copy, PartialEq, Eq)]
pub enum Devices {
    /// A volume that has one isn't migrated.
    Refuse,
    /// They are kept. A volume that has one that would lose something isn't migrated.
    Keep,
}

impl Devices {
    /// True if this special file of the sixth edition is kept: if this is asked for, its type is one of the two of a new special file, and all
    /// addresses but the first are 0.
    pub(crate) fn keep(self, node: &Inode) -> bool
        ensures { result ≡ keeps self (node.now.mode.bits / 4096) node.now.addresses }
    {
        match self {
            Devices::Refuse => false,
            Devices::Keep => {
                matches!(node.mode.bits / 0o10000, 0o12 | 0o16) && are_zero(&node.addresses[1..])
            }
        }
    }
}

/// True if these addresses are all 0.
fn are_zero(addresses: &[u32]) -> bool
    ensures { result ≡ list_all (λ a. a == 0) addresses.now }
{
    addresses.iter().all(|a| *a == 0)
}
