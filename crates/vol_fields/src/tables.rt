//! The fields of each part of a volume, in the order in which they are stored.
ghost use Rattle.std.specs.Prelude.{◌≡◌, ◌≤◌};
ghost use Rattle.vol_fields.specs.Tables.{super_runs, node_runs, data_runs, bytes_in};

use crate::names::Name;
use crate::role::Role;
use crate::runs::Run;
use vol_layout::Edition;

/// Returns the fields of the super-block.
pub(crate) fn super_runs(edition: Edition) -> [Run; 12]
    ensures { result ≡ super_runs edition }
{
    let (number, slots, rest) = match edition {
        Edition::V6 => (2, 100, 96),
        Edition::V7 => (4, 50, 94),
    };
    [
        Run::one(Name::ListSize, 0, 2),
        Run::one(Name::BlockCount, 0, number),
        Run::one(Name::FreeCount, 0, 2),
        Run::array(Name::Free, 0, slots, number),
        Run::one(Name::CacheCount, 0, 2),
        Run::array(Name::Cached, 0, 100, 2),
        Run::one(Name::FreeLock, 0, 1),
        Run::one(Name::InodeLock, 0, 1),
        Run::one(Name::Modified, 0, 1),
        Run::one(Name::ReadOnly, 0, 1),
        Run::one(Name::Time, 0, 4),
        Run::one(Name::Rest, 0, rest),
    ]
}

/// Returns the fields of an i-node of the sixth edition.
pub(crate) fn old_node_runs() -> [Run; 8]
    ensures { result ≡ node_runs Edition.V6 }
{
    [
        Run::one(Name::Mode, 0, 2),
        Run::one(Name::Links, 0, 1),
        Run::one(Name::Uid, 0, 1),
        Run::one(Name::Gid, 0, 1),
        Run::one(Name::Size, 0, 3),
        Run::array(Name::Address, 0, 8, 2),
        Run::one(Name::Accessed, 0, 4),
        Run::one(Name::Written, 0, 4),
    ]
}

/// Returns the fields of an i-node of the seventh edition.
pub(crate) fn node_runs() -> [Run; 10]
    ensures { result ≡ node_runs Edition.V7 }
{
    [
        Run::one(Name::Mode, 0, 2),
        Run::one(Name::Links, 0, 2),
        Run::one(Name::Uid, 0, 2),
        Run::one(Name::Gid, 0, 2),
        Run::one(Name::Size, 0, 4),
        Run::array(Name::Address, 0, 13, 3),
        Run::one(Name::Unused, 0, 1),
        Run::one(Name::Accessed, 0, 4),
        Run::one(Name::Written, 0, 4),
        Run::one(Name::Changed, 0, 4),
    ]
}

/// Returns the fields of a chain block of the free list.
pub(crate) fn chain_runs(edition: Edition) -> [Run; 3]
    ensures { result ≡ data_runs edition Role.Chain }
{
    let (number, slots) = match edition {
        Edition::V6 => (2, 100),
        Edition::V7 => (4, 50),
    };
    [
        Run::one(Name::FreeCount, 0, 2),
        Run::array(Name::Free, 0, slots, number),
        Run::one(Name::Rest, 0, 310),
    ]
}

/// Returns the number of bytes of logical block `logical` that belong to a file of this size.
pub(crate) fn bytes_in(size: u32, logical: u32) -> usize
    ensures value { result ≡ bytes_in size logical }
    ensures bound { result ≤ 512 }
{
    u64::from(size)
        .saturating_sub(512 * u64::from(logical))
        .min(512) as usize
}
