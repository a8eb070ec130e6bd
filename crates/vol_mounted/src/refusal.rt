//! Refusals of requests, and the error numbers that the kernel gets for them.
ghost use Rattle.std.specs.Prelude.{◌≡◌, ◌<◌};
ghost use Rattle.vol_mounted.specs.Errno.{call_errno, errno};

use std::alloc::AllocError;
use vol_dir::Refusal;
use vol_serve::errno::RequestRefusal;
use vol_serve::nodes::NodeFault;

/// The reason why a request is refused.
#[derive(Clone, Copy)]
pub enum MountedRefusal {
    /// A refusal that a volume served read-only may also return.
    Request(RequestRefusal),
    /// The volume refuses a call.
    Call(Refusal),
    /// It can't be made here, as a symbolic link or a FIFO, or not by this user, as a special file. If all nodes are shown as one user's, their owner can't be
    /// changed.
    NotPermitted,
    /// A directory can't be renamed. A program that wants to move it copies it instead.
    IsDirectory,
    /// A rename has flags that aren't served.
    Flags,
    /// The image couldn't be saved.
    Unsaved,
}

impl MountedRefusal {
    /// The refusal of a request on a node that no longer exists.
    pub(crate) const STALE: MountedRefusal = MountedRefusal::Request(RequestRefusal::Node(
        NodeFault::Stale,
    ));
}

impl From<NodeFault> for MountedRefusal {
    ghost use Rattle.std.specs.Prelude.{◌≡◌};
    ghost use Rattle.vol_mounted.specs.Refusals.{no_node};

    ghost from_gives = { λ fault refusal. refusal ≡ no_node fault };

    fn from(fault: NodeFault) -> MountedRefusal {
        MountedRefusal::Request(RequestRefusal::Node(fault))
    }
}

impl From<RequestRefusal> for MountedRefusal {
    ghost use Rattle.std.specs.Prelude.{◌≡◌};
    ghost use Rattle.vol_mounted.specs.declared.refusal.MountedRefusal.TheVariants.{Request};

    ghost from_gives = { λ refused refusal. refusal ≡ Request refused };

    fn from(refused: RequestRefusal) -> MountedRefusal {
        MountedRefusal::Request(refused)
    }
}

impl From<Refusal> for MountedRefusal {
    ghost use Rattle.std.specs.Prelude.{◌≡◌};
    ghost use Rattle.vol_mounted.specs.declared.refusal.MountedRefusal.TheVariants.{Call};

    ghost from_gives = { λ refused refusal. refusal ≡ Call refused };

    fn from(refused: Refusal) -> MountedRefusal {
        MountedRefusal::Call(refused)
    }
}

impl From<AllocError> for MountedRefusal {
    ghost use Rattle.std.specs.Prelude.{◌≡◌};
    ghost use Rattle.vol_mounted.specs.Refusals.{no_memory};

    ghost from_gives = { λ error refusal. refusal ≡ no_memory };

    fn from(_error: AllocError) -> MountedRefusal {
        MountedRefusal::Call(Refusal::NoMemory)
    }
}

/// Returns Linux's error number for a refused call (errno.h).
fn call_errno(refusal: Refusal) -> u32
    ensures number { result ≡ call_errno refusal }
    ensures bound { result < 512 }
{
    match refusal {
        // ENOTEMPTY
        Refusal::NotEmpty => 39,
        // ENXIO
        Refusal::NotRegular => 6,
        // ENOSPC
        Refusal::NoInode => 28,
        // EINVAL
        Refusal::BadId => 22,
        // The numbers of the others are the same as Linux's.
        Refusal::NotOwner => 1,
        Refusal::NoEntry => 2,
        Refusal::NoMemory => 12,
        Refusal::Access => 13,
        Refusal::Exists => 17,
        Refusal::NotDirectory => 20,
        Refusal::IsDirectory => 21,
        Refusal::Invalid => 22,
        Refusal::TooBig => 27,
        Refusal::NoSpace => 28,
        Refusal::TooManyLinks => 31,
    }
}

/// Returns Linux's error number for a refusal (errno.h).
pub fn errno(refusal: MountedRefusal) -> u32
    ensures number { result ≡ errno refusal }
    ensures bound { result < 512 }
{
    match refusal {
        MountedRefusal::Request(refusal) => vol_serve::errno::errno(refusal),
        MountedRefusal::Call(refusal) => call_errno(refusal),
        // EPERM
        MountedRefusal::NotPermitted => 1,
        // EXDEV
        MountedRefusal::IsDirectory => 18,
        // EINVAL
        MountedRefusal::Flags => 22,
        // EIO
        MountedRefusal::Unsaved => 5,
    }
}
