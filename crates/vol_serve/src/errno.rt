//! Refusals of requests, and the error numbers that the kernel gets for them.
ghost use Rattle.std.specs.Prelude.{◌≡◌, ◌<◌};
ghost use Rattle.vol_serve.specs.Errno.{errno};

use crate::nodes::NodeFault;

/// The reason why a request was refused.
#[derive(Clone, Copy)]
pub enum RequestRefusal {
    /// The node isn't suited to the operation, or doesn't exist.
    Node(NodeFault),
    /// The operation would change the volume, which is served read-only.
    ReadOnly,
    /// The request has fewer or more bytes than it should have, or an incomplete name.
    Malformed,
    /// The kernel's version of the protocol is too old.
    Version,
    /// The operation isn't served. The kernel can do without it.
    Unserved,
}

impl From<NodeFault> for RequestRefusal {
    ghost use Rattle.std.specs.Prelude.{◌≡◌};
    ghost use Rattle.vol_serve.specs.declared.errno.RequestRefusal.TheVariants.{Node};

    ghost from_gives = { λ fault refusal. refusal ≡ Node fault };

    fn from(fault: NodeFault) -> RequestRefusal {
        RequestRefusal::Node(fault)
    }
}

/// Returns the error number on Linux (errno.h).
pub fn errno(refusal: RequestRefusal) -> u32
    ensures number { result ≡ errno refusal }
    ensures bound { result < 512 }
{
    match refusal {
        // ESTALE
        RequestRefusal::Node(NodeFault::Stale) => 116,
        // ENOTDIR
        RequestRefusal::Node(NodeFault::NotDirectory) => 20,
        // EISDIR
        RequestRefusal::Node(NodeFault::NotRegular) => 21,
        // ENOENT
        RequestRefusal::Node(NodeFault::NoEntry) => 2,
        // ENAMETOOLONG
        RequestRefusal::Node(NodeFault::LongName) => 36,
        // EROFS
        RequestRefusal::ReadOnly => 30,
        // EIO
        RequestRefusal::Malformed => 5,
        // EPROTO
        RequestRefusal::Version => 71,
        // ENOSYS
        RequestRefusal::Unserved => 38,
    }
}
