//! Queries, which change nothing, and their replies.
ghost use Rattle.std.specs.Prelude.{◌≡◌, ◌==◌};
ghost use Rattle.std.specs.Cmp.Lexicographic.{pointwise};
ghost use Rattle.std.specs.Cmp.Rules.{comparing};
ghost use Rattle.std.specs.Ordering.{eq_of_both, on};
ghost use Rattle.std.proofs.Common.{rules};

use pdp_words::Bytes;
use std::marker::Model;
use vol_dir::Cred;
use vol_layout::Kind;

/// A query by a user. Paths start at the root, with or without a leading slash.
#[derive(Drop)]
pub enum Query {
    /// Asks for the attributes of a node.
    Stat {
        /// The user that the query runs as.
        cred: Cred,
        /// The node's path.
        path: Bytes,
    },
    /// Asks for bytes of a regular file.
    Read {
        /// The user that the query runs as.
        cred: Cred,
        /// The path of the file.
        path: Bytes,
        /// The position of the first byte to read, counted from 0.
        offset: u32,
        /// The number of bytes to read; the reply is shorter if the file ends first.
        len: u32,
    },
    /// Asks for the names in a directory.
    List {
        /// The user that the query runs as.
        cred: Cred,
        /// The directory's path.
        path: Bytes,
    },
}

/// The reply to a query.
#[derive(Drop)]
pub enum Reply {
    /// The attributes of a node.
    Stat(Stat),
    /// The bytes read, up to the file's end.
    Bytes(Bytes),
    /// The names of a directory.
    Names(Listing),
}

/// The attributes of a node. Times are in seconds since the beginning of 1970.
#[derive(Clone, Copy, PartialEq, Eq)]
pub struct Stat {
    /// The i-number.
    pub number: u16,
    /// The kind of the node: regular, directory or special.
    pub kind: Kind,
    /// The permission bits in octal 7777.
    pub permissions: u16,
    /// The link count.
    pub links: u16,
    /// The owner.
    pub uid: u16,
    /// The owner's group.
    pub gid: u16,
    /// The size in bytes.
    pub size: u32,
    /// The time of its last read, as stored on the volume.
    pub accessed: u32,
    /// The time of the last change of its bytes or entries.
    pub modified: u32,
    /// The time of its i-node's last change, or `None` in the sixth edition, which doesn't store it.
    pub changed: Option<u32>,
}

/// The names in a directory, including `.` and `..`, each with its i-number. Contracts treat it as a list.
#[derive(Drop)]
pub struct Listing {
    entries: Vec<(Bytes, u16)>,
}

impl Model for Listing {
    ghost use Rattle.std.specs.Prelude.{List, ℕ};

    ghost Value = { List (List ℕ × ℕ) };

    ghost view = { λ held. held.entries.items };
}

impl Listing {
    /// Wraps a vector of names. Takes no memory.
    pub fn from_vec(entries: Vec<(Bytes, u16)>) -> Listing
        ensures { result ≡ entries.items }
    {
        Listing { entries }
    }

    /// Returns the names. Takes no memory.
    pub fn into_vec(self) -> Vec<(Bytes, u16)>
        ensures { result.items ≡ self }
    {
        self.entries
    }

    /// Returns all the names. In a reply they are in ascending order of their bytes.
    pub fn as_slice(&self) -> &[(Bytes, u16)]
        ensures { result.now ≡ self.now }
    {
        self.entries.as_slice()
    }
}

impl PartialEq for Listing {
    ghost eq = { pointwise (eq_of_both (on (λ e. e.0) (pointwise ◌==◌)) (on (λ e. e.1) ◌==◌)) };

    ghost laws = { Prim.search (comparing, rules) };

    /// True if both have the same names with the same i-numbers, in the same order.
    fn eq(&self, other: &Listing) -> bool {
        self.as_slice() == other.as_slice()
    }
}

impl Eq for Listing {
    ghost laws = { Prim.search (comparing, rules) };
}
