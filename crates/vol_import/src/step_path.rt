//! The paths of directories, as keys in order.
ghost use Rattle.std.specs.Prelude.{◌≡◌, Some, refl};
ghost use Rattle.std.specs.Cmp.{partial_equiv_from_equiv};
ghost use Rattle.std.specs.Cmp.Lexicographic.{pointwise, slice_cmp, nat_list_eq_equiv, nat_list_cmp_total, texts_ties, texts_po};
ghost use Rattle.std.specs.Ordering.{nat_cmp};
ghost use Rattle.std.specs.Str.{bytes_eq};

use std::cmp::Ordering;
use std::marker::Model;

/// The path of a directory below the directory of the import: its steps, each after a slash. Ordered by its bytes. Contracts see it as the list of
/// these bytes.
#[derive(Drop)]
pub(crate) struct StepPath {
    bytes: Vec<u8>,
}

impl Model for StepPath {
    ghost use Rattle.std.specs.Prelude.{List, ℕ};

    ghost Value = { List ℕ };

    ghost view = { λ held. held.bytes.items };
}

impl StepPath {
    /// Wraps these bytes as a path. Takes no memory.
    pub(crate) fn from_vec(bytes: Vec<u8>) -> StepPath
        ensures { result ≡ bytes.items }
    {
        StepPath { bytes }
    }

    /// Returns the bytes of the path.
    pub(crate) fn as_slice(&self) -> &[u8]
        ensures { result.now ≡ self.now }
    {
        self.bytes.as_slice()
    }
}

impl PartialEq for StepPath {
    ghost eq = { bytes_eq };

    ghost laws = { partial_equiv_from_equiv nat_list_eq_equiv };

    /// True if both paths have the same bytes.
    fn eq(&self, other: &StepPath) -> bool {
        self.as_slice() == other.as_slice()
    }
}

impl Eq for StepPath {
    ghost laws = { nat_list_eq_equiv };
}

impl PartialOrd for StepPath {
    ghost partial_cmp = { λ one other. Some (slice_cmp nat_cmp one other) };

    ghost laws = { texts_po };

    fn partial_cmp(&self, other: &StepPath) -> Option<Ordering> {
        Some(self.cmp(other))
    }
}

impl Ord for StepPath {
    ghost cmp = { slice_cmp nat_cmp };

    ghost total = { nat_list_cmp_total };

    ghost matches_partial_cmp = { λ one other. refl };

    ghost matches_eq = { texts_ties };

    fn cmp(&self, other: &StepPath) -> Ordering {
        self.as_slice().cmp(other.as_slice())
    }
}
