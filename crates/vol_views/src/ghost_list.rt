//! Lists that only contracts see.
ghost use Rattle.std.specs.Prelude.{◌≡◌, ◌++◌, ◌∷◌, []};

use logbook::{Opening, Plain, Rule, Seen, Start};
use std::marker::PhantomData;
use std::snapshot::Snapshot;

/// The rule of a list with arbitrary entries.
pub struct AnyEntries;

impl<T> Rule<T, u64> for AnyEntries {
    ghost use Rattle.std.specs.Prelude.{[]};
    ghost use base.Fml.{ftrue};

    ghost holds = { λ cells log. Unit {0} };

    ghost first = { [] };

    ghost hinted = { λ n log. Unit {0} };

    ghost shows = { λ log. [] };

    ghost keeps = { λ names log. ftrue };

    ghost moves = { λ ask before after answer. Unit {0} };
}

/// A list that is never appended to; [`longer`] makes a new one. It has no size at run time.
pub(crate) type GhostList<T> = Seen<T, u64, AnyEntries>;

/// An opening with no entries.
struct NoEntries;

impl<T> Opening<(), T> for NoEntries {
    ghost use Rattle.std.specs.Prelude.{[]};

    ghost log = { λ count about. [] };
}

/// A maker that uses its argument as the entry.
pub(crate) struct Itself;

impl<T> Plain<T, T, u64> for Itself {
    ghost use Rattle.std.specs.Prelude.{None};

    ghost ask = { λ entry. entry };

    ghost state = { λ entry. None };
}

/// A list, and the argument that its next entry is made from.
#[derive(Drop)]
struct Grown<T, X> {
    list: GhostList<T>,
    about: Snapshot<X>,
}

/// An opening with a list's entries followed by the entry that `M` makes.
struct More<M> {
    marker: PhantomData<M>,
}

impl<T, X, M: Plain<X, T, u64>> Opening<Grown<T, X>, T> for More<M> {
    ghost use Rattle.std.specs.Prelude.{[], ◌∷◌, ◌++◌};

    ghost log = { λ count grown. grown.list.log ++ M.ask grown.about.value ∷ [] };
}

/// Returns an empty list.
pub(crate) fn empty<T>() -> GhostList<T>
    ensures { result.log ≡ [] }
{
    list_of::<T, (), NoEntries>(&())
}

/// Returns the list that `M` makes from `about`.
pub(crate) fn list_of<T, X, M: Opening<X, T>>(about: &X) -> GhostList<T>
    ensures { result.log ≡ M.log 0 about.now }
{
    let (list, _) = Seen::open_row::<X, M>(about, Start::alone(), 0);
    list
}

/// Returns the list with one more entry, which `M` makes from `about`.
pub(crate) fn longer<T, X, M: Plain<X, T, u64>>(list: &GhostList<T>, about: &X) -> GhostList<T>
    ensures { result.log ≡ list.now.log ++ M.ask about.now ∷ [] }
{
    let grown = Grown {
        list: list.again(),
        about: Snapshot::of(about),
    };
    list_of::<T, Grown<T, X>, More<M>>(&grown)
}
