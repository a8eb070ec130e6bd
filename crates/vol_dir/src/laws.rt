//! Laws about the definitions of directories, paths and walks. These functions do nothing: their purpose is the contract, which is proved.
ghost use Rattle.std.specs.Prelude.{◌≡◌, [], ◌∷◌};
ghost use Rattle.vol_dir.specs.DirectoryLaws.{FindsFirstSlot, AscendsByName, TestsPlaces};
ghost use Rattle.vol_dir.specs.Walk.{components};
ghost use Rattle.vol_dir.specs.PathLaws.{
  JoinsComponents,
  HasNoOuterSlashes,
  CountsSlashesOnce,
  BeginsAtRoot,
  WalksOn,
};

/// Slashes separate the components of a path and have no other meaning: `//d///x/` has the same components as `d/x`, and `/` and the empty path have
/// none.
pub fn slashes_part_components()
    ensures joined { JoinsComponents }
    ensures outer { HasNoOuterSlashes }
    ensures once { CountsSlashesOnce }
    ensures empty { components [] ≡ [] }
    ensures slash { components (47 ∷ []) ≡ [] }
{}

/// The walk along a path begins at the root. The walk along `path/rest` is the walk along `path`, continued along `rest`.
pub fn walks_begin_at_the_root()
    ensures root { BeginsAtRoot }
    ensures onward { WalksOn }
{}

/// In the map of a directory, a name has the i-number of the first slot with that name, and the names are in ascending order.
pub fn names_are_those_of_slots()
    ensures first { FindsFirstSlot }
    ensures ascending { AscendsByName }
{}

/// The test that is used to compute the shape of a file accepts exactly the positions in the block map.
pub fn places_pass_their_test()
    ensures { TestsPlaces }
{}
