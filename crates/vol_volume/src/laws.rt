//! Laws about the definitions of calls and journals. These functions do nothing; only their contracts, which are proved, matter.
ghost use Rattle.vol_volume.specs.Laws.{
  KeepsConsistent,
  LeadsInParts,
  IsLegalInParts,
  HasMemory,
  HasMemoryForQueries,
  WritesNothing,
  LeadsToRoot,
};

/// Each accepted call keeps the volume consistent.
pub fn accepted_calls_keep_volumes_consistent()
    ensures { KeepsConsistent }
{}

/// A journal may be replayed in parts.
pub fn journals_come_in_parts()
    ensures leads { LeadsInParts }
    ensures legal { IsLegalInParts }
{}

/// A call or a query is never refused with NoMemory because of the state of the volume.
pub fn no_verdict_is_want_of_memory()
    ensures calls { HasMemory }
    ensures queries { HasMemoryForQueries }
{}

/// A write of no bytes changes only the super-block's time.
pub fn no_bytes_change_nothing()
    ensures { WritesNothing }
{}

/// The empty path leads to the root, and so does `/`.
pub fn the_empty_path_is_the_root()
    ensures { LeadsToRoot }
{}
