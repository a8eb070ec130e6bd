//! Directory entries for READDIR.
ghost use Rattle.std.specs.Prelude.{◌≡◌, ◌≢◌, ◌≤◌, ◌-◌, ℕ, List, ◌++◌, if◌then◌else◌, vec_len, vec_capacity, Ok, Err, MatchResult};
ghost use Rattle.vol_layout.specs.Geometry.{Fits};
ghost use Rattle.vol_dir.specs.Entries.{entry_in};
ghost use Rattle.vol_dir.specs.Tree.{tree};
ghost use Rattle.vol_serve.specs.Attributes.{entry_kind_in};
ghost use Rattle.vol_serve.specs.Listings.{listed, listing_in};

use crate::attributes::entry_kind;
use crate::nodes::{NodeFault, next_name};
use fuse_words::push_entry;
use pdp_words::Image;
use vol_dir::is_plain;
use vol_layout::{Geometry, Slot};

/// Puts the entries of directory `dir` into `out`, starting at slot `from`, as many as fit in `size` bytes. The offset of each entry is the number of
/// the next slot.
pub(crate) fn put_entries(
    image: &Image,
    geometry: &Geometry,
    dir: u16,
    from: u64,
    size: usize,
    out: &mut Vec<u8>,
) -> Result<(), NodeFault>
    requires fits { Fits geometry.now image.now }
    requires room { size ≤ vec_capacity out.old }
    ensures entries { MatchResult result
        (λ _. listing_in geometry.now image.now dir from size ≡ Ok out.new.items)
        (λ fault. listing_in geometry.now image.now dir from size ≡ Err fault) }
    ensures within { vec_len out.new ≤ size }
    ensures capacity { vec_capacity out.old ≤ vec_capacity out.new }
{
    out.clear();
    // No directory has this many slots.
    let mut slot = from.min(u64::from(u32::MAX)) as u32;
    'entries: while let Some((found, entry)) = next_name(image, geometry, dir, slot)? {
        if !put_entry(image, geometry, found, &entry, size, out) {
            return Ok(());
        }
        slot = found + 1;
    }
    Ok(())
}

/// Appends the entry in slot `slot`, if it is to be listed. Returns false if there is no room for it.
fn put_entry(
    image: &Image,
    geometry: &Geometry,
    slot: u32,
    entry: &Slot,
    size: usize,
    out: &mut Vec<u8>,
) -> bool
    requires fits { Fits geometry.now image.now }
    requires room { size ≤ vec_capacity out.old }
    requires some { entry.now.inode ≢ 0 }
    requires within { vec_len out.old ≤ size }
    ensures put { (more : ℕ → List ℕ)
        → out.old.items ++ listed (entry_kind_in (tree geometry.now image.now)) slot (size - vec_len out.old) (entry_in entry.now) more
        ≡ (if result then out.new.items ++ more (size - vec_len out.new) else out.new.items) }
    ensures within { vec_len out.new ≤ size }
    ensures capacity { vec_capacity out.old ≤ vec_capacity out.new }
{
    let name = entry.name();
    // A kernel refuses all entries if one name is empty or has a slash.
    if !is_plain(name) {
        return true;
    }
    push_entry(
        out,
        size,
        u64::from(entry.inode),
        u64::from(slot) + 1,
        entry_kind(image, geometry, entry.inode),
        name,
    )
}
