//! Updates of the known nodes after a request.
ghost use Rattle.std.specs.Prelude.{◌≡◌, ◌≢◌, ◌<◌, ◌≤◌, ◌+◌, ◌==◌, ◌||◌, length, slice_get, None, Some, MatchOption, if◌then◌else◌};
ghost use Rattle.vol_layout.specs.Edition.{constants};
ghost use Rattle.vol_layout.specs.Geometry.{Fits, geometry_of};
ghost use Rattle.vol_layout.specs.Slot.{name_of};
ghost use Rattle.vol_dir.specs.Entries.{entry_in};
ghost use Rattle.vol_dir.specs.Tree.{tree};
ghost use Rattle.std.specs.Vec.{vec_capacity};
ghost use Rattle.vol_mounted.specs.Losses.{kept_after};
ghost use Rattle.vol_mounted.specs.Orphans.{held_by, size_if};
ghost use Rattle.vol_mounted.specs.Paths.{place_of};
ghost use Rattle.vol_mounted.specs.Records.{name_for, name_in, place_for, leads_there, met_again, after_loss};

use crate::loss::Loss;
use crate::orphan::Orphans;
use crate::table::NodeTable;
use fuse_words::{Header, Operation};
use pdp_words::Image;
use vol_dir::is_dots;
use vol_layout::{Edition, Geometry, Kind, Slot};
use vol_serve::nodes::{look_up, next_name, stat};
use vol_volume::Volume;

impl NodeTable {
    ghost use Rattle.std.specs.Prelude.{◌≡◌};
    ghost use Rattle.vol_layout.specs.Geometry.{geometry_of};
    ghost use Rattle.vol_mounted.specs.Numbers.{i_number};
    ghost use Rattle.vol_mounted.specs.Records.{found, opened_in, closed_in, settled};

    /// Records the effect of an operation on the nodes that the kernel knows, after all its calls were made.
    #[tactic(auto, unfolding(crate::specs::Records::settled))]
    pub(crate) fn settle(&mut self, volume: &Volume, header: &Header, operation: &Operation<'_>)
        ensures { self.new ≡ settled (geometry_of volume.now.edition volume.now.image) volume.now.image self.old header.now operation.now }
    {
        let geometry = volume.geometry();
        let image = volume.image();
        match operation {
            Operation::Lookup { name } | Operation::Link { name, .. } => {
                self.record_name(image, geometry, header.node, name.as_slice(), false);
            }
            Operation::MkNod { name, .. } | Operation::MkDir { name, .. } => {
                self.record_name(image, geometry, header.node, name.as_slice(), true);
            }
            Operation::Rename {
                directory,
                new_name,
                ..
            }
            | Operation::Rename2 {
                directory,
                new_name,
                ..
            } => {
                self.record_name(image, geometry, *directory, new_name.as_slice(), false);
            }
            Operation::Open { .. } => self.record_open(image, geometry, header.node),
            Operation::Release { .. } => self.record_close(geometry.edition, header.node),
            _ => {}
        }
    }

    /// Records the name of a node in a directory. A new node gets a new number.
    fn record_name(
        &mut self,
        image: &Image,
        geometry: &Geometry,
        directory: u64,
        name: &[u8],
        is_new: bool,
    )
        requires { Fits geometry.now image.now }
        ensures { self.new ≡ found geometry.now image.now self.old is_new directory name.now }
    {
        let Some(dir) = self.i_number(geometry.edition, directory) else {
            return;
        };
        let Ok(i) = look_up(image, geometry, dir, name) else {
            return;
        };
        if is_new {
            self.bear(i);
        }
        if is_dots(name) || i == geometry.edition.constants().root {
            return;
        }
        self.meet(i, dir, name);
    }

    /// Counts one more open of a file.
    fn record_open(&mut self, image: &Image, geometry: &Geometry, node: u64)
        requires { Fits geometry.now image.now }
        ensures { self.new ≡ opened_in geometry.now image.now self.old (i_number geometry.now.edition self.old node) }
    {
        if let Some(i) = self.i_number(geometry.edition, node) {
            match stat(image, geometry, i) {
                Some(stat) if matches!(stat.kind, Kind::Regular) => self.open(i),
                _ => {}
            }
        }
    }

    /// Counts one close of a file.
    fn record_close(&mut self, edition: Edition, node: u64)
        ensures { self.new ≡ closed_in self.old (i_number edition self.old node) }
    {
        if let Some(i) = self.i_number(edition, node) {
            self.close(i);
        }
    }
}

/// Records that a file lost a name. If the file was freed, its bytes are kept while it is open; if it has other names, looks for one of them.
pub(crate) fn settle_loss(nodes: &mut NodeTable, orphans: &mut Orphans, volume: &Volume, loss: Loss)
    requires { length orphans.old.files.items < vec_capacity orphans.old.files }
    ensures nodes { nodes.new ≡ after_loss (geometry_of volume.now.edition volume.now.image) volume.now.image nodes.old (Some loss.i) }
    ensures files { orphans.new.files.items ≡ kept_after (geometry_of volume.now.edition volume.now.image) volume.now.image orphans.old.files.items (Some loss.i) loss.orphan }
    ensures held { held_by orphans.new.files.items ≤ held_by orphans.old.files.items + size_if loss.orphan }
{
    let Loss { i, orphan } = loss;
    let geometry = volume.geometry();
    if stat(volume.image(), geometry, i).is_some() {
        meet_again(nodes, volume.image(), geometry, i);
    } else if let Some(orphan) = orphan {
        orphans.keep(orphan);
    }
}

/// Finds a name of node `i`, then of its directory, and so on upwards, until it reaches the root or a node whose last known name still leads to it.
fn meet_again(nodes: &mut NodeTable, image: &Image, geometry: &Geometry, i: u16)
    requires { Fits geometry.now image.now }
    ensures { nodes.new ≡ met_again geometry.now image.now (length nodes.old) nodes.old i }
{
    let mut at = i;
    'levels: for level in 0..nodes.count() {
        if is_met(nodes, image, geometry, at) {
            return;
        }
        let Some((dir, slot)) = search(image, geometry, at) else {
            return;
        };
        nodes.meet(at, dir, slot.name());
        at = dir;
    }
}

/// True if node `i` is the root, or if its last known name leads to it.
fn is_met(nodes: &NodeTable, image: &Image, geometry: &Geometry, i: u16) -> bool
    requires { Fits geometry.now image.now }
    ensures { result ≡ ((i == (constants geometry.now.edition).root) || leads_there (tree geometry.now image.now) i (place_of (slice_get nodes.now i))) }
{
    if i == geometry.edition.constants().root {
        return true;
    }
    match nodes.known(i) {
        Some(known) if known.slot.inode != 0 => {
            match look_up(image, geometry, known.directory, known.slot.name()) {
                Ok(found) => found == i,
                Err(_) => false,
            }
        }
        _ => false,
    }
}

/// Returns the first slot in any directory that names node `i`, with its directory, or `None` if there is none.
fn search(image: &Image, geometry: &Geometry, i: u16) -> Option<(u16, Slot)>
    requires { Fits geometry.now image.now }
    ensures { MatchOption result (place_for geometry.now image.now i ≡ None)
        (λ found. place_for geometry.now image.now i ≡ Some (found.0, name_of found.1.name)) }
{
    'directories: for dir in 1..=geometry.last_inode {
        if let Some(slot) = search_in(image, geometry, dir, i) {
            return Some((dir, slot));
        }
    }
    None
}

/// Returns the first slot of directory `dir` that names node `i`, or `None` if there is none.
fn search_in(image: &Image, geometry: &Geometry, dir: u16, i: u16) -> Option<Slot>
    requires { Fits geometry.now image.now }
    ensures { MatchOption result (name_in geometry.now image.now i dir ≡ None)
        (λ slot. name_in geometry.now image.now i dir ≡ Some (name_of slot.name)) }
{
    let mut from = 0;
    'slots: loop {
        let Ok(next) = next_name(image, geometry, dir, from) else {
            return None;
        };
        let Some((found, slot)) = next else {
            return None;
        };
        if names(&slot, i) {
            return Some(slot);
        }
        from = found + 1;
    }
}

/// True if an entry is a name of node `i` other than `.` and `..`.
fn names(slot: &Slot, i: u16) -> bool
    requires { slot.now.inode ≢ 0 }
    ensures { name_for i (entry_in slot.now) ≡ (if result then Some (name_of slot.now.name) else None) }
{
    slot.inode == i && !is_dots(slot.name())
}
