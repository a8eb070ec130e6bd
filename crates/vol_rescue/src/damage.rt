//! The damage of visited entries, and the entries without those that are damaged.
ghost use Rattle.std.specs.Prelude.{◌≡◌, ◌≢◌, ◌≤◌, None, IfOk, map};
ghost use Rattle.vol_layout.specs.Geometry.{Fits};
ghost use Rattle.vol_rescue.specs.Damage.{content_damage, damage_of, is_left_out, kept_entry, kept_entries, marked};

use pdp_words::Image;
use std::alloc::{AllocError, Global};
use vol_archive::{MetEntry, Reason, Role};
use vol_layout::Geometry;
use vol_losses::{is_node_lost, is_whole};

/// The damage of an entry.
#[derive(Clone, Copy)]
pub enum Damage {
    /// The block of its i-node is lost.
    Inode,
    /// Bytes of its file are lost.
    Bytes,
    /// Bytes of its directory are lost, so names may be missing.
    Names,
}

/// Returns the damage of an entry that was visited in an image with lost blocks. There is none if nothing is lost that the entry depends on, and for an
/// entry that is left out for another reason.
///
/// Costs what [`is_whole`] costs.
pub fn damage_of(
    image: &Image,
    geometry: &Geometry,
    lost: &[bool],
    found: &MetEntry,
) -> Option<Damage>
    requires { Fits geometry.now image.now }
    ensures exact { result ≡ damage_of geometry.now image.now lost.now found.now }
    ensures number { result ≢ None → (1 ≤ found.now.inode) × (found.now.inode ≤ geometry.now.last_inode) }
{
    let i = found.inode;
    if i == 0 || i > geometry.last_inode {
        return None;
    }
    if is_node_lost(geometry, lost, i) {
        return Some(Damage::Inode);
    }
    if is_whole(image, geometry, lost, i) {
        return None;
    }
    content_damage(found.role)
}

/// Returns the damage of an entry with this role, whose i-node isn't lost but bytes of its file are.
fn content_damage(role: Role) -> Option<Damage>
    ensures { result ≡ content_damage role }
{
    match role {
        Role::File | Role::Special | Role::Link(_) => Some(Damage::Bytes),
        Role::Directory => Some(Damage::Names),
        Role::Left(_) => None,
    }
}

/// Returns the visited entries, with another role for those that are damaged: they are left out, but for a directory whose i-node isn't lost; with
/// `damaged`, those whose i-node isn't lost stay. With no marks the entries stay as they are.
///
/// Costs [`damage_of`] for each entry, and takes memory for the entries; none if there are no marks.
pub fn without_damaged(
    alloc: Global,
    image: &Image,
    geometry: &Geometry,
    lost: &[bool],
    damaged: bool,
    founds: Vec<MetEntry>,
) -> Result<Vec<MetEntry>, AllocError>
    requires { Fits geometry.now image.now }
    ensures { IfOk result (λ kept. kept.items ≡ kept_entries geometry.now image.now lost.now damaged founds.items) }
{
    if lost.is_empty() {
        return Ok(founds);
    }
    let kept = marked(alloc, image, geometry, lost, damaged, founds)?;
    Ok(kept)
}

/// Returns the visited entries, each with another role if it is left out for its damage.
fn marked(
    alloc: Global,
    image: &Image,
    geometry: &Geometry,
    lost: &[bool],
    damaged: bool,
    founds: Vec<MetEntry>,
) -> Result<Vec<MetEntry>, AllocError>
    requires { Fits geometry.now image.now }
    ensures { IfOk result (λ kept. kept.items ≡ map (marked geometry.now image.now lost.now damaged) founds.items) }
{
    let mut kept = Vec::new(alloc);
    for found in founds {
        let damage = damage_of(image, geometry, lost, &found);
        kept.push(kept_entry(damaged, damage, found))?;
    }
    Ok(kept)
}

/// Returns an entry with this damage, left out if it is to be.
fn kept_entry(damaged: bool, damage: Option<Damage>, found: MetEntry) -> MetEntry
    ensures { result ≡ kept_entry damaged damage found }
{
    if is_left_out(damaged, damage) {
        MetEntry {
            role: Role::Left(Reason::NoNode),
            ..found
        }
    } else {
        found
    }
}

/// True if an entry with this damage is left out.
fn is_left_out(damaged: bool, damage: Option<Damage>) -> bool
    ensures { result ≡ is_left_out damaged damage }
{
    match damage {
        None | Some(Damage::Names) => false,
        Some(Damage::Inode) => true,
        Some(Damage::Bytes) => !damaged,
    }
}
