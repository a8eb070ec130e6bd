//! Groups of the entries of a list that belong together.
ghost use Rattle.std.specs.Prelude.{◌≡◌, ◌+◌, ◌-◌, ◌<◌, ◌≤◌, length, IfOk};
ghost use Rattle.vol_fields.specs.Groups.{AreGroups, AreGroupsWithin, cut_last, group_at, last_joined};

use std::alloc::{AllocError, Global};

/// Entries of a list that follow one another.
#[derive(Clone, Copy)]
pub struct Group {
    /// The place of the first entry.
    pub first: usize,
    /// The place of the last entry.
    pub last: usize,
}

/// Returns the groups of the entries of a list, in their order. `joins` has true at each place whose next entry belongs to the same group. A group of
/// fewer than `least` entries is split into groups of one.
pub fn groups_of(alloc: Global, joins: &[bool], least: usize) -> Result<Vec<Group>, AllocError>
    ensures groups { IfOk result (λ groups. AreGroups joins.now least groups.items) }
    ensures within { IfOk result (λ groups. AreGroupsWithin (length joins.now) groups.items) }
{
    let mut groups = Vec::new(alloc);
    let mut n = 0;
    while n < joins.len() {
        let group = group_at(joins, least, n);
        groups.push(group)?;
        n = group.last + 1;
    }
    Ok(groups)
}

/// Returns the group that begins at place `k`.
#[tactic(auto, unfolding(crate::specs::Groups::group_at))]
fn group_at(joins: &[bool], least: usize, k: usize) -> Group
    requires { k < length joins.now }
    ensures exact { result ≡ group_at joins.now least k }
    ensures from { k ≤ result.last }
    ensures within { result.last < length joins.now }
    ensures first { result.first ≡ k }
{
    let last = last_joined(joins, k);
    Group {
        first: k,
        last: if last - k + 1 < least { k } else { last },
    }
}

/// Returns the place of the last entry that belongs to the one at place `k`.
fn last_joined(joins: &[bool], k: usize) -> usize
    requires { k < length joins.now }
    ensures exact { result ≡ last_joined joins.now (length joins.now - k - 1) k }
    ensures from { k ≤ result }
    ensures within { result < length joins.now }
{
    let mut last = k;
    for step in 0..joins.len() - k - 1 {
        if !joins[last] {
            return last;
        }
        last += 1;
    }
    last
}
