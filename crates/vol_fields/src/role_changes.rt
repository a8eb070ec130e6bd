//! The blocks whose roles differ between two images.
ghost use Rattle.std.specs.Prelude.{◌≡◌, ◌+◌, ◌==◌, ◌<◌, length, IfOk};
ghost use Rattle.vol_fields.specs.RoleChanges.{block_joins, changed_blocks, follows, is_block_joined, is_changed, is_moved};

use crate::field::role_at;
use crate::role::Role;
use std::alloc::{AllocError, Global};

/// True if a logical block is `step` blocks after another.
fn is_after(logical: u32, at: u32, step: u32) -> bool
    ensures { result ≡ (logical + step == at) }
{
    u64::from(logical) + u64::from(step) == u64::from(at)
}

/// True if `next` is this role, `step` logical blocks further on. The sizes of files don't count.
pub fn is_moved(role: Role, next: Role, step: u32) -> bool
    ensures { result ≡ is_moved step role next }
{
    match role {
        Role::Slots { ino, logical, .. } => match next {
            Role::Slots {
                ino: other,
                logical: at,
                ..
            } => ino == other && is_after(logical, at, step),
            _ => false,
        },
        Role::Bytes { ino, logical, .. } => match next {
            Role::Bytes {
                ino: other,
                logical: at,
                ..
            } => ino == other && is_after(logical, at, step),
            _ => false,
        },
        Role::Entries {
            ino,
            level,
            logical,
        } => match next {
            Role::Entries {
                ino: other,
                level: depth,
                logical: at,
            } => ino == other && level == depth && is_after(logical, at, step),
            _ => false,
        },
        Role::Chain => matches!(next, Role::Chain),
        Role::Free => matches!(next, Role::Free),
        Role::Lost => matches!(next, Role::Lost),
        Role::Twice => matches!(next, Role::Twice),
        Role::System | Role::Outside => matches!(next, Role::System | Role::Outside),
    }
}

/// Returns the blocks whose roles differ between two tables.
#[tactic(auto, unfolding(crate::specs::RoleChanges::changed_blocks))]
pub fn changed_blocks(alloc: Global, old: &[Role], new: &[Role]) -> Result<Vec<usize>, AllocError>
    ensures { IfOk result (λ blocks. blocks.items ≡ changed_blocks old.now new.now) }
{
    let end = old.len().max(new.len());
    (0..end).filter(|b| is_changed(old, new, *b)).collect(alloc)
}

/// True if the role of block `b` differs.
fn is_changed(old: &[Role], new: &[Role], b: usize) -> bool
    ensures { result ≡ is_changed old.now new.now b }
{
    !is_moved(role_at(old, b), role_at(new, b), 0)
}

/// Returns, for each of these blocks, whether the next one's roles follow.
#[tactic(auto, unfolding(crate::specs::RoleChanges::block_joins))]
pub fn block_joins(
    alloc: Global,
    old: &[Role],
    new: &[Role],
    blocks: &[usize],
) -> Result<Vec<bool>, AllocError>
    ensures { IfOk result (λ joins. joins.items ≡ block_joins old.now new.now blocks.now) }
{
    (0..blocks.len())
        .map(|k| is_block_joined(old, new, blocks, k))
        .collect(alloc)
}

/// True if the roles of the block at place `k + 1` follow those of the block at place `k`.
fn is_block_joined(old: &[Role], new: &[Role], blocks: &[usize], k: usize) -> bool
    requires { k < length blocks.now }
    ensures { result ≡ is_block_joined old.now new.now blocks.now k }
{
    k + 1 < blocks.len() && follows(old, new, blocks[k], blocks[k + 1])
}

/// True if block `b` is the one after block `a`, and both its roles are the next ones.
fn follows(old: &[Role], new: &[Role], a: usize, b: usize) -> bool
    ensures { result ≡ follows old.now new.now a b }
{
    a < b
        && b - a == 1
        && is_moved(role_at(old, a), role_at(old, b), 1)
        && is_moved(role_at(new, a), role_at(new, b), 1)
}
