//! The roles of blocks as JSON.
ghost use Rattle.std.specs.Prelude.{◌≡◌, IfOk};
ghost use Rattle.serde_json.specs.View.{view};
ghost use Rattle.field_json.specs.Roles.{held_data, role_data, use_data};

use serde_json::{Value, json};
use std::alloc::{AllocError, Global};
use vol_fields::Role;

/// Returns the role of a block: its use, in the words of `map`, and for a block that an i-node uses where in it that is.
#[tactic(auto, unfolding(crate::specs::Roles::role_data))]
pub(crate) fn role_value(alloc: Global, role: Role) -> Result<Value, AllocError>
    ensures { IfOk result (λ value. view value ≡ role_data role) }
{
    match role {
        Role::System => use_value(alloc, "system"),
        Role::Slots { ino, logical, .. } => held_value(alloc, ino, 0, logical, "directory"),
        Role::Bytes { ino, logical, .. } => held_value(alloc, ino, 0, logical, "file"),
        Role::Entries {
            ino,
            level,
            logical,
        } => held_value(alloc, ino, level, logical, "pointer"),
        Role::Chain => use_value(alloc, "chain"),
        Role::Free => use_value(alloc, "free"),
        Role::Lost => use_value(alloc, "lost"),
        Role::Twice => use_value(alloc, "named twice"),
        Role::Outside => use_value(alloc, "outside"),
    }
}

/// Returns the use of a block that no i-node uses.
fn use_value(alloc: Global, word: &str) -> Result<Value, AllocError>
    ensures { IfOk result (λ value. view value ≡ use_data word.now) }
{
    json!(in alloc; {"use": word})
}

/// Returns the use of a block that an i-node uses.
fn held_value(
    alloc: Global,
    ino: u16,
    level: u8,
    logical: u32,
    word: &str,
) -> Result<Value, AllocError>
    ensures { IfOk result (λ value. view value ≡ held_data ino level logical word.now) }
{
    json!(in alloc; {"ino": ino, "level": level, "logical": logical, "use": word})
}
