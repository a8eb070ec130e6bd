//! The titles of blocks: what each is, in a few words.
ghost use Rattle.std.specs.Prelude.{◌≡◌, map, IfOk};
ghost use Rattle.std.specs.String.{string_bytes};
ghost use Rattle.vol_fields.specs.Titles.{system_title, title_of, titles_of};

use crate::field::role_at;
use crate::role::Role;
use std::alloc::{AllocError, Global};

/// Returns the title of each block with these roles, from block 0 on.
///
/// Takes memory for the titles.
pub fn block_titles(alloc: Global, roles: &[Role]) -> Result<Vec<String>, AllocError>
    ensures { IfOk result (λ titles. map string_bytes titles.items ≡ titles_of roles.now) }
{
    let mut titles = Vec::new(alloc);
    for b in 0..roles.len() {
        let title = title(alloc, b, role_at(roles, b))?;
        titles.push(title)?;
    }
    Ok(titles)
}

/// Returns the title of block `b` with this role.
fn title(alloc: Global, b: usize, role: Role) -> Result<String, AllocError>
    ensures { IfOk result (λ text. string_bytes text ≡ title_of b role) }
{
    match role {
        Role::System => String::from_str(alloc, system_title(b)),
        Role::Slots { .. }
        | Role::Bytes { .. }
        | Role::Entries { .. }
        | Role::Chain
        | Role::Free
        | Role::Lost
        | Role::Twice
        | Role::Outside => format!(in alloc; "{role}"),
    }
}

/// Returns the title of a block in front of the data blocks.
fn system_title(b: usize) -> &'static str
    ensures { result.now ≡ system_title b }
{
    match b {
        0 => "boot block",
        1 => "super-block",
        _ => "i-list",
    }
}
