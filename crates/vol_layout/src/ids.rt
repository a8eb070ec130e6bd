//! User and group numbers of an edition.
ghost use Rattle.std.specs.Prelude.{◌≡◌};
ghost use Rattle.vol_layout.specs.Ids.{is_bad_id};

use crate::edition::Edition;

/// True if the user number or the group number is above the edition's limit.
pub fn is_bad_id(edition: Edition, uid: u16, gid: u16) -> bool
    ensures { result ≡ is_bad_id edition uid gid }
{
    let limit = edition.constants().id_limit;
    limit < uid || limit < gid
}
