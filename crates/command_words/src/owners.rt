//! Users and groups on the command line.
ghost use Rattle.std.specs.Prelude.{◌≡◌, None, IfSome};
ghost use Rattle.command_words.specs.Decimal.{IsNumberGiven, IsNumberUpTo};
ghost use Rattle.command_words.specs.Owners.{IsOwnerNamed, IsOwnerWord};

use crate::decimal::word_of;
use vol_dir::Cred;

/// Reads a user and a group: two 16-bit numbers as [`word_of`] reads them, with a colon between them. Returns `None` for any
/// other text.
pub(crate) fn owner_of(text: &str) -> Option<Cred>
    ensures some { IfSome result (IsOwnerNamed text.now) }
    ensures none { result ≡ None → IsOwnerWord text.now → ⊥ }
{
    match text.split_once(':') {
        Some((user, group)) => numbers_of(user, group),
        None => None,
    }
}

/// Reads the numbers of a user and a group.
fn numbers_of(user: &str, group: &str) -> Option<Cred>
    ensures some { IfSome result (λ owner. IsNumberGiven 65535 user.now owner.uid × IsNumberGiven 65535 group.now owner.gid) }
    ensures none { result ≡ None → IsNumberUpTo 65535 user.now × IsNumberUpTo 65535 group.now → ⊥ }
{
    let uid = word_of(user)?;
    let gid = word_of(group)?;
    Some(Cred { uid, gid })
}
