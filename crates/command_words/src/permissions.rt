//! Permissions on the command line.
ghost use Rattle.std.specs.Prelude.{◌≡◌, None, IfSome};
ghost use Rattle.command_words.specs.Permissions.{IsPermissionsGiven, IsPermissionsWord, KeepsOthers, change_by, clause_after, clauses_in, right_bits, rights_with, who_bits, who_or_all};

use command_terms::PermissionChange;
use line_words::{Pieces, number_in};

/// All twelve bits.
const ALL: u16 = 0o7777;

/// Reads a change of permissions: an octal number up to 7777, or clauses such as `u+x`, apart by commas.
pub(crate) fn permissions_of(word: &str) -> Option<PermissionChange>
    ensures some { IfSome result (IsPermissionsGiven word.now) }
    ensures none { result ≡ None → IsPermissionsWord word.now → ⊥ }
{
    match number_in(8, u64::from(ALL), word.as_bytes()) {
        Some(permissions) => Some(PermissionChange::to(permissions as u16)),
        None => clauses_in(word.as_bytes()),
    }
}

/// Reads clauses, apart by commas. Each is made after those before it.
fn clauses_in(word: &[u8]) -> Option<PermissionChange>
    ensures { result ≡ clauses_in word.now }
{
    let mut change = PermissionChange { kept: ALL, set: 0 };
    let mut clauses = Pieces::of(b',', word);
    'clauses: while let Some(clause) = clauses.take_next() {
        change = change.followed_by(clause_in(clause)?);
    }
    Some(change)
}

/// Reads a clause: letters of WHO, an operator, and letters of permissions.
fn clause_in(clause: &[u8]) -> Option<PermissionChange>
    ensures { result ≡ clause_after 0 clause.now }
{
    let mut who = 0;
    let mut rest = clause;
    'letters: while let Some((letter, more)) = rest.split_first() {
        let Some(bits) = who_bits(*letter) else {
            return change_by(who_or_all(who), *letter, rights_in(more)?);
        };
        who |= bits;
        rest = more;
    }
    None
}

/// Returns the bits of a letter of WHO.
fn who_bits(letter: u8) -> Option<u16>
    ensures { result ≡ who_bits letter }
{
    match letter {
        b'u' => Some(0o4700),
        b'g' => Some(0o2070),
        b'o' => Some(0o1007),
        b'a' => Some(ALL),
        _ => None,
    }
}

/// Returns the bits of WHO, or all if no letter was given.
fn who_or_all(who: u16) -> u16
    ensures { result ≡ who_or_all who }
{
    if who == 0 { ALL } else { who }
}

/// Reads letters of permissions.
fn rights_in(letters: &[u8]) -> Option<u16>
    ensures { result ≡ rights_with 0 letters.now }
{
    let mut rights = 0;
    let mut rest = letters;
    'letters: while let Some((letter, more)) = rest.split_first() {
        let bits = right_bits(*letter)?;
        rights |= bits;
        rest = more;
    }
    Some(rights)
}

/// Returns the bits of a letter of permissions.
fn right_bits(letter: u8) -> Option<u16>
    ensures { result ≡ right_bits letter }
{
    match letter {
        b'r' => Some(0o444),
        b'w' => Some(0o222),
        b'x' => Some(0o111),
        b's' => Some(0o6000),
        b't' => Some(0o1000),
        _ => None,
    }
}

/// Returns the change that an operator makes of these bits of those that WHO has. It leaves the bits that WHO doesn't have.
#[tactic(auto, using(crate::proofs::Clauses::clearing_keeps, crate::proofs::Clauses::replacing_keeps, crate::proofs::Clauses::setting_keeps))]
fn change_by(who: u16, operator: u8, rights: u16) -> Option<PermissionChange>
    ensures exact { result ≡ change_by who operator rights }
    ensures others { IfSome result (KeepsOthers who) }
{
    let bits = rights & who;
    match operator {
        b'+' => Some(PermissionChange {
            kept: ALL,
            set: bits,
        }),
        b'-' => Some(PermissionChange {
            kept: ALL ^ bits,
            set: 0,
        }),
        b'=' => Some(PermissionChange {
            kept: ALL ^ who,
            set: bits,
        }),
        _ => None,
    }
}
