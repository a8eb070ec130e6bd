//! The texts of outcomes.
ghost use Rattle.std.specs.Prelude.{◌≡◌, IfOk};
ghost use Rattle.std.specs.String.{string_bytes};
ghost use Rattle.vol_scripts.specs.Texts.{bytes_text, device_letter, done_text, kind_text, node_text, permissions_text, reply_text, stat_text};

use std::alloc::{AllocError, Global};
use vol_layout::{DeviceKind, Kind};
use vol_volume::{Done, Reply, Stat};

/// Returns the text of an accepted call's result.
pub(crate) fn done_text(alloc: Global, done: Done) -> Result<String, AllocError>
    ensures { IfOk result (λ text. string_bytes text ≡ done_text done) }
{
    match done {
        Done::Made(number) => format!(in alloc; "ok {number}"),
        Done::Wrote(count) => format!(in alloc; "ok {count}"),
        Done::Plain => String::from_str(alloc, "ok 0"),
    }
}

/// Returns the text of a query's reply.
pub(crate) fn reply_text(alloc: Global, reply: &Reply) -> Result<String, AllocError>
    ensures { IfOk result (λ text. string_bytes text ≡ reply_text reply.now) }
{
    match reply {
        Reply::Stat(stat) => stat_text(alloc, stat),
        Reply::Bytes(bytes) => {
            let text = bytes_text(alloc, bytes.as_slice())?;
            let text = text.as_str();
            format!(in alloc; "read {text}")
        }
        Reply::Names(names) => {
            let count = names.as_slice().len();
            format!(in alloc; "list {count}")
        }
    }
}

/// Returns bytes as hexadecimal digits, or a hyphen if there are none.
pub(crate) fn bytes_text(alloc: Global, bytes: &[u8]) -> Result<String, AllocError>
    ensures { IfOk result (λ text. string_bytes text ≡ bytes_text bytes.now) }
{
    if bytes.is_empty() {
        return String::from_str(alloc, "-");
    }
    hex::encode(alloc, bytes)
}

/// Returns the text of a node's attributes.
fn stat_text(alloc: Global, stat: &Stat) -> Result<String, AllocError>
    ensures { IfOk result (λ text. string_bytes text ≡ stat_text stat.now) }
{
    let Stat {
        links,
        uid,
        gid,
        size,
        ..
    } = *stat;
    let node = node_text(alloc, stat)?;
    let node = node.as_str();
    format!(in alloc; "stat {node} {links} {uid} {gid} {size}")
}

/// Returns the i-number, the kind and the permissions of a node.
fn node_text(alloc: Global, stat: &Stat) -> Result<String, AllocError>
    ensures { IfOk result (λ text. string_bytes text ≡ node_text stat.now) }
{
    let number = stat.number;
    let kind = kind_text(stat.kind);
    let permissions = permissions_text(alloc, stat.permissions)?;
    let permissions = permissions.as_str();
    format!(in alloc; "{number} {kind} {permissions}")
}

/// Returns the word for a kind of node.
fn kind_text(kind: Kind) -> &'static str
    ensures { result.now ≡ kind_text kind }
{
    match kind {
        Kind::Regular => "file",
        Kind::Directory => "dir",
        Kind::Free | Kind::Special | Kind::Odd => "special",
    }
}

/// Returns the letter of a kind of device.
pub(crate) fn device_letter(kind: DeviceKind) -> &'static str
    ensures { result.now ≡ device_letter kind }
{
    match kind {
        DeviceKind::Character => "c",
        DeviceKind::Block => "b",
    }
}

/// Returns permissions as four octal digits.
pub(crate) fn permissions_text(alloc: Global, bits: u16) -> Result<String, AllocError>
    ensures { IfOk result (λ text. string_bytes text ≡ permissions_text bits) }
{
    let digits = [bits / 512 % 8, bits / 64 % 8, bits / 8 % 8, bits % 8];
    let [first, second, third, fourth] = digits;
    format!(in alloc; "{first}{second}{third}{fourth}")
}
