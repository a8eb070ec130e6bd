//! The values of fields, and what they mean.
ghost use Rattle.std.specs.Prelude.{◌≡◌, ◌+◌, ◌<◌, ◌≤◌, ◌++◌, ◌==◌, decimal, IfOk, OnOk, Some};
ghost use Rattle.std.specs.List.{list_all, position};
ghost use Rattle.std.specs.String.{string_bytes};
ghost use Rattle.vol_layout.specs.Geometry.{Fits};
ghost use Rattle.vol_inspect.specs.Texts.{octal_text};
ghost use Rattle.vol_fields.specs.Values.{
  character,
  characters,
  inode_meaning,
  is_device,
  kind_at,
  number_in,
  number_text,
  numbers_text,
  pointer_meaning,
  role_text,
  shown_name,
  value_text,
  with_meaning,
};

use crate::field::role_at;
use crate::names::{Name, ValueKind};
use crate::role::Role;
use crate::runs::Spot;
use escaped_text::push_escaped;
use pdp_words::{Image, addr3, long, word};
use std::alloc::{AllocError, Global};
use std::fmt;
use vol_inspect::kind_name;
use vol_layout::i_list::kind;
use vol_layout::{Geometry, Kind};

/// Appends the value of a field of this part with these bytes, and what it means.
pub(crate) fn push_value(
    alloc: Global,
    text: &mut Vec<u8>,
    image: &Image,
    geometry: &Geometry,
    roles: &[Role],
    part: Spot,
    sort: ValueKind,
    bytes: &[u8],
) -> Result<(), AllocError>
    requires { Fits geometry.now image.now }
    ensures { OnOk result (text.new.items ≡ text.old.items ++ value_text geometry.now roles.now image.now part sort bytes.now) }
{
    match sort {
        ValueKind::Name => push_escaped(text, shown_name(bytes)),
        ValueKind::Bytes => push_characters(text, bytes),
        ValueKind::Number
        | ValueKind::Mode
        | ValueKind::Moment
        | ValueKind::Inode
        | ValueKind::Block => match number_in(bytes) {
            Some(n) => push_number(alloc, text, image, geometry, roles, part, sort, n),
            None => Ok(()),
        },
    }
}

/// Returns the number that a field with these bytes has.
pub fn number_in(bytes: &[u8]) -> Option<u32>
    ensures { result ≡ number_in bytes.now }
{
    match bytes.len() {
        1 => Some(u32::from(bytes[0])),
        2 => Some(u32::from(word(bytes, 0))),
        3 => Some(addr3(bytes, 0)),
        4 => Some(long(bytes, 0)),
        _ => None,
    }
}

/// Appends a number in a part, and what it means.
fn push_number(
    alloc: Global,
    text: &mut Vec<u8>,
    image: &Image,
    geometry: &Geometry,
    roles: &[Role],
    part: Spot,
    sort: ValueKind,
    n: u32,
) -> Result<(), AllocError>
    requires { Fits geometry.now image.now }
    ensures { OnOk result (text.new.items ≡ text.old.items ++ number_text geometry.now roles.now image.now part sort n) }
{
    match sort {
        ValueKind::Mode => push_mode(alloc, text, n),
        ValueKind::Inode => {
            let meaning = inode_meaning(image, geometry, n);
            push_decimal(alloc, text, n, meaning)
        }
        ValueKind::Block => push_pointer(alloc, text, image, geometry, roles, part, n),
        ValueKind::Number | ValueKind::Moment | ValueKind::Name | ValueKind::Bytes => {
            push_decimal(alloc, text, n, "")
        }
    }
}

/// Appends a mode in octal digits.
fn push_mode(alloc: Global, text: &mut Vec<u8>, n: u32) -> Result<(), AllocError>
    ensures { OnOk result (text.new.items ≡ text.old.items ++ octal_text n) }
{
    let value = format!(in alloc; "0{n:o}")?;
    Ok(text.extend_from_slice(value.as_bytes())?)
}

/// Appends a block number in a part, and the role of the block.
fn push_pointer(
    alloc: Global,
    text: &mut Vec<u8>,
    image: &Image,
    geometry: &Geometry,
    roles: &[Role],
    part: Spot,
    n: u32,
) -> Result<(), AllocError>
    requires { Fits geometry.now image.now }
    ensures { OnOk result (text.new.items ≡ text.old.items ++ with_meaning (decimal n) (pointer_meaning geometry.now roles.now image.now part n)) }
{
    let meaning = pointer_meaning(alloc, image, geometry, roles, part, n)?;
    push_decimal(alloc, text, n, meaning.as_str())
}

/// Appends a number in decimal digits, and what it means.
fn push_decimal(alloc: Global, text: &mut Vec<u8>, n: u32, meaning: &str) -> Result<(), AllocError>
    ensures { OnOk result (text.new.items ≡ text.old.items ++ with_meaning (decimal n) meaning.now) }
{
    let value = format!(in alloc; "{n}")?;
    push_with_meaning(text, value.as_bytes(), meaning.as_bytes())
}

/// Appends a value, and its meaning if it has one.
fn push_with_meaning(text: &mut Vec<u8>, value: &[u8], meaning: &[u8]) -> Result<(), AllocError>
    ensures { OnOk result (text.new.items ≡ text.old.items ++ with_meaning value.now meaning.now) }
{
    text.extend_from_slice(value)?;
    if meaning.len() == 0 {
        return Ok(());
    }
    text.extend_from_slice(b"  ")?;
    text.extend_from_slice(meaning)?;
    Ok(())
}

/// Returns the meaning of a block number in a part: the role of the block. An address of a special file has none.
pub fn pointer_meaning(
    alloc: Global,
    image: &Image,
    geometry: &Geometry,
    roles: &[Role],
    part: Spot,
    n: u32,
) -> Result<String, AllocError>
    requires { Fits geometry.now image.now }
    ensures { IfOk result (λ text. string_bytes text ≡ pointer_meaning geometry.now roles.now image.now part n) }
{
    if n == 0 || is_device(image, geometry, part) {
        return Ok(String::new(alloc));
    }
    let role = role_at(roles, n as usize);
    format!(in alloc; "{role}")
}

/// Returns the meaning of an i-number: the kind of the i-node.
pub fn inode_meaning(image: &Image, geometry: &Geometry, n: u32) -> &'static str
    requires { Fits geometry.now image.now }
    ensures { result.now ≡ inode_meaning geometry.now image.now n }
{
    if n == 0 {
        return "";
    }
    if n > u32::from(geometry.last_inode) {
        return "past the last";
    }
    kind_name(kind_at(image, geometry, n as usize))
}

/// True if a part is the i-node of a special file.
fn is_device(image: &Image, geometry: &Geometry, part: Spot) -> bool
    requires { Fits geometry.now image.now }
    ensures { result ≡ is_device geometry.now image.now part.name part.index }
{
    match part.name {
        Name::Node => matches!(kind_at(image, geometry, part.index), Kind::Special),
        _ => false,
    }
}

/// Returns the kind of the i-node with this number, `Odd` if there is none.
fn kind_at(image: &Image, geometry: &Geometry, i: usize) -> Kind
    requires { Fits geometry.now image.now }
    ensures { result ≡ kind_at geometry.now image.now i }
{
    if 0 < i && i <= geometry.last_inode as usize {
        kind(image, geometry, i as u16)
    } else {
        Kind::Odd
    }
}

impl fmt::Display for Role {
    ghost output = { λ role. Some (role_text role) };

    fn fmt<W: fmt::Write>(&self, f: &mut fmt::Formatter<W>) -> fmt::Result {
        match *self {
            Role::System | Role::Outside => write!(f, "no data block"),
            Role::Slots { ino, logical, .. } => write!(f, "directory {ino}, logical {logical}"),
            Role::Bytes { ino, logical, .. } => {
                write!(f, "data of i-node {ino}, logical {logical}")
            }
            Role::Entries {
                ino,
                level,
                logical,
            } => write!(
                f,
                "pointers of i-node {ino}, level {level}, from logical {logical}"
            ),
            Role::Chain => write!(f, "chain block"),
            Role::Free => write!(f, "free"),
            Role::Lost => write!(f, "lost"),
            Role::Twice => write!(f, "named twice"),
        }
    }
}

/// Returns the bytes of a name that are shown: those before its first zero, but all if others than zeros follow.
pub fn shown_name(bytes: &[u8]) -> &[u8]
    ensures { result.now ≡ shown_name bytes.now }
{
    let Some(end) = first_zero(bytes) else {
        return bytes;
    };
    if are_zero(&bytes[end..]) {
        &bytes[..end]
    } else {
        bytes
    }
}

/// Returns the position of the first zero.
fn first_zero(bytes: &[u8]) -> Option<usize>
    ensures { result ≡ position (λ c. c == 0) bytes.now }
{
    bytes.iter().position(|c| *c == 0)
}

/// True if all bytes are zero.
fn are_zero(bytes: &[u8]) -> bool
    ensures { result ≡ list_all (λ c. c == 0) bytes.now }
{
    bytes.iter().all(|c| *c == 0)
}

/// Appends bytes as characters, nothing if all are zero.
fn push_characters(text: &mut Vec<u8>, bytes: &[u8]) -> Result<(), AllocError>
    ensures { OnOk result (text.new.items ≡ text.old.items ++ characters bytes.now) }
{
    if are_zero(bytes) {
        return Ok(());
    }
    for byte in bytes {
        text.push(character(*byte))?;
    }
    Ok(())
}

/// Returns a byte as a character: a dot if it isn't printable ASCII.
fn character(byte: u8) -> u8
    ensures { result ≡ character byte }
{
    if byte >= 32 && byte < 127 { byte } else { b'.' }
}
