//! The columns of a long line.
ghost use Rattle.std.specs.Prelude.{◌≡◌, ◌++◌, ◌<◌, OnOk};
ghost use Rattle.vol_dir.specs.Access.{has_bit};
ghost use Rattle.vol_listing.specs.Digits.{digit_at, padded_number};
ghost use Rattle.vol_listing.specs.LongLines.{kind_column, kind_letters, letter_of, flag, special_flag, mode_text, short_number, wide_number, device_text, size_text, column as spaced, owner_columns, long_columns};

use crate::dates::push_moment;
use crate::rows::{Row, Sort, special_type};
use std::alloc::AllocError;
use vol_layout::{Kind, Mode};

/// Appends the columns of a long line, each followed by a space.
#[tactic(auto, unfolding(crate::specs::LongLines::long_columns))]
pub(crate) fn push_columns(text: &mut Vec<u8>, row: Row) -> Result<(), AllocError>
    ensures { OnOk result (text.new.items ≡ text.old.items ++ long_columns row) }
{
    push_owner_columns(text, row)?;
    push_column(text, &size_text(row.sort, row.size))?;
    push_moment(text, row.modified)?;
    text.push(b' ')?;
    Ok(())
}

/// Appends the i-number of a node, its kind and permissions, its link count, its owner and its group.
#[tactic(auto, unfolding(crate::specs::LongLines::owner_columns))]
fn push_owner_columns(text: &mut Vec<u8>, row: Row) -> Result<(), AllocError>
    ensures { OnOk result (text.new.items ≡ text.old.items ++ owner_columns row) }
{
    push_column(text, &padded(row.number))?;
    push_column(text, &kind_column(row))?;
    push_column(text, &padded(row.links))?;
    push_column(text, &padded(row.uid))?;
    push_column(text, &padded(row.gid))?;
    Ok(())
}

/// Appends a column of a line, followed by a space.
pub(crate) fn push_column(text: &mut Vec<u8>, column: &[u8]) -> Result<(), AllocError>
    ensures { OnOk result (text.new.items ≡ text.old.items ++ spaced column.now) }
{
    text.extend_from_slice(column)?;
    text.push(b' ')?;
    Ok(())
}

/// Returns the letters of a mode of this kind, as `ls -l` prints them; none if the mode is that of a free i-node or isn't valid.
pub fn kind_letters(mode: Mode, kind: Kind) -> Option<[u8; 10]>
    ensures { result ≡ kind_letters mode.bits kind }
{
    let sort = match kind {
        Kind::Free | Kind::Odd => return None,
        Kind::Regular => Sort::Regular,
        Kind::Directory => Sort::Directory,
        Kind::Special => special_type(mode, 0),
    };
    Some(mode_text(sort, mode.permissions()))
}

/// Returns the kind and the permissions of a row, in ten letters; a question mark if the kind isn't known.
pub(crate) fn kind_column(row: Row) -> [u8; 10]
    ensures { result ≡ kind_column row }
{
    if row.is_blank() {
        [b'?', b'-', b'-', b'-', b'-', b'-', b'-', b'-', b'-', b'-']
    } else {
        mode_text(row.sort, row.permissions)
    }
}

/// Returns the kind of a node and its permissions, in ten letters.
#[tactic(auto, unfolding(crate::specs::LongLines::mode_text))]
fn mode_text(sort: Sort, permissions: u16) -> [u8; 10]
    ensures { result ≡ mode_text sort permissions }
{
    [
        letter_of(sort),
        flag(permissions, 0o400, b'r'),
        flag(permissions, 0o200, b'w'),
        special_flag(permissions, 0o100, 0o4000, b's', b'S'),
        flag(permissions, 0o040, b'r'),
        flag(permissions, 0o020, b'w'),
        special_flag(permissions, 0o010, 0o2000, b's', b'S'),
        flag(permissions, 0o004, b'r'),
        flag(permissions, 0o002, b'w'),
        special_flag(permissions, 0o001, 0o1000, b't', b'T'),
    ]
}

/// Returns the letter of a kind of node.
fn letter_of(sort: Sort) -> u8
    ensures { result ≡ letter_of sort }
{
    match sort {
        Sort::Regular => b'-',
        Sort::Directory => b'd',
        Sort::Character(_) => b'c',
        Sort::Block(_) => b'b',
    }
}

/// True if permissions have the bit with this value.
fn has_bit(permissions: u16, value: u16) -> bool
    requires { 0 < value }
    ensures { result ≡ has_bit permissions value }
{
    permissions / value % 2 == 1
}

/// Returns the letter of a permission if it is granted, else a dash.
fn flag(permissions: u16, value: u16, letter: u8) -> u8
    requires { 0 < value }
    ensures { result ≡ flag permissions value letter }
{
    if has_bit(permissions, value) {
        letter
    } else {
        b'-'
    }
}

/// Returns the letter for the permission to execute and a special bit: `x` or a dash without the special bit, `both` if both are
/// set, `alone` if only the special bit is.
fn special_flag(permissions: u16, value: u16, special: u16, both: u8, alone: u8) -> u8
    requires value { 0 < value }
    requires special { 0 < special }
    ensures { result ≡ special_flag permissions value special both alone }
{
    if !has_bit(permissions, special) {
        return flag(permissions, value, b'x');
    }
    if has_bit(permissions, value) {
        both
    } else {
        alone
    }
}

/// Returns the size of a node, or its device's numbers, in ten columns.
pub(crate) fn size_text(sort: Sort, size: u32) -> [u8; 10]
    ensures { result ≡ size_text sort size }
{
    match sort {
        Sort::Regular | Sort::Directory => wide_number(size),
        Sort::Character(device) | Sort::Block(device) => device_text(device),
    }
}

/// Returns the major and the minor number of a device, right-aligned in ten columns.
#[tactic(auto, unfolding(crate::specs::LongLines::device_text))]
fn device_text(device: u16) -> [u8; 10]
    ensures { result ≡ device_text device }
{
    let (major, minor) = (u32::from(device / 256), u32::from(device % 256));
    [
        b' ',
        b' ',
        b' ',
        digit_at(100, major),
        digit_at(10, major),
        b'0' + (major % 10) as u8,
        b',',
        digit_at(100, minor),
        digit_at(10, minor),
        b'0' + (minor % 10) as u8,
    ]
}

/// Returns a number, right-aligned in ten columns.
#[tactic(auto, unfolding(crate::specs::LongLines::wide_number))]
fn wide_number(number: u32) -> [u8; 10]
    ensures { result ≡ wide_number number }
{
    [
        digit_at(1_000_000_000, number),
        digit_at(100_000_000, number),
        digit_at(10_000_000, number),
        digit_at(1_000_000, number),
        digit_at(100_000, number),
        digit_at(10_000, number),
        digit_at(1000, number),
        digit_at(100, number),
        digit_at(10, number),
        b'0' + (number % 10) as u8,
    ]
}

/// Returns a number, right-aligned in five columns.
pub(crate) fn padded(number: u16) -> [u8; 5]
    ensures { result ≡ padded_number number }
{
    let number = u32::from(number);
    [
        digit_at(10_000, number),
        digit_at(1000, number),
        digit_at(100, number),
        digit_at(10, number),
        b'0' + (number % 10) as u8,
    ]
}

/// Returns the digit of a number at a weight, or a space before the first digit.
fn digit_at(weight: u32, number: u32) -> u8
    requires { 0 < weight }
    ensures { result ≡ digit_at weight number }
{
    if number < weight {
        return b' ';
    }
    b'0' + (number / weight % 10) as u8
}
