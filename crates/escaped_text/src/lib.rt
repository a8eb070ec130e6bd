//! Bytes as text that a terminal can show.
#![tactic(auto)]

ghost use Rattle.std.specs.Prelude.{◌≡◌, ◌++◌, OnOk};
ghost use Rattle.escaped_text.specs.Escape.{escaped_byte, escaped};

use std::alloc::AllocError;

/// Appends bytes as text that a terminal can show: printable ASCII as it is, except a backslash, which is doubled; any other
/// byte as a backslash and three octal digits.
pub fn push_escaped(text: &mut Vec<u8>, bytes: &[u8]) -> Result<(), AllocError>
    ensures { OnOk result (text.new.items ≡ text.old.items ++ escaped bytes.now) }
{
    for byte in bytes {
        push_escaped_byte(text, *byte)?;
    }
    Ok(())
}

/// Appends one byte as [`push_escaped`] does.
fn push_escaped_byte(text: &mut Vec<u8>, byte: u8) -> Result<(), AllocError>
    ensures { OnOk result (text.new.items ≡ text.old.items ++ escaped_byte byte) }
{
    if byte == b'\\' {
        return Ok(text.extend_from_slice(b"\\\\")?);
    }
    if byte >= 32 && byte < 127 {
        return Ok(text.push(byte)?);
    }
    let digits = [
        b'\\',
        b'0' + byte / 64,
        b'0' + byte / 8 % 8,
        b'0' + byte % 8,
    ];
    Ok(text.extend_from_slice(&digits)?)
}
