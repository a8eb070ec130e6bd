//! Indents lines.
ghost use Rattle.std.specs.Prelude.{◌≡◌, ◌++◌, true, OnOk};
ghost use Rattle.vol_trace.specs.Indent.{indented, indented_byte};

use std::alloc::AllocError;

/// The spaces before each line.
const INDENT: &[u8] = b"  ";

/// Appends lines, each indented by two spaces.
pub(crate) fn push_indented(text: &mut Vec<u8>, lines: &[u8]) -> Result<(), AllocError>
    ensures { OnOk result (text.new.items ≡ text.old.items ++ indented true lines.now) }
{
    let mut starts = true;
    'bytes: for byte in lines {
        push_byte(text, *byte, starts)?;
        starts = *byte == b'\n';
    }
    Ok(())
}

/// Appends a byte, with the indent before it if it begins a line.
fn push_byte(text: &mut Vec<u8>, byte: u8, starts: bool) -> Result<(), AllocError>
    ensures { OnOk result (text.new.items ≡ text.old.items ++ indented_byte starts byte) }
{
    if starts {
        text.extend_from_slice(INDENT)?;
    }
    Ok(text.push(byte)?)
}
