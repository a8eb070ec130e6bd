//! Paths as a terminal can show them.
ghost use Rattle.std.specs.Prelude.{◌≡◌, Some};
ghost use Rattle.std.specs.Fmt.{DisplaysOnOk};
ghost use Rattle.std.specs.List.{list_any};
ghost use Rattle.std.specs.Str.{chars};
ghost use Rattle.std.specs.Char.{is_control};
ghost use Rattle.escaped_text.specs.Escape.{escaped, escaped_byte};
ghost use Rattle.identify_lines.specs.ShownPath.{shown_path};

use std::fmt;

/// The path of a file, which prints so that a terminal can show it: as it is; or, if it has control characters, with a backslash and three octal digits for
/// each byte but printable ASCII, and two backslashes for one.
#[derive(Clone, Copy)]
pub struct ShownPath<'a>(pub &'a str);

impl fmt::Display for ShownPath<'_> {
    ghost output = { λ path. Some (shown_path path.0.now) };

    fn fmt<W: fmt::Write>(&self, f: &mut fmt::Formatter<W>) -> fmt::Result {
        if has_control(self.0) {
            write_escaped(f, self.0.as_bytes())
        } else {
            f.write_str(self.0)
        }
    }
}

/// True if a path has control characters.
pub(crate) fn has_control(path: &str) -> bool
    ensures { result ≡ list_any is_control (chars path.now) }
{
    path.chars().any(|character| character.is_control())
}

/// Writes bytes as text that a terminal can show.
fn write_escaped<W: fmt::Write>(f: &mut fmt::Formatter<W>, bytes: &[u8]) -> fmt::Result
    ensures { DisplaysOnOk W.write_str_gives f.old result (Some (escaped bytes.now)) f.new }
{
    'bytes: for byte in bytes {
        write!(f, "{}", ShownByte(*byte))?;
    }
    Ok(())
}

/// A byte, which prints as text that a terminal can show.
#[derive(Clone, Copy)]
pub(crate) struct ShownByte(pub u8);

impl fmt::Display for ShownByte {
    ghost output = { λ byte. Some (escaped_byte byte.0) };

    fn fmt<W: fmt::Write>(&self, f: &mut fmt::Formatter<W>) -> fmt::Result {
        let byte = self.0;
        if byte == b'\\' {
            return f.write_str("\\\\");
        }
        if byte >= b' ' && byte < 127 {
            return f.write_char(char::from(byte));
        }
        f.write_char('\\')?;
        f.write_char(char::from(b'0' + byte / 64))?;
        f.write_char(char::from(b'0' + byte / 8 % 8))?;
        f.write_char(char::from(b'0' + byte % 8))
    }
}
