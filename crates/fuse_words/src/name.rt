//! The names in a request, and the bytes that it writes.
ghost use Rattle.std.specs.Prelude.{◌≡◌, ◌==◌};
ghost use Rattle.std.specs.List.{position};
ghost use Rattle.fuse_words.specs.Requests.{name_of, names_of};

use std::marker::Model;

/// A name in a request, without its final NUL. Contracts see it as the list of its bytes.
#[derive(Drop)]
pub struct Name<'a> {
    bytes: &'a [u8],
}

/// The bytes that a request writes into a file. Contracts see it as the list of the bytes.
#[derive(Drop)]
pub struct Content<'a> {
    bytes: &'a [u8],
}

impl<'a> Model for Name<'a> {
    ghost use Rattle.std.specs.Prelude.{List, ℕ};

    ghost Value = { List ℕ };

    ghost view = { λ name. name.bytes.now };
}

impl<'a> Model for Content<'a> {
    ghost use Rattle.std.specs.Prelude.{List, ℕ};

    ghost Value = { List ℕ };

    ghost view = { λ content. content.bytes.now };
}

impl<'a> Name<'a> {
    /// Reads a name from bytes, which must have one NUL, at their end.
    pub(crate) fn read(bytes: &'a [u8]) -> Option<Name<'a>>
        ensures { result ≡ name_of bytes.now }
    {
        let end = first_nul(bytes)?;
        if end + 1 == bytes.len() {
            Some(Name {
                bytes: &bytes[..end],
            })
        } else {
            None
        }
    }

    /// Reads two names, each followed by a NUL.
    pub(crate) fn read_two(bytes: &'a [u8]) -> Option<(Name<'a>, Name<'a>)>
        ensures { result ≡ names_of bytes.now }
    {
        let end = first_nul(bytes)?;
        let second = Name::read(&bytes[end + 1..])?;
        let first = Name {
            bytes: &bytes[..end],
        };
        Some((first, second))
    }

    /// Borrows the bytes of the name.
    pub fn as_slice(&self) -> &[u8]
        ensures { result.now ≡ self.now }
    {
        self.bytes
    }

    /// Returns the bytes of the name.
    pub fn into_slice(self) -> &'a [u8]
        ensures { result.now ≡ self.entry }
    {
        self.bytes
    }
}

impl<'a> Content<'a> {
    /// Wraps these bytes.
    pub(crate) fn new(bytes: &'a [u8]) -> Content<'a>
        ensures { result ≡ bytes.now }
    {
        Content { bytes }
    }

    /// Borrows the bytes.
    pub fn as_slice(&self) -> &[u8]
        ensures { result.now ≡ self.now }
    {
        self.bytes
    }

    /// Returns the bytes.
    pub fn into_slice(self) -> &'a [u8]
        ensures { result.now ≡ self.entry }
    {
        self.bytes
    }
}

/// Returns the index of the first NUL.
fn first_nul(bytes: &[u8]) -> Option<usize>
    ensures { result ≡ position (λ b. b == 0) bytes.now }
{
    bytes.iter().position(|b| *b == 0)
}
