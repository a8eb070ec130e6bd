//! The reasons for refusing a call.
ghost use Rattle.std.specs.Prelude.{◌≡◌, Some};
ghost use Rattle.vol_dir.specs.Refusals.{name_of, number_of, refusal_at, refusal_text};

use std::error::Error;
use std::fmt;

/// The reason why a call or a query is refused. It is displayed as its number and name. The numbers up to 31 are the error numbers of the system
/// (intro to section 2 of the manual); numbers of 101 and above are this project's.
#[derive(Clone, Copy, Debug, PartialEq, Eq)]
pub enum Refusal {
    /// The caller is neither the owner nor user 0, or the call is only for user 0.
    NotOwner,
    /// A directory on the path doesn't have the name.
    NoEntry,
    /// Out of memory.
    NoMemory,
    /// The permissions don't grant the access.
    Access,
    /// The name exists already.
    Exists,
    /// A node on the path or at its end is not a directory.
    NotDirectory,
    /// The node is a directory.
    IsDirectory,
    /// The path has a zero byte, or the call makes no sense for this path.
    Invalid,
    /// The file would be larger than the greatest size.
    TooBig,
    /// More blocks are needed than are free.
    NoSpace,
    /// The link count would be above its limit.
    TooManyLinks,
    /// The directory has entries other than `.` and `..`.
    NotEmpty,
    /// The node is a special file.
    NotRegular,
    /// No i-number above the root's is free.
    NoInode,
    /// A user or group number is above the edition's limit.
    BadId,
}

/// The list of the refusals with their numbers: hands it to the macro `$of_each`, after `$given`.
#[macro_export]
macro_rules! refusals {
    ($of_each:ident, $given:expr) => {
        $of_each! {
            $given,
            NotOwner = 1,
            NoEntry = 2,
            NoMemory = 12,
            Access = 13,
            Exists = 17,
            NotDirectory = 20,
            IsDirectory = 21,
            Invalid = 22,
            TooBig = 27,
            NoSpace = 28,
            TooManyLinks = 31,
            NotEmpty = 101,
            NotRegular = 102,
            NoInode = 103,
            BadId = 104,
        }
    };
}

macro_rules! number {
    ($refusal:expr, $($name:ident = $number:literal,)*) => {
        match $refusal {
            $(Refusal::$name => $number,)*
        }
    };
}

macro_rules! at_number {
    ($wanted:expr, $($name:ident = $number:literal,)*) => {
        match $wanted {
            $($number => Some(Refusal::$name),)*
            _ => None,
        }
    };
}

macro_rules! name {
    ($refusal:expr, $($name:ident = $number:literal,)*) => {
        match $refusal {
            $(Refusal::$name => stringify!($name),)*
        }
    };
}

macro_rules! text {
    ($refusal:expr, $($name:ident = $number:literal,)*) => {
        match $refusal {
            $(Refusal::$name => concat!($number, " ", stringify!($name)),)*
        }
    };
}

impl Refusal {
    /// Returns the refusal with this number.
    pub fn at_number(number: u16) -> Option<Refusal>
        ensures { result ≡ refusal_at number }
    {
        refusals!(at_number, number)
    }

    /// Returns its number.
    pub fn number(self) -> u8
        ensures { result ≡ number_of self }
    {
        refusals!(number, self)
    }

    /// Returns its name.
    pub fn name(self) -> &'static str
        ensures { result.now ≡ name_of self }
    {
        refusals!(name, self)
    }

    /// Returns its number and its name.
    pub fn text(self) -> &'static str
        ensures { result.now ≡ refusal_text self }
    {
        refusals!(text, self)
    }
}

impl fmt::Display for Refusal {
    ghost output = { λ refusal. Some (refusal_text refusal) };

    fn fmt<W: fmt::Write>(&self, f: &mut fmt::Formatter<W>) -> fmt::Result {
        f.write_str(self.text())
    }
}

impl Error for Refusal {}
