//! Options of a listing.
ghost use Rattle.std.specs.Prelude.{◌≡◌};
ghost use Rattle.vol_listing.specs.Depths.{goes_below, is_bare, is_plain};

/// The options of a listing.
#[derive(Clone, Copy)]
pub struct ListOptions {
    /// The format of the lines.
    pub lines: Lines,
    /// Its depth.
    pub depth: Depth,
}

impl ListOptions {
    /// True if only the names in a directory, with their i-numbers, are listed. Only a directory can be listed like this.
    pub fn is_bare(self) -> bool
        ensures { result ≡ is_bare self }
    {
        match self.depth {
            Depth::Names => self.lines.is_plain(),
            Depth::Itself | Depth::Below => false,
        }
    }
}

/// The depth of a listing. A file itself is listed at every depth.
#[derive(Clone, Copy)]
pub enum Depth {
    /// The directory itself is listed.
    Itself,
    /// The names in the directory are listed.
    Names,
    /// The names in the directory and in all directories below are listed.
    Below,
}

impl Depth {
    /// True if the directories below are listed too.
    pub(crate) fn goes_below(self) -> bool
        ensures { result ≡ goes_below self }
    {
        match self {
            Depth::Itself | Depth::Names => false,
            Depth::Below => true,
        }
    }
}

/// The format of the lines of a listing.
#[derive(Clone, Copy)]
pub enum Lines {
    /// The i-number and the name, on a line.
    Plain,
    /// The i-node's attributes and the name, on a line.
    Long,
    /// The i-node's attributes and the path, as an object of one JSON array.
    Json,
}

impl Lines {
    /// True if only i-numbers and names are listed.
    fn is_plain(self) -> bool
        ensures { result ≡ is_plain self }
    {
        match self {
            Lines::Plain => true,
            Lines::Long | Lines::Json => false,
        }
    }
}

/// The destination of the output.
#[derive(Clone, Copy)]
pub enum Screen {
    /// A terminal with this many columns, and whether to use colours.
    Terminal { columns: u16, colours: bool },
    /// A file, a pipe or a device.
    Stream,
}
