//! The twelve rules of soundness, in words.
ghost use Rattle.std.specs.Prelude.{◌≡◌};
ghost use Rattle.vol_judge.specs.RuleTexts.{rule_at, rule_number, rule_sentence};

/// A rule of soundness.
#[derive(Clone, Copy)]
pub enum Rule {
    /// The image has all blocks of the volume.
    Whole,
    /// The sizes are within their limits.
    Bounded,
    /// The kinds of i-nodes.
    Kinds,
    /// The sizes and link counts of i-nodes.
    Sizes,
    /// Block maps point only to data blocks.
    Zoned,
    /// The free list is a stack.
    Listed,
    /// No block is used twice.
    Apart,
    /// No block is lost.
    Covered,
    /// The entries of directories.
    Entries,
    /// The entries `.` and `..`.
    Dots,
    /// The tree of directories.
    Tree,
    /// The link counts.
    Links,
}

/// The list of the rules with their numbers: hands it to the macro `$of_each`, after `$given`.
#[macro_export]
macro_rules! rules {
    ($of_each:ident, $given:expr) => {
        $of_each! {
            $given,
            Whole = 1,
            Bounded = 2,
            Kinds = 3,
            Sizes = 4,
            Zoned = 5,
            Listed = 6,
            Apart = 7,
            Covered = 8,
            Entries = 9,
            Dots = 10,
            Tree = 11,
            Links = 12,
        }
    };
}

macro_rules! number {
    ($rule:expr, $($name:ident = $number:literal,)*) => {
        match $rule {
            $(Rule::$name => $number,)*
        }
    };
}

macro_rules! at_number {
    ($wanted:expr, $($name:ident = $number:literal,)*) => {
        match $wanted {
            $($number => Some(Rule::$name),)*
            _ => None,
        }
    };
}

impl Rule {
    /// Returns the rule with this number.
    pub fn at_number(number: u8) -> Option<Rule>
        ensures { result ≡ rule_at number }
    {
        rules!(at_number, number)
    }

    /// Returns the rule's number, from 1 to 12.
    pub fn number(self) -> u8
        ensures { result ≡ rule_number self }
    {
        rules!(number, self)
    }

    /// Returns the rule's requirement, in plain words.
    pub fn sentence(self) -> &'static str
        ensures { result.now ≡ rule_sentence self }
    {
        match self {
            Rule::Whole => "the image has all blocks of the volume",
            Rule::Bounded => "the sizes are within their limits",
            Rule::Kinds => "each mode is known and the root is a directory",
            Rule::Sizes => "file sizes and link counts are within their limits",
            Rule::Zoned => "each number that a file names is a data block",
            Rule::Listed => "the free list names data blocks, each once",
            Rule::Apart => "no block is used twice",
            Rule::Covered => "each data block is used or free",
            Rule::Entries => "each entry has a name of its own and an i-node",
            Rule::Dots => "each directory has . for itself and .. for its parent",
            Rule::Tree => "each directory is entered once and reached from the root",
            Rule::Links => "each link count is the number of entries",
        }
    }
}
