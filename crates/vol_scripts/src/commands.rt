//! The commands of script lines.
ghost use Rattle.std.specs.Prelude.{◌≡◌};
ghost use Rattle.vol_scripts.specs.Grammar.{command_word, command_named};

/// The command of a line, which is its fourth word.
#[derive(Clone, Copy)]
pub(crate) enum Command {
    Create,
    Mkdir,
    Link,
    Unlink,
    Rmdir,
    Write,
    Truncate,
    Chmod,
    Chown,
    Times,
    Mknod,
    Stat,
    Read,
    List,
    Cut,
}

/// All commands.
static COMMANDS: [Command; 15] = [
    Command::Create,
    Command::Mkdir,
    Command::Link,
    Command::Unlink,
    Command::Rmdir,
    Command::Write,
    Command::Truncate,
    Command::Chmod,
    Command::Chown,
    Command::Times,
    Command::Mknod,
    Command::Stat,
    Command::Read,
    Command::List,
    Command::Cut,
];

impl Command {
    /// Returns the word of the command.
    pub(crate) fn name(self) -> &'static str
        ensures { result.now ≡ command_word self }
    {
        match self {
            Command::Create => "create",
            Command::Mkdir => "mkdir",
            Command::Link => "link",
            Command::Unlink => "unlink",
            Command::Rmdir => "rmdir",
            Command::Write => "write",
            Command::Truncate => "truncate",
            Command::Chmod => "chmod",
            Command::Chown => "chown",
            Command::Times => "times",
            Command::Mknod => "mknod",
            Command::Stat => "stat",
            Command::Read => "read",
            Command::List => "list",
            Command::Cut => "cut",
        }
    }

    /// Returns the command with this word.
    pub(crate) fn named(word: &[u8]) -> Option<Command>
        ensures { result ≡ command_named word.now }
    {
        COMMANDS
            .iter()
            .copied()
            .find(|command| command.name().as_bytes() == word)
    }
}
