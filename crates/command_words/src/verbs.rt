//! The commands, and what their modules say of them.
ghost use Rattle.std.specs.Prelude.{◌≡◌, ◌∷◌, [], None, IfSome, map};
ghost use Rattle.command_words.specs.Verbs.{IsNoCommand, argument_of, arguments_of, verb_name};

use crate::parameters::Parameter;
use crate::{commands, texts};

/// The commands.
#[derive(Clone, Copy, PartialEq, Eq)]
pub enum Verb {
    Cat,
    Ls,
    Get,
    Find,
    Export,
    Sums,
    Inode,
    Super,
    Free,
    Block,
    Dump,
    Diff,
    Df,
    Map,
    Check,
    Icheck,
    Dcheck,
    Ncheck,
    Mkfs,
    Build,
    Put,
    Sync,
    Import,
    Rm,
    Rmdir,
    Mkdir,
    Ln,
    Mv,
    Chmod,
    Chown,
    Touch,
    Mknod,
    Boot,
    Salvage,
    Repair,
    Resize,
    Play,
    Migrate,
    Serve,
    Identify,
}

/// Calls the macro `$of` with these words in brackets, and all commands in the order in which the help lists them, each with its module.
macro_rules! list_commands {
    ($of:ident $($words:tt)*) => {
        $of! {
            [$($words)*]
            Cat cat,
            Ls ls,
            Get get,
            Find find,
            Export export,
            Sums sums,
            Inode inode,
            Super super_block,
            Free free,
            Block block,
            Dump dump,
            Diff diff,
            Df df,
            Map map,
            Check check,
            Icheck icheck,
            Dcheck dcheck,
            Ncheck ncheck,
            Mkfs mkfs,
            Build build,
            Put put,
            Sync sync,
            Import import,
            Rm rm,
            Rmdir rmdir,
            Mkdir mkdir,
            Ln ln,
            Mv mv,
            Chmod chmod,
            Chown chown,
            Touch touch,
            Mknod mknod,
            Boot boot,
            Salvage salvage,
            Repair repair,
            Resize resize,
            Play play,
            Migrate migrate,
            Serve serve,
            Identify identify,
        }
    };
}

pub(crate) use list_commands;

/// The commands of a list.
macro_rules! verbs_of {
    ([] $($verb:ident $module:ident,)*) => {
        &[$(Verb::$verb),*]
    };
}

/// The constant with this name in the module of a command.
macro_rules! constant_of {
    ([$this:tt $name:ident] $($verb:ident $module:ident,)*) => {
        match $this {
            $(Verb::$verb => commands::$module::$name,)*
        }
    };
}

/// All commands, in the order in which the help lists them.
pub static VERBS: &[Verb] = list_commands!(verbs_of);

impl Verb {
    /// Returns the name of the command.
    pub fn name(self) -> &'static str
        ensures { result.now ≡ verb_name self }
    {
        list_commands!(constant_of self NAME)
    }

    /// Returns the command with this name.
    pub fn of(name: &str) -> Option<Verb>
        ensures some { IfSome result (λ verb. name.now ≡ verb_name verb) }
        ensures none { result ≡ None → IsNoCommand name.now }
    {
        VERBS.iter().copied().find(|verb| verb.name() == name)
    }

    /// Returns the words that the command takes.
    pub fn parameters(self) -> &'static [Parameter]
        ensures { map argument_of result.now ≡ arguments_of self }
    {
        list_commands!(constant_of self WORDS)
    }

    /// Returns the usage of the command, if it has more than one form.
    pub fn usage(self) -> Option<&'static str> {
        match self {
            Verb::Build => Some(commands::build::USAGE),
            Verb::Get => Some(commands::get::USAGE),
            Verb::Put => Some(commands::put::USAGE),
            _ => None,
        }
    }

    /// Returns the text on the number of paths that the command takes before its time, for commands to which users often pass more.
    pub fn paths(self) -> Option<&'static str> {
        match self {
            Verb::Rm | Verb::Rmdir | Verb::Mkdir => Some(texts::ONE_PATH),
            Verb::Ln | Verb::Mv => Some(texts::TWO_PATHS),
            _ => None,
        }
    }

    /// Returns one line for the help, which describes the command.
    pub fn about(self) -> &'static str {
        list_commands!(constant_of self ABOUT)
    }

    /// Returns the rest of the command's help.
    pub fn more(self) -> &'static str {
        list_commands!(constant_of self MORE)
    }
}
