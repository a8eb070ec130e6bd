//! Builds the command line from the table of commands.
ghost use Rattle.std.specs.Prelude.{◌≡◌, None, IfOk};
ghost use Rattle.command_words.specs.Verbs.{argument_of, arguments_of, verb_name};
ghost use Rattle.command_words.specs.declared.parameters.Need.TheVariants as needs;
ghost use Rattle.command_line.specs.Words.{AreEditions, app, argument_rule, bare_program, explain_rule, named_shape, need_rule, program, rule, shape, unixvol_app, verb_shape, with_arguments};

use clap::{Arg, ArgAction, Command};
use command_words::parameters::EDITIONS;
use command_words::{Need, Parameter, VERBS, ValueName, Verb, WordKind, texts};
use std::alloc::{AllocError, Global};

/// A builder of the command line.
#[derive(Clone, Copy)]
pub(crate) struct Builder<'a> {
    /// The allocator.
    pub alloc: Global,
    /// The words for the edition of a volume on the command line.
    pub editions: &'a [&'a str],
}

impl<'a> Builder<'a> {
    /// Returns a builder with the words for an edition.
    pub(crate) fn new(alloc: Global) -> Builder<'a>
        ensures { AreEditions result.editions }
    {
        Builder {
            alloc,
            editions: EDITIONS.as_slice(),
        }
    }

    /// Builds the whole command line.
    pub(crate) fn command_line(self) -> Result<Command<'a>, AllocError>
        ensures { IfOk result (λ command. app command ≡ unixvol_app self.entry.editions) }
    {
        let mut whole = program(self.alloc)?;
        for verb in VERBS {
            whole = whole.subcommand(self.command(*verb)?)?;
        }
        Ok(whole)
    }

    /// Builds a command with its texts, its arguments, and the option of all commands.
    pub(crate) fn command(self, verb: Verb) -> Result<Command<'a>, AllocError>
        ensures { IfOk result (λ command. shape command ≡ verb_shape self.entry.editions verb) }
    {
        self.bare_command(verb)?.arg(explain_option(self.alloc))
    }

    /// Builds a command with its texts and the arguments of its table.
    fn bare_command(self, verb: Verb) -> Result<Command<'a>, AllocError>
        ensures { IfOk result (λ command. shape command ≡ with_arguments self.entry.editions (named_shape (verb_name verb)) (arguments_of verb)) }
    {
        let parameters = verb.parameters();
        let mut command = named(self.alloc, verb);
        for parameter in parameters {
            command = command.arg(self.argument(*parameter))?;
        }
        Ok(command)
    }

    /// Builds an argument of a command.
    fn argument(self, parameter: Parameter) -> Arg<'a>
        ensures { rule result ≡ argument_rule self.entry.editions (argument_of parameter) }
    {
        let argument = needed(self.alloc, parameter.name, parameter.help, parameter.need);
        match parameter.kind {
            WordKind::Edition => argument.value_parser(self.editions),
            _ => argument,
        }
    }
}

/// Builds the program with its texts and the option of all commands, but without commands.
fn program<'a>(alloc: Global) -> Result<Command<'a>, AllocError>
    ensures { IfOk result (λ command. app command ≡ program) }
{
    bare_program(alloc).arg(explain_option(alloc))
}

/// Builds the program with its texts, without commands or options.
fn bare_program<'a>(alloc: Global) -> Command<'a>
    ensures { app result ≡ bare_program }
{
    Command::new(alloc, "unixvol")
        .version("0.9.2")
        .about(texts::ABOUT)
        .after_help(texts::STATUSES)
        .subcommand_required(true)
        .arg_required_else_help(true)
}

/// Builds a command with its texts, which takes no words yet.
fn named<'a>(alloc: Global, verb: Verb) -> Command<'a>
    ensures { shape result ≡ named_shape (verb_name verb) }
{
    let name: &'a str = verb.name();
    let about: &'a str = verb.about();
    let more: &'a str = verb.more();
    let command = Command::new(alloc, name).about(about).after_help(more);
    match verb.usage() {
        Some(usage) => command.override_usage(usage),
        None => command,
    }
}

/// Builds the option that prints a second line to explain a fault.
#[tactic(auto, unfolding(crate::specs::Words::explain_rule))]
fn explain_option<'a>(alloc: Global) -> Arg<'a>
    ensures { rule result ≡ explain_rule }
{
    long_flag(alloc, "explain", texts::EXPLAIN)
}

/// Builds an argument with this name and number of words.
fn needed<'a>(alloc: Global, name: &'a str, help: &'a str, need: Need) -> Arg<'a>
    ensures { rule result ≡ need_rule name.entry.now need }
{
    match need {
        Need::Once => required(alloc, name, help),
        Need::Maybe => optional(alloc, name, help),
        Need::Several => several(alloc, name, help),
        Need::Any => any(alloc, name, help),
        Need::Flag(letter) => flag(alloc, name, letter, help),
        Need::Value(letter, value) => valued(alloc, name, letter, value, help),
    }
}

/// Builds an argument for a required word.
#[tactic(auto, unfolding(crate::specs::Words::rule, crate::specs::Words::need_rule))]
fn required<'a>(alloc: Global, name: &'a str, help: &'a str) -> Arg<'a>
    ensures { rule result ≡ need_rule name.entry.now needs.Once }
{
    Arg::new(alloc, name).required(true).help(help)
}

/// Builds an argument for a word that may be left out.
#[tactic(auto, unfolding(crate::specs::Words::rule, crate::specs::Words::need_rule))]
fn optional<'a>(alloc: Global, name: &'a str, help: &'a str) -> Arg<'a>
    ensures { rule result ≡ need_rule name.entry.now needs.Maybe }
{
    Arg::new(alloc, name).help(help)
}

/// Builds an argument for one word or more.
fn several<'a>(alloc: Global, name: &'a str, help: &'a str) -> Arg<'a>
    ensures { rule result ≡ need_rule name.entry.now needs.Several }
{
    required(alloc, name, help).num_args(1..)
}

/// Builds an argument for any number of words.
fn any<'a>(alloc: Global, name: &'a str, help: &'a str) -> Arg<'a>
    ensures { rule result ≡ need_rule name.entry.now needs.Any }
{
    optional(alloc, name, help).num_args(1..)
}

/// Builds an option with a value, with or without a letter.
#[tactic(auto, unfolding(crate::specs::Words::rule, crate::specs::Words::need_rule))]
fn valued<'a>(
    alloc: Global,
    name: &'a str,
    letter: Option<char>,
    value: ValueName,
    help: &'a str,
) -> Arg<'a>
    ensures { rule result ≡ need_rule name.entry.now (needs.Value letter value) }
{
    let value_name: &'a str = value.text();
    let option = Arg::new(alloc, name)
        .long(name)
        .value_name(value_name)
        .help(help);
    match letter {
        Some(letter) => option.short(letter),
        None => option,
    }
}

/// Builds an option, with or without a letter.
#[tactic(auto, unfolding(crate::specs::Words::rule, crate::specs::Words::need_rule))]
fn flag<'a>(alloc: Global, name: &'a str, letter: Option<char>, help: &'a str) -> Arg<'a>
    ensures { rule result ≡ need_rule name.entry.now (needs.Flag letter) }
{
    let option = long_flag(alloc, name, help);
    match letter {
        Some(letter) => option.short(letter),
        None => option,
    }
}

/// Builds an option without a letter.
#[tactic(auto, unfolding(crate::specs::Words::rule, crate::specs::Words::need_rule))]
fn long_flag<'a>(alloc: Global, name: &'a str, help: &'a str) -> Arg<'a>
    ensures { rule result ≡ need_rule name.entry.now (needs.Flag None) }
{
    Arg::new(alloc, name)
        .long(name)
        .action(ArgAction::SetTrue)
        .help(help)
}
