//! Commands and their arguments as data, and what `clap` makes of them.
ghost use Rattle.std.specs.Prelude.{◌≡◌, false, IfOk};
ghost use Rattle.clap.specs.Words.{app_of, rule_of};
ghost use Rattle.clap.specs.declared.builder.command.Command.TheViews.{out-Command as fields_of};
ghost use Rattle.command_line.specs.Arguments.{flag_rule};
ghost use Rattle.command_line.specs.Definition.{app_in, rule_in, valued_rule};

use clap::builder::ValueParser;
use clap::{Arg, ArgAction, Command};
use std::alloc::{AllocError, Global};

/// A command: its name, its arguments, and what help says of it.
#[derive(Clone, Copy)]
pub struct Definition {
    pub name: &'static str,
    pub about: &'static str,
    /// The end of its help.
    pub example: &'static str,
    pub arguments: &'static [Argument],
}

/// An argument of a command, with its help.
#[derive(Clone, Copy)]
pub enum Argument {
    /// A required file name, which has this name in help.
    File(&'static str, &'static str),
    /// An optional option of this name, without a value.
    Flag(&'static str, &'static str),
    /// The same, which this letter stands for, too.
    ShortFlag(char, &'static str, &'static str),
    /// An option with a value.
    Valued(Valued),
    /// The same, which this letter stands for, too.
    ShortValued(char, Valued),
}

/// An option with a value.
#[derive(Clone, Copy)]
pub struct Valued {
    pub name: &'static str,
    /// What help calls the value.
    pub value: &'static str,
    pub values: Values,
    pub is_required: bool,
    pub help: &'static str,
}

/// The values of an option.
#[derive(Clone, Copy)]
pub enum Values {
    Texts,
    /// The numbers of 32 bits from the first to the second.
    Numbers(u32, u32),
    /// The numbers of 64 bits from the first to the second.
    LargeNumbers(u64, u64),
}

impl Definition {
    /// The command, for `clap`.
    pub fn command<'a>(&self, alloc: Global) -> Result<Command<'a>, AllocError>
        ensures app { IfOk result (λ command. app_of command ≡ app_in self.now) }
        ensures local { IfOk result (λ command. (fields_of command).has_globals ≡ false) }
    {
        let mut command = Command::new(alloc, self.name)
            .about(self.about)
            .after_help(self.example);
        for argument in self.arguments {
            command = command.arg(argument.arg(alloc))?;
        }
        Ok(command)
    }
}

impl Argument {
    /// The argument, for `clap`.
    fn arg<'a>(&self, alloc: Global) -> Arg<'a>
        ensures rule { rule_of result ≡ rule_in self.now }
        ensures local { result.global ≡ false }
    {
        match *self {
            Argument::File(name, help) => Arg::new(alloc, name).help(help).required(true),
            Argument::Flag(name, help) => flag(alloc, name, help),
            Argument::ShortFlag(letter, name, help) => flag(alloc, name, help).short(letter),
            Argument::Valued(valued) => valued.arg(alloc),
            Argument::ShortValued(letter, valued) => valued.arg(alloc).short(letter),
        }
    }
}

/// The option of this name, without a value.
fn flag<'a>(alloc: Global, name: &'static str, help: &'static str) -> Arg<'a>
    ensures rule { rule_of result ≡ flag_rule name.now }
    ensures local { result.global ≡ false }
{
    Arg::new(alloc, name)
        .long(name)
        .action(ArgAction::SetTrue)
        .help(help)
}

impl Valued {
    /// The option, for `clap`.
    fn arg<'a>(&self, alloc: Global) -> Arg<'a>
        ensures rule { rule_of result ≡ valued_rule self.now }
        ensures local { result.global ≡ false }
    {
        let arg = Arg::new(alloc, self.name)
            .long(self.name)
            .value_name(self.value)
            .required(self.is_required)
            .help(self.help);
        match self.values {
            Values::Texts => arg,
            Values::Numbers(least, most) => {
                arg.value_parser(ValueParser::Signed(least as i64, most as i64))
            }
            Values::LargeNumbers(least, most) => {
                arg.value_parser(ValueParser::Unsigned(least, most))
            }
        }
    }
}
