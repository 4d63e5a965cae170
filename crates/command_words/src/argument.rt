//! One argument of a command, and its description for clap.
ghost use Rattle.std.specs.Prelude.{◌≡◌, false};
ghost use Rattle.clap.specs.Words.{rule_of};
ghost use Rattle.command_words.specs.App.{rule_for, said};

use clap::{Arg, ArgAction};
use std::alloc::Global;

/// How an argument is given.
#[derive(Clone, Copy, Debug, PartialEq, Eq)]
pub enum Form {
    /// A required value at its place among the words that belong to no option.
    Place,
    /// An optional value after `--NAME` or `--NAME=`.
    Optional,
    /// A required value after `--NAME` or `--NAME=`.
    Required,
    /// The word `--NAME`, without a value; it is optional.
    Flag,
}

/// One argument of a command.
#[derive(Clone, Copy, Debug)]
pub struct Argument {
    /// Its name: that of the option, without hyphens, and the key of its value.
    pub name: &'static str,
    /// How it is given.
    pub form: Form,
}

/// Returns the argument for clap. Its id is the argument's name.
pub fn clap_argument<'a>(alloc: Global, argument: Argument) -> Arg<'a>
    ensures rule { rule_of result ≡ rule_for (said argument) }
    ensures local { result.global ≡ false }
{
    let arg = Arg::new(alloc, argument.name);
    match argument.form {
        Form::Place => arg.required(true).action(ArgAction::Set),
        Form::Optional => arg.long(argument.name).action(ArgAction::Set),
        Form::Required => arg
            .long(argument.name)
            .required(true)
            .action(ArgAction::Set),
        Form::Flag => arg.long(argument.name).action(ArgAction::SetTrue),
    }
}
