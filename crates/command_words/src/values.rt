ghost use Rattle.std.specs.Prelude.{◌≡◌, ◌≢◌, IfOk, Some, None, Err, map, string_bytes};
ghost use Rattle.clap.specs.Words.{app_of, kind_of};
ghost use Rattle.command_words.specs.App.{app_for, said};
ghost use Rattle.command_words.specs.Parsed.{rows, parsed};

use crate::argument::{Argument, clap_argument};
use crate::numbers::number_from;
use crate::uuids::uuid_from;
use clap::error::ErrorKind;
use clap::{ArgMatches, Command, Error};
use std::alloc::{AllocError, Global};
use uuid::Uuid;

/// Why words are refused.
#[derive(Clone, Copy, Debug, PartialEq, Eq)]
pub enum WordsFault {
    /// The words aren't in the command's grammar.
    Usage,
    /// Memory ran out.
    OutOfMemory,
}

/// The values of a command's arguments.
#[derive(Drop)]
pub struct Parsed<'a> {
    matches: ArgMatches<'a>,
}

/// Returns the command of clap with these arguments.
fn described<'a>(alloc: Global, arguments: &[Argument]) -> Result<Command<'a>, AllocError>
    ensures { IfOk result (λ command. app_of command ≡ app_for (map said arguments.now)) }
{
    let mut command = Command::new(alloc, "command")
        .no_binary_name(true)
        .disable_help_flag(true)
        .disable_version_flag(true);
    for argument in arguments {
        command = command.arg(clap_argument(alloc, *argument))?;
    }
    Ok(command)
}

/// Converts an error of clap.
fn fault_from(error: &Error) -> WordsFault
    ensures memory { kind_of error.now ≡ ErrorKind.OutOfMemory → result ≡ WordsFault.OutOfMemory }
    ensures usage { kind_of error.now ≢ ErrorKind.OutOfMemory → result ≡ WordsFault.Usage }
{
    match error.kind() {
        ErrorKind::OutOfMemory => WordsFault::OutOfMemory,
        _ => WordsFault::Usage,
    }
}

/// Parses the words after a command's name by its arguments.
///
/// It returns `Usage` only if clap's definition has a fault for the words (`parsed` in
/// `specs/Parsed.antt`): an unknown option, an option twice or without its value, too many words, a
/// missing required argument, or a word that asks for help. `Ok` means that there is none.
/// Otherwise memory ran out.
pub fn parse<'a>(
    alloc: Global,
    arguments: &[Argument],
    words: &'a [String],
) -> Result<Parsed<'a>, WordsFault>
    ensures taken { IfOk result (λ values. parsed (map said arguments.now) (map string_bytes words.now) ≡ Some (rows values)) }
    ensures usage { result ≡ Err WordsFault.Usage → parsed (map said arguments.now) (map string_bytes words.now) ≡ None }
{
    let Ok(command) = described(alloc, arguments) else {
        return Err(WordsFault::OutOfMemory);
    };
    match command.try_get_matches_from(words) {
        Ok(matches) => Ok(Parsed { matches }),
        Err(error) => Err(fault_from(&error)),
    }
}

impl<'a> Parsed<'a> {
    ghost use Rattle.std.specs.Prelude.{◌≡◌, option_map};
    ghost use Rattle.clap.specs.Words.{first_of};
    ghost use Rattle.command_words.specs.Parsed.{rows, number_in, optional_number_in, uuid_in, flag_in};

    /// Returns the value of the argument with this name, `None` if it was left out. A flag has the
    /// value `true` or `false`.
    pub fn value(&self, name: &str) -> Option<&'a str>
        ensures { option_map (λ text. text.now) result ≡ first_of name.now (rows self.now) }
    {
        self.matches.get_str(name)
    }

    /// Returns the number from `least` to `most` in the value of a required argument. It returns
    /// `None` if the value isn't such a number, or if there is none.
    pub fn number(&self, name: &str, least: u64, most: u64) -> Option<u64>
        ensures { result ≡ number_in least most name.now (rows self.now) }
    {
        number_from(self.value(name)?, least, most)
    }

    /// Returns the number from `least` to `most` in the value of an optional argument: `Some(None)`
    /// if it was left out, `None` if its value isn't such a number.
    pub fn optional_number(&self, name: &str, least: u64, most: u64) -> Option<Option<u64>>
        ensures { result ≡ optional_number_in least most name.now (rows self.now) }
    {
        match self.value(name) {
            Some(word) => Some(Some(number_from(word, least, most)?)),
            None => Some(None),
        }
    }

    /// Returns the UUID in the value of a required argument, in any form that [`uuid_from`] reads.
    /// It returns `None` if the value isn't a UUID, or if there is none.
    pub fn uuid(&self, name: &str) -> Option<Uuid>
        ensures { result ≡ uuid_in name.now (rows self.now) }
    {
        uuid_from(self.value(name)?)
    }

    /// Returns whether a flag was given.
    pub fn flag(&self, name: &str) -> bool
        ensures { result ≡ flag_in name.now (rows self.now) }
    {
        match self.value(name) {
            Some(value) => value == "true",
            None => false,
        }
    }
}
