ghost use Rattle.std.specs.Prelude.{◌≡◌, List, IfOk, map};
ghost use Rattle.std.specs.String.{string_bytes};
ghost use Rattle.clap.specs.Simple.{app_of, with_rule};
ghost use Rattle.oi_words.specs.Parses.{AreForms, IsParsed};
ghost use Rattle.oi_words.specs.Tool.{bare, option_rule, tool, with_options};
ghost use Rattle.oi_words.specs.Words.{Item};

use crate::fault::WordsFault;
use clap::error::ErrorKind;
use clap::{Arg, ArgMatches, Command};
use std::alloc::{AllocError, Global};

static NAMES: [&str; 10] = ["m", "t", "p", "T", "I", "o", "n", "v", "l", "u"];

/// Parses forms. No option may stand twice.
pub fn parse<'a>(alloc: Global, forms: &'a [String]) -> Result<ArgMatches<'a>, WordsFault>
    ensures { (items : List Item) → AreForms items (map (λ s. string_bytes s) forms.entry.now) → IsParsed items result }
{
    let Ok(command) = command(alloc) else {
        return Err(WordsFault::Memory);
    };
    match command.try_get_matches_from(forms) {
        Ok(matches) => Ok(matches),
        Err(error) => match error.kind() {
            ErrorKind::OutOfMemory => Err(WordsFault::Memory),
            _ => Err(WordsFault::Invalid),
        },
    }
}

// The tool's command.
fn command<'a>(alloc: Global) -> Result<Command<'a>, AllocError>
    ensures { IfOk result (λ c. app_of c ≡ tool) }
{
    with_options(alloc, bare_command(alloc), &NAMES)
}

// The command with these options behind its own.
fn with_options<'a>(
    alloc: Global,
    command: Command<'a>,
    names: &'a [&'a str],
) -> Result<Command<'a>, AllocError>
    ensures { IfOk result (λ c. app_of c ≡ with_options (app_of command.entry) (map (λ s. s.now) names.entry.now)) }
{
    let mut whole = command;
    for name in names {
        whole = with_option(alloc, whole, *name)?;
    }
    Ok(whole)
}

fn bare_command<'a>(alloc: Global) -> Command<'a>
    ensures { app_of result ≡ bare }
{
    Command::new(alloc, "iscsiadm")
        .no_binary_name(true)
        .disable_help_flag(true)
}

// The command with one more option.
fn with_option<'a>(
    alloc: Global,
    command: Command<'a>,
    name: &'a str,
) -> Result<Command<'a>, AllocError>
    ensures { IfOk result (λ c. app_of c ≡ with_rule (app_of command.entry) (option_rule name.entry.now)) }
{
    command.arg(Arg::new(alloc, name).long(name))
}
