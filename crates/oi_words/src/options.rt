ghost use Rattle.std.specs.Prelude.{◌≡◌, ◌∷◌, [], ℕ, List, IfOk, map};
ghost use Rattle.std.specs.String.{string_bytes};
ghost use Rattle.clap.specs.Matches.{found_of, first_value};
ghost use Rattle.oi_words.specs.Options.{IsReading, fields_of, options_of, value_of};
ghost use Rattle.oi_words.specs.Words.{Item};

use crate::fault::WordsFault;
use crate::forms::read_forms;
use crate::parse::parse;
use clap::ArgMatches;
use oi_base::{Label, NoMemory};
use std::alloc::Global;

/// What the options of iscsiadm gave, by their letters. Nothing is said of the values.
#[derive(Debug, PartialEq, Eq, Drop)]
pub struct Options {
    /// `-m`
    pub mode: Option<Label>,
    /// `-t`
    pub discovery: Option<Label>,
    /// `-p`
    pub portal: Option<Label>,
    /// `-T`
    pub target: Option<Label>,
    /// `-I`
    pub iface: Option<Label>,
    /// `-o`
    pub operation: Option<Label>,
    /// `-n`
    pub name: Option<Label>,
    /// `-v`
    pub value: Option<Label>,
    /// `-l`
    pub login: bool,
    /// `-u`
    pub logout: bool,
}

/// Reads the words behind the tool's name. Options and flags stand in any order, each at most once. A value is the rest of
/// its word behind the letter, or else the next word, whatever that begins with. Flags may stand before other letters in
/// one word.
pub fn read_options(alloc: Global, words: &[String]) -> Result<Options, WordsFault>
    ensures { IsReading (options_of (map (λ s. string_bytes s) words.now)) result }
{
    let forms = match read_forms(alloc, words) {
        Ok(forms) => forms,
        Err(fault) => return Err(fault),
    };
    let matches = match parse(alloc, &forms) {
        Ok(matches) => matches,
        Err(fault) => return Err(fault),
    };
    match collect(alloc, &matches) {
        Ok(options) => Ok(options),
        Err(_) => Err(WordsFault::Memory),
    }
}

// The options that the parser found.
fn collect(alloc: Global, matches: &ArgMatches<'_>) -> Result<Options, NoMemory>
    ensures { (items : List Item) → ((c : ℕ) → first_value (found_of matches.now) (c ∷ []) ≡ value_of c items) → IfOk result (λ o. o ≡ fields_of items) }
{
    Ok(Options {
        mode: value(alloc, matches, "m")?,
        discovery: value(alloc, matches, "t")?,
        portal: value(alloc, matches, "p")?,
        target: value(alloc, matches, "T")?,
        iface: value(alloc, matches, "I")?,
        operation: value(alloc, matches, "o")?,
        name: value(alloc, matches, "n")?,
        value: value(alloc, matches, "v")?,
        login: matches.get_str("l").is_some(),
        logout: matches.get_str("u").is_some(),
    })
}

// The value of an option.
fn value(alloc: Global, matches: &ArgMatches<'_>, name: &str) -> Result<Option<Label>, NoMemory>
    ensures { IfOk result (λ v. v ≡ first_value (found_of matches.now) name.now) }
{
    match matches.get_str(name) {
        Some(text) => Ok(Some(Label::from_slice(alloc, text.as_bytes())?)),
        None => Ok(None),
    }
}
