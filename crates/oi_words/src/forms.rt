ghost use Rattle.std.specs.Prelude.{◌≡◌, ◌<◌, ◌++◌, ◌∷◌, [], ℕ, false, true, List, Option, Some, None, IfErr, IfOk, IfSome, length, map, if◌then◌else◌};
ghost use Rattle.std.specs.String.{string_bytes};
ghost use Rattle.oi_words.specs.Parses.{AreForms, IsStep, IsWordRead, MayWait};
ghost use Rattle.oi_words.specs.Tool.{letters};
ghost use Rattle.oi_words.specs.Words.{Item, bad, is_one_of, is_option, items_of, letters_front, valued, word_front};
ghost use Rattle.oi_words.specs.declared.fault.WordsFault.TheVariants.{Invalid};

use crate::fault::WordsFault;
use crate::letters::{first_letter, is_flag, is_option, push_form};
use std::alloc::Global;

/// Brings the words into one form for each option and flag, `--c=VALUE`.
pub fn read_forms(alloc: Global, words: &[String]) -> Result<Vec<String>, WordsFault>
    ensures ok { IfOk result (λ f. (items : List Item) × (items_of (map (λ s. string_bytes s) words.now) ≡ Some items) × AreForms items (map (λ s. string_bytes s) f.items)) }
    ensures bad { IfErr result (λ e. e ≡ Invalid → items_of (map (λ s. string_bytes s) words.now) ≡ None) }
{
    let mut forms = Vec::new(alloc);
    let mut waiting = None;
    for word in words {
        waiting = match step(alloc, waiting, word.as_str(), &mut forms) {
            Ok(next) => next,
            Err(fault) => return Err(fault),
        };
    }
    match waiting {
        Some(_) => Err(WordsFault::Invalid),
        None => Ok(forms),
    }
}

// Takes a word in, for which an option may wait; answers which option waits behind it.
fn step(
    alloc: Global,
    waiting: Option<u8>,
    word: &str,
    forms: &mut Vec<String>,
) -> Result<Option<u8>, WordsFault>
    requires { MayWait waiting }
    ensures { IsStep waiting word.now result (map (λ s. string_bytes s) forms.old.items) (map (λ s. string_bytes s) forms.new.items) }
{
    match waiting {
        Some(letter) => match push_form(alloc, letter, word, forms) {
            Ok(()) => Ok(None),
            Err(_) => Err(WordsFault::Memory),
        },
        None => read_word(alloc, word, forms),
    }
}

// Reads a word with a hyphen and letters.
fn read_word(alloc: Global, word: &str, forms: &mut Vec<String>) -> Result<Option<u8>, WordsFault>
    ensures { IsWordRead (word_front word.now) result (map (λ s. string_bytes s) forms.old.items) (map (λ s. string_bytes s) forms.new.items) }
{
    match word.strip_prefix("-") {
        Some(letters) if !letters.is_empty() => read_letters(alloc, letters, forms),
        _ => Err(WordsFault::Invalid),
    }
}

// Reads the letters of a word.
fn read_letters(
    alloc: Global,
    text: &str,
    forms: &mut Vec<String>,
) -> Result<Option<u8>, WordsFault>
    ensures { IsWordRead (letters_front text.now) result (map (λ s. string_bytes s) forms.old.items) (map (λ s. string_bytes s) forms.new.items) }
{
    let mut rest = text;
    while !rest.is_empty() {
        let first = match first_letter(rest) {
            Some(first) => first,
            None => return Err(WordsFault::Invalid),
        };
        if !is_flag(first.letter) {
            return read_option(alloc, first.letter, first.rest, forms);
        }
        let Ok(()) = push_form(alloc, first.letter, "", forms) else {
            return Err(WordsFault::Memory);
        };
        rest = first.rest;
    }
    Ok(None)
}

// Reads an option, with what follows its letter in the word.
fn read_option(
    alloc: Global,
    letter: u8,
    rest: &str,
    forms: &mut Vec<String>,
) -> Result<Option<u8>, WordsFault>
    ensures { IsWordRead (if is_option letter then valued letter rest.now else bad) result (map (λ s. string_bytes s) forms.old.items) (map (λ s. string_bytes s) forms.new.items) }
{
    if !is_option(letter) {
        return Err(WordsFault::Invalid);
    }
    if rest.is_empty() {
        return Ok(Some(letter));
    }
    match push_form(alloc, letter, rest, forms) {
        Ok(()) => Ok(None),
        Err(_) => Err(WordsFault::Memory),
    }
}
