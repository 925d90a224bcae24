ghost use Rattle.std.specs.Prelude.{◌≡◌, ◌<◌, ◌||◌, ◌∷◌, ◌++◌, [], IfNone, IfSome, OnErr, OnOk, length, map, true};
ghost use Rattle.std.specs.String.{string_bytes};
ghost use Rattle.oi_words.specs.Tool.{form_of, letters};
ghost use Rattle.oi_words.specs.Words.{bad, is_flag, is_one_of, is_option, item, letters_front};

use oi_base::NoMemory;
use std::alloc::Global;

/// A letter of a word, and what follows it there.
#[derive(Clone, Copy)]
pub struct Letter<'a> {
    pub letter: u8,
    pub rest: &'a str,
}

/// Whether the letter is that of an option, which takes a value.
pub fn is_option(letter: u8) -> bool
    ensures { result ≡ is_option letter }
{
    matches!(
        letter,
        b'm' | b't' | b'p' | b'T' | b'I' | b'o' | b'n' | b'v'
    )
}

/// Whether the letter is that of a flag.
pub fn is_flag(letter: u8) -> bool
    ensures { result ≡ is_flag letter }
{
    matches!(letter, b'l' | b'u')
}

// Whether the letter is that of an option or a flag. All of them are ASCII.
fn is_letter(letter: u8) -> bool
    ensures value { result ≡ (is_option letter || is_flag letter) }
    ensures ascii { result ≡ true → letter < 128 }
{
    is_option(letter) || is_flag(letter)
}

/// The first letter of a text; none where it is no letter of an option or a flag.
pub fn first_letter(text: &str) -> Option<Letter<'_>>
    requires { 0 < length text.now }
    ensures some { IfSome result (λ l. text.now ≡ l.letter ∷ l.rest.now) }
    ensures none { IfNone result (letters_front text.now ≡ bad) }
{
    match text.as_bytes().first() {
        Some(letter) if is_letter(*letter) => Some(Letter {
            letter: *letter,
            rest: &text[1..],
        }),
        _ => None,
    }
}

// The letter as a text.
fn name_of(letter: u8) -> &'static str
    requires { is_one_of letters letter ≡ true }
    ensures { result.now ≡ letter ∷ [] }
{
    match letter {
        b'm' => "m",
        b't' => "t",
        b'p' => "p",
        b'T' => "T",
        b'I' => "I",
        b'o' => "o",
        b'n' => "n",
        b'v' => "v",
        b'l' => "l",
        b'u' => "u",
        _ => unreachable!(),
    }
}

/// Appends the form of an option with its value, or of a flag.
pub fn push_form(
    alloc: Global,
    letter: u8,
    value: &str,
    forms: &mut Vec<String>,
) -> Result<(), NoMemory>
    requires { is_one_of letters letter ≡ true }
    ensures { OnOk result (map (λ s. string_bytes s) forms.new.items ≡ map (λ s. string_bytes s) forms.old.items ++ form_of (item letter value.now) ∷ []) }
{
    let mut form = String::from_str(alloc, "--")?;
    form.push_str(name_of(letter))?;
    form.push_str("=")?;
    form.push_str(value)?;
    forms.push(form)?;
    Ok(())
}
