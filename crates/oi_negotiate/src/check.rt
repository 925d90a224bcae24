ghost use Rattle.std.specs.Prelude.{◌≡◌, Some, None, MatchOption};
ghost use Rattle.oi_negotiate.specs.Negotiated.{is_value, stands_in, is_taken, refused_key};

use crate::keys::{Key, key_named};
use crate::rows::row_of_number;
use crate::values::{is_silent, number, word};
use oi_text::Pair;

/// The key of the first pair that is refused: a value outside its range, or a second answer to a key.
pub fn first_refused(pairs: &[Pair]) -> Option<&[u8]>
    ensures { MatchOption result (refused_key pairs.now ≡ None) (λ key. refused_key pairs.now ≡ Some key.now) }
{
    for at in 0..pairs.len() {
        let pair = &pairs[at];
        if !is_taken(&pairs[..at], pair) {
            return Some(pair.key.as_slice());
        }
    }
    None
}

fn is_taken(before: &[Pair], pair: &Pair) -> bool
    ensures { result ≡ is_taken before.now pair.now }
{
    match key_named(pair.key.as_slice()) {
        Some(key) => {
            let value = pair.value.as_slice();
            (is_silent(value) || is_value(key, value)) && !stands_in(before, pair.key.as_slice())
        }
        None => true,
    }
}

fn is_value(key: Key, text: &[u8]) -> bool
    ensures { result ≡ is_value key text.now }
{
    match key {
        Key::Word(_) => word(text).is_some(),
        Key::Number(key) => {
            let row = row_of_number(key);
            number(text, row.low, row.high).is_some()
        }
        Key::HeaderDigest => text == b"None".as_slice(),
        Key::DataDigest => text == b"None".as_slice(),
    }
}

fn stands_in(pairs: &[Pair], key: &[u8]) -> bool
    ensures { result ≡ stands_in pairs.now key.now }
{
    pairs.iter().any(|pair| pair.key.as_slice() == key)
}
