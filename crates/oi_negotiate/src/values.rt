ghost use Rattle.std.specs.Prelude.{◌≡◌, ◌≤◌, IfSome, ◌-◌, ◌^◌};
ghost use Rattle.oi_base.specs.Extended.{in_range};
ghost use Rattle.oi_negotiate.specs.Values.{is_silent, word_in, digit_in, behind, bind, value_behind, value_in, number_in, number_within};

/// The base in which the digits of a number are written.
#[derive(Clone, Copy, Debug, PartialEq, Eq)]
pub enum Base {
    Decimal,
    Hex,
}

/// Whether the other side does not settle the key (RFC 7143, section 6.2).
pub fn is_silent(text: &[u8]) -> bool
    ensures { result ≡ is_silent text.now }
{
    text == b"Irrelevant".as_slice() || text == b"NotUnderstood".as_slice()
}

pub fn word(text: &[u8]) -> Option<bool>
    ensures { result ≡ word_in text.now }
{
    if text == b"Yes".as_slice() {
        Some(true)
    } else if text == b"No".as_slice() {
        Some(false)
    } else {
        None
    }
}

/// The number of a text, in decimal or in hex behind `0x`, where it is from `low` to `high` (RFC 7143, section 6.1).
pub fn number(text: &[u8], low: u32, high: u32) -> Option<u32>
    ensures value { result ≡ number_within low high text.now }
    ensures high { IfSome result (λ n. n ≤ high) }
{
    match short_number(text) {
        Some(value) => in_range(value, low, high),
        None => None,
    }
}

fn in_range(value: u32, low: u32, high: u32) -> Option<u32>
    ensures value { result ≡ in_range low high value }
    ensures high { IfSome result (λ n. n ≤ high) }
{
    if low <= value && value <= high {
        Some(value)
    } else {
        None
    }
}

// The number of the text, where it is below 2^32.
fn short_number(text: &[u8]) -> Option<u32>
    ensures { result ≡ bind (number_in text.now) (in_range 0 (2 ^ 32 - 1)) }
{
    match text {
        [] => None,
        [b'0', b'x' | b'X', digits @ ..] => value(Base::Hex, digits),
        digits => value(Base::Decimal, digits),
    }
}

fn value(base: Base, digits: &[u8]) -> Option<u32>
    ensures { result ≡ bind (value_in base digits.now) (in_range 0 (2 ^ 32 - 1)) }
{
    if digits.is_empty() {
        None
    } else {
        digits_value(base, digits)
    }
}

fn digits_value(base: Base, digits: &[u8]) -> Option<u32>
    ensures { result ≡ bind (value_behind base 0 digits.now) (in_range 0 (2 ^ 32 - 1)) }
{
    let mut value = 0;
    for c in digits {
        match digit(base, *c) {
            Some(digit) => match longer(base, value, digit) {
                Some(more) => value = more,
                None => return None,
            },
            None => return None,
        }
    }
    Some(value)
}

fn digit(base: Base, c: u8) -> Option<u8>
    ensures { result ≡ digit_in base c }
{
    match base {
        Base::Decimal if b'0' <= c && c <= b'9' => Some(c - b'0'),
        Base::Decimal => None,
        Base::Hex if b'0' <= c && c <= b'9' => Some(c - b'0'),
        Base::Hex if b'a' <= c && c <= b'f' => Some(c - 87),
        Base::Hex if b'A' <= c && c <= b'F' => Some(c - 55),
        Base::Hex => None,
    }
}

// The number with one digit more; a number that is too long stays so with every further digit.
fn longer(base: Base, value: u32, digit: u8) -> Option<u32>
    ensures { result ≡ in_range 0 (2 ^ 32 - 1) (behind base value digit) }
{
    let radix: u64 = match base {
        Base::Decimal => 10,
        Base::Hex => 16,
    };
    let more = radix * value as u64 + digit as u64;
    if more <= 0xffff_ffff {
        Some(more as u32)
    } else {
        None
    }
}
