ghost use Rattle.std.specs.Prelude.{◌≡◌, ◌++◌, ◌≤◌, ◌<◌, ◌^◌, ◌↔◌, ℕ, IsTrue, OnOk, OnErr, MatchOption, take};
ghost use Rattle.std.specs.Fmt.{decimal};
ghost use Rattle.oi_base.specs.Decimal.{IsNumber, IsNumberOf};
ghost use Rattle.oi_base.specs.Extended.{extended};
ghost use Rattle.oi_base.specs.Fronts.{IsPlace};

use crate::memory::NoMemory;
use itoa::Buffer;

/// The decimal number from `low` to `high` that the text is: no sign, no leading zeros. None where it is none.
pub fn read_number(text: &[u8], low: u64, high: u64) -> Option<u64>
    ensures { MatchOption result ((n : ℕ) → low ≤ n → n ≤ high → IsNumberOf text.now n → ⊥)
        (λ n. (low ≤ n) × (n ≤ high) × IsNumberOf text.now n) }
{
    let n = parsed(text)?;
    if n < low || high < n {
        return None;
    }
    if is_written(text, n) { Some(n) } else { None }
}

// The number that std reads: it takes a plus and leading zeros besides.
fn parsed(text: &[u8]) -> Option<u64>
    ensures { MatchOption result ((n : ℕ) → n < 2 ^ 64 → IsNumberOf text.now n → ⊥)
        (λ m. (n : ℕ) → n < 2 ^ 64 → IsNumberOf text.now n → m ≡ n) }
{
    match str::from_utf8(text) {
        Ok(digits) => match digits.parse::<u64>() {
            Ok(n) => Some(n),
            Err(_) => None,
        },
        Err(_) => None,
    }
}

fn is_written(text: &[u8], n: u64) -> bool
    ensures { IsTrue result ↔ IsNumberOf text.now n }
{
    let mut buffer = Buffer::new();
    let written = buffer.format(n).as_bytes();
    text == written
}

/// Appends a number in decimal.
pub fn write_number(n: u64, out: &mut Vec<u8>) -> Result<(), NoMemory>
    ensures ok { OnOk result (out.new.items ≡ out.old.items ++ decimal n) }
    ensures err { OnErr result (out.new.items ≡ out.old.items) }
{
    let mut buffer = Buffer::new();
    out.extend_from_slice(buffer.format(n).as_bytes())?;
    Ok(())
}

/// Where a text leaves the decimal numbers from `low` to `high`: the length of its longest front with which one begins.
/// A front that is not empty is then such a number itself.
pub fn number_place(text: &[u8], low: u64, high: u64) -> usize
    requires low { low ≤ 1 }
    requires some { low ≤ high }
    ensures place { IsPlace (IsNumber low high) text.now result }
    ensures number { 0 < result → IsNumber low high (take result text.now) }
{
    let mut value = None;
    for at in 0..text.len() {
        match with_digit(value, text[at], low, high) {
            Some(more) => value = Some(more),
            None => return at,
        }
    }
    text.len()
}

// The number of the digits so far and one more; None where no number in the range begins so.
fn with_digit(value: Option<u64>, digit: u8, low: u64, high: u64) -> Option<u64>
    ensures { result ≡ extended low high value digit }
{
    if digit < b'0' || b'9' < digit {
        return None;
    }
    let digit = (digit - b'0') as u64;
    match value {
        None if digit < low || high < digit => None,
        None => Some(digit),
        Some(0) => None,
        Some(_) if high < digit => None,
        Some(front) if (high - digit) / 10 < front => None,
        Some(front) => Some(10 * front + digit),
    }
}
