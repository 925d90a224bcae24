ghost use Rattle.std.specs.Prelude.{◌≡◌, ◌≤◌, IfSome};
ghost use Rattle.oi_script.specs.Numbers.{byte_in, is_text, key_in, number_in};

use oi_base::read_number;

/// The decimal number from `low` to `high` that the text is.
pub fn number(text: &[u8], low: u64, high: u64) -> Option<u64>
    ensures value { result ≡ number_in low high text.now }
    ensures range { IfSome result (λ n. (low ≤ n) × (n ≤ high)) }
{
    read_number(text, low, high)
}

/// The byte that two hex digits are.
pub fn hex_byte(text: &[u8]) -> Option<u8>
    ensures { result ≡ byte_in text.now }
{
    let mut bytes = [0u8; 1];
    match hex::decode_to_slice(text, &mut bytes) {
        Ok(()) => Some(bytes[0]),
        Err(_) => None,
    }
}

/// The key of a reservation that sixteen hex digits are.
pub fn hex_key(text: &[u8]) -> Option<u64>
    ensures { result ≡ key_in text.now }
{
    let mut bytes = [0u8; 8];
    match hex::decode_to_slice(text, &mut bytes) {
        Ok(()) => Some(u64::from_be_bytes(bytes)),
        Err(_) => None,
    }
}

pub fn is_text(a: &[u8], b: &[u8]) -> bool
    ensures { result ≡ is_text a.now b.now }
{
    a == b
}
