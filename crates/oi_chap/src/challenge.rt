ghost use Rattle.std.specs.Prelude.{◌≡◌};
ghost use Rattle.oi_chap.specs.Chap.{identifier, challenge_bytes, after_words, four_words};

use rand_chacha::ChaCha20Rng;
use rand_core::utils::NextWord;

/// An identifier and a challenge: the next five words of the generator. That they cannot be foretold is not promised.
pub fn chap_challenge(rng: &mut ChaCha20Rng) -> (u8, [u8; 16])
    ensures id { result.0 ≡ identifier rng.old }
    ensures challenge { result.1 ≡ challenge_bytes rng.old }
    ensures rng { rng.new ≡ after_words 5 rng.old }
{
    let id = (rng.next_word() % 256) as u8;
    let a = rng.next_word();
    let b = rng.next_word();
    let c = rng.next_word();
    let d = rng.next_word();
    (id, four(a, b, c, d))
}

fn four(a: u32, b: u32, c: u32, d: u32) -> [u8; 16]
    ensures { result ≡ four_words a b c d }
{
    let mut bytes = [0; 16];
    bytes[0..4].copy_from_slice(&a.to_be_bytes());
    bytes[4..8].copy_from_slice(&b.to_be_bytes());
    bytes[8..12].copy_from_slice(&c.to_be_bytes());
    bytes[12..16].copy_from_slice(&d.to_be_bytes());
    bytes
}
