ghost use Rattle.std.specs.Prelude.{◌≡◌, ◌↔◌, IsTrue};
ghost use Rattle.oi_chap.specs.Chap.{response};

use md5::{Digest, Md5};

/// CHAP_R for CHAP_I `id` and CHAP_C `challenge`, with the algorithm MD5 (CHAP_A=5): RFC 1994, section 4.1.
pub fn chap_response(id: u8, secret: &[u8], challenge: &[u8]) -> [u8; 16]
    ensures { result ≡ response id secret.now challenge.now }
{
    let mut hasher = Md5::new();
    hasher.update([id].as_slice());
    hasher.update(secret);
    hasher.update(challenge);
    hasher.finalize()
}

/// Whether `given` is the whole response. It takes no constant time, and a response is used once.
pub fn chap_check(id: u8, secret: &[u8], challenge: &[u8], given: &[u8]) -> bool
    ensures { IsTrue result ↔ (given.now ≡ response id secret.now challenge.now) }
{
    let wanted = chap_response(id, secret, challenge);
    given == wanted.as_slice()
}
