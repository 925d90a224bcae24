ghost use Rattle.std.specs.Prelude.{◌≡◌};
ghost use Rattle.oi_chap.specs.Streams.{stream_key, stream_number, stream_start};

use rand_chacha::ChaCha20Rng;
use rand_core::SeedableRng;

/// What the words of a stream are drawn for. Streams of one number and different purposes share no words.
#[derive(Clone, Copy, Debug, PartialEq, Eq)]
pub enum Purpose {
    /// Requests of the load generator.
    Requests,
    /// The initiator's challenges to targets.
    InitiatorChallenges,
    /// A test target's challenges to initiators.
    TargetChallenges,
}

/// The generator of a number's words for a purpose, at the first word.
pub fn words_for(number: u64, purpose: Purpose) -> ChaCha20Rng
    ensures { result ≡ stream_start number purpose }
{
    let mut words = ChaCha20Rng::from_seed(key_of(number));
    words.set_stream(number_of(purpose));
    words
}

fn key_of(number: u64) -> [u8; 32]
    ensures { result ≡ stream_key number }
{
    let mut key = [0; 32];
    key[0..8].copy_from_slice(&number.to_be_bytes());
    key
}

fn number_of(purpose: Purpose) -> u64
    ensures { result ≡ stream_number purpose }
{
    match purpose {
        Purpose::Requests => 0,
        Purpose::InitiatorChallenges => 1,
        Purpose::TargetChallenges => 2,
    }
}
