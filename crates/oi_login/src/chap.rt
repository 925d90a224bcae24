ghost use Rattle.std.specs.Prelude.{◌≡◌, ◌≤◌, ◌++◌, None, Some, IfOk, IfSome, OnOk, MatchBool};
ghost use Rattle.oi_text.specs.Binary.{IsBinary};
ghost use Rattle.oi_text.specs.Pairs.{text_of};
ghost use Rattle.oi_login.specs.Answers.{IsFound};
ghost use Rattle.oi_login.specs.Chap.{number_of, HasBinary, HasChallenge, HasProof, IsProved};
ghost use Rattle.oi_login.specs.Keys.{challenge_keys, response_keys};

use crate::config::LoginAuth;
use crate::keys::{put, put_bytes, put_number};
use crate::pairs::sole;
use oi_base::{Blob, Mutual, NoMemory};
use oi_chap::{chap_check, chap_response};
use oi_negotiate::number;
use oi_text::{BinaryFault, Pair, read_binary};
use std::alloc::Global;

/// A challenge of the target: CHAP_I and CHAP_C.
#[derive(Debug, Drop)]
pub struct Challenge {
    pub id: u8,
    pub bytes: Blob,
}

const MOST_CHALLENGE: usize = 1024;

/// The challenge that the pairs of an answer have.
pub fn challenge_in(alloc: Global, pairs: &[Pair]) -> Result<Option<Challenge>, NoMemory>
    ensures { IfOk result (IsFound (HasChallenge pairs.now)) }
{
    if number_of(b"CHAP_A", 5, 5, pairs).is_none() {
        return Ok(None);
    }
    let Some(id) = number_of(b"CHAP_I", 0, 255, pairs) else {
        return Ok(None);
    };
    let Some(bytes) = bytes_of(alloc, b"CHAP_C", pairs)? else {
        return Ok(None);
    };
    let length = bytes.as_slice().len();
    if length < 1 || MOST_CHALLENGE < length {
        return Ok(None);
    }
    Ok(Some(Challenge {
        id: id as u8,
        bytes,
    }))
}

fn number_of(key: &[u8], low: u32, high: u32, pairs: &[Pair]) -> Option<u32>
    ensures value { result ≡ number_of key.now low high pairs.now }
    ensures high { IfSome result (λ n. n ≤ high) }
{
    match sole(key, pairs) {
        Some(text) => number(text, low, high),
        None => None,
    }
}

// The binary value of a key that stands once.
fn bytes_of(alloc: Global, key: &[u8], pairs: &[Pair]) -> Result<Option<Blob>, NoMemory>
    ensures { IfOk result (IsFound (HasBinary key.now pairs.now)) }
{
    let Some(text) = sole(key, pairs) else {
        return Ok(None);
    };
    match read_binary(alloc, text) {
        Ok(bytes) => Ok(Some(bytes)),
        Err(BinaryFault::Bad) => Ok(None),
        Err(BinaryFault::Memory) => Err(NoMemory),
    }
}

/// The text of the response to a challenge; for mutual CHAP it challenges the target in turn.
pub fn response_text(
    alloc: Global,
    auth: &LoginAuth,
    challenge: &Challenge,
) -> Result<Vec<u8>, NoMemory>
    ensures { IfOk result (λ text. text.items ≡ text_of (response_keys auth.now challenge.now)) }
{
    let response = chap_response(
        challenge.id,
        auth.secret.as_slice(),
        challenge.bytes.as_slice(),
    );
    let mut out = Vec::new(alloc);
    put(b"CHAP_N", auth.user.as_slice(), &mut out)?;
    put_bytes(b"CHAP_R", response.as_slice(), &mut out)?;
    put_challenge(auth, &mut out)?;
    Ok(out)
}

fn put_challenge(auth: &LoginAuth, out: &mut Vec<u8>) -> Result<(), NoMemory>
    ensures { OnOk result (out.new.items ≡ out.old.items ++ text_of (challenge_keys auth.now auth.now.mutual)) }
{
    match &auth.mutual {
        None => Ok(()),
        Some(_) => {
            put_number(b"CHAP_I", auth.id as u32, out)?;
            put_bytes(b"CHAP_C", auth.challenge.as_slice(), out)?;
            Ok(())
        }
    }
}

/// Whether the pairs of an answer show that the target is who it has to be. Without mutual CHAP it need not show it.
pub fn is_proved(alloc: Global, auth: &Option<LoginAuth>, pairs: &[Pair]) -> Result<bool, NoMemory>
    ensures { IfOk result (λ proved. MatchBool proved (IsProved auth.now pairs.now) (IsProved auth.now pairs.now → ⊥)) }
{
    match auth {
        None => Ok(true),
        Some(auth) => match &auth.mutual {
            None => Ok(true),
            Some(wanted) => is_right(alloc, auth, wanted, pairs),
        },
    }
}

fn is_right(
    alloc: Global,
    auth: &LoginAuth,
    wanted: &Mutual,
    pairs: &[Pair],
) -> Result<bool, NoMemory>
    ensures { IfOk result (λ right. MatchBool right (HasProof auth.now wanted.now pairs.now) (HasProof auth.now wanted.now pairs.now → ⊥)) }
{
    let Some(name) = sole(b"CHAP_N", pairs) else {
        return Ok(false);
    };
    if name != wanted.user.as_slice() {
        return Ok(false);
    }
    let Some(given) = bytes_of(alloc, b"CHAP_R", pairs)? else {
        return Ok(false);
    };
    Ok(chap_check(
        auth.id,
        wanted.secret.as_slice(),
        auth.challenge.as_slice(),
        given.as_slice(),
    ))
}
