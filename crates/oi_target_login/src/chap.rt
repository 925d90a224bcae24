ghost use Rattle.std.specs.Prelude.{◌≡◌, ◌≤◌, ◌==◌, ◌∷◌, [], None, Some, IfOk, IfSome, OnOk, codes, is_some};
ghost use Rattle.oi_chap.specs.Chap.{challenge_bytes, identifier, response};
ghost use Rattle.oi_negotiate.specs.Negotiated.{answer_to};
ghost use Rattle.oi_text.specs.Pairs.{text_of};
ghost use Rattle.oi_target_login.specs.Answers.{keyed};
ghost use Rattle.oi_target_login.specs.Chap.{asked_of, by_algorithm, by_method, bytes_in, challenge_keys, drawn, drawn_by, has_md5, id_in, is_proved, is_bytes, offered, proved, secured, shown, shown_by, stands, unoffered, unsecured};

use crate::binary::bytes_of;
use crate::config::{ChapConfig, LoginRules};
use crate::keys::{put, put_bytes, put_number};
use crate::pairs::{answer_to, lists};
use crate::progress::{Auth, is_passed};
use crate::status::Status;
use oi_base::{Blob, Mutual, NoMemory};
use oi_chap::{chap_challenge, chap_response};
use oi_negotiate::number;
use oi_text::Pair;
use rand_chacha::ChaCha20Rng;
use std::alloc::Global;

/// Where the authentication stands after a request, with the text that is answered; or why the login is refused.
#[derive(Debug, Drop)]
pub enum Step {
    Stands { auth: Auth, text: Blob },
    Fails(Status),
}

const MOST_CHALLENGE: usize = 1024;

/// Whether an initiator has to show who it is. A discovery need not.
pub fn is_asked(rules: &LoginRules, discovers: bool) -> bool
    ensures { result ≡ is_some (asked_of rules.now discovers) }
{
    !discovers && rules.chap.is_some()
}

fn stands(alloc: Global, auth: Auth) -> Step
    ensures { result ≡ stands auth [] }
{
    Step::Stands {
        auth,
        text: Blob::new(alloc),
    }
}

fn takes(alloc: Global, auth: Auth, method: &[u8]) -> Result<Step, NoMemory>
    ensures { IfOk result (λ s. s ≡ stands auth (keyed (codes "AuthMethod") method.now ∷ [])) }
{
    let mut text = Vec::new(alloc);
    put(b"AuthMethod", method, &mut text)?;
    Ok(Step::Stands {
        auth,
        text: Blob::from_vec(text),
    })
}

fn unoffered(alloc: Global, asks: bool, transit: bool) -> Step
    ensures { result ≡ unoffered asks transit }
{
    match (asks, transit) {
        (true, true) => Step::Fails(Status::AUTHENTICATION_FAILURE),
        (true, false) => stands(alloc, Auth::Unasked),
        (false, true) => stands(alloc, Auth::Passed),
        (false, false) => stands(alloc, Auth::Unasked),
    }
}

fn offered(alloc: Global, asks: bool, methods: &[u8]) -> Result<Step, NoMemory>
    ensures { IfOk result (λ s. s ≡ offered asks methods.now) }
{
    match asks {
        false if lists(b"None", methods) => takes(alloc, Auth::Passed, b"None"),
        false => takes(alloc, Auth::Unasked, b"Reject"),
        true if lists(b"CHAP", methods) => takes(alloc, Auth::Chosen, b"CHAP"),
        true => Ok(Step::Fails(Status::AUTHENTICATION_FAILURE)),
    }
}

fn by_method(alloc: Global, asks: bool, transit: bool, pairs: &[Pair]) -> Result<Step, NoMemory>
    ensures { IfOk result (λ s. s ≡ by_method asks transit (answer_to (codes "AuthMethod") pairs.now)) }
{
    match answer_to(b"AuthMethod", pairs) {
        None => Ok(unoffered(alloc, asks, transit)),
        Some(methods) => offered(alloc, asks, methods),
    }
}

fn has_md5(algorithms: &[u8]) -> bool
    ensures { result ≡ has_md5 algorithms.now }
{
    algorithms
        .split(|b| *b == b',')
        .any(|text| number(text, 5, 5).is_some())
}

// Draws a challenge where the algorithm is taken.
fn by_algorithm(alloc: Global, words: &mut ChaCha20Rng, pairs: &[Pair]) -> Result<Step, NoMemory>
    ensures step { IfOk result (λ s. s ≡ by_algorithm words.old (answer_to (codes "CHAP_A") pairs.now)) }
    ensures words { OnOk result (words.new ≡ drawn_by words.old (answer_to (codes "CHAP_A") pairs.now)) }
{
    let Some(algorithms) = answer_to(b"CHAP_A", pairs) else {
        return Ok(stands(alloc, Auth::Chosen));
    };
    if !has_md5(algorithms) {
        return Ok(Step::Fails(Status::AUTHENTICATION_FAILURE));
    }
    let (id, challenge) = chap_challenge(words);
    let text = challenge_text(alloc, id, challenge)?;
    Ok(Step::Stands {
        auth: Auth::Challenged { id, challenge },
        text: Blob::from_vec(text),
    })
}

fn challenge_text(alloc: Global, id: u8, challenge: [u8; 16]) -> Result<Vec<u8>, NoMemory>
    ensures { IfOk result (λ text. text.items ≡ text_of (challenge_keys id challenge)) }
{
    let mut text = Vec::new(alloc);
    put(b"CHAP_A", b"5", &mut text)?;
    put_number(b"CHAP_I", id as u32, &mut text)?;
    put_bytes(b"CHAP_C", challenge.as_slice(), &mut text)?;
    Ok(text)
}

fn bytes_in(alloc: Global, key: &[u8], pairs: &[Pair]) -> Result<Option<Blob>, NoMemory>
    ensures { IfOk result (λ bytes. bytes ≡ bytes_in (answer_to key.now pairs.now)) }
{
    match answer_to(key, pairs) {
        None => Ok(None),
        Some(value) => bytes_of(alloc, value),
    }
}

fn is_proved(
    alloc: Global,
    chap: &ChapConfig,
    id: u8,
    challenge: [u8; 16],
    pairs: &[Pair],
) -> Result<bool, NoMemory>
    ensures { IfOk result (λ proved. proved ≡ is_proved chap.now id challenge pairs.now) }
{
    let Some(name) = answer_to(b"CHAP_N", pairs) else {
        return Ok(false);
    };
    if name != chap.user.as_slice() {
        return Ok(false);
    }
    let Some(given) = bytes_in(alloc, b"CHAP_R", pairs)? else {
        return Ok(false);
    };
    let wanted = chap_response(id, chap.secret.as_slice(), challenge.as_slice());
    Ok(given.as_slice() == wanted.as_slice())
}

fn id_in(pairs: &[Pair]) -> Option<u32>
    ensures id { result ≡ id_in (answer_to (codes "CHAP_I") pairs.now) }
    ensures high { IfSome result (λ n. n ≤ 255) }
{
    match answer_to(b"CHAP_I", pairs) {
        None => None,
        Some(text) => number(text, 0, 255),
    }
}

fn shown(alloc: Global, wanted: &Option<Mutual>, pairs: &[Pair]) -> Result<Vec<u8>, NoMemory>
    ensures { IfOk result (λ text. text.items ≡ text_of (shown wanted.now pairs.now)) }
{
    let Some(wanted) = wanted else {
        return Ok(Vec::new(alloc));
    };
    shown_by(
        alloc,
        wanted,
        id_in(pairs),
        bytes_in(alloc, b"CHAP_C", pairs)?,
    )
}

fn shown_by(
    alloc: Global,
    wanted: &Mutual,
    id: Option<u32>,
    challenge: Option<Blob>,
) -> Result<Vec<u8>, NoMemory>
    requires { IfSome id (λ n. n ≤ 255) }
    ensures { IfOk result (λ text. text.items ≡ text_of (shown_by wanted.now id challenge)) }
{
    let mut text = Vec::new(alloc);
    let Some(id) = id else {
        return Ok(text);
    };
    let Some(challenge) = challenge else {
        return Ok(text);
    };
    let bytes = challenge.as_slice();
    if bytes.is_empty() || MOST_CHALLENGE < bytes.len() {
        return Ok(text);
    }
    let response = chap_response(id as u8, wanted.secret.as_slice(), bytes);
    put(b"CHAP_N", wanted.user.as_slice(), &mut text)?;
    put_bytes(b"CHAP_R", response.as_slice(), &mut text)?;
    Ok(text)
}

fn proved(
    alloc: Global,
    rules: &LoginRules,
    discovers: bool,
    id: u8,
    challenge: [u8; 16],
    pairs: &[Pair],
) -> Result<Step, NoMemory>
    ensures { IfOk result (λ s. s ≡ proved (asked_of rules.now discovers) id challenge pairs.now) }
{
    match &rules.chap {
        Some(chap) if !discovers => proved_to(alloc, chap, id, challenge, pairs),
        _ => Ok(Step::Fails(Status::AUTHENTICATION_FAILURE)),
    }
}

fn proved_to(
    alloc: Global,
    chap: &ChapConfig,
    id: u8,
    challenge: [u8; 16],
    pairs: &[Pair],
) -> Result<Step, NoMemory>
    ensures { IfOk result (λ s. s ≡ proved (Some chap.now) id challenge pairs.now) }
{
    if !is_proved(alloc, chap, id, challenge, pairs)? {
        return Ok(Step::Fails(Status::AUTHENTICATION_FAILURE));
    }
    Ok(Step::Stands {
        auth: Auth::Passed,
        text: Blob::from_vec(shown(alloc, &chap.mutual, pairs)?),
    })
}

/// What a request of the security stage does.
pub fn secured(
    alloc: Global,
    rules: &LoginRules,
    discovers: bool,
    auth: Auth,
    transit: bool,
    words: &mut ChaCha20Rng,
    pairs: &[Pair],
) -> Result<Step, NoMemory>
    ensures step { IfOk result (λ s. s ≡ secured (asked_of rules.now discovers) auth transit words.old pairs.now) }
    ensures words { OnOk result (words.new ≡ drawn auth words.old pairs.now) }
{
    match auth {
        Auth::Unasked => by_method(alloc, is_asked(rules, discovers), transit, pairs),
        Auth::Chosen => by_algorithm(alloc, words, pairs),
        Auth::Challenged { id, challenge } => {
            proved(alloc, rules, discovers, id, challenge, pairs)
        }
        Auth::Passed => Ok(stands(alloc, Auth::Passed)),
    }
}

/// What a request of the operational stage does to the authentication.
pub fn unsecured(alloc: Global, asks: bool, auth: Auth) -> Step
    ensures { result ≡ unsecured asks auth }
{
    if asks && !is_passed(auth) {
        Step::Fails(Status::AUTHENTICATION_FAILURE)
    } else {
        stands(alloc, Auth::Passed)
    }
}
