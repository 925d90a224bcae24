ghost use Rattle.std.specs.Prelude.{◌≡◌, ◌++◌, false, Some, IfOk, MatchBool};
ghost use Rattle.oi_text.specs.Pairs.{text_of};
ghost use Rattle.oi_login.specs.Answers.{sole};
ghost use Rattle.oi_login.specs.Keys.{algorithm_keys};
ghost use Rattle.oi_login.specs.Turns.{Turns, Responds, Succeeds, ReadsText, Hears, Moves, TakesChallenge, TakesProof, after_opening, after_security, asked, asked_on, asking, opened_with, settled, takes_method, is_word};

use crate::chap::{challenge_in, is_proved, response_text};
use crate::config::{LoginAuth, LoginConfig};
use crate::fault::LoginFault;
use crate::keys::{offer_text, put};
use crate::moves::{Ask, Turn};
use crate::pairs::{count_of, joined, read_text, sole};
use crate::progress::{Progress, Stage, heard, is_due, is_last_turn, is_operational};
use crate::redirection::refusal;
use crate::refusals::put_refusals;
use crate::request::request_of;
use oi_base::{Blob, Label, LoginDone, NoMemory, Series};
use oi_negotiate::{KeyFault, negotiate};
use oi_pdu::{Header, LoginResponse, Pdu};
use oi_text::Pair;
use std::alloc::Global;

const MOST_TEXT: usize = 65_536;

/// What a response leads to.
pub fn take(
    alloc: Global,
    config: &LoginConfig,
    progress: Progress,
    response: &Pdu,
) -> Result<Turn, NoMemory>
    ensures { IfOk result (Turns config.now progress response.now) }
{
    let Header::LoginResponse(head) = response.head else {
        return Ok(Turn::Fails(LoginFault::WrongStage));
    };
    let progress = heard(progress, response.payload.as_slice())?;
    respond(alloc, config, progress, head)
}

fn respond(
    alloc: Global,
    config: &LoginConfig,
    progress: Progress,
    head: LoginResponse,
) -> Result<Turn, NoMemory>
    ensures { IfOk result (Responds config.now progress head) }
{
    if head.class != 0 {
        let fault = refusal(alloc, progress.text.as_slice(), head)?;
        return Ok(Turn::Fails(fault));
    }
    succeed(alloc, config, progress, head)
}

fn succeed(
    alloc: Global,
    config: &LoginConfig,
    progress: Progress,
    head: LoginResponse,
) -> Result<Turn, NoMemory>
    ensures { IfOk result (Succeeds config.now progress head) }
{
    if !is_due(&progress, head) {
        return Ok(Turn::Fails(LoginFault::WrongStage));
    }
    if MOST_TEXT < progress.text.as_slice().len() {
        return Ok(Turn::Fails(LoginFault::TooManyTurns));
    }
    if head.more {
        return Ok(ask_on(alloc, config, progress, head));
    }
    read(alloc, config, progress, head)
}

// Asks for the rest of a text.
fn ask_on(alloc: Global, config: &LoginConfig, progress: Progress, head: LoginResponse) -> Turn
    ensures { result ≡ asked_on config.now progress head }
{
    if is_last_turn(&progress) {
        return Turn::Fails(LoginFault::TooManyTurns);
    }
    let Progress {
        stage,
        transit: _,
        text,
        pairs,
        turns,
    } = progress;
    let request = request_of(
        config.isid,
        stage,
        false,
        head.stat.next(),
        Blob::new(alloc),
    );
    Turn::Asks {
        progress: Progress {
            stage,
            transit: false,
            text,
            pairs,
            turns: turns + 1,
        },
        request,
    }
}

// The text is whole.
fn read(
    alloc: Global,
    config: &LoginConfig,
    progress: Progress,
    head: LoginResponse,
) -> Result<Turn, NoMemory>
    ensures { IfOk result (ReadsText config.now progress head) }
{
    let Some(pairs) = read_text(alloc, progress.text.as_slice())? else {
        let key = Label::new(alloc);
        return Ok(Turn::Fails(LoginFault::Key { key }));
    };
    let turn = hear(alloc, config, progress, head, pairs)?;
    Ok(turn)
}

fn hear(
    alloc: Global,
    config: &LoginConfig,
    progress: Progress,
    head: LoginResponse,
    pairs: Series<Pair>,
) -> Result<Turn, NoMemory>
    ensures { IfOk result (Hears config.now progress head pairs) }
{
    if is_operational(progress.stage) && head.transit {
        let theirs = joined(progress.pairs, pairs)?;
        return settle(alloc, config, head, theirs.as_slice());
    }
    let ask = next_ask(
        alloc,
        config,
        progress.stage,
        head.transit,
        pairs.as_slice(),
    )?;
    let turn = ask_with(alloc, config, progress, head, pairs, ask)?;
    Ok(turn)
}

// The keys are settled by all pairs of the target.
fn settle(
    alloc: Global,
    config: &LoginConfig,
    head: LoginResponse,
    theirs: &[Pair],
) -> Result<Turn, NoMemory>
    ensures { IfOk result (λ turn. turn ≡ settled config.now head theirs.now) }
{
    match negotiate(alloc, &config.offer, theirs) {
        Ok(params) => Ok(Turn::Reaches(LoginDone {
            params,
            tsih: head.tsih,
            cmdsn: 1,
            max: head.max.0,
            exp_stat: head.stat.next().0,
        })),
        Err(KeyFault::Bad { key }) => Ok(Turn::Fails(LoginFault::Key { key })),
        Err(KeyFault::Memory) => Err(NoMemory),
    }
}

// What is asked next; None where the authentication failed.
fn next_ask(
    alloc: Global,
    config: &LoginConfig,
    stage: Stage,
    transit: bool,
    pairs: &[Pair],
) -> Result<Option<Ask>, NoMemory>
    ensures { IfOk result (Moves config.now stage transit pairs.now) }
{
    match stage {
        Stage::Opening => open(alloc, config, transit, pairs),
        Stage::Challenge => take_challenge(alloc, &config.auth, pairs),
        Stage::Proof => take_proof(alloc, config, transit, pairs),
        Stage::Security => Ok(Some(leave_security(alloc, config, transit)?)),
        Stage::Operational => Ok(Some(Ask {
            stage: Stage::Operational,
            transit: true,
            text: Blob::new(alloc),
        })),
    }
}

fn open(
    alloc: Global,
    config: &LoginConfig,
    transit: bool,
    pairs: &[Pair],
) -> Result<Option<Ask>, NoMemory>
    ensures { IfOk result (λ move. move ≡ after_opening config.now transit pairs.now) }
{
    if !takes_method(&config.auth, pairs) {
        return Ok(None);
    }
    match &config.auth {
        None => Ok(Some(leave_security(alloc, config, transit)?)),
        Some(_) => Ok(Some(offer_algorithm(alloc)?)),
    }
}

fn takes_method(auth: &Option<LoginAuth>, pairs: &[Pair]) -> bool
    ensures { result ≡ takes_method auth.now pairs.now }
{
    match auth {
        None => {
            count_of(b"AuthMethod", pairs) == 0 || is_answered(b"AuthMethod", b"None", pairs)
        }
        Some(_) => is_answered(b"AuthMethod", b"CHAP", pairs),
    }
}

fn offer_algorithm(alloc: Global) -> Result<Ask, NoMemory>
    ensures { IfOk result (λ ask. ask ≡ asking Stage.Challenge false algorithm_keys) }
{
    let mut text = Vec::new(alloc);
    put(b"CHAP_A", b"5", &mut text)?;
    Ok(Ask {
        stage: Stage::Challenge,
        transit: false,
        text: Blob::from_vec(text),
    })
}

fn leave_security(alloc: Global, config: &LoginConfig, transit: bool) -> Result<Ask, NoMemory>
    ensures { IfOk result (λ ask. ask ≡ after_security config.now transit) }
{
    match transit {
        true => Ok(Ask {
            stage: Stage::Operational,
            transit: true,
            text: Blob::from_vec(offer_text(alloc, config)?),
        }),
        false => Ok(Ask {
            stage: Stage::Security,
            transit: true,
            text: Blob::new(alloc),
        }),
    }
}

fn take_challenge(
    alloc: Global,
    auth: &Option<LoginAuth>,
    pairs: &[Pair],
) -> Result<Option<Ask>, NoMemory>
    ensures { IfOk result (TakesChallenge auth.now pairs.now) }
{
    let Some(auth) = auth else {
        return Ok(None);
    };
    let Some(challenge) = challenge_in(alloc, pairs)? else {
        return Ok(None);
    };
    let text = response_text(alloc, auth, &challenge)?;
    Ok(Some(Ask {
        stage: Stage::Proof,
        transit: true,
        text: Blob::from_vec(text),
    }))
}

fn take_proof(
    alloc: Global,
    config: &LoginConfig,
    transit: bool,
    pairs: &[Pair],
) -> Result<Option<Ask>, NoMemory>
    ensures { IfOk result (TakesProof config.now transit pairs.now) }
{
    if !is_proved(alloc, &config.auth, pairs)? {
        return Ok(None);
    }
    let ask = leave_security(alloc, config, transit)?;
    Ok(Some(ask))
}

// Sends what is asked, and an answer to each key that is not known.
fn ask_with(
    alloc: Global,
    config: &LoginConfig,
    progress: Progress,
    head: LoginResponse,
    pairs: Series<Pair>,
    ask: Option<Ask>,
) -> Result<Turn, NoMemory>
    ensures { IfOk result (λ turn. turn ≡ asked config.now progress head pairs ask) }
{
    let Some(ask) = ask else {
        return Ok(Turn::Fails(LoginFault::Auth));
    };
    if is_last_turn(&progress) {
        return Ok(Turn::Fails(LoginFault::TooManyTurns));
    }
    let Ask {
        stage,
        transit,
        text,
    } = ask;
    let mut text = text.into_vec();
    put_refusals(pairs.as_slice(), &mut text)?;
    let request = request_of(
        config.isid,
        stage,
        transit,
        head.stat.next(),
        Blob::from_vec(text),
    );
    let turns = progress.turns + 1;
    Ok(Turn::Asks {
        progress: Progress {
            stage,
            transit,
            text: Blob::new(alloc),
            pairs: joined(progress.pairs, pairs)?,
            turns,
        },
        request,
    })
}

// Whether a key stands once, with this value.
fn is_answered(key: &[u8], word: &[u8], pairs: &[Pair]) -> bool
    ensures { result ≡ is_word (sole key.now pairs.now) word.now }
{
    match sole(key, pairs) {
        Some(value) => value == word,
        None => false,
    }
}
