ghost use Rattle.std.specs.Prelude.{◌≡◌, ◌≤◌, ◌<◌, ◌^◌, IfOk, IfSome, OnOk, drop, length};
ghost use Rattle.oi_target_login.specs.Logins.{answered, answered_with, authed, began, known_as, requested, response_text, sent_away, told, told_by, turned, words_after};
ghost use Rattle.oi_negotiate.specs.Negotiated.{refused_key};
ghost use Rattle.oi_target_login.specs.declared.chap.Step.TheVariants.{Stands};
ghost use Rattle.oi_target_login.specs.Texts.{text_pairs};

use crate::answer::{Answer, asked_on, closing, goes_on, opened, refused};
use crate::call::Call;
use crate::chap::{Step, is_asked, secured, unsecured};
use crate::config::{LoginRules, Moved};
use crate::keys::{put_address, put_declared, put_group};
use crate::names::{Naming, initiator_named, is_sent_away};
use crate::pairs::{joined, read_text};
use crate::progress::{Auth, Progress, Who, ends_login};
use crate::replies::{put_answers, target_offer};
use crate::status::Status;
use oi_base::{Blob, NoMemory, Params, Series};
use oi_negotiate::{KeyFault, negotiate};
use oi_pdu::{Header, LoginRequest, Pdu};
use oi_text::Pair;
use rand_chacha::ChaCha20Rng;
use std::alloc::Global;

const MOST_TEXT: usize = 65_536;

fn response_text(
    head: LoginRequest,
    params: Params,
    front: Vec<u8>,
    auth: Auth,
    text: Blob,
    pairs: &[Pair],
) -> Result<Blob, NoMemory>
    ensures { IfOk result (λ whole. whole ≡ response_text head params front.items auth text pairs.now) }
{
    let mut whole = front;
    whole.extend_from_slice(text.as_slice())?;
    put_answers(params, pairs, &mut whole)?;
    put_declared(ends_login(head, auth), &mut whole)?;
    Ok(Blob::from_vec(whole))
}

fn answered_with(
    alloc: Global,
    call: Call,
    who: Who,
    params: Params,
    all: Series<Pair>,
    auth: Auth,
    text: Blob,
) -> Answer
    requires { call.turns < 32 }
    ensures value { result ≡ answered_with call who params all auth text }
    ensures size { IfSome result.pdu (λ p. length p.payload < 2 ^ 24) }
{
    if MOST_TEXT < text.as_slice().len() {
        return refused(alloc, call, Status::OUT_OF_RESOURCES, Blob::new(alloc));
    }
    if ends_login(call.head, auth) {
        opened(alloc, call, who, params, text)
    } else {
        goes_on(alloc, call, who, auth, all, text)
    }
}

// Who asks, how far its authentication is, and its pairs: those before this request, and those of it.
#[derive(Debug, Drop)]
struct Said {
    who: Who,
    auth: Auth,
    earlier: Series<Pair>,
    pairs: Series<Pair>,
}

// Where the authentication stands after these pairs.
fn authed(
    alloc: Global,
    rules: &LoginRules,
    head: LoginRequest,
    auth: Auth,
    discovers: bool,
    words: &mut ChaCha20Rng,
    pairs: &[Pair],
) -> Result<Step, NoMemory>
    ensures step { IfOk result (λ s. s ≡ authed rules.now head auth discovers words.old pairs.now) }
    ensures words { OnOk result (words.new ≡ words_after head auth words.old pairs.now) }
{
    if head.csg == 0 {
        secured(alloc, rules, discovers, auth, head.transit, words, pairs)
    } else {
        Ok(unsecured(alloc, is_asked(rules, discovers), auth))
    }
}

// All pairs of an initiator. Those of the request that is answered stand behind so many others.
#[derive(Debug, Drop)]
struct Pairs {
    all: Series<Pair>,
    count: usize,
}

// The authentication stands, and its keys are answered by this text. All pairs of the initiator settle the others.
fn settled(
    alloc: Global,
    call: Call,
    who: Who,
    front: Vec<u8>,
    pairs: Pairs,
    auth: Auth,
    text: Blob,
) -> Result<Answer, NoMemory>
    requires turns { call.turns < 32 }
    requires count { pairs.count ≤ length pairs.all }
    ensures value { IfOk result (λ a. a ≡ answered call who front.items (drop pairs.count pairs.all) pairs.all (refused_key pairs.all) (Stands auth text)) }
    ensures size { IfOk result (λ a. IfSome a.pdu (λ p. length p.payload < 2 ^ 24)) }
{
    let Pairs { all, count } = pairs;
    match negotiate(alloc, &target_offer(), all.as_slice()) {
        Ok(params) => {
            let pairs = behind(all.as_slice(), count);
            let whole = response_text(call.head, params, front, auth, text, pairs)?;
            Ok(answered_with(alloc, call, who, params, all, auth, whole))
        }
        Err(KeyFault::Bad { .. }) => {
            let none = Blob::new(alloc);
            Ok(refused(alloc, call, Status::INITIATOR_ERROR, none))
        }
        Err(KeyFault::Memory) => Err(NoMemory),
    }
}

fn behind(pairs: &[Pair], count: usize) -> &[Pair]
    requires { count ≤ length pairs.now }
    ensures { result.now ≡ drop count pairs.now }
{
    &pairs[count..]
}

// The initiator is known. Its authentication is judged first.
fn known_as(
    alloc: Global,
    rules: &LoginRules,
    call: Call,
    said: Said,
    words: &mut ChaCha20Rng,
    front: Vec<u8>,
) -> Result<Answer, NoMemory>
    requires { call.turns < 32 }
    ensures value { IfOk result (λ a. a ≡ (known_as rules.now call said.who said.auth words.old front.items said.earlier said.pairs).answer) }
    ensures words { OnOk result (words.new ≡ (known_as rules.now call said.who said.auth words.old front.items said.earlier said.pairs).words) }
    ensures size { IfOk result (λ a. IfSome a.pdu (λ p. length p.payload < 2 ^ 24)) }
{
    let Said {
        who,
        auth,
        earlier,
        pairs,
    } = said;
    let count = earlier.as_slice().len();
    let all = joined(earlier, pairs)?;
    let pairs = behind(all.as_slice(), count);
    match authed(alloc, rules, call.head, auth, who.discovers, words, pairs)? {
        Step::Fails(status) => Ok(refused(alloc, call, status, Blob::new(alloc))),
        Step::Stands { auth, text } => {
            let pairs = Pairs { all, count };
            settled(alloc, call, who, front, pairs, auth, text)
        }
    }
}

// The target has moved.
fn sent_away(alloc: Global, call: Call, moved: &Option<Moved>) -> Result<Answer, NoMemory>
    ensures value { IfOk result (λ a. a ≡ sent_away call moved.now) }
    ensures size { IfOk result (λ a. IfSome a.pdu (λ p. length p.payload < 2 ^ 24)) }
{
    let Some(moved) = moved else {
        let none = Blob::new(alloc);
        return Ok(refused(alloc, call, Status::INITIATOR_ERROR, none));
    };
    let mut text = Vec::new(alloc);
    put_address(&moved.portal, &mut text)?;
    if MOST_TEXT < text.len() {
        let none = Blob::new(alloc);
        return Ok(refused(alloc, call, Status::OUT_OF_RESOURCES, none));
    }
    let status = Status {
        class: 1,
        detail: moved.detail,
    };
    Ok(refused(alloc, call, status, Blob::from_vec(text)))
}

// The first text of a login.
fn began(
    alloc: Global,
    rules: &LoginRules,
    call: Call,
    progress: Progress,
    words: &mut ChaCha20Rng,
    pairs: Series<Pair>,
) -> Result<Answer, NoMemory>
    requires { call.turns < 32 }
    ensures value { IfOk result (λ a. a ≡ (began rules.now call progress.auth words.old progress.pairs pairs).answer) }
    ensures words { OnOk result (words.new ≡ (began rules.now call progress.auth words.old progress.pairs pairs).words) }
    ensures size { IfOk result (λ a. IfSome a.pdu (λ p. length p.payload < 2 ^ 24)) }
{
    if is_sent_away(rules, pairs.as_slice()) {
        return sent_away(alloc, call, &rules.moved);
    }
    match initiator_named(alloc, rules, call.head, pairs.as_slice())? {
        Naming::Unknown(status) => Ok(refused(alloc, call, status, Blob::new(alloc))),
        Naming::Known(who) => {
            let mut front = Vec::new(alloc);
            put_group(rules.tag, who.discovers, &mut front)?;
            let said = Said {
                who,
                auth: progress.auth,
                earlier: progress.pairs,
                pairs,
            };
            known_as(alloc, rules, call, said, words, front)
        }
    }
}

// The text of a request is whole.
fn told(
    alloc: Global,
    rules: &LoginRules,
    call: Call,
    progress: Progress,
    words: &mut ChaCha20Rng,
) -> Result<Answer, NoMemory>
    requires { call.turns < 32 }
    ensures value { IfOk result (λ a. a ≡ (told rules.now call progress words.old (text_pairs progress.text)).answer) }
    ensures words { OnOk result (words.new ≡ (told rules.now call progress words.old (text_pairs progress.text)).words) }
    ensures size { IfOk result (λ a. IfSome a.pdu (λ p. length p.payload < 2 ^ 24)) }
{
    let Some(pairs) = read_text(alloc, progress.text.as_slice())? else {
        return Ok(closing(alloc, call.stat));
    };
    told_by(alloc, rules, call, progress, words, pairs)
}

fn told_by(
    alloc: Global,
    rules: &LoginRules,
    call: Call,
    progress: Progress,
    words: &mut ChaCha20Rng,
    pairs: Series<Pair>,
) -> Result<Answer, NoMemory>
    requires { call.turns < 32 }
    ensures value { IfOk result (λ a. a ≡ (told_by rules.now call progress.auth words.old progress.pairs pairs progress.who).answer) }
    ensures words { OnOk result (words.new ≡ (told_by rules.now call progress.auth words.old progress.pairs pairs progress.who).words) }
    ensures size { IfOk result (λ a. IfSome a.pdu (λ p. length p.payload < 2 ^ 24)) }
{
    let Progress {
        stage,
        who,
        auth,
        text,
        pairs: earlier,
        turns,
        stat,
    } = progress;
    match who {
        Some(who) => {
            let said = Said {
                who,
                auth,
                earlier,
                pairs,
            };
            known_as(alloc, rules, call, said, words, Vec::new(alloc))
        }
        None => {
            let progress = Progress {
                stage,
                who: None,
                auth,
                text,
                pairs: earlier,
                turns,
                stat,
            };
            began(alloc, rules, call, progress, words, pairs)
        }
    }
}

fn requested(
    alloc: Global,
    rules: &LoginRules,
    call: Call,
    progress: Progress,
    words: &mut ChaCha20Rng,
) -> Result<Answer, NoMemory>
    requires { call.turns ≡ progress.turns }
    ensures value { IfOk result (λ a. a ≡ (requested rules.now call progress words.old).answer) }
    ensures words { OnOk result (words.new ≡ (requested rules.now call progress words.old).words) }
    ensures size { IfOk result (λ a. IfSome a.pdu (λ p. length p.payload < 2 ^ 24)) }
{
    if !progress.is_due(call.head)
        || MOST_TEXT < progress.text.as_slice().len()
        || progress.is_last()
    {
        let none = Blob::new(alloc);
        return Ok(refused(alloc, call, Status::INITIATOR_ERROR, none));
    }
    if call.head.more {
        return Ok(asked_on(alloc, call, progress));
    }
    told(alloc, rules, call, progress, words)
}

/// What becomes of one PDU in a login.
pub fn turned(
    alloc: Global,
    rules: &LoginRules,
    handle: u16,
    progress: Progress,
    request: &Pdu,
    words: &mut ChaCha20Rng,
) -> Result<Answer, NoMemory>
    ensures value { IfOk result (λ a. a ≡ (turned rules.now handle progress request.now words.old).answer) }
    ensures words { OnOk result (words.new ≡ (turned rules.now handle progress request.now words.old).words) }
    ensures size { IfOk result (λ a. IfSome a.pdu (λ p. length p.payload < 2 ^ 24)) }
{
    let Header::LoginRequest(head) = request.head else {
        return Ok(closing(alloc, progress.stat));
    };
    let call = Call {
        head,
        stat: progress.stat,
        turns: progress.turns,
        handle,
    };
    let progress = progress.heard(request.payload.as_slice())?;
    requested(alloc, rules, call, progress, words)
}
