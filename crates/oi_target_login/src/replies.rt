ghost use Rattle.std.specs.Prelude.{◌≡◌, ◌++◌, OnOk};
ghost use Rattle.oi_text.specs.Pairs.{text_of, spelled};
ghost use Rattle.oi_target_login.specs.Answers.{answers, answers_by, answers_to, is_declared, is_login_key, settled_number, settled_text, target_offer};

use crate::keys::{put, put_number, put_word};
use oi_base::{NoMemory, Params};
use oi_negotiate::{Key, NumberKey, Offer, WordKey, is_silent, key_named};
use oi_text::Pair;

/// What a target offers: bursts of 262,144 bytes, segments and first bursts of 65,536, else the defaults of RFC 7143.
pub fn target_offer() -> Offer
    ensures { result ≡ target_offer }
{
    Offer {
        initial_r2t: true,
        immediate: true,
        max_burst: 262_144,
        first_burst: 65_536,
        time2wait: 2,
        time2retain: 20,
        outstanding: 1,
        max_recv: 65_536,
    }
}

/// Appends the answer to each pair, in order.
pub fn put_answers(params: Params, pairs: &[Pair], out: &mut Vec<u8>) -> Result<(), NoMemory>
    ensures { OnOk result (out.new.items ≡ out.old.items ++ text_of (answers params pairs.now)) }
{
    for pair in pairs {
        put_answer(params, pair, out)?;
    }
    Ok(())
}

fn put_answer(params: Params, pair: &Pair, out: &mut Vec<u8>) -> Result<(), NoMemory>
    ensures { OnOk result (out.new.items ≡ out.old.items ++ text_of (answers_to params pair.now)) }
{
    if is_silent(pair.value.as_slice()) {
        return Ok(());
    }
    put_answer_by(key_named(pair.key.as_slice()), params, pair, out)?;
    Ok(())
}

fn put_answer_by(
    key: Option<Key>,
    params: Params,
    pair: &Pair,
    out: &mut Vec<u8>,
) -> Result<(), NoMemory>
    ensures { OnOk result (out.new.items ≡ out.old.items ++ text_of (answers_by key params pair.now)) }
{
    let name = pair.key.as_slice();
    match key {
        None if is_login_key(name) => Ok(()),
        None => put(name, b"NotUnderstood", out),
        Some(key) if is_declared(key) => Ok(()),
        Some(key) => put_settled(name, key, params, out),
    }
}

fn put_settled(name: &[u8], key: Key, params: Params, out: &mut Vec<u8>) -> Result<(), NoMemory>
    ensures { OnOk result (out.new.items ≡ out.old.items ++ spelled name.now (settled_text key params)) }
{
    match key {
        Key::Word(WordKey::InitialR2T) => put_word(name, params.initial_r2t, out),
        Key::Word(WordKey::ImmediateData) => put_word(name, params.immediate, out),
        Key::Word(WordKey::DataPDUInOrder | WordKey::DataSequenceInOrder) => {
            put(name, b"Yes", out)
        }
        Key::Number(key) => put_number(name, settled_number(key, params), out),
        Key::HeaderDigest | Key::DataDigest => put(name, b"None", out),
    }
}

fn settled_number(key: NumberKey, params: Params) -> u32
    ensures { result ≡ settled_number key params }
{
    match key {
        NumberKey::MaxBurstLength => params.max_burst,
        NumberKey::FirstBurstLength => params.first_burst,
        NumberKey::DefaultTime2Wait => params.time2wait as u32,
        NumberKey::DefaultTime2Retain => params.time2retain as u32,
        NumberKey::MaxOutstandingR2T => params.outstanding as u32,
        NumberKey::MaxConnections => 1,
        NumberKey::ErrorRecoveryLevel => 0,
        NumberKey::MaxRecvDataSegmentLength => params.max_recv,
    }
}

fn is_declared(key: Key) -> bool
    ensures { result ≡ is_declared key }
{
    matches!(key, Key::Number(NumberKey::MaxRecvDataSegmentLength))
}

fn is_login_key(key: &[u8]) -> bool
    ensures { result ≡ is_login_key key.now }
{
    key == b"InitiatorName".as_slice()
        || key == b"InitiatorAlias".as_slice()
        || key == b"SessionType".as_slice()
        || key == b"TargetName".as_slice()
        || key == b"AuthMethod".as_slice()
        || key == b"CHAP_A".as_slice()
        || key == b"CHAP_I".as_slice()
        || key == b"CHAP_C".as_slice()
        || key == b"CHAP_N".as_slice()
        || key == b"CHAP_R".as_slice()
}
