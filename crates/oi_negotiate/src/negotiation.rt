ghost use Rattle.std.specs.Prelude.{◌≡◌, ◌≤◌, Some, None, IfSome, IfOk, IfErr, MatchOption, max};
ghost use Rattle.oi_negotiate.specs.Rows.{number_row};
ghost use Rattle.oi_negotiate.specs.Negotiated.{answer_to, word_answer, number_answer, refused_key, negotiated_word, negotiated_number, negotiated, IsKeyFault};

use crate::check::first_refused;
use crate::keys::{NumberKey, WordKey, number_key_name, word_key_name};
use crate::offer::Offer;
use crate::rows::{row_of_number, row_of_word, settle_numbers, settle_words};
use crate::values::{number, word};
use oi_base::{Label, Params};
use oi_text::Pair;
use std::alloc::Global;
use thiserror::Error;

/// Why a negotiation failed.
#[derive(Debug, PartialEq, Eq, Drop, Error)]
pub enum KeyFault {
    /// The value of this key is outside its range, or the key was answered before.
    #[error("bad value of a key")]
    Bad { key: Label },
    #[error("out of memory")]
    Memory,
}

/// What the offer and the pairs that the target sent during the whole login settle. Pairs of other keys count for nothing.
pub fn negotiate(alloc: Global, ours: &Offer, theirs: &[Pair]) -> Result<Params, KeyFault>
    ensures ok { IfOk result (λ params. (refused_key theirs.now ≡ None) × (params ≡ negotiated ours.now theirs.now)) }
    ensures fault { IfErr result (λ fault. IsKeyFault fault (refused_key theirs.now)) }
{
    match first_refused(theirs) {
        Some(key) => Err(refusal(alloc, key)),
        None => Ok(settled(ours, theirs)),
    }
}

fn refusal(alloc: Global, key: &[u8]) -> KeyFault
    ensures { IsKeyFault result (Some key.now) }
{
    match Label::from_slice(alloc, key) {
        Ok(key) => KeyFault::Bad { key },
        Err(_) => KeyFault::Memory,
    }
}

fn settled(ours: &Offer, theirs: &[Pair]) -> Params
    ensures { result ≡ negotiated ours.now theirs.now }
{
    let max_burst = settled_number(NumberKey::MaxBurstLength, ours.max_burst, theirs);
    let first_burst = settled_number(NumberKey::FirstBurstLength, ours.first_burst, theirs);
    Params {
        initial_r2t: settled_word(WordKey::InitialR2T, ours.initial_r2t, theirs),
        immediate: settled_word(WordKey::ImmediateData, ours.immediate, theirs),
        max_send: settled_number(NumberKey::MaxRecvDataSegmentLength, ours.max_recv, theirs),
        max_recv: ours.max_recv,
        max_burst,
        first_burst: first_burst.min(max_burst),
        outstanding: settled_short(NumberKey::MaxOutstandingR2T, ours.outstanding, theirs),
        time2wait: settled_short(NumberKey::DefaultTime2Wait, ours.time2wait, theirs),
        time2retain: settled_short(NumberKey::DefaultTime2Retain, ours.time2retain, theirs),
    }
}

fn settled_word(key: WordKey, ours: bool, theirs: &[Pair]) -> bool
    ensures { result ≡ negotiated_word key ours theirs.now }
{
    let row = row_of_word(key);
    match word_answer(key, theirs) {
        Some(theirs) => settle_words(row.rule, ours, theirs),
        None => row.default,
    }
}

fn settled_number(key: NumberKey, ours: u32, theirs: &[Pair]) -> u32
    ensures value { result ≡ negotiated_number key ours theirs.now }
    ensures bound { result ≤ max ours (max (number_row key).default (number_row key).high) }
{
    let row = row_of_number(key);
    match number_answer(key, theirs) {
        Some(theirs) => settle_numbers(row.rule, ours, theirs),
        None => row.default,
    }
}

// The value of a key whose numbers are below 2^16.
fn settled_short(key: NumberKey, ours: u16, theirs: &[Pair]) -> u16
    requires default { (number_row key).default ≤ 65535 }
    requires high { (number_row key).high ≤ 65535 }
    ensures { result ≡ negotiated_number key ours theirs.now }
{
    settled_number(key, ours as u32, theirs) as u16
}

fn word_answer(key: WordKey, theirs: &[Pair]) -> Option<bool>
    ensures { result ≡ word_answer key theirs.now }
{
    match answer_to(word_key_name(key), theirs) {
        Some(text) => word(text),
        None => None,
    }
}

fn number_answer(key: NumberKey, theirs: &[Pair]) -> Option<u32>
    ensures value { result ≡ number_answer key theirs.now }
    ensures high { IfSome result (λ n. n ≤ (number_row key).high) }
{
    let row = row_of_number(key);
    match answer_to(number_key_name(key), theirs) {
        Some(text) => number(text, row.low, row.high),
        None => None,
    }
}

fn answer_to<'a>(name: &[u8], pairs: &'a [Pair]) -> Option<&'a [u8]>
    ensures { MatchOption result (answer_to name.now pairs.now ≡ None) (λ text. answer_to name.now pairs.now ≡ Some text.now) }
{
    for pair in pairs {
        if pair.key.as_slice() == name {
            return Some(pair.value.as_slice());
        }
    }
    None
}
