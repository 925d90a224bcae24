ghost use Rattle.std.specs.Prelude.{◌≡◌, ◌==◌, ◌<◌, ◌≤◌, ◌+◌, IfSome, drop, length, map, take};
ghost use Rattle.std.specs.List.{position};
ghost use Rattle.oi_script.specs.Keys.{AreSound, IsSoundKey, key_named, key_of, keys_of, no_keys, params_of, segment_in, switch_of, with_key};

use crate::numbers::{is_text, number};
use oi_base::Params;

/// A key behind `login`, with its value (RFC 7143, section 13).
#[derive(Clone, Copy, Debug, PartialEq, Eq)]
pub enum Key {
    InitialR2T(bool),
    ImmediateData(bool),
    /// What the target declared.
    MaxRecvDataSegmentLength(u32),
    MaxBurstLength(u32),
    FirstBurstLength(u32),
}

/// The keys that a line names so far.
#[derive(Clone, Copy, Debug, PartialEq, Eq)]
pub struct Keys {
    pub initial_r2t: Option<bool>,
    pub immediate: Option<bool>,
    pub max_send: Option<u32>,
    pub max_burst: Option<u32>,
    pub first_burst: Option<u32>,
}

fn switch(value: &[u8]) -> Option<bool>
    ensures { result ≡ switch_of value.now }
{
    if is_text(value, b"Yes") {
        Some(true)
    } else if is_text(value, b"No") {
        Some(false)
    } else {
        None
    }
}

fn segment(value: &[u8]) -> Option<u32>
    ensures value { result ≡ segment_in value.now }
    ensures some { IfSome result (λ n. 1 ≤ n) }
{
    match number(value, 512, 16_777_215) {
        Some(n) => Some(n as u32),
        None => None,
    }
}

#[tactic(auto, unfolding(crate::specs::Keys::key_named))]
fn key_named(name: &[u8], value: &[u8]) -> Option<Key>
    ensures key { result ≡ key_named name.now value.now }
    ensures sound { IfSome result (λ k. IsSoundKey k) }
{
    if is_text(name, b"InitialR2T") {
        switch(value).map(Key::InitialR2T)
    } else if is_text(name, b"ImmediateData") {
        switch(value).map(Key::ImmediateData)
    } else if is_text(name, b"MaxRecvDataSegmentLength") {
        segment(value).map(Key::MaxRecvDataSegmentLength)
    } else if is_text(name, b"MaxBurstLength") {
        segment(value).map(Key::MaxBurstLength)
    } else if is_text(name, b"FirstBurstLength") {
        segment(value).map(Key::FirstBurstLength)
    } else {
        None
    }
}

// Where the first `=` of a word stands.
fn equals_at(word: &[u8]) -> Option<usize>
    ensures at { result ≡ position (λ b. b == 61) word.now }
    ensures bound { IfSome result (λ at. at < length word.now) }
{
    word.iter().position(|b| *b == b'=')
}

// What stands before that place, and behind it.
fn parted(word: &[u8], at: usize) -> (&[u8], &[u8])
    requires { at < length word.now }
    ensures name { result.0.now ≡ take at word.now }
    ensures value { result.1.now ≡ drop (at + 1) word.now }
{
    (&word[..at], &word[at + 1..])
}

fn read_key(word: &[u8]) -> Option<Key>
    ensures key { result ≡ key_of word.now }
    ensures sound { IfSome result (λ k. IsSoundKey k) }
{
    match equals_at(word) {
        Some(at) => {
            let (name, value) = parted(word, at);
            key_named(name, value)
        }
        None => None,
    }
}

impl Keys {
    const NONE: Keys = Keys {
        initial_r2t: None,
        immediate: None,
        max_send: None,
        max_burst: None,
        first_burst: None,
    };

    // With one key more; None where it is there already.
    fn with(self, key: Key) -> Option<Keys>
        ensures keys { result ≡ with_key self key }
        ensures sound { AreSound self → IsSoundKey key → IfSome result (λ k. AreSound k) }
    {
        let mut keys = self;
        match key {
            Key::InitialR2T(on) if self.initial_r2t.is_none() => keys.initial_r2t = Some(on),
            Key::ImmediateData(on) if self.immediate.is_none() => keys.immediate = Some(on),
            Key::MaxRecvDataSegmentLength(n) if self.max_send.is_none() => keys.max_send = Some(n),
            Key::MaxBurstLength(n) if self.max_burst.is_none() => keys.max_burst = Some(n),
            Key::FirstBurstLength(n) if self.first_burst.is_none() => keys.first_burst = Some(n),
            _ => return None,
        }
        Some(keys)
    }

    /// What the line says; where it says nothing, the defaults of RFC 7143, section 13.
    pub fn params(self) -> Params
        ensures params { result ≡ params_of self }
        ensures sound { AreSound self → 1 ≤ result.max_send }
    {
        Params {
            initial_r2t: self.initial_r2t.unwrap_or(true),
            immediate: self.immediate.unwrap_or(true),
            max_send: self.max_send.unwrap_or(8192),
            max_recv: 8192,
            max_burst: self.max_burst.unwrap_or(262_144),
            first_burst: self.first_burst.unwrap_or(65_536),
            outstanding: 1,
            time2wait: 2,
            time2retain: 20,
        }
    }
}

/// The keys that the words are, each at most once.
pub fn read_keys(words: &[&[u8]]) -> Option<Keys>
    ensures keys { result ≡ keys_of no_keys (map (λ w. w.now) words.now) }
    ensures sound { IfSome result (λ k. AreSound k) }
{
    let mut keys = Keys::NONE;
    for word in words {
        let Some(key) = read_key(word) else {
            return None;
        };
        let Some(more) = keys.with(key) else {
            return None;
        };
        keys = more;
    }
    Some(keys)
}
