ghost use Rattle.std.specs.Prelude.{◌≡◌, ◌≤◌, max};
ghost use Rattle.oi_negotiate.specs.Rows.{number_with, word_row, number_row, word_by, number_by};

use crate::keys::{NumberKey, WordKey};

/// How two words settle.
#[derive(Clone, Copy, Debug, PartialEq, Eq)]
pub enum WordRule {
    Or,
    And,
}

/// How two numbers settle.
#[derive(Clone, Copy, Debug, PartialEq, Eq)]
pub enum NumberRule {
    Least,
    Greatest,
    Theirs,
}

#[derive(Clone, Copy, Debug, PartialEq, Eq)]
pub struct WordRow {
    pub default: bool,
    pub rule: WordRule,
}

#[derive(Clone, Copy, Debug, PartialEq, Eq)]
pub struct NumberRow {
    pub default: u32,
    pub rule: NumberRule,
    pub low: u32,
    pub high: u32,
}

pub fn row_of_word(key: WordKey) -> WordRow
    ensures { result ≡ word_row key }
{
    let rule = match key {
        WordKey::InitialR2T => WordRule::Or,
        WordKey::ImmediateData => WordRule::And,
        WordKey::DataPDUInOrder => WordRule::Or,
        WordKey::DataSequenceInOrder => WordRule::Or,
    };
    WordRow {
        default: true,
        rule,
    }
}

const fn numbers(default: u32, rule: NumberRule, low: u32, high: u32) -> NumberRow
    ensures { result ≡ number_with default rule low high }
{
    NumberRow {
        default,
        rule,
        low,
        high,
    }
}

pub fn row_of_number(key: NumberKey) -> NumberRow
    ensures { result ≡ number_row key }
{
    match key {
        NumberKey::MaxBurstLength => numbers(262_144, NumberRule::Least, 512, 16_777_215),
        NumberKey::FirstBurstLength => numbers(65_536, NumberRule::Least, 512, 16_777_215),
        NumberKey::DefaultTime2Wait => numbers(2, NumberRule::Greatest, 0, 3600),
        NumberKey::DefaultTime2Retain => numbers(20, NumberRule::Least, 0, 3600),
        NumberKey::MaxOutstandingR2T => numbers(1, NumberRule::Least, 1, 65_535),
        NumberKey::MaxConnections => numbers(1, NumberRule::Least, 1, 65_535),
        NumberKey::ErrorRecoveryLevel => numbers(0, NumberRule::Least, 0, 2),
        NumberKey::MaxRecvDataSegmentLength => {
            numbers(8192, NumberRule::Theirs, 512, 16_777_215)
        }
    }
}

pub fn settle_words(rule: WordRule, ours: bool, theirs: bool) -> bool
    ensures { result ≡ word_by rule ours theirs }
{
    match rule {
        WordRule::Or => ours || theirs,
        WordRule::And => ours && theirs,
    }
}

pub fn settle_numbers(rule: NumberRule, ours: u32, theirs: u32) -> u32
    ensures value { result ≡ number_by rule ours theirs }
    ensures bound { result ≤ max ours theirs }
{
    match rule {
        NumberRule::Least => ours.min(theirs),
        NumberRule::Greatest => ours.max(theirs),
        NumberRule::Theirs => theirs,
    }
}
