ghost use Rattle.std.specs.Prelude.{◌≡◌};
ghost use Rattle.oi_negotiate.specs.Keys.{word_name, number_name, number_key_of, key_of};

/// Keys whose value is `Yes` or `No`.
#[derive(Clone, Copy, Debug, PartialEq, Eq)]
pub enum WordKey {
    InitialR2T,
    ImmediateData,
    DataPDUInOrder,
    DataSequenceInOrder,
}

/// Keys whose value is a number.
#[derive(Clone, Copy, Debug, PartialEq, Eq)]
pub enum NumberKey {
    MaxBurstLength,
    FirstBurstLength,
    DefaultTime2Wait,
    DefaultTime2Retain,
    MaxOutstandingR2T,
    MaxConnections,
    ErrorRecoveryLevel,
    MaxRecvDataSegmentLength,
}

/// The keys that are negotiated (RFC 7143, section 13).
#[derive(Clone, Copy, Debug, PartialEq, Eq)]
pub enum Key {
    Word(WordKey),
    Number(NumberKey),
    HeaderDigest,
    DataDigest,
}

/// The key of a name; None where the name is no key of the negotiation. Names are case-sensitive.
#[tactic(auto, unfolding(crate::specs::Keys::key_of))]
pub fn key_named(name: &[u8]) -> Option<Key>
    ensures { result ≡ key_of name.now }
{
    if name == b"InitialR2T".as_slice() {
        Some(Key::Word(WordKey::InitialR2T))
    } else if name == b"ImmediateData".as_slice() {
        Some(Key::Word(WordKey::ImmediateData))
    } else if name == b"DataPDUInOrder".as_slice() {
        Some(Key::Word(WordKey::DataPDUInOrder))
    } else if name == b"DataSequenceInOrder".as_slice() {
        Some(Key::Word(WordKey::DataSequenceInOrder))
    } else if name == b"HeaderDigest".as_slice() {
        Some(Key::HeaderDigest)
    } else if name == b"DataDigest".as_slice() {
        Some(Key::DataDigest)
    } else {
        number_key_named(name)
    }
}

#[tactic(auto, unfolding(crate::specs::Keys::number_key_of))]
fn number_key_named(name: &[u8]) -> Option<Key>
    ensures { result ≡ number_key_of name.now }
{
    if name == b"MaxBurstLength".as_slice() {
        Some(Key::Number(NumberKey::MaxBurstLength))
    } else if name == b"FirstBurstLength".as_slice() {
        Some(Key::Number(NumberKey::FirstBurstLength))
    } else if name == b"DefaultTime2Wait".as_slice() {
        Some(Key::Number(NumberKey::DefaultTime2Wait))
    } else if name == b"DefaultTime2Retain".as_slice() {
        Some(Key::Number(NumberKey::DefaultTime2Retain))
    } else if name == b"MaxOutstandingR2T".as_slice() {
        Some(Key::Number(NumberKey::MaxOutstandingR2T))
    } else if name == b"MaxConnections".as_slice() {
        Some(Key::Number(NumberKey::MaxConnections))
    } else if name == b"ErrorRecoveryLevel".as_slice() {
        Some(Key::Number(NumberKey::ErrorRecoveryLevel))
    } else if name == b"MaxRecvDataSegmentLength".as_slice() {
        Some(Key::Number(NumberKey::MaxRecvDataSegmentLength))
    } else {
        None
    }
}

pub(crate) fn word_key_name(key: WordKey) -> &'static [u8]
    ensures { result.now ≡ word_name key }
{
    match key {
        WordKey::InitialR2T => b"InitialR2T",
        WordKey::ImmediateData => b"ImmediateData",
        WordKey::DataPDUInOrder => b"DataPDUInOrder",
        WordKey::DataSequenceInOrder => b"DataSequenceInOrder",
    }
}

pub(crate) fn number_key_name(key: NumberKey) -> &'static [u8]
    ensures { result.now ≡ number_name key }
{
    match key {
        NumberKey::MaxBurstLength => b"MaxBurstLength",
        NumberKey::FirstBurstLength => b"FirstBurstLength",
        NumberKey::DefaultTime2Wait => b"DefaultTime2Wait",
        NumberKey::DefaultTime2Retain => b"DefaultTime2Retain",
        NumberKey::MaxOutstandingR2T => b"MaxOutstandingR2T",
        NumberKey::MaxConnections => b"MaxConnections",
        NumberKey::ErrorRecoveryLevel => b"ErrorRecoveryLevel",
        NumberKey::MaxRecvDataSegmentLength => b"MaxRecvDataSegmentLength",
    }
}
