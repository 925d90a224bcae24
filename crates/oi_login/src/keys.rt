ghost use Rattle.std.specs.Prelude.{◌≡◌, ◌++◌, OnOk, IfOk};
ghost use Rattle.std.specs.Fmt.{decimal};
ghost use Rattle.oi_text.specs.Pairs.{spelled, text_of};
ghost use Rattle.oi_login.specs.Configs.{HasNames, IsTargetName};
ghost use Rattle.oi_login.specs.Keys.{word_text, binary_text, session_type, target_keys, method_of, first_keys, flow_keys, time_keys, fixed_keys, session_keys, offer_keys};

use crate::config::{LoginAuth, LoginConfig};
use oi_base::{NoMemory, write_number};
use oi_names::IscsiName;
use oi_negotiate::Offer;
use oi_text::write_binary;
use std::alloc::Global;

/// Appends one pair as text.
pub fn put(key: &[u8], value: &[u8], out: &mut Vec<u8>) -> Result<(), NoMemory>
    ensures { OnOk result (out.new.items ≡ out.old.items ++ spelled key.now value.now) }
{
    out.extend_from_slice(key)?;
    out.push(b'=')?;
    out.extend_from_slice(value)?;
    out.push(0)?;
    Ok(())
}

fn put_word(key: &[u8], value: bool, out: &mut Vec<u8>) -> Result<(), NoMemory>
    ensures { OnOk result (out.new.items ≡ out.old.items ++ spelled key.now (word_text value)) }
{
    match value {
        true => put(key, b"Yes", out),
        false => put(key, b"No", out),
    }
}

/// Appends a key with a decimal number.
pub fn put_number(key: &[u8], value: u32, out: &mut Vec<u8>) -> Result<(), NoMemory>
    ensures { OnOk result (out.new.items ≡ out.old.items ++ spelled key.now (decimal value)) }
{
    out.extend_from_slice(key)?;
    out.push(b'=')?;
    write_number(value as u64, out)?;
    out.push(0)?;
    Ok(())
}

/// Appends a key with a binary value.
pub fn put_bytes(key: &[u8], bytes: &[u8], out: &mut Vec<u8>) -> Result<(), NoMemory>
    ensures { OnOk result (out.new.items ≡ out.old.items ++ spelled key.now (binary_text bytes.now)) }
{
    out.extend_from_slice(key)?;
    out.push(b'=')?;
    write_binary(bytes, out)?;
    out.push(0)?;
    Ok(())
}

/// The text of the first request.
pub fn first_text(alloc: Global, config: &LoginConfig) -> Result<Vec<u8>, NoMemory>
    ensures text { IfOk result (λ text. text.items ≡ text_of (first_keys config.now)) }
    ensures names { OnOk result (HasNames config.now) }
{
    let mut out = Vec::new(alloc);
    put(b"InitiatorName", config.initiator.as_slice(), &mut out)?;
    put(b"SessionType", session_type(&config.target), &mut out)?;
    put_target(&config.target, &mut out)?;
    put(b"AuthMethod", method_of(&config.auth), &mut out)?;
    Ok(out)
}

fn session_type(target: &Option<IscsiName>) -> &'static [u8]
    ensures { result.now ≡ session_type target.now }
{
    match target {
        None => b"Discovery",
        Some(_) => b"Normal",
    }
}

fn put_target(target: &Option<IscsiName>, out: &mut Vec<u8>) -> Result<(), NoMemory>
    ensures text { OnOk result (out.new.items ≡ out.old.items ++ text_of (target_keys target.now)) }
    ensures name { OnOk result (IsTargetName target.now) }
{
    match target {
        None => Ok(()),
        Some(name) => {
            put(b"TargetName", name.as_slice(), out)?;
            Ok(())
        }
    }
}

fn method_of(auth: &Option<LoginAuth>) -> &'static [u8]
    ensures { result.now ≡ method_of auth.now }
{
    match auth {
        None => b"None",
        Some(_) => b"CHAP",
    }
}

/// The text of the offer, with which the operational stage begins.
pub fn offer_text(alloc: Global, config: &LoginConfig) -> Result<Vec<u8>, NoMemory>
    ensures { IfOk result (λ text. text.items ≡ text_of (offer_keys config.now)) }
{
    let mut out = Vec::new(alloc);
    put_session(&config.target, &config.offer, &mut out)?;
    put(b"HeaderDigest", b"None", &mut out)?;
    put(b"DataDigest", b"None", &mut out)?;
    put_number(b"MaxRecvDataSegmentLength", config.offer.max_recv, &mut out)?;
    Ok(out)
}

fn put_session(target: &Option<IscsiName>, offer: &Offer, out: &mut Vec<u8>) -> Result<(), NoMemory>
    ensures { OnOk result (out.new.items ≡ out.old.items ++ text_of (session_keys target.now offer.now)) }
{
    match target {
        None => Ok(()),
        Some(_) => {
            put_flow(offer, out)?;
            put_times(offer, out)?;
            put_fixed(out)?;
            Ok(())
        }
    }
}

fn put_flow(offer: &Offer, out: &mut Vec<u8>) -> Result<(), NoMemory>
    ensures { OnOk result (out.new.items ≡ out.old.items ++ text_of (flow_keys offer.now)) }
{
    put_word(b"InitialR2T", offer.initial_r2t, out)?;
    put_word(b"ImmediateData", offer.immediate, out)?;
    put_number(b"MaxBurstLength", offer.max_burst, out)?;
    put_number(b"FirstBurstLength", offer.first_burst, out)?;
    Ok(())
}

fn put_times(offer: &Offer, out: &mut Vec<u8>) -> Result<(), NoMemory>
    ensures { OnOk result (out.new.items ≡ out.old.items ++ text_of (time_keys offer.now)) }
{
    put_number(b"DefaultTime2Wait", offer.time2wait as u32, out)?;
    put_number(b"DefaultTime2Retain", offer.time2retain as u32, out)?;
    put_number(b"MaxOutstandingR2T", offer.outstanding as u32, out)?;
    Ok(())
}

fn put_fixed(out: &mut Vec<u8>) -> Result<(), NoMemory>
    ensures { OnOk result (out.new.items ≡ out.old.items ++ text_of fixed_keys) }
{
    put(b"MaxConnections", b"1", out)?;
    put(b"ErrorRecoveryLevel", b"0", out)?;
    put(b"DataPDUInOrder", b"Yes", out)?;
    put(b"DataSequenceInOrder", b"Yes", out)?;
    Ok(())
}
