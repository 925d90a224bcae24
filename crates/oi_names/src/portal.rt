ghost use Rattle.std.specs.Prelude.{◌≡◌, ◌≤◌, ◌<◌, ◌+◌, ◌++◌, ◌==◌, ℕ, List, Option, not, IfOk, IfErr, OnOk, OnErr, MatchOption, length, take, drop};
ghost use Rattle.std.specs.List.{prefix_len};
ghost use Rattle.oi_base.specs.Decimal.{IsNumber, IsNumberOf};
ghost use Rattle.oi_names.specs.Grammars.{IsJoined};
ghost use Rattle.oi_names.specs.Names.{IsFault};
ghost use Rattle.oi_names.specs.Portals.{HasPort, IsAddress, IsEndpoint, IsPortal, IsPortalOf, IsSpelled, lower_byte, lower_case, portal_text};
ghost use Rattle.oi_names.specs.Reaches.{IsReach};

use crate::address::{address_reach, number_reach};
use crate::fault::{NameFault, bad};
use crate::reach::{Reach, after, behind, further};
use oi_base::{Label, NoMemory, read_number, write_number};
use std::alloc::Global;

/// Where a target listens (RFC 7143, section 4.2.3).
#[derive(Debug, PartialEq, Eq, Drop)]
pub struct Portal {
    /// Four decimal numbers, or hex digits and colons in brackets, in lower case. Addresses are compared as texts.
    pub address: Label,
    /// The TCP port.
    pub port: u16,
}

impl Portal {
    /// The port of iSCSI (RFC 7143, section 4.2.7.1), for which none need be written.
    pub const DEFAULT_PORT: u16 = 3260;

    /// Reads `ADDRESS[:PORT][,TAG]`, and answers the portal and its portal group tag.
    pub fn read(alloc: Global, text: &str) -> Result<(Portal, Option<u16>), NameFault>
        ensures ok { IfOk result (λ r. IsPortalOf r.0.address r.0.port r.1 text.now) }
        ensures fault { IfErr result (λ e. IsFault IsPortal text.now e) }
    {
        Portal::read_bytes(alloc, text.as_bytes())
    }

    /// Reads the same from bytes of which it is not known that they are a text.
    pub fn read_bytes(alloc: Global, text: &[u8]) -> Result<(Portal, Option<u16>), NameFault>
        ensures ok { IfOk result (λ r. IsPortalOf r.0.address r.0.port r.1 text.now) }
        ensures fault { IfErr result (λ e. IsFault IsPortal text.now e) }
    {
        let Some(parts) = read_parts(text) else {
            return Err(bad(portal_reach(text).place));
        };
        match lower_case(alloc, before(text, parts.host)) {
            Ok(address) => Ok((
                Portal {
                    address,
                    port: parts.port,
                },
                parts.tag,
            )),
            Err(_) => Err(NameFault::Memory),
        }
    }

    /// Appends `ADDRESS:PORT`.
    pub fn write(&self, out: &mut Vec<u8>) -> Result<(), NoMemory>
        ensures ok { OnOk result (out.new.items ≡ out.old.items ++ portal_text self.now.address self.now.port) }
        ensures err { OnErr result (out.new.items ≡ out.old.items) }
    {
        let start = out.len();
        let done = append(self.address.as_slice(), self.port, out);
        if done.is_err() {
            out.truncate(start);
        }
        done
    }

    pub fn copy(&self, alloc: Global) -> Result<Portal, NoMemory>
        ensures { IfOk result (λ p. p ≡ self.now) }
    {
        Ok(Portal {
            address: self.address.copy(alloc)?,
            port: self.port,
        })
    }
}

// Appends an address and a port; where it fails, a part of them.
fn append(address: &[u8], port: u16, out: &mut Vec<u8>) -> Result<(), NoMemory>
    ensures ok { OnOk result (out.new.items ≡ out.old.items ++ portal_text address.now port) }
    ensures err { OnErr result ((more : List ℕ) × (out.new.items ≡ out.old.items ++ more)) }
{
    out.extend_from_slice(address)?;
    out.push(b':')?;
    write_number(port as u64, out)
}

// How far a text goes in an address with a port behind it.
fn ported_reach(text: &[u8], address: Reach) -> Reach
    requires { IsReach IsAddress text.now address }
    ensures { IsReach (IsJoined IsAddress 58 (IsNumber 1 65535)) text.now result }
{
    match behind(text, address, b':') {
        Some(digits) => {
            let port = number_reach(digits, 1, 65535);
            Reach {
                place: address.place + 1 + port.place,
                whole: port.whole,
            }
        }
        None => Reach {
            place: address.place,
            whole: false,
        },
    }
}

fn endpoint_reach(text: &[u8]) -> Reach
    ensures { IsReach IsEndpoint text.now result }
{
    let address = address_reach(text);
    let ported = ported_reach(text, address);
    further(address, ported)
}

// How far a text goes in an address, perhaps with a port, with a tag behind it.
fn tagged_reach(text: &[u8], endpoint: Reach) -> Reach
    requires { IsReach IsEndpoint text.now endpoint }
    ensures { IsReach (IsJoined IsEndpoint 44 (IsNumber 0 65535)) text.now result }
{
    match behind(text, endpoint, b',') {
        Some(digits) => {
            let tag = number_reach(digits, 0, 65535);
            Reach {
                place: endpoint.place + 1 + tag.place,
                whole: tag.whole,
            }
        }
        None => Reach {
            place: endpoint.place,
            whole: false,
        },
    }
}

fn portal_reach(text: &[u8]) -> Reach
    ensures { IsReach IsPortal text.now result }
{
    let endpoint = endpoint_reach(text);
    let tagged = tagged_reach(text, endpoint);
    further(endpoint, tagged)
}

// An address of so many bytes, and the port behind it.
#[derive(Clone, Copy)]
struct Endpoint {
    host: usize,
    port: u16,
}

fn read_endpoint(text: &[u8]) -> Option<Endpoint>
    ensures { MatchOption result (IsEndpoint text.now → ⊥)
        (λ r. (r.host ≤ length text.now) × IsAddress (take r.host text.now) × HasPort (take r.host text.now) r.port text.now) }
{
    let address = address_reach(text);
    if !address.whole {
        return None;
    }
    if address.place == text.len() {
        return Some(Endpoint {
            host: address.place,
            port: Portal::DEFAULT_PORT,
        });
    }
    let Some(digits) = behind(text, address, b':') else {
        return None;
    };
    let Some(port) = read_port(digits) else {
        return None;
    };
    Some(Endpoint {
        host: address.place,
        port,
    })
}

fn read_port(text: &[u8]) -> Option<u16>
    ensures { MatchOption result ((n : ℕ) → 1 ≤ n → n ≤ 65535 → IsNumberOf text.now n → ⊥)
        (λ n. (1 ≤ n) × (n ≤ 65535) × IsNumberOf text.now n) }
{
    match read_number(text, 1, 65535) {
        Some(port) => Some(port as u16),
        None => None,
    }
}

// The parts of a portal's text: an address of so many bytes, the port and the tag.
#[derive(Clone, Copy)]
struct Parts {
    host: usize,
    port: u16,
    tag: Option<u16>,
}

fn read_parts(text: &[u8]) -> Option<Parts>
    ensures { MatchOption result (IsPortal text.now → ⊥)
        (λ r. (r.host ≤ length text.now) × IsSpelled (take r.host text.now) r.port r.tag text.now) }
{
    let front = endpoint_bytes(text);
    let Some(endpoint) = read_endpoint(before(text, front)) else {
        return None;
    };
    if front == text.len() {
        return Some(Parts {
            host: endpoint.host,
            port: endpoint.port,
            tag: None,
        });
    }
    let Some(tag) = read_tag(after(text, front + 1)) else {
        return None;
    };
    Some(Parts {
        host: endpoint.host,
        port: endpoint.port,
        tag: Some(tag),
    })
}

fn read_tag(text: &[u8]) -> Option<u16>
    ensures { MatchOption result ((n : ℕ) → n ≤ 65535 → IsNumberOf text.now n → ⊥)
        (λ n. (n ≤ 65535) × IsNumberOf text.now n) }
{
    match read_number(text, 0, 65535) {
        Some(tag) => Some(tag as u16),
        None => None,
    }
}

// How many bytes stand before the first comma.
fn endpoint_bytes(text: &[u8]) -> usize
    ensures { result ≡ prefix_len (λ b. not (b == 44)) text.now }
{
    text.iter().take_while(|byte| **byte != b',').count()
}

fn before(text: &[u8], at: usize) -> &[u8]
    requires { at ≤ length text.now }
    ensures { result.now ≡ take at text.now }
{
    &text[..at]
}

fn lower_byte(byte: u8) -> u8
    ensures { result ≡ lower_byte byte }
{
    if b'A' <= byte && byte <= b'Z' {
        byte + 32
    } else {
        byte
    }
}

fn lower_case(alloc: Global, text: &[u8]) -> Result<Label, NoMemory>
    ensures { IfOk result (λ l. l ≡ lower_case text.now) }
{
    let bytes: Vec<u8> = text.iter().map(|byte| lower_byte(*byte)).collect(alloc)?;
    Ok(Label::from_vec(bytes))
}
