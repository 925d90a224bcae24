ghost use Rattle.std.specs.Prelude.{◌≡◌, IfOk, IfErr, OnOk, MatchOption, length};
ghost use Rattle.std.specs.List.{prefix_len};
ghost use Rattle.oi_base.specs.Counts.{told};
ghost use Rattle.oi_text.specs.Pairs.{text_of, pair_text, IsPair, ArePairs};
ghost use Rattle.oi_sendtargets.specs.Payloads.{IsFault};
ghost use Rattle.oi_sendtargets.specs.Listings.{AreGiven, AddressGives, NameGives, IsFoundIn, IsFound};
ghost use Rattle.oi_sendtargets.specs.Steps.{is_address, values, BeginsWith, NoTarget, IsStray, Adds, AddressAdds};

use crate::found::{Found, TargetsFault};
use crate::parts::{after, before};
use oi_base::{NoMemory, Series};
use oi_names::{IscsiName, NameFault, Portal};
use oi_text::{Pair, TextFault, read_pairs};
use std::alloc::Global;

// The portal group tag where none is told.
const DEFAULT_TAG: u16 = 1;

/// Reads what the portal `asked` answered to SendTargets (RFC 7143, appendix C). A target that names no address is reached at
/// that portal. An address that is no numeric portal is left out.
pub fn read_targets(
    alloc: Global,
    payload: &[u8],
    asked: &Portal,
) -> Result<Series<Found>, TargetsFault>
    ensures ok { IfOk result (λ found. IsFound payload.now asked.now found) }
    ensures fault { IfErr result (λ fault. IsFault payload.now fault) }
{
    match read_pairs(alloc, payload) {
        Ok(pairs) => read_listing(alloc, pairs.as_slice(), asked),
        Err(TextFault::Malformed { place }) => Err(TargetsFault::Malformed { place }),
        Err(TextFault::Memory) => Err(TargetsFault::Memory),
    }
}

fn read_listing(
    alloc: Global,
    pairs: &[Pair],
    asked: &Portal,
) -> Result<Series<Found>, TargetsFault>
    requires { ArePairs pairs.now }
    ensures ok { IfOk result (λ found. IsFoundIn pairs.now asked.now found) }
    ensures fault { IfErr result (λ fault. IsStray pairs.now fault) }
{
    let mut found = Vec::new(alloc);
    let mut rest = pairs;
    while !rest.is_empty() {
        let Ok(first) = first_target(alloc, rest) else {
            return Err(TargetsFault::Memory);
        };
        let Some(target) = first else {
            return Err(TargetsFault::Malformed {
                place: place_behind(before(pairs, pairs.len() - rest.len())),
            });
        };
        let Ok(()) = add_target(alloc, &target.name, target.addresses, asked, &mut found) else {
            return Err(TargetsFault::Memory);
        };
        rest = target.more;
    }
    Ok(Series::from_vec(found))
}

// The first target of a list, and what follows it.
#[derive(Drop)]
struct Piece<'a> {
    name: IscsiName,
    addresses: &'a [Pair],
    more: &'a [Pair],
}

fn first_target(alloc: Global, pairs: &[Pair]) -> Result<Option<Piece<'_>>, NoMemory>
    ensures { IfOk result (λ first. MatchOption first (NoTarget pairs.now)
        (λ t. BeginsWith pairs.now t.name t.addresses.now t.more.now)) }
{
    let [first, ..] = pairs else {
        return Ok(None);
    };
    if first.key.as_slice() != b"TargetName".as_slice() {
        return Ok(None);
    }
    let name = match IscsiName::read_bytes(alloc, first.value.as_slice()) {
        Ok(name) => name,
        Err(NameFault::Bad { .. }) => return Ok(None),
        Err(NameFault::Memory) => return Err(NoMemory),
    };
    let rest = after(pairs, 1);
    let count = address_count(rest);
    Ok(Some(Piece {
        name,
        addresses: before(rest, count),
        more: after(rest, count),
    }))
}

fn address_count(pairs: &[Pair]) -> usize
    ensures { result ≡ prefix_len is_address pairs.now }
{
    pairs.iter().take_while(|pair| is_address(pair)).count()
}

fn is_address(pair: &Pair) -> bool
    ensures { result ≡ is_address pair.now }
{
    pair.key.as_slice() == b"TargetAddress".as_slice()
}

// Appends what one target gives.
fn add_target(
    alloc: Global,
    name: &IscsiName,
    addresses: &[Pair],
    asked: &Portal,
    found: &mut Vec<Found>,
) -> Result<(), NoMemory>
    ensures ok { OnOk result (Adds (NameGives asked.now name.now (values addresses.now)) found.old.items found.new.items) }
{
    if addresses.is_empty() {
        found.push(Found {
            target: name.copy(alloc)?,
            portal: asked.copy(alloc)?,
            tag: DEFAULT_TAG,
        })?;
        return Ok(());
    }
    add_addresses(alloc, name, addresses, found)
}

fn add_addresses(
    alloc: Global,
    name: &IscsiName,
    addresses: &[Pair],
    found: &mut Vec<Found>,
) -> Result<(), NoMemory>
    ensures ok { OnOk result (Adds (AreGiven (AddressGives name.now) (values addresses.now)) found.old.items found.new.items) }
{
    for address in addresses {
        add_address(alloc, name, address.value.as_slice(), found)?;
    }
    Ok(())
}

// Appends what one address gives.
fn add_address(
    alloc: Global,
    name: &IscsiName,
    address: &[u8],
    found: &mut Vec<Found>,
) -> Result<(), NoMemory>
    ensures ok { OnOk result (AddressAdds name.now address.now found.old.items found.new.items) }
{
    match Portal::read_bytes(alloc, address) {
        Ok((portal, tag)) => {
            found.push(Found {
                target: name.copy(alloc)?,
                portal,
                tag: tag.unwrap_or(DEFAULT_TAG),
            })?;
            Ok(())
        }
        Err(NameFault::Bad { .. }) => Ok(()),
        Err(NameFault::Memory) => Err(NoMemory),
    }
}

// The place at which the text of these pairs ends.
fn place_behind(pairs: &[Pair]) -> u32
    requires { ArePairs pairs.now }
    ensures { result ≡ told (length (text_of pairs.now)) }
{
    let mut place: u32 = 0;
    for pair in pairs {
        place = place.saturating_add(text_length(pair));
    }
    place
}

fn text_length(pair: &Pair) -> u32
    requires { IsPair pair.now.key pair.now.value }
    ensures { result ≡ length (pair_text pair.now) }
{
    (pair.key.as_slice().len() + pair.value.as_slice().len() + 2) as u32
}
