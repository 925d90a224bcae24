ghost use Rattle.std.specs.Prelude.{◌≡◌, ◌++◌, ℕ, List, OnOk, OnErr};
ghost use Rattle.std.specs.List.{prefix_len};
ghost use Rattle.oi_text.specs.Pairs.{text_of, spelled};
ghost use Rattle.oi_sendtargets.specs.Payloads.{target_name, target_address, target_pairs, payload_of};
ghost use Rattle.oi_sendtargets.specs.Listings.{address_text, target_at, targets_of};
ghost use Rattle.oi_sendtargets.specs.Steps.{has_name};

use crate::found::Found;
use crate::parts::{after, before};
use oi_base::{NoMemory, write_number};
use oi_names::IscsiName;

/// Appends the payload that tells of these portals, in this order. A name is written once for neighbours that have it.
pub fn write_targets(found: &[Found], out: &mut Vec<u8>) -> Result<(), NoMemory>
    ensures ok { OnOk result (out.new.items ≡ out.old.items ++ payload_of (targets_of found.now)) }
    ensures err { OnErr result (out.new.items ≡ out.old.items) }
{
    let start = out.len();
    let done = append_targets(found, out);
    if done.is_err() {
        out.truncate(start);
    }
    done
}

fn append_targets(found: &[Found], out: &mut Vec<u8>) -> Result<(), NoMemory>
    ensures ok { OnOk result (out.new.items ≡ out.old.items ++ payload_of (targets_of found.now)) }
    ensures err { OnErr result ((more : List ℕ) × (out.new.items ≡ out.old.items ++ more)) }
{
    let mut rest = found;
    while let [first, ..] = rest {
        let count = neighbour_count(&first.target, rest);
        append_target(&first.target, before(rest, count), out)?;
        rest = after(rest, count);
    }
    Ok(())
}

// How many of the first ones are portals of this target.
fn neighbour_count(target: &IscsiName, found: &[Found]) -> usize
    ensures { result ≡ prefix_len (has_name target.now) found.now }
{
    found
        .iter()
        .take_while(|listed| has_name(target, listed))
        .count()
}

fn has_name(target: &IscsiName, listed: &Found) -> bool
    ensures { result ≡ has_name target.now listed.now }
{
    listed.target == *target
}

// Appends a name, and behind it the addresses of these portals.
fn append_target(target: &IscsiName, found: &[Found], out: &mut Vec<u8>) -> Result<(), NoMemory>
    ensures ok { OnOk result (out.new.items ≡ out.old.items ++ text_of (target_pairs (target_at target.now found.now))) }
    ensures err { OnErr result ((more : List ℕ) × (out.new.items ≡ out.old.items ++ more)) }
{
    append_name(target, out)?;
    for listed in found {
        append_address(listed, out)?;
    }
    Ok(())
}

fn append_name(target: &IscsiName, out: &mut Vec<u8>) -> Result<(), NoMemory>
    ensures ok { OnOk result (out.new.items ≡ out.old.items ++ spelled target_name target.now) }
    ensures err { OnErr result ((more : List ℕ) × (out.new.items ≡ out.old.items ++ more)) }
{
    out.extend_from_slice(b"TargetName=")?;
    out.extend_from_slice(target.as_slice())?;
    out.push(0)?;
    Ok(())
}

fn append_address(listed: &Found, out: &mut Vec<u8>) -> Result<(), NoMemory>
    ensures ok { OnOk result (out.new.items ≡ out.old.items ++ spelled target_address (address_text listed.now)) }
    ensures err { OnErr result ((more : List ℕ) × (out.new.items ≡ out.old.items ++ more)) }
{
    out.extend_from_slice(b"TargetAddress=")?;
    listed.portal.write(out)?;
    out.push(b',')?;
    write_number(listed.tag as u64, out)?;
    out.push(0)?;
    Ok(())
}
