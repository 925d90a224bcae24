ghost use Rattle.std.specs.Prelude.{◌≡◌, ◌<◌, ◌*◌, IfOk, IfSome, map, replicate};
ghost use Rattle.oi_base.specs.Limits.{block_length};
ghost use Rattle.oi_scsi.specs.Requests.{AreBlocks, IsValid};
ghost use Rattle.oi_script.specs.Requests.{blocks_in, in_action, key_pair_of, kind_of, lun_in, lun_kind, out_action, plain_of, read_of, request_to, reservation_of, reserve_of, write_of};

use crate::numbers::{hex_byte, hex_key, is_text, number};
use oi_base::{Blob, NoMemory};
use oi_scsi::{Kind, Request};
use std::alloc::Global;

/// The number of a logical unit.
pub fn lun(text: &[u8]) -> Option<u8>
    ensures { result ≡ lun_in text.now }
{
    match number(text, 0, 255) {
        Some(lun) => Some(lun as u8),
        None => None,
    }
}

// What is asked by the unit's number alone.
fn lun_kind(verb: &[u8]) -> Option<Kind>
    ensures kind { result ≡ lun_kind verb.now }
    ensures valid { IfSome result (λ k. IsValid k) }
{
    if is_text(verb, b"unit") {
        Some(Kind::Unit)
    } else if is_text(verb, b"inquiry") {
        Some(Kind::Inquiry)
    } else if is_text(verb, b"capacity") {
        Some(Kind::Capacity)
    } else if is_text(verb, b"luns") {
        Some(Kind::Luns)
    } else if is_text(verb, b"sync") {
        Some(Kind::Sync)
    } else {
        None
    }
}

// The address and the number of blocks, which end at most at 2^63.
fn blocks(lba: &[u8], count: &[u8]) -> Option<(u64, u16)>
    ensures value { result ≡ blocks_in lba.now count.now }
    ensures valid { IfSome result (λ b. AreBlocks b.0 b.1) }
{
    let lba = number(lba, 0, u64::MAX)?;
    let count = number(count, 1, 2048)?;
    if lba <= (1 << 63) - count {
        Some((lba, count as u16))
    } else {
        None
    }
}

// `read LUN LBA BLOCKS`, from the address on
fn read(fields: &[&[u8]]) -> Option<Kind>
    ensures kind { result ≡ read_of (map (λ w. w.now) fields.now) }
    ensures valid { IfSome result (λ k. IsValid k) }
{
    match fields {
        [lba, count] => {
            let (lba, blocks) = blocks(lba, count)?;
            Some(Kind::Read { lba, blocks })
        }
        _ => None,
    }
}

// So many blocks of the byte.
fn filled(alloc: Global, blocks: u16, fill: u8) -> Result<Blob, NoMemory>
    ensures { IfOk result (λ b. b ≡ replicate (block_length * blocks) fill) }
{
    Ok(Blob::from_vec(vec![in alloc; fill; 512 * blocks as usize]?))
}

// `write LUN LBA BLOCKS FILL`
fn write(alloc: Global, fields: &[&[u8]]) -> Result<Option<Kind>, NoMemory>
    ensures kind { IfOk result (λ o. o ≡ write_of (map (λ w. w.now) fields.now)) }
    ensures valid { IfOk result (λ o. IfSome o (λ k. IsValid k)) }
{
    match fields {
        [lba, count, fill] => match (blocks(lba, count), hex_byte(fill)) {
            (Some((lba, blocks)), Some(fill)) => {
                let payload = filled(alloc, blocks, fill)?;
                Ok(Some(Kind::Write {
                    lba,
                    blocks,
                    payload,
                }))
            }
            _ => Ok(None),
        },
        _ => Ok(None),
    }
}

// The service action of PERSISTENT RESERVE OUT.
#[tactic(auto, unfolding(crate::specs::Requests::out_action))]
fn out_action(word: &[u8]) -> Option<u8>
    ensures action { result ≡ out_action word.now }
    ensures bound { IfSome result (λ a. a < 32) }
{
    if is_text(word, b"register") {
        Some(0)
    } else if is_text(word, b"reserve") {
        Some(1)
    } else if is_text(word, b"release") {
        Some(2)
    } else if is_text(word, b"clear") {
        Some(3)
    } else if is_text(word, b"preempt") {
        Some(4)
    } else if is_text(word, b"ignore") {
        Some(6)
    } else {
        None
    }
}

// The key of the initiator, and the new one.
fn key_pair(fields: &[&[u8]]) -> Option<(u64, u64)>
    ensures { result ≡ key_pair_of (map (λ w. w.now) fields.now) }
{
    match fields {
        [key, new_key] => {
            let key = hex_key(key)?;
            let new_key = hex_key(new_key)?;
            Some((key, new_key))
        }
        _ => None,
    }
}

// `prout LUN ACTION FORM KEY NEWKEY`
fn reserve(fields: &[&[u8]]) -> Option<Kind>
    ensures kind { result ≡ reserve_of (map (λ w. w.now) fields.now) }
    ensures valid { IfSome result (λ k. IsValid k) }
{
    match fields {
        [action, form, keys @ ..] => {
            let action = out_action(action)?;
            let form = number(form, 0, 15)?;
            let (key, new_key) = key_pair(keys)?;
            Some(Kind::ReserveOut {
                action,
                form: form as u8,
                key,
                new_key,
            })
        }
        _ => None,
    }
}

// The service action of PERSISTENT RESERVE IN.
fn in_action(word: &[u8]) -> Option<u8>
    ensures action { result ≡ in_action word.now }
    ensures bound { IfSome result (λ a. a < 32) }
{
    if is_text(word, b"keys") {
        Some(0)
    } else if is_text(word, b"reservation") {
        Some(1)
    } else {
        None
    }
}

// `prin LUN ACTION`
fn reservation(fields: &[&[u8]]) -> Option<Kind>
    ensures kind { result ≡ reservation_of (map (λ w. w.now) fields.now) }
    ensures valid { IfSome result (λ k. IsValid k) }
{
    match fields {
        [action] => {
            let action = in_action(action)?;
            Some(Kind::ReserveIn { action })
        }
        _ => None,
    }
}

// `VERB LUN`
fn plain(verb: &[u8], fields: &[&[u8]]) -> Option<Kind>
    ensures kind { result ≡ plain_of verb.now (map (λ w. w.now) fields.now) }
    ensures valid { IfSome result (λ k. IsValid k) }
{
    match fields {
        [] => lun_kind(verb),
        _ => None,
    }
}

fn kind(alloc: Global, verb: &[u8], fields: &[&[u8]]) -> Result<Option<Kind>, NoMemory>
    ensures kind { IfOk result (λ o. o ≡ kind_of verb.now (map (λ w. w.now) fields.now)) }
    ensures valid { IfOk result (λ o. IfSome o (λ k. IsValid k)) }
{
    if is_text(verb, b"read") {
        Ok(read(fields))
    } else if is_text(verb, b"write") {
        write(alloc, fields)
    } else if is_text(verb, b"prout") {
        Ok(reserve(fields))
    } else if is_text(verb, b"prin") {
        Ok(reservation(fields))
    } else {
        Ok(plain(verb, fields))
    }
}

/// The request that a verb, the number of a logical unit and what stands behind them ask for.
pub fn request(
    alloc: Global,
    verb: &[u8],
    unit: &[u8],
    fields: &[&[u8]],
) -> Result<Option<Request>, NoMemory>
    ensures request { IfOk result (λ o. o ≡ request_to (lun_in unit.now) (kind_of verb.now (map (λ w. w.now) fields.now))) }
    ensures valid { IfOk result (λ o. IfSome o (λ r. IsValid r.kind)) }
{
    let Some(lun) = lun(unit) else {
        return Ok(None);
    };
    match kind(alloc, verb, fields)? {
        Some(kind) => Ok(Some(Request { lun, kind })),
        None => Ok(None),
    }
}
