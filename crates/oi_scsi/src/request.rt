ghost use Rattle.std.specs.Prelude.{◌≡◌, ◌↔◌, ◌++◌, IsTrue, IfOk, replicate};
ghost use Rattle.std.specs.Int.{to_be_bytes, w64};
ghost use Rattle.oi_scsi.specs.Requests.{AreBlocks, IsValid, reads, transfer_length, writes, written_data};

use oi_base::{Blob, NoMemory};
use std::alloc::Global;

const BLOCK: u32 = 512;

const RESERVE_OUT_LENGTH: u32 = 24;

/// A request to a logical unit.
#[derive(Debug, Drop, PartialEq, Eq)]
pub struct Request {
    pub lun: u8,
    pub kind: Kind,
}

/// What is requested. Addresses and counts are in blocks of 512 bytes.
#[derive(Debug, Drop, PartialEq, Eq)]
pub enum Kind {
    Read {
        lba: u64,
        blocks: u16,
    },
    Write {
        lba: u64,
        blocks: u16,
        payload: Blob,
    },
    /// TEST UNIT READY.
    Unit,
    Inquiry,
    /// READ CAPACITY(10).
    Capacity,
    /// REPORT LUNS.
    Luns,
    /// SYNCHRONIZE CACHE(10).
    Sync,
    /// PERSISTENT RESERVE OUT with the service action, the type of reservation and the two keys of its parameters.
    ReserveOut {
        action: u8,
        form: u8,
        key: u64,
        new_key: u64,
    },
    /// PERSISTENT RESERVE IN with the service action.
    ReserveIn {
        action: u8,
    },
}

impl Kind {
    /// The bytes that it moves (the expected data transfer length of its command, RFC 7143, section 11.3.4).
    pub fn length(&self) -> u32
        ensures { result ≡ transfer_length self.now }
    {
        length(self)
    }

    /// Whether the target sends data for it.
    pub fn reads(&self) -> bool
        ensures { result ≡ reads self.now }
    {
        match self {
            Kind::Read { .. }
            | Kind::Inquiry
            | Kind::Capacity
            | Kind::Luns
            | Kind::ReserveIn { .. } => true,
            Kind::Write { .. } | Kind::Unit | Kind::Sync | Kind::ReserveOut { .. } => false,
        }
    }

    /// Whether it sends data to the target.
    pub fn writes(&self) -> bool
        ensures { result ≡ writes self.now }
    {
        match self {
            Kind::Write { .. } | Kind::ReserveOut { .. } => true,
            _ => false,
        }
    }

    /// A copy of the data that it sends; empty where it sends none.
    pub fn data(&self, alloc: Global) -> Result<Blob, NoMemory>
        ensures { IfOk result (λ b. b ≡ written_data self.now) }
    {
        match self {
            Kind::Write { payload, .. } => payload.copy(alloc),
            Kind::ReserveOut { key, new_key, .. } => reserve_parameters(alloc, *key, *new_key),
            _ => Ok(Blob::new(alloc)),
        }
    }

    /// Whether it can be made: 1 to 2,048 blocks that end at most at 2^63, a payload of just these blocks, a service
    /// action below 32 and a type below 16.
    pub fn is_valid(&self) -> bool
        ensures { IsTrue result ↔ IsValid self.now }
    {
        match self {
            Kind::Read { lba, blocks } => are_blocks(*lba, *blocks),
            Kind::Write {
                lba,
                blocks,
                payload,
            } => { are_blocks(*lba, *blocks) && payload.as_slice().len() == 512 * *blocks as usize }
            Kind::ReserveOut { action, form, .. } => *action < 32 && *form < 16,
            Kind::ReserveIn { action } => *action < 32,
            Kind::Unit | Kind::Inquiry | Kind::Capacity | Kind::Luns | Kind::Sync => true,
        }
    }
}

/// The bytes that a request moves, in either direction.
pub fn length(kind: &Kind) -> u32
    ensures { result ≡ transfer_length kind.now }
{
    match kind {
        Kind::Read { blocks, .. } | Kind::Write { blocks, .. } => BLOCK * *blocks as u32,
        Kind::Inquiry => 36,
        Kind::Capacity => 8,
        Kind::Luns | Kind::ReserveIn { .. } => 264,
        Kind::ReserveOut { .. } => RESERVE_OUT_LENGTH,
        Kind::Unit | Kind::Sync => 0,
    }
}

fn are_blocks(lba: u64, blocks: u16) -> bool
    ensures { IsTrue result ↔ AreBlocks lba blocks }
{
    1 <= blocks && blocks <= 2048 && lba <= (1 << 63) - blocks as u64
}

fn reserve_parameters(alloc: Global, key: u64, new_key: u64) -> Result<Blob, NoMemory>
    ensures { IfOk result (λ b. b ≡ to_be_bytes w64 key ++ to_be_bytes w64 new_key ++ replicate 8 0) }
{
    let mut bytes = Vec::with_capacity(alloc, RESERVE_OUT_LENGTH as usize)?;
    bytes.extend_from_slice(&key.to_be_bytes())?;
    bytes.extend_from_slice(&new_key.to_be_bytes())?;
    bytes.extend_from_slice(&[0u8; 8])?;
    Ok(Blob::from_vec(bytes))
}
