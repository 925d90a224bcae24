ghost use Rattle.std.specs.Prelude.{◌≡◌, ◌+◌, ◌*◌, ℕ, List, ◌∷◌, ◌++◌, length, IfOk, OnOk, OnErr, IsErrOf};
ghost use Rattle.hex.specs.Hex.{encode_lower};
ghost use Rattle.oi_text.specs.Binary.{IsHex, IsBase64, IsBinary};

use base64::DecodeAllocError;
use base64::engine::general_purpose::STANDARD;
use hex::FromHexError;
use oi_base::{Blob, NoMemory};
use std::alloc::Global;
use thiserror::Error;

/// Why a value was not read as binary.
#[derive(Clone, Copy, Debug, PartialEq, Eq, Drop, Error)]
pub enum BinaryFault {
    /// Neither hex nor base64, an odd count of digits, wrong padding or last bits that are not zero.
    #[error("not a binary value")]
    Bad,
    #[error("out of memory")]
    Memory,
}

/// The bytes of a binary value. `0x` and `0b` alone are the empty value.
pub fn read_binary(alloc: Global, value: &[u8]) -> Result<Blob, BinaryFault>
    ensures ok { IfOk result (λ b. IsBinary value.now b) }
    ensures bad { IsErrOf result BinaryFault.Bad → (b : List ℕ) → IsBinary value.now b → ⊥ }
{
    match value {
        [b'0', b'x' | b'X', digits @ ..] => read_hex(alloc, digits),
        [b'0', b'b' | b'B', text @ ..] => read_base64(alloc, text),
        _ => Err(BinaryFault::Bad),
    }
}

fn read_hex(alloc: Global, digits: &[u8]) -> Result<Blob, BinaryFault>
    ensures ok { IfOk result (λ b. IsHex digits.now b) }
    ensures bad { IsErrOf result BinaryFault.Bad → (b : List ℕ) → IsHex digits.now b → ⊥ }
{
    match hex::decode(alloc, digits) {
        Ok(bytes) => Ok(Blob::from_vec(bytes)),
        Err(FromHexError::OutOfMemory) => Err(BinaryFault::Memory),
        Err(_) => Err(BinaryFault::Bad),
    }
}

fn read_base64(alloc: Global, text: &[u8]) -> Result<Blob, BinaryFault>
    ensures ok { IfOk result (λ b. IsBase64 text.now b) }
    ensures bad { IsErrOf result BinaryFault.Bad → (b : List ℕ) → IsBase64 text.now b → ⊥ }
{
    match STANDARD.decode(alloc, text) {
        Ok(bytes) => Ok(Blob::from_vec(bytes)),
        Err(DecodeAllocError::OutOfMemory) => Err(BinaryFault::Memory),
        Err(_) => Err(BinaryFault::Bad),
    }
}

/// Appends the bytes as a binary value in hex, with lower-case digits.
pub fn write_binary(bytes: &[u8], out: &mut Vec<u8>) -> Result<(), NoMemory>
    ensures ok { OnOk result (out.new.items ≡ out.old.items ++ 48 ∷ 120 ∷ encode_lower bytes.now) }
    ensures err { OnErr result (out.new.items ≡ out.old.items) }
{
    let start = out.len();
    let length = bytes.len().checked_mul(2).ok_or(NoMemory)?;
    let end = start
        .checked_add(2)
        .ok_or(NoMemory)?
        .checked_add(length)
        .ok_or(NoMemory)?;
    out.resize(end, 0)?;
    put_binary(bytes, &mut out.as_mut_slice()[start..]);
    Ok(())
}

fn put_binary(bytes: &[u8], place: &mut [u8])
    requires { length place.old ≡ 2 * length bytes.now + 2 }
    ensures { place.new ≡ 48 ∷ 120 ∷ encode_lower bytes.now }
{
    place[0] = b'0';
    place[1] = b'x';
    let _ = hex::encode_to_slice(bytes, &mut place[2..]);
}
