ghost use Rattle.std.specs.Prelude.{◌≡◌, IfOk};
ghost use Rattle.std.specs.Result.{result_ok};
ghost use Rattle.base64.specs.Engines.{standard};
ghost use Rattle.base64.specs.GeneralPurpose.{decode_of as base64_of};
ghost use Rattle.hex.specs.Hex.{decode_of as hex_of};
ghost use Rattle.oi_target_login.specs.Texts.{binary_bytes};

use base64::DecodeAllocError;
use base64::engine::general_purpose::STANDARD;
use hex::FromHexError;
use oi_base::{Blob, NoMemory};
use std::alloc::Global;

/// The bytes of a binary value; None where it is none.
pub fn bytes_of(alloc: Global, value: &[u8]) -> Result<Option<Blob>, NoMemory>
    ensures { IfOk result (λ bytes. bytes ≡ binary_bytes value.now) }
{
    match value {
        [b'0', b'x' | b'X', digits @ ..] => hex_bytes(alloc, digits),
        [b'0', b'b' | b'B', text @ ..] => base64_bytes(alloc, text),
        _ => Ok(None),
    }
}

fn hex_bytes(alloc: Global, digits: &[u8]) -> Result<Option<Blob>, NoMemory>
    ensures { IfOk result (λ bytes. bytes ≡ result_ok (hex_of digits.now)) }
{
    match hex::decode(alloc, digits) {
        Ok(bytes) => Ok(Some(Blob::from_vec(bytes))),
        Err(FromHexError::OutOfMemory) => Err(NoMemory),
        Err(_) => Ok(None),
    }
}

fn base64_bytes(alloc: Global, text: &[u8]) -> Result<Option<Blob>, NoMemory>
    ensures { IfOk result (λ bytes. bytes ≡ result_ok (base64_of standard text.now)) }
{
    match STANDARD.decode(alloc, text) {
        Ok(bytes) => Ok(Some(Blob::from_vec(bytes))),
        Err(DecodeAllocError::OutOfMemory) => Err(NoMemory),
        Err(_) => Ok(None),
    }
}
