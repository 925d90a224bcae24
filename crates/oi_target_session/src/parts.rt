ghost use Rattle.std.specs.Prelude.{◌≡◌, ◌++◌, ◌<◌, ◌≤◌, ◌^◌, [], IfOk, OnErr, OnOk, drop, length, replicate, take};
ghost use Rattle.oi_pdu.specs.Segments.{padding};
ghost use Rattle.oi_pdu.specs.Wire.{encoding};
ghost use Rattle.oi_target_login.specs.Grown.{IsGrown};

use oi_base::{Blob, NoMemory};
use oi_pdu::{Header, Pdu, write_pdu};
use std::alloc::Global;

fn front(bytes: &[u8], size: usize) -> &[u8]
    requires { size ≤ length bytes.now }
    ensures { result.now ≡ take size bytes.now }
{
    &bytes[..size]
}

pub fn after(bytes: &[u8], size: usize) -> &[u8]
    requires { size ≤ length bytes.now }
    ensures { result.now ≡ drop size bytes.now }
{
    &bytes[size..]
}

// The bytes of a header that names no data.
fn bare_header(alloc: Global, head: Header) -> Result<Vec<u8>, NoMemory>
    ensures bytes { IfOk result (λ v. v.items ≡ encoding (record { head = head; payload = [] })) }
    ensures long { IfOk result (λ v. 8 ≤ length v.items) }
{
    let mut bytes = Vec::new(alloc);
    let pdu = Pdu {
        head,
        payload: Blob::new(alloc),
    };
    write_pdu(&pdu, &mut bytes)?;
    Ok(bytes)
}

// Zero bytes behind so many bytes of data, up to a multiple of 4.
fn put_padding(size: usize, out: &mut Vec<u8>) -> Result<(), NoMemory>
    ensures out { OnOk result (out.new.items ≡ out.old.items ++ replicate (padding size) 0) }
    ensures kept { OnErr result (out.new.items ≡ out.old.items) }
{
    out.extend_from_slice(front(&[0u8; 3], (4 - size % 4) % 4))?;
    Ok(())
}

/// Appends the PDU with this header and these data, which are copied once.
pub fn write_parts(
    alloc: Global,
    head: Header,
    payload: &[u8],
    out: &mut Vec<u8>,
) -> Result<(), NoMemory>
    requires { length payload.now < 2 ^ 24 }
    ensures out { OnOk result (out.new.items ≡ out.old.items ++ encoding (record { head = head; payload = payload.now })) }
    ensures kept { OnErr result (IsGrown out.old.items out.new.items) }
{
    let header = bare_header(alloc, head)?;
    let size = (payload.len() as u32).to_be_bytes();
    out.reserve(51 + payload.len())?;
    out.extend_from_slice(front(header.as_slice(), 4))?;
    out.extend_from_slice(&size)?;
    out.extend_from_slice(after(header.as_slice(), 8))?;
    out.extend_from_slice(payload)?;
    put_padding(payload.len(), out)?;
    Ok(())
}
