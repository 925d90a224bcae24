ghost use Rattle.std.specs.Prelude.{◌≡◌, ◌++◌, ◌+◌, ◌*◌, ◌^◌, ◌<◌, ◌≤◌, OnOk, OnErr, IfOk, IfErr, None, Some, length, vec_len, vec_capacity};
ghost use Rattle.oi_pdu.specs.Segments.{additional, basic_at, cells, data_len, padding};
ghost use Rattle.oi_pdu.specs.Table.{bad_header, header_of};
ghost use Rattle.oi_pdu.specs.Widths.{EncodableHeader};
ghost use Rattle.oi_pdu.specs.Wire.{Encodable, encoding};

use crate::basic::{BasicHeader, basic_of, word_at, words};
use crate::header::Header;
use crate::layouts::layout_of;
use crate::readings::header_from;
use oi_base::{Blob, NoMemory};
use thiserror::Error;

/// A PDU: its header and its data segment without padding.
#[derive(Debug, Drop, PartialEq, Eq)]
pub struct Pdu {
    pub head: Header,
    pub payload: Blob,
}

/// The byte that makes a header bad: 0, an unknown opcode; 1, a login PDU that names stage 2.
#[derive(Clone, Copy, Debug, PartialEq, Eq, Drop, Error)]
#[error("bad byte {place} of a header")]
pub struct BadHeader {
    pub place: u8,
}

/// Reads a basic header segment (RFC 7143, section 11). Reserved fields and the two lengths are not looked at.
pub fn read_pdu(bytes: &[u8; 48]) -> Result<Header, BadHeader>
    ensures good { OnOk result (bad_header (basic_at bytes.now) ≡ None) }
    ensures header { IfOk result (λ h. h ≡ header_of (basic_at bytes.now)) }
    ensures encodable { IfOk result (λ h. EncodableHeader h) }
    ensures bad { IfErr result (λ e. bad_header (basic_at bytes.now) ≡ Some e.place) }
{
    header_from(basic_of(bytes))
}

/// The lengths that a header names, in bytes: of the additional headers, and of the data segment without its padding.
#[tactic(auto, unfolding(crate::specs::Segments::additional, crate::specs::Segments::data_len))]
pub fn lengths(bytes: &[u8; 48]) -> (u32, u32)
    ensures additional { result.0 ≡ additional bytes.now }
    ensures data { result.1 ≡ data_len bytes.now }
{
    (bytes[4] as u32 * 4, word_at(bytes, 4) % 0x100_0000)
}

/// Appends the one encoding of a PDU. Takes memory once.
pub fn write_pdu(pdu: &Pdu, out: &mut Vec<u8>) -> Result<(), NoMemory>
    requires { length pdu.now.payload < 2 ^ 24 }
    ensures ok { OnOk result (out.new.items ≡ out.old.items ++ encoding pdu.now) }
    ensures err { OnErr result (out.new.items ≡ out.old.items) }
{
    let payload = pdu.payload.as_slice();
    let pad = padding_of(payload.len());
    out.reserve(48 + payload.len() + pad)?;
    put_header(out, layout_of(pdu.head), payload.len() as u32);
    append(out, payload);
    append(out, &[0u8; 3][..pad]);
    Ok(())
}

/// The PDU with a received header and its data segment. What was received can be encoded.
pub fn received(bytes: &[u8; 48], payload: Blob) -> Result<Pdu, BadHeader>
    requires { length payload < 2 ^ 24 }
    ensures good { OnOk result (bad_header (basic_at bytes.now) ≡ None) }
    ensures header { IfOk result (λ p. p.head ≡ header_of (basic_at bytes.now)) }
    ensures payload { IfOk result (λ p. p.payload ≡ payload) }
    ensures encodable { IfOk result (λ p. Encodable p) }
    ensures bad { IfErr result (λ e. bad_header (basic_at bytes.now) ≡ Some e.place) }
{
    let head = read_pdu(bytes)?;
    Ok(Pdu { head, payload })
}

// Zero bytes up to a multiple of 4.
fn padding_of(size: usize) -> usize
    ensures { result ≡ padding size }
{
    (4 - size % 4) % 4
}

fn append(out: &mut Vec<u8>, piece: &[u8])
    requires { vec_len out.old + length piece.now ≤ vec_capacity out.old }
    ensures items { out.new.items ≡ out.old.items ++ piece.now }
    ensures len { vec_len out.new ≡ vec_len out.old + length piece.now }
    ensures capacity { vec_capacity out.old ≤ vec_capacity out.new }
{
    out.extend_from_slice(piece).unwrap();
}

#[tactic(auto, unfolding(crate::specs::Segments::cells))]
fn put_header(out: &mut Vec<u8>, b: BasicHeader, size: u32)
    requires { vec_len out.old + 48 ≤ vec_capacity out.old }
    ensures items { out.new.items ≡ out.old.items ++ cells b size }
    ensures len { vec_len out.new ≡ vec_len out.old + 48 }
    ensures capacity { vec_capacity out.old ≤ vec_capacity out.new }
{
    append(out, &[b.first, b.flags, b.two, b.three]);
    append(out, &size.to_be_bytes());
    append(out, &b.lun);
    append(out, &words(b.tag, b.word20, b.word24, b.word28));
    append(out, &b.tail);
}
