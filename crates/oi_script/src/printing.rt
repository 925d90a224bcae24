ghost use Rattle.std.specs.Prelude.{◌≡◌, ◌++◌, IfOk, OnOk, codes};
ghost use Rattle.std.specs.Fmt.{decimal};
ghost use Rattle.hex.specs.Hex.{encode_lower};
ghost use Rattle.oi_script.specs.Printed.{done_line, fault_text, got_text, idle_text, login_text, outcome_text, residual_text, sense_text, tx_text};

use hex::encode;
use md5::{Digest, Md5};
use oi_base::{Blob, NoMemory, write_number};
use oi_history::Outcome;
use oi_recovery::Residual;
use std::alloc::Global;

/// Appends a text.
pub fn put(out: &mut Vec<u8>, text: &[u8]) -> Result<(), NoMemory>
    ensures { OnOk result (out.new.items ≡ out.old.items ++ text.now) }
{
    out.extend_from_slice(text)?;
    Ok(())
}

fn put_hex(alloc: Global, out: &mut Vec<u8>, bytes: &[u8]) -> Result<(), NoMemory>
    ensures { OnOk result (out.new.items ≡ out.old.items ++ encode_lower bytes.now) }
{
    let text = encode(alloc, bytes)?;
    put(out, text.as_bytes())
}

fn put_residual(out: &mut Vec<u8>, residual: Residual) -> Result<(), NoMemory>
    ensures { OnOk result (out.new.items ≡ out.old.items ++ residual_text residual) }
{
    match residual {
        Residual::Exact => put(out, b"0"),
        Residual::Under(n) => {
            put(out, b"u")?;
            write_number(n as u64, out)
        }
        Residual::Over(n) => {
            put(out, b"o")?;
            write_number(n as u64, out)
        }
    }
}

fn put_sense(alloc: Global, out: &mut Vec<u8>, sense: &[u8]) -> Result<(), NoMemory>
    ensures { OnOk result (out.new.items ≡ out.old.items ++ sense_text sense.now) }
{
    if sense.is_empty() {
        put(out, b"-")
    } else {
        put_hex(alloc, out, sense)
    }
}

fn put_got(alloc: Global, out: &mut Vec<u8>, got: &[u8]) -> Result<(), NoMemory>
    ensures { OnOk result (out.new.items ≡ out.old.items ++ got_text got.now) }
{
    if got.is_empty() {
        return put(out, b"-");
    }
    write_number(got.len() as u64, out)?;
    if got.len() <= 64 {
        put(out, b":")?;
        put_hex(alloc, out, got)
    } else {
        put(out, b":md5:")?;
        put_hex(alloc, out, &Md5::digest(got))
    }
}

fn put_outcome(alloc: Global, out: &mut Vec<u8>, outcome: &Outcome) -> Result<(), NoMemory>
    ensures { OnOk result (out.new.items ≡ out.old.items ++ outcome_text outcome.now) }
{
    match outcome {
        Outcome::Answered {
            status,
            residual,
            sense,
            got,
        } => {
            put_hex(alloc, out, &[*status])?;
            put(out, b" ")?;
            put_residual(out, *residual)?;
            put(out, b" ")?;
            put_sense(alloc, out, sense.as_slice())?;
            put(out, b" ")?;
            put_got(alloc, out, got.as_slice())
        }
        Outcome::Host(code) => {
            put(out, b"host ")?;
            put_hex(alloc, out, &[code.number()])
        }
    }
}

/// The line of an outcome, with its line feed.
pub fn line_of(alloc: Global, sid: u32, id: u64, outcome: &Outcome) -> Result<Blob, NoMemory>
    ensures { IfOk result (λ b. b ≡ done_line sid id outcome.now) }
{
    let mut out = Vec::new(alloc);
    put(&mut out, b"done ")?;
    write_number(sid as u64, &mut out)?;
    put(&mut out, b" ")?;
    write_number(id, &mut out)?;
    put(&mut out, b" ")?;
    put_outcome(alloc, &mut out, outcome)?;
    put(&mut out, b"\n")?;
    Ok(Blob::from_vec(out))
}

/// The line of a login.
pub fn login_line(alloc: Global, generation: u64) -> Result<Blob, NoMemory>
    ensures { IfOk result (λ b. b ≡ login_text generation) }
{
    let mut out = Vec::new(alloc);
    put(&mut out, b"login ")?;
    write_number(generation, &mut out)?;
    put(&mut out, b"\n")?;
    Ok(Blob::from_vec(out))
}

/// The line of a PDU that was sent.
pub fn tx_line(alloc: Global, generation: u64, bytes: &[u8]) -> Result<Blob, NoMemory>
    ensures { IfOk result (λ b. b ≡ tx_text generation bytes.now) }
{
    let mut out = Vec::new(alloc);
    put(&mut out, b"tx ")?;
    write_number(generation, &mut out)?;
    put(&mut out, b" ")?;
    put_hex(alloc, &mut out, bytes)?;
    put(&mut out, b"\n")?;
    Ok(Blob::from_vec(out))
}

/// The line where nothing is left to send.
pub fn idle_line(alloc: Global) -> Result<Blob, NoMemory>
    ensures { IfOk result (λ b. b ≡ idle_text) }
{
    Ok(Blob::from_slice(alloc, b"idle\n")?)
}

/// The line of a fatal status.
pub fn fault_line(alloc: Global, status: u8, line: u64) -> Result<Blob, NoMemory>
    ensures { IfOk result (λ b. b ≡ fault_text status line) }
{
    let mut out = Vec::new(alloc);
    put(&mut out, b"fault ")?;
    write_number(status as u64, &mut out)?;
    put(&mut out, b" ")?;
    write_number(line, &mut out)?;
    put(&mut out, b"\n")?;
    Ok(Blob::from_vec(out))
}
