ghost use Rattle.std.specs.Prelude.{◌≡◌, ◌++◌, ◌≤◌, IfOk, OnErr, OnOk, length, take};
ghost use Rattle.std.specs.Int.{to_be_bytes, w32};
ghost use Rattle.oi_reserve.specs.Reports.{holder_data, keys_data};
ghost use Rattle.oi_reserve.specs.Tables.{most_registered};
ghost use Rattle.oi_reserve.specs.declared.answer.ReserveAnswer.TheVariants.{Good};

use crate::answer::ReserveAnswer;
use crate::entry::{Holder, Registration};
use crate::registered::key_or_zero;
use oi_base::NoMemory;
use std::alloc::Global;

/// The generation and the keys.
pub fn keys_report(
    alloc: Global,
    generation: u32,
    registered: &[Registration],
) -> Result<Vec<u8>, NoMemory>
    requires { length registered.now ≤ most_registered }
    ensures { IfOk result (λ v. v.items ≡ to_be_bytes w32 generation ++ keys_data registered.now) }
{
    let mut report = Vec::new(alloc);
    report.extend_from_slice(&generation.to_be_bytes())?;
    report.extend_from_slice(&(8 * registered.len() as u32).to_be_bytes())?;
    for r in registered {
        report.extend_from_slice(&r.key.to_be_bytes())?;
    }
    Ok(report)
}

/// The generation and the reservation.
pub fn holder_report(
    alloc: Global,
    generation: u32,
    registered: &[Registration],
    holder: &Option<Holder>,
) -> Result<Vec<u8>, NoMemory>
    ensures { IfOk result (λ v. v.items ≡ to_be_bytes w32 generation ++ holder_data registered.now holder.now) }
{
    let mut report = Vec::new(alloc);
    report.extend_from_slice(&generation.to_be_bytes())?;
    match holder {
        None => report.extend_from_slice(&0u32.to_be_bytes())?,
        Some(h) => {
            report.extend_from_slice(&16u32.to_be_bytes())?;
            report.extend_from_slice(&key_or_zero(registered, h.nexus.as_slice()).to_be_bytes())?;
            report.extend_from_slice(&[0, 0, 0, 0, 0, h.form, 0, 0])?;
        }
    }
    Ok(report)
}

/// Appends so much of a report as the limit lets through.
pub fn send(report: &[u8], limit: usize, out: &mut Vec<u8>) -> Result<ReserveAnswer, NoMemory>
    ensures answer { IfOk result (λ a. a ≡ Good) }
    ensures data { OnOk result (out.new.items ≡ out.old.items ++ take limit report.now) }
    ensures same { OnErr result (out.new.items ≡ out.old.items) }
{
    out.extend_from_slice(&report[..limit.min(report.len())])?;
    Ok(ReserveAnswer::Good)
}
