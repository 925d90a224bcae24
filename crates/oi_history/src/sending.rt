ghost use Rattle.std.specs.Prelude.{◌≡◌, IfOk};
ghost use Rattle.oi_base.specs.declared.login.Params.{Params};
ghost use Rattle.oi_history.specs.Sending.{command_pdu, immediate_data, unsolicited_data};

use crate::command::Command;
use oi_base::{Blob, NoMemory, Params, Serial, Tag};
use oi_buffer::{FirstCut, first_cut};
use oi_pdu::{Header, Pdu, ScsiCommand};
use oi_scsi::lun_bytes;
use std::alloc::Global;

// What of a command goes out before the target asks.
fn first_cut_of(params: Option<Params>, c: &Command) -> FirstCut
    ensures immediate { result.immediate ≡ immediate_data params c.now }
    ensures unsolicited { result.unsolicited ≡ unsolicited_data params c.now }
{
    match params {
        Some(p) if c.writes => first_cut(c.length, &p),
        _ => FirstCut {
            immediate: 0,
            unsolicited: 0,
        },
    }
}

/// The SCSI Command PDU of a command, with its immediate data.
pub fn command_pdu(
    alloc: Global,
    params: Option<Params>,
    stat: u32,
    c: &Command,
    tag: Tag,
    cmdsn: u32,
) -> Result<Pdu, NoMemory>
    ensures { IfOk result (λ p. p ≡ command_pdu params stat c.now tag cmdsn) }
{
    let cut = first_cut_of(params, c);
    let written = c.written.as_slice();
    let payload = Blob::from_slice(alloc, &written[..written.len().min(cut.immediate as usize)])?;
    let head = ScsiCommand {
        immediate: false,
        last: cut.unsolicited == 0,
        reads: c.reads,
        writes: c.writes,
        attr: 1,
        lun: lun_bytes(c.lun),
        tag,
        length: c.length,
        cmdsn: Serial(cmdsn),
        exp_stat: Serial(stat),
        cdb: c.cdb,
    };
    Ok(Pdu {
        head: Header::ScsiCommand(head),
        payload,
    })
}
