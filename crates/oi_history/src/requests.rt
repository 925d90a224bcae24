ghost use Rattle.std.specs.Prelude.{◌≡◌, ◌∷◌, ℕ, [], IfOk, Some};
ghost use Rattle.oi_history.specs.Meanings.{Meanings};
ghost use Rattle.oi_history.specs.Owing.{data_out, logout_pdu, management_pdu, nop_pdu, referenced, subject_lun};
ghost use Rattle.oi_history.specs.declared.event.Subject.TheVariants.{Task as OneTask};
ghost use Rattle.oi_history.specs.declared.task.Task.{Task};

use crate::allocated::Allocated;
use crate::command::Command;
use crate::event::Subject;
use crate::handling::lun_at;
use crate::task::Task;
use oi_base::{Blob, NoMemory, Serial, Tag};
use oi_pdu::{DataOut, Header, LogoutRequest, NopOut, Pdu, TaskManagement};
use oi_scsi::lun_bytes;
use std::alloc::Global;

/// A NOP-Out (RFC 7143, section 11.18).
pub fn nop_pdu(alloc: Global, next: Serial, stat: u32, tag: u32, ttt: u32, lun: [u8; 8]) -> Pdu
    ensures { (m : Meanings) → m.window.next ≡ next → m.stat ≡ stat → result ≡ nop_pdu m tag ttt lun }
{
    Pdu {
        head: Header::NopOut(NopOut {
            immediate: true,
            lun,
            tag: Tag(tag),
            ttt,
            cmdsn: next,
            exp_stat: Serial(stat),
        }),
        payload: Blob::new(alloc),
    }
}

/// A Logout Request that closes the session (RFC 7143, section 11.14).
pub fn logout_pdu(alloc: Global, next: Serial, stat: u32, tag: Tag) -> Pdu
    ensures { (m : Meanings) → m.window.next ≡ next → m.stat ≡ stat → result ≡ logout_pdu m tag }
{
    Pdu {
        head: Header::LogoutRequest(LogoutRequest {
            immediate: true,
            reason: 0,
            tag,
            cid: 0,
            cmdsn: next,
            exp_stat: Serial(stat),
        }),
        payload: Blob::new(alloc),
    }
}

/// The logical unit of a task management request.
pub fn subject_lun(tasks: &[Task], subject: Subject) -> [u8; 8]
    ensures { result ≡ subject_lun tasks.now subject }
{
    match subject {
        Subject::Task(id) => lun_bytes(lun_at(id, tasks)),
        Subject::Lun(lun) => lun_bytes(lun),
        Subject::Whole => [0; 8],
    }
}

/// The tag and CmdSN that it names, where `issue` is the last command of its task.
pub fn referenced(subject: Subject, issue: Option<Allocated>) -> Allocated
    ensures { (last : ℕ → _) → ((id : ℕ) → subject ≡ OneTask id → issue ≡ last id) → result ≡ referenced last subject }
{
    match subject {
        Subject::Task(id) => issue.unwrap_or(Allocated {
            tag: Tag::RESERVED,
            id,
            cmdsn: 0,
        }),
        _ => Allocated {
            tag: Tag::RESERVED,
            id: 0,
            cmdsn: 0,
        },
    }
}

/// A task management request (RFC 7143, section 11.5).
pub fn management_pdu(
    alloc: Global,
    next: Serial,
    stat: u32,
    tag: Tag,
    function: u8,
    lun: [u8; 8],
    task: Allocated,
) -> Pdu
    ensures { (m : Meanings) → m.window.next ≡ next → m.stat ≡ stat → result ≡ management_pdu m tag function lun task }
{
    Pdu {
        head: Header::TaskManagement(TaskManagement {
            immediate: true,
            function,
            lun,
            tag,
            referenced: task.tag,
            cmdsn: next,
            exp_stat: Serial(stat),
            ref_cmdsn: Serial(task.cmdsn),
        }),
        payload: Blob::new(alloc),
    }
}

/// A Data-Out of a write (RFC 7143, section 11.7), where `told` is the StatSN that the half that receives told.
pub fn data_out(
    alloc: Global,
    told: u32,
    c: &Command,
    tag: Tag,
    ttt: u32,
    number: u32,
    offset: u32,
    length: u32,
    last: bool,
) -> Result<Pdu, NoMemory>
    ensures { (m : Meanings) (id : ℕ) (t : Task) → m.told.stat ≡ told → t.command ≡ c.now → IfOk result (λ p. data_out m id ttt number offset length last (Some tag) (Some t) ≡ p ∷ []) }
{
    let written = c.written.as_slice();
    let start = written.len().min(offset as usize);
    let rest = &written[start..];
    let payload = Blob::from_slice(alloc, &rest[..rest.len().min(length as usize)])?;
    Ok(Pdu {
        head: Header::DataOut(DataOut {
            last,
            lun: lun_bytes(c.lun),
            tag,
            ttt,
            exp_stat: Serial(told),
            number,
            offset,
        }),
        payload,
    })
}
