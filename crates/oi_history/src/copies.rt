ghost use Rattle.std.specs.Prelude.{◌≡◌, IfNone, IfOk, IfSome, false, true};
ghost use Rattle.oi_history.specs.Copies.{sends_data, sends_request};
ghost use Rattle.oi_history.specs.declared.event.Event.TheVariants.{PduIn, Submit};

use crate::event::{Event, Numbered};
use oi_base::{NoMemory, Series};
use oi_pdu::Pdu;
use oi_scsi::{Kind, Request};
use std::alloc::Global;

impl Numbered {
    /// A copy with data of its own.
    pub fn copy(&self, alloc: Global) -> Result<Numbered, NoMemory>
        ensures { IfOk result (λ n. n ≡ self.now) }
    {
        Ok(Numbered {
            number: self.number,
            event: self.event.copy(alloc)?,
        })
    }
}

impl Event {
    /// A copy with data of its own.
    pub fn copy(&self, alloc: Global) -> Result<Event, NoMemory>
        ensures { IfOk result (λ e. e ≡ self.now) }
    {
        match self {
            Event::Submit { id, request } => copy_submit(alloc, *id, request),
            Event::PduIn { generation, pdu } => copy_pdu_in(alloc, *generation, pdu),
            Event::Push { .. } | Event::Issue { .. } => Ok(copy_data(self)),
            Event::Manage { .. } | Event::Nop { .. } | Event::Logout { .. } => Ok(copy_request(
                self,
            )),
            Event::Login {
                generation,
                params,
                cmdsn,
                max,
                exp_stat,
            } => Ok(Event::Login {
                generation: *generation,
                params: *params,
                cmdsn: *cmdsn,
                max: *max,
                exp_stat: *exp_stat,
            }),
            Event::Lost { generation, cause } => Ok(Event::Lost {
                generation: *generation,
                cause: *cause,
            }),
            Event::Deliver { count } => Ok(Event::Deliver { count: *count }),
            Event::Draw { count } => Ok(Event::Draw { count: *count }),
            Event::Reap { tag } => Ok(Event::Reap { tag: *tag }),
            Event::Leave => Ok(Event::Leave),
            Event::Tick { now } => Ok(Event::Tick { now: *now }),
            Event::Abort { id } => Ok(Event::Abort { id: *id }),
            Event::ResetLun { lun } => Ok(Event::ResetLun { lun: *lun }),
            Event::ResetTarget => Ok(Event::ResetTarget),
            Event::Terminate { cause } => Ok(Event::Terminate { cause: *cause }),
        }
    }

    /// A copy of an event that sends a PDU, which takes no memory. None of another event.
    pub fn copy_sent(&self) -> Option<Event>
        ensures some { IfSome result (λ e. e ≡ self.now) }
        ensures data { IfNone result (sends_data self.now ≡ false) }
        ensures request { IfNone result (sends_request self.now ≡ false) }
    {
        match self {
            Event::Push { .. } | Event::Issue { .. } => Some(copy_data(self)),
            Event::Manage { .. } | Event::Nop { .. } | Event::Logout { .. } => Some(copy_request(
                self,
            )),
            _ => None,
        }
    }
}

/// The same entries in the same order.
pub fn copy_entries(alloc: Global, entries: &[Numbered]) -> Result<Series<Numbered>, NoMemory>
    ensures { IfOk result (λ es. es ≡ entries.now) }
{
    let mut copies = Vec::with_capacity(alloc, entries.len())?;
    for entry in entries {
        copies.push_reserved(entry.copy(alloc)?);
    }
    Ok(Series::from_vec(copies))
}

fn copy_data(event: &Event) -> Event
    requires { sends_data event.now ≡ true }
    ensures { result ≡ event.now }
{
    match event {
        Event::Push {
            id,
            generation,
            ttt,
            number,
            offset,
            length,
            last,
        } => Event::Push {
            id: *id,
            generation: *generation,
            ttt: *ttt,
            number: *number,
            offset: *offset,
            length: *length,
            last: *last,
        },
        Event::Issue {
            id,
            generation,
            tag,
            cmdsn,
        } => Event::Issue {
            id: *id,
            generation: *generation,
            tag: *tag,
            cmdsn: *cmdsn,
        },
        _ => unreachable!(),
    }
}

fn copy_request(event: &Event) -> Event
    requires { sends_request event.now ≡ true }
    ensures { result ≡ event.now }
{
    match event {
        Event::Manage {
            generation,
            tag,
            function,
            subject,
        } => Event::Manage {
            generation: *generation,
            tag: *tag,
            function: *function,
            subject: *subject,
        },
        Event::Nop {
            generation,
            tag,
            ttt,
            lun,
        } => Event::Nop {
            generation: *generation,
            tag: *tag,
            ttt: *ttt,
            lun: *lun,
        },
        Event::Logout { generation, tag } => Event::Logout {
            generation: *generation,
            tag: *tag,
        },
        _ => unreachable!(),
    }
}

fn copy_submit(alloc: Global, id: u64, request: &Request) -> Result<Event, NoMemory>
    ensures { IfOk result (λ e. e ≡ Submit id request.now) }
{
    let request = Request {
        lun: request.lun,
        kind: copy_kind(alloc, &request.kind)?,
    };
    Ok(Event::Submit { id, request })
}

fn copy_kind(alloc: Global, kind: &Kind) -> Result<Kind, NoMemory>
    ensures { IfOk result (λ k. k ≡ kind.now) }
{
    match kind {
        Kind::Read { lba, blocks } => Ok(Kind::Read {
            lba: *lba,
            blocks: *blocks,
        }),
        Kind::Write {
            lba,
            blocks,
            payload,
        } => Ok(Kind::Write {
            lba: *lba,
            blocks: *blocks,
            payload: payload.copy(alloc)?,
        }),
        Kind::Unit => Ok(Kind::Unit),
        Kind::Inquiry => Ok(Kind::Inquiry),
        Kind::Capacity => Ok(Kind::Capacity),
        Kind::Luns => Ok(Kind::Luns),
        Kind::Sync => Ok(Kind::Sync),
        Kind::ReserveOut {
            action,
            form,
            key,
            new_key,
        } => Ok(Kind::ReserveOut {
            action: *action,
            form: *form,
            key: *key,
            new_key: *new_key,
        }),
        Kind::ReserveIn { action } => Ok(Kind::ReserveIn { action: *action }),
    }
}

fn copy_pdu_in(alloc: Global, generation: u64, pdu: &Pdu) -> Result<Event, NoMemory>
    ensures { IfOk result (λ e. e ≡ PduIn generation pdu.now) }
{
    let pdu = Pdu {
        head: pdu.head,
        payload: pdu.payload.copy(alloc)?,
    };
    Ok(Event::PduIn { generation, pdu })
}
