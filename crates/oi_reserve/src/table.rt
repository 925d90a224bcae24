ghost use Rattle.std.specs.Prelude.{◌≡◌, ◌++◌, IfOk, OnErr, OnOk, vec_len};
ghost use Rattle.oi_reserve.specs.Access.{access_allowed, holder_allows};
ghost use Rattle.oi_reserve.specs.Outcomes.{cleared, done_by, owner_done, preempted, registered_as, released_by, reserve_out, reserved_by};
ghost use Rattle.oi_reserve.specs.Reports.{reserve_in, reserve_in_answer};
ghost use Rattle.oi_reserve.specs.Tables.{empty_table};

use crate::access::{Wish, form_allows, is_read};
use crate::answer::ReserveAnswer;
use crate::entry::{Holder, Nexus, Registration};
use crate::holder::{drop_holder, release_of, take_over};
use crate::order::{Action, BAD_FIELD, BAD_PARAMETER, Order, read_order};
use crate::registered::{has_key, is_owner, key_of, key_or_zero, remove, remove_others, set_key};
use crate::report::{holder_report, keys_report, send};
use oi_base::{Blob, NoMemory};
use std::alloc::Global;
use std::marker::Model;

const MOST: usize = 32;

const NO_ROOM: u8 = 0x55;

/// The registrations and the reservation of one logical unit.
#[derive(Debug, Drop)]
pub struct Reservations {
    alloc: Global,
    registered: Vec<Registration>,
    holder: Option<Holder>,
    generation: u32,
}

impl Model for Reservations {
    ghost use Rattle.std.specs.Prelude.{◌≤◌, vec_len};
    ghost use Rattle.oi_reserve.specs.Tables.{Table, most_registered};

    ghost Value = { Table };

    ghost view = { λ r. record { registered = r.registered.items; holder = r.holder; generation = r.generation } };

    ghost invariant = { λ r. vec_len r.registered ≤ most_registered };
}

impl Reservations {
    /// Nobody is registered. It takes no memory.
    pub fn new(alloc: Global) -> Reservations
        ensures { result ≡ empty_table }
    {
        Reservations {
            alloc,
            registered: Vec::new(alloc),
            holder: None,
            generation: 0,
        }
    }

    /// Judges a PERSISTENT RESERVE OUT of this nexus with its parameters.
    pub fn out(
        &mut self,
        nexus: &Nexus,
        cdb: &[u8; 16],
        payload: &[u8],
    ) -> Result<ReserveAnswer, NoMemory>
        ensures answer { IfOk result (λ a. a ≡ (reserve_out self.old nexus.now.bytes cdb.now payload.now).answer) }
        ensures table { OnOk result (self.new ≡ (reserve_out self.old nexus.now.bytes cdb.now payload.now).table) }
        ensures same { OnErr result (self.new ≡ self.old) }
    {
        match read_order(cdb, payload) {
            Ok(order) => self.act(nexus.bytes.as_slice(), &order),
            Err(asc) => Ok(ReserveAnswer::Check { asc }),
        }
    }

    /// Appends what PERSISTENT RESERVE IN answers, cut at the length that its CDB states.
    pub fn inquire(&self, cdb: &[u8; 16], out: &mut Vec<u8>) -> Result<ReserveAnswer, NoMemory>
        ensures answer { IfOk result (λ a. a ≡ reserve_in_answer cdb.now) }
        ensures data { OnOk result (out.new.items ≡ out.old.items ++ reserve_in self.now cdb.now) }
        ensures same { OnErr result (out.new.items ≡ out.old.items) }
    {
        let limit = u16::from_be_bytes([cdb[7], cdb[8]]) as usize;
        match cdb[1] {
            0 => {
                let report = keys_report(self.alloc, self.generation, &self.registered)?;
                send(&report, limit, out)
            }
            1 => {
                let report = holder_report(
                    self.alloc,
                    self.generation,
                    &self.registered,
                    &self.holder,
                )?;
                send(&report, limit, out)
            }
            _ => Ok(ReserveAnswer::Check { asc: BAD_FIELD }),
        }
    }

    /// Whether a command with this wish may be executed for the nexus; else it is answered RESERVATION CONFLICT.
    pub fn may(&self, nexus: &Nexus, wish: Wish) -> bool
        ensures { result ≡ access_allowed self.now nexus.now.bytes wish }
    {
        let nexus = nexus.bytes.as_slice();
        match (wish, &self.holder) {
            (Wish::Free, _) | (_, None) => true,
            (Wish::Reads | Wish::Writes, Some(holder)) => {
                holder.nexus.as_slice() == nexus
                    || form_allows(
                        holder.form,
                        is_read(wish),
                        key_of(&self.registered, nexus).is_some(),
                    )
            }
        }
    }

    fn act(&mut self, nexus: &[u8], order: &Order) -> Result<ReserveAnswer, NoMemory>
        ensures answer { IfOk result (λ a. a ≡ (done_by order.now.action self.old nexus.now order.now).answer) }
        ensures table { OnOk result (self.new ≡ (done_by order.now.action self.old nexus.now order.now).table) }
        ensures same { OnErr result (self.new ≡ self.old) }
    {
        match order.action {
            Action::RegisterAnyway => self.register(nexus, order.new_key),
            Action::Register => {
                if key_or_zero(&self.registered, nexus) != order.key {
                    return Ok(ReserveAnswer::Conflict);
                }
                self.register(nexus, order.new_key)
            }
            Action::Reserve | Action::Release | Action::Clear | Action::Preempt => {
                if !is_owner(&self.registered, nexus, order.key) {
                    return Ok(ReserveAnswer::Conflict);
                }
                self.act_as_owner(nexus, order)
            }
        }
    }

    fn act_as_owner(&mut self, nexus: &[u8], order: &Order) -> Result<ReserveAnswer, NoMemory>
        ensures answer { IfOk result (λ a. a ≡ (owner_done order.now.action self.old nexus.now order.now).answer) }
        ensures table { OnOk result (self.new ≡ (owner_done order.now.action self.old nexus.now order.now).table) }
        ensures same { OnErr result (self.new ≡ self.old) }
    {
        match order.action {
            Action::Reserve => self.reserve(nexus, order.form),
            Action::Release => Ok(self.release(nexus, order.form)),
            Action::Preempt => self.preempt(nexus, order.form, order.new_key),
            Action::Clear => {
                self.clear();
                Ok(ReserveAnswer::Good)
            }
            Action::Register | Action::RegisterAnyway => Ok(ReserveAnswer::Conflict),
        }
    }

    fn register(&mut self, nexus: &[u8], key: u64) -> Result<ReserveAnswer, NoMemory>
        ensures answer { IfOk result (λ a. a ≡ (registered_as self.old nexus.now key).answer) }
        ensures table { OnOk result (self.new ≡ (registered_as self.old nexus.now key).table) }
        ensures same { OnErr result (self.new ≡ self.old) }
    {
        if key == 0 {
            remove(&mut self.registered, nexus);
            drop_holder(&mut self.holder, nexus);
            self.generation = self.generation.wrapping_add(1);
            return Ok(ReserveAnswer::Good);
        }
        if key_of(&self.registered, nexus).is_some() {
            set_key(&mut self.registered, nexus, key);
            self.generation = self.generation.wrapping_add(1);
            return Ok(ReserveAnswer::Good);
        }
        if self.registered.len() >= MOST {
            return Ok(ReserveAnswer::Check { asc: NO_ROOM });
        }
        let nexus = Blob::from_slice(self.alloc, nexus)?;
        self.registered.push(Registration { nexus, key })?;
        self.generation = self.generation.wrapping_add(1);
        Ok(ReserveAnswer::Good)
    }

    fn reserve(&mut self, nexus: &[u8], form: u8) -> Result<ReserveAnswer, NoMemory>
        ensures answer { IfOk result (λ a. a ≡ (reserved_by self.old nexus.now form self.old.holder).answer) }
        ensures table { OnOk result (self.new ≡ (reserved_by self.old nexus.now form self.old.holder).table) }
        ensures same { OnErr result (self.new ≡ self.old) }
    {
        if let Some(holder) = &self.holder {
            return Ok(if holder.nexus.as_slice() == nexus && holder.form == form {
                ReserveAnswer::Good
            } else {
                ReserveAnswer::Conflict
            });
        }
        let nexus = Blob::from_slice(self.alloc, nexus)?;
        self.holder = Some(Holder { nexus, form });
        Ok(ReserveAnswer::Good)
    }

    fn release(&mut self, nexus: &[u8], form: u8) -> ReserveAnswer
        ensures answer { result ≡ (released_by self.old nexus.now form self.old.holder).answer }
        ensures table { self.new ≡ (released_by self.old nexus.now form self.old.holder).table }
    {
        match release_of(&self.holder, nexus, form) {
            Some(answer) => answer,
            None => {
                self.holder = None;
                ReserveAnswer::Good
            }
        }
    }

    fn clear(&mut self)
        ensures { self.new ≡ (cleared self.old).table }
    {
        self.registered.clear();
        self.holder = None;
        self.generation = self.generation.wrapping_add(1);
    }

    fn preempt(&mut self, nexus: &[u8], form: u8, key: u64) -> Result<ReserveAnswer, NoMemory>
        ensures answer { IfOk result (λ a. a ≡ (preempted self.old nexus.now form key).answer) }
        ensures table { OnOk result (self.new ≡ (preempted self.old nexus.now form key).table) }
        ensures same { OnErr result (self.new ≡ self.old) }
    {
        if key == 0 {
            return Ok(ReserveAnswer::Check { asc: BAD_PARAMETER });
        }
        if !has_key(&self.registered, key) {
            return Ok(ReserveAnswer::Conflict);
        }
        take_over(
            self.alloc,
            &mut self.holder,
            &self.registered,
            nexus,
            form,
            key,
        )?;
        remove_others(&mut self.registered, nexus, key);
        self.generation = self.generation.wrapping_add(1);
        Ok(ReserveAnswer::Good)
    }
}
