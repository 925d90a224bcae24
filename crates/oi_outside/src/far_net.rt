ghost use Rattle.std.specs.Prelude.{◌≡◌, drop};
ghost use Rattle.oi_outside.specs.FarNets.{next_script};

use crate::far_link::{FarRead, FarWrite};
use crate::given_back::GivenBack;
use crate::history::History;
use crate::link_name::LinkName;
use crate::net::{Net, PortalText};
use crate::net_error::NetError;
use oi_base::{Blob, NoMemory, Series};
use std::alloc::Global;
use std::collections::VecDeque;
use std::marker::Model;

/// A network whose far side follows scripts: the first link that is dialled gives the bytes of the first list, the second
/// one those of the second list, and so on; past the last list a link gives nothing. It takes all that is written. Nobody
/// is accepted, and no call fails.
#[derive(Drop)]
pub struct FarNet {
    alloc: Global,
    scripts: VecDeque<Blob>,
    dials: u64,
    dialled: History<PortalText>,
    returned: History<GivenBack<FarRead, FarWrite>>,
}

impl Model for FarNet {
    ghost use Rattle.std.specs.Prelude.{◌≡◌, length};
    ghost use Rattle.oi_outside.specs.FarNets.{FarNetwork};

    ghost Value = { FarNetwork };

    ghost view = { λ n. record { scripts = n.scripts.items; dialled = n.dialled; returned = n.returned } };

    ghost invariant = { λ n. n.dials ≡ length n.dialled };
}

impl FarNet {
    ghost use Rattle.std.specs.Prelude.{◌≡◌, []};

    /// A network without links; takes no memory.
    pub fn new(alloc: Global, scripts: Series<Blob>) -> FarNet
        ensures { result ≡ record { scripts = scripts; dialled = []; returned = [] } }
    {
        FarNet {
            alloc,
            scripts: VecDeque::from(scripts.into_vec()),
            dials: 0,
            dialled: History::new(),
            returned: History::new(),
        }
    }
}

fn take_script(alloc: Global, scripts: &mut VecDeque<Blob>) -> Blob
    ensures script { result ≡ next_script scripts.old.items }
    ensures rest { scripts.new.items ≡ drop 1 scripts.old.items }
{
    match scripts.pop_front() {
        Some(script) => script,
        None => Blob::new(alloc),
    }
}

impl Net for FarNet {
    ghost use Rattle.std.specs.Prelude.{◌≡◌, Some, IfOk, IsNone, IsOk, OnErr, MatchOption};
    ghost use Rattle.std.specs.Option.{option_map};
    ghost use Rattle.oi_outside.specs.Nets.{after_return, Dials, Accepts, NoneWaits, AreDialled, IsNetCounted};
    ghost use Rattle.oi_outside.specs.FarNets.{far_read_half, far_write_half, far_state, after_far_return, no_faults, IsFarDialled};

    type Read = FarRead;

    type Write = FarWrite;

    ghost state = { λ n. Some (far_state n) };

    ghost faults = { λ _. no_faults };

    ghost accept_faults = { λ _. no_faults };

    fn listen(&mut self, _portal: &PortalText) -> Result<(), NetError>
        ensures state { Some (far_state self.new) ≡ Some (far_state self.old) }
        ensures count { IsNetCounted result no_faults no_faults }
        ensures accepts_count { no_faults ≡ no_faults }
        ensures ok { IsOk result }
        ensures after { self.new ≡ self.old }
    {
        Ok(())
    }

    fn dial(&mut self, portal: &PortalText) -> Result<(FarRead, FarWrite), NetError>
        ensures known { AreDialled (Some (far_state self.old)) }
        ensures link { IfOk result (λ link. Dials (Some (far_read_half link.0)) (Some (far_write_half link.1)) portal.now (Some (far_state self.old)) (Some (far_state self.new))) }
        ensures fresh { IfOk result (λ link. (no_faults ≡ 0) × (no_faults ≡ 0)) }
        ensures err { OnErr result (Some (far_state self.new) ≡ Some (far_state self.old)) }
        ensures count { IsNetCounted result no_faults no_faults }
        ensures accepts_count { no_faults ≡ no_faults }
        ensures after { IsFarDialled result portal.now self.old self.new }
    {
        let dial = self.dials;
        self.dials = dial.checked_add(1).ok_or(NoMemory)?;
        let script = take_script(self.alloc, &mut self.scripts);
        self.dialled.record(portal);
        Ok((FarRead::new(dial, script), FarWrite::new(dial)))
    }

    #[tactic(auto, using(crate::proofs::FarNets::none_waits))]
    fn accept(&mut self, portal: &PortalText) -> Result<Option<(FarRead, FarWrite)>, NetError>
        ensures known { AreDialled (Some (far_state self.old)) }
        ensures link { IfOk result (λ o. MatchOption o
            (NoneWaits portal.now (Some (far_state self.old)) × (Some (far_state self.new) ≡ Some (far_state self.old)))
            (λ link. Accepts (Some (far_read_half link.0)) (Some (far_write_half link.1)) portal.now (Some (far_state self.old)) (Some (far_state self.new)))) }
        ensures fresh { IfOk result (λ o. MatchOption o (Unit {0}) (λ link. (no_faults ≡ 0) × (no_faults ≡ 0))) }
        ensures err { OnErr result (Some (far_state self.new) ≡ Some (far_state self.old)) }
        ensures count { IsNetCounted result no_faults no_faults }
        ensures calls_count { no_faults ≡ no_faults }
        ensures none { IfOk result (λ o. IsNone o) }
        ensures ok { IsOk result }
        ensures after { self.new ≡ self.old }
    {
        let _ = portal;
        Ok(None)
    }

    fn give_back(&mut self, link: LinkName, read: FarRead, write: FarWrite)
        ensures returned { Some (far_state self.new) ≡ option_map (after_return link (Some (far_read_half read)) (Some (far_write_half write))) (Some (far_state self.old)) }
        ensures count { no_faults ≡ no_faults }
        ensures accepts_count { no_faults ≡ no_faults }
        ensures after { self.new ≡ after_far_return link read write self.old }
    {
        self.returned.record(&GivenBack { link, read, write });
    }
}
