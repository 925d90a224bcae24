use crate::link_name::LinkName;
use crate::link_read::LinkRead;
use crate::link_write::LinkWrite;
use crate::net_error::NetError;
use oi_base::Label;

/// The text of a portal: an address and a port, as `127.0.0.1:3260`.
pub type PortalText = Label;

/// A network, through which links are dialled and accepted.
pub trait Net {
    ghost use Rattle.std.specs.Prelude.{◌≡◌, ◌∷◌, ℕ, Option, IfOk, OnErr, MatchOption};
    ghost use Rattle.std.specs.Option.{option_map};
    ghost use Rattle.oi_outside.specs.Nets.{NetState, after_return, Dials, Accepts, NoneWaits, AreDialled, IsNetCounted};

    /// The reading half of a link. A worker may own it.
    type Read: LinkRead + Send + Drop;

    /// The writing half of a link. A worker may own it.
    type Write: LinkWrite + Send + Drop;

    /// The dials and accepts that answered a link, the dialled connections that wait, and the links that were given
    /// back, where the object tells them.
    ghost state: { Self → Option NetState };

    /// How many calls of `listen` and `dial` failed; the last value of its type stands for all that are greater.
    ghost faults: { Self → ℕ };

    /// How many calls of `accept` failed; the last value of its type stands for all that are greater.
    ghost accept_faults: { Self → ℕ };

    /// From now on dialled connections may wait at the portal.
    fn listen(&mut self, portal: &PortalText) -> Result<(), NetError>
        ensures state { state self.new ≡ state self.old }
        ensures count { IsNetCounted result (faults self.old) (faults self.new) }
        ensures accepts_count { accept_faults self.new ≡ accept_faults self.old };

    /// Connects to the portal. The links that dials answer are numbered from 0.
    fn dial(&mut self, portal: &PortalText) -> Result<(Self::Read, Self::Write), NetError>
        ensures known { AreDialled (state self.old) }
        ensures link { IfOk result (λ link. Dials (Self.Read.half link.0) (Self.Write.half link.1) portal.now (state self.old) (state self.new)) }
        ensures fresh { IfOk result (λ link. (Self.Read.faults link.0 ≡ 0) × (Self.Write.faults link.1 ≡ 0)) }
        ensures err { OnErr result (state self.new ≡ state self.old) }
        ensures count { IsNetCounted result (faults self.old) (faults self.new) }
        ensures accepts_count { accept_faults self.new ≡ accept_faults self.old };

    /// Takes the first of the dialled connections that wait at the portal, if there is one.
    fn accept(&mut self, portal: &PortalText) -> Result<Option<(Self::Read, Self::Write)>, NetError>
        ensures known { AreDialled (state self.old) }
        ensures link { IfOk result (λ o. MatchOption o
            (NoneWaits portal.now (state self.old) × (state self.new ≡ state self.old))
            (λ link. Accepts (Self.Read.half link.0) (Self.Write.half link.1) portal.now (state self.old) (state self.new))) }
        ensures fresh { IfOk result (λ o. MatchOption o (Unit {0}) (λ link. (Self.Read.faults link.0 ≡ 0) × (Self.Write.faults link.1 ≡ 0))) }
        ensures err { OnErr result (state self.new ≡ state self.old) }
        ensures count { IsNetCounted result (accept_faults self.old) (accept_faults self.new) }
        ensures calls_count { faults self.new ≡ faults self.old };

    /// Takes both halves of a link back, under a name. From then on nothing is written to it.
    fn give_back(&mut self, link: LinkName, read: Self::Read, write: Self::Write)
        ensures returned { state self.new ≡ option_map (after_return link (Self.Read.half read) (Self.Write.half write)) (state self.old) }
        ensures count { faults self.new ≡ faults self.old }
        ensures accepts_count { accept_faults self.new ≡ accept_faults self.old };
}
