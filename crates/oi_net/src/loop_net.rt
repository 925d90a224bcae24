ghost use Rattle.std.specs.Prelude.{◌≡◌, false, map, IfOk, Ok, None, MatchOption};
ghost use Rattle.std.specs.List.{list_any};
ghost use Rattle.std.specs.Str.{bytes_eq};
ghost use Rattle.oi_outside.specs.MemNets.{is_listened};

use crate::loop_link::{LoopRead, LoopWrite};
use oi_outside::{LinkName, Net, NetError, PortalText};
use std::io;
use std::io::ErrorKind;
use std::marker::Model;
use std::net::{Ipv4Addr, Net as Sockets, SocketAddr, TcpListener, TcpStream};

/// A network over the loopback interface. Each portal that is listened to has a free port of its own; a portal that
/// nobody listens to cannot be dialled. It tells neither its links nor their bytes.
#[derive(Drop)]
pub struct LoopNet<R: Sockets<Listener = TcpListener, Stream = TcpStream> + AllocGlobal + Drop> {
    rt: R,
    ports: Vec<Port>,
    faults: u64,
    accept_faults: u64,
}

/// The port of a portal.
#[derive(Drop)]
struct Port {
    portal: PortalText,
    listener: TcpListener,
    address: SocketAddr,
}

impl<R: Sockets<Listener = TcpListener, Stream = TcpStream> + AllocGlobal + Drop> Model
    for LoopNet<R> {
    ghost use Rattle.std.specs.Prelude.{map};
    ghost use Rattle.oi_net.specs.Loops.{LoopPorts};

    ghost Value = { LoopPorts };

    ghost view = { λ n. record { portals = map (λ p. p.portal) n.ports.items; faults = n.faults; accept_faults = n.accept_faults } };
}

impl<R: Sockets<Listener = TcpListener, Stream = TcpStream> + AllocGlobal + Drop> LoopNet<R> {
    ghost use Rattle.std.specs.Prelude.{◌≡◌, []};
    ghost use Rattle.oi_outside.specs.Calls.{one_more};
    ghost use Rattle.oi_outside.specs.declared.net_error.NetError.TheVariants.{Failed};

    /// A network in which nobody listens.
    pub fn new(rt: R) -> LoopNet<R>
        ensures { result ≡ record { portals = []; faults = 0; accept_faults = 0 } }
    {
        let ports = Vec::new(rt.alloc());
        LoopNet {
            rt,
            ports,
            faults: 0,
            accept_faults: 0,
        }
    }

    // Counts that a listen or a dial failed.
    fn fail(&mut self) -> NetError
        ensures error { result ≡ Failed }
        ensures after { self.new ≡ record self.old { faults = one_more self.old.faults } }
    {
        self.faults = self.faults.saturating_add(1);
        NetError::Failed
    }

    // Counts that an accept failed.
    fn fail_accept(&mut self) -> NetError
        ensures error { result ≡ Failed }
        ensures after { self.new ≡ record self.old { accept_faults = one_more self.old.accept_faults } }
    {
        self.accept_faults = self.accept_faults.saturating_add(1);
        NetError::Failed
    }
}

impl<R: Sockets<Listener = TcpListener, Stream = TcpStream> + AllocGlobal + Drop> Net
    for LoopNet<R> {
    ghost use Rattle.std.specs.Prelude.{◌≡◌, false, Option, Ok, Err, None, IfOk, OnErr, MatchOption};
    ghost use Rattle.oi_outside.specs.declared.net_error.NetError.TheVariants.{Failed};
    ghost use Rattle.oi_outside.specs.Nets.{NetState, Dials, Accepts, NoneWaits, AreDialled, IsNetCounted};
    ghost use Rattle.oi_outside.specs.MemNets.{is_listened};
    ghost use Rattle.oi_net.specs.Loops.{portals_after};

    type Read = LoopRead;

    type Write = LoopWrite;

    ghost state = { λ _. None };

    ghost faults = { λ n. n.faults };

    ghost accept_faults = { λ n. n.accept_faults };

    fn listen(&mut self, portal: &PortalText) -> Result<(), NetError>
        ensures state { ◌≡◌ {A = Option NetState} None None }
        ensures count { IsNetCounted result self.old.faults self.new.faults }
        ensures accepts_count { self.new.accept_faults ≡ self.old.accept_faults }
        ensures portals { self.new.portals ≡ portals_after result portal.now self.old.portals }
    {
        if is_listened(self.ports.as_slice(), portal) {
            return Ok(());
        }
        let Ok((listener, address)) = open_port(&self.rt) else {
            return Err(self.fail());
        };
        let portal = portal.copy(self.rt.alloc())?;
        self.ports.push(Port {
            portal,
            listener,
            address,
        })?;
        Ok(())
    }

    fn dial(&mut self, portal: &PortalText) -> Result<(LoopRead, LoopWrite), NetError>
        ensures known { AreDialled None }
        ensures link { IfOk result (λ link. Dials None None portal.now None None) }
        ensures fresh { IfOk result (λ link. (link.0.faults ≡ 0) × (link.1.faults ≡ 0)) }
        ensures err { OnErr result (◌≡◌ {A = Option NetState} None None) }
        ensures count { IsNetCounted result self.old.faults self.new.faults }
        ensures accepts_count { self.new.accept_faults ≡ self.old.accept_faults }
        ensures unknown { is_listened self.old.portals portal.now ≡ false → result ≡ Err Failed }
        ensures portals { self.new.portals ≡ self.old.portals }
    {
        let Some(address) = address_of(self.ports.as_slice(), portal) else {
            return Err(self.fail());
        };
        match connect(&self.rt, address) {
            Ok(link) => Ok(link),
            Err(_) => Err(self.fail()),
        }
    }

    fn accept(&mut self, portal: &PortalText) -> Result<Option<(LoopRead, LoopWrite)>, NetError>
        ensures known { AreDialled None }
        ensures link { IfOk result (λ o. MatchOption o
            (NoneWaits portal.now None × (◌≡◌ {A = Option NetState} None None))
            (λ link. Accepts None None portal.now None None)) }
        ensures fresh { IfOk result (λ o. MatchOption o (Unit {0}) (λ link. (link.0.faults ≡ 0) × (link.1.faults ≡ 0))) }
        ensures err { OnErr result (◌≡◌ {A = Option NetState} None None) }
        ensures count { IsNetCounted result self.old.accept_faults self.new.accept_faults }
        ensures calls_count { self.new.faults ≡ self.old.faults }
        ensures unknown { is_listened self.old.portals portal.now ≡ false → result ≡ Ok None }
        ensures portals { self.new.portals ≡ self.old.portals }
    {
        match accept_at(self.ports.as_slice(), portal) {
            Ok(link) => Ok(link),
            Err(_) => Err(self.fail_accept()),
        }
    }

    fn give_back(&mut self, _link: LinkName, _read: LoopRead, _write: LoopWrite)
        ensures returned { ◌≡◌ {A = Option NetState} None None }
        ensures count { self.new.faults ≡ self.old.faults }
        ensures accepts_count { self.new.accept_faults ≡ self.old.accept_faults }
        ensures portals { self.new.portals ≡ self.old.portals }
    {}
}

fn is_listened(ports: &[Port], portal: &PortalText) -> bool
    ensures { result ≡ is_listened (map (λ p. p.portal) ports.now) portal.now }
{
    has_port(ports, portal)
}

fn has_port(ports: &[Port], portal: &PortalText) -> bool
    ensures { result ≡ list_any (λ p. bytes_eq p.portal portal.now) ports.now }
{
    ports.iter().any(|port| port.portal == *portal)
}

fn open_port<R: Sockets<Listener = TcpListener, Stream = TcpStream>>(
    rt: &R,
) -> io::Result<(TcpListener, SocketAddr)> {
    let listener = TcpListener::bind(rt, SocketAddr::from((Ipv4Addr::LOCALHOST, 0)))?;
    listener.set_nonblocking(true)?;
    let address = listener.local_addr()?;
    Ok((listener, address))
}

fn address_of(ports: &[Port], portal: &PortalText) -> Option<SocketAddr>
    ensures { is_listened (map (λ p. p.portal) ports.now) portal.now ≡ false → result ≡ None }
{
    let port = find_port(ports, portal)?;
    Some(port.address)
}

fn find_port<'a>(ports: &'a [Port], portal: &PortalText) -> Option<&'a Port>
    ensures { is_listened (map (λ p. p.portal) ports.now) portal.now ≡ false → result ≡ None }
{
    if !is_listened(ports, portal) {
        return None;
    }
    ports.iter().find(|port| port.portal == *portal)
}

fn connect<R: Sockets<Listener = TcpListener, Stream = TcpStream>>(
    rt: &R,
    address: SocketAddr,
) -> io::Result<(LoopRead, LoopWrite)>
    ensures { IfOk result (λ link. (link.0.faults ≡ 0) × (link.1.faults ≡ 0)) }
{
    halves_of(TcpStream::connect(rt, address)?)
}

// The link that waits at the portal's port, if there is one.
fn accept_at(ports: &[Port], portal: &PortalText) -> io::Result<Option<(LoopRead, LoopWrite)>>
    ensures fresh { IfOk result (λ o. MatchOption o (Unit {0}) (λ link. (link.0.faults ≡ 0) × (link.1.faults ≡ 0))) }
    ensures unknown { is_listened (map (λ p. p.portal) ports.now) portal.now ≡ false → result ≡ Ok None }
{
    match find_port(ports, portal) {
        Some(port) => accept_from(&port.listener),
        None => Ok(None),
    }
}

fn accept_from(listener: &TcpListener) -> io::Result<Option<(LoopRead, LoopWrite)>>
    ensures { IfOk result (λ o. MatchOption o (Unit {0}) (λ link. (link.0.faults ≡ 0) × (link.1.faults ≡ 0))) }
{
    match listener.accept() {
        Ok((stream, _)) => Ok(Some(halves_of(stream)?)),
        Err(e) if e.kind() == ErrorKind::WouldBlock => Ok(None),
        Err(e) => Err(e),
    }
}

// Both halves of a connection, which do not wait.
fn halves_of(stream: TcpStream) -> io::Result<(LoopRead, LoopWrite)>
    ensures { IfOk result (λ link. (link.0.faults ≡ 0) × (link.1.faults ≡ 0)) }
{
    stream.set_nonblocking(true)?;
    stream.set_nodelay(true)?;
    let other = stream.try_clone()?;
    Ok((LoopRead::new(stream), LoopWrite::new(other)))
}
