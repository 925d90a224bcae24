use crate::net::PortalText;
use oi_pipe::{PipeReader, PipeWriter};
use std::marker::Model;

/// The other end of a dialled link over memory, which waits to be accepted.
#[derive(Drop)]
pub struct WaitingEnd {
    pub(crate) portal: PortalText,
    pub(crate) dial: u64,
    pub(crate) read: PipeReader,
    pub(crate) write: PipeWriter,
}

impl Model for WaitingEnd {
    ghost use Rattle.oi_outside.specs.MemNets.{FarEnd, IsFresh};

    ghost Value = { FarEnd };

    ghost view = { λ e. record { portal = e.portal; dial = e.dial; read = e.read; write = e.write } };

    ghost invariant = { λ e. IsFresh (record { portal = e.portal; dial = e.dial; read = e.read; write = e.write }) };
}
