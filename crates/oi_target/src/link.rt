use oi_pdu::Pdu;
use oi_stream::Splitter;
use oi_target_login::TargetLogin;
use oi_target_session::{Owed, Session};
use std::collections::VecDeque;
use std::marker::Model;

/// PDUs that came before their turn, by how far they are behind the next one.
#[derive(Debug, Drop)]
pub struct Held {
    pub pdus: VecDeque<Option<Pdu>>,
}

impl Model for Held {
    ghost use Rattle.std.specs.Prelude.{List, Option};
    ghost use Rattle.oi_pdu.specs.declared.codec.Pdu.{Pdu};

    ghost Value = { List (Option Pdu) };

    ghost view = { λ h. h.pdus.items };
}

/// Replies to commands that were executed behind another session's reset: the connection's next PDU lets them be written.
#[derive(Debug, Drop)]
pub struct Debts {
    pub replies: Vec<Owed>,
}

impl Model for Debts {
    ghost use Rattle.std.specs.Prelude.{List};
    ghost use Rattle.oi_target_session.specs.Owing.{Owed};

    ghost Value = { List Owed };

    ghost view = { λ d. d.replies.items };
}

/// A connection in its full feature phase.
#[derive(Debug, Drop)]
pub struct Serving {
    pub session: Session,
    pub held: Held,
    pub owed: Debts,
}

/// Where a connection stands.
#[derive(Debug, Drop)]
pub enum Standing {
    LoggingIn(TargetLogin),
    Serving(Serving),
    /// Another session of the same initiator port was opened: the next byte closes the connection.
    Ended,
    Closed,
}

/// A connection, and its bytes so far as they are no whole PDU.
#[derive(Debug, Drop)]
pub struct Link {
    pub number: u32,
    pub splitter: Splitter,
    pub standing: Standing,
}
