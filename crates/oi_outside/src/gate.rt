/// Where a program passes its gate.
#[derive(Clone, Copy, Debug, PartialEq, Eq)]
pub enum Place {
    /// The forward half of a session is held for a transmission.
    TransmitHeld,
    /// A received PDU was applied to a session.
    ReceiveApplied,
    /// A line of a script begins.
    ScriptLine,
}

/// A place at which a test may hold a worker. Passing it changes nothing that a contract sees. Workers share a gate.
pub trait Gate: Sync {
    /// A worker is at this place.
    fn pass(&self, place: Place);
}

/// The gate of the program, which holds nobody.
#[derive(Clone, Copy, Debug)]
pub struct OpenGate;

impl Gate for OpenGate {
    fn pass(&self, _place: Place) {}
}
