use oi_base::Blob;

/// An initiator port as the target knows it: the initiator's name and behind it the six bytes of the ISID.
#[derive(Debug, Drop, PartialEq, Eq)]
pub struct Nexus {
    pub bytes: Blob,
}

/// A registered nexus and its key.
#[derive(Debug, Drop)]
pub struct Registration {
    pub nexus: Blob,
    pub key: u64,
}

/// The nexus that holds the reservation, and the type of it.
#[derive(Debug, Drop)]
pub struct Holder {
    pub nexus: Blob,
    pub form: u8,
}
