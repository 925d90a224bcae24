use oi_base::{Blob, Label, Mutual};
use oi_names::{IscsiName, Portal};

/// The CHAP that a target asks of its initiators (RFC 7143, section 12.1.3).
#[derive(Debug, PartialEq, Eq, Drop)]
pub struct ChapConfig {
    /// The initiator's name: at most 8,192 bytes, none of them zero.
    pub user: Label,
    pub secret: Blob,
    /// By what the target shows in turn who it is; None where it cannot.
    pub mutual: Option<Mutual>,
    /// The number of the stream from which challenges are drawn.
    pub key: u64,
}

/// Where a target is found that has moved (RFC 7143, section 11.13.5, class 1).
#[derive(Debug, PartialEq, Eq, Drop)]
pub struct Moved {
    pub portal: Portal,
    /// 1 for a time, 2 for good.
    pub detail: u8,
}

/// What a target asks of a login.
#[derive(Debug, PartialEq, Eq, Drop)]
pub struct LoginRules {
    pub name: IscsiName,
    /// The portal group tag.
    pub tag: u16,
    pub chap: Option<ChapConfig>,
    pub moved: Option<Moved>,
}
