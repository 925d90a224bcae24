/// The name of a link that is given back: the session whose connection it was, and which of that session's connections,
/// numbered from 1. Session 0 stands for all others: discovery, failed logins, and a target's ends.
#[derive(Clone, Copy, Debug, PartialEq, Eq)]
pub struct LinkName {
    pub sid: u32,
    pub generation: u64,
}
