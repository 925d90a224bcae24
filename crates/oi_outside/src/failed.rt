use thiserror::Error;

/// A call of the outside failed. Its count of faults rose in that call.
#[derive(Clone, Copy, Debug, PartialEq, Eq, Drop, Error)]
#[error("the outside failed")]
pub struct Failed;
