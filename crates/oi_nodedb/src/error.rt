use oi_base::{Label, NoMemory};
use oi_outside::StoreError;
use thiserror::Error;

/// Why a call of the database was refused. Where several causes hold, the first one of this list is told.
#[derive(Debug, PartialEq, Eq, Drop, Error)]
pub enum DbError {
    /// No setting has the name, or it comes from the record's key.
    #[error("the name is not that of a setting that can be updated")]
    BadName { name: Label },
    /// The setting of this name does not take the value.
    #[error("the value is outside the range of its setting")]
    BadValue { name: Label },
    /// The text at the path is bad from this line on, counted from 1; with line 0 it is that of another path's record.
    #[error("the stored record is bad at line {line}")]
    BadRecord { path: Label, line: u32 },
    /// No record matches.
    #[error("no record matches")]
    NoObjects,
    /// The session of this number lives, and has the identity of a record that was to be deleted.
    #[error("session {sid} lives")]
    InUse { sid: u32 },
    /// The store failed. Its count of faults rose in that call.
    #[error("the store failed")]
    StoreFault,
    #[error("out of memory")]
    Memory,
}

impl From<NoMemory> for DbError {
    ghost use Rattle.std.specs.Prelude.{◌≡◌};
    ghost use Rattle.oi_nodedb.specs.declared.error.DbError.TheVariants.{Memory};

    ghost from_gives = { λ _ e. e ≡ Memory };

    fn from(_e: NoMemory) -> DbError {
        DbError::Memory
    }
}

impl From<StoreError> for DbError {
    ghost use Rattle.std.specs.Prelude.{◌≡◌};
    ghost use Rattle.oi_nodedb.specs.Answers.{answer_of};

    ghost from_gives = { λ s e. e ≡ answer_of s };

    fn from(e: StoreError) -> DbError {
        match e {
            StoreError::Failed => DbError::StoreFault,
            StoreError::Memory => DbError::Memory,
        }
    }
}
