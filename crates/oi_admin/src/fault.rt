use oi_nodedb::DbError;
use thiserror::Error;

/// Why a command was not carried out whole.
#[derive(Debug, PartialEq, Eq, Drop, Error)]
pub enum AdminFault {
    /// The database refused it; `DbError::Memory` is told as `Memory`.
    #[error("{0}")]
    Db(DbError),
    /// The output could not be written. The sink's count of faults rose.
    #[error("the output could not be written")]
    Write,
    #[error("out of memory")]
    Memory,
}

impl From<DbError> for AdminFault {
    ghost use Rattle.std.specs.Prelude.{◌≡◌};
    ghost use Rattle.oi_admin.specs.Applies.{fault_of};

    ghost from_gives = { λ e f. f ≡ fault_of e };

    fn from(e: DbError) -> AdminFault {
        match e {
            DbError::Memory => AdminFault::Memory,
            other => AdminFault::Db(other),
        }
    }
}
