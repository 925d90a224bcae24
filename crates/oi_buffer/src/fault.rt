use thiserror::Error;

/// Why a Data-In is refused.
#[derive(Clone, Copy, Debug, PartialEq, Eq, Drop, Error)]
pub enum PlaceFault {
    /// Its DataSN is not the count of the pieces before it.
    #[error("a Data-In out of sequence")]
    Number,
    /// Its buffer offset is not where the piece before it ends.
    #[error("a Data-In out of place")]
    Offset,
    /// It ends past the length that the read asked for.
    #[error("a Data-In past the end")]
    Range,
}
