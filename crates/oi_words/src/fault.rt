use thiserror::Error;

/// Why words were not read.
#[derive(Debug, Clone, Copy, PartialEq, Eq, Error)]
pub enum WordsFault {
    /// The words ask for nothing that the tool does.
    #[error("the words are none that the tool knows")]
    Invalid,
    #[error("out of memory")]
    Memory,
}
