use oi_base::NoMemory;
use oi_solo::Solo;
use oi_stream::Splitter;
use std::alloc::Global;

/// Why the input stopped.
#[derive(Clone, Copy, Debug, PartialEq, Eq)]
pub enum Stop {
    /// A line asked for it.
    Asked,
    InputEnd,
    /// This line is outside the language.
    BadLine { line: u64 },
    /// This line would pass a limit of the history.
    Full { line: u64 },
}

/// What broke a run.
#[derive(Clone, Copy, Debug, PartialEq, Eq)]
pub enum Broken {
    Memory,
    Read,
    Write,
}

/// A replayed session and the line that has not ended yet.
#[derive(Debug, Drop)]
pub struct Runner {
    pub alloc: Global,
    pub solo: Solo,
    /// One for each login.
    pub links: Vec<Splitter>,
    /// A line stood that is no setting.
    pub begun: bool,
    /// A line was refused.
    pub refused: bool,
    pub part: Vec<u8>,
    pub line: u64,
    pub stop: Option<Stop>,
}

impl From<NoMemory> for Broken {
    ghost use Rattle.oi_drive.specs.declared.runner.Broken.TheVariants.{Memory};
    ghost use Rattle.std.specs.Prelude.{◌≡◌};

    ghost from_gives = { λ _ e. e ≡ Memory };

    fn from(_e: NoMemory) -> Broken {
        Broken::Memory
    }
}
