ghost use Rattle.std.specs.Prelude.{◌≡◌};
ghost use Rattle.oi_history.specs.RuleWords.{rule_word};

/// A rule of the protocol that a target can break, after which its connection is of no use.
#[derive(Clone, Copy, Debug, PartialEq, Eq)]
pub enum Rule {
    /// The stream has a header that is none.
    Header,
    /// The stream has a data segment that is too long.
    TooLong,
    /// A PDU that a target does not send in the full feature phase.
    WrongOpcode,
    /// An initiator task tag that is not in use.
    UnknownTag,
    /// Data for a command that reads nothing, or an R2T for one that writes nothing.
    WrongKind,
    /// Data whose DataSN is not the next one.
    DataNumber,
    /// Data that do not begin where the data so far end.
    DataOffset,
    /// Data beyond the expected length.
    DataRange,
    /// An R2T for nothing, or for data beyond the expected length.
    R2tRange,
    /// A Reject of a command that is live.
    Rejected,
}

impl Rule {
    /// Its printed word.
    pub fn word(self) -> &'static str
        ensures { result.now ≡ rule_word self }
    {
        match self {
            Rule::Header => "header",
            Rule::TooLong => "toolong",
            Rule::WrongOpcode => "wrongopcode",
            Rule::UnknownTag => "unknowntag",
            Rule::WrongKind => "wrongkind",
            Rule::DataNumber => "datanumber",
            Rule::DataOffset => "dataoffset",
            Rule::DataRange => "datarange",
            Rule::R2tRange => "r2trange",
            Rule::Rejected => "rejected",
        }
    }
}
