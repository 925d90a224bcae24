/// Which step of the error handler covers a live submission.
#[derive(Clone, Copy, Debug, PartialEq, Eq)]
pub enum Aim {
    /// None does.
    Free,
    /// An ABORT TASK.
    Abort,
    /// A reset of its logical unit or target.
    Reset,
}

/// The residual count of a reply, in bytes (RFC 7143, section 11.4.5). The U bit goes before the O bit.
#[derive(Clone, Copy, Debug, PartialEq, Eq)]
pub enum Residual {
    /// Neither bit is set.
    Exact,
    /// Of the expected length so many bytes were not transferred.
    Under(u32),
    /// So many bytes more than the expected length were there.
    Over(u32),
}

/// An event that may concern a submission.
#[derive(Clone, Copy, Debug, PartialEq, Eq)]
pub enum Hit {
    /// A SCSI Response, or a Data-In with status, to its tag; the latter has the response 0.
    Reply {
        /// The iSCSI response; 0 is "command completed at target".
        response: u8,
        /// The SCSI status.
        status: u8,
        residual: Residual,
        /// The expected length of the command, in bytes.
        length: u32,
        /// The bytes of Data-In that were taken.
        placed: u32,
        /// The command reads.
        reads: bool,
        aim: Aim,
    },
    /// Its ABORT TASK was answered with "function complete".
    AbortDone,
    /// A reset that covers it was answered with "function complete".
    ResetDone,
    /// The connection was lost.
    Lost {
        aim: Aim,
        /// The time for a replacement connection is 0.
        at_once: bool,
        /// The loss uses up a try. One that does not gives the try back.
        counted: bool,
    },
    /// The time for a replacement connection is over.
    ReplacementPast,
    /// Its submitter asks for its abort.
    Aborted,
    /// The session ended.
    Ended,
}
