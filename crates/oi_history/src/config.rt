/// The settings of a session. Times are in seconds.
#[derive(Clone, Copy, Debug, PartialEq, Eq)]
pub struct SessionConfig {
    /// The session's number.
    pub sid: u32,
    /// How often a command is sent at most.
    pub tries: u8,
    /// How long submissions wait for a new connection; a negative number is without end.
    pub replacement: i32,
    /// The time without a PDU after which the target is pinged; 0 is never.
    pub noop_interval: u32,
    /// The time in which a ping has to be answered.
    pub noop_timeout: u32,
    /// The time of an ABORT TASK.
    pub abort: u32,
    /// The time of a LOGICAL UNIT RESET.
    pub lun_reset: u32,
    /// The time of a TARGET WARM RESET.
    pub target_reset: u32,
    /// The time of a logout.
    pub logout: u32,
    /// Initiator task tags for commands.
    pub cmds_max: u16,
    /// Entries of one half of the history.
    pub steps: u64,
    /// Payload bytes kept in one half of the history.
    pub kept: u64,
    /// Live commands of one logical unit.
    pub queue_depth: u16,
    /// A loss of the connection uses up a try.
    pub count_disrupted: bool,
}
