/// Where a tag of a pool stands.
#[derive(Clone, Copy, Debug, PartialEq, Eq)]
pub enum TagState {
    /// No command has it.
    Free,
    /// A command that is not done has it.
    Live,
    /// Its command is done; PDUs of that command may still come, or stand in a queue.
    Ended,
    /// No tag of this pool: another age, no tag of a command, or an index past the pool's end.
    Foreign,
}
