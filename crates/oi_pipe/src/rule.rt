//! The table of a pipe: its rule, and what each kind of step tells.
use crate::view::View;
use atomic_table::{Join, Play, Seat, Shared, Split, Table, TableRule};
use circular_buffer::HeapCircularBuffer;
use std::alloc::Global;

/// The bytes between the halves.
pub type Store = HeapCircularBuffer<u8>;

pub type PipeSeat = Seat<Option<Store>, View>;

pub type PipeTable = Table<Option<Store>, View, u32, PipeRule, Global>;

pub type PipeShared = Shared<Option<Store>, View, u32, PipeRule>;

/// Word 0 is 1 while a half is inside, word 1 once the pipe is closed. The one slot has the bytes, and the key is the
/// room.
pub struct PipeRule;

impl TableRule<Option<Store>, View, u32> for PipeRule {
    ghost use Rattle.oi_pipe.specs.Views.{opened};
    ghost use Rattle.oi_pipe.specs.Kept.{Kept};

    ghost holds = { Kept };

    ghost first = { opened };
}

pub struct Tries;

impl Play<Option<Store>, View> for Tries {
    ghost use Rattle.oi_pipe.specs.Kept.{Tries};

    ghost then = { Tries };
}

pub struct Leaves;

impl Play<Option<Store>, View> for Leaves {
    ghost use Rattle.oi_pipe.specs.Kept.{Leaves};

    ghost then = { Leaves };
}

pub struct LeavesFull;

impl Play<Option<Store>, View> for LeavesFull {
    ghost use Rattle.oi_pipe.specs.Kept.{LeavesFull};

    ghost then = { LeavesFull };
}

pub struct LeavesRead;

impl Play<Option<Store>, View> for LeavesRead {
    ghost use Rattle.oi_pipe.specs.Kept.{LeavesRead};

    ghost then = { LeavesRead };
}

pub struct LeavesWritten;

impl Play<Option<Store>, View> for LeavesWritten {
    ghost use Rattle.oi_pipe.specs.Kept.{LeavesWritten};

    ghost then = { LeavesWritten };
}

pub struct Looks;

impl Play<Option<Store>, View> for Looks {
    ghost use Rattle.oi_pipe.specs.Kept.{Looks};

    ghost then = { Looks };
}

pub struct Closes;

impl Play<Option<Store>, View> for Closes {
    ghost use Rattle.oi_pipe.specs.Kept.{Closes};

    ghost then = { Closes };
}

pub struct Meets;

impl Play<Option<Store>, View> for Meets {
    ghost use Rattle.oi_pipe.specs.Kept.{Meets};

    ghost then = { Meets };
}

/// How the first seat is cut into the two halves, and how they are joined again.
pub struct Halves;

impl Split<View> for Halves {
    ghost use Rattle.oi_pipe.specs.Views.{reading, writing};

    ghost left = { reading };

    ghost right = { writing };
}

impl Join<View> for Halves {
    ghost use Rattle.oi_pipe.specs.Views.{met, nobody};

    ghost both = { met };

    ghost spent = { nobody };
}
