ghost use Rattle.oi_target_session.specs.Executions.{RepliesAreSent, ServedExecute};
ghost use Rattle.oi_target_session.specs.Owing.{WokenInOrder};
ghost use Rattle.oi_target_session.specs.Runs.{RepliesInOrder, UnitsInOrder};
ghost use Rattle.oi_target_session.specs.Sequences.{RoomIsEnough};

/// Commands are executed one after another, in order, each on the units that the one before left, and the replies that are
/// sent are those of the units. Nothing else that is served changes the units. What is executed behind another session's
/// reset is so too, and the replies that are owed are those of the units.
#[tactic(auto, using(crate::proofs::Answered::replies_are_sent, crate::proofs::Executed::served_units, crate::proofs::Joins::units_in_order, crate::proofs::Joins::replies_in_order, crate::proofs::Wakes::woken_in_order))]
pub fn execution_is_sequential()
    ensures served { ServedExecute }
    ensures units { UnitsInOrder }
    ensures replies { RepliesInOrder }
    ensures sent { RepliesAreSent }
    ensures woken { WokenInOrder }
{}

/// Room is made once for all Data-In PDUs of a command, and holds them.
#[tactic(auto, using(crate::proofs::Room::room_is_enough))]
pub fn data_fit_their_room()
    ensures { RoomIsEnough }
{}
