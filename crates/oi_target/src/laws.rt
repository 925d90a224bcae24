ghost use Rattle.oi_target.specs.Courses.{ClosesByEvents, CoursesAreEvents, CutsDoNotMatter, PdusAreFramed, WritesAreOfEvents};
ghost use Rattle.oi_target.specs.Runs.{AnswersAreReplies, CommandsInOrder, OwedAreReplies, StepsExecute, StepsJoin};
ghost use Rattle.oi_target.specs.Shown.{OnlyLoggedInAreServed, OnlyProvedLogIn};

/// A target is a function of what came to it since it was made: connections that were accepted or are gone, listings, and the PDUs
/// of each connection in the order in which they became whole. A malformed PDU has its place in that order where its header was whole.
/// What the target writes on each connection is such a function, too, when it closes one, and what it will do.
pub fn calls_are_events()
    ensures target { CoursesAreEvents }
    ensures written { WritesAreOfEvents }
    ensures closed { ClosesByEvents }
{}

/// The PDUs of a connection are the framing of all its bytes, and it does not matter how these were cut.
#[tactic(auto, using(crate::proofs::Joins::steps_join))]
pub fn cuts_do_not_matter()
    ensures cuts { CutsDoNotMatter }
    ensures framed { PdusAreFramed }
    ensures pdus { StepsJoin }
{}

/// The logical units change by the commands that are executed alone, one after another, and reply as units that are asked nothing
/// else. What is sent in answer to commands are these replies, and what is owed for those behind another session's reset is too.
#[tactic(auto, using(crate::proofs::Joins::steps_execute))]
pub fn units_change_by_execution()
    ensures whole { CommandsInOrder }
    ensures answers { AnswersAreReplies }
    ensures steps { StepsExecute }
    ensures owed { OwedAreReplies }
{}

/// At a target that asks for CHAP a normal session stands only for an initiator that, in the login that led to it, was challenged and
/// gave the right answer.
pub fn sessions_are_proved()
    ensures logins { OnlyProvedLogIn }
    ensures served { OnlyLoggedInAreServed }
{}
