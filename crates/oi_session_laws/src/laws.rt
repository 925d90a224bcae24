ghost use Rattle.oi_session_laws.specs.Answers.{AtMostOnce, ExactlyOnce, IdsInOrder, OnceBehindEnd};
ghost use Rattle.oi_session_laws.specs.Connections.{GivenDistinctOnEach, SuccessiveOnEach};
ghost use Rattle.oi_session_laws.specs.Ends.{AllDoneAfterEnd, OverByEnd, TriesBelowLimit};
ghost use Rattle.oi_session_laws.specs.Example.{ExampleIsPermitted};
ghost use Rattle.oi_session_laws.specs.Generations.{StaleChangesNothing};
ghost use Rattle.oi_session_laws.specs.Numbers.{InsideWindow, NextFollows, Successive};
ghost use Rattle.oi_session_laws.specs.Stays.{DoneIsFinal};
ghost use Rattle.oi_session_laws.specs.Tags.{AllDistinct, GivenDistinct, GivenInOrder, IdsDistinct, LiveHolds, TagsDistinct};

/// In a permitted history a submission that is done keeps its outcome, and the entry that decided it, whatever follows.
pub fn done_is_final()
    ensures { DoneIsFinal }
{}

/// A session of a permitted history is over from the entry that ends it on, and not before.
pub fn sessions_end_by_their_entry()
    ensures { OverByEnd }
{}

/// Once a session of a permitted history ended, none of its submissions waits or is live.
pub fn all_done_after_end()
    ensures { AllDoneAfterEnd }
{}

/// In a permitted history a submission that waits has used fewer tries than the settings allow, and one that is live no
/// more.
pub fn tries_below_limit()
    ensures { TriesBelowLimit }
{}

/// A PDU of another connection than that of the last login changes no submission, nor the window, the phase, the error
/// handler or anything else, and hands out nothing. This holds of every history. Where it is a task management response, the
/// half that sends is told ExpStatSN and the count of submissions that are not done, as they stand.
pub fn stale_pdu_changes_nothing()
    ensures { StaleChangesNothing }
{}

/// In a permitted history the commands since the last login have its CmdSN and the successors of it, without a gap.
pub fn command_numbers_successive()
    ensures { Successive }
{}

/// In a permitted history CmdSN is that of the last login, moved by one for each command since. So a task management
/// request, a NOP-Out and a Logout Request, which are immediate, carry it and do not move it.
pub fn command_number_moves_by_commands()
    ensures { NextFollows }
{}

/// In a permitted history the CmdSN of a command is MaxCmdSN at its entry, or comes before it.
pub fn command_numbers_inside_window()
    ensures { InsideWindow }
{}

/// In a permitted history the commands of each connection, the last or an earlier one, have the CmdSN of its login and the
/// successors of it, without a gap.
pub fn command_numbers_successive_on_each()
    ensures { SuccessiveOnEach }
{}

/// In a permitted history the ids of the submissions are given in order, from 0.
pub fn ids_are_in_order()
    ensures { IdsInOrder }
{}

/// In a permitted history no submission is handed out twice.
pub fn delivered_at_most_once()
    ensures { AtMostOnce }
{}

/// In a permitted history that ended, and of which nothing is due, each submission was handed out exactly once.
pub fn delivered_exactly_once()
    ensures { ExactlyOnce }
{}

/// In a permitted history in which outcomes were handed out behind the end, each submission was handed out exactly once.
pub fn delivered_once_behind_end()
    ensures { OnceBehindEnd }
{}

/// In a permitted history no initiator task tag is allocated to two commands, or allocated and free.
pub fn allocated_tags_distinct()
    ensures { TagsDistinct }
{}

/// In a permitted history no submission has two allocated tags, though one that ended may not be released yet.
pub fn allocated_ids_distinct()
    ensures { IdsDistinct }
{}

/// In a permitted history a submission that is live is so on the connection of the present login, and has its tag allocated.
pub fn live_submissions_hold_their_tags()
    ensures { LiveHolds }
{}

/// In a permitted history the task management requests, pings and Logout Requests since the last login have the management
/// tags of its connection in order, and at most as many as a connection may give.
pub fn management_tags_in_order()
    ensures { GivenInOrder }
{}

/// In a permitted history no management tag is given twice since the last login.
pub fn management_tags_distinct()
    ensures { GivenDistinct }
{}

/// In a permitted history no management tag is given twice on any connection, the last or an earlier one.
pub fn management_tags_distinct_on_each()
    ensures { GivenDistinctOnEach }
{}

/// In a permitted history of valid settings no tag of a command is a management tag that was given on the connection, and
/// all of them differ.
pub fn all_tags_distinct()
    ensures { AllDistinct }
{}

/// There are permitted histories of valid settings: in the example a command is sent, the connection is left and lost, the
/// command is sent again and answered, and the session ends with another request that was not sent.
pub fn an_example_is_permitted()
    ensures { ExampleIsPermitted }
{}
