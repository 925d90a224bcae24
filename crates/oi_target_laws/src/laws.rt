ghost use Rattle.oi_target_laws.specs.Arrivals.{EachHasItsTurn};
ghost use Rattle.oi_target_laws.specs.Conflicts.{ConflictIsExact, ConflictsChangeNothing};
ghost use Rattle.oi_target_laws.specs.Histories.{AskedAreExecuted, EachIsAccounted, ExecutedAreAsked, ExecutedAreComplete, ExecutedInOrder, ReadyAreExecuted, TurnsFindNoneReady, TurnsFindNoneTaken};
ghost use Rattle.oi_target_laws.specs.Logins.{LoginsAreHeard, ServedHaveProved};
ghost use Rattle.oi_target_laws.specs.Owners.{ExecutedAreOwned, OwedAreAwaited, RequestsHavePort};
ghost use Rattle.oi_target_laws.specs.Numbers.{NextIsExpected, NumbersSucceed, SameAreEqual, TurnsAreLast};

/// On each connection the order of execution is the order in which its commands came, which is that of their turns, and each command that
/// came was executed once, or was ended once before by task management (RFC 7143, section 11.5; SAM-5, section 7.7) or with its session or
/// connection, or still waits. It is executed only when its data are complete, and at once when, besides, those before it are executed or
/// ended, be it by another session's reset: no PDU that has its turn finds a command that could be executed, on any connection. What is
/// executed on a connection is among what the units were asked, in the same order, and they were asked nothing else. Nor does such a PDU
/// find on another connection a command that a reset before it ends.
pub fn commands_keep_their_order()
    ensures order { ExecutedInOrder }
    ensures accounted { EachIsAccounted }
    ensures asked { ExecutedAreAsked }
    ensures no_other { AskedAreExecuted }
    ensures complete { ExecutedAreComplete }
    ensures ready { ReadyAreExecuted }
    ensures turns { TurnsFindNoneReady }
    ensures learned { TurnsFindNoneTaken }
{}

/// A command of a unit's disk is answered RESERVATION CONFLICT exactly where a reservation of another nexus forbids what it wants, and
/// changes nothing then (SPC-4, section 5.13).
pub fn conflicts_are_exact()
    ensures status { ConflictIsExact }
    ensures units { ConflictsChangeNothing }
{}

/// The PDUs of a session that take a number (CmdSN) have their turn in the order of their numbers, with none left out and none twice, from
/// the number on with which the login opened the session; and the session expects the one behind the last (RFC 7143, section 4.2.2.1). Each
/// PDU that came on a session had its turn once, or is held until those before it come.
pub fn numbers_succeed()
    ensures order { NumbersSucceed }
    ensures expected { NextIsExpected }
    ensures turns { TurnsAreLast }
    ensures each { EachHasItsTurn }
    ensures equal { SameAreEqual }
{}

/// A connection is owed the replies to those of its commands that PDUs of other connections let the units execute since its own last PDU,
/// each once and in the order of execution, while its session lives; with each PDU of its own nothing is owed any more. Whose a request is
/// agrees with what was executed on each connection, and it is made for the initiator port of that session.
pub fn owed_are_replies()
    ensures owed { OwedAreAwaited }
    ensures owners { ExecutedAreOwned }
    ensures port { RequestsHavePort }
{}

/// A login is a function of the PDUs of its connection, and of what the target had at each. At a target that asks for CHAP each normal
/// session is that of an initiator which, in the login that led to it, was challenged and gave the right answer (RFC 7143, section 12.1.3).
pub fn logins_are_heard()
    ensures logins { LoginsAreHeard }
    ensures served { ServedHaveProved }
{}
