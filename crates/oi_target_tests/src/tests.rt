ghost use Rattle.std.specs.Prelude.{◌≡◌, ◌∷◌, [], IfOk};

use oi_base::Series;
use oi_names::{IscsiName, Portal};
use oi_sendtargets::Found;
use oi_target::*;
use std::alloc::Global;
use std::process::Abort;
use std::test::Fail;

const FIRST: &[u8] =
    b"InitiatorName=iqn.2024-01.org.example:initiator\0SessionType=Normal\0TargetName=iqn.2024-01.org.example:d1\0AuthMethod=None\0";

const DISCOVERY: &[u8] = b"InitiatorName=i\0SessionType=Discovery\0AuthMethod=None\0";

const LENGTHS: &[u8] = b"MaxRecvDataSegmentLength=65536\0FirstBurstLength=512\0";

const NOTHING: &[u8] = b"";

// Responses to a login under ISID 1: `TargetPortalGroupTag=1`, `AuthMethod=None`; `MaxRecvDataSegmentLength=65536`.
const LOGIN: &str =
    "238100000000002780000000000100000000000000000000000000010000000100000020000000000000000000000000546172676574506f7274616c47726f75705461673d3100417574684d6574686f643d4e6f6e650000";

const LOGGED_IN: &str =
    "238700000000001f800000000001000100000000000000000000000200000001000000200000000000000000000000004d617852656376446174615365676d656e744c656e6774683d36353533360000";

// READ CAPACITY under tag 0 and CmdSN 1, and under tag 6 and CmdSN 2, with their answers in one Data-In.
const CAPACITY: &str =
    "01c100000000000000000000000000000000000000000008000000010000000325000000000000000000000000000000";

const BLOCKS: &str =
    "2581000000000008000000000000000000000000ffffffff000000030000000200000021000000000000000000000000000003ff00000200";

const LATER_CAPACITY: &str =
    "01c100000000000000000000000000000000000600000008000000020000000325000000000000000000000000000000";

const LATER_BLOCKS: &str =
    "2581000000000008000000000000000000000006ffffffff000000030000000300000022000000000000000000000000000003ff00000200";

// WRITE(10) of 586 blocks under tag 5, and the R2T for its first 262,144 bytes.
const WRITE: &str =
    "01a10000000000000000000000000000000000050004940000000001000000032a000000000000024a00000000000000";

const ASKED: &str =
    "318000000000000000000000000000000000000500000001000000030000000200000021000000000000000000040000";

// READ(10) of two blocks, the first of which is the last one of that write, under tag 6.
const READ_BACK: &str =
    "01c100000000000000000000000000000000000600000400000000020000000328000000024900000200000000000000";

// READ(10) of 600 blocks under tag 5.
const READ: &str =
    "01c10000000000000000000000000000000000050004b000000000010000000328000000000000025800000000000000";

// WRITE(10) of one block to unit 1 under tag 6, with its data at once, and READ(10) of that block in another session.
const OTHER_WRITE: &str =
    "01a10000000002000001000000000000000000060000020000000002000000032a000000000000000100000000000000";

const OTHER_READ: &str =
    "01c100000000000000010000000000000000000a00000200000000010000000428000000000000000100000000000000";

// That READ(10) under CmdSN 3, and before it in the order of numbers a LOGICAL UNIT RESET of unit 0 under CmdSN 2.
const HELD_READ: &str =
    "01c100000000000000010000000000000000000a00000200000000030000000428000000000000000100000000000000";

const HELD_RESET: &str =
    "0285000000000000000000000000000000000009ffffffff000000020000000300000000000000000000000000000000";

// ABORT TASK of tag 5, LOGICAL UNIT RESET of unit 0 and TARGET WARM RESET, with the answer to either.
const ABORT: &str =
    "428100000000000000000000000000000000000900000005000000030000000300000000000000000000000000000000";

const UNIT_RESET: &str =
    "4285000000000000000000000000000000000009ffffffff000000010000000300000000000000000000000000000000";

const RESET: &str =
    "4286000000000000000000000000000000000009ffffffff000000010000000300000000000000000000000000000000";

const WAS_RESET: &str =
    "228000000000000000000000000000000000000900000000000000030000000100000020000000000000000000000000";

fn listed(alloc: Global, name: &str) -> Result<Found, Fail> {
    let (portal, _) = Portal::read(alloc, "127.0.0.1:3260")?;
    Ok(Found {
        target: IscsiName::read(alloc, name)?,
        portal,
        tag: 1,
    })
}

fn listing(alloc: Global) -> Result<Series<Found>, Fail> {
    let mut listing = Vec::new(alloc);
    listing.push(listed(alloc, "iqn.2024-01.org.example:d1")?)?;
    listing.push(listed(alloc, "iqn.2024-01.org.example:d2")?)?;
    Ok(Series::from_vec(listing))
}

fn settings(alloc: Global) -> Result<TargetConfig, Fail>
    ensures { IfOk result (λ c. c.blocks ≡ 1024 ∷ 1024 ∷ []) }
{
    let (portal, _) = Portal::read(alloc, "127.0.0.1:3260")?;
    Ok(TargetConfig {
        name: IscsiName::read(alloc, "iqn.2024-01.org.example:d1")?,
        portal,
        tag: 1,
        blocks: Series::from_vec(vec![in alloc; 1024, 1024]?),
        chap: None,
        listing: listing(alloc)?,
        moved: None,
    })
}

// A Login Request under this ISID, with this byte 1 and text.
fn request(alloc: Global, flags: u8, isid: u8, text: &[u8]) -> Result<Vec<u8>, Fail> {
    let size = u8::try_from(text.len())?;
    let mut bytes = Vec::from_slice(
        alloc,
        &[
            0x43, flags, 0, 0, 0, 0, 0, size, 0x80, 0, 0, 0, 0, isid, 0, 0, 0, 0, 0, 0, 0, 0, 0, 0,
            0, 0, 0, 1, 0, 0, 0, 0, 0, 0, 0, 0, 0, 0, 0, 0, 0, 0, 0, 0, 0, 0, 0, 0,
        ],
    )?;
    bytes.extend_from_slice(text)?;
    for _ in 0..(4 - text.len() % 4) % 4 {
        bytes.push(0)?;
    }
    Ok(bytes)
}

// A target, what it wrote last, and the size of the pieces in which bytes come.
#[derive(Debug, Drop)]
struct Bench {
    alloc: Global,
    target: Target,
    out: Vec<u8>,
    size: usize,
}

impl Bench {
    fn new(alloc: Global, size: usize) -> Result<Bench, Fail> {
        let settings = settings(alloc)?;
        Ok(Bench {
            alloc,
            target: Target::new(alloc, settings)?,
            out: Vec::new(alloc),
            size,
        })
    }

    // What becomes of these bytes, up to the piece that closes the connection.
    fn meets(&mut self, connection: u32, bytes: &[u8]) -> Result<Fed, Fail> {
        self.out.clear();
        for piece in bytes.chunks(self.size.max(1)) {
            let fed = self.target.feed(connection, piece, &mut self.out)?;
            if fed == Fed::Closed {
                return Ok(Fed::Closed);
            }
        }
        Ok(Fed::Going)
    }

    // These bytes in hex, with so many bytes of data behind them, are answered so.
    fn answers(
        &mut self,
        rt: &impl Abort,
        connection: u32,
        (sent, size): (&str, usize),
        (fed, wanted): (Fed, &str),
    ) -> Result<(), Fail> {
        let mut bytes = hex::decode(self.alloc, sent)?;
        bytes.extend_from_slice(&vec![in self.alloc; 0x5a; size]?)?;
        assert_eq!(rt; self.meets(connection, &bytes)?, fed);
        let written = hex::encode(self.alloc, self.out.as_slice())?;
        assert_eq!(rt; written.as_str(), wanted);
        Ok(())
    }

    // The connection stays.
    fn goes_on(
        &mut self,
        rt: &impl Abort,
        connection: u32,
        sent: &str,
        wanted: &str,
    ) -> Result<(), Fail> {
        self.answers(rt, connection, (sent, 0), (Fed::Going, wanted))
    }

    // A new connection in its full feature phase.
    fn logs_in(&mut self, connection: u32, isid: u8, first: &[u8]) -> Result<(), Fail> {
        self.target.connected(connection)?;
        let bytes = request(self.alloc, 0x81, isid, first)?;
        self.meets(connection, &bytes)?;
        let bytes = request(self.alloc, 0x87, isid, LENGTHS)?;
        self.meets(connection, &bytes)?;
        Ok(())
    }
}

// A target with a session under ISID 1 on connection 1.
fn serving(alloc: Global) -> Result<Bench, Fail> {
    let mut bench = Bench::new(alloc, 1000)?;
    bench.logs_in(1, 1, FIRST)?;
    Ok(bench)
}

// A test makes a bench and lends it to a function: a `?` in that has no bench to drop, which is most of a proof where there are many.

// A Login Request is answered so.
fn asks(bench: &mut Bench, rt: &impl Abort, asked: &[u8], wanted: &str) -> Result<(), Fail> {
    let sent = hex::encode(bench.alloc, asked)?;
    bench.goes_on(rt, 1, sent.as_str(), wanted)
}

// A login, one command, and the same command again.
fn capacity(bench: &mut Bench, rt: &impl Abort) -> Result<(), Fail> {
    let a = bench.alloc;
    bench.target.connected(1)?;
    asks(bench, rt, request(a, 0x81, 1, FIRST)?.as_slice(), LOGIN)?;
    asks(
        bench,
        rt,
        request(a, 0x87, 1, NOTHING)?.as_slice(),
        LOGGED_IN,
    )?;
    bench.goes_on(rt, 1, CAPACITY, BLOCKS)?;
    bench.answers(rt, 1, (CAPACITY, 0), (Fed::Closed, ""))
}

// In pieces of this size.
fn answers_capacity(rt: &impl Abort, a: Global, size: usize) -> Result<(), Fail> {
    let mut bench = Bench::new(a, size)?;
    capacity(&mut bench, rt)
}

#[test]
fn target_answers_capacity(rt: HostRuntime) -> Result<(), Fail> {
    for size in [1000, 7, 1] {
        answers_capacity(&rt, rt.alloc(), size)?;
    }
    Ok(())
}

// Data-Out for the write, each with so many bytes, and what the last one of a sequence is answered.
const DATA: [(&str, usize, &str); 5] = [
    (
        "058000000001000000000000000000000000000500000001000000000000000300000000000000000000000000000000",
        65536,
        "",
    ),
    (
        "058000000001000000000000000000000000000500000001000000000000000300000000000000000001000000000000",
        65536,
        "",
    ),
    (
        "058000000001000000000000000000000000000500000001000000000000000300000000000000000002000000000000",
        65536,
        "",
    ),
    (
        "058000000001000000000000000000000000000500000001000000000000000300000000000000000003000000000000",
        65536,
        "318000000000000000000000000000000000000500000002000000030000000200000021000000010004000000009400",
    ),
    (
        "058000000000940000000000000000000000000500000002000000000000000300000000000000000004000000000000",
        37888,
        "218000000000000000000000000000000000000500000000000000030000000200000021000000000000000000000000",
    ),
];

fn write_by_two_asks(bench: &mut Bench, rt: &impl Abort) -> Result<(), Fail> {
    bench.goes_on(rt, 1, WRITE, ASKED)?;
    for (sent, size, wanted) in DATA {
        bench.answers(rt, 1, (sent, size), (Fed::Going, wanted))?;
    }
    Ok(())
}

// The last sector is read back, with the one behind it.
fn read_back(bench: &mut Bench, rt: &impl Abort) -> Result<(), Fail> {
    let bytes = hex::decode(bench.alloc, READ_BACK)?;
    assert_eq!(rt; bench.meets(1, &bytes)?, Fed::Going);
    let mut sectors = vec![in bench.alloc; 0x5a; 512]?;
    sectors.extend_from_slice(&[0; 512])?;
    assert!(rt; bench.out.ends_with(sectors.as_slice()));
    Ok(())
}

// 300,032 bytes: the target asks for 262,144 bytes, and for the rest.
#[test]
fn a_write_by_two_asks(rt: HostRuntime) -> Result<(), Fail> {
    let mut bench = serving(rt.alloc())?;
    write_by_two_asks(&mut bench, &rt)?;
    read_back(&mut bench, &rt)
}

fn read_of_two_sequences(bench: &mut Bench, rt: &impl Abort) -> Result<(), Fail> {
    let bytes = hex::decode(bench.alloc, READ)?;
    assert_eq!(rt; bench.meets(1, &bytes)?, Fed::Going);
    assert_eq!(rt; bench.out.len(), 307_200 + 5 * 48);
    let heads = [
        "2500000000010000000000000000000000000005ffffffff000000000000000200000021000000000000000000000000",
        "2500000000010000000000000000000000000005ffffffff000000000000000200000021000000010001000000000000",
        "2500000000010000000000000000000000000005ffffffff000000000000000200000021000000020002000000000000",
        "2580000000010000000000000000000000000005ffffffff000000000000000200000021000000030003000000000000",
        "258100000000b000000000000000000000000005ffffffff000000030000000200000021000000040004000000000000",
    ];
    for (piece, head) in bench.out.chunks(65_584).zip(heads) {
        let head = hex::decode(bench.alloc, head)?;
        assert!(rt; piece.starts_with(head.as_slice()));
    }
    Ok(())
}

// 307,200 bytes in five pieces: the fourth one ends the first sequence, the fifth one the command.
#[test]
fn a_read_of_two_sequences(rt: HostRuntime) -> Result<(), Fail> {
    let mut bench = serving(rt.alloc())?;
    read_of_two_sequences(&mut bench, &rt)
}

fn aborted_write(bench: &mut Bench, rt: &impl Abort) -> Result<(), Fail> {
    for (sent, wanted) in [
        (WRITE, ASKED),
        (LATER_CAPACITY, ""),
        (
            ABORT,
            "2280000000000000000000000000000000000009000000000000000300000003000000220000000000000000000000002581000000000008000000000000000000000006ffffffff000000040000000300000022000000000000000000000000000003ff00000200",
        ),
        (
            ABORT,
            "228001000000000000000000000000000000000900000000000000050000000300000022000000000000000000000000",
        ),
    ] {
        bench.goes_on(rt, 1, sent, wanted)?;
    }
    Ok(())
}

// A write that waits for data is aborted; the command behind it is executed then. A second abort finds no task.
#[test]
fn an_aborted_write(rt: HostRuntime) -> Result<(), Fail> {
    let mut bench = serving(rt.alloc())?;
    aborted_write(&mut bench, &rt)
}

fn second_login(
    bench: &mut Bench,
    rt: &impl Abort,
    isid: u8,
    wanted: (Fed, &str),
) -> Result<(), Fail> {
    bench.logs_in(2, isid, FIRST)?;
    bench.goes_on(rt, 1, "", "")?;
    bench.answers(rt, 1, (CAPACITY, 0), wanted)?;
    bench.target.gone(1);
    bench.goes_on(rt, 2, CAPACITY, BLOCKS)
}

// The next byte on the connection of the old session closes it, and has no other effect.
#[test]
fn a_second_login_of_one_initiator_port(rt: HostRuntime) -> Result<(), Fail> {
    let mut bench = serving(rt.alloc())?;
    second_login(&mut bench, &rt, 1, (Fed::Closed, ""))
}

#[test]
fn a_second_login_of_another_port(rt: HostRuntime) -> Result<(), Fail> {
    let mut bench = serving(rt.alloc())?;
    second_login(&mut bench, &rt, 2, (Fed::Going, BLOCKS))
}

fn reset_of_all(bench: &mut Bench, rt: &impl Abort) -> Result<(), Fail> {
    bench.logs_in(2, 2, FIRST)?;
    bench.goes_on(rt, 1, WRITE, ASKED)?;
    bench.goes_on(rt, 2, RESET, WAS_RESET)?;
    bench.goes_on(rt, 1, LATER_CAPACITY, LATER_BLOCKS)
}

// A reset by one session ends the tasks of the others.
#[test]
fn a_reset_ends_tasks_of_all_sessions(rt: HostRuntime) -> Result<(), Fail> {
    let mut bench = serving(rt.alloc())?;
    reset_of_all(&mut bench, &rt)
}

fn command_behind_a_reset(bench: &mut Bench, rt: &impl Abort) -> Result<(), Fail> {
    bench.logs_in(2, 2, FIRST)?;
    bench.goes_on(rt, 1, WRITE, ASKED)?;
    bench.answers(rt, 1, (OTHER_WRITE, 512), (Fed::Going, ""))?;
    bench.goes_on(rt, 2, UNIT_RESET, WAS_RESET)?;
    let bytes = hex::decode(bench.alloc, OTHER_READ)?;
    assert_eq!(rt; bench.meets(2, &bytes)?, Fed::Going);
    assert!(rt;
        bench
            .out
            .ends_with(vec![in bench.alloc; 0x5a; 512]?.as_slice())
    );
    bench.goes_on(
        rt,
        1,
        "01c100000000000000000000000000000000000700000008000000030000000325000000000000000000000000000000",
        "2180000000000000000000000000000000000006000000000000000300000003000000220000000000000000000000002581000000000008000000000000000000000007ffffffff000000040000000400000023000000000000000000000000000003ff00000200",
    )
}

// A write to another unit that stood behind one that a reset ended is executed at once, so that the session of the reset reads its
// data. What it is answered goes out before the answer to the next PDU.
#[test]
fn a_command_behind_a_reset(rt: HostRuntime) -> Result<(), Fail> {
    let mut bench = serving(rt.alloc())?;
    command_behind_a_reset(&mut bench, &rt)
}

fn command_behind_a_held_reset(bench: &mut Bench, rt: &impl Abort) -> Result<(), Fail> {
    bench.logs_in(2, 2, FIRST)?;
    bench.goes_on(rt, 1, WRITE, ASKED)?;
    bench.answers(rt, 1, (OTHER_WRITE, 512), (Fed::Going, ""))?;
    bench.goes_on(rt, 2, HELD_READ, "")?;
    bench.goes_on(rt, 2, HELD_RESET, "")?;
    let bytes = hex::decode(bench.alloc, CAPACITY)?;
    assert_eq!(rt; bench.meets(2, &bytes)?, Fed::Going);
    assert!(rt;
        bench
            .out
            .ends_with(vec![in bench.alloc; 0x5a; 512]?.as_slice())
    );
    Ok(())
}

// The reset and the READ behind it come before their turn: the other session's write is executed between them.
#[test]
fn a_command_behind_a_held_reset(rt: HostRuntime) -> Result<(), Fail> {
    let mut bench = serving(rt.alloc())?;
    command_behind_a_held_reset(&mut bench, &rt)
}

fn early_command(bench: &mut Bench, rt: &impl Abort) -> Result<(), Fail> {
    bench.goes_on(rt, 1, LATER_CAPACITY, "")?;
    bench.goes_on(
        rt,
        1,
        CAPACITY,
        "2581000000000008000000000000000000000000ffffffff000000030000000200000021000000000000000000000000000003ff000002002581000000000008000000000000000000000006ffffffff000000040000000300000022000000000000000000000000000003ff00000200",
    )
}

// The second command comes first, and waits for the one before it.
#[test]
fn an_early_command_is_held(rt: HostRuntime) -> Result<(), Fail> {
    let mut bench = serving(rt.alloc())?;
    early_command(&mut bench, &rt)
}

fn discovery(bench: &mut Bench, rt: &impl Abort) -> Result<(), Fail> {
    bench.logs_in(1, 0, DISCOVERY)?;
    bench.goes_on(
        rt,
        1,
        "0480000000000010000000000000000000000001ffffffff00000001000000030000000000000000000000000000000053656e64546172676574733d416c6c00",
        "248000000000008a000000000000000000000001ffffffff0000000300000002000000210000000000000000000000005461726765744e616d653d69716e2e323032342d30312e6f72672e6578616d706c653a643100546172676574416464726573733d3132372e302e302e313a333236302c31005461726765744e616d653d69716e2e323032342d30312e6f72672e6578616d706c653a643200546172676574416464726573733d3132372e302e302e313a333236302c31000000",
    )?;
    bench.target.list(Series::new(bench.alloc));
    bench.goes_on(
        rt,
        1,
        "0480000000000010000000000000000000000001ffffffff00000002000000030000000000000000000000000000000053656e64546172676574733d416c6c00",
        "2480000000000000000000000000000000000001ffffffff000000040000000300000022000000000000000000000000",
    )?;
    let command =
        "01c100000000000000000000000000000000000000000008000000030000000325000000000000000000000000000000";
    bench.answers(rt, 1, (command, 0), (Fed::Closed, ""))
}

// Two targets with one address each are listed, and none after the listing was replaced. A command closes a discovery.
#[test]
fn a_discovery(rt: HostRuntime) -> Result<(), Fail> {
    let mut bench = Bench::new(rt.alloc(), 1000)?;
    discovery(&mut bench, &rt)
}

// What comes while connection 1 has a write of 300,032 bytes under tag 5 that waits for the data of its first R2T, connection
// 2 a discovery and connection 3 no login: on which connection, with so many bytes of data behind it, and what it gets.
const HOSTILE: [(u32, (&str, usize), (Fed, &str)); 22] = [
    // The tag of the waiting write.
    (
        1,
        (
            "01c100000000000000000000000000000000000500000008000000020000000325000000000000000000000000000000",
            0,
        ),
        (Fed::Closed, ""),
    ),
    // A number that came before.
    (
        1,
        (
            "01c100000000000000000000000000000000000600000008000000010000000325000000000000000000000000000000",
            0,
        ),
        (Fed::Closed, ""),
    ),
    // A number behind the window.
    (
        1,
        (
            "01c100000000000000000000000000000000000600000008000000220000000325000000000000000000000000000000",
            0,
        ),
        (Fed::Closed, ""),
    ),
    // The last number of the window: held.
    (
        1,
        (
            "01c100000000000000000000000000000000000600000008000000210000000325000000000000000000000000000000",
            0,
        ),
        (Fed::Going, ""),
    ),
    // Immediate data of a read.
    (
        1,
        (
            "01c100000000000500000000000000000000000600000008000000020000000325000000000000000000000000000000",
            8,
        ),
        (Fed::Closed, ""),
    ),
    // More immediate data than the expected length.
    (
        1,
        (
            "01a10000000000050000000000000000000000060000000400000002000000032a000000000000000000000000000000",
            8,
        ),
        (Fed::Closed, ""),
    ),
    // More immediate data than the settled FirstBurstLength.
    (
        1,
        (
            "01a10000000002040000000000000000000000060000040000000002000000032a000000000000000200000000000000",
            516,
        ),
        (Fed::Closed, ""),
    ),
    // Data for another transfer tag.
    (
        1,
        (
            "058000000000000500000000000000000000000500000002000000000000000300000000000000000000000000000000",
            8,
        ),
        (Fed::Closed, ""),
    ),
    // Data that leave a gap.
    (
        1,
        (
            "058000000000000500000000000000000000000500000001000000000000000300000000000000000000000800000000",
            8,
        ),
        (Fed::Closed, ""),
    ),
    // Data that begin before the data so far end.
    (
        1,
        (
            "0580000000000008000000000000000000000005000000010000000000000003000000000000000000000000000000005a5a5a5a5a5a5a5a058000000000000800000000000000000000000500000001000000000000000300000000000000000000000000000000",
            8,
        ),
        (Fed::Closed, ""),
    ),
    // A second write of nine bytes, and data that pass the end of the R2T for its last four.
    (
        1,
        (
            "01a10000000000050000000000000000000000060000000900000002000000032a0000000000000000000000000000006669766521000000058000000000000500000000000000000000000600000002000000000000000300000000000000000000000500000000",
            8,
        ),
        (
            Fed::Closed,
            "318000000000000000000000000000000000000600000002000000030000000300000022000000000000000500000004",
        ),
    ),
    // Data of no task.
    (
        1,
        (
            "058000000000000500000000000000000000000600000009000000000000000300000000000000000000000700000000",
            8,
        ),
        (Fed::Going, ""),
    ),
    // A Text Request.
    (
        1,
        (
            "0480000000000010000000000000000000000006ffffffff00000002000000030000000000000000000000000000000053656e64546172676574733d416c6c00",
            0,
        ),
        (Fed::Closed, ""),
    ),
    // A Login Request after the login.
    (
        1,
        (
            "438100000000001080000000000000000000000000000000000000020000000000000000000000000000000000000000496e69746961746f724e616d653d6900",
            0,
        ),
        (Fed::Closed, ""),
    ),
    // A reset of no logical unit.
    (
        1,
        (
            "4285000000000000000700000000000000000009ffffffff000000020000000300000000000000000000000000000000",
            0,
        ),
        (
            Fed::Going,
            "228002000000000000000000000000000000000900000000000000030000000200000021000000000000000000000000",
        ),
    ),
    // A PDU of a target.
    (
        1,
        (
            "218000000000000000000000000000000000000500000000000000000000000000000000000000000000000000000000",
            0,
        ),
        (Fed::Closed, ""),
    ),
    // An unknown opcode.
    (
        1,
        (
            "078000000000000000000000000000000000000500000000000000000000000000000000000000000000000000000000",
            0,
        ),
        (Fed::Closed, ""),
    ),
    // A longer segment than the target takes.
    (
        1,
        (
            "058000000001000100000000000000000000000500000001000000000000000300000000000000000000000000000000",
            0,
        ),
        (Fed::Closed, ""),
    ),
    // Data in a discovery.
    (
        2,
        (
            "058000000000000500000000000000000000000500000001000000000000000300000000000000000000000000000000",
            8,
        ),
        (Fed::Closed, ""),
    ),
    // Task management in a discovery.
    (
        2,
        (
            "4286000000000000000000000000000000000009ffffffff000000010000000300000000000000000000000000000000",
            0,
        ),
        (Fed::Closed, ""),
    ),
    // A command before the login.
    (
        3,
        (
            "01c100000000000000000000000000000000000000000008000000010000000325000000000000000000000000000000",
            0,
        ),
        (Fed::Closed, ""),
    ),
    // A login that names stage 2.
    (
        3,
        (
            "438800000000000080000000000300000000000000000000000000010000000000000000000000000000000000000000",
            0,
        ),
        (Fed::Closed, ""),
    ),
];

fn hostile(
    bench: &mut Bench,
    rt: &impl Abort,
    connection: u32,
    sent: (&str, usize),
    wanted: (Fed, &str),
) -> Result<(), Fail> {
    bench.goes_on(rt, 1, WRITE, ASKED)?;
    bench.logs_in(2, 0, DISCOVERY)?;
    bench.target.connected(3)?;
    bench.answers(rt, connection, sent, wanted)
}

fn hostile_input(
    rt: &impl Abort,
    a: Global,
    connection: u32,
    sent: (&str, usize),
    wanted: (Fed, &str),
) -> Result<(), Fail> {
    let mut bench = serving(a)?;
    hostile(&mut bench, rt, connection, sent, wanted)
}

#[test]
fn hostile_inputs(rt: HostRuntime) -> Result<(), Fail> {
    for (connection, sent, wanted) in HOSTILE {
        hostile_input(&rt, rt.alloc(), connection, sent, wanted)?;
    }
    Ok(())
}
