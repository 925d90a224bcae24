use oi_admin::*;
use oi_base::{Label, Series};
use oi_names::{IscsiName, Portal, SessionInfo, SessionKey};
use oi_nodedb::{DbError, NodeDb};
use oi_outside::{MemSink, MemStore};
use oi_words::WordsFault;
use std::alloc::Global;
use std::process::Abort;
use std::test::Fail;

const DISK: &str = "iqn.2024-01.org.example:d1";

#[derive(Debug, Clone, Copy, PartialEq, Eq)]
enum Row {
    Discover,
    List,
    Show,
    Update,
    Delete,
    New,
    Login,
    Logout,
    Sessions,
    Invalid,
    Memory,
}

static WORD_LISTS: [(&[&str], Row); 50] = [
    (&["-m", "node"], Row::List),
    (&["-mnode"], Row::List),
    (
        &["-m", "node", "-T", DISK, "-p", "127.0.0.1", "-I", "if_1"],
        Row::List,
    ),
    (
        &["-I", "default", "-p", "[::1]:3261,2", "-m", "node"],
        Row::List,
    ),
    (&["-m", "node", "-o", "show"], Row::Show),
    (&["-oshow", "-mnode"], Row::Show),
    (
        &["-m", "node", "-o", "update", "-n", "a", "-v", "b"],
        Row::Update,
    ),
    (
        &["-m", "node", "-o", "update", "-n", "a", "-v", "-1"],
        Row::Update,
    ),
    (
        &["-m", "node", "-o", "update", "-n", "a", "-v", ""],
        Row::Update,
    ),
    (
        &["-v=", "-m", "node", "-o", "update", "-n", "-v"],
        Row::Update,
    ),
    (&["-m", "node", "-o", "delete"], Row::Delete),
    (
        &["-m", "node", "-T", DISK, "-p", "127.0.0.1", "-o", "new"],
        Row::New,
    ),
    (
        &[
            "-onew",
            "-p127.0.0.1:3261,7",
            "-Iif_1",
            "-T",
            DISK,
            "-mnode",
        ],
        Row::New,
    ),
    (&["-m", "node", "-l"], Row::Login),
    (&["-lm", "node"], Row::Login),
    (&["-lmnode"], Row::Login),
    (&["-m", "node", "-lp", "127.0.0.1"], Row::Login),
    (&["-m", "node", "-u", "-T", DISK], Row::Logout),
    (&["-m", "session"], Row::Sessions),
    (
        &["-m", "discovery", "-t", "st", "-p", "127.0.0.1"],
        Row::Discover,
    ),
    (
        &["-m", "discovery", "-tsendtargets", "-p", "127.0.0.1,4"],
        Row::Discover,
    ),
    (&[], Row::Invalid),
    (&["node"], Row::Invalid),
    (&["-m"], Row::Invalid),
    (&["-m", "node", "-m", "node"], Row::Invalid),
    (&["-m", "node", "-x"], Row::Invalid),
    (&["--mode", "node"], Row::Invalid),
    (&["--m=node"], Row::Invalid),
    (&["-m", "node", "-"], Row::Invalid),
    (&["-m", "node", "--"], Row::Invalid),
    (&["-m", "node", ""], Row::Invalid),
    (&["-m", "node", "-ll"], Row::Invalid),
    (&["-l", "-m", "node", "-l"], Row::Invalid),
    (&["-m", "node", "-lu"], Row::Invalid),
    (&["-m", "node", "-l\u{e9}"], Row::Invalid),
    (&["-m", "nodes"], Row::Invalid),
    (&["-m=node"], Row::Invalid),
    (&["-m", "node", "-o", "shows"], Row::Invalid),
    (&["-m", "node", "-o", "show", "-n", "a"], Row::Invalid),
    (&["-m", "node", "-n", "a", "-v", "b"], Row::Invalid),
    (&["-m", "node", "-o", "update", "-n", "a"], Row::Invalid),
    (&["-m", "node", "-o", "update", "-v", "b"], Row::Invalid),
    (&["-m", "node", "-o", "new", "-T", DISK], Row::Invalid),
    (&["-m", "node", "-T", "d1"], Row::Invalid),
    (&["-m", "node", "-p", "127.0.0.1:0"], Row::Invalid),
    (&["-m", "node", "-I", ""], Row::Invalid),
    (&["-m", "session", "-T", DISK], Row::Invalid),
    (
        &["-m", "discovery", "-t", "isns", "-p", "127.0.0.1"],
        Row::Invalid,
    ),
    (&["-m", "discovery", "-t", "st"], Row::Invalid),
    (&["-m", "node", "-t", "st"], Row::Invalid),
];

fn row_of(command: &AdminCommand) -> Row {
    match command {
        AdminCommand::Discover { portal: _ } => Row::Discover,
        AdminCommand::List { filter: _ } => Row::List,
        AdminCommand::Show { filter: _ } => Row::Show,
        AdminCommand::Update { .. } => Row::Update,
        AdminCommand::Delete { filter: _ } => Row::Delete,
        AdminCommand::New { key: _ } => Row::New,
        AdminCommand::Login { filter: _ } => Row::Login,
        AdminCommand::Logout { filter: _ } => Row::Logout,
        AdminCommand::Sessions => Row::Sessions,
    }
}

fn strings(alloc: Global, words: &[&str]) -> Result<Vec<String>, Fail> {
    let mut strings = Vec::new(alloc);
    for word in words {
        strings.push(String::from_str(alloc, *word)?)?;
    }
    Ok(strings)
}

fn row_read(alloc: Global, words: &[&str]) -> Result<Row, Fail> {
    let strings = strings(alloc, words)?;
    match read_words(alloc, &strings) {
        Ok(command) => Ok(row_of(&command)),
        Err(WordsFault::Invalid) => Ok(Row::Invalid),
        Err(WordsFault::Memory) => Ok(Row::Memory),
    }
}

#[test]
fn word_lists(rt: HostRuntime) -> Result<(), Fail> {
    for (at, (words, wanted)) in WORD_LISTS.iter().enumerate() {
        let row = row_read(rt.alloc(), *words)?;
        assert!(&rt; row == *wanted, "row {at}");
    }
    Ok(())
}

#[derive(Debug, Clone, Copy, PartialEq, Eq)]
enum Outcome {
    Done,
    Words,
    BadName,
    BadValue,
    NoObjects,
    InUse(u32),
    Store,
    Write,
    Other,
}

fn outcome_of(answer: Result<(), AdminFault>) -> Outcome {
    match answer {
        Ok(()) => Outcome::Done,
        Err(AdminFault::Write) => Outcome::Write,
        Err(AdminFault::Db(DbError::BadName { name: _ })) => Outcome::BadName,
        Err(AdminFault::Db(DbError::BadValue { name: _ })) => Outcome::BadValue,
        Err(AdminFault::Db(DbError::NoObjects)) => Outcome::NoObjects,
        Err(AdminFault::Db(DbError::InUse { sid })) => Outcome::InUse(sid),
        Err(AdminFault::Db(DbError::StoreFault)) => Outcome::Store,
        Err(_) => Outcome::Other,
    }
}

fn carried_out(
    alloc: Global,
    words: &[&str],
    db: &mut NodeDb,
    store: &mut MemStore,
    living: &[SessionInfo],
    sink: &mut MemSink,
) -> Result<Outcome, Fail> {
    let strings = strings(alloc, words)?;
    let Ok(command) = read_words(alloc, &strings) else {
        return Ok(Outcome::Words);
    };
    if command.needs_daemon() {
        return Ok(Outcome::Words);
    }
    Ok(outcome_of(apply(alloc, &command, db, store, living, sink)))
}

type Step = (&'static [&'static str], Outcome, &'static [u8]);

// Carries the words of each step out over one store whose calls of these numbers fail.
fn walk(
    rt: &impl Abort,
    alloc: Global,
    fails: &[u64],
    living: &[SessionInfo],
    steps: &[Step],
) -> Result<(), Fail> {
    let mut store = MemStore::new(alloc, Series::from_vec(Vec::from_slice(alloc, fails)?));
    let mut db = NodeDb::new(alloc);
    for (at, (words, wanted, text)) in steps.iter().enumerate() {
        let mut sink = MemSink::new(alloc, 10_000, Series::new(alloc))?;
        let outcome = carried_out(alloc, *words, &mut db, &mut store, living, &mut sink)?;
        assert!(rt; outcome == *wanted, "step {at}");
        assert!(rt; sink.held() == *text, "text {at}");
    }
    Ok(())
}

const NEW: &[&str] = &["-m", "node", "-T", DISK, "-p", "127.0.0.1", "-o", "new"];

const SHOW: &[&str] = &["-m", "node", "-o", "show"];

const LIST: &[&str] = &["-m", "node"];

const LINE: &[u8] = b"127.0.0.1:3260,1 iqn.2024-01.org.example:d1\n";

const SHOWN: &[u8] = b"node.name = iqn.2024-01.org.example:d1
node.tpgt = 1
node.conn[0].address = 127.0.0.1
node.conn[0].port = 3260
iface.iscsi_ifacename = default
node.startup = manual
node.session.auth.authmethod = None
node.session.auth.username = =
node.session.auth.password = ********
node.session.auth.username_in = 
node.session.auth.password_in = 
node.session.timeo.replacement_timeout = -1
node.conn[0].timeo.login_timeout = 15
node.conn[0].timeo.logout_timeout = 15
node.conn[0].timeo.noop_out_interval = 5
node.conn[0].timeo.noop_out_timeout = 5
node.session.err_timeo.abort_timeout = 15
node.session.err_timeo.lu_reset_timeout = 30
node.session.err_timeo.tgt_reset_timeout = 30
node.session.cmds_max = 128
node.session.queue_depth = 32
node.session.iscsi.InitialR2T = No
node.session.iscsi.ImmediateData = Yes
node.session.iscsi.FirstBurstLength = 262144
node.session.iscsi.MaxBurstLength = 16776192
node.session.iscsi.DefaultTime2Wait = 2
node.session.iscsi.DefaultTime2Retain = 0
node.session.iscsi.MaxOutstandingR2T = 1
node.conn[0].iscsi.MaxRecvDataSegmentLength = 262144
node.session.oi.count_disrupted = Yes
";

static RECORDS_BY_THE_TOOL: [Step; 8] = [
    (LIST, Outcome::NoObjects, b""),
    (NEW, Outcome::Done, b""),
    (LIST, Outcome::Done, LINE),
    (NEW, Outcome::Done, b""),
    (
        &[
            "-m",
            "node",
            "-o",
            "update",
            "-n",
            "node.session.cmds_max",
            "-v",
            "64",
        ],
        Outcome::Done,
        b"",
    ),
    (
        &[
            "-m",
            "node",
            "-o",
            "update",
            "-n",
            "node.session.cmds_max",
            "-v",
            "0",
        ],
        Outcome::BadValue,
        b"",
    ),
    (
        &[
            "-m",
            "node",
            "-o",
            "update",
            "-n",
            "node.nothing",
            "-v",
            "0",
        ],
        Outcome::BadName,
        b"",
    ),
    (
        &["-m", "node", "-o", "update", "-n", "node.name", "-v", DISK],
        Outcome::BadName,
        b"",
    ),
];

#[test]
fn records_by_the_tool(rt: HostRuntime) -> Result<(), Fail> {
    walk(&rt, rt.alloc(), &[], &[], &RECORDS_BY_THE_TOOL)
}

static TOOL_WORDS: [Step; 13] = [
    (NEW, Outcome::Done, b""),
    (
        &[
            "-m",
            "node",
            "-o",
            "update",
            "-n",
            "node.session.timeo.replacement_timeout",
            "-v",
            "-1",
        ],
        Outcome::Done,
        b"",
    ),
    (&["-m", "node", "-m", "node"], Outcome::Words, b""),
    (&["-m", "session"], Outcome::NoObjects, b""),
    (
        &[
            "-onew",
            "-p127.0.0.1:3261,7",
            "-Iif_1",
            "-T",
            DISK,
            "-mnode",
        ],
        Outcome::Done,
        b"",
    ),
    (
        &["-p", "127.0.0.1:3261", "-m", "node"],
        Outcome::Done,
        b"127.0.0.1:3261,7 iqn.2024-01.org.example:d1\n",
    ),
    (
        &[
            "-m",
            "node",
            "-o",
            "update",
            "-n",
            "node.session.auth.username",
            "-v=",
        ],
        Outcome::Done,
        b"",
    ),
    (
        &[
            "-m",
            "node",
            "-o",
            "update",
            "-n",
            "node.session.auth.password",
            "-v",
            "secret",
        ],
        Outcome::Done,
        b"",
    ),
    (
        &["-m", "node", "-I", "default", "-o", "show"],
        Outcome::Done,
        SHOWN,
    ),
    (&["-m", "node", "-l"], Outcome::Words, b""),
    (
        &["-m", "node", "-I", "default", "-o", "delete"],
        Outcome::Store,
        b"",
    ),
    (&["-m", "node", "-o", "delete"], Outcome::Done, b""),
    (SHOW, Outcome::NoObjects, b""),
];

// Call 7 of the store is the first removal.
#[test]
fn tool_words_and_failing_remove(rt: HostRuntime) -> Result<(), Fail> {
    walk(&rt, rt.alloc(), &[7], &[], &TOOL_WORDS)
}

fn session(
    rt: &impl Abort,
    alloc: Global,
    sid: u32,
    portal: &str,
    current: &str,
) -> Result<SessionInfo, Fail> {
    let Ok(target) = IscsiName::read(alloc, DISK) else {
        panic!(rt; "no name");
    };
    let Ok((portal, tag)) = Portal::read(alloc, portal) else {
        panic!(rt; "no portal");
    };
    let Ok((current, _)) = Portal::read(alloc, current) else {
        panic!(rt; "no portal");
    };
    let iface = Label::from_slice(alloc, b"default")?;
    let key = SessionKey {
        target,
        portal,
        iface,
    };
    Ok(SessionInfo {
        sid,
        tag: tag.unwrap_or(1),
        key,
        current,
    })
}

static LIVING: [Step; 4] = [
    (
        &["-m", "session"],
        Outcome::Done,
        b"tcp: [1] 127.0.0.1:3260,1 iqn.2024-01.org.example:d1 via 127.0.0.1:3261
tcp: [12] 127.0.0.1:3261,7 iqn.2024-01.org.example:d1
",
    ),
    (NEW, Outcome::Done, b""),
    (&["-m", "node", "-o", "delete"], Outcome::InUse(1), b""),
    (LIST, Outcome::Done, LINE),
];

#[test]
fn living_sessions(rt: HostRuntime) -> Result<(), Fail> {
    let alloc = rt.alloc();
    let first = session(&rt, alloc, 1, "127.0.0.1:3260,1", "127.0.0.1:3261")?;
    let second = session(&rt, alloc, 12, "127.0.0.1:3261,7", "127.0.0.1:3261")?;
    let living = vec![in alloc; first, second]?;
    walk(&rt, alloc, &[], &living, &LIVING)
}

#[test]
fn failing_sink(rt: HostRuntime) -> Result<(), Fail> {
    let alloc = rt.alloc();
    let mut store = MemStore::new(alloc, Series::new(alloc));
    let mut db = NodeDb::new(alloc);
    let mut sink = MemSink::new(alloc, 10, Series::new(alloc))?;
    let living = vec![in alloc; session(&rt, alloc, 1, "127.0.0.1", "127.0.0.1")?]?;
    let words: &[&str] = &["-m", "session"];
    let outcome = carried_out(alloc, words, &mut db, &mut store, &living, &mut sink)?;
    assert_eq!(&rt; outcome, Outcome::Write);
    assert!(&rt; sink.held() == b"tcp: [1] 1".as_slice());
    Ok(())
}
