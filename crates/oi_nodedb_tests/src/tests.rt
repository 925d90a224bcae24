use oi_base::{Label, Series};
use oi_names::{IscsiName, Portal, SessionInfo, SessionKey, is_iface_name};
use oi_nodedb::*;
use oi_outside::{MemStore, RecordStore, StoreError};
use oi_settings::{RecordKey, path_of};
use std::alloc::Global;
use std::process::Abort;
use std::test::Fail;

const DISK_ONE: &str = "iqn.2024-01.org.example:d1";

const DISK_TEN: &str = "iqn.2024-01.org.example:d10";

const DISK_TWO: &str = "iqn.2024-01.org.example:d2";

const PATH_ONE: &str = "nodes/iqn.2024-01.org.example:d1/127.0.0.1,3260,1/default";

const PATH_TEN: &str = "nodes/iqn.2024-01.org.example:d10/127.0.0.1,3260,1/default";

const PATH_TWO: &str = "nodes/iqn.2024-01.org.example:d2/127.0.0.1,3260,1/default";

const OTHER_PATH: &str = "nodes/iqn.2024-01.org.example:d1/127.0.0.1,3260,2/default";

// A text is told by its parts, one letter each: the first line of either schema, the target's name, the other lines of
// the key, those up to `node.session.cmds_max`, that one, those of the first schema behind it, and what else may follow.
fn part(letter: u8) -> &'static str {
    match letter {
        b'1' => "# BEGIN RECORD 1\n",
        b'2' => "# BEGIN RECORD 2\n",
        b'a' => "node.name = iqn.2024-01.org.example:d1\n",
        b'b' => "node.name = iqn.2024-01.org.example:d2\n",
        b'j' => "node.name = iqn.2024-01.org.example:d10\n",
        b'i' => PLACE,
        b'l' => LINES,
        b'c' => "node.session.cmds_max = 128\n",
        b'd' => "node.session.cmds_max = 64\n",
        b'e' => "node.session.cmds_max = 0\n",
        b'm' => MORE,
        b's' => "site = north\n",
        b'x' => "x.y=z = a = b\n",
        b'y' => "node.session.oi.count_disrupted = Yes\n",
        b'n' => "node.session.oi.count_disrupted = No\n",
        b'p' => "oi.polled = 127.0.0.1:3260\n",
        _ => "# END RECORD\n",
    }
}

const PLACE: &str = "node.tpgt = 1
node.conn[0].address = 127.0.0.1
node.conn[0].port = 3260
iface.iscsi_ifacename = default
";

const LINES: &str = "node.startup = manual
node.session.auth.authmethod = None
node.session.auth.username = 
node.session.auth.password = 
node.session.auth.username_in = 
node.session.auth.password_in = 
node.session.timeo.replacement_timeout = 120
node.conn[0].timeo.login_timeout = 15
node.conn[0].timeo.logout_timeout = 15
node.conn[0].timeo.noop_out_interval = 5
node.conn[0].timeo.noop_out_timeout = 5
node.session.err_timeo.abort_timeout = 15
node.session.err_timeo.lu_reset_timeout = 30
node.session.err_timeo.tgt_reset_timeout = 30
";

const MORE: &str = "node.session.queue_depth = 32
node.session.iscsi.InitialR2T = No
node.session.iscsi.ImmediateData = Yes
node.session.iscsi.FirstBurstLength = 262144
node.session.iscsi.MaxBurstLength = 16776192
node.session.iscsi.DefaultTime2Wait = 2
node.session.iscsi.DefaultTime2Retain = 0
node.session.iscsi.MaxOutstandingR2T = 1
node.conn[0].iscsi.MaxRecvDataSegmentLength = 262144
";

fn text_of(alloc: Global, letters: &[u8]) -> Result<Vec<u8>, Fail> {
    let mut text = Vec::new(alloc);
    for letter in letters {
        text.extend_from_slice(part(*letter).as_bytes())?;
    }
    Ok(text)
}

// A call of a test, and what it comes to. Where a target is empty, every record is meant.
#[derive(Clone, Copy)]
enum Call {
    // Others put the text of these parts at the path, or take what is there away.
    Write(&'static str, &'static [u8]),
    Remove(&'static str),
    // Whether the store has the text of these parts at the path.
    Text(&'static str, &'static [u8]),
    Load,
    New(&'static str),
    // The same, marked.
    Mark(&'static str),
    Update(&'static str, &'static str, &'static str),
    // The numbers and portals of the living sessions of the first target stand behind the target.
    Delete(&'static str, &'static [(u32, &'static str)]),
    // Whether the target's record has this value of the name.
    Shows(&'static str, &'static [u8], &'static [u8]),
}

#[derive(Debug, Clone, Copy, PartialEq, Eq)]
enum Outcome {
    Count(u32),
    Made(bool),
    Same,
    Other,
    Nothing,
    BadName,
    BadValue,
    BadLine(u32),
    NoObjects,
    InUse(u32),
    StoreFault,
    Memory,
}

fn refused(fault: DbError) -> Outcome {
    match fault {
        DbError::BadName { name: _ } => Outcome::BadName,
        DbError::BadValue { name: _ } => Outcome::BadValue,
        DbError::BadRecord { path: _, line } => Outcome::BadLine(line),
        DbError::NoObjects => Outcome::NoObjects,
        DbError::InUse { sid } => Outcome::InUse(sid),
        DbError::StoreFault => Outcome::StoreFault,
        DbError::Memory => Outcome::Memory,
    }
}

fn counted(answer: Result<u32, DbError>) -> Outcome {
    match answer {
        Ok(count) => Outcome::Count(count),
        Err(fault) => refused(fault),
    }
}

fn made(answer: Result<bool, DbError>) -> Outcome {
    match answer {
        Ok(made) => Outcome::Made(made),
        Err(fault) => refused(fault),
    }
}

fn stored(answer: Result<(), StoreError>) -> Outcome {
    match answer {
        Ok(()) => Outcome::Made(true),
        Err(_) => Outcome::StoreFault,
    }
}

fn removed(answer: Result<bool, StoreError>) -> Outcome {
    match answer {
        Ok(was) => Outcome::Made(was),
        Err(_) => Outcome::StoreFault,
    }
}

fn key(
    rt: &impl Abort,
    alloc: Global,
    target: &str,
    portal: &str,
    iface: &str,
) -> Result<RecordKey, Fail> {
    let Ok(target) = IscsiName::read(alloc, target) else {
        panic!(rt; "no name");
    };
    let Ok((portal, tag)) = Portal::read(alloc, portal) else {
        panic!(rt; "no portal");
    };
    let iface = Label::from_slice(alloc, iface.as_bytes())?;
    assert!(rt; is_iface_name(iface.as_slice()));
    Ok(RecordKey::new(target, portal, tag.unwrap_or(1), iface))
}

fn key_of(rt: &impl Abort, alloc: Global, target: &str) -> Result<RecordKey, Fail> {
    key(rt, alloc, target, "127.0.0.1:3260,1", "default")
}

fn of_target(rt: &impl Abort, alloc: Global, target: &str) -> Filter {
    let mut filter = Filter::any();
    if !target.is_empty() {
        let Ok(name) = IscsiName::read(alloc, target) else {
            panic!(rt; "no name");
        };
        filter.target = Some(name);
    }
    filter
}

fn session(rt: &impl Abort, alloc: Global, sid: u32, portal: &str) -> Result<SessionInfo, Fail> {
    let key = key(rt, alloc, DISK_ONE, portal, "default")?;
    let RecordKey {
        target,
        portal,
        tag,
        iface,
    } = key;
    let current = portal.copy(alloc)?;
    let key = SessionKey {
        target,
        portal,
        iface,
    };
    Ok(SessionInfo {
        sid,
        tag,
        key,
        current,
    })
}

fn living(
    rt: &impl Abort,
    alloc: Global,
    told: &[(u32, &'static str)],
) -> Result<Vec<SessionInfo>, Fail> {
    let mut sessions = Vec::new(alloc);
    for (sid, portal) in told {
        sessions.push(session(rt, alloc, *sid, *portal)?)?;
    }
    Ok(sessions)
}

fn text_at(alloc: Global, store: &MemStore, path: &str, letters: &[u8]) -> Result<Outcome, Fail> {
    let wanted = text_of(alloc, letters)?;
    match store.text_at(path) {
        Some(text) if text == wanted.as_slice() => Ok(Outcome::Same),
        Some(_) => Ok(Outcome::Other),
        None => Ok(Outcome::Nothing),
    }
}

fn shows(db: &NodeDb, key: &RecordKey, name: &[u8], wanted: &[u8]) -> Outcome {
    match db.get(key) {
        Some(record) => match record.value(name) {
            Some(value) if value.as_slice() == wanted => Outcome::Same,
            _ => Outcome::Other,
        },
        None => Outcome::Nothing,
    }
}

fn load(alloc: Global, store: &mut MemStore, db: &mut NodeDb) -> Outcome {
    match NodeDb::load(alloc, store) {
        Ok(loaded) => {
            *db = loaded;
            Outcome::Same
        }
        Err(fault) => refused(fault),
    }
}

fn delete(
    rt: &impl Abort,
    alloc: Global,
    store: &mut MemStore,
    db: &mut NodeDb,
    target: &str,
    told: &[(u32, &'static str)],
) -> Result<Outcome, Fail> {
    let sessions = living(rt, alloc, told)?;
    let filter = of_target(rt, alloc, target);
    Ok(counted(db.delete(store, &filter, &sessions)))
}

fn update(
    rt: &impl Abort,
    alloc: Global,
    store: &mut MemStore,
    db: &mut NodeDb,
    target: &str,
    name: &str,
    value: &str,
) -> Outcome {
    let filter = of_target(rt, alloc, target);
    counted(db.update(store, &filter, name, value))
}

fn call_store(alloc: Global, store: &mut MemStore, call: Call) -> Result<Outcome, Fail> {
    match call {
        Call::Write(path, letters) => {
            let text = text_of(alloc, letters)?;
            Ok(stored(store.write_whole(path, &text)))
        }
        Call::Remove(path) => Ok(removed(store.remove(path))),
        Call::Text(path, letters) => text_at(alloc, store, path, letters),
        _ => Ok(Outcome::Other),
    }
}

fn call_db(
    rt: &impl Abort,
    alloc: Global,
    store: &mut MemStore,
    db: &mut NodeDb,
    call: Call,
) -> Result<Outcome, Fail> {
    match call {
        Call::Load => Ok(load(alloc, store, db)),
        Call::New(target) => {
            let key = key_of(rt, alloc, target)?;
            Ok(made(db.new_record(store, key)))
        }
        Call::Mark(target) => {
            let key = key_of(rt, alloc, target)?;
            Ok(made(db.new_marked(store, key, "oi.polled", "127.0.0.1:3260")))
        }
        Call::Update(target, name, value) => {
            Ok(update(rt, alloc, store, db, target, name, value))
        }
        Call::Delete(target, told) => delete(rt, alloc, store, db, target, told),
        Call::Shows(target, name, value) => {
            let key = key_of(rt, alloc, target)?;
            Ok(shows(db, &key, name, value))
        }
        _ => call_store(alloc, store, call),
    }
}

// Makes the calls one after another, over a store whose calls of these numbers fail.
fn walk(
    rt: &impl Abort,
    alloc: Global,
    fails: &[u64],
    steps: &[(Call, Outcome)],
) -> Result<(), Fail> {
    let mut store = MemStore::new(alloc, Series::from_vec(Vec::from_slice(alloc, fails)?));
    let mut db = NodeDb::new(alloc);
    for (at, (call, wanted)) in steps.iter().enumerate() {
        let outcome = call_db(rt, alloc, &mut store, &mut db, *call)?;
        assert!(rt; outcome == *wanted, "step {at}");
    }
    Ok(())
}

const COMMANDS: &str = "node.session.cmds_max";

const NEWEST: &str = "node.session.oi.count_disrupted";

static RECORDS_BY_THE_TOOL: [(Call, Outcome); 15] = [
    (Call::Load, Outcome::Same),
    (Call::Update("", COMMANDS, "64"), Outcome::NoObjects),
    (Call::Delete("", &[]), Outcome::NoObjects),
    (Call::New(DISK_ONE), Outcome::Made(true)),
    (Call::Text(PATH_ONE, b"2ailcmyz"), Outcome::Same),
    (Call::New(DISK_ONE), Outcome::Made(false)),
    (Call::Text(PATH_ONE, b"2ailcmyz"), Outcome::Same),
    (Call::Update("", COMMANDS, "64"), Outcome::Count(1)),
    (Call::Text(PATH_ONE, b"2aildmyz"), Outcome::Same),
    (Call::Update("", COMMANDS, "0"), Outcome::BadValue),
    (Call::Update("", "node.nothing", "0"), Outcome::BadName),
    (Call::Update("", "node.name", DISK_ONE), Outcome::BadName),
    (Call::Text(PATH_ONE, b"2aildmyz"), Outcome::Same),
    (Call::Delete("", &[]), Outcome::Count(1)),
    (Call::Text(PATH_ONE, b""), Outcome::Nothing),
];

#[test]
fn records_by_the_tool(rt: HostRuntime) -> Result<(), Fail> {
    walk(&rt, rt.alloc(), &[], &RECORDS_BY_THE_TOOL)
}

static UNKNOWN_NAMES_STAY: [(Call, Outcome); 5] = [
    (Call::Write(PATH_ONE, b"2aislcmyxz"), Outcome::Made(true)),
    (Call::Load, Outcome::Same),
    (Call::Update("", COMMANDS, "64"), Outcome::Count(1)),
    (Call::Text(PATH_ONE, b"2aisldmyxz"), Outcome::Same),
    (Call::Update("", "site", "south"), Outcome::BadName),
];

#[test]
fn unknown_names_stay(rt: HostRuntime) -> Result<(), Fail> {
    walk(&rt, rt.alloc(), &[], &UNKNOWN_NAMES_STAY)
}

static RECORD_SCHEMA_MIGRATION: [(Call, Outcome); 9] = [
    (Call::Write(PATH_ONE, b"1ailcmsz"), Outcome::Made(true)),
    (Call::Write(PATH_TWO, b"1bilcmz"), Outcome::Made(true)),
    (Call::Load, Outcome::Same),
    (Call::Update(DISK_ONE, NEWEST, "No"), Outcome::Count(1)),
    (Call::Text(PATH_ONE, b"2ailcmsnz"), Outcome::Same),
    (Call::Text(PATH_TWO, b"1bilcmz"), Outcome::Same),
    (
        Call::Shows(DISK_TWO, b"node.session.oi.count_disrupted", b"Yes"),
        Outcome::Same,
    ),
    (Call::Update("", NEWEST, "Maybe"), Outcome::BadValue),
    (Call::Text(PATH_TWO, b"1bilcmz"), Outcome::Same),
];

#[test]
fn record_schema_migration(rt: HostRuntime) -> Result<(), Fail> {
    walk(&rt, rt.alloc(), &[], &RECORD_SCHEMA_MIGRATION)
}

static BAD_TEXTS: [(Call, Outcome); 15] = [
    (Call::Write("other/place", b"s"), Outcome::Made(true)),
    (Call::Write("nodes", b"s"), Outcome::Made(true)),
    (Call::Load, Outcome::Same),
    (Call::Write(PATH_ONE, b"2ailcmy"), Outcome::Made(true)),
    (Call::Load, Outcome::BadLine(32)),
    (Call::Write(PATH_ONE, b"2ailemyz"), Outcome::Made(true)),
    (Call::Load, Outcome::BadLine(21)),
    (Call::Write(OTHER_PATH, b"2ailcmyz"), Outcome::Made(true)),
    (Call::Write(PATH_ONE, b"2ailcmyz"), Outcome::Made(true)),
    (Call::Load, Outcome::BadLine(0)),
    (Call::Remove(OTHER_PATH), Outcome::Made(true)),
    (Call::Write("nodes/x", b""), Outcome::Made(true)),
    (Call::Load, Outcome::BadLine(1)),
    (Call::Remove("nodes/x"), Outcome::Made(true)),
    (Call::Load, Outcome::Same),
];

#[test]
fn bad_texts_are_told(rt: HostRuntime) -> Result<(), Fail> {
    walk(&rt, rt.alloc(), &[], &BAD_TEXTS)
}

// The removal of the second record is call 5 of the store, the write of the third one call 7.
static FAILING_REMOVE: [(Call, Outcome); 11] = [
    (Call::Load, Outcome::Same),
    (Call::New(DISK_TWO), Outcome::Made(true)),
    (Call::New(DISK_TEN), Outcome::Made(true)),
    (Call::New(DISK_ONE), Outcome::Made(true)),
    (Call::Delete("", &[]), Outcome::StoreFault),
    (Call::Text(PATH_ONE, b""), Outcome::Nothing),
    (Call::Text(PATH_TEN, b"2jilcmyz"), Outcome::Same),
    (Call::Update("", COMMANDS, "64"), Outcome::StoreFault),
    (Call::Text(PATH_TEN, b"2jildmyz"), Outcome::Same),
    (Call::Text(PATH_TWO, b"2bilcmyz"), Outcome::Same),
    (Call::Delete("", &[]), Outcome::Count(2)),
];

#[test]
fn failing_remove_stops_in_the_middle(rt: HostRuntime) -> Result<(), Fail> {
    walk(&rt, rt.alloc(), &[5, 7], &FAILING_REMOVE)
}

// The write of the second record, that of a new one, a list and a read fail.
static FAILING_WRITE: [(Call, Outcome); 12] = [
    (Call::Load, Outcome::Same),
    (Call::New(DISK_TEN), Outcome::Made(true)),
    (Call::New(DISK_ONE), Outcome::Made(true)),
    (Call::Update("", COMMANDS, "64"), Outcome::StoreFault),
    (Call::Text(PATH_ONE, b"2aildmyz"), Outcome::Same),
    (
        Call::Shows(DISK_ONE, b"node.session.cmds_max", b"64"),
        Outcome::Same,
    ),
    (
        Call::Shows(DISK_TEN, b"node.session.cmds_max", b"128"),
        Outcome::Same,
    ),
    (Call::New(DISK_TWO), Outcome::StoreFault),
    (Call::Shows(DISK_TWO, b"", b""), Outcome::Nothing),
    (Call::Load, Outcome::StoreFault),
    (Call::Load, Outcome::StoreFault),
    (Call::Load, Outcome::Same),
];

#[test]
fn failing_write_stops_in_the_middle(rt: HostRuntime) -> Result<(), Fail> {
    walk(&rt, rt.alloc(), &[4, 5, 6, 9], &FAILING_WRITE)
}

const LIVING: &[(u32, &str)] = &[(4, "127.0.0.1:3261,1"), (7, "127.0.0.1:3260,9")];

static LIVING_SESSIONS: [(Call, Outcome); 6] = [
    (Call::New(DISK_ONE), Outcome::Made(true)),
    (Call::New(DISK_TWO), Outcome::Made(true)),
    (Call::Delete("", LIVING), Outcome::InUse(7)),
    (Call::Text(PATH_ONE, b"2ailcmyz"), Outcome::Same),
    (Call::Delete(DISK_TWO, LIVING), Outcome::Count(1)),
    (Call::Text(PATH_TWO, b""), Outcome::Nothing),
];

#[test]
fn living_sessions_keep_their_records(rt: HostRuntime) -> Result<(), Fail> {
    walk(&rt, rt.alloc(), &[], &LIVING_SESSIONS)
}

static MARKED: [(Call, Outcome); 4] = [
    (Call::Mark(DISK_ONE), Outcome::Made(true)),
    (Call::Text(PATH_ONE, b"2ailcmypz"), Outcome::Same),
    (Call::Mark(DISK_ONE), Outcome::Made(false)),
    (Call::New(DISK_ONE), Outcome::Made(false)),
];

#[test]
fn marked_record(rt: HostRuntime) -> Result<(), Fail> {
    walk(&rt, rt.alloc(), &[], &MARKED)
}

// The parts of a filter, an empty one where nothing is asked for, and the paths of the records that it means.
type Search = (
    &'static str,
    &'static str,
    u16,
    &'static str,
    &'static [&'static str],
);

const FIRST: &str = "nodes/iqn.2024-01.org.example:d1/127.0.0.1,860,1/default";

const THIRD: &str = "nodes/iqn.2024-01.org.example:d1/127.0.0.1,3260,2/default";

const FOURTH: &str = "nodes/iqn.2024-01.org.example:d1/127.0.0.1,3260,2/if_1";

const FIFTH: &str = "nodes/iqn.2024-01.org.example:d1.a/127.0.0.1,860,1/default";

// The order of keys is not that of the paths, and the parts of a filter are asked for together.
static SEARCHES: [Search; 6] = [
    ("", "", 0, "", &[FIRST, PATH_ONE, THIRD, FOURTH, FIFTH]),
    ("", "", 0, "default", &[FIRST, PATH_ONE, THIRD, FIFTH]),
    (DISK_ONE, "", 0, "default", &[FIRST, PATH_ONE, THIRD]),
    (DISK_ONE, "127.0.0.1", 0, "default", &[PATH_ONE, THIRD]),
    (DISK_ONE, "127.0.0.1", 2, "default", &[THIRD]),
    (DISK_ONE, "127.0.0.1", 3, "", &[]),
];

static KEYS: [(&str, &str, &str); 5] = [
    (DISK_ONE, "127.0.0.1:3260,2", "if_1"),
    (DISK_ONE, "127.0.0.1:860,1", "default"),
    ("iqn.2024-01.org.example:d1.a", "127.0.0.1:860,1", "default"),
    (DISK_ONE, "127.0.0.1:3260,2", "default"),
    (DISK_ONE, "127.0.0.1:3260,1", "default"),
];

fn filter_of(rt: &impl Abort, alloc: Global, search: &Search) -> Result<Filter, Fail> {
    let (target, portal, tag, iface, _) = *search;
    let mut filter = of_target(rt, alloc, target);
    if let Ok((portal, _)) = Portal::read(alloc, portal) {
        filter.portal = Some(portal);
    }
    if tag != 0 {
        filter.tag = Some(tag);
    }
    if !iface.is_empty() {
        filter.iface = Some(Label::from_slice(alloc, iface.as_bytes())?);
    }
    Ok(filter)
}

fn finds(rt: &impl Abort, alloc: Global, db: &NodeDb, search: &Search) -> Result<(), Fail> {
    let filter = filter_of(rt, alloc, search)?;
    let mut found = Vec::new(alloc);
    db.find(&filter, &mut found)?;
    assert_eq!(rt; found.len(), search.4.len());
    for (key, path) in found.iter().zip(search.4) {
        assert!(rt; path_of(alloc, key)?.as_slice() == path.as_bytes());
    }
    Ok(())
}

#[test]
fn filters_and_order(rt: HostRuntime) -> Result<(), Fail> {
    let alloc = rt.alloc();
    let mut store = MemStore::new(alloc, Series::from_vec(Vec::new(alloc)));
    let mut db = NodeDb::new(alloc);
    for (target, portal, iface) in &KEYS {
        let key = key(&rt, alloc, *target, *portal, *iface)?;
        assert_eq!(rt; made(db.new_record(&mut store, key)), Outcome::Made(true));
    }
    assert_eq!(rt; load(alloc, &mut store, &mut db), Outcome::Same);
    assert_eq!(rt; db.records().len(), 5);
    for search in &SEARCHES {
        finds(&rt, alloc, &db, search)?;
    }
    Ok(())
}

fn tells(rt: &impl Abort, alloc: Global, fault: DbError, told: &str) -> Result<(), Fail> {
    assert_eq!(rt; format!(in alloc; "{fault}")?.as_str(), told);
    Ok(())
}

#[test]
fn faults_are_told(rt: HostRuntime) -> Result<(), Fail> {
    let alloc = rt.alloc();
    tells(&rt, alloc, DbError::NoObjects, "no record matches")?;
    tells(&rt, alloc, DbError::InUse { sid: 7 }, "session 7 lives")?;
    tells(
        &rt,
        alloc,
        DbError::from(StoreError::Failed),
        "the store failed",
    )?;
    let path = Label::from_slice(alloc, b"nodes/x")?;
    let fault = DbError::BadRecord { path, line: 3 };
    tells(&rt, alloc, fault, "the stored record is bad at line 3")
}
