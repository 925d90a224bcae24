use oi_base::Label;
use oi_names::{IscsiName, Portal, is_iface_name};
use oi_settings::*;
use std::alloc::Global;
use std::process::Abort;
use std::test::Fail;

// The lines of a fresh record as the first schema has them.
static LINES: [&[u8]; 29] = [
    b"node.name = iqn.2024-01.org.example:d1",
    b"node.tpgt = 1",
    b"node.conn[0].address = 127.0.0.1",
    b"node.conn[0].port = 3260",
    b"iface.iscsi_ifacename = default",
    b"node.startup = manual",
    b"node.session.auth.authmethod = None",
    b"node.session.auth.username = ",
    b"node.session.auth.password = ",
    b"node.session.auth.username_in = ",
    b"node.session.auth.password_in = ",
    b"node.session.timeo.replacement_timeout = 120",
    b"node.conn[0].timeo.login_timeout = 15",
    b"node.conn[0].timeo.logout_timeout = 15",
    b"node.conn[0].timeo.noop_out_interval = 5",
    b"node.conn[0].timeo.noop_out_timeout = 5",
    b"node.session.err_timeo.abort_timeout = 15",
    b"node.session.err_timeo.lu_reset_timeout = 30",
    b"node.session.err_timeo.tgt_reset_timeout = 30",
    b"node.session.cmds_max = 128",
    b"node.session.queue_depth = 32",
    b"node.session.iscsi.InitialR2T = No",
    b"node.session.iscsi.ImmediateData = Yes",
    b"node.session.iscsi.FirstBurstLength = 262144",
    b"node.session.iscsi.MaxBurstLength = 16776192",
    b"node.session.iscsi.DefaultTime2Wait = 2",
    b"node.session.iscsi.DefaultTime2Retain = 0",
    b"node.session.iscsi.MaxOutstandingR2T = 1",
    b"node.conn[0].iscsi.MaxRecvDataSegmentLength = 262144",
];

fn put_line(text: &mut Vec<u8>, line: &[u8]) -> Result<(), Fail> {
    text.extend_from_slice(line)?;
    text.push(b'\n')?;
    Ok(())
}

// A first line, the lines with another one in one place, and what follows them.
fn text_with(
    alloc: Global,
    begin: &[u8],
    at: usize,
    other: &[u8],
    end: &[u8],
) -> Result<Vec<u8>, Fail> {
    let mut text = Vec::from_slice(alloc, begin)?;
    for (place, line) in LINES.iter().enumerate() {
        if place == at {
            text.extend_from_slice(other)?;
        } else {
            put_line(&mut text, *line)?;
        }
    }
    text.extend_from_slice(end)?;
    Ok(text)
}

// The lines as they are.
fn text_of(alloc: Global, begin: &[u8], end: &[u8]) -> Result<Vec<u8>, Fail> {
    text_with(alloc, begin, 99, b"", end)
}

const FIRST: &[u8] = b"# BEGIN RECORD 1\n";

const SECOND: &[u8] = b"# BEGIN RECORD 2\n";

const END: &[u8] = b"# END RECORD\n";

fn key(
    rt: &impl Abort,
    alloc: Global,
    target: &str,
    portal: &str,
    iface: &[u8],
) -> Result<RecordKey, Fail> {
    let Ok(target) = IscsiName::read(alloc, target) else {
        panic!(rt; "no name");
    };
    let Ok((portal, tag)) = Portal::read(alloc, portal) else {
        panic!(rt; "no portal");
    };
    let iface = Label::from_slice(alloc, iface)?;
    assert!(rt; is_iface_name(iface.as_slice()));
    Ok(RecordKey::new(target, portal, tag.unwrap_or(1), iface))
}

fn first_key(rt: &impl Abort, alloc: Global) -> Result<RecordKey, Fail> {
    let target = "iqn.2024-01.org.example:d1";
    key(rt, alloc, target, "127.0.0.1:3260,1", b"default")
}

fn read(rt: &impl Abort, alloc: Global, text: &[u8]) -> NodeRecord {
    match read_text(alloc, text) {
        Ok(record) => record,
        Err(RecordFault::Bad { line }) => panic!(rt; "line {line}"),
        Err(RecordFault::Memory) => panic!(rt; "memory"),
    }
}

fn written(alloc: Global, record: &NodeRecord) -> Result<Vec<u8>, Fail> {
    let mut text = Vec::new(alloc);
    record.write_text(&mut text)?;
    Ok(text)
}

fn writes(rt: &impl Abort, alloc: Global, record: &NodeRecord, wanted: &[u8]) -> Result<(), Fail> {
    let text = written(alloc, record)?;
    assert!(rt; text.as_slice() == wanted);
    Ok(())
}

// A text that is read again is of the first key's record, and so is its copy.
fn reads_back(rt: &impl Abort, alloc: Global, text: &[u8]) -> Result<(), Fail> {
    let record = read(rt, alloc, text);
    let key = first_key(rt, alloc)?;
    assert!(rt; *record.key() == key);
    let copy = record.copy(alloc)?;
    writes(rt, alloc, &copy, text)
}

#[test]
fn fresh_record(rt: HostRuntime) -> Result<(), Fail> {
    let alloc = rt.alloc();
    let record = NodeRecord::fresh(alloc, first_key(&rt, alloc)?)?;
    assert_eq!(rt; record.count(), 30);
    let end = b"node.session.oi.count_disrupted = Yes\n# END RECORD\n";
    let wanted = text_of(alloc, SECOND, end)?;
    writes(&rt, alloc, &record, wanted.as_slice())?;
    reads_back(&rt, alloc, wanted.as_slice())
}

fn update(
    rt: &impl Abort,
    alloc: Global,
    record: &mut NodeRecord,
    name: &[u8],
    value: &[u8],
) -> Result<(), Fail> {
    let name = Label::from_slice(alloc, name)?;
    let value = Label::from_slice(alloc, value)?;
    if !is_open(name.as_slice()) {
        panic!(rt; "not open");
    }
    let taken = takes_value(alloc, name.as_slice(), value.as_slice())?;
    if !taken {
        panic!(rt; "not taken");
    }
    record.set(name, value)?;
    Ok(())
}

const NEWEST: &[u8] = b"node.session.oi.count_disrupted";

// The record of a text of the first schema with an unknown pair last.
fn migrated(rt: &impl Abort, alloc: Global) -> Result<NodeRecord, Fail> {
    let old = text_of(alloc, FIRST, b"site = north\n# END RECORD\n")?;
    let record = read(rt, alloc, old.as_slice());
    let count = record.count();
    assert!(rt; 0 < count);
    let (name, value) = record.pair(count - 1);
    assert!(rt; name == NEWEST);
    assert!(rt; value == b"Yes".as_slice());
    Ok(record)
}

#[test]
fn record_schema_migration(rt: HostRuntime) -> Result<(), Fail> {
    let alloc = rt.alloc();
    assert!(rt; !takes_value(alloc, NEWEST, b"Maybe")?);
    let mut record = migrated(&rt, alloc)?;
    update(&rt, alloc, &mut record, NEWEST, b"No")?;
    let end = b"site = north\nnode.session.oi.count_disrupted = No\n# END RECORD\n";
    let wanted = text_of(alloc, SECOND, end)?;
    writes(&rt, alloc, &record, wanted.as_slice())
}

// The ends of a text of the first schema, and of the text that is written of it.
static OLD_ENDS: [(&[u8], &[u8]); 2] = [
    (
        b"node.session.oi.count_disrupted = Maybe\nsite = a = b\n# END RECORD\n",
        b"node.session.oi.count_disrupted = Yes\nsite = a = b\n# END RECORD\n",
    ),
    (
        b"node.session.oi.count_disrupted = No\n# END RECORD\n",
        b"node.session.oi.count_disrupted = No\n# END RECORD\n",
    ),
];

fn keeps_end(rt: &impl Abort, alloc: Global, end: &[u8], kept: &[u8]) -> Result<(), Fail> {
    let old = text_of(alloc, FIRST, end)?;
    let record = read(rt, alloc, old.as_slice());
    let wanted = text_of(alloc, SECOND, kept)?;
    writes(rt, alloc, &record, wanted.as_slice())
}

// A text of the second schema may have this end.
fn takes_end(alloc: Global, end: &[u8]) -> Result<bool, Fail> {
    let new = text_of(alloc, SECOND, end)?;
    Ok(read_text(alloc, new.as_slice()).is_ok())
}

// The first schema does not know the newest name: a value outside its range is replaced where it stands.
#[test]
fn newest_name_in_an_old_text(rt: HostRuntime) -> Result<(), Fail> {
    let alloc = rt.alloc();
    for (end, kept) in &OLD_ENDS {
        keeps_end(&rt, alloc, *end, *kept)?;
        assert_eq!(rt; takes_end(alloc, *end)?, *end == *kept);
    }
    Ok(())
}

fn bad_line(alloc: Global, text: &[u8]) -> Option<u32> {
    match read_text(alloc, text) {
        Ok(_) => None,
        Err(RecordFault::Bad { line }) => Some(line),
        Err(RecordFault::Memory) => Some(0),
    }
}

// What the line at a place is replaced by, and which line is bad then: the lines are counted by hand; the first setting
// stands in line 2, the last line is line 31.
static OTHER_LINES: [(usize, &[u8], Option<u32>); 25] = [
    (0, b"node.name = iqm.a\n", Some(2)),
    (0, b"node.name = iqn.a\nnode.name = iqn.a\n", Some(3)),
    (1, b"node.tpgt = 01\n", Some(3)),
    (1, b"node.tpgt = 65536\n", Some(3)),
    (1, b"node.tpgt = 65535\n", None),
    (2, b"node.conn[0].address = 127.0.0.1:1\n", Some(4)),
    (2, b"node.conn[0].address = [FE80::1]\n", None),
    (3, b"node.conn[0].port = 0\n", Some(5)),
    (4, b"iface.iscsi_ifacename = Default\n", Some(6)),
    (5, b"node.startup = onboot\n", Some(7)),
    (5, b"\n", Some(7)),
    (5, b"node.startup=manual\n", Some(7)),
    (5, b"node.startup  = manual\n", Some(7)),
    (5, b"node.startup\t= manual\n", Some(7)),
    (5, b"= = =\nnode.startup = automatic\n", None),
    (5, b" = x\nnode.startup = automatic\n", Some(7)),
    (5, b"", Some(30)),
    (11, b"node.session.timeo.replacement_timeout = -1\n", None),
    (
        11,
        b"node.session.timeo.replacement_timeout = -2\n",
        Some(13),
    ),
    (
        11,
        b"node.session.timeo.replacement_timeout = 86401\n",
        Some(13),
    ),
    (19, b"node.session.cmds_max = 0\n", Some(21)),
    (19, b"node.session.cmds_max = 2049\n", Some(21)),
    (19, b"node.session.cmds_max = +1\n", Some(21)),
    (21, b"node.session.iscsi.InitialR2T = no\n", Some(23)),
    (28, b"site = north", Some(31)),
];

#[test]
fn bad_lines(rt: HostRuntime) -> Result<(), Fail> {
    let alloc = rt.alloc();
    for (at, other, line) in &OTHER_LINES {
        let text = text_with(alloc, FIRST, *at, *other, END)?;
        assert_eq!(rt; bad_line(alloc, text.as_slice()), *line, "{other:?}");
    }
    Ok(())
}

// A first line, what follows the lines, and which line is bad then.
static OTHER_ENDS: [(&[u8], &[u8], Option<u32>); 10] = [
    (FIRST, b"", Some(31)),
    (FIRST, b"# END RECORD", Some(31)),
    (FIRST, b"# END RECORD \n", Some(31)),
    (FIRST, b"# END RECORD\n\n", Some(32)),
    (FIRST, b"# END RECORD\n# END RECORD\n", Some(32)),
    (FIRST, END, None),
    (SECOND, END, Some(31)),
    (b"# BEGIN RECORD 3\n", END, Some(1)),
    (b"", END, Some(1)),
    (b"\n# BEGIN RECORD 1\n", END, Some(1)),
];

#[test]
fn bad_ends(rt: HostRuntime) -> Result<(), Fail> {
    let alloc = rt.alloc();
    for (begin, end, line) in &OTHER_ENDS {
        let text = text_of(alloc, *begin, *end)?;
        assert_eq!(rt; bad_line(alloc, text.as_slice()), *line, "{end:?}");
    }
    Ok(())
}

#[test]
fn short_texts(rt: HostRuntime) {
    let alloc = rt.alloc();
    assert_eq!(rt; bad_line(alloc, b""), Some(1));
    assert_eq!(rt; bad_line(alloc, FIRST), Some(2));
    assert_eq!(rt;
        bad_line(alloc, b"# BEGIN RECORD 2\n# END RECORD\n"),
        Some(2)
    );
}

// Names and values, whether the name is open, and whether it takes the value.
static VALUES: [(&[u8], &[u8], bool, bool); 11] = [
    (b"node.session.cmds_max", b"2048", true, true),
    (b"node.session.cmds_max", b"", true, false),
    (b"node.session.queue_depth", b"1025", true, false),
    (b"node.session.auth.authmethod", b"CHAP", true, true),
    (b"node.session.auth.password", b"", true, true),
    (b"node.session.auth.password", b"a\nb", true, false),
    (b"node.conn[0].timeo.noop_out_interval", b"0", true, true),
    (b"node.conn[0].timeo.noop_out_timeout", b"0", true, false),
    (b"node.name", b"iqn.a", false, true),
    (b"node.name", b"a", false, false),
    (b"node.nothing", b"0", false, true),
];

#[test]
fn names_and_values(rt: HostRuntime) -> Result<(), Fail> {
    let alloc = rt.alloc();
    for (name, value, open, taken) in &VALUES {
        assert_eq!(rt; is_open(*name), *open, "{name:?}");
        assert_eq!(rt; takes_value(alloc, *name, *value)?, *taken, "{name:?}");
    }
    Ok(())
}

fn mark_polled(alloc: Global, record: &mut NodeRecord) -> Result<(), Fail> {
    let name = Label::from_slice(alloc, b"oi.polled")?;
    let value = Label::from_slice(alloc, b"127.0.0.1:3260")?;
    record.mark(name, value)?;
    Ok(())
}

#[test]
fn marks(rt: HostRuntime) -> Result<(), Fail> {
    let alloc = rt.alloc();
    let mut record = NodeRecord::fresh(alloc, first_key(&rt, alloc)?)?;
    assert!(rt; record.value(b"oi.polled").is_none());
    mark_polled(alloc, &mut record)?;
    assert_eq!(rt; record.count(), 31);
    let (name, value) = record.pair(30);
    assert!(rt; name == b"oi.polled".as_slice());
    assert!(rt; value == b"127.0.0.1:3260".as_slice());
    Ok(())
}

#[test]
fn values(rt: HostRuntime) -> Result<(), Fail> {
    let alloc = rt.alloc();
    let mut record = NodeRecord::fresh(alloc, first_key(&rt, alloc)?)?;
    mark_polled(alloc, &mut record)?;
    match record.value(b"node.session.cmds_max") {
        Some(value) => assert!(rt; value.as_slice() == b"128".as_slice()),
        None => panic!(rt; "no value"),
    }
    Ok(())
}

fn has_path(rt: &impl Abort, alloc: Global, key: &RecordKey, wanted: &[u8]) -> Result<(), Fail> {
    let path = path_of(alloc, key)?;
    assert!(rt; path.as_slice() == wanted);
    Ok(())
}

#[test]
fn paths(rt: HostRuntime) -> Result<(), Fail> {
    let alloc = rt.alloc();
    let wanted = b"nodes/iqn.2024-01.org.example:d1/127.0.0.1,3260,1/default";
    has_path(&rt, alloc, &first_key(&rt, alloc)?, wanted)?;
    let target = "eui.02004567A425678D";
    let other = key(&rt, alloc, target, "[FE80::1]:3261,7", b"eth_0")?;
    let wanted = b"nodes/eui.02004567A425678D/[fe80::1],3261,7/eth_0";
    has_path(&rt, alloc, &other, wanted)?;
    assert!(rt; other.copy(alloc)? == other);
    Ok(())
}

type KeyText = (&'static str, &'static str, &'static [u8]);

// Each key comes before the one beside it: port 999 before 3260, though its path does not.
static ORDERED: [(KeyText, KeyText); 5] = [
    (
        ("iqn.a", "9.9.9.9:9,9", b"z"),
        ("iqn.b", "1.1.1.1:1,0", b"a"),
    ),
    (
        ("iqn.a", "10.0.0.1:9,9", b"z"),
        ("iqn.a", "9.0.0.1:1,0", b"a"),
    ),
    (
        ("iqn.a", "1.1.1.1:999,9", b"z"),
        ("iqn.a", "1.1.1.1:3260,0", b"a"),
    ),
    (
        ("iqn.a", "1.1.1.1:1,9", b"z"),
        ("iqn.a", "1.1.1.1:1,10", b"a"),
    ),
    (
        ("iqn.a", "1.1.1.1:1,1", b"if1"),
        ("iqn.a", "1.1.1.1:1,1", b"if2"),
    ),
];

fn key_of(
    rt: &impl Abort,
    alloc: Global,
    (target, portal, iface): KeyText,
) -> Result<RecordKey, Fail> {
    key(rt, alloc, target, portal, iface)
}

#[test]
fn order_of_keys(rt: HostRuntime) -> Result<(), Fail> {
    let alloc = rt.alloc();
    for (before, after) in &ORDERED {
        let least = key_of(&rt, alloc, *before)?;
        let greatest = key_of(&rt, alloc, *after)?;
        assert!(rt; least < greatest);
        assert!(rt; least != greatest);
    }
    Ok(())
}
