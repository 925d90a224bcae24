use oi_base::Series;
use oi_outside::{MemSink, MemStore, RecordStore};
use oi_tool::*;
use std::alloc::Global;
use std::process::Abort;
use std::test::Fail;

const PATH: &str = "nodes/iqn.2024-01.org.example:d1/127.0.0.1,3260,1/default";

const OTHER_PATH: &str = "nodes/iqn.2024-01.org.example:d2/127.0.0.1,3260,1/default";

// A text is told by its parts, one letter each: the first line of either schema, the target's name, the lines up to
// `node.session.cmds_max`, that one, those of the first schema behind it, what else may follow, and the last line.
fn part(letter: u8) -> &'static str {
    match letter {
        b'1' => "# BEGIN RECORD 1\n",
        b'2' => "# BEGIN RECORD 2\n",
        b'a' => "node.name = iqn.2024-01.org.example:d1\n",
        b'b' => "node.name = iqn.2024-01.org.example:d2\n",
        b'f' => FRONT,
        b'c' => "node.session.cmds_max = 128\n",
        b'd' => "node.session.cmds_max = 64\n",
        b'm' => MORE,
        b's' => "site = north\n",
        b'x' => "x.y=z = a = b\n",
        b'y' => "node.session.oi.count_disrupted = Yes\n",
        b'n' => "node.session.oi.count_disrupted = No\n",
        _ => "# END RECORD\n",
    }
}

const FRONT: &str = "node.tpgt = 1
node.conn[0].address = 127.0.0.1
node.conn[0].port = 3260
iface.iscsi_ifacename = default
node.startup = manual
node.session.auth.authmethod = None
node.session.auth.username = 
node.session.auth.password = 
node.session.auth.username_in = 
node.session.auth.password_in = 
node.session.timeo.replacement_timeout = 120
node.conn[0].timeo.login_timeout = 15
node.conn[0].timeo.logout_timeout = 15
node.conn[0].timeo.noop_out_interval = 5
node.conn[0].timeo.noop_out_timeout = 5
node.session.err_timeo.abort_timeout = 15
node.session.err_timeo.lu_reset_timeout = 30
node.session.err_timeo.tgt_reset_timeout = 30
";

const MORE: &str = "node.session.queue_depth = 32
node.session.iscsi.InitialR2T = No
node.session.iscsi.ImmediateData = Yes
node.session.iscsi.FirstBurstLength = 262144
node.session.iscsi.MaxBurstLength = 16776192
node.session.iscsi.DefaultTime2Wait = 2
node.session.iscsi.DefaultTime2Retain = 0
node.session.iscsi.MaxOutstandingR2T = 1
node.conn[0].iscsi.MaxRecvDataSegmentLength = 262144
";

fn joined(alloc: Global, parts: &str) -> Result<Vec<u8>, Fail> {
    let mut text = Vec::new(alloc);
    for letter in parts.as_bytes() {
        text.extend_from_slice(part(*letter).as_bytes())?;
    }
    Ok(text)
}

fn words_of(alloc: Global, line: &str) -> Result<Vec<String>, Fail> {
    let mut words = Vec::new(alloc);
    for word in line.split(' ') {
        if !word.is_empty() {
            words.push(String::from_str(alloc, word)?)?;
        }
    }
    Ok(words)
}

// The words, the status and the text that are wanted, and the parts of the text behind the path then.
type Step = (&'static str, u8, &'static str, &'static str);

const NEW: &str = "-m node -T iqn.2024-01.org.example:d1 -p 127.0.0.1 -o new";

const LINE: &str = "127.0.0.1:3260,1 iqn.2024-01.org.example:d1\n";

const REFUSED: &str = "fault 7 0\n";

static RECORDS: [Step; 9] = [
    ("-m node", 21, "fault 21 0\n", ""),
    (NEW, 0, "", "2afcmy."),
    ("-m node", 0, LINE, "2afcmy."),
    (NEW, 0, "", "2afcmy."),
    (
        "-m node -o update -n node.session.cmds_max -v 64",
        0,
        "",
        "2afdmy.",
    ),
    (NEW, 0, "", "2afdmy."),
    (
        "-m node -o update -n node.session.cmds_max -v 0",
        7,
        REFUSED,
        "2afdmy.",
    ),
    (
        "-m node -o update -n node.nothing -v 0",
        7,
        REFUSED,
        "2afdmy.",
    ),
    (
        "-m node -o update -n node.name -v iqn.2024-01.org.example:d1",
        7,
        REFUSED,
        "2afdmy.",
    ),
];

static UNKNOWN_NAMES: [Step; 2] = [
    (
        "-m node -o update -n node.session.cmds_max -v 64",
        0,
        "",
        "2asfdmyx.",
    ),
    (
        "-m node -o update -n site -v south",
        7,
        REFUSED,
        "2asfdmyx.",
    ),
];

const CUT: &str = "fault 32 nodes/iqn.2024-01.org.example:d1/127.0.0.1,3260,1/default 32\n";

static WITHOUT_LAST_LINE: [Step; 4] = [
    ("-m node", 32, CUT, "2afcmy"),
    ("-m node -x", 7, REFUSED, "2afcmy"),
    (
        "-m node -o update -n node.nothing -v 0",
        7,
        REFUSED,
        "2afcmy",
    ),
    ("-m session", 32, CUT, "2afcmy"),
];

static UNDER_ANOTHER_PATH: [Step; 1] = [(
    "-m node",
    32,
    "fault 32 nodes/iqn.2024-01.org.example:d1/127.0.0.1,3260,1/default 0\n",
    "2bfcmy.",
)];

static MIGRATION: [Step; 2] = [
    (
        "-m node -T iqn.2024-01.org.example:d1 -o update -n node.session.oi.count_disrupted -v No",
        0,
        "",
        "1bfcm.",
    ),
    (
        "-m node -o update -n node.session.oi.count_disrupted -v Maybe",
        7,
        REFUSED,
        "1bfcm.",
    ),
];

static TOOL_WORDS: [Step; 11] = [
    (NEW, 0, "", "2afcmy."),
    ("-m node -m node", 7, REFUSED, "2afcmy."),
    ("-m node -x", 7, REFUSED, "2afcmy."),
    ("-m node -l", 7, REFUSED, "2afcmy."),
    ("-m node -u", 7, REFUSED, "2afcmy."),
    ("-m discovery -t st -p 127.0.0.1", 7, REFUSED, "2afcmy."),
    ("", 7, REFUSED, "2afcmy."),
    ("-m session", 21, "fault 21 0\n", "2afcmy."),
    (
        "-m node -p 127.0.0.1:3261 -o delete",
        21,
        "fault 21 0\n",
        "2afcmy.",
    ),
    ("-m node -o delete", 6, "fault 6 0\n", "2afcmy."),
    ("-m node -o delete", 0, "", ""),
];

// The parts of the text behind the path, empty where there is none.
fn is_stored(alloc: Global, store: &MemStore, path: &str, parts: &str) -> Result<bool, Fail> {
    match store.text_at(path) {
        Some(text) => Ok(text == joined(alloc, parts)?.as_slice()),
        None => Ok(parts.is_empty()),
    }
}

fn store_of(alloc: Global, fails: &[u64], texts: &[(&str, &str)]) -> Result<MemStore, Fail> {
    let mut store = MemStore::new(alloc, Series::from_vec(Vec::from_slice(alloc, fails)?));
    for (path, parts) in texts {
        let _ = store.write_whole(*path, &joined(alloc, *parts)?);
    }
    Ok(store)
}

fn walk(
    rt: &impl Abort,
    alloc: Global,
    store: &mut MemStore,
    path: &str,
    steps: &[Step],
) -> Result<(), Fail> {
    for (at, (line, wanted, text, parts)) in steps.iter().enumerate() {
        let mut sink = MemSink::new(alloc, 10_000, Series::new(alloc))?;
        let words = words_of(alloc, *line)?;
        let status = run_tool(alloc, &words, &mut sink, store);
        assert!(rt; status == *wanted, "status {at}");
        assert!(rt; sink.held() == (*text).as_bytes(), "text {at}");
        assert!(rt; is_stored(alloc, store, path, *parts)?, "store {at}");
    }
    Ok(())
}

#[test]
fn records_by_the_tool(rt: HostRuntime) -> Result<(), Fail> {
    let alloc = rt.alloc();
    walk(&rt, alloc, &mut store_of(alloc, &[], &[])?, PATH, &RECORDS)?;
    let mut strange = store_of(alloc, &[], &[(PATH, "2asfcmyx.")])?;
    walk(&rt, alloc, &mut strange, PATH, &UNKNOWN_NAMES)?;
    let mut cut = store_of(alloc, &[], &[(PATH, "2afcmy")])?;
    walk(&rt, alloc, &mut cut, PATH, &WITHOUT_LAST_LINE)?;
    let mut moved = store_of(alloc, &[], &[(PATH, "2bfcmy.")])?;
    walk(&rt, alloc, &mut moved, PATH, &UNDER_ANOTHER_PATH)
}

// Call 8 of the store is the first removal.
#[test]
fn tool_words_and_failing_remove(rt: HostRuntime) -> Result<(), Fail> {
    let alloc = rt.alloc();
    walk(
        &rt,
        alloc,
        &mut store_of(alloc, &[8], &[])?,
        PATH,
        &TOOL_WORDS,
    )
}

#[test]
fn record_schema_migration(rt: HostRuntime) -> Result<(), Fail> {
    let alloc = rt.alloc();
    let mut store = store_of(alloc, &[], &[(PATH, "1afcms."), (OTHER_PATH, "1bfcm.")])?;
    walk(&rt, alloc, &mut store, OTHER_PATH, &MIGRATION)?;
    assert!(&rt; is_stored(alloc, &store, PATH, "2afcmsn.")?);
    let mut sink = MemSink::new(alloc, 10_000, Series::new(alloc))?;
    let words = words_of(alloc, "-m node -T iqn.2024-01.org.example:d2 -o show")?;
    assert_eq!(&rt; run_tool(alloc, &words, &mut sink, &mut store), 0);
    assert!(&rt; sink.held() == joined(alloc, "bfcmy")?.as_slice());
    Ok(())
}

// Whether the record is stored, the room of a sink, its calls that fail, those of the store that fail, and the status and the text that
// are wanted.
static FAILURES: [(bool, u32, &[u64], &[u64], u8, &str); 9] = [
    (true, 100, &[], &[], 0, LINE),
    (true, 10, &[], &[], 31, "127.0.0.1:"),
    (true, 100, &[1], &[], 31, LINE),
    (true, 100, &[], &[1], 6, "fault 6 0\n"),
    (true, 5, &[], &[1], 6, "fault"),
    (false, 100, &[], &[], 21, "fault 21 0\n"),
    (false, 5, &[], &[], 31, "fault"),
    (false, 0, &[], &[], 31, ""),
    (false, 100, &[1], &[], 31, "fault 21 0\n"),
];

#[test]
fn failing_sink_and_store(rt: HostRuntime) -> Result<(), Fail> {
    let alloc = rt.alloc();
    let words = words_of(alloc, "-m node")?;
    let stored: [(&str, &str); 1] = [(PATH, "2afcmy.")];
    for (is_stored, room, fails, broken, wanted, text) in &FAILURES {
        let texts = if *is_stored { &stored[..] } else { &[] };
        let mut store = store_of(alloc, *broken, texts)?;
        let fails = Series::from_vec(Vec::from_slice(alloc, *fails)?);
        let mut sink = MemSink::new(alloc, *room, fails)?;
        assert_eq!(&rt; run_tool(alloc, &words, &mut sink, &mut store), *wanted);
        assert!(&rt; sink.held() == (*text).as_bytes());
    }
    Ok(())
}
