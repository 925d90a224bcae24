use super::*;
use oi_base::{Blob, Series};
use oi_outside::{MemSink, MemSource, MemStore};
use std::alloc::Global;
use std::test::Fail;

// The words, the status and the text that are wanted, over one store.
static STEPS: [(&[&str], u8, &str); 8] = [
    (&[], 7, "fault 7 0\n"),
    (&["drive"], 0, ""),
    (&["d", "iscsiadm", "-m", "node"], 21, "fault 21 0\n"),
    (
        &[
            "d",
            "iscsiadm",
            "-m",
            "node",
            "-T",
            "iqn.2024-01.org.example:d1",
            "-p",
            "127.0.0.1",
            "-o",
            "new",
        ],
        0,
        "",
    ),
    (
        &["d", "iscsiadm", "-m", "node"],
        0,
        "127.0.0.1:3260,1 iqn.2024-01.org.example:d1\n",
    ),
    (&["d", "iscsiadm"], 7, "fault 7 0\n"),
    (&["iscsiadm", "-m", "node"], 7, "fault 7 0\n"),
    (&["d", "drive"], 7, "fault 7 0\n"),
];

fn strings(alloc: Global, words: &[&str]) -> Result<Vec<String>, Fail> {
    let mut strings = Vec::new(alloc);
    for word in words {
        strings.push(String::from_str(alloc, *word)?)?;
    }
    Ok(strings)
}

#[test]
fn words_of_a_mode(rt: HostRuntime) -> Result<(), Fail> {
    let alloc = rt.alloc();
    let mut store = MemStore::new(alloc, Series::new(alloc));
    for (words, wanted, text) in &STEPS {
        let mut source = MemSource::new(Blob::from_slice(alloc, b"end\n")?, Series::new(alloc));
        let mut sink = MemSink::new(alloc, 100, Series::new(alloc))?;
        let words = strings(alloc, *words)?;
        let ended = iscsi_main(alloc, &words, &mut source, &mut sink, &mut store);
        assert_eq!(&rt; ended.status, *wanted);
        assert!(&rt; sink.held() == (*text).as_bytes());
    }
    Ok(())
}
