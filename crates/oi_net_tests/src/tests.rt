use oi_net::*;
use oi_outside::{Failed, RecordStore, Sink, Source, StoreError};
use std::fs;
use std::fs::File;
use std::os::unix::fs::symlink;
use std::path::PathBuf;
use std::process::Abort;
use std::test::Fail;

const RECORD: &str = "nodes/iqn.2003-01.com.example:disk/10.0.0.1,3260,1/default";

const OTHER: &str = "nodes/iqn.2003-01.com.example:disk/10.0.0.1,3260,1/Default";

fn store_at(rt: HostRuntime, root: &str) -> Result<FolderStore<HostRuntime>, Fail> {
    let _none_before = fs::remove_dir_all(&rt, root);
    Ok(FolderStore::at(rt, PathBuf::from_str(rt.alloc(), root)?))
}

fn reads<R: RecordStore>(rt: &impl Abort, store: &mut R, path: &str, text: &[u8]) {
    match store.read(path) {
        Ok(Some(found)) => assert_eq!(rt; found.as_slice(), text),
        _ => panic!(rt; "no text"),
    }
}

fn lists<R: RecordStore>(rt: &impl Abort, store: &mut R, paths: &[&str]) {
    match store.list() {
        Ok(found) => {
            assert_eq!(rt; found.as_slice().len(), paths.len());
            for (path, wanted) in found.as_slice().iter().zip(paths) {
                assert_eq!(rt; path.as_text(), Some(*wanted));
            }
        }
        Err(_) => panic!(rt; "no list"),
    }
}

#[test]
fn folder_keeps_records(rt: HostRuntime) -> Result<(), Fail> {
    let mut store = store_at(rt, "oi_net_records")?;
    assert!(rt; !fs::exists(&rt, "oi_net_records")?);
    lists(&rt, &mut store, &[]);
    assert_eq!(rt; store.read(RECORD), Ok(None));
    assert_eq!(rt; store.remove(RECORD), Ok(false));
    assert!(rt; !fs::exists(&rt, "oi_net_records")?);
    assert_eq!(rt; store.write_whole(RECORD, b"one"), Ok(()));
    assert_eq!(rt; store.write_whole(OTHER, b"\0\xff"), Ok(()));
    assert_eq!(rt; store.write_whole(RECORD, b"three"), Ok(()));
    assert_eq!(rt; store.write_whole("other", b""), Ok(()));
    reads(&rt, &mut store, RECORD, b"three");
    reads(&rt, &mut store, OTHER, b"\0\xff");
    reads(&rt, &mut store, "other", b"");
    lists(&rt, &mut store, &[OTHER, RECORD, "other"]);
    assert_eq!(rt; store.remove(RECORD), Ok(true));
    assert_eq!(rt; store.remove(RECORD), Ok(false));
    assert_eq!(rt; store.remove(OTHER), Ok(true));
    lists(&rt, &mut store, &["other"]);
    assert!(rt; !fs::exists(&rt, "oi_net_records/nodes")?);
    fs::remove_dir_all(&rt, "oi_net_records")?;
    Ok(())
}

// Paths that name no record.
static NO_RECORDS: [&str; 12] = [
    "",
    "/",
    "a/",
    "/a",
    "a//b",
    "./a/b",
    "a/../a/b",
    "..",
    "../oi_net_outside",
    "a/b/.",
    "~0",
    "a/b\0",
];

// A path where there is no record, and where none can be written.
fn has_no_place<R: RecordStore>(rt: &impl Abort, store: &mut R, path: &str) {
    assert_eq!(rt; store.read(path), Ok(None), "{path}");
    assert_eq!(rt; store.remove(path), Ok(false), "{path}");
    assert_eq!(rt;
        store.write_whole(path, b"two"),
        Err(StoreError::Failed),
        "{path}"
    );
}

#[test]
fn folder_has_records_below_it_alone(rt: HostRuntime) -> Result<(), Fail> {
    let mut store = store_at(rt, "oi_net_paths")?;
    assert_eq!(rt; store.write_whole("a/b", b"one"), Ok(()));
    for path in &NO_RECORDS {
        assert!(rt; !names_record(*path), "{path}");
        has_no_place(&rt, &mut store, *path);
    }
    has_no_place(&rt, &mut store, "a");
    has_no_place(&rt, &mut store, "a/b/c");
    lists(&rt, &mut store, &["a/b"]);
    assert!(rt; !fs::exists(&rt, "oi_net_outside")?);
    fs::remove_dir_all(&rt, "oi_net_paths")?;
    Ok(())
}

#[test]
fn folder_passes_over_links_and_half_records(rt: HostRuntime) -> Result<(), Fail> {
    let mut store = store_at(rt, "oi_net_links")?;
    assert_eq!(rt; store.write_whole("a/b", b"one"), Ok(()));
    fs::write(&rt, "oi_net_links/~0", b"half".as_slice())?;
    symlink(&rt, "a", "oi_net_links/link")?;
    symlink(&rt, "a/b", "oi_net_links/file")?;
    lists(&rt, &mut store, &["a/b"]);
    assert_eq!(rt; store.read("link/b"), Ok(None));
    assert_eq!(rt; store.read("file"), Ok(None));
    assert_eq!(rt;
        store.write_whole("link/c", b"two"),
        Err(StoreError::Failed)
    );
    assert_eq!(rt; store.write_whole("a/...", b"three"), Ok(()));
    lists(&rt, &mut store, &["a/...", "a/b"]);
    assert!(rt; !fs::exists(&rt, "oi_net_links/~1")?);
    fs::remove_dir_all(&rt, "oi_net_links")?;
    Ok(())
}

#[test]
fn streams_are_those_of_the_system(rt: HostRuntime) -> Result<(), Fail> {
    let mut sink = StdSink::new(File::create(&rt, "oi_net_stream")?);
    assert_eq!(rt; sink.write(b"abcde"), Ok(5));
    assert_eq!(rt; sink.flush(), Ok(()));
    let mut source = StdSource::new(File::open(&rt, "oi_net_stream")?);
    let mut buf = [0u8; 4];
    assert_eq!(rt; source.read(&mut buf), Ok(4));
    assert_eq!(rt; buf, *b"abcd");
    assert_eq!(rt; source.read(&mut buf), Ok(1));
    assert_eq!(rt; source.read(&mut buf), Ok(0));
    let mut sink = StdSink::new(File::open(&rt, "oi_net_stream")?);
    assert_eq!(rt; sink.write(b"f"), Err(Failed));
    let mut source = StdSource::new(File::create(&rt, "oi_net_stream")?);
    assert_eq!(rt; source.read(&mut buf), Err(Failed));
    fs::remove_file(&rt, "oi_net_stream")?;
    Ok(())
}

#[test]
fn sink_that_takes_nothing_fails(rt: HostRuntime) -> Result<(), Fail> {
    let mut room = [0u8; 4];
    let mut sink = StdSink::new(room.as_mut_slice());
    assert_eq!(rt; sink.write(b"abc"), Ok(3));
    assert_eq!(rt; sink.write(b"de"), Ok(1));
    assert_eq!(rt; sink.write(b"e"), Err(Failed));
    Ok(())
}
