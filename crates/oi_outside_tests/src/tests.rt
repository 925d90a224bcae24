use oi_base::{Blob, NoMemory, Series};
use oi_outside::*;
use std::alloc::Global;
use std::process::Abort;
use std::test::Fail;

#[test]
fn source_gives_its_bytes(rt: HostRuntime) -> Result<(), Fail> {
    let bytes = Blob::from_slice(rt.alloc(), b"abcdef")?;
    let fails = Series::from_vec(vec![in rt.alloc(); 1u64]?);
    let mut source = MemSource::new(bytes, fails);
    let mut buf = [0u8; 4];
    assert_eq!(rt; source.read(&mut buf), Ok(4));
    assert_eq!(rt; buf, *b"abcd");
    assert_eq!(rt; source.read(&mut buf), Err(Failed));
    assert_eq!(rt; source.read(&mut buf), Ok(2));
    assert_eq!(rt; buf, *b"efcd");
    assert_eq!(rt; source.read(&mut buf), Ok(0));
    Ok(())
}

#[test]
fn sink_takes_what_it_has_room_for(rt: HostRuntime) -> Result<(), Fail> {
    let fails = Series::from_vec(vec![in rt.alloc(); 0u64, 4]?);
    let mut sink = MemSink::new(rt.alloc(), 4, fails)?;
    assert_eq!(rt; sink.write(b"abc"), Err(Failed));
    assert_eq!(rt; sink.write(b"abc"), Ok(3));
    assert_eq!(rt; sink.write(b"def"), Ok(1));
    assert_eq!(rt; sink.flush(), Ok(()));
    assert_eq!(rt; sink.flush(), Err(Failed));
    assert_eq!(rt; sink.write(b"ef"), Err(Failed));
    assert_eq!(rt; sink.held(), b"abcd".as_slice());
    Ok(())
}

fn store_failing_at(alloc: Global, calls: Vec<u64>) -> MemStore {
    MemStore::new(alloc, Series::from_vec(calls))
}

// What `read` answers, as bytes.
fn reads(rt: &impl Abort, store: &mut MemStore, path: &str, text: &[u8]) {
    match store.read(path) {
        Ok(Some(found)) => assert_eq!(rt; found.as_slice(), text),
        _ => panic!(rt; "no text"),
    }
}

fn lists(rt: &impl Abort, store: &mut MemStore, paths: &[&[u8]]) {
    match store.list() {
        Ok(found) => {
            assert_eq!(rt; found.as_slice().len(), paths.len());
            for (path, wanted) in found.as_slice().iter().zip(paths) {
                assert_eq!(rt; path.as_slice(), *wanted);
            }
        }
        Err(_) => panic!(rt; "no list"),
    }
}

#[test]
fn store_lists_paths_in_the_order_of_their_bytes(rt: HostRuntime) -> Result<(), Fail> {
    let mut store = store_failing_at(rt.alloc(), Vec::new(rt.alloc()));
    lists(&rt, &mut store, &[]);
    assert_eq!(rt; store.write_whole("n/\u{e9}", b""), Ok(()));
    assert_eq!(rt; store.write_whole("n/b", b""), Ok(()));
    assert_eq!(rt; store.write_whole("n/Z", b""), Ok(()));
    assert_eq!(rt; store.write_whole("n", b""), Ok(()));
    lists(&rt, &mut store, &[b"n", b"n/Z", b"n/b", b"n/\xc3\xa9"]);
    Ok(())
}

#[test]
fn store_keeps_texts_by_path(rt: HostRuntime) -> Result<(), Fail> {
    let mut store = store_failing_at(rt.alloc(), Vec::new(rt.alloc()));
    assert_eq!(rt; store.write_whole("n/b", b"one"), Ok(()));
    assert_eq!(rt; store.write_whole("n", b"\0\xff"), Ok(()));
    assert_eq!(rt; store.write_whole("n/b", b"three"), Ok(()));
    reads(&rt, &mut store, "n/b", b"three");
    reads(&rt, &mut store, "n", b"\0\xff");
    assert_eq!(rt; store.read("n/"), Ok(None));
    assert_eq!(rt; store.remove("n/b"), Ok(true));
    assert_eq!(rt; store.remove("n/b"), Ok(false));
    assert_eq!(rt; store.text_at("n/b"), None);
    assert_eq!(rt; store.text_at("n"), Some(b"\0\xff".as_slice()));
    Ok(())
}

#[test]
fn store_fails_where_listed(rt: HostRuntime) -> Result<(), Fail> {
    let mut store = store_failing_at(rt.alloc(), vec![in rt.alloc(); 0u64, 2, 3, 4, 5]?);
    assert_eq!(rt; store.write_whole("a", b"one"), Err(StoreError::Failed));
    assert_eq!(rt; store.write_whole("a", b"two"), Ok(()));
    assert_eq!(rt; store.write_whole("a", b"three"), Err(StoreError::Failed));
    assert_eq!(rt; store.remove("a"), Err(StoreError::Failed));
    assert_eq!(rt; store.read("a"), Err(StoreError::Failed));
    assert!(rt; store.list().is_err());
    reads(&rt, &mut store, "a", b"two");
    assert_eq!(rt; store.text_at("b"), None);
    Ok(())
}

fn moves<R: RecordStore>(store: &mut R, from: &str, to: &str) -> Result<bool, StoreError> {
    let Some(text) = store.read(from)? else {
        return Ok(false);
    };
    store.write_whole(to, text.as_slice())?;
    store.remove(from)
}

#[test]
fn store_is_reached_through_its_trait(rt: HostRuntime) -> Result<(), Fail> {
    let mut store = store_failing_at(rt.alloc(), vec![in rt.alloc(); 3u64]?);
    assert_eq!(rt; store.write_whole("a", b"one"), Ok(()));
    assert_eq!(rt; moves(&mut store, "b", "c"), Ok(false));
    assert_eq!(rt; moves(&mut store, "a", "b"), Err(StoreError::Failed));
    assert_eq!(rt; moves(&mut store, "a", "b"), Ok(true));
    lists(&rt, &mut store, &[b"b"]);
    Ok(())
}

#[test]
fn store_faults_are_told(rt: HostRuntime) -> Result<(), Fail> {
    assert_eq!(rt;
        format!(in rt.alloc(); "{}", StoreError::Failed)?.as_str(),
        "the store failed"
    );
    assert_eq!(rt;
        format!(in rt.alloc(); "{}", StoreError::from(NoMemory))?.as_str(),
        "out of memory"
    );
    Ok(())
}
