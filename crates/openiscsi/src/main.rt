//! `openiscsi`: the initiator over the standard streams and a folder of records.
#![tactic(auto)]

use oi_net::{FolderStore, StdSink, StdSource};
use oi_top::iscsi_main;
use std::io::ErrorKind;
use std::path::PathBuf;
use std::process::ExitCode;
use std::{env, io};

const WANT_OF_MEMORY: u8 = 3;

fn words(rt: &HostRuntime) -> io::Result<Vec<String>> {
    let mut words = Vec::new(rt.alloc());
    for word in env::args(rt)?.skip(1) {
        words.push(word)?;
    }
    Ok(words)
}

// The program's words. Where they are no texts they are none of the program's, as if there were none.
fn own_words(rt: &HostRuntime) -> io::Result<Vec<String>> {
    match words(rt) {
        Err(e) if e.kind() != ErrorKind::OutOfMemory => Ok(Vec::new(rt.alloc())),
        words => words,
    }
}

// The folder that the first word names.
fn folder(rt: &HostRuntime, words: &[String]) -> io::Result<PathBuf> {
    match words.first() {
        Some(word) => Ok(PathBuf::from_str(rt.alloc(), word.as_str())?),
        None => Ok(PathBuf::new(rt.alloc())),
    }
}

fn main(rt: HostRuntime) -> ExitCode {
    let Ok(words) = own_words(&rt) else {
        return ExitCode::from(WANT_OF_MEMORY);
    };
    let Ok(folder) = folder(&rt, &words) else {
        return ExitCode::from(WANT_OF_MEMORY);
    };
    let mut source = StdSource::new(rt.reader());
    let mut sink = StdSink::new(io::writer(&rt));
    let mut store = FolderStore::at(rt, folder);
    let ended = iscsi_main(rt.alloc(), &words, &mut source, &mut sink, &mut store);
    ExitCode::from(ended.status)
}
