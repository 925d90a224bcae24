use super::*;
use oi_base::Label;
use std::alloc::Global;
use std::process::Abort;
use std::test::Fail;

fn read(alloc: Global, words: &[&str]) -> Result<Result<Options, WordsFault>, Fail> {
    let mut strings = Vec::new(alloc);
    for word in words {
        strings.push(String::from_str(alloc, *word)?)?;
    }
    Ok(read_options(alloc, &strings))
}

fn gives(rt: &impl Abort, option: &Option<Label>, wanted: &[u8]) {
    match option {
        Some(value) => assert!(rt; value.as_slice() == wanted),
        None => panic!(rt; "no value"),
    }
}

#[test]
fn options_of_words(rt: HostRuntime) -> Result<(), Fail> {
    let alloc = rt.alloc();
    let words: &[&str] = &["-lmnode", "-v", "-1", "-n", "", "-o=", "-p", "-u"];
    match read(alloc, words)? {
        Ok(options) => {
            gives(&rt, &options.mode, b"node");
            gives(&rt, &options.value, b"-1");
            gives(&rt, &options.name, b"");
            gives(&rt, &options.operation, b"=");
            gives(&rt, &options.portal, b"-u");
            assert!(&rt; options.login);
            assert!(&rt; !options.logout);
        }
        Err(_) => panic!(&rt; "refused"),
    }
    Ok(())
}

static REFUSED: [&[&str]; 7] = [
    &["node"],
    &["-m"],
    &["-m", "node", "-mnode"],
    &["-ll"],
    &["--mode=node"],
    &["-x"],
    &["-l\u{e9}"],
];

#[test]
fn refused_words(rt: HostRuntime) -> Result<(), Fail> {
    for words in &REFUSED {
        assert!(&rt; read(rt.alloc(), *words)?.is_err());
    }
    Ok(())
}
