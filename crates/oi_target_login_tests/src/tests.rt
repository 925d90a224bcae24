use oi_base::{Blob, Label, Mutual};
use oi_chap::{Purpose, chap_challenge, chap_response, words_for};
use oi_names::{IscsiName, Portal};
use oi_pdu::{Pdu, read_pdu};
use oi_target_login::*;
use oi_text::write_binary;
use rand_chacha::ChaCha20Rng;
use std::alloc::Global;
use std::process::Abort;
use std::test::Fail;

const FIRST: &[u8] =
    b"InitiatorName=iqn.2024-01.org.example:initiator\0SessionType=Normal\0TargetName=iqn.2024-01.org.example:d1\0AuthMethod=None\0";

const WITH_CHAP: &[u8] =
    b"InitiatorName=iqn.2024-01.org.example:initiator\0SessionType=Normal\0TargetName=iqn.2024-01.org.example:d1\0AuthMethod=CHAP\0";

const DISCOVERY: &[u8] = b"InitiatorName=i\0SessionType=Discovery\0AuthMethod=None\0";

const OFFER: &[u8] =
    b"InitialR2T=No\0ImmediateData=Yes\0MaxBurstLength=16776192\0FirstBurstLength=262144\0DefaultTime2Wait=2\0DefaultTime2Retain=0\0MaxOutstandingR2T=1\0MaxConnections=1\0ErrorRecoveryLevel=0\0DataPDUInOrder=Yes\0DataSequenceInOrder=Yes\0HeaderDigest=None\0DataDigest=None\0MaxRecvDataSegmentLength=262144\0";

const ANSWERS: &[u8] =
    b"InitialR2T=Yes\0ImmediateData=Yes\0MaxBurstLength=262144\0FirstBurstLength=65536\0DefaultTime2Wait=2\0DefaultTime2Retain=0\0MaxOutstandingR2T=1\0MaxConnections=1\0ErrorRecoveryLevel=0\0DataPDUInOrder=Yes\0DataSequenceInOrder=Yes\0HeaderDigest=None\0DataDigest=None\0MaxRecvDataSegmentLength=65536\0";

const NOTHING: &[u8] = b"";

const KEY: u64 = 7;

fn rules(alloc: Global, chap: Option<ChapConfig>) -> Result<LoginRules, Fail> {
    Ok(LoginRules {
        name: IscsiName::read(alloc, "iqn.2024-01.org.example:d1")?,
        tag: 1,
        chap,
        moved: None,
    })
}

fn asking(alloc: Global) -> Result<Option<ChapConfig>, Fail> {
    let mutual = Mutual {
        user: Label::from_slice(alloc, b"bob")?,
        secret: Blob::from_slice(alloc, b"bcdefghijklm")?,
    };
    Ok(Some(ChapConfig {
        user: Label::from_slice(alloc, b"alice")?,
        secret: Blob::from_slice(alloc, b"secretsecret1")?,
        mutual: Some(mutual),
        key: KEY,
    }))
}

// A PDU with these first two bytes and this text; its ISID and CmdSN are 1.
fn request(alloc: Global, first: u8, flags: u8, text: &[u8]) -> Result<Pdu, Fail> {
    let head = [
        first, flags, 0, 0, 0, 0, 0, 0, 0x80, 0, 0, 0, 0, 1, 0, 0, 0, 0, 0, 0, 0, 0, 0, 0, 0, 0, 0,
        1, 0, 0, 0, 0, 0, 0, 0, 0, 0, 0, 0, 0, 0, 0, 0, 0, 0, 0, 0, 0,
    ];
    Ok(Pdu {
        head: read_pdu(&head)?,
        payload: Blob::from_slice(alloc, text)?,
    })
}

// A Login Response with this byte 1, TSIH, StatSN, status class and detail, and text.
fn response(
    alloc: Global,
    (flags, handle, stat): (u8, u8, u8),
    (class, detail): (u8, u8),
    text: &[u8],
) -> Result<Vec<u8>, Fail> {
    let [high, low] = u16::try_from(text.len())?.to_be_bytes();
    let mut bytes = Vec::from_slice(
        alloc,
        &[
            0x23, flags, 0, 0, 0, 0, high, low, 0x80, 0, 0, 0, 0, 1, 0, handle, 0, 0, 0, 0, 0, 0,
            0, 0, 0, 0, 0, stat, 0, 0, 0, 1, 0, 0, 0, 32, class, detail, 0, 0, 0, 0, 0, 0, 0, 0, 0,
            0,
        ],
    )?;
    bytes.extend_from_slice(text)?;
    for _ in 0..(4 - text.len() % 4) % 4 {
        bytes.push(0)?;
    }
    Ok(bytes)
}

#[derive(Debug, Drop)]
struct Bench {
    alloc: Global,
    rules: LoginRules,
    login: TargetLogin,
    words: ChaCha20Rng,
    out: Vec<u8>,
}

impl Bench {
    fn new(alloc: Global, rules: LoginRules) -> Bench {
        Bench {
            alloc,
            rules,
            login: TargetLogin::new(alloc),
            words: words_for(KEY, Purpose::TargetChallenges),
            out: Vec::new(alloc),
        }
    }

    // What becomes of a PDU, for the session handle 5.
    fn meets(&mut self, first: u8, flags: u8, text: &[u8]) -> Result<Verdict, Fail> {
        let pdu = request(self.alloc, first, flags, text)?;
        self.out.clear();
        let verdict = self
            .login
            .serve(&self.rules, 5, &mut self.words, &pdu, &mut self.out)?;
        Ok(verdict)
    }

    // A Login Request with this byte 1 and text is answered so.
    fn says(
        &mut self,
        rt: &impl Abort,
        (flags, text): (u8, &[u8]),
        wanted: &[u8],
    ) -> Result<Verdict, Fail> {
        let verdict = self.meets(0x43, flags, text)?;
        assert_eq!(rt; self.out.as_slice(), wanted);
        Ok(verdict)
    }

    fn status(&self) -> Option<(u8, u8)> {
        Some((*self.out.get(36)?, *self.out.get(37)?))
    }
}

#[test]
fn a_login_without_authentication(rt: HostRuntime) -> Result<(), Fail> {
    let a = rt.alloc();
    let mut bench = Bench::new(a, rules(a, None)?);
    let text = b"TargetPortalGroupTag=1\0AuthMethod=None\0";
    let wanted = response(a, (0x81, 0, 1), (0, 0), text)?;
    bench.says(&rt, (0x81, FIRST), &wanted)?;
    let wanted = response(a, (0x87, 5, 2), (0, 0), ANSWERS)?;
    let Verdict::Done(session) = bench.says(&rt, (0x87, OFFER), &wanted)? else {
        panic!(rt; "no session");
    };
    assert_eq!(rt; (session.stat.0, session.exp.0), (3, 1));
    assert_eq!(rt; session.params.max_send, 262_144);
    assert!(rt; !session.who.discovers);
    Ok(())
}

#[test]
fn a_discovery_needs_no_authentication(rt: HostRuntime) -> Result<(), Fail> {
    let a = rt.alloc();
    let mut bench = Bench::new(a, rules(a, asking(a)?)?);
    let wanted = response(a, (0x81, 0, 1), (0, 0), b"AuthMethod=None\0")?;
    bench.says(&rt, (0x81, DISCOVERY), &wanted)?;
    let text = b"MaxRecvDataSegmentLength=65536\0";
    let wanted = response(a, (0x87, 5, 2), (0, 0), text)?;
    let Verdict::Done(session) = bench.says(&rt, (0x87, NOTHING), &wanted)? else {
        panic!(rt; "no session");
    };
    assert!(rt; session.who.discovers);
    Ok(())
}

// A login at a target with CHAP that was challenged.
fn challenged(rt: &impl Abort, a: Global) -> Result<Bench, Fail> {
    let mut bench = Bench::new(a, rules(a, asking(a)?)?);
    let text = b"TargetPortalGroupTag=1\0AuthMethod=CHAP\0";
    let wanted = response(a, (0, 0, 1), (0, 0), text)?;
    bench.says(rt, (0, WITH_CHAP), &wanted)?;
    bench.meets(0x43, 0, b"CHAP_A=7,5\0")?;
    Ok(bench)
}

// The text with which an initiator answers the first challenge, and challenges the target in turn.
fn answer_text(alloc: Global, secret: &[u8]) -> Result<Vec<u8>, Fail> {
    let mut words = words_for(KEY, Purpose::TargetChallenges);
    let (id, challenge) = chap_challenge(&mut words);
    let response = chap_response(id, secret, challenge.as_slice());
    let mut text = Vec::from_slice(alloc, b"CHAP_N=alice\0CHAP_R=")?;
    write_binary(response.as_slice(), &mut text)?;
    text.extend_from_slice(b"\0CHAP_I=97\0CHAP_C=0x6e6f707172737475767778797a\0")?;
    Ok(text)
}

// RFC 1994, section 4.1: both sides show who they are. The target's response is the digest of the alphabet (RFC 1321): of `a`,
// `bcdefghijklm` and `nopqrstuvwxyz`.
#[test]
fn mutual_authentication(rt: HostRuntime) -> Result<(), Fail> {
    let a = rt.alloc();
    let mut bench = challenged(&rt, a)?;
    let text = answer_text(a, b"secretsecret1")?;
    let wanted = response(
        a,
        (0x81, 0, 3),
        (0, 0),
        b"CHAP_N=bob\0CHAP_R=0xc3fcd3d76192e4007dfb496cca67e13b\0",
    )?;
    bench.says(&rt, (0x81, text.as_slice()), &wanted)?;
    let Verdict::Done(_session) = bench.meets(0x43, 0x87, NOTHING)? else {
        panic!(rt; "no session");
    };
    Ok(())
}

#[test]
fn a_wrong_response(rt: HostRuntime) -> Result<(), Fail> {
    let a = rt.alloc();
    let mut bench = challenged(&rt, a)?;
    let text = answer_text(a, b"secretsecret2")?;
    let wanted = response(a, (0, 0, 3), (2, 1), NOTHING)?;
    bench.says(&rt, (0x81, text.as_slice()), &wanted)?;
    let wanted = response(a, (0x04, 0, 4), (2, 7), NOTHING)?;
    bench.says(&rt, (0x87, NOTHING), &wanted)?;
    Ok(())
}

// The status of the response to a first request.
fn first_status(
    a: Global,
    chap: Option<ChapConfig>,
    flags: u8,
    text: &[u8],
) -> Result<Option<(u8, u8)>, Fail> {
    let mut bench = Bench::new(a, rules(a, chap)?);
    bench.meets(0x43, flags, text)?;
    Ok(bench.status())
}

// What a target with CHAP, and one without, answers to a first request.
#[test]
fn first_requests(rt: HostRuntime) -> Result<(), Fail> {
    let a = rt.alloc();
    for (flags, text, asked, free) in [
        (0x81, FIRST, (2, 1), (0, 0)),
        (0x87, FIRST, (2, 1), (0, 0)),
        (
            0x81,
            b"InitiatorName=i\0TargetName=iqn.2024-01.org.example:d2\0".as_slice(),
            (2, 3),
            (2, 3),
        ),
        (0x81, b"InitiatorName=i\0".as_slice(), (2, 7), (2, 7)),
        (
            0x81,
            b"TargetName=iqn.2024-01.org.example:d1\0".as_slice(),
            (2, 7),
            (2, 7),
        ),
        (
            0x81,
            b"InitiatorName=i\0SessionType=Other\0".as_slice(),
            (2, 9),
            (2, 9),
        ),
        (0x80, FIRST, (2, 0), (2, 0)),
        (0x84, FIRST, (2, 0), (2, 0)),
        (0x0c, FIRST, (2, 0), (2, 0)),
        (
            0x87,
            b"InitiatorName=i\0SessionType=Discovery\0MaxBurstLength=7\0".as_slice(),
            (2, 0),
            (2, 0),
        ),
        (
            0x87,
            b"InitiatorName=i\0SessionType=Discovery\0MaxBurstLength=512\0MaxBurstLength=512\0".as_slice(),
            (2, 0),
            (2, 0),
        ),
        (
            0x81,
            b"InitiatorName=i\0TargetName=iqn.2024-01.org.example:d1\0AuthMethod=None\0MaxBurstLength=7\0".as_slice(),
            (2, 1),
            (2, 0),
        ),
        (0x40, NOTHING, (0, 0), (0, 0)),
    ] {
        assert_eq!(rt; first_status(a, asking(a)?, flags, text)?, Some(asked));
        assert_eq!(rt; first_status(a, None, flags, text)?, Some(free));
    }
    Ok(())
}

// A NOP-Out, and a text that is no list of pairs.
#[test]
fn what_closes_a_login(rt: HostRuntime) -> Result<(), Fail> {
    let a = rt.alloc();
    for (first, text) in [(0x40, NOTHING), (0x43, b"InitiatorName=i".as_slice())] {
        let mut bench = Bench::new(a, rules(a, None)?);
        assert_eq!(rt; bench.meets(first, 0x81, text)?, Verdict::Closed);
        assert!(rt; bench.out.is_empty());
    }
    Ok(())
}

#[test]
fn a_target_that_has_moved(rt: HostRuntime) -> Result<(), Fail> {
    let a = rt.alloc();
    let (portal, _) = Portal::read(a, "127.0.0.1:3261")?;
    let mut rules = rules(a, asking(a)?)?;
    rules.moved = Some(Moved { portal, detail: 2 });
    let mut bench = Bench::new(a, rules);
    let wanted = response(a, (0, 0, 1), (1, 2), b"TargetAddress=127.0.0.1:3261\0")?;
    bench.says(&rt, (0x81, NOTHING), &wanted)?;
    let wanted = response(a, (0x81, 0, 2), (0, 0), b"AuthMethod=None\0")?;
    bench.says(&rt, (0x81, DISCOVERY), &wanted)?;
    Ok(())
}
