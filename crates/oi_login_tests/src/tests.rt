ghost use Rattle.std.specs.Prelude.{◌≡◌, IfOk, None, Some};
ghost use Rattle.oi_login.specs.Configs.{IsValidAuth, IsValidMutual};

use oi_base::{Blob, Label, LoginDone, Mutual, Params};
use oi_login::*;
use oi_names::{IscsiName, Portal};
use oi_negotiate::Offer;
use oi_pdu::{Header, Pdu, read_pdu, write_pdu};
use std::alloc::Global;
use std::process::Abort;
use std::test::Fail;

const FIRST: &[u8] =
    b"InitiatorName=iqn.2024-01.org.example:initiator\0SessionType=Normal\0TargetName=iqn.2024-01.org.example:d1\0AuthMethod=None\0";

const OFFER: &[u8] =
    b"InitialR2T=No\0ImmediateData=Yes\0MaxBurstLength=16776192\0FirstBurstLength=262144\0DefaultTime2Wait=2\0DefaultTime2Retain=0\0MaxOutstandingR2T=1\0MaxConnections=1\0ErrorRecoveryLevel=0\0DataPDUInOrder=Yes\0DataSequenceInOrder=Yes\0HeaderDigest=None\0DataDigest=None\0MaxRecvDataSegmentLength=262144\0";

const NOTHING: &[u8] = b"";

fn settings(alloc: Global, auth: Option<LoginAuth>) -> Result<LoginConfig, Fail>
    ensures { IfOk result (λ c. c.auth ≡ auth) }
{
    Ok(LoginConfig {
        initiator: IscsiName::read(alloc, "iqn.2024-01.org.example:initiator")?,
        target: Some(IscsiName::read(alloc, "iqn.2024-01.org.example:d1")?),
        isid: [0x80, 0, 0, 0, 0, 1],
        auth,
        offer: Offer::standard(),
    })
}

// A response with this byte 1, status class and detail, and StatSN; its MaxCmdSN is 32 and its TSIH 5.
fn response(
    alloc: Global,
    flags: u8,
    status: (u8, u8),
    stat: u8,
    text: &[u8],
) -> Result<Pdu, Fail> {
    let mut bytes = [0u8; 48];
    bytes[0] = 0x23;
    bytes[1] = flags;
    bytes[15] = 5;
    bytes[27] = stat;
    bytes[31] = 1;
    bytes[35] = 32;
    bytes[36] = status.0;
    bytes[37] = status.1;
    Ok(Pdu {
        head: read_pdu(&bytes)?,
        payload: Blob::from_slice(alloc, text)?,
    })
}

// The machine answers a response with a request that has this byte 1, ExpStatSN and text.
fn sends(
    rt: &impl Abort,
    alloc: Global,
    login: &mut Login,
    response: &Pdu,
    (flags, exp_stat): (u8, u8),
    text: &[u8],
) -> Result<(), Fail> {
    let Ok(LoginStep::Send(request)) = login.next(response) else {
        panic!(rt; "no request");
    };
    assert_eq!(rt; request.payload.as_slice(), text);
    let mut bytes = Vec::new(alloc);
    write_pdu(&request, &mut bytes)?;
    assert!(rt; 48 <= bytes.len());
    assert_eq!(rt; (bytes[0], bytes[1], bytes[31]), (0x43, flags, exp_stat));
    Ok(())
}

// The same of a response without a status, of which these are byte 1, StatSN and text.
fn answers(
    rt: &impl Abort,
    a: Global,
    login: &mut Login,
    (flags, stat): (u8, u8),
    text: &[u8],
    sent: (u8, u8),
    answer: &[u8],
) -> Result<(), Fail> {
    let given = response(a, flags, (0, 0), stat, text)?;
    sends(rt, a, login, &given, sent, answer)
}

fn fails(rt: &impl Abort, login: &mut Login, response: &Pdu, fault: LoginFault) {
    assert_eq!(rt; login.next(response), Err(fault));
    assert_eq!(rt; login.next(response), Err(LoginFault::Over));
}

// A login without authentication whose first request was sent.
fn begun(a: Global) -> Result<Login, Fail> {
    let config = settings(a, None)?;
    let (login, _) = Login::start(a, config)?;
    Ok(login)
}

static FIRST_HEADER: [u8; 48] = [
    0x43, 0x81, 0, 0, 0, 0, 0, 0x79, 0x80, 0, 0, 0, 0, 1, 0, 0, 0, 0, 0, 0, 0, 0, 0, 0, 0, 0, 0, 1,
    0, 0, 0, 0, 0, 0, 0, 0, 0, 0, 0, 0, 0, 0, 0, 0, 0, 0, 0, 0,
];

fn first_bytes(a: Global) -> Result<Vec<u8>, Fail> {
    let mut bytes = Vec::from_slice(a, &FIRST_HEADER)?;
    bytes.extend_from_slice(FIRST)?;
    bytes.extend_from_slice(&[0, 0, 0])?;
    Ok(bytes)
}

#[test]
fn first_login_request(rt: HostRuntime) -> Result<(), Fail> {
    let a = rt.alloc();
    let wanted = first_bytes(a)?;
    let config = settings(a, None)?;
    let (_login, request) = Login::start(a, config)?;
    let mut bytes = Vec::new(a);
    write_pdu(&request, &mut bytes)?;
    assert_eq!(rt; bytes, wanted);
    Ok(())
}

// A login of which the security stage is through.
fn offered(rt: &impl Abort, a: Global) -> Result<Login, Fail> {
    let mut login = begun(a)?;
    answers(rt, a, &mut login, (0x81, 7), NOTHING, (0x87, 8), OFFER)?;
    Ok(login)
}

const DONE: LoginDone = LoginDone {
    params: Params {
        initial_r2t: false,
        immediate: true,
        max_send: 65_536,
        max_recv: 262_144,
        max_burst: 262_144,
        first_burst: 65_536,
        outstanding: 1,
        time2wait: 2,
        time2retain: 20,
    },
    tsih: 5,
    cmdsn: 1,
    max: 32,
    exp_stat: 9,
};

#[test]
fn login_reaches_full_feature_phase(rt: HostRuntime) -> Result<(), Fail> {
    let a = rt.alloc();
    let mut login = offered(&rt, a)?;
    let text = b"InitialR2T=No\0MaxRecvDataSegmentLength=65536\0";
    let last = response(a, 0x87, (0, 0), 8, text)?;
    assert_eq!(rt; login.next(&last), Ok(LoginStep::Done(DONE)));
    assert_eq!(rt; login.next(&last), Err(LoginFault::Over));
    Ok(())
}

// A login that made its offer fails with this fault.
fn offer_fails(
    rt: &impl Abort,
    a: Global,
    flags: u8,
    status: (u8, u8),
    text: &[u8],
    fault: LoginFault,
) -> Result<(), Fail> {
    let mut login = offered(rt, a)?;
    let refused = response(a, flags, status, 8, text)?;
    fails(rt, &mut login, &refused, fault);
    Ok(())
}

#[test]
fn refused_logins(rt: HostRuntime) -> Result<(), Fail> {
    let a = rt.alloc();
    let status = LoginFault::Status {
        class: 2,
        detail: 3,
    };
    offer_fails(&rt, a, 0x87, (2, 3), NOTHING, status)?;
    offer_fails(&rt, a, 0x81, (0, 0), NOTHING, LoginFault::WrongStage)?;
    offer_fails(&rt, a, 0x85, (0, 0), NOTHING, LoginFault::WrongStage)
}

fn key_fails(rt: &impl Abort, a: Global, text: &[u8], key: &[u8]) -> Result<(), Fail> {
    let key = Label::from_slice(a, key)?;
    offer_fails(rt, a, 0x87, (0, 0), text, LoginFault::Key { key })
}

#[test]
fn refused_keys(rt: HostRuntime) -> Result<(), Fail> {
    let a = rt.alloc();
    let text = b"InitialR2T=No\0HeaderDigest=CRC32C\0";
    key_fails(&rt, a, text, b"HeaderDigest")?;
    key_fails(&rt, a, b"InitialR2T=No", b"")
}

// The digest of the alphabet (RFC 1321): of `a`, `bcdefghijklm` and `nopqrstuvwxyz` for this initiator, and of `a`, `bcdefghij`
// and `klmnopqrstuvwxyz` for the target.
fn alice(a: Global, wanted: Option<Mutual>) -> Result<Option<LoginAuth>, Fail>
    requires { IsValidMutual wanted }
    ensures { IfOk result (λ auth. IsValidAuth auth) }
{
    Ok(Some(LoginAuth {
        user: Label::from_slice(a, b"alice")?,
        secret: Blob::from_slice(a, b"bcdefghijklm")?,
        mutual: wanted,
        id: 0x61,
        challenge: *b"klmnopqrstuvwxyz",
    }))
}

fn bob(a: Global) -> Result<Option<Mutual>, Fail>
    ensures { IfOk result (λ m. IsValidMutual m) }
{
    Ok(Some(Mutual {
        user: Label::from_slice(a, b"bob")?,
        secret: Blob::from_slice(a, b"bcdefghij")?,
    }))
}

const CHALLENGE: &[u8] = b"CHAP_A=5\0CHAP_I=97\0CHAP_C=0x6e6f707172737475767778797a\0";

const RESPONSE: &[u8] = b"CHAP_N=alice\0CHAP_R=0xc3fcd3d76192e4007dfb496cca67e13b\0";

const BOTH: &[u8] =
    b"CHAP_N=alice\0CHAP_R=0xc3fcd3d76192e4007dfb496cca67e13b\0CHAP_I=97\0CHAP_C=0x6b6c6d6e6f707172737475767778797a\0";

// A login whose first request offers CHAP.
fn opened(rt: &impl Abort, a: Global, wanted: Option<Mutual>) -> Result<Login, Fail>
    requires { IsValidMutual wanted }
{
    let auth = alice(a, wanted)?;
    let config = settings(a, auth)?;
    let (login, request) = Login::start(a, config)?;
    let Header::LoginRequest(head) = request.head else {
        panic!(rt; "no Login Request");
    };
    assert_eq!(rt; (head.transit, head.csg, head.nsg), (false, 0, 0));
    assert!(rt; request.payload.as_slice().ends_with(b"AuthMethod=CHAP\0"));
    Ok(login)
}

// A login that waits for the target's challenge.
fn named(rt: &impl Abort, a: Global, wanted: Option<Mutual>) -> Result<Login, Fail>
    requires { IsValidMutual wanted }
{
    let mut login = opened(rt, a, wanted)?;
    let text = b"AuthMethod=CHAP\0";
    answers(rt, a, &mut login, (0, 1), text, (0, 2), b"CHAP_A=5\0")?;
    Ok(login)
}

// A login with mutual CHAP that waits for the target's response.
fn challenged(rt: &impl Abort, a: Global) -> Result<Login, Fail> {
    let wanted = bob(a)?;
    let mut login = named(rt, a, wanted)?;
    answers(rt, a, &mut login, (0, 2), CHALLENGE, (0x81, 3), BOTH)?;
    Ok(login)
}

fn opening_fails(
    rt: &impl Abort,
    a: Global,
    flags: u8,
    text: &[u8],
    fault: LoginFault,
) -> Result<(), Fail> {
    let mut login = opened(rt, a, None)?;
    let given = response(a, flags, (0, 0), 1, text)?;
    fails(rt, &mut login, &given, fault);
    Ok(())
}

fn challenge_fails(rt: &impl Abort, a: Global, text: &[u8]) -> Result<(), Fail> {
    let mut login = named(rt, a, None)?;
    let given = response(a, 0, (0, 0), 2, text)?;
    fails(rt, &mut login, &given, LoginFault::Auth);
    Ok(())
}

fn challenge_passes(rt: &impl Abort, a: Global, text: &[u8]) -> Result<(), Fail> {
    let mut login = named(rt, a, None)?;
    answers(rt, a, &mut login, (0, 2), text, (0x81, 3), RESPONSE)?;
    answers(rt, a, &mut login, (0x81, 3), NOTHING, (0x87, 4), OFFER)
}

fn proof_fails(rt: &impl Abort, a: Global, text: &[u8]) -> Result<(), Fail> {
    let mut login = challenged(rt, a)?;
    let given = response(a, 0x81, (0, 0), 3, text)?;
    fails(rt, &mut login, &given, LoginFault::Auth);
    Ok(())
}

fn proof_passes(rt: &impl Abort, a: Global, text: &[u8]) -> Result<(), Fail> {
    let mut login = challenged(rt, a)?;
    answers(rt, a, &mut login, (0x81, 3), text, (0x87, 4), OFFER)
}

static REFUSED_CHALLENGES: [&[u8]; 4] = [
    b"CHAP_A=7\0CHAP_I=97\0CHAP_C=0x6e\0",
    b"CHAP_A=5\0CHAP_I=256\0CHAP_C=0x6e\0",
    b"CHAP_A=5\0CHAP_I=97\0CHAP_C=0x\0",
    b"CHAP_A=5\0CHAP_I=97\0CHAP_C=0x6e\0CHAP_I=97\0",
];

#[test]
fn chap_refusals(rt: HostRuntime) -> Result<(), Fail> {
    for text in &REFUSED_CHALLENGES {
        challenge_fails(&rt, rt.alloc(), *text)?;
    }
    Ok(())
}

#[test]
fn chap_forms(rt: HostRuntime) -> Result<(), Fail> {
    let a = rt.alloc();
    challenge_passes(&rt, a, CHALLENGE)?;
    let forms = b"CHAP_A=0x5\0CHAP_I=0x61\0CHAP_C=0bbm9wcXJzdHV2d3h5eg==\0";
    challenge_passes(&rt, a, forms)
}

static REFUSED_OFFERS: [&[u8]; 3] = [
    b"AuthMethod=None\0",
    NOTHING,
    b"AuthMethod=CHAP\0AuthMethod=CHAP\0",
];

#[test]
fn offers_of_chap(rt: HostRuntime) -> Result<(), Fail> {
    let a = rt.alloc();
    for text in &REFUSED_OFFERS {
        opening_fails(&rt, a, 0, *text, LoginFault::Auth)?;
    }
    opening_fails(&rt, a, 0x81, b"AuthMethod=CHAP\0", LoginFault::WrongStage)
}

static REFUSED_PROOFS: [&[u8]; 3] = [
    b"CHAP_N=bob\0CHAP_R=0xc3fcd3d76192e4007dfb496cca67e13c\0",
    b"CHAP_R=0xc3fcd3d76192e4007dfb496cca67e13b\0",
    b"CHAP_N=bobo\0CHAP_R=0xc3fcd3d76192e4007dfb496cca67e13b\0",
];

static PROOFS: [&[u8]; 2] = [
    b"CHAP_N=bob\0CHAP_R=0xC3FCD3D76192E4007DFB496CCA67E13B\0",
    b"CHAP_N=bob\0CHAP_R=0bw/zT12GS5AB9+0lsymfhOw==\0",
];

#[test]
fn responses_of_the_target(rt: HostRuntime) -> Result<(), Fail> {
    for text in &REFUSED_PROOFS {
        proof_fails(&rt, rt.alloc(), *text)?;
    }
    for text in &PROOFS {
        proof_passes(&rt, rt.alloc(), *text)?;
    }
    Ok(())
}

#[test]
fn refused_secret(rt: HostRuntime) -> Result<(), Fail> {
    let a = rt.alloc();
    let mut login = named(&rt, a, None)?;
    let refused = response(a, 0, (2, 1), 2, NOTHING)?;
    let status = LoginFault::Status {
        class: 2,
        detail: 1,
    };
    fails(&rt, &mut login, &refused, status);
    Ok(())
}

#[test]
fn chap_where_it_was_not_offered(rt: HostRuntime) -> Result<(), Fail> {
    let a = rt.alloc();
    let mut login = begun(a)?;
    let chap = response(a, 0x81, (0, 0), 1, b"AuthMethod=CHAP\0")?;
    fails(&rt, &mut login, &chap, LoginFault::Auth);
    Ok(())
}

#[test]
fn no_login_response(rt: HostRuntime) -> Result<(), Fail> {
    let a = rt.alloc();
    let (mut login, request) = Login::start(a, settings(a, None)?)?;
    fails(&rt, &mut login, &request, LoginFault::WrongStage);
    Ok(())
}

fn joined(rt: &impl Abort, a: Global) -> Result<Login, Fail> {
    let mut login = offered(rt, a)?;
    answers(rt, a, &mut login, (0xc7, 8), b"Initial", (0x04, 9), NOTHING)?;
    let more = b"R2T=No\0MaxBurst";
    answers(rt, a, &mut login, (0x44, 9), more, (0x04, 10), NOTHING)?;
    let end = b"Length=512\0";
    answers(rt, a, &mut login, (0x04, 10), end, (0x87, 11), NOTHING)?;
    Ok(login)
}

// The text of three responses, of which the first two have the C bit, and the first one the T bit too.
#[test]
fn joined_text(rt: HostRuntime) -> Result<(), Fail> {
    let a = rt.alloc();
    let mut login = joined(&rt, a)?;
    let last = response(a, 0x87, (0, 0), 11, NOTHING)?;
    let Ok(LoginStep::Done(done)) = login.next(&last) else {
        panic!(rt; "not done");
    };
    assert_eq!(rt;
        (done.params.initial_r2t, done.params.max_burst),
        (false, 512)
    );
    Ok(())
}

// Takes so many empty responses, each of which is answered by an empty request.
fn idles(rt: &impl Abort, a: Global, login: &mut Login, count: u8) -> Result<(), Fail> {
    let empty = response(a, 0, (0, 0), 1, NOTHING)?;
    for _ in 0..count {
        sends(rt, a, login, &empty, (0x81, 2), NOTHING)?;
    }
    Ok(())
}

fn last_fails(rt: &impl Abort, a: Global, flags: u8) -> Result<(), Fail> {
    let mut login = begun(a)?;
    idles(rt, a, &mut login, 31)?;
    let last = response(a, flags, (0, 0), 1, NOTHING)?;
    fails(rt, &mut login, &last, LoginFault::TooManyTurns);
    Ok(())
}

#[test]
fn thirty_two_turns(rt: HostRuntime) -> Result<(), Fail> {
    let a = rt.alloc();
    last_fails(&rt, a, 0)?;
    last_fails(&rt, a, 0x40)?;
    last_fails(&rt, a, 0x81)
}

#[test]
fn done_in_32_turns(rt: HostRuntime) -> Result<(), Fail> {
    let a = rt.alloc();
    let mut login = begun(a)?;
    idles(&rt, a, &mut login, 30)?;
    answers(&rt, a, &mut login, (0x81, 1), NOTHING, (0x87, 2), OFFER)?;
    let last = response(a, 0x87, (0, 0), 2, NOTHING)?;
    assert!(rt; login.next(&last).is_ok());
    Ok(())
}

// Pairs of 4,096 bytes each, and some bytes of one more.
fn long_text(a: Global, pairs: u8, more: u8) -> Result<Vec<u8>, Fail> {
    let mut text = Vec::new(a);
    for _ in 0..pairs {
        text.extend_from_slice(b"CHAP_N=")?;
        for _ in 0..4088 {
            text.push(b'n')?;
        }
        text.push(0)?;
    }
    for _ in 0..more {
        text.push(b'n')?;
    }
    Ok(text)
}

// A first response with this byte 1 and the long text.
fn long_response(a: Global, flags: u8, pairs: u8, more: u8) -> Result<Pdu, Fail> {
    let text = long_text(a, pairs, more)?;
    response(a, flags, (0, 0), 1, text.as_slice())
}

#[test]
fn text_of_65536_bytes(rt: HostRuntime) -> Result<(), Fail> {
    let a = rt.alloc();
    let mut login = begun(a)?;
    let whole = long_response(a, 0, 16, 0)?;
    sends(&rt, a, &mut login, &whole, (0x81, 2), NOTHING)?;
    let long = long_response(a, 0, 16, 1)?;
    fails(&rt, &mut login, &long, LoginFault::TooManyTurns);
    Ok(())
}

#[test]
fn joined_text_of_65537_bytes(rt: HostRuntime) -> Result<(), Fail> {
    let a = rt.alloc();
    let mut login = begun(a)?;
    let part = long_response(a, 0x40, 16, 0)?;
    sends(&rt, a, &mut login, &part, (0, 2), NOTHING)?;
    let more = response(a, 0x40, (0, 0), 2, b"n")?;
    fails(&rt, &mut login, &more, LoginFault::TooManyTurns);
    Ok(())
}

fn portal(a: Global, address: &[u8], port: u16) -> Result<Portal, Fail> {
    let address = Label::from_slice(a, address)?;
    Ok(Portal { address, port })
}

fn moves(rt: &impl Abort, a: Global, text: &[u8], address: &[u8], port: u16) -> Result<(), Fail> {
    let mut login = begun(a)?;
    let given = response(a, 0, (1, 2), 1, text)?;
    let portal = portal(a, address, port)?;
    fails(rt, &mut login, &given, LoginFault::Moved { portal });
    Ok(())
}

fn stays(rt: &impl Abort, a: Global, text: &[u8]) -> Result<(), Fail> {
    let mut login = begun(a)?;
    let given = response(a, 0, (1, 2), 1, text)?;
    let status = LoginFault::Status {
        class: 1,
        detail: 2,
    };
    fails(rt, &mut login, &given, status);
    Ok(())
}

// Texts that name no portal.
static STAYS: [&[u8]; 3] = [
    NOTHING,
    b"TargetAddress=127.0.0.1:3261",
    b"TargetAddress=host:3261\0TargetAddress=127.0.0.1:3261\0",
];

#[test]
fn redirections(rt: HostRuntime) -> Result<(), Fail> {
    let a = rt.alloc();
    let text = b"TargetAddress=127.0.0.1:3261,1\0";
    moves(&rt, a, text, b"127.0.0.1", 3261)?;
    let text = b"TargetAlias=t\0TargetAddress=[FE80::1]\0TargetAddress=?\0";
    moves(&rt, a, text, b"[fe80::1]", 3260)?;
    for text in &STAYS {
        stays(&rt, a, *text)?;
    }
    Ok(())
}

#[test]
fn joined_redirection(rt: HostRuntime) -> Result<(), Fail> {
    let a = rt.alloc();
    let mut login = begun(a)?;
    answers(
        &rt,
        a,
        &mut login,
        (0x40, 1),
        b"TargetAddr",
        (0, 2),
        NOTHING,
    )?;
    let moved = response(a, 0x87, (1, 1), 2, b"ess=10.0.0.1:7\0")?;
    let portal = portal(a, b"10.0.0.1", 7)?;
    fails(&rt, &mut login, &moved, LoginFault::Moved { portal });
    Ok(())
}

fn offer_and(a: Global, more: &[u8]) -> Result<Vec<u8>, Fail> {
    let mut text = Vec::from_slice(a, OFFER)?;
    text.extend_from_slice(more)?;
    Ok(text)
}

#[test]
fn keys_not_understood(rt: HostRuntime) -> Result<(), Fail> {
    let a = rt.alloc();
    let both = offer_and(a, b"x=NotUnderstood\0")?;
    let mut login = begun(a)?;
    let text = b"X-a=1\0TargetAlias=t\0Y=\0X-a=1\0TargetPortalGroupTag=1\0";
    let answer = b"X-a=NotUnderstood\0Y=NotUnderstood\0X-a=NotUnderstood\0";
    answers(&rt, a, &mut login, (0, 1), text, (0x81, 2), answer)?;
    answers(
        &rt,
        a,
        &mut login,
        (0x81, 2),
        b"x=y\0",
        (0x87, 3),
        both.as_slice(),
    )?;
    answers(&rt, a, &mut login, (0x04, 3), NOTHING, (0x87, 4), NOTHING)
}

const DISCOVERY: &[u8] =
    b"InitiatorName=iqn.2024-01.org.example:initiator\0SessionType=Discovery\0AuthMethod=None\0";

const DISCOVERY_OFFER: &[u8] =
    b"HeaderDigest=None\0DataDigest=None\0MaxRecvDataSegmentLength=262144\0";

fn discovery(a: Global) -> Result<LoginConfig, Fail>
    ensures { IfOk result (λ c. c.auth ≡ None) }
{
    let mut config = settings(a, None)?;
    config.target = None;
    config.isid = [0x80, 0, 0, 0, 0, 0];
    Ok(config.copy(a)?)
}

#[test]
fn discovery_login(rt: HostRuntime) -> Result<(), Fail> {
    let a = rt.alloc();
    let (mut login, request) = Login::start(a, discovery(a)?)?;
    assert_eq!(rt; request.payload.as_slice(), DISCOVERY);
    let text = b"AuthMethod=None\0";
    answers(
        &rt,
        a,
        &mut login,
        (0x81, 1),
        text,
        (0x87, 2),
        DISCOVERY_OFFER,
    )
}
