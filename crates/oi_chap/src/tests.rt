use super::*;

// RFC 1321's digest of the alphabet, with the identifier as its first letter.
#[test]
fn responses(rt: HostRuntime) {
    let secret = b"bcdefghijklm".as_slice();
    let challenge = b"nopqrstuvwxyz".as_slice();
    let response = [
        0xc3, 0xfc, 0xd3, 0xd7, 0x61, 0x92, 0xe4, 0x00, 0x7d, 0xfb, 0x49, 0x6c, 0xca, 0x67, 0xe1,
        0x3b,
    ];
    assert_eq!(rt; chap_response(0x61, secret, challenge), response);
    for (id, given, right) in [
        (0x61, response.as_slice(), true),
        (0x62, response.as_slice(), false),
        (0x61, response.as_slice().split_at(15).0, false),
        (0x61, b"".as_slice(), false),
    ] {
        assert_eq!(rt; chap_check(id, secret, challenge, given), right);
    }
}

// The published key streams for the key zero, with the nonces 0 and 1 (draft-agl-tls-chacha20poly1305), and two that another
// implementation computed.
#[test]
fn challenges(rt: HostRuntime) {
    for (number, purpose, id, challenge) in [
        (
            0,
            Purpose::Requests,
            0x76,
            [
                0x90, 0x3d, 0xf1, 0xa0, 0xe5, 0x6a, 0x5d, 0x40, 0x28, 0xbd, 0x86, 0x53, 0xb8, 0x19,
                0xd2, 0xbd,
            ],
        ),
        (
            0,
            Purpose::InitiatorChallenges,
            0xef,
            [
                0xfb, 0x78, 0x15, 0xc6, 0xbd, 0x35, 0xcf, 0xf5, 0x80, 0x3b, 0xd3, 0x3d, 0x34, 0x16,
                0x63, 0x09,
            ],
        ),
        (
            0x0102_0304_0506_0708,
            Purpose::InitiatorChallenges,
            0x4b,
            [
                0xd0, 0xd1, 0xfa, 0x3e, 0x13, 0xc8, 0x6b, 0xd0, 0xb0, 0xb1, 0x15, 0x80, 0x52, 0xa8,
                0x4e, 0x4e,
            ],
        ),
        (
            7,
            Purpose::TargetChallenges,
            0xd9,
            [
                0x97, 0x5c, 0x51, 0x5c, 0xd7, 0x67, 0xc1, 0xd7, 0x37, 0x6e, 0x18, 0xe8, 0x3d, 0xa4,
                0xfb, 0x7e,
            ],
        ),
    ] {
        let mut words = words_for(number, purpose);
        assert_eq!(rt; chap_challenge(&mut words), (id, challenge), "{number}");
    }
    let mut words = words_for(0, Purpose::Requests);
    let _first = chap_challenge(&mut words);
    let (id, _) = chap_challenge(&mut words);
    assert_eq!(rt; id, 0xa0);
}
