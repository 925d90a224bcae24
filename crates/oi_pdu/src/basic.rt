ghost use Rattle.std.specs.Prelude.{◌≡◌, ◌+◌, ◌≤◌, ◌<◌, length};
ghost use Rattle.oi_pdu.specs.Segments.{basic_at, flag, half, is_set, word, words};

/// What stands at the fixed places of a basic header segment, without its two lengths.
#[derive(Clone, Copy, Debug)]
pub struct BasicHeader {
    /// Byte 0: the I bit and the opcode.
    pub first: u8,
    /// Byte 1.
    pub flags: u8,
    /// Byte 2.
    pub two: u8,
    /// Byte 3.
    pub three: u8,
    /// Bytes 8 to 15.
    pub lun: [u8; 8],
    /// Bytes 16 to 19.
    pub tag: u32,
    pub word20: u32,
    pub word24: u32,
    pub word28: u32,
    /// Bytes 32 to 47.
    pub tail: [u8; 16],
}

/// The number of 32 bits at a place.
pub fn word_at(bytes: &[u8], at: usize) -> u32
    requires { at + 4 ≤ length bytes.now }
    ensures { result ≡ word bytes.now at }
{
    u32::from_be_bytes([bytes[at], bytes[at + 1], bytes[at + 2], bytes[at + 3]])
}

/// The number of 16 bits at a place.
pub fn half_at(bytes: &[u8], at: usize) -> u16
    requires { at + 2 ≤ length bytes.now }
    ensures { result ≡ half bytes.now at }
{
    u16::from_be_bytes([bytes[at], bytes[at + 1]])
}

/// Whether a byte has this bit.
pub fn is_set(byte: u8, mask: u8) -> bool
    requires { 0 < mask }
    ensures { result ≡ is_set byte mask }
{
    byte / mask % 2 == 1
}

/// The bit, where it is set.
pub fn flag(set: bool, mask: u8) -> u8
    ensures value { result ≡ flag set mask }
    ensures most { result ≤ mask }
{
    if set { mask } else { 0 }
}

/// Four numbers of 32 bits.
#[tactic(auto, unfolding(crate::specs::Segments::words))]
pub fn words(a: u32, b: u32, c: u32, d: u32) -> [u8; 16]
    ensures { result ≡ words a b c d }
{
    let [a0, a1, a2, a3] = a.to_be_bytes();
    let [b0, b1, b2, b3] = b.to_be_bytes();
    let [c0, c1, c2, c3] = c.to_be_bytes();
    let [d0, d1, d2, d3] = d.to_be_bytes();
    [
        a0, a1, a2, a3, b0, b1, b2, b3, c0, c1, c2, c3, d0, d1, d2, d3,
    ]
}

/// What stands at the places of a header.
#[tactic(auto, unfolding(crate::specs::Segments::basic_at))]
pub fn basic_of(bytes: &[u8; 48]) -> BasicHeader
    ensures { result ≡ basic_at bytes.now }
{
    let mut lun = [0u8; 8];
    lun.copy_from_slice(&bytes[8..16]);
    let mut tail = [0u8; 16];
    tail.copy_from_slice(&bytes[32..48]);
    BasicHeader {
        first: bytes[0],
        flags: bytes[1],
        two: bytes[2],
        three: bytes[3],
        lun,
        tag: word_at(bytes, 16),
        word20: word_at(bytes, 20),
        word24: word_at(bytes, 24),
        word28: word_at(bytes, 28),
        tail,
    }
}
