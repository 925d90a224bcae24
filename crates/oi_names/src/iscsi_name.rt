ghost use Rattle.std.specs.Prelude.{◌≡◌, ◌≤◌, ◌∷◌, ◌++◌, ◌<◌, ◌+◌, ℕ, List, [], true, IfOk, IfErr, length, take, drop};
ghost use Rattle.std.specs.List.{prefix_len};
ghost use Rattle.oi_names.specs.Grammars.{IsLed};
ghost use Rattle.oi_names.specs.Names.{is_name_byte, IsName, IsNameRest, IsFault};
ghost use Rattle.oi_names.specs.Reaches.{IsReach};

use crate::fault::{NameFault, bad};
use crate::reach::{Reach, after, common, further};
use oi_base::NoMemory;
use std::alloc::Global;
use std::marker::Model;

/// The name of an initiator or a target (RFC 7143, section 4.2.7), which contracts see as the list of its bytes. Names
/// are compared byte by byte.
#[derive(Debug, Drop)]
pub struct IscsiName {
    bytes: Vec<u8>,
}

impl Model for IscsiName {
    ghost use Rattle.std.specs.Prelude.{List, ℕ};
    ghost use Rattle.oi_names.specs.Names.{IsName};

    ghost Value = { List ℕ };

    ghost view = { λ n. n.bytes.items };

    ghost invariant = { λ n. IsName n.bytes.items };
}

impl PartialEq for IscsiName {
    ghost use Rattle.std.specs.Cmp.Lexicographic.{pointwise};
    ghost use Rattle.std.specs.Prelude.{nat_eq};
    ghost use Rattle.std.specs.Cmp.Rules.{comparing};
    ghost use Rattle.std.proofs.Common.{rules};

    ghost eq = { λ a b. pointwise nat_eq a b };

    ghost laws = { Prim.search (comparing, rules) };

    fn eq(&self, other: &IscsiName) -> bool {
        self.bytes == other.bytes
    }
}

impl Eq for IscsiName {
    ghost use Rattle.std.specs.Cmp.Rules.{comparing};
    ghost use Rattle.std.proofs.Common.{rules};

    ghost laws = { Prim.search (comparing, rules) };
}

impl IscsiName {
    /// Reads a name.
    pub fn read(alloc: Global, text: &str) -> Result<IscsiName, NameFault>
        ensures ok { IfOk result (λ n. (n ≡ text.now) × IsName text.now) }
        ensures fault { IfErr result (λ e. IsFault IsName text.now e) }
    {
        IscsiName::read_bytes(alloc, text.as_bytes())
    }

    /// Reads a name from bytes of which it is not known that they are a text.
    pub fn read_bytes(alloc: Global, text: &[u8]) -> Result<IscsiName, NameFault>
        ensures ok { IfOk result (λ n. (n ≡ text.now) × IsName text.now) }
        ensures fault { IfErr result (λ e. IsFault IsName text.now e) }
    {
        let reach = name_reach(text);
        if !reach.whole {
            return Err(bad(reach.place));
        }
        if reach.place != text.len() {
            return Err(bad(reach.place));
        }
        match Vec::from_slice(alloc, text) {
            Ok(bytes) => Ok(IscsiName { bytes }),
            Err(_) => Err(NameFault::Memory),
        }
    }

    pub fn as_slice(&self) -> &[u8]
        ensures bytes { result.now ≡ self.now }
        ensures name { IsName self.now }
    {
        self.bytes.as_slice()
    }

    pub fn copy(&self, alloc: Global) -> Result<IscsiName, NoMemory>
        ensures { IfOk result (λ n. n ≡ self.now) }
    {
        match Vec::from_slice(alloc, self.bytes.as_slice()) {
            Ok(bytes) => Ok(IscsiName { bytes }),
            Err(_) => Err(NoMemory),
        }
    }
}

fn is_name_byte(byte: u8) -> bool
    ensures { result ≡ is_name_byte byte }
{
    matches!(byte, b'a'..=b'z' | b'A'..=b'Z' | b'0'..=b'9' | b'.' | b'-' | b':' | b'_')
}

fn name_bytes(text: &[u8]) -> usize
    ensures { result ≡ prefix_len is_name_byte text.now }
{
    text.iter().take_while(|byte| is_name_byte(**byte)).count()
}

fn name_rest(text: &[u8]) -> Reach
    ensures { IsReach IsNameRest text.now result }
{
    let bytes = name_bytes(text);
    Reach {
        place: bytes.min(219),
        whole: 1 <= bytes,
    }
}

fn typed_name(text: &[u8], head: &[u8]) -> Reach
    ensures { IsReach (IsLed head.now IsNameRest) text.now result }
{
    let same = common(text, head);
    if same < head.len() {
        return Reach {
            place: same,
            whole: false,
        };
    }
    let rest = name_rest(after(text, head.len()));
    Reach {
        place: head.len() + rest.place,
        whole: rest.whole,
    }
}

fn name_reach(text: &[u8]) -> Reach
    ensures { IsReach IsName text.now result }
{
    let iqn = typed_name(text, b"iqn.");
    let eui = typed_name(text, b"eui.");
    let naa = typed_name(text, b"naa.");
    further(iqn, further(eui, naa))
}
