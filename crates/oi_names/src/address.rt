ghost use Rattle.std.specs.Prelude.{◌≡◌, ◌≤◌, ◌+◌, ◌^◌, ◌<◌, ℕ, List, length};
ghost use Rattle.std.specs.List.{prefix_len};
ghost use Rattle.oi_base.specs.Decimal.{IsNumber};
ghost use Rattle.oi_names.specs.Grammars.{IsJoined, IsRun};
ghost use Rattle.oi_names.specs.Portals.{IsAddress, IsBracketed, IsDotted, IsEmpty, is_inner};
ghost use Rattle.oi_names.specs.Reaches.{IsReach};

use crate::reach::{Reach, after, behind, common, further};
use oi_base::number_place;

pub fn number_reach(text: &[u8], low: u64, high: u64) -> Reach
    requires low { low ≤ 1 }
    requires some { low ≤ high }
    ensures { IsReach (IsNumber low high) text.now result }
{
    let place = number_place(text, low, high);
    Reach {
        place,
        whole: 0 < place,
    }
}

fn octet_reach(text: &[u8]) -> Reach
    ensures { IsReach (IsNumber 0 255) text.now result }
{
    number_reach(text, 0, 255)
}

// Numbers with so many dots between them.
fn dotted_reach(text: &[u8], dots: u8) -> Reach
    ensures { IsReach (IsDotted dots) text.now result }
{
    let octet = octet_reach(text);
    if dots == 0 {
        return octet;
    }
    match behind(text, octet, b'.') {
        Some(rest) => {
            let more = dotted_reach(rest, dots - 1);
            Reach {
                place: octet.place + 1 + more.place,
                whole: more.whole,
            }
        }
        None => Reach {
            place: octet.place,
            whole: false,
        },
    }
}

fn is_inner(byte: u8) -> bool
    ensures { result ≡ is_inner byte }
{
    matches!(byte, b'0'..=b'9' | b'a'..=b'f' | b'A'..=b'F' | b':')
}

fn inner_bytes(text: &[u8]) -> usize
    ensures { result ≡ prefix_len is_inner text.now }
{
    text.iter().take_while(|byte| is_inner(**byte)).count()
}

fn inner_reach(text: &[u8]) -> Reach
    ensures { IsReach (IsRun is_inner 2 39) text.now result }
{
    let bytes = inner_bytes(text);
    Reach {
        place: bytes.min(39),
        whole: 2 <= bytes,
    }
}

// What follows the opening bracket.
fn closed_reach(text: &[u8]) -> Reach
    ensures { IsReach (IsJoined (IsRun is_inner 2 39) 93 IsEmpty) text.now result }
{
    let inner = inner_reach(text);
    match behind(text, inner, b']') {
        Some(_) => Reach {
            place: inner.place + 1,
            whole: true,
        },
        None => Reach {
            place: inner.place,
            whole: false,
        },
    }
}

fn bracketed_reach(text: &[u8]) -> Reach
    ensures { IsReach IsBracketed text.now result }
{
    let bracket = common(text, b"[");
    if bracket < 1 {
        return Reach {
            place: 0,
            whole: false,
        };
    }
    let closed = closed_reach(after(text, 1));
    Reach {
        place: 1 + closed.place,
        whole: closed.whole,
    }
}

pub fn address_reach(text: &[u8]) -> Reach
    ensures { IsReach IsAddress text.now result }
{
    let dotted = dotted_reach(text, 3);
    let bracketed = bracketed_reach(text);
    further(dotted, bracketed)
}
