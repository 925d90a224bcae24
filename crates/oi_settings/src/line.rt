ghost use Rattle.std.specs.Prelude.{◌≡◌, ◌≤◌, ◌<◌, ◌++◌, List, ℕ, length, take, drop, IfSome, IfNone, MatchBool, MatchOption, OnOk, OnErr};
ghost use Rattle.std.specs.List.{prefix_len};
ghost use Rattle.oi_settings.specs.Texts.{IsLine, NoLineText, is_name_byte, is_value_byte, line_text};

use oi_base::NoMemory;

/// The first line of a text, taken apart, and what follows it.
#[derive(Clone, Copy)]
pub struct Line<'a> {
    pub name: &'a [u8],
    pub value: &'a [u8],
    pub more: &'a [u8],
}

pub fn first_line(bytes: &[u8]) -> Option<Line<'_>>
    ensures found { IfSome result (λ l. IsLine l.name.now l.value.now × (bytes.now ≡ line_text l.name.now l.value.now ++ l.more.now)) }
    ensures none { IfNone result (NoLineText bytes.now) }
{
    let name = name_length(bytes);
    if name == 0 {
        return None;
    }
    if is_long_name(name) {
        return None;
    }
    let Some(rest) = strip(after(bytes, name), b" = ") else {
        return None;
    };
    let value = value_length(rest);
    if rest.len() <= value {
        return None;
    }
    Some(Line {
        name: before(bytes, name),
        value: before(rest, value),
        more: after(rest, value + 1),
    })
}

/// What follows the front, where the bytes begin with it.
pub fn strip<'a>(bytes: &'a [u8], front: &[u8]) -> Option<&'a [u8]>
    ensures { MatchOption result ((rest : List ℕ) → bytes.now ≡ front.now ++ rest → ⊥) (λ rest. bytes.now ≡ front.now ++ rest.now) }
{
    bytes.strip_prefix(front)
}

fn name_length(bytes: &[u8]) -> usize
    ensures { result ≡ prefix_len is_name_byte bytes.now }
{
    bytes.iter().take_while(|byte| is_name_byte(**byte)).count()
}

fn is_name_byte(byte: u8) -> bool
    ensures { result ≡ is_name_byte byte }
{
    !matches!(byte, b' ' | b'\t' | b'\n')
}

fn is_long_name(length: usize) -> bool
    ensures { MatchBool result (63 < length) (length ≤ 63) }
{
    63 < length
}

fn value_length(bytes: &[u8]) -> usize
    ensures { result ≡ prefix_len is_value_byte bytes.now }
{
    bytes.iter().take_while(|byte| **byte != b'\n').count()
}

fn before(bytes: &[u8], at: usize) -> &[u8]
    requires { at ≤ length bytes.now }
    ensures { result.now ≡ take at bytes.now }
{
    &bytes[..at]
}

fn after(bytes: &[u8], at: usize) -> &[u8]
    requires { at ≤ length bytes.now }
    ensures { result.now ≡ drop at bytes.now }
{
    &bytes[at..]
}

/// Appends `NAME = VALUE` and a line feed; where it fails, a part of them.
pub fn append_line(name: &[u8], value: &[u8], out: &mut Vec<u8>) -> Result<(), NoMemory>
    ensures ok { OnOk result (out.new.items ≡ out.old.items ++ line_text name.now value.now) }
    ensures err { OnErr result ((more : List ℕ) × (out.new.items ≡ out.old.items ++ more)) }
{
    out.extend_from_slice(name)?;
    out.extend_from_slice(b" = ")?;
    out.extend_from_slice(value)?;
    out.push(b'\n')?;
    Ok(())
}
