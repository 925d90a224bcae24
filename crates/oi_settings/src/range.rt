ghost use Rattle.std.specs.Prelude.{◌≡◌, ◌↔◌, IsTrue, IfOk, MatchOption, map};
ghost use Rattle.std.specs.List.{list_all};
ghost use Rattle.oi_base.specs.Decimal.{IsNumber};
ghost use Rattle.oi_names.specs.Names.{IsName};
ghost use Rattle.oi_names.specs.Portals.{IsAddress, lower_case};
ghost use Rattle.oi_settings.specs.Schema.{IsIn, IsPart, IsWord, Takes, is_credential_byte, row_of, table};

use crate::schema::{Part, Range, Schema, Setting, setting_named, settings_of};
use oi_base::{Label, NoMemory, read_number};
use oi_names::{IscsiName, NameFault, Portal, is_iface_name};
use std::alloc::Global;

/// Whether a name may have the value: one of its range where the name is that of a setting, else any.
pub fn takes_value(alloc: Global, name: &[u8], value: &[u8]) -> Result<bool, NoMemory>
    ensures { IfOk result (λ b. IsTrue b ↔ Takes table name.now value.now) }
{
    takes(alloc, settings_of(Schema::Second), name, value)
}

/// The same among these settings.
pub fn takes(
    alloc: Global,
    settings: &[Setting],
    name: &[u8],
    value: &[u8],
) -> Result<bool, NoMemory>
    ensures { IfOk result (λ b. IsTrue b ↔ Takes (map row_of settings.now) name.now value.now) }
{
    match setting_named(name, settings) {
        Some(setting) => is_in(alloc, setting.range, value),
        None => Ok(true),
    }
}

fn is_in(alloc: Global, range: Range, value: &[u8]) -> Result<bool, NoMemory>
    ensures { IfOk result (λ b. IsTrue b ↔ IsIn range value.now) }
{
    match range {
        Range::OfKey(part) => is_part(alloc, part, value),
        Range::Number { low, high } => Ok(is_number(value, low, high)),
        Range::NumberOrNever { high } => Ok(is_number_or_never(value, high)),
        Range::YesNo => Ok(is_yes_or_no(value)),
        Range::Startup => Ok(is_word(value, b"manual", b"automatic")),
        Range::Method => Ok(is_word(value, b"None", b"CHAP")),
        Range::Credential => Ok(is_credential(value)),
    }
}

fn is_part(alloc: Global, part: Part, value: &[u8]) -> Result<bool, NoMemory>
    ensures { IfOk result (λ b. IsTrue b ↔ IsPart part value.now) }
{
    match part {
        Part::Target => is_name(alloc, value),
        Part::Tag => Ok(is_number(value, 0, 65_535)),
        Part::Address => is_address(alloc, value),
        Part::Port => Ok(is_number(value, 1, 65_535)),
        Part::Interface => Ok(is_iface_name(value)),
    }
}

fn is_name(alloc: Global, text: &[u8]) -> Result<bool, NoMemory>
    ensures { IfOk result (λ b. IsTrue b ↔ IsName text.now) }
{
    let Err(fault) = IscsiName::read_bytes(alloc, text) else {
        return Ok(true);
    };
    match fault {
        NameFault::Bad { place: _ } => Ok(false),
        NameFault::Memory => Err(NoMemory),
    }
}

fn is_address(alloc: Global, text: &[u8]) -> Result<bool, NoMemory>
    ensures { IfOk result (λ b. IsTrue b ↔ IsAddress text.now) }
{
    match read_address(alloc, text) {
        Ok(Some(_)) => Ok(true),
        Ok(None) => Ok(false),
        Err(fault) => Err(fault),
    }
}

/// The address that the text is, in lower case. None where it is none, also where a port or a tag stands behind it.
pub fn read_address(alloc: Global, text: &[u8]) -> Result<Option<Label>, NoMemory>
    ensures { IfOk result (λ o. MatchOption o (IsAddress text.now → ⊥) (λ l. IsAddress text.now × (l ≡ lower_case text.now))) }
{
    let (portal, tag) = match Portal::read_bytes(alloc, text) {
        Ok(read) => read,
        Err(NameFault::Bad { place: _ }) => return Ok(None),
        Err(NameFault::Memory) => return Err(NoMemory),
    };
    if tag.is_some() {
        return Ok(None);
    }
    if portal.address.as_slice().len() != text.len() {
        return Ok(None);
    }
    let Portal { address, port: _ } = portal;
    Ok(Some(address))
}

fn is_number(value: &[u8], low: u32, high: u32) -> bool
    ensures { IsTrue result ↔ IsNumber low high value.now }
{
    read_number(value, low as u64, high as u64).is_some()
}

fn is_number_or_never(value: &[u8], high: u32) -> bool
    ensures { IsTrue result ↔ IsIn (Range.NumberOrNever high) value.now }
{
    value == b"-1".as_slice() || is_number(value, 0, high)
}

/// Whether the value is `Yes` or `No`.
pub fn is_yes_or_no(value: &[u8]) -> bool
    ensures { IsTrue result ↔ IsIn Range.YesNo value.now }
{
    is_word(value, b"Yes", b"No")
}

fn is_word(value: &[u8], first: &[u8], second: &[u8]) -> bool
    ensures { IsTrue result ↔ IsWord first.now second.now value.now }
{
    value == first || value == second
}

fn is_credential(value: &[u8]) -> bool
    ensures { IsTrue result ↔ IsIn Range.Credential value.now }
{
    value.len() <= 255 && are_credential_bytes(value)
}

fn are_credential_bytes(value: &[u8]) -> bool
    ensures { result ≡ list_all is_credential_byte value.now }
{
    value.iter().all(|byte| *byte != 0 && *byte != b'\n')
}
