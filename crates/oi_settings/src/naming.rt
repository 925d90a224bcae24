ghost use Rattle.std.specs.Prelude.{◌≡◌, ◌≤◌, Some, IfOk};
ghost use Rattle.oi_base.specs.Decimal.{IsNumber, IsNumberOf};
ghost use Rattle.oi_names.specs.Names.{IsName};
ghost use Rattle.oi_names.specs.Portals.{IsAddress, lower_case};
ghost use Rattle.oi_settings.specs.Keys.{IsKey};
ghost use Rattle.oi_settings.specs.Pairs.{value_of};
ghost use Rattle.oi_settings.specs.Schema.{IsPart, table};
ghost use Rattle.oi_settings.specs.Texts.{ArePairs, IsKeyOf, part_name};

use crate::key::RecordKey;
use crate::range::read_address;
use crate::schema::Part;
use crate::settings::Settings;
use oi_base::{Label, NoMemory, read_number};
use oi_names::{IscsiName, NameFault, Portal};
use std::alloc::Global;

/// The key that the settings name.
pub fn key_of(alloc: Global, settings: &Settings) -> Result<RecordKey, NoMemory>
    requires { ArePairs table settings.now }
    ensures { IfOk result (λ k. IsKey k × IsKeyOf settings.now k) }
{
    let target = target_of(alloc, text_of(settings, Part::Target))?;
    let tag = tag_of(text_of(settings, Part::Tag));
    let address = address_of(alloc, text_of(settings, Part::Address))?;
    let port = port_of(text_of(settings, Part::Port));
    let iface = Label::from_slice(alloc, text_of(settings, Part::Interface))?;
    Ok(RecordKey {
        target,
        portal: Portal { address, port },
        tag,
        iface,
    })
}

fn text_of(settings: &Settings, part: Part) -> &[u8]
    requires { ArePairs table settings.now }
    ensures value { value_of (part_name part) settings.now ≡ Some result.now }
    ensures part { IsPart part result.now }
{
    settings.value(name_of(part)).unwrap().as_slice()
}

fn name_of(part: Part) -> &'static [u8]
    ensures { result.now ≡ part_name part }
{
    match part {
        Part::Target => b"node.name",
        Part::Tag => b"node.tpgt",
        Part::Address => b"node.conn[0].address",
        Part::Port => b"node.conn[0].port",
        Part::Interface => b"iface.iscsi_ifacename",
    }
}

fn target_of(alloc: Global, text: &[u8]) -> Result<IscsiName, NoMemory>
    requires { IsName text.now }
    ensures { IfOk result (λ n. n ≡ text.now) }
{
    match IscsiName::read_bytes(alloc, text) {
        Ok(name) => Ok(name),
        Err(NameFault::Bad { place: _ }) => unreachable!(),
        Err(NameFault::Memory) => Err(NoMemory),
    }
}

fn address_of(alloc: Global, text: &[u8]) -> Result<Label, NoMemory>
    requires { IsAddress text.now }
    ensures { IfOk result (λ a. a ≡ lower_case text.now) }
{
    match read_address(alloc, text) {
        Ok(Some(address)) => Ok(address),
        Ok(None) => unreachable!(),
        Err(fault) => Err(fault),
    }
}

fn tag_of(text: &[u8]) -> u16
    requires { IsNumber 0 65535 text.now }
    ensures { IsNumberOf text.now result }
{
    read_number(text, 0, 65_535).unwrap() as u16
}

fn port_of(text: &[u8]) -> u16
    requires { IsNumber 1 65535 text.now }
    ensures number { IsNumberOf text.now result }
    ensures some { 1 ≤ result }
{
    read_number(text, 1, 65_535).unwrap() as u16
}
