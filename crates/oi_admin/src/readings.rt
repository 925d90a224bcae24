ghost use Rattle.std.specs.Prelude.{◌≡◌};
ghost use Rattle.oi_admin.specs.Commands.{AsksIface, AsksName, HasIface, IsFilter};
ghost use Rattle.oi_admin.specs.Readings.{AsksPlace, IsIfaceOf, IsNameOf, IsPlaceOf, IsReadBy};

use oi_base::Label;
use oi_names::{IscsiName, NameFault, Portal, is_iface_name};
use oi_nodedb::Filter;
use oi_words::{Options, WordsFault};
use std::alloc::Global;

/// The name that an option gives.
pub fn read_name(alloc: Global, text: &Label) -> Result<IscsiName, WordsFault>
    ensures { IsReadBy (IsNameOf text.now) result }
{
    match IscsiName::read_bytes(alloc, text.as_slice()) {
        Ok(name) => Ok(name),
        Err(NameFault::Bad { place: _ }) => Err(WordsFault::Invalid),
        Err(NameFault::Memory) => Err(WordsFault::Memory),
    }
}

/// The portal that an option gives, and its portal group tag.
pub fn read_portal(alloc: Global, text: &Label) -> Result<(Portal, Option<u16>), WordsFault>
    ensures { IsReadBy (IsPlaceOf text.now) result }
{
    match Portal::read_bytes(alloc, text.as_slice()) {
        Ok(place) => Ok(place),
        Err(NameFault::Bad { place: _ }) => Err(WordsFault::Invalid),
        Err(NameFault::Memory) => Err(WordsFault::Memory),
    }
}

fn read_iface(alloc: Global, text: &Label) -> Result<Label, WordsFault>
    ensures { IsReadBy (IsIfaceOf text.now) result }
{
    if !is_iface_name(text.as_slice()) {
        return Err(WordsFault::Invalid);
    }
    match text.copy(alloc) {
        Ok(iface) => Ok(iface),
        Err(_) => Err(WordsFault::Memory),
    }
}

/// The interface of a new record.
pub fn iface_of(alloc: Global, given: &Option<Label>) -> Result<Label, WordsFault>
    ensures { IsReadBy (HasIface given.now) result }
{
    match given {
        Some(text) => read_iface(alloc, text),
        None => match Label::from_slice(alloc, b"default") {
            Ok(iface) => Ok(iface),
            Err(_) => Err(WordsFault::Memory),
        },
    }
}

fn asked_name(alloc: Global, given: &Option<Label>) -> Result<Option<IscsiName>, WordsFault>
    ensures { IsReadBy (AsksName given.now) result }
{
    match given {
        Some(text) => match read_name(alloc, text) {
            Ok(name) => Ok(Some(name)),
            Err(fault) => Err(fault),
        },
        None => Ok(None),
    }
}

fn asked_portal(
    alloc: Global,
    given: &Option<Label>,
) -> Result<(Option<Portal>, Option<u16>), WordsFault>
    ensures { IsReadBy (AsksPlace given.now) result }
{
    match given {
        Some(text) => match read_portal(alloc, text) {
            Ok((portal, tag)) => Ok((Some(portal), tag)),
            Err(fault) => Err(fault),
        },
        None => Ok((None, None)),
    }
}

fn asked_iface(alloc: Global, given: &Option<Label>) -> Result<Option<Label>, WordsFault>
    ensures { IsReadBy (AsksIface given.now) result }
{
    match given {
        Some(text) => match read_iface(alloc, text) {
            Ok(iface) => Ok(Some(iface)),
            Err(fault) => Err(fault),
        },
        None => Ok(None),
    }
}

/// Which records the options mean.
pub fn read_filter(alloc: Global, options: &Options) -> Result<Filter, WordsFault>
    ensures { IsReadBy (IsFilter options.now) result }
{
    let target = match asked_name(alloc, &options.target) {
        Ok(target) => target,
        Err(fault) => return Err(fault),
    };
    let (portal, tag) = match asked_portal(alloc, &options.portal) {
        Ok(place) => place,
        Err(fault) => return Err(fault),
    };
    match asked_iface(alloc, &options.iface) {
        Ok(iface) => Ok(Filter {
            target,
            portal,
            tag,
            iface,
        }),
        Err(fault) => Err(fault),
    }
}
