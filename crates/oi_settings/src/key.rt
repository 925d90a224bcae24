ghost use Rattle.std.specs.Prelude.{◌≡◌, IfOk};
ghost use Rattle.std.specs.Ordering.{as_partial_cmp, eq_by_cmp};
ghost use Rattle.std.specs.Cmp.{partial_order_from_total};
ghost use Rattle.std.proofs.Common.{rules};
ghost use Rattle.oi_settings.specs.KeyOrder.{key_equiv, key_per, key_total};
ghost use Rattle.oi_names.specs.Names.{IsIface};
ghost use Rattle.oi_settings.specs.Keys.{IsRead, key_cmp, path_text};

use oi_base::{Label, NoMemory, write_number};
use oi_names::{IscsiName, Portal};
use std::alloc::Global;
use std::cmp::Ordering;
use std::marker::Model;

/// Which record it is: a target at a portal, through an interface. A key holds only what can be read: the portal of some
/// text, and the name of an interface, which `is_iface_name` tests.
#[derive(Debug, Drop)]
pub struct RecordKey {
    pub target: IscsiName,
    pub portal: Portal,
    /// The portal group tag.
    pub tag: u16,
    pub iface: Label,
}

impl Model for RecordKey {
    ghost use Rattle.oi_settings.specs.Keys.{Key, IsKey};

    ghost Value = { Key };

    ghost view = { λ k. record { target = k.target; portal = k.portal; tag = k.tag; iface = k.iface } };

    ghost invariant = { λ k. IsKey record { target = k.target; portal = k.portal; tag = k.tag; iface = k.iface } };
}

/// Keys are ordered by the bytes of the target, those of the address, the port, the tag, and the bytes of the interface.
impl Ord for RecordKey {
    ghost cmp = { key_cmp };

    ghost total = { key_total };

    ghost matches_partial_cmp = { Prim.search rules };

    ghost matches_eq = { Prim.search rules };

    fn cmp(&self, other: &RecordKey) -> Ordering {
        let target = self.target.as_slice().cmp(&other.target.as_slice());
        let address = self
            .portal
            .address
            .as_slice()
            .cmp(&other.portal.address.as_slice());
        let port = self.portal.port.cmp(&other.portal.port);
        let tag = self.tag.cmp(&other.tag);
        let iface = self.iface.as_slice().cmp(&other.iface.as_slice());
        target.then(address.then(port.then(tag.then(iface))))
    }
}

impl PartialOrd for RecordKey {
    ghost partial_cmp = { as_partial_cmp key_cmp };

    ghost laws = { partial_order_from_total key_total };

    fn partial_cmp(&self, other: &RecordKey) -> Option<Ordering> {
        Some(self.cmp(other))
    }
}

impl PartialEq for RecordKey {
    ghost eq = { eq_by_cmp key_cmp };

    ghost laws = { key_per };

    fn eq(&self, other: &RecordKey) -> bool {
        self.cmp(other) == Ordering::Equal
    }
}

impl Eq for RecordKey {
    ghost laws = { key_equiv };
}

impl RecordKey {
    /// The key of these parts.
    pub fn new(target: IscsiName, portal: Portal, tag: u16, iface: Label) -> RecordKey
        requires portal { IsRead portal }
        requires iface { IsIface iface }
        ensures { result ≡ record { target = target; portal = portal; tag = tag; iface = iface } }
    {
        RecordKey {
            target,
            portal,
            tag,
            iface,
        }
    }

    pub fn copy(&self, alloc: Global) -> Result<RecordKey, NoMemory>
        ensures { IfOk result (λ k. k ≡ self.now) }
    {
        Ok(RecordKey {
            target: self.target.copy(alloc)?,
            portal: self.portal.copy(alloc)?,
            tag: self.tag,
            iface: self.iface.copy(alloc)?,
        })
    }
}

/// The path under which the text of the record is stored: `nodes/TARGET/ADDRESS,PORT,TAG/IFACE`.
pub fn path_of(alloc: Global, key: &RecordKey) -> Result<Label, NoMemory>
    ensures { IfOk result (λ p. p ≡ path_text key.now) }
{
    let mut path = Vec::from_slice(alloc, b"nodes/")?;
    path.extend_from_slice(key.target.as_slice())?;
    path.push(b'/')?;
    path.extend_from_slice(key.portal.address.as_slice())?;
    path.push(b',')?;
    write_number(key.portal.port as u64, &mut path)?;
    path.push(b',')?;
    write_number(key.tag as u64, &mut path)?;
    path.push(b'/')?;
    path.extend_from_slice(key.iface.as_slice())?;
    Ok(Label::from_vec(path))
}
