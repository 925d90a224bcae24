ghost use Rattle.std.specs.Prelude.{◌≡◌, ◌==◌, bytes_eq};
ghost use Rattle.oi_nodedb.specs.Filters.{is_portal, meets};

use oi_base::Label;
use oi_names::{IscsiName, Portal};
use oi_settings::RecordKey;

/// Which records a command means: those whose key has each part that is asked for.
#[derive(Debug, PartialEq, Eq, Drop)]
pub struct Filter {
    pub target: Option<IscsiName>,
    pub portal: Option<Portal>,
    /// The portal group tag.
    pub tag: Option<u16>,
    pub iface: Option<Label>,
}

impl Filter {
    ghost use Rattle.std.specs.Prelude.{◌≡◌, None};
    ghost use Rattle.oi_nodedb.specs.Filters.{matches};

    /// The filter that asks for nothing, and so means every record.
    pub fn any() -> Filter
        ensures { result ≡ record { target = None; portal = None; tag = None; iface = None } }
    {
        Filter {
            target: None,
            portal: None,
            tag: None,
            iface: None,
        }
    }

    /// Whether the key is one of those that are meant.
    pub fn matches(&self, key: &RecordKey) -> bool
        ensures { result ≡ matches self.now key.now }
    {
        meets_target(&self.target, &key.target)
            && meets_portal(&self.portal, &key.portal)
            && meets_tag(self.tag, key.tag)
            && meets_iface(&self.iface, &key.iface)
    }
}

fn meets_target(asked: &Option<IscsiName>, target: &IscsiName) -> bool
    ensures { result ≡ meets asked.now (λ t. bytes_eq t target.now) }
{
    match asked {
        Some(asked) => asked.as_slice() == target.as_slice(),
        None => true,
    }
}

fn meets_portal(asked: &Option<Portal>, portal: &Portal) -> bool
    ensures { result ≡ meets asked.now (λ p. is_portal p portal.now) }
{
    match asked {
        Some(asked) => is_portal(asked, portal),
        None => true,
    }
}

fn meets_tag(asked: Option<u16>, tag: u16) -> bool
    ensures { result ≡ meets asked (λ t. t == tag) }
{
    match asked {
        Some(asked) => asked == tag,
        None => true,
    }
}

fn meets_iface(asked: &Option<Label>, iface: &Label) -> bool
    ensures { result ≡ meets asked.now (λ i. bytes_eq i iface.now) }
{
    match asked {
        Some(asked) => asked.as_slice() == iface.as_slice(),
        None => true,
    }
}

/// Whether two portals have the same address, as texts, and the same port.
pub fn is_portal(a: &Portal, b: &Portal) -> bool
    ensures { result ≡ is_portal a.now b.now }
{
    a.address.as_slice() == b.address.as_slice() && a.port == b.port
}
