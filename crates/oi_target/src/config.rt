use oi_base::Series;
use oi_names::{IscsiName, Portal};
use oi_sendtargets::Found;
use oi_target_login::{ChapConfig, Moved};

/// What a test target is.
#[derive(Debug, Drop)]
pub struct TargetConfig {
    pub name: IscsiName,
    /// Where it listens.
    pub portal: Portal,
    /// The portal group tag.
    pub tag: u16,
    /// The sizes of its logical units in blocks of 512 bytes.
    pub blocks: Series<u32>,
    /// CHAP, which normal logins are asked for; None where nobody has to show who it is.
    pub chap: Option<ChapConfig>,
    /// What a discovery is told.
    pub listing: Series<Found>,
    /// Where normal logins are sent; None where the target is here.
    pub moved: Option<Moved>,
}
