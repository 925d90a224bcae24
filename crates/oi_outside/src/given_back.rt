use crate::link_name::LinkName;

/// A link that was given back, under its name. Contracts alone read a list of these.
#[derive(Drop)]
pub struct GivenBack<R, W> {
    pub link: LinkName,
    pub read: R,
    pub write: W,
}
