ghost use Rattle.std.specs.Prelude.{◌≡◌, ◌↔◌, IsTrue, IfOk};
ghost use Rattle.std.specs.List.{list_all};
ghost use Rattle.oi_names.specs.Names.{IsIface, is_iface_byte};

use crate::iscsi_name::IscsiName;
use crate::portal::Portal;
use oi_base::{Label, NoMemory};
use std::alloc::Global;

/// Who a session is: two sessions that live at one time differ in it.
#[derive(Debug, PartialEq, Eq, Drop)]
pub struct SessionKey {
    pub target: IscsiName,
    /// The portal of the record by which the session logs in. It stays when a target sends a login elsewhere.
    pub portal: Portal,
    /// The interface; `is_iface_name` tests its bytes.
    pub iface: Label,
}

impl SessionKey {
    pub fn copy(&self, alloc: Global) -> Result<SessionKey, NoMemory>
        ensures { IfOk result (λ k. k ≡ self.now) }
    {
        Ok(SessionKey {
            target: self.target.copy(alloc)?,
            portal: self.portal.copy(alloc)?,
            iface: self.iface.copy(alloc)?,
        })
    }
}

/// What is told of a living session.
#[derive(Debug, PartialEq, Eq, Drop)]
pub struct SessionInfo {
    /// The session's number, from 1.
    pub sid: u32,
    /// The portal group tag of the record by which the session logged in.
    pub tag: u16,
    pub key: SessionKey,
    /// The portal at which the session's last login ended, after all redirections.
    pub current: Portal,
}

impl SessionInfo {
    pub fn copy(&self, alloc: Global) -> Result<SessionInfo, NoMemory>
        ensures { IfOk result (λ i. i ≡ self.now) }
    {
        Ok(SessionInfo {
            sid: self.sid,
            tag: self.tag,
            key: self.key.copy(alloc)?,
            current: self.current.copy(alloc)?,
        })
    }
}

/// Whether the bytes are the name of an interface.
pub fn is_iface_name(text: &[u8]) -> bool
    ensures { IsTrue result ↔ IsIface text.now }
{
    1 <= text.len() && text.len() <= 32 && all_iface_bytes(text)
}

fn all_iface_bytes(text: &[u8]) -> bool
    ensures { result ≡ list_all is_iface_byte text.now }
{
    text.iter().all(|byte| is_iface_byte(*byte))
}

fn is_iface_byte(byte: u8) -> bool
    ensures { result ≡ is_iface_byte byte }
{
    matches!(byte, b'a'..=b'z' | b'0'..=b'9' | b'_')
}
