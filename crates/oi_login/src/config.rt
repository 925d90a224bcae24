ghost use Rattle.std.specs.Prelude.{◌≡◌, IfOk, MatchOption, Some, None};

use oi_base::{Blob, Label, Mutual, NoMemory};
use oi_names::IscsiName;
use oi_negotiate::Offer;
use std::alloc::Global;

/// What a login is told: who logs in where, and what is offered.
#[derive(Debug, PartialEq, Eq, Drop)]
pub struct LoginConfig {
    pub initiator: IscsiName,
    /// The target of a normal session; None for a discovery.
    pub target: Option<IscsiName>,
    /// The initiator's part of the session's name (RFC 7143, section 11.12.5).
    pub isid: [u8; 6],
    /// CHAP; None where no authentication is offered.
    pub auth: Option<LoginAuth>,
    pub offer: Offer,
}

/// The name and the secret by which the initiator shows who it is, and what it asks of the target in turn (RFC 7143, section
/// 12.1.3).
#[derive(Debug, PartialEq, Eq, Drop)]
pub struct LoginAuth {
    /// At most 8,192 bytes, none of them zero.
    pub user: Label,
    pub secret: Blob,
    /// What the target has to show for mutual CHAP; None where it need not show who it is.
    pub mutual: Option<Mutual>,
    /// CHAP_I to the target, for mutual CHAP.
    pub id: u8,
    /// CHAP_C to the target, for mutual CHAP.
    pub challenge: [u8; 16],
}

impl LoginConfig {
    pub fn copy(&self, alloc: Global) -> Result<LoginConfig, NoMemory>
        ensures { IfOk result (λ c. c ≡ self.now) }
    {
        Ok(LoginConfig {
            initiator: self.initiator.copy(alloc)?,
            target: copy_name(alloc, &self.target)?,
            isid: self.isid,
            auth: copy_auth(alloc, &self.auth)?,
            offer: self.offer,
        })
    }
}

impl LoginAuth {
    pub fn copy(&self, alloc: Global) -> Result<LoginAuth, NoMemory>
        ensures { IfOk result (λ a. a ≡ self.now) }
    {
        Ok(LoginAuth {
            user: self.user.copy(alloc)?,
            secret: self.secret.copy(alloc)?,
            mutual: copy_mutual(alloc, &self.mutual)?,
            id: self.id,
            challenge: self.challenge,
        })
    }
}

fn copy_name(alloc: Global, name: &Option<IscsiName>) -> Result<Option<IscsiName>, NoMemory>
    ensures { IfOk result (λ n. n ≡ name.now) }
{
    match name {
        Some(name) => Ok(Some(name.copy(alloc)?)),
        None => Ok(None),
    }
}

fn copy_auth(alloc: Global, auth: &Option<LoginAuth>) -> Result<Option<LoginAuth>, NoMemory>
    ensures { IfOk result (λ a. a ≡ auth.now) }
{
    match auth {
        Some(auth) => Ok(Some(auth.copy(alloc)?)),
        None => Ok(None),
    }
}

fn copy_mutual(alloc: Global, wanted: &Option<Mutual>) -> Result<Option<Mutual>, NoMemory>
    ensures { IfOk result (λ m. m ≡ wanted.now) }
{
    match wanted {
        Some(wanted) => Ok(Some(Mutual {
            user: wanted.user.copy(alloc)?,
            secret: wanted.secret.copy(alloc)?,
        })),
        None => Ok(None),
    }
}
