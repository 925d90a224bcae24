ghost use Rattle.std.specs.Prelude.{◌≡◌, ◌++◌, OnOk};
ghost use Rattle.oi_text.specs.Pairs.{text_of};
ghost use Rattle.oi_login.specs.Answers.{is_login_key, is_known, refusals_to, refusals};

use crate::keys::put;
use oi_base::NoMemory;
use oi_negotiate::key_named;
use oi_text::Pair;

/// Appends `NotUnderstood` for each pair whose key is none of the login (RFC 7143, section 6.2).
pub fn put_refusals(pairs: &[Pair], out: &mut Vec<u8>) -> Result<(), NoMemory>
    ensures { OnOk result (out.new.items ≡ out.old.items ++ text_of (refusals pairs.now)) }
{
    for pair in pairs {
        put_refusal(pair.key.as_slice(), out)?;
    }
    Ok(())
}

fn put_refusal(key: &[u8], out: &mut Vec<u8>) -> Result<(), NoMemory>
    ensures { OnOk result (out.new.items ≡ out.old.items ++ text_of (refusals_to key.now)) }
{
    if is_known(key) {
        return Ok(());
    }
    put(key, b"NotUnderstood", out)?;
    Ok(())
}

fn is_known(key: &[u8]) -> bool
    ensures { result ≡ is_known key.now }
{
    key_named(key).is_some() || is_login_key(key)
}

fn is_login_key(key: &[u8]) -> bool
    ensures { result ≡ is_login_key key.now }
{
    key == b"InitiatorName".as_slice()
        || key == b"SessionType".as_slice()
        || key == b"TargetName".as_slice()
        || key == b"AuthMethod".as_slice()
        || key == b"CHAP_A".as_slice()
        || key == b"CHAP_I".as_slice()
        || key == b"CHAP_C".as_slice()
        || key == b"CHAP_N".as_slice()
        || key == b"CHAP_R".as_slice()
        || key == b"TargetAlias".as_slice()
        || key == b"TargetAddress".as_slice()
        || key == b"TargetPortalGroupTag".as_slice()
}
