ghost use Rattle.std.specs.Prelude.{◌≡◌, option_copied, bytes_eq};
ghost use Rattle.std.specs.List.{find};
ghost use Rattle.oi_nodedb.specs.Filters.{in_use, is_session_of, matching, session_of};

use crate::filter::{Filter, is_portal};
use oi_names::SessionInfo;
use oi_settings::{NodeRecord, RecordKey};

/// The number of the first living session that has the identity of a record that the filter means, of the first such
/// record.
pub fn in_use(filter: &Filter, living: &[SessionInfo], records: &[NodeRecord]) -> Option<u32>
    ensures { result ≡ in_use living.now (matching filter.now records.now) }
{
    for record in records {
        if filter.matches(record.key()) {
            if let Some(sid) = session_of(record.key(), living) {
                return Some(sid);
            }
        }
    }
    None
}

fn session_of(key: &RecordKey, living: &[SessionInfo]) -> Option<u32>
    ensures { result ≡ session_of key.now living.now }
{
    match living_session(key, living) {
        Some(session) => Some(session.sid),
        None => None,
    }
}

fn living_session<'a>(key: &RecordKey, living: &'a [SessionInfo]) -> Option<&'a SessionInfo>
    ensures { option_copied result ≡ find (is_session_of key.now) living.now }
{
    living.iter().find(|session| is_session_of(key, session))
}

// Whether the session has the identity of the key.
fn is_session_of(key: &RecordKey, session: &SessionInfo) -> bool
    ensures { result ≡ is_session_of key.now session.now }
{
    session.key.target.as_slice() == key.target.as_slice()
        && is_portal(&session.key.portal, &key.portal)
        && session.key.iface.as_slice() == key.iface.as_slice()
}
