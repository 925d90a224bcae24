ghost use Rattle.std.specs.Prelude.{◌≡◌, ◌≤◌, ◌||◌, bytes_eq, filter, map, not, vec_len, ◌==◌};
ghost use Rattle.oi_reserve.specs.Outcomes.{rekeyed};
ghost use Rattle.oi_reserve.specs.Tables.{has_key, is_key, key_of, key_or_zero};

use crate::entry::Registration;

pub fn key_of(registered: &[Registration], nexus: &[u8]) -> Option<u64>
    ensures { result ≡ key_of registered.now nexus.now }
{
    registered
        .iter()
        .find(|r| r.nexus.as_slice() == nexus)
        .map(|r| r.key)
}

pub fn key_or_zero(registered: &[Registration], nexus: &[u8]) -> u64
    ensures { result ≡ key_or_zero registered.now nexus.now }
{
    key_of(registered, nexus).unwrap_or(0)
}

pub fn is_owner(registered: &[Registration], nexus: &[u8], key: u64) -> bool
    ensures { result ≡ is_key (key_of registered.now nexus.now) key }
{
    match key_of(registered, nexus) {
        Some(k) => k == key,
        None => false,
    }
}

pub fn has_key(registered: &[Registration], key: u64) -> bool
    ensures { result ≡ has_key registered.now key }
{
    registered.iter().any(|r| r.key == key)
}

pub fn remove(registered: &mut Vec<Registration>, nexus: &[u8])
    ensures items { registered.new.items ≡ filter (λ r. not (bytes_eq r.nexus nexus.now)) registered.old.items }
    ensures len { vec_len registered.new ≤ vec_len registered.old }
{
    registered.retain(|r| r.nexus.as_slice() != nexus);
}

/// Takes away every other nexus with the key.
pub fn remove_others(registered: &mut Vec<Registration>, nexus: &[u8], key: u64)
    ensures items { registered.new.items ≡ filter (λ r. bytes_eq r.nexus nexus.now || not (r.key == key)) registered.old.items }
    ensures len { vec_len registered.new ≤ vec_len registered.old }
{
    registered.retain(|r| r.nexus.as_slice() == nexus || r.key != key);
}

pub fn set_key(registered: &mut Vec<Registration>, nexus: &[u8], key: u64)
    ensures items { registered.new.items ≡ map (rekeyed nexus.now key) registered.old.items }
    ensures len { vec_len registered.new ≡ vec_len registered.old }
{
    for r in registered.iter_mut() {
        rekey(r, nexus, key);
    }
}

fn rekey(r: &mut Registration, nexus: &[u8], key: u64)
    ensures { r.new ≡ rekeyed nexus.now key r.old }
{
    if r.nexus.as_slice() == nexus {
        r.key = key;
    }
}
