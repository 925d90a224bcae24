ghost use Rattle.std.specs.Prelude.{◌≡◌, ◌≤◌, ◌<◌, None, IsSome, IfErr, IfOk, insert, length, slice_get};
ghost use Rattle.oi_settings.specs.Keys.{key_cmp};
ghost use Rattle.oi_settings.specs.Texts.{Node};
ghost use Rattle.oi_nodedb.specs.Databases.{Ascends, record_at, with_record};

use oi_settings::{NodeRecord, RecordKey};
use std::cmp::Ordering;

/// Where the record of the key is among records in order; else, as the error, where it would stand.
pub fn place_of(records: &[NodeRecord], key: &RecordKey) -> Result<usize, usize>
    requires { Ascends records.now }
    ensures within { IfOk result (λ at. at < length records.now) }
    ensures found { IfOk result (λ at. IsSome (record_at key.now records.now) × (slice_get records.now at ≡ record_at key.now records.now)) }
    ensures absent { IfErr result (λ at. (at ≤ length records.now) × (record_at key.now records.now ≡ None)) }
    ensures gap { IfErr result (λ at. (n : Node) → n.key ≡ key.now → insert records.now at n ≡ with_record n records.now) }
{
    records.binary_search_by(|record| compare(record, key))
}

fn compare(node: &NodeRecord, key: &RecordKey) -> Ordering
    ensures { result ≡ key_cmp node.now.key key.now }
{
    node.key().cmp(key)
}
