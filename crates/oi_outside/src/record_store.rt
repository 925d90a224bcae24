use crate::store_error::StoreError;
use oi_base::{Blob, Label, Series};

/// Where records are kept: texts by path.
pub trait RecordStore {
    ghost use Rattle.std.specs.Prelude.{ℕ, Option};
    ghost use Rattle.oi_outside.specs.Records.{Records};
    ghost use Rattle.oi_outside.specs.Stores.{Finds, IsTallied, Lists, Puts, Removes};

    /// The records, where the object tells them.
    ghost records: { Self → Option Records };

    /// How many calls failed; the last value of its type stands for all that are greater.
    ghost faults: { Self → ℕ };

    /// The paths that have a text, in ascending order of their bytes.
    fn list(&mut self) -> Result<Series<Label>, StoreError>
        ensures lists { Lists result (records self.old) (records self.new) }
        ensures count { IsTallied result (faults self.old) (faults self.new) };

    /// The text at the path, or `None` where there is none.
    fn read(&mut self, path: &str) -> Result<Option<Blob>, StoreError>
        ensures finds { Finds result path.now (records self.old) (records self.new) }
        ensures count { IsTallied result (faults self.old) (faults self.new) };

    /// Puts the text at the path, whole. After `Failed` the path has its old text or the new one, and no other path
    /// has changed.
    fn write_whole(&mut self, path: &str, bytes: &[u8]) -> Result<(), StoreError>
        ensures puts { Puts result path.now bytes.now (records self.old) (records self.new) }
        ensures count { IsTallied result (faults self.old) (faults self.new) };

    /// Takes the text at the path away, and answers whether there was one. After `Failed` it is there or gone, and no
    /// other path has changed.
    fn remove(&mut self, path: &str) -> Result<bool, StoreError>
        ensures removes { Removes result path.now (records self.old) (records self.new) }
        ensures count { IsTallied result (faults self.old) (faults self.new) };
}
