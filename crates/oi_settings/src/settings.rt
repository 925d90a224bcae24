ghost use Rattle.std.specs.Prelude.{◌≡◌, ◌<◌, [], Some, length, option_copied, slice_get, OnOk, OnErr};
ghost use Rattle.oi_settings.specs.Pairs.{has_name, put, value_of};

use indexmap::IndexMap;
use oi_base::{Label, NoMemory};
use std::alloc::Global;
use std::marker::Model;

/// Names with their values, in the order in which the names came. Contracts see the list of the pairs.
#[derive(Drop)]
pub struct Settings {
    values: IndexMap<Vec<u8>, Label>,
}

impl Model for Settings {
    ghost use Rattle.std.specs.Prelude.{List, ℕ, map};

    ghost Value = { List (List ℕ × List ℕ) };

    ghost view = { λ s. map (λ e. (e.0.items, e.1)) s.values.entries };
}

impl Settings {
    /// No names; takes no memory.
    pub fn new(alloc: Global) -> Settings
        ensures { result ≡ [] }
    {
        Settings {
            values: IndexMap::new(alloc),
        }
    }

    /// Gives the name this value: in its place, and a new name last.
    pub fn put(&mut self, name: Vec<u8>, value: Label) -> Result<(), NoMemory>
        ensures ok { OnOk result (self.new ≡ put name.items value self.old) }
        ensures err { OnErr result (self.new ≡ self.old) }
    {
        self.values.insert(name, value)?;
        Ok(())
    }

    pub fn value(&self, name: &[u8]) -> Option<&Label>
        ensures { option_copied result ≡ value_of name.now self.now }
    {
        self.values.get(name)
    }

    pub fn has(&self, name: &[u8]) -> bool
        ensures { result ≡ has_name name.now self.now }
    {
        self.values.contains_key(name)
    }

    pub fn len(&self) -> usize
        ensures { result ≡ length self.now }
    {
        self.values.len()
    }

    /// The pair at this place.
    pub fn pair(&self, at: usize) -> (&[u8], &[u8])
        requires { at < length self.now }
        ensures { slice_get self.now at ≡ Some (result.0.now, result.1.now) }
    {
        let (name, value) = self.values.get_index(at).unwrap();
        (name.as_slice(), value.as_slice())
    }
}
