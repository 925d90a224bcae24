ghost use Rattle.std.specs.Prelude.{◌≡◌, [], IfOk, MatchOption};
ghost use Rattle.std.specs.Str.{IsUtf8};

use crate::memory::NoMemory;
use std::alloc::Global;
use std::marker::Model;

/// A text, or bytes that are meant as one, which contracts see as the list of its bytes.
#[derive(Debug, Drop)]
pub struct Label {
    bytes: Vec<u8>,
}

impl Model for Label {
    ghost use Rattle.std.specs.Prelude.{List, ℕ};

    ghost Value = { List ℕ };

    ghost view = { λ b. b.bytes.items };
}

impl PartialEq for Label {
    ghost use Rattle.std.specs.Cmp.Lexicographic.{pointwise};
    ghost use Rattle.std.specs.Prelude.{nat_eq};
    ghost use Rattle.std.specs.Cmp.Rules.{comparing};
    ghost use Rattle.std.proofs.Common.{rules};

    ghost eq = { λ a b. pointwise nat_eq a b };

    ghost laws = { Prim.search (comparing, rules) };

    fn eq(&self, other: &Label) -> bool {
        self.bytes == other.bytes
    }
}

impl Eq for Label {
    ghost use Rattle.std.specs.Cmp.Rules.{comparing};
    ghost use Rattle.std.proofs.Common.{rules};

    ghost laws = { Prim.search (comparing, rules) };
}

impl Label {
    /// The empty text; takes no memory.
    pub fn new(alloc: Global) -> Label
        ensures { result ≡ [] }
    {
        Label {
            bytes: Vec::new(alloc),
        }
    }

    pub fn from_vec(v: Vec<u8>) -> Label
        ensures { result ≡ v.items }
    {
        Label { bytes: v }
    }

    /// A copy of these bytes.
    pub fn from_slice(alloc: Global, bytes: &[u8]) -> Result<Label, NoMemory>
        ensures { IfOk result (λ b. b ≡ bytes.now) }
    {
        Ok(Label {
            bytes: Vec::from_slice(alloc, bytes)?,
        })
    }

    pub fn as_slice(&self) -> &[u8]
        ensures { result.now ≡ self.now }
    {
        self.bytes.as_slice()
    }

    pub fn copy(&self, alloc: Global) -> Result<Label, NoMemory>
        ensures { IfOk result (λ b. b ≡ self.now) }
    {
        Ok(Label {
            bytes: Vec::from_slice(alloc, &self.bytes)?,
        })
    }

    pub fn into_vec(self) -> Vec<u8>
        ensures { result.items ≡ self }
    {
        let Label { bytes } = self;
        bytes
    }

    /// The text, where the bytes are UTF-8. Paths, names of settings and words have to be.
    pub fn as_text(&self) -> Option<&str>
        ensures { MatchOption result (IsUtf8 self.now → ⊥) (λ text. text.now ≡ self.now) }
    {
        match str::from_utf8(&self.bytes) {
            Ok(text) => Some(text),
            Err(_) => None,
        }
    }
}
