ghost use Rattle.std.specs.Prelude.{◌≡◌, ◌≤◌, [], vec_capacity};
ghost use Rattle.std.specs.List.{range_with_len};

use crate::place::{index_of_tag, state_in};
use crate::{TagPool, TagState};
use oi_base::{NoMemory, Tag};
use std::alloc::Global;
use std::marker::Model;

/// The same pool with its free tags in a plain list, from which a take moves all others: short to read, and slow in a
/// large pool.
#[derive(Debug, Drop)]
pub struct PlainTags {
    age: u8,
    states: Vec<TagState>,
    free: Vec<u16>,
}

impl Model for PlainTags {
    ghost use Rattle.std.specs.Prelude.{map, vec_capacity};
    ghost use Rattle.oi_base.specs.TagLayout.{command_tag};
    ghost use Rattle.oi_tags.specs.Pools.{IsKept, Pool};

    ghost Value = { Pool };

    ghost view = { λ t. record { age = t.age; free = map (command_tag t.age) t.free.items; states = t.states.items } };

    ghost invariant = { λ t. IsKept t.age t.free.items t.states.items (vec_capacity t.free) };
}

impl TagPool for PlainTags {
    ghost pool = { λ t. t };

    fn new(alloc: Global, count: u16) -> Result<PlainTags, NoMemory> {
        let states = vec![in alloc; TagState::Free; count as usize]?;
        let mut free = Vec::with_capacity(alloc, count as usize)?;
        list_all(&mut free, count);
        Ok(PlainTags {
            age: 0,
            states,
            free,
        })
    }

    fn reset(&mut self, age: u8) {
        let count = self.states.len() as u16;
        self.age = age;
        self.states.fill(TagState::Free);
        self.free.clear();
        list_all(&mut self.free, count);
    }

    fn take(&mut self) -> Option<Tag> {
        if self.free.is_empty() {
            return None;
        }
        let index = self.free.remove(0);
        self.states[index as usize] = TagState::Live;
        Some(Tag::command(self.age, index))
    }

    fn end(&mut self, tag: Tag) {
        self.states[index_of_tag(tag)] = TagState::Ended;
    }

    fn reap(&mut self, tag: Tag) {
        let index = index_of_tag(tag);
        self.states[index] = TagState::Free;
        self.free.push_reserved(index as u16);
    }

    fn state(&self, tag: Tag) -> TagState {
        state_in(self.age, &self.states, tag)
    }
}

// All indices in ascending order.
fn list_all(free: &mut Vec<u16>, count: u16)
    requires empty { free.old.items ≡ [] }
    requires room { count ≤ vec_capacity free.old }
    ensures items { free.new.items ≡ range_with_len 0 count }
    ensures room { vec_capacity free.new ≡ vec_capacity free.old }
{
    for index in 0..count {
        free.push_reserved(index);
    }
}
