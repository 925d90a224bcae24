ghost use Rattle.std.specs.Prelude.{◌≡◌, ◌≤◌};
ghost use Rattle.std.specs.List.{range_with_len};
ghost use Rattle.std.specs.VecDeque.{deque_capacity};

use crate::place::{index_of_tag, state_in};
use crate::{TagPool, TagState};
use oi_base::{NoMemory, Tag};
use std::alloc::Global;
use std::collections::VecDeque;
use std::marker::Model;

/// The pool of a session: the states of its tags by index, and the free indices in a ring. No call moves other tags,
/// and none takes longer in a larger pool but `new` and `reset`.
#[derive(Debug, Drop)]
pub struct Tags {
    age: u8,
    states: Vec<TagState>,
    free: VecDeque<u16>,
}

impl Model for Tags {
    ghost use Rattle.std.specs.Prelude.{map};
    ghost use Rattle.std.specs.VecDeque.{deque_capacity};
    ghost use Rattle.oi_base.specs.TagLayout.{command_tag};
    ghost use Rattle.oi_tags.specs.Pools.{IsKept, Pool};

    ghost Value = { Pool };

    ghost view = { λ t. record { age = t.age; free = map (command_tag t.age) t.free.items; states = t.states.items } };

    ghost invariant = { λ t. IsKept t.age t.free.items t.states.items (deque_capacity t.free) };
}

impl TagPool for Tags {
    ghost pool = { λ t. t };

    fn new(alloc: Global, count: u16) -> Result<Tags, NoMemory> {
        let states = vec![in alloc; TagState::Free; count as usize]?;
        let mut free = VecDeque::with_capacity(alloc, count as usize)?;
        refill(&mut free, count);
        Ok(Tags {
            age: 0,
            states,
            free,
        })
    }

    fn reset(&mut self, age: u8) {
        let count = self.states.len() as u16;
        self.age = age;
        self.states.fill(TagState::Free);
        refill(&mut self.free, count);
    }

    fn take(&mut self) -> Option<Tag> {
        let index = self.free.pop_front()?;
        self.states[index as usize] = TagState::Live;
        Some(Tag::command(self.age, index))
    }

    fn end(&mut self, tag: Tag) {
        self.states[index_of_tag(tag)] = TagState::Ended;
    }

    fn reap(&mut self, tag: Tag) {
        let index = index_of_tag(tag);
        self.states[index] = TagState::Free;
        self.free.push_back_reserved(index as u16);
    }

    fn state(&self, tag: Tag) -> TagState {
        state_in(self.age, &self.states, tag)
    }
}

// All indices in ascending order.
fn refill(free: &mut VecDeque<u16>, count: u16)
    requires { count ≤ deque_capacity free.old }
    ensures items { free.new.items ≡ range_with_len 0 count }
    ensures room { deque_capacity free.new ≡ deque_capacity free.old }
{
    free.clear();
    for index in 0..count {
        free.push_back_reserved(index);
    }
}
