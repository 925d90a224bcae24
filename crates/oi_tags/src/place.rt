ghost use Rattle.std.specs.Prelude.{◌≡◌, ◌<◌, ◌/◌, ◌^◌, []};
ghost use Rattle.oi_tags.specs.Pools.{index_of, state_of};

use crate::TagState;
use oi_base::Tag;

/// The index of a tag in its pool.
pub fn index_of_tag(tag: Tag) -> usize
    ensures value { result ≡ index_of tag.0 }
    ensures small { result < 2 ^ 28 }
{
    (tag.0 % 0x1000_0000) as usize
}

/// What a pool of this age, whose indices have these states, tells of a tag.
pub fn state_in(age: u8, states: &[TagState], tag: Tag) -> TagState
    ensures { result ≡ state_of (record { age = age; free = []; states = states.now }) tag.0 }
{
    if tag.0 / 0x1000_0000 == age as u32 {
        states
            .get(index_of_tag(tag))
            .copied()
            .unwrap_or(TagState::Foreign)
    } else {
        TagState::Foreign
    }
}
