ghost use Rattle.std.specs.Prelude.{◌≡◌, ◌<◌, ◌≤◌, ℕ, IfOk, IfSome, IfNone};
ghost use Rattle.oi_tags.specs.Pools.{Pool, after_end, after_reap, after_reset, after_take, first_of, full_pool, state_of};

use crate::TagState;
use oi_base::{NoMemory, Tag};
use std::alloc::Global;

/// The tags of the commands of one session. All tags of a pool carry the age of the session's connection, so that a
/// PDU of an older connection names a tag that is foreign.
pub trait TagPool {
    /// What contracts see of the pool.
    ghost pool: { Self → Pool };

    /// A pool of `count` tags of age 0, all free. The one call that takes memory.
    fn new(alloc: Global, count: u16) -> Result<Self, NoMemory>
    where
        Self: Sized,
        requires some { 1 ≤ count }
        requires few { count ≤ 2048 }
        ensures { IfOk result (λ p. pool p ≡ full_pool 0 count) };

    /// Makes all tags free, in ascending order of index, for a connection of this age.
    fn reset(&mut self, age: u8)
        requires { age < 16 }
        ensures { pool self.new ≡ after_reset (pool self.old) age };

    /// The tag that has been free longest, which is live from now on.
    fn take(&mut self) -> Option<Tag>
        ensures first { result ≡ first_of (pool self.old).free }
        ensures after { pool self.new ≡ after_take (pool self.old) }
        ensures was_free { IfSome result (λ tag. state_of (pool self.old) tag.0 ≡ TagState.Free) }
        ensures none { IfNone result ((tag : ℕ) → state_of (pool self.old) tag ≡ TagState.Free → ⊥) };

    /// The command of a live tag is done.
    fn end(&mut self, tag: Tag)
        requires { state_of (pool self.old) tag.0 ≡ TagState.Live }
        ensures { pool self.new ≡ after_end (pool self.old) tag.0 };

    /// An ended tag is free again, after all other free ones.
    fn reap(&mut self, tag: Tag)
        requires { state_of (pool self.old) tag.0 ≡ TagState.Ended }
        ensures { pool self.new ≡ after_reap (pool self.old) tag.0 };

    fn state(&self, tag: Tag) -> TagState
        ensures { result ≡ state_of (pool self.now) tag.0 };
}
