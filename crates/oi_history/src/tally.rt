ghost use Rattle.std.specs.Prelude.{◌≡◌, ◌≤◌, ◌<◌, ◌^◌, ◌+◌, ◌++◌, true, cond, length, not};
ghost use Rattle.std.specs.VecDeque.{deque_capacity, deque_len};
ghost use Rattle.oi_history.specs.Standing.{live_tag, tag_gone};
ghost use Rattle.oi_history.specs.Tasks.{is_done};

use crate::fate::Fate;
use crate::reply::{is_done, is_live_on};
use oi_base::Tag;
use std::collections::VecDeque;

/// What is counted of the submissions.
#[derive(Debug, Drop)]
pub struct Tally {
    /// The tags that wait for their release, in the order in which they ended.
    pub ended: VecDeque<Tag>,
    /// Submissions that are not done.
    pub pending: usize,
}

/// What a submission leaves behind where it moves on.
#[derive(Clone, Copy, Debug)]
pub struct Footing {
    /// The tag on which it is live.
    pub tag: Option<Tag>,
    pub done: bool,
}

impl Footing {
    pub fn of(fate: &Fate) -> Footing
        ensures tag { result.tag ≡ live_tag fate.now }
        ensures done { result.done ≡ is_done fate.now }
    {
        Footing {
            tag: live_tag(fate),
            done: is_done(fate),
        }
    }
}

fn live_tag(fate: &Fate) -> Option<Tag>
    ensures { result ≡ live_tag fate.now }
{
    match fate {
        Fate::Live { tag, .. } => Some(*tag),
        _ => None,
    }
}

// The tag that a submission leaves, behind those that ended.
fn end_tag(ended: &mut VecDeque<Tag>, was: Option<Tag>, fate: &Fate)
    requires { deque_len ended.old + length (tag_gone was fate.now) ≤ deque_capacity ended.old }
    ensures items { ended.new.items ≡ ended.old.items ++ tag_gone was fate.now }
    ensures capacity { deque_capacity ended.new ≡ deque_capacity ended.old }
{
    let Some(tag) = was else {
        return;
    };
    if !is_live_on(fate, tag) {
        ended.push_back_reserved(tag);
    }
}

impl Tally {
    /// A submission comes in.
    pub fn add(&mut self, fate: &Fate)
        requires { self.old.pending + 1 < 2 ^ 64 }
        ensures ended { self.new.ended ≡ self.old.ended }
        ensures pending { self.new.pending ≡ self.old.pending + cond (not (is_done fate.now)) 1 0 }
    {
        if !is_done(fate) {
            self.pending += 1;
        }
    }

    /// A submission moved on from this footing.
    pub fn note(&mut self, was: Footing, fate: &Fate)
        requires place { deque_len self.old.ended + length (tag_gone was.tag fate.now) ≤ deque_capacity self.old.ended }
        requires counted { cond (not was.done) 1 0 ≤ self.old.pending }
        requires stays { was.done ≡ true → is_done fate.now ≡ true }
        ensures ended { self.new.ended.items ≡ self.old.ended.items ++ tag_gone was.tag fate.now }
        ensures pending { self.new.pending + cond (not was.done) 1 0 ≡ self.old.pending + cond (not (is_done fate.now)) 1 0 }
        ensures capacity { deque_capacity self.new.ended ≡ deque_capacity self.old.ended }
    {
        end_tag(&mut self.ended, was.tag, fate);
        if !was.done && is_done(fate) {
            self.pending -= 1;
        }
    }
}
