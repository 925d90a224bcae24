//! The steps of a half: what each does to the table, and what the half knows afterwards.
ghost use Rattle.std.specs.Prelude.{◌≡◌, ℕ, true, false, ◌≤◌, List, [], ◌∷◌, ◌++◌, length, drop, MatchBool, MatchOption};
ghost use Rattle.oi_pipe.specs.Views.{entered, kept_out, left, left_full, left_read, left_written, saw_open, saw_closed, shut, reading, writing, met, IsOutside, IsInside, IsReading, IsWriting};
ghost use Rattle.oi_pipe.specs.Kept.{IsWhole};

use crate::rule::{
    Closes, Halves, Leaves, LeavesFull, LeavesRead, LeavesWritten, Looks, Meets, PipeSeat,
    PipeShared, Store, Tries,
};

/// The word that is 1 while a half is inside.
const HELD: usize = 0;

/// The word that is 1 once the pipe is closed.
const CLOSED: usize = 1;

/// The one slot.
const STORE: usize = 0;

// Tries once to go inside, and takes the bytes out.
pub fn enter(table: &PipeShared, seat: &mut PipeSeat) -> Option<Store>
    requires table { seat.old.table_id ≡ table.now.table_id }
    requires outside { IsOutside seat.old.table_id seat.old.me }
    ensures same { (seat.new.table_id ≡ seat.old.table_id) × (seat.new.id ≡ seat.old.id) }
    ensures step { MatchOption result (seat.new.me ≡ (kept_out seat.old.me.0, [])) (λ b. seat.new.me ≡ (entered seat.old.me.0 b.items, (0, None) ∷ [])) }
    ensures found { MatchOption result (Unit {0}) (λ b. (b.capacity ≡ seat.old.me.0.room) × (length b.items ≤ b.capacity) × (seat.old.me.0.ended ≡ true → b.items ≡ []) × (seat.old.me.0.writes ≡ true → length b.items ≤ length seat.old.me.0.given)) }
{
    if table.compare_exchange::<Tries>(seat, HELD, 0, 1) != 0 {
        return None;
    }
    table.exchange(seat, STORE, None)
}

// Puts the bytes back as they were found.
pub fn leave(table: &PipeShared, seat: &mut PipeSeat, store: Store)
    requires table { seat.old.table_id ≡ table.now.table_id }
    requires inside { IsInside seat.old.table_id seat.old.me }
    requires store { (store.items ≡ seat.old.me.0.content) × (store.capacity ≡ seat.old.me.0.room) }
    ensures same { (seat.new.table_id ≡ seat.old.table_id) × (seat.new.id ≡ seat.old.id) }
    ensures step { seat.new.me ≡ (left seat.old.me.0, []) }
{
    table.exchange(seat, STORE, Some(store));
    table.swap::<Leaves>(seat, HELD, 0);
}

// The same, of a writer that found the pipe full.
pub fn leave_full(table: &PipeShared, seat: &mut PipeSeat, store: Store)
    requires table { seat.old.table_id ≡ table.now.table_id }
    requires inside { IsInside seat.old.table_id seat.old.me }
    requires store { (store.items ≡ seat.old.me.0.content) × (store.capacity ≡ seat.old.me.0.room) }
    requires full { (seat.old.me.0.writes ≡ true) × (seat.old.me.0.room ≤ length seat.old.me.0.content) }
    ensures same { (seat.new.table_id ≡ seat.old.table_id) × (seat.new.id ≡ seat.old.id) }
    ensures step { seat.new.me ≡ (left_full seat.old.me.0, []) }
{
    table.exchange(seat, STORE, Some(store));
    table.swap::<LeavesFull>(seat, HELD, 0);
}

// Puts back what a reader has left of the bytes.
pub fn leave_read(table: &PipeShared, seat: &mut PipeSeat, store: Store)
    requires table { seat.old.table_id ≡ table.now.table_id }
    requires inside { IsInside seat.old.table_id seat.old.me }
    requires reads { seat.old.me.0.reads ≡ true }
    requires store { ((k : ℕ) × (k ≤ length seat.old.me.0.content) × (store.items ≡ drop k seat.old.me.0.content)) × (store.capacity ≡ seat.old.me.0.room) }
    ensures same { (seat.new.table_id ≡ seat.old.table_id) × (seat.new.id ≡ seat.old.id) }
    ensures step { seat.new.me ≡ (left_read seat.old.me.0 store.items, []) }
{
    table.exchange(seat, STORE, Some(store));
    table.swap::<LeavesRead>(seat, HELD, 0);
}

// Puts back the bytes, with those that a writer has added.
pub fn leave_written(table: &PipeShared, seat: &mut PipeSeat, store: Store)
    requires table { seat.old.table_id ≡ table.now.table_id }
    requires inside { IsInside seat.old.table_id seat.old.me }
    requires writes { (seat.old.me.0.writes ≡ true) × (seat.old.me.0.closed ≡ false) }
    requires store { (store.items ≡ seat.old.me.0.content ++ drop (length seat.old.me.0.content) store.items) × (store.capacity ≡ seat.old.me.0.room) }
    requires small { length store.items ≤ store.capacity }
    ensures same { (seat.new.table_id ≡ seat.old.table_id) × (seat.new.id ≡ seat.old.id) }
    ensures step { seat.new.me ≡ (left_written seat.old.me.0 store.items, []) }
{
    table.exchange(seat, STORE, Some(store));
    table.swap::<LeavesWritten>(seat, HELD, 0);
}

// Whether the pipe is closed, for a reader that has found it empty and is inside.
pub fn look(table: &PipeShared, seat: &mut PipeSeat) -> bool
    requires table { seat.old.table_id ≡ table.now.table_id }
    requires inside { IsInside seat.old.table_id seat.old.me }
    requires empty { (seat.old.me.0.reads ≡ true) × (seat.old.me.0.content ≡ []) }
    ensures same { (seat.new.table_id ≡ seat.old.table_id) × (seat.new.id ≡ seat.old.id) }
    ensures step { MatchBool result (seat.new.me ≡ (saw_closed seat.old.me.0, seat.old.me.1)) ((seat.new.me ≡ (saw_open seat.old.me.0, seat.old.me.1)) × (seat.old.me.0.ended ≡ false)) }
{
    table.load::<Looks>(seat, CLOSED) != 0
}

// Closes the pipe.
pub fn close(table: &PipeShared, seat: &mut PipeSeat)
    requires table { seat.old.table_id ≡ table.now.table_id }
    requires outside { IsOutside seat.old.table_id seat.old.me }
    requires writes { seat.old.me.0.writes ≡ true }
    ensures same { (seat.new.table_id ≡ seat.old.table_id) × (seat.new.id ≡ seat.old.id) }
    ensures step { seat.new.me ≡ (shut seat.old.me.0, []) }
{
    table.swap::<Closes>(seat, CLOSED, 1);
}

// Cuts a new pipe's seat into the reader's, which stays, and the writer's.
pub fn part(table: &PipeShared, seat: &mut PipeSeat) -> PipeSeat
    requires table { seat.old.table_id ≡ table.now.table_id }
    requires outside { IsOutside seat.old.table_id seat.old.me }
    requires both { (seat.old.me.0.reads ≡ true) × (seat.old.me.0.writes ≡ true) }
    ensures reader { (seat.new.table_id ≡ seat.old.table_id) × (seat.new.me ≡ (reading seat.old.me.0, [])) }
    ensures writer { (result.table_id ≡ seat.old.table_id) × (result.me ≡ (writing seat.old.me.0, [])) }
{
    table.split_seat::<Halves>(seat)
}

// Takes the writer's seat into the reader's, and looks at what the two know of each other.
pub fn join(table: &PipeShared, seat: &mut PipeSeat, writer: PipeSeat)
    requires table { (seat.old.table_id ≡ table.now.table_id) × (writer.table_id ≡ table.now.table_id) }
    requires reader { IsReading seat.old.table_id seat.old.me }
    requires writer { IsWriting writer.table_id writer.me }
    ensures step { seat.new.me ≡ (met seat.old.me.0 writer.me.0, []) }
    ensures whole { IsWhole seat.new.me.0 }
{
    table.join_seat::<Halves>(seat, writer);
    table.load::<Meets>(seat, HELD);
}
