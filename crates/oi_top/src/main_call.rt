ghost use Rattle.std.specs.Prelude.{◌≡◌, length, ℕ, List, [], Some, OnOk, codes, true, false};
ghost use Rattle.oi_base.specs.Counts.{Rose};
ghost use Rattle.oi_drive.specs.Answered.{AreAnswered, AreDecidedRuns, AreOnce};
ghost use Rattle.oi_drive.specs.Endings.{AreEnded, AreLeft, HasCause, IsDrive, is_status};
ghost use Rattle.oi_outside.specs.Streams.{IsCounted, IsFront, behind};
ghost use Rattle.oi_tool.specs.Asking.{AreRefused};
ghost use Rattle.oi_tool.specs.Runs.{IsTool};
ghost use Rattle.oi_top.specs.Words.{IsRefused, is_drive, is_tool, tool_words};

use crate::tool_call::call_tool;
use oi_base::Series;
use oi_drive::{Ended, drive_main};
use oi_outside::{Failed, RecordStore, Sink, Source, write_all};
use std::alloc::Global;

fn is_drive(words: &[String]) -> bool
    ensures { result ≡ is_drive words.now }
{
    match words {
        [word] => word.as_bytes() == b"drive".as_slice(),
        _ => false,
    }
}

fn is_tool(words: &[String]) -> bool
    ensures { result ≡ is_tool words.now }
{
    match words {
        [_, word, ..] => word.as_bytes() == b"iscsiadm".as_slice(),
        _ => false,
    }
}

fn put_refusal<K: Sink>(sink: &mut K) -> Result<(), Failed>
    ensures held { OnOk result (K.held sink.new ≡ behind (K.held sink.old) (codes "fault 7 0\n")) }
    ensures front { IsFront (codes "fault 7 0\n") (K.held sink.old) (K.held sink.new) }
    ensures count { IsCounted result (K.faults sink.old) (K.faults sink.new) }
{
    write_all(sink, b"fault 7 0\n")?;
    sink.flush()
}

fn refuse<K: Sink>(alloc: Global, sink: &mut K) -> Ended
    ensures { IsRefused result.status result.runs (K.held sink.old) (K.held sink.new) (K.faults sink.old) (K.faults sink.new) }
{
    let _ = put_refusal(sink);
    Ended {
        status: 7,
        runs: Series::new(alloc),
    }
}

/// The program with these words. `drive` replays a session from its input lines, and `DIR iscsiadm WORD..` carries words
/// of the tool out over the store, which stands for the folder. Other words are refused.
pub fn iscsi_main<S: Source, K: Sink, R: RecordStore>(
    alloc: Global,
    words: &[String],
    source: &mut S,
    sink: &mut K,
    store: &mut R,
) -> Ended
    ensures legal { AreEnded result.runs }
    ensures once { AreOnce result.runs }
    ensures decided { AreDecidedRuns result.runs }
    ensures every { (result.status ≡ 3 → ⊥) → AreAnswered result.runs }
    ensures one { is_drive words.now ≡ true → (result.status ≡ 3 → ⊥) → length result.runs ≡ 1 }
    ensures exact { is_drive words.now ≡ true → (bytes : List ℕ) → S.left source.old ≡ Some bytes → (Rose (S.faults source.old) (S.faults source.new) → ⊥)
        → (Rose (K.faults sink.old) (K.faults sink.new) → ⊥) → (result.status ≡ 3 → ⊥) → IsDrive bytes result.status result.runs (K.held sink.old) (K.held sink.new) }
    ensures known { is_tool words.now ≡ false → is_status result.status ≡ true }
    ensures cause { HasCause result.status (S.faults source.old) (S.faults source.new) (K.faults sink.old) (K.faults sink.new) }
    ensures left { is_drive words.now ≡ true → AreLeft (S.left source.old) (S.left source.new) result.runs result.status (K.held sink.old) (K.held sink.new)
        (S.faults source.old) (S.faults source.new) (K.faults sink.old) (K.faults sink.new) }
    ensures tool { is_tool words.now ≡ true → (result.runs ≡ []) × IsTool (tool_words words.now) result.status (R.records store.old) (R.records store.new) (K.held sink.old) (K.held sink.new)
        (R.faults store.old) (R.faults store.new) (K.faults sink.old) (K.faults sink.new) }
    ensures untouched { is_tool words.now ≡ true → AreRefused (tool_words words.now) → store.new ≡ store.old }
    ensures refused { is_drive words.now ≡ false → is_tool words.now ≡ false → IsRefused result.status result.runs (K.held sink.old) (K.held sink.new) (K.faults sink.old) (K.faults sink.new) }
    ensures unread { is_drive words.now ≡ false → source.new ≡ source.old }
    ensures apart { is_tool words.now ≡ false → store.new ≡ store.old }
{
    if is_drive(words) {
        drive_main(alloc, source, sink)
    } else if is_tool(words) {
        call_tool(alloc, words, sink, store)
    } else {
        refuse(alloc, sink)
    }
}
