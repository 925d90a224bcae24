ghost use Rattle.std.specs.Prelude.{◌≡◌, [], map, true};
ghost use Rattle.std.specs.String.{string_bytes};
ghost use Rattle.oi_tool.specs.Asking.{AreRefused};
ghost use Rattle.oi_tool.specs.Runs.{IsTool};
ghost use Rattle.oi_top.specs.Words.{is_tool, tool_words};

use oi_base::Series;
use oi_drive::Ended;
use oi_outside::{RecordStore, Sink};
use oi_tool::run_tool;
use std::alloc::Global;

/// The tool by itself, over the records of the store. The words are those behind `iscsiadm`. It opens no session.
pub fn admin_main<K: Sink, R: RecordStore>(
    alloc: Global,
    words: &[String],
    sink: &mut K,
    store: &mut R,
) -> Ended
    ensures runs { result.runs ≡ [] }
    ensures run { IsTool (map (λ s. string_bytes s) words.now) result.status (R.records store.old) (R.records store.new) (K.held sink.old) (K.held sink.new)
        (R.faults store.old) (R.faults store.new) (K.faults sink.old) (K.faults sink.new) }
    ensures untouched { AreRefused (map (λ s. string_bytes s) words.now) → store.new ≡ store.old }
{
    Ended {
        status: run_tool(alloc, words, sink, store),
        runs: Series::new(alloc),
    }
}

/// The tool, by the program's words.
pub fn call_tool<K: Sink, R: RecordStore>(
    alloc: Global,
    words: &[String],
    sink: &mut K,
    store: &mut R,
) -> Ended
    requires { is_tool words.now ≡ true }
    ensures runs { result.runs ≡ [] }
    ensures run { IsTool (tool_words words.now) result.status (R.records store.old) (R.records store.new) (K.held sink.old) (K.held sink.new)
        (R.faults store.old) (R.faults store.new) (K.faults sink.old) (K.faults sink.new) }
    ensures untouched { AreRefused (tool_words words.now) → store.new ≡ store.old }
{
    admin_main(alloc, &words[2..], sink, store)
}
