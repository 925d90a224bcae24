use std::marker::Model;
use std::snapshot::Snapshot;

/// A list that contracts alone read, as that of all readings of a clock. It takes no memory, whatever its length.
#[derive(Drop)]
pub struct History<T> {
    past: Past<T>,
}

#[derive(Drop)]
enum Past<T> {
    Nothing,
    More {
        before: Snapshot<Past<T>>,
        last: Snapshot<T>,
    },
}

impl<T> Model for History<T> {
    ghost use Rattle.std.specs.Prelude.{List};
    ghost use Rattle.std.specs.Coded.{coded_list};

    ghost Value = { List T };

    ghost coded = { coded_list T.code };

    ghost use Rattle.oi_outside.specs.Pasts.{entries};

    ghost view = { λ h. entries h.past };
}

impl<T> History<T> {
    ghost use Rattle.std.specs.Prelude.{◌≡◌, [], ◌∷◌, ◌++◌};

    /// The empty list.
    pub fn new() -> History<T>
        ensures { result ≡ [] }
    {
        History {
            past: Past::Nothing,
        }
    }

    /// Puts what the item is now at the end.
    pub fn record(&mut self, item: &T)
        ensures { self.new ≡ self.old ++ item.now ∷ [] }
    {
        self.past = Past::More {
            before: Snapshot::of(&self.past),
            last: Snapshot::of(item),
        };
    }

    /// Puts what the items are now at the end, in their order.
    pub fn record_all(&mut self, items: &[T])
        ensures { self.new ≡ self.old ++ items.now }
    {
        for item in items {
            self.record(item);
        }
    }
}
