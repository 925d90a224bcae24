/// One half of a session: it keeps entries, each with its number, and a part of its state that both halves must have
/// alike.
pub trait Keeps {
    type Entry;

    type Shared;

    ghost use Rattle.std.specs.Prelude.{ℕ, List};

    /// The entries that the value keeps, each with its number, oldest first.
    ghost entries: { Self → List (ℕ × Self.Entry) };

    /// What both halves must have alike.
    ghost shared: { Self → Self.Shared };
}
