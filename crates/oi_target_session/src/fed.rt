/// What becomes of a connection that was fed.
#[derive(Clone, Copy, Debug, PartialEq, Eq)]
pub enum Fed {
    Going,
    /// It is closed, and what it wrote last is all that it writes.
    Closed,
}
