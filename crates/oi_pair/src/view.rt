use std::collections::LinkedList;

/// What a seat knows of one half. It exists in proofs alone, and no value of it is made.
pub struct Side<E> {
    /// Whether the seat holds the half.
    pub holds: bool,
    /// What the half kept when the seat left it last.
    pub seen: LinkedList<(u64, E)>,
    /// What the half kept when the seat took it, while it holds it.
    pub kept: LinkedList<(u64, E)>,
    /// The numbers that the seat drew since it took the half, while it holds it.
    pub drawn: LinkedList<u64>,
}

/// What a seat knows of its pair. It exists in proofs alone, and no value of it is made.
pub struct View<E, X> {
    pub forward: Side<E>,
    pub back: Side<E>,
    /// While the seat holds a half: the shared part that it was told, or with which it left the back half since.
    pub told: Option<X>,
    /// While the seat holds the forward half: the entries that it added to the back half since.
    pub left: LinkedList<(u64, E)>,
    /// The numbers that the seat carries.
    pub numbers: LinkedList<u64>,
    pub parts: u32,
    /// How often a try found that another seat held the back half.
    pub busy: u64,
}
