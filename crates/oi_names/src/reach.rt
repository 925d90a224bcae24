ghost use Rattle.std.specs.Prelude.{◌≡◌, ◌≤◌, ◌∷◌, ◌++◌, ◌<◌, ◌+◌, ℕ, List, [], true, MatchOption, length, take, drop, zip, nat_eq, ◌==◌, slice_index};
ghost use Rattle.std.specs.List.{prefix_len};
ghost use Rattle.oi_names.specs.Reaches.{further};

/// How far a text goes in a grammar: the length of its longest front with which a word begins, and whether this front
/// is a word.
#[derive(Clone, Copy)]
pub struct Reach {
    pub place: usize,
    pub whole: bool,
}

// In either of two grammars a text goes as far as in the one in which it goes further.
pub fn further(a: Reach, b: Reach) -> Reach
    ensures { result ≡ further a b }
{
    if a.place < b.place {
        return b;
    }
    if b.place < a.place {
        return a;
    }
    Reach {
        place: a.place,
        whole: a.whole || b.whole,
    }
}

// How many bytes two texts have in common at their beginnings.
pub fn common(text: &[u8], head: &[u8]) -> usize
    ensures { result ≡ prefix_len (λ p. p.0 == p.1) (zip text.now head.now) }
{
    text.iter().zip(head).take_while(|(x, y)| *x == *y).count()
}

// What stands behind the first so many bytes.
pub fn after(text: &[u8], at: usize) -> &[u8]
    requires { at ≤ length text.now }
    ensures { result.now ≡ drop at text.now }
{
    &text[at..]
}

// What stands behind the word that the text has gone through, where the byte does.
pub fn behind(text: &[u8], reach: Reach, byte: u8) -> Option<&[u8]>
    requires { reach.place ≤ length text.now }
    ensures { MatchOption result
        (reach.whole ≡ true → reach.place < length text.now → slice_index text.now reach.place ≡ byte → ⊥)
        (λ rest. (reach.whole ≡ true) × (text.now ≡ take reach.place text.now ++ byte ∷ rest.now)
        × (reach.place + 1 + length rest.now ≡ length text.now)) }
{
    if !reach.whole {
        return None;
    }
    match after(text, reach.place) {
        [first, rest @ ..] if *first == byte => Some(rest),
        _ => None,
    }
}
