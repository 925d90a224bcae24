ghost use Rattle.std.specs.Prelude.{◌≡◌, [], ◌∷◌, ◌++◌, None, Some, IfOk, OnOk, MatchOption, count_by};
ghost use Rattle.std.specs.List.{find};
ghost use Rattle.std.specs.Option.{option_copied};
ghost use Rattle.oi_negotiate.specs.Keys.{is_text};
ghost use Rattle.oi_negotiate.specs.Negotiated.{answer_to};
ghost use Rattle.oi_text.specs.Pairs.{IsText};
ghost use Rattle.oi_login.specs.Answers.{IsFound, count_of, sole};

use oi_base::{NoMemory, Series};
use oi_text::{Pair, TextFault, read_pairs};
use std::alloc::Global;

/// The pairs of a text; None where it is no list of pairs.
pub fn read_text(alloc: Global, text: &[u8]) -> Result<Option<Series<Pair>>, NoMemory>
    ensures { IfOk result (IsFound (IsText text.now)) }
{
    match read_pairs(alloc, text) {
        Ok(pairs) => Ok(Some(pairs)),
        Err(TextFault::Malformed { .. }) => Ok(None),
        Err(TextFault::Memory) => Err(NoMemory),
    }
}

/// The value of the first pair with a key.
#[tactic(auto, using(crate::proofs::Readings::first_value))]
pub fn answer_to<'a>(key: &[u8], pairs: &'a [Pair]) -> Option<&'a [u8]>
    ensures { MatchOption result (answer_to key.now pairs.now ≡ None) (λ value. answer_to key.now pairs.now ≡ Some value.now) }
{
    first_with(key, pairs).map(|pair| pair.value.as_slice())
}

fn first_with<'a>(key: &[u8], pairs: &'a [Pair]) -> Option<&'a Pair>
    ensures { option_copied result ≡ find (λ p. is_text p.key key.now) pairs.now }
{
    pairs.iter().find(|pair| pair.key.as_slice() == key)
}

/// How many pairs have a key.
pub fn count_of(key: &[u8], pairs: &[Pair]) -> usize
    ensures { result ≡ count_of key.now pairs.now }
{
    pairs
        .iter()
        .filter(|pair| pair.key.as_slice() == key)
        .count()
}

/// The value of a key that stands once.
pub fn sole<'a>(key: &[u8], pairs: &'a [Pair]) -> Option<&'a [u8]>
    ensures { MatchOption result (sole key.now pairs.now ≡ None) (λ value. sole key.now pairs.now ≡ Some value.now) }
{
    if count_of(key, pairs) == 1 {
        answer_to(key, pairs)
    } else {
        None
    }
}

/// The pairs of one answer behind those of the earlier ones.
pub fn joined(earlier: Series<Pair>, pairs: Series<Pair>) -> Result<Series<Pair>, NoMemory>
    ensures { IfOk result (λ all. all ≡ earlier ++ pairs) }
{
    let mut all = earlier.into_vec();
    let mut pairs = pairs.into_vec();
    all.append(&mut pairs)?;
    Ok(Series::from_vec(all))
}
