ghost use Rattle.std.specs.Prelude.{◌≡◌, ◌++◌, ◌==◌, None, Some, IfOk, MatchOption};
ghost use Rattle.oi_negotiate.specs.Negotiated.{answer_to};
ghost use Rattle.oi_target_login.specs.Texts.{lists, text_pairs};

use oi_base::{NoMemory, Series};
use oi_text::{Pair, TextFault, read_pairs};
use std::alloc::Global;

/// The pairs of a text; None where it is no list of pairs.
#[tactic(auto, using(crate::proofs::Reading::read_is, crate::proofs::Reading::fault_is))]
pub fn read_text(alloc: Global, text: &[u8]) -> Result<Option<Series<Pair>>, NoMemory>
    ensures { IfOk result (λ pairs. pairs ≡ text_pairs text.now) }
{
    match read_pairs(alloc, text) {
        Ok(pairs) => Ok(Some(pairs)),
        Err(TextFault::Malformed { .. }) => Ok(None),
        Err(TextFault::Memory) => Err(NoMemory),
    }
}

/// The value of the first pair with a key.
pub fn answer_to<'a>(key: &[u8], pairs: &'a [Pair]) -> Option<&'a [u8]>
    ensures { MatchOption result (answer_to key.now pairs.now ≡ None) (λ value. answer_to key.now pairs.now ≡ Some value.now) }
{
    for pair in pairs {
        if pair.key.as_slice() == key {
            return Some(pair.value.as_slice());
        }
    }
    None
}

/// The pairs of one request behind those of the earlier ones.
pub fn joined(earlier: Series<Pair>, pairs: Series<Pair>) -> Result<Series<Pair>, NoMemory>
    ensures { IfOk result (λ all. all ≡ earlier ++ pairs) }
{
    let mut all = earlier.into_vec();
    let mut pairs = pairs.into_vec();
    all.append(&mut pairs)?;
    Ok(Series::from_vec(all))
}

/// Whether a word is one of the values of a list, which commas part.
pub fn lists(word: &[u8], values: &[u8]) -> bool
    ensures { result ≡ lists word.now values.now }
{
    values.split(|b| *b == b',').any(|value| value == word)
}
