ghost use Rattle.std.specs.Prelude.{◌≡◌, [], ◌∷◌, IfOk, IfErr};
ghost use Rattle.oi_pair.specs.Halves.{HasForward, HasBack, HasBoth};

use std::alloc::{AllocFailed, Global};

/// What a slot of the pair's table holds.
#[derive(Drop)]
pub enum Half<F, B> {
    Forward(F),
    Back(B),
}

/// The forward half in a slot.
pub fn forward_of<F, B>(slot: Option<Half<F, B>>) -> F
    requires { HasForward slot }
    ensures { slot ≡ Some (Half.Forward result) }
{
    let Some(Half::Forward(half)) = slot else {
        unreachable!()
    };
    half
}

/// The back half in a slot.
pub fn back_of<F, B>(slot: Option<Half<F, B>>) -> B
    requires { HasBack slot }
    ensures { slot ≡ Some (Half.Back result) }
{
    let Some(Half::Back(half)) = slot else {
        unreachable!()
    };
    half
}

/// Both slots, forward half first.
pub fn both_slots<F, B>(
    alloc: Global,
    forward: F,
    back: B,
) -> Result<Vec<Option<Half<F, B>>>, (F, B)>
    ensures made { IfOk result (λ slots. slots.items ≡ Some (Half.Forward forward) ∷ Some (Half.Back back) ∷ []) }
    ensures refused { IfErr result (λ halves. (halves.0 ≡ forward) × (halves.1 ≡ back)) }
{
    let Ok(mut slots) = Vec::with_capacity(alloc, 2) else {
        return Err((forward, back));
    };
    if let Err(failed) = slots.push(Some(Half::Forward(forward))) {
        let AllocFailed { value } = failed;
        slots.destroy_empty();
        return Err((forward_of(value), back));
    }
    if let Err(failed) = slots.push(Some(Half::Back(back))) {
        let AllocFailed { value } = failed;
        let Some(first) = slots.pop() else {
            unreachable!()
        };
        slots.destroy_empty();
        return Err((forward_of(first), back_of(value)));
    }
    Ok(slots)
}

/// The halves in both slots.
pub fn both_halves<F, B>(mut slots: Vec<Option<Half<F, B>>>) -> (F, B)
    requires { HasBoth slots.items }
    ensures { slots.items ≡ Some (Half.Forward result.0) ∷ Some (Half.Back result.1) ∷ [] }
{
    let Some(back) = slots.pop() else {
        unreachable!()
    };
    let Some(forward) = slots.pop() else {
        unreachable!()
    };
    slots.destroy_empty();
    (forward_of(forward), back_of(back))
}
