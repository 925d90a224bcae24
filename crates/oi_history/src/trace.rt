ghost use Rattle.std.specs.Prelude.{◌≡◌, ◌∷◌, IfErr, IfOk, List, OnOk, Some, reverse};
ghost use Rattle.oi_history.specs.Configs.{IsValidConfig};
ghost use Rattle.oi_history.specs.Permitted.{ArePermitted};
ghost use Rattle.oi_history.specs.Traces.{Follows, IsTraceFault, fates};
ghost use Rattle.oi_history.specs.declared.config.SessionConfig.{SessionConfig};
ghost use Rattle.oi_history.specs.declared.event.Numbered.{Numbered};

use crate::config::SessionConfig;
use crate::event::Numbered;
use crate::fate::Fate;
use crate::ledger::Ledger;
use oi_base::Series;
use std::alloc::Global;
use thiserror::Error;

/// Where the submissions of a history stand, by id.
pub type Fates = Series<Fate>;

/// Why a recorded history was not taken.
#[derive(Clone, Copy, Debug, PartialEq, Eq, Drop, Error)]
pub enum TraceFault {
    /// The entry with the number `place` is the first that is not permitted; `rule` is the least rule that it breaks,
    /// by its number from 1 to 15.
    #[error("entry {place} breaks rule {rule}")]
    Illegal { place: u64, rule: u8 },
    #[error("out of memory")]
    Memory,
}

// One entry more.
fn check_entry(ledger: &mut Ledger, last: Option<u64>, entry: &Numbered) -> Result<(), TraceFault>
    ensures ok { (C : SessionConfig) (H : List Numbered) → Follows ledger.old last C H → OnOk result (Follows ledger.new (Some entry.now.number) C (entry.now ∷ H)) }
    ensures fault { (C : SessionConfig) (H : List Numbered) → Follows ledger.old last C H → IfErr result (λ e. IsTraceFault C (entry.now ∷ H) e) }
{
    if let Some(rule) = ledger.broken_rule(last, entry) {
        return Err(TraceFault::Illegal {
            place: entry.number,
            rule,
        });
    }
    let Ok(()) = ledger.step(entry) else {
        return Err(TraceFault::Memory);
    };
    Ok(())
}

/// Checks a recorded history of a session, its oldest entry first, and tells where its submissions stand at its end.
pub fn check_trace(
    alloc: Global,
    events: &[Numbered],
    config: &SessionConfig,
) -> Result<Fates, TraceFault>
    requires { IsValidConfig config.now }
    ensures legal { IfOk result (λ found. ArePermitted config.now (reverse events.now)) }
    ensures fates { IfOk result (λ found. found ≡ fates config.now (reverse events.now)) }
    ensures fault { IfErr result (λ e. IsTraceFault config.now (reverse events.now) e) }
{
    let Ok(mut ledger) = Ledger::new(alloc, *config) else {
        return Err(TraceFault::Memory);
    };
    let mut last = None;
    for entry in events {
        if let Err(fault) = check_entry(&mut ledger, last, entry) {
            return Err(fault);
        }
        last = Some(entry.number);
    }
    let Ok(fates) = ledger.into_fates() else {
        return Err(TraceFault::Memory);
    };
    Ok(fates)
}
