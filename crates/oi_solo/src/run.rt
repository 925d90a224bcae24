ghost use Rattle.std.specs.Prelude.{◌≡◌, IfOk};
ghost use Rattle.std.specs.Option.{option_copied};
ghost use Rattle.oi_session_laws.specs.Answers.{outcome_if};

use crate::kept::Kept;
use oi_base::{NoMemory, Series};
use oi_history::{Fate, Numbered, Outcome, Task, copy_entries};
use std::alloc::Global;
use std::marker::Model;

/// What a session came to: its number, its settings, its entries by number, and what it handed out.
#[derive(Debug, Drop)]
pub struct Run {
    kept: Kept,
}

impl Model for Run {
    ghost use Rattle.oi_solo.specs.Cores.{IsKept, session_of};
    ghost use Rattle.oi_solo.specs.Sessions.{RunView, run_of};

    ghost Value = { RunView };

    ghost view = { λ r. run_of (session_of r.kept) };

    ghost invariant = { λ r. IsKept r.kept };
}

// The outcome of a submission, where it was handed out.
fn told_outcome(task: &Task) -> Option<&Outcome>
    ensures { option_copied result ≡ outcome_if task.now.told task.now.fate }
{
    match &task.fate {
        Fate::Done { outcome, .. } if task.told => Some(outcome),
        _ => None,
    }
}

impl Run {
    ghost use Rattle.std.specs.Prelude.{reverse};
    ghost use Rattle.oi_session_laws.specs.Answers.{outcome_among, requests_in};
    ghost use Rattle.oi_solo.specs.Cores.{IsKept, session_of};
    ghost use Rattle.oi_solo.specs.Sessions.{run_of};

    pub(crate) fn new(kept: Kept) -> Run
        requires { IsKept kept }
        ensures { result ≡ run_of (session_of kept) }
    {
        Run { kept }
    }

    /// The entries in order of number.
    pub fn entries(&self) -> &[Numbered]
        ensures { result.now ≡ self.now.events }
    {
        self.kept.events.as_slice()
    }

    /// A copy of the entries, which can outlive the run.
    pub fn events(&self, alloc: Global) -> Result<Series<Numbered>, NoMemory>
        ensures { IfOk result (λ es. es ≡ self.now.events) }
    {
        copy_entries(alloc, self.entries())
    }

    /// How many requests came in.
    pub fn submitted(&self) -> u64
        ensures { result ≡ requests_in (reverse self.now.events) }
    {
        self.kept.ledger.submitted()
    }

    /// What the submission with this id was answered. None where no answer was handed out.
    pub fn outcome(&self, id: u64) -> Option<&Outcome>
        ensures { option_copied result ≡ outcome_among id self.now.delivered }
    {
        match self.kept.ledger.task(id) {
            Some(task) => told_outcome(task),
            None => None,
        }
    }
}
