use crate::config::SessionConfig;
use crate::fate::Delivered;
use crate::ledger::Ledger;
use crate::owed::Told;
use crate::rules::is_timed_out;
use oi_base::NoMemory;

impl Ledger {
    ghost use Rattle.std.specs.Prelude.{◌≡◌, IfOk, count_by, length, not};
    ghost use Rattle.oi_history.specs.Losses.{is_ping_late};
    ghost use Rattle.oi_history.specs.Tasks.{due_in, is_done};

    pub fn config(&self) -> SessionConfig
        ensures { result ≡ self.now.config }
    {
        self.config
    }

    /// What the half that receives told last.
    pub fn told(&self) -> Told
        ensures { result ≡ self.now.now.told }
    {
        self.told
    }

    /// The generation of the last login, or 0.
    pub fn generation(&self) -> u64
        ensures { result ≡ self.now.now.generation }
    {
        self.generation
    }

    /// The last reading of the clock, in milliseconds.
    pub fn clock(&self) -> u64
        ensures { result ≡ self.now.now.clock }
    {
        self.tracker.clock
    }

    /// How many submissions came in.
    pub fn submitted(&self) -> u64
        ensures { result ≡ length self.now.now.tasks }
    {
        self.submissions.tasks().len() as u64
    }

    /// How many are not done.
    pub fn pending(&self) -> usize
        ensures { result ≡ count_by (λ t. not (is_done t.fate)) self.now.now.tasks }
    {
        self.submissions.pending()
    }

    /// A response to the Logout that was asked for has come.
    pub fn logged_out(&self) -> bool
        ensures { result ≡ self.now.now.logged_out }
    {
        self.tracker.logged_out
    }

    /// The outstanding ping was not answered in its time.
    pub fn is_ping_late(&self) -> bool
        ensures { result ≡ is_ping_late self.now.config self.now.now }
    {
        is_timed_out(self.ping_due())
    }

    /// Copies of the outcomes that are due, in ascending id.
    pub fn due(&self) -> Result<Vec<Delivered>, NoMemory>
        ensures { IfOk result (λ v. v.items ≡ due_in self.now.now.tasks) }
    {
        self.submissions.due()
    }
}
