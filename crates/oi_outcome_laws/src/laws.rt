ghost use Rattle.oi_outcome_laws.specs.Outcomes.{OutcomesAreDecided};

/// In a permitted history each outcome that was handed out is the target's reply to the last try of its submission, as the recovery table
/// lets it stand, or the error that the table gives for what befell the submission; one that came in while the session failed
/// fast has that error.
pub fn outcomes_are_decided()
    ensures { OutcomesAreDecided }
{}
