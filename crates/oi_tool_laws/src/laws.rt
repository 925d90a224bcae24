ghost use Rattle.oi_tool_laws.specs.Ones.{LoadIsSound, OneCommand, OneFirstBad, OneLoad, OneOutcome};

/// Laws of a run of the tool. Words ask for one command at most. One stored text at most is the first bad one, at one line,
/// and none is where the stored records are those of a list; that list is one. So words over stored records have one outcome
/// at most. The function does nothing.
pub fn runs_are_one()
    ensures command { OneCommand }
    ensures bad { OneFirstBad }
    ensures sound { LoadIsSound }
    ensures records { OneLoad }
    ensures outcome { OneOutcome }
{}
