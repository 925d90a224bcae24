ghost use Rattle.oi_units.specs.Units.{LentIsExecuted};

/// A command that is lent its data is answered as if it were executed, and changes nothing.
pub fn lent_is_executed()
    ensures { LentIsExecuted }
{}
