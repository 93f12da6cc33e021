// The certificate of a plan. The law is the contract of a function that does nothing.
ghost use Rattle.clr_written.specs.Laws.{PlannedIsAccepted};

/// The certificate of an obeying path, of multipliers that sum to zero over the stores, of the values under them and, where
/// the season fits, of the values of all stores together is accepted, where its numbers lie in their ranges. It claims the
/// path with its two values, the bound of the multipliers and the two values of all stores together.
pub fn planned_is_accepted()
    ensures { PlannedIsAccepted }
{}
