// What a table gives, as the contract of a function that does nothing.
ghost use Rattle.clr_joint.specs.Laws.{JointReads};

/// A table of a season can be read at each live prefix and each list of stocks that the stores may have: it gives the value of all
/// stores together after the prefix, rounded down and up, and, where a week is to come, the choice of the table policy.
pub fn joint_reads()
    ensures { JointReads }
{}
