// Laws of the values of all stores together, and of any numbers and choices that meet the same conditions. Each is the contract of
// a function that does nothing.
ghost use Rattle.clr_model.specs.JointFold.{JointSumByStores};
ghost use Rattle.clr_model.specs.JointLaws.{JointCoversTop, JointFloorReached, JointTableEnclosed, JointTops, JointValueBySummary, JointValuesClose};

/// The value of all stores together and the choice after a live prefix depend on the prefix's length and summary alone.
pub fn joint_value_by_summary()
    ensures { JointValueBySummary }
{}

/// Numbers for each live prefix and list of stocks that cover what each live rung gives bound what every policy that abides
/// earns: from the start, and from any later one.
pub fn joint_covers_top()
    ensures { JointCoversTop }
{}

/// Choices that keep each live prefix live make a policy that abides and earns at least the numbers that they reach: from the
/// start, and from any live prefix.
pub fn joint_floor_reached()
    ensures { JointFloorReached }
{}

/// No policy that abides earns more than the value of all stores together, rounded up.
pub fn joint_tops()
    ensures { JointTops }
{}

/// Where some path obeys, the table policy abides, and what it earns lies between the value of all stores together rounded down
/// and the same rounded up.
pub fn joint_table_enclosed()
    ensures { JointTableEnclosed }
{}

/// The two values after a live prefix lie at most a unit apart for each week to come.
pub fn joint_values_close()
    ensures { JointValuesClose }
{}

/// The sum over a week's joint demands of what all stores earn and the value after it, store by store: a sum over the demands of one
/// store after another.
pub fn joint_sum_by_stores()
    ensures { JointSumByStores }
{}
