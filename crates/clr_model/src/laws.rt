// Laws of the definitions. Each is the contract of a function that does nothing.
ghost use Rattle.clr_model.specs.PathNumbers.{PathNumbersEnclose};
ghost use Rattle.clr_model.specs.Laws.{ChancesSum, MarkdownsCounted, OneStoreSplitOff, OneWeekSplitOff, PathEnclosed, SoldInAWeek};

/// The chances of the outcomes of a whole tree sum to the denominator.
pub fn chances_sum()
    ensures { ChancesSum }
{}

/// One week split off: what a node earns, from any start, is by the demands of its week what the stores earn in the week and
/// what the kid earns after it.
pub fn one_week_split_off()
    ensures { OneWeekSplitOff }
{}

/// One store split off: a sum over the joint demands of a sum over the stores is, but for a power of the base, a sum over the
/// stores and their own demands.
pub fn one_store_split_off()
    ensures { OneStoreSplitOff }
{}

/// What a store sells in a week is what is asked for in it, and at most what was left of its stock.
pub fn sold_in_a_week()
    ensures { SoldInAWeek }
{}

/// The markdown weeks that a store pays for along a path are the path's.
pub fn markdowns_counted()
    ensures { MarkdownsCounted }
{}

/// What a path earns in expectation lies between its low and its high value, and these lie at most a unit for each store and
/// week apart.
pub fn path_enclosed()
    ensures { PathEnclosed }
{}

/// Any numbers that lean the right way along a path, week by week and without rounding, enclose what it earns in expectation.
pub fn path_numbers_enclose()
    ensures { PathNumbersEnclose }
{}
