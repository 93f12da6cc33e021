// Laws of policies node by node, of a store's values under multipliers, and of the bound. Each is the contract of a function that
// does nothing.
ghost use Rattle.clr_model.specs.PrefixBound.{PrefixBounds};
ghost use Rattle.clr_model.specs.StoreLaws.{AbidingNodesLive, BoundTops, CoversTop, ValueBySummary};

/// Each node of a policy that abides has a live prefix, its own rung included.
pub fn abiding_nodes_live()
    ensures { AbidingNodesLive }
{}

/// A store's value and choice after a live prefix depend on the prefix's length and summary alone.
pub fn value_by_summary()
    ensures { ValueBySummary }
{}

/// Numbers for each store, live prefix and stock that cover what each live rung gives, under multipliers that sum to zero over the
/// stores for each week and rung, bound what every policy that abides earns: from the start, and from any later one.
pub fn covers_top()
    ensures { CoversTop }
{}

/// No policy that abides earns more than the bound of multipliers that sum to zero over the stores.
pub fn bound_tops()
    ensures { BoundTops }
{}

/// Under multipliers that sum to zero over the stores, no path that obeys and begins with a prefix has a low value above the
/// prefix's bound.
pub fn prefix_bounds()
    ensures { PrefixBounds }
{}
