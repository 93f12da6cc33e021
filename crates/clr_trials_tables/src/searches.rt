// The best paths of small seasons, worked by hand, with no multiplier paid.
ghost use Rattle.clr_mult.specs.Tables.{mult_at};
ghost use Rattle.clr_num.specs.Rounding.{ceil};
ghost use Rattle.clr_rules.specs.FirstPath.{SomePathObeys};
ghost use Rattle.clr_rules.specs.LiveSummaries.{live_pairs};
ghost use Rattle.clr_storedp.specs.Tables.{AreOfSeason, AreTablesOf};
ghost use Rattle.std.specs.Prelude.{◌≡◌};

use crate::asks::{Ask, assert_answers, count, counts_of};
use clr_mult::Mult;
use clr_num::Up;
use clr_rules::Live;
use clr_search::search;
use clr_season::Season;
use clr_storedp::StoreTable;
use std::alloc::{AllocError, Global};
use std::test::Fail;

// In each table: how many tight prefixes are to be taken, and the path that is found, with its value in units, which is exact, and
// whether it is the best of all: 1, or 0 where it isn't.

const BY_RULES: &str = "# 10.00 + 8.00 + 5.00
cheaper free: nodes 100 path 1 2 3 value 2300000000 best 1
# Two weeks lie between markdowns: 8.00 + 8.00 + 5.00
cheaper spaced: nodes 100 path 2 2 3 value 2100000000 best 1
# One markdown: 10.00 + 5.00 + 5.00
cheaper once: nodes 100 path 1 3 3 value 2000000000 best 1
# The first cut is at most a tenth, and no rung is so near
cheaper near: nodes 100 path 1 1 1 value 1000000000 best 1";

const BY_NODES: &str =
    "# The seed is 1 3 3 with 20.00. Of 19 live prefixes 13 are tight: 1, 1 1, 1 2, 1 2 2, 1 2 3 and so on.
cheaper free: nodes 0 path 1 3 3 value 2000000000 best 0
cheaper free: nodes 3 path 1 3 3 value 2000000000 best 0
cheaper free: nodes 4 path 1 3 3 value 2000000000 best 0
cheaper free: nodes 5 path 1 2 3 value 2300000000 best 0
cheaper free: nodes 12 path 1 2 3 value 2300000000 best 0
cheaper free: nodes 13 path 1 2 3 value 2300000000 best 1";

const OTHERS: &str = "# Both stores on rung 2: 6.00 + 6.00
both free: nodes 100 path 2 value 1200000000 best 1
# In week 1 half of 10.00, and then 8.00 and 4.00 by halves
late free: nodes 100 path 1 2 value 1100000000 best 1
# The same with a cost of 0.50 for a markdown
late 0.50: nodes 100 path 1 2 value 1050000000 best 1
# One path obeys, and has one prefix; its markdown costs 3.00
forced: nodes 1 path 2 value -300000000 best 1
# The same with no prefix taken
forced: nodes 0 path 2 value -300000000 best 0
# All paths earn nothing, and the first stays on rung 1
never: nodes 100 path 1 1 value 0 best 1
# The seed 1 3 3 earns 10.00 + 6.00 + 3.00 as 1 2 3 does, which comes before it
twice: nodes 100 path 1 2 3 value 1900000000 best 1";

/// Whether the search finds this.
pub fn is_found(
    alloc: Global,
    season: &Season,
    live: &Live,
    mult: &Mult,
    tables: &[StoreTable<Up>],
    numbers: &[i64],
) -> Result<bool, AllocError>
    requires live { live.now ≡ live_pairs season.now.rules }
    requires any { SomePathObeys season.now.rules }
    requires mult { AreOfSeason season.now mult.now }
    requires tables { AreTablesOf ceil (mult_at mult.now) season.now tables.now }
{
    let [nodes, path @ .., value, best] = numbers else {
        return Ok(false);
    };
    let path = counts_of(alloc, path)?;
    let found = search(alloc, season, live, mult, tables, u64::from(count(nodes)))?;
    Ok(
        found.path.rungs() == path.as_slice()
            && found.low == i128::from(*value)
            && found.high == i128::from(*value)
            && i64::from(found.best) == *best,
    )
}

#[test]
fn rules_are_kept(rt: HostRuntime) -> Result<(), Fail> {
    assert_answers(&rt, rt.alloc(), Ask::Search, BY_RULES)
}

#[test]
fn few_prefixes_are_taken(rt: HostRuntime) -> Result<(), Fail> {
    assert_answers(&rt, rt.alloc(), Ask::Search, BY_NODES)
}

#[test]
fn other_seasons_are_searched(rt: HostRuntime) -> Result<(), Fail> {
    assert_answers(&rt, rt.alloc(), Ask::Search, OTHERS)
}
