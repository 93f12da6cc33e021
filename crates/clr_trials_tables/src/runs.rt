// The least bound of a run and the first step that attains it: small seasons worked by hand, and one of many cells.
ghost use Rattle.clr_rules.specs.FirstPath.{SomePathObeys};
ghost use Rattle.clr_rules.specs.LiveSummaries.{live_pairs};
ghost use Rattle.std.specs.Prelude.{◌≡◌};

use crate::asks::{Ask, answers, assert_answers, count};
use crate::seasons::{file, files, season};
use clr_rules::Live;
use clr_season::Season;
use clr_subgrad::descend;
use std::alloc::{AllocError, Global};
use std::test::Fail;

// The word of the step, the number of steps, and the least bound, in units, with the first step that attains it.
const CASES: &str =
    "# One store sells its unit on both rungs, at 10.00 and 6.00, and the other on rung 2 alone: 16.00 with nothing paid. The
# first store's multipliers are -5.00 and 5.00 after one step, and the values 11.00 and 5.00; after two steps they are
# -2.50 and 2.50, the values 8.50 and 3.50, and both stores take rung 2, so nothing changes any more.
both free: word 1 steps 0 bound 1600000000 step 0
both free: word 1 steps 1 bound 1600000000 step 0
both free: word 1 steps 2 bound 1200000000 step 2
both free: word 1 steps 3 bound 1200000000 step 2
both free: word 1 steps 100 bound 1200000000 step 2
# Where the word is 10, the first store's multipliers on rung 1 are -50.00, -25.00, -8.335, 4.165, -5.835, 2.495 and
# -4.645, with steps of 10000, 5000, 3333, 2500, 2000, 1666 and 1428 times 0.005: at the last the values are 10.645 and
# 4.645, and the bounds before it are 106.00, 56.00, 22.67, 24.33, 17.67 and 20.99.
both free: word 10 steps 6 bound 1600000000 step 0
both free: word 10 steps 7 bound 1529000000 step 7
# A third store as the second: 22.00 with nothing paid. Rung 1 has a usage of 10^6 in all, of which a third is 333333 with
# 1 left over; rung 2 has 2 * 10^6, a third of which is 666666 with 2 left over. So the directions are 666666, -333333 and
# -333333 on rung 1, and -666667, 333333 and 333334 on rung 2; and the values after one step, of 1000 times the
# directions, are 12.66667 on rung 2 and twice 3.33333 on rung 1.
three: word 1 steps 0 bound 2200000000 step 0
three: word 1 steps 1 bound 1933333000 step 1
# No stock, so nothing is earned; one store alone is paid nothing by any step.
quarters none: word 1 steps 0 bound 0 step 0
quarters none: word 1 steps 20 bound 0 step 0
# One store alone over two weeks: it sells on rung 1 in week 1 with weights 1 and 1, and then takes rung 2 at stock 2, for
# 8.00, and rung 1 at stock 1, for 5.00: (8.00 + 10.00 + 5.00) / 2.
late free: word 1 steps 0 bound 1150000000 step 0
late free: word 3 steps 5 bound 1150000000 step 0";

/// Whether a run has this least bound and its step, where the word of the step and the number of steps are in their ranges.
pub fn is_run(
    alloc: Global,
    season: &Season,
    live: &Live,
    numbers: &[i64],
) -> Result<bool, AllocError>
    requires live { live.now ≡ live_pairs season.now.rules }
    requires any { SomePathObeys season.now.rules }
{
    let [word, steps, bound, at_step] = numbers else {
        return Ok(false);
    };
    let (word, steps) = (count(word), count(steps));
    if word < 1 || word > 10 || steps > 100 {
        return Ok(false);
    }
    let descent = descend(alloc, season, live, word, steps)?;
    Ok(descent.bound == i128::from(*bound) && i64::from(descent.at_step) == *at_step)
}

#[test]
fn runs_find_their_least_bound(rt: HostRuntime) -> Result<(), Fail> {
    assert_answers(&rt, rt.alloc(), Ask::Run, CASES)
}

const STORES: &str = "s1 s2 s3 s4 s5 s6 s7 s8 s9 s10 s11 s12 s13 s14 s15 s16";

// Rows of a store by which nothing is asked for in four weeks on five rungs, without the store.
const NO_DEMAND: &str =
    ",1,1,0,1| ,1,2,0,1| ,1,3,0,1| ,1,4,0,1| ,1,5,0,1| ,2,1,0,1| ,2,2,0,1| ,2,3,0,1| ,2,4,0,1| ,2,5,0,1| ,3,1,0,1| ,3,2,0,1| ,3,3,0,1| ,3,4,0,1| ,3,5,0,1| ,4,1,0,1| ,4,2,0,1| ,4,3,0,1| ,4,4,0,1| ,4,5,0,1|";

// Adds the rows of a store.
fn add_store(text: &mut String, store: &str) -> Result<(), AllocError> {
    for row in NO_DEMAND.split(' ') {
        text.push_str(store)?;
        text.push_str(row)?;
    }
    Ok(())
}

// The rows of all stores.
fn no_demand(alloc: Global) -> Result<String, AllocError> {
    let mut text = String::from_str(alloc, "store,week,rung,units,weight|")?;
    for store in STORES.split(' ') {
        add_store(&mut text, store)?;
    }
    Ok(text)
}

// The files of the season of the sixteen stores.
fn files_of_many(alloc: Global) -> Result<Vec<(String, Vec<u8>)>, AllocError> {
    let demand = no_demand(alloc)?;
    let mut files = files(alloc, "many")?;
    files.push(file(alloc, "demand.csv", demand.as_str())?)?;
    Ok(files)
}

// Nothing is sold, so each store earns the salvage of its units: 16 * 1999 * 0.01.
fn is_many_answered(alloc: Global) -> Result<bool, Fail> {
    let season = season(alloc, files_of_many(alloc)?)?;
    let want = [1, 20, 31_984_000_000, 0];
    Ok(answers(alloc, Ask::Run, &season, &want)?)
}

#[test]
fn many_cells_keep_their_bound(rt: HostRuntime) -> Result<(), Fail> {
    assert!(rt; is_many_answered(rt.alloc())?);
    Ok(())
}
