// What the cases ask of their seasons.
ghost use Rattle.clr_rules.specs.FirstPath.{SomePathObeys};
ghost use Rattle.clr_rules.specs.LiveSummaries.{live_pairs};
ghost use Rattle.clr_season.specs.Season.{IsSeason};
ghost use Rattle.std.specs.Prelude.{◌≡◌};

use crate::bounds::is_bounded;
use crate::exact::opens_with;
use crate::limits::is_judged;
use crate::places::is_place;
use crate::reads::table;
use crate::runs::is_run;
use crate::searches::is_found;
use crate::seasons::season_of;
use crate::shares::is_share;
use clr_mult::Mult;
use clr_rules::Live;
use clr_season::Season;
use clr_storedp::tables;
use std::alloc::{AllocError, Global};
use std::process::Abort;
use std::test::Fail;

/// What is asked of a season: whether it is small enough for the table of all stores together, the values and the choice of this table
/// before the first week or at some place, the least bound of a run, or, with nothing paid, the bound, the best path or the usage.
#[derive(Clone, Copy)]
pub enum Ask {
    Fits,
    Opening,
    Place,
    Run,
    Bound,
    Search,
    Usage,
}

// The numbers of a case; whatever else stands there tells what they mean.
fn numbers_of(alloc: Global, text: &str) -> Result<Vec<i64>, AllocError> {
    let mut numbers = Vec::new(alloc);
    for part in text.split(' ') {
        if let Ok(number) = part.parse::<i64>() {
            numbers.push(number)?;
        }
    }
    Ok(numbers)
}

/// A number that is a count.
pub fn count(number: &i64) -> u32 {
    u32::try_from(*number).unwrap_or(u32::MAX)
}

/// Numbers that are counts.
pub fn counts_of(alloc: Global, numbers: &[i64]) -> Result<Vec<u32>, AllocError> {
    let mut counts = Vec::new(alloc);
    for number in numbers {
        counts.push(count(number))?;
    }
    Ok(counts)
}

// Whether the table of all stores together answers with these numbers.
fn joint_answers(
    alloc: Global,
    ask: Ask,
    season: &Season,
    live: &Live,
    numbers: &[i64],
) -> Result<bool, AllocError>
    requires live { live.now ≡ live_pairs season.now.rules }
    requires facts { IsSeason season.now }
{
    let Some(joint) = table(alloc, season, live)? else {
        return Ok(false);
    };
    if matches!(ask, Ask::Place) {
        Ok(is_place(season, live, &joint, numbers))
    } else {
        opens_with(alloc, season, live, &joint, numbers)
    }
}

// Whether the tables of the stores with nothing paid answer with these numbers.
fn stores_answer(
    alloc: Global,
    ask: Ask,
    season: &Season,
    live: &Live,
    numbers: &[i64],
) -> Result<bool, AllocError>
    requires live { live.now ≡ live_pairs season.now.rules }
    requires any { SomePathObeys season.now.rules }
    requires facts { IsSeason season.now }
{
    let mult = Mult::zero(alloc, season.stores(), season.weeks(), season.rungs())?;
    let tables = tables(alloc, season, live, &mult)?;
    match ask {
        Ask::Search => is_found(alloc, season, live, &mult, &tables, numbers),
        Ask::Usage => is_share(alloc, season, live, &mult, &tables, numbers),
        _ => is_bounded(alloc, season, live, &mult, &tables, numbers),
    }
}

/// Whether a season answers with these numbers.
pub fn answers(
    alloc: Global,
    ask: Ask,
    season: &Season,
    numbers: &[i64],
) -> Result<bool, AllocError> {
    let live = Live::build(alloc, season.rules())?;
    if !live.any() {
        return Ok(false);
    }
    match ask {
        Ask::Fits => Ok(is_judged(season, numbers)),
        Ask::Run => is_run(alloc, season, &live, numbers),
        Ask::Opening | Ask::Place => joint_answers(alloc, ask, season, &live, numbers),
        _ => stores_answer(alloc, ask, season, &live, numbers),
    }
}

// Whether a season answers with the numbers of a text.
fn answers_text(alloc: Global, ask: Ask, season: &Season, text: &str) -> Result<bool, AllocError> {
    let numbers = numbers_of(alloc, text)?;
    answers(alloc, ask, season, &numbers)
}

// Whether the season of a case answers with its numbers.
fn is_answered(alloc: Global, ask: Ask, case: &str) -> Result<bool, Fail> {
    let (name, text) = case.split_once(": ").unwrap_or((case, ""));
    let season = season_of(alloc, name)?;
    Ok(answers_text(alloc, ask, &season, text)?)
}

/// Asserts that each case of a table is answered. A case is a line: the name of a season, and behind `: ` numbers, with words that
/// say what they are. A line that begins with `#` is no case.
pub fn assert_answers(rt: &impl Abort, alloc: Global, ask: Ask, table: &str) -> Result<(), Fail> {
    for case in table.lines() {
        if !case.starts_with('#') {
            assert!(rt; is_answered(alloc, ask, case)?, "{case}");
        }
    }
    Ok(())
}
