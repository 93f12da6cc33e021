// The run of steps, and the first of its tables whose bound is least.
ghost use Rattle.std.specs.Prelude.{◌≡◌, ℕ, suc, ◌+◌, ◌-◌, ◌*◌, ◌/◌, ◌≤◌, max, length, IfOk, unwrap_or};
ghost use Rattle.clr_average.specs.Average.{IsWithin};
ghost use Rattle.clr_model.specs.Expected.{Tops};
ghost use Rattle.clr_model.specs.StoreValue.{bound};
ghost use Rattle.clr_mult.specs.Steps.{IsSmall};
ghost use Rattle.clr_mult.specs.Tables.{EachEntry, mult_at};
ghost use Rattle.clr_num.specs.Rounding.{ceil};
ghost use Rattle.clr_rules.specs.FirstPath.{SomePathObeys};
ghost use Rattle.clr_rules.specs.LiveSummaries.{live_pairs};
ghost use Rattle.clr_storedp.specs.Tables.{AreOfSeason, AreSmall, AreTablesOf};
ghost use Rattle.clr_subgrad.specs.Run.{IsFirstLeast, IsRunAt, run_bound, run_table, step_factor};

use crate::masses::usage;
use clr_mult::Mult;
use clr_num::Up;
use clr_rules::Live;
use clr_season::Season;
use clr_storedp::{StoreTable, bound, tables};
use std::alloc::{AllocError, Global};

/// Multipliers of a run of steps, and what they give.
#[derive(Drop)]
pub struct Descent {
    /// The multipliers, in units.
    pub mult: Mult,
    /// The bound that they give: no rule-abiding policy earns more, in units.
    pub bound: i128,
    /// The stores' tables under them, in the stores' order.
    pub tables: Vec<StoreTable<Up>>,
    /// How many steps led to them, from 0.
    pub at_step: u32,
}

/// How many times a step goes against the direction: the first price in cents, times the word of the step, by the number of
/// the step, rounded down, and at least once.
fn step_factor(season: &Season, a: u32, step: u32) -> u64
    requires some { 1 ≤ a }
    requires most { a ≤ 10 }
    requires step { 1 ≤ step }
    ensures value { result ≡ step_factor season.now a step }
    ensures size { result ≤ 100000000 }
    ensures later { 2 ≤ step → result ≤ 50000000 }
{
    prove!(1 <= season.rungs());
    let whole = u64::from(a) * season.price(1);
    (whole / u64::from(step)).max(1)
}

/// The bound and the tables of the multipliers that so many steps have led to.
fn arrived(
    alloc: Global,
    season: &Season,
    live: &Live,
    mult: Mult,
    at_step: u32,
) -> Result<Descent, AllocError>
    requires live { live.now ≡ live_pairs season.now.rules }
    requires any { SomePathObeys season.now.rules }
    requires of_season { AreOfSeason season.now mult }
    requires small { AreSmall mult }
    ensures mult { IfOk result (λ descent. descent.mult ≡ mult) }
    ensures bound { IfOk result (λ descent. descent.bound ≡ bound (mult_at mult) season.now) }
    ensures tables { IfOk result (λ descent. AreTablesOf ceil (mult_at mult) season.now descent.tables.items) }
    ensures size { IfOk result (λ descent. IsWithin 100000000000000000000 descent.bound) }
    ensures tops { IfOk result (λ descent. Tops season.now descent.bound) }
    ensures step { IfOk result (λ descent. descent.at_step ≡ at_step) }
{
    let tables = tables(alloc, season, live, &mult)?;
    let value = bound(season, &mult, &tables);
    Ok(Descent {
        mult,
        bound: value,
        tables,
        at_step,
    })
}

/// The latest of a run: its own, where it isn't the best one.
fn latest<'a>(own: &'a Option<Descent>, best: &'a Descent) -> &'a Descent
    ensures { result.now ≡ unwrap_or own.now best.now }
{
    match own {
        Some(descent) => descent,
        None => best,
    }
}

/// The multipliers of the latest of a run; its tables are let go, where they aren't those of the best one.
fn latest_mult(own: Option<Descent>, best: &Descent) -> Result<Mult, AllocError>
    ensures { IfOk result (λ mult. mult ≡ (unwrap_or own best.now).mult) }
{
    match own {
        Some(descent) => Ok(descent.mult),
        None => best.mult.copy(),
    }
}

/// One step more from the latest of a run. Its own tables are let go before the next ones are made, so that no more than
/// two sets of tables stand at a time.
fn advance(
    alloc: Global,
    season: &Season,
    live: &Live,
    own: Option<Descent>,
    best: &Descent,
    a: u32,
    step: u32,
) -> Result<Descent, AllocError>
    requires live { live.now ≡ live_pairs season.now.rules }
    requires any { SomePathObeys season.now.rules }
    requires some { 1 ≤ a }
    requires most { a ≤ 10 }
    requires first { 1 ≤ step }
    requires last { step ≤ 100 }
    requires run { (let from = unwrap_or own best.now in IsRunAt season.now a (step - 1) from.mult from.bound from.tables.items) }
    ensures run { IfOk result (λ descent. IsRunAt season.now a step descent.mult descent.bound descent.tables.items) }
    ensures step { IfOk result (λ descent. descent.at_step ≡ step) }
{
    let from = latest(&own, best);
    let used = usage(alloc, season, live, &from.mult, &from.tables)?;
    let mut mult = latest_mult(own, best)?;
    mult.step(step_factor(season, a, step), &used)?;
    arrived(alloc, season, live, mult, step)
}

/// The run of so many steps from no multipliers, at the first of its multipliers whose bound is least. `live` is of the season,
/// some path obeys, `a` is the word of the step, from 1 to 10, and there are at most 100 steps. The rule is that of
/// docs/model.md, "The descent".
///
/// # Errors
/// Where memory is wanting.
pub fn descend(
    alloc: Global,
    season: &Season,
    live: &Live,
    a: u32,
    steps: u32,
) -> Result<Descent, AllocError>
    requires live { live.now ≡ live_pairs season.now.rules }
    requires any { SomePathObeys season.now.rules }
    requires some { 1 ≤ a }
    requires most { a ≤ 10 }
    requires steps { steps ≤ 100 }
    ensures least { IfOk result (λ descent. IsFirstLeast (run_bound season.now a) steps descent.at_step descent.bound) }
    ensures mult { IfOk result (λ descent. descent.mult ≡ run_table season.now a descent.at_step) }
    ensures tables { IfOk result (λ descent. AreTablesOf ceil (mult_at descent.mult) season.now descent.tables.items) }
    ensures of_season { IfOk result (λ descent. AreOfSeason season.now descent.mult) }
    ensures small { IfOk result (λ descent. AreSmall descent.mult) }
    ensures near { IfOk result (λ descent. EachEntry descent.mult (λ store week rung. IsSmall 9000000000000000 (mult_at descent.mult store week rung))) }
    ensures size { IfOk result (λ descent. IsWithin 100000000000000000000 descent.bound) }
    ensures tops { IfOk result (λ descent. Tops season.now descent.bound) }
{
    let none = Mult::zero(alloc, season.stores(), season.weeks(), season.rungs())?;
    let mut best = arrived(alloc, season, live, none, 0)?;
    let mut own: Option<Descent> = None;
    for done in 0..steps {
        let next = advance(alloc, season, live, own, &best, a, done + 1)?;
        if next.bound < best.bound {
            best = next;
            own = None;
        } else {
            own = Some(next);
        }
    }
    Ok(best)
}
