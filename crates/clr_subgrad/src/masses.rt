// The usage of a season's stores under multipliers.
ghost use Rattle.std.specs.Prelude.{◌≡◌, ℕ, ℤ, suc, ◌+◌, ◌*◌, ◌≤◌, ◌<◌, ◌==◌, if◌then◌else◌, get_or, length, sum, IfOk};
ghost use Rattle.clr_model.specs.Usage.{mass, usage};
ghost use Rattle.clr_mult.specs.Tables.{EachEntry, SameSizes, mult_at, usage_at};
ghost use Rattle.clr_num.specs.Rounding.{ceil};
ghost use Rattle.clr_rules.specs.FirstPath.{SomePathObeys};
ghost use Rattle.clr_rules.specs.LiveSummaries.{at_week, live_pairs};
ghost use Rattle.clr_season.specs.Season.{store_at};
ghost use Rattle.clr_rows.specs.Rows.{AreRows};
ghost use Rattle.clr_storedp.specs.Tables.{AreOfSeason, AreTablesOf, IsTableOf};
ghost use Rattle.clr_subgrad.specs.Masses.{IsUsed};
ghost use Rattle.clr_subgrad.specs.Run.{usage_table};

use crate::sweep::leave_row;
use clr_mult::{Mult, Usage};
use clr_num::Up;
use clr_rules::Live;
use clr_season::Season;
use clr_storedp::StoreTable;
use std::alloc::{AllocError, Global};

/// The masses before the first week: all of it at the first summary and the full stock.
fn first_masses(
    alloc: Global,
    season: &Season,
    live: &Live,
    store: u32,
) -> Result<Vec<u32>, AllocError>
    requires low { 1 ≤ store }
    requires high { store ≤ length season.now.stores }
    requires live { live.now ≡ live_pairs season.now.rules }
    requires any { SomePathObeys season.now.rules }
    ensures rows { IfOk result (λ masses. (m : ℕ → ℕ → ℕ → ℤ) → AreRows 0 (suc (store_at season.now store).units) (at_week 0 live.now) (length (at_week 0 live.now)) (mass m season.now store 0) masses.items) }
    ensures total { IfOk result (λ masses. sum masses.items ≤ 1000000) }
{
    let width = season.stock(store) as usize + 1;
    let mut masses = vec![in alloc; 0; live.count(0) as usize * width]?;
    let place = live.find(0, season.rules().start()).unwrap() as usize;
    masses[place * width + (width - 1)] = 1_000_000;
    Ok(masses)
}

/// Counts the masses of a week as usage, and gives those after it. `mult` are the multipliers that the table was made under;
/// the contract alone reads them.
fn next_masses(
    alloc: Global,
    season: &Season,
    live: &Live,
    mult: &Mult,
    table: &StoreTable<Up>,
    store: u32,
    done: u32,
    masses: &[u32],
    used: &mut Usage,
) -> Result<Vec<u32>, AllocError>
    requires low { 1 ≤ store }
    requires high { store ≤ length season.now.stores }
    requires early { done < season.now.rules.weeks }
    requires live { live.now ≡ live_pairs season.now.rules }
    requires any { SomePathObeys season.now.rules }
    requires table { IsTableOf ceil (mult_at mult.now) season.now store table.now }
    requires masses { AreRows 0 (suc (store_at season.now store).units) (at_week done live.now) (length (at_week done live.now)) (mass (mult_at mult.now) season.now store done) masses.now }
    requires total { sum masses.now ≤ 1000000 }
    requires stores { used.old.stores ≡ length season.now.stores }
    requires weeks { used.old.weeks ≡ season.now.rules.weeks }
    requires rungs { used.old.rungs ≡ length season.now.rules.prices }
    requires none { (rung : ℕ) → 1 ≤ rung → rung ≤ length season.now.rules.prices → usage_at used.old store (suc done) rung ≡ 0 }
    ensures rows { IfOk result (λ after. AreRows 0 (suc (store_at season.now store).units) (at_week (suc done) live.now) (length (at_week (suc done) live.now)) (mass (mult_at mult.now) season.now store (suc done)) after.items) }
    ensures total { IfOk result (λ after. sum after.items ≤ 1000000) }
    ensures used { IfOk result (λ _. IsUsed store (suc done) (usage (mult_at mult.now) season.now store (suc done)) used.old used.new) }
{
    prove!(done < season.weeks());
    let width = season.stock(store) as usize + 1;
    let mut after = vec![in alloc; 0; live.count(done + 1) as usize * width]?;
    let mut place = 0;
    let mut next = live.first(done);
    while let Some(s) = next {
        let row = &masses[place * width..place * width + width];
        let choices = table.choices(done, s);
        leave_row(season, live, store, done, s, row, choices, &mut after, used);
        place += 1;
        next = live.after(done, s);
    }
    Ok(after)
}

/// Counts the usage of a store, week by week.
fn use_store(
    alloc: Global,
    season: &Season,
    live: &Live,
    mult: &Mult,
    table: &StoreTable<Up>,
    store: u32,
    used: &mut Usage,
) -> Result<(), AllocError>
    requires low { 1 ≤ store }
    requires high { store ≤ length season.now.stores }
    requires live { live.now ≡ live_pairs season.now.rules }
    requires any { SomePathObeys season.now.rules }
    requires table { IsTableOf ceil (mult_at mult.now) season.now store table.now }
    requires stores { used.old.stores ≡ length season.now.stores }
    requires weeks { used.old.weeks ≡ season.now.rules.weeks }
    requires rungs { used.old.rungs ≡ length season.now.rules.prices }
    requires none { EachEntry used.old (λ s w rung. s ≡ store → usage_at used.old s w rung ≡ 0) }
    ensures sizes { IfOk result (λ _. SameSizes used.new used.old) }
    ensures count { IfOk result (λ _. length used.new.entries ≡ length used.old.entries) }
    ensures entries { IfOk result (λ _. EachEntry used.old (λ s w rung. usage_at used.new s w rung ≡ (if s == store then usage (mult_at mult.now) season.now s w rung else usage_at used.old s w rung))) }
{
    let mut masses = first_masses(alloc, season, live, store)?;
    for done in 0..season.weeks() {
        masses = next_masses(alloc, season, live, mult, table, store, done, &masses, used)?;
    }
    Ok(())
}

/// How often the stores take each rung in each week under multipliers, where each store takes the least rung that attains
/// its own value: masses in parts of a million, swept forward over the live summaries and the stocks. `live` is of the season, some
/// path obeys, and `tables` has the table of each store, in order, under these multipliers.
///
/// # Errors
/// Where memory is wanting.
pub fn usage(
    alloc: Global,
    season: &Season,
    live: &Live,
    mult: &Mult,
    tables: &[StoreTable<Up>],
) -> Result<Usage, AllocError>
    requires live { live.now ≡ live_pairs season.now.rules }
    requires any { SomePathObeys season.now.rules }
    requires mult { AreOfSeason season.now mult.now }
    requires tables { AreTablesOf ceil (mult_at mult.now) season.now tables.now }
    ensures { IfOk result (λ used. used ≡ usage_table (mult_at mult.now) season.now) }
{
    let mut used = Usage::zero(alloc, season.stores(), season.weeks(), season.rungs())?;
    for (index, table) in tables.iter().enumerate() {
        use_store(
            alloc,
            season,
            live,
            mult,
            table,
            index as u32 + 1,
            &mut used,
        )?;
    }
    Ok(used)
}
