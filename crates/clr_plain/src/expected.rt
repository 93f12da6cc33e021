// The sum over all outcomes.
ghost use Rattle.clr_model.specs.Expected.{season_earned};
ghost use Rattle.clr_model.specs.Policies.{const_tree};
ghost use Rattle.clr_plain.specs.Plain.{IsBounded, flat_chance, flat_part, sum_after};
ghost use Rattle.clr_rules.specs.Rules.{IsPath};
ghost use Rattle.std.specs.Prelude.{◌≡◌, ℕ, ◌<◌, ◌≤◌, ◌-◌, ◌*◌, ◌^◌, ◌≤ℤ◌, ◌*ℤ◌, pos, length, get_or, take, IfOk};

use crate::chance::chance;
use crate::revenue::revenue;
use clr_model::Path;
use clr_season::Season;
use std::alloc::{AllocError, Global};

/// Chance times revenue, summed over all outcomes that begin with the first `place` demands of `asked`. The other demands are
/// written over.
fn sum_from(season: &Season, path: &Path, asked: &mut [u32], place: usize) -> i128
    requires path { IsPath season.now.rules path.now }
    requires size { length asked.old ≡ length path.now * length season.now.stores }
    requires place { place ≤ length asked.old }
    requires demands { (i : ℕ) → i < place → get_or asked.old i 0 ≤ season.now.top }
    requires small { season.now.base ^ (length path.now * length season.now.stores) ≤ 10 ^ 18 }
    requires mass { sum_after season.now (flat_chance season.now path.now) (length asked.old - place) (take place asked.old) ≤ℤ pos (10 ^ 18) }
    ensures value { result ≡ sum_after season.now (flat_part season.now path.now) (length asked.old - place) (take place asked.old) }
    ensures range { IsBounded (sum_after season.now (flat_chance season.now path.now) (length asked.old - place) (take place asked.old)) result }
    ensures begun { take place asked.new ≡ take place asked.old }
    ensures size { length asked.new ≡ length asked.old }
{
    if place == asked.len() {
        return times(chance(season, path, asked), revenue(season, path, asked));
    }
    let mut total = 0;
    for demand in 0..season.top() + 1 {
        asked[place] = demand;
        total += sum_from(season, path, asked, place + 1);
    }
    total
}

/// A chance times a revenue.
fn times(chance: u64, revenue: i64) -> i128
    ensures { result ≡ pos chance *ℤ revenue }
{
    i128::from(chance) * i128::from(revenue)
}

/// What a path earns in expectation, in cents and times the base to the number of stores times weeks: the sum over all
/// outcomes of chance times revenue, taken one by one.
///
/// There are as many outcomes as lists of a demand for each store and week. The base to the number of stores times weeks is at
/// most 10^18, so that no sum is too large. The definition is that of docs/model.md, "Outcomes, policies and expected revenue".
///
/// # Errors
/// Where memory is wanting.
pub fn expected_cents(alloc: Global, season: &Season, path: &Path) -> Result<i128, AllocError>
    requires path { IsPath season.now.rules path.now }
    requires small { season.now.base ^ (length season.now.stores * season.now.rules.weeks) ≤ 10 ^ 18 }
    ensures { IfOk result (λ cents. cents ≡ season_earned season.now (const_tree path.now)) }
{
    let places = path.len() as usize * season.stores() as usize;
    let mut asked = vec![in alloc; 0; places]?;
    Ok(sum_from(season, path, &mut asked, 0))
}
