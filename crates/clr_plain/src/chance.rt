// The chance of an outcome.
ghost use Rattle.clr_model.specs.Expected.{week_chance};
ghost use Rattle.clr_plain.specs.Plain.{IsAsked, flat_chance};
ghost use Rattle.clr_rules.specs.Rules.{IsPath};
ghost use Rattle.std.specs.Prelude.{◌≡◌, ℕ, ◌<◌, ◌≤◌, ◌*◌, ◌^◌, pos, length, get_or};

use clr_model::Path;
use clr_season::Season;

/// The chance of the stores' demands in a week on a rung, out of the base to the number of stores.
fn week_chance(season: &Season, week: u32, rung: u32, asked: &[u32]) -> u64
    requires week { (1 ≤ week) × (week ≤ season.now.rules.weeks) }
    requires rung { (1 ≤ rung) × (rung ≤ length season.now.rules.prices) }
    requires size { length asked.now ≡ length season.now.stores }
    requires demands { (i : ℕ) → i < length asked.now → get_or asked.now i 0 ≤ season.now.top }
    requires small { season.now.base ^ length season.now.stores ≤ 10 ^ 18 }
    ensures value { pos result ≡ week_chance season.now week rung asked.now }
    ensures range { result ≤ season.now.base ^ length season.now.stores }
{
    let mut product = 1;
    for index in 0..season.stores() {
        let demand = asked[index as usize];
        product *= u64::from(season.weight(index + 1, week, rung, demand));
    }
    product
}

/// The chance of an outcome along a path, out of the base to the number of its demands.
pub fn chance(season: &Season, path: &Path, asked: &[u32]) -> u64
    requires path { IsPath season.now.rules path.now }
    requires asked { IsAsked season.now path.now asked.now }
    requires small { season.now.base ^ (length path.now * length season.now.stores) ≤ 10 ^ 18 }
    ensures { pos result ≡ flat_chance season.now path.now asked.now }
{
    let stores = season.stores() as usize;
    let mut product = 1;
    for done in 0..path.len() {
        let start = done as usize * stores;
        let week = &asked[start..start + stores];
        product *= week_chance(season, done + 1, path.rung(done + 1), week);
    }
    product
}
