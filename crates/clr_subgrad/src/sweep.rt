// The masses of one week, and what comes of them.
ghost use Rattle.std.specs.Prelude.{◌≡◌, ℕ, suc, ◌+◌, ◌*◌, ◌≤◌, ◌<◌, ◌==◌, ◌&&◌, if◌then◌else◌, get_or, length, sum, IsTrue};
ghost use Rattle.std.specs.List.{sum_by};
ghost use Rattle.clr_mult.specs.Tables.{EachEntry, SameSizes, Within, usage_at};
ghost use Rattle.clr_num.specs.Lists.{numbers};
ghost use Rattle.clr_rules.specs.LiveSummaries.{IsAmong, at_week, is_live_summary, leads_at, live_pairs};
ghost use Rattle.clr_season.specs.Season.{IsPlace, store_at};
ghost use Rattle.clr_subgrad.specs.Masses.{CameIn, IsUsed, arriving};

use crate::spread::spread;
use clr_mult::Usage;
use clr_rules::{Live, Summary};
use clr_season::Season;

/// Counts a mass at a live summary and a stock as usage of its choice, and adds it to the masses after the week.
pub fn leave(
    season: &Season,
    live: &Live,
    store: u32,
    done: u32,
    s: Summary,
    stock: usize,
    rung: u32,
    mass: u32,
    after: &mut [u32],
    used: &mut Usage,
)
    requires place { IsPlace season.now store (suc done) rung }
    requires live { live.now ≡ live_pairs season.now.rules }
    requires here { IsTrue (is_live_summary season.now.rules done s) }
    requires leads { IsTrue (leads_at season.now.rules done s rung) }
    requires stock { stock ≤ (store_at season.now store).units }
    requires size { length after.old ≡ length (at_week (suc done) live.now) * suc (store_at season.now store).units }
    requires room { sum after.old + mass ≤ 1000000 }
    requires within { Within used.old.stores used.old.weeks used.old.rungs store (suc done) rung }
    requires part { usage_at used.old store (suc done) rung + mass ≤ 1000000 }
    ensures size { length after.new ≡ length after.old }
    ensures came { CameIn (suc (store_at season.now store).units) (at_week (suc done) live.now) (λ t rest. arriving season.now store done s stock rung mass t rest) after.old after.new }
    ensures total { sum after.new ≤ sum after.old + mass }
    ensures used { IsUsed store (suc done) (λ other. if other == rung then mass else 0) used.old used.new }
{
    prove!(done < season.weeks());
    let week = done + 1;
    let width = season.stock(store) as usize + 1;
    used.add(store, week, rung, mass);
    if let Some(next) = season.rules().next(done, s, rung) {
        let start = live.find(week, next).unwrap() as usize * width;
        let weights = season.weights(store, week, rung);
        spread(mass, weights, season.base(), stock, start, after);
    }
}

/// The same for all masses at a live summary, by stock from 0 up; where there is none, nothing is done.
pub fn leave_row(
    season: &Season,
    live: &Live,
    store: u32,
    done: u32,
    s: Summary,
    masses: &[u32],
    choices: &[u8],
    after: &mut [u32],
    used: &mut Usage,
)
    requires low { 1 ≤ store }
    requires high { store ≤ length season.now.stores }
    requires early { done < season.now.rules.weeks }
    requires live { live.now ≡ live_pairs season.now.rules }
    requires here { IsTrue (is_live_summary season.now.rules done s) }
    requires masses { length masses.now ≡ suc (store_at season.now store).units }
    requires choices { length choices.now ≡ suc (store_at season.now store).units }
    requires leads { (stock : ℕ) → stock < length choices.now → IsTrue (leads_at season.now.rules done s (get_or choices.now stock 0)) }
    requires size { length after.old ≡ length (at_week (suc done) live.now) * suc (store_at season.now store).units }
    requires room { sum after.old + sum masses.now ≤ 1000000 }
    requires stores { used.old.stores ≡ length season.now.stores }
    requires weeks { used.old.weeks ≡ season.now.rules.weeks }
    requires rungs { used.old.rungs ≡ length season.now.rules.prices }
    requires part { (rung : ℕ) → 1 ≤ rung → rung ≤ length season.now.rules.prices → usage_at used.old store (suc done) rung + sum masses.now ≤ 1000000 }
    ensures size { length after.new ≡ length after.old }
    ensures came { CameIn (suc (store_at season.now store).units) (at_week (suc done) live.now) (λ t rest. sum_by (λ stock. arriving season.now store done s stock (get_or choices.now stock 0) (get_or masses.now stock 0) t rest) (numbers 0 (length masses.now))) after.old after.new }
    ensures total { sum after.new ≤ sum after.old + sum masses.now }
    ensures part { (rung : ℕ) → 1 ≤ rung → rung ≤ length season.now.rules.prices → usage_at used.new store (suc done) rung ≤ usage_at used.old store (suc done) rung + sum masses.now }
    ensures used { IsUsed store (suc done) (λ rung. sum_by (λ stock. if rung == get_or choices.now stock 0 then get_or masses.now stock 0 else 0) (numbers 0 (length masses.now))) used.old used.new }
{
    for stock in 0..masses.len() {
        let mass = masses[stock];
        if mass > 0 {
            let rung = u32::from(choices[stock]);
            leave(season, live, store, done, s, stock, rung, mass, after, used);
        }
    }
}
