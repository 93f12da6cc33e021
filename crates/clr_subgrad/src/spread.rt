// What the demands of a week take of one mass.
ghost use Rattle.std.specs.Prelude.{◌≡◌, ℕ, ◌+◌, ◌*◌, ◌≤◌, ◌<◌, get_or, length, sum, take};
ghost use Rattle.clr_subgrad.specs.Masses.{spread};

/// Adds to the masses after a week what the demands take of a mass at a stock: to the stock that is left, of those which
/// start at `start`, the mass times the demand's weight by the base, rounded down.
pub fn spread(mass: u32, weights: &[u32], base: u32, stock: usize, start: usize, after: &mut [u32])
    requires base { 1 ≤ base }
    requires most { base ≤ 1000000 }
    requires whole { sum weights.now ≡ base }
    requires inside { start + stock < length after.old }
    requires room { sum after.old + mass ≤ 1000000 }
    ensures size { length after.new ≡ length after.old }
    ensures places { (place : ℕ) → get_or after.new place 0 ≡ get_or after.old place 0 + spread mass weights.now base stock start (length weights.now) place }
    ensures total { sum after.new ≤ sum after.old + mass }
{
    for demand in 0..weights.len() {
        let weight = weights[demand];
        if weight > 0 {
            let share = u64::from(mass) * u64::from(weight) / u64::from(base);
            after[start + (stock - stock.min(demand))] += share as u32;
        }
    }
}
