// What is added to the averages of all stores for a rung after another.
ghost use Rattle.clr_average.specs.Average.{IsWithin};
ghost use Rattle.clr_joint.specs.BySummary.{costs, less_costs};
ghost use Rattle.std.specs.Prelude.{◌≡◌, ◌≤◌, pos, true, IsTrue};

use clr_model::relabelling;
use clr_rows::Added;
use clr_season::Season;

/// What all stores together pay for a rung after another.
fn cost_of_all(season: &Season, before: u32, rung: u32) -> u64
    ensures value { pos result ≡ costs season.now before rung }
    ensures range { result ≤ 1000000000000000 }
{
    let mut cost = 0;
    for index in 0..season.stores() {
        cost += relabelling(season, index + 1, before, rung);
    }
    cost
}

/// What is added to the averages for a rung after another.
fn added(season: &Season, before: u32, rung: u32) -> i64
    ensures value { result ≡ less_costs season.now before rung }
    ensures size { IsWithin 1000000000000000000 result }
{
    -(cost_of_all(season, before, rung) as i64)
}

/// What all stores of a season together are paid for a rung after another: the costs of relabelling, taken off.
#[derive(Drop)]
pub(crate) struct Payment<'a> {
    pub season: &'a Season,
}

impl<'a> Added for Payment<'a> {
    ghost more = { λ p. less_costs p.season.now };

    ghost may_ask = { λ p rung. IsTrue true };

    fn added(&self, before: u32, rung: u32) -> i64 {
        added(self.season, before, rung)
    }
}
