// What is added to a store's averages for a rung after another.
ghost use Rattle.std.specs.Prelude.{◌≡◌, ◌+◌, ◌<◌};
ghost use Rattle.clr_average.specs.Average.{IsWithin};
ghost use Rattle.clr_mult.specs.Tables.{mult_at};
ghost use Rattle.clr_season.specs.Season.{IsPlace};
ghost use Rattle.clr_storedp.specs.BySummary.{added};
ghost use Rattle.clr_storedp.specs.Tables.{AreOfSeason, AreSmall};
ghost use Rattle.clr_storedp.specs.Weeks.{IsPayable};

use clr_model::relabelling;
use clr_mult::Mult;
use clr_rows::Added;
use clr_season::Season;

/// What is added to the average for a rung after another.
fn added(season: &Season, mult: &Mult, store: u32, done: u32, before: u32, rung: u32) -> i64
    requires place { IsPlace season.now store (done + 1) rung }
    requires mult { AreOfSeason season.now mult.now }
    requires small { AreSmall mult.now }
    ensures value { result ≡ added (mult_at mult.now) season.now store done before rung }
    ensures size { IsWithin 1000000000000000000 result }
{
    prove!(done < season.weeks());
    mult.at(store, done + 1, rung) - relabelling(season, store, before, rung) as i64
}

/// What a store is paid for the rungs of the week after `done` weeks: their multipliers, less the cost of relabelling.
#[derive(Drop)]
pub(crate) struct Payment<'a> {
    pub season: &'a Season,
    pub mult: &'a Mult,
    pub store: u32,
    pub done: u32,
}

impl<'a> Added for Payment<'a> {
    ghost more = { λ p. added (mult_at p.mult.now) p.season.now p.store p.done };

    ghost may_ask = { λ p rung. IsPayable p.season.now p.mult.now p.store p.done rung };

    fn added(&self, before: u32, rung: u32) -> i64 {
        added(self.season, self.mult, self.store, self.done, before, rung)
    }
}
