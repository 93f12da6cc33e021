// A season's demands, without those that never happen at the end of each list.
ghost use Rattle.std.specs.Prelude.{◌≡◌, ℕ, ◌+◌, ◌*◌, ◌<◌, ◌≤◌, length, IfOk};
ghost use Rattle.clr_model.specs.Weights.{AreWeights};
ghost use Rattle.clr_search.specs.Listed.{AreCounted, IsListed, place_of, weights_at};
ghost use Rattle.clr_season.specs.Season.{IsPlace, IsSeason, weight};

use clr_season::Season;
use std::alloc::{AllocError, Global};
use std::marker::Model;

/// A season, and for each store, week and rung how many weights there are up to the last that is not 0. It is seen as the season.
#[derive(Drop)]
pub(crate) struct Demands<'a> {
    season: &'a Season,
    counts: Vec<u32>,
}

impl<'a> Model for Demands<'a> {
    ghost use Rattle.clr_season.specs.Season.{Season, IsSeason};
    ghost use Rattle.clr_search.specs.Listed.{AreCounts};

    ghost Value = { Season };

    ghost view = { λ d. d.season.now };

    ghost invariant = { λ d. IsSeason d.season.now × AreCounts d.season.now d.counts.items };
}

/// How many weights there are up to the last that is not 0.
fn count_listed(weights: &[u32]) -> u32
    requires { length weights.now ≤ 201 }
    ensures { IsListed weights.now result }
{
    let mut count = weights.len();
    while count > 0 && weights[count - 1] == 0 {
        count -= 1;
    }
    count as u32
}

/// The weights of the store, week and rung that stand at a place.
fn weights_at(season: &Season, place: usize) -> &[u32]
    requires { place < length season.now.stores * season.now.rules.weeks * length season.now.rules.prices }
    ensures value { result.now ≡ weights_at season.now place }
    ensures size { length result.now ≤ 201 }
{
    let weeks = season.weeks() as usize;
    let rungs = season.rungs() as usize;
    let row = place / rungs;
    season.weights(
        (row / weeks) as u32 + 1,
        (row % weeks) as u32 + 1,
        (place % rungs) as u32 + 1,
    )
}

impl<'a> Demands<'a> {
    /// The demands of a season.
    ///
    /// # Errors
    /// Where memory is wanting.
    pub(crate) fn build(alloc: Global, season: &'a Season) -> Result<Demands<'a>, AllocError>
        ensures { IfOk result (λ demands. demands ≡ season.now) }
    {
        let rows = season.stores() as usize * season.weeks() as usize;
        let places = rows * season.rungs() as usize;
        let mut counts = Vec::with_capacity(alloc, places)?;
        for place in 0..places {
            counts.push(count_listed(weights_at(season, place)))?;
        }
        Ok(Demands { season, counts })
    }

    /// The season.
    pub(crate) fn season(&self) -> &'a Season
        ensures value { result.now ≡ self.now }
        ensures facts { IsSeason self.now }
    {
        self.season
    }

    /// The weights of a store's demands in a week on a rung, from demand 0 to the greatest that weighs anything.
    pub(crate) fn weights(&self, store: u32, week: u32, rung: u32) -> &'a [u32]
        requires { IsPlace self.now store week rung }
        ensures { AreWeights self.now store week rung result.now }
    {
        let season = self.season;
        let row = (store as usize - 1) * season.weeks() as usize + (week as usize - 1);
        let place = row * season.rungs() as usize + (rung as usize - 1);
        &season.weights(store, week, rung)[..self.counts[place] as usize]
    }
}
