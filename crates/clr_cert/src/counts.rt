// How many lines a certificate has.
ghost use Rattle.clr_cert.specs.Places.{countdown, mult_places, places, week_places};
ghost use Rattle.clr_model.specs.Fits.{fits, stock_lists};
ghost use Rattle.clr_rules.specs.LiveSummaries.{live_pairs};
ghost use Rattle.clr_season.specs.Season.{IsSeason};
ghost use Rattle.std.specs.List.{flat_map};
ghost use Rattle.std.specs.Prelude.{◌≡◌, ◌≤◌, if◌then◌else◌, length};

use clr_model::{fits, lists_of_stocks};
use clr_rules::Live;
use clr_season::Season;

/// The number of lines of a season's certificate.
#[tactic(auto, unfolding(crate::specs::Places::places))]
pub fn line_count(season: &Season, live: &Live) -> u64
    requires { live.now ≡ live_pairs season.now.rules }
    ensures value { result ≡ length (places season.now) }
    ensures facts { IsSeason season.now }
{
    let lengths = u64::from(season.version() == 3);
    let exact = u64::from(fits(season));
    let mults = u64::from(season.weeks()) * u64::from(season.rungs());
    4 + lengths + mults + value_lines(season, live) + exact
}

// The number of lines of values, after all numbers of weeks.
fn value_lines(season: &Season, live: &Live) -> u64
    requires { live.now ≡ live_pairs season.now.rules }
    ensures value { result ≡ length (flat_map (week_places season.now) (countdown season.now.rules.weeks)) }
    ensures range { result ≤ 10000000000000000000 }
{
    let joint = joint_lines(season);
    let mut lines = 0;
    for done in 0..season.weeks() + 1 {
        lines += week_lines(season, live, done, joint);
    }
    lines
}

// The number of lines after so many weeks, where so many of all stores come for each live summary.
fn week_lines(season: &Season, live: &Live, done: u32, joint: u64) -> u64
    requires live { live.now ≡ live_pairs season.now.rules }
    requires early { done ≤ season.now.rules.weeks }
    requires joint { joint ≡ (if fits season.now then stock_lists season.now.stores else 0) }
    requires range { joint ≤ 16032024008001 }
    ensures value { result ≡ length (week_places season.now done) }
    ensures range { result ≤ 100000000000000000 }
{
    let stores = u64::from(season.stores());
    let summaries = u64::from(live.count(done));
    2 * stores + summaries * (stores + joint)
}

// The number of lines of all stores' values for each live summary after some weeks.
fn joint_lines(season: &Season) -> u64
    ensures value { result ≡ (if fits season.now then stock_lists season.now.stores else 0) }
    ensures range { result ≤ 16032024008001 }
{
    if fits(season) {
        lists_of_stocks(season)
    } else {
        0
    }
}
