// The places of a certificate's lines, and the order in which they come.
ghost use Rattle.clr_cert.specs.Places.{walk, IsReached};
ghost use Rattle.clr_cert.specs.Steps.{after_bound, after_head, after_high, after_joint, after_low, after_mult, after_value, after_week, first_live, joint_or_after, value_or_after};
ghost use Rattle.clr_model.specs.Fits.{fits, stock_lists};
ghost use Rattle.clr_rules.specs.LiveSummaries.{live_pairs, live_summaries};
ghost use Rattle.std.specs.Prelude.{◌≡◌, ℕ, ◌+◌, ◌<◌, ◌≤◌, length, IsTrue, slice_get, slice_index_or};

use clr_model::{fits, lists_of_stocks};
use clr_rules::{Live, Summary};
use clr_season::Season;

/// The place of a line of a certificate. Stores, weeks and rungs are counted from 1.
#[derive(Clone, Copy, Debug, PartialEq, Eq)]
pub enum Place {
    /// The first line.
    Head,
    /// The numbers of lines and of live summaries, in the certificate of a season of version 3.
    Lengths,
    /// The path.
    Path,
    /// The multipliers of all stores.
    Mult {
        /// Their week.
        week: u32,
        /// Their rung.
        rung: u32,
    },
    /// The path's values to a store, rounded down.
    Low {
        /// The number of weeks done.
        done: u32,
        /// The store.
        store: u32,
    },
    /// The path's values to a store, rounded up.
    High {
        /// The number of weeks done.
        done: u32,
        /// The store.
        store: u32,
    },
    /// A store's values under the multipliers.
    Value {
        /// The number of weeks done.
        done: u32,
        /// The store.
        store: u32,
        /// The summary of these weeks.
        s: Summary,
    },
    /// The values of all stores together.
    Joint {
        /// The number of weeks done.
        done: u32,
        /// The summary of these weeks.
        s: Summary,
        /// The number of the list of stocks, counted from 0, the first store's going slowest.
        index: u64,
    },
    /// The path's revenue.
    Revenue,
    /// The bound over all policies.
    Bound,
    /// The values of all stores together before the first week, at full stocks.
    Exact,
    /// No line: where all lines have come.
    End,
}

impl Place {
    /// The place that comes next in a season's certificate, where this one is among those that are reached from `Head`. It
    /// stays at `End`.
    pub fn next(self, season: &Season, live: &Live) -> Place
        requires live { live.now ≡ live_pairs season.now.rules }
        requires reached { IsReached season.now self }
        ensures after { (row : ℕ) → slice_get (walk season.now) row ≡ Some self →
            result ≡ slice_index_or (walk season.now) (row + 1) Place.End }
        ensures again { IsReached season.now result }
    {
        self.place_after(season, live)
    }

    fn place_after(self, season: &Season, live: &Live) -> Place
        requires live { live.now ≡ live_pairs season.now.rules }
        requires reached { IsReached season.now self }
        ensures { (row : ℕ) → slice_get (walk season.now) row ≡ Some self →
            result ≡ slice_index_or (walk season.now) (row + 1) Place.End }
    {
        let stores = season.stores();
        match self {
            Place::Head => next_of_head(season),
            Place::Lengths => Place::Path,
            Place::Path => Place::Mult { week: 1, rung: 1 },
            Place::Mult { week, rung } => next_of_mult(season, week, rung),
            Place::Low { done, store } => next_of_low(stores, done, store),
            Place::High { done, store } => next_of_high(season, live, done, store),
            Place::Value { done, store, s } => next_of_value(season, live, done, store, s),
            Place::Joint { done, s, index } => next_of_joint(season, live, done, s, index),
            Place::Revenue => Place::Bound,
            Place::Bound => next_of_bound(season),
            Place::Exact | Place::End => Place::End,
        }
    }
}

fn next_of_head(season: &Season) -> Place
    ensures { result ≡ after_head season.now }
{
    if season.version() == 3 {
        Place::Lengths
    } else {
        Place::Path
    }
}

fn next_of_mult(season: &Season, week: u32, rung: u32) -> Place
    ensures { result ≡ after_mult season.now week rung }
{
    if rung < season.rungs() {
        Place::Mult {
            week,
            rung: rung + 1,
        }
    } else if week < season.weeks() {
        Place::Mult {
            week: week + 1,
            rung: 1,
        }
    } else {
        Place::Low {
            done: season.weeks(),
            store: 1,
        }
    }
}

fn next_of_low(stores: u32, done: u32, store: u32) -> Place
    ensures { result ≡ after_low stores done store }
{
    if store < stores {
        Place::Low {
            done,
            store: store + 1,
        }
    } else {
        Place::High { done, store: 1 }
    }
}

fn next_of_high(season: &Season, live: &Live, done: u32, store: u32) -> Place
    requires live { live.now ≡ live_pairs season.now.rules }
    requires done { done ≤ season.now.rules.weeks }
    ensures { result ≡ after_high season.now done store }
{
    if store < season.stores() {
        Place::High {
            done,
            store: store + 1,
        }
    } else {
        first_value(season, live, done, 1)
    }
}

fn next_of_value(season: &Season, live: &Live, done: u32, store: u32, s: Summary) -> Place
    requires live { live.now ≡ live_pairs season.now.rules }
    requires done { done ≤ season.now.rules.weeks }
    requires among { (k : ℕ) × (slice_get (live_summaries season.now.rules done) k ≡ Some s) }
    ensures { (k : ℕ) → slice_get (live_summaries season.now.rules done) k ≡ Some s →
        result ≡ after_value season.now done store (slice_get (live_summaries season.now.rules done) (k + 1)) }
{
    match live.after(done, s) {
        Some(s) => Place::Value { done, store, s },
        None if store < season.stores() => first_value(season, live, done, store + 1),
        None => joint_from(season, done, live.first(done)),
    }
}

// A store's values of the first live summary, and what comes after all stores' values where there is none.
fn first_value(season: &Season, live: &Live, done: u32, store: u32) -> Place
    requires live { live.now ≡ live_pairs season.now.rules }
    requires done { done ≤ season.now.rules.weeks }
    ensures { result ≡ value_or_after season.now done store (first_live season.now done) }
{
    match live.first(done) {
        Some(s) => Place::Value { done, store, s },
        None => joint_from(season, done, None),
    }
}

fn next_of_joint(season: &Season, live: &Live, done: u32, s: Summary, index: u64) -> Place
    requires live { live.now ≡ live_pairs season.now.rules }
    requires done { done ≤ season.now.rules.weeks }
    requires among { (k : ℕ) × (slice_get (live_summaries season.now.rules done) k ≡ Some s) }
    requires fits { IsTrue (fits season.now) }
    requires index { index < stock_lists season.now.stores }
    ensures { (k : ℕ) → slice_get (live_summaries season.now.rules done) k ≡ Some s →
        result ≡ after_joint season.now done s index (slice_get (live_summaries season.now.rules done) (k + 1)) }
{
    let lists = lists_of_stocks(season);
    if index + 1 < lists {
        Place::Joint {
            done,
            s,
            index: index + 1,
        }
    } else {
        joint_from(season, done, live.after(done, s))
    }
}

// The first list of stocks of a summary, and what comes after all of these where there is no such summary.
fn joint_from(season: &Season, done: u32, next: Option<Summary>) -> Place
    ensures { result ≡ joint_or_after season.now done next }
{
    match next {
        Some(s) if fits(season) => Place::Joint { done, s, index: 0 },
        _ => next_of_week(done),
    }
}

fn next_of_week(done: u32) -> Place
    ensures { result ≡ after_week done }
{
    if done == 0 {
        Place::Revenue
    } else {
        Place::Low {
            done: done - 1,
            store: 1,
        }
    }
}

fn next_of_bound(season: &Season) -> Place
    ensures { result ≡ after_bound season.now }
{
    if fits(season) {
        Place::Exact
    } else {
        Place::End
    }
}
