// The numbers of one season's certificate, from tables.
ghost use Rattle.clr_cert.specs.Entries.{AreInRange};
ghost use Rattle.clr_rules.specs.FirstPath.{SomePathObeys};
ghost use Rattle.clr_rules.specs.LiveSummaries.{live_pairs};
ghost use Rattle.clr_trials_season.specs.Worked.{choices, path_values, place, worked, rungs, store_values};
ghost use Rattle.std.specs.Prelude.{◌≡◌, ◌+◌, ◌*◌, length, nat_lt, if◌then◌else◌, pos, slice_index_or};

use clr_cert::{CertError, Entries, write_cert};
use clr_io::MemoryDesk;
use clr_rules::{Live, Summary};
use clr_season::Season;
use std::alloc::Global;

// The path's values by weeks done and stock. Both ends are the same.
const PATH: [i64; 9] = [
    0,
    700_000_000,
    1_100_000_000,
    0,
    400_000_000,
    800_000_000,
    0,
    0,
    0,
];

// The store's values by weeks done, last rung from 0 and stock. Those of all stores are the same.
const STORE: [i64; 18] = [
    0,
    0,
    0,
    0,
    750_000_000,
    1_150_000_000,
    0,
    0,
    0,
    0,
    0,
    0,
    0,
    500_000_000,
    800_000_000,
    0,
    400_000_000,
    800_000_000,
];

// The rungs chosen for all stores, in the same order.
const CHOICES: [u32; 18] = [1, 1, 1, 1, 1, 1, 1, 1, 1, 1, 1, 1, 1, 1, 2, 2, 2, 2];

/// The numbers of the season's certificate.
pub(crate) struct Worked;

fn path_value(done: u32, stock: u32) -> i64
    ensures { result ≡ slice_index_or path_values (done * 3 + stock) (pos 0) }
{
    match PATH.get(done as usize * 3 + stock as usize) {
        Some(value) => *value,
        None => 0,
    }
}

fn index_of(done: u32, s: Summary, stock: u32) -> usize
    ensures { result ≡ place done s stock }
{
    (done as usize * 3 + s.last as usize) * 3 + stock as usize
}

fn store_value(done: u32, s: Summary, stock: u32) -> i64
    ensures { result ≡ slice_index_or store_values (place done s stock) (pos 0) }
{
    match STORE.get(index_of(done, s, stock)) {
        Some(value) => *value,
        None => 0,
    }
}

fn listed_choice(index: usize) -> u32
    ensures { result ≡ slice_index_or choices index 1 }
{
    match CHOICES.get(index) {
        Some(rung) => *rung,
        None => 1,
    }
}

fn choice(done: u32, s: Summary, stock: u32) -> u32
    ensures { result ≡ (if nat_lt done 2 then slice_index_or choices (place done s stock) 1 else 0) }
{
    if done < 2 {
        listed_choice(index_of(done, s, stock))
    } else {
        0
    }
}

impl Entries for Worked {
    ghost use Rattle.clr_trials_season.specs.Worked.{worked};

    ghost entries = { λ _. worked };

    ghost may_ask = { λ _ _. Unit {0} };

    fn rung(&self, week: u32) -> u32 {
        if week == 2 { 2 } else { 1 }
    }

    fn mult(&self, _store: u32, _week: u32, _rung: u32) -> i64 {
        0
    }

    fn low(&self, done: u32, _store: u32, stock: u32) -> i64 {
        path_value(done, stock)
    }

    fn high(&self, done: u32, _store: u32, stock: u32) -> i64 {
        path_value(done, stock)
    }

    fn value(&self, done: u32, _store: u32, s: Summary, stock: u32) -> i64 {
        store_value(done, s, stock)
    }

    fn joint(&self, done: u32, s: Summary, stocks: &[u32]) -> (u32, i64, i64) {
        let stock = match stocks.first() {
            Some(stock) => *stock,
            None => 0,
        };
        let value = store_value(done, s, stock);
        (choice(done, s, stock), value, value)
    }
}

/// Writes the certificate of these numbers.
pub(crate) fn write_worked(
    alloc: Global,
    season: &Season,
    live: &Live,
    name: &str,
    desk: &mut MemoryDesk,
) -> Result<(), CertError>
    requires live { live.now ≡ live_pairs season.now.rules }
    requires any { SomePathObeys season.now.rules }
    requires weeks { season.now.rules.weeks ≡ 2 }
    requires rungs { length season.now.rules.prices ≡ 2 }
{
    write_cert(alloc, season, live, &Worked, name, desk)
}
