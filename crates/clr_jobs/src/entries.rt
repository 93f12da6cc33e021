// What the certificate of a plan is written from, as a run holds it.
ghost use Rattle.clr_jobs.specs.Held.{MayAsk, entries_of};

use clr_cert::Entries;
use clr_joint::Joint;
use clr_model::Path;
use clr_mult::Mult;
use clr_num::{Down, Up};
use clr_path::PathTable;
use clr_rules::Summary;
use clr_storedp::StoreTable;

/// A path and its two tables; the multipliers of the step that is told, and the tables of all stores under them, in order;
/// and the table of all stores together, in a season that is small enough for it.
#[derive(Drop)]
pub(crate) struct PlanEntries {
    pub path: Path,
    pub low: PathTable<Down>,
    pub high: PathTable<Up>,
    pub mult: Mult,
    pub tables: Vec<StoreTable<Up>>,
    pub joint: Option<Joint>,
}

impl Entries for PlanEntries {
    ghost entries = { entries_of };

    ghost may_ask = { MayAsk };

    fn rung(&self, week: u32) -> u32 {
        self.path.rung(week)
    }

    fn mult(&self, store: u32, week: u32, rung: u32) -> i64 {
        self.mult.at(store, week, rung)
    }

    fn low(&self, done: u32, store: u32, stock: u32) -> i64 {
        self.low.at(done, store, stock)
    }

    fn high(&self, done: u32, store: u32, stock: u32) -> i64 {
        self.high.at(done, store, stock)
    }

    fn value(&self, done: u32, store: u32, s: Summary, stock: u32) -> i64 {
        self.tables[store as usize - 1].at(done, s, stock)
    }

    fn joint(&self, done: u32, s: Summary, stocks: &[u32]) -> (u32, i64, i64) {
        let Some(joint) = &self.joint else {
            return (0, 0, 0);
        };
        let rung = if done < self.path.len() {
            joint.choice(done, s, stocks)
        } else {
            0
        };
        let (low, top) = joint.at(done, s, stocks);
        (rung, low, top)
    }
}
