// Usage by store, week and rung.
ghost use Rattle.clr_mult.specs.Steps.{IsSmall, IsUsage, VanishOverStores, direction};
ghost use Rattle.clr_mult.specs.Tables.{AreSizes, EachEntry, Within, place, usage_at, zero_usage};
ghost use Rattle.std.specs.Prelude.{◌≡◌, ℕ, ◌+◌, ◌*◌, ◌<◌, ◌≤◌, get_or, length, slice_set, IfOk};

use std::alloc::{AllocError, Global};
use std::marker::Model;

/// How much of the time each store is on a rung in a week, in parts of a million: a number from 0 to 10^6 for
/// each store, week and rung. It is seen as the record of its sizes and its numbers.
#[derive(Drop)]
pub struct Usage {
    stores: u32,
    weeks: u32,
    rungs: u32,
    entries: Vec<u32>,
}

impl Model for Usage {
    ghost use Rattle.std.specs.Prelude.{ℕ};
    ghost use Rattle.clr_mult.specs.Steps.{IsUsage};
    ghost use Rattle.clr_mult.specs.Tables.{Table};

    ghost Value = { Table ℕ };

    ghost view = { λ t. record { stores = t.stores; weeks = t.weeks; rungs = t.rungs; entries = t.entries.items } };

    ghost invariant = { λ t. IsUsage (record { stores = t.stores; weeks = t.weeks; rungs = t.rungs; entries = t.entries.items }) };
}

impl Usage {
    /// No usage, for 1 to 64 stores, 1 to 52 weeks and 1 to 12 rungs.
    ///
    /// # Errors
    /// Where memory is wanting.
    pub fn zero(alloc: Global, stores: u32, weeks: u32, rungs: u32) -> Result<Usage, AllocError>
        requires { AreSizes stores weeks rungs }
        ensures table { IfOk result (λ usage. usage ≡ zero_usage stores weeks rungs) }
        ensures entries { IfOk result (λ usage. EachEntry usage (λ store week rung. usage_at usage store week rung ≡ 0)) }
    {
        let count = weeks as usize * rungs as usize * stores as usize;
        let entries = vec![in alloc; 0; count]?;
        Ok(Usage {
            stores,
            weeks,
            rungs,
            entries,
        })
    }

    /// The usage of a rung in a week by a store.
    pub fn at(&self, store: u32, week: u32, rung: u32) -> u32
        requires { Within self.now.stores self.now.weeks self.now.rungs store week rung }
        ensures value { result ≡ usage_at self.now store week rung }
        ensures part { result ≤ 1000000 }
    {
        self.entries[place(self.stores, self.weeks, self.rungs, store, week, rung)]
    }

    /// Adds a mass to one entry, which stays at most 10^6, and leaves all others.
    pub fn add(&mut self, store: u32, week: u32, rung: u32, mass: u32)
        requires within { Within self.old.stores self.old.weeks self.old.rungs store week rung }
        requires part { usage_at self.old store week rung + mass ≤ 1000000 }
        ensures table { self.new ≡ record self.old { entries = slice_set self.old.entries (place self.old.stores self.old.rungs store week rung) (usage_at self.old store week rung + mass) } }
        ensures entry { usage_at self.new store week rung ≡ usage_at self.old store week rung + mass }
        ensures others { EachEntry self.old (λ s w r. (store ≡ s → week ≡ w → rung ≡ r → ⊥) → usage_at self.new s w r ≡ usage_at self.old s w r) }
    {
        let at = place(self.stores, self.weeks, self.rungs, store, week, rung);
        self.entries[at] += mass;
    }

    /// The directions of a usage: over the stores they sum to zero in each week on each rung, and none is more
    /// than 10^6 in size.
    pub fn directions(&self)
        ensures zero { VanishOverStores self.now (direction self.now) }
        ensures size { EachEntry self.now (λ store week rung. IsSmall 1000000 (direction self.now store week rung)) }
    {
        let _ = &self.entries;
    }

    /// All entries by week, then rung, then store.
    pub(crate) fn entries(&self) -> &[u32]
        ensures value { result.now ≡ self.now.entries }
        ensures count { length result.now ≡ self.now.weeks * self.now.rungs * self.now.stores }
        ensures part { (k : ℕ) → get_or result.now k 0 ≤ 1000000 }
        ensures table { IsUsage self.now }
    {
        &self.entries
    }
}

/// Where an entry stands, from 0.
pub(crate) fn place(stores: u32, weeks: u32, rungs: u32, store: u32, week: u32, rung: u32) -> usize
    requires sizes { AreSizes stores weeks rungs }
    requires within { Within stores weeks rungs store week rung }
    ensures value { result ≡ place stores rungs store week rung }
    ensures room { result < weeks * rungs * stores }
{
    let row = (week - 1) as usize * rungs as usize + (rung - 1) as usize;
    row * stores as usize + (store - 1) as usize
}
