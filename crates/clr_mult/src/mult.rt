// Multipliers by store, week and rung.
ghost use Rattle.clr_mult.specs.Steps.{IsSmall, SumsToZero, direction, stepped};
ghost use Rattle.clr_mult.specs.Tables.{AreSizes, EachEntry, SameSizes, Within, mult_at, zero_mult};
ghost use Rattle.std.specs.Prelude.{◌≡◌, ◌*◌, ◌≤◌, pos, ◌-ℤ◌, ◌*ℤ◌, IfOk, OnErr};

use crate::rows::next_entries;
use crate::usage::{Usage, place};
use std::alloc::{AllocError, Global};
use std::marker::Model;

/// A multiplier for each store, week and rung, in units of 10^-8 of the currency. Over the stores those of each
/// week and rung sum to zero. It is seen as the record of its sizes and its numbers.
#[derive(Drop)]
pub struct Mult {
    stores: u32,
    weeks: u32,
    rungs: u32,
    entries: Vec<i64>,
}

impl Model for Mult {
    ghost use Rattle.std.specs.Prelude.{ℤ};
    ghost use Rattle.clr_mult.specs.Steps.{IsMult};
    ghost use Rattle.clr_mult.specs.Tables.{Table};

    ghost Value = { Table ℤ };

    ghost view = { λ t. record { stores = t.stores; weeks = t.weeks; rungs = t.rungs; entries = t.entries.items } };

    ghost invariant = { λ t. IsMult (record { stores = t.stores; weeks = t.weeks; rungs = t.rungs; entries = t.entries.items }) };
}

impl Mult {
    /// Multipliers of 0, for 1 to 64 stores, 1 to 52 weeks and 1 to 12 rungs.
    ///
    /// # Errors
    /// Where memory is wanting.
    pub fn zero(alloc: Global, stores: u32, weeks: u32, rungs: u32) -> Result<Mult, AllocError>
        requires { AreSizes stores weeks rungs }
        ensures table { IfOk result (λ mult. mult ≡ zero_mult stores weeks rungs) }
        ensures entries { IfOk result (λ mult. EachEntry mult (λ store week rung. mult_at mult store week rung ≡ pos 0)) }
    {
        let count = weeks as usize * rungs as usize * stores as usize;
        let entries = vec![in alloc; 0; count]?;
        Ok(Mult {
            stores,
            weeks,
            rungs,
            entries,
        })
    }

    /// The multiplier of a store on a rung in a week.
    pub fn at(&self, store: u32, week: u32, rung: u32) -> i64
        requires { Within self.now.stores self.now.weeks self.now.rungs store week rung }
        ensures { result ≡ mult_at self.now store week rung }
    {
        self.entries[place(self.stores, self.weeks, self.rungs, store, week, rung)]
    }

    /// A table with the same entries.
    ///
    /// # Errors
    /// Where memory is wanting.
    pub fn copy(&self) -> Result<Mult, AllocError>
        ensures { IfOk result (λ mult. mult ≡ self.now) }
    {
        let entries = Vec::from_slice(*self.entries.allocator(), &self.entries)?;
        Ok(Mult {
            stores: self.stores,
            weeks: self.weeks,
            rungs: self.rungs,
            entries,
        })
    }

    /// A step: each entry goes `q` times against the direction of its usage. It moves by at most 10^6 times `q`,
    /// so by at most 10^14. The two tables are of one size, `q` is at most 10^8, and no entry is larger than 9 * 10^15. The
    /// rule is that of docs/model.md, "The descent".
    ///
    /// # Errors
    /// Where memory is wanting; the table is then as before.
    pub fn step(&mut self, q: u64, usage: &Usage) -> Result<(), AllocError>
        requires sizes { SameSizes self.old usage.now }
        requires factor { q ≤ 100000000 }
        requires small { EachEntry self.old (λ store week rung. IsSmall 9000000000000000 (mult_at self.old store week rung)) }
        ensures table { IfOk result (λ _. self.new ≡ stepped q usage.now self.old) }
        ensures entries { IfOk result (λ _. EachEntry self.old (λ store week rung. mult_at self.new store week rung ≡ mult_at self.old store week rung -ℤ pos q *ℤ direction usage.now store week rung)) }
        ensures near { IfOk result (λ _. EachEntry self.old (λ store week rung. IsSmall (q * 1000000) (mult_at self.new store week rung -ℤ mult_at self.old store week rung))) }
        ensures kept { OnErr result (self.new ≡ self.old) }
    {
        let rows = self.weeks as usize * self.rungs as usize;
        let next = next_entries(
            *self.entries.allocator(),
            q,
            self.stores as usize,
            rows,
            usage.entries(),
            &self.entries,
        )?;
        self.entries = next;
        Ok(())
    }

    /// Over the stores the multipliers of each week and rung sum to zero.
    pub fn sums_to_zero(&self)
        ensures { SumsToZero self.now }
    {
        let _ = &self.entries;
    }
}
