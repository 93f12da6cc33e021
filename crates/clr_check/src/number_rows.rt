// Rows of numbers that are kept.
ghost use Rattle.clr_average.specs.Average.{IsWithin};
ghost use Rattle.clr_cert.specs.Entries.{most_entry};
ghost use Rattle.clr_check.specs.Rows.{AreSmall, IsPut, IsRowPut};
ghost use Rattle.std.specs.Prelude.{◌≡◌, ℕ, ◌+◌, ◌<◌, ◌≤◌, [], ◌∷◌, ◌++◌, length, get_or, pos, replicate, IfOk};

use std::alloc::{AllocError, Global};
use std::marker::Model;

/// Rows of numbers. They are seen as the list of the rows.
#[derive(Drop)]
pub(crate) struct Rows {
    rows: Vec<Vec<i64>>,
}

impl Model for Rows {
    ghost use Rattle.std.specs.Prelude.{List, ℤ, map};

    ghost Value = { List (List ℤ) };

    ghost view = { λ r. map (λ row. row.items) r.rows.items };
}

// The same number at 64 bits.
fn short(number: i128) -> i64
    requires { IsWithin most_entry number }
    ensures { result ≡ number }
{
    number as i64
}

// Puts numbers into a row, from an index on.
fn put_numbers(row: &mut [i64], from: usize, numbers: &[i128])
    requires room { from + length numbers.now ≤ length row.old }
    requires small { AreSmall most_entry numbers.now }
    ensures { IsRowPut row.old from numbers.now (length numbers.now) row.new }
{
    for index in 0..numbers.len() {
        row[from + index] = short(numbers[index]);
    }
}

impl Rows {
    /// No rows.
    pub(crate) fn new(alloc: Global) -> Rows
        ensures { result ≡ [] }
    {
        Rows {
            rows: Vec::new(alloc),
        }
    }

    /// Adds a row of so many zeros.
    ///
    /// # Errors
    /// Where memory is wanting.
    pub(crate) fn push(&mut self, alloc: Global, len: usize) -> Result<(), AllocError>
        ensures { IfOk result (λ _. self.new ≡ self.old ++ replicate len (pos 0) ∷ []) }
    {
        let row = vec![in alloc; 0; len]?;
        self.rows.push(row)?;
        Ok(())
    }

    /// A row, counted from 0.
    pub(crate) fn row(&self, at: usize) -> &[i64]
        requires { at < length self.now }
        ensures { result.now ≡ get_or self.now at [] }
    {
        &self.rows[at]
    }

    /// Puts numbers into a row, from an index on.
    pub(crate) fn put(&mut self, at: usize, from: usize, numbers: &[i128])
        requires at { at < length self.old }
        requires room { from + length numbers.now ≤ length (get_or self.old at []) }
        requires small { AreSmall most_entry numbers.now }
        ensures { IsPut self.old at from numbers.now self.new }
    {
        put_numbers(&mut self.rows[at], from, numbers);
    }
}
