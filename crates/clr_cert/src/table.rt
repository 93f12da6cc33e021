// The tables of a certificate that have an entry for each number of weeks done, store and stock.
ghost use Rattle.clr_cert.specs.Tables.{ask_of, entry_of};
ghost use Rattle.std.specs.Prelude.{◌≡◌};

use crate::entries::Entries;
use clr_rules::Summary;

// A path's values, rounded down or up, or the stores' values under the multipliers at a summary.
#[derive(Clone, Copy)]
pub(crate) enum Table {
    Low,
    High,
    Value(Summary),
}

impl Table {
    // The entry after `done` weeks of a store with this stock.
    pub(crate) fn entry<E: Entries>(self, entries: &E, done: u32, store: u32, stock: u32) -> i64
        requires { E.may_ask entries.now (ask_of self done store stock) }
        ensures { result ≡ entry_of self (E.entries entries.now) done store stock }
    {
        match self {
            Table::Low => entries.low(done, store, stock),
            Table::High => entries.high(done, store, stock),
            Table::Value(s) => entries.value(done, store, s, stock),
        }
    }
}
