// What a certificate is written from.
ghost use Rattle.clr_cert.specs.Entries.{Call, CertEntries, ask_high, ask_joint, ask_low, ask_mult, ask_rung, ask_value};
ghost use Rattle.std.specs.Prelude.{◌≡◌};

use clr_rules::Summary;

/// The path, the multipliers and the tables of a certificate. No call takes memory.
///
/// Stores, weeks and rungs are counted from 1, the weeks done and the stocks from 0. Values and multipliers are in units,
/// of which a cent has 10^6.
pub trait Entries {
    /// The numbers that the calls give.
    ghost entries: { Self → CertEntries };

    /// Which calls may be made.
    ghost may_ask: { Self → Call → Type 0 };

    /// The rung of a week.
    fn rung(&self, week: u32) -> u32
        requires { may_ask self.now (ask_rung week) }
        ensures { result ≡ (entries self.now).rung week };

    /// The multiplier of a store in a week on a rung.
    fn mult(&self, store: u32, week: u32, rung: u32) -> i64
        requires { may_ask self.now (ask_mult store week rung) }
        ensures { result ≡ (entries self.now).mult store week rung };

    /// The path's value to a store after `done` weeks with this stock, rounded down each week.
    fn low(&self, done: u32, store: u32, stock: u32) -> i64
        requires { may_ask self.now (ask_low done store stock) }
        ensures { result ≡ (entries self.now).low done store stock };

    /// The path's value to a store after `done` weeks with this stock, rounded up each week.
    fn high(&self, done: u32, store: u32, stock: u32) -> i64
        requires { may_ask self.now (ask_high done store stock) }
        ensures { result ≡ (entries self.now).high done store stock };

    /// A store's value under the multipliers, after `done` weeks with this summary and stock.
    fn value(&self, done: u32, store: u32, s: Summary, stock: u32) -> i64
        requires { may_ask self.now (ask_value done store s stock) }
        ensures { result ≡ (entries self.now).value done store s stock };

    /// After `done` weeks with this summary and the stocks of all stores: the rung chosen for the next week, 0 where none
    /// comes, and the value of all stores rounded down and rounded up.
    fn joint(&self, done: u32, s: Summary, stocks: &[u32]) -> (u32, i64, i64)
        requires { may_ask self.now (ask_joint done s stocks.now) }
        ensures { result ≡ (entries self.now).joint done s stocks.now };
}
