// The sums of the last lines, over all stores at full stocks before the first week.
ghost use Rattle.clr_average.specs.Average.{IsWithin};
ghost use Rattle.clr_cert.specs.Entries.{AreInRange, MayBeAsked, most_entry};
ghost use Rattle.clr_cert.specs.Lines.{opening_sum};
ghost use Rattle.clr_cert.specs.Tables.{IsRowAsked, entry_of};
ghost use Rattle.std.specs.Prelude.{◌≡◌, ℕ, ◌+ℤ◌, ◌*◌, ◌≤◌, length};

use crate::entries::Entries;
use crate::table::Table;
use clr_season::Season;

// The sum of a table's entries over the stores.
pub(crate) fn opening_total<E: Entries>(season: &Season, entries: &E, table: Table) -> i128
    requires rows { (store : ℕ) → 1 ≤ store → store ≤ length season.now.stores → IsRowAsked season.now table 0 store }
    requires asked { MayBeAsked season.now (E.may_ask entries.now) }
    requires ranges { AreInRange season.now (E.entries entries.now) }
    ensures { result ≡ opening_sum season.now (entry_of table (E.entries entries.now) 0) }
{
    let mut total = 0;
    for index in 0..season.stores() {
        let store = index + 1;
        let stock = season.stock(store);
        total = added(total, table.entry(entries, 0, store, stock));
    }
    total
}

// A sum of at most 64 entries, with one more.
fn added(total: i128, entry: i64) -> i128
    requires total { IsWithin (64 * most_entry) total }
    requires entry { IsWithin most_entry entry }
    ensures { result ≡ total +ℤ entry }
{
    total + i128::from(entry)
}
