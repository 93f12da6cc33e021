// The numbers of a certificate's lines, and whole lines.
#![tactic(auto, unfolding(crate::specs::Lines::numbers_at))]

ghost use Rattle.clr_cert.specs.Entries.{AreInRange, IsJointCell, MayBeAsked};
ghost use Rattle.clr_cert.specs.Lines.{joint_numbers, line_at, number_fields, numbers_at, opening, stocks_of, two_values};
ghost use Rattle.clr_cert.specs.Tables.{IsRowAsked, entry_of};
ghost use Rattle.clr_cert.specs.Places.{IsPlaceOf, IsWeekRung, IsWeekStore, store_numbers, week_numbers};
ghost use Rattle.clr_model.specs.Fits.{fits};
ghost use Rattle.clr_model.specs.Revenue.{full_stocks};
ghost use Rattle.clr_rules.specs.FirstPath.{SomePathObeys};
ghost use Rattle.clr_rules.specs.LiveSummaries.{live_pairs};
ghost use Rattle.clr_rules.specs.Rules.{IsLiveSummary};
ghost use Rattle.clr_season.specs.Season.{IsSeason};
ghost use Rattle.std.specs.Prelude.{◌≡◌, ◌+◌, ◌≤◌, [], ◌∷◌, ◌++◌, IsTrue, length, map, pos};

use crate::entries::Entries;
use crate::line_buffer::LineBuffer;
use crate::place::Place;
use crate::stocks::list_of_stocks;
use crate::table::Table;
use crate::totals::opening_total;
use clr_model::lists_of_stocks;
use clr_rules::{Live, Summary};
use clr_season::Season;

impl LineBuffer {
    // Appends the rungs of a path.
    fn put_rungs<E: Entries>(&mut self, season: &Season, entries: &E)
        requires asked { MayBeAsked season.now (E.may_ask entries.now) }
        requires room { length self.old ≤ 69000 }
        ensures text { self.new ≡ self.old ++ number_fields (map (λ week. pos ((E.entries entries.now).rung week)) (week_numbers season.now)) }
        ensures size { length self.new ≤ length self.old + 82100 }
    {
        for index in 0..season.weeks() {
            self.put_field(entries.rung(index + 1));
        }
    }

    // Appends the multipliers of all stores in a week on a rung.
    fn put_mults<E: Entries>(&mut self, season: &Season, entries: &E, week: u32, rung: u32)
        requires place { IsWeekRung season.now week rung }
        requires asked { MayBeAsked season.now (E.may_ask entries.now) }
        requires room { length self.old ≤ 69000 }
        ensures text { self.new ≡ self.old ++ number_fields (map (λ store. (E.entries entries.now).mult store week rung) (store_numbers season.now)) }
        ensures size { length self.new ≤ length self.old + 82100 }
    {
        for index in 0..season.stores() {
            self.put_field(entries.mult(index + 1, week, rung));
        }
    }

    // Appends a table's entries of a store, by its stock.
    fn put_entries<E: Entries>(
        &mut self,
        season: &Season,
        entries: &E,
        table: Table,
        done: u32,
        store: u32,
    )
        requires place { IsWeekStore season.now done store }
        requires row { IsRowAsked season.now table done store }
        requires asked { MayBeAsked season.now (E.may_ask entries.now) }
        requires room { length self.old ≤ 69000 }
        ensures text { self.new ≡ self.old ++ number_fields (map (entry_of table (E.entries entries.now) done store) (stocks_of season.now store)) }
        ensures size { length self.new ≤ length self.old + 82100 }
    {
        for stock in 0..season.stock(store) + 1 {
            self.put_field(table.entry(entries, done, store, stock));
        }
    }

    // Appends the rung and the values of all stores with these stocks.
    fn put_joint<E: Entries>(
        &mut self,
        season: &Season,
        entries: &E,
        done: u32,
        s: Summary,
        stocks: &[u32],
    )
        requires cell { IsJointCell season.now done s stocks.now }
        requires asked { MayBeAsked season.now (E.may_ask entries.now) }
        requires room { length self.old ≤ 69000 }
        ensures text { self.new ≡ self.old ++ number_fields (joint_numbers ((E.entries entries.now).joint done s stocks.now)) }
        ensures size { length self.new ≤ length self.old + 82100 }
    {
        let (rung, low, top) = entries.joint(done, s, stocks);
        self.put_field(rung);
        self.put_field(low);
        self.put_field(top);
    }

    // Appends the values of all stores at full stocks before the first week.
    fn put_exact<E: Entries>(&mut self, season: &Season, entries: &E)
        requires fits { IsTrue (fits season.now) }
        requires any { SomePathObeys season.now.rules }
        requires asked { MayBeAsked season.now (E.may_ask entries.now) }
        requires room { length self.old ≤ 69000 }
        ensures text { self.new ≡ self.old ++ number_fields (two_values ((E.entries entries.now).joint 0 (opening season.now) (full_stocks season.now))) }
        ensures size { length self.new ≤ length self.old + 82100 }
    {
        // The last list has the full stocks.
        let stocks = list_of_stocks(season, lists_of_stocks(season) - 1);
        let held = &stocks[..season.stores() as usize];
        let (_, low, top) = entries.joint(0, season.rules().start(), held);
        self.put_field(low);
        self.put_field(top);
    }

    // Appends the numbers of the line of a place.
    fn put_numbers<E: Entries>(&mut self, season: &Season, entries: &E, place: Place)
        requires facts { IsSeason season.now }
        requires any { SomePathObeys season.now.rules }
        requires place { IsPlaceOf season.now place }
        requires asked { MayBeAsked season.now (E.may_ask entries.now) }
        requires ranges { AreInRange season.now (E.entries entries.now) }
        requires room { length self.old ≤ 69000 }
        ensures text { self.new ≡ self.old ++ number_fields (numbers_at season.now (E.entries entries.now) place) }
        ensures size { length self.new ≤ length self.old + 82100 }
    {
        match place {
            Place::Path => self.put_rungs(season, entries),
            Place::Mult { week, rung } => self.put_mults(season, entries, week, rung),
            Place::Low { done, store } => {
                self.put_entries(season, entries, Table::Low, done, store);
            }
            Place::High { done, store } => {
                self.put_entries(season, entries, Table::High, done, store);
            }
            Place::Value { done, store, s } => {
                self.put_entries(season, entries, Table::Value(s), done, store);
            }
            Place::Joint { done, s, index } => {
                let stocks = list_of_stocks(season, index);
                let held = &stocks[..season.stores() as usize];
                self.put_joint(season, entries, done, s, held);
            }
            Place::Revenue => {
                self.put_field(opening_total(season, entries, Table::Low));
                self.put_field(opening_total(season, entries, Table::High));
            }
            Place::Bound => {
                let values = Table::Value(season.rules().start());
                self.put_field(opening_total(season, entries, values));
            }
            Place::Exact => self.put_exact(season, entries),
            Place::Head | Place::Lengths | Place::End => {}
        }
    }

    /// Appends the line of a place, and the line feed after it.
    pub(crate) fn put_line<E: Entries>(
        &mut self,
        season: &Season,
        live: &Live,
        entries: &E,
        place: Place,
    )
        requires facts { IsSeason season.now }
        requires live { live.now ≡ live_pairs season.now.rules }
        requires any { SomePathObeys season.now.rules }
        requires place { IsPlaceOf season.now place }
        requires asked { MayBeAsked season.now (E.may_ask entries.now) }
        requires ranges { AreInRange season.now (E.entries entries.now) }
        requires room { length self.old ≤ 65536 }
        ensures text { self.new ≡ self.old ++ (line_at season.now (E.entries entries.now) place ++ 10 ∷ []) }
        ensures size { length self.new ≤ length self.old + 90000 }
    {
        self.put_keys(season, live, place);
        self.put_numbers(season, entries, place);
        self.put(b"\n");
    }
}
