// What the lines of a certificate begin with.
#![tactic(auto, unfolding(crate::specs::Lines::key_text))]

ghost use Rattle.clr_cert.specs.Lines.{head_text, key_fields, key_text, summary_keys};
ghost use Rattle.clr_cert.specs.Places.{IsPlaceOf};
ghost use Rattle.clr_num.specs.Lists.{numbers};
ghost use Rattle.clr_model.specs.Fits.{fits, stock_lists};
ghost use Rattle.clr_rules.specs.LiveSummaries.{live_pairs, live_summaries};
ghost use Rattle.std.specs.Prelude.{◌≡◌, ◌+◌, ◌<◌, ◌≤◌, [], ◌∷◌, ◌++◌, IsTrue, length, map, suc};

use crate::counts::line_count;
use crate::line_buffer::LineBuffer;
use crate::place::Place;
use crate::stocks::list_of_stocks;
use clr_rules::{Live, Summary};
use clr_season::Season;

impl LineBuffer {
    /// Appends what the line of a place begins with: its word, and the numbers that the season and the place determine.
    pub fn put_keys(&mut self, season: &Season, live: &Live, place: Place)
        requires live { live.now ≡ live_pairs season.now.rules }
        requires place { IsPlaceOf season.now place }
        requires room { length self.old ≤ 65536 }
        ensures text { self.new ≡ self.old ++ key_text season.now place }
        ensures size { length self.new ≤ length self.old + 3000 }
    {
        match place {
            Place::Head => self.put_head(season),
            Place::Lengths => self.put_lengths(season, live),
            Place::Path => self.put(b"path"),
            Place::Mult { week, rung } => self.put_pair(b"m", week, rung),
            Place::Low { done, store } => self.put_pair(b"l", done, store),
            Place::High { done, store } => self.put_pair(b"h", done, store),
            Place::Value { done, store, s } => {
                self.put_pair(b"v", done, store);
                self.put_summary(s);
            }
            Place::Joint { done, s, index } => self.put_joint_keys(season, done, s, index),
            Place::Revenue => self.put(b"revenue"),
            Place::Bound => self.put(b"bound"),
            Place::Exact => self.put(b"exact"),
            Place::End => {}
        }
    }

    fn put_head(&mut self, season: &Season)
        requires room { length self.old ≤ 65536 }
        ensures text { self.new ≡ self.old ++ head_text season.now }
        ensures size { length self.new ≤ length self.old + 3000 }
    {
        if season.version() == 3 {
            self.put(b"clearance certificate 2");
        } else {
            self.put(b"clearance certificate 1");
        }
    }

    fn put_pair(&mut self, word: &[u8], first: u32, second: u32)
        requires room { length self.old ≤ 65536 }
        requires word { length word.now ≤ 1 }
        ensures text { self.new ≡ self.old ++ (word.now ++ key_fields (first ∷ second ∷ [])) }
        ensures size { length self.new ≤ length self.old + 83 }
    {
        self.put(word);
        self.put_field(first);
        self.put_field(second);
    }

    fn put_summary(&mut self, s: Summary)
        requires room { length self.old ≤ 66000 }
        ensures text { self.new ≡ self.old ++ key_fields (summary_keys s) }
        ensures size { length self.new ≤ length self.old + 123 }
    {
        self.put_field(s.last);
        self.put_field(s.count);
        self.put_field(s.age);
    }

    #[tactic(auto, unfolding(crate::specs::Lines::length_keys))]
    fn put_lengths(&mut self, season: &Season, live: &Live)
        requires live { live.now ≡ live_pairs season.now.rules }
        requires room { length self.old ≤ 65536 }
        ensures text { self.new ≡ self.old ++ key_text season.now Place.Lengths }
        ensures size { length self.new ≤ length self.old + 3000 }
    {
        self.put(b"lengths");
        self.put_field(line_count(season, live));
        self.put_counts(season, live);
    }

    // The number of live summaries after each number of weeks.
    fn put_counts(&mut self, season: &Season, live: &Live)
        requires live { live.now ≡ live_pairs season.now.rules }
        requires room { length self.old ≤ 66000 }
        ensures text { self.new ≡ self.old ++ key_fields
            (map (λ done. length (live_summaries season.now.rules done)) (numbers 0 (suc season.now.rules.weeks))) }
        ensures size { length self.new ≤ length self.old + 2200 }
    {
        for done in 0..season.weeks() + 1 {
            self.put_field(live.count(done));
        }
    }

    fn put_joint_keys(&mut self, season: &Season, done: u32, s: Summary, index: u64)
        requires fits { IsTrue (fits season.now) }
        requires index { index < stock_lists season.now.stores }
        requires room { length self.old ≤ 65536 }
        ensures text { self.new ≡ self.old ++ key_text season.now (Place.Joint done s index) }
        ensures size { length self.new ≤ length self.old + 3000 }
    {
        let stocks = list_of_stocks(season, index);
        self.put(b"j");
        self.put_field(done);
        self.put_summary(s);
        self.put_stocks(&stocks[..season.stores() as usize]);
    }

    fn put_stocks(&mut self, stocks: &[u32])
        requires room { length self.old ≤ 66000 }
        requires few { length stocks.now ≤ 4 }
        ensures text { self.new ≡ self.old ++ key_fields stocks.now }
        ensures size { length self.new ≤ length self.old + 164 }
    {
        for stock in stocks {
            self.put_field(*stock);
        }
    }
}
