// A season as the code keeps it.
ghost use Rattle.std.specs.Prelude.{◌≡◌, ◌≤◌, ℕ, suc, length, map, sum};
ghost use Rattle.clr_rules.specs.Rules.{price};
ghost use Rattle.clr_season.specs.Season.{IsPlace, IsSeason, store_at, tail, weights_of, weight};
ghost use Rattle.clr_season.specs.View.{FitTogether, season_from};

use clr_demand::Demand;
use clr_rules::Rules;
use clr_stock::Stock;
use clr_text::Names;
use std::marker::Model;

/// A season of a chain of stores that share one price each week. Stores, weeks and rungs are counted
/// from 1. It is seen as the `Season` of the definitions, and `IsSeason` holds of it.
#[derive(Drop)]
pub struct Season {
    version: u32,
    rules: Rules,
    stock: Stock,
    base: u32,
    demand: Demand,
}

impl Model for Season {
    ghost use Rattle.clr_season.specs.Season.{Season};
    ghost use Rattle.clr_season.specs.View.{FitTogether, season_from};

    ghost Value = { Season };

    ghost view = { λ s. season_from s.version s.rules s.stock s.base s.demand };

    ghost invariant = { λ s. FitTogether s.version s.rules s.stock s.base s.demand };
}

impl Season {
    // The season of parts that belong together.
    pub(crate) fn of_parts(
        version: u32,
        rules: Rules,
        stock: Stock,
        base: u32,
        demand: Demand,
    ) -> Season
        requires { FitTogether version rules stock base demand }
        ensures { result ≡ season_from version rules stock base demand }
    {
        Season {
            version,
            rules,
            stock,
            base,
            demand,
        }
    }

    /// The version of rules.json, from 1 to 3.
    pub fn version(&self) -> u32
        ensures value { result ≡ self.now.version }
        ensures facts { IsSeason self.now }
    {
        self.version
    }

    /// The number of stores, from 1 to 64.
    pub fn stores(&self) -> u32
        ensures value { result ≡ length self.now.stores }
        ensures facts { IsSeason self.now }
    {
        self.stock.len()
    }

    /// The number of weeks, from 1 to 52.
    pub fn weeks(&self) -> u32
        ensures value { result ≡ self.now.rules.weeks }
        ensures facts { IsSeason self.now }
    {
        self.rules.weeks()
    }

    /// The number of rungs of the price ladder, from 1 to 12.
    pub fn rungs(&self) -> u32
        ensures value { result ≡ length self.now.rules.prices }
        ensures facts { IsSeason self.now }
    {
        self.rules.rungs()
    }

    /// What the weights of each store, week and rung sum to, from 1 to 1,000,000.
    pub fn base(&self) -> u32
        ensures value { result ≡ self.now.base }
        ensures facts { IsSeason self.now }
    {
        self.base
    }

    /// The greatest demand that is listed, from 0 to 200.
    pub fn top(&self) -> u32
        ensures value { result ≡ self.now.top }
        ensures facts { IsSeason self.now }
    {
        self.demand.top()
    }

    /// The price of a rung in cents.
    pub fn price(&self, rung: u32) -> u64
        requires low { 1 ≤ rung }
        requires high { rung ≤ length self.now.rules.prices }
        ensures value { result ≡ price self.now.rules rung }
        ensures range { (1 ≤ result) × (result ≤ 10000000) }
    {
        self.rules.price(rung)
    }

    /// The units that a store opens with, up to 2,000.
    pub fn stock(&self, store: u32) -> u32
        requires low { 1 ≤ store }
        requires high { store ≤ length self.now.stores }
        ensures value { result ≡ (store_at self.now store).units }
        ensures range { result ≤ 2000 }
    {
        self.stock.units(store)
    }

    /// What a unit that is left at the end earns a store, in cents.
    pub fn salvage(&self, store: u32) -> u64
        requires low { 1 ≤ store }
        requires high { store ≤ length self.now.stores }
        ensures value { result ≡ (store_at self.now store).salvage }
        ensures range { result ≤ 10000000 }
    {
        self.stock.salvage(store)
    }

    /// What a store pays in each markdown week, in cents.
    pub fn relabel(&self, store: u32) -> u64
        requires low { 1 ≤ store }
        requires high { store ≤ length self.now.stores }
        ensures value { result ≡ (store_at self.now store).relabel }
        ensures range { result ≤ 10000000 }
    {
        self.stock.relabel(store)
    }

    /// The weights of a store's demands in a week on a rung, out of the base, by units from 0.
    pub fn weights(&self, store: u32, week: u32, rung: u32) -> &[u32]
        requires { IsPlace self.now store week rung }
        ensures value { result.now ≡ weights_of self.now store week rung }
        ensures count { length result.now ≡ suc self.now.top }
        ensures whole { sum result.now ≡ self.now.base }
    {
        self.demand.weights(store, week, rung)
    }

    /// The weight of a demand of a store in a week on a rung, out of the base.
    pub fn weight(&self, store: u32, week: u32, rung: u32, units: u32) -> u32
        requires place { IsPlace self.now store week rung }
        requires units { units ≤ self.now.top }
        ensures value { result ≡ weight self.now store week rung units }
        ensures range { result ≤ self.now.base }
    {
        self.demand.weight(store, week, rung, units)
    }

    /// The weight of all demands of at least so many units, of a store in a week on a rung, out of the base. One unit
    /// past the greatest demand it is 0.
    pub fn tail(&self, store: u32, week: u32, rung: u32, units: u32) -> u32
        requires place { IsPlace self.now store week rung }
        requires units { units ≤ suc self.now.top }
        ensures { result ≡ tail self.now store week rung units }
    {
        self.demand.tail(store, week, rung, units)
    }

    /// The names of the stores.
    pub fn names(&self) -> &Names
        ensures { result.now ≡ map (λ store. store.name) self.now.stores }
    {
        self.stock.names()
    }

    /// The rules.
    pub fn rules(&self) -> &Rules
        ensures value { result.now ≡ self.now.rules }
        ensures facts { IsSeason self.now }
    {
        &self.rules
    }
}
