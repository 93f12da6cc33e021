// The weights of a season's demands.
ghost use Rattle.std.specs.Prelude.{◌≡◌, ◌≤◌, ◌<◌, ◌-◌, ◌+◌, ◌*◌, [], ℕ, List, suc, length, sum, drop, slice_index_or, IfOk};
ghost use Rattle.clr_text.specs.Tables.{Gives};
ghost use Rattle.clr_demand.specs.Demand.{demand_of};
ghost use Rattle.clr_demand.specs.Places.{size};
ghost use Rattle.clr_demand.specs.Weights.{AreWeights, flat_row, row_number, tail_at, weight_at, weights_at};

use crate::balanced::read_balanced;
use crate::cells::Cells;
use crate::row::Sizes;
use crate::scale;
use crate::shape::Shape;
use clr_text::{FileError, Names};
use std::alloc::Global;
use std::marker::Model;

/// How likely each demand is: its weight out of the base, for each store, week and rung, each
/// numbered from 1, and each number of units from 0 to the greatest that the season lists. The
/// weights of a store, a week and a rung sum to the base.
#[derive(Drop)]
pub struct Demand {
    shape: Shape,
    base: u32,
    weights: Vec<u32>,
}

impl Model for Demand {
    ghost use Rattle.clr_demand.specs.Weights.{DemandWeights};
    ghost use Rattle.clr_demand.specs.FlatWeights.{IsBalanced, weights_in};

    ghost Value = { DemandWeights };

    ghost view = { λ d. weights_in d.shape d.base d.weights.items };

    ghost invariant = { λ d. IsBalanced d.shape d.base d.weights.items };
}

// The row of a store, a week and a rung.
fn row_of(weights: &[u32], shape: Shape, store: u32, week: u32, rung: u32) -> &[u32]
    requires stores { shape.stores ≤ 64 }
    requires weeks { shape.weeks ≤ 52 }
    requires rungs { shape.rungs ≤ 12 }
    requires top { shape.top ≤ 200 }
    requires size { length weights.now ≡ size shape }
    requires store { (1 ≤ store) × (store ≤ shape.stores) }
    requires week { (1 ≤ week) × (week ≤ shape.weeks) }
    requires rung { (1 ≤ rung) × (rung ≤ shape.rungs) }
    ensures { result.now ≡ flat_row (shape.top + 1) weights.now (row_number shape.weeks shape.rungs store week rung) }
{
    let width = shape.top as usize + 1;
    let week_number = (store as usize - 1) * shape.weeks as usize + (week as usize - 1);
    let start = (week_number * shape.rungs as usize + (rung as usize - 1)) * width;
    &weights[start..start + width]
}

// The sum of weights.
fn sum_of(weights: &[u32]) -> u32
    requires { sum weights.now ≤ 1000000 }
    ensures { result ≡ sum weights.now }
{
    weights.iter().sum()
}

/// The demand of demand.csv, of at most 33,554,432 bytes, with the columns `store`, `week`, `rung`,
/// `units` and `weight`: a store's name, a week, a rung, units from 0 to 200 and their weight out
/// of the base. The rows stand in any order, and what no row lists weighs 0.
///
/// The season has the stores of `names`, 1 to 64, numbered from 1 as they are there, 1 to 52
/// `weeks` and 1 to 12 `rungs`, and a `base` of 1 to 1,000,000. Where `scaled`, the listed weights
/// of a store, a week and a rung may sum to any divisor of the base, and are multiplied so that
/// they sum to it.
///
/// # Errors
///
/// The file's first refusal. First `Header` and then `Fields` over all rows. Then row by row, from
/// the left: `Unknown` of a store that isn't among the names; `Number` and `Range` of the week, the
/// rung, the units and the weight, which is at most the base; and last in a row, at column 0,
/// `Repeat` with the first row that lists the same store, week, rung and units. Behind all rows, at
/// row 0, `Total` with the sum of the first store, week and rung whose listed weights don't sum to
/// the base, or, where `scaled`, sum to 0 or to no divisor of it. They are in the order of stores,
/// then weeks, then rungs. `Memory` may come in place of any answer.
pub fn read_demand(
    alloc: Global,
    bytes: &[u8],
    names: &Names,
    weeks: u32,
    rungs: u32,
    base: u32,
    scaled: bool,
) -> Result<Demand, FileError>
    requires bytes { length bytes.now ≤ 33554432 }
    requires names { (1 ≤ length names.now) × (length names.now ≤ 64) }
    requires weeks { (1 ≤ weeks) × (weeks ≤ 52) }
    requires rungs { (1 ≤ rungs) × (rungs ≤ 12) }
    requires base { (1 ≤ base) × (base ≤ 1000000) }
    ensures gives { Gives (λ d. d) result (demand_of names.now (record { weeks = weeks; rungs = rungs; base = base }) scaled bytes.now) }
    ensures facts { IfOk result (λ d. AreWeights (length names.now) weeks rungs base d) }
{
    let sizes = Sizes { weeks, rungs, base };
    let cells = read_balanced(alloc, bytes, names, sizes, scaled)?;
    let Cells { shape, weights, .. } = cells;
    Ok(Demand {
        shape,
        base,
        weights: scale::scaled(weights, shape.top as usize + 1, base),
    })
}

impl Demand {
    /// The greatest units that the season lists, from 0 to 200.
    pub fn top(&self) -> u32
        ensures top { result ≡ self.now.top }
        ensures high { result ≤ 200 }
        ensures facts { AreWeights self.now.stores self.now.weeks self.now.rungs self.now.base self.now }
    {
        self.shape.top
    }

    /// The weights of a store, a week and a rung, each from 1, out of the base: at each index, from
    /// 0 to the greatest units, that of a demand of so many units.
    pub fn weights(&self, store: u32, week: u32, rung: u32) -> &[u32]
        requires store { (1 ≤ store) × (store ≤ self.now.stores) }
        requires week { (1 ≤ week) × (week ≤ self.now.weeks) }
        requires rung { (1 ≤ rung) × (rung ≤ self.now.rungs) }
        ensures weights { result.now ≡ weights_at self.now store week rung }
        ensures len { length result.now ≡ suc self.now.top }
        ensures sum { sum result.now ≡ self.now.base }
        ensures top { self.now.top ≤ 200 }
        ensures base { self.now.base ≤ 1000000 }
    {
        row_of(&self.weights, self.shape, store, week, rung)
    }

    /// The weight of a demand of so many units, from 0 to the greatest, at a store, in a week and
    /// on a rung, each from 1, out of the base.
    pub fn weight(&self, store: u32, week: u32, rung: u32, units: u32) -> u32
        requires store { (1 ≤ store) × (store ≤ self.now.stores) }
        requires week { (1 ≤ week) × (week ≤ self.now.weeks) }
        requires rung { (1 ≤ rung) × (rung ≤ self.now.rungs) }
        requires units { units ≤ self.now.top }
        ensures { result ≡ weight_at self.now store week rung units }
    {
        self.weights(store, week, rung)[units as usize]
    }

    /// The weight of all demands of at least so many units at a store, in a week and on a rung,
    /// each from 1, out of the base. Of 0 units it is the base, and one unit past the greatest it
    /// is 0.
    pub fn tail(&self, store: u32, week: u32, rung: u32, units: u32) -> u32
        requires store { (1 ≤ store) × (store ≤ self.now.stores) }
        requires week { (1 ≤ week) × (week ≤ self.now.weeks) }
        requires rung { (1 ≤ rung) × (rung ≤ self.now.rungs) }
        requires units { units ≤ self.now.top + 1 }
        ensures { result ≡ tail_at self.now store week rung units }
    {
        sum_of(&self.weights(store, week, rung)[units as usize..])
    }
}
