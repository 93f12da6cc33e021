//! The rows of stock.csv and demand.csv, as they are drawn and printed.
ghost use Rattle.clr_make.specs.Draws.{state_after};
ghost use Rattle.clr_make.specs.Made.{demand_fields, demand_rows_from, draw_number, draws_before, line, lines, made_units, rung_rows, store_fields, store_name, store_rows, week_rows};
ghost use Rattle.std.specs.List.{flat_map};
ghost use Rattle.std.specs.Prelude.{◌≡◌, ◌+◌, ◌-◌, ◌<◌, ◌≤◌, ◌∷◌, ◌++◌, [], ℕ, decimal, map, OnOk};

use crate::draws::Draws;
use itoa::Buffer;
use std::alloc::AllocError;

/// The number of weeks of a made season.
const WEEKS: u32 = 12;

/// The number of rungs of its ladder.
const RUNGS: u32 = 6;

/// Draws a store and appends its row of stock.csv and its rows of demand.csv.
pub(crate) fn print_store(
    store: u32,
    draws: &mut Draws,
    stock: &mut Vec<u8>,
    demand: &mut Vec<u8>,
) -> Result<(), AllocError>
    requires { (1 ≤ store) × (store ≤ 24) }
    ensures draws { (seed : ℕ) → draws.old.state ≡ state_after seed (draws_before store) →
        OnOk result (draws.new.state ≡ state_after seed (draws_before (store + 1))) }
    ensures stock { (seed : ℕ) → draws.old.state ≡ state_after seed (draws_before store) →
        OnOk result (stock.new.items ≡ stock.old.items ++ line (store_fields store (made_units seed store))) }
    ensures demand { (seed : ℕ) → draws.old.state ≡ state_after seed (draws_before store) →
        OnOk result (demand.new.items ≡ demand.old.items ++ lines (store_rows seed store)) }
{
    let units = 20 + draws.draw() % 41;
    print_stock(store, units, stock)?;
    print_weeks(store, draws, demand)?;
    Ok(())
}

/// Draws the demand of a store and appends its rows of demand.csv.
fn print_weeks(store: u32, draws: &mut Draws, out: &mut Vec<u8>) -> Result<(), AllocError>
    requires { (1 ≤ store) × (store ≤ 24) }
    ensures draws { (seed : ℕ) → draws.old.state ≡ state_after seed (draws_before store + 1) →
        OnOk result (draws.new.state ≡ state_after seed (draws_before (store + 1))) }
    ensures text { (seed : ℕ) → draws.old.state ≡ state_after seed (draws_before store + 1) →
        OnOk result (out.new.items ≡ out.old.items ++ lines (store_rows seed store)) }
{
    for week in 1..WEEKS + 1 {
        print_week(store, week, draws, out)?;
    }
    Ok(())
}

/// Draws the demand of a store in a week and appends its rows of demand.csv.
fn print_week(store: u32, week: u32, draws: &mut Draws, out: &mut Vec<u8>) -> Result<(), AllocError>
    requires store { (1 ≤ store) × (store ≤ 24) }
    requires week { (1 ≤ week) × (week ≤ 12) }
    ensures draws { (seed : ℕ) → draws.old.state ≡ state_after seed (draw_number store week 0) →
        OnOk result (draws.new.state ≡ state_after seed (draw_number store (week + 1) 0)) }
    ensures text { (seed : ℕ) → draws.old.state ≡ state_after seed (draw_number store week 0) →
        OnOk result (out.new.items ≡ out.old.items ++ lines (week_rows seed store week)) }
{
    for rung in 1..RUNGS + 1 {
        print_rung(store, week, rung, draws, out)?;
    }
    Ok(())
}

/// Draws the demand of a store in a week on a rung and appends its rows of demand.csv.
fn print_rung(
    store: u32,
    week: u32,
    rung: u32,
    draws: &mut Draws,
    out: &mut Vec<u8>,
) -> Result<(), AllocError>
    requires store { (1 ≤ store) × (store ≤ 24) }
    requires rung { (1 ≤ rung) × (rung ≤ 6) }
    ensures draws { (seed : ℕ) → draws.old.state ≡ state_after seed (draw_number store week (rung - 1)) →
        OnOk result (draws.new.state ≡ state_after seed (draw_number store week rung)) }
    ensures text { (seed : ℕ) → draws.old.state ≡ state_after seed (draw_number store week (rung - 1)) →
        OnOk result (out.new.items ≡ out.old.items ++ lines (rung_rows seed store week rung)) }
{
    let least = (rung - 1 + draws.draw() % 3) / 2;
    print_demands(store, week, rung, least, out)?;
    Ok(())
}

/// Appends the rows of three demands, the least of which is given, with the weights 25, 50 and 25.
fn print_demands(
    store: u32,
    week: u32,
    rung: u32,
    least: u32,
    out: &mut Vec<u8>,
) -> Result<(), AllocError>
    requires store { (1 ≤ store) × (store ≤ 24) }
    requires least { least ≤ 200 }
    ensures { OnOk result (out.new.items ≡
        out.old.items ++ lines (demand_rows_from store week rung least)) }
{
    print_demand(store, [week, rung, least, 25], out)?;
    print_demand(store, [week, rung, least + 1, 50], out)?;
    print_demand(store, [week, rung, least + 2, 25], out)?;
    Ok(())
}

/// Appends a row of demand.csv. The numbers are its week, rung, units and weight.
fn print_demand(store: u32, numbers: [u32; 4], out: &mut Vec<u8>) -> Result<(), AllocError>
    requires { (1 ≤ store) × (store ≤ 24) }
    ensures { OnOk result (out.new.items ≡ out.old.items ++ line (store_name store ∷ map decimal numbers)) }
{
    print_name(store, out)?;
    print_numbers(&numbers, out)?;
    out.push(b'\n')?;
    Ok(())
}

/// Appends a row of stock.csv.
fn print_stock(store: u32, units: u32, out: &mut Vec<u8>) -> Result<(), AllocError>
    requires { (1 ≤ store) × (store ≤ 24) }
    ensures { OnOk result (out.new.items ≡ out.old.items ++ line (store_fields store units)) }
{
    print_name(store, out)?;
    print_numbers(&[units], out)?;
    out.extend_from_slice(b",5.00\n")
}

/// Appends the name of a store: an `s` and two digits.
fn print_name(store: u32, out: &mut Vec<u8>) -> Result<(), AllocError>
    requires { store < 100 }
    ensures { OnOk result (out.new.items ≡ out.old.items ++ store_name store) }
{
    let tens = (store / 10) as u8;
    let ones = (store % 10) as u8;
    out.extend_from_slice(&[b's', b'0' + tens, b'0' + ones])?;
    Ok(())
}

/// Appends each number after a comma, decimal without leading zeros.
fn print_numbers(numbers: &[u32], out: &mut Vec<u8>) -> Result<(), AllocError>
    ensures { OnOk result (out.new.items ≡
        out.old.items ++ flat_map (λ number. 44 ∷ decimal number) numbers.now) }
{
    let mut digits = Buffer::new();
    for number in numbers {
        out.push(b',')?;
        out.extend_from_slice(digits.format(*number).as_bytes())?;
    }
    Ok(())
}
