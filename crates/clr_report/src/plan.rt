//! The plan report.
ghost use Rattle.clr_report.specs.PlanText.{best_line, bound_line, exact_line, gap_line, path_line, plan_text, prices_line, revenue_line, season_line, sizes_of, IsPlanOf, PlanTextDetermines};
ghost use Rattle.clr_rules.specs.Rules.{IsPath, price};
ghost use Rattle.clr_average.specs.Average.{IsWithin};
ghost use Rattle.clr_num.specs.Money.{cents_text, money_text};
ghost use Rattle.std.specs.List.{flat_map};
ghost use Rattle.std.specs.Prelude.{◌≡◌, ◌∷◌, ◌++◌, ◌-ℤ◌, decimal, map, IfOk, OnOk, Some};

use clr_model::Path;
use clr_num::{print_cents, print_money};
use clr_season::Season;
use itoa::Buffer;
use std::alloc::{AllocError, Global};

/// How large a season is, and the base of its weights.
#[derive(Clone, Copy)]
pub(crate) struct PlanSizes {
    /// The number of stores.
    pub stores: u32,
    /// The number of weeks.
    pub weeks: u32,
    /// The number of rungs of the ladder.
    pub rungs: u32,
    /// What the weights of a store's demands in a week on a rung sum to.
    pub base: u32,
}

/// What a plan report tells of a season. Money is in units of 10^-8 of the currency.
#[derive(Drop)]
pub struct PlanFacts {
    /// The rung of each week.
    pub path: Path,
    /// The path's value rounded down.
    pub low: i128,
    /// The path's value rounded up.
    pub high: i128,
    /// Whether the search took all tight prefixes: then no path that obeys the rules has a greater low value, and each other
    /// with that value comes later in the order of lists.
    pub best: bool,
    /// What no policy that obeys the rules earns more than.
    pub bound: i128,
    /// The first step of the descent that gave the bound, from 0.
    pub at_step: u32,
    /// Where all stores were solved together: what they earn at most, rounded down and rounded up, and the rung that the
    /// table policy begins with, from 1.
    pub exact: Option<(i128, i128, u32)>,
}

/// The plan report: the season's sizes, the path, its prices and its revenue, whether it is the best, the bound over all
/// policies with the step that gave it, the gap from the path's low value up to the bound, and the exact values of all stores
/// together, which `facts` has exactly where the season is small enough.
///
/// Each line ends with one line feed. The lines are those of docs/formats.md, "The plan report".
///
/// # Errors
/// Where memory is wanting.
#[tactic(auto, unfolding(crate::specs::PlanText::plan_text))]
pub fn plan_text(alloc: Global, season: &Season, facts: &PlanFacts) -> Result<Vec<u8>, AllocError>
    requires { IsPlanOf season.now facts.now }
    ensures { IfOk result (λ text. text.items ≡ plan_text season.now facts.now) }
{
    let mut text = Vec::new(alloc);
    print_head(alloc, season, &facts.path, &mut text)?;
    print_revenue(facts.low, facts.high, &mut text)?;
    print_best(facts.best, &mut text)?;
    print_bound(facts.bound, facts.at_step, &mut text)?;
    print_gap(facts.bound, facts.low, &mut text)?;
    print_exact(facts.exact, &mut text)?;
    Ok(text)
}

/// For one season the report determines the path and each number.
pub fn plan_text_determines()
    ensures { PlanTextDetermines }
{}

/// The sizes of a season.
pub(crate) fn sizes_of(season: &Season) -> PlanSizes
    ensures { result ≡ sizes_of season.now }
{
    PlanSizes {
        stores: season.stores(),
        weeks: season.weeks(),
        rungs: season.rungs(),
        base: season.base(),
    }
}

/// The price of each week in cents.
fn week_prices(alloc: Global, season: &Season, path: &Path) -> Result<Vec<u64>, AllocError>
    requires { IsPath season.now.rules path.now }
    ensures { IfOk result (λ prices. prices.items ≡ map (price season.now.rules) path.now) }
{
    let mut prices = Vec::with_capacity(alloc, path.len() as usize)?;
    for rung in path.rungs() {
        prices.push(season.price(*rung))?;
    }
    Ok(prices)
}

/// Appends the lines on the season's sizes, on a path and on its prices.
fn print_head(
    alloc: Global,
    season: &Season,
    path: &Path,
    out: &mut Vec<u8>,
) -> Result<(), AllocError>
    requires { IsPath season.now.rules path.now }
    ensures { OnOk result (out.new.items ≡ out.old.items
        ++ season_line (sizes_of season.now) ++ path_line path.now ++ prices_line (map (price season.now.rules) path.now)) }
{
    print_season(sizes_of(season), out)?;
    print_weeks(alloc, season, path, out)
}

/// Appends the lines on a path and on its prices.
pub(crate) fn print_weeks(
    alloc: Global,
    season: &Season,
    path: &Path,
    out: &mut Vec<u8>,
) -> Result<(), AllocError>
    requires { IsPath season.now.rules path.now }
    ensures { OnOk result (out.new.items ≡ out.old.items ++ path_line path.now ++ prices_line (map (price season.now.rules) path.now)) }
{
    let prices = week_prices(alloc, season, path)?;
    print_path(path.rungs(), out)?;
    print_prices(&prices, out)?;
    Ok(())
}

/// Appends the line on the sizes.
pub(crate) fn print_season(sizes: PlanSizes, out: &mut Vec<u8>) -> Result<(), AllocError>
    ensures { OnOk result (out.new.items ≡ out.old.items ++ season_line sizes) }
{
    print_size(b"season ", sizes.stores, out)?;
    print_size(b" stores ", sizes.weeks, out)?;
    print_size(b" weeks ", sizes.rungs, out)?;
    print_size(b" rungs base ", sizes.base, out)?;
    out.extend_from_slice(b"\n")?;
    Ok(())
}

/// Appends the line on the path, whose rung of each week is given.
fn print_path(rungs: &[u32], out: &mut Vec<u8>) -> Result<(), AllocError>
    ensures { OnOk result (out.new.items ≡ out.old.items ++ path_line rungs.now) }
{
    out.extend_from_slice(b"path")?;
    print_rungs(rungs, out)?;
    out.extend_from_slice(b"\n")?;
    Ok(())
}

/// Appends each rung after a space.
fn print_rungs(rungs: &[u32], out: &mut Vec<u8>) -> Result<(), AllocError>
    ensures { OnOk result (out.new.items ≡
        out.old.items ++ flat_map (λ rung. 32 ∷ decimal rung) rungs.now) }
{
    for rung in rungs {
        print_size(b" ", *rung, out)?;
    }
    Ok(())
}

/// Appends the line on the prices, given for each week in cents.
fn print_prices(prices: &[u64], out: &mut Vec<u8>) -> Result<(), AllocError>
    ensures { OnOk result (out.new.items ≡ out.old.items ++ prices_line prices.now) }
{
    out.extend_from_slice(b"prices")?;
    print_cents_of(prices, out)?;
    out.extend_from_slice(b"\n")?;
    Ok(())
}

/// Appends each price after a space.
fn print_cents_of(prices: &[u64], out: &mut Vec<u8>) -> Result<(), AllocError>
    ensures { OnOk result (out.new.items ≡
        out.old.items ++ flat_map (λ price. 32 ∷ cents_text price) prices.now) }
{
    for price in prices {
        out.push(b' ')?;
        print_cents(*price, out)?;
    }
    Ok(())
}

/// Appends the line on the path's revenue, in units of 10^-8 of the currency.
pub(crate) fn print_revenue(low: i128, high: i128, out: &mut Vec<u8>) -> Result<(), AllocError>
    ensures { OnOk result (out.new.items ≡ out.old.items ++ revenue_line low high) }
{
    print_amount(b"revenue ", low, out)?;
    print_amount(b" ", high, out)?;
    out.extend_from_slice(b"\n")?;
    Ok(())
}

/// Appends the line on whether the path is the best.
fn print_best(best: bool, out: &mut Vec<u8>) -> Result<(), AllocError>
    ensures { OnOk result (out.new.items ≡ out.old.items ++ best_line best) }
{
    if best {
        out.extend_from_slice(b"best yes\n")
    } else {
        out.extend_from_slice(b"best open\n")
    }
}

/// Appends the line on all stores together, where they were solved so: two values in units of 10^-8 of the currency, and a
/// rung.
fn print_exact(exact: Option<(i128, i128, u32)>, out: &mut Vec<u8>) -> Result<(), AllocError>
    ensures { OnOk result (out.new.items ≡ out.old.items ++ exact_line exact) }
{
    match exact {
        Some((low, top, rung)) => print_values(low, top, rung, out),
        None => Ok(()),
    }
}

/// Appends the line on two values of all stores together, in units of 10^-8 of the currency, and a rung.
fn print_values(low: i128, top: i128, rung: u32, out: &mut Vec<u8>) -> Result<(), AllocError>
    ensures { OnOk result (out.new.items ≡ out.old.items ++ exact_line (Some (low, top, rung))) }
{
    print_amount(b"exact ", low, out)?;
    print_amount(b" ", top, out)?;
    print_size(b" first ", rung, out)?;
    out.extend_from_slice(b"\n")?;
    Ok(())
}

/// Appends the line on the bound, in units of 10^-8 of the currency, and the step that gave it.
fn print_bound(bound: i128, step: u32, out: &mut Vec<u8>) -> Result<(), AllocError>
    ensures { OnOk result (out.new.items ≡ out.old.items ++ bound_line bound step) }
{
    print_amount(b"bound ", bound, out)?;
    print_size(b" step ", step, out)?;
    out.extend_from_slice(b"\n")?;
    Ok(())
}

/// Appends the line on the gap from a low value up to a bound, both in units of 10^-8 of the currency.
fn print_gap(bound: i128, low: i128, out: &mut Vec<u8>) -> Result<(), AllocError>
    requires bound { IsWithin 100000000000000000000 bound }
    requires low { IsWithin 100000000000000000000 low }
    ensures { OnOk result (out.new.items ≡ out.old.items ++ gap_line (bound -ℤ low)) }
{
    print_amount(b"gap ", bound - low, out)?;
    out.extend_from_slice(b"\n")?;
    Ok(())
}

/// Appends a label and an amount of money, in units of 10^-8 of the currency.
pub(crate) fn print_amount(label: &[u8], units: i128, out: &mut Vec<u8>) -> Result<(), AllocError>
    ensures { OnOk result (out.new.items ≡ out.old.items ++ (label.now ++ money_text units)) }
{
    out.extend_from_slice(label)?;
    print_money(units, out)
}

/// Appends a label and a number, decimal without leading zeros.
fn print_size(label: &[u8], size: u32, out: &mut Vec<u8>) -> Result<(), AllocError>
    ensures { OnOk result (out.new.items ≡ out.old.items ++ (label.now ++ decimal size)) }
{
    let mut digits = Buffer::new();
    out.extend_from_slice(label)?;
    out.extend_from_slice(digits.format(size).as_bytes())
}
