// Steps of multipliers. The expected entries were worked out by hand.
ghost use Rattle.std.specs.Prelude.{◌≡◌, ◌≤◌, IfOk};

use crate::cases::{Kind, assert_cases};
use crate::tables::{numbers, sides};
use clr_mult::{Mult, Usage};
use std::alloc::{AllocError, Global};
use std::test::Fail;

// For 2 weeks and 3 rungs, usage in the second week on the third rung.
fn usage_of(alloc: Global, stores: u32, masses: [u32; 3]) -> Result<Usage, AllocError>
    requires low { 1 ≤ stores }
    requires high { stores ≤ 3 }
    ensures stores { IfOk result (λ usage. usage.stores ≡ stores) }
    ensures weeks { IfOk result (λ usage. usage.weeks ≡ 2) }
    ensures rungs { IfOk result (λ usage. usage.rungs ≡ 3) }
{
    let mut usage = Usage::zero(alloc, stores, 2, 3)?;
    for store in 1..stores + 1 {
        let mass = masses[store as usize - 1];
        if mass <= 1_000_000 - usage.at(store, 2, 3) {
            usage.add(store, 2, 3, mass);
        }
    }
    Ok(usage)
}

// The entries of that week and rung. A store that isn't there has 0.
fn entries(table: &Mult, stores: u32) -> [i64; 3]
    requires few { stores ≤ 3 }
    requires stores { stores ≤ table.now.stores }
    requires weeks { 2 ≤ table.now.weeks }
    requires rungs { 3 ≤ table.now.rungs }
{
    let mut found = [0; 3];
    for store in 1..stores + 1 {
        found[store as usize - 1] = table.at(store, 2, 3);
    }
    found
}

// Those entries after one step from zero, and after two.
fn entries_after(
    alloc: Global,
    stores: u32,
    masses: [u32; 3],
    q: u64,
) -> Result<([i64; 3], [i64; 3]), AllocError>
    requires low { 1 ≤ stores }
    requires high { stores ≤ 3 }
    requires factor { q ≤ 100000000 }
{
    let usage = usage_of(alloc, stores, masses)?;
    let mut table = Mult::zero(alloc, stores, 2, 3)?;
    table.step(q, &usage)?;
    let first = table.copy()?;
    table.step(q, &usage)?;
    Ok((entries(&first, stores), entries(&table, stores)))
}

// Of two stores one uses the rung always and one never: the mean is half a million. Of three stores the total
// is 1,000,001, so the mean is 333,333 and 2 are left over: the directions are 366,666, -33,333 and -333,333.
//
// The stores, the factor and the usage of three stores, and the entries after one step and after two.
const STEPS: &str = "2 3 1000000 0 0=>([-1500000, 1500000, 0], [-3000000, 3000000, 0])
3 10 700000 300001 0=>([-3666660, 333330, 3333330], [-7333320, 666660, 6666660])
3 100000000 0 0 0=>([0, 0, 0], [0, 0, 0])";

pub(crate) fn is_stepped(alloc: Global, case: &str) -> Result<bool, AllocError> {
    let (text, want) = sides(case);
    let [stores, q, first, second, third, _, _, _] = numbers(text);
    let q = u64::from(q.min(100_000_000));
    let found = entries_after(alloc, stores.clamp(1, 3), [first, second, third], q)?;
    Ok(format!(in alloc; "{found:?}")?.as_str() == want)
}

#[test]
fn steps_go_against_the_direction(rt: HostRuntime) -> Result<(), Fail> {
    assert_cases(&rt, rt.alloc(), Kind::Step, STEPS)
}
