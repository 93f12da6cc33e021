ghost use Rattle.std.specs.Prelude.{◌≤◌};

use clr_average::{Total, average_row, average_values, lower_values};
use clr_num::{Direction, Down, Up};

// One, two and one of four weigh the demands 0, 1 and 2, and a unit earns 10. At a stock of 1 the three
// demands give -22, 10 - 3 and 10 - 3, so -1 in all; at 2 they give 5, 10 - 22 and 20 - 3, so -2; at 3 they
// give 101, 10 + 5 and 20 - 22, so 129.
const WEIGHTS: [u32; 3] = [1, 2, 1];

const AFTER: [i64; 4] = [-3, -22, 5, 101];

const DOWN: [i64; 4] = [-3, -1, -1, 32];

const UP: [i64; 4] = [-3, 0, 0, 33];

const FEW: [u32; 2] = [7, 999_993];

const FAR: [i64; 2] = [1_000_000_000_000_000_000, -999_999_999_999_999_999];

const UNIT: u64 = 10_000_000_000_000;

const REACH: u64 = 1_000_000_000_000_000_000;

// The averages of that row with sums at one width.
fn row<R: Direction, A: Total>() -> [i64; 4]
    requires room { 564 ≤ A.limit }
{
    let mut out = [0; 4];
    average_row::<R, A>(&WEIGHTS, 4, 10, &AFTER, &mut out);
    out
}

#[test]
fn averages_lean_at_both_widths(rt: HostRuntime) {
    assert!(rt; row::<Down, i64>() == DOWN, "down at 64 bits");
    assert!(rt; row::<Up, i64>() == UP, "up at 64 bits");
    assert!(rt; row::<Down, i128>() == DOWN, "down at 128 bits");
    assert!(rt; row::<Up, i128>() == UP, "up at 128 bits");
}

fn values<R: Direction>() -> [i64; 4] {
    let mut out = [0; 4];
    average_values::<R>(&WEIGHTS, 4, 10, &AFTER, 101, &mut out);
    out
}

// Here 64 bits don't hold the sums. Of a million, 7 weigh no demand and the rest one unit: at a stock of 1
// the sum is 999,986 times 10^18, and 999,993 times 10^13, and 7.
fn wide_values<R: Direction>() -> [i64; 2] {
    let mut out = [0; 2];
    average_values::<R>(&FEW, 1_000_000, UNIT, &FAR, REACH, &mut out);
    out
}

const WIDE_DOWN: [i64; 2] = [1_000_000_000_000_000_000, 999_995_999_930_000_000];

const WIDE_UP: [i64; 2] = [1_000_000_000_000_000_000, 999_995_999_930_000_001];

#[test]
fn values_pick_the_width_they_need(rt: HostRuntime) {
    assert!(rt; values::<Down>() == DOWN, "down at 64 bits");
    assert!(rt; values::<Up>() == UP, "up at 64 bits");
    assert!(rt; wide_values::<Down>() == WIDE_DOWN, "down at 128 bits");
    assert!(rt; wide_values::<Up>() == WIDE_UP, "up at 128 bits");
}

#[test]
fn a_cost_comes_off_each_value(rt: HostRuntime) {
    let mut values = [7i64, 0, -7];
    lower_values(&mut values, 7);
    assert_eq!(rt; values, [0i64, -7, -14]);
}
