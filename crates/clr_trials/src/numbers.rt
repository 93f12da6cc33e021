// Numbers rounded and printed.
ghost use Rattle.std.specs.Prelude.{pos, ◌≤ℤ◌};

use crate::cases::{Kind, assert_cases};
use crate::tables::sides;
use clr_num::{
    Direction, Divisor, Down, Up, direction_laws, print_cents, print_money, rounding_laws,
};
use std::alloc::{AllocError, Global};
use std::test::Fail;

#[test]
fn rounds_to_its_side_of_zero(rt: HostRuntime) {
    assert_eq!(rt; [Up::div(-1, 2), Up::div(-3, 2), Up::div(4, 2)], [0, -1, 2]);
    assert_eq!(rt;
        [Down::div(-1, 2), Down::div(-3, 2), Down::div(4, 2)],
        [-1, -2, 2]
    );
    assert_eq!(rt;
        [Up::div(i128::MIN, 1), Down::div(i128::MAX, i128::MAX)],
        [i128::MIN, 1]
    );
}

fn quotient<R: Direction>(num: i128, base: i128) -> i128
    requires { pos 1 ≤ℤ base }
{
    direction_laws::<R>();
    R::div(num, base)
}

// A number and a base, and the quotients rounded down and up.
const QUOTIENTS: &str = "0,1=>0,0
1,1=>1,1
-1,1=>-1,-1
-1,2=>-1,0
-3,2=>-2,-1
4,2=>2,2
7,3=>2,3
-7,3=>-3,-2
1999999,1000000=>1,2
-1999999,1000000=>-2,-1
1000000000000000000,999983=>1000017000289,1000017000290
-1000000000000000000,999983=>-1000017000290,-1000017000289
9223372036854775807,1=>9223372036854775807,9223372036854775807
-9223372036854775808,1=>-9223372036854775808,-9223372036854775808
9223372036854775807,1000000=>9223372036854,9223372036855
-9223372036854775808,1000000=>-9223372036855,-9223372036854
9223372036854775807,9223372036854775807=>1,1
-9223372036854775808,9223372036854775807=>-2,-1
9223372036854775806,9223372036854775807=>0,1
9223372036854775808,3=>3074457345618258602,3074457345618258603
-9223372036854775809,3=>-3074457345618258603,-3074457345618258603
170141183460469231731687303715884105727,7=>24305883351495604533098186245126300818,24305883351495604533098186245126300819
-170141183460469231731687303715884105728,7=>-24305883351495604533098186245126300819,-24305883351495604533098186245126300818
170141183460469231731687303715884105727,9223372036854775807=>18446744073709551618,18446744073709551619";

// The two numbers of a text around its comma; what is none is 7.
fn pair(text: &str) -> (i128, i128) {
    let (first, second) = text.split_once(',').unwrap_or((text, ""));
    (
        first.parse::<i128>().unwrap_or(7),
        second.parse::<i128>().unwrap_or(7),
    )
}

/// Whether a number over a base that is made ready is rounded as its case says.
pub(crate) fn is_divided(case: &str) -> bool {
    let (asked, want) = sides(case);
    let (num, base) = pair(asked);
    let base = u64::try_from(base).unwrap_or(7);
    if base < 1 || base > i64::MAX as u64 {
        return false;
    }
    let divisor = Divisor::new(base);
    (Down::div_by(num, &divisor), Up::div_by(num, &divisor)) == pair(want)
}

#[test]
fn rounds_by_a_base_made_ready(rt: HostRuntime) -> Result<(), Fail> {
    assert_cases(&rt, rt.alloc(), Kind::Quotient, QUOTIENTS)
}

#[test]
fn rounds_through_the_bound(rt: HostRuntime) {
    rounding_laws();
    assert_eq!(rt; [quotient::<Up>(7, 2), quotient::<Down>(7, 2)], [4, 3]);
}

// Units, and how they are printed.
const MONEY: &str = "0=>0.00000000
-1=>-0.00000001
99=>0.00000099
100=>0.00000100
-100000000=>-1.00000000
123456789012=>1234.56789012
170141183460469231731687303715884105727=>1701411834604692317316873037158.84105727
-170141183460469231731687303715884105728=>-1701411834604692317316873037158.84105728";

// Cents, and how they are printed.
const CENTS: &str = "0=>0.00
5=>0.05
99=>0.99
100=>1.00
1005=>10.05
18446744073709551615=>184467440737095516.15";

/// Whether an amount is printed as its case says, behind what stands there.
pub(crate) fn is_printed(alloc: Global, case: &str, money: bool) -> Result<bool, AllocError> {
    let (amount, want) = sides(case);
    let mut out = Vec::from_slice(alloc, b"price ")?;
    if money {
        print_money(amount.parse::<i128>().unwrap_or(7), &mut out)?;
    } else {
        print_cents(amount.parse::<u64>().unwrap_or(7), &mut out)?;
    }
    Ok(out.strip_prefix(b"price ") == Some(want.as_bytes()))
}

#[test]
fn prints_money_and_cents(rt: HostRuntime) -> Result<(), Fail> {
    assert_cases(&rt, rt.alloc(), Kind::Units, MONEY)?;
    assert_cases(&rt, rt.alloc(), Kind::Cents, CENTS)
}
