// The greatest of values, and the first choice that attains it.
ghost use Rattle.std.specs.Prelude.{◌≡◌, ◌<◌, pos, ◌+ℤ◌, int_lt, if◌then◌else◌, length, get_or, EachIndex};
ghost use Rattle.clr_average.specs.Average.{IsWithin};
ghost use Rattle.clr_rows.specs.Rows.{AreWithin};

/// Less than each value.
pub const LOWEST: i64 = -4_000_000_000_000_000_000;

/// The greater of two values with its choice, and the first where they are equal.
#[inline(always)]
fn better(value: i64, choice: u8, other: i64, rung: u8) -> (i64, u8)
    ensures value { result.0 ≡ (if int_lt value other then other else value) }
    ensures choice { result.1 ≡ (if int_lt value other then rung else choice) }
{
    if value < other {
        (other, rung)
    } else {
        (value, choice)
    }
}

/// Takes a rung at each place of a row where its average with what is added gives more than the value so far.
pub fn raise_row(averages: &[i64], more: i64, rung: u8, values: &mut [i64], choices: &mut [u8])
    requires same { length averages.now ≡ length values.old }
    requires also { length choices.old ≡ length values.old }
    requires small { AreWithin 2000000000000000000 averages.now }
    requires more { IsWithin 1000000000000000000 more }
    ensures values { EachIndex values.new (λ x. get_or values.new x (pos 0) ≡ (if int_lt (get_or values.old x (pos 0)) (get_or averages.now x (pos 0) +ℤ more) then get_or averages.now x (pos 0) +ℤ more else get_or values.old x (pos 0))) }
    ensures choices { EachIndex values.new (λ x. get_or choices.new x 0 ≡ (if int_lt (get_or values.old x (pos 0)) (get_or averages.now x (pos 0) +ℤ more) then rung else get_or choices.old x 0)) }
{
    for stock in 0..values.len() {
        let (value, choice) = better(values[stock], choices[stock], averages[stock] + more, rung);
        values[stock] = value;
        choices[stock] = choice;
    }
}
