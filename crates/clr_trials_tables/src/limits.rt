// Seasons just inside and just outside of each limit of the table of all stores together.
use crate::asks::{Ask, assert_answers};
use clr_model::fits;
use clr_season::Season;
use std::test::Fail;

// Seasons of one week and one rung, and whether each is small enough: 1, or 0 where it isn't.
const CASES: &str = "# Four stores, and five.
limit of 4 stores: fits 1
limit of 5 stores: fits 0
# 1,000,000 ^ 3 is 10^18. 31,622 ^ 4 is below it, and 31,623 ^ 4 above.
limit of base 1000000: fits 1
limit of base 31622: fits 1
limit of base 31623: fits 0
# 2 numbers of weeks done, and 500 * 1,000 lists of stocks, or 500 * 1,001.
limit of 1000 stocks: fits 1
limit of 1001 stocks: fits 0
# 1,000,000 cells times 10 ^ 2 lists of demands, or 11 ^ 2.
limit of 10 demands: fits 1
limit of 11 demands: fits 0
# Two numbers of weeks done and one unit of stock.
limit of 1 unit: fits 1";

/// Whether a season is small enough just where the number says so.
pub fn is_judged(season: &Season, numbers: &[i64]) -> bool {
    let want: &[i64] = if fits(season) { &[1] } else { &[0] };
    numbers == want
}

#[test]
fn seasons_fit_up_to_their_limits(rt: HostRuntime) -> Result<(), Fail> {
    assert_answers(&rt, rt.alloc(), Ask::Fits, CASES)
}
