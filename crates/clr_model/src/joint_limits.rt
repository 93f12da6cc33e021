// Whether a season is small enough for a table of the stocks of all stores together.
ghost use Rattle.clr_model.specs.Fits.{fits, joint_branches, joint_size, most_joint_size, most_joint_stores, stock_lists};
ghost use Rattle.clr_model.specs.JointWeek.{joint_base};
ghost use Rattle.clr_season.specs.Season.{stock_cells};
ghost use Rattle.std.specs.Prelude.{◌≡◌, ◌≤◌, ◌*◌, length};

use clr_season::Season;

const MOST_STORES: u32 = 4;

const MOST_BASE: u128 = 1_000_000_000_000_000_000;

const MOST_SIZE: u64 = 1_000_000;

const MOST_WORK: u64 = 100_000_000;

// What the chances of a week sum to: the base to the number of stores.
fn base_of_all(season: &Season) -> u128
    requires { length season.now.stores ≤ most_joint_stores }
    ensures { result ≡ joint_base season.now }
{
    u128::from(season.base()).pow(season.stores())
}

// The table cells for each list of stocks.
fn cells_of_stocks(season: &Season) -> u64
    ensures value { result ≡ stock_cells season.now.rules }
    ensures range { result ≤ 99216 }
{
    let weeks = u64::from(season.weeks());
    let rungs = u64::from(season.rungs());
    let counts = u64::from(season.rules().markdowns())
        .min(rungs - 1)
        .min(weeks)
        + 1;
    (weeks + 1) * rungs * counts * u64::from(season.rules().spacing())
}

/// The number of lists of stocks, one for each store and from 0 to what it opens with. There are at most four stores.
pub fn lists_of_stocks(season: &Season) -> u64
    requires { length season.now.stores ≤ most_joint_stores }
    ensures value { result ≡ stock_lists season.now.stores }
    ensures range { result ≤ 16032024008001 }
{
    let mut lists = 1;
    for index in 0..season.stores() {
        lists *= u64::from(season.stock(index + 1)) + 1;
    }
    lists
}

// The table cells for all stores together.
fn size_of_all(season: &Season) -> u64
    requires { length season.now.stores ≤ most_joint_stores }
    ensures { result ≡ joint_size season.now }
{
    cells_of_stocks(season) * lists_of_stocks(season)
}

// The number of rungs and joint demands of a week.
fn branches_of_all(season: &Season) -> u64
    requires { length season.now.stores ≤ most_joint_stores }
    ensures value { result ≡ joint_branches season.now }
    ensures range { result ≤ 19586889612 }
{
    u64::from(season.rungs()) * (u64::from(season.top()) + 1).pow(season.stores())
}

// The table cells for all stores together, each times the rungs and joint demands of a week.
fn work_of_all(season: &Season) -> u64
    requires stores { length season.now.stores ≤ most_joint_stores }
    requires size { joint_size season.now ≤ most_joint_size }
    ensures { result ≡ joint_size season.now * joint_branches season.now }
{
    size_of_all(season) * branches_of_all(season)
}

/// Whether the stocks of all stores together can be tabled. There are at most 4 stores; the base to the number of stores is at
/// most 10^18; the cells of a store's table for one stock, times the product of the numbers of stocks that the stores may
/// have, are at most 1,000,000; and these, times the rungs and the lists of the stores' demands in a week, at most 100,000,000.
pub fn fits(season: &Season) -> bool
    ensures { result ≡ fits season.now }
{
    season.stores() <= MOST_STORES
        && base_of_all(season) <= MOST_BASE
        && size_of_all(season) <= MOST_SIZE
        && work_of_all(season) <= MOST_WORK
}
