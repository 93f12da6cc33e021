// The calendar of calendar.csv.
ghost use Rattle.std.specs.Prelude.{◌≡◌, ◌≤◌, ◌<◌, ◌-◌, ◌^◌, ◌++◌, ◌∷◌, ◌==◌, [], ℕ, List, find, length, map, position, Ok, Err, IfOk, IfSome, slice_index_or};
ghost use Rattle.clr_num.specs.Lists.{numbers};
ghost use Rattle.clr_text.specs.Judged.{judged};
ghost use Rattle.clr_text.specs.Tables.{Gives};
ghost use Rattle.clr_rules.specs.Calendar.{calendar_of, calendar_row, listed_at, listed_window, row_of};

use crate::season_rules::{Calendar, Window};
use clr_text::{FileError, Table, Why, refused, rows};
use std::alloc::{AllocError, Global};

const RUNGS: u64 = 12;

// A week, from 1, and its window, as a row lists them.
#[derive(Clone, Copy)]
struct Listed {
    week: u32,
    window: Window,
}

// What a row lists, whatever the other rows list.
#[tactic(auto, unfolding(crate::specs::Calendar::listed_at))]
fn read_row(table: &Table, row: u32, weeks: u32) -> Result<Listed, FileError>
    requires row { 1 ≤ row }
    requires within { row ≤ length table.now }
    ensures { Gives (λ l. l) result (listed_at weeks row (slice_index_or table.now (row - 1) [])) }
{
    let week = table.number(row, 1, 1, u64::from(weeks))?;
    let from = table.number(row, 2, 1, RUNGS)?;
    let to = table.number(row, 3, 1, RUNGS)?;
    if from > to {
        return Err(refused(row, 3, Why::Order));
    }
    let frozen = table.number(row, 4, 0, 1)?;
    Ok(Listed {
        week: week as u32,
        window: Window {
            from: from as u32,
            to: to as u32,
            frozen: frozen == 1,
        },
    })
}

// Where the row that lists a week stands.
fn place(listed: &[Listed], week: u32) -> Option<usize>
    ensures place { result ≡ position (λ l. l.week == week) listed.now }
    ensures within { IfSome result (λ i. i < length listed.now) }
{
    listed.iter().position(|l| l.week == week)
}

// The number, from 1, of the row that lists a week.
fn row_of_week(listed: &[Listed], week: u32) -> Option<u32>
    requires { length listed.now < 2 ^ 32 }
    ensures { result ≡ row_of listed.now week }
{
    match place(listed, week) {
        Some(i) => Some(i as u32 + 1),
        None => None,
    }
}

// What a row lists, behind what the rows before list.
#[tactic(auto, unfolding(crate::specs::Calendar::calendar_row))]
fn next_listed(table: &Table, row: u32, weeks: u32, listed: &[Listed]) -> Result<Listed, FileError>
    requires row { 1 ≤ row }
    requires within { row ≤ length table.now }
    requires few { length listed.now < 2 ^ 32 }
    ensures { Gives (λ l. listed.now ++ l ∷ []) result (calendar_row weeks row listed.now (slice_index_or table.now (row - 1) [])) }
{
    let next = read_row(table, row, weeks)?;
    if let Some(first_row) = row_of_week(listed, next.week) {
        return Err(refused(row, 0, Why::Repeat { first_row }));
    }
    Ok(next)
}

// What the rows list, one after another.
fn listed_rows(alloc: Global, table: &Table, weeks: u32) -> Result<Vec<Listed>, FileError>
    ensures { Gives (λ v. v.items) result (judged (calendar_row weeks) 1 [] table.now) }
{
    let mut listed = Vec::new(alloc);
    for index in 0..table.len() {
        let next = next_listed(table, index + 1, weeks, &listed)?;
        if listed.push(next).is_err() {
            return Err(FileError::Memory);
        }
    }
    Ok(listed)
}

// What the rows list for a week.
fn listing(listed: &[Listed], week: u32) -> Option<Listed>
    ensures { result ≡ find (λ l. l.week == week) listed.now }
{
    listed.iter().copied().find(|l| l.week == week)
}

// The window of a week.
fn window(listed: &[Listed], week: u32) -> Window
    ensures { result ≡ listed_window listed.now week }
{
    match listing(listed, week) {
        Some(found) => found.window,
        None => Window {
            from: 1,
            to: 12,
            frozen: false,
        },
    }
}

// The windows of all weeks.
fn windows(alloc: Global, listed: &[Listed], weeks: u32) -> Result<Vec<Window>, AllocError>
    ensures items { IfOk result (λ v. v.items ≡ map (listed_window listed.now) (numbers 1 weeks)) }
    ensures len { IfOk result (λ v. length v.items ≡ weeks) }
{
    let mut windows = Vec::with_capacity(alloc, weeks as usize)?;
    for index in 0..weeks {
        windows.push(window(listed, index + 1))?;
    }
    Ok(windows)
}

/// The calendar that calendar.csv says for a season of so many weeks, 1 to 52, with the columns
/// `week`, `from`, `to` and `frozen`. It has any number of rows, in any order, each of another week.
/// In a week that isn't listed each rung may stand, and the week isn't frozen.
///
/// Refused by the first of: `Header` and `Fields`, and then row by row `Number` and `Range` at the
/// week (1 to `weeks`), at the least rung and the greatest rung (1 to 12), `Order` at the greatest
/// rung where it is below the least one, `Number` and `Range` at the mark of a frozen week (0 or 1),
/// and last `Repeat`, without a column, where an earlier row has the same week. Want of memory may
/// come in place of any answer.
#[tactic(auto, unfolding(crate::specs::Calendar::calendar_of))]
pub fn read_calendar(alloc: Global, bytes: &[u8], weeks: u32) -> Result<Calendar, FileError>
    requires bytes { length bytes.now ≤ 33554432 }
    requires first { 1 ≤ weeks }
    requires last { weeks ≤ 52 }
    ensures gives { Gives (λ c. c) result (calendar_of weeks bytes.now) }
    ensures weeks { IfOk result (λ c. length c ≡ weeks) }
{
    let table = rows(alloc, bytes, &["week", "from", "to", "frozen"])?;
    let listed = listed_rows(alloc, &table, weeks)?;
    match windows(alloc, &listed, weeks) {
        Ok(windows) => Ok(Calendar::of_windows(windows)),
        Err(_) => Err(FileError::Memory),
    }
}
