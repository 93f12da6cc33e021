// Seasons over one ladder and without a calendar, with what their rules say counted by hand.
use crate::cases::{Kind, assert_cases};
use crate::tables::{numbers, sides};
use clr_rules::{Limits, Live, Rule, Rules, Summary, first_path, free_calendar, read_calendar};
use clr_text::FileError;
use std::alloc::{AllocError, Global};
use std::test::Fail;

const LADDER: [u64; 4] = [5_000, 4_500, 4_000, 3_500];

// Four weeks in which a price may fall in any way.
const FREE: Limits = Limits {
    version: 1,
    weeks: 4,
    base: 1,
    markdowns: 12,
    spacing: 1,
    first_cut: 100,
    calendar: false,
};

// The numbers `last`, `count` and `age` of a summary.
type Numbers = (u32, u32, u32);

// The rules of these limits, each of which is within its range.
fn rules_of(alloc: Global, limits: Limits) -> Result<Rules, AllocError> {
    let limits = Limits {
        weeks: limits.weeks.clamp(1, 52),
        markdowns: limits.markdowns.min(12),
        spacing: limits.spacing.clamp(1, 12),
        first_cut: limits.first_cut.min(100),
        ..limits
    };
    let calendar = free_calendar(alloc, limits.weeks)?;
    Rules::new(alloc, limits, calendar, &LADDER)
}

fn numbers_of(s: Summary) -> Numbers {
    (s.last, s.count, s.age)
}

// What a rung in the next week leaves, or the rule that it breaks; nothing where the calls differ or a number is out of its range.
fn week(rules: &Rules, done: u32, s: Summary, rung: u32) -> Option<Result<Numbers, Rule>> {
    let most = rules.markdowns().min(rules.rungs() - 1).min(rules.weeks());
    if done >= rules.weeks()
        || rung < 1
        || rung > rules.rungs()
        || s.last < 1
        || s.last > rules.rungs()
        || s.count > most
        || s.age < 1
        || s.age > rules.spacing()
    {
        return None;
    }
    match (rules.broken(done, s, rung), rules.next(done, s, rung)) {
        (Some(rule), None) => Some(Err(rule)),
        (None, Some(next)) => Some(Ok(numbers_of(next))),
        _ => None,
    }
}

// Markdowns, spacing and first cut; the weeks done; the last rung, count and age of their summary; and the rung of the next week. A
// cut by 30 percent of 50.00 leaves 35.00.
const WEEKS: &str = "12 1 100 0 1 0 1 1=>Ok((1, 0, 1))
12 1 100 0 1 0 1 4=>Ok((4, 1, 1))
12 1 100 1 3 1 1 2=>Err(Rise)
12 1 100 3 3 2 1 4=>Ok((4, 3, 1))
0 1 100 0 1 0 1 1=>Ok((1, 0, 1))
0 1 100 0 1 0 1 2=>Err(Number)
1 1 100 1 3 1 1 2=>Err(Rise)
1 1 100 0 1 0 1 2=>Ok((2, 1, 1))
1 1 100 1 2 1 1 3=>Err(Number)
1 2 100 1 2 1 1 3=>Err(Number)
12 2 100 1 2 1 1 3=>Err(Spacing)
12 2 100 1 2 1 1 2=>Ok((2, 1, 2))
12 2 100 2 2 1 2 3=>Ok((3, 2, 1))
12 12 100 0 1 0 12 2=>Ok((2, 1, 1))
12 12 100 3 2 1 3 3=>Err(Spacing)
12 12 100 3 2 1 3 2=>Ok((2, 1, 4))
12 1 30 0 1 0 1 4=>Ok((4, 1, 1))
12 1 29 0 1 0 1 4=>Err(FirstCut)
12 1 20 0 1 0 1 3=>Ok((3, 1, 1))
12 1 19 0 1 0 1 3=>Err(FirstCut)
12 1 0 0 1 0 1 1=>Ok((1, 0, 1))
12 1 0 0 1 0 1 2=>Err(FirstCut)
0 1 0 0 1 0 1 2=>Err(Number)
12 1 10 1 1 0 1 4=>Err(FirstCut)
12 1 10 1 2 1 1 4=>Ok((4, 2, 1))";

// What a case leaves, or the rule that it breaks.
fn week_of(alloc: Global, case: [u32; 8]) -> Result<Option<Result<Numbers, Rule>>, AllocError> {
    let [markdowns, spacing, first_cut, done, last, count, age, rung] = case;
    let limits = Limits {
        markdowns,
        spacing,
        first_cut,
        ..FREE
    };
    let rules = rules_of(alloc, limits)?;
    Ok(week(&rules, done, Summary { last, count, age }, rung))
}

pub(crate) fn is_week(alloc: Global, case: &str) -> Result<bool, AllocError> {
    let (text, want) = sides(case);
    match week_of(alloc, numbers(text))? {
        Some(got) => Ok(format!(in alloc; "{got:?}")?.as_str() == want),
        None => Ok(false),
    }
}

#[test]
fn weeks_by_their_rules(rt: HostRuntime) -> Result<(), Fail> {
    assert_cases(&rt, rt.alloc(), Kind::Week, WEEKS)
}

// Four weeks in which the second is frozen within its window, and the first and the third have windows.
const CALENDAR: &[u8] = b"week,from,to,frozen\n1,1,2,0\n2,1,3,1\n3,2,3,0\n";

fn windowed_rules(alloc: Global) -> Result<Rules, FileError> {
    let calendar = read_calendar(alloc, CALENDAR, 4)?;
    match Rules::new(alloc, FREE, calendar, &LADDER) {
        Ok(rules) => Ok(rules),
        Err(_) => Err(FileError::Memory),
    }
}

// The weeks done, the last rung, count and age of their summary, and the rung of the next week, in those four weeks. A rise is
// judged before a window, and a window before a frozen week.
const WINDOWED: &str = "0 1 0 1 1=>Ok((1, 0, 1))
0 1 0 1 2=>Ok((2, 1, 1))
0 1 0 1 3=>Err(Window)
1 1 0 1 1=>Ok((1, 0, 1))
1 1 0 1 2=>Err(Frozen)
1 1 0 1 3=>Err(Frozen)
1 1 0 1 4=>Err(Window)
1 2 1 1 2=>Ok((2, 1, 1))
1 2 1 1 1=>Err(Rise)
2 1 0 1 1=>Err(Window)
2 1 0 1 2=>Ok((2, 1, 1))
2 1 0 1 3=>Ok((3, 1, 1))
2 1 0 1 4=>Err(Window)
2 2 1 1 1=>Err(Rise)
2 2 1 1 2=>Ok((2, 1, 1))
3 2 1 1 4=>Ok((4, 2, 1))";

pub(crate) fn is_windowed(alloc: Global, case: &str) -> Result<bool, AllocError> {
    let (text, want) = sides(case);
    let [done, last, count, age, rung, _, _, _] = numbers(text);
    let Ok(rules) = windowed_rules(alloc) else {
        return Ok(false);
    };
    match week(&rules, done, Summary { last, count, age }, rung) {
        Some(got) => Ok(format!(in alloc; "{got:?}")?.as_str() == want),
        None => Ok(false),
    }
}

// The first path waits for the week in which a window asks for a markdown.
fn is_windowed_path(alloc: Global) -> Result<bool, AllocError> {
    let Ok(rules) = windowed_rules(alloc) else {
        return Ok(false);
    };
    let path = path_of(alloc, &rules)?;
    Ok(path.as_slice() == [1, 1, 2, 2].as_slice())
}

#[test]
fn weeks_by_their_calendar(rt: HostRuntime) -> Result<(), Fail> {
    assert!(rt; is_windowed_path(rt.alloc())?);
    assert_cases(&rt, rt.alloc(), Kind::Windowed, WINDOWED)
}

// The place of a live summary and the one after it, by each call that tells of it.
fn place_and_next(live: &Live, done: u32, s: Summary) -> (Option<u32>, Option<Numbers>) {
    if !live.has(done, s) {
        return (live.find(done, s), None);
    }
    (
        Some(live.place(done, s)),
        live.after(done, s).map(numbers_of),
    )
}

// Two weeks with one markdown and a first cut that reaches the second rung alone.
const TWO_WEEKS: Limits = Limits {
    weeks: 2,
    markdowns: 1,
    spacing: 2,
    first_cut: 15,
    ..FREE
};

// The weeks done, a summary's last rung, count and age, its place where it is live, and the live one after it, in those two weeks.
const LIVE: &str = "0 1 0 2=>(Some(0), None)
1 1 0 2=>(Some(0), Some((2, 1, 1)))
1 2 1 1=>(Some(1), None)
1 2 1 2=>(None, None)
2 1 0 2=>(Some(0), Some((2, 1, 1)))
2 2 1 1=>(Some(1), Some((2, 1, 2)))
2 2 1 2=>(Some(2), None)
3 1 0 2=>(None, None)";

fn two_weeks(alloc: Global) -> Result<Live, AllocError> {
    let rules = rules_of(alloc, TWO_WEEKS)?;
    Live::build(alloc, &rules)?.copy(alloc)
}

pub(crate) fn is_live(alloc: Global, case: &str) -> Result<bool, AllocError> {
    let (text, want) = sides(case);
    let [done, last, count, age, _, _, _, _] = numbers(text);
    let live = two_weeks(alloc)?;
    let got = place_and_next(&live, done, Summary { last, count, age });
    Ok(format!(in alloc; "{got:?}")?.as_str() == want)
}

// The summary before the first week, and of two weeks the first one and how many there are.
fn ends(alloc: Global) -> Result<String, AllocError> {
    let start = numbers_of(rules_of(alloc, TWO_WEEKS)?.start());
    let live = two_weeks(alloc)?;
    let first = live.first(2).map(numbers_of);
    format!(in alloc; "{start:?} {first:?} {}", live.count(2))
}

#[test]
fn live_summaries_in_their_order(rt: HostRuntime) -> Result<(), Fail> {
    assert!(rt; ends(rt.alloc())?.as_str() == "(1, 0, 2) Some((1, 0, 2)) 3");
    assert_cases(&rt, rt.alloc(), Kind::Live, LIVE)
}

// The first path, or an empty one where there is none.
fn path_of(alloc: Global, rules: &Rules) -> Result<Vec<u32>, AllocError> {
    let live = Live::build(alloc, rules)?;
    if live.any() {
        first_path(alloc, rules, &live)
    } else {
        Ok(Vec::new(alloc))
    }
}

// Weeks and markdowns, and the first path. Where no calendar forbids it, the path that stays is the first.
const PATHS: &str = "1 0=>[1]
4 12=>[1, 1, 1, 1]
2 1=>[1, 1]";

pub(crate) fn is_first(alloc: Global, case: &str) -> Result<bool, AllocError> {
    let (text, want) = sides(case);
    let [weeks, markdowns, _, _, _, _, _, _] = numbers(text);
    let limits = Limits {
        weeks,
        markdowns,
        ..FREE
    };
    let rules = rules_of(alloc, limits)?;
    let path = path_of(alloc, &rules)?;
    Ok(format!(in alloc; "{path:?}")?.as_str() == want)
}

#[test]
fn first_paths(rt: HostRuntime) -> Result<(), Fail> {
    assert_cases(&rt, rt.alloc(), Kind::Path, PATHS)
}
