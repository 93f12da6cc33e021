// The cases of the tests, by what they are cases of. A text has a case a line.
use crate::edges::{STEPS, is_desk, is_shelf, is_sink, is_whole, is_written};
use crate::fields::{is_counted, is_cut, is_in_range, is_judged, is_tabled};
use crate::lines::{is_fault, is_read_by_each};
use crate::multipliers::is_stepped;
use crate::numbers::{is_divided, is_printed};
use crate::rules::{is_first, is_live, is_week, is_windowed};
use crate::rules_files::{are_limits, are_nested, is_calendar};
use crate::stores::{is_ladder, is_shown};
use crate::{fields, words};
use std::alloc::{AllocError, Global};
use std::process::Abort;
use std::test::Fail;

/// What a text has cases of.
#[derive(Clone, Copy)]
pub(crate) enum Kind {
    Field,
    Number,
    Money,
    Table,
    Range,
    Count,
    Name,
    File,
    Shelf,
    Sink,
    Text,
    Desk,
    Lines,
    Fault,
    Step,
    Units,
    Cents,
    Quotient,
    Week,
    Windowed,
    Live,
    Path,
    Limits,
    Nested,
    FourWeeks,
    ThreeWeeks,
    Ladder,
    Stock,
    Relabelled,
    Words,
}

// Whether a case is as it must.
fn holds(alloc: Global, kind: Kind, case: &str) -> Result<bool, AllocError> {
    match kind {
        Kind::Field => is_cut(alloc, case),
        Kind::Number => fields::is_read(alloc, case, false),
        Kind::Money => fields::is_read(alloc, case, true),
        Kind::Table => is_tabled(alloc, case),
        Kind::Range => is_in_range(alloc, case),
        Kind::Count => is_counted(alloc, case),
        Kind::Name => is_judged(alloc, case),
        Kind::File => is_whole(alloc, case),
        Kind::Shelf => is_shelf(alloc, case, 1, &mut [0; 4]),
        Kind::Sink => is_sink(alloc, case),
        Kind::Text => is_written(alloc, case),
        Kind::Desk => is_desk(alloc, case, STEPS, [2, 4, 3]),
        Kind::Lines => is_read_by_each(alloc, case),
        Kind::Fault => is_fault(alloc, case),
        Kind::Step => is_stepped(alloc, case),
        Kind::Units => is_printed(alloc, case, true),
        Kind::Cents => is_printed(alloc, case, false),
        Kind::Quotient => Ok(is_divided(case)),
        Kind::Week => is_week(alloc, case),
        Kind::Windowed => is_windowed(alloc, case),
        Kind::Live => is_live(alloc, case),
        Kind::Path => is_first(alloc, case),
        Kind::Limits => are_limits(alloc, case),
        Kind::Nested => are_nested(alloc, case),
        Kind::FourWeeks => is_calendar(alloc, case, 4),
        Kind::ThreeWeeks => is_calendar(alloc, case, 3),
        Kind::Ladder => is_ladder(alloc, case),
        Kind::Stock => is_shown(alloc, case, false),
        Kind::Relabelled => is_shown(alloc, case, true),
        Kind::Words => words::is_answered(alloc, case),
    }
}

/// Checks each case of a text.
pub(crate) fn assert_cases(
    rt: &impl Abort,
    alloc: Global,
    kind: Kind,
    cases: &str,
) -> Result<(), Fail> {
    for case in cases.lines() {
        assert!(rt; holds(alloc, kind, case)?, "{case}");
    }
    Ok(())
}
