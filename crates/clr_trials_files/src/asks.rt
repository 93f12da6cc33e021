// What the cases ask of the checker.
use crate::certificates::{is_fault_answered, is_text_answered};
use crate::seasons::season_of;
use crate::tampering::{are_cuts_answered, are_lines_answered, are_numbers_answered};
use clr_season::Season;
use std::alloc::{AllocError, Global};
use std::process::Abort;
use std::test::Fail;

/// What a case is: a certificate of its own, a line in the place of a row, a text behind a row, or a shelf that fails; or it is a line of
/// the certificate, of which each number is raised and lowered, which is dropped, doubled and swapped, or which is cut after each byte.
#[derive(Clone, Copy)]
pub enum Ask {
    Alone,
    Line,
    End,
    Fault,
    Numbers,
    Changes,
    Cuts,
}

fn is_right(
    alloc: Global,
    ask: Ask,
    season: &Season,
    row: usize,
    case: &str,
) -> Result<bool, AllocError> {
    match ask {
        Ask::Numbers => are_numbers_answered(alloc, season, row, case),
        Ask::Changes => are_lines_answered(alloc, season, row),
        Ask::Cuts => are_cuts_answered(alloc, season, row, case),
        Ask::Fault => is_fault_answered(alloc, season, case),
        _ => is_text_answered(alloc, ask, season, case),
    }
}

/// Asserts that the checker answers for a season as it must in each case, which is a line of a table. Rows are counted from 1.
pub fn assert_answers(
    rt: &impl Abort,
    alloc: Global,
    ask: Ask,
    season: &str,
    table: &str,
) -> Result<(), Fail> {
    let season = season_of(alloc, season)?;
    for (index, case) in table.lines().enumerate() {
        assert!(rt; is_right(alloc, ask, &season, index + 1, case)?, "{case}");
    }
    Ok(())
}
