//! The judge report.
#![tactic(auto, unfolding(crate::specs::JudgeText::judge_text))]

ghost use Rattle.clr_report.specs.JudgeText.{judge_text, objects_line};
ghost use Rattle.std.specs.Prelude.{◌≡◌, ◌++◌, IfOk, OnOk};

use crate::plan::{print_revenue, print_season, sizes_of};
use clr_season::Season;
use itoa::Buffer;
use std::alloc::{AllocError, Global};

/// The judge report: the season's sizes, the number of the policy's rungs and tests, and the policy's value rounded down and
/// rounded up, in units of 10^-8 of the currency.
///
/// Each line ends with one line feed. The lines are those of docs/formats.md, "The judge report".
///
/// # Errors
/// Where memory is wanting.
pub fn judge_text(
    alloc: Global,
    season: &Season,
    objects: u64,
    low: i128,
    high: i128,
) -> Result<Vec<u8>, AllocError>
    ensures { IfOk result (λ text. text.items ≡ judge_text season.now objects low high) }
{
    let mut text = Vec::new(alloc);
    print_season(sizes_of(season), &mut text)?;
    print_objects(objects, &mut text)?;
    print_revenue(low, high, &mut text)?;
    Ok(text)
}

/// Appends the line on the number of a policy's rungs and tests.
fn print_objects(objects: u64, out: &mut Vec<u8>) -> Result<(), AllocError>
    ensures { OnOk result (out.new.items ≡ out.old.items ++ objects_line objects) }
{
    let mut digits = Buffer::new();
    out.extend_from_slice(b"objects ")?;
    out.extend_from_slice(digits.format(objects).as_bytes())?;
    out.extend_from_slice(b"\n")?;
    Ok(())
}
