//! The check report.
#![tactic(auto, unfolding(crate::specs::CheckText::check_text))]

ghost use Rattle.clr_cert.specs.Accepts.{claims_of};
ghost use Rattle.clr_num.specs.Money.{money_text};
ghost use Rattle.clr_report.specs.CheckText.{accepted_line, check_text, claimed_bound_line, claimed_exact_line};
ghost use Rattle.clr_report.specs.PlanText.{season_line, sizes_of};
ghost use Rattle.clr_rules.specs.Rules.{IsPath};
ghost use Rattle.std.specs.Prelude.{◌≡◌, ◌++◌, IfOk, OnOk, Some};

use crate::plan::{print_amount, print_revenue, print_season, print_weeks, sizes_of};
use clr_cert::Claims;
use clr_season::Season;
use std::alloc::{AllocError, Global};

/// The check report on the claims of an accepted certificate: the season's sizes, that the certificate is accepted, its path
/// with the prices and the revenue, its bound, and, where the season is small enough, its two numbers of all stores together.
///
/// Each line ends with one line feed. The lines are those of docs/formats.md, "The check report". Values are in units, of which
/// a cent has 10^6.
///
/// # Errors
/// Where memory is wanting.
pub fn check_text(alloc: Global, season: &Season, claims: &Claims) -> Result<Vec<u8>, AllocError>
    requires { IsPath season.now.rules claims.now.path }
    ensures { IfOk result (λ text. text.items ≡ check_text season.now (claims_of claims.now)) }
{
    let mut text = Vec::new(alloc);
    print_opening(season, &mut text)?;
    print_weeks(alloc, season, &claims.path, &mut text)?;
    print_revenue(claims.low, claims.high, &mut text)?;
    print_claimed_bound(claims.bound, &mut text)?;
    print_claimed_exact(claims.exact, &mut text)?;
    Ok(text)
}

/// Appends the lines on the season's sizes and that the certificate is accepted.
fn print_opening(season: &Season, out: &mut Vec<u8>) -> Result<(), AllocError>
    ensures { OnOk result (out.new.items ≡ out.old.items ++ (season_line (sizes_of season.now) ++ accepted_line)) }
{
    print_season(sizes_of(season), out)?;
    print_accepted(out)
}

/// Appends the line that the certificate is accepted.
fn print_accepted(out: &mut Vec<u8>) -> Result<(), AllocError>
    ensures { OnOk result (out.new.items ≡ out.old.items ++ accepted_line) }
{
    out.extend_from_slice(b"certificate yes\n")
}

/// Appends the line on a bound, in units of 10^-8 of the currency.
fn print_claimed_bound(bound: i128, out: &mut Vec<u8>) -> Result<(), AllocError>
    ensures { OnOk result (out.new.items ≡ out.old.items ++ claimed_bound_line bound) }
{
    print_amount(b"bound ", bound, out)?;
    out.extend_from_slice(b"\n")?;
    Ok(())
}

/// Appends the line on the two numbers of all stores together, where there are any, in units of 10^-8 of the currency.
fn print_claimed_exact(exact: Option<(i128, i128)>, out: &mut Vec<u8>) -> Result<(), AllocError>
    ensures { OnOk result (out.new.items ≡ out.old.items ++ claimed_exact_line exact) }
{
    match exact {
        Some((low, top)) => print_both(low, top, out),
        None => Ok(()),
    }
}

/// Appends the line on two numbers of all stores together, in units of 10^-8 of the currency.
fn print_both(low: i128, top: i128, out: &mut Vec<u8>) -> Result<(), AllocError>
    ensures { OnOk result (out.new.items ≡ out.old.items ++ claimed_exact_line (Some (low, top))) }
{
    print_amount(b"exact ", low, out)?;
    print_amount(b" ", top, out)?;
    out.extend_from_slice(b"\n")?;
    Ok(())
}
