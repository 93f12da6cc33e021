//! Money and prices as decimal text.
ghost use Rattle.clr_num.specs.Money.{cents_text, money_text, CentsDetermine, MoneyDetermines};
ghost use Rattle.std.specs.Prelude.{◌≡◌, ◌≤◌, ◌++◌, length, drop, codes, decimal, OnErr, OnOk};

use itoa::Buffer;
use std::alloc::AllocError;

/// Units of money in one unit of the currency: a unit is 10^-8 of it.
const UNITS: u128 = 100_000_000;

/// No text is longer: a sign, 39 digits, a point and 20 digits.
const MOST_BYTES: usize = 64;

/// Appends an amount of money, given in units of 10^-8 of the currency.
///
/// The text is an optional `-`, the whole part without leading zeros, a point and eight digits,
/// as `-0.00000001` for -1. Every number has a text. After an error `out` is unchanged.
pub fn print_money(units: i128, out: &mut Vec<u8>) -> Result<(), AllocError>
    ensures ok { OnOk result (out.new.items ≡ out.old.items ++ money_text units) }
    ensures err { OnErr result (out.new.items ≡ out.old.items) }
{
    let size = units.unsigned_abs();
    let sign: &[u8] = if units < 0 { b"-" } else { b"" };
    print_parts(sign, size / UNITS, (UNITS + size % UNITS) as u64, out)
}

/// Appends a price, given in cents.
///
/// The text is the whole part without leading zeros, a point and two digits, as `10.05` for
/// 1005. Every number has a text. After an error `out` is unchanged.
pub fn print_cents(cents: u64, out: &mut Vec<u8>) -> Result<(), AllocError>
    ensures ok { OnOk result (out.new.items ≡ out.old.items ++ cents_text cents) }
    ensures err { OnErr result (out.new.items ≡ out.old.items) }
{
    print_parts(b"", (cents / 100) as u128, 100 + cents % 100, out)
}

/// A text of money tells the amount, and a text of a price the price.
pub fn texts_determine_amounts()
    ensures money { MoneyDetermines }
    ensures cents { CentsDetermine }
{}

/// Appends a sign, a whole part, a point and the digits of `marked` after its first, which is
/// there to keep the zeros that follow it. The memory is taken before the first byte.
#[tactic(auto, using(std::proofs::lemmas::Fmt::decimal_nonempty))]
fn print_parts(sign: &[u8], whole: u128, marked: u64, out: &mut Vec<u8>) -> Result<(), AllocError>
    requires { length sign.now ≤ 1 }
    ensures ok { OnOk result (out.new.items ≡
        out.old.items ++ (sign.now ++ decimal whole ++ codes "." ++ drop 1 (decimal marked))) }
    ensures err { OnErr result (out.new.items ≡ out.old.items) }
{
    let mut whole_digits = Buffer::new();
    let whole_digits = whole_digits.format(whole).as_bytes();
    let mut marked_digits = Buffer::new();
    let marked_digits = marked_digits.format(marked).as_bytes();
    out.reserve(MOST_BYTES)?;
    out.extend_from_slice(sign)?;
    out.extend_from_slice(whole_digits)?;
    out.push(b'.')?;
    out.extend_from_slice(&marked_digits[1..])
}
