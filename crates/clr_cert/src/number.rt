// Numbers as a certificate spells them.
ghost use Rattle.clr_cert.specs.Numbers.{is_digit, most_size, num_of, spelled_number, spelled_size, spells_number, spells_positive, OneSpelling};
ghost use Rattle.std.specs.Fmt.{signed_decimal};
ghost use Rattle.std.specs.List.{list_all};
ghost use Rattle.std.specs.Prelude.{◌≡◌, ◌↔◌, ◌<◌, ◌≤◌, ◌+◌, ◌-◌, ◌*◌, ◌^◌, ℤ, false, IsTrue, length, MatchOption, min, unsigned_abs};
ghost use Rattle.std.specs.Str.Parse.{digits_value};

/// What a field of a certificate is read as.
#[derive(Clone, Copy, Debug, PartialEq, Eq)]
pub enum Num {
    /// It isn't the spelling of a number.
    No,
    /// It spells a number above 10^30 in size.
    Large,
    /// It spells this number.
    Is(i128),
}

/// The greatest number that is told, in size.
const MOST_SIZE: u128 = 1_000_000_000_000_000_000_000_000_000_000;

/// So many digits spell a number of 64 bits.
const SHORT: usize = 18;

/// Reads a number. Its one spelling is `0`, or an optional `-`, a digit from 1 to 9 and further digits.
pub fn read_num(field: &[u8]) -> Num
    ensures value { result ≡ num_of field.now }
    ensures is { (n : ℤ) → (result ≡ Num.Is n) ↔ ((field.now ≡ signed_decimal n) × (unsigned_abs n ≤ most_size)) }
    ensures large { (result ≡ Num.Large) ↔ (IsTrue (spells_number field.now) × (most_size < spelled_size field.now)) }
    ensures no { (result ≡ Num.No) ↔ (spells_number field.now ≡ false) }
{
    num_in(field)
}

fn num_in(field: &[u8]) -> Num
    ensures { result ≡ num_of field.now }
{
    match field {
        b"0" => Num::Is(0),
        [b'-', digits @ ..] => match read_size(digits) {
            Some(size) if size <= MOST_SIZE => Num::Is(-(size as i128)),
            Some(_) => Num::Large,
            None => Num::No,
        },
        digits => match read_size(digits) {
            Some(size) if size <= MOST_SIZE => Num::Is(size as i128),
            Some(_) => Num::Large,
            None => Num::No,
        },
    }
}

/// Each number of at most 10^30 in size has one spelling.
pub fn one_spelling()
    ensures { OneSpelling }
{}

// The number that a digit from 1 to 9 and further digits spell, or one more than the greatest that is told where it is
// larger; None where they aren't such digits.
fn read_size(digits: &[u8]) -> Option<u128>
    ensures { MatchOption result (spells_positive digits.now ≡ false)
        (λ size. IsTrue (spells_positive digits.now) × (size ≡ min (digits_value 10 digits.now) (most_size + 1))) }
{
    match digits {
        [b'1'..=b'9', rest @ ..] if are_digits(rest) => Some(digits_size(digits)),
        _ => None,
    }
}

fn are_digits(bytes: &[u8]) -> bool
    ensures { result ≡ list_all is_digit bytes.now }
{
    bytes.iter().all(|byte| byte.is_ascii_digit())
}

// The number that digits spell, held at one more than the greatest that is told: in 64 bits where they suffice.
fn digits_size(digits: &[u8]) -> u128
    requires { IsTrue (list_all is_digit digits.now) }
    ensures { result ≡ min (digits_value 10 digits.now) (most_size + 1) }
{
    if digits.len() <= SHORT {
        u128::from(short_value(digits))
    } else {
        held_value(digits)
    }
}

fn short_value(digits: &[u8]) -> u64
    requires digits { IsTrue (list_all is_digit digits.now) }
    requires short { length digits.now ≤ 18 }
    ensures value { result ≡ digits_value 10 digits.now }
    ensures range { result < 10 ^ 18 }
{
    let mut value = 0;
    for digit in digits {
        value = value * 10 + u64::from(*digit - b'0');
    }
    value
}

// The same for any number of digits.
fn held_value(digits: &[u8]) -> u128
    requires { IsTrue (list_all is_digit digits.now) }
    ensures { result ≡ min (digits_value 10 digits.now) (most_size + 1) }
{
    let mut value = 0;
    for digit in digits {
        value = next_value(value, *digit);
    }
    value
}

// The number with one digit more.
fn next_value(value: u128, digit: u8) -> u128
    requires value { value ≤ most_size + 1 }
    requires digit { IsTrue (is_digit digit) }
    ensures { result ≡ min (value * 10 + (digit - 48)) (most_size + 1) }
{
    (value * 10 + u128::from(digit - b'0')).min(MOST_SIZE + 1)
}
