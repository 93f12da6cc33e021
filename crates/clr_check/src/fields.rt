// The numbers of a line, read field by field.
ghost use Rattle.clr_check.specs.Fields.{AreRead, HasNone, HasNumberFirst, first_field};
ghost use Rattle.clr_cert.specs.Numbers.{num_of, spells_number};
ghost use Rattle.clr_cert.specs.Reading.{comma_fields, numbers_in};
ghost use Rattle.std.specs.Prelude.{◌≡◌, ℕ, ◌≤◌, List, Some, None, true, false, drop, length, ◌==◌, MatchOption, ◌∷◌};
ghost use Rattle.std.specs.List.{position_or_len};

use clr_cert::{Num, read_num};

// Where the next comma stands, and the length where there is none.
fn field_end(bytes: &[u8]) -> usize
    ensures value { result ≡ position_or_len (λ byte. byte == 44) bytes.now }
    ensures range { result ≤ length bytes.now }
{
    for (at, byte) in bytes.iter().enumerate() {
        if *byte == b',' {
            return at;
        }
    }
    bytes.len()
}

// The number that the first field of a text is, and the text from the comma after it; None where it is none.
fn number_before(bytes: &[u8]) -> Option<(Num, &[u8])>
    ensures { MatchOption result (spells_number (first_field bytes.now) ≡ false)
        (λ found. (spells_number (first_field bytes.now) ≡ true) × (found.0 ≡ num_of (first_field bytes.now)) × (found.1.now ≡ drop (length (first_field bytes.now)) bytes.now)) }
{
    let (field, rest) = bytes.split_at(field_end(bytes));
    match read_num(field) {
        Num::No => None,
        number => Some((number, rest)),
    }
}

// The number that a text of fields begins with, and the text after it; None where it begins with none. Each field stands
// after a comma.
fn first_number(text: &[u8]) -> Option<(Num, &[u8])>
    ensures { MatchOption result (HasNone text.now) (λ found. HasNumberFirst text.now found.0 found.1.now) }
{
    if text.is_empty() || text[0] != b',' {
        return None;
    }
    number_before(&text[1..])
}

// Reads the numbers of a text of fields, as many as there is room for, to its end. None where it hasn't so many, or has a
// field that spells no number; false where one of them is too large to be told.
pub(crate) fn read_numbers(text: &[u8], numbers: &mut [i128]) -> Option<bool>
    ensures { MatchOption result (numbers_in (length numbers.old) (comma_fields text.now) ≡ None) (λ told. AreRead text.now told numbers.new) }
{
    let mut rest = text;
    let mut told = true;
    for at in 0..numbers.len() {
        let Some((number, after)) = first_number(rest) else {
            return None;
        };
        match number {
            Num::Is(value) => numbers[at] = value,
            Num::Large => told = false,
            Num::No => told = false,
        }
        rest = after;
    }
    if rest.is_empty() { Some(told) } else { None }
}
