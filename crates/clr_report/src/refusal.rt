//! What a note tells of a refused file after the file's name.
#![tactic(auto, unfolding(crate::specs::NoteText::refusal_words))]

ghost use Rattle.clr_report.specs.Lines.{spaced};
ghost use Rattle.clr_report.specs.NoteText.{field_words, refusal_words};
ghost use Rattle.std.specs.Prelude.{◌≡◌, ◌+◌, ◌≤◌, [], ◌∷◌, ◌++◌, codes, decimal, length, take};

use crate::note::Doc;
use crate::pieces::{put_labelled, put_labelled_wide, put_word};
use clr_text::Why;

/// Where a file is refused.
#[derive(Clone, Copy)]
pub(crate) struct Place {
    /// The file.
    pub doc: Doc,
    /// The row, from 1 under the header; 0 for none.
    pub row: u32,
    /// The column, from 1; of rules.json the field; 0 for none.
    pub column: u32,
}

/// Writes why a file is refused.
pub(crate) fn put_refusal(place: Place, why: Why, at: usize, out: &mut [u8; 256]) -> usize
    requires { at ≤ 24 }
    ensures end { result ≤ 200 }
    ensures text { take result out.new ≡
        take at out.old ++ spaced (refusal_words place.doc place.row place.column why) }
{
    match why {
        Why::Header => put_word(b"header", at, out),
        Why::Fields => put_fields(place.row, at, out),
        Why::Count { found } => put_labelled(b"count", found, at, out),
        Why::Number => put_field(place, b"number", at, out),
        Why::Money => put_field(place, b"money", at, out),
        Why::Name => put_field(place, b"name", at, out),
        Why::Range => put_field(place, b"range", at, out),
        Why::Order => put_field(place, b"order", at, out),
        Why::Unknown => put_field(place, b"unknown", at, out),
        Why::Repeat { first_row } => put_repeat(place.row, first_row, at, out),
        Why::Total {
            store,
            week,
            rung,
            found,
        } => put_total(store, week, rung, found, at, out),
        Why::Json => put_word(b"json", at, out),
        Why::Field => put_word(b"field", at, out),
        Why::Missing => put_field(place, b"missing", at, out),
    }
}

/// Writes that a row has another number of fields than the header.
fn put_fields(row: u32, at: usize, out: &mut [u8; 256]) -> usize
    requires { at ≤ 24 }
    ensures end { result ≤ 200 }
    ensures text { take result out.new ≡
        take at out.old ++ spaced (codes "row" ∷ decimal row ∷ codes "fields" ∷ []) }
{
    let end = put_labelled(b"row", row, at, out);
    put_word(b"fields", end, out)
}

/// Writes that a row has the key of an earlier one.
fn put_repeat(row: u32, first_row: u32, at: usize, out: &mut [u8; 256]) -> usize
    requires { at ≤ 24 }
    ensures end { result ≤ 200 }
    ensures text { take result out.new ≡ take at out.old ++ spaced
        (codes "row" ∷ decimal row ∷ codes "repeat of row" ∷ decimal first_row ∷ []) }
{
    let end = put_labelled(b"row", row, at, out);
    put_labelled(b"repeat of row", first_row, end, out)
}

/// Writes what the weights of a store, a week and a rung sum to.
fn put_total(store: u32, week: u32, rung: u32, found: u64, at: usize, out: &mut [u8; 256]) -> usize
    requires { at ≤ 24 }
    ensures end { result ≤ 200 }
    ensures text { take result out.new ≡ take at out.old ++ spaced
        (codes "store" ∷ decimal store ∷ codes "week" ∷ decimal week ∷
        codes "rung" ∷ decimal rung ∷ codes "total" ∷ decimal found ∷ []) }
{
    let store_end = put_labelled(b"store", store, at, out);
    let week_end = put_labelled(b"week", week, store_end, out);
    let rung_end = put_labelled(b"rung", rung, week_end, out);
    put_labelled_wide(b"total", found, rung_end, out)
}

/// Writes which field is wrong, and what is wrong with it.
fn put_field(place: Place, fault: &[u8], at: usize, out: &mut [u8; 256]) -> usize
    requires room { at ≤ 24 }
    requires short { length fault.now ≤ 7 }
    ensures end { result ≤ 200 }
    ensures text { take result out.new ≡ take at out.old ++ spaced
        (field_words place.doc place.row place.column ++ fault.now ∷ []) }
{
    let end = put_place(place, at, out);
    put_word(fault, end, out)
}

/// Writes which field is wrong: in rules.json its name, in a table its row and column.
fn put_place(place: Place, at: usize, out: &mut [u8; 256]) -> usize
    requires { at ≤ 24 }
    ensures end { result ≤ 100 }
    ensures text { take result out.new ≡
        take at out.old ++ spaced (field_words place.doc place.row place.column) }
{
    let name = place.doc.column(place.column).as_bytes();
    match place.doc {
        Doc::Rules => put_word(name, at, out),
        _ => put_cell(place.row, name, at, out),
    }
}

/// Writes a row and a column's name.
fn put_cell(row: u32, column: &[u8], at: usize, out: &mut [u8; 256]) -> usize
    requires room { at ≤ 24 }
    requires short { length column.now ≤ 9 }
    ensures end { result ≤ 100 }
    ensures text { take result out.new ≡ take at out.old ++ spaced
        (codes "row" ∷ decimal row ∷ codes "column" ∷ column.now ∷ []) }
{
    let row_end = put_labelled(b"row", row, at, out);
    let end = put_word(b"column", row_end, out);
    put_word(column, end, out)
}
