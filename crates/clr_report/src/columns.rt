//! The names of the columns that a note names.
#![tactic(auto, using(crate::proofs::Names::unnamed), unfolding(crate::specs::Columns::column_text))]

ghost use Rattle.clr_report.specs.Columns.{column_text};
ghost use Rattle.std.specs.Prelude.{◌≡◌, ◌≤◌, length};

use crate::note::Doc;

impl Doc {
    /// The name of a column by its number, from 1; of rules.json, of a field.
    ///
    /// It is empty where the document has no such column.
    pub(crate) fn column(self, number: u32) -> &'static str
        ensures name { result.now ≡ column_text self number }
        ensures short { length result.now ≤ 9 }
    {
        match self {
            Doc::Rules => rules_field(number),
            Doc::Calendar => calendar_column(number),
            Doc::Ladder => ladder_column(number),
            Doc::Stock => stock_column(number),
            Doc::Demand => demand_column(number),
            Doc::Certificate | Doc::Policy | Doc::Report => "",
        }
    }
}

/// The name of a field of rules.json.
fn rules_field(number: u32) -> &'static str
    ensures name { result.now ≡ column_text Doc.Rules number }
    ensures short { length result.now ≤ 9 }
{
    match number {
        1 => "version",
        2 => "weeks",
        3 => "base",
        4 => "markdowns",
        5 => "spacing",
        6 => "first_cut",
        7 => "calendar",
        _ => "",
    }
}

/// The name of a column of calendar.csv.
fn calendar_column(number: u32) -> &'static str
    ensures name { result.now ≡ column_text Doc.Calendar number }
    ensures short { length result.now ≤ 9 }
{
    match number {
        1 => "week",
        2 => "from",
        3 => "to",
        4 => "frozen",
        _ => "",
    }
}

/// The name of a column of ladder.csv.
fn ladder_column(number: u32) -> &'static str
    ensures name { result.now ≡ column_text Doc.Ladder number }
    ensures short { length result.now ≤ 9 }
{
    match number {
        1 => "rung",
        2 => "price",
        _ => "",
    }
}

/// The name of a column of stock.csv.
fn stock_column(number: u32) -> &'static str
    ensures name { result.now ≡ column_text Doc.Stock number }
    ensures short { length result.now ≤ 9 }
{
    match number {
        1 => "store",
        2 => "units",
        3 => "salvage",
        4 => "relabel",
        _ => "",
    }
}

/// The name of a column of demand.csv.
fn demand_column(number: u32) -> &'static str
    ensures name { result.now ≡ column_text Doc.Demand number }
    ensures short { length result.now ≤ 9 }
{
    match number {
        1 => "store",
        2 => "week",
        3 => "rung",
        4 => "units",
        5 => "weight",
        _ => "",
    }
}
