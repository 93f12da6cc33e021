// The numbers of rules.json.
ghost use Rattle.std.specs.Prelude.{◌≡◌, ◌⊎◌, ◌≤◌, ℕ, List, length, codes, None, Some, Ok, Err, IfOk, IfSome, string_bytes};
ghost use Rattle.std.specs.List.{list_all};
ghost use Rattle.std.specs.BTreeMap.{keys};
ghost use Rattle.serde_json.specs.Find.{as_object};
ghost use Rattle.serde_json.specs.Errors.{IsMemory};
ghost use Rattle.serde_json.specs.View.{view};
ghost use Rattle.clr_text.specs.Tables.{Gives};
ghost use Rattle.clr_rules.specs.Limits.{AreLimits, is_known, limits_in, limits_of, number_in, object_limits, truth_in};

use clr_text::{FileError, Why, refused, without_mark};
use serde_json::error::Category;
use serde_json::{Error, Map, Value};
use std::alloc::Global;

/// The numbers of a season's rules, as rules.json gives them.
#[derive(Clone, Copy, Debug, PartialEq, Eq)]
pub struct Limits {
    /// The version of the season's files, from 1 to 3. From version 2 on stock.csv has a cost of
    /// relabelling, and in version 3 the weights of demand.csv are scaled to the base.
    pub version: u32,
    /// The number of weeks, from 1 to 52.
    pub weeks: u32,
    /// What the weights of each store, week and rung sum to, from 1 to 1,000,000.
    pub base: u32,
    /// The greatest number of markdown weeks, up to 12.
    pub markdowns: u32,
    /// The least distance of two markdown weeks in weeks, from 1 to 12.
    pub spacing: u32,
    /// How deep the first markdown may cut, in percent of the first price, up to 100.
    pub first_cut: u32,
    /// Whether the season has a calendar.
    pub calendar: bool,
}

fn is_known_name(name: &str) -> bool
    ensures { result ≡ is_known name.now }
{
    name == "version"
        || name == "weeks"
        || name == "base"
        || name == "markdowns"
        || name == "spacing"
        || name == "first_cut"
        || name == "calendar"
}

// Whether each name of the object is that of a field.
fn has_known_names(members: &Map<String, Value>) -> bool
    ensures { result ≡ list_all (λ k. is_known (string_bytes k)) (keys members.now) }
{
    members.keys().all(|k| is_known_name(k.as_str()))
}

// The number of a field, in its range. An object without the field has the number `absent`, or is
// refused where that is none.
#[tactic(auto, unfolding(crate::specs::Limits::number_in))]
fn number(
    object: &Value,
    name: &str,
    column: u32,
    absent: Option<u32>,
    low: u32,
    high: u32,
) -> Result<u32, FileError>
    requires { IfSome absent (λ n. (low ≤ n) × (n ≤ high)) }
    ensures gives { Gives (λ n. n) result (number_in name.now column absent low high (view object.now)) }
    ensures range { IfOk result (λ n. (low ≤ n) × (n ≤ high)) }
{
    let Some(value) = object.get(name) else {
        return absent.ok_or(refused(0, column, Why::Missing));
    };
    let Some(n) = value.as_u64() else {
        return Err(refused(0, column, Why::Number));
    };
    if n < u64::from(low) || n > u64::from(high) {
        return Err(refused(0, column, Why::Range));
    }
    Ok(n as u32)
}

// Whether a field says true. An object without the field has `absent`.
#[tactic(auto, unfolding(crate::specs::Limits::truth_in))]
fn truth(object: &Value, name: &str, column: u32, absent: bool) -> Result<bool, FileError>
    ensures { Gives (λ b. b) result (truth_in name.now column absent (view object.now)) }
{
    let Some(value) = object.get(name) else {
        return Ok(absent);
    };
    value.as_bool().ok_or(refused(0, column, Why::Number))
}

// The fields, one after another.
#[tactic(auto, unfolding(crate::specs::Limits::limits_in))]
fn fields(object: &Value) -> Result<Limits, FileError>
    ensures gives { Gives (λ l. l) result (limits_in (view object.now)) }
    ensures ranges { IfOk result AreLimits }
{
    let version = number(object, "version", 1, Some(1), 1, 3)?;
    let weeks = number(object, "weeks", 2, None, 1, 52)?;
    let base = number(object, "base", 3, None, 1, 1_000_000)?;
    let markdowns = number(object, "markdowns", 4, Some(12), 0, 12)?;
    let spacing = number(object, "spacing", 5, Some(1), 1, 12)?;
    let first_cut = number(object, "first_cut", 6, Some(100), 0, 100)?;
    let calendar = truth(object, "calendar", 7, false)?;
    Ok(Limits {
        version,
        weeks,
        base,
        markdowns,
        spacing,
        first_cut,
        calendar,
    })
}

// The rules of a value, if it is an object.
fn object_rules(value: &Value) -> Result<Limits, FileError>
    ensures gives { Gives (λ l. l) result (object_limits (view value.now) (as_object (view value.now))) }
    ensures ranges { IfOk result AreLimits }
{
    let Some(members) = value.as_object() else {
        return Err(refused(0, 0, Why::Json));
    };
    if !has_known_names(members) {
        return Err(refused(0, 0, Why::Field));
    }
    fields(value)
}

// Why a text was not read.
fn unread(error: &Error) -> FileError
    ensures memory { IsMemory error.now → result ≡ FileError.Memory }
    ensures text { result ≡ FileError.Memory → IsMemory error.now }
    ensures other { (result ≡ FileError.Memory) ⊎ (result ≡ FileError.Refused 0 0 Why.Json) }
{
    match error.classify() {
        Category::Memory => FileError::Memory,
        _ => refused(0, 0, Why::Json),
    }
}

/// The rules that rules.json says. Its object may have the fields `version` (1 to 3, and 1 where
/// absent), `weeks` (1 to 52), `base` (1 to 1,000,000), `markdowns` (0 to 12, else 12), `spacing`
/// (1 to 12, else 1), `first_cut` (0 to 100, else 100) and `calendar` (`true` or `false`, else
/// `false`), which are numbered from 1 in this order. Of a field that stands twice the last counts.
///
/// Refused by the first of: `Json` where the bytes, behind one byte order mark, are no JSON text or
/// no object, `Field` where a field has another name, and then field by field `Missing` (`weeks` and
/// `base`), `Number` where the value is no number of 64 bits without sign, point and exponent (at
/// `calendar`, neither `true` nor `false`), and `Range`. The row is 0; the column is the field's
/// number, or 0 at `Json` and `Field`. Want of memory may come in place of any answer.
#[tactic(auto, unfolding(crate::specs::Limits::limits_of))]
pub fn read_limits(alloc: Global, bytes: &[u8]) -> Result<Limits, FileError>
    requires { length bytes.now ≤ 33554432 }
    ensures gives { Gives (λ l. l) result (limits_of bytes.now) }
    ensures ranges { IfOk result AreLimits }
{
    match Value::from_slice(alloc, without_mark(bytes)) {
        Ok(value) => object_rules(&value),
        Err(error) => Err(unread(&error)),
    }
}
