// The reading of a policy file.
ghost use Rattle.std.specs.Prelude.{◌≡◌, ◌⊎◌, ◌≤◌, ◌+◌, ℕ, min, length, map, codes, None, Some, Ok, Err, IfErr, IfOk, OnOk, IfSome, string_bytes};
ghost use Rattle.std.specs.List.{list_all};
ghost use Rattle.std.specs.BTreeMap.{keys};
ghost use Rattle.serde_json.specs.Data.{Data, object};
ghost use Rattle.serde_json.specs.Find.{as_object, get};
ghost use Rattle.serde_json.specs.Errors.{IsMemory};
ghost use Rattle.serde_json.specs.View.{view, members_view};
ghost use Rattle.clr_policy.specs.Written.{IsPolicy, IsPolicyFor, branches, written};
ghost use Rattle.clr_policy.specs.PolicyFile.{Gives, branch_after, end_place, ended_after, field_at, has, has_test, is_rung_field, has_only, is_test_field, known, most_branches, named, number_in, place, policy_of, ranged, rung_in, rung_node, store_in, test_in, test_node};

use crate::policy::{Policy, PolicyError};
use clr_season::Season;
use clr_text::without_mark;
use serde_json::error::Category;
use serde_json::{Error, Map, Value};
use std::alloc::Global;

// The next branch is not in the form.
fn misshapen(ended: u32) -> PolicyError
    ensures { (count : ℕ) → min count most_branches ≡ ended → result ≡ PolicyError.Shape (branch_after count) }
{
    PolicyError::Shape {
        branch: ended.saturating_add(1),
    }
}

// The next branch asks for a store that isn't there.
fn unknown(ended: u32) -> PolicyError
    ensures { (count : ℕ) → min count most_branches ≡ ended → result ≡ PolicyError.Unknown (branch_after count) }
{
    PolicyError::Unknown {
        branch: ended.saturating_add(1),
    }
}

fn is_rung_name(name: &str) -> bool
    ensures { result ≡ is_rung_field name.now }
{
    name == "rung" || name == "then"
}

fn is_test_name(name: &str) -> bool
    ensures { result ≡ is_test_field name.now }
{
    name == "store" || name == "left_at_most" || name == "yes" || name == "no"
}

fn are_rung_names(fields: &Map<String, Value>) -> bool
    ensures { result ≡ list_all (λ k. is_rung_field (string_bytes k)) (keys fields.now) }
{
    fields.keys().all(|k| is_rung_name(k.as_str()))
}

// Whether a node is an object with fields of a rung alone.
#[tactic(auto, unfolding(crate::specs::PolicyFile::has_only))]
fn has_rung_names(node: &Value) -> bool
    ensures { result ≡ has_only is_rung_field (view node.now) }
{
    match node.as_object() {
        Some(fields) => are_rung_names(fields),
        None => false,
    }
}

fn are_test_names(fields: &Map<String, Value>) -> bool
    ensures { result ≡ list_all (λ k. is_test_field (string_bytes k)) (keys fields.now) }
{
    fields.keys().all(|k| is_test_name(k.as_str()))
}

// Whether a node is an object with fields of a test alone.
#[tactic(auto, unfolding(crate::specs::PolicyFile::has_only))]
fn has_test_names(node: &Value) -> bool
    ensures { result ≡ has_only is_test_field (view node.now) }
{
    match node.as_object() {
        Some(fields) => are_test_names(fields),
        None => false,
    }
}

// The whole number of a field, in its range.
#[tactic(auto, unfolding(crate::specs::PolicyFile::number_in))]
fn number(node: &Value, name: &str, ended: u32, low: u32, high: u32) -> Result<u32, PolicyError>
    ensures gives { (count : ℕ) → min count most_branches ≡ ended → Gives (λ n. n) result (number_in name.now count low high (view node.now)) }
    ensures range { IfOk result (λ n. (low ≤ n) × (n ≤ high)) }
{
    match node.get(name).and_then(Value::as_u64) {
        Some(n) if u64::from(low) <= n && n <= u64::from(high) => Ok(n as u32),
        _ => Err(misshapen(ended)),
    }
}

// The number of the store that a field names.
#[tactic(auto, unfolding(crate::specs::PolicyFile::store_in))]
fn store(season: &Season, node: &Value, ended: u32) -> Result<u32, PolicyError>
    ensures gives { (count : ℕ) → min count most_branches ≡ ended → Gives (λ n. n) result (store_in (map (λ store. store.name) season.now.stores) (codes "store") count (view node.now)) }
    ensures range { IfOk result (λ n. (1 ≤ n) × (n ≤ length season.now.stores)) }
{
    let Some(name) = node.get("store").and_then(Value::as_str) else {
        return Err(misshapen(ended));
    };
    match season.names().find(name.as_bytes()) {
        Some(store) => Ok(store),
        None => Err(unknown(ended)),
    }
}

// The rung of a node with a rung.
#[tactic(auto, unfolding(crate::specs::PolicyFile::rung_in))]
fn rung_of(season: &Season, node: &Value, ended: u32) -> Result<u32, PolicyError>
    ensures gives { (count : ℕ) → min count most_branches ≡ ended → Gives (λ n. n) result (rung_in season.now count (view node.now)) }
    ensures range { IfOk result (λ n. (1 ≤ n) × (n ≤ length season.now.rules.prices)) }
{
    if !has_rung_names(node) {
        return Err(misshapen(ended));
    }
    number(node, "rung", ended, 1, season.rungs())
}

fn has_rung(node: &Value) -> bool
    ensures { result ≡ has (codes "rung") (view node.now) }
{
    node.get("rung").is_some()
}

// Whether a node has each field of a test.
fn has_test_fields(node: &Value) -> bool
    ensures { result ≡ has_test (view node.now) }
{
    node.get("store").is_some()
        && node.get("left_at_most").is_some()
        && node.get("yes").is_some()
        && node.get("no").is_some()
}

// The store and the limit of a node with a test.
#[tactic(auto, unfolding(crate::specs::PolicyFile::test_in))]
fn test_of(season: &Season, node: &Value, ended: u32) -> Result<(u32, u32), PolicyError>
    ensures gives { (count : ℕ) → min count most_branches ≡ ended → Gives (λ t. t) result (test_in season.now count (view node.now)) }
    ensures range { IfOk result (λ t. (1 ≤ t.0) × (t.0 ≤ length season.now.stores)) }
{
    if !has_test_names(node) || !has_test_fields(node) {
        return Err(misshapen(ended));
    }
    let store = store(season, node, ended)?;
    let limit = number(node, "left_at_most", ended, 0, 2000)?;
    Ok((store, limit))
}

// A policy in a box of its own.
fn boxed(alloc: Global, policy: Policy) -> Result<Box<Policy>, PolicyError>
    ensures boxed { IfOk result (λ b. b.value ≡ policy) }
    ensures memory { IfErr result (λ e. e ≡ PolicyError.Memory) }
{
    match Box::new(alloc, policy) {
        Ok(place) => Ok(place),
        Err(_) => Err(PolicyError::Memory),
    }
}

// The end of a branch, where no week is left without its rung.
fn end_of(season: &Season, weeks: u32, ended: &mut u32) -> Result<Policy, PolicyError>
    ensures gives { (count : ℕ) → min count most_branches ≡ ended.old → Gives written result (end_place weeks count) }
    ensures ended { (count : ℕ) → min count most_branches ≡ ended.old → IfOk result (λ policy. ended.new ≡ ended_after count policy) }
    ensures policy { IfOk result (λ policy. IsPolicyFor season.now weeks (written policy)) }
{
    if weeks > 0 {
        return Err(misshapen(*ended));
    }
    *ended = ended.saturating_add(1);
    Ok(Policy::End)
}

// What a value gives at a place, after so many branches that ended, where so many weeks have no rung above it yet.
#[cycle(places)]
fn place_of(
    alloc: Global,
    season: &Season,
    node: &Value,
    weeks: u32,
    ended: &mut u32,
) -> Result<Policy, PolicyError>
    ensures gives { (count : ℕ) → min count most_branches ≡ ended.old → Gives written result (place season.now (view node.now) weeks count) }
    ensures ended { (count : ℕ) → min count most_branches ≡ ended.old → IfOk result (λ policy. ended.new ≡ ended_after count policy) }
    ensures policy { IfOk result (λ policy. IsPolicyFor season.now weeks (written policy)) }
{
    if node.is_null() {
        end_of(season, weeks, ended)
    } else if weeks == 0 {
        Err(misshapen(*ended))
    } else if !node.is_object() {
        Err(misshapen(*ended))
    } else if has_rung(node) {
        week_of(alloc, season, node, weeks - 1, ended)
    } else {
        choice_of(alloc, season, node, weeks, ended)
    }
}

// What a node with a rung gives, where so many weeks have no rung after it.
#[cycle(places)]
#[tactic(auto, unfolding(crate::specs::PolicyFile::rung_node))]
fn week_of(
    alloc: Global,
    season: &Season,
    node: &Value,
    weeks: u32,
    ended: &mut u32,
) -> Result<Policy, PolicyError>
    ensures gives { (count : ℕ) → min count most_branches ≡ ended.old → Gives written result (rung_node season.now (view node.now) (field_at season.now (codes "then") (view node.now)) weeks count) }
    ensures ended { (count : ℕ) → min count most_branches ≡ ended.old → IfOk result (λ policy. ended.new ≡ ended_after count policy) }
    ensures policy { IfOk result (λ policy. IsPolicyFor season.now (weeks + 1) (written policy)) }
{
    let rung = rung_of(season, node, *ended)?;
    let next = field_of(alloc, season, node, "then", weeks, ended)?;
    let then = boxed(alloc, next)?;
    Ok(Policy::Rung { rung, then })
}

// What a node with a test gives.
#[cycle(places)]
#[tactic(auto, unfolding(crate::specs::PolicyFile::test_node))]
fn choice_of(
    alloc: Global,
    season: &Season,
    node: &Value,
    weeks: u32,
    ended: &mut u32,
) -> Result<Policy, PolicyError>
    ensures gives { (count : ℕ) → min count most_branches ≡ ended.old → Gives written result (test_node season.now (view node.now) (field_at season.now (codes "yes") (view node.now)) (field_at season.now (codes "no") (view node.now)) weeks count) }
    ensures ended { (count : ℕ) → min count most_branches ≡ ended.old → IfOk result (λ policy. ended.new ≡ ended_after count policy) }
    ensures policy { IfOk result (λ policy. IsPolicyFor season.now weeks (written policy)) }
{
    let (store, limit) = test_of(season, node, *ended)?;
    let below = field_of(alloc, season, node, "yes", weeks, ended)?;
    let yes = boxed(alloc, below)?;
    let above = field_of(alloc, season, node, "no", weeks, ended)?;
    let no = boxed(alloc, above)?;
    Ok(Policy::Test {
        store,
        limit,
        yes,
        no,
    })
}

// The same for the field of a name, which ends a branch where it is absent.
#[cycle(places)]
#[tactic(auto, unfolding(crate::specs::PolicyFile::field_at))]
fn field_of(
    alloc: Global,
    season: &Season,
    node: &Value,
    name: &str,
    weeks: u32,
    ended: &mut u32,
) -> Result<Policy, PolicyError>
    ensures gives { (count : ℕ) → min count most_branches ≡ ended.old → Gives written result (field_at season.now name.now (view node.now) weeks count) }
    ensures ended { (count : ℕ) → min count most_branches ≡ ended.old → IfOk result (λ policy. ended.new ≡ ended_after count policy) }
    ensures policy { IfOk result (λ policy. IsPolicyFor season.now weeks (written policy)) }
{
    match node.get(name) {
        Some(value) => place_of(alloc, season, value, weeks, ended),
        None => end_of(season, weeks, ended),
    }
}

// Why a text was not read.
fn unread(error: &Error) -> PolicyError
    ensures memory { IsMemory error.now → result ≡ PolicyError.Memory }
    ensures text { result ≡ PolicyError.Memory → IsMemory error.now }
    ensures other { (result ≡ PolicyError.Memory) ⊎ (result ≡ PolicyError.Json) }
{
    match error.classify() {
        Category::Memory => PolicyError::Memory,
        _ => PolicyError::Json,
    }
}

/// The policy of a policy file of at most 33,554,432 bytes, which `serde_json` reads behind one byte order mark. The form is
/// that of docs/formats.md, "Policy files".
///
/// A place is the root, a `then`, a `yes` or a `no`. Where fewer rungs than weeks stand above a place, it holds an object. One
/// with a field `rung`, from 1 to the number of rungs, sets the rung of the next week; it may have a field `then`, for the
/// place after that week. Any other has the fields `store`, the name of a store, `left_at_most`, from 0 to 2,000 units, `yes`
/// and `no`: it goes on with `yes` where the store has at most so many units left, and else with `no`. No object has another
/// field, and of a field that stands twice the last counts. Where a rung for each week stands above a place, it is a `then`
/// that is absent or null, and a branch ends.
///
/// # Errors
///
/// `Json` where the bytes are no JSON text; nesting deeper than 127 is none. Else the first fault, places being judged from
/// the root down, `yes` before `no`, and in an object its fields, then the rung, or the store, whether the season has it, and
/// the limit: `Unknown` where the season has no store of the name, and `Shape` at any other breach. The branch is that which
/// would end next, 1 more than those that ended before, held at 4,294,967,295. `Memory` may come in place of any answer.
#[tactic(auto, unfolding(crate::specs::PolicyFile::policy_of))]
pub fn read_policy(alloc: Global, season: &Season, bytes: &[u8]) -> Result<Policy, PolicyError>
    requires { length bytes.now ≤ 33554432 }
    ensures gives { Gives written result (policy_of season.now bytes.now) }
    ensures policy { IfOk result (λ policy. IsPolicy season.now (written policy)) }
{
    match Value::from_slice(alloc, without_mark(bytes)) {
        Ok(value) => {
            let mut ended = 0;
            place_of(alloc, season, &value, season.weeks(), &mut ended)
        }
        Err(error) => Err(unread(&error)),
    }
}
