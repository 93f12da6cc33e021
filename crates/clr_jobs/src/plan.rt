// The plan of a season.
ghost use Rattle.std.specs.Prelude.{◌≡◌, ◌⊎◌, ◌↔◌, ◌<◌, IfOk, IsErrOf, IsTrue, length};
ghost use Rattle.clr_cert.specs.Accepts.{Accepts};
ghost use Rattle.clr_cert.specs.Lines.{cert_text};
ghost use Rattle.clr_joint.specs.Tables.{IsJointOf};
ghost use Rattle.clr_model.specs.Fits.{fits};
ghost use Rattle.clr_mult.specs.Tables.{mult_at};
ghost use Rattle.clr_num.specs.Rounding.{ceil, floor};
ghost use Rattle.clr_path.specs.Tables.{path_rows};
ghost use Rattle.clr_report.specs.declared.note.Cause.{Cause};
ghost use Rattle.clr_report.specs.PlanText.{IsPlanOf};
ghost use Rattle.clr_rules.specs.FirstPath.{NoPathObeys, SomePathObeys};
ghost use Rattle.clr_rules.specs.LiveSummaries.{live_pairs};
ghost use Rattle.clr_rules.specs.Rules.{IsPath};
ghost use Rattle.clr_season.specs.Season.{IsSeason};
ghost use Rattle.clr_storedp.specs.Tables.{AreOfSeason, AreSmall, AreTablesOf};
ghost use Rattle.clr_subgrad.specs.Run.{run_table};
ghost use Rattle.clr_jobs.specs.Held.{IfJoint, IsWhole, entries_of};
ghost use Rattle.clr_jobs.specs.Plans.{IsPlan, IsPlanText, IsSound};
ghost use Rattle.clr_words.specs.Asked.{IsAsk, ask_of};

use crate::entries::PlanEntries;
use crate::exact::exact_table;
use clr_joint::Joint;
use clr_model::Path;
use clr_num::{Down, Up};
use clr_path::PathTable;
use clr_report::{Cause, PlanFacts, plan_text};
use clr_rules::Live;
use clr_search::{Found, search};
use clr_season::Season;
use clr_subgrad::{Descent, descend};
use clr_words::Asked;
use clr_written::planned_is_accepted;
use std::alloc::{AllocError, Global};

// What the report tells.
fn facts_of(found: Found, bound: i128, at_step: u32, exact: Option<(i128, i128, u32)>) -> PlanFacts
    ensures path { result.path ≡ found.path }
    ensures low { result.low ≡ found.low }
    ensures high { result.high ≡ found.high }
    ensures best { result.best ≡ found.best }
    ensures bound { result.bound ≡ bound }
    ensures step { result.at_step ≡ at_step }
    ensures exact { result.exact ≡ exact }
{
    PlanFacts {
        path: found.path,
        low: found.low,
        high: found.high,
        best: found.best,
        bound,
        at_step,
        exact,
    }
}

// What a plan tells, the descent and the table for the stocks of all stores that it comes from.
#[derive(Drop)]
struct Computed {
    facts: PlanFacts,
    descent: Descent,
    joint: Option<Joint>,
}

// The bound of the descent that is asked, the path of the search that is asked, and the values of the table for all
// stores, where some path obeys.
fn plan_facts(
    alloc: Global,
    season: &Season,
    live: &Live,
    asked: &Asked,
) -> Result<Computed, AllocError>
    requires facts { IsSeason season.now }
    requires live { live.now ≡ live_pairs season.now.rules }
    requires any { SomePathObeys season.now.rules }
    requires asked { IsAsk (ask_of asked.now) }
    ensures plan { IfOk result (λ computed. IsPlan season.now (ask_of asked.now) computed.facts) }
    ensures sound { IfOk result (λ computed. IsSound season.now computed.facts) }
    ensures told { IfOk result (λ computed. IsPlanOf season.now computed.facts) }
    ensures step { IfOk result (λ computed. computed.facts.at_step ≡ computed.descent.at_step) }
    ensures mult { IfOk result (λ computed. computed.descent.mult ≡ run_table season.now asked.now.step computed.descent.at_step) }
    ensures of_season { IfOk result (λ computed. AreOfSeason season.now computed.descent.mult) }
    ensures small { IfOk result (λ computed. AreSmall computed.descent.mult) }
    ensures tables { IfOk result (λ computed. AreTablesOf ceil (mult_at computed.descent.mult) season.now computed.descent.tables.items) }
    ensures joint { IfOk result (λ computed. IsTrue (fits season.now) → IfJoint computed.joint (IsJointOf season.now)) }
{
    let exact = exact_table(alloc, season, live)?;
    let descent = descend(alloc, season, live, asked.step, asked.steps)?;
    let found = search(
        alloc,
        season,
        live,
        &descent.mult,
        &descent.tables,
        asked.nodes,
    )?;
    let facts = facts_of(found, descent.bound, descent.at_step, exact.values);
    Ok(Computed {
        facts,
        descent,
        joint: exact.joint,
    })
}

// What the certificate of a path and a step of the descent is written from.
fn plan_entries(
    alloc: Global,
    season: &Season,
    path: Path,
    descent: Descent,
    joint: Option<Joint>,
) -> Result<PlanEntries, AllocError>
    requires path { IsPath season.now.rules path }
    ensures path { IfOk result (λ held. held.path ≡ path) }
    ensures low { IfOk result (λ held. held.low ≡ path_rows floor season.now path) }
    ensures high { IfOk result (λ held. held.high ≡ path_rows ceil season.now path) }
    ensures mult { IfOk result (λ held. held.mult ≡ descent.mult) }
    ensures tables { IfOk result (λ held. held.tables ≡ descent.tables) }
    ensures joint { IfOk result (λ held. held.joint ≡ joint) }
{
    let low = PathTable::<Down>::build(alloc, season, &path)?;
    let high = PathTable::<Up>::build(alloc, season, &path)?;
    Ok(PlanEntries {
        path,
        low,
        high,
        mult: descent.mult,
        tables: descent.tables,
        joint,
    })
}

/// A plan: what its certificate is written from, and the text of its report.
#[derive(Drop)]
pub(crate) struct Plan {
    pub entries: PlanEntries,
    pub text: Vec<u8>,
}

// The plan that is asked, where some path obeys.
fn plan_of(alloc: Global, season: &Season, live: &Live, asked: &Asked) -> Result<Plan, AllocError>
    requires facts { IsSeason season.now }
    requires live { live.now ≡ live_pairs season.now.rules }
    requires any { SomePathObeys season.now.rules }
    requires asked { IsAsk (ask_of asked.now) }
    ensures plan { IfOk result (λ plan. IsPlanText season.now (ask_of asked.now) (entries_of plan.entries) plan.text.items) }
    ensures whole { IfOk result (λ plan. IsWhole season.now plan.entries) }
    ensures accepted { IfOk result (λ plan. Accepts season.now (cert_text season.now (entries_of plan.entries))) }
{
    let computed = plan_facts(alloc, season, live, asked)?;
    computed.descent.mult.sums_to_zero();
    planned_is_accepted();
    let text = plan_text(alloc, season, &computed.facts)?;
    let entries = plan_entries(
        alloc,
        season,
        computed.facts.path,
        computed.descent,
        computed.joint,
    )?;
    Ok(Plan { entries, text })
}

/// The plan of a season that is asked, or that no path of it obeys. `live` is of the season.
pub(crate) fn plan_season(
    alloc: Global,
    season: &Season,
    live: &Live,
    asked: &Asked,
) -> Result<Plan, Cause>
    requires facts { IsSeason season.now }
    requires live { live.now ≡ live_pairs season.now.rules }
    requires any { (0 < length live.now) ↔ SomePathObeys season.now.rules }
    requires asked { IsAsk (ask_of asked.now) }
    ensures plan { IfOk result (λ plan. IsPlanText season.now (ask_of asked.now) (entries_of plan.entries) plan.text.items) }
    ensures whole { IfOk result (λ plan. IsWhole season.now plan.entries) }
    ensures accepted { IfOk result (λ plan. Accepts season.now (cert_text season.now (entries_of plan.entries))) }
    ensures any { IfOk result (λ plan. SomePathObeys season.now.rules) }
    ensures ends { (ending : Cause) → IsErrOf result ending → (ending ≡ Cause.Memory) ⊎ ((ending ≡ Cause.NoPath) × NoPathObeys season.now.rules) }
{
    if !live.any() {
        return Err(Cause::NoPath);
    }
    match plan_of(alloc, season, live, asked) {
        Ok(plan) => Ok(plan),
        Err(_) => Err(Cause::Memory),
    }
}
