//! The questions.
ghost use Rattle.std.specs.Prelude.{◌≡◌, ℕ, ◌<◌, ◌≤◌, length, Err, IfOk, IfSome, OnOk};
ghost use Rattle.clause_encoder.specs.declared.limits.TheConstants.{MOST_VARS};
ghost use Rattle.quorum_questions.specs.Evidence.{vars_of, Shows};
ghost use Rattle.quorum_questions.specs.Searching.{IsAsked, IsFormulaFor, IsStartedFor, IsAnswerTo};

use crate::answers::{Answer, AskError};
use crate::gates::by_gates;
use crate::searching::{Asked, End, Formula, Search, end_of, formula_of, start, with_plan};
use counter_pairs::{has_rivals, plan_of};
use expanded_search::has_gates;
use fbas_core::System;
use name_set::NodeSet;
use std::alloc::{AllocError, Global};

/// The most units that a question may have.
pub const MOST_UNITS: u64 = 4_000_000_000;

/// Where there is another way, at least this many lemmas with a literal a search over the formula itself learns before: a system
/// that fewer decide needs neither plan nor writing, and each of them costs as much as five over gates written out.
const FEWEST_UNITS: u64 = 64;

/// It learns this many at most: what writing out costs goes by the formula.
const FEW_UNITS: u64 = 200;

/// This many clauses of the formula bring one lemma.
const CLAUSES_PER_UNIT: u64 = 200;

/// Whether every two quorums (Mazières 2015) share a node once the faulty nodes are deleted, with the evidence: a log that
/// refutes the intersection formula, or two quorums that share none, or the log of a search that spent the budget.
///
/// The formula is that of version 3. Of the budget each lemma with a literal takes a unit. `TooLarge` comes exactly where the
/// formula has more than 4,000,000 variables. Where there is a plan that counts both sides, or writing the formula's gates out
/// takes many of its variables away, the search begins anew that way once 64 to 200 lemmas over the formula, as it is small or
/// large, decided nothing; what these took counts nothing. Else, and where gates written out led nowhere, it goes over the
/// formula. The cost is that of the greatest quorum, of `encode` and of the searches.
pub fn intersect(
    alloc: Global,
    system: &System,
    faulty: &NodeSet,
    budget: u64,
) -> Result<Answer, AskError>
    requires same_n { length faulty.now ≡ length system.now.sets }
    requires few { budget ≤ MOST_UNITS }
    ensures shows { IfOk result (Shows system.now.sets faulty.now budget) }
    ensures small { OnOk result (vars_of system.now.sets faulty.now ≤ MOST_VARS) }
    ensures too_large { (vars : ℕ) → result ≡ Err (AskError.TooLarge vars) → (vars ≡ vars_of system.now.sets faulty.now) × (MOST_VARS < vars) }
{
    let asked = Asked {
        system,
        faulty,
        budget,
    };
    let formula = formula_of(alloc, &asked)?;
    if let Some(answer) = at_once(alloc, &asked, formula)? {
        return Ok(answer);
    }
    let formula = formula_of(alloc, &asked)?;
    Ok(at_length(alloc, &asked, formula)?)
}

/// What is found over the formula itself. None where there is another way, and few lemmas showed nothing.
fn at_once(alloc: Global, asked: &Asked, formula: Formula) -> Result<Option<Answer>, AllocError>
    requires asked { IsAsked asked.now }
    requires formula { IsFormulaFor asked.now formula }
    ensures { IfOk result (λ found. IfSome found (IsAnswerTo asked.now)) }
{
    let first = first_units(formula.size.clauses);
    if asked.budget <= first || !has_other_way(alloc, &formula)? {
        return Ok(Some(search_on(alloc, asked, formula)?));
    }
    let few = Asked {
        budget: first,
        ..*asked
    };
    match search_on(alloc, &few, formula)? {
        Answer::Yes(log, size) => Ok(Some(Answer::Yes(log, size))),
        Answer::No(pair) => Ok(Some(Answer::No(pair))),
        Answer::Spent(_, _) => Ok(None),
    }
}

/// How many lemmas over a formula of this many clauses are learnt before it is searched another way.
fn first_units(clauses: u64) -> u64 {
    (clauses / CLAUSES_PER_UNIT).clamp(FEWEST_UNITS, FEW_UNITS)
}

/// Whether the formula has gates that are worth writing out, or gates of members that exclude each other.
fn has_other_way(alloc: Global, formula: &Formula) -> Result<bool, AllocError> {
    if has_gates(alloc, &formula.store, formula.size.vars)? {
        return Ok(true);
    }
    has_rivals(alloc, &formula.store, formula.size.vars)
}

/// What is found within the budget: by a plan that counts both sides, if it is worth following; else with the formula's
/// gates written out, and where that led nowhere over the formula itself.
fn at_length(alloc: Global, asked: &Asked, formula: Formula) -> Result<Answer, AllocError>
    requires asked { IsAsked asked.now }
    requires formula { IsFormulaFor asked.now formula }
    ensures { IfOk result (IsAnswerTo asked.now) }
{
    if let Some(plan) = plan_of(alloc, &formula.store, formula.size.vars)? {
        return search_from(alloc, asked, with_plan(start(alloc, formula)?, plan));
    }
    match by_gates(alloc, asked, &formula)? {
        Some(answer) => Ok(answer),
        None => search_on(alloc, asked, formula),
    }
}

/// What a search over this formula finds within the budget.
fn search_on(alloc: Global, asked: &Asked, formula: Formula) -> Result<Answer, AllocError>
    requires asked { IsAsked asked.now }
    requires formula { IsFormulaFor asked.now formula }
    ensures { IfOk result (IsAnswerTo asked.now) }
{
    search_from(alloc, asked, start(alloc, formula)?)
}

/// What a search that has not begun finds within the budget. The solver is borrowed until its log is all that is wanted of it.
fn search_from(alloc: Global, asked: &Asked, mut search: Search) -> Result<Answer, AllocError>
    requires asked { IsAsked asked.now }
    requires started { IsStartedFor asked.now search }
    ensures { IfOk result (IsAnswerTo asked.now) }
{
    let end = end_of(alloc, asked, &mut search)?;
    let log = search.solver.into_log();
    match end {
        End::Told(pair) => Ok(Answer::No(pair)),
        End::Refuted => Ok(Answer::Yes(log, search.size)),
        End::Spent => Ok(Answer::Spent(log, search.size)),
    }
}
