//! The search.
ghost use Rattle.std.specs.Prelude.{◌≡◌, ◌<◌, ◌^◌, ◌++◌, [], IfOk, IfSome, length};
ghost use Rattle.lrat_model.specs.Ranges.{AreInRange};
ghost use Rattle.cdcl_core.specs.Log.{AreLemmas, IsBoundedLog};
ghost use Rattle.counter_expansion.specs.WrittenOut.{IsWrittenOut};
ghost use Rattle.expanded_search.specs.Finding.{IsFound};

use crate::carrier::Carrier;
use crate::carrying::{Led, carry};
use crate::counted::counted_gates;
use cdcl_core::{Budget, Solver, Verdict};
use clause_store::Store;
use counter_expansion::{Written, write_out};
use lrat_text::Log;
use std::alloc::{AllocError, Global};

/// The ids of what is written out are below it, so that the ids of lemmas have room after them.
const END_OF_WRITTEN_IDS: u64 = 1 << 61;

/// What a search finds over a formula.
#[derive(Drop)]
pub enum Found {
    /// A log that refutes it.
    Refuted(Log),
    /// A log that takes the whole budget.
    Spent(Log),
    /// A value for each variable, from 1 on. Those of the variables that gates are written out without say nothing, and what the
    /// others say is to be tested.
    Told(Vec<bool>),
}

/// Searches over a formula whose gates are written out: each clause that is learnt is carried over to the formula, where it is
/// a useful lemma too. None where the formula has no gate that is written out, or where that led nowhere; then a search over the
/// formula itself is left. Of the budget each lemma with a literal takes a unit.
///
/// The cost is that of `write_out`, of `Solver::solve`, and of the hints over the formula and their check, linear in the literals of
/// the clauses that they name.
pub fn search(
    alloc: Global,
    formula: &Store,
    vars: u64,
    budget: u64,
) -> Result<Option<Found>, AllocError>
    requires small { vars < 2 ^ 31 }
    requires range { AreInRange vars formula.now.held }
    requires few { budget < 2 ^ 62 }
    ensures { IfOk result (λ found. IfSome found (IsFound vars formula.now budget)) }
{
    match write_out(alloc, formula, vars)? {
        Some(written) => search_over(alloc, formula, vars, &written, budget),
        None => Ok(None),
    }
}

/// The same, over what is written out.
fn search_over(
    alloc: Global,
    formula: &Store,
    vars: u64,
    written: &Written,
    budget: u64,
) -> Result<Option<Found>, AllocError>
    requires small { vars < 2 ^ 31 }
    requires range { AreInRange vars formula.now.held }
    requires few { budget < 2 ^ 62 }
    requires out { IsWrittenOut vars formula.now.held written.now }
    ensures { IfOk result (λ found. IfSome found (IsFound vars formula.now budget)) }
{
    if written.store.last() >= END_OF_WRITTEN_IDS {
        return Ok(None);
    }
    let gates = counted_gates(alloc, written)?;
    let mut solver = Solver::with_gates(alloc, &written.store, vars, gates)?;
    solver.decide_by_scores();
    let told = run(alloc, &mut solver, vars, budget);
    let log = solver.into_log();
    match told {
        Ok(Some(values)) => Ok(Some(Found::Told(values))),
        Ok(None) => carry_over(alloc, formula, vars, written, &log, budget),
        Err(error) => Err(error),
    }
}

/// Searches with one unit more than the budget, so that the lemma that is due where the budget is spent is learnt too: the
/// values that are found within the budget, if any are.
fn run(
    alloc: Global,
    solver: &mut Solver,
    vars: u64,
    budget: u64,
) -> Result<Option<Vec<bool>>, AllocError>
    requires few { budget < 2 ^ 62 }
    requires room { solver.old.database.last < 2 ^ 61 }
    requires vars { solver.old.vars ≡ vars }
    requires nothing { solver.old.log ≡ [] }
    ensures lemmas { AreLemmas vars solver.old.database solver.new.log }
    ensures bounded { IsBoundedLog vars solver.new.log }
    ensures values { IfOk result (λ found. IfSome found (λ values. length values.items ≡ vars)) }
{
    let mut units = Budget::of(budget + 1);
    match solver.solve(&mut units)? {
        Verdict::Sat if units.left() > 0 => Ok(Some(values_of(alloc, solver, vars)?)),
        _ => Ok(None),
    }
}

/// The value of each variable: linear in their number.
fn values_of(alloc: Global, solver: &Solver, vars: u64) -> Result<Vec<bool>, AllocError>
    requires vars { solver.now.vars ≡ vars }
    ensures { IfOk result (λ values. length values.items ≡ vars) }
{
    let mut values = Vec::new(alloc);
    for before in 0..vars {
        values.push(solver.model(before + 1))?;
    }
    Ok(values)
}

/// The log over the formula, if it leads there within the budget.
fn carry_over(
    alloc: Global,
    formula: &Store,
    vars: u64,
    written: &Written,
    log: &Log,
    budget: u64,
) -> Result<Option<Found>, AllocError>
    requires small { vars < 2 ^ 31 }
    requires range { AreInRange vars formula.now.held }
    requires out { IsWrittenOut vars formula.now.held written.now }
    requires lemmas { AreLemmas vars written.now.store log.now }
    requires bounded { IsBoundedLog vars log.now }
    ensures { IfOk result (λ found. IfSome found (IsFound vars formula.now budget)) }
{
    let Some(mut carrier) = Carrier::start(alloc, formula, vars)? else {
        return Ok(None);
    };
    match carry(alloc, &mut carrier, written, log, budget)? {
        Led::Refuted => Ok(Some(Found::Refuted(carrier.log))),
        Led::Spent => Ok(Some(Found::Spent(carrier.log))),
        Led::On | Led::Astray => Ok(None),
    }
}
