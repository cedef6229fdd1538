//! What the solver and the checker say of a trial configuration.
ghost use Rattle.std.specs.Prelude.{◌≡◌, ◌+◌, ◌≤◌, ◌<◌, ◌^◌, IfOk};
ghost use Rattle.lrat_model.specs.Ranges.{AreInRange};

use crate::reading::read_dimacs;
use anyhow::{Result, bail};
use cdcl_core::{Budget, Solver, Verdict};
use clause_encoder::{Version, encode};
use clause_store::Store;
use fbas_core::System;
use greatest_quorum::greatest;
use lrat_checker::IdleChecker;
use lrat_model::{Progress, Rule};
use lrat_text::Log;
use name_set::NodeSet;
use std::alloc::{AllocError, Global};
use trial_network::{MOST_ORGANISATIONS, Trial};

/// The most units of the solver's budget.
pub const UNITS: u64 = 4_000_000;

/// The most clauses of a formula that the solver is given.
const MOST_CLAUSES: u64 = 1_000_000_000;

/// What the solver and the checker said.
#[derive(Drop)]
pub struct Outcome {
    pub variables: u64,
    pub clauses: u64,
    pub verdict: Verdict,
    /// How many lemmas with a literal there are.
    pub lemmas: u64,
    /// Whether the checker takes each step of the log, and the empty lemma last.
    pub is_refuted: bool,
    /// The value of each variable, where all clauses can be satisfied.
    pub model: Vec<bool>,
}

/// Whether the checker takes each step of a log, and the empty lemma last.
fn is_refuted(alloc: Global, checker: &mut IdleChecker, log: &Log) -> Result<bool, AllocError> {
    let mut answer = Ok(Progress::Going);
    for place in 0..log.len() {
        let step = log.step(place).to_step(alloc)?;
        answer = checker.step(&step);
        if answer.is_err() {
            break;
        }
    }
    Ok(matches!(answer, Ok(Progress::Refuted)))
}

/// The same of a checker of these clauses.
fn is_refutation(alloc: Global, store: Store, vars: u64, log: &Log) -> Result<bool, AllocError>
    requires small { vars < 2 ^ 31 }
    requires range { AreInRange vars store.held }
{
    let mut checker = IdleChecker::start(alloc, store, vars, Rule::Rat)?;
    is_refuted(alloc, &mut checker, log)
}

/// Searches within a budget, and gives the verdict and how many lemmas with a literal there are. Of the contract of `solve` it
/// keeps what its caller wants.
fn search(solver: &mut Solver, units: u64) -> Result<(Verdict, u64), AllocError>
    requires room { solver.old.database.last + units + 1 < 2 ^ 63 }
    ensures vars { solver.new.vars ≡ solver.old.vars }
{
    let mut budget = Budget::of(units);
    let verdict = solver.solve(&mut budget)?;
    Ok((verdict, units - budget.left()))
}

/// Searches within a budget, and checks the log.
fn searched(
    alloc: Global,
    store: Store,
    vars: u64,
    solver: &mut Solver,
    units: u64,
) -> Result<Outcome, AllocError>
    requires small { vars < 2 ^ 31 }
    requires range { AreInRange vars store.held }
    requires room { solver.old.database.last + units + 1 < 2 ^ 63 }
    requires vars { solver.old.vars ≡ vars }
{
    let clauses = store.last();
    let (verdict, lemmas) = search(solver, units)?;
    let is_refuted = is_refutation(alloc, store, vars, solver.log())?;
    let model = model_of(alloc, solver, vars, verdict)?;
    Ok(Outcome {
        variables: vars,
        clauses,
        verdict,
        lemmas,
        is_refuted,
        model,
    })
}

/// Searches with a solver of its own, which is let go in one place.
fn solved(alloc: Global, store: Store, vars: u64, units: u64) -> Result<Outcome, AllocError>
    requires small { vars < 2 ^ 31 }
    requires range { AreInRange vars store.held }
    requires room { store.last + units + 1 < 2 ^ 63 }
{
    match Solver::start(alloc, &store, vars) {
        Ok(mut solver) => {
            let outcome = searched(alloc, store, vars, &mut solver, units);
            drop(solver);
            outcome
        }
        Err(fault) => Err(fault),
    }
}

/// Solves a formula within a budget, and checks the log.
fn solve(alloc: Global, store: Store, vars: u64, units: u64) -> Result<Outcome>
    requires small { vars < 2 ^ 31 }
    requires range { AreInRange vars store.held }
    requires few { units ≤ UNITS }
{
    if store.last() > MOST_CLAUSES {
        bail!("too many clauses");
    }
    Ok(solved(alloc, store, vars, units)?)
}

/// The value of each variable after `Sat`, else none.
fn model_of(
    alloc: Global,
    solver: &Solver,
    vars: u64,
    verdict: Verdict,
) -> Result<Vec<bool>, AllocError>
    requires { solver.now.vars ≡ vars }
{
    let mut model = Vec::new(alloc);
    if verdict == Verdict::Sat {
        let mut x = 0;
        while x < vars {
            x += 1;
            model.push(solver.model(x))?;
        }
    }
    Ok(model)
}

/// Solves a formula in DIMACS form within a budget, and checks the log.
pub fn outcome_of_text(alloc: Global, text: &str, units: u64) -> Result<Outcome>
    requires { units ≤ UNITS }
{
    let (store, vars) = read_dimacs(alloc, text)?;
    solve(alloc, store, vars, units)
}

/// The intersection formula of a system in version 3, no node deleted, and how many variables it has.
fn formula(alloc: Global, system: &System) -> Result<(Store, u64)>
    ensures small { IfOk result (λ r. r.1 < 2 ^ 31) }
    ensures range { IfOk result (λ r. AreInRange r.1 r.0.held) }
{
    let faulty = NodeSet::new(system.len());
    let greatest = greatest(system, &faulty);
    let (store, map) = encode(alloc, Version::Three, system, &faulty, &greatest)?;
    Ok((store, map.vars()))
}

/// Solves the formula of a trial configuration within a budget, and checks the log.
pub fn outcome_of(alloc: Global, organisations: u32, units: u64) -> Result<Outcome>
    requires some { 1 ≤ organisations }
    requires organisations { organisations ≤ MOST_ORGANISATIONS }
    requires few { units ≤ UNITS }
{
    let trial = Trial::of(alloc, organisations)?;
    let (store, vars) = formula(alloc, &trial.system)?;
    solve(alloc, store, vars, units)
}
