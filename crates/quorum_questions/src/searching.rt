//! The search for an assignment that tells two quorums which share no node.
ghost use Rattle.std.specs.Prelude.{◌≡◌, ℕ, ◌<◌, ◌^◌, length, Err, IfOk};
ghost use Rattle.lrat_model.specs.Ranges.{AreInRange};
ghost use Rattle.fbas_model.specs.Nodes.{Table};
ghost use Rattle.fbas_model.specs.Fbas.{Fbas};
ghost use Rattle.clause_encoder.specs.declared.limits.TheConstants.{MOST_VARS};
ghost use Rattle.quorum_questions.specs.Evidence.{vars_of, IsWitness};
ghost use Rattle.quorum_questions.specs.Searching.{IsAsked, IsFormula, IsFormulaFor, IsStarted, IsStartedFor, Tells, Ends};

use crate::answers::{AskError, Size, no_formula};
use cdcl_core::{Budget, Plan, Solver, Verdict};
use clause_encoder::{VarMap, Version, encode};
use clause_store::Store;
use fbas_core::System;
use greatest_quorum::greatest;
use name_set::NodeSet;
use std::alloc::{AllocError, Global};
use witness_pair::{Pair, make_pair};

/// What is asked: whether every two quorums of this system share a node once the faulty nodes are deleted, within a budget
/// of units.
#[derive(Clone, Copy)]
pub struct Asked<'a> {
    pub system: &'a System,
    pub faulty: &'a NodeSet,
    pub budget: u64,
}

/// The intersection formula of version 3 once the faulty nodes are deleted, what its variables stand for, and its size.
#[derive(Drop)]
pub struct Formula {
    pub store: Store,
    pub map: VarMap,
    pub size: Size,
}

/// A solver over the intersection formula, what the formula's variables stand for, and its size.
#[derive(Drop)]
pub struct Search {
    pub solver: Solver,
    pub map: VarMap,
    pub size: Size,
}

/// The intersection formula of a system once the faulty nodes are deleted.
pub fn formula_of(alloc: Global, asked: &Asked) -> Result<Formula, AskError>
    requires asked { IsAsked asked.now }
    ensures formula { IfOk result (IsFormulaFor asked.now) }
    ensures too_large { (vars : ℕ) → result ≡ Err (AskError.TooLarge vars) → (vars ≡ vars_of asked.now.system.now.sets asked.now.faulty.now) × (MOST_VARS < vars) }
{
    let greatest = greatest(asked.system, asked.faulty);
    match encode(alloc, Version::Three, asked.system, asked.faulty, &greatest) {
        Ok((store, map)) => {
            let size = Size {
                vars: map.vars(),
                clauses: store.last(),
            };
            Ok(Formula { store, map, size })
        }
        Err(error) => Err(no_formula(error)),
    }
}

/// A solver that holds the formula. The formula's store is gone when it is made.
pub fn start(alloc: Global, formula: Formula) -> Result<Search, AllocError>
    requires small { formula.size.vars < 2 ^ 31 }
    requires range { AreInRange formula.size.vars formula.store.held }
    ensures started { (f : Fbas) (b : Table) → IsFormula f b formula → IfOk result (IsStarted f b) }
    ensures size { IfOk result (λ search. search.size ≡ formula.size) }
{
    let solver = Solver::start(alloc, &formula.store, formula.size.vars)?;
    Ok(Search {
        solver,
        map: formula.map,
        size: formula.size,
    })
}

/// A search whose variables are decided by a plan first. Nothing that is known of it changes.
pub fn with_plan(search: Search, plan: Plan) -> Search
    ensures { result ≡ search }
{
    let Search {
        mut solver,
        map,
        size,
    } = search;
    solver.plan(plan);
    Search { solver, map, size }
}

/// How a search within a budget ended.
#[derive(Drop)]
pub enum End {
    /// The assignment that was found tells two quorums which share no node.
    Told(Pair),
    /// The formula is refuted.
    Refuted,
    /// The budget is spent.
    Spent,
}

/// Runs a search that has not begun, and says how it ended.
pub fn end_of(alloc: Global, asked: &Asked, search: &mut Search) -> Result<End, AllocError>
    requires asked { IsAsked asked.now }
    requires started { IsStartedFor asked.now search.old }
    ensures { IfOk result (Ends asked.now.system.now.sets asked.now.faulty.now asked.now.budget search.new) }
{
    let mut units = Budget::of(asked.budget);
    match search.solver.solve(&mut units)? {
        Verdict::Sat => Ok(End::Told(told(alloc, asked, search)?)),
        Verdict::Unsat => Ok(End::Refuted),
        Verdict::Spent => Ok(End::Spent),
    }
}

/// The two quorums that the assignment which a search found tells.
fn told(alloc: Global, asked: &Asked, search: &Search) -> Result<Pair, AllocError>
    requires asked { IsAsked asked.now }
    requires vars { search.now.size.vars ≡ search.now.solver.vars }
    requires count { search.now.map.count ≡ search.now.size.vars }
    requires tells { Tells asked.now search.now.map search.now.solver.values }
    ensures { IfOk result (IsWitness asked.now.system.now.sets asked.now.faulty.now) }
{
    let values = values_of(alloc, &search.solver, search.size.vars)?;
    Ok(witness(asked, &search.map, &values))
}

/// The value of each variable: linear in their number.
fn values_of(alloc: Global, solver: &Solver, vars: u64) -> Result<Vec<bool>, AllocError>
    requires vars { vars ≡ solver.now.vars }
    requires valued { length solver.now.values ≡ vars }
    ensures { IfOk result (λ values. values.items ≡ solver.now.values) }
{
    let mut values = Vec::new(alloc);
    for before in 0..vars {
        values.push(solver.model(before + 1))?;
    }
    Ok(values)
}

/// The two quorums that a satisfying assignment tells.
fn witness(asked: &Asked, map: &VarMap, values: &[bool]) -> Pair
    requires asked { IsAsked asked.now }
    requires tells { Tells asked.now map.now values.now }
    ensures { IsWitness asked.now.system.now.sets asked.now.faulty.now result }
{
    let (first, second) = map.pair(values);
    match make_pair(asked.system, asked.faulty, first, second) {
        Ok(pair) => pair,
        Err(_) => unreachable!(),
    }
}
