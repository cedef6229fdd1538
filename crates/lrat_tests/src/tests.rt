//! Tests of the solver, whose logs are fed to the checker and written.
ghost use Rattle.std.specs.Prelude.{◌≡◌, ◌+◌, ◌≤◌, ◌<◌, ◌^◌, IfOk, OnOk};
ghost use Rattle.lrat_model.specs.Literal.{variable_of};
ghost use Rattle.lrat_model.specs.Ranges.{AreInRange};

use crate::shared::{TWO_OF_TWO, are_in_range, lits, same};
use cdcl_core::{Budget, Gate, Solver, Verdict};
use clause_store::Store;
use lrat_checker::{IdleChecker, Rule};
use lrat_model::{Lit, Progress};
use lrat_text::{Log, write_lent};
use std::alloc::{AllocError, Global};
use std::process::Abort;

// The clauses, under the ids from 1 on.
fn store(alloc: Global, clauses: &[&[i32]], vars: u64) -> Result<Store, AllocError>
    ensures range { IfOk result (λ store. AreInRange vars store.held) }
    ensures few { IfOk result (λ store. store.last ≤ 100) }
{
    let mut store = Store::new(alloc);
    for numbers in clauses {
        let clause = lits(alloc, numbers)?;
        let last = store.last();
        if last >= 100 || !are_in_range(&clause, vars) {
            continue;
        }
        store.push(last + 1, &clause)?;
    }
    Ok(store)
}

// Searches. Of the contract of `solve` it keeps what the next call wants, so that a test of many calls is cheap to prove.
fn solve(solver: &mut Solver, budget: &mut Budget) -> Result<Verdict, AllocError>
    requires room { solver.old.database.last + budget.old + 1 < 2 ^ 63 }
    ensures last { solver.new.database.last + budget.new ≤ solver.old.database.last + budget.old + 1 }
    ensures vars { solver.new.vars ≡ solver.old.vars }
{
    solver.solve(budget)
}

// Gives the clause of one literal.
fn give(solver: &mut Solver, l: Lit) -> Result<u64, AllocError>
    requires room { solver.old.database.last + 1 < 2 ^ 63 }
    requires range { variable_of l ≤ solver.old.vars }
    ensures last { OnOk result (solver.new.database.last ≡ solver.old.database.last + 1) }
    ensures vars { solver.new.vars ≡ solver.old.vars }
{
    solver.add(&[l])
}

// Whether the checker takes each step of a log, and the empty lemma last.
fn is_refuted(alloc: Global, checker: &mut IdleChecker, log: &Log) -> Result<bool, AllocError> {
    for place in 0..log.len() {
        let step = log.step(place).to_step(alloc)?;
        match checker.step(&step) {
            Ok(Progress::Going) => {}
            Ok(Progress::Refuted) => return Ok(place + 1 == log.len()),
            Err(_) => return Ok(false),
        }
    }
    Ok(false)
}

// The same of a checker of these clauses.
fn is_refutation(
    alloc: Global,
    clauses: &[&[i32]],
    vars: u64,
    log: &Log,
) -> Result<bool, AllocError>
    requires { vars < 2 ^ 31 }
{
    let store = store(alloc, clauses, vars)?;
    let mut checker = IdleChecker::start(alloc, store, vars, Rule::Rup)?;
    let is_refuted = is_refuted(alloc, &mut checker, log);
    drop(checker);
    is_refuted
}

// A solver of these clauses.
fn started(alloc: Global, clauses: &[&[i32]], vars: u64) -> Result<Solver, AllocError>
    requires { vars < 2 ^ 31 }
    ensures few { IfOk result (λ solver. solver.database.last ≤ 100) }
    ensures vars { IfOk result (λ solver. solver.vars ≡ vars) }
{
    let store = store(alloc, clauses, vars)?;
    Solver::start(alloc, &store, vars)
}

// The lines of the steps that were logged.
fn lines(alloc: Global, solver: &Solver) -> Result<String, AllocError> {
    let mut lines = String::new(alloc);
    let log = solver.log();
    for place in 0..log.len() {
        for byte in write_lent(log.step(place)) {
            lines.push(byte as char)?;
        }
        lines.push('\n')?;
    }
    Ok(lines)
}

// A search with no budget, the steps that it logged, and a search with one.
fn two_searches(alloc: Global, solver: &mut Solver) -> Result<String, AllocError>
    requires { solver.old.database.last ≤ 100 }
{
    let mut none = Budget::of(0);
    let first = solve(solver, &mut none)?;
    let logged = solver.log().len();
    let mut budget = Budget::of(6561);
    let second = solve(solver, &mut budget)?;
    format!(in alloc; "{first:?} {logged} {second:?}")
}

// The same of a solver of two of two, and whether its log is a refutation.
fn two_searches_checked(alloc: Global, solver: &mut Solver) -> Result<String, AllocError>
    requires { solver.old.database.last ≤ 100 }
{
    let shown = two_searches(alloc, solver)?;
    let is_refuted = is_refutation(alloc, &TWO_OF_TWO, 8, solver.log())?;
    format!(in alloc; "{shown} {is_refuted}")
}

// The same where scores decide in each turn.
fn two_searches_by_scores(alloc: Global, solver: &mut Solver) -> Result<String, AllocError>
    requires { solver.old.database.last ≤ 100 }
{
    solver.decide_by_scores();
    two_searches_checked(alloc, solver)
}

// Of five variables three are true, by the first variable's gate, and no three are.
static THREE_OF_FIVE: [&[i32]; 21] = [
    &[1],
    &[-1, 2, 3, 4],
    &[-1, 2, 3, 5],
    &[-1, 2, 3, 6],
    &[-1, 2, 4, 5],
    &[-1, 2, 4, 6],
    &[-1, 2, 5, 6],
    &[-1, 3, 4, 5],
    &[-1, 3, 4, 6],
    &[-1, 3, 5, 6],
    &[-1, 4, 5, 6],
    &[-2, -3, -4],
    &[-2, -3, -5],
    &[-2, -3, -6],
    &[-2, -4, -5],
    &[-2, -4, -6],
    &[-2, -5, -6],
    &[-3, -4, -5],
    &[-3, -4, -6],
    &[-3, -5, -6],
    &[-4, -5, -6],
];

// A solver of these, where clauses 2 to 11 are not watched: the false inputs of the gate are counted.
fn counting(alloc: Global) -> Result<Solver, AllocError>
    ensures few { IfOk result (λ solver. solver.database.last ≤ 100) }
{
    let store = store(alloc, &THREE_OF_FIVE, 6)?;
    let mut inputs = Vec::new(alloc);
    for input in 2..7 {
        inputs.push(input)?;
    }
    let mut gates = Vec::new(alloc);
    gates.push(Gate {
        head: 1,
        inputs,
        size: 3,
        first: 2,
    })?;
    Solver::with_gates(alloc, &store, 6, gates)
}

// A search, and whether its log is a refutation.
fn search_counting(alloc: Global, solver: &mut Solver) -> Result<String, AllocError>
    requires { solver.old.database.last ≤ 100 }
{
    let mut budget = Budget::of(100);
    let verdict = solve(solver, &mut budget)?;
    let is_refuted = is_refutation(alloc, &THREE_OF_FIVE, 6, solver.log())?;
    format!(in alloc; "{verdict:?} {is_refuted}")
}

// The same of a solver that is owned here alone.
fn counted(alloc: Global) -> Result<String, AllocError> {
    let mut solver = counting(alloc)?;
    search_counting(alloc, &mut solver)
}

#[test]
fn sets_of_inputs_that_are_counted_are_refuted(rt: HostRuntime) {
    same(&rt, counted(rt.alloc()), "Unsat true");
}

// Two empty clauses.
static EMPTY: [&[i32]; 2] = [&[], &[]];

// A search with no budget, the lines of the steps that it logged, and whether they are a refutation of two empty clauses.
fn search_at_no_cost(alloc: Global, solver: &mut Solver) -> Result<String, AllocError>
    requires { solver.old.database.last ≤ 100 }
{
    let mut none = Budget::of(0);
    let verdict = solve(solver, &mut none)?;
    let lines = lines(alloc, solver)?;
    let is_refuted = is_refutation(alloc, &EMPTY, 0, solver.log())?;
    format!(in alloc; "{verdict:?}\n{lines}{is_refuted}")
}

// A search, and the values of the first two variables.
fn assignment(alloc: Global, solver: &mut Solver) -> Result<String, AllocError>
    requires few { solver.old.database.last ≤ 100 }
    requires vars { solver.old.vars ≡ 2 }
{
    let mut budget = Budget::of(100);
    let verdict = solve(solver, &mut budget)?;
    let (first, second) = (solver.model(1), solver.model(2));
    format!(in alloc; "{verdict:?} {first} {second}")
}

// The second of two variables is true, and the first is not.
static ONE_MODEL: [&[i32]; 2] = [&[1, 2], &[-1]];

// A search, the id of a clause that is given then, another search, what is left of the budget, and how many steps were logged.
fn given_between(
    alloc: Global,
    solver: &mut Solver,
    units: u64,
    l: Lit,
) -> Result<String, AllocError>
    requires few { solver.old.database.last ≤ 100 }
    requires units { units ≤ 100 }
    requires range { variable_of l ≤ solver.old.vars }
{
    let mut budget = Budget::of(units);
    let first = solve(solver, &mut budget)?;
    let id = give(solver, l)?;
    let second = solve(solver, &mut budget)?;
    let (left, logged) = (budget.left(), solver.log().len());
    format!(in alloc; "{first:?} {id} {second:?} {left} {logged}")
}

/// What is asked of a solver.
#[derive(Clone, Copy)]
enum Asked {
    /// Two searches, of two of two.
    TwoSearches,
    /// The same where scores decide in each turn.
    ByScores,
    /// A search with no budget, of two empty clauses.
    NoCost,
    /// A search, and the values of two variables.
    Assignment,
    /// A literal that is given between two searches with this many units.
    Given(Lit, u64),
}

// What is asked of a solver over this many variables.
fn shown(alloc: Global, solver: &mut Solver, vars: u64, asked: Asked) -> Result<String, AllocError>
    requires few { solver.old.database.last ≤ 100 }
    requires vars { solver.old.vars ≡ vars }
{
    match asked {
        Asked::TwoSearches => two_searches_checked(alloc, solver),
        Asked::ByScores => two_searches_by_scores(alloc, solver),
        Asked::NoCost => search_at_no_cost(alloc, solver),
        Asked::Assignment if vars == 2 => assignment(alloc, solver),
        Asked::Given(l, units) if units <= 100 && u64::from(l.variable()) <= vars => {
            given_between(alloc, solver, units, l)
        }
        _ => String::from_str(alloc, "out of range"),
    }
}

// The same of a solver of these clauses. It is owned here alone, since what is proved of a function carries it from call to call.
fn asked_of(
    alloc: Global,
    asked: Asked,
    clauses: &[&[i32]],
    vars: u64,
) -> Result<String, AllocError>
    requires { vars < 2 ^ 31 }
{
    let mut solver = started(alloc, clauses, vars)?;
    shown(alloc, &mut solver, vars, asked)
}

// Fails the test unless two searches of two of two end so: within no budget, and within one.
fn wants_two_searches(rt: &impl Abort, alloc: Global, asked: Asked) {
    let shown = asked_of(alloc, asked, &TWO_OF_TWO, 8);
    same(rt, shown, "Spent 0 Unsat true");
}

#[test]
fn two_of_two_is_refuted_within_its_budget(rt: HostRuntime) {
    wants_two_searches(&rt, rt.alloc(), Asked::TwoSearches);
}

#[test]
fn two_of_two_is_refuted_by_scores_alone(rt: HostRuntime) {
    wants_two_searches(&rt, rt.alloc(), Asked::ByScores);
}

#[test]
fn empty_clauses_are_refuted_at_no_cost(rt: HostRuntime) {
    let shown = asked_of(rt.alloc(), Asked::NoCost, &EMPTY, 0);
    same(&rt, shown, "Unsat\n3 0 1 0\ntrue");
}

#[test]
fn an_assignment_is_told(rt: HostRuntime) {
    let shown = asked_of(rt.alloc(), Asked::Assignment, &ONE_MODEL, 2);
    same(&rt, shown, "Sat false true");
}

// A clause that is given after a search is held from then on.
#[test]
fn a_clause_is_given_between_two_searches(rt: HostRuntime) {
    let given = Asked::Given(Lit::negative(2), 100);
    let shown = asked_of(rt.alloc(), given, &ONE_MODEL, 2);
    same(&rt, shown, "Sat 3 Unsat 100 1");
}

static REFUTED: [&[i32]; 2] = [&[1], &[-1]];

// What is refuted stays so at no cost, whatever is given later.
#[test]
fn a_refutation_is_final(rt: HostRuntime) {
    let given = Asked::Given(Lit::positive(1), 0);
    let shown = asked_of(rt.alloc(), given, &REFUTED, 1);
    same(&rt, shown, "Unsat 4 Unsat 0 1");
}
