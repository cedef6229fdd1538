//! The systems are written as configurations, and the formulas as DIMACS text.

ghost use Rattle.std.specs.Prelude.{◌≡◌, ◌<◌, ◌≤◌, ◌+◌, ◌^◌, length, IfOk, IfSome};
ghost use Rattle.lrat_model.specs.Ranges.{AreInRange};

use crate::shared::{same, same_formula};
use cdcl_core::{Budget, Solver, Verdict};
use clause_encoder::{EncodeError, VarMap, Version, encode, write_dimacs};
use clause_store::Store;
use fbas_core::System;
use greatest_quorum::greatest;
use lrat_model::Lit;
use name_set::{NodeSet, read_names};
use node_json::read_config;
use std::alloc::{AllocError, Global};

const TWO_OF_TWO: &str =
    r#"[{"publicKey":"p","quorumSet":{"threshold":2,"validators":["p","q"]}},{"publicKey":"q","quorumSet":{"threshold":2,"validators":["p","q"]}}]"#;

const TWO_OF_THREE: &str =
    r#"[{"publicKey":"a","quorumSet":{"threshold":2,"validators":["a","b","c"]}},{"publicKey":"b","quorumSet":{"threshold":2,"validators":["a","b","c"]}},{"publicKey":"c","quorumSet":{"threshold":2,"validators":["a","b","c"]}}]"#;

const INNER_SET: &str =
    r#"[{"publicKey":"x","quorumSet":{"threshold":2,"validators":["x"],"innerQuorumSets":[{"threshold":1,"validators":["x","y"]}]}},{"publicKey":"y","quorumSet":{"threshold":1,"validators":["x","y"]}}]"#;

/// Two of two, of which each names itself first.
const CROSSED: &str =
    r#"[{"publicKey":"p","quorumSet":{"threshold":2,"validators":["p","q"]}},{"publicKey":"q","quorumSet":{"threshold":2,"validators":["q","p"]}}]"#;

/// The DIMACS text of a system's formula in a version after deletion of some nodes.
fn formula(
    alloc: Global,
    version: Version,
    system: &System,
    faulty: &NodeSet,
) -> Result<Vec<u8>, EncodeError>
    requires sets { length faulty.now ≡ length system.now.sets }
    requires names { length faulty.now ≡ length system.now.names }
{
    let greatest = greatest(system, faulty);
    let (store, map) = encode(alloc, version, system, faulty, &greatest)?;
    Ok(write_dimacs(alloc, &store, &map, system)?)
}

/// The same of a configuration.
fn text(alloc: Global, version: Version, config: &str, faulty: &str) -> Option<Vec<u8>> {
    let system = read_config(alloc, config.as_bytes()).ok()?;
    let faulty = read_names(faulty.as_bytes(), system.names()).ok()?;
    formula(alloc, version, &system, &faulty).ok()
}

#[test]
fn the_formula_of_two_of_two(rt: HostRuntime) {
    let shown = text(rt.alloc(), Version::One, TWO_OF_TWO, "");
    let lines =
        "c 1 a p\nc 2 a q\nc 3 b p\nc 4 b q\np cnf 8 16\n1 2 0\n3 4 0\n-1 -3 0\n-2 -4 0\n-5 1 0\n-5 2 0\n-1 5 0\n-6 1 0\n-6 2 0\n-2 6 0\n-7 3 0\n-7 4 0\n-3 7 0\n-8 3 0\n-8 4 0\n-4 8 0\n";
    same_formula(&rt, shown, lines);
}

#[test]
fn the_formula_of_two_of_three_begins_with_a_counter(rt: HostRuntime) {
    let shown = text(rt.alloc(), Version::One, TWO_OF_THREE, "");
    let lines =
        "c 1 a a\nc 2 a b\nc 3 a c\nc 4 b a\nc 5 b b\nc 6 b c\np cnf 36 53\n1 2 3 0\n4 5 6 0\n-1 -4 0\n-2 -5 0\n-3 -6 0\n-7 1 0\n-8 7 2 0\n-9 2 0\n-9 7 0\n-10 8 3 0\n-11 9 3 0\n-11 9 8 0\n-1 11 0\n";
    let shown = shown.expect(&rt, "a formula");
    assert!(rt; shown.as_slice().starts_with(lines.as_bytes()));
}

#[test]
fn the_formula_of_an_inner_set(rt: HostRuntime) {
    let shown = text(rt.alloc(), Version::One, INNER_SET, "");
    let lines =
        "c 1 a x\nc 2 a y\nc 3 b x\nc 4 b y\np cnf 10 16\n1 2 0\n3 4 0\n-1 -3 0\n-2 -4 0\n-5 1 2 0\n-6 1 0\n-6 5 0\n-1 6 0\n-7 1 2 0\n-2 7 0\n-8 3 4 0\n-9 3 0\n-9 8 0\n-3 9 0\n-10 3 4 0\n-4 10 0\n";
    same_formula(&rt, shown, lines);
}

#[test]
fn formulas_with_faulty_nodes_and_without_nodes(rt: HostRuntime) {
    let alloc = rt.alloc();
    let shown = text(alloc, Version::One, "[]", "");
    same_formula(&rt, shown, "p cnf 0 2\n0\n0\n");
    // with a faulty each of the others wants one of two
    let shown = text(alloc, Version::One, TWO_OF_THREE, "a");
    let lines =
        "c 1 a b\nc 2 a c\nc 3 b b\nc 4 b c\np cnf 8 12\n1 2 0\n3 4 0\n-1 -3 0\n-2 -4 0\n-5 1 2 0\n-1 5 0\n-6 1 2 0\n-2 6 0\n-7 3 4 0\n-3 7 0\n-8 3 4 0\n-4 8 0\n";
    same_formula(&rt, shown, lines);
}

#[test]
fn in_version_2_equal_quorum_sets_have_one_gate_on_a_side(rt: HostRuntime) {
    let alloc = rt.alloc();
    let shown = text(alloc, Version::Two, "[]", "");
    same_formula(&rt, shown, "p cnf 0 2\n0\n0\n");
    let shown = text(alloc, Version::Two, TWO_OF_TWO, "");
    let lines =
        "c 1 a p\nc 2 a q\nc 3 b p\nc 4 b q\np cnf 6 12\n1 2 0\n3 4 0\n-1 -3 0\n-2 -4 0\n-5 1 0\n-5 2 0\n-1 5 0\n-2 5 0\n-6 3 0\n-6 4 0\n-3 6 0\n-4 6 0\n";
    same_formula(&rt, shown, lines);
    // with a faulty each of the others wants one of two
    let shown = text(alloc, Version::Two, TWO_OF_THREE, "a");
    let lines =
        "c 1 a b\nc 2 a c\nc 3 b b\nc 4 b c\np cnf 6 10\n1 2 0\n3 4 0\n-1 -3 0\n-2 -4 0\n-5 1 2 0\n-1 5 0\n-2 5 0\n-6 3 4 0\n-3 6 0\n-4 6 0\n";
    same_formula(&rt, shown, lines);
}

#[test]
fn in_version_2_an_inner_set_is_shared_too(rt: HostRuntime) {
    // the inner set of x is the quorum set of y: its gate is written before that of x, and y uses it again
    let shown = text(rt.alloc(), Version::Two, INNER_SET, "");
    let lines =
        "c 1 a x\nc 2 a y\nc 3 b x\nc 4 b y\np cnf 8 14\n1 2 0\n3 4 0\n-1 -3 0\n-2 -4 0\n-5 1 2 0\n-6 1 0\n-6 5 0\n-1 6 0\n-2 5 0\n-7 3 4 0\n-8 3 0\n-8 7 0\n-3 8 0\n-4 7 0\n";
    same_formula(&rt, shown, lines);
}

#[test]
fn in_version_3_sets_that_differ_in_their_order_have_one_gate_on_a_side(rt: HostRuntime) {
    let alloc = rt.alloc();
    let apart = text(alloc, Version::Two, CROSSED, "");
    let lines =
        "c 1 a p\nc 2 a q\nc 3 b p\nc 4 b q\np cnf 8 16\n1 2 0\n3 4 0\n-1 -3 0\n-2 -4 0\n-5 1 0\n-5 2 0\n-1 5 0\n-6 2 0\n-6 1 0\n-2 6 0\n-7 3 0\n-7 4 0\n-3 7 0\n-8 4 0\n-8 3 0\n-4 8 0\n";
    same_formula(&rt, apart, lines);
    let shared = text(alloc, Version::Three, CROSSED, "");
    let lines =
        "c 1 a p\nc 2 a q\nc 3 b p\nc 4 b q\np cnf 6 12\n1 2 0\n3 4 0\n-1 -3 0\n-2 -4 0\n-5 1 0\n-5 2 0\n-1 5 0\n-2 5 0\n-6 3 0\n-6 4 0\n-3 6 0\n-4 6 0\n";
    same_formula(&rt, shared, lines);
    // a node stands before an inner set, which is written first all the same
    let inner = text(alloc, Version::Three, INNER_SET, "");
    let lines =
        "c 1 a x\nc 2 a y\nc 3 b x\nc 4 b y\np cnf 8 14\n1 2 0\n3 4 0\n-1 -3 0\n-2 -4 0\n-5 1 2 0\n-6 1 0\n-6 5 0\n-1 6 0\n-2 5 0\n-7 3 4 0\n-8 3 0\n-8 7 0\n-3 8 0\n-4 7 0\n";
    same_formula(&rt, inner, lines);
}

/// Whether the values make each clause of the store true.
fn is_satisfied(store: &Store, values: &[bool]) -> bool {
    for before in 0..store.last() {
        if let Some(lits) = store.lits(before + 1)
            && !lits.iter().any(|l| is_true(*l, values))
        {
            return false;
        }
    }
    true
}

fn is_true(lit: Lit, values: &[bool]) -> bool {
    let place = lit.variable() as usize - 1;
    place < values.len() && values[place] == (lit.number() > 0)
}

/// Two of three, and the set of a.
fn two_of_three(alloc: Global) -> Option<(System, NodeSet)>
    ensures { IfSome result (λ r. length r.1 ≡ length r.0.sets) }
{
    let system = read_config(alloc, TWO_OF_THREE.as_bytes()).ok()?;
    let faulty = read_names(b"a", system.names()).ok()?;
    Some((system, faulty))
}

/// The least node and the number of nodes of each of two sets that an assignment tells, and whether both are quorums.
fn told(
    alloc: Global,
    system: &System,
    faulty: &NodeSet,
    map: &VarMap,
    values: &[bool],
) -> Result<String, AllocError>
    requires values { length values.now ≡ map.now.count }
    requires nodes { length map.now.greatest ≡ length system.now.sets }
    requires same_faulty { length faulty.now ≡ length system.now.sets }
{
    let (first, second) = map.pair(values);
    let are_quorums = system.is_quorum(&first, faulty) && system.is_quorum(&second, faulty);
    let (first, second) = (
        (first.least(), first.count()),
        (second.least(), second.count()),
    );
    format!(in alloc; "{first:?} {second:?} {are_quorums}")
}

/// What this assignment tells.
fn told_by_hand(
    alloc: Global,
    system: &System,
    faulty: &NodeSet,
    values: [bool; 8],
) -> Result<String, EncodeError>
    requires { length faulty.now ≡ length system.now.sets }
{
    let greatest = greatest(system, faulty);
    let (store, map) = encode(alloc, Version::One, system, faulty, &greatest)?;
    if map.vars() != 8 || !is_satisfied(&store, &values) {
        return Ok(String::from_str(alloc, "not satisfied")?);
    }
    Ok(told(alloc, system, faulty, &map, &values)?)
}

#[test]
fn an_assignment_tells_two_quorums(rt: HostRuntime) {
    let (system, faulty) = two_of_three(rt.alloc()).expect(&rt, "a system");
    // b alone on side a, c alone on side b
    let values = [true, false, false, true, true, false, false, true];
    let shown = told_by_hand(rt.alloc(), &system, &faulty, values).expect(&rt, "a formula");
    same(&rt, Ok(shown), "(Some(1), 1) (Some(2), 1) true");
}

/// The values that the solver gives to the variables.
fn values_of(alloc: Global, solver: &Solver, vars: u64) -> Result<Vec<bool>, AllocError>
    requires { vars ≡ solver.now.vars }
    ensures { IfOk result (λ values. length values.items ≡ vars) }
{
    let mut values = Vec::new(alloc);
    for before in 0..vars {
        values.push(solver.model(before + 1))?;
    }
    Ok(values)
}

/// Searches. Of the contract of `solve` it keeps what the next call wants, so that what is proved of that is small.
fn search(solver: &mut Solver, units: u64) -> Result<Verdict, AllocError>
    requires room { solver.old.database.last + units + 1 < 2 ^ 63 }
    ensures vars { solver.new.vars ≡ solver.old.vars }
{
    let mut budget = Budget::of(units);
    solver.solve(&mut budget)
}

/// The assignment that the solver finds.
fn found(alloc: Global, solver: &mut Solver, vars: u64) -> Result<Option<Vec<bool>>, AllocError>
    requires vars { vars ≡ solver.old.vars }
    requires few { solver.old.database.last ≤ 2 ^ 62 }
    ensures { IfOk result (λ o. IfSome o (λ values. length values.items ≡ vars)) }
{
    if search(solver, 729)? == Verdict::Sat {
        Ok(Some(values_of(alloc, solver, vars)?))
    } else {
        Ok(None)
    }
}

/// The solver's own assignment to these clauses.
fn solved(alloc: Global, store: &Store, vars: u64) -> Result<Option<Vec<bool>>, AllocError>
    requires small { vars < 2 ^ 31 }
    requires range { AreInRange vars store.now.held }
    requires few { store.now.last ≤ 2 ^ 62 }
    ensures { IfOk result (λ o. IfSome o (λ values. length values.items ≡ vars)) }
{
    let mut solver = Solver::start(alloc, store, vars)?;
    found(alloc, &mut solver, vars)
}

/// What the solver's own assignment tells.
fn told_by_the_solver(
    alloc: Global,
    system: &System,
    faulty: &NodeSet,
) -> Result<String, EncodeError>
    requires { length faulty.now ≡ length system.now.sets }
{
    let greatest = greatest(system, faulty);
    let (store, map) = encode(alloc, Version::Two, system, faulty, &greatest)?;
    match solved(alloc, &store, map.vars())? {
        Some(values) => Ok(told(alloc, system, faulty, &map, &values)?),
        None => Ok(String::from_str(alloc, "not satisfied")?),
    }
}

#[test]
fn the_solvers_own_assignment_tells_two_quorums(rt: HostRuntime) {
    let (system, faulty) = two_of_three(rt.alloc()).expect(&rt, "a system");
    let shown = told_by_the_solver(rt.alloc(), &system, &faulty).expect(&rt, "a formula");
    // b alone on one side, c alone on the other
    let (one, other) = (
        "(Some(1), 1) (Some(2), 1) true",
        "(Some(2), 1) (Some(1), 1) true",
    );
    assert!(rt; shown.as_str() == one || shown.as_str() == other);
}
