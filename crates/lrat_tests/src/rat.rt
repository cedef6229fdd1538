//! RAT steps on the formula of three nodes that each need two of the three, as steps and hint by hint.
use crate::shared::{added, answered, checker, deleted, lits, same, streamed};
use lrat_checker::{IdleChecker, Rule};
use std::alloc::{AllocError, Global};
use std::process::Abort;

// Its 53 clauses, over 36 variables.
static TWO_OF_THREE: [&[i32]; 53] = [
    &[1, 2, 3],
    &[4, 5, 6],
    &[-1, -4],
    &[-2, -5],
    &[-3, -6],
    &[-7, 1],
    &[-8, 7, 2],
    &[-9, 2],
    &[-9, 7],
    &[-10, 8, 3],
    &[-11, 9, 3],
    &[-11, 9, 8],
    &[-1, 11],
    &[-12, 1],
    &[-13, 12, 2],
    &[-14, 2],
    &[-14, 12],
    &[-15, 13, 3],
    &[-16, 14, 3],
    &[-16, 14, 13],
    &[-2, 16],
    &[-17, 1],
    &[-18, 17, 2],
    &[-19, 2],
    &[-19, 17],
    &[-20, 18, 3],
    &[-21, 19, 3],
    &[-21, 19, 18],
    &[-3, 21],
    &[-22, 4],
    &[-23, 22, 5],
    &[-24, 5],
    &[-24, 22],
    &[-25, 23, 6],
    &[-26, 24, 6],
    &[-26, 24, 23],
    &[-4, 26],
    &[-27, 4],
    &[-28, 27, 5],
    &[-29, 5],
    &[-29, 27],
    &[-30, 28, 6],
    &[-31, 29, 6],
    &[-31, 29, 28],
    &[-5, 31],
    &[-32, 4],
    &[-33, 32, 5],
    &[-34, 5],
    &[-34, 32],
    &[-35, 33, 6],
    &[-36, 34, 6],
    &[-36, 34, 33],
    &[-6, 36],
];

// What is answered to an addition after the formula, as a step.
fn whole(alloc: Global, rule: Rule, numbers: &[i32], hints: &[i64]) -> Result<String, AllocError> {
    let mut checker = checker(alloc, &TWO_OF_THREE, 36, rule)?;
    let answer = added(alloc, &mut checker, (54, numbers, hints));
    drop(checker);
    answer
}

// The same, hint by hint.
fn in_parts(
    alloc: Global,
    rule: Rule,
    numbers: &[i32],
    hints: &[i64],
) -> Result<String, AllocError> {
    let lits = lits(alloc, numbers)?;
    let mut checker = checker(alloc, &TWO_OF_THREE, 36, rule)?.opening();
    let answer = streamed(&mut checker, 54, &lits, hints);
    drop(checker);
    answered(alloc, answer)
}

static ADDITIONS: [(Rule, &[i32], &[i64], &str); 20] = [
    (Rule::Rat, &[7, -1], &[-6], "Going"),
    (Rule::Rat, &[7, -1], &[-4], "rat-step 1"),
    (Rule::Rat, &[9, -2, -7], &[-8, -9], "Going"),
    (Rule::Rat, &[9, -2, -7], &[-8], "rat-missing 9"),
    (Rule::Rat, &[9, -2, -7], &[-9], "rat-missing 8"),
    (Rule::Rat, &[9, -2, -7], &[-9, -8], "Going"),
    (Rule::Rat, &[9, -2, -7], &[-9, -9], "rat-missing 8"),
    (Rule::Rup, &[7, -1], &[-6], "rat-step 1"),
    (Rule::Rup, &[7, -1], &[6, -6], "not-unit 1"),
    (Rule::Rat, &[-1, 7], &[-6], "rat-missing 1"),
    (Rule::Rat, &[7], &[-6], "no-conflict"),
    (Rule::Rat, &[7], &[-6, -60], "no-conflict"),
    (Rule::Rat, &[7, -1], &[-6, 99, -6], "Going"),
    (Rule::Rat, &[7, -1], &[-60], "no-such-clause 60"),
    (Rule::Rat, &[7, -1], &[-6, -60], "no-such-clause 60"),
    (Rule::Rat, &[], &[-6], "rat-step 1"),
    (Rule::Rat, &[], &[], "no-conflict"),
    (Rule::Rat, &[-36, 1], &[], "no-conflict"),
    (Rule::Rat, &[36, -6], &[-51, 99], "rat-missing 52"),
    (Rule::Rat, &[7, -1], &[40, -6], "not-unit 1"),
];

#[test]
fn additions_with_groups(rt: HostRuntime) {
    let alloc = rt.alloc();
    for (rule, numbers, hints, want) in ADDITIONS.iter() {
        same(&rt, whole(alloc, *rule, numbers, hints), want);
        same(&rt, in_parts(alloc, *rule, numbers, hints), want);
    }
}

// One checker takes these in turn: an addition has an id, a deletion has none. Clauses that come and go need a group each, or
// none.
static STEPS: [(u64, &[i32], &[i64], &[u64], &str); 11] = [
    (54, &[7, -1], &[-6], &[], "Going"),
    (55, &[9, -2, -7], &[-8], &[], "rat-missing 9"),
    (0, &[], &[], &[9], "Going"),
    (55, &[9, -2, -7], &[-8], &[], "Going"),
    (56, &[-9, 2], &[8], &[], "Going"),
    (57, &[9, -2, -7], &[-8], &[], "rat-missing 56"),
    (57, &[9, -2, -7], &[-8, -56], &[], "Going"),
    (0, &[], &[], &[8, 8], "no-such-clause 8"),
    (58, &[9, -2, -7], &[-56], &[], "rat-missing 8"),
    (0, &[], &[], &[56, 8], "Going"),
    (58, &[9, -2, -7], &[], &[], "Going"),
];

// What is answered to a step of these.
fn answer(
    alloc: Global,
    checker: &mut IdleChecker,
    id: u64,
    numbers: &[i32],
    hints: &[i64],
    ids: &[u64],
) -> Result<String, AllocError> {
    if id == 0 {
        deleted(alloc, checker, ids)
    } else {
        added(alloc, checker, (id, numbers, hints))
    }
}

// Fails the test where a step has another answer.
fn wants_steps(rt: &impl Abort, alloc: Global, checker: &mut IdleChecker) {
    for (id, numbers, hints, ids, want) in STEPS.iter() {
        same(rt, answer(alloc, checker, *id, numbers, hints, ids), want);
    }
}

#[test]
fn clauses_that_come_and_go(rt: HostRuntime) {
    let alloc = rt.alloc();
    let mut checker = checker(alloc, &TWO_OF_THREE, 36, Rule::Rat).expect(&rt, "memory");
    wants_steps(&rt, alloc, &mut checker);
    drop(checker);
}
