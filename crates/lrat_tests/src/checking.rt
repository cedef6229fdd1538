//! The checker, step by step.

use crate::shared::{Lemma, REFUSED, TWO_OF_TWO, added, checker, deleted, equal, lits, same};
use lrat_checker::{IdleChecker, Rule};
use std::alloc::{AllocError, Global};
use std::process::Abort;

// A checker of the formula.
fn two_of_two(rt: &impl Abort, alloc: Global) -> IdleChecker {
    checker(alloc, &TWO_OF_TWO, 8, Rule::Rup).expect(rt, "memory")
}

// One checker takes these in turn after those that are refused: a fault leaves no literal true, and no id behind.
static STEPS: [(Lemma<'static>, &str); 4] = [
    ((17, &[-1], &[7, 5, 6, 3, 4]), "no-conflict"),
    ((17, &[-1], &[7, 6, 3, 4, 2]), "Going"),
    ((19, &[-1, -1], &[17, -9]), "Going"),
    ((20, &[], &[17, 1, 10, 8]), "Refuted"),
];

/// Fails the test where a step has another answer. The checker is borrowed, so that what is proved of the loop does not carry it.
fn wants_steps(rt: &impl Abort, alloc: Global, checker: &mut IdleChecker, steps: &[(Lemma, &str)]) {
    for (lemma, want) in steps {
        same(rt, added(alloc, checker, *lemma), want);
    }
}

#[test]
fn steps_of_two_of_two(rt: HostRuntime) {
    let mut checker = two_of_two(&rt, rt.alloc());
    wants_steps(&rt, rt.alloc(), &mut checker, &REFUSED);
    wants_steps(&rt, rt.alloc(), &mut checker, &STEPS);
    equal(&rt, &checker.last(), &20, "the last id");
    drop(checker);
}

/// Whether the checker takes the deletion of an id.
fn delete(alloc: Global, checker: &mut IdleChecker, id: u64) -> Result<bool, AllocError> {
    Ok(deleted(alloc, checker, &[id])?.as_str() == "Going")
}

/// Whether the checker takes the deletion of each of these ids.
fn delete_each(
    alloc: Global,
    checker: &mut IdleChecker,
    first: u64,
    end: u64,
) -> Result<bool, AllocError> {
    for id in first..end {
        if !delete(alloc, checker, id)? {
            return Ok(false);
        }
    }
    Ok(true)
}

/// Whether the checker takes the addition of a lemma.
fn add(alloc: Global, checker: &mut IdleChecker, lemma: Lemma) -> Result<bool, AllocError> {
    Ok(added(alloc, checker, lemma)?.as_str() == "Going")
}

/// The lemma -1 of the formula.
const FIRST: Lemma<'static> = (17, &[-1], &[7, 6, 3, 4, 2]);

/// Whether the checker takes it.
fn add_first(alloc: Global, checker: &mut IdleChecker) -> Result<bool, AllocError> {
    add(alloc, checker, FIRST)
}

#[derive(Clone, Copy)]
enum Change {
    Nothing,
    Lemma,
    // from this id on, below that one
    Deletions(u64, u64),
}

/// Whether the checker takes the change.
fn make(alloc: Global, checker: &mut IdleChecker, change: Change) -> Result<bool, AllocError> {
    match change {
        Change::Nothing => Ok(true),
        Change::Lemma => add_first(alloc, checker),
        Change::Deletions(first, end) => delete_each(alloc, checker, first, end),
    }
}

/// Whether clauses below the id cover these literals.
fn is_covered(
    alloc: Global,
    checker: &IdleChecker,
    id: u64,
    numbers: &[i32],
) -> Result<bool, AllocError> {
    let list = lits(alloc, numbers)?;
    Ok(checker.covers(id, &list))
}

/// Whether clauses below the id cover the one list and the other.
fn are_covered(alloc: Global, checker: &IdleChecker, id: u64) -> Result<(bool, bool), AllocError> {
    let one = is_covered(alloc, checker, id, &[8, -1])?;
    Ok((one, is_covered(alloc, checker, id, &[-4, -2, 7])?))
}

/// Whether the change is taken, and then whether clauses below the id cover the lists.
fn covered_since(
    alloc: Global,
    checker: &mut IdleChecker,
    change: Change,
    id: u64,
) -> Result<(bool, bool, bool), AllocError> {
    let taken = make(alloc, checker, change)?;
    let (one, two) = are_covered(alloc, checker, id)?;
    Ok((taken, one, two))
}

static CHANGES: [(Change, u64, (bool, bool, bool)); 5] = [
    (Change::Nothing, 18, (true, false, true)),
    (Change::Lemma, 18, (true, true, true)),
    (Change::Nothing, 17, (true, false, true)),
    (Change::Deletions(1, 17), 18, (true, true, false)),
    (Change::Deletions(17, 18), 18, (true, false, false)),
];

/// Fails the test where other lists are covered.
fn wants_covered(rt: &impl Abort, alloc: Global, checker: &mut IdleChecker) {
    checker.expect_covers(alloc);
    for (change, id, want) in CHANGES.iter() {
        let found = covered_since(alloc, checker, *change, *id);
        equal(rt, &found, &Ok(*want), "covered after a change");
    }
}

// The index learns of lemmas that are added, and of clauses that are deleted.
#[test]
fn covered_after_changes(rt: HostRuntime) {
    let mut checker = two_of_two(&rt, rt.alloc());
    wants_covered(&rt, rt.alloc(), &mut checker);
    drop(checker);
}

/// The lemma -1 from itself under this id, and then this id is deleted: whether the checker takes both.
fn renew(alloc: Global, checker: &mut IdleChecker, id: u32) -> Result<bool, AllocError> {
    let at = u64::from(id);
    let hints = [i64::from(id)];
    Ok(add(alloc, checker, (at + 1, &[-1], &hints))? && delete(alloc, checker, at)?)
}

fn renew_all(alloc: Global, checker: &mut IdleChecker) -> Result<bool, AllocError> {
    for id in 17..517_u32 {
        if !renew(alloc, checker, id)? {
            return Ok(false);
        }
    }
    Ok(true)
}

/// Whether the checker takes the lemma -1, and renews it 500 times.
fn renewed(alloc: Global, checker: &mut IdleChecker) -> Result<bool, AllocError> {
    Ok(add_first(alloc, checker)? && renew_all(alloc, checker)?)
}

// The empty lemma follows from the last of them.
fn wants_renewed(rt: &impl Abort, alloc: Global, checker: &mut IdleChecker) {
    equal(rt, &renewed(alloc, checker), &Ok(true), "renewed");
    let last = added(alloc, checker, (518, &[], &[517, 1, 10, 8]));
    same(rt, last, "Refuted");
}

#[test]
fn a_thousand_steps(rt: HostRuntime) {
    let mut checker = two_of_two(&rt, rt.alloc());
    wants_renewed(&rt, rt.alloc(), &mut checker);
    drop(checker);
}

static DELETIONS: [([u64; 2], &str); 4] = [
    ([3, 17], "no-such-clause 17"),
    ([7, 7], "no-such-clause 7"),
    ([7, 3], "Going"),
    ([4, 3], "no-such-clause 3"),
];

/// Whether clauses below 4, 5 and 17 cover a list.
fn covered(alloc: Global, checker: &IdleChecker) -> Result<String, AllocError> {
    let list = lits(alloc, &[-4, 5, -2, -3])?;
    let below_4 = checker.covers(4, &list);
    let below_5 = checker.covers(5, &list);
    let below_17 = checker.covers(17, &list);
    format!(in alloc; "{below_4} {below_5} {below_17}")
}

/// Fails the test where a deletion has another answer, a lemma is taken whose hint is deleted, or other lists are covered.
fn wants_deleted(rt: &impl Abort, alloc: Global, checker: &mut IdleChecker) {
    for (ids, want) in DELETIONS.iter() {
        same(rt, deleted(alloc, checker, ids), want);
    }
    let shown = added(alloc, checker, FIRST);
    same(rt, shown, "no-such-clause 7");
    same(rt, covered(alloc, checker), "false true true");
    // and by the index
    checker.expect_covers(alloc);
    same(rt, covered(alloc, checker), "false true true");
}

#[test]
fn deleted_and_covered(rt: HostRuntime) {
    let mut checker = two_of_two(&rt, rt.alloc());
    wants_deleted(&rt, rt.alloc(), &mut checker);
    drop(checker);
}
