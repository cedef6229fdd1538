//! What the tests share.
ghost use Rattle.std.specs.Prelude.{◌≡◌, ◌<◌, ◌^◌, true, None};
ghost use Rattle.lrat_model.specs.Ranges.{IsInRange};

use clause_store::Store;
use lrat_checker::{Checker, IdleChecker, Rule};
use lrat_model::{Lit, Progress, Step, StepFault};
use std::alloc::{AllocError, Global};
use std::fmt::Debug;
use std::process::Abort;

/// The formula of two nodes that each need both: its 16 clauses, over 8 variables.
pub static TWO_OF_TWO: [&[i32]; 16] = [
    &[1, 2],
    &[3, 4],
    &[-1, -3],
    &[-2, -4],
    &[-5, 1],
    &[-5, 2],
    &[-1, 5],
    &[-6, 1],
    &[-6, 2],
    &[-2, 6],
    &[-7, 3],
    &[-7, 4],
    &[-3, 7],
    &[-8, 3],
    &[-8, 4],
    &[-4, 8],
];

/// A lemma: its id, the numbers of its literals, and its hints.
pub type Lemma<'a> = (u64, &'a [i32], &'a [i64]);

/// Lemmas that are refused after the formula, and their faults.
pub static REFUSED: [(Lemma<'static>, &str); 8] = [
    ((16, &[-1], &[7, 6, 3, 4, 2]), "id-order 16 16"),
    ((17, &[9, -9], &[]), "bad-literal 9"),
    ((17, &[-1, 2, 1, 9], &[]), "tautology 1"),
    ((17, &[-1], &[6, 7, 3, 4, 2]), "not-unit 1"),
    ((17, &[-1], &[7, 1, 6, 3, 4, 2]), "not-unit 2"),
    ((17, &[-1], &[7, -6, 3, 4, 2]), "rat-step 2"),
    ((17, &[-1], &[7, 40, 3, 4, 2]), "no-such-clause 40"),
    ((17, &[], &[]), "no-conflict"),
];

/// The literals of these numbers.
pub fn lits(alloc: Global, numbers: &[i32]) -> Result<Vec<Lit>, AllocError> {
    let mut lits = Vec::new(alloc);
    for number in numbers {
        if *number != 0 && *number != i32::MIN {
            lits.push(Lit::of(*number))?;
        }
    }
    Ok(lits)
}

/// Fails the test where the values differ. It stands apart, so that the tests have no branches of it.
pub fn equal<T: PartialEq + Debug>(rt: &impl Abort, found: &T, want: &T, at: &str) {
    assert_eq!(rt; *found, *want, "at {at}");
}

/// Fails the test where the texts differ, or memory is wanting.
pub fn same(rt: &impl Abort, found: Result<String, AllocError>, want: &str) {
    let found = found.expect(rt, "memory");
    equal(rt, &found.as_str(), &want, "a text");
}

/// Whether each variable is one of the first.
pub fn are_in_range(lits: &[Lit], vars: u64) -> bool
    ensures { result ≡ true → IsInRange vars lits.now }
{
    lits.iter().all(|l| l.variable() as u64 <= vars)
}

// Gives a clause to a checker of this many variables, under the next id.
fn give(checker: &mut IdleChecker, vars: u64, clause: &[Lit]) -> Result<(), AllocError>
    requires { checker.old.vars ≡ vars }
    ensures { checker.new.vars ≡ vars }
{
    let last = checker.last();
    if last < 100 && are_in_range(clause, vars) {
        checker.give(last + 1, clause)?;
    }
    Ok(())
}

// Gives clauses to a checker of this many variables.
fn give_all(
    alloc: Global,
    checker: &mut IdleChecker,
    vars: u64,
    clauses: &[&[i32]],
) -> Result<(), AllocError>
    requires { checker.old.vars ≡ vars }
{
    for numbers in clauses {
        give(checker, vars, &lits(alloc, numbers)?)?;
    }
    Ok(())
}

/// A checker of these clauses over this many variables.
pub fn checker(
    alloc: Global,
    clauses: &[&[i32]],
    vars: u64,
    rule: Rule,
) -> Result<IdleChecker, AllocError>
    requires { vars < 2 ^ 31 }
{
    let mut checker = IdleChecker::start(alloc, Store::new(alloc), vars, rule)?;
    match give_all(alloc, &mut checker, vars, clauses) {
        Ok(()) => Ok(checker),
        Err(fault) => {
            drop(checker);
            Err(fault)
        }
    }
}

/// What is said of an answer of the checker.
pub fn answered(alloc: Global, answer: Result<Progress, StepFault>) -> Result<String, AllocError> {
    match answer {
        Ok(progress) => format!(in alloc; "{progress:?}"),
        Err(fault) => format!(in alloc; "{fault}"),
    }
}

/// What the checker answers to the addition of a lemma.
pub fn added(alloc: Global, checker: &mut IdleChecker, lemma: Lemma) -> Result<String, AllocError> {
    let step = addition(alloc, lemma)?;
    answered(alloc, checker.step(&step))
}

/// What the checker answers to the addition of a lemma, hint by hint.
pub fn streamed(
    checker: &mut Checker,
    id: u64,
    lits: &[Lit],
    hints: &[i64],
) -> Result<Progress, StepFault>
    requires { checker.old.open_addition ≡ None }
    ensures { checker.new.open_addition ≡ None }
{
    checker.begin_add(id, lits)?;
    for hint in hints {
        if checker.hints() < 9 {
            checker.hint(*hint)?;
        }
    }
    checker.finish_add()
}

/// What the checker answers to the deletion of the clauses under these ids.
pub fn deleted(
    alloc: Global,
    checker: &mut IdleChecker,
    ids: &[u64],
) -> Result<String, AllocError> {
    let step = deletion(alloc, 1, ids)?;
    answered(alloc, checker.step(&step))
}

/// The addition of a lemma.
pub fn addition(alloc: Global, (id, numbers, hints): Lemma) -> Result<Step, AllocError> {
    Ok(Step::Add {
        id,
        lits: lits(alloc, numbers)?,
        hints: Vec::from_slice(alloc, hints)?,
    })
}

/// The deletion of the clauses under these ids.
pub fn deletion(alloc: Global, id: u64, ids: &[u64]) -> Result<Step, AllocError> {
    Ok(Step::Delete {
        id,
        ids: Vec::from_slice(alloc, ids)?,
    })
}
