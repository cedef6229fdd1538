//! Unit propagation over hints.
ghost use Rattle.std.specs.Prelude.{◌≡◌, ℕ, ◌+◌, ◌≤◌, ◌<◌, ◌^◌, length, take, List, [], ◌∷◌, map, Some, None, false, OnOk, IfNone};
ghost use Rattle.std.specs.Option.{option_or};
ghost use Rattle.lrat_model.specs.Literal.{Literal, negated, variable_of, has};
ghost use Rattle.lrat_model.specs.Propagation.{Outcome, status, take_hint, propagate};
ghost use Rattle.lrat_model.specs.Steps.{literal_fault, outcome_fault};
ghost use Rattle.lrat_model.specs.Rules.{hints_fault};
ghost use Rattle.lrat_model.specs.Ranges.{IsInRange, AreInRange};
ghost use Rattle.lrat_model.specs.Alike.{Alike};
ghost use Rattle.lrat_checker.specs.Hints.{Took, id_of};
ghost use Rattle.lrat_checker.specs.Extends.{Extends};

use crate::rat::rat_fault;
use crate::status::status;
use assignment_trail::Assignment;
use clause_store::Store;
use lrat_model::{ClauseStatus, Lit, Rule, StepFault};
use rat_candidates::CountedStore;

/// Where a hint leads, if it is no fault: on, or to a clause with all literals false.
#[derive(Clone, Copy)]
pub enum Hinting {
    More,
    Conflict,
}

/// The id that a hint names, if it is no RAT hint.
fn id_of(hint: i64) -> Option<u64>
    ensures { result ≡ id_of hint }
{
    if hint < 0 { None } else { Some(hint as u64) }
}

/// Makes a literal true that is not false.
pub fn force(assignment: &mut Assignment, l: Lit)
    requires range { variable_of l ≤ assignment.old.vars }
    requires consistent { has assignment.old.trues (negated l) ≡ false }
    ensures trues { Alike (l ∷ assignment.old.trues) assignment.new.trues }
    ensures grows { Extends assignment.old.trues assignment.new.trues }
    ensures vars { assignment.new.vars ≡ assignment.old.vars }
{
    if !assignment.is_true(l) {
        assignment.make_true(l);
    }
}

/// Takes the values of the last literals away, so that this many are left.
pub fn undo_to(assignment: &mut Assignment, count: usize)
    requires { count ≤ length assignment.old.trues }
    ensures trues { assignment.new.trues ≡ take count assignment.old.trues }
    ensures vars { assignment.new.vars ≡ assignment.old.vars }
{
    // That each literal has its place says that no two of them have one variable.
    assignment.places();
    assignment.back_to(count);
}

/// Takes one hint.
pub fn take_hint(
    store: &Store,
    assignment: &mut Assignment,
    place: u64,
    hint: i64,
) -> Result<Hinting, StepFault>
    requires { AreInRange assignment.old.vars store.now.held }
    ensures outcome { Took (take_hint store.now.held assignment.old.trues place hint) result assignment.new.trues }
    ensures vars { assignment.new.vars ≡ assignment.old.vars }
    ensures grows { Extends assignment.old.trues assignment.new.trues }
{
    let Some(id) = id_of(hint) else {
        return Err(StepFault::RatStep(place));
    };
    let Some(clause) = store.lits(id) else {
        return Err(StepFault::NoSuchClause(id));
    };
    match status(assignment, clause) {
        ClauseStatus::Falsified => Ok(Hinting::Conflict),
        ClauseStatus::Forces(l) => {
            force(assignment, l);
            Ok(Hinting::More)
        }
        ClauseStatus::Unresolved => Err(StepFault::NotUnit(place)),
    }
}

/// Takes hints in order, the first of them at this place, up to a fault or a clause with all literals false.
pub fn propagate(
    store: &Store,
    assignment: &mut Assignment,
    first: u64,
    hints: &[i64],
) -> Result<Hinting, StepFault>
    requires range { AreInRange assignment.old.vars store.now.held }
    requires small { first + length hints.now < 2 ^ 64 }
    ensures outcome { (trues : List Literal) → Alike trues assignment.old.trues → Took (propagate store.now.held trues first hints.now) result assignment.new.trues }
    ensures vars { assignment.new.vars ≡ assignment.old.vars }
    ensures grows { Extends assignment.old.trues assignment.new.trues }
{
    for (i, hint) in hints.iter().enumerate() {
        match take_hint(store, assignment, first + i as u64, *hint) {
            Ok(Hinting::Conflict) => return Ok(Hinting::Conflict),
            Ok(Hinting::More) => {}
            Err(fault) => return Err(fault),
        }
    }
    Ok(Hinting::More)
}

/// Why hints do not show that a clause follows, if they do not.
pub fn fault_of(end: Result<Hinting, StepFault>) -> Option<StepFault>
    ensures { (outcome : Outcome) (now : List Literal) → Took outcome end now → result ≡ outcome_fault outcome }
{
    match end {
        Ok(Hinting::Conflict) => None,
        Ok(Hinting::More) => Some(StepFault::NoConflict),
        Err(fault) => Some(fault),
    }
}

/// Makes the negations of a lemma's literals true, or gives the first literal that is out of range or
/// whose negation came before.
pub fn assume_negations(assignment: &mut Assignment, lits: &[Lit]) -> Option<StepFault>
    requires { assignment.old.trues ≡ [] }
    ensures fault { result ≡ literal_fault assignment.old.vars [] lits.now }
    ensures trues { result ≡ None → Alike (map negated lits.now) assignment.new.trues }
    ensures vars { assignment.new.vars ≡ assignment.old.vars }
{
    for l in lits {
        if u64::from(l.variable()) > assignment.vars() {
            return Some(StepFault::BadLiteral(*l));
        }
        if assignment.is_true(*l) {
            return Some(StepFault::Tautology(*l));
        }
        assignment.force(l.negated());
    }
    None
}

/// The first fault of a lemma's literals, and then of its hints. Leaves literals true.
/// O(its literals, and those of the clauses that the hints name), and O(log n) for each hint.
pub fn lemma_fault(
    clauses: &CountedStore,
    assignment: &mut Assignment,
    rule: Rule,
    lits: &[Lit],
    hints: &[i64],
) -> Option<StepFault>
    requires trues { assignment.old.trues ≡ [] }
    requires range { AreInRange assignment.old.vars clauses.now.held }
    ensures fault { result ≡ option_or (literal_fault assignment.old.vars [] lits.now) (hints_fault rule clauses.now.held lits.now hints.now) }
    ensures vars { assignment.new.vars ≡ assignment.old.vars }
{
    if let Some(fault) = assume_negations(assignment, lits) {
        return Some(fault);
    }
    match rule {
        Rule::Rup => fault_of(propagate(clauses.store(), assignment, 1, hints)),
        Rule::Rat => rat_fault(clauses, assignment, lits, hints),
    }
}
