//! RAT hints: groups of them, one for each clause that has the negation of the lemma's first literal, its pivot (Cruz-Filipe
//! et al. 2017, Efficient Certified RAT Verification).
ghost use Rattle.std.specs.Prelude.{◌≡◌, ◌≢◌, ℕ, ◌+◌, ◌≤◌, ◌<◌, ◌^◌, length, take, List, [], map, Some, None, Err, OnOk};
ghost use Rattle.lrat_model.specs.Literal.{Literal, negated};
ghost use Rattle.lrat_model.specs.Steps.{outcome_fault};
ghost use Rattle.lrat_model.specs.Ranges.{IsInRange, AreInRange};
ghost use Rattle.lrat_model.specs.Alike.{Alike};
ghost use Rattle.lrat_model.specs.Rat.{first_hints, groups_of, made_false, take_group, groups_fault, ids_of, first_without, pivot_fault, rat_fault};
ghost use Rattle.lrat_model.specs.declared.step.StepFault.TheVariants.{Memory};
ghost use Rattle.rat_candidates.specs.Kept.{IsCandidate};
ghost use Rattle.lrat_checker.specs.Extends.{Extends};
ghost use Rattle.lrat_checker.specs.Groups.{first_place, MadeFalse, Opens};

use crate::hint::{Hinting, fault_of, force, propagate, undo_to};
use crate::subsets::has;
use assignment_trail::Assignment;
use clause_store::Store;
use lrat_model::{Lit, StepFault};
use rat_candidates::{CountedStore, group_id};

/// How many hints come before the first RAT hint. O(these hints).
fn first_count(hints: &[i64]) -> usize
    ensures first { take result hints.now ≡ first_hints hints.now }
    ensures bound { result ≤ length hints.now }
    ensures there { result < length hints.now → first_place (groups_of 1 hints.now) ≡ Some (result + 1) }
    ensures none { length hints.now ≤ result → first_place (groups_of 1 hints.now) ≡ None }
{
    for (i, hint) in hints.iter().enumerate() {
        if group_id(*hint).is_some() {
            return i;
        }
    }
    hints.len()
}

/// The place of the first RAT hint, from 1. O(the hints before it).
fn first_place(hints: &[i64]) -> Option<u64>
    ensures { result ≡ first_place (groups_of 1 hints.now) }
{
    let count = first_count(hints);
    if count < hints.len() {
        Some(count as u64 + 1)
    } else {
        None
    }
}

/// Makes the literals of a clause false, one literal left out, up to the first that is true already. Whether there
/// is none such.
fn make_false(assignment: &mut Assignment, left_out: Lit, clause: &[Lit]) -> bool
    requires { IsInRange assignment.old.vars clause.now }
    ensures made { (trues : List Literal) → Alike trues assignment.old.trues → MadeFalse (made_false left_out trues clause.now) result assignment.new.trues }
    ensures vars { assignment.new.vars ≡ assignment.old.vars }
    ensures grows { Extends assignment.old.trues assignment.new.trues }
{
    for l in clause {
        if !left_out.same(*l) {
            if assignment.is_true(*l) {
                return false;
            }
            force(assignment, l.negated());
        }
    }
    true
}

/// Opens a group: the hint at this place names this id. The literals of its clause are made false, but for the pivot's
/// negation; where one of them is true already the group is done, which is `Conflict`.
pub fn open_group(
    store: &Store,
    assignment: &mut Assignment,
    pivot: Lit,
    place: u64,
    id: u64,
) -> Result<Hinting, StepFault>
    requires { AreInRange assignment.old.vars store.now.held }
    ensures opens { (trues : List Literal) → Alike trues assignment.old.trues → Opens store.now.held trues pivot place id result assignment.new.trues }
    ensures candidate { OnOk result (IsCandidate store.now.held (negated pivot) id) }
    ensures no_memory { result ≢ Err Memory }
    ensures vars { assignment.new.vars ≡ assignment.old.vars }
    ensures grows { Extends assignment.old.trues assignment.new.trues }
{
    let Some(clause) = store.lits(id) else {
        return Err(StepFault::NoSuchClause(id));
    };
    let other = pivot.negated();
    if !has(clause, other) {
        return Err(StepFault::RatStep(place));
    }
    if make_false(assignment, other, clause) {
        Ok(Hinting::More)
    } else {
        Ok(Hinting::Conflict)
    }
}

/// Why a group is not done, if it is not: the hint at this place names this id, and these hints follow it. Leaves
/// literals true.
fn group_fault(
    store: &Store,
    assignment: &mut Assignment,
    pivot: Lit,
    place: u64,
    id: u64,
    hints: &[i64],
) -> Option<StepFault>
    requires range { AreInRange assignment.old.vars store.now.held }
    requires small { place + 1 + length hints.now < 2 ^ 64 }
    ensures fault { (trues : List Literal) → Alike trues assignment.old.trues → result ≡ outcome_fault (take_group store.now.held trues pivot (record { place = place; id = id; hints = first_hints hints.now })) }
    ensures vars { assignment.new.vars ≡ assignment.old.vars }
    ensures grows { Extends assignment.old.trues assignment.new.trues }
{
    match open_group(store, assignment, pivot, place, id) {
        Ok(Hinting::More) => {
            let own = &hints[..first_count(hints)];
            fault_of(propagate(store, assignment, place + 1, own))
        }
        Ok(Hinting::Conflict) => None,
        Err(fault) => Some(fault),
    }
}

/// The first fault of the groups of these hints. What is true stays as it was.
fn groups_fault(
    store: &Store,
    assignment: &mut Assignment,
    pivot: Lit,
    hints: &[i64],
) -> Option<StepFault>
    requires { AreInRange assignment.old.vars store.now.held }
    ensures fault { (trues : List Literal) → Alike trues assignment.old.trues → result ≡ groups_fault store.now.held trues pivot (groups_of 1 hints.now) }
    ensures unchanged { assignment.new ≡ assignment.old }
{
    for (i, hint) in hints.iter().enumerate() {
        if let Some(id) = group_id(*hint) {
            let rest = &hints[i + 1..];
            let count = assignment.trail().len();
            let fault = group_fault(store, assignment, pivot, i as u64 + 1, id, rest);
            undo_to(assignment, count);
            if fault.is_some() {
                return fault;
            }
        }
    }
    None
}

/// The least id of a clause that has the literal and no group.
fn without_group(clauses: &CountedStore, l: Lit, hints: &[i64]) -> Option<u64>
    ensures { result ≡ first_without clauses.now.held l (ids_of (groups_of 1 hints.now)) }
{
    clauses.first_missing(l, hints)
}

/// Why the groups of a lemma do not show that it may be added, if they do not. What is true stays as it was.
fn pivot_fault(
    clauses: &CountedStore,
    assignment: &mut Assignment,
    lits: &[Lit],
    hints: &[i64],
) -> Option<StepFault>
    requires { AreInRange assignment.old.vars clauses.now.held }
    ensures fault { (trues : List Literal) → Alike trues assignment.old.trues → result ≡ pivot_fault clauses.now.held trues lits.now (groups_of 1 hints.now) }
    ensures unchanged { assignment.new ≡ assignment.old }
{
    let place = first_place(hints);
    let Some(pivot) = lits.first() else {
        return Some(match place {
            Some(place) => StepFault::RatStep(place),
            None => StepFault::NoConflict,
        });
    };
    let fault = groups_fault(clauses.store(), assignment, *pivot, hints);
    if fault.is_some() {
        return fault;
    }
    let Some(id) = without_group(clauses, pivot.negated(), hints) else {
        return None;
    };
    Some(if place.is_some() {
        StepFault::RatMissing(id)
    } else {
        StepFault::NoConflict
    })
}

/// Why hints do not show that a lemma may be added, if they do not, where the negations of its literals are true.
/// Leaves literals true.
pub fn rat_fault(
    clauses: &CountedStore,
    assignment: &mut Assignment,
    lits: &[Lit],
    hints: &[i64],
) -> Option<StepFault>
    requires range { AreInRange assignment.old.vars clauses.now.held }
    requires negated { Alike (map negated lits.now) assignment.old.trues }
    ensures fault { result ≡ rat_fault clauses.now.held lits.now hints.now }
    ensures vars { assignment.new.vars ≡ assignment.old.vars }
{
    let first = &hints[..first_count(hints)];
    match propagate(clauses.store(), assignment, 1, first) {
        Ok(Hinting::Conflict) => None,
        Ok(Hinting::More) => pivot_fault(clauses, assignment, lits, hints),
        Err(fault) => Some(fault),
    }
}
