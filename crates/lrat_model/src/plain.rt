//! The rule of a step, computed plainly and slowly: a program to test the definition by.
ghost use Rattle.std.specs.Prelude.{◌≡◌, [], map, IfOk};
ghost use Rattle.std.specs.Option.{option_copied};
ghost use Rattle.lrat_model.specs.Literal.{has, negated};
ghost use Rattle.lrat_model.specs.Clauses.{clause_at};
ghost use Rattle.lrat_model.specs.Propagation.{status, propagate};
ghost use Rattle.lrat_model.specs.Steps.{step_of, step_fault, literal_fault, deletion_fault, outcome_fault};
ghost use Rattle.lrat_model.specs.Entries.{held_of};

use crate::lit::Lit;
use crate::step::{ClauseStatus, Step, StepFault};
use std::alloc::{AllocError, Global};

/// The first fault of a step over these clauses, this last id and this many variables, if it has one.
/// In time O(literals x hints), and more where clauses are long.
pub fn step_fault(
    alloc: Global,
    vars: u64,
    held: &[(u64, Vec<Lit>)],
    last: u64,
    step: &Step,
) -> Result<Option<StepFault>, AllocError>
    ensures { IfOk result (λ fault. fault ≡ step_fault vars (record { held = held_of held.now; last = last }) (step_of step.now)) }
{
    match step {
        Step::Add { id, lits, hints } => {
            if *id <= last {
                return Ok(Some(StepFault::IdOrder(last, *id)));
            }
            if let Some(fault) = literal_fault(vars, lits) {
                return Ok(Some(fault));
            }
            let trues = negations(alloc, lits)?;
            propagate(held, trues, hints)
        }
        Step::Delete { id: _, ids } => Ok(deletion_fault(held, ids)),
    }
}

/// Why the hints do not lead from these true literals to a clause with all literals false, if they do not.
fn propagate(
    held: &[(u64, Vec<Lit>)],
    mut trues: Vec<Lit>,
    hints: &[i64],
) -> Result<Option<StepFault>, AllocError>
    ensures { IfOk result (λ fault. fault ≡ outcome_fault (propagate (held_of held.now) trues.items 1 hints.now)) }
{
    for (i, hint) in hints.iter().enumerate() {
        let place = i as u64 + 1;
        if *hint < 0 {
            return Ok(Some(StepFault::RatStep(place)));
        }
        let id = *hint as u64;
        let Some(clause) = find(held, id) else {
            return Ok(Some(StepFault::NoSuchClause(id)));
        };
        match status(&trues, clause) {
            ClauseStatus::Falsified => return Ok(None),
            ClauseStatus::Forces(l) => trues.insert(0, l)?,
            ClauseStatus::Unresolved => return Ok(Some(StepFault::NotUnit(place))),
        }
    }
    Ok(Some(StepFault::NoConflict))
}

/// Whether the literal is in the list.
fn has(literals: &[Lit], literal: Lit) -> bool
    ensures { result ≡ has literals.now literal }
{
    literals.iter().any(|l| literal.same(*l))
}

/// The clause under an id.
fn find(held: &[(u64, Vec<Lit>)], id: u64) -> Option<&[Lit]>
    ensures { option_copied result ≡ clause_at (held_of held.now) id }
{
    for (held_id, clause) in held {
        if *held_id == id {
            return Some(clause.as_slice());
        }
    }
    None
}

/// What a clause says where these literals are true.
fn status(trues: &[Lit], clause: &[Lit]) -> ClauseStatus
    ensures { result ≡ status trues.now clause.now }
{
    let mut first = None;
    for l in clause {
        if !has(trues, l.negated()) {
            match first {
                None => first = Some(*l),
                Some(k) => {
                    if !k.same(*l) {
                        return ClauseStatus::Unresolved;
                    }
                }
            }
        }
    }
    match first {
        None => ClauseStatus::Falsified,
        Some(l) => ClauseStatus::Forces(l),
    }
}

/// The first literal that is out of range or whose negation came before.
fn literal_fault(vars: u64, lits: &[Lit]) -> Option<StepFault>
    ensures { result ≡ literal_fault vars [] lits.now }
{
    for (i, l) in lits.iter().enumerate() {
        if u64::from(l.variable()) > vars {
            return Some(StepFault::BadLiteral(*l));
        }
        if has(&lits[..i], l.negated()) {
            return Some(StepFault::Tautology(*l));
        }
    }
    None
}

/// The negations of the literals.
fn negations(alloc: Global, lits: &[Lit]) -> Result<Vec<Lit>, AllocError>
    ensures { IfOk result (λ v. v.items ≡ map negated lits.now) }
{
    lits.iter().map(|l| l.negated()).collect(alloc)
}

/// The first id that is not held or came before.
fn deletion_fault(held: &[(u64, Vec<Lit>)], ids: &[u64]) -> Option<StepFault>
    ensures { result ≡ deletion_fault (held_of held.now) [] ids.now }
{
    for (i, id) in ids.iter().enumerate() {
        if find(held, *id).is_none() || ids[..i].contains(id) {
            return Some(StepFault::NoSuchClause(*id));
        }
    }
    None
}
