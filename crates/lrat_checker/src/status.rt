//! What a clause says, read by the view that fits its width.
ghost use Rattle.std.specs.Prelude.{◌≡◌};
ghost use Rattle.lrat_model.specs.Propagation.{status};
ghost use Rattle.lrat_model.specs.Ranges.{IsInRange};

use assignment_trail::Assignment;
use clause_store::{ClauseRef, ClauseView, LongRef};
use lrat_model::{ClauseStatus, Lit};

/// What a clause says where these literals are true. O(its literals).
pub fn status(assignment: &Assignment, clause: &[Lit]) -> ClauseStatus
    requires { IsInRange assignment.now.vars clause.now }
    ensures { result ≡ status assignment.now.trues clause.now }
{
    match clause.len() {
        2 => status_of_view(assignment, &ClauseRef::<2>::of(clause)),
        3 => status_of_view(assignment, &ClauseRef::<3>::of(clause)),
        _ => status_of_view(assignment, &LongRef::of(clause)),
    }
}

fn status_of_view<V: ClauseView>(assignment: &Assignment, clause: &V) -> ClauseStatus
    requires { IsInRange assignment.now.vars (V.literals clause.now) }
    ensures { result ≡ status assignment.now.trues (V.literals clause.now) }
{
    let mut first = None;
    for i in 0..clause.len() {
        let l = clause.at(i);
        if !assignment.is_true(l.negated()) {
            match first {
                None => first = Some(l),
                Some(k) => {
                    if !k.same(l) {
                        return ClauseStatus::Unresolved;
                    }
                }
            }
        }
    }
    match first {
        None => ClauseStatus::Falsified,
        Some(l) => ClauseStatus::Forces(l),
    }
}
