//! That no clause of a gate's set is false or forces anything.
ghost use Rattle.std.specs.Prelude.{◌≡◌, ◌⊎◌, ℕ, ◌+◌, ◌-◌, ◌<◌, ◌≤◌, ◌^◌, true, false, List, ◌∷◌, All, length, filter, map};
ghost use Rattle.lrat_model.specs.Literal.{Literal, Plus, Minus, has, negated};
ghost use Rattle.cardinality_counts.specs.Gates.{IsGate, IsOpen, IsSet, is_part, has_number};
ghost use Rattle.cardinality_counts.specs.Counts.{IsCounting};

use crate::gate::Gate;
use crate::gates::Gates;
use assignment_trail::Assignment;
use lrat_model::Lit;

impl Gates {
    /// Whether the counts show that no clause of a set of a gate's inputs is false, or forces a literal that is not true, where
    /// all of the trail is counted. Linear in the gates, and in the inputs of those of which a set may have one literal left.
    pub fn are_quiet(&self, assignment: &Assignment) -> bool
        requires counting { IsCounting self.now assignment.now.trues }
        requires counted { self.now.counted ≡ length assignment.now.trues }
        requires vars { self.now.vars ≤ assignment.now.vars }
        ensures { result ≡ true → (clause : List Literal) → IsSet self.now.gates.items clause → IsOpen assignment.now.trues clause }
    {
        for (place, gate) in self.gates.iter().enumerate() {
            if !is_quiet(gate, self.counts[place], assignment) {
                return false;
            }
        }
        true
    }
}

/// Whether this many false inputs show that of a gate: fewer than all but one of a set's; or the head is false; or they are fewer
/// than a set has, and the head is not true, or no other input is open.
fn is_quiet(gate: &Gate, falses: u32, assignment: &Assignment) -> bool
    requires small { IsGate (2 ^ 31 - 1) gate.now }
    requires range { IsGate assignment.now.vars gate.now }
    ensures { result ≡ true → (set : List Literal) → length set ≡ gate.now.size → is_part set gate.now.inputs.items ≡ true → length (filter (λ l. has assignment.now.trues (negated l)) set) ≤ falses → IsOpen assignment.now.trues (Minus gate.now.head ∷ set) }
{
    let falses = falses as usize;
    if falses + 2 <= gate.size || assignment.is_true(Lit::negative(gate.head)) {
        return true;
    }
    if falses >= gate.size {
        return false;
    }
    !assignment.is_true(Lit::positive(gate.head)) || are_valued(assignment, &gate.inputs)
}

/// Whether each of these variables is true or false.
fn are_valued(assignment: &Assignment, variables: &[u32]) -> bool
    requires small { All (λ x. x < 2 ^ 31) variables.now }
    requires range { All (λ x. (0 < x) × (x ≤ assignment.now.vars)) variables.now }
    ensures { result ≡ true → (x : ℕ) → has_number variables.now x ≡ true → (has assignment.now.trues (Plus x) ≡ true) ⊎ (has assignment.now.trues (Minus x) ≡ true) }
{
    for x in variables {
        if !assignment.is_true(Lit::positive(*x)) && !assignment.is_true(Lit::negative(*x)) {
            return false;
        }
    }
    true
}
