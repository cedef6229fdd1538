//! The clauses of a gate that is written out.
ghost use Rattle.std.specs.Prelude.{◌≡◌, ℕ, true, suc, ◌+◌, ◌<◌, ◌≤◌, ◌^◌, List, ◌∷◌, ◌++◌, length, map, All, OnOk};
ghost use Rattle.std.specs.Bool.{OnTrue};
ghost use Rattle.lrat_model.specs.Literal.{Literal, Plus, Minus, negated, has};
ghost use Rattle.lrat_model.specs.Ranges.{IsInRange, AreInRange};
ghost use Rattle.counter_expansion.specs.Finding.{IsHeld, IsNeedless};
ghost use Rattle.counter_expansion.specs.Gates.{Rises};
ghost use Rattle.counter_expansion.specs.Counters.{number_at, gate_of, IsVariable, AreVariables};

use crate::counters::Counter;
use crate::writing::Origin;
use clause_store::{Lit, Store};
use std::alloc::AllocError;

/// Whether the clause has the negation of its first literal.
fn denies_its_first(clause: &[Lit]) -> bool
    ensures { OnTrue result ((m : Literal) × (has clause.now m ≡ true) × (has clause.now (negated m) ≡ true)) }
{
    let Some(first) = clause.first() else {
        return false;
    };
    let denied = first.negated();
    for lit in clause {
        if lit.same(denied) {
            return true;
        }
    }
    false
}

/// Holds a clause that is no tautology under the id after the last.
fn push_choice(
    written: &mut Store,
    origins: &mut Vec<Origin>,
    origin: Origin,
    clause: &[Lit],
) -> Result<(), AllocError>
    ensures needless { OnOk result (IsNeedless written.new.held clause.now) }
    ensures kept { OnOk result ((before : List Literal) → IsHeld written.old.held before → IsHeld written.new.held before) }
    ensures range { (vars : ℕ) → AreInRange vars written.old.held → IsInRange vars clause.now → OnOk result (AreInRange vars written.new.held) }
{
    if denies_its_first(clause) {
        return Ok(());
    }
    let Some(id) = written.last().checked_add(1) else {
        return Err(AllocError);
    };
    written.push(id, clause)?;
    origins.push(origin)?;
    Ok(())
}

/// Holds a clause for each choice of `left` of the inputs from the place `from` on: what is chosen already, or one of these.
fn choose(
    written: &mut Store,
    origins: &mut Vec<Origin>,
    origin: Origin,
    inputs: &[u32],
    chosen: &mut Vec<Lit>,
    from: usize,
    left: usize,
) -> Result<(), AllocError>
    requires from { from ≤ length inputs.now }
    requires inputs { All (λ x. (0 < x) × (x < 2 ^ 31)) inputs.now }
    ensures choices { OnOk result ((ps : List ℕ) → Rises from (length inputs.now) ps → length ps ≡ left → IsNeedless written.new.held (chosen.old.items ++ map (λ i. Plus (number_at inputs.now i)) ps)) }
    ensures kept { OnOk result ((before : List Literal) → IsHeld written.old.held before → IsHeld written.new.held before) }
    ensures range { (vars : ℕ) → AreInRange vars written.old.held → IsInRange vars chosen.old.items → All (λ x. x ≤ vars) inputs.now → OnOk result (AreInRange vars written.new.held) }
    ensures chosen { OnOk result (chosen.new.items ≡ chosen.old.items) }
{
    if left == 0 {
        return push_choice(written, origins, origin, chosen);
    }
    if inputs.len() - from < left {
        return Ok(());
    }
    chosen.push(Lit::positive(inputs[from]))?;
    choose(written, origins, origin, inputs, chosen, from + 1, left - 1)?;
    chosen.pop();
    choose(written, origins, origin, inputs, chosen, from + 1, left)
}

/// Holds the clauses of a head of t = `wanted` of a gate's n inputs, but for tautologies: for each set of n - t + 1 of them, that
/// the head is false or one of the set is true. A head that is true leaves at most n - t of the inputs false. Each clause has
/// this origin, and its id follows the last one. Where no id is left this is as where no memory is. Time and memory are linear
/// in the literals of these clauses.
pub fn write_choices(
    written: &mut Store,
    origins: &mut Vec<Origin>,
    origin: Origin,
    counter: &Counter,
    head: u32,
    wanted: usize,
) -> Result<(), AllocError>
    requires head { IsVariable (2 ^ 31) head }
    requires inputs { AreVariables (2 ^ 31) counter.now.inputs.items }
    ensures choices { let gate = gate_of counter.now in OnOk result ((ps : List ℕ) → Rises 0 gate.n ps → length ps + wanted ≡ suc gate.n → IsNeedless written.new.held (Minus head ∷ map gate.x ps)) }
    ensures kept { OnOk result ((clause : List Literal) → IsHeld written.old.held clause → IsHeld written.new.held clause) }
    ensures range { (vars : ℕ) → AreInRange vars written.old.held → head ≤ vars → AreVariables (vars + 1) counter.now.inputs.items → OnOk result (AreInRange vars written.new.held) }
{
    let Some(size) = (counter.inputs.len() + 1).checked_sub(wanted) else {
        return Ok(());
    };
    let mut chosen = Vec::new(*origins.allocator());
    chosen.push(Lit::negative(head))?;
    choose(
        written,
        origins,
        origin,
        &counter.inputs,
        &mut chosen,
        0,
        size,
    )
}
