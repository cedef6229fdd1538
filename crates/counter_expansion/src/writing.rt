//! A formula with its gates written out.
ghost use Rattle.std.specs.Prelude.{◌≡◌, ℕ, suc, ◌+◌, ◌-◌, ◌<◌, ◌≤◌, ◌^◌, true, List, [], ◌∷◌, length, map, Ok, IfOk, IfSome, OnOk};
ghost use Rattle.lrat_model.specs.Literal.{Literal, negated, has};
ghost use Rattle.lrat_model.specs.Ranges.{IsInRange, AreInRange};
ghost use Rattle.counter_expansion.specs.Finding.{IsHeld, IsNeedless};
ghost use Rattle.counter_expansion.specs.Gates.{Rises, IsCell, AreApart, IsWritten, AreWritten, IsCounted};
ghost use Rattle.counter_expansion.specs.Counters.{number_at, gate_of, gates_of, ArePlaced, AreKept, AreInputsNowhere, IsVariable, AreVariables, HaveVariables};
ghost use Rattle.counter_expansion.specs.Passing.{IsPassed};
ghost use Rattle.counter_expansion.specs.WrittenOut.{IsWrittenOut};

use crate::cells::{Cell, are_inputs_nowhere, are_placed, mark_cells, number_at, width_of_row};
use crate::choices::write_choices;
use crate::counters::Counter;
use crate::kinds::{Kind, kind_of};
use crate::search::find_counters;
use clause_store::{Lit, Store};
use std::alloc::{AllocError, Global};

/// Where a clause is from: it is the formula's of this id; or a set of inputs of the gate of this number, where the formula's
/// clause of this id leads from the head to the gate. The id is 0 where the head is in the gate's last row.
#[derive(Clone, Copy)]
pub enum Origin {
    Formula(u64),
    Gate { number: u32, head: u64 },
}

/// The clauses, under the ids from 1 on; where each is from; the gates that are written out; and the cell of each variable,
/// at its number.
#[derive(Drop)]
pub struct Written {
    pub store: Store,
    pub origins: Vec<Origin>,
    pub counters: Vec<Counter>,
    pub cells: Vec<Cell>,
}

/// The formula with its gates written out: first its clauses but for those of the gates' counters, in order, then for each
/// gate and each of its heads a clause for each choice of inputs one of which has to be true, and where the last row of its
/// counter stays, such clauses for each variable of that row too. `None` where no gate is seen, or too few of them, and where a
/// clause stands in the way: one that has a counter's literal and is none of the counter's. Time and memory are linear in the
/// formula, the variables and the clauses that are written.
pub fn write_out(alloc: Global, formula: &Store, vars: u64) -> Result<Option<Written>, AllocError>
    requires small { vars < 2 ^ 31 }
    requires range { AreInRange vars formula.now.held }
    ensures { IfOk result (λ found. IfSome found (λ written. IsWrittenOut vars formula.now.held written)) }
{
    let counters = find_counters(alloc, formula, vars)?;
    let cells = mark_cells(alloc, &counters, vars)?;
    let mut store = Store::new(alloc);
    let mut origins = Vec::new(alloc);
    let is_whole = write_all(&mut store, &mut origins, formula, vars, &counters, &cells)?;
    if !is_whole {
        return Ok(None);
    }
    Ok(Some(Written {
        store,
        origins,
        counters,
        cells,
    }))
}

/// Whether the counters are as the cells say, and their inputs, heads and row that stays are variables that are no places'.
fn are_sound(counters: &[Counter], cells: &[Cell], vars: u64) -> bool
    requires small { vars < 2 ^ 31 }
    ensures placed { result ≡ true → ArePlaced counters.now cells.now }
    ensures nowhere { result ≡ true → AreInputsNowhere counters.now cells.now }
    ensures variables { result ≡ true → HaveVariables (vars + 1) counters.now }
{
    if !are_placed(counters, cells) {
        return false;
    }
    if !are_inputs_nowhere(counters, cells) {
        return false;
    }
    have_variables(counters, vars as u32 + 1)
}

/// Whether the inputs, the heads and the row that stays are variables below this bound.
fn have_variables(counters: &[Counter], bound: u32) -> bool
    ensures { result ≡ true → HaveVariables bound counters.now }
{
    for counter in counters {
        if !are_variables(&counter.inputs, bound) || !are_variables(&counter.heads, bound) {
            return false;
        }
        if !are_kept_variables(counter, bound) {
            return false;
        }
    }
    true
}

/// Whether the row that stays, if one does, has variables below this bound.
fn are_kept_variables(counter: &Counter, bound: u32) -> bool
    ensures { result ≡ true → AreKept (IsVariable bound) counter.now }
{
    if !counter.keeps_last {
        return true;
    }
    let last = counter.inputs.len();
    has_row_variables(
        number_at(&counter.rows, last),
        width_of_row(counter, last),
        bound,
    )
}

/// Whether a row of this width, whose first number is this one, has variables below this bound.
fn has_row_variables(first: u32, width: usize, bound: u32) -> bool
    ensures { result ≡ true → (j : ℕ) → 1 ≤ j → j ≤ width → IsVariable bound (first + (j - 1)) }
{
    width == 0 || (0 < first && first <= bound && width <= (bound - first) as usize)
}

/// Whether the numbers are variables below this bound.
fn are_variables(numbers: &[u32], bound: u32) -> bool
    ensures { result ≡ true → AreVariables bound numbers.now }
{
    for number in numbers {
        if *number == 0 || *number >= bound {
            return false;
        }
    }
    true
}

/// Writes the formula's clauses, and then those of the gates. `false` where there is no gate, where the counters are not as
/// the cells say, and where a clause stands in the way.
fn write_all(
    store: &mut Store,
    origins: &mut Vec<Origin>,
    formula: &Store,
    vars: u64,
    counters: &[Counter],
    cells: &[Cell],
) -> Result<bool, AllocError>
    requires small { vars < 2 ^ 31 }
    requires range { AreInRange vars formula.now.held }
    requires none { store.old.held ≡ [] }
    ensures apart { result ≡ Ok true → AreApart (gates_of counters.now) }
    ensures placed { result ≡ Ok true → ArePlaced counters.now cells.now }
    ensures counted { result ≡ Ok true → IsCounted (gates_of counters.now) formula.now.held store.new.held }
    ensures written { result ≡ Ok true → AreWritten (gates_of counters.now) store.new.held }
    ensures range { result ≡ Ok true → AreInRange vars store.new.held }
{
    if counters.is_empty() || !are_sound(counters, cells, vars) {
        return Ok(false);
    }
    let is_whole = write_clauses(store, origins, formula, counters, cells)?;
    if !is_whole {
        return Ok(false);
    }
    write_gates(store, origins, counters)?;
    Ok(true)
}

/// Writes the clauses that are no counters', in order. `false` where a clause stands in the way.
fn write_clauses(
    store: &mut Store,
    origins: &mut Vec<Origin>,
    formula: &Store,
    counters: &[Counter],
    cells: &[Cell],
) -> Result<bool, AllocError>
    ensures passed { result ≡ Ok true → (clause : List Literal) → IsHeld formula.now.held clause → IsPassed counters.now cells.now store.new.held clause }
    ensures range { (vars : ℕ) → AreInRange vars formula.now.held → AreInRange vars store.old.held → OnOk result (AreInRange vars store.new.held) }
{
    let last = formula.last();
    let mut above = 0;
    while above < last {
        let Some((id, lits)) = formula.first_above(above) else {
            break;
        };
        if !write_clause(store, origins, counters, cells, id, lits)? {
            return Ok(false);
        }
        above = id;
    }
    Ok(true)
}

/// Writes the formula's clause of this id, or passes it over where it is a counter's. `false` where it stands in the way.
fn write_clause(
    store: &mut Store,
    origins: &mut Vec<Origin>,
    counters: &[Counter],
    cells: &[Cell],
    id: u64,
    clause: &[Lit],
) -> Result<bool, AllocError>
    ensures passed { result ≡ Ok true → IsPassed counters.now cells.now store.new.held clause.now }
    ensures kept { OnOk result ((before : List Literal) → IsHeld store.old.held before → IsHeld store.new.held before) }
    ensures range { (vars : ℕ) → AreInRange vars store.old.held → IsInRange vars clause.now → OnOk result (AreInRange vars store.new.held) }
{
    match kind_of(counters, cells, clause) {
        Kind::Outer => {
            push_next(store, origins, Origin::Formula(id), clause)?;
            Ok(true)
        }
        Kind::Counter => Ok(true),
        Kind::Neither => Ok(false),
    }
}

/// Holds a clause under the id after the last.
fn push_next(
    store: &mut Store,
    origins: &mut Vec<Origin>,
    origin: Origin,
    clause: &[Lit],
) -> Result<(), AllocError>
    ensures held { OnOk result (IsHeld store.new.held clause.now) }
    ensures kept { OnOk result ((before : List Literal) → IsHeld store.old.held before → IsHeld store.new.held before) }
    ensures range { (vars : ℕ) → AreInRange vars store.old.held → IsInRange vars clause.now → OnOk result (AreInRange vars store.new.held) }
{
    let Some(id) = store.last().checked_add(1) else {
        return Err(AllocError);
    };
    store.push(id, clause)?;
    origins.push(origin)?;
    Ok(())
}

/// Writes the choices of each gate.
fn write_gates(
    store: &mut Store,
    origins: &mut Vec<Origin>,
    counters: &[Counter],
) -> Result<(), AllocError>
    requires { HaveVariables (2 ^ 31) counters.now }
    ensures written { OnOk result (AreWritten (gates_of counters.now) store.new.held) }
    ensures kept { OnOk result ((before : List Literal) → IsHeld store.old.held before → IsHeld store.new.held before) }
    ensures range { (vars : ℕ) → AreInRange vars store.old.held → HaveVariables (vars + 1) counters.now → OnOk result (AreInRange vars store.new.held) }
{
    for (place, counter) in counters.iter().enumerate() {
        let number = u32::try_from(place).unwrap_or(u32::MAX);
        write_gate(store, origins, number, counter)?;
    }
    Ok(())
}

/// Writes the choices of a gate, for its heads and for the variables of its last row where that stays.
fn write_gate(
    store: &mut Store,
    origins: &mut Vec<Origin>,
    number: u32,
    counter: &Counter,
) -> Result<(), AllocError>
    requires inputs { AreVariables (2 ^ 31) counter.now.inputs.items }
    requires heads { AreVariables (2 ^ 31) counter.now.heads.items }
    requires rows { AreKept (IsVariable (2 ^ 31)) counter.now }
    ensures written { OnOk result (IsWritten (gate_of counter.now) store.new.held) }
    ensures kept { OnOk result ((before : List Literal) → IsHeld store.old.held before → IsHeld store.new.held before) }
    ensures range { (vars : ℕ) → AreInRange vars store.old.held → AreVariables (vars + 1) counter.now.inputs.items → AreVariables (vars + 1) counter.now.heads.items → AreKept (IsVariable (vars + 1)) counter.now → OnOk result (AreInRange vars store.new.held) }
{
    write_heads(store, origins, number, counter)?;
    if !counter.keeps_last {
        return Ok(());
    }
    write_last_row(store, origins, number, counter)
}

/// Writes the choices of a gate for each of its heads.
fn write_heads(
    store: &mut Store,
    origins: &mut Vec<Origin>,
    number: u32,
    counter: &Counter,
) -> Result<(), AllocError>
    requires inputs { AreVariables (2 ^ 31) counter.now.inputs.items }
    requires heads { AreVariables (2 ^ 31) counter.now.heads.items }
    ensures written { let gate = gate_of counter.now in OnOk result ((h : Literal) → has gate.heads h ≡ true → (ps : List ℕ) → Rises 0 gate.n ps → length ps + gate.k ≡ suc gate.n → IsNeedless store.new.held (negated h ∷ map gate.x ps)) }
    ensures kept { OnOk result ((before : List Literal) → IsHeld store.old.held before → IsHeld store.new.held before) }
    ensures range { (vars : ℕ) → AreInRange vars store.old.held → AreVariables (vars + 1) counter.now.inputs.items → AreVariables (vars + 1) counter.now.heads.items → OnOk result (AreInRange vars store.new.held) }
{
    let heads = counter.heads.as_slice();
    for (place, head) in heads.iter().enumerate() {
        let origin = Origin::Gate {
            number,
            head: id_at(&counter.head_ids, place),
        };
        write_choices(store, origins, origin, counter, *head, counter.threshold)?;
    }
    Ok(())
}

/// Writes the choices of a gate for each variable of its last row, a head of as many inputs as its column says.
fn write_last_row(
    store: &mut Store,
    origins: &mut Vec<Origin>,
    number: u32,
    counter: &Counter,
) -> Result<(), AllocError>
    requires stays { counter.now.keeps_last ≡ true }
    requires inputs { AreVariables (2 ^ 31) counter.now.inputs.items }
    requires rows { AreKept (IsVariable (2 ^ 31)) counter.now }
    ensures written { let gate = gate_of counter.now in OnOk result ((t : ℕ) → IsCell gate gate.n t → (ps : List ℕ) → Rises 0 gate.n ps → length ps + t ≡ suc gate.n → IsNeedless store.new.held (negated (gate.s gate.n t) ∷ map gate.x ps)) }
    ensures kept { OnOk result ((before : List Literal) → IsHeld store.old.held before → IsHeld store.new.held before) }
    ensures range { (vars : ℕ) → AreInRange vars store.old.held → AreVariables (vars + 1) counter.now.inputs.items → AreKept (IsVariable (vars + 1)) counter.now → OnOk result (AreInRange vars store.new.held) }
{
    let columns = counter.threshold.min(counter.inputs.len());
    let origin = Origin::Gate { number, head: 0 };
    for before in 0..columns {
        let head = variable_in_last(counter, before);
        write_choices(store, origins, origin, counter, head, before + 1)?;
    }
    Ok(())
}

/// The variable of the last row after this many others. O(1).
fn variable_in_last(counter: &Counter, before: usize) -> u32
    requires { IsVariable (2 ^ 31) (number_at counter.now.rows.items (length counter.now.inputs.items) + before) }
    ensures value { result ≡ number_at counter.now.rows.items (length counter.now.inputs.items) + before }
    ensures variable { IsVariable (2 ^ 31) result }
{
    number_at(&counter.rows, counter.inputs.len()) + before as u32
}

/// The id at a place, 0 past the end.
fn id_at(ids: &[u64], place: usize) -> u64 {
    match ids.get(place) {
        Some(id) => *id,
        None => 0,
    }
}
