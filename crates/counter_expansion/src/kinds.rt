//! Which clauses are those of gates.
ghost use Rattle.std.specs.Prelude.{◌≡◌, ◌⊎◌, ◌+◌, ◌-◌, ◌<◌, ◌≤◌, ◌^◌, true, All, map};
ghost use Rattle.lrat_model.specs.Literal.{Literal, Plus, Minus, variable_of, negated, has};
ghost use Rattle.counter_expansion.specs.Gates.{IsCell, IsPlace, IsFirst, IsSecond, IsHead, IsOfCounter};
ghost use Rattle.counter_expansion.specs.Counters.{number_at, gate_of, gates_of, cell_at};

use crate::cells::{Cell, cell_at, is_outer, number_at};
use crate::counters::{Counter, place_rows};
use clause_store::Lit;

/// What a clause is beside gates: it has no place's literal; or it is one of a gate's counter; or neither is seen.
#[derive(Clone, Copy)]
pub enum Kind {
    Outer,
    Counter,
    Neither,
}

/// From here on a number is no literal's variable.
const END_OF_VARIABLES: usize = 1 << 31;

/// Of which kind a clause is. Linear in its literals, but for a search by halves among the gate's heads for each of them
/// where no place stands negative.
pub fn kind_of(counters: &[Counter], cells: &[Cell], clause: &[Lit]) -> Kind
    ensures outer { result ≡ Kind.Outer → All (λ l. (cell_at cells.now (variable_of l)).row ≡ 0) clause.now }
    ensures counter { result ≡ Kind.Counter → IsOfCounter (gates_of counters.now) clause.now }
{
    if are_outer(cells, clause) {
        Kind::Outer
    } else if is_of_counter(counters, cells, clause) {
        Kind::Counter
    } else {
        Kind::Neither
    }
}

/// Whether no literal is a place's.
fn are_outer(cells: &[Cell], clause: &[Lit]) -> bool
    ensures { result ≡ true → All (λ l. (cell_at cells.now (variable_of l)).row ≡ 0) clause.now }
{
    for l in clause {
        if !is_outer(cells, *l) {
            return false;
        }
    }
    true
}

/// Whether the clause is one of a counter: its first negative literal that is a place's tells from where it leads. Where a head
/// or a last row that stays is denied, there is none, and its first positive one tells where it leads to.
fn is_of_counter(counters: &[Counter], cells: &[Cell], clause: &[Lit]) -> bool
    ensures { result ≡ true → IsOfCounter (gates_of counters.now) clause.now }
{
    let denied = first_place(cells, clause, true);
    if denied.row > 0 {
        return is_from_place(counters, denied, clause);
    }
    is_to_place(counters, first_place(cells, clause, false), clause)
}

/// The cell of the clause's first literal that is a place's, and negative or positive as is asked; one in row 0 where there
/// is none.
fn first_place(cells: &[Cell], clause: &[Lit], is_negative: bool) -> Cell {
    for l in clause {
        let cell = cell_at(cells, l.variable() as usize);
        if cell.row > 0 && (l.number() < 0) == is_negative {
            return cell;
        }
    }
    cell_at(&[], 0)
}

/// Whether the clause leads from this place to the row above.
fn is_from_place(counters: &[Counter], place: Cell, clause: &[Lit]) -> bool
    ensures { result ≡ true → IsOfCounter (gates_of counters.now) clause.now }
{
    let Some(counter) = counters.get(place.gate as usize) else {
        return false;
    };
    let row = place.row as usize;
    let column = place.column as usize;
    is_step(counter, row, column, clause)
}

/// Whether the clause leads to this place from a head of its gate or from the row below.
fn is_to_place(counters: &[Counter], place: Cell, clause: &[Lit]) -> bool
    ensures { result ≡ true → IsOfCounter (gates_of counters.now) clause.now }
{
    let Some(counter) = counters.get(place.gate as usize) else {
        return false;
    };
    let below = place.row as usize + 1;
    let column = place.column as usize;
    if is_head(counter, clause) {
        return true;
    }
    if is_step(counter, below, column, clause) {
        return true;
    }
    is_second(counter, below, column + 1, clause)
}

/// Whether the clause is one of the two that lead from this cell to the row above.
fn is_step(counter: &Counter, row: usize, column: usize, clause: &[Lit]) -> bool
    ensures { result ≡ true → IsFirst (gate_of counter.now) clause.now ⊎ IsSecond (gate_of counter.now) clause.now }
{
    if is_first(counter, row, column, clause) {
        return true;
    }
    is_second(counter, row, column, clause)
}

/// Whether the clause says: where j of the inputs up to this one are true, this one is, or j of those before it.
fn is_first(counter: &Counter, row: usize, column: usize, clause: &[Lit]) -> bool
    ensures { result ≡ true → IsFirst (gate_of counter.now) clause.now }
{
    is_denied_cell(counter, row, column, clause)
        && has_left(counter, row, column, clause)
        && has_positive(clause, number_at(&counter.inputs, row) as usize)
}

/// Whether the clause has the cell of this column in the row above, or there is none.
fn has_left(counter: &Counter, row: usize, column: usize, clause: &[Lit]) -> bool
    requires { IsCell (gate_of counter.now) row column }
    ensures { result ≡ true → (column ≡ row) ⊎ ((column ≤ row - 1) × (has clause.now ((gate_of counter.now).s (row - 1) column) ≡ true)) }
{
    column == row || has_positive(clause, variable_at(counter, row - 1, column))
}

/// Whether the clause says: where more than j of the inputs up to this one are true, j of those before it are.
fn is_second(counter: &Counter, row: usize, column: usize, clause: &[Lit]) -> bool
    ensures { result ≡ true → IsSecond (gate_of counter.now) clause.now }
{
    if column < 2 || !is_denied_cell(counter, row, column, clause) {
        return false;
    }
    has_positive(clause, variable_at(counter, row - 1, column - 1))
}

/// Whether the clause says: where one of the heads is true, as many inputs are true as the gate wants.
fn is_head(counter: &Counter, clause: &[Lit]) -> bool
    ensures { result ≡ true → IsHead (gate_of counter.now) clause.now }
{
    let row = counter.inputs.len();
    let column = counter.threshold;
    is_place(counter, row, column)
        && has_positive(clause, variable_at(counter, row, column))
        && denies_head(&counter.heads, clause)
}

/// Whether the counter has this cell and the clause denies it.
fn is_denied_cell(counter: &Counter, row: usize, column: usize, clause: &[Lit]) -> bool
    ensures cell { result ≡ true → IsCell (gate_of counter.now) row column }
    ensures denied { result ≡ true → has clause.now (negated ((gate_of counter.now).s row column)) ≡ true }
{
    is_cell(counter, row, column) && has_negative(clause, variable_at(counter, row, column))
}

/// Whether the counter has this place.
fn is_place(counter: &Counter, row: usize, column: usize) -> bool
    ensures { result ≡ true → IsPlace (gate_of counter.now) row column }
{
    row <= place_rows(counter) && is_cell(counter, row, column)
}

/// Whether the counter has this cell.
fn is_cell(counter: &Counter, row: usize, column: usize) -> bool
    ensures { result ≡ true → IsCell (gate_of counter.now) row column }
{
    1 <= column && column <= row && row <= counter.inputs.len() && column <= counter.threshold
}

/// The variable of a cell.
fn variable_at(counter: &Counter, row: usize, column: usize) -> usize
    requires { column < 2 ^ 63 }
    ensures { result ≡ number_at counter.now.rows.items row + (column - 1) }
{
    number_at(&counter.rows, row) as usize + column.saturating_sub(1)
}

/// Whether the clause has the negation of a head.
fn denies_head(heads: &[u32], clause: &[Lit]) -> bool
    ensures { result ≡ true → (h : Literal) × (has (map Plus heads.now) h ≡ true) × (has clause.now (negated h) ≡ true) }
{
    for l in clause {
        if l.number() < 0 && is_among(heads, l.variable()) {
            return true;
        }
    }
    false
}

/// Whether a number is seen among numbers that rise, by halves. Where they do not rise it may be passed over.
fn is_among(numbers: &[u32], number: u32) -> bool
    ensures { result ≡ true → has (map Plus numbers.now) (Plus number) ≡ true }
{
    match numbers.get(numbers.partition_point(|other| *other < number)) {
        Some(found) => *found == number,
        None => false,
    }
}

/// Whether the variable is among the positive literals.
fn has_positive(clause: &[Lit], variable: usize) -> bool
    ensures { result ≡ true → has clause.now (Plus variable) ≡ true }
{
    if variable == 0 || variable >= END_OF_VARIABLES {
        return false;
    }
    has(clause, Lit::positive(variable as u32))
}

/// Whether the variable is among the negative literals.
fn has_negative(clause: &[Lit], variable: usize) -> bool
    ensures { result ≡ true → has clause.now (Minus variable) ≡ true }
{
    if variable == 0 || variable >= END_OF_VARIABLES {
        return false;
    }
    has(clause, Lit::negative(variable as u32))
}

/// Whether the literal is in the list.
fn has(literals: &[Lit], l: Lit) -> bool
    ensures { result ≡ has literals.now l }
{
    literals.iter().any(|m| l.same(*m))
}
