//! Which place of which gate a variable is.
ghost use Rattle.std.specs.Prelude.{◌≡◌, ℕ, ◌+◌, ◌-◌, ◌<◌, ◌≤◌, ◌^◌, true};
ghost use Rattle.lrat_model.specs.Literal.{variable_of};
ghost use Rattle.counter_expansion.specs.Gates.{IsPlace};
ghost use Rattle.counter_expansion.specs.Counters.{number_at, gate_of, cell_at, ArePlaced, AreKept, IsNowhere, AreNowhere, AreInputsNowhere};

use crate::counters::{Counter, place_rows};
use clause_store::Lit;
use std::alloc::{AllocError, Global};

/// A gate's number, from 0 on, and a row and a column of its counter, from 1 on. One in row 0 is none.
#[derive(Debug, Clone, Copy, PartialEq, Eq)]
pub struct Cell {
    pub gate: u32,
    pub row: u32,
    pub column: u32,
}

/// The cell of a variable that is no place's.
const NOWHERE: Cell = Cell {
    gate: 0,
    row: 0,
    column: 0,
};

/// The cell of each variable up to `vars`, at its number. What does not fit the table is passed over: nothing is known of the
/// cells until they are compared with the counters. Linear in the variables and the places.
pub fn mark_cells(alloc: Global, counters: &[Counter], vars: u64) -> Result<Vec<Cell>, AllocError>
    requires { vars < 2 ^ 31 }
{
    let mut cells = vec![in alloc; NOWHERE; vars as usize + 1]?;
    for (g, counter) in counters.iter().enumerate() {
        if let Ok(gate) = u32::try_from(g) {
            mark_counter(cells.as_mut_slice(), gate, counter);
        }
    }
    Ok(cells)
}

/// Marks the places of a gate.
fn mark_counter(cells: &mut [Cell], gate: u32, counter: &Counter) {
    let Ok(rows) = u32::try_from(place_rows(counter)) else {
        return;
    };
    for above in 0..rows {
        let row = above + 1;
        let first = number_at(&counter.rows, row as usize);
        mark_row(cells, gate, row, first, width_of_row(counter, row as usize));
    }
}

/// Marks the places of a row, the first of which has this variable.
fn mark_row(cells: &mut [Cell], gate: u32, row: u32, first: u32, width: usize) {
    let Ok(columns) = u32::try_from(width) else {
        return;
    };
    for before in 0..columns {
        let column = before + 1;
        if let Some(cell) = cells.get_mut(first as usize + before as usize) {
            *cell = Cell { gate, row, column };
        }
    }
}

/// How many variables a row has. O(1).
pub fn width_of_row(counter: &Counter, row: usize) -> usize
    ensures { (j : ℕ) → j ≤ row → j ≤ counter.now.threshold → j ≤ result }
{
    counter.threshold.min(row)
}

/// The number at a position from 1 on, 0 past the end. O(1).
pub fn number_at(numbers: &[u32], position: usize) -> u32
    ensures { result ≡ number_at numbers.now position }
{
    match numbers.get(position.saturating_sub(1)) {
        Some(number) => *number,
        None => 0,
    }
}

/// The cell of a variable. O(1).
pub fn cell_at(cells: &[Cell], variable: usize) -> Cell
    ensures { result ≡ cell_at cells.now variable }
{
    match cells.get(variable) {
        Some(cell) => *cell,
        None => NOWHERE,
    }
}

/// Whether the variable of each place has its cell. Linear in the gates, their rows and their places.
pub fn are_placed(counters: &[Counter], cells: &[Cell]) -> bool
    ensures { result ≡ true → ArePlaced counters.now cells.now }
{
    for (g, counter) in counters.iter().enumerate() {
        let Ok(gate) = u32::try_from(g) else {
            return false;
        };
        if !is_counter_placed(cells, gate, counter) {
            return false;
        }
    }
    true
}

/// Whether the variables of a gate's places have their cells.
fn is_counter_placed(cells: &[Cell], gate: u32, counter: &Counter) -> bool
    ensures { result ≡ true → (i j : ℕ) → IsPlace (gate_of counter.now) i j → cell_at cells.now (number_at counter.now.rows.items i + (j - 1)) ≡ record { gate = gate; row = i; column = j } }
{
    let Ok(rows) = u32::try_from(place_rows(counter)) else {
        return false;
    };
    for above in 0..rows {
        let row = above + 1;
        let first = number_at(&counter.rows, row as usize);
        if !is_row_placed(cells, gate, row, first, width_of_row(counter, row as usize)) {
            return false;
        }
    }
    true
}

/// Whether the variables of a row's places, the first of which is this one, have their cells.
fn is_row_placed(cells: &[Cell], gate: u32, row: u32, first: u32, width: usize) -> bool
    ensures { result ≡ true → (j : ℕ) → 1 ≤ j → j ≤ width → cell_at cells.now (first + (j - 1)) ≡ record { gate = gate; row = row; column = j } }
{
    let Ok(columns) = u32::try_from(width) else {
        return false;
    };
    for before in 0..columns {
        let cell = cell_at(cells, first as usize + before as usize);
        if cell.gate != gate || cell.row != row || cell.column != before + 1 {
            return false;
        }
    }
    true
}

/// Whether the inputs, the heads and the row that stays of each gate are the variables of no places. Linear in them.
pub fn are_inputs_nowhere(counters: &[Counter], cells: &[Cell]) -> bool
    ensures { result ≡ true → AreInputsNowhere counters.now cells.now }
{
    for counter in counters {
        if !are_nowhere(cells, &counter.inputs) || !are_nowhere(cells, &counter.heads) {
            return false;
        }
        if !are_kept_nowhere(counter, cells) {
            return false;
        }
    }
    true
}

/// Whether the variables of the row that stays, if one does, are those of no places.
fn are_kept_nowhere(counter: &Counter, cells: &[Cell]) -> bool
    ensures { result ≡ true → AreKept (IsNowhere cells.now) counter.now }
{
    if !counter.keeps_last {
        return true;
    }
    let last = counter.inputs.len();
    is_row_nowhere(
        cells,
        number_at(&counter.rows, last),
        width_of_row(counter, last),
    )
}

/// Whether the variables of a row, the first of which is this one, are those of no places.
fn is_row_nowhere(cells: &[Cell], first: u32, width: usize) -> bool
    ensures { result ≡ true → (j : ℕ) → 1 ≤ j → j ≤ width → IsNowhere cells.now (first + (j - 1)) }
{
    let Ok(columns) = u32::try_from(width) else {
        return false;
    };
    for before in 0..columns {
        if cell_at(cells, first as usize + before as usize).row != 0 {
            return false;
        }
    }
    true
}

/// Whether these variables are those of no places.
fn are_nowhere(cells: &[Cell], variables: &[u32]) -> bool
    ensures { result ≡ true → AreNowhere cells.now variables.now }
{
    for variable in variables {
        if cell_at(cells, *variable as usize).row != 0 {
            return false;
        }
    }
    true
}

/// Whether the literal's variable is that of no place. O(1).
pub fn is_outer(cells: &[Cell], l: Lit) -> bool
    ensures { result ≡ true → (cell_at cells.now (variable_of l)).row ≡ 0 }
{
    cell_at(cells, l.variable() as usize).row == 0
}
