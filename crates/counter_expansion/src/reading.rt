//! Counters, read from the clauses of a formula.

use crate::counters::Counter;
use clause_store::{Lit, Store};
use std::alloc::{AllocError, Global};

/// The row of a counter after this many inputs: its first variable, and how many it has.
#[derive(Clone, Copy)]
struct Row {
    inputs: u32,
    first: u32,
    width: u32,
}

impl Row {
    /// The j-th variable, from 1 on.
    fn place(&self, j: u32) -> Option<u32> {
        if 1 <= j && j <= self.width {
            Some(self.first.saturating_add(j - 1))
        } else {
            None
        }
    }

    /// Where the row after it begins.
    fn end(&self) -> u32 {
        self.first.saturating_add(self.width)
    }

    /// How many inputs a gate wants whose last row this is.
    fn wanted(&self) -> usize {
        self.width as usize
    }

    /// The most variables that the row after it may have: the first row that is narrower than its inputs are many has as
    /// many as the gate wants, and so has each row after it.
    fn most_after(&self) -> u32 {
        if self.width < self.inputs {
            self.width
        } else {
            self.width.saturating_add(1)
        }
    }
}

/// A row that was read, the variable of its input, and the id after its clauses.
#[derive(Clone, Copy)]
struct ReadRow {
    row: Row,
    input: u32,
    end: u64,
}

/// The variable of a literal that is not negated.
fn positive_variable(lit: Lit) -> Option<u32> {
    if lit.number() > 0 {
        Some(lit.variable())
    } else {
        None
    }
}

/// The last variable of the clause -place, above, last, where there is one above, or -place, last.
fn read_last(formula: &Store, id: u64, place: u32, above: Option<u32>) -> Option<u32> {
    let lits = formula.lits(id)?;
    let denied = *lits.first()?;
    let middle = match above {
        Some(_) => positive_variable(*lits.get(1)?),
        None => None,
    };
    let wanted = if above.is_some() { 3 } else { 2 };
    if lits.len() == wanted
        && denied.number() < 0
        && denied.variable() == place
        && middle == above
    {
        positive_variable(*lits.last()?)
    } else {
        None
    }
}

/// The variable of the input, and the id after the clauses of the j-th variable of the row after this one.
fn read_place(formula: &Store, id: u64, above: &Row, j: u32) -> Option<(u32, u64)> {
    let place = above.end().saturating_add(j.saturating_sub(1));
    let input = read_last(formula, id, place, above.place(j))?;
    let next = id.saturating_add(1);
    if j == 1 {
        return Some((input, next));
    }
    let before = read_last(formula, next, place, above.place(j))?;
    if above.place(j.saturating_sub(1)) == Some(before) {
        Some((input, next.saturating_add(1)))
    } else {
        None
    }
}

/// The row after this one. It is at least as wide.
fn read_row(formula: &Store, start: u64, above: &Row) -> Option<ReadRow> {
    let (input, mut end) = read_place(formula, start, above, 1)?;
    let mut width = 1;
    for j in 2..above.most_after().saturating_add(1) {
        match read_place(formula, end, above, j) {
            Some((same, next)) if same == input => {
                width = j;
                end = next;
            }
            _ => break,
        }
    }
    if width < above.width {
        return None;
    }
    let row = Row {
        inputs: above.inputs.saturating_add(1),
        first: above.end(),
        width,
    };
    Some(ReadRow { row, input, end })
}

/// The variable of the first row of a counter whose first clause this would be.
fn first_place(formula: &Store, start: u64) -> Option<u32> {
    let lits = formula.lits(start)?;
    let denied = *lits.first()?;
    if lits.len() == 2 && denied.number() < 0 {
        Some(denied.variable())
    } else {
        None
    }
}

/// The counter whose first clause is that of this id, without heads, where it wants at least two of more inputs. No more than
/// `most` inputs are read: where there are as many, it may go on after its end. O(the clauses that are read).
pub fn read_counter(
    alloc: Global,
    formula: &Store,
    start: u64,
    most: u32,
) -> Result<Option<Counter>, AllocError> {
    let Some(first) = first_place(formula, start) else {
        return Ok(None);
    };
    let mut row = Row {
        inputs: 0,
        first,
        width: 0,
    };
    let mut inputs = Vec::new(alloc);
    let mut rows = Vec::new(alloc);
    let mut end = start;
    for _ in 0..most {
        let Some(read) = read_row(formula, end, &row) else {
            break;
        };
        inputs.push(read.input)?;
        rows.push(read.row.first)?;
        row = read.row;
        end = read.end;
    }
    let threshold = row.wanted();
    if threshold < 2 || inputs.len() <= threshold {
        return Ok(None);
    }
    Ok(Some(Counter {
        threshold,
        inputs,
        rows,
        keeps_last: false,
        heads: Vec::new(alloc),
        head_ids: Vec::new(alloc),
        start,
        end,
    }))
}
