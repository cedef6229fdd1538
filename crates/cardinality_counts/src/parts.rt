//! A table that names for each variable the gates that have it.
ghost use Rattle.std.specs.Prelude.{◌≡◌, slice_index};
ghost use Rattle.cardinality_counts.specs.Counts.{part_of};

use crate::gate::Gate;
use std::alloc::{AllocError, Global};

/// Where the entries of each variable start, at its number, and those of all variables, one after another.
#[derive(Drop)]
pub struct Table {
    pub starts: Vec<usize>,
    pub entries: Vec<u32>,
}

/// The entries of a variable, where these are all and these are their starts. O(1).
pub fn part<'a>(starts: &[usize], entries: &'a [u32], variable: u32) -> &'a [u32]
    ensures { result.now ≡ part_of starts.now entries.now variable }
{
    let start = start_of(starts, variable as usize);
    let end = start_of(starts, variable as usize + 1);
    let from = start.min(entries.len());
    let to = end.min(entries.len()).max(from);
    &entries[from..to]
}

/// The start at a place, 0 past the end.
fn start_of(starts: &[usize], place: usize) -> usize
    ensures { result ≡ slice_index starts.now place }
{
    match starts.get(place) {
        Some(start) => *start,
        None => 0,
    }
}

/// Which variables of a gate a table is over: its inputs or its head.
#[derive(Clone, Copy, PartialEq, Eq)]
pub enum Side {
    Inputs,
    Head,
}

impl Table {
    /// No entry.
    pub fn none(alloc: Global) -> Table {
        Table {
            starts: Vec::new(alloc),
            entries: Vec::new(alloc),
        }
    }

    /// The numbers of the gates that have each variable up to `vars` on this side. What does not fit is left out: whether a
    /// table is whole is looked at where that counts. Linear in the variables and the gates' inputs.
    pub fn over(alloc: Global, vars: u32, gates: &[Gate], side: Side) -> Result<Table, AllocError> {
        let mut table = Table::none(alloc);
        table.starts.resize(vars as usize + 2, 0)?;
        for gate in gates {
            table.note_gate(gate, side);
        }
        let count = table.add_up();
        table.entries.resize(count, 0)?;
        let mut g = gates.len();
        while g > 0 {
            g -= 1;
            if let Ok(number) = u32::try_from(g) {
                table.put_gate(number, &gates[g], side);
            }
        }
        Ok(table)
    }

    /// One entry more for each variable of a gate.
    fn note_gate(&mut self, gate: &Gate, side: Side) {
        match side {
            Side::Head => self.note(gate.head),
            Side::Inputs => {
                for input in &gate.inputs {
                    self.note(*input);
                }
            }
        }
    }

    /// One entry more for a variable.
    fn note(&mut self, variable: u32) {
        if let Some(count) = self.starts.get_mut(variable as usize) {
            *count = count.saturating_add(1);
        }
    }

    /// Makes the numbers of entries the ends of their parts; how many entries there are.
    fn add_up(&mut self) -> usize {
        let mut sum: usize = 0;
        for start in self.starts.as_mut_slice() {
            sum = sum.saturating_add(*start);
            *start = sum;
        }
        sum
    }

    /// Enters a gate for each of its variables.
    fn put_gate(&mut self, number: u32, gate: &Gate, side: Side) {
        match side {
            Side::Head => self.put(number, gate.head),
            Side::Inputs => {
                for input in &gate.inputs {
                    self.put(number, *input);
                }
            }
        }
    }

    /// Enters a gate before what a variable has: what was the end of its part is its start when all are entered.
    fn put(&mut self, number: u32, variable: u32) {
        if let Some(start) = self.starts.get_mut(variable as usize) {
            *start = start.saturating_sub(1);
            if let Some(entry) = self.entries.get_mut(*start) {
                *entry = number;
            }
        }
    }
}
