//! The gates of one side of an intersection formula, read from its clauses.

use clause_store::{Lit, Store};
use counter_expansion::{Counter, read_counter};
use std::alloc::{AllocError, Global};

/// An input that is none of the side's places.
const NO_PLACE: u32 = u32::MAX;

/// A gate: where its output is true, at least `wanted` of its inputs are.
#[derive(Drop)]
pub struct Gate {
    /// Its variable.
    pub output: u32,
    /// How many inputs are wanted.
    pub wanted: usize,
    /// The places of its inputs.
    pub inputs: Vec<u32>,
    /// The first variable of each row of its counter, empty where it has none.
    pub rows: Vec<u32>,
}

/// Which variables a side has: those of this many members after the first, and those of gates after one and up to another.
#[derive(Clone, Copy)]
pub struct Range {
    pub members: u32,
    pub first: u32,
    pub above: u32,
    pub last: u32,
}

/// A side. Its places, from 0 on, are its members, and then its gates in the order of their clauses, inner ones before those
/// over them. A place has the same number on both sides.
#[derive(Drop)]
pub struct Side {
    pub range: Range,
    pub gates: Vec<Gate>,
    /// Of how many members each place is the gate.
    pub uses: Vec<u32>,
}

/// The variables of side a, or else of side b: the first clause has all members of side a, and both sides have as many gates.
pub fn range_of(formula: &Store, vars: u64, is_first: bool) -> Range {
    let members = match formula.lits(1) {
        Some(lits) => lits.len().min(1 << 30) as u32,
        None => 0,
    };
    let vars = vars.min(1 << 31) as u32;
    let above = members.saturating_mul(2);
    let middle = above.saturating_add(vars.saturating_sub(above) / 2);
    if is_first {
        Range {
            members,
            first: 0,
            above,
            last: middle,
        }
    } else {
        Range {
            members,
            first: members,
            above: middle,
            last: vars,
        }
    }
}

impl Range {
    /// The place of a variable that is a member's.
    fn member(&self, variable: u32) -> Option<u32> {
        let place = variable.checked_sub(self.first)?.checked_sub(1)?;
        if place < self.members {
            Some(place)
        } else {
            None
        }
    }

    /// Whether a variable is one of the gates'.
    fn has_gate(&self, variable: u32) -> bool {
        self.above < variable && variable <= self.last
    }
}

/// Reads a side. Linear in the clauses, but for a search by halves for each input.
pub fn read_side(alloc: Global, formula: &Store, range: Range) -> Result<Side, AllocError> {
    let mut side = Side {
        range,
        gates: Vec::new(alloc),
        uses: Vec::new(alloc),
    };
    side.uses.resize(range.members as usize, 0)?;
    let mut next = 1;
    for before in 0..formula.last() {
        let id = before + 1;
        if id >= next {
            next = side.read(alloc, formula, id)?;
        }
    }
    Ok(side)
}

impl Side {
    /// Reads what begins with the clause of this id, and says from which id on it is over.
    fn read(&mut self, alloc: Global, formula: &Store, id: u64) -> Result<u64, AllocError> {
        let Some(head) = head_at(formula, id) else {
            return Ok(id);
        };
        if self.range.has_gate(head) {
            return self.read_gate(alloc, formula, id, head);
        }
        if self.range.member(head).is_some() {
            self.see_member(formula, id);
        }
        Ok(id)
    }

    /// Reads the gate whose first clause is that of this id.
    fn read_gate(
        &mut self,
        alloc: Global,
        formula: &Store,
        id: u64,
        head: u32,
    ) -> Result<u64, AllocError> {
        let all = inputs_of_all(alloc, formula, id, head)?;
        if all.len() >= 2 {
            let end = id.saturating_add(all.len() as u64);
            self.push(alloc, head, all.len(), &all, Vec::new(alloc))?;
            return Ok(end);
        }
        if let Some(counter) = read_counter(alloc, formula, id, u32::MAX)? {
            return self.push_counter(alloc, counter);
        }
        let any = inputs_of_any(alloc, formula, id)?;
        self.push(alloc, head, 1, &any, Vec::new(alloc))?;
        Ok(id)
    }

    /// Takes the gate of a counter, and says from which id on that is over.
    fn push_counter(&mut self, alloc: Global, counter: Counter) -> Result<u64, AllocError> {
        let Counter {
            threshold,
            inputs,
            rows,
            end,
            ..
        } = counter;
        let last = rows.last().copied().unwrap_or(0);
        let behind = threshold.saturating_sub(1).min(1 << 31) as u32;
        self.push(alloc, last.saturating_add(behind), threshold, &inputs, rows)?;
        Ok(end)
    }

    /// Takes a gate with these variables as inputs.
    fn push(
        &mut self,
        alloc: Global,
        output: u32,
        wanted: usize,
        variables: &[u32],
        rows: Vec<u32>,
    ) -> Result<(), AllocError> {
        let inputs = self.places_of(alloc, variables)?;
        self.gates.push(Gate {
            output,
            wanted,
            inputs,
            rows,
        })?;
        self.uses.push(0)?;
        Ok(())
    }

    /// The places of variables.
    fn places_of(&self, alloc: Global, variables: &[u32]) -> Result<Vec<u32>, AllocError> {
        let mut places = Vec::new(alloc);
        for variable in variables {
            places.push(self.place_of(*variable))?;
        }
        Ok(places)
    }

    /// The place of a variable.
    fn place_of(&self, variable: u32) -> u32 {
        if let Some(member) = self.range.member(variable) {
            return member;
        }
        let at = self.gates.partition_point(|gate| gate.output < variable);
        match self.gates.get(at) {
            Some(gate) if gate.output == variable => self
                .range
                .members
                .saturating_add(at.min(1 << 31) as u32),
            _ => NO_PLACE,
        }
    }

    /// Sees the clause from a member to its gate, if it is one.
    fn see_member(&mut self, formula: &Store, id: u64) {
        if let Some(gate) = second_at(formula, id) {
            let place = self.place_of(gate);
            if let Some(uses) = self.uses.get_mut(place as usize) {
                *uses = uses.saturating_add(1);
            }
        }
    }
}

/// The variable of a clause's first literal, where that is negative.
fn head_at(formula: &Store, id: u64) -> Option<u32> {
    let first = *formula.lits(id)?.first()?;
    if first.number() < 0 {
        Some(first.variable())
    } else {
        None
    }
}

/// The variable of the second of a clause's two literals, where that is positive.
fn second_at(formula: &Store, id: u64) -> Option<u32> {
    let lits = formula.lits(id)?;
    let second = *lits.get(1)?;
    if lits.len() == 2 && second.number() > 0 {
        Some(second.variable())
    } else {
        None
    }
}

/// The inputs of a gate that wants all of them: from this id on, those of clauses of two literals whose head is its output.
fn inputs_of_all(
    alloc: Global,
    formula: &Store,
    start: u64,
    head: u32,
) -> Result<Vec<u32>, AllocError> {
    let mut inputs = Vec::new(alloc);
    for before in start.saturating_sub(1)..formula.last() {
        let id = before + 1;
        match second_at(formula, id) {
            Some(input) if head_at(formula, id) == Some(head) => inputs.push(input)?,
            _ => break,
        }
    }
    Ok(inputs)
}

/// The inputs of a gate that wants any of them: all but the first literal of its clause.
fn inputs_of_any(alloc: Global, formula: &Store, id: u64) -> Result<Vec<u32>, AllocError> {
    let mut inputs = Vec::new(alloc);
    if let Some(lits) = formula.lits(id) {
        for l in lits.iter().skip(1) {
            inputs.push(l.variable())?;
        }
    }
    Ok(inputs)
}
