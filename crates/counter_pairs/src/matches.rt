//! The pairs of gates, one of each side, that exclude each other, and the parts of a plan that show it.

use crate::counts::Users;
use crate::pairs::pairs_along;
use crate::rivals::{Rivals, count_of_pairs};
use crate::sides::{Gate, Side};
use crate::walks::Walker;
use lrat_model::Lit;
use search_heuristics::{Part, RowPair, Rows};
use std::alloc::{AllocError, Global};

/// Two gates of this many inputs in all are gone through by pairs: these lemmas have two literals, and are never forgotten.
const FEW_INPUTS: usize = 16;

/// Both sides, what is known of the places that exclude each other, the parts so far, and how many more pairs of rows there
/// may be.
#[derive(Drop)]
pub struct Matcher<'a> {
    alloc: Global,
    first: &'a Side,
    other: &'a Side,
    users: Users,
    walker: Walker,
    rivals: Rivals,
    parts: Vec<Part>,
    left: usize,
}

impl<'a> Matcher<'a> {
    /// A matcher that has matched nothing.
    pub fn new(
        alloc: Global,
        first: &'a Side,
        other: &'a Side,
        left: usize,
    ) -> Result<Matcher<'a>, AllocError> {
        Ok(Matcher {
            alloc,
            first,
            other,
            users: Users::of(alloc, other)?,
            walker: Walker::new(alloc, other.uses.len())?,
            rivals: Rivals::of_members(alloc, first.range.members)?,
            parts: Vec::new(alloc),
            left,
        })
    }

    /// Finds all pairs of gates that exclude each other, inner ones first.
    pub fn match_all(&mut self) -> Result<(), AllocError> {
        let first = self.first;
        for (number, gate) in first.gates.iter().enumerate() {
            self.match_gate(number, gate)?;
        }
        Ok(())
    }

    /// How many pairs of members, one of each side, have gates that exclude each other.
    pub fn count_of_pairs(&self) -> u64 {
        count_of_pairs(&self.rivals, self.first, self.other)
    }

    /// The parts.
    pub fn into_parts(self) -> Vec<Part> {
        self.parts
    }

    /// Finds the gates that exclude this one of side a.
    fn match_gate(&mut self, number: usize, gate: &Gate) -> Result<(), AllocError> {
        let met = self.users.meet(self.alloc, &gate.inputs, &self.rivals)?;
        let mut places = Vec::new(self.alloc);
        for rival in &met {
            if self.match_pair(number, gate, *rival)? {
                places.push(self.other.range.members.saturating_add(*rival))?;
            }
        }
        self.users.forget(&met);
        self.rivals.push(places)
    }

    /// Whether two gates exclude each other. If both have counters, they have parts of the plan: others need no lemma.
    fn match_pair(&mut self, number: usize, gate: &Gate, rival: u32) -> Result<bool, AllocError> {
        let Some(other) = self.other.gates.get(rival as usize) else {
            return Ok(false);
        };
        let wanted = gate.wanted.saturating_add(other.wanted);
        let all = gate.inputs.len().saturating_add(other.inputs.len());
        if wanted.saturating_add(self.users.count(rival)) <= all {
            return Ok(false);
        }
        if gate.rows.is_empty() || other.rows.is_empty() {
            return Ok(true);
        }
        let Some(steps) = self.walker.walk(self.alloc, gate, other, &self.rivals)? else {
            return Ok(false);
        };
        if all <= FEW_INPUTS {
            self.parts
                .push(Part::Given(pairs_along(self.alloc, gate, other, &steps)?))?;
        } else {
            self.push_rows(gate, other, number, rival as usize, steps)?;
        }
        Ok(true)
    }

    /// Plans that the rows of two counters are gone through from the one before the last down, after their outputs.
    fn push_rows(
        &mut self,
        gate: &Gate,
        other: &Gate,
        number: usize,
        rival: usize,
        mut steps: Vec<RowPair>,
    ) -> Result<(), AllocError> {
        let Some(left) = self.left.checked_sub(steps.len()) else {
            self.left = 0;
            return Ok(());
        };
        self.left = left;
        steps.pop();
        steps.reverse();
        let units = units_of(self.alloc, gate.output, other.output)?;
        self.parts.push(Part::Given(units))?;
        self.parts.push(Part::Rows(Rows {
            first: number,
            other: self.first.gates.len().saturating_add(rival),
            pairs: steps,
        }))?;
        Ok(())
    }
}

/// That the outputs are false, each as a group.
fn units_of(alloc: Global, first: u32, other: u32) -> Result<Vec<Vec<Lit>>, AllocError> {
    let mut units = Vec::new(alloc);
    for output in [first, other] {
        if 0 < output && output < 1 << 31 {
            let mut unit = Vec::new(alloc);
            unit.push(Lit::negative(output))?;
            units.push(unit)?;
        }
    }
    Ok(units)
}
