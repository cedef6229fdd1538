//! Two gates' inputs gone through side by side.

use crate::rivals::Rivals;
use crate::sides::Gate;
use search_heuristics::RowPair;
use std::alloc::{AllocError, Global};

/// An input of each of two gates, from 1 on, which exclude each other.
#[derive(Clone, Copy)]
struct Common {
    row: u32,
    other: u32,
}

/// The last link of the best chains of each length, and all links: each is common, and knows the link before it.
#[derive(Drop)]
struct Chains {
    ends: Vec<End>,
    links: Vec<Link>,
}

#[derive(Clone, Copy)]
struct End {
    other: u32,
    link: usize,
}

#[derive(Clone, Copy)]
struct Link {
    common: Common,
    before: usize,
}

/// Finds longest common subsequences, with the places of one gate's inputs at hand: at each place of side b which input it is,
/// from 1 on, or 0.
#[derive(Drop)]
pub struct Walker {
    rows: Vec<u32>,
    found: Vec<u32>,
}

impl Walker {
    /// A walker over this many places of side b.
    pub fn new(alloc: Global, places: usize) -> Result<Walker, AllocError> {
        let mut rows = Vec::new(alloc);
        rows.resize(places, 0)?;
        Ok(Walker {
            rows,
            found: Vec::new(alloc),
        })
    }

    /// The steps in which two gates' inputs are gone through along a longest common subsequence, where a common one is met once:
    /// the rows of both counters, and how many inputs met so far have to be true and more, for the gates to exclude each other.
    /// None if they do not. O(n log n) for n inputs.
    pub fn walk(
        &mut self,
        alloc: Global,
        first: &Gate,
        other: &Gate,
        rivals: &Rivals,
    ) -> Result<Option<Vec<RowPair>>, AllocError> {
        self.see_rows(&other.inputs);
        let chain = self.chain(alloc, &first.inputs, rivals)?;
        self.forget_rows(&other.inputs);
        let all = first
            .inputs
            .len()
            .saturating_add(other.inputs.len())
            .saturating_sub(chain.len());
        let wanted = first.wanted.saturating_add(other.wanted);
        if wanted <= all {
            return Ok(None);
        }
        let spare = (wanted - all).min(1 << 31) as u32;
        Ok(Some(steps_of(alloc, first, other, &chain, spare)?))
    }

    /// Notes where the other gate has its inputs.
    fn see_rows(&mut self, inputs: &[u32]) {
        let mut row: u32 = 0;
        for place in inputs {
            row = row.saturating_add(1);
            if let Some(at) = self.rows.get_mut(*place as usize) {
                *at = row;
            }
        }
    }

    /// Forgets where the other gate has its inputs.
    fn forget_rows(&mut self, inputs: &[u32]) {
        for place in inputs {
            if let Some(at) = self.rows.get_mut(*place as usize) {
                *at = 0;
            }
        }
    }

    /// A longest common subsequence of these inputs and those that are noted.
    fn chain(
        &mut self,
        alloc: Global,
        inputs: &[u32],
        rivals: &Rivals,
    ) -> Result<Vec<Common>, AllocError> {
        let mut chains = Chains {
            ends: Vec::new(alloc),
            links: Vec::new(alloc),
        };
        let mut row: u32 = 0;
        for place in inputs {
            row = row.saturating_add(1);
            self.find(rivals.get(*place))?;
            chains.see_all(row, &self.found)?;
        }
        chains.longest(alloc)
    }

    /// Finds which of the noted inputs are among these places, from the last to the first.
    fn find(&mut self, places: &[u32]) -> Result<(), AllocError> {
        self.found.clear();
        for place in places {
            if let Some(row) = self.rows.get(*place as usize)
                && *row > 0
            {
                self.found.push(*row)?;
            }
        }
        self.found.sort_unstable();
        self.found.reverse();
        Ok(())
    }
}

impl Chains {
    /// Sees which inputs, falling, an input excludes.
    fn see_all(&mut self, row: u32, others: &[u32]) -> Result<(), AllocError> {
        for other in others {
            self.see(Common { row, other: *other })?;
        }
        Ok(())
    }

    /// Takes a common input into the longest chain that it can end.
    fn see(&mut self, common: Common) -> Result<(), AllocError> {
        let length = self.ends.partition_point(|end| end.other < common.other);
        let before = match length.checked_sub(1) {
            Some(last) => self.ends.get(last).map_or(usize::MAX, |end| end.link),
            None => usize::MAX,
        };
        let end = End {
            other: common.other,
            link: self.links.len(),
        };
        self.links.push(Link { common, before })?;
        match self.ends.get_mut(length) {
            Some(there) => *there = end,
            None => self.ends.push(end)?,
        }
        Ok(())
    }

    /// The longest chain.
    fn longest(&self, alloc: Global) -> Result<Vec<Common>, AllocError> {
        let mut chain = Vec::new(alloc);
        let mut next = self.ends.last().map_or(usize::MAX, |end| end.link);
        for _ in 0..self.ends.len() {
            if let Some(link) = self.links.get(next) {
                chain.push(link.common)?;
                next = link.before;
            }
        }
        chain.reverse();
        Ok(chain)
    }
}

/// The steps that were made, and the last of them.
#[derive(Drop)]
struct Steps {
    list: Vec<RowPair>,
    at: RowPair,
}

/// The steps along a chain, of two gates that want this many inputs more than there are.
fn steps_of(
    alloc: Global,
    first: &Gate,
    other: &Gate,
    chain: &[Common],
    spare: u32,
) -> Result<Vec<RowPair>, AllocError> {
    let mut steps = Steps {
        list: Vec::new(alloc),
        at: RowPair {
            row: 0,
            other: 0,
            wanted: spare,
        },
    };
    for common in chain {
        steps.go_to(common.row.saturating_sub(1), common.other.saturating_sub(1))?;
        steps.step(1, 1)?;
    }
    steps.go_to(row_of(first), row_of(other))?;
    Ok(steps.list)
}

/// The last row of a gate.
fn row_of(gate: &Gate) -> u32 {
    gate.inputs.len().min(1 << 31) as u32
}

impl Steps {
    /// Goes to these rows, where no input is common: first in the one counter, then in the other.
    fn go_to(&mut self, row: u32, other: u32) -> Result<(), AllocError> {
        self.repeat(row.saturating_sub(self.at.row), 1, 0)?;
        self.repeat(other.saturating_sub(self.at.other), 0, 1)
    }

    /// Makes a step this many times.
    fn repeat(&mut self, times: u32, rows: u32, others: u32) -> Result<(), AllocError> {
        for _ in 0..times {
            self.step(rows, others)?;
        }
        Ok(())
    }

    /// Meets one more input, by this many rows in both counters.
    fn step(&mut self, rows: u32, others: u32) -> Result<(), AllocError> {
        self.at = RowPair {
            row: self.at.row.saturating_add(rows),
            other: self.at.other.saturating_add(others),
            wanted: self.at.wanted.saturating_add(1),
        };
        self.list.push(self.at)?;
        Ok(())
    }
}
