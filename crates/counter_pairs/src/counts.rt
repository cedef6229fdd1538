//! Which gates of side b have inputs that exclude those of a gate of side a.

use crate::rivals::Rivals;
use crate::sides::Side;
use std::alloc::{AllocError, Global};

/// For each place of a side the gates that have it as an input; and, while a gate of the other side is looked at, how many
/// inputs of each gate exclude one of its own.
#[derive(Drop)]
pub struct Users {
    of: Vec<Vec<u32>>,
    counts: Vec<u32>,
}

impl Users {
    /// The users of a side's places. Linear in the gates' inputs.
    pub fn of(alloc: Global, side: &Side) -> Result<Users, AllocError> {
        let mut users = Users {
            of: Vec::new(alloc),
            counts: Vec::new(alloc),
        };
        users.counts.resize(side.gates.len(), 0)?;
        for _ in 0..side.uses.len() {
            users.of.push(Vec::new(alloc))?;
        }
        for (number, gate) in side.gates.iter().enumerate() {
            users.see_inputs(&gate.inputs, number.min(1 << 31) as u32)?;
        }
        Ok(users)
    }

    /// The gate with this number has these inputs.
    fn see_inputs(&mut self, inputs: &[u32], gate: u32) -> Result<(), AllocError> {
        for place in inputs {
            if let Some(users) = self.of.get_mut(*place as usize) {
                users.push(gate)?;
            }
        }
        Ok(())
    }

    /// The gates of this side that have inputs which exclude one of these, in their order, counted until they are forgotten.
    /// Linear in the pairs of such inputs.
    pub fn meet(
        &mut self,
        alloc: Global,
        inputs: &[u32],
        rivals: &Rivals,
    ) -> Result<Vec<u32>, AllocError> {
        let mut met = Vec::new(alloc);
        for place in inputs {
            self.see_rivals(rivals.get(*place), &mut met)?;
        }
        met.sort_unstable();
        Ok(met)
    }

    /// How many inputs of a gate exclude one of those that are met.
    pub fn count(&self, gate: u32) -> usize {
        self.counts.get(gate as usize).copied().unwrap_or(0) as usize
    }

    /// Forgets the gates that were met.
    pub fn forget(&mut self, met: &[u32]) {
        for gate in met {
            if let Some(count) = self.counts.get_mut(*gate as usize) {
                *count = 0;
            }
        }
    }

    /// Counts the users of some places.
    fn see_rivals(&mut self, places: &[u32], met: &mut Vec<u32>) -> Result<(), AllocError> {
        for place in places {
            if let Some(users) = self.of.get(*place as usize) {
                count_all(&mut self.counts, users, met)?;
            }
        }
        Ok(())
    }
}

/// Counts each of some gates once more, and notes which are met for the first time.
fn count_all(counts: &mut [u32], gates: &[u32], met: &mut Vec<u32>) -> Result<(), AllocError> {
    for gate in gates {
        if let Some(count) = counts.get_mut(*gate as usize) {
            if *count == 0 {
                met.push(*gate)?;
            }
            *count = count.saturating_add(1);
        }
    }
    Ok(())
}
