//! Which places of the two sides exclude each other.

use crate::sides::{Gate, Side};
use std::alloc::{AllocError, Global};

/// For each place of side a the places of side b that exclude it.
#[derive(Drop)]
pub struct Rivals {
    of: Vec<Vec<u32>>,
}

impl Rivals {
    /// Each of this many members excludes itself on the other side.
    pub fn of_members(alloc: Global, members: u32) -> Result<Rivals, AllocError> {
        let mut of = Vec::new(alloc);
        for member in 0..members {
            let mut own = Vec::new(alloc);
            own.push(member)?;
            of.push(own)?;
        }
        Ok(Rivals { of })
    }

    /// What excludes the next place.
    pub fn push(&mut self, places: Vec<u32>) -> Result<(), AllocError> {
        self.of.push(places)?;
        Ok(())
    }

    /// What excludes a place.
    pub fn get(&self, place: u32) -> &[u32] {
        match self.of.get(place as usize) {
            Some(places) => places,
            None => &[],
        }
    }
}

/// Whether some member's gate excludes itself on the other side, where both sides have the same gates: then this many of its inputs
/// have to be true on the one side or the other as there are, and more. Where none does, no two gates of members exclude each
/// other, since these want half of their inputs at most. Linear in the gates' inputs.
pub fn has_own_rival(alloc: Global, side: &Side) -> Result<bool, AllocError> {
    let mut are_own = Vec::new(alloc);
    are_own.resize(side.range.members as usize, true)?;
    for gate in &side.gates {
        let is_own = is_own_rival(&are_own, gate);
        if is_own && side.uses.get(are_own.len()).copied().unwrap_or(0) > 0 {
            return Ok(true);
        }
        are_own.push(is_own)?;
    }
    Ok(false)
}

/// Whether a gate excludes itself on the other side, by the places that do.
fn is_own_rival(are_own: &[bool], gate: &Gate) -> bool {
    let mut own: usize = 0;
    for place in &gate.inputs {
        if are_own.get(*place as usize).copied().unwrap_or(false) {
            own = own.saturating_add(1);
        }
    }
    let wanted = gate.wanted.saturating_mul(2).saturating_add(own);
    wanted > gate.inputs.len().saturating_mul(2)
}

/// How many pairs of members, one of each side, have gates that exclude each other.
pub fn count_of_pairs(rivals: &Rivals, first: &Side, other: &Side) -> u64 {
    let mut count: u64 = 0;
    for place in 0..first.uses.len().min(1 << 31) as u32 {
        let uses = u64::from(uses_of(first, place));
        if uses > 0 {
            let others = uses_of_all(other, rivals.get(place));
            count = count.saturating_add(uses.saturating_mul(others));
        }
    }
    count
}

/// Of how many members a place is the gate.
fn uses_of(side: &Side, place: u32) -> u32 {
    side.uses.get(place as usize).copied().unwrap_or(0)
}

/// Of how many members some places are the gates.
fn uses_of_all(side: &Side, places: &[u32]) -> u64 {
    let mut count: u64 = 0;
    for place in places {
        count = count.saturating_add(u64::from(uses_of(side, *place)));
    }
    count
}
