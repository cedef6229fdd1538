//! Which clauses of gates' sets may force something. No answer depends on it: each is looked at before it does.
use crate::gate::Gate;
use crate::parts::{Side, Table, part};
use assignment_trail::Assignment;
use lrat_model::Lit;
use std::alloc::{AllocError, Global};

/// No variable is greater, since a literal is a signed number of 32 bits.
const MOST_VARIABLE: u32 = i32::MAX as u32;

/// No set is chosen from more inputs.
const MOST_INPUTS: usize = 32;

/// For each variable the gates whose head it is; how many false inputs a gate has before it may force something; the gates that
/// have this many; and in how many ways r of n are chosen, at n * 65 + r.
#[derive(Drop)]
pub struct Guesses {
    heads: Table,
    limits: Vec<u32>,
    due: Vec<u32>,
    ways: Vec<u64>,
    /// The ids of the clauses that may force something.
    pub ids: Vec<u64>,
}

impl Guesses {
    /// Of these gates none has anything false yet.
    pub fn over(alloc: Global, vars: u32, gates: &[Gate]) -> Result<Guesses, AllocError> {
        let mut limits = Vec::new(alloc);
        for gate in gates {
            let limit = u32::try_from(gate.size.saturating_sub(1)).unwrap_or(u32::MAX);
            limits.push(limit)?;
        }
        let ways = if gates.is_empty() {
            Vec::new(alloc)
        } else {
            ways_of(alloc)?
        };
        Ok(Guesses {
            heads: Table::over(alloc, vars, gates, Side::Head)?,
            limits,
            due: Vec::new(alloc),
            ways,
            ids: Vec::new(alloc),
        })
    }

    /// Sees that an input of these gates became false. Those that had this many before are passed over: their heads are false.
    pub fn see_inputs(&mut self, list: &[u32], counts: &[u32]) -> Result<(), AllocError> {
        for g in list {
            see(&mut self.due, &self.limits, *g, counts, 1)?;
        }
        Ok(())
    }

    /// Sees that the head of gates became true.
    pub fn see_head(&mut self, head: u32, counts: &[u32]) -> Result<(), AllocError> {
        for g in part(&self.heads.starts, &self.heads.entries, head) {
            see(&mut self.due, &self.limits, *g, counts, u32::MAX)?;
        }
        Ok(())
    }

    /// Makes of the gates that were seen the ids of clauses that may be false or force something. Linear in their inputs, for
    /// each input that may be forced.
    pub fn guess(
        &mut self,
        gates: &[Gate],
        counts: &[u32],
        assignment: &Assignment,
    ) -> Result<(), AllocError> {
        self.ids.clear();
        for g in &self.due {
            if let Some(gate) = gates.get(*g as usize)
                && let Some(count) = counts.get(*g as usize)
            {
                guess_of(&mut self.ids, &self.ways, gate, *count as usize, assignment)?;
            }
        }
        self.due.clear();
        Ok(())
    }
}

/// Sees a gate: it is due where so many inputs are false that it may force something, and no more than this many beyond.
fn see(
    due: &mut Vec<u32>,
    limits: &[u32],
    g: u32,
    counts: &[u32],
    most_beyond: u32,
) -> Result<(), AllocError> {
    if let Some(limit) = limits.get(g as usize)
        && let Some(count) = counts.get(g as usize)
        && let Some(beyond) = count.checked_sub(*limit)
        && beyond <= most_beyond
    {
        due.push(g)?;
    }
    Ok(())
}

/// The number of the gate whose clauses are around an id, the last that begins up to it. O(log n).
pub fn number_of(gates: &[Gate], id: u64) -> usize {
    let mut from = 0;
    let mut to = gates.len();
    while from < to {
        let middle = from + (to - from) / 2;
        match gates.get(middle) {
            Some(gate) if gate.first <= id => from = middle + 1,
            _ => to = middle,
        }
    }
    from.saturating_sub(1)
}

/// In how many ways r of n are chosen, for n and r up to 64.
fn ways_of(alloc: Global) -> Result<Vec<u64>, AllocError> {
    let room = (MOST_INPUTS + 1) * (MOST_INPUTS + 1);
    let mut ways = vec![in alloc; 0u64; room]?;
    for n in 0..MOST_INPUTS + 1 {
        set_way(&mut ways, n, 0, 1);
        for r in 1..n + 1 {
            let sum = way(&ways, n.saturating_sub(1), r.saturating_sub(1)).saturating_add(way(
                &ways,
                n.saturating_sub(1),
                r,
            ));
            set_way(&mut ways, n, r, sum);
        }
    }
    Ok(ways)
}

fn way(ways: &[u64], n: usize, r: usize) -> u64 {
    match ways.get(n.saturating_mul(MOST_INPUTS + 1).saturating_add(r)) {
        Some(count) => *count,
        None => 0,
    }
}

fn set_way(ways: &mut Vec<u64>, n: usize, r: usize, count: u64) {
    if let Some(way) = ways.get_mut(n.saturating_mul(MOST_INPUTS + 1).saturating_add(r)) {
        *way = count;
    }
}

/// The value of a variable, if it has one.
fn value_of(assignment: &Assignment, variable: u32) -> Option<bool> {
    if variable == 0 || u64::from(variable) > assignment.vars() || variable > MOST_VARIABLE {
        return None;
    }
    if assignment.is_true(Lit::negative(variable)) {
        Some(false)
    } else if assignment.is_true(Lit::positive(variable)) {
        Some(true)
    } else {
        None
    }
}

/// The ids of a gate's clauses that may be false or force something, where this many of its inputs are false.
fn guess_of(
    ids: &mut Vec<u64>,
    ways: &[u64],
    gate: &Gate,
    count: usize,
    assignment: &Assignment,
) -> Result<(), AllocError> {
    let head = value_of(assignment, gate.head);
    if head == Some(false) {
        return Ok(());
    }
    if count < gate.size && head == None {
        return Ok(());
    }
    let (falses, open) = sides_of(gate, assignment);
    if count >= gate.size {
        ids.push(id_of(ways, gate, falses))?;
        return Ok(());
    }
    for place in 0..gate.inputs.len() {
        let own = bit(place);
        if open & own != 0 {
            ids.push(id_of(ways, gate, falses | own))?;
        }
    }
    Ok(())
}

/// The bit of an input's place.
fn bit(place: usize) -> u64 {
    1 << (place % 64)
}

/// The inputs that are false, and those that are open, as the bits of their places.
fn sides_of(gate: &Gate, assignment: &Assignment) -> (u64, u64) {
    let mut falses = 0;
    let mut open = 0;
    for (place, input) in gate.inputs.iter().enumerate() {
        match value_of(assignment, *input) {
            Some(false) => falses |= bit(place),
            Some(true) => {}
            None => open |= bit(place),
        }
    }
    (falses, open)
}

/// The id of the clause of the first inputs of these. Of sets that begin alike those with the next input come first.
fn id_of(ways: &[u64], gate: &Gate, chosen: u64) -> u64 {
    let mut id = gate.first;
    let mut left = gate.size;
    let mut behind = gate.inputs.len();
    for place in 0..gate.inputs.len() {
        behind = behind.saturating_sub(1);
        if left == 0 {
            return id;
        }
        if chosen & bit(place) != 0 {
            left -= 1;
        } else {
            id = id.saturating_add(way(ways, behind, left - 1));
        }
    }
    id
}
