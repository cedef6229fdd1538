//! The gates that are written out, as a search counts them.
use cdcl_core::Gate;
use counter_expansion::{Counter, Origin, Written};
use std::alloc::{AllocError, Global};

/// For each head of a gate that is written out its inputs and its clauses: those of sets of inputs that stand one after another,
/// with one head. What is told here is looked at before it is counted. Linear in the clauses.
pub fn counted_gates(alloc: Global, written: &Written) -> Result<Vec<Gate>, AllocError> {
    let mut gates: Vec<Gate> = Vec::new(alloc);
    let mut before: Option<(u32, u32)> = None;
    for (place, origin) in written.origins.iter().enumerate() {
        let id = place as u64 + 1;
        let now = set_at(written, *origin, id);
        if let Some((number, head)) = now
            && now != before
        {
            push_gate(alloc, &mut gates, written, number, head, id)?;
        }
        before = now;
    }
    Ok(gates)
}

/// The gate and the head of the clause of this id, where it is that of a set of inputs.
fn set_at(written: &Written, origin: Origin, id: u64) -> Option<(u32, u32)> {
    match origin {
        Origin::Formula(_) => None,
        Origin::Gate { number, head: _ } => {
            let first = written.store.lits(id)?.first()?;
            Some((number, first.variable()))
        }
    }
}

/// The gate of this number for one of its heads, whose clauses begin at this id.
fn push_gate(
    alloc: Global,
    gates: &mut Vec<Gate>,
    written: &Written,
    number: u32,
    head: u32,
    id: u64,
) -> Result<(), AllocError> {
    if let Some(counter) = written.counters.get(number as usize)
        && let Some(lits) = written.store.lits(id)
    {
        gates.push(Gate {
            head,
            inputs: inputs_but(alloc, counter, head)?,
            size: lits.len().saturating_sub(1),
            first: id,
        })?;
    }
    Ok(())
}

/// The inputs of a gate but for its head: with that a set's clause would be a tautology.
fn inputs_but(alloc: Global, counter: &Counter, head: u32) -> Result<Vec<u32>, AllocError> {
    let mut inputs = Vec::new(alloc);
    for input in &counter.inputs {
        if *input != head {
            inputs.push(*input)?;
        }
    }
    Ok(inputs)
}
