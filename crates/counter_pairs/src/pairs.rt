//! The pairs of counts of two small gates that come to more than the inputs that both have met.

use crate::sides::Gate;
use lrat_model::Lit;
use search_heuristics::RowPair;
use std::alloc::{AllocError, Global};

/// A row of a gate's counter.
#[derive(Clone, Copy)]
struct Row<'a> {
    gate: &'a Gate,
    row: u32,
}

impl Row<'_> {
    /// How many counts the row has.
    fn width(&self) -> u32 {
        self.row.min(self.gate.wanted.min(1 << 31) as u32)
    }

    /// That this many inputs up to this row are true.
    fn literal(&self, count: u32) -> Option<Lit> {
        let first = *self.gate.rows.get((self.row as usize).checked_sub(1)?)?;
        let x = first.saturating_add(count.checked_sub(1)?);
        if 0 < x && x < 1 << 31 {
            Some(Lit::positive(x))
        } else {
            None
        }
    }
}

/// The pairs along these steps: of each new row with the row of the other gate before it, and with the one beside it.
pub fn pairs_along(
    alloc: Global,
    first: &Gate,
    other: &Gate,
    steps: &[RowPair],
) -> Result<Vec<Vec<Lit>>, AllocError> {
    let mut pairs = Vec::new(alloc);
    let (mut row, mut above) = (0, 0);
    for step in steps {
        let own = Row {
            gate: first,
            row: step.row,
        };
        let before = Row {
            gate: other,
            row: above,
        };
        let beside = Row {
            gate: other,
            row: step.other,
        };
        if step.row > row {
            push_pairs(own, before, step.wanted, &mut pairs)?;
        }
        if step.other > above {
            push_pairs(beside, own, step.wanted, &mut pairs)?;
        }
        row = step.row;
        above = step.other;
    }
    Ok(pairs)
}

/// The pairs of counts of two rows that come to this many.
fn push_pairs(
    first: Row<'_>,
    other: Row<'_>,
    wanted: u32,
    pairs: &mut Vec<Vec<Lit>>,
) -> Result<(), AllocError> {
    for before in 0..first.width() {
        let count = before + 1;
        if let Some(l) = first.literal(count) {
            push_with(l, other, wanted.saturating_sub(count), pairs)?;
        }
    }
    Ok(())
}

/// The pairs of a literal with each count of a row that is at least this many.
fn push_with(
    l: Lit,
    other: Row<'_>,
    least: u32,
    pairs: &mut Vec<Vec<Lit>>,
) -> Result<(), AllocError> {
    for before in 0..other.width() {
        let count = before + 1;
        if count >= least
            && let Some(m) = other.literal(count)
        {
            let mut pair = Vec::new(*pairs.allocator());
            pair.push(l)?;
            pair.push(m)?;
            pairs.push(pair)?;
        }
    }
    Ok(())
}
