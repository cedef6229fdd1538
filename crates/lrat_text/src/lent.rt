//! Steps that are borrowed, where they are not kept as a `Step` each.
ghost use Rattle.std.specs.Prelude.{◌≡◌, map, pos, IfOk};
ghost use Rattle.lrat_model.specs.Steps.{step_of};
ghost use Rattle.lrat_text.specs.Lent.{lent_hints, lent_step};

use lrat_model::{Lit, Step};
use std::alloc::{AllocError, Global};

/// A step that another value owns.
#[derive(Clone, Copy)]
pub enum StepRef<'a> {
    /// A lemma, with the ids of the clauses that lead to a conflict from its negation.
    Add {
        id: u64,
        lits: &'a [Lit],
        hints: HintsRef<'a>,
    },
    /// The clauses of these ids are held no more.
    Delete {
        id: u64,
        ids: &'a [u64],
    },
}

/// Hints that another value owns: each in 4 bytes where all are ids below 2^32, else each in 8.
#[derive(Clone, Copy)]
pub enum HintsRef<'a> {
    Short(&'a [u32]),
    Wide(&'a [i64]),
}

impl<'a> StepRef<'a> {
    /// Lends a step.
    pub fn of(step: &'a Step) -> StepRef<'a>
        ensures { lent_step result ≡ step_of step.now }
    {
        match step {
            Step::Add { id, lits, hints } => StepRef::Add {
                id: *id,
                lits,
                hints: HintsRef::Wide(hints),
            },
            Step::Delete { id, ids } => StepRef::Delete { id: *id, ids },
        }
    }

    /// A step of its own with the same numbers: linear in them.
    pub fn to_step(&self, alloc: Global) -> Result<Step, AllocError>
        ensures { IfOk result (λ step. step_of step ≡ lent_step self.now) }
    {
        match *self {
            StepRef::Add { id, lits, hints } => Ok(Step::Add {
                id,
                lits: Vec::from_slice(alloc, lits)?,
                hints: hints.to_vec(alloc)?,
            }),
            StepRef::Delete { id, ids } => Ok(Step::Delete {
                id,
                ids: Vec::from_slice(alloc, ids)?,
            }),
        }
    }
}

impl<'a> HintsRef<'a> {
    /// The hints in a list of their own: linear in them.
    fn to_vec(&self, alloc: Global) -> Result<Vec<i64>, AllocError>
        ensures { IfOk result (λ hints. hints.items ≡ lent_hints self.now) }
    {
        match *self {
            HintsRef::Short(ids) => widened(alloc, ids),
            HintsRef::Wide(hints) => Vec::from_slice(alloc, hints),
        }
    }
}

/// The ids as hints.
fn widened(alloc: Global, ids: &[u32]) -> Result<Vec<i64>, AllocError>
    ensures { IfOk result (λ hints. hints.items ≡ map pos ids.now) }
{
    let mut hints = Vec::with_capacity(alloc, ids.len())?;
    for id in ids {
        hints.push(i64::from(*id))?;
    }
    Ok(hints)
}
