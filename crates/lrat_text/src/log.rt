//! Logs of steps.
ghost use Rattle.std.specs.Prelude.{◌≡◌, ◌<◌, [], ◌∷◌, ◌++◌, length, slice_index_or, OnOk, OnErr};
ghost use Rattle.lrat_model.specs.Steps.{Addition, Deletion, step_of};
ghost use Rattle.lrat_text.specs.Lent.{lent_step};

use crate::arena::push_all;
use crate::entry::{Entry, push_lemma};
use crate::lent::{HintsRef, StepRef};
use lrat_model::{Lit, Step};
use std::alloc::{AllocError, Global};
use std::marker::Model;

/// The steps of a proof in order.
///
/// Their numbers lie one after another, those of a kind together: 4 bytes for each literal, 4 for each hint of a step whose
/// hints are all ids below 2^32 and 8 for each other one, 8 for each id of a deletion; and 48 for each step.
#[derive(Drop)]
pub struct Log {
    entries: Vec<Entry>,
    lits: Vec<Lit>,
    short: Vec<u32>,
    wide: Vec<i64>,
    ids: Vec<u64>,
}

impl Model for Log {
    ghost use Rattle.std.specs.Prelude.{List};
    ghost use Rattle.lrat_model.specs.Steps.{ProofStep};

    ghost Value = { List ProofStep };

    ghost use Rattle.lrat_text.specs.Logged.{shown, IsLog};

    ghost view = { shown };

    ghost invariant = { IsLog };
}

impl Log {
    /// No step. Takes no memory.
    pub fn new(alloc: Global) -> Log
        ensures { result ≡ [] }
    {
        Log {
            entries: Vec::new(alloc),
            lits: Vec::new(alloc),
            short: Vec::new(alloc),
            wide: Vec::new(alloc),
            ids: Vec::new(alloc),
        }
    }

    /// Adds a step after the others. Where memory runs out the log is as it was. Linear in its numbers, amortised.
    pub fn push(&mut self, step: Step) -> Result<(), AllocError>
        ensures pushed { OnOk result (self.new ≡ self.old ++ step_of step ∷ []) }
        ensures unchanged { OnErr result (self.new ≡ self.old) }
    {
        match &step {
            Step::Add { id, lits, hints } => self.push_addition(*id, lits, hints),
            Step::Delete { id, ids } => self.push_deletion(*id, ids),
        }
    }

    /// Adds a lemma after the other steps, as `push` does.
    pub fn push_addition(&mut self, id: u64, lits: &[Lit], hints: &[i64]) -> Result<(), AllocError>
        ensures pushed { OnOk result (self.new ≡ self.old ++ Addition id lits.now hints.now ∷ []) }
        ensures unchanged { OnErr result (self.new ≡ self.old) }
    {
        let entry = push_lemma(
            &mut self.lits,
            &mut self.short,
            &mut self.wide,
            id,
            lits,
            hints,
        )?;
        self.entries.push(entry)?;
        Ok(())
    }

    /// Adds a deletion after the other steps, as `push` does.
    pub fn push_deletion(&mut self, id: u64, ids: &[u64]) -> Result<(), AllocError>
        ensures pushed { OnOk result (self.new ≡ self.old ++ Deletion id ids.now ∷ []) }
        ensures unchanged { OnErr result (self.new ≡ self.old) }
    {
        let ids = push_all(&mut self.ids, ids)?;
        self.entries.push(Entry::Deletion { id, ids })?;
        Ok(())
    }

    /// Lends the step at this place, from 0: O(1).
    pub fn step(&self, place: usize) -> StepRef<'_>
        requires { place < length self.now }
        ensures { lent_step result ≡ slice_index_or self.now place (lent_step result) }
    {
        match self.entries[place] {
            Entry::Short { id, lits, hints } => StepRef::Add {
                id,
                lits: &self.lits[lits.start..lits.end],
                hints: HintsRef::Short(&self.short[hints.start..hints.end]),
            },
            Entry::Wide { id, lits, hints } => StepRef::Add {
                id,
                lits: &self.lits[lits.start..lits.end],
                hints: HintsRef::Wide(&self.wide[hints.start..hints.end]),
            },
            Entry::Deletion { id, ids } => StepRef::Delete {
                id,
                ids: &self.ids[ids.start..ids.end],
            },
        }
    }

    /// The number of steps: O(1).
    pub fn len(&self) -> usize
        ensures { result ≡ length self.now }
    {
        self.entries.len()
    }
}
