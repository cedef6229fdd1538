//! A store whose literals are counted, where that is of use.
ghost use Rattle.std.specs.Prelude.{◌≡◌, ◌<◌, ◌≤◌, [], true, None, Some, IfOk, IfSome, OnOk, OnErr, IfErr};
ghost use Rattle.lrat_model.specs.Clauses.{with_clause, without};
ghost use Rattle.lrat_model.specs.Steps.{deletion_fault};
ghost use Rattle.lrat_model.specs.Rat.{first_without};
ghost use Rattle.lrat_model.specs.declared.step.StepFault.TheVariants.{NoSuchClause};
ghost use Rattle.rat_candidates.specs.Groups.{group_id, ids_in};
ghost use Rattle.rat_candidates.specs.Occurrences.{occurrences};
ghost use Rattle.rat_candidates.specs.Kept.{NamesToo, IsCandidate, HasRoom};

use crate::counts::{count_all, count_anew, count_more, ids_less, place_of};
use crate::hints::named_times;
use crate::kept::KeptHints;
use crate::scan::scan;
use clause_store::Store;
use lrat_model::Lit;
use std::alloc::{AllocError, Global};
use std::marker::Model;

/// The clauses of a store, and how often each literal stands in them, if that is counted.
#[derive(Drop)]
pub struct CountedStore {
    store: Store,
    counts: Vec<u32>,
}

impl Model for CountedStore {
    ghost use Rattle.lrat_model.specs.Steps.{Database};
    ghost use Rattle.rat_candidates.specs.Counted.{AreCounted};

    ghost Value = { Database };

    ghost view = { λ s. s.store };

    ghost invariant = { λ s. AreCounted s.counts.items s.store.held };
}

impl CountedStore {
    /// The clauses of a store, of which nothing is counted. Takes no memory.
    pub fn new(alloc: Global, store: Store) -> CountedStore
        ensures { result ≡ store }
    {
        CountedStore {
            store,
            counts: Vec::new(alloc),
        }
    }

    /// The clauses of a store, with counts for the literals of this many variables: 8 bytes for each variable.
    /// O(variables, and literals of all clauses).
    pub fn counted(alloc: Global, store: Store, vars: u64) -> Result<CountedStore, AllocError>
        ensures { IfOk result (λ s. s ≡ store) }
    {
        let places = vars.saturating_mul(2).saturating_add(2) as usize;
        let mut counts = Vec::new(alloc);
        counts.resize(places, 0)?;
        count_all(&store, &mut counts);
        Ok(CountedStore { store, counts })
    }

    /// The clauses.
    pub fn store(&self) -> &Store
        ensures { result.now ≡ self.now }
    {
        &self.store
    }

    /// As `Store::push`.
    pub fn push(&mut self, id: u64, lits: &[Lit]) -> Result<(), AllocError>
        requires { self.old.last < id }
        ensures held { OnOk result (self.new.held ≡ with_clause self.old.held id lits.now) }
        ensures last { OnOk result (self.new.last ≡ id) }
        ensures unchanged { OnErr result (self.new ≡ self.old) }
    {
        self.store.push(id, lits)?;
        count_more(&mut self.counts, lits);
        Ok(())
    }

    /// As `Store::remove_all`. Before an `Err` all is counted anew: O(variables, and literals of all clauses).
    pub fn remove_all(&mut self, ids: &[u64]) -> Result<(), u64>
        ensures ok { OnOk result (deletion_fault self.old.held [] ids.now ≡ None) }
        ensures held { OnOk result (self.new.held ≡ without self.old.held ids.now) }
        ensures last { self.new.last ≡ self.old.last }
        ensures missing { IfErr result (λ id. deletion_fault self.old.held [] ids.now ≡ Some (NoSuchClause id)) }
        ensures unchanged { OnErr result (self.new ≡ self.old) }
    {
        // That ids rise is a clause of `last`.
        self.store.last();
        ids_less(&self.store, &mut self.counts, ids);
        let removed = self.store.remove_all(ids);
        if removed.is_err() {
            count_anew(&self.store, &mut self.counts);
        }
        removed
    }

    /// How often the literal stands in the clauses, or a greater number; nothing where that is not counted.
    fn most_times(&self, l: Lit) -> Option<u32>
        ensures { IfSome result (λ n. occurrences l self.now.held ≤ n) }
    {
        let place = place_of(l);
        if place >= self.counts.len() {
            return None;
        }
        let count = self.counts[place];
        if count == u32::MAX {
            return None;
        }
        Some(count)
    }

    /// The least id of a clause that has the literal and is named by no RAT hint.
    ///
    /// O(hints, and literals of the clauses that they name), where they name each such clause, the named ids rise, and literals
    /// are counted; else O(literals of all clauses that are held, and hints for each clause that has the literal).
    pub fn first_missing(&self, l: Lit, hints: &[i64]) -> Option<u64>
        ensures { result ≡ first_without self.now.held l (ids_in hints.now) }
    {
        if self.is_all_named(l, hints) {
            return None;
        }
        scan(&self.store, l, hints)
    }

    /// Whether the literal stands in the clauses that RAT hints name as often as in all. It may be so and not be told where
    /// their ids do not rise. O(hints, and literals of the clauses that they name).
    fn is_all_named(&self, l: Lit, hints: &[i64]) -> bool
        ensures { result ≡ true → first_without self.now.held l (ids_in hints.now) ≡ None }
    {
        let Some(count) = self.most_times(l) else {
            return false;
        };
        // That ids rise is a clause of `last`.
        self.store.last();
        u64::from(count) <= named_times(&self.store, l, hints)
    }

    /// No kept hint, and room for those of an addition, whose groups are for clauses that have this literal. Wants memory too
    /// where literals are not counted. O(1), but for the room.
    pub fn make_room(&self, kept: &mut KeptHints, l: Lit) -> Result<(), AllocError>
        ensures hints { OnOk result (kept.new.hints ≡ []) }
        ensures room { OnOk result (HasRoom self.now.held l kept.new) }
    {
        let Some(room) = self.most_times(l) else {
            return Err(AllocError);
        };
        kept.restart(room as usize)
    }

    /// Keeps a hint, which names a clause that has this literal, by its id. Takes no memory. O(1) where the ids rise, else
    /// O(kept hints).
    pub fn keep(&self, kept: &mut KeptHints, l: Lit, hint: i64, id: u64)
        requires names { Some id ≡ group_id hint }
        requires candidate { IsCandidate self.now.held l id }
        requires room { HasRoom self.now.held l kept.old }
        ensures named { NamesToo kept.old.hints id kept.new.hints }
        ensures room { HasRoom self.now.held l kept.new }
    {
        // That ids rise is a clause of `last`.
        self.store.last();
        kept.keep(hint, id);
    }
}
