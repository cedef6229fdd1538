//! The store.
ghost use Rattle.std.specs.Prelude.{◌≡◌, ◌≢◌, ℕ, ◌<◌, List, [], ◌∷◌, length, Some, None, OnOk, OnErr, IfErr, IfSome, AllPairs, is_some};
ghost use Rattle.std.specs.Option.{option_copied};
ghost use Rattle.lrat_model.specs.Literal.{Literal};
ghost use Rattle.lrat_model.specs.Clauses.{clause_at, with_clause, without};
ghost use Rattle.lrat_model.specs.Steps.{deletion_fault};
ghost use Rattle.lrat_model.specs.declared.step.StepFault.TheVariants.{NoSuchClause};
ghost use Rattle.clause_store.specs.Nearest.{IsFirstAbove};

use crate::compact::reclaim;
use crate::guess::Guesses;
use crate::index::{Entry, mark, mark_removed, place_above, place_of};
use crate::view::ClauseRef;
use lrat_model::Lit;
use std::alloc::{AllocError, Global};
use std::marker::Model;

/// Clauses under ids, and the last id: a database of `lrat_model`.
///
/// The literals of all clauses lie in one arena, in the order of ids. Clauses that are removed leave their room there, until it
/// is more than half of the whole: then all that is held is moved together. So memory goes by the most literals and clauses
/// that were held at a time.
#[derive(Drop)]
pub struct Store {
    arena: Vec<Lit>,
    entries: Vec<Entry>,
    guesses: Guesses,
    // The room of removed clauses, in literals and entries: it says only when to move what is held.
    removed: usize,
    last: u64,
}

impl Model for Store {
    ghost use Rattle.lrat_model.specs.Steps.{Database};

    ghost Value = { Database };

    ghost use Rattle.clause_store.specs.Arena.{shown, IsArena};

    ghost view = { shown };

    ghost invariant = { IsArena };
}

impl Store {
    /// No clause, and the last id 0. Takes no memory.
    pub fn new(alloc: Global) -> Store
        ensures held { result.held ≡ [] }
        ensures last { result.last ≡ 0 }
    {
        Store {
            arena: Vec::new(alloc),
            entries: Vec::new(alloc),
            guesses: Guesses::new(alloc),
            removed: 0,
            last: 0,
        }
    }

    /// The last id that was pushed, 0 where none was. A removal does not move it.
    pub fn last(&self) -> u64
        ensures value { result ≡ self.now.last }
        ensures none_at_zero { clause_at self.now.held 0 ≡ None }
        ensures none_above { (k : ℕ) → self.now.last < k → clause_at self.now.held k ≡ None }
        ensures rising { AllPairs (λ e f. e.0 < f.0) self.now.held }
    {
        self.last
    }

    /// Holds a clause under an id above the last one. Where memory runs out the store is as it was.
    /// O(literals), amortised.
    pub fn push(&mut self, id: u64, lits: &[Lit]) -> Result<(), AllocError>
        requires { self.old.last < id }
        ensures held { OnOk result (self.new.held ≡ with_clause self.old.held id lits.now) }
        ensures last { OnOk result (self.new.last ≡ id) }
        ensures unchanged { OnErr result (self.new ≡ self.old) }
    {
        let start = self.arena.len();
        self.arena.extend_from_slice(lits)?;
        let end = self.arena.len();
        self.entries.push(Entry {
            id,
            start,
            end,
            is_held: true,
        })?;
        self.guesses.see_last(&self.entries);
        self.last = id;
        Ok(())
    }

    /// Takes the clause of an id out, and gives whether there was one. Finds it as `lits` does, and O(its literals),
    /// amortised.
    pub fn remove(&mut self, id: u64) -> bool
        ensures found { result ≡ is_some (clause_at self.old.held id) }
        ensures held { self.new.held ≡ without self.old.held (id ∷ []) }
        ensures last { self.new.last ≡ self.old.last }
    {
        let Some(literals) = mark(&mut self.entries, &self.guesses, id, false) else {
            return false;
        };
        let room = literals.saturating_add(1);
        reclaim(
            &mut self.arena,
            &mut self.entries,
            &mut self.guesses,
            &mut self.removed,
            room,
        );
        true
    }

    /// Takes the clauses of these ids out, or none of them: `Err` has the first id that is not held,
    /// a second time in the list among them. Finds each as `lits` does, and O(their literals),
    /// amortised.
    pub fn remove_all(&mut self, ids: &[u64]) -> Result<(), u64>
        ensures ok { OnOk result (deletion_fault self.old.held [] ids.now ≡ None) }
        ensures held { OnOk result (self.new.held ≡ without self.old.held ids.now) }
        ensures last { self.new.last ≡ self.old.last }
        ensures missing { IfErr result (λ id. deletion_fault self.old.held [] ids.now ≡ Some (NoSuchClause id)) }
        ensures unchanged { OnErr result (self.new ≡ self.old) }
    {
        let literals = mark_removed(&mut self.entries, &self.guesses, ids)?;
        let room = literals.saturating_add(ids.len());
        reclaim(
            &mut self.arena,
            &mut self.entries,
            &mut self.guesses,
            &mut self.removed,
            room,
        );
        Ok(())
    }

    /// The literals under an id. O(1) where ids are dense, and else mostly; O(log n) for n clauses held at worst.
    pub fn lits(&self, id: u64) -> Option<&[Lit]>
        ensures { option_copied result ≡ clause_at self.now.held id }
    {
        let Some(place) = place_of(&self.entries, &self.guesses, id) else {
            return None;
        };
        let entry = self.entries[place];
        if entry.is_held {
            Some(&self.arena[entry.start..entry.end])
        } else {
            None
        }
    }

    /// The clause under an id, where it has K literals. As `lits` finds it.
    pub fn view<const K: usize>(&self, id: u64) -> Option<ClauseRef<'_, K>>
        ensures some { IfSome result (λ clause. clause_at self.now.held id ≡ Some clause) }
        ensures width { IfSome result (λ clause. length clause ≡ K) }
        ensures none { result ≡ None → (clause : List Literal) → clause_at self.now.held id ≡ Some clause → length clause ≢ K }
    {
        match self.lits(id) {
            Some(lits) if lits.len() == K => Some(ClauseRef::of(lits)),
            _ => None,
        }
    }

    /// The least id above this one that is held, and its literals: with `first_above(0)` first, each
    /// clause in the order of ids. O(1) where the id is that of a clause, and O(1) for each removed one that stands between;
    /// else O(log n) for n clauses held.
    pub fn first_above(&self, id: u64) -> Option<(u64, &[Lit])>
        ensures some { IfSome result (λ e. IsFirstAbove self.now.held id e.0 e.1.now) }
        ensures none { result ≡ None → (k : ℕ) → id < k → clause_at self.now.held k ≡ None }
        ensures none_at_zero { clause_at self.now.held 0 ≡ None }
    {
        let start = place_above(&self.entries, &self.guesses, id);
        for entry in &self.entries[start..] {
            if entry.is_held {
                return Some((entry.id, &self.arena[entry.start..entry.end]));
            }
        }
        None
    }
}
