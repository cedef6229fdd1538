//! Clauses with their ids, the literals in one arena.
ghost use Rattle.std.specs.Prelude.{◌≡◌, ◌≢◌, ◌⊎◌, ℕ, ◌+◌, ◌<◌, ◌≤◌, ◌++◌, [], ◌∷◌, List, Some, All, AllPairs, IfOk, OnOk, OnErr, if◌then◌else◌, length, slice_index_or};
ghost use Rattle.std.specs.List.{AllWithin};
ghost use Rattle.std.specs.List.Sorted.{IsNonDecreasingBy};
ghost use Rattle.lrat_model.specs.Literal.{Literal};
ghost use Rattle.lrat_model.specs.Clauses.{Held, clause_at, without};
ghost use Rattle.cdcl_core.specs.Watches.{id_at, lits_at};

use crate::memory::is_among;
use lrat_model::Lit;
use std::alloc::{AllocError, Global};
use std::marker::Model;

/// Where the literals of a clause stand, in numbers of 32 bits, since propagation waits for the load of places.
#[derive(Clone, Copy)]
pub struct Place {
    pub id: u64,
    pub start: u32,
    pub end: u32,
}

/// Clauses, seen as the list of their ids and literals. The first of them, as many as `dense` says, have the
/// ids from 1 on: these ids are told without a look at the places. Where ids have gaps, the place of most of
/// them is guessed by a table.
#[derive(Drop)]
pub struct Clauses {
    arena: Vec<Lit>,
    places: Vec<Place>,
    dense: usize,
    guesses: Vec<u32>,
}

impl Model for Clauses {
    ghost use Rattle.lrat_model.specs.Clauses.{Held};

    ghost Value = { Held };

    ghost use Rattle.cdcl_core.specs.Arena.{shown, IsArena};

    ghost view = { shown };

    ghost invariant = { IsArena };
}

impl Clauses {
    /// No clause.
    pub fn new(alloc: Global) -> Clauses
        ensures { result ≡ [] }
    {
        Clauses {
            arena: Vec::new(alloc),
            places: Vec::new(alloc),
            dense: 0,
            guesses: Vec::new(alloc),
        }
    }

    /// No clause, with a table of guesses for this many.
    fn with_guesses(alloc: Global, count: usize) -> Result<Clauses, AllocError>
        ensures { IfOk result (λ clauses. clauses ≡ []) }
    {
        let guesses = vec![in alloc; 0; count.saturating_mul(2)]?;
        Ok(Clauses {
            arena: Vec::new(alloc),
            places: Vec::new(alloc),
            dense: 0,
            guesses,
        })
    }

    /// How many clauses there are.
    pub fn len(&self) -> usize
        ensures { result ≡ length self.now }
    {
        self.places.len()
    }

    /// The id of the clause at a place.
    pub fn id(&self, place: usize) -> u64
        requires { place < length self.now }
        ensures { result ≡ id_at self.now place }
    {
        if place < self.dense {
            place as u64 + 1
        } else {
            self.places[place].id
        }
    }

    /// The literals of the clause at a place.
    pub fn lits(&self, place: usize) -> &[Lit]
        requires { place < length self.now }
        ensures { result.now ≡ lits_at self.now place }
    {
        let place = self.places[place];
        &self.arena[place.start as usize..place.end as usize]
    }

    /// The literals of the clause of an id: O(1) where ids count up from 1 or the table knows the place, else
    /// O(log n) of n clauses.
    pub fn under(&self, id: u64) -> &[Lit]
        requires { AllPairs (λ e f. e.0 < f.0) self.now }
        ensures { (clause : List Literal) → clause_at self.now id ≡ Some clause → result.now ≡ clause }
    {
        let place = place_of(&self.places, &self.guesses, id);
        if place < self.places.len() {
            self.lits(place)
        } else {
            &[]
        }
    }

    /// The place of the clause of an id, the number of clauses where it has none: as fast as `under`.
    pub fn place(&self, id: u64) -> usize
        requires { AllPairs (λ e f. e.0 < f.0) self.now }
    {
        place_of(&self.places, &self.guesses, id)
    }

    /// Takes the last clause away.
    pub fn pop(&mut self)
        requires { 0 < length self.old }
        ensures { (front : Held) (e : ℕ × List Literal) → self.old ≡ front ++ e ∷ [] → self.new ≡ front }
    {
        let left = self.places.len() - 1;
        self.places.truncate(left);
        self.dense = self.dense.min(left);
    }

    /// A copy of all clauses but those of these ids. Linear in the literals, and O(log n) a clause of n ids.
    pub fn all_but(&self, alloc: Global, ids: &[u64]) -> Result<Clauses, AllocError>
        requires { IsNonDecreasingBy (λ k. k) ids.now }
        ensures { IfOk result (λ clauses. clauses ≡ without self.now ids.now) }
    {
        let mut clauses = Clauses::with_guesses(alloc, self.len())?;
        self.copy_others(ids, &mut clauses)?;
        Ok(clauses)
    }

    /// Copies all clauses but those of these ids.
    fn copy_others(&self, ids: &[u64], clauses: &mut Clauses) -> Result<(), AllocError>
        requires sorted { IsNonDecreasingBy (λ k. k) ids.now }
        requires empty { clauses.old ≡ [] }
        ensures { OnOk result (clauses.new ≡ without self.now ids.now) }
    {
        let mut place = 0;
        while place < self.len() {
            let id = self.id(place);
            clauses.put(id, self.lits(place), !is_among(ids, id))?;
            place += 1;
        }
        Ok(())
    }

    /// One more clause, if it is one of them.
    fn put(&mut self, id: u64, lits: &[Lit], is_one: bool) -> Result<(), AllocError>
        ensures { OnOk result (self.new ≡ self.old ++ (if is_one then (id, lits.now) ∷ [] else [])) }
    {
        if is_one {
            self.push(id, lits)?;
        }
        Ok(())
    }

    /// One more clause. More literals than 32 bits can name are want of memory.
    pub fn push(&mut self, id: u64, lits: &[Lit]) -> Result<(), AllocError>
        ensures pushed { OnOk result (self.new ≡ self.old ++ (id, lits.now) ∷ []) }
        ensures unchanged { OnErr result (self.new ≡ self.old) }
    {
        let start = self.arena.len();
        self.arena.extend_from_slice(lits)?;
        let place = place_between(id, start, self.arena.len())?;
        self.places.push(place)?;
        note(&mut self.guesses, id, self.places.len());
        self.dense = dense_with(self.dense, self.places.len(), id);
        Ok(())
    }
}

/// The place of the literals between two of the arena, where it has one.
fn place_between(id: u64, start: usize, end: usize) -> Result<Place, AllocError>
    ensures { IfOk result (λ place. (place.id ≡ id) × (place.start ≡ start) × (place.end ≡ end)) }
{
    if start > u32::MAX as usize || end > u32::MAX as usize {
        return Err(AllocError);
    }
    Ok(Place {
        id,
        start: start as u32,
        end: end as u32,
    })
}

/// How many clauses from the first on have the ids from 1 on, now that there are this many, the last under an id.
fn dense_with(dense: usize, count: usize, id: u64) -> usize
    requires { dense < count }
    ensures { (result ≡ dense) ⊎ ((result ≡ count) × (dense + 1 ≡ count) × (id ≡ count)) }
{
    if dense + 1 == count && id == count as u64 {
        count
    } else {
        dense
    }
}

/// Writes down the place of an id, now that there are this many.
fn note(guesses: &mut Vec<u32>, id: u64, count: usize) {
    let room = guesses.len() as u64;
    if 0 < room && 0 < count && count <= u32::MAX as usize {
        guesses[(id % room) as usize] = count as u32 - 1;
    }
}

/// Where an id may stand.
fn guess_of(guesses: &[u32], id: u64) -> usize {
    let room = guesses.len() as u64;
    if 0 < room {
        guesses[(id % room) as usize] as usize
    } else {
        0
    }
}

/// The place of an id, the number of places where it has none: O(1) where ids count up from 1 or the table knows
/// the place, else O(log n).
fn place_of(places: &[Place], guesses: &[u32], id: u64) -> usize
    requires { AllPairs (λ p q. p.id < q.id) places.now }
    ensures bound { result ≤ length places.now }
    ensures found { result < length places.now → (d : Place) → (slice_index_or places.now result d).id ≡ id }
    ensures none { result ≡ length places.now → All (λ p. p.id ≢ id) places.now }
{
    if 0 < id && id <= places.len() as u64 {
        let guess = id as usize - 1;
        if places[guess].id == id {
            return guess;
        }
    }
    let guess = guess_of(guesses, id);
    if guess < places.len() && places[guess].id == id {
        return guess;
    }
    let above = place_above(places, id);
    if above > 0 {
        let place = above - 1;
        if places[place].id == id {
            return place;
        }
    }
    places.len()
}

/// The first place of a greater id.
fn place_above(places: &[Place], id: u64) -> usize
    requires { AllPairs (λ p q. p.id < q.id) places.now }
    ensures bound { result ≤ length places.now }
    ensures below { AllWithin (λ p. p.id ≤ id) places.now 0 result }
    ensures above { AllWithin (λ p. id < p.id) places.now result (length places.now) }
{
    places.partition_point(|p| p.id <= id)
}
