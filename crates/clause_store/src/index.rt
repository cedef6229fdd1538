//! The index of an arena.
ghost use Rattle.std.specs.Prelude.{◌≡◌, ◌≢◌, ◌<◌, ◌≤◌, List, [], ◌∷◌, Some, None, true, false, length, All, IfSome, OnOk, OnErr, IfErr, is_some};
ghost use Rattle.std.specs.List.{AllWithin, HoldsAt};
ghost use Rattle.std.specs.Bool.{OnTrue};
ghost use Rattle.lrat_model.specs.Literal.{Literal};
ghost use Rattle.lrat_model.specs.Steps.{deletion_fault};
ghost use Rattle.lrat_model.specs.declared.step.StepFault.TheVariants.{NoSuchClause};
ghost use Rattle.clause_store.specs.Entries.{IsRising, AreForward, is_held_in, marked};
ghost use Rattle.clause_store.specs.Shown.{held_in};

use crate::guess::Guesses;

/// Where the literals of a clause stand in the arena, and whether the clause is held still.
#[derive(Clone, Copy)]
pub struct Entry {
    pub id: u64,
    pub start: usize,
    pub end: usize,
    pub is_held: bool,
}

/// The place of the first entry above an id, by binary search.
fn search_above(entries: &[Entry], id: u64) -> usize
    requires { IsRising entries.now }
    ensures bound { result ≤ length entries.now }
    ensures below { AllWithin (λ e. e.id ≤ id) entries.now 0 result }
    ensures above { AllWithin (λ e. id < e.id) entries.now result (length entries.now) }
{
    entries.partition_point(|entry| entry.id <= id)
}

/// Whether the entry of the id stands at this place.
fn stands_at(entries: &[Entry], id: u64, place: usize) -> bool
    ensures { OnTrue result ((place < length entries.now) × HoldsAt (λ e. e.id ≡ id) entries.now place) }
{
    match entries.get(place) {
        Some(entry) => entry.id == id,
        None => false,
    }
}

/// The place of the first entry above an id. O(1) where the guess at the id's place is right, else O(log n) for n entries.
pub fn place_above(entries: &[Entry], guesses: &Guesses, id: u64) -> usize
    requires { IsRising entries.now }
    ensures bound { result ≤ length entries.now }
    ensures below { AllWithin (λ e. e.id ≤ id) entries.now 0 result }
    ensures above { AllWithin (λ e. id < e.id) entries.now result (length entries.now) }
{
    let guess = guesses.place(entries, id);
    if stands_at(entries, id, guess) {
        guess + 1
    } else {
        search_above(entries, id)
    }
}

/// The place of the entry of an id. O(1) where the guess at it is right, else O(log n) for n entries.
pub fn place_of(entries: &[Entry], guesses: &Guesses, id: u64) -> Option<usize>
    requires { IsRising entries.now }
    ensures some { IfSome result (λ place. (place < length entries.now) × HoldsAt (λ e. e.id ≡ id) entries.now place) }
    ensures none { result ≡ None → All (λ e. e.id ≢ id) entries.now }
{
    let guess = guesses.place(entries, id);
    if stands_at(entries, id, guess) {
        return Some(guess);
    }
    let above = search_above(entries, id);
    if above == 0 {
        return None;
    }
    let place = above - 1;
    if entries[place].id == id {
        Some(place)
    } else {
        None
    }
}

/// Marks the entry of an id as held, or as held no more. Gives how many literals it has, where it was held.
pub fn mark(entries: &mut [Entry], guesses: &Guesses, id: u64, is_held: bool) -> Option<usize>
    requires rising { IsRising entries.old }
    requires forward { AreForward entries.old }
    ensures was { is_some result ≡ is_held_in entries.old id }
    ensures marked { entries.new ≡ marked entries.old (id ∷ []) is_held }
{
    let Some(place) = place_of(entries, guesses, id) else {
        return None;
    };
    let entry = entries[place];
    entries[place].is_held = is_held;
    if entry.is_held {
        Some(entry.end - entry.start)
    } else {
        None
    }
}

/// Marks the entries of these ids as held no more, and gives how many literals they have; or marks none of them: `Err` has
/// the first id that is not held, a second time in the list among them.
pub fn mark_removed(entries: &mut [Entry], guesses: &Guesses, ids: &[u64]) -> Result<usize, u64>
    requires rising { IsRising entries.old }
    requires forward { AreForward entries.old }
    ensures ok { (arena : List Literal) → OnOk result (deletion_fault (held_in arena entries.old) [] ids.now ≡ None) }
    ensures marked { OnOk result (entries.new ≡ marked entries.old ids.now false) }
    ensures missing { (arena : List Literal) → IfErr result (λ id. deletion_fault (held_in arena entries.old) [] ids.now ≡ Some (NoSuchClause id)) }
    ensures unchanged { OnErr result (entries.new ≡ entries.old) }
{
    let mut literals: usize = 0;
    for (i, id) in ids.iter().enumerate() {
        let Some(more) = mark(entries, guesses, *id, false) else {
            mark_held(entries, guesses, &ids[..i]);
            return Err(*id);
        };
        literals = literals.saturating_add(more);
    }
    Ok(literals)
}

/// Marks the entries of these ids as held.
fn mark_held(entries: &mut [Entry], guesses: &Guesses, ids: &[u64])
    requires rising { IsRising entries.old }
    requires forward { AreForward entries.old }
    ensures { entries.new ≡ marked entries.old ids.now true }
{
    for id in ids {
        mark(entries, guesses, *id, true);
    }
}
