//! The ids that RAT hints name, and how often a literal stands in the clauses of these ids.
ghost use Rattle.std.specs.Prelude.{◌≡◌, ℕ, ◌<◌, ◌≤◌, ◌+◌, List, [], ◌∷◌, ◌++◌, false};
ghost use Rattle.std.specs.List.{list_any};
ghost use Rattle.lrat_model.specs.Clauses.{has_id};
ghost use Rattle.rat_candidates.specs.Groups.{group_id, names, ids_in};
ghost use Rattle.rat_candidates.specs.Occurrences.{times, occurrences_in};
ghost use Rattle.rat_candidates.specs.Rising.{IdsRise};
ghost use Rattle.rat_candidates.specs.Named.{AreNamed};

use clause_store::Store;
use lrat_model::Lit;

/// The id that a RAT hint names, if it is one: such a hint is negative.
pub fn group_id(hint: i64) -> Option<u64>
    ensures { result ≡ group_id hint }
{
    if hint < 0 {
        Some(hint.unsigned_abs())
    } else {
        None
    }
}

/// Whether the hint is a RAT hint for this id.
fn names(hint: i64, id: u64) -> bool
    ensures { result ≡ names hint id }
{
    hint < 0 && hint.unsigned_abs() == id
}

/// Whether a RAT hint names this id. O(hints).
pub fn has_group(hints: &[i64], id: u64) -> bool
    ensures { result ≡ list_any (λ h. names h id) hints.now }
{
    hints.iter().any(|hint| names(*hint, id))
}

/// The highest id that RAT hints named so far, and how often the literal stands in the clauses of those that rose.
#[derive(Clone, Copy)]
pub struct Named {
    pub highest: u64,
    pub count: u64,
}

/// How often the literal stands in the clause.
fn times(l: Lit, clause: &[Lit]) -> u64
    ensures { result ≡ times l clause.now }
{
    let mut count = 0;
    for m in clause {
        if l.same(*m) {
            count += 1;
        }
    }
    count
}

/// The same in the clause of an id, if it is held.
fn times_at(store: &Store, l: Lit, id: u64) -> u64
    requires { IdsRise store.now.held }
    ensures { (ids : List ℕ) → (has_id ids id ≡ false) → result + occurrences_in l ids store.now.held ≤ occurrences_in l (ids ++ id ∷ []) store.now.held }
{
    match store.lits(id) {
        Some(clause) => times(l, clause),
        None => 0,
    }
}

/// One hint more. An id that does not rise is left out.
fn name_one(store: &Store, l: Lit, named: Named, hint: i64) -> Named
    requires { IdsRise store.now.held }
    ensures { (ids : List ℕ) → AreNamed store.now.held l ids named → AreNamed store.now.held l (ids ++ ids_in (hint ∷ [])) result }
{
    let Some(id) = group_id(hint) else {
        return named;
    };
    if id <= named.highest {
        return named;
    }
    let count = times_at(store, l, id);
    Named {
        highest: id,
        count: named.count.saturating_add(count),
    }
}

/// How often the literal stands in the clauses that RAT hints name, at least: exactly so often where their ids rise.
/// O(hints, and literals of the clauses that they name).
pub fn named_times(store: &Store, l: Lit, hints: &[i64]) -> u64
    requires { IdsRise store.now.held }
    ensures { result ≤ occurrences_in l (ids_in hints.now) store.now.held }
{
    let mut named = Named {
        highest: 0,
        count: 0,
    };
    for hint in hints {
        named = name_one(store, l, named, *hint);
    }
    named.count
}
