//! How often each literal stands in clauses: a number at the place of the literal. No number is too low; one at the greatest
//! value says nothing, and neither does one that is not there.
ghost use Rattle.std.specs.Prelude.{◌≡◌, ℕ, ◌+◌, ◌-◌, ◌<◌, List, [], ◌∷◌};
ghost use Rattle.lrat_model.specs.Literal.{Literal};
ghost use Rattle.lrat_model.specs.Clauses.{clause_at};
ghost use Rattle.rat_candidates.specs.Occurrences.{times, occurrences};
ghost use Rattle.rat_candidates.specs.Counted.{place_of, IsOver, times_found, listed};

use clause_store::Store;
use lrat_model::Lit;

/// The place of a literal among the counts.
pub fn place_of(l: Lit) -> usize
    ensures { result ≡ place_of l }
{
    let place = 2 * l.variable() as usize;
    if l.number() > 0 { place } else { place + 1 }
}

/// Counts a literal once more.
fn one_more(counts: &mut Vec<u32>, l: Lit)
    ensures { (k : Literal) (n : ℕ) → IsOver counts.old.items k n → IsOver counts.new.items k (n + times k (l ∷ [])) }
{
    let place = place_of(l);
    if place < counts.len() {
        counts[place] = counts[place].saturating_add(1);
    }
}

/// Counts a literal once less.
fn one_less(counts: &mut Vec<u32>, l: Lit)
    ensures { (k : Literal) (n : ℕ) → IsOver counts.old.items k n → IsOver counts.new.items k (n - times k (l ∷ [])) }
{
    let place = place_of(l);
    if place < counts.len() && counts[place] < u32::MAX {
        counts[place] = counts[place].saturating_sub(1);
    }
}

/// Counts the literals of one clause more. O(its literals), or O(1) where nothing is counted.
pub fn count_more(counts: &mut Vec<u32>, clause: &[Lit])
    ensures { (k : Literal) (n : ℕ) → IsOver counts.old.items k n → IsOver counts.new.items k (n + times k clause.now) }
{
    if counts.is_empty() {
        return;
    }
    for l in clause {
        one_more(counts, *l);
    }
}

/// Counts the literals of one clause less. O(its literals).
fn count_less(counts: &mut Vec<u32>, clause: &[Lit])
    ensures { (k : Literal) (n : ℕ) → IsOver counts.old.items k n → IsOver counts.new.items k (n - times k clause.now) }
{
    for l in clause {
        one_less(counts, *l);
    }
}

/// Counts the clause of an id less, if it is held.
fn id_less(store: &Store, counts: &mut Vec<u32>, id: u64)
    ensures { (k : Literal) (n : ℕ) → IsOver counts.old.items k n → IsOver counts.new.items k (n - times_found k (clause_at store.now.held id)) }
{
    if let Some(clause) = store.lits(id) {
        count_less(counts, clause);
    }
}

/// Counts the clauses of these ids less. O(their literals), and what it takes to find each; or O(1) where nothing is counted.
pub fn ids_less(store: &Store, counts: &mut Vec<u32>, ids: &[u64])
    ensures { (k : Literal) (n : ℕ) → IsOver counts.old.items k n → IsOver counts.new.items k (n - listed k store.now.held ids.now) }
{
    if counts.is_empty() {
        return;
    }
    for id in ids {
        id_less(store, counts, *id);
    }
}

/// Counts all clauses of a store, whatever was counted before. O(their literals).
pub fn count_all(store: &Store, counts: &mut Vec<u32>)
    ensures { (k : Literal) → IsOver counts.new.items k (occurrences k store.now.held) }
{
    let last = store.last();
    let mut above = 0;
    while above < last {
        let Some((next, clause)) = store.first_above(above) else {
            return;
        };
        count_more(counts, clause);
        above = next;
    }
}

/// Counts all clauses of a store, in the room of the counts that are there. O(counts, and literals of the clauses).
pub fn count_anew(store: &Store, counts: &mut Vec<u32>)
    ensures { (k : Literal) → IsOver counts.new.items k (occurrences k store.now.held) }
{
    let places = counts.len();
    counts.clear();
    if places > 0 && counts.resize(places, 0).is_ok() {
        count_all(store, counts);
    }
}
