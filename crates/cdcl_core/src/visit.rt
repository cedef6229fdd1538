//! A clause is visited that watches a literal which became false.
ghost use Rattle.std.specs.Prelude.{◌≡◌, ◌≢◌, ◌⊎◌, ℕ, ◌<◌, ◌≤◌, ◌++◌, [], ◌∷◌, true, false, List, Ok, Some, IfSome, OnOk, None, length};
ghost use Rattle.lrat_model.specs.Literal.{Literal, has, negated, same, variable_of};
ghost use Rattle.cdcl_core.specs.Fixpoint.{IsConflict};
ghost use Rattle.cdcl_core.specs.Watches.{lits_at, pair_at, IsPropagating, IsShort, IsSound, IsVisiting};
ghost use Rattle.cdcl_core.specs.Sights.{IsSeen};

use crate::clauses::Clauses;
use crate::watches::{Pair, Watch, WatchLists};
use assignment_trail::Assignment;
use clause_store::{ClauseView, LongRef};
use lrat_model::Lit;
use std::alloc::AllocError;

/// From this many literals on a clause is long.
const LONG: usize = 32;

/// The other literal that is watched, where this one is and differs from it.
fn other_of(pair: Pair, l: Lit) -> Option<Lit>
    ensures some { IfSome result (λ o. (same pair.first pair.second ≡ false) × (((pair.first ≡ l) × (pair.second ≡ o)) ⊎ ((pair.second ≡ l) × (pair.first ≡ o)))) }
    ensures none { result ≡ None → same pair.first pair.second ≡ false → (pair.first ≢ l) × (pair.second ≢ l) }
{
    if pair.first.same(pair.second) {
        None
    } else if pair.first.same(l) {
        Some(pair.second)
    } else if pair.second.same(l) {
        Some(pair.first)
    } else {
        None
    }
}

/// The first literal from a place on that is not false, and is another one. O(literals).
fn find_free<V: ClauseView>(
    assignment: &Assignment,
    clause: &V,
    other: Lit,
    from: usize,
) -> Option<Lit>
    requires { (l : Literal) → has (V.literals clause.now) l ≡ true → variable_of l ≤ assignment.now.vars }
    ensures some { IfSome result (λ m. (has (V.literals clause.now) m ≡ true) × (same m other ≡ false) × (has assignment.now.trues (negated m) ≡ false)) }
    ensures none { result ≡ None → from ≡ 0 → (m : Literal) → has (V.literals clause.now) m ≡ true → (m ≡ other) ⊎ (has assignment.now.trues (negated m) ≡ true) }
{
    for i in from..clause.len() {
        let m = clause.at(i);
        if !m.same(other) && !assignment.is_true(m.negated()) {
            return Some(m);
        }
    }
    None
}

/// A literal that is not false, and is another one. Of a long clause it is looked for from a place on that depends on
/// the literal which became false, and then from the first, so that the false literals that stand first are not gone
/// through each time; of a short one that would cost more than it saves. O(literals).
fn find_watch<V: ClauseView>(assignment: &Assignment, clause: &V, other: Lit, l: Lit) -> Option<Lit>
    requires { (l : Literal) → has (V.literals clause.now) l ≡ true → variable_of l ≤ assignment.now.vars }
    ensures some { IfSome result (λ m. (has (V.literals clause.now) m ≡ true) × (same m other ≡ false) × (has assignment.now.trues (negated m) ≡ false)) }
    ensures none { result ≡ None → (m : Literal) → has (V.literals clause.now) m ≡ true → (m ≡ other) ⊎ (has assignment.now.trues (negated m) ≡ true) }
{
    let count = clause.len();
    if count >= LONG {
        let from = l.variable() as usize % count;
        if let Some(m) = find_free(assignment, clause, other, from) {
            return Some(m);
        }
    }
    find_free(assignment, clause, other, 0)
}

/// What is seen of a clause that watches a literal which became false: it is true by this literal; it watches
/// other literals; beside the first it may watch the second, with this blocker and third literal; it forces
/// a literal; or it is false. With a literal that is or becomes true goes the third of the watch.
#[derive(Clone, Copy)]
pub enum Sight {
    Holds(Lit, Lit),
    Stale,
    Moves(Lit, Lit, Lit, Lit),
    Forces(Lit, Lit),
    Fails,
}

/// Looks at a clause that watches a false literal. Clauses of up to three literals, most of those that are
/// given, are told by the watch alone, since propagation waits for memory.
#[inline]
fn look(clauses: &Clauses, pairs: &[Pair], assignment: &Assignment, l: Lit, watch: Watch) -> Sight
    requires range { (m : Literal) → has (lits_at clauses.now watch.place) m ≡ true → variable_of m ≤ assignment.now.vars }
    requires sound { IsSound clauses.now l watch }
    requires long { length pairs.now ≡ length clauses.now }
    requires false_now { has assignment.now.trues (negated l) ≡ true }
    requires inside { (has (lits_at clauses.now watch.place) (pair_at pairs.now watch.place).first ≡ true) × (has (lits_at clauses.now watch.place) (pair_at pairs.now watch.place).second ≡ true) }
    ensures { IsSeen assignment.now.trues (lits_at clauses.now watch.place) (pair_at pairs.now watch.place) l result }
{
    if assignment.is_true(watch.blocker) {
        return Sight::Holds(watch.blocker, watch.third);
    }
    let place = watch.place as usize;
    if watch.third.same(l) {
        let clause = LongRef::of(clauses.lits(place));
        look_long(&clause, pairs[place], assignment, l)
    } else {
        look_short(pairs, place, assignment, l, watch.blocker, watch.third)
    }
}

/// The same of a clause of which the watch has not all literals, whatever view lends it. O(its literals).
#[inline]
fn look_long<V: ClauseView>(clause: &V, pair: Pair, assignment: &Assignment, l: Lit) -> Sight
    requires range { (m : Literal) → has (V.literals clause.now) m ≡ true → variable_of m ≤ assignment.now.vars }
    requires inside { (has (V.literals clause.now) pair.first ≡ true) × (has (V.literals clause.now) pair.second ≡ true) }
    ensures { IsSeen assignment.now.trues (V.literals clause.now) pair l result }
{
    let Some(other) = other_of(pair, l) else {
        return Sight::Stale;
    };
    if assignment.is_true(other) {
        return Sight::Holds(other, l);
    }
    if let Some(m) = find_watch(assignment, clause, other, l) {
        return Sight::Moves(other, m, other, m);
    }
    if assignment.is_true(other.negated()) {
        return Sight::Fails;
    }
    Sight::Forces(other, l)
}

/// The same of a clause that has no more literals than l and these two, of which the first is not true. O(1).
#[inline]
fn look_short(
    pairs: &[Pair],
    place: usize,
    assignment: &Assignment,
    l: Lit,
    a: Lit,
    b: Lit,
) -> Sight
    requires place { place < length pairs.now }
    requires range_a { variable_of a ≤ assignment.now.vars }
    requires range_b { variable_of b ≤ assignment.now.vars }
    requires false_now { has assignment.now.trues (negated l) ≡ true }
    requires not_true { has assignment.now.trues a ≡ false }
    ensures { (clause : List Literal) → has clause a ≡ true → IsShort clause l a b → IsSeen assignment.now.trues clause (pair_at pairs.now place) l result }
{
    if assignment.is_true(b) {
        return Sight::Holds(b, a);
    }
    if assignment.is_true(b.negated()) {
        if assignment.is_true(a.negated()) {
            return Sight::Fails;
        }
        return Sight::Forces(a, b);
    }
    if assignment.is_true(a.negated()) {
        return Sight::Forces(b, a);
    }
    if b.same(a) {
        return Sight::Forces(a, b);
    }
    let Some(other) = other_of(pairs[place], l) else {
        return Sight::Stale;
    };
    if a.same(other) {
        Sight::Moves(other, b, a, l)
    } else {
        Sight::Moves(other, a, b, l)
    }
}

/// What becomes of a watch: it stays, with this blocker and third literal; it goes; or the clause of this id is false.
#[derive(Clone, Copy)]
pub enum Seen {
    Stays(Lit, Lit),
    Goes,
    Conflict(u64),
}

/// Visits a clause that watches a literal which became false: unless it is true, it watches another literal
/// that is not false, or forces its other watched literal, or is false.
#[inline]
pub fn visit(
    clauses: &Clauses,
    pairs: &mut [Pair],
    lists: &mut WatchLists,
    assignment: &mut Assignment,
    reasons: &mut Vec<u64>,
    l: Lit,
    watch: Watch,
) -> Result<Seen, AllocError>
    requires propagating { IsPropagating assignment.old.vars clauses.now lists.old assignment.old.trues reasons.old.items }
    requires visiting { (head : ℕ) × (done : List Watch) × (coming : List Watch) × IsVisiting clauses.now pairs.old lists.old assignment.old.trues reasons.old.items head l done (watch ∷ coming) }
    ensures vars { assignment.new.vars ≡ assignment.old.vars }
    ensures long { OnOk result (length pairs.new ≡ length pairs.old) }
    ensures propagating { OnOk result (IsPropagating assignment.new.vars clauses.now lists.new assignment.new.trues reasons.new.items) }
    ensures longer { OnOk result ((more : List Literal) × (assignment.new.trues ≡ assignment.old.trues ++ more)) }
    ensures counted { OnOk result ((p : ℕ) → (pair_at pairs.new p).is_counted ≡ true → (pair_at pairs.old p).is_counted ≡ true) }
    ensures stays { (b t : Literal) → result ≡ Ok (Seen.Stays b t) → (head : ℕ) (done coming : List Watch) → IsVisiting clauses.now pairs.old lists.old assignment.old.trues reasons.old.items head l done (watch ∷ coming) → IsVisiting clauses.now pairs.new lists.new assignment.new.trues reasons.new.items head l (done ++ record { place = watch.place; blocker = b; third = t } ∷ []) coming }
    ensures goes { result ≡ Ok Seen.Goes → (head : ℕ) (done coming : List Watch) → IsVisiting clauses.now pairs.old lists.old assignment.old.trues reasons.old.items head l done (watch ∷ coming) → IsVisiting clauses.now pairs.new lists.new assignment.new.trues reasons.new.items head l done coming }
    ensures conflict { (id : ℕ) → result ≡ Ok (Seen.Conflict id) → IsConflict clauses.now assignment.new.trues id × (pairs.new ≡ pairs.old) × (lists.new ≡ lists.old) × (assignment.new.trues ≡ assignment.old.trues) × (reasons.new.items ≡ reasons.old.items) }
{
    let place = watch.place;
    match look(clauses, pairs, assignment, l, watch) {
        Sight::Holds(blocker, third) => Ok(Seen::Stays(blocker, third)),
        Sight::Stale => Ok(Seen::Goes),
        Sight::Moves(other, free, blocker, third) => {
            let moved = Watch {
                place,
                blocker,
                third,
            };
            lists.push(free, moved)?;
            pairs[place as usize] = Pair {
                first: other,
                second: free,
                is_counted: false,
            };
            Ok(Seen::Goes)
        }
        Sight::Forces(forced, third) => {
            let id = clauses.id(place as usize);
            assignment.make_true(forced);
            reasons.push(id)?;
            Ok(Seen::Stays(forced, third))
        }
        Sight::Fails => Ok(Seen::Conflict(clauses.id(place as usize))),
    }
}
