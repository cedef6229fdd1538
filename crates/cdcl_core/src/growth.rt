//! What a search holds more: a clause that begins to be watched, a lemma that is held and logged.
ghost use Rattle.std.specs.Prelude.{◌≡◌, ◌≢◌, ◌⊎◌, ℕ, ◌<◌, ◌≤◌, ◌^◌, ◌+◌, ◌*◌, ◌++◌, if◌then◌else◌, [], ◌∷◌, true, false, List, Ok, None, All, OnOk, OnErr, length, take, slice_index};
ghost use Rattle.lrat_model.specs.Literal.{Literal, has, negated, same, variable_of};
ghost use Rattle.lrat_model.specs.Clauses.{Held, with_clause};
ghost use Rattle.lrat_model.specs.Propagation.{status};
ghost use Rattle.lrat_model.specs.Steps.{Addition};
ghost use Rattle.lrat_model.specs.declared.step.ClauseStatus.TheVariants.{Falsified};
ghost use Rattle.cardinality_counts.specs.Counts.{IsCounting};
ghost use Rattle.cdcl_core.specs.Guides.{IsGuide};
ghost use Rattle.cdcl_core.specs.Search.{IsState};
ghost use Rattle.cdcl_core.specs.Trail.{IsTrail, IsVariable};
ghost use Rattle.cdcl_core.specs.Watches.{index_of, IsShort, IsWatched, IsQueued};

use crate::clauses::Clauses;
use crate::guide::Guide;
use crate::watches::{Pair, Watch, WatchLists};
use assignment_trail::Assignment;
use cardinality_counts::Gates;
use lrat_model::Lit;
use lrat_text::Log;
use std::alloc::AllocError;

/// Lets the clause at a place, the next that has none, watch two of its literals, one where it has no two
/// that differ, and none where it is counted. O(its literals). A place takes 32 bits, since propagation waits for the load of watches: more clauses than
/// these can name are want of memory.
pub fn attach(
    pairs: &mut Vec<Pair>,
    lists: &mut WatchLists,
    place: usize,
    lits: &[Lit],
    pair: Pair,
) -> Result<(), AllocError>
    requires inside_first { index_of pair.first < length lists.old }
    requires inside_second { index_of pair.second < length lists.old }
    ensures pairs { OnOk result (pairs.new.items ≡ pairs.old.items ++ pair ∷ []) }
    ensures lists { OnOk result (length lists.new ≡ length lists.old) }
    ensures watched { OnOk result ((held : Held) (id : ℕ) → length held ≡ place → has lits.now pair.first ≡ true → has lits.now pair.second ≡ true → (pair.is_counted ≡ true → same pair.first pair.second ≡ true) → ((l : Literal) → IsWatched held pairs.old.items lists.old l []) → (l : Literal) → IsWatched (held ++ (id, lits.now) ∷ []) pairs.new.items lists.new l []) }
{
    if place > u32::MAX as usize {
        return Err(AllocError);
    }
    let place = place as u32;
    let Pair {
        first,
        second,
        is_counted,
    } = pair;
    pairs.push(Pair {
        first,
        second,
        is_counted,
    })?;
    if is_counted {
        return Ok(());
    }
    let watch = Watch {
        place,
        blocker: second,
        third: third_of(lits, first, second),
    };
    lists.push(first, watch)?;
    let watch = Watch {
        place,
        blocker: first,
        third: third_of(lits, second, first),
    };
    lists.push(second, watch)?;
    Ok(())
}

/// The last of a clause's literals beside these two, the second where it has no other; the first where it has
/// more than three.
fn third_of(lits: &[Lit], first: Lit, second: Lit) -> Lit
    ensures { has lits.now first ≡ true → has lits.now second ≡ true → same result first ≡ false → IsShort lits.now first second result }
{
    let third = other_than(lits, first, second);
    if are_three(lits, first, second, third) {
        third
    } else {
        first
    }
}

/// The first of a clause's literals that is none of these two, the second where it has no other.
fn other_than(lits: &[Lit], first: Lit, second: Lit) -> Lit
    ensures { has lits.now second ≡ true → has lits.now result ≡ true }
{
    for m in lits {
        if !m.same(first) && !m.same(second) {
            return *m;
        }
    }
    second
}

/// Whether a clause has no more than these literals.
fn are_three(lits: &[Lit], first: Lit, second: Lit, third: Lit) -> bool
    ensures { result ≡ true → (m : Literal) → has lits.now m ≡ true → (m ≡ first) ⊎ (m ≡ second) ⊎ (m ≡ third) }
{
    for m in lits {
        if !m.same(first) && !m.same(second) && !m.same(third) {
            return false;
        }
    }
    true
}

/// Holds a lemma under the id after the last, and logs it. Where memory runs out neither is done.
pub fn record(
    clauses: &mut Clauses,
    log: &mut Log,
    last: &mut u64,
    lits: &[Lit],
    hints: &[i64],
) -> Result<(), AllocError>
    requires { last.old + 1 < 2 ^ 63 }
    ensures clauses { OnOk result (clauses.new ≡ with_clause clauses.old (last.old + 1) lits.now) }
    ensures log { OnOk result (log.new ≡ log.old ++ Addition (last.old + 1) lits.now hints.now ∷ []) }
    ensures last { OnOk result (last.new ≡ last.old + 1) }
    ensures unchanged { OnErr result ((clauses.new ≡ clauses.old) × (log.new ≡ log.old) × (last.new ≡ last.old)) }
{
    let id = *last + 1;
    clauses.push(id, lits)?;
    match log.push_addition(id, lits, hints) {
        Ok(()) => {
            *last = id;
            Ok(())
        }
        Err(error) => {
            clauses.pop();
            Err(error)
        }
    }
}

/// The literals of a clause that are not false: two that differ, one, or none.
#[derive(Clone, Copy)]
pub enum Free {
    Two(Lit, Lit),
    One(Lit),
    Nothing,
}

/// The first two different literals of a clause that are not false.
pub fn two_free(assignment: &Assignment, clause: &[Lit]) -> Free
    requires { (l : Literal) → has clause.now l ≡ true → variable_of l ≤ assignment.now.vars }
    ensures two { (a b : Literal) → result ≡ Free.Two a b → (has clause.now a ≡ true) × (has clause.now b ≡ true) × (same a b ≡ false) × (has assignment.now.trues (negated a) ≡ false) × (has assignment.now.trues (negated b) ≡ false) }
    ensures one { (a : Literal) → result ≡ Free.One a → (has clause.now a ≡ true) × (has assignment.now.trues (negated a) ≡ false) × ((m : Literal) → has clause.now m ≡ true → (m ≡ a) ⊎ (has assignment.now.trues (negated m) ≡ true)) }
    ensures nothing { result ≡ Free.Nothing → (m : Literal) → has clause.now m ≡ true → has assignment.now.trues (negated m) ≡ true }
{
    let mut found: Option<Lit> = None;
    for m in clause {
        if !assignment.is_true(m.negated()) {
            match found {
                None => found = Some(*m),
                Some(k) => {
                    if !k.same(*m) {
                        return Free::Two(k, *m);
                    }
                }
            }
        }
    }
    match found {
        None => Free::Nothing,
        Some(l) => Free::One(l),
    }
}

/// What a clause with these two literals watches: both, or, where it is one of a gate's sets, none.
pub fn pair_for(first: Lit, second: Lit, is_set: bool) -> Pair
    ensures first { result.first ≡ first }
    ensures second { result.second ≡ (if is_set then first else second) }
    ensures counted { result.is_counted ≡ is_set }
{
    if is_set {
        Pair {
            first,
            second: first,
            is_counted: true,
        }
    } else {
        Pair {
            first,
            second,
            is_counted: false,
        }
    }
}

/// Lets the next clause be watched, while nothing is decided; one that is a gate's set with two literals that are not
/// false is counted. Where it forces a literal, that is made true; false where the clause is false.
pub fn watch_next(
    pairs: &mut Vec<Pair>,
    lists: &mut WatchLists,
    assignment: &mut Assignment,
    reasons: &mut Vec<u64>,
    id: u64,
    lits: &[Lit],
    is_set: bool,
) -> Result<bool, AllocError>
    requires id { (0 < id) × (id < 2 ^ 63) }
    requires lists { length lists.old ≡ 2 * (assignment.old.vars + 1) }
    requires range { (m : Literal) → has lits.now m ≡ true → IsVariable assignment.old.vars m }
    requires undecided { (p : ℕ) → p < length assignment.old.trues → slice_index reasons.old.items p ≢ 0 }
    requires long { length reasons.old.items ≡ length assignment.old.trues }
    ensures vars { assignment.new.vars ≡ assignment.old.vars }
    ensures lists { OnOk result (length lists.new ≡ length lists.old) }
    ensures pairs { result ≡ Ok true → length pairs.new.items ≡ length pairs.old.items + 1 }
    ensures longer { result ≡ Ok true → (more : List Literal) × (assignment.new.trues ≡ assignment.old.trues ++ more) }
    ensures counted { result ≡ Ok true → (pair : Pair) × (pairs.new.items ≡ pairs.old.items ++ pair ∷ []) × (pair.is_counted ≡ true → is_set ≡ true) }
    ensures state { result ≡ Ok true → (held : Held) → All (λ e. e.0 < id) held → IsState assignment.old.vars held assignment.old.trues reasons.old.items → IsState assignment.old.vars (with_clause held id lits.now) assignment.new.trues reasons.new.items }
    ensures undecided { result ≡ Ok true → (p : ℕ) → p < length assignment.new.trues → slice_index reasons.new.items p ≢ 0 }
    ensures watched { result ≡ Ok true → (held : Held) → length held ≡ length pairs.old.items → ((l : Literal) → IsWatched held pairs.old.items lists.old l []) → (l : Literal) → IsWatched (with_clause held id lits.now) pairs.new.items lists.new l [] }
    ensures queued { result ≡ Ok true → (held : Held) (head : ℕ) → All (λ e. e.0 < id) held → IsState assignment.old.vars held assignment.old.trues reasons.old.items → length pairs.old.items ≡ length held → IsQueued held pairs.old.items assignment.old.trues reasons.old.items head → IsQueued (with_clause held id lits.now) pairs.new.items assignment.new.trues reasons.new.items head }
    ensures conflict { result ≡ Ok false → (status assignment.old.trues lits.now ≡ Falsified) × (assignment.new.trues ≡ assignment.old.trues) × (reasons.new.items ≡ reasons.old.items) }
{
    match two_free(assignment, lits) {
        Free::Two(first, second) => {
            let pair = pair_for(first, second, is_set);
            attach(pairs, lists, pairs.len(), lits, pair)?;
            Ok(true)
        }
        Free::One(l) => {
            let pair = Pair {
                first: l,
                second: l,
                is_counted: false,
            };
            attach(pairs, lists, pairs.len(), lits, pair)?;
            if !assignment.is_true(l) {
                assignment.make_true(l);
                reasons.push(id)?;
            }
            Ok(true)
        }
        Free::Nothing => Ok(false),
    }
}
