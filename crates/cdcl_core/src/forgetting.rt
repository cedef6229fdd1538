//! What a conflict comes to: a lemma that is learnt, others that are forgotten, or the empty lemma.
ghost use Rattle.std.specs.Prelude.{◌≡◌, ℕ, ◌^◌, ◌<◌, ◌≤◌, ◌+◌, ◌*◌, ◌++◌, ◌∷◌, [], not, false, filter, All, OnErr, OnOk, length};
ghost use Rattle.std.specs.List.Sorted.{IsNonDecreasingBy};
ghost use Rattle.lrat_model.specs.Steps.{Deletion};
ghost use Rattle.lrat_model.specs.Clauses.{has_id, without};
ghost use Rattle.lrat_model.specs.Propagation.{Closes};
ghost use Rattle.cardinality_counts.specs.Counts.{IsCounting};
ghost use Rattle.cdcl_core.specs.Going.{HasSpent, IsBackjump, IsFurther, IsNearer, HasRefuted, IsUnrefuted};
ghost use Rattle.cdcl_core.specs.Guides.{IsGuide};
ghost use Rattle.cdcl_core.specs.declared.memory.TheConstants.{FEWEST_DELETED};
ghost use Rattle.cdcl_core.specs.Log.{least_live};
ghost use Rattle.cdcl_core.specs.Remembering.{HasDeletion, IsChosen};
ghost use Rattle.cdcl_core.specs.Search.{IsLearntClause, IsState};
ghost use Rattle.cdcl_core.specs.Searching.{HasLogged, IsSearching};

use crate::analysis::LearntClause;
use crate::clauses::Clauses;
use crate::growth::record;
use crate::memory::Memory;
use crate::search::Search;
use crate::watches::{Pair, WatchLists};
use lrat_text::Log;
use std::alloc::{AllocError, Global};

/// Holds and logs the empty lemma.
pub fn refute(search: &mut Search, lemma: &LearntClause) -> Result<(), AllocError>
    requires room { search.old.last + 1 < 2 ^ 63 }
    requires unrefuted { IsUnrefuted search.old }
    requires state { IsState search.old.vars search.old.clauses search.old.assignment.trues search.old.reasons.items }
    requires learnt { IsLearntClause search.old.clauses search.old.assignment.trues search.old.reasons.items lemma.now.lits.items lemma.now.hints.items lemma.now.jump }
    requires empty { lemma.now.lits.items ≡ [] }
    ensures last { search.new.last ≤ search.old.last + 1 }
    ensures spent { (left : ℕ) → HasSpent search.old search.new left left }
    ensures unchanged { OnErr result (HasLogged search.old search.new) }
    ensures refuted { OnOk result (HasRefuted search.old search.new) }
{
    record(
        &mut search.clauses,
        &mut search.log,
        &mut search.last,
        &lemma.lits,
        &lemma.hints,
    )?;
    Ok(())
}

/// Learns the lemma, which takes a unit; or forgets others where many are live, and this one with them, since the
/// trail from which it follows goes.
pub fn go_on(
    search: &mut Search,
    left: &mut u64,
    lemma: &LearntClause,
    pair: Pair,
) -> Result<(), AllocError>
    requires room { search.old.last + left.old < 2 ^ 63 }
    requires some { 0 < left.old }
    requires unrefuted { IsUnrefuted search.old }
    requires searching { IsSearching search.old.clauses search.old }
    requires backjump { IsBackjump search.old lemma.now.lits.items lemma.now.hints.items lemma.now.jump pair }
    ensures further { IsFurther search.old search.new left.old left.new }
    ensures nearer { OnOk result (IsNearer search.old search.new left.old left.new) }
{
    let alloc = *search.reasons.allocator();
    match search.memory.choose(alloc, search.vars, &search.reasons)? {
        Some(gone) => forget(search, &gone),
        None => {
            search.learn(&lemma.lits, &lemma.hints, pair, lemma.jump)?;
            *left -= 1;
            search.restart();
            Ok(())
        }
    }
}

/// Deletes these lemmas. Where memory runs out nothing is deleted.
fn forget(search: &mut Search, gone: &[u64]) -> Result<(), AllocError>
    requires room { search.old.last < 2 ^ 63 }
    requires unrefuted { IsUnrefuted search.old }
    requires unclosed { Closes search.old.clauses → ⊥ }
    requires chosen { IsChosen search.old.memory.ids.items search.old.reasons.items gone.now }
    requires fewest { FEWEST_DELETED ≤ length gone.now }
    requires earned { least_live search.old.memory.deletions ≤ length search.old.memory.ids.items }
    requires searching { IsSearching search.old.clauses search.old }
    ensures further { (left : ℕ) → IsFurther search.old search.new left left }
    ensures nearer { (left : ℕ) → OnOk result (IsNearer search.old search.new left left) }
{
    delete(search, gone)?;
    Ok(())
}

/// Takes these lemmas away, and logs the deletion. The clauses that stay move to new room, and all of them are to
/// be watched anew: linear in their literals and in the variables. Where memory runs out nothing is done.
fn delete(search: &mut Search, gone: &[u64]) -> Result<(), AllocError>
    requires sorted { IsNonDecreasingBy (λ k. k) gone.now }
    requires few { search.old.vars < 2 ^ 31 }
    requires spared { All (λ k. has_id search.old.reasons.items k ≡ false) gone.now }
    requires earned { least_live search.old.memory.deletions ≤ length search.old.memory.ids.items }
    requires counting { IsCounting search.old.gates search.old.assignment.trues }
    requires gate_vars { search.old.gates.vars ≡ search.old.vars }
    requires vars { search.old.assignment.vars ≡ search.old.vars }
    requires guide { IsGuide search.old.vars search.old.guide }
    ensures deletion { OnOk result (HasDeletion search.old search.new gone.now) }
    ensures unwatched { OnOk result (search.new.pairs.items ≡ []) }
    ensures searching { OnOk result (IsSearching [] search.new) }
    ensures unchanged { OnErr result (HasLogged search.old search.new) }
{
    let alloc = *search.reasons.allocator();
    let lists = WatchLists::new(alloc, 2 * (search.vars as usize + 1))?;
    take_away(
        alloc,
        &mut search.clauses,
        &mut search.log,
        &mut search.memory,
        search.last,
        gone,
    )?;
    search.let_go(lists);
    Ok(())
}

/// Takes these lemmas away, and logs the deletion with the last id. Where memory runs out nothing is done.
fn take_away(
    alloc: Global,
    held: &mut Clauses,
    log: &mut Log,
    memory: &mut Memory,
    last: u64,
    gone: &[u64],
) -> Result<(), AllocError>
    requires sorted { IsNonDecreasingBy (λ k. k) gone.now }
    requires earned { least_live memory.old.deletions ≤ length memory.old.ids.items }
    ensures held { OnOk result (held.new ≡ without held.old gone.now) }
    ensures log { OnOk result (log.new ≡ log.old ++ Deletion last gone.now ∷ []) }
    ensures ids { OnOk result (memory.new.ids.items ≡ filter (λ k. not (has_id gone.now k)) memory.old.ids.items) }
    ensures deletions { OnOk result (memory.new.deletions ≡ memory.old.deletions + 1) }
    ensures unchanged { OnErr result ((held.new ≡ held.old) × (log.new ≡ log.old)) }
{
    let clauses = held.all_but(alloc, gone)?;
    let others = memory.all_but(alloc, gone)?;
    log.push_deletion(last, gone)?;
    *memory = others;
    *held = clauses;
    Ok(())
}
