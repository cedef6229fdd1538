//! The list of all minimal sets of a kind.
ghost use Rattle.std.specs.Prelude.{◌≡◌, ◌≢◌, ◌+◌, ◌<◌, ◌^◌, [], length, None, Ok, Err, All, IfOk, IfErr, IfSome, OnOk};
ghost use Rattle.fbas_model.specs.Nodes.{size};
ghost use Rattle.lrat_model.specs.Propagation.{Closes};
ghost use Rattle.greatest_quorum.specs.Greatest.{greatest_of};
ghost use Rattle.blocking_lists.specs.Lines.{AreBetween, HasLineNumbers, HasFewWords, listed_in, merged};
ghost use Rattle.blocking_lists.specs.Outcomes.{OutcomeHolds, journal_in};
ghost use Rattle.blocking_lists.specs.Search.{AreInNameOrder, IsReady, IsListingIn, IsWholeListingIn};

use crate::journal::{Journal, ListLine, sets_of};
use crate::outcome::ListOutcome;
use crate::search::{Searched, run};
use cdcl_core::{Budget, Log, Solver};
use clause_store::Store;
use enumeration_journal::{Listed, rising};
use fbas_core::System;
use greatest_quorum::greatest;
use name_set::NodeSet;
use std::alloc::{AllocError, Global};

/// All minimal sets of a kind of which there are lists, once the faulty nodes are deleted, in name order, or the journal of the search for them where
/// the budget was spent: one unit for each lemma with a literal, and for each quorum and blocking set that is listed.
///
/// The solver's assignments are sets of nodes of the greatest quorum. Where a quorum is outside such a set, a minimal one is
/// listed, and else a minimal blocking set inside it: the set is then no assignment any more. Beside the solver's work, a line
/// costs a `shrink` for each node of its set, and keeps a set in memory.
pub fn list_all(
    alloc: Global,
    sought: Listed,
    system: &System,
    faulty: &NodeSet,
    budget: &mut Budget,
) -> Result<ListOutcome, AllocError>
    requires kind { sought ≢ Listed.Smaller }
    requires same_faulty { length faulty.now ≡ length system.now.sets }
    requires room { budget.old + 1 < 2 ^ 63 }
    ensures outcome { IfOk result (λ outcome. OutcomeHolds sought system.now.sets faulty.now budget.old budget.new outcome) }
    ensures numbers { IfOk result (λ outcome. All HasLineNumbers (journal_in outcome)) }
    ensures few_words { IfOk result (λ outcome. All (HasFewWords (size (greatest_of system.now.sets faulty.now))) (journal_in outcome)) }
{
    // A system has at most 16,384 nodes, so there are as few variables.
    let _nodes = system.len();
    let greatest = greatest(system, faulty);
    let searched = Searched {
        sought,
        system,
        faulty,
        greatest: &greatest,
    };
    let mut listed = Vec::new(alloc);
    match solver_over(alloc, greatest.count()) {
        Ok(mut solver) => {
            guide(sought, &mut solver);
            let found = found_sets(alloc, &searched, &mut solver, &mut listed, budget);
            outcome_of(found, listed, solver.into_log())
        }
        Err(e) => Err(e),
    }
}

/// A solver over this many variables, without a clause.
pub fn solver_over(alloc: Global, vars: u32) -> Result<Solver, AllocError>
    requires small { vars < 2 ^ 31 }
    ensures vars { IfOk result (λ solver. solver.vars ≡ vars) }
    ensures database { IfOk result (λ solver. (solver.database.held ≡ []) × (solver.database.last ≡ 0)) }
    ensures log { IfOk result (λ solver. solver.log ≡ []) }
{
    let store = Store::new(alloc);
    Solver::start(alloc, &store, u64::from(vars))
}

/// Has the solver decide which nodes are not tried as suits the sets that are sought. A model of a search for quorums then has
/// few nodes to spare, and the next begins where this one ended.
fn guide(sought: Listed, solver: &mut Solver)
    ensures { solver.new ≡ solver.old }
{
    if matches!(sought, Listed::Quorum) {
        solver.decide_by_number();
    }
}

/// What was found, with the listed sets among the steps of the solver's log.
fn outcome_of(
    found: Result<Option<Vec<NodeSet>>, AllocError>,
    listed: Vec<ListLine>,
    log: Log,
) -> Result<ListOutcome, AllocError>
    requires { OnOk found (AreBetween 0 (length log) listed.items) }
    ensures whole { IfOk found (λ f. IfSome f (λ sets. result ≡ Ok (ListOutcome.Whole sets (merged 0 listed.items log)))) }
    ensures spent { found ≡ Ok None → result ≡ Ok (ListOutcome.Spent (merged 0 listed.items log)) }
    ensures err { IfErr found (λ e. result ≡ Err e) }
{
    let found = found?;
    let journal = Journal::new(listed, log);
    Ok(match found {
        Some(sets) => ListOutcome::Whole(sets, journal),
        None => ListOutcome::Spent(journal),
    })
}

/// The minimal sets of the kind in name order, or none where the budget was spent first. The solver is borrowed: a function that owns
/// one is dear to prove at each of its ways out.
fn found_sets(
    alloc: Global,
    searched: &Searched<'_>,
    solver: &mut Solver,
    listed: &mut Vec<ListLine>,
    budget: &mut Budget,
) -> Result<Option<Vec<NodeSet>>, AllocError>
    requires ready { IsReady searched.now }
    requires room { budget.old + 1 < 2 ^ 63 }
    requires start { IsListingIn searched.now budget.old budget.old listed.old.items solver.old }
    ensures between { OnOk result (AreBetween 0 (length solver.new.log) listed.new.items) }
    ensures whole { IfOk result (λ found. IfSome found (λ sets. IsWholeListingIn searched.now budget.old budget.new listed.new.items solver.new.log × AreInNameOrder (listed_in searched.now.sought listed.new.items) sets.items)) }
    ensures part { result ≡ Ok None → IsListingIn searched.now budget.old budget.new listed.new.items solver.new }
    ensures spent { result ≡ Ok None → budget.new ≡ 0 }
    ensures unclosed { result ≡ Ok None → Closes solver.new.database.held → ⊥ }
{
    if run(alloc, searched, solver, listed, budget)? {
        let sets = sets_of(alloc, searched.sought, listed)?;
        let ordered = rising(sets);
        return Ok(Some(ordered));
    }
    Ok(None)
}
