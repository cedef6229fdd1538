//! A smallest quorum.
ghost use Rattle.std.specs.Prelude.{◌≡◌, ℕ, ◌+◌, ◌<◌, ◌≤◌, ◌^◌, [], length, true, false, None, Ok, Err, All, IfOk, IfErr, OnOk, take};
ghost use Rattle.fbas_model.specs.Nodes.{members, size};
ghost use Rattle.lrat_model.specs.Runs.{formula_database};
ghost use Rattle.clause_encoder.specs.declared.limits.TheConstants.{MOST_VARS};
ghost use Rattle.clause_encoder.specs.declared.encoder.EncodeError.TheVariants.{TooLarge, Memory};
ghost use Rattle.clause_encoder.specs.NameCounter.{counter_vars, counter_of};
ghost use Rattle.greatest_quorum.specs.Greatest.{greatest_of};
ghost use Rattle.enumeration_journal.specs.declared.kinds.Listed.{Listed as Letter};
ghost use Rattle.blocking_lists.specs.Lines.{AreBetween, HasLineNumbers, HasFewWords, listed_in, merged};
ghost use Rattle.least_journal.specs.Least.{last_of};
ghost use Rattle.least_quorum.specs.Outcomes.{LeastOutcomeHolds, least_journal_of, whole_outcome};

use crate::outcome::LeastOutcome;
use crate::search::run;
use blocking_lists::{Journal, ListLine};
use cdcl_core::{Budget, Log, Solver};
use clause_encoder::{EncodeError, counter_clauses, counter_vars};
use enumeration_journal::Listed;
use fbas_core::System;
use greatest_quorum::greatest;
use name_set::NodeSet;
use std::alloc::{AllocError, Global};

/// A smallest quorum once the faulty nodes are deleted, or that there is none; or the journal of the search if the budget was
/// spent: one unit for each lemma with a literal, and for each blocking set that is listed. A listed quorum takes none.
///
/// The solver holds the clauses of a counter of the nodes of the greatest quorum; its assignments are sets of such nodes. If there
/// is a quorum inside such a set, a minimal one is listed: from then on a set has to have fewer nodes. And else a minimal blocking
/// set outside it is listed, of which a set has to have a node. So a set that is found next is another.
///
/// `TooLarge` comes where the counter has more than `MOST_VARS` variables, before the search. Beside the solver's work, a line
/// costs a `shrink` for each node of its set, and keeps a set in memory.
pub fn least(
    alloc: Global,
    system: &System,
    faulty: &NodeSet,
    budget: &mut Budget,
) -> Result<LeastOutcome, EncodeError>
    requires same_faulty { length faulty.now ≡ length system.now.sets }
    requires room { budget.old < 2 ^ 62 }
    ensures outcome { IfOk result (λ outcome. LeastOutcomeHolds system.now.sets faulty.now budget.old budget.new outcome) }
    ensures numbers { IfOk result (λ outcome. All HasLineNumbers (least_journal_of outcome)) }
    ensures few_words { IfOk result (λ outcome. All (HasFewWords (counter_vars (size (greatest_of system.now.sets faulty.now)))) (least_journal_of outcome)) }
    ensures small { IfOk result (λ outcome. counter_vars (size (greatest_of system.now.sets faulty.now)) ≤ MOST_VARS) }
    ensures too_large { MOST_VARS < counter_vars (size (greatest_of system.now.sets faulty.now)) → result ≡ Err (TooLarge (counter_vars (size (greatest_of system.now.sets faulty.now)))) }
    ensures only_then { (vars : ℕ) → result ≡ Err (TooLarge vars) → (vars ≡ counter_vars (size (greatest_of system.now.sets faulty.now))) × (MOST_VARS < vars) }
{
    let greatest = greatest(system, faulty);
    let mut listed = Vec::new(alloc);
    match solver_over(alloc, greatest.count()) {
        Ok(mut solver) => {
            let found = run(
                alloc,
                system,
                faulty,
                &greatest,
                &mut solver,
                &mut listed,
                budget,
            );
            outcome_of(found, listed, solver.into_log())
        }
        Err(e) => Err(e),
    }
}

/// A solver with the clauses of the counter of g names.
fn solver_over(alloc: Global, g: u32) -> Result<Solver, EncodeError>
    ensures vars { IfOk result (λ solver. solver.vars ≡ counter_vars g) }
    ensures database { IfOk result (λ solver. solver.database ≡ formula_database (counter_of g)) }
    ensures log { IfOk result (λ solver. solver.log ≡ []) }
    ensures small { IfOk result (λ solver. counter_vars g ≤ MOST_VARS) }
    ensures too_large { MOST_VARS < counter_vars g → result ≡ Err (TooLarge (counter_vars g)) }
    ensures only_then { (vars : ℕ) → result ≡ Err (TooLarge vars) → (vars ≡ counter_vars g) × (MOST_VARS < vars) }
{
    let store = counter_clauses(alloc, g)?;
    let solver = Solver::start(alloc, &store, counter_vars(g))?;
    Ok(solver)
}

/// What was found, with the listed sets among the steps of the solver's log.
fn outcome_of(
    found: Result<bool, AllocError>,
    listed: Vec<ListLine>,
    log: Log,
) -> Result<LeastOutcome, EncodeError>
    requires { OnOk found (AreBetween 0 (length log) listed.items) }
    ensures whole { found ≡ Ok true → result ≡ Ok (whole_outcome (last_of None (listed_in Letter.Smaller listed.items)) (merged 0 listed.items log)) }
    ensures spent { found ≡ Ok false → result ≡ Ok (LeastOutcome.Spent (merged 0 listed.items log)) }
    ensures err { IfErr found (λ e. result ≡ Err Memory) }
{
    let is_whole = found?;
    let last = last_quorum(&listed);
    let journal = Journal::new(listed, log);
    Ok(outcome_with(is_whole, last, journal))
}

/// The outcome with this journal.
fn outcome_with(is_whole: bool, last: Option<NodeSet>, journal: Journal) -> LeastOutcome
    ensures whole { is_whole ≡ true → result ≡ whole_outcome last journal }
    ensures spent { is_whole ≡ false → result ≡ LeastOutcome.Spent journal }
{
    if !is_whole {
        return LeastOutcome::Spent(journal);
    }
    match last {
        Some(set) => LeastOutcome::Least(set, journal),
        None => LeastOutcome::NoQuorum(journal),
    }
}

/// The quorum that is listed last, if one is. Linear in the listed sets.
fn last_quorum(listed: &[ListLine]) -> Option<NodeSet>
    ensures { result ≡ last_of None (listed_in Letter.Smaller listed.now) }
{
    let mut last = None;
    for line in listed {
        if is_smaller(line.which()) {
            last = Some(line.set().copy());
        }
    }
    last
}

/// Whether a set is listed as a smaller quorum.
fn is_smaller(which: Listed) -> bool
    ensures only_then { result ≡ true → which ≡ Letter.Smaller }
    ensures always { which ≡ Letter.Smaller → result ≡ true }
{
    match which {
        Listed::Smaller => true,
        Listed::Quorum | Listed::Blocking => false,
    }
}
