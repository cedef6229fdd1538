//! The list of all minimal blocking sets of groups.
ghost use Rattle.std.specs.Prelude.{◌≡◌, ◌+◌, ◌<◌, ◌^◌, length, None, Ok, Err, All, IfOk, IfErr, IfSome, OnOk};
ghost use Rattle.fbas_model.specs.Nodes.{size};
ghost use Rattle.lrat_model.specs.Propagation.{Closes};
ghost use Rattle.greatest_quorum.specs.Greatest.{greatest_of};
ghost use Rattle.enumeration_journal.specs.declared.kinds.Listed.TheVariants as listing;
ghost use Rattle.node_json.specs.Groups.{tables_of};
ghost use Rattle.blocking_lists.specs.Lines.{AreBetween, HasLineNumbers, HasFewWords, listed_in, merged};
ghost use Rattle.blocking_lists.specs.Search.{AreInNameOrder};
ghost use Rattle.group_journal.specs.Groups.{touching};
ghost use Rattle.group_lists.specs.Outcomes.{GroupOutcomeHolds, group_journal_in};
ghost use Rattle.group_lists.specs.Search.{IsReady, IsGroupListingIn, IsWholeGroupListingIn};

use crate::outcome::{GroupJournal, GroupOutcome};
use crate::search::{GroupLine, SearchedGroups, run};
use blocking_lists::{sets_of, solver_over};
use cdcl_core::{Budget, Log, Solver};
use enumeration_journal::{Listed, rising};
use fbas_core::System;
use greatest_quorum::greatest;
use group_journal::touching;
use name_set::{GroupSet, NodeSet};
use node_json::Groups;
use std::alloc::{AllocError, Global};

/// All minimal blocking sets of groups, once the faulty nodes are deleted, in the order of the groups' numbers, or the journal of the
/// search for them where the budget was spent: one unit for each lemma with a literal, and for each quorum and blocking set that is
/// listed.
///
/// Groups block if their members, without the faulty nodes, meet every quorum. The solver's assignments are sets of groups that have
/// a member in the greatest quorum. Where a quorum is outside the members of such a set, one is listed, as nodes, that has lost first
/// whole groups and then nodes as long as a quorum was left; and else a minimal blocking set of groups inside the set.
///
/// Beside the solver's work, a line of groups costs a `shrink` for each group of the assignment, and a line of nodes one for each group
/// that it touches at first and for each node that is left then. How many of the groups have a node is counted for each, so a trial
/// costs beside that no more than a step for each member of one group, and n / 64 steps.
pub fn list_groups(
    alloc: Global,
    system: &System,
    groups: &Groups,
    faulty: &NodeSet,
    budget: &mut Budget,
) -> Result<GroupOutcome, AllocError>
    requires sized { All (λ group. length group.members ≡ length system.now.sets) groups.now }
    requires same_faulty { length faulty.now ≡ length system.now.sets }
    requires room { budget.old + 1 < 2 ^ 63 }
    ensures outcome { IfOk result (λ outcome. GroupOutcomeHolds system.now.sets faulty.now (tables_of groups.now) budget.old budget.new outcome) }
    ensures numbers { IfOk result (λ outcome. All HasLineNumbers (group_journal_in outcome)) }
    ensures few_words { IfOk result (λ outcome. All (HasFewWords (size (touching (tables_of groups.now) (greatest_of system.now.sets faulty.now)))) (group_journal_in outcome)) }
{
    let greatest = greatest(system, faulty);
    let touched = touching(groups, &greatest);
    let searched = SearchedGroups {
        system,
        groups,
        faulty,
        touched: &touched,
    };
    let mut listed = Vec::new(alloc);
    // This call says how many groups there are at most, and so that their variables fit.
    let _groups = groups.len();
    match solver_over(alloc, touched.count()) {
        Ok(mut solver) => {
            let found = found_sets(alloc, &searched, &mut solver, &mut listed, budget);
            outcome_of(found, listed, solver.into_log())
        }
        Err(e) => Err(e),
    }
}

/// What was found, with the listed sets among the steps of the solver's log.
fn outcome_of(
    found: Result<Option<Vec<GroupSet>>, AllocError>,
    listed: Vec<GroupLine>,
    log: Log,
) -> Result<GroupOutcome, AllocError>
    requires { OnOk found (AreBetween 0 (length log) listed.items) }
    ensures whole { IfOk found (λ f. IfSome f (λ sets. result ≡ Ok (GroupOutcome.Whole sets (merged 0 listed.items log)))) }
    ensures spent { found ≡ Ok None → result ≡ Ok (GroupOutcome.Spent (merged 0 listed.items log)) }
    ensures err { IfErr found (λ e. result ≡ Err e) }
{
    let found = found?;
    let journal = GroupJournal::new(listed, log);
    Ok(match found {
        Some(sets) => GroupOutcome::Whole(sets, journal),
        None => GroupOutcome::Spent(journal),
    })
}

/// The minimal blocking sets of groups in order, or none where the budget was spent first. The solver is borrowed: a function that owns
/// one is dear to prove at each of its ways out.
fn found_sets(
    alloc: Global,
    searched: &SearchedGroups<'_>,
    solver: &mut Solver,
    listed: &mut Vec<GroupLine>,
    budget: &mut Budget,
) -> Result<Option<Vec<GroupSet>>, AllocError>
    requires ready { IsReady searched.now }
    requires room { budget.old + 1 < 2 ^ 63 }
    requires start { IsGroupListingIn searched.now budget.old budget.old listed.old.items solver.old }
    ensures between { OnOk result (AreBetween 0 (length solver.new.log) listed.new.items) }
    ensures whole { IfOk result (λ found. IfSome found (λ sets. IsWholeGroupListingIn searched.now budget.old budget.new listed.new.items solver.new.log × AreInNameOrder (listed_in listing.Blocking listed.new.items) sets.items)) }
    ensures part { result ≡ Ok None → IsGroupListingIn searched.now budget.old budget.new listed.new.items solver.new }
    ensures spent { result ≡ Ok None → budget.new ≡ 0 }
    ensures unclosed { result ≡ Ok None → Closes solver.new.database.held → ⊥ }
{
    if run(alloc, searched, solver, listed, budget)? {
        let sets = sets_of(alloc, Listed::Blocking, listed)?;
        let ordered = rising(sets);
        return Ok(Some(ordered));
    }
    Ok(None)
}
