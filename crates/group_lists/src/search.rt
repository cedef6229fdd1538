//! The search for all minimal blocking sets of groups, line by line.
ghost use Rattle.std.specs.Prelude.{◌≡◌, ℕ, true, false, Ok, ◌+◌, ◌<◌, ◌≤◌, ◌^◌, length, All, OnOk};
ghost use Rattle.fbas_model.specs.Nodes.{members, ◌⊆◌, size};
ghost use Rattle.fbas_model.specs.Fbas.{Quorum};
ghost use Rattle.lrat_model.specs.Clauses.{Satisfies};
ghost use Rattle.lrat_model.specs.Propagation.{Closes};
ghost use Rattle.cdcl_core.specs.Solving.{assignment};
ghost use Rattle.node_json.specs.Groups.{tables_of};
ghost use Rattle.blocking_lists.specs.Search.{IsListed};
ghost use Rattle.group_journal.specs.Groups.{touching};
ghost use Rattle.group_journal.specs.Rules.{group_clause};
ghost use Rattle.enumeration_journal.specs.declared.kinds.Listed.TheVariants as listing;
ghost use Rattle.group_lists.specs.Search.{IsReady, IsGroupListingIn, IsWholeGroupListingIn};

use blocking_lists::{ListedSet, list_set, tried_units};
use cdcl_core::{Budget, Solver, Verdict};
use enumeration_journal::Listed;
use fbas_core::System;
use fbas_model::MOST_NODES;
use greatest_quorum::{blocks, minimal_quorum, shrink};
use group_journal::{MarkedGroups, block_clause, minimal_groups, quorum_clause};
use name_set::{GROUP_WORDS, GroupSet, NodeSet, resized};
use node_json::Groups;
use std::alloc::{AllocError, Global};

/// A set of groups or of nodes that was listed.
pub(crate) type GroupLine = ListedSet<GROUP_WORDS>;

/// What is searched for all minimal blocking sets of groups: a system with its groups and its faulty nodes, and the groups that have
/// a node of the greatest quorum once these are deleted.
#[derive(Clone, Copy)]
pub(crate) struct SearchedGroups<'a> {
    pub(crate) system: &'a System,
    pub(crate) groups: &'a Groups,
    pub(crate) faulty: &'a NodeSet,
    pub(crate) touched: &'a GroupSet,
}

/// Takes the groups from one place to another out of a quorum, all of them, and answers whether a quorum is left; where none is,
/// nothing is taken. `scratch` holds nothing of use afterwards. The cost is that of `shrink` and O(n / 64) for each of these groups.
fn lose_between(
    system: &System,
    groups: &Groups,
    from: u32,
    to: u32,
    q: &mut NodeSet,
    faulty: &NodeSet,
    scratch: &mut NodeSet,
) -> bool
    requires sized { All (λ group. length group.members ≡ length system.now.sets) groups.now }
    requires place { to ≤ length groups.now }
    requires same_n { length q.old ≡ length system.now.sets }
    requires same_faulty { length faulty.now ≡ length system.now.sets }
    requires same_scratch { length scratch.old ≡ length system.now.sets }
    requires quorum { Quorum system.now.sets (members faulty.now) (members q.old) }
    ensures same_n { length q.new ≡ length q.old }
    ensures same_scratch { length scratch.new ≡ length scratch.old }
    ensures within { members q.new ⊆ members q.old }
    ensures quorum { Quorum system.now.sets (members faulty.now) (members q.new) }
{
    scratch.copy_from(q);
    for at in from..to {
        scratch.minus(groups.members(at));
    }
    shrink(system, scratch, faulty);
    if scratch.is_empty() {
        return false;
    }
    q.copy_from(scratch);
    true
}

/// Takes whole groups out of a quorum, in order, each if a quorum is left without it. After a trial that took some, twice as many
/// are tried together; after one that took none, half as many. `scratch` holds nothing of use afterwards. Where k groups stay there
/// are O((k + 1) log groups) trials, and never more than two for each group.
fn lose_groups(
    system: &System,
    groups: &Groups,
    q: &mut NodeSet,
    faulty: &NodeSet,
    scratch: &mut NodeSet,
)
    requires sized { All (λ group. length group.members ≡ length system.now.sets) groups.now }
    requires same_n { length q.old ≡ length system.now.sets }
    requires same_faulty { length faulty.now ≡ length system.now.sets }
    requires same_scratch { length scratch.old ≡ length system.now.sets }
    requires quorum { Quorum system.now.sets (members faulty.now) (members q.old) }
    ensures same_n { length q.new ≡ length q.old }
    ensures same_scratch { length scratch.new ≡ length scratch.old }
    ensures within { members q.new ⊆ members q.old }
    ensures quorum { Quorum system.now.sets (members faulty.now) (members q.new) }
{
    let count = groups.len();
    let mut from = 0;
    let mut together = 1;
    while from < count {
        together = together.min(count - from);
        if lose_between(system, groups, from, from + together, q, faulty, scratch) {
            from += together;
            together *= 2;
        } else if together > 1 {
            together /= 2;
        } else {
            from += 1;
        }
    }
}

/// Adds the clause of a quorum to the solver, and lists the quorum.
fn add_quorum(
    alloc: Global,
    groups: &Groups,
    touched: &GroupSet,
    quorum: &NodeSet,
    solver: &mut Solver,
    listed: &mut Vec<GroupLine>,
) -> Result<(), AllocError>
    requires sized { All (λ group. length group.members ≡ length quorum.now) groups.now }
    requires few { length quorum.now ≤ MOST_NODES }
    requires places { length touched.now ≡ length groups.now }
    requires within { members (touching (tables_of groups.now) quorum.now) ⊆ members touched.now }
    requires vars { solver.old.vars ≡ size touched.now }
    requires room { solver.old.database.last + 1 < 2 ^ 63 }
    ensures { OnOk result (IsListed listing.Quorum (group_clause (tables_of groups.now) touched.now listing.Quorum quorum.now) quorum.now listed.old.items listed.new.items solver.old solver.new) }
{
    let clause = quorum_clause(alloc, groups, touched, quorum)?;
    list_set(Listed::Quorum, &clause, resized(quorum), solver, listed)
}

/// Adds the clause of a blocking set of groups to the solver, and lists the set.
fn add_block(
    alloc: Global,
    groups: &Groups,
    touched: &GroupSet,
    set: &GroupSet,
    solver: &mut Solver,
    listed: &mut Vec<GroupLine>,
) -> Result<(), AllocError>
    requires places { length touched.now ≡ length groups.now }
    requires same_n { length set.now ≡ length groups.now }
    requires within { members set.now ⊆ members touched.now }
    requires vars { solver.old.vars ≡ size touched.now }
    requires room { solver.old.database.last + 1 < 2 ^ 63 }
    ensures { OnOk result (IsListed listing.Blocking (group_clause (tables_of groups.now) touched.now listing.Blocking set.now) set.now listed.old.items listed.new.items solver.old solver.new) }
{
    let clause = block_clause(alloc, groups, touched, set)?;
    list_set(Listed::Blocking, &clause, set.copy(), solver, listed)
}

/// Lists a set whose clause is false in the solver's assignment, a set of groups: a quorum outside their members, of which first
/// whole groups and then nodes are lost, or where there is none a minimal blocking set of groups inside it.
fn turn(
    alloc: Global,
    searched: &SearchedGroups<'_>,
    solver: &mut Solver,
    listed: &mut Vec<GroupLine>,
) -> Result<(), AllocError>
    requires ready { IsReady searched.now }
    requires vars { solver.old.vars ≡ size searched.now.touched.now }
    requires room { solver.old.database.last + 1 < 2 ^ 63 }
    requires solves { Satisfies (assignment solver.old) solver.old.database.held }
    ensures goes_on { OnOk result ((total left : ℕ) → total < 2 ^ 63 → IsGroupListingIn searched.now total (left + 1) listed.old.items solver.old → IsGroupListingIn searched.now total left listed.new.items solver.new) }
{
    let SearchedGroups {
        system,
        groups,
        faulty,
        touched,
    } = *searched;
    let n = system.len();
    let tried = tried_units(solver, Listed::Blocking, groups.len(), touched);
    let mut marked = MarkedGroups::none(alloc, groups, n)?;
    marked.mark_all(&tried);
    let mut outside = NodeSet::new(n);
    let mut scratch = NodeSet::new(n);
    if blocks(system, marked.nodes(), faulty, &mut outside) {
        minimal_groups(system, faulty, &mut marked, &mut scratch);
        return add_block(alloc, groups, touched, marked.marks(), solver, listed);
    }
    lose_groups(system, groups, &mut outside, faulty, &mut scratch);
    minimal_quorum(system, &mut outside, faulty, &mut scratch);
    add_quorum(alloc, groups, touched, &outside, solver, listed)
}

/// Lists a set for each assignment of the solver, until there is none more, which it answers by true, or no unit is left.
pub(crate) fn run(
    alloc: Global,
    searched: &SearchedGroups<'_>,
    solver: &mut Solver,
    listed: &mut Vec<GroupLine>,
    budget: &mut Budget,
) -> Result<bool, AllocError>
    requires ready { IsReady searched.now }
    requires room { budget.old + 1 < 2 ^ 63 }
    requires start { IsGroupListingIn searched.now budget.old budget.old listed.old.items solver.old }
    ensures whole { result ≡ Ok true → IsWholeGroupListingIn searched.now budget.old budget.new listed.new.items solver.new.log }
    ensures part { result ≡ Ok false → IsGroupListingIn searched.now budget.old budget.new listed.new.items solver.new }
    ensures spent { result ≡ Ok false → budget.new ≡ 0 }
    ensures unclosed { result ≡ Ok false → Closes solver.new.database.held → ⊥ }
{
    'lines: loop {
        match solver.solve(budget)? {
            Verdict::Unsat => return Ok(true),
            Verdict::Spent => return Ok(false),
            Verdict::Sat => {
                if budget.left() == 0 {
                    return Ok(false);
                }
                budget.take();
                turn(alloc, searched, solver, listed)?;
            }
        }
    }
}
