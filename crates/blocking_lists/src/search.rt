//! The search for all minimal sets of a kind, line by line.
ghost use Rattle.std.specs.Prelude.{◌≡◌, ◌≢◌, ℕ, true, false, Ok, ◌+◌, ◌<◌, ◌^◌, length, OnOk};
ghost use Rattle.fbas_model.specs.Nodes.{members, ◌⊆◌, size};
ghost use Rattle.lrat_model.specs.Clauses.{Satisfies};
ghost use Rattle.lrat_model.specs.Ranges.{IsInRange};
ghost use Rattle.lrat_model.specs.Propagation.{Closes};
ghost use Rattle.cdcl_core.specs.Solving.{assignment};
ghost use Rattle.enumeration_journal.specs.Numbering.{clause_for};
ghost use Rattle.blocking_lists.specs.Search.{IsReady, IsListed, IsListingIn, IsWholeListingIn};

use crate::journal::{ListLine, ListedSet};
use crate::model::model_set;
use cdcl_core::{Budget, Solver, Verdict};
use enumeration_journal::{Listed, clause_of};
use fbas_core::System;
use greatest_quorum::{blocks, minimal_block, minimal_quorum};
use lrat_model::Lit;
use name_set::{NodeSet, NodeWords};
use std::alloc::{AllocError, Global};

/// What is searched for all minimal sets of a kind: a system with its faulty nodes, and the greatest quorum once these are deleted.
#[derive(Clone, Copy)]
pub struct Searched<'a> {
    pub sought: Listed,
    pub system: &'a System,
    pub faulty: &'a NodeSet,
    pub greatest: &'a NodeSet,
}

/// Adds the clause of a set to the solver, and lists the set after the steps of the solver's log. Linear in the literals.
pub fn list_set<const W: usize>(
    which: Listed,
    clause: &[Lit],
    set: NodeWords<W>,
    solver: &mut Solver,
    listed: &mut Vec<ListedSet<W>>,
) -> Result<(), AllocError>
    requires range { IsInRange solver.old.vars clause.now }
    requires room { solver.old.database.last + 1 < 2 ^ 63 }
    ensures listed { OnOk result (IsListed which clause.now set.entry listed.old.items listed.new.items solver.old solver.new) }
    ensures log { solver.new.log ≡ solver.old.log }
    ensures vars { solver.new.vars ≡ solver.old.vars }
{
    let after = solver.log().len();
    let id = solver.add(clause)?;
    listed.push(ListedSet::new(after, which, id, set))?;
    Ok(())
}

/// Adds the clause of a set of a list to the solver, and lists the set.
fn add_line(
    alloc: Global,
    which: Listed,
    searched: &Searched<'_>,
    set: NodeSet,
    solver: &mut Solver,
    listed: &mut Vec<ListLine>,
) -> Result<(), AllocError>
    requires ready { IsReady searched.now }
    requires same_n { length set ≡ length searched.now.system.now.sets }
    requires within { members set ⊆ members searched.now.greatest.now }
    requires vars { solver.old.vars ≡ size searched.now.greatest.now }
    requires room { solver.old.database.last + 1 < 2 ^ 63 }
    ensures { OnOk result (IsListed which (clause_for searched.now.sought searched.now.greatest.now which set) set listed.old.items listed.new.items solver.old solver.new) }
{
    let n = searched.system.len();
    let clause = clause_of(alloc, searched.sought, which, n, searched.greatest, &set)?;
    list_set(which, &clause, set, solver, listed)
}

/// Lists a set whose clause is false in the solver's assignment: a minimal quorum outside the assignment's set, or where there
/// is none a minimal blocking set inside it.
fn turn(
    alloc: Global,
    searched: &Searched<'_>,
    solver: &mut Solver,
    listed: &mut Vec<ListLine>,
) -> Result<(), AllocError>
    requires ready { IsReady searched.now }
    requires vars { solver.old.vars ≡ size searched.now.greatest.now }
    requires room { solver.old.database.last + 1 < 2 ^ 63 }
    requires solves { Satisfies (assignment solver.old) solver.old.database.held }
    ensures goes_on { OnOk result ((total left : ℕ) → total < 2 ^ 63 → IsListingIn searched.now total (left + 1) listed.old.items solver.old → IsListingIn searched.now total left listed.new.items solver.new) }
{
    let (system, faulty) = (searched.system, searched.faulty);
    let n = system.len();
    let mut set = model_set(solver, searched.sought, n, searched.greatest);
    let mut outside = NodeSet::new(n);
    let mut scratch = NodeSet::new(n);
    if blocks(system, &set, faulty, &mut outside) {
        minimal_block(system, &mut set, faulty, &mut scratch);
        return add_line(alloc, Listed::Blocking, searched, set, solver, listed);
    }
    minimal_quorum(system, &mut outside, faulty, &mut scratch);
    add_line(alloc, Listed::Quorum, searched, outside, solver, listed)
}

/// Lists a set for each assignment of the solver, until there is none more, which it answers by true, or no unit is left.
pub fn run(
    alloc: Global,
    searched: &Searched<'_>,
    solver: &mut Solver,
    listed: &mut Vec<ListLine>,
    budget: &mut Budget,
) -> Result<bool, AllocError>
    requires ready { IsReady searched.now }
    requires room { budget.old + 1 < 2 ^ 63 }
    requires start { IsListingIn searched.now budget.old budget.old listed.old.items solver.old }
    ensures whole { result ≡ Ok true → IsWholeListingIn searched.now budget.old budget.new listed.new.items solver.new.log }
    ensures part { result ≡ Ok false → IsListingIn searched.now budget.old budget.new listed.new.items solver.new }
    ensures spent { result ≡ Ok false → budget.new ≡ 0 }
    ensures unclosed { result ≡ Ok false → Closes solver.new.database.held → ⊥ }
{
    'lines: loop {
        match solver.solve(budget)? {
            Verdict::Unsat => return Ok(true),
            Verdict::Spent => return Ok(false),
            Verdict::Sat => {
                if budget.left() == 0 {
                    return Ok(false);
                }
                budget.take();
                turn(alloc, searched, solver, listed)?;
            }
        }
    }
}
