//! The search for a smallest quorum, line by line.
ghost use Rattle.std.specs.Prelude.{◌≡◌, ◌⊎◌, ℕ, true, false, Ok, ◌+◌, ◌<◌, ◌≤◌, ◌^◌, length, OnOk};
ghost use Rattle.fbas_model.specs.Nodes.{members, IsInhabited, ◌⊆◌, size};
ghost use Rattle.lrat_model.specs.Clauses.{Satisfies};
ghost use Rattle.lrat_model.specs.Lemmas.{IsDue};
ghost use Rattle.lrat_model.specs.Propagation.{Closes};
ghost use Rattle.cdcl_core.specs.Solving.{assignment};
ghost use Rattle.clause_encoder.specs.declared.limits.TheConstants.{MOST_VARS};
ghost use Rattle.clause_encoder.specs.NameCounter.{counter_vars};
ghost use Rattle.greatest_quorum.specs.Greatest.{greatest_of};
ghost use Rattle.blocking_lists.specs.Search.{IsListed};
ghost use Rattle.least_journal.specs.Least.{clause_in};
ghost use Rattle.least_quorum.specs.Outcomes.{IsWanted};
ghost use Rattle.least_quorum.specs.Search.{best_in, IsLeastListing, IsWholeLeastListing};

use blocking_lists::{ListLine, list_set, model_set};
use cdcl_core::{Budget, Solver, Verdict};
use enumeration_journal::Listed;
use fbas_core::System;
use fbas_model::MOST_NODES;
use greatest_quorum::{blocks, minimal_block, minimal_quorum};
use least_journal::clause_in;
use name_set::NodeSet;
use std::alloc::{AllocError, Global};

/// Adds the clause of a set to the solver, and lists the set.
fn add_line(
    alloc: Global,
    which: Listed,
    n: u32,
    greatest: &NodeSet,
    set: NodeSet,
    solver: &mut Solver,
    listed: &mut Vec<ListLine>,
) -> Result<(), AllocError>
    requires places { length greatest.now ≡ n }
    requires same_n { length set ≡ n }
    requires few { n ≤ MOST_NODES }
    requires within { members set ⊆ members greatest.now }
    requires some { which ≡ Listed.Smaller → IsInhabited (members set) }
    requires small { counter_vars (size greatest.now) ≤ MOST_VARS }
    requires vars { solver.old.vars ≡ counter_vars (size greatest.now) }
    requires room { solver.old.database.last + 1 < 2 ^ 63 }
    ensures { OnOk result (IsListed which (clause_in greatest.now which set) set listed.old.items listed.new.items solver.old solver.new) }
{
    let clause = clause_in(alloc, which, n, greatest, &set)?;
    list_set(which, &clause, set, solver, listed)
}

/// Lists a set for the solver's assignment: if the nodes whose variables are false block, a minimal blocking set among them, which
/// takes a unit, or none where no unit is left, which it answers by false; and else a minimal quorum among the other nodes, which
/// is smaller than the one listed before it.
fn turn(
    alloc: Global,
    system: &System,
    faulty: &NodeSet,
    greatest: &NodeSet,
    solver: &mut Solver,
    listed: &mut Vec<ListLine>,
    budget: &mut Budget,
) -> Result<bool, AllocError>
    requires same_faulty { length faulty.now ≡ length system.now.sets }
    requires greatest { greatest.now ≡ greatest_of system.now.sets faulty.now }
    requires small { counter_vars (size greatest.now) ≤ MOST_VARS }
    requires vars { solver.old.vars ≡ counter_vars (size greatest.now) }
    requires room { solver.old.database.last + 1 < 2 ^ 63 }
    requires solves { Satisfies (assignment solver.old) solver.old.database.held }
    ensures goes_on { result ≡ Ok true → (total : ℕ) → IsLeastListing system.now.sets (members faulty.now) greatest.now total budget.old listed.old.items solver.old → IsLeastListing system.now.sets (members faulty.now) greatest.now total budget.new listed.new.items solver.new }
    ensures falls { result ≡ Ok true → (total : ℕ) → IsLeastListing system.now.sets (members faulty.now) greatest.now total budget.old listed.old.items solver.old → budget.new + best_in greatest.now listed.new.items < budget.old + best_in greatest.now listed.old.items }
    ensures stops { result ≡ Ok false → (budget.old ≡ 0) × (budget.new ≡ 0) × (listed.new.items ≡ listed.old.items) × (solver.new ≡ solver.old) }
    ensures wanted { result ≡ Ok false → IsWanted system.now.sets (members faulty.now) greatest.now solver.old.database.held }
{
    let n = system.len();
    let mut set = model_set(solver, Listed::Quorum, n, greatest);
    let mut inside = NodeSet::new(n);
    let mut scratch = NodeSet::new(n);
    if blocks(system, &set, faulty, &mut inside) {
        if budget.left() == 0 {
            return Ok(false);
        }
        budget.take();
        minimal_block(system, &mut set, faulty, &mut scratch);
        add_line(alloc, Listed::Blocking, n, greatest, set, solver, listed)?;
        return Ok(true);
    }
    minimal_quorum(system, &mut inside, faulty, &mut scratch);
    add_line(alloc, Listed::Smaller, n, greatest, inside, solver, listed)?;
    Ok(true)
}

/// Lists a set for each assignment of the solver, until there is none more, which it answers by true, or a unit is wanted and none
/// is left.
pub fn run(
    alloc: Global,
    system: &System,
    faulty: &NodeSet,
    greatest: &NodeSet,
    solver: &mut Solver,
    listed: &mut Vec<ListLine>,
    budget: &mut Budget,
) -> Result<bool, AllocError>
    requires same_faulty { length faulty.now ≡ length system.now.sets }
    requires greatest { greatest.now ≡ greatest_of system.now.sets faulty.now }
    requires small { counter_vars (size greatest.now) ≤ MOST_VARS }
    requires room { budget.old < 2 ^ 62 }
    requires start { IsLeastListing system.now.sets (members faulty.now) greatest.now budget.old budget.old listed.old.items solver.old }
    ensures whole { result ≡ Ok true → IsWholeLeastListing system.now.sets (members faulty.now) greatest.now budget.old budget.new listed.new.items solver.new.log }
    ensures part { result ≡ Ok false → IsLeastListing system.now.sets (members faulty.now) greatest.now budget.old budget.new listed.new.items solver.new }
    ensures spent { result ≡ Ok false → budget.new ≡ 0 }
    ensures unclosed { result ≡ Ok false → Closes solver.new.database.held → ⊥ }
    ensures wanted { result ≡ Ok false → IsDue solver.new.database.held ⊎ IsWanted system.now.sets (members faulty.now) greatest.now solver.new.database.held }
{
    'lines: loop {
        match solver.solve(budget)? {
            Verdict::Unsat => return Ok(true),
            Verdict::Spent => return Ok(false),
            Verdict::Sat => {
                let goes_on = turn(alloc, system, faulty, greatest, solver, listed, budget)?;
                if !goes_on {
                    return Ok(false);
                }
            }
        }
    }
}
