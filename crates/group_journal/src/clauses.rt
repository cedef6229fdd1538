//! The clauses of listed sets.
ghost use Rattle.std.specs.Prelude.{◌≡◌, ◌<◌, All, length, nat_lt, ◌&&◌, IfOk};
ghost use Rattle.fbas_model.specs.Nodes.{members, ◌⊆◌, size};
ghost use Rattle.lrat_model.specs.Ranges.{IsInRange};
ghost use Rattle.enumeration_journal.specs.declared.kinds.Listed.TheVariants.{Quorum, Blocking};
ghost use Rattle.node_json.specs.Groups.{tables_of};
ghost use Rattle.group_journal.specs.Groups.{touching};
ghost use Rattle.group_journal.specs.Rules.{group_clause};

use enumeration_journal::{Listed, clause_of};
use lrat_model::Lit;
use name_set::{GroupSet, NodeSet};
use node_json::Groups;
use std::alloc::{AllocError, Global};

/// The groups that have a member among the nodes: n / 64 steps for each group.
pub fn touching(groups: &Groups, nodes: &NodeSet) -> GroupSet
    requires sized { All (λ group. length group.members ≡ length nodes.now) groups.now }
    ensures { result ≡ touching (tables_of groups.now) nodes.now }
{
    let mut touched = GroupSet::new(groups.len());
    for at in 0..groups.len() {
        if groups.members(at).meets(nodes) {
            touched.put(at);
        }
    }
    touched
}

/// The clause of a quorum: one of the groups that have a member in it is in the set. There is a variable for each of the groups
/// that are touched, as by the greatest quorum. The cost is that of `touching`.
pub fn quorum_clause(
    alloc: Global,
    groups: &Groups,
    touched: &GroupSet,
    quorum: &NodeSet,
) -> Result<Vec<Lit>, AllocError>
    requires sized { All (λ group. length group.members ≡ length quorum.now) groups.now }
    requires places { length touched.now ≡ length groups.now }
    requires within { members (touching (tables_of groups.now) quorum.now) ⊆ members touched.now }
    ensures clause { IfOk result (λ clause. clause.items ≡ group_clause (tables_of groups.now) touched.now Quorum quorum.now) }
    ensures range { IfOk result (λ clause. IsInRange (size touched.now) clause.items) }
{
    let named = touching(groups, quorum);
    clause_of(
        alloc,
        Listed::Blocking,
        Listed::Quorum,
        groups.len(),
        touched,
        &named,
    )
}

/// The clause of a blocking set of groups: one of them is not in the set. Linear in the groups.
pub fn block_clause(
    alloc: Global,
    groups: &Groups,
    touched: &GroupSet,
    set: &GroupSet,
) -> Result<Vec<Lit>, AllocError>
    requires places { length touched.now ≡ length groups.now }
    requires same_n { length set.now ≡ length groups.now }
    requires within { members set.now ⊆ members touched.now }
    ensures clause { IfOk result (λ clause. clause.items ≡ group_clause (tables_of groups.now) touched.now Blocking set.now) }
    ensures range { IfOk result (λ clause. IsInRange (size touched.now) clause.items) }
{
    clause_of(
        alloc,
        Listed::Blocking,
        Listed::Blocking,
        groups.len(),
        touched,
        set,
    )
}
