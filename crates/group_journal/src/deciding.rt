//! Whether groups block, and whether they do so with no group to spare.
ghost use Rattle.std.specs.Prelude.{◌≡◌, true, All, length, IfOk};
ghost use Rattle.fbas_model.specs.Nodes.{members, ◌⊆◌};
ghost use Rattle.node_json.specs.Groups.{tables_of};
ghost use Rattle.group_journal.specs.Groups.{GroupsBlock, IsLeastBlock};
ghost use Rattle.group_journal.specs.Tests.{is_group_block, is_least_block};

use crate::marked::MarkedGroups;
use fbas_core::System;
use greatest_quorum::blocks;
use name_set::{GroupSet, NodeSet};
use node_json::Groups;
use std::alloc::{AllocError, Global};

/// Whether the members of the marked groups, without the faulty nodes, meet every quorum once these are deleted. `scratch` holds
/// nothing of use afterwards. The cost is that of `shrink`.
pub fn is_group_block(
    system: &System,
    faulty: &NodeSet,
    marked: &MarkedGroups<'_>,
    scratch: &mut NodeSet,
) -> bool
    requires n { marked.now.n ≡ length system.now.sets }
    requires same_faulty { length faulty.now ≡ length system.now.sets }
    requires same_scratch { length scratch.old ≡ length system.now.sets }
    ensures same_scratch { length scratch.new ≡ length scratch.old }
    ensures blocks { result ≡ is_group_block system.now.sets faulty.now marked.now.groups marked.now.marks }
    ensures is { result ≡ true → GroupsBlock system.now.sets (members faulty.now) marked.now.groups marked.now.marks }
{
    blocks(system, marked.nodes(), faulty, scratch)
}

/// Leaves of the marked groups, which block, a minimal set: the groups are tried in their order. `scratch` holds nothing of use
/// afterwards. The cost is that of `shrink` for each marked group, and a step for each of their members.
pub fn minimal_groups(
    system: &System,
    faulty: &NodeSet,
    marked: &mut MarkedGroups<'_>,
    scratch: &mut NodeSet,
)
    requires n { marked.old.n ≡ length system.now.sets }
    requires same_faulty { length faulty.now ≡ length system.now.sets }
    requires same_scratch { length scratch.old ≡ length system.now.sets }
    requires blocks { GroupsBlock system.now.sets (members faulty.now) marked.old.groups marked.old.marks }
    ensures n { marked.new.n ≡ marked.old.n }
    ensures groups { marked.new.groups ≡ marked.old.groups }
    ensures places { length marked.new.marks ≡ length marked.old.marks }
    ensures same_scratch { length scratch.new ≡ length scratch.old }
    ensures within { members marked.new.marks ⊆ members marked.old.marks }
    ensures least { IsLeastBlock system.now.sets (members faulty.now) marked.new.groups marked.new.marks }
{
    for at in 0..marked.len() {
        if marked.has(at) {
            marked.unmark(at);
            if !blocks(system, marked.nodes(), faulty, scratch) {
                marked.mark(at);
            }
        }
    }
}

/// Whether no proper subset of the groups, which block, does. `scratch` holds nothing of use afterwards. The cost is that of
/// `shrink` for each of the groups, and a count for each node.
pub fn is_least_block(
    alloc: Global,
    system: &System,
    faulty: &NodeSet,
    groups: &Groups,
    set: &GroupSet,
    scratch: &mut NodeSet,
) -> Result<bool, AllocError>
    requires sized { All (λ group. length group.members ≡ length system.now.sets) groups.now }
    requires places { length set.now ≡ length groups.now }
    requires same_faulty { length faulty.now ≡ length system.now.sets }
    requires same_scratch { length scratch.old ≡ length system.now.sets }
    requires blocks { GroupsBlock system.now.sets (members faulty.now) (tables_of groups.now) set.now }
    ensures same_scratch { length scratch.new ≡ length scratch.old }
    ensures least { IfOk result (λ r. r ≡ is_least_block system.now.sets faulty.now (tables_of groups.now) set.now) }
{
    let mut marked = MarkedGroups::none(alloc, groups, system.len())?;
    marked.mark_all(set);
    minimal_groups(system, faulty, &mut marked, scratch);
    Ok(marked.marks().same(set))
}
