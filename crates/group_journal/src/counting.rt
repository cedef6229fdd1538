//! How many of some groups have each node.
ghost use Rattle.std.specs.Prelude.{◌≡◌, ℕ, ◌+◌, ◌<◌, ◌≤◌, ◌==◌, ◌&&◌, not, true, cond, length, slice_index_or};
ghost use Rattle.fbas_model.specs.Nodes.{members};

use fbas_model::{MOST_NODES, MOST_ORGS};
use name_set::NodeSet;

/// One group more, with these members: linear in them.
pub(crate) fn count_members(group: &NodeSet, counts: &mut Vec<u32>)
    requires same_n { length counts.old.items ≡ length group.now }
    requires few { (v : ℕ) → slice_index_or counts.old.items v 0 ≤ MOST_NODES + MOST_ORGS }
    ensures same_n { length counts.new.items ≡ length counts.old.items }
    ensures counts { (v : ℕ) → slice_index_or counts.new.items v 0 ≡ slice_index_or counts.old.items v 0 + cond (members group.now v) 1 0 }
{
    for v in group.iter() {
        counts[v as usize] += 1;
    }
}

/// One group less, with these members: linear in them.
pub(crate) fn uncount_members(group: &NodeSet, counts: &mut Vec<u32>)
    requires same_n { length counts.old.items ≡ length group.now }
    requires some { (v : ℕ) → members group.now v ≡ true → 0 < slice_index_or counts.old.items v 0 }
    ensures same_n { length counts.new.items ≡ length counts.old.items }
    ensures counts { (v : ℕ) → slice_index_or counts.new.items v 0 + cond (members group.now v) 1 0 ≡ slice_index_or counts.old.items v 0 }
{
    for v in group.iter() {
        counts[v as usize] -= 1;
    }
}

/// Takes the members that no group has any more out of the nodes: linear in the members.
pub(crate) fn drop_uncounted(group: &NodeSet, counts: &[u32], nodes: &mut NodeSet)
    requires same_n { length counts.now ≡ length group.now }
    requires same_nodes { length nodes.old ≡ length group.now }
    ensures same_n { length nodes.new ≡ length nodes.old }
    ensures nodes { (v : ℕ) → members nodes.new v ≡ (members nodes.old v && not (members group.now v && slice_index_or counts.now v 0 == 0)) }
{
    for v in group.iter() {
        if counts[v as usize] == 0 {
            nodes.take(v);
        }
    }
}
