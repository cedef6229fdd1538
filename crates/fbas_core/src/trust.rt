//! The trust closure of a node: the nodes that are reached from it through quorum sets.

ghost use Rattle.std.specs.Prelude.{◌≡◌, ◌<◌, length, MatchOption};
ghost use Rattle.fbas_model.specs.Nodes.{members, ∅, ◌∖◌, IsLeast};
ghost use Rattle.fbas_model.specs.Fbas.{IsClosure};
ghost use Rattle.fbas_model.specs.Restriction.{closure_of};

use crate::System;
use name_set::NodeSet;

/// The least node that is reached and was not visited.
fn next_node(reached: &NodeSet, visited: &NodeSet) -> Option<u32>
    requires { length reached.now ≡ length visited.now }
    ensures { let waiting = members reached.now ∖ members visited.now in MatchOption result (waiting ≡ ∅) (IsLeast waiting) }
{
    let mut waiting = reached.copy();
    waiting.minus(visited);
    waiting.least()
}

impl System {
    /// The trust closure of the node: the least set that holds it and every node that stands in a member's quorum set, at
    /// any depth and whatever the thresholds.
    ///
    /// Each member is visited once: linear in the entries of the members' quorum sets, and n / 64 steps for each member.
    /// Takes no memory.
    pub fn closure(&self, v: u32) -> NodeSet
        requires { v < length self.now.sets }
        ensures table { result ≡ closure_of self.now.sets v }
        ensures least { IsClosure self.now.sets v (members result) }
        ensures same_n { length result ≡ length self.now.sets }
    {
        let mut reached = NodeSet::new(self.len());
        let mut visited = reached.copy();
        reached.put(v);
        while let Some(node) = next_node(&reached, &visited) {
            visited.put(node);
            if let Some(quorum_set) = self.quorum_set(node) {
                quorum_set.mentions(&mut reached);
            }
        }
        reached
    }
}
