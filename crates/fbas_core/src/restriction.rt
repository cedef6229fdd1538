//! A system that is restricted to a closed set of its nodes.

ghost use Rattle.std.specs.Prelude.{◌≡◌, ◌<◌, ◌↔◌, length, map, take, All, IfOk, slice_index, option_map};
ghost use Rattle.fbas_model.specs.Nodes.{Nodes, Table, members, size, ◌⊆◌};
ghost use Rattle.fbas_model.specs.QuorumSets.{IsBelow};
ghost use Rattle.fbas_model.specs.Fbas.{IsClosed, Quorum, all_nodes};
ghost use Rattle.fbas_model.specs.Restriction.{kept as kept_of, renumbered, restricted_sets, restricted, raised};
ghost use Rattle.fbas_core.specs.Ranks.{AreRanks};

use crate::System;
use name_set::NodeSet;
use quorum_set::QuorumSet;
use std::alloc::{AllocError, Global};

/// The number that each node has where only the kept ones are left.
fn ranks(alloc: Global, kept: &NodeSet, n: u32) -> Result<Vec<u32>, AllocError>
    requires { length kept.now ≡ n }
    ensures { IfOk result (λ ranks. AreRanks kept.now ranks.items) }
{
    let mut ranks = Vec::with_capacity(alloc, n as usize)?;
    let mut rank = 0;
    for v in 0..n {
        ranks.push(rank)?;
        if kept.has(v) {
            rank += 1;
        }
    }
    Ok(ranks)
}

fn renumber_nodes(alloc: Global, nodes: &[u32], ranks: &[u32]) -> Result<Vec<u32>, AllocError>
    requires { All (λ w. w < length ranks.now) nodes.now }
    ensures { IfOk result (λ v. v.items ≡ map (λ w. slice_index ranks.now w) nodes.now) }
{
    let mut numbers = Vec::with_capacity(alloc, nodes.len())?;
    for node in nodes {
        numbers.push(ranks[*node as usize])?;
    }
    Ok(numbers)
}

/// The quorum set with the ranks of its nodes in their places.
fn renumber(alloc: Global, quorum_set: &QuorumSet, ranks: &[u32]) -> Result<QuorumSet, AllocError>
    requires { IsBelow (length ranks.now) quorum_set.now }
    ensures { IfOk result (λ q. (t : Table) → AreRanks t ranks.now → q ≡ renumbered t quorum_set.now) }
{
    let validators = renumber_nodes(alloc, &quorum_set.validators, ranks)?;
    let mut inner = Vec::with_capacity(alloc, quorum_set.inner.len())?;
    for one in &quorum_set.inner {
        inner.push(renumber(alloc, one, ranks)?)?;
    }
    Ok(QuorumSet {
        threshold: quorum_set.threshold,
        validators,
        inner,
    })
}

impl System {
    /// The quorum sets of the kept nodes, by the ranks of the nodes in them.
    fn kept_sets(
        &self,
        alloc: Global,
        kept: &NodeSet,
        ranks: &[u32],
    ) -> Result<Vec<Option<QuorumSet>>, AllocError>
        requires same_n { length kept.now ≡ length self.now.sets }
        requires ranks { AreRanks kept.now ranks.now }
        ensures { IfOk result (λ sets. sets.items ≡ restricted_sets kept.now self.now.sets) }
    {
        let mut sets = Vec::with_capacity(alloc, kept.count() as usize)?;
        for v in kept.iter() {
            sets.push(match self.quorum_set(v) {
                Some(quorum_set) => Some(renumber(alloc, quorum_set, ranks)?),
                None => None,
            })?;
        }
        Ok(sets)
    }

    /// The system restricted to a closed set of its nodes: their names, in the same order, each with the quorum set that it
    /// has here or none.
    ///
    /// A node's number there is how many kept nodes come before it. Linear in the nodes, the bytes of the names that are kept
    /// and the entries of their quorum sets.
    pub fn restrict(&self, alloc: Global, kept: &NodeSet) -> Result<System, AllocError>
        requires same_n { length kept.now ≡ length self.now.sets }
        requires closed { IsClosed self.now.sets (members kept.now) }
        ensures part { IfOk result (λ part. part ≡ restricted kept.now self.now) }

        // A set is a quorum of the part without the nodes of b exactly where what it stands for is one of the whole without b.
        ensures law { IfOk result (λ part. (b : Table) (w : Nodes) → length b ≡ length self.now.sets → w ⊆ all_nodes part.sets
            → Quorum part.sets (members (kept_of kept.now b)) w ↔ Quorum self.now.sets (members b) (raised kept.now w)) }

        // Each set of kept nodes is what one set of the part stands for.
        ensures onto { IfOk result (λ part. (u : Nodes) → u ⊆ members kept.now
            → (w : Nodes) × w ⊆ all_nodes part.sets × u ≡ raised kept.now w) }
        ensures size { IfOk result (λ part. length part.sets ≡ size kept.now) }
    {
        let ranks = ranks(alloc, kept, self.len())?;
        let sets = self.kept_sets(alloc, kept, &ranks)?;
        let names = self.names.kept(alloc, kept)?;
        let part = System::of(alloc, names, sets)?;
        Ok(part)
    }

    /// The members of the set that are kept, by the numbers that they have in the system restricted to the kept nodes.
    /// O(n / 64) and as many steps as are kept. Takes no memory.
    pub fn cut(&self, set: &NodeSet, kept: &NodeSet) -> NodeSet
        requires same_n { length set.now ≡ length self.now.sets }
        requires same_kept { length kept.now ≡ length self.now.sets }
        ensures part { result ≡ kept_of kept.now set.now }
        ensures size { length result ≡ size kept.now }
    {
        // A proof sees the limit on nodes once a field is used.
        let _ = &self.names;
        let mut part = NodeSet::new(kept.count());
        let mut rank = 0;
        for v in kept.iter() {
            if set.has(v) {
                part.put(rank);
            }
            rank += 1;
        }
        part
    }
}
