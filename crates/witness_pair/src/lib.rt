//! Two quorums that share no node: what shows that a system doesn't intersect.
#![tactic(auto)]

ghost use Rattle.std.specs.Prelude.{◌≡◌, length, IfOk, IfErr, unwrap_or};
ghost use Rattle.fbas_model.specs.Nodes.{members};
ghost use Rattle.fbas_model.specs.Counting.{is_quorum};
ghost use Rattle.witness_pair.specs.Pairs.{IsPair, AreTheTwo, IsFault};
ghost use Rattle.witness_pair.specs.Making.{least, shared, pair_of, made};

use fbas_core::System;
use name_set::NodeSet;
use thiserror::Error;

/// Two quorums that share no node, the one with the least node of both first.
#[derive(Drop)]
pub struct Pair {
    /// The quorum that has the least node of both.
    pub first: NodeSet,
    /// The other one.
    pub second: NodeSet,
}

/// One of two sets.
#[derive(Clone, Copy, Debug, PartialEq, Eq)]
pub enum Side {
    First,
    Second,
}

/// Why two sets are no pair of quorums that share no node.
#[derive(Clone, Copy, Debug, PartialEq, Eq, Error)]
pub enum PairFault {
    /// This set is no quorum once the faulty nodes are deleted.
    #[error("one of the sets is no quorum")]
    NotQuorum(Side),
    /// Both are quorums, and this is the least node that they share.
    #[error("the quorums share node {0}")]
    Overlap(u32),
}

fn is_quorum(system: &System, faulty: &NodeSet, u: &NodeSet) -> bool
    requires same_n { length u.now ≡ length system.now.sets }
    requires same_faulty { length faulty.now ≡ length system.now.sets }
    ensures { result ≡ is_quorum system.now.sets faulty.now u.now }
{
    system.is_quorum(u, faulty)
}

fn least_shared(u: &NodeSet, w: &NodeSet) -> Option<u32>
    requires { length u.now ≡ length w.now }
    ensures { result ≡ least (shared u.now w.now) }
{
    let mut both = u.copy();
    both.meet(w);
    both.least()
}

fn least(u: &NodeSet) -> u32
    ensures { result ≡ unwrap_or (least u.now) 0 }
{
    u.least().unwrap_or(0)
}

fn pair_of(u: NodeSet, w: NodeSet) -> Pair
    ensures { result ≡ pair_of u w }
{
    if least(&w) < least(&u) {
        Pair {
            first: w,
            second: u,
        }
    } else {
        Pair {
            first: u,
            second: w,
        }
    }
}

/// The pair of two sets, where both are quorums (Mazières 2015) once the faulty nodes are deleted and they share no node.
///
/// The set with the least node of both comes first, whichever it was. The faults come in this order: `u` is no quorum,
/// `w` is no quorum, the two share a node. Takes no memory; a fault drops both sets. Linear in the entries of the
/// members' quorum sets.
pub fn make_pair(
    system: &System,
    faulty: &NodeSet,
    u: NodeSet,
    w: NodeSet,
) -> Result<Pair, PairFault>
    requires same_u { length u ≡ length system.now.sets }
    requires same_w { length w ≡ length system.now.sets }
    requires same_faulty { length faulty.now ≡ length system.now.sets }
    ensures pair { IfOk result (IsPair system.now.sets (members faulty.now)) }
    ensures sets { IfOk result (AreTheTwo u w) }
    ensures fault { IfErr result (IsFault system.now.sets (members faulty.now) (members u) (members w)) }
    ensures computed { result ≡ made system.now.sets faulty.now u w }
{
    if !is_quorum(system, faulty, &u) {
        return Err(PairFault::NotQuorum(Side::First));
    }
    if !is_quorum(system, faulty, &w) {
        return Err(PairFault::NotQuorum(Side::Second));
    }
    if let Some(v) = least_shared(&u, &w) {
        return Err(PairFault::Overlap(v));
    }
    Ok(pair_of(u, w))
}
