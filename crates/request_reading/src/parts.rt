//! The part of a system that is asked about: the whole, or the trust closure of a node.
ghost use Rattle.std.specs.Prelude.{◌≡◌, ◌<◌, IfOk, IfSome, length};
ghost use Rattle.request_reading.specs.Given.{FitsOperands};
ghost use Rattle.request_reading.specs.Questions.{closure_from as spec_closure_from, restricted_to as spec_restricted_to, cut_to, node_of_whole as spec_node_of_whole, part_named as spec_part_named, FitsClosure, FitsPart};

use crate::names::NamedNodes;
use crate::operands::Operands;
use fbas_core::System;
use name_set::NodeSet;
use std::alloc::{AllocError, Global};

/// A part of a system, and the nodes that the options name, by their numbers in it.
#[derive(Drop)]
pub struct NodesInPart {
    pub system: System,
    /// That of `--node`.
    pub node: Option<u32>,
    /// The faulty ones.
    pub faulty: NodeSet,
    /// Those of `--set`.
    pub set: NodeSet,
}

// The trust closure of a node, or none where there is no node.
fn closure_from(system: &System, node: Option<u32>) -> Option<NodeSet>
    requires { IfSome node (λ v. v < length system.now.sets) }
    ensures closure { result ≡ spec_closure_from system.now node }
    ensures fits { FitsClosure system.now result }
{
    match node {
        Some(node) => Some(system.closure(node)),
        None => None,
    }
}

// The node that `--node` names: no command asks about one in a trust closure.
fn node_of_whole(from: Option<u32>, node: Option<u32>) -> Option<u32>
    ensures { result ≡ spec_node_of_whole from node }
{
    match from {
        Some(_) => None,
        None => node,
    }
}

// The nodes of a set that are in the part, by their numbers there.
fn cut_to(system: &System, closure: &Option<NodeSet>, set: NodeSet) -> NodeSet
    requires fits { FitsClosure system.now closure.now }
    requires same_n { length set ≡ length system.now.sets }
    ensures cut { result ≡ cut_to closure.now set }
    ensures places { length result ≡ length (spec_restricted_to system.now closure.now).sets }
{
    match closure {
        Some(closure) => system.cut(&set, closure),
        None => set,
    }
}

// The system restricted to a trust closure, or the whole system.
fn restricted_to(
    alloc: Global,
    system: System,
    closure: &Option<NodeSet>,
) -> Result<System, AllocError>
    requires { FitsClosure system closure.now }
    ensures { IfOk result (λ part. part ≡ spec_restricted_to system closure.now) }
{
    match closure {
        Some(closure) => system.restrict(alloc, closure),
        None => Ok(system),
    }
}

/// The part that the options name, the whole system or the trust closure of a node, and the nodes in it.
pub fn part_named(alloc: Global, operands: Operands) -> Result<NodesInPart, AllocError>
    requires { FitsOperands operands }
    ensures part { IfOk result (λ p. p ≡ spec_part_named operands) }
    ensures fits { IfOk result FitsPart }
{
    let Operands {
        system,
        orgs: _,
        named,
    } = operands;
    let NamedNodes {
        node,
        from,
        faulty,
        set,
    } = named;
    let closure = closure_from(&system, from);
    let faulty_there = cut_to(&system, &closure, faulty);
    let set_there = cut_to(&system, &closure, set);
    let part = restricted_to(alloc, system, &closure)?;
    Ok(NodesInPart {
        system: part,
        node: node_of_whole(from, node),
        faulty: faulty_there,
        set: set_there,
    })
}
