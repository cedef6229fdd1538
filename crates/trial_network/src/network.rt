//! The trial configuration as a system.

ghost use Rattle.std.specs.Prelude.{◌≡◌, ◌+◌, ◌*◌, ◌≤◌, ◌<◌, ◌%◌, IfOk, Some, replicate};
ghost use Rattle.fbas_model.specs.Lists.{inner_entries};
ghost use Rattle.trial_network.specs.declared.configuration.TheConstants.{MOST_ORGANISATIONS};
ghost use Rattle.trial_network.specs.Trial.{names_from, node_name, organisation_set, organisation_sets, trial_set, trial_system};

use fbas_core::System;
use name_set::Names;
use quorum_set::QuorumSet;
use std::alloc::{AllocError, Global};

/// The last digit of a number.
fn digit(number: u32) -> u8
    ensures { result ≡ 48 + number % 10 }
{
    b'0' + (number % 10) as u8
}

/// The name of a node: the letter t and three digits.
fn node_name(alloc: Global, node: u32) -> Result<Vec<u8>, AllocError>
    ensures { IfOk result (λ name. name.items ≡ node_name node) }
{
    Vec::from_slice(
        alloc,
        &[b't', digit(node / 100), digit(node / 10), digit(node)],
    )
}

/// The names of this many nodes.
fn node_names(alloc: Global, nodes: u32) -> Result<Names, AllocError>
    requires { nodes ≤ 3 * MOST_ORGANISATIONS }
    ensures { IfOk result (λ names. names ≡ names_from 0 nodes) }
{
    let mut list = Vec::with_capacity(alloc, nodes as usize)?;
    for at in 0..nodes {
        list.push(node_name(alloc, at)?)?;
    }
    Names::of(list)
}

/// The inner set of an organisation: two of its three nodes.
fn organisation(alloc: Global, at: u32) -> Result<QuorumSet, AllocError>
    requires { at < MOST_ORGANISATIONS }
    ensures { IfOk result (λ set. set ≡ organisation_set at) }
{
    let validators = Vec::from_slice(alloc, &[3 * at, 3 * at + 1, 3 * at + 2])?;
    Ok(QuorumSet {
        threshold: 2,
        validators,
        inner: Vec::new(alloc),
    })
}

/// The inner sets of this many organisations.
fn organisations(alloc: Global, n: u32) -> Result<Vec<QuorumSet>, AllocError>
    requires { n ≤ MOST_ORGANISATIONS }
    ensures { IfOk result (λ sets. inner_entries sets.items ≡ organisation_sets 0 n) }
{
    let mut sets = Vec::with_capacity(alloc, n as usize)?;
    for at in 0..n {
        sets.push(organisation(alloc, at)?)?;
    }
    Ok(sets)
}

/// The quorum set of every node: more than two thirds of the organisations.
fn quorum_set(alloc: Global, n: u32) -> Result<QuorumSet, AllocError>
    requires { n ≤ MOST_ORGANISATIONS }
    ensures { IfOk result (λ set. set ≡ trial_set n) }
{
    let wanted = (n - n.saturating_sub(1) / 3) as u64;
    let inner = organisations(alloc, n)?;
    Ok(QuorumSet {
        threshold: wanted,
        validators: Vec::new(alloc),
        inner,
    })
}

/// The quorum sets of all nodes of this many organisations.
fn quorum_sets(alloc: Global, n: u32) -> Result<Vec<Option<QuorumSet>>, AllocError>
    requires { n ≤ MOST_ORGANISATIONS }
    ensures { IfOk result (λ sets. sets.items ≡ replicate (3 * n) (Some (trial_set n))) }
{
    let mut sets = Vec::with_capacity(alloc, 3 * n as usize)?;
    for _node in 0..3 * n {
        let set = quorum_set(alloc, n)?;
        sets.push(Some(set))?;
    }
    Ok(sets)
}

/// The system of the trial configuration of this many organisations.
pub(crate) fn network(alloc: Global, n: u32) -> Result<System, AllocError>
    requires { n ≤ MOST_ORGANISATIONS }
    ensures { IfOk result (λ system. system ≡ trial_system n) }
{
    let names = node_names(alloc, 3 * n)?;
    let sets = quorum_sets(alloc, n)?;
    Ok(System::of(alloc, names, sets)?)
}
