//! The configuration of a system as a tree of JSON.

ghost use Rattle.std.specs.Prelude.{◌≡◌, ◌<◌, IfOk, IsTrue, All, length, map, string_bytes};
ghost use Rattle.std.specs.List.Sorted.{IsStrictlySortedBy};
ghost use Rattle.serde_json.specs.Data.{array};
ghost use Rattle.serde_json.specs.View.{view};
ghost use Rattle.fbas_model.specs.Names.{is_key, name_cmp};
ghost use Rattle.fbas_model.specs.QuorumSets.{IsBelow};
ghost use Rattle.fbas_model.specs.Systems.{IsSystem};
ghost use Rattle.config_text.specs.Written.{name_of, named, nodes_named, strings, set_with, set_data, node_with, bare_node, config_data, IsListed, AreListed, IsNodeTree};

use fbas_core::System;
use name_set::Names;
use quorum_set::QuorumSet;
use serde_json::{Value, json};
use std::alloc::{AllocError, Global};
use std::str::from_utf8;

/// The name of a node as a text: a key has ASCII bytes alone.
fn name_text(alloc: Global, names: &Names, v: u32) -> Result<String, AllocError>
    requires node { v < length names.now }
    requires keys { All (λ name. IsTrue (is_key name)) names.now }
    ensures { IfOk result (λ text. string_bytes text ≡ name_of names.now v) }
{
    let Ok(text) = from_utf8(names.name(v)) else {
        unreachable!();
    };
    String::from_str(alloc, text)
}

/// The names of nodes as an array of texts.
fn names_tree(alloc: Global, names: &Names, nodes: &[u32]) -> Result<Value, AllocError>
    requires below { All (λ w. w < length names.now) nodes.now }
    requires keys { All (λ name. IsTrue (is_key name)) names.now }
    ensures { IfOk result (λ tree. view tree ≡ array (strings (map (name_of names.now) nodes.now))) }
{
    let mut texts = Vec::with_capacity(alloc, nodes.len())?;
    for node in nodes {
        let text = name_text(alloc, names, *node)?;
        texts.push(Value::String(text))?;
    }
    Ok(Value::Array(texts))
}

/// A quorum set by its threshold, its validators and its inner sets.
fn set_of_lists(
    alloc: Global,
    threshold: u64,
    validators: Value,
    inner: Value,
) -> Result<Value, AllocError>
    ensures { IfOk result (λ tree. view tree ≡ set_with threshold (view validators) (view inner)) }
{
    json!(in alloc; {"innerQuorumSets": inner, "threshold": threshold, "validators": validators})
}

/// A quorum set, in which nodes come before inner quorum sets.
fn set_tree(alloc: Global, names: &Names, set: &QuorumSet) -> Result<Value, AllocError>
    requires below { IsBelow (length names.now) set.now }
    requires keys { All (λ name. IsTrue (is_key name)) names.now }
    ensures { IfOk result (λ tree. (view tree ≡ set_data (named names.now set.now)) × IsListed set.now) }
{
    let mut inner = Vec::with_capacity(alloc, set.inner.len())?;
    for one in &set.inner {
        inner.push(set_tree(alloc, names, one)?)?;
    }
    let validators = names_tree(alloc, names, &set.validators)?;
    let threshold = set.threshold;
    let sets = Value::Array(inner);
    let tree = set_of_lists(alloc, threshold, validators, sets)?;
    Ok(tree)
}

fn node_of(alloc: Global, key: String, set: Value) -> Result<Value, AllocError>
    ensures { IfOk result (λ node. view node ≡ node_with (string_bytes key) (view set)) }
{
    json!(in alloc; {"publicKey": key, "quorumSet": set})
}

fn unset_node(alloc: Global, key: String) -> Result<Value, AllocError>
    ensures { IfOk result (λ node. view node ≡ bare_node (string_bytes key)) }
{
    json!(in alloc; {"publicKey": key})
}

/// A node by its name, and its quorum set if it has one.
fn node_tree(alloc: Global, system: &System, v: u32) -> Result<Value, AllocError>
    requires node { v < length system.now.sets }
    requires keys { All (λ name. IsTrue (is_key name)) system.now.names }
    ensures { IfOk result (λ tree. IsNodeTree system.now v (view tree)) }
{
    let key = name_text(alloc, system.names(), v)?;
    let node = match system.quorum_set(v) {
        Some(set) => node_of(alloc, key, set_tree(alloc, system.names(), set)?)?,
        None => unset_node(alloc, key)?,
    };
    Ok(node)
}

/// The configuration in which every name of the system is a node, in order.
pub(crate) fn config_tree(alloc: Global, system: &System) -> Result<Value, AllocError>
    ensures tree { IfOk result (λ tree. view tree ≡ config_data (nodes_named system.now)) }
    ensures listed { IfOk result (λ _. AreListed system.now.sets) }
    ensures limits { IfOk result (λ _. IsSystem system.now.names system.now.sets) }
    ensures sorted { IfOk result (λ _. IsStrictlySortedBy name_cmp system.now.names) }
{
    let n = system.len();
    let mut nodes = Vec::with_capacity(alloc, n as usize)?;
    for v in 0..n {
        nodes.push(node_tree(alloc, system, v)?)?;
    }
    Ok(Value::Array(nodes))
}
