//! From names to numbers.

ghost use Rattle.std.specs.Prelude.{◌≡◌, ◌⊎◌, Ok, Err, List, map, IfOk, IfErr, IfSome, option_map};
ghost use Rattle.std.specs.List.Sorted.{IsStrictlySortedBy};
ghost use Rattle.fbas_model.specs.Names.{name_cmp};
ghost use Rattle.fbas_model.specs.QuorumSets.{all_entries};
ghost use Rattle.fbas_model.specs.Systems.{entries_in};
ghost use Rattle.node_json.specs.Configuration.{all_names, number_of, numbered, set_named, system_with, system_of};
ghost use Rattle.node_json.specs.Named.{NamedNode as Declared};
ghost use Rattle.node_json.specs.NamesInOrder.{in_order};
ghost use Rattle.node_json.specs.Reading.{and_then, nodes_in, nodes_of};
ghost use Rattle.node_json.specs.Sound.{AreSound};
ghost use Rattle.node_json.specs.SystemOf.{IsSystemOf};
ghost use Rattle.node_json.specs.Tree.{view};
ghost use Rattle.node_json.specs.View.{names_view, set_view, nodes_view};

use crate::faults::ConfigFault;
use crate::names::owned_names;
use crate::nodes::{NamedNode, read_nodes};
use crate::quorum_sets::NamedSet;
use crate::seen_names::SeenNames;
use crate::slots::Guesses;
use crate::tree::read_tree;
use fbas_core::System;
use fbas_model::{MOST_ENTRIES, MOST_NODES};
use json::{Scratch, Value};
use name_set::Names;
use quorum_set::QuorumSet;
use std::alloc::{AllocError, Global};
use std::collections::BTreeSet;

// The numbers of the names of the list.
fn numbers(
    alloc: Global,
    names: &Names,
    guesses: &mut Guesses,
    list: &[&str],
) -> Result<Vec<u32>, AllocError>
    ensures { IfOk result (λ v. v.items ≡ map (number_of names.now) (names_view list.now)) }
{
    let mut numbers = Vec::with_capacity(alloc, list.len())?;
    for name in list {
        numbers.push(guesses.number(names, *name))?;
    }
    Ok(numbers)
}

fn numbered_set(
    alloc: Global,
    names: &Names,
    guesses: &mut Guesses,
    set: &NamedSet,
) -> Result<QuorumSet, AllocError>
    ensures { IfOk result (λ q. q ≡ numbered names.now (set_view set.now)) }
{
    let validators = numbers(alloc, names, guesses, &set.validators)?;
    let mut inner = Vec::with_capacity(alloc, set.inner.len())?;
    for one in &set.inner {
        inner.push(numbered_set(alloc, names, guesses, one)?)?;
    }
    Ok(QuorumSet {
        threshold: set.threshold,
        validators,
        inner,
    })
}

fn numbered_if_any(
    alloc: Global,
    names: &Names,
    guesses: &mut Guesses,
    set: &Option<NamedSet>,
) -> Result<Option<QuorumSet>, AllocError>
    ensures { IfOk result (λ q. q ≡ option_map (numbered names.now) (option_map set_view set.now)) }
{
    match set {
        Some(set) => Ok(Some(numbered_set(alloc, names, guesses, set)?)),
        None => Ok(None),
    }
}

// For each name its quorum set, at its place. The text's length in bytes says only how large the table of guesses is.
fn placed_sets(
    alloc: Global,
    text: usize,
    names: &Names,
    nodes: &[NamedNode],
) -> Result<Vec<Option<QuorumSet>>, AllocError>
    requires { IsStrictlySortedBy name_cmp names.now }
    ensures { IfOk result (λ v. v.items ≡ map (λ name. option_map (numbered names.now) (set_named (nodes_view nodes.now) name)) names.now) }
{
    let mut sets = no_sets(alloc, names)?;
    let mut guesses = Guesses::new(alloc, text)?;
    for node in nodes {
        let set = numbered_if_any(alloc, names, &mut guesses, &node.quorum_set)?;
        if let Some(at) = names.find(node.key.as_bytes()) {
            sets[at as usize] = set;
        }
    }
    Ok(sets)
}

// No quorum set for each name.
fn no_sets(alloc: Global, names: &Names) -> Result<Vec<Option<QuorumSet>>, AllocError>
    ensures { IfOk result (λ v. v.items ≡ map (λ _. None) names.now) }
{
    let n = names.len() as usize;
    let mut sets = Vec::with_capacity(alloc, n)?;
    for _at in 0..n {
        sets.push(None)?;
    }
    Ok(sets)
}

// The entries of a quorum set at all depths, or none where they are too many for 64 bits. No file that fits in memory has
// this many, so that counts as want of memory.
fn entries(set: &QuorumSet) -> Option<u64>
    ensures { IfSome result (λ n. n ≡ all_entries set.now) }
{
    let mut n = set.validators.len() as u64;
    for inner in &set.inner {
        n = n.checked_add(1)?.checked_add(entries(inner)?)?;
    }
    Some(n)
}

// The entries of all quorum sets.
fn count_entries(sets: &[Option<QuorumSet>]) -> Option<u64>
    ensures { IfSome result (λ n. n ≡ entries_in sets.now) }
{
    let mut n = 0u64;
    for set in sets {
        if let Some(set) = set {
            n = n.checked_add(entries(set)?)?;
        }
    }
    Some(n)
}

// The system of the nodes, of which these are the names, within the limits. The text is its length in bytes, which says only
// how large tables are.
fn system(
    alloc: Global,
    text: usize,
    nodes: &[NamedNode],
    found: BTreeSet<&str>,
) -> Result<System, ConfigFault>
    requires sound { AreSound (nodes_view nodes.now) }
    requires names { names_view found.keys ≡ in_order (all_names (nodes_view nodes.now)) }
    ensures ok { IfOk result (λ s. system_with (nodes_view nodes.now) ≡ Ok s) }
    ensures err { IfErr result (λ e. (e ≡ ConfigFault.Memory) ⊎ (system_with (nodes_view nodes.now) ≡ Err e)) }
{
    let n = found.len();
    if n > MOST_NODES {
        return Err(ConfigFault::TooManyNodes(n as u64));
    }
    // At most 16,384 names come so far, so that numbers of 32 bits suffice.
    let names = owned_names(alloc, found)?;
    let sets = placed_sets(alloc, text, &names, nodes)?;
    let entries = count_entries(&sets).ok_or(ConfigFault::Memory)?;
    if entries > MOST_ENTRIES {
        return Err(ConfigFault::TooManyEntries(entries));
    }
    let system = System::of(alloc, names, sets)?;
    Ok(system)
}

// The system of a tree. The text is its length in bytes, which says only how large tables are.
fn system_in_tree(alloc: Global, text: usize, tree: &Value) -> Result<System, ConfigFault>
    ensures ok { IfOk result (λ s. and_then system_with (nodes_in (view tree.now)) ≡ Ok s) }
    ensures err { IfErr result (λ e. (e ≡ ConfigFault.Memory) ⊎ (and_then system_with (nodes_in (view tree.now)) ≡ Err e)) }
    ensures means { IfOk result (λ s. (nodes : List Declared) × (nodes_in (view tree.now) ≡ Ok nodes) × IsSystemOf nodes s) }
{
    let mut names = SeenNames::new(alloc, text)?;
    let nodes = read_nodes(alloc, &mut names, tree)?;
    system(alloc, text, &nodes, names.in_order())
}

/// The system of a configuration, or its first fault.
///
/// A configuration is a JSON array of objects. Each has a `publicKey`, and may have a `quorumSet`: an object with a
/// `threshold`, and maybe `validators`, an array of keys, and `innerQuorumSets`, an array of such objects; other members are
/// passed over. A key is 1 to `MOST_KEY_BYTES` printable bytes with no space and no comma. The nodes are all keys that are
/// declared or stand in a quorum set.
///
/// Faults come in this order: the text, the array, then for each element the object, its key, whether an earlier element
/// has it, and its quorum sets, each before those in it; at last the number of nodes and that of entries.
/// `Memory` stands for want of memory.
///
/// Linear in the bytes, but for O(log n) comparisons for each name that is declared or stands in a quorum set.
pub fn read_config(alloc: Global, bytes: &[u8]) -> Result<System, ConfigFault>
    ensures ok { IfOk result (λ s. system_of bytes.now ≡ Ok s) }
    ensures err { IfErr result (λ e. (e ≡ ConfigFault.Memory) ⊎ (system_of bytes.now ≡ Err e)) }

    // What the definition gives is the system of the declared nodes.
    ensures means { IfOk result (λ s. (nodes : List Declared) × (nodes_of bytes.now ≡ Ok nodes) × IsSystemOf nodes s) }
{
    let mut scratch = Scratch::new(alloc);
    let tree = read_tree(alloc, bytes, &mut scratch)?;
    system_in_tree(alloc, bytes.len(), &tree)
}
