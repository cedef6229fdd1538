//! Names among the nodes: a system with one name more, and the nodes of a list of names.

ghost use Rattle.std.specs.Prelude.{◌≡◌, ◌⊎◌, ◌≤◌, ◌<◌, ◌+◌, ◌-◌, ◌^◌, ◌++◌, ◌∷◌, [], List, Ok, Err, IfOk, IfErr, IfSome, IsTrue, All, Contains, None, false, length, map, option_map, if◌then◌else◌};
ghost use Rattle.std.specs.Option.{option_copied};
ghost use Rattle.std.specs.Ordering.{is_lt};
ghost use Rattle.std.specs.List.{insert};
ghost use Rattle.fbas_model.specs.Names.{Name, name_cmp, is_key, marks};
ghost use Rattle.fbas_model.specs.QuorumSets.{IsBelow};
ghost use Rattle.name_set.specs.Lists.{items_of};
ghost use Rattle.whatif_session.specs.Names.{moved_up, number_after, place_for, with_name, with_node};

use crate::faults::EditFault;
use fbas_core::System;
use fbas_model::MOST_NODES;
use name_set::{Names, NodeSet};
use quorum_set::QuorumSet;
use std::alloc::{AllocError, Global};

/// Puts the node of a name into the set, if one has it.
fn mark(names: &Names, name: &[u8], nodes: &mut NodeSet)
    requires { length nodes.old ≡ length names.now }
    ensures size { length nodes.new ≡ length nodes.old }
    ensures marked { (chosen : List Name) → nodes.old ≡ marks names.now chosen → nodes.new ≡ marks names.now (chosen ++ name.now ∷ []) }
{
    if let Some(node) = names.find(name) {
        nodes.put(node);
    }
}

/// The nodes of the names that stand in a list, which stands between commas. A name that is none of these is passed over.
pub(crate) fn marked(text: &[u8], names: &Names) -> NodeSet
    requires { length names.now ≤ MOST_NODES }
    ensures { result ≡ marks names.now (items_of text.now) }
{
    let mut nodes = NodeSet::new(names.len());
    if text.is_empty() {
        return nodes;
    }
    for item in text.split(|byte| *byte == b',') {
        mark(names, item, &mut nodes);
    }
    nodes
}

/// One more, if the one name comes before the other.
fn count_before(count: u32, one: &[u8], name: &[u8]) -> u32
    requires { count < 2 ^ 32 - 1 }
    ensures { result ≡ count + (if is_lt (name_cmp one.now name.now) then 1 else 0) }
{
    if one.cmp(name).is_lt() {
        count + 1
    } else {
        count
    }
}

/// How many of the names come before this one.
pub(crate) fn place_for(names: &Names, name: &[u8]) -> u32
    ensures { result ≡ place_for name.now names.now }
{
    let mut place = 0;
    for at in 0..names.len() {
        place = count_before(place, names.name(at), name);
    }
    place
}

/// The nodes with the numbers that they have after one more name came to a place.
fn moved_nodes(alloc: Global, nodes: &[u32], place: u32) -> Result<Vec<u32>, AllocError>
    requires { All (λ w. w < MOST_NODES) nodes.now }
    ensures { IfOk result (λ moved. moved.items ≡ map (number_after place) nodes.now) }
{
    let mut moved = Vec::with_capacity(alloc, nodes.len())?;
    for node in nodes {
        moved.push(if place <= *node { *node + 1 } else { *node })?;
    }
    Ok(moved)
}

/// The quorum set with the numbers that its nodes have then.
fn moved_set(alloc: Global, set: &QuorumSet, place: u32) -> Result<QuorumSet, AllocError>
    requires { IsBelow MOST_NODES set.now }
    ensures { IfOk result (λ moved. moved ≡ moved_up place set.now) }
{
    let validators = moved_nodes(alloc, &set.validators, place)?;
    let mut inner = Vec::with_capacity(alloc, set.inner.len())?;
    for one in &set.inner {
        inner.push(moved_set(alloc, one, place)?)?;
    }
    Ok(QuorumSet {
        threshold: set.threshold,
        validators,
        inner,
    })
}

/// The same of a quorum set that may be none.
fn moved_if_any(
    alloc: Global,
    set: Option<&QuorumSet>,
    place: u32,
) -> Result<Option<QuorumSet>, AllocError>
    requires { IfSome (option_copied set) (IsBelow MOST_NODES) }
    ensures { IfOk result (λ moved. moved ≡ option_map (moved_up place) (option_copied set.entry)) }
{
    match set {
        Some(set) => {
            let moved = moved_set(alloc, set, place)?;
            Ok(Some(moved))
        }
        None => Ok(None),
    }
}

/// The quorum sets of a system with the numbers that the nodes have then, and none for the new node.
fn moved_sets(
    alloc: Global,
    system: &System,
    place: u32,
) -> Result<Vec<Option<QuorumSet>>, AllocError>
    requires { place ≤ length system.now.sets }
    ensures { IfOk result (λ sets. sets.items ≡ insert (map (option_map (moved_up place)) system.now.sets) place None) }
{
    let n = system.len();
    let mut sets = Vec::with_capacity(alloc, n as usize + 1)?;
    for v in 0..n {
        let moved = moved_if_any(alloc, system.quorum_set(v), place)?;
        sets.push(moved)?;
    }
    sets.insert(place as usize, None)?;
    Ok(sets)
}

/// The names with one more.
fn more_names(alloc: Global, names: &Names, name: &[u8]) -> Result<Names, AllocError>
    requires few { length names.now ≤ MOST_NODES }
    requires missing { Contains names.now name.now → ⊥ }
    ensures { IfOk result (λ more. more ≡ insert names.now (place_for name.now names.now) name.now) }
{
    // A proof sees that the names are sorted.
    names.rise();
    let mut list = Vec::with_capacity(alloc, names.len() as usize + 1)?;
    for at in 0..names.len() {
        list.push(Vec::from_slice(alloc, names.name(at))?)?;
    }
    list.push(Vec::from_slice(alloc, name)?)?;
    Names::of(list)
}

/// The system with one name more, for a node without a quorum set: a copy of the system, and a sort of its names.
pub(crate) fn grown(alloc: Global, system: &System, name: &[u8]) -> Result<System, EditFault>
    requires key { IsTrue (is_key name.now) }
    requires missing { Contains system.now.names name.now → ⊥ }
    ensures ok { IfOk result (λ t. with_node system.now name.now ≡ Ok t) }
    ensures named { IfOk result (λ t. t ≡ with_name system.now name.now) }
    ensures few { IfOk result (λ t. length system.now.sets < MOST_NODES) }
    ensures err { IfErr result (λ e. (e ≡ EditFault.Memory) ⊎ (with_node system.now name.now ≡ Err e)) }
{
    let n = system.len() as usize + 1;
    if n > MOST_NODES {
        return Err(EditFault::TooManyNodes(n as u64));
    }
    let names = system.names();
    let place = place_for(names, name);
    let more = more_names(alloc, names, name)?;
    let sets = moved_sets(alloc, system, place)?;
    Ok(System::of(alloc, more, sets)?)
}

/// The number that a node has after one more name came to a place.
fn number_after(v: u32, place: u32) -> u32
    requires { v < 2 ^ 32 - 1 }
    ensures { result ≡ number_after place v }
{
    if v < place { v } else { v + 1 }
}

/// The set of nodes of which there are this many, after one more name came to a place, whose node is not in it: O(n).
pub(crate) fn moved_members(set: &NodeSet, n: u32, place: u32) -> NodeSet
    requires size { length set.now ≡ n }
    requires place { place ≤ n }
    requires few { n < MOST_NODES }
    ensures { result ≡ insert set.now place false }
{
    let mut moved = NodeSet::new(n + 1);
    for v in 0..n {
        if set.has(v) {
            moved.put(number_after(v, place));
        }
    }
    moved
}
