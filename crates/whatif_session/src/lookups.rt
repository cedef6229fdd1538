//! What an edit looks up before anything changes.

ghost use Rattle.std.specs.Prelude.{◌≡◌, ◌⊎◌, ◌<◌, ◌≤◌, Ok, Err, IfOk, IfErr, length, option_copied, slice_set};
ghost use Rattle.fbas_model.specs.Names.{place_of};
ghost use Rattle.fbas_model.specs.Systems.{entries_in};
ghost use Rattle.fbas_model.specs.Trees.{quorum_set, none};
ghost use Rattle.whatif_session.specs.Changes.{entries_if_any};
ghost use Rattle.whatif_session.specs.Edited.{IsOwnSet, IsAppended, owned, validator_in, appended};

use crate::change::{Change, changed_at, has_validator};
use crate::faults::EditFault;
use fbas_core::System;
use fbas_model::MOST_ENTRIES;
use quorum_set::QuorumSet;
use std::alloc::Global;

/// The node of a name, and its quorum set.
pub(crate) fn own_set<'s>(
    system: &'s System,
    node: &[u8],
) -> Result<(u32, &'s QuorumSet), EditFault>
    ensures ok { IfOk result (λ p. IsOwnSet system.now node.now p.0 p.1.now) }
    ensures err { IfErr result (λ e. owned system.now node.now ≡ Err e) }
{
    let _n = system.len();
    let v = system.find(node).ok_or(EditFault::UnknownNode)?;
    let set = system.quorum_set(v).ok_or(EditFault::NoSet)?;
    Ok((v, set))
}

/// The node of a name that stands among the validators of the set.
pub(crate) fn validator(system: &System, set: &QuorumSet, name: &[u8]) -> Result<u32, EditFault>
    ensures ok { IfOk result (λ w. validator_in set.now (place_of system.now.names name.now) ≡ Ok w) }
    ensures err { IfErr result (λ e. validator_in set.now (place_of system.now.names name.now) ≡ Err e) }
{
    let Some(node) = system.find(name) else {
        return Err(EditFault::NotThere);
    };
    if has_validator(set, node) {
        return Ok(node);
    }
    Err(EditFault::NotThere)
}

/// How many entries a quorum set has, or none.
fn entries_if_any(set: Option<&QuorumSet>) -> u64
    requires { entries_if_any (option_copied set) ≤ MOST_ENTRIES }
    ensures { result ≡ entries_if_any (option_copied set.entry) }
{
    match set {
        Some(set) => set.entries(),
        None => 0,
    }
}

/// How many entries a system of this many has once the node has this quorum set, or none: linear in both quorum sets.
pub(crate) fn entries_after(system: &System, entries: u64, v: u32, set: &Option<QuorumSet>) -> u64
    requires node { v < length system.now.sets }
    requires entries { entries ≡ entries_in system.now.sets }
    requires few { entries_in (slice_set system.now.sets v set.now) ≤ MOST_ENTRIES }
    ensures { result ≡ entries_in (slice_set system.now.sets v set.now) }
{
    let before = entries_if_any(system.quorum_set(v));
    let after = entries_if_any(set.as_ref());
    entries - before + after
}

/// The node of a name, and its quorum set with another name after the validators of the set that the path leads to,
/// in a system of this many entries.
pub(crate) fn appended_set(
    alloc: Global,
    system: &System,
    entries: u64,
    node: &[u8],
    path: &[u32],
    name: &[u8],
) -> Result<(u32, QuorumSet), EditFault>
    requires { entries ≡ entries_in system.now.sets }
    ensures ok { IfOk result (λ p. IsAppended system.now node.now path.now name.now p.0 p.1) }
    ensures err { IfErr result (λ e. (e ≡ EditFault.Memory) ⊎ (appended system.now node.now path.now name.now ≡ Err e)) }
{
    let (v, own) = own_set(system, node)?;
    let w = system.find(name).ok_or(EditFault::UnknownNode)?;
    let set = changed_at(alloc, own, path, Change::Add(w))?;
    let entries = entries - own.entries() + set.entries();
    if entries > MOST_ENTRIES {
        return Err(EditFault::TooManyEntries(entries));
    }
    Ok((v, set))
}

/// A quorum set with threshold 1 and no entries.
pub(crate) fn bare_set(alloc: Global) -> QuorumSet
    ensures { result ≡ quorum_set 1 none }
{
    QuorumSet {
        threshold: 1,
        validators: Vec::new(alloc),
        inner: Vec::new(alloc),
    }
}
