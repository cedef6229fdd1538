//! Organisations, as nodes of a system.

ghost use Rattle.std.specs.Prelude.{◌≡◌, ◌⊎◌, ◌≤◌, [], Ok, Err, All, length, map, Contains, IfOk, IfErr, MatchOption, option_copied};
ghost use Rattle.std.specs.List.{IsDistinct};
ghost use Rattle.std.specs.Str.{bytes_eq};
ghost use Rattle.fbas_model.specs.Names.{marks};
ghost use Rattle.node_json.specs.Organisations.{HasNone, among_nodes, ids_of, members_under, orgs_in, orgs_of, within_orgs};
ghost use Rattle.node_json.specs.OrgsView.{named_org_view, named_orgs_view, named_ids, org_view};
ghost use Rattle.node_json.specs.NamesInOrder.{in_order};
ghost use Rattle.node_json.specs.Reading.{after, and_then};
ghost use Rattle.node_json.specs.Tree.{view};
ghost use Rattle.node_json.specs.View.{names_view};

use crate::faults::OrgFault;
use crate::named_orgs::{NamedOrg, read_named_orgs, read_org_tree};
use fbas_core::System;
use fbas_model::{MOST_NODES, MOST_ORGS};
use json::{Scratch, Value};
use name_set::{Names, NodeSet};
use std::alloc::{AllocError, Global};
use std::collections::BTreeMap;
use std::marker::Model;

#[derive(Drop)]
struct Org {
    id: Vec<u8>,
    members: NodeSet,
}

/// Organisations: each with its id and those of its validators that are nodes of the system, in the file's order.
///
/// No two have one id.
#[derive(Drop)]
pub struct Orgs {
    list: Vec<Org>,
    places: BTreeMap<Vec<u8>, usize>,
}

impl Model for Orgs {
    ghost use Rattle.std.specs.Prelude.{◌≤◌, List, length};
    ghost use Rattle.fbas_model.specs.declared.TheConstants.{MOST_ORGS};
    ghost use Rattle.node_json.specs.Organisations.{Org as Organisation};

    ghost Value = { List Organisation };

    ghost use Rattle.std.specs.BTreeMap.{get_by};
    ghost use Rattle.fbas_model.specs.Names.{name_cmp};
    ghost use Rattle.node_json.specs.OrgsView.{orgs_view, AreIndexed};

    ghost view = { λ o. orgs_view o.list.items };

    ghost invariant = { λ o. AreIndexed (orgs_view o.list.items) (λ id. get_by (λ key. name_cmp id key.items) o.places) × (length o.list.items ≤ MOST_ORGS) };
}

impl Orgs {
    /// No organisations, as where no file of them was given. Takes no memory.
    pub fn none(alloc: Global) -> Orgs
        ensures { result ≡ [] }
    {
        Orgs {
            list: Vec::new(alloc),
            places: BTreeMap::new(alloc),
        }
    }

    /// The members of the organisation of the id, or none where no organisation has it: O(log m) comparisons, where there are m.
    pub fn members(&self, id: &[u8]) -> Option<&NodeSet>
        ensures value { option_copied result ≡ members_under self.now id.now }
        // They are those of the one organisation that has the id.
        ensures cases { MatchOption result (HasNone self.now id.now) (λ s. Contains self.now (record { id = id.now; members = s.now })) }
        ensures apart { IsDistinct bytes_eq (ids_of self.now) }
    {
        let at = *self.places.get(id)?;
        Some(&self.list[at].members)
    }

    /// The ids of the organisations, in byte order: O(m log m) comparisons, and a copy of each of the m ids.
    pub fn ids(&self, alloc: Global) -> Result<Names, AllocError>
        ensures ids { IfOk result (λ ids. ids ≡ in_order (ids_of self.now)) }
        ensures few { length self.now ≤ MOST_ORGS }
    {
        let mut ids = Vec::new(alloc);
        for org in &self.list {
            ids.push(Vec::from_slice(alloc, &org.id)?)?;
        }
        Names::of(ids)
    }
}

// Which of the names are in the list: O(log n) comparisons for each in it.
fn marked(names: &Names, list: &[&str]) -> NodeSet
    requires { length names.now ≤ MOST_NODES }
    ensures { result ≡ marks names.now (names_view list.now) }
{
    let mut nodes = NodeSet::new(names.len());
    for name in list {
        if let Some(at) = names.find(name.as_bytes()) {
            nodes.put(at);
        }
    }
    nodes
}

fn owned_id(alloc: Global, id: &str) -> Result<Vec<u8>, AllocError>
    ensures { IfOk result (λ v. v.items ≡ id.now) }
{
    id.as_bytes().to_vec(alloc)
}

fn owned_org(alloc: Global, names: &Names, org: &NamedOrg) -> Result<Org, AllocError>
    requires { length names.now ≤ MOST_NODES }
    ensures { IfOk result (λ o. org_view o ≡ among_nodes names.now (named_org_view org.now)) }
{
    Ok(Org {
        id: owned_id(alloc, org.id)?,
        members: marked(names, &org.validators),
    })
}

// The organisations among the nodes of the names.
fn owned_orgs(alloc: Global, names: &Names, orgs: &[NamedOrg]) -> Result<Orgs, AllocError>
    requires few { length names.now ≤ MOST_NODES }
    requires few_orgs { length orgs.now ≤ MOST_ORGS }
    requires apart { IsDistinct bytes_eq (named_ids orgs.now) }
    ensures { IfOk result (λ o. o ≡ map (among_nodes names.now) (named_orgs_view orgs.now)) }
{
    let mut list = Vec::with_capacity(alloc, orgs.len())?;
    let mut places = BTreeMap::new(alloc);
    for (at, org) in orgs.iter().enumerate() {
        places.insert(owned_id(alloc, org.id)?, at)?;
        list.push(owned_org(alloc, names, org)?)?;
    }
    Ok(Orgs { list, places })
}

// The organisations of a tree among the nodes of the names, within the limit.
fn orgs_in_tree(alloc: Global, tree: &Value, names: &Names) -> Result<Orgs, OrgFault>
    requires { length names.now ≤ MOST_NODES }
    ensures ok { IfOk result (λ o. after (map (among_nodes names.now)) (and_then within_orgs (orgs_in (view tree.now))) ≡ Ok o) }
    ensures err { IfErr result (λ e. (e ≡ OrgFault.Memory) ⊎ (after (map (among_nodes names.now)) (and_then within_orgs (orgs_in (view tree.now))) ≡ Err e)) }
    ensures sized { IfOk result (λ o. All (λ org. length org.members ≡ length names.now) o) }
    ensures apart { IfOk result (λ o. IsDistinct bytes_eq (ids_of o)) }
{
    let orgs = read_named_orgs(alloc, tree)?;
    let n = orgs.len();
    if n > MOST_ORGS {
        return Err(OrgFault::TooManyOrgs(n as u64));
    }
    Ok(owned_orgs(alloc, names, &orgs)?)
}

/// The organisations of a file among the nodes of a system, or its first fault.
///
/// The file is a JSON array of objects. Each has an `id`, a key, and may have `validators`, an array of keys; other members
/// are passed over. A key is 1 to `MOST_KEY_BYTES` printable bytes with no space and no comma. A validator that is no node of
/// the system is dropped.
///
/// Faults come in this order: the text, the array, then for each element the object, its id, whether an earlier element has
/// it, and its validators; at last the number of organisations. `Memory` stands for want of memory.
///
/// Linear in the bytes, but for O(log m) comparisons for each id and O(log n) for each validator, where there are m ids and
/// n nodes; and one set of nodes for each of the organisations, which are at most 4,096 then.
pub fn read_orgs(alloc: Global, bytes: &[u8], system: &System) -> Result<Orgs, OrgFault>
    ensures ok { IfOk result (λ o. orgs_of system.now.names bytes.now ≡ Ok o) }
    ensures err { IfErr result (λ e. (e ≡ OrgFault.Memory) ⊎ (orgs_of system.now.names bytes.now ≡ Err e)) }
    // Each has a mark for each node, and no two have one id.
    ensures sized { IfOk result (λ o. All (λ org. length org.members ≡ length system.now.names) o) }
    ensures apart { IfOk result (λ o. IsDistinct bytes_eq (ids_of o)) }
{
    let mut scratch = Scratch::new(alloc);
    let tree = read_org_tree(alloc, bytes, &mut scratch)?;
    orgs_in_tree(alloc, &tree, system.names())
}
