//! Groups: organisations, and nodes that are in none.

ghost use Rattle.std.specs.Prelude.{◌≡◌, ◌<◌, ◌≤◌, ◌+◌, ◌++◌, [], All, length, map, codes, IfOk, Some, slice_get, slice_index_or, unwrap_or};
ghost use Rattle.std.specs.List.Sorted.{IsStrictlySortedBy};
ghost use Rattle.fbas_model.specs.Names.{name_cmp};
ghost use Rattle.fbas_model.specs.Nodes.{listed_from};
ghost use Rattle.node_json.specs.Groups.{CoverNodes, cut_by_name, groups_of as spec_groups_of, loose, node_group, org_group, tables_of, texts_of};
ghost use Rattle.node_json.specs.GroupsView.{group_view, groups_view};
ghost use Rattle.node_json.specs.Organisations.{members_under};

use crate::organisations::Orgs;
use fbas_core::System;
use fbas_model::{MOST_NODES, MOST_ORGS};
use name_set::{Names, NodeSet};
use std::alloc::{AllocError, Global};
use std::marker::Model;

#[derive(Drop)]
struct Group {
    text: Vec<u8>,
    members: NodeSet,
}

/// The groups of a system: its organisations, and each node that is in none, in the byte order of their texts.
#[derive(Drop)]
pub struct Groups {
    list: Vec<Group>,
}

impl Model for Groups {
    ghost use Rattle.std.specs.Prelude.{◌≤◌, ◌+◌, List, length};
    ghost use Rattle.fbas_model.specs.declared.TheConstants.{MOST_NODES, MOST_ORGS};
    ghost use Rattle.node_json.specs.Groups.{Group as Grouped};
    ghost use Rattle.node_json.specs.GroupsView.{groups_view};

    ghost Value = { List Grouped };

    ghost view = { λ groups. groups_view groups.list.items };

    ghost invariant = { λ groups. length groups.list.items ≤ MOST_NODES + MOST_ORGS };
}

impl Groups {
    /// How many groups there are, at most 20,480.
    pub fn len(&self) -> u32
        ensures count { result ≡ length self.now }
        ensures few { result ≤ MOST_NODES + MOST_ORGS }
    {
        self.list.len() as u32
    }

    /// The text of a group: `org:` and the id of an organisation, or `node:` and the name of a node.
    pub fn text(&self, at: u32) -> &[u8]
        requires { at < length self.now }
        ensures { slice_get (texts_of self.now) at ≡ Some result.now }
    {
        &self.list[at as usize].text
    }

    /// The members of a group.
    pub fn members(&self, at: u32) -> &NodeSet
        requires { at < length self.now }
        ensures { slice_index_or (tables_of self.now) at [] ≡ result.now }
    {
        &self.list[at as usize].members
    }
}

// The bytes after a word.
fn text_of(alloc: Global, word: &str, bytes: &[u8]) -> Result<Vec<u8>, AllocError>
    ensures { IfOk result (λ text. text.items ≡ word.now ++ bytes.now) }
{
    let mut text = word.as_bytes().to_vec(alloc)?;
    text.extend_from_slice(bytes)?;
    Ok(text)
}

// Which of the kept nodes have the names of marked ones: O(log n) comparisons for each of these.
fn cut_by_name(names: &Names, kept: &Names, marked: &NodeSet) -> NodeSet
    requires places { length marked.now ≡ length names.now }
    requires few { length kept.now ≤ MOST_NODES }
    ensures { result ≡ cut_by_name names.now kept.now marked.now }
{
    let mut nodes = NodeSet::new(kept.len());
    for v in marked.iter() {
        if let Some(at) = kept.find(names.name(v)) {
            nodes.put(at);
        }
    }
    nodes
}

// The members of the organisation of an id among the kept nodes, or none where no organisation has it.
fn members_of(orgs: &Orgs, names: &Names, kept: &Names, id: &[u8]) -> NodeSet
    requires sized { All (λ org. length org.members ≡ length names.now) orgs.now }
    requires few { length kept.now ≤ MOST_NODES }
    ensures { result ≡ cut_by_name names.now kept.now (unwrap_or (members_under orgs.now id.now) []) }
{
    match orgs.members(id) {
        Some(marked) => cut_by_name(names, kept, marked),
        None => NodeSet::new(kept.len()),
    }
}

// The group of the organisation of an id.
fn org_group(
    alloc: Global,
    orgs: &Orgs,
    names: &Names,
    kept: &Names,
    id: &[u8],
) -> Result<Group, AllocError>
    requires sized { All (λ org. length org.members ≡ length names.now) orgs.now }
    requires few { length kept.now ≤ MOST_NODES }
    ensures { IfOk result (λ group. group_view group ≡ org_group names.now kept.now orgs.now id.now) }
{
    Ok(Group {
        text: text_of(alloc, "org:", id)?,
        members: members_of(orgs, names, kept, id),
    })
}

// The groups of the organisations of these ids.
fn org_groups(
    alloc: Global,
    orgs: &Orgs,
    names: &Names,
    kept: &Names,
    ids: &Names,
) -> Result<Vec<Group>, AllocError>
    requires sized { All (λ org. length org.members ≡ length names.now) orgs.now }
    requires few { length kept.now ≤ MOST_NODES }
    ensures { IfOk result (λ groups. groups_view groups.items ≡ map (org_group names.now kept.now orgs.now) ids.now) }
{
    let mut groups = Vec::new(alloc);
    for at in 0..ids.len() {
        groups.push(org_group(alloc, orgs, names, kept, ids.name(at))?)?;
    }
    Ok(groups)
}

// Which of n nodes are in none of the groups.
fn loose(n: u32, groups: &[Group]) -> NodeSet
    requires few { n ≤ MOST_NODES }
    requires sized { All (λ group. length group.members ≡ n) groups.now }
    ensures { result ≡ loose n (groups_view groups.now) }
{
    let mut nodes = NodeSet::new(n);
    nodes.fill();
    for group in groups {
        nodes.minus(&group.members);
    }
    nodes
}

// The group of a node.
fn node_group(alloc: Global, kept: &Names, v: u32) -> Result<Group, AllocError>
    requires node { v < length kept.now }
    requires few { length kept.now ≤ MOST_NODES }
    ensures { IfOk result (λ group. group_view group ≡ node_group kept.now v) }
{
    let text = text_of(alloc, "node:", kept.name(v))?;
    let mut members = NodeSet::new(kept.len());
    members.put(v);
    Ok(Group { text, members })
}

// The groups of the nodes of a set.
fn node_groups(alloc: Global, kept: &Names, nodes: &NodeSet) -> Result<Vec<Group>, AllocError>
    requires same_n { length nodes.now ≡ length kept.now }
    requires few { length kept.now ≤ MOST_NODES }
    ensures { IfOk result (λ groups. groups_view groups.items ≡ map (node_group kept.now) (listed_from 0 nodes.now)) }
{
    let mut groups = Vec::new(alloc);
    for v in nodes.iter() {
        groups.push(node_group(alloc, kept, v)?)?;
    }
    Ok(groups)
}

/// The groups of a system, numbered from 0 in the byte order of their texts.
///
/// An organisation is the group `org:ID`, with its members among the nodes of `kept`, and a node that is in no organisation is
/// the group `node:KEY`, with itself. The organisations are over the nodes of `whole`, of which `kept` is a restriction: a member
/// is in it by its name. A node may be in several groups, and an organisation may have no node of `kept`.
///
/// O(log n) comparisons for each membership, O(log m) for each of m organisations, n / 64 steps for each group, and a set of nodes
/// for each of them.
pub fn groups_of(
    alloc: Global,
    orgs: &Orgs,
    whole: &System,
    kept: &System,
) -> Result<Groups, AllocError>
    requires sized { All (λ org. length org.members ≡ length whole.now.names) orgs.now }
    ensures groups { IfOk result (λ groups. groups ≡ spec_groups_of whole.now.names kept.now.names orgs.now) }
    // The texts rise, each node of `kept` has a group, and each group has a mark for each of them.
    ensures rising { IfOk result (λ groups. IsStrictlySortedBy name_cmp (texts_of groups)) }
    ensures cover { IfOk result (λ groups. CoverNodes (length kept.now.names) groups) }
    ensures sized { IfOk result (λ groups. All (λ group. length group.members ≡ length kept.now.names) groups) }
{
    let ids = orgs.ids(alloc)?;
    let mut named = org_groups(alloc, orgs, whole.names(), kept.names(), &ids)?;
    let nodes = loose(kept.len(), &named);
    let mut list = node_groups(alloc, kept.names(), &nodes)?;
    list.append(&mut named)?;
    Ok(Groups { list })
}
