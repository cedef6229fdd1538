//! Marked groups, with the nodes that are in one of them.
ghost use Rattle.std.specs.Prelude.{◌≡◌, ◌≤◌, ◌<◌, ◌+◌, All, length, IfOk};
ghost use Rattle.fbas_model.specs.Nodes.{members, ∅, only, ◌∪◌, ◌∖◌};
ghost use Rattle.node_json.specs.Groups.{tables_of};
ghost use Rattle.group_journal.specs.Groups.{joined};

use crate::counting::{count_members, drop_uncounted, uncount_members};
use fbas_model::MOST_NODES;
use name_set::{GroupSet, NodeSet};
use node_json::Groups;
use std::alloc::{AllocError, Global};
use std::marker::Model;

/// Some of the groups of a system, with the nodes that are in one of them.
///
/// How many of the marked groups have a node is kept for each, so that a group that comes or goes costs its members, and no union
/// is made anew.
#[derive(Drop)]
pub struct MarkedGroups<'g> {
    groups: &'g Groups,
    marks: GroupSet,
    counts: Vec<u32>,
    nodes: NodeSet,
}

impl<'g> Model for MarkedGroups<'g> {
    ghost use Rattle.std.specs.Prelude.{length};
    ghost use Rattle.node_json.specs.Groups.{tables_of};
    ghost use Rattle.group_journal.specs.Marking.{Marking, AreCounted};

    ghost Value = { Marking };

    ghost view = { λ m. record { n = length m.nodes; groups = tables_of m.groups.now; marks = m.marks } };

    ghost invariant = { λ m. AreCounted (tables_of m.groups.now) m.marks m.counts.items m.nodes };
}

impl<'g> MarkedGroups<'g> {
    /// No group is marked. Takes a count for each of the n nodes.
    pub fn none(alloc: Global, groups: &'g Groups, n: u32) -> Result<MarkedGroups<'g>, AllocError>
        requires few { n ≤ MOST_NODES }
        requires sized { All (λ group. length group.members ≡ n) groups.now }
        ensures n { IfOk result (λ marked. marked.n ≡ n) }
        ensures groups { IfOk result (λ marked. marked.groups ≡ tables_of groups.now) }
        ensures places { IfOk result (λ marked. length marked.marks ≡ length groups.now) }
        ensures none { IfOk result (λ marked. members marked.marks ≡ ∅) }
    {
        Ok(MarkedGroups {
            groups,
            marks: GroupSet::new(groups.len()),
            counts: vec![in alloc; 0; n as usize]?,
            nodes: NodeSet::new(n),
        })
    }

    /// How many groups there are.
    pub fn len(&self) -> u32
        ensures marks { result ≡ length self.now.marks }
        ensures groups { result ≡ length self.now.groups }
    {
        self.groups.len()
    }

    /// Whether the group is marked.
    pub fn has(&self, at: u32) -> bool
        requires { at < length self.now.marks }
        ensures { result ≡ members self.now.marks at }
    {
        self.marks.has(at)
    }

    /// The groups that are marked: O(1).
    pub fn marks(&self) -> &GroupSet
        ensures { result.now ≡ self.now.marks }
    {
        &self.marks
    }

    /// The nodes that are in a marked group: O(1).
    pub fn nodes(&self) -> &NodeSet
        ensures n { length result.now ≡ self.now.n }
        ensures nodes { members result.now ≡ joined self.now.groups self.now.marks }
        ensures sized { All (λ group. length group ≡ self.now.n) self.now.groups }
    {
        &self.nodes
    }

    /// Marks a group: linear in its members, and n / 64 steps.
    pub fn mark(&mut self, at: u32)
        requires { at < length self.old.marks }
        ensures n { self.new.n ≡ self.old.n }
        ensures groups { self.new.groups ≡ self.old.groups }
        ensures places { length self.new.marks ≡ length self.old.marks }
        ensures marked { members self.new.marks ≡ members self.old.marks ∪ only at }
    {
        if self.marks.has(at) {
            return;
        }
        let members = self.groups.members(at);
        count_members(members, &mut self.counts);
        self.nodes.join(members);
        self.marks.put(at);
    }

    /// Marks a group no more: linear in its members.
    pub fn unmark(&mut self, at: u32)
        requires { at < length self.old.marks }
        ensures n { self.new.n ≡ self.old.n }
        ensures groups { self.new.groups ≡ self.old.groups }
        ensures places { length self.new.marks ≡ length self.old.marks }
        ensures unmarked { members self.new.marks ≡ members self.old.marks ∖ only at }
    {
        if !self.marks.has(at) {
            return;
        }
        let members = self.groups.members(at);
        uncount_members(members, &mut self.counts);
        drop_uncounted(members, &self.counts, &mut self.nodes);
        self.marks.take(at);
    }

    /// Marks each group of a set. The cost is that of `mark` for each of them.
    pub fn mark_all(&mut self, set: &GroupSet)
        requires places { length set.now ≡ length self.old.marks }
        requires none { members self.old.marks ≡ ∅ }
        ensures n { self.new.n ≡ self.old.n }
        ensures groups { self.new.groups ≡ self.old.groups }
        ensures marks { self.new.marks ≡ set.now }
    {
        for at in set.iter() {
            self.mark(at);
        }
    }
}
