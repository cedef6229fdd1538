//! The places of the lines of a body, and what it comes to.
use crate::kinds::ReachKind;
use enumeration_journal::{ListKind, Listed, NodeSets, SetList};
use fbas_core::System;
use lrat_checker::IdleChecker;
use name_set::{GROUP_WORDS, GroupSet, NodeSet};
use node_json::Groups;

/// What a body speaks of: nodes of the whole system that form a part of their own, and faulty ones of the whole.
#[derive(Clone, Copy)]
pub struct Scope<'a> {
    pub system: &'a System,
    pub nodes: &'a NodeSet,
    pub faulty: &'a NodeSet,
}

/// The part of the system that a list is of, with its faulty nodes and its greatest quorum once they are deleted. Its nodes
/// have their numbers there.
#[derive(Drop)]
pub struct ListPart {
    pub system: System,
    pub faulty: NodeSet,
    pub greatest: NodeSet,
}

/// A list so far: the sought sets of its lines in their order, and how many lines count. Where a smallest quorum is sought, these
/// are the ever smaller ones.
#[derive(Drop)]
pub struct Listing {
    pub sought: Listed,
    pub kind: ListKind,
    pub part: ListPart,
    pub checker: IdleChecker,
    pub sets: NodeSets,
    pub units: u64,
}

/// A list of sets of groups.
pub type GroupSets = SetList<GROUP_WORDS>;

/// A part of the system with its groups, and which of these have a member in its greatest quorum, so that they have a variable.
#[derive(Drop)]
pub struct GroupPart {
    pub part: ListPart,
    pub groups: Groups,
    pub touched: GroupSet,
}

/// A list of blocking sets of groups so far, in the order of its lines, and how many lines count.
#[derive(Drop)]
pub struct GroupListing {
    pub kind: ListKind,
    pub over: GroupPart,
    pub checker: IdleChecker,
    pub sets: GroupSets,
    pub units: u64,
}

/// What a body shows.
#[derive(Drop)]
pub enum Reached {
    /// All minimal sets of a kind, each once, in name order. Their nodes have their numbers in the whole system.
    Minimal(Listed, NodeSets),
    /// A smallest quorum, whose nodes have their numbers in the whole system, or none where there is no quorum.
    Least(Option<NodeSet>),
    /// The groups of the part, and all their minimal blocking sets, each once, in the order of the groups' numbers. A set has the
    /// numbers of its groups among these.
    OrgBlocking(Groups, GroupSets),
    /// Nothing but work done towards what a whole body of the kind shows: this many listed sets and lemmas with a literal, each with a
    /// clause that was new.
    Partial(ReachKind, u64),
}

/// Which line is awaited, with what the lines before it said.
#[derive(Drop)]
pub enum ReachPlace {
    AtCounter(ListKind, ListPart),
    AtList(Listing),
    AtGroups(GroupListing),
    AtEnd(Reached),
}

/// What is so after a line.
#[derive(Drop)]
pub enum ReachState {
    Going(ReachPlace),
    Done(Reached),
}
