//! Listed sets over groups: quorums of nodes, and minimal blocking sets of groups.
ghost use Rattle.std.specs.Prelude.{◌≡◌, ◌⊎◌, ◌+◌, ◌<◌, ◌&&◌, true, false, All, length, Some, IfOk, IfErr, OnOk, Ok, Err};
ghost use Rattle.std.specs.List.Sorted.{IsStrictlySortedBy};
ghost use Rattle.fbas_model.specs.Names.{name_cmp};
ghost use Rattle.fbas_model.specs.Nodes.{members, ◌⊆◌};
ghost use Rattle.lrat_model.specs.Clauses.{with_clause};
ghost use Rattle.lrat_model.specs.Ranges.{IsInRange};
ghost use Rattle.node_json.specs.Groups.{texts_of};
ghost use Rattle.enumeration_journal.specs.Kinds.{asks_new};
ghost use Rattle.cert_lines.specs.Words.{names_in};
ghost use Rattle.reach_kinds.specs.Bodies.{and_then, holding, is_covered};
ghost use Rattle.reach_kinds.specs.GroupBodies.{group_listing_on, groups_by_text, block_in, listed_set, list_group_set};
ghost use Rattle.reach_kinds.specs.Known.{IsPartNodes, IsGroupedPart, IsListOver};
ghost use Rattle.reach_kinds.specs.declared.places.ReachPlace.TheVariants.{AtGroups};
ghost use Rattle.reach_kinds.specs.declared.places.ReachState.TheVariants.{Going};

use crate::group_texts::groups_by_text;
use crate::list_sets::{is_covered, is_quorum_in};
use crate::lists::nodes_of;
use crate::parts::within;
use crate::places::{GroupListing, GroupPart, Scope};
use cert_lines::{CertError, Words};
use enumeration_journal::{ListKind, Listed};
use group_journal::{MarkedGroups, block_clause, is_group_block, is_least_block, quorum_clause};
use lrat_model::Lit;
use name_set::{GroupSet, NodeSet};
use std::alloc::Global;

/// The quorum of the part that the names are those of, by its nodes' numbers there. The cost is that of `shrink`.
fn named_quorum(
    scope: &Scope<'_>,
    over: &GroupPart,
    line: u64,
    names: &mut Words<'_>,
) -> Result<NodeSet, CertError>
    requires part { IsPartNodes scope.now.system.now scope.now.nodes.now scope.now.faulty.now }
    requires over { IsGroupedPart scope.now.system.now scope.now.nodes.now scope.now.faulty.now over.now }
    requires names { names_in names.old ≡ Some names.old }
    ensures value { result ≡ listed_set scope.now.system.now scope.now.nodes.now over.now line Listed.Quorum names.old }
{
    let named = nodes_of(scope.system, line, names)?;
    let set = within(scope.nodes, line, named)?;
    let cut = scope.system.cut(&set, scope.nodes);
    if !is_quorum_in(&over.part, &cut) {
        return Err(CertError::NotQuorum(line));
    }
    Ok(cut)
}

/// That the set of groups blocks, with no group to spare. How many groups of the set have a node is counted for each, and so no union
/// is made anew for a group that is tried: the cost is that of `shrink` for each group of the set, and a step for each member.
fn block_in(alloc: Global, over: &GroupPart, line: u64, set: &GroupSet) -> Result<(), CertError>
    requires sized { All (λ group. length group.members ≡ length over.now.part.system.sets) over.now.groups }
    requires places { length set.now ≡ length over.now.groups }
    requires same_faulty { length over.now.part.faulty ≡ length over.now.part.system.sets }
    ensures ok { OnOk result (block_in over.now line set.now ≡ Ok set.now) }
    ensures err { IfErr result (λ e. (e ≡ CertError.Memory) ⊎ (block_in over.now line set.now ≡ Err e)) }
{
    let part = &over.part;
    let n = part.system.len();
    let mut scratch = NodeSet::new(n);
    let mut marked = MarkedGroups::none(alloc, &over.groups, n)?;
    marked.mark_all(set);
    if !is_group_block(&part.system, &part.faulty, &marked, &mut scratch) {
        return Err(CertError::NotBlocking(line));
    }
    if !is_least_block(
        alloc,
        &part.system,
        &part.faulty,
        &over.groups,
        set,
        &mut scratch,
    )? {
        return Err(CertError::NotMinimal(line));
    }
    Ok(())
}

/// The minimal blocking set of groups that the texts are those of.
fn named_block(
    alloc: Global,
    over: &GroupPart,
    line: u64,
    texts: &mut Words<'_>,
) -> Result<GroupSet, CertError>
    requires rising { IsStrictlySortedBy name_cmp (texts_of over.now.groups) }
    requires sized { All (λ group. length group.members ≡ length over.now.part.system.sets) over.now.groups }
    requires places { length over.now.touched ≡ length over.now.groups }
    requires same_faulty { length over.now.part.faulty ≡ length over.now.part.system.sets }
    ensures size { IfOk result (λ s. length s ≡ length over.now.groups) }
    ensures ok { IfOk result (λ s. and_then (block_in over.now line) (groups_by_text over.now line texts.old) ≡ Ok s) }
    ensures inside { IfOk result (λ s. members s ⊆ members over.now.touched) }
    ensures err { IfErr result (λ e. (e ≡ CertError.Memory) ⊎ (and_then (block_in over.now line) (groups_by_text over.now line texts.old) ≡ Err e)) }
{
    let set = groups_by_text(over, line, texts)?;
    block_in(alloc, over, line, &set)?;
    Ok(set)
}

/// Whether the clause of a set has to be new: in a part each, and in a whole list that of a blocking set.
fn asks_new(kind: ListKind, which: Listed) -> bool
    ensures { result ≡ asks_new Listed.Blocking kind which }
{
    match (kind, which) {
        (ListKind::Partial, _) | (ListKind::Whole, Listed::Blocking) => true,
        _ => false,
    }
}

/// Takes the clause of a set under an id above the last one: it has to be new where the kind asks for it, and takes a unit.
fn add_clause(
    listing: &mut GroupListing,
    line: u64,
    which: Listed,
    id: u64,
    clause: &[Lit],
) -> Result<(), CertError>
    requires above { listing.old.checker.database.last < id }
    requires range { IsInRange listing.old.checker.vars clause.now }
    ensures new { OnOk result ((asks_new Listed.Blocking listing.old.kind which && is_covered listing.old.checker.database.held id clause.now) ≡ false) }
    ensures listing { OnOk result (listing.new ≡ group_listing_on listing.old.kind listing.old.over (holding listing.old.checker (record { held = with_clause listing.old.checker.database.held id clause.now; last = id })) listing.old.sets (listing.old.units + 1)) }
    ensures err { IfErr result (λ e. (e ≡ CertError.Memory) ⊎ ((e ≡ CertError.NotNew line) × ((asks_new Listed.Blocking listing.old.kind which && is_covered listing.old.checker.database.held id clause.now) ≡ true))) }
{
    if asks_new(listing.kind, which) && is_covered(&listing.checker, id, clause) {
        return Err(CertError::NotNew(line));
    }
    listing.checker.give(id, clause)?;
    let Some(units) = listing.units.checked_add(1) else {
        return Err(CertError::Memory);
    };
    listing.units = units;
    Ok(())
}

/// A quorum of nodes under an id above the last one.
pub fn list_quorum(
    alloc: Global,
    scope: &Scope<'_>,
    listing: &mut GroupListing,
    line: u64,
    id: u64,
    names: &mut Words<'_>,
) -> Result<(), CertError>
    requires known { IsListOver scope.now.system.now scope.now.nodes.now scope.now.faulty.now listing.old }
    requires above { listing.old.checker.database.last < id }
    requires names { names_in names.old ≡ Some names.old }
    ensures ok { OnOk result (and_then (list_group_set listing.old line Listed.Quorum id) (listed_set scope.now.system.now scope.now.nodes.now listing.old.over line Listed.Quorum names.old) ≡ Ok (Going (AtGroups listing.new))) }
    ensures err { IfErr result (λ e. (e ≡ CertError.Memory) ⊎ (and_then (list_group_set listing.old line Listed.Quorum id) (listed_set scope.now.system.now scope.now.nodes.now listing.old.over line Listed.Quorum names.old) ≡ Err e)) }
{
    let quorum = named_quorum(scope, &listing.over, line, names)?;
    let clause = quorum_clause(alloc, &listing.over.groups, &listing.over.touched, &quorum)?;
    add_clause(listing, line, Listed::Quorum, id, &clause)
}

/// A minimal blocking set of groups under an id above the last one.
pub fn list_block(
    alloc: Global,
    scope: &Scope<'_>,
    listing: &mut GroupListing,
    line: u64,
    id: u64,
    texts: &mut Words<'_>,
) -> Result<(), CertError>
    requires known { IsListOver scope.now.system.now scope.now.nodes.now scope.now.faulty.now listing.old }
    requires above { listing.old.checker.database.last < id }
    ensures ok { OnOk result (and_then (list_group_set listing.old line Listed.Blocking id) (listed_set scope.now.system.now scope.now.nodes.now listing.old.over line Listed.Blocking texts.old) ≡ Ok (Going (AtGroups listing.new))) }
    ensures err { IfErr result (λ e. (e ≡ CertError.Memory) ⊎ (and_then (list_group_set listing.old line Listed.Blocking id) (listed_set scope.now.system.now scope.now.nodes.now listing.old.over line Listed.Blocking texts.old) ≡ Err e)) }
{
    let set = named_block(alloc, &listing.over, line, texts)?;
    let clause = block_clause(alloc, &listing.over.groups, &listing.over.touched, &set)?;
    add_clause(listing, line, Listed::Blocking, id, &clause)?;
    listing.sets.push(set)?;
    Ok(())
}
