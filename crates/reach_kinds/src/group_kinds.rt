//! Lists of sets of groups: what is known before the first line of one.
ghost use Rattle.std.specs.Prelude.{◌≡◌, ◌<◌, ◌^◌, [], All, length, IfOk};
ghost use Rattle.fbas_model.specs.Nodes.{size};
ghost use Rattle.enumeration_journal.specs.Journals.{nothing_held};
ghost use Rattle.std.specs.List.Sorted.{IsStrictlySortedBy};
ghost use Rattle.fbas_model.specs.Names.{name_cmp};
ghost use Rattle.node_json.specs.Groups.{groups_of as spec_groups_of, texts_of};
ghost use Rattle.reach_kinds.specs.Bodies.{list_checking};
ghost use Rattle.reach_kinds.specs.GroupBodies.{grouped_part, no_group_listing, groups_begin};
ghost use Rattle.reach_kinds.specs.Known.{IsPartNodes, IsReachPlace};

use crate::list_kinds::{list_checker, list_part};
use crate::places::{GroupListing, GroupPart, GroupSets, ListPart, ReachPlace, Scope};
use enumeration_journal::ListKind;
use fbas_core::System;
use group_journal::touching;
use node_json::{Orgs, groups_of};
use std::alloc::{AllocError, Global};

/// The part with the groups of these organisations of the whole system.
fn grouped_part(
    alloc: Global,
    system: &System,
    orgs: &Orgs,
    part: ListPart,
) -> Result<GroupPart, AllocError>
    requires orgs { All (λ org. length org.members ≡ length system.now.names) orgs.now }
    requires places { length part.greatest ≡ length part.system.sets }
    ensures over { IfOk result (λ over. over ≡ grouped_part part (spec_groups_of system.now.names part.system.names orgs.now)) }
    ensures few { IfOk result (λ over. size over.touched < 2 ^ 31) }
    ensures rising { IfOk result (λ over. IsStrictlySortedBy name_cmp (texts_of over.groups)) }
    ensures sized { IfOk result (λ over. All (λ group. length group.members ≡ length part.system.sets) over.groups) }
{
    // This call says that the part has a name for each of its nodes.
    let _nodes = part.system.len();
    match groups_of(alloc, orgs, system, &part.system) {
        Ok(groups) => {
            let touched = touching(&groups, &part.greatest);
            // This call says how many groups there are at most, and so that their variables fit.
            let _groups = groups.len();
            Ok(GroupPart {
                part,
                groups,
                touched,
            })
        }
        Err(fault) => {
            drop(part);
            Err(fault)
        }
    }
}

/// A list of all minimal blocking sets of groups, before its first line.
fn no_group_listing(
    alloc: Global,
    kind: ListKind,
    over: GroupPart,
) -> Result<GroupListing, AllocError>
    requires { size over.touched < 2 ^ 31 }
    ensures { IfOk result (λ k. k ≡ no_group_listing kind over) }
{
    match list_checker(alloc, over.touched.count()) {
        Ok(checker) => Ok(GroupListing {
            kind,
            over,
            checker,
            sets: GroupSets::new(alloc),
            units: 0,
        }),
        Err(fault) => {
            drop(over);
            Err(fault)
        }
    }
}

/// The place of the first line of a list over the groups of these organisations of the whole system. The groups are made once, here:
/// the cost is that of `groups_of`, beside the restriction and its greatest quorum.
pub fn groups_begin(
    alloc: Global,
    scope: &Scope<'_>,
    kind: ListKind,
    orgs: &Orgs,
) -> Result<ReachPlace, AllocError>
    requires part { IsPartNodes scope.now.system.now scope.now.nodes.now scope.now.faulty.now }
    requires orgs { All (λ org. length org.members ≡ length scope.now.system.now.names) orgs.now }
    ensures place { IfOk result (λ place. place ≡ groups_begin scope.now.system.now kind scope.now.nodes.now scope.now.faulty.now orgs.now) }
    ensures known { IfOk result (IsReachPlace scope.now.system.now scope.now.nodes.now scope.now.faulty.now) }
{
    let part = list_part(alloc, scope)?;
    let over = grouped_part(alloc, scope.system, orgs, part)?;
    let listing = no_group_listing(alloc, kind, over)?;
    Ok(ReachPlace::AtGroups(listing))
}
