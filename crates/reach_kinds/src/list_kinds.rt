//! The kinds of lists: what is known before the first line of one.
ghost use Rattle.std.specs.Prelude.{◌≡◌, ◌<◌, ◌^◌, [], IfOk};
ghost use Rattle.fbas_model.specs.Nodes.{size};
ghost use Rattle.enumeration_journal.specs.Journals.{nothing_held};
ghost use Rattle.reach_kinds.specs.Bodies.{list_part, list_checking, listing_on, body_begins};
ghost use Rattle.reach_kinds.specs.Known.{IsPartNodes};

use crate::places::{ListPart, Listing, ReachPlace, Scope};
use clause_store::Store;
use enumeration_journal::{ListKind, Listed, NodeSets};
use greatest_quorum::greatest;
use lrat_checker::IdleChecker;
use lrat_model::Rule;
use std::alloc::{AllocError, Global};

/// A checker that holds nothing, with this many variables.
pub(crate) fn list_checker(alloc: Global, vars: u32) -> Result<IdleChecker, AllocError>
    requires { vars < 2 ^ 31 }
    ensures { IfOk result (λ checker. checker ≡ list_checking vars nothing_held) }
{
    let store = Store::new(alloc);
    let mut checker = IdleChecker::start(alloc, store, u64::from(vars), Rule::Rup)?;
    checker.expect_covers(alloc);
    Ok(checker)
}

/// The part of the system that a list is of.
pub(crate) fn list_part(alloc: Global, scope: &Scope<'_>) -> Result<ListPart, AllocError>
    requires { IsPartNodes scope.now.system.now scope.now.nodes.now scope.now.faulty.now }
    ensures part { IfOk result (λ part. part ≡ list_part scope.now.system.now scope.now.nodes.now scope.now.faulty.now) }
    ensures few { IfOk result (λ part. size part.greatest < 2 ^ 31) }
{
    let restricted = scope.system.restrict(alloc, scope.nodes)?;
    let faulty = scope.system.cut(scope.faulty, scope.nodes);
    let greatest = greatest(&restricted, &faulty);
    Ok(ListPart {
        system: restricted,
        faulty,
        greatest,
    })
}

/// A list of all minimal sets of a kind of the part, before its first line.
fn no_listing(
    alloc: Global,
    sought: Listed,
    kind: ListKind,
    part: ListPart,
) -> Result<Listing, AllocError>
    requires { size part.greatest < 2 ^ 31 }
    ensures { IfOk result (λ k. k ≡ listing_on sought kind part (list_checking (size part.greatest) nothing_held) [] 0) }
{
    match list_checker(alloc, part.greatest.count()) {
        Ok(checker) => Ok(Listing {
            sought,
            kind,
            part,
            checker,
            sets: NodeSets::new(alloc),
            units: 0,
        }),
        Err(fault) => {
            drop(part);
            Err(fault)
        }
    }
}

/// The place of the first line of a body: that of the counter where a smallest quorum is sought, else that of the list.
pub fn body_begins(
    alloc: Global,
    scope: &Scope<'_>,
    sought: Listed,
    kind: ListKind,
) -> Result<ReachPlace, AllocError>
    requires { IsPartNodes scope.now.system.now scope.now.nodes.now scope.now.faulty.now }
    ensures { IfOk result (λ place. place ≡ body_begins scope.now.system.now sought kind scope.now.nodes.now scope.now.faulty.now) }
{
    let part = list_part(alloc, scope)?;
    match sought {
        Listed::Smaller => Ok(ReachPlace::AtCounter(kind, part)),
        Listed::Quorum | Listed::Blocking => {
            let listing = no_listing(alloc, sought, kind, part)?;
            Ok(ReachPlace::AtList(listing))
        }
    }
}
