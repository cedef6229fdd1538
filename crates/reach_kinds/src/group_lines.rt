//! The lines of lists over groups.
ghost use Rattle.std.specs.Prelude.{◌≡◌, ◌⊎◌, Some, IfOk, IfErr, OnOk, Ok, Err};
ghost use Rattle.cert_lines.specs.Words.{words_of, names_in};
ghost use Rattle.reach_kinds.specs.Bodies.{listed_by};
ghost use Rattle.reach_kinds.specs.GroupBodies.{group_set_line, after_group_step, group_text, group_line};
ghost use Rattle.reach_kinds.specs.Known.{IsListOver};

use crate::group_sets::{list_block, list_quorum};
use crate::group_steps::{after_group_step, group_end, group_step};
use crate::list_lines::{listed_by, numbered_in};
use crate::places::{GroupListing, ReachPlace, ReachState, Scope};
use cert_lines::{CertError, Words, step_in};
use enumeration_journal::Listed;
use lrat_model::{Progress, StepFault};
use std::alloc::Global;

/// A set under an id: the id is above the last one, and the names are those of nodes of the part, or texts of groups.
fn group_set_line(
    alloc: Global,
    scope: &Scope<'_>,
    listing: &mut GroupListing,
    line: u64,
    which: Listed,
    id: u64,
    names: &mut Words<'_>,
) -> Result<(), CertError>
    requires known { IsListOver scope.now.system.now scope.now.nodes.now scope.now.faulty.now listing.old }
    requires names { names_in names.old ≡ Some names.old }
    ensures ok { OnOk result (group_set_line scope.now.system.now scope.now.nodes.now listing.old line which (record { id = id; names = names.old }) ≡ Ok (ReachState.Going (ReachPlace.AtGroups listing.new))) }
    ensures err { IfErr result (λ e. (e ≡ CertError.Memory) ⊎ (group_set_line scope.now.system.now scope.now.nodes.now listing.old line which (record { id = id; names = names.old }) ≡ Err e)) }
{
    let last = listing.checker.last();
    if id <= last {
        return Err(CertError::Step(line, StepFault::IdOrder(last, id)));
    }
    match which {
        Listed::Quorum => { list_quorum(alloc, scope, listing, line, id, names) }
        Listed::Blocking => { list_block(alloc, scope, listing, line, id, names) }
        Listed::Smaller => Err(CertError::BadLine(line)),
    }
}

/// A line of a list before its end: a listed set, or a step, which may refute.
fn group_text(
    alloc: Global,
    scope: &Scope<'_>,
    listing: &mut GroupListing,
    line: u64,
    text: &[u8],
) -> Result<Progress, CertError>
    requires { IsListOver scope.now.system.now scope.now.nodes.now scope.now.faulty.now listing.old }
    ensures sets { result ≡ Ok Progress.Refuted → listing.new.sets ≡ listing.old.sets }
    ensures ok { IfOk result (λ p. group_text scope.now.system.now scope.now.nodes.now listing.old line text.now (listed_by Listed.Blocking (words_of text.now)) ≡ Ok (after_group_step listing.new p)) }
    ensures err { IfErr result (λ e. (e ≡ CertError.Memory) ⊎ (group_text scope.now.system.now scope.now.nodes.now listing.old line text.now (listed_by Listed.Blocking (words_of text.now)) ≡ Err e)) }
{
    let Some(which) = listed_by(Listed::Blocking, text) else {
        return group_step(listing, line, step_in(alloc, line, text)?);
    };
    let Some((id, mut names)) = numbered_in(text) else {
        return Err(CertError::BadLine(line));
    };
    group_set_line(alloc, scope, listing, line, which, id, &mut names)?;
    Ok(Progress::Going)
}

/// A line of a list over groups: a listed set, a step, or the end. A set costs what its test does, a step its literals and those of
/// the clauses that its hints name; and a clause that has to be new is linear in the literals that are held.
pub fn group_line(
    alloc: Global,
    scope: &Scope<'_>,
    mut listing: GroupListing,
    line: u64,
    text: &[u8],
) -> Result<ReachState, CertError>
    requires { IsListOver scope.now.system.now scope.now.nodes.now scope.now.faulty.now listing }
    ensures ok { IfOk result (λ s. group_line scope.now.system.now scope.now.nodes.now listing line text.now ≡ Ok s) }
    ensures err { IfErr result (λ e. (e ≡ CertError.Memory) ⊎ (group_line scope.now.system.now scope.now.nodes.now listing line text.now ≡ Err e)) }
{
    if text == b"end".as_slice() {
        return group_end(listing, line);
    }
    match group_text(alloc, scope, &mut listing, line, text) {
        Ok(progress) => Ok(ReachState::Going(after_group_step(listing, progress))),
        Err(fault) => {
            drop(listing);
            Err(fault)
        }
    }
}
