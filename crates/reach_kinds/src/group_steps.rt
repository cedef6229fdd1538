//! The steps of lists over groups, and their end.
ghost use Rattle.std.specs.Prelude.{◌≡◌, ◌⊎◌, ℕ, length, All, IfOk, IfErr, Ok, Err};
ghost use Rattle.lrat_model.specs.Steps.{step_of};
ghost use Rattle.enumeration_journal.specs.Order.{ordered};
ghost use Rattle.reach_kinds.specs.Bodies.{and_then, literal_in};
ghost use Rattle.reach_kinds.specs.GroupBodies.{after_group_step, group_step, group_end};
ghost use Rattle.reach_kinds.specs.declared.places.Reached.TheVariants.{OrgBlocking};

use crate::kinds::ReachKind;
use crate::list_steps::literal_in;
use crate::places::{GroupListing, GroupPart, GroupSets, ReachPlace, ReachState, Reached};
use crate::steps::take_counted_step;
use cert_lines::CertError;
use enumeration_journal::ListKind;
use lrat_model::{Progress, Step};

/// A step of a list: where it led.
pub fn group_step(listing: &mut GroupListing, line: u64, step: Step) -> Result<Progress, CertError>
    ensures over { listing.new.over ≡ listing.old.over }
    ensures sets { listing.new.sets ≡ listing.old.sets }
    ensures ok { IfOk result (λ p. and_then (group_step listing.old line) (literal_in listing.old.kind line (step_of step)) ≡ Ok (after_group_step listing.new p)) }
    ensures err { IfErr result (λ e. (e ≡ CertError.Memory) ⊎ (and_then (group_step listing.old line) (literal_in listing.old.kind line (step_of step)) ≡ Err e)) }
{
    let literal = literal_in(listing.kind, line, step)?;
    take_counted_step(
        listing.kind,
        &mut listing.checker,
        &mut listing.units,
        line,
        &literal,
    )
}

/// What a whole list shows: its groups, and its sets put in order.
pub fn group_whole(over: GroupPart, sets: GroupSets) -> Reached
    requires { (n : ℕ) × All (λ s. length s ≡ n) sets }
    ensures { result ≡ OrgBlocking over.groups (ordered sets) }
{
    let GroupPart {
        part,
        groups,
        touched: _,
    } = over;
    drop(part);
    Reached::OrgBlocking(groups, sets.ordered())
}

/// The place of the line after a step: the empty lemma ends a whole list.
pub fn after_group_step(listing: GroupListing, progress: Progress) -> ReachPlace
    requires { progress ≡ Progress.Refuted → (n : ℕ) × All (λ s. length s ≡ n) listing.sets }
    ensures { ReachState.Going result ≡ after_group_step listing progress }
{
    match progress {
        Progress::Going => ReachPlace::AtGroups(listing),
        Progress::Refuted => {
            let GroupListing {
                kind: _,
                over,
                checker,
                sets,
                units: _,
            } = listing;
            drop(checker);
            ReachPlace::AtEnd(group_whole(over, sets))
        }
    }
}

/// The end of a list: a whole one has come to the empty lemma before.
pub fn group_end(listing: GroupListing, line: u64) -> Result<ReachState, CertError>
    ensures value { result ≡ group_end listing.kind listing line }
{
    let kind = listing.kind;
    let units = listing.units;
    drop(listing);
    match kind {
        ListKind::Whole => Err(CertError::NotRefuted(line)),
        ListKind::Partial => Ok(ReachState::Done(Reached::Partial(ReachKind::Groups, units))),
    }
}
