//! The steps of lists, and their end.
ghost use Rattle.std.specs.Prelude.{◌≡◌, ◌⊎◌, ◌&&◌, ℕ, length, All, None, IfOk, IfErr, Ok, Err};
ghost use Rattle.lrat_model.specs.Steps.{step_of};
ghost use Rattle.least_journal.specs.Least.{last_of};
ghost use Rattle.reach_kinds.specs.Bodies.{and_then, literal_in, in_shown_order, whole_of, after_list_step, list_step, list_end};

use crate::kinds::ReachKind;
use crate::places::{Listing, ReachPlace, ReachState, Reached};
use crate::steps::{take_counted_step, with_literal};
use cert_lines::CertError;
use enumeration_journal::{ListKind, Listed, NodeSets};
use lrat_model::{Progress, Step};
use name_set::NodeSet;

/// The step, which is not the empty lemma in a part of a list.
pub fn literal_in(kind: ListKind, line: u64, step: Step) -> Result<Step, CertError>
    ensures ok { IfOk result (λ s. literal_in kind line (step_of step) ≡ Ok (step_of s)) }
    ensures err { IfErr result (λ e. literal_in kind line (step_of step) ≡ Err e) }
{
    match kind {
        ListKind::Whole => Ok(step),
        ListKind::Partial => with_literal(line, step),
    }
}

/// A step of a list: where it led.
pub fn list_step(listing: &mut Listing, line: u64, step: Step) -> Result<Progress, CertError>
    ensures sets { listing.new.sets ≡ listing.old.sets }
    ensures ok { IfOk result (λ p. and_then (list_step listing.old line) (literal_in listing.old.kind line (step_of step)) ≡ Ok (after_list_step listing.new p)) }
    ensures err { IfErr result (λ e. (e ≡ CertError.Memory) ⊎ (and_then (list_step listing.old line) (literal_in listing.old.kind line (step_of step)) ≡ Err e)) }
{
    let literal = literal_in(listing.kind, line, step)?;
    take_counted_step(
        listing.kind,
        &mut listing.checker,
        &mut listing.units,
        line,
        &literal,
    )
}

/// The set that is listed last.
fn last_of(sets: &NodeSets) -> Option<NodeSet>
    ensures { result ≡ last_of None sets.now }
{
    match sets.as_slice().last() {
        Some(set) => Some(set.copy()),
        None => None,
    }
}

/// What a list of a kind shows: its sets put in order, or of ever smaller quorums the last one.
pub fn whole_of(sought: Listed, sets: NodeSets) -> Reached
    requires { (n : ℕ) × All (λ s. length s ≡ n) sets }
    ensures { result ≡ whole_of sought (in_shown_order sought sets) }
{
    match sought {
        Listed::Quorum | Listed::Blocking => Reached::Minimal(sought, sets.ordered()),
        Listed::Smaller => Reached::Least(last_of(&sets)),
    }
}

/// The place of the line after a step: the empty lemma ends a whole list.
pub fn after_list_step(listing: Listing, progress: Progress) -> ReachPlace
    requires { progress ≡ Progress.Refuted → (n : ℕ) × All (λ s. length s ≡ n) listing.sets }
    ensures { ReachState.Going result ≡ after_list_step listing progress }
{
    match progress {
        Progress::Going => ReachPlace::AtList(listing),
        Progress::Refuted => {
            let Listing {
                sought,
                kind: _,
                part,
                checker,
                sets,
                units: _,
            } = listing;
            drop(part);
            drop(checker);
            ReachPlace::AtEnd(whole_of(sought, sets))
        }
    }
}

/// The end of a list: a whole one has come to the empty lemma before.
pub fn list_end(listing: Listing, line: u64) -> Result<ReachState, CertError>
    ensures value { result ≡ list_end listing.kind listing line }
{
    let sought = listing.sought;
    let kind = listing.kind;
    let units = listing.units;
    drop(listing);
    match kind {
        ListKind::Whole => Err(CertError::NotRefuted(line)),
        ListKind::Partial => Ok(ReachState::Done(Reached::Partial(
            ReachKind::Nodes(sought),
            units,
        ))),
    }
}
