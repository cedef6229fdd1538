//! The lines of lists.
ghost use Rattle.std.specs.Prelude.{◌≡◌, ◌⊎◌, Some, None, is_some, IfSome, IfOk, IfErr, OnOk, Ok, Err, codes};
ghost use Rattle.cert_lines.specs.Words.{words_of, names_in};
ghost use Rattle.reach_kinds.specs.Bodies.{quorum_as, quorum_letter, listed_by, numbered_in, set_line, after_list_step, list_text, list_line, expected};
ghost use Rattle.reach_kinds.specs.PlaceLines.{reach_line};
ghost use Rattle.reach_kinds.specs.Known.{IsList, IsReachPlace, IsReachState};

use crate::counter::counter_line;
use crate::group_lines::group_line;
use crate::list_sets::list_set;
use crate::list_steps::{after_list_step, list_end, list_step};
use crate::lists::{is_next_name, nodes_of};
use crate::parts::within;
use crate::places::{Listing, ReachPlace, ReachState, Reached, Scope};
use cert_lines::{CertError, Words, step_in};
use enumeration_journal::Listed;
use lrat_model::{Progress, StepFault};
use lrat_text::read_id;
use std::alloc::Global;

/// As what a quorum is listed: where ever smaller ones are sought, as one of them.
fn quorum_as(sought: Listed) -> Listed
    ensures { result ≡ quorum_as sought }
{
    match sought {
        Listed::Quorum | Listed::Blocking => Listed::Quorum,
        Listed::Smaller => Listed::Smaller,
    }
}

/// And by which letter.
fn quorum_letter(sought: Listed) -> &'static str
    ensures { result.now ≡ quorum_letter sought }
{
    match sought {
        Listed::Quorum | Listed::Blocking => "q",
        Listed::Smaller => "s",
    }
}

/// What the first word of a line lists, if it is no step.
pub(crate) fn listed_by(sought: Listed, text: &[u8]) -> Option<Listed>
    ensures { result ≡ listed_by sought (words_of text.now) }
{
    let mut words = Words::of(text);
    let word = words.next()?;
    if word == quorum_letter(sought).as_bytes() {
        return Some(quorum_as(sought));
    }
    if word == b"b".as_slice() {
        return Some(Listed::Blocking);
    }
    None
}

/// Whether the words that are left are names, each once and in order.
fn are_names(names: &mut Words<'_>) -> bool
    ensures { result ≡ is_some (names_in names.old) }
{
    let mut before = None;
    while let Some(name) = names.next() {
        if !is_next_name(before, name) {
            return false;
        }
        before = Some(name);
    }
    true
}

/// The id after the first word, and the names after it, where they are names, each once and in order.
pub(crate) fn numbered_in(text: &[u8]) -> Option<(u64, Words<'_>)>
    ensures some { IfSome result (λ r. (names_in r.1 ≡ Some r.1) × (numbered_in (words_of text.now) ≡ Some (record { id = r.0; names = r.1 }))) }
    ensures none { result ≡ None → numbered_in (words_of text.now) ≡ None }
{
    let mut ahead = Words::of(text);
    ahead.next()?;
    let id = read_id(ahead.next()?)?;
    if !are_names(&mut ahead) {
        return None;
    }
    let mut names = Words::of(text);
    names.next();
    names.next();
    Some((id, names))
}

/// A set under an id: the id is above the last one, and the names are those of nodes of the part.
fn set_line(
    alloc: Global,
    scope: &Scope<'_>,
    listing: &mut Listing,
    line: u64,
    which: Listed,
    id: u64,
    names: &mut Words<'_>,
) -> Result<(), CertError>
    requires known { IsList scope.now.system.now scope.now.nodes.now scope.now.faulty.now listing.old }
    requires names { names_in names.old ≡ Some names.old }
    ensures ok { OnOk result (set_line scope.now.system.now scope.now.nodes.now listing.old line which (record { id = id; names = names.old }) ≡ Ok (ReachState.Going (ReachPlace.AtList listing.new))) }
    ensures err { IfErr result (λ e. (e ≡ CertError.Memory) ⊎ (set_line scope.now.system.now scope.now.nodes.now listing.old line which (record { id = id; names = names.old }) ≡ Err e)) }
{
    let last = listing.checker.last();
    if id <= last {
        return Err(CertError::Step(line, StepFault::IdOrder(last, id)));
    }
    let named = nodes_of(scope.system, line, names)?;
    let set = within(scope.nodes, line, named)?;
    list_set(alloc, scope, listing, line, which, id, set)
}

/// A line of a list before its end: a listed set, or a step, which may refute.
fn list_text(
    alloc: Global,
    scope: &Scope<'_>,
    listing: &mut Listing,
    line: u64,
    text: &[u8],
) -> Result<Progress, CertError>
    requires { IsList scope.now.system.now scope.now.nodes.now scope.now.faulty.now listing.old }
    ensures sets { result ≡ Ok Progress.Refuted → listing.new.sets ≡ listing.old.sets }
    ensures ok { IfOk result (λ p. list_text scope.now.system.now scope.now.nodes.now listing.old line text.now (listed_by listing.old.sought (words_of text.now)) ≡ Ok (after_list_step listing.new p)) }
    ensures err { IfErr result (λ e. (e ≡ CertError.Memory) ⊎ (list_text scope.now.system.now scope.now.nodes.now listing.old line text.now (listed_by listing.old.sought (words_of text.now)) ≡ Err e)) }
{
    let Some(which) = listed_by(listing.sought, text) else {
        return list_step(listing, line, step_in(alloc, line, text)?);
    };
    let Some((id, mut names)) = numbered_in(text) else {
        return Err(CertError::BadLine(line));
    };
    set_line(alloc, scope, listing, line, which, id, &mut names)?;
    Ok(Progress::Going)
}

/// A line of a list: a listed set, a step, or the end. A set costs what its test does, a step its literals
/// and those of the clauses that its hints name; and a clause that has to be new is linear in the literals that are held.
fn list_line(
    alloc: Global,
    scope: &Scope<'_>,
    mut listing: Listing,
    line: u64,
    text: &[u8],
) -> Result<ReachState, CertError>
    requires { IsList scope.now.system.now scope.now.nodes.now scope.now.faulty.now listing }
    ensures ok { IfOk result (λ s. list_line scope.now.system.now scope.now.nodes.now listing line text.now ≡ Ok s) }
    ensures err { IfErr result (λ e. (e ≡ CertError.Memory) ⊎ (list_line scope.now.system.now scope.now.nodes.now listing line text.now ≡ Err e)) }
{
    if text == b"end".as_slice() {
        return list_end(listing, line);
    }
    match list_text(alloc, scope, &mut listing, line, text) {
        Ok(progress) => Ok(ReachState::Going(after_list_step(listing, progress))),
        Err(fault) => {
            drop(listing);
            Err(fault)
        }
    }
}

/// The line `end`, after what is shown.
fn end_line(line: u64, text: &[u8], reached: Reached) -> Result<ReachState, CertError>
    ensures value { result ≡ expected line text.now (codes "end") (Ok (ReachState.Done reached)) }
{
    if text == b"end".as_slice() {
        return Ok(ReachState::Done(reached));
    }
    Err(CertError::BadLine(line))
}

/// What a line of a body says at its place.
pub fn reach_line(
    alloc: Global,
    scope: &Scope<'_>,
    place: ReachPlace,
    line: u64,
    text: &[u8],
) -> Result<ReachState, CertError>
    requires { IsReachPlace scope.now.system.now scope.now.nodes.now scope.now.faulty.now place }
    ensures ok { IfOk result (λ s. reach_line scope.now.system.now scope.now.nodes.now place line text.now ≡ Ok s) }
    ensures err { IfErr result (λ e. (e ≡ CertError.Memory) ⊎ (reach_line scope.now.system.now scope.now.nodes.now place line text.now ≡ Err e)) }
    ensures known { IfOk result (IsReachState scope.now.system.now scope.now.nodes.now scope.now.faulty.now) }
{
    match place {
        ReachPlace::AtCounter(kind, part) => counter_line(alloc, kind, part, line, text),
        ReachPlace::AtList(listing) => list_line(alloc, scope, listing, line, text),
        ReachPlace::AtGroups(listing) => group_line(alloc, scope, listing, line, text),
        ReachPlace::AtEnd(reached) => end_line(line, text, reached),
    }
}
