//! Proofs by steps, whose steps are taken one after another while their state stays in its place.
ghost use Rattle.std.specs.Prelude.{◌≡◌, ◌+◌, ◌++◌, ◌<◌, ◌≤◌, ◌⊎◌, None, IsTrue, IfOk, IfErr, IsErrOf, OnOk, Ok, Err};
ghost use Rattle.desk_io.specs.State.{left_of, with_left};
ghost use Rattle.desk_io.specs.Faults.{ReadFails};
ghost use Rattle.fbas_model.specs.Systems.{System};
ghost use Rattle.cert_lines.specs.Ends.{OnCert};
ghost use Rattle.cert_lines.specs.Lines.{lines_of};
ghost use Rattle.cert_lines.specs.declared.lines.TheConstants.{MAX_LINES};
ghost use Rattle.certificate_file.specs.Acceptance.{check_lines};
ghost use Rattle.reach_kinds.specs.Bodies.{and_then};
ghost use Rattle.certificate_file.specs.Organisations.{FitsGiven};
ghost use Rattle.certificate_file.specs.declared.given.Given.{Given};
ghost use Rattle.certificate_file.specs.Known.{IsKnown, IsKnownState};
ghost use Rattle.certificate_file.specs.Streamed.{is_part, place_of, end_of, checking_of, next_place, next_taken, HasSizedSets};

use crate::given::Given;
use crate::places::{Accepted, Conclusion, Place, Proof, State};
use crate::proving::extent;
use crate::streaming::take_read;
use crate::taking::take_line;
use cert_lines::{CertError, CheckError, Lines, line_or_step};
use desk_io::{Desk, Which};
use fbas_core::System;
use lrat_checker::{Checker, IdleChecker};
use lrat_model::Progress;
use lrat_stream::StepReader;
use reach_kinds::{GroupListing, Listing, ReachPlace, asks_steps, group_whole, whole_of};
use std::alloc::Global;

/// A proof with its checker and its units.
#[derive(Drop)]
pub struct Steps {
    pub proof: Proof,
    pub checker: IdleChecker,
    pub units: u64,
}

impl Steps {
    /// The proof of a place at which a step may stand, or else the place.
    pub fn of(place: Place) -> Result<Steps, Place>
        ensures steps { IfOk result (λ s. place_of s.proof s.checker s.units ≡ place) }
        ensures other { IfErr result (λ p. p ≡ place) }
    {
        match place {
            Place::AtSteps(to, header, checker, units) => Ok(Steps {
                proof: Proof::Steps(to, header),
                checker,
                units,
            }),
            Place::AtReach(subject, place) => match place {
                ReachPlace::AtList(listing) => {
                    let Listing {
                        sought,
                        kind,
                        part,
                        checker,
                        sets,
                        units,
                    } = listing;
                    let proof = Proof::List(subject, sought, kind, part, sets);
                    Ok(Steps {
                        proof,
                        checker,
                        units,
                    })
                }
                ReachPlace::AtGroups(listing) => {
                    let GroupListing {
                        kind,
                        over,
                        checker,
                        sets,
                        units,
                    } = listing;
                    let proof = Proof::Groups(subject, kind, over, sets);
                    Ok(Steps {
                        proof,
                        checker,
                        units,
                    })
                }
                other => Err(Place::AtReach(subject, other)),
            },
            other => Err(other),
        }
    }
}

impl Proof {
    /// Whether it is a part of a proof, so that the empty lemma may not stand in it and each lemma has to be new.
    fn is_part(&self) -> bool
        ensures { result ≡ is_part self.now }
    {
        match self {
            Proof::Steps(to, _) => asks_steps(extent(*to)),
            Proof::List(_, _, kind, _, _) => asks_steps(*kind),
            Proof::Groups(_, kind, _, _) => asks_steps(*kind),
        }
    }

    /// The place of the next line.
    fn place(self, checker: IdleChecker, units: u64) -> Place
        ensures { result ≡ place_of self checker units }
    {
        match self {
            Proof::Steps(to, header) => Place::AtSteps(to, header, checker, units),
            Proof::List(subject, sought, kind, part, sets) => {
                let listing = Listing {
                    sought,
                    kind,
                    part,
                    checker,
                    sets,
                    units,
                };
                Place::AtReach(subject, ReachPlace::AtList(listing))
            }
            Proof::Groups(subject, kind, over, sets) => {
                let listing = GroupListing {
                    kind,
                    over,
                    checker,
                    sets,
                    units,
                };
                Place::AtReach(subject, ReachPlace::AtGroups(listing))
            }
        }
    }

    /// The place after the empty lemma, which ends a refutation, and a list. In no part of a proof is it taken.
    fn end(self) -> Place
        requires { HasSizedSets self }
        ensures { result ≡ end_of self }
    {
        match self {
            Proof::Steps(_, header) => Place::AtEnd(Accepted {
                header,
                answer: Conclusion::Refutation,
            }),
            Proof::List(subject, sought, _, part, sets) => {
                drop(part);
                Place::AtReach(subject, ReachPlace::AtEnd(whole_of(sought, sets)))
            }
            Proof::Groups(subject, _, over, sets) => {
                Place::AtReach(subject, ReachPlace::AtEnd(group_whole(over, sets)))
            }
        }
    }
}

/// Takes the steps that come next. Gives the first line that begins as no step does, with its number, or None after the empty
/// lemma.
fn take_steps<D: Desk>(
    alloc: Global,
    lines: &mut Lines,
    desk: &mut D,
    reader: &mut StepReader,
    proof: &Proof,
    checker: &mut Checker,
    units: &mut u64,
) -> Result<Option<(u64, Vec<u8>)>, CheckError>
    requires fresh { lines.old.taken ≡ 0 }
    requires closed { checker.old.open_addition ≡ None }
    ensures closed { OnOk result (checker.new.open_addition ≡ None) }
    ensures known { IfOk result (λ o. (f : System) (given : Given) → IsKnown f given (place_of proof.now (checking_of checker.old) units.old) → IsKnown f given (next_place proof.now (checking_of checker.new) units.new o)) }
    ensures ok { IfOk result (λ o. IsTrue D.tells → (f : System) (given : Given) → check_lines f given lines.old.number (State.Going (place_of proof.now (checking_of checker.old) units.old)) (lines_of (lines.old.unread ++ left_of Which.Cert (D.state desk.old)))
        ≡ and_then (λ s. check_lines f given lines.new.number s (lines_of (lines.new.unread ++ left_of Which.Cert (D.state desk.new)))) (next_taken f given proof.now (checking_of checker.new) units.new o)) }
    ensures few { OnOk result (lines.new.number ≤ MAX_LINES + 1) }
    ensures number { OnOk result (lines.old.number < lines.new.number) }
    ensures taken { OnOk result (lines.new.taken ≡ 0) }
    ensures err { IfErr result (λ e. IsTrue D.tells → OnCert e (λ fault. (fault ≡ CertError.Memory)
        ⊎ ((f : System) (given : Given) → check_lines f given lines.old.number (State.Going (place_of proof.now (checking_of checker.old) units.old)) (lines_of (lines.old.unread ++ left_of Which.Cert (D.state desk.old))) ≡ Err fault))) }
    ensures plain { IsErrOf result CheckError.Read → IsTrue D.tells → IsTrue (D.state desk.old).plain → ⊥ }
    ensures rest { IsTrue D.tells → D.state desk.new ≡ with_left Which.Cert (left_of Which.Cert (D.state desk.new)) (D.state desk.old) }
    ensures faults { ReadFails (D.faults desk.old) (D.faults desk.new) (IsErrOf result CheckError.Read) }
{
    let is_part = proof.is_part();
    'steps: loop {
        let line = lines.number();
        match line_or_step(alloc, lines, desk, checker, reader)? {
            Some(text) => return Ok(Some((line, text))),
            None => match take_read(checker, units, is_part, &mut reader.words, line)? {
                Progress::Going => {}
                Progress::Refuted => return Ok(None),
            },
        }
    }
}

/// The steps that come next, and then the line that begins as no step does, or the place after the empty lemma.
pub fn next_steps<D: Desk>(
    alloc: Global,
    lines: &mut Lines,
    desk: &mut D,
    reader: &mut StepReader,
    system: &System,
    given: &Given,
    steps: Steps,
) -> Result<State, CheckError>
    requires fresh { lines.old.taken ≡ 0 }
    requires fits { FitsGiven system.now given.now }
    requires known { IsKnown system.now given.now (place_of steps.proof steps.checker steps.units) }
    ensures known { IfOk result (IsKnownState system.now given.now) }
    ensures few { OnOk result (lines.new.number ≤ MAX_LINES + 1) }
    ensures number { OnOk result (lines.old.number < lines.new.number) }
    ensures taken { OnOk result (lines.new.taken ≡ 0) }
    ensures ok { IfOk result (λ s. IsTrue D.tells → check_lines system.now given.now lines.old.number (State.Going (place_of steps.proof steps.checker steps.units)) (lines_of (lines.old.unread ++ left_of Which.Cert (D.state desk.old)))
        ≡ check_lines system.now given.now lines.new.number s (lines_of (lines.new.unread ++ left_of Which.Cert (D.state desk.new)))) }
    ensures err { IfErr result (λ e. IsTrue D.tells → OnCert e (λ fault. (fault ≡ CertError.Memory)
        ⊎ (check_lines system.now given.now lines.old.number (State.Going (place_of steps.proof steps.checker steps.units)) (lines_of (lines.old.unread ++ left_of Which.Cert (D.state desk.old))) ≡ Err fault))) }
    ensures plain { IsErrOf result CheckError.Read → IsTrue D.tells → IsTrue (D.state desk.old).plain → ⊥ }
    ensures rest { IsTrue D.tells → D.state desk.new ≡ with_left Which.Cert (left_of Which.Cert (D.state desk.new)) (D.state desk.old) }
    ensures faults { ReadFails (D.faults desk.old) (D.faults desk.new) (IsErrOf result CheckError.Read) }
{
    let Steps {
        proof,
        checker,
        mut units,
    } = steps;
    let mut checker = checker.opening();
    match take_steps(alloc, lines, desk, reader, &proof, &mut checker, &mut units) {
        Ok(Some((line, text))) => {
            let place = proof.place(IdleChecker::closing(checker), units);
            Ok(take_line(alloc, system, given, place, line, &text)?)
        }
        Ok(None) => {
            drop(checker);
            Ok(State::Going(proof.end()))
        }
        Err(fault) => {
            drop(checker);
            drop(proof);
            Err(fault)
        }
    }
}
