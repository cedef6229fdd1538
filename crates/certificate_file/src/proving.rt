//! The step lines of a certificate over the formula: all steps to the empty lemma, or a part of them.
ghost use Rattle.std.specs.Prelude.{◌≡◌, ◌⊎◌, IfOk, IfErr, Ok, Err};
ghost use Rattle.lrat_text.specs.Lines.{step_in};
ghost use Rattle.cert_lines.specs.Saying.{or_bad_line};
ghost use Rattle.reach_kinds.specs.Bodies.{and_then, literal_in};
ghost use Rattle.certificate_file.specs.Acceptance.{extent, after_progress, take_step, steps_end, step_line};
ghost use Rattle.certificate_file.specs.declared.places.Header.{Header};

use crate::places::{Accepted, Aim, Conclusion, Header, Place, State};
use cert_lines::{CertError, step_in};
use enumeration_journal::ListKind;
use lrat_checker::IdleChecker;
use lrat_model::Progress;
use reach_kinds::{literal_in, take_counted_step};
use std::alloc::Global;

/// Whether the steps are all of a proof or a part of one.
pub fn extent(to: Aim) -> ListKind
    ensures { result ≡ extent to }
{
    match to {
        Aim::Refutation => ListKind::Whole,
        Aim::Partial => ListKind::Partial,
    }
}

/// Takes a line before the end: a step, which in a part is a lemma that is new or a deletion. Counts its units on.
fn add_step(
    alloc: Global,
    to: Aim,
    checker: &mut IdleChecker,
    units: &mut u64,
    line: u64,
    text: &[u8],
) -> Result<Progress, CertError>
    ensures ok { IfOk result (λ p. (h : Header) → and_then (take_step line to h checker.old units.old) (and_then (literal_in (extent to) line) (or_bad_line line (step_in text.now))) ≡ Ok (after_progress to h checker.new units.new p)) }
    ensures err { IfErr result (λ e. (e ≡ CertError.Memory) ⊎ ((h : Header) → and_then (take_step line to h checker.old units.old) (and_then (literal_in (extent to) line) (or_bad_line line (step_in text.now))) ≡ Err e)) }
{
    let kind = extent(to);
    let step = step_in(alloc, line, text)?;
    let fit = literal_in(kind, line, step)?;
    take_counted_step(kind, checker, units, line, &fit)
}

/// The end, which all steps of a proof do not come to before the empty lemma.
fn steps_end(to: Aim, header: Header, units: u64, line: u64) -> Result<State, CertError>
    ensures { result ≡ steps_end to header units line }
{
    match to {
        Aim::Refutation => Err(CertError::NotRefuted(line)),
        Aim::Partial => Ok(State::Done(Accepted {
            header,
            answer: Conclusion::Partial(units),
        })),
    }
}

/// A line of steps: a step, of which the empty lemma ends a refutation, or the end. The cost is that of the step, and in a part linear in
/// the literals that are held.
pub fn step_line(
    alloc: Global,
    to: Aim,
    header: Header,
    mut checker: IdleChecker,
    mut units: u64,
    line: u64,
    text: &[u8],
) -> Result<State, CertError>
    ensures ok { IfOk result (λ s. step_line to header checker units line text.now ≡ Ok s) }
    ensures err { IfErr result (λ e. (e ≡ CertError.Memory) ⊎ (step_line to header checker units line text.now ≡ Err e)) }
{
    if text == b"end".as_slice() {
        drop(checker);
        return steps_end(to, header, units, line);
    }
    match add_step(alloc, to, &mut checker, &mut units, line, text) {
        Ok(Progress::Going) => Ok(State::Going(Place::AtSteps(to, header, checker, units))),
        Ok(Progress::Refuted) => {
            drop(checker);
            Ok(State::Going(Place::AtEnd(Accepted {
                header,
                answer: Conclusion::Refutation,
            })))
        }
        Err(fault) => {
            drop(checker);
            Err(fault)
        }
    }
}
