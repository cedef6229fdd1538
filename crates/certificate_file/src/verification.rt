//! The verification of an LRAT proof from outside.
ghost use Rattle.std.specs.Prelude.{◌≡◌, ◌+◌, ◌++◌, ◌⊎◌, ◌<◌, ◌≤◌, Some, None, length, IfSome, IfOk, IfErr, IsErrOf, OnOk, IsTrue, Ok, Err};
ghost use Rattle.desk_io.specs.State.{left_of, with_left};
ghost use Rattle.desk_io.specs.Faults.{ReadFails};
ghost use Rattle.fbas_model.specs.Systems.{System, IsSystem};
ghost use Rattle.fbas_model.specs.Restriction.{everyone};
ghost use Rattle.cert_lines.specs.Ends.{OnCert};
ghost use Rattle.cert_lines.specs.Texts.{texts_of};
ghost use Rattle.cert_lines.specs.declared.lines.TheConstants.{MAX_LINES};
ghost use Rattle.certificate_file.specs.declared.places.Header.{Header};
ghost use Rattle.certificate_file.specs.Meaning.{PartIntersects, part_from};
ghost use Rattle.certificate_file.specs.Known.{IsPart, IsSubject, AreSteps, IsKnownLeft, FitsHeader};
ghost use Rattle.certificate_file.specs.Streamed.{checking_of};
ghost use Rattle.certificate_file.specs.Verification.{after_lemma, proof_lines, subject_from, verified};

use crate::formula::formula_of;
use crate::places::{Header, Subject};
use crate::streaming::finish;
use cert_lines::{CertError, CheckError, Lines, ProofLine, proof_line};
use clause_encoder::Version;
use desk_io::{Desk, Which};
use fbas_core::System;
use lrat_checker::Checker;
use lrat_model::Progress;
use lrat_stream::StepReader;
use name_set::NodeSet;
use std::alloc::Global;

/// All nodes.
fn everyone(system: &System) -> NodeSet
    ensures nodes { result ≡ everyone system.now.sets }
    ensures system { IsSystem system.now.names system.now.sets }
{
    let mut nodes = NodeSet::new(system.len());
    nodes.fill();
    nodes
}

/// The part of the system that the header speaks of.
fn part_from(system: &System, from: Option<u32>) -> NodeSet
    requires { IfSome from (λ v. v < length system.now.sets) }
    ensures { IsPart system.now from result }
{
    let everyone = everyone(system);
    match from {
        None => everyone,
        Some(node) => system.closure(node),
    }
}

/// What the header says, with the part, for the formula of a version.
fn subject_from(system: &System, version: Version, header: &Header) -> Subject
    requires { FitsHeader system.now header.now }
    ensures value { result ≡ subject_from system.now version header.now }
    ensures fits { IsSubject system.now result }
{
    Subject {
        version,
        header: Header {
            from: header.from,
            faulty: header.faulty.copy(),
        },
        nodes: part_from(system, header.from),
    }
}

/// Takes the next line of a proof: whether the formula is refuted.
fn take_proof_line<D: Desk>(
    lines: &mut Lines,
    desk: &mut D,
    reader: &mut StepReader,
    checker: &mut Checker,
) -> Result<Progress, CheckError>
    requires fresh { lines.old.taken ≡ 0 }
    requires closed { checker.old.open_addition ≡ None }
    ensures closed { OnOk result (checker.new.open_addition ≡ None) }
    ensures known { IfOk result (λ p. (f : System) (h : Header) → AreSteps f h (checking_of checker.old) → IsKnownLeft f h (after_lemma (checking_of checker.new) p)) }
    ensures ok { IfOk result (λ p. IsTrue D.tells → proof_lines lines.old.number (Some (checking_of checker.old)) (texts_of (lines.old.unread ++ left_of Which.Cert (D.state desk.old)))
        ≡ proof_lines lines.new.number (after_lemma (checking_of checker.new) p) (texts_of (lines.new.unread ++ left_of Which.Cert (D.state desk.new)))) }
    ensures few { OnOk result (lines.old.number ≤ MAX_LINES) }
    ensures number { OnOk result (lines.new.number ≡ lines.old.number + 1) }
    ensures taken { OnOk result (lines.new.taken ≡ 0) }
    ensures err { IfErr result (λ e. IsTrue D.tells → OnCert e (λ fault. (fault ≡ CertError.Memory)
        ⊎ (proof_lines lines.old.number (Some (checking_of checker.old)) (texts_of (lines.old.unread ++ left_of Which.Cert (D.state desk.old))) ≡ Err fault))) }
    ensures plain { IsErrOf result CheckError.Read → IsTrue D.tells → IsTrue (D.state desk.old).plain → ⊥ }
    ensures rest { IsTrue D.tells → D.state desk.new ≡ with_left Which.Cert (left_of Which.Cert (D.state desk.new)) (D.state desk.old) }
    ensures faults { ReadFails (D.faults desk.old) (D.faults desk.new) (IsErrOf result CheckError.Read) }
{
    let line = lines.number();
    match proof_line(lines, desk, checker, reader)? {
        ProofLine::End => Err(CheckError::Cert(CertError::NotRefuted(line))),
        ProofLine::Passed => Ok(Progress::Going),
        ProofLine::Step => {
            let progress = finish(checker, &mut reader.words, line)?;
            Ok(progress)
        }
    }
}

/// Takes the lines of a proof up to the empty lemma, or gives the first fault.
fn check_proof<D: Desk>(
    lines: &mut Lines,
    desk: &mut D,
    reader: &mut StepReader,
    checker: &mut Checker,
) -> Result<(), CheckError>
    requires fresh { lines.old.taken ≡ 0 }
    requires closed { checker.old.open_addition ≡ None }
    ensures ok { OnOk result (IsTrue D.tells → proof_lines lines.old.number (Some (checking_of checker.old)) (texts_of (lines.old.unread ++ left_of Which.Cert (D.state desk.old))) ≡ Ok tt) }
    ensures err { IfErr result (λ e. IsTrue D.tells → OnCert e (λ fault. (fault ≡ CertError.Memory)
        ⊎ (proof_lines lines.old.number (Some (checking_of checker.old)) (texts_of (lines.old.unread ++ left_of Which.Cert (D.state desk.old))) ≡ Err fault))) }
    ensures shows { OnOk result ((f : System) (h : Header) → AreSteps f h (checking_of checker.old) → PartIntersects f (part_from f h.from) h.faulty) }
    ensures plain { IsErrOf result CheckError.Read → IsTrue D.tells → IsTrue (D.state desk.old).plain → ⊥ }
    ensures rest { IsTrue D.tells → D.state desk.new ≡ with_left Which.Cert (left_of Which.Cert (D.state desk.new)) (D.state desk.old) }
    ensures faults { ReadFails (D.faults desk.old) (D.faults desk.new) (IsErrOf result CheckError.Read) }
{
    'lines: loop {
        match take_proof_line(lines, desk, reader, checker)? {
            Progress::Going => {}
            Progress::Refuted => return Ok(()),
        }
    }
}

/// Reads the begun LRAT proof line by line up to the empty lemma, and gives the first fault where it does not come to it.
///
/// The proof is one of the formula of this version, of the header's part of the system, once the faulty nodes are deleted, as it is
/// exported: the clauses have the ids from 1 on in their order. The answer is `verified` of the bytes that are left. On any desk, where it
/// is Ok every two quorums of the part share a node once the faulty nodes are deleted. A line that begins with a `c` or has no
/// word is passed over, the last line may lack its line feed, and nothing is looked at after the line of the empty lemma.
/// `TooLarge` comes before the first line is read, and `NotRefuted` with the number of the line that would come next. `Read` comes
/// exactly where a call of the desk failed, and after an `Err` only what is left of the proof has changed.
///
/// Reads in pieces of at most 65,536 bytes. Of a step it holds the literals or the ids, and no hint; of a line that is passed over,
/// nothing. O(bytes), what the greatest quorum and the formula cost, and for each step its literals and those of the clauses that its
/// hints name.
pub fn check_lrat<D: Desk>(
    alloc: Global,
    system: &System,
    version: Version,
    header: &Header,
    desk: &mut D,
) -> Result<(), CheckError>
    requires { FitsHeader system.now header.now }
    ensures ok { OnOk result (IsTrue D.tells → verified system.now version header.now (left_of Which.Cert (D.state desk.old)) ≡ Ok tt) }
    ensures err { IfErr result (λ e. IsTrue D.tells → OnCert e (λ fault. (fault ≡ CertError.Memory)
        ⊎ (verified system.now version header.now (left_of Which.Cert (D.state desk.old)) ≡ Err fault))) }
    ensures shows { OnOk result (PartIntersects system.now (part_from system.now header.now.from) header.now.faulty) }
    ensures plain { IsErrOf result CheckError.Read → IsTrue D.tells → IsTrue (D.state desk.old).plain → ⊥ }
    ensures rest { IsTrue D.tells → D.state desk.new ≡ with_left Which.Cert (left_of Which.Cert (D.state desk.new)) (D.state desk.old) }
    ensures faults { ReadFails (D.faults desk.old) (D.faults desk.new) (IsErrOf result CheckError.Read) }
{
    let mut lines = Lines::start(alloc)?;
    let subject = subject_from(system, version, header);
    let (checker, _) = formula_of(alloc, system, &subject)?;
    let mut checker = checker.opening();
    let mut reader = StepReader::new(alloc);
    let verified = check_proof(&mut lines, desk, &mut reader, &mut checker);
    drop(checker);
    verified
}
