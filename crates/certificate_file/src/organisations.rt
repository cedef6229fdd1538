//! The line of the digest of the organisations that a list is over.
ghost use Rattle.std.specs.Prelude.{◌≡◌, ◌⊎◌, All, IfOk, IfErr, length, ok_or, Ok, Err};
ghost use Rattle.cert_lines.specs.Words.{orgs_digest_in};
ghost use Rattle.reach_kinds.specs.Known.{IsReachPlace};
ghost use Rattle.reach_kinds.specs.GroupBodies.{groups_begin};
ghost use Rattle.certificate_file.specs.Acceptance.{orgs_line};
ghost use Rattle.certificate_file.specs.Organisations.{FitsGiven};
ghost use Rattle.certificate_file.specs.Known.{IsSubject, IsKnownState};

use crate::given::Given;
use crate::places::{Place, State, Subject};
use cert_lines::{CertError, orgs_digits_in};
use digest_text::read_digits;
use enumeration_journal::ListKind;
use fbas_core::System;
use node_json::Orgs;
use reach_kinds::{Scope, groups_begin};
use std::alloc::Global;

/// The first line of a list over these organisations is awaited.
fn list_over(
    alloc: Global,
    system: &System,
    orgs: &Orgs,
    kind: ListKind,
    subject: Subject,
) -> Result<State, CertError>
    requires subject { IsSubject system.now subject }
    requires orgs { All (λ org. length org.members ≡ length system.now.names) orgs.now }
    ensures ok { IfOk result (λ s. s ≡ State.Going (Place.AtReach subject (groups_begin system.now kind subject.nodes subject.header.faulty orgs.now))) }
    ensures known { IfOk result (λ _. IsReachPlace system.now subject.nodes subject.header.faulty (groups_begin system.now kind subject.nodes subject.header.faulty orgs.now)) }
    ensures err { IfErr result (λ e. e ≡ CertError.Memory) }
{
    let scope = Scope {
        system,
        nodes: &subject.nodes,
        faulty: &subject.header.faulty,
    };
    let place = groups_begin(alloc, &scope, kind, orgs)?;
    Ok(State::Going(Place::AtReach(subject, place)))
}

/// The digest that line 6 names.
fn orgs_digest(line: u64, text: &[u8]) -> Result<[u8; 32], CertError>
    ensures { result ≡ ok_or (orgs_digest_in text.now) (CertError.BadLine line) }
{
    let Some(digits) = orgs_digits_in(text) else {
        return Err(CertError::BadLine(line));
    };
    match read_digits(digits) {
        Some(found) => Ok(found),
        None => Err(CertError::BadLine(line)),
    }
}

/// Line 6 of a list over organisations: the digest of their file. The groups of the part are made here, once.
pub fn orgs_line(
    alloc: Global,
    system: &System,
    given: &Given,
    kind: ListKind,
    subject: Subject,
    line: u64,
    text: &[u8],
) -> Result<State, CertError>
    requires subject { IsSubject system.now subject }
    requires fits { FitsGiven system.now given.now }
    ensures ok { IfOk result (λ s. orgs_line system.now given.now kind subject line text.now ≡ Ok s) }
    ensures known { IfOk result (IsKnownState system.now given.now) }
    ensures err { IfErr result (λ e. (e ≡ CertError.Memory) ⊎ (orgs_line system.now given.now kind subject line text.now ≡ Err e)) }
{
    let found = orgs_digest(line, text)?;
    let Some(those) = &given.orgs else {
        return Err(CertError::NoOrgs);
    };
    if found.as_slice() != those.digest.as_slice() {
        return Err(CertError::OrgsDigest(found, those.digest));
    }
    list_over(alloc, system, &those.orgs, kind, subject)
}
