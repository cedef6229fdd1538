//! The check of a certificate, or of another solver's proof.
ghost use Rattle.std.specs.Prelude.{◌≡◌, ◌⊎◌, Ok, IsTrue, IfOk, IfErr, IsOk, IsErrOf, length};
ghost use Rattle.desk_io.specs.State.{left_of};
ghost use Rattle.cli_words.specs.Order.{order_view};
ghost use Rattle.certificate_file.specs.Known.{FitsHeader};
ghost use Rattle.certificate_file.specs.Meaning.{HasPlaces};
ghost use Rattle.request_reading.specs.Answers.{claim_answer, claim_by as spec_claim_by, claim_in, checked_answer, refused_answer, verified_answer, FitsClaim, cert_status as spec_cert_status, accepted_status as spec_accepted_status, body_status as spec_body_status};
ghost use Rattle.request_reading.specs.Given.{AreOver, FitsOperands};
ghost use Rattle.request_reading.specs.Meaning.{HasFile, ShowsClaim};
ghost use Rattle.request_reading.specs.Names.{FitsNamed};
ghost use Rattle.request_reading.specs.Reading.{GivesReading, ReadsDesk};
ghost use Rattle.request_reading.specs.Status.{is_answer};

use crate::early::Early;
use crate::formula::version_of;
use crate::names::NamedNodes;
use crate::operands::Operands;
use crate::reply::Reply;
use crate::searches::header_of;
use crate::status::Status;
use certificate_file::{Accepted, CertError, CheckError, Conclusion, Given, GivenOrgs, Header};
use clause_encoder::Version;
use cli_words::{Command, Order};
use desk_io::{Desk, Which};
use digest_text::digest;
use fbas_core::System;
use reach_kinds::Reached;
use std::alloc::{AllocError, Global};

/// What a file is checked as.
#[derive(Drop)]
pub enum Claim {
    /// A certificate, which is held against this.
    Cert(Given),
    /// A proof of the formula of this version, for this part of the system, without its faulty nodes.
    Proof(Version, Header),
}

// How the program ends where a certificate has this fault.
fn cert_status(fault: &CertError) -> Status
    ensures value { result ≡ spec_cert_status fault.now }
    ensures refused { (result ≡ Status.TooLarge) ⊎ (result ≡ Status.CertRefused) }
{
    match fault {
        CertError::TooLarge(_) => Status::TooLarge,
        _ => Status::CertRefused,
    }
}

// How the program ends where this body is accepted.
fn body_status(shown: &Reached) -> Status
    ensures value { result ≡ spec_body_status shown.now }
    ensures answer { IsTrue (is_answer result) }
{
    match shown {
        Reached::Minimal(..) | Reached::Least(_) | Reached::OrgBlocking(..) => Status::Yes,
        Reached::Partial(..) => Status::Unknown,
    }
}

// How the program ends where a certificate is accepted.
fn accepted_status(answer: &Conclusion) -> Status
    ensures value { result ≡ spec_accepted_status answer.now }
    ensures answer { IsTrue (is_answer result) }
{
    match answer {
        Conclusion::Pair(_) | Conclusion::Refutation => Status::Yes,
        Conclusion::Partial(_) => Status::Unknown,
        Conclusion::Reached(shown) => body_status(shown),
    }
}

// The answer to a certificate that is accepted.
fn accept(alloc: Global, system: &System, accepted: &Accepted) -> Result<Reply, AllocError>
    requires { HasPlaces (length system.now.sets) accepted.now }
    ensures ok { IfOk result (λ a. a ≡ checked_answer system.now.names (Ok accepted.now)) }
    ensures answers { IfOk result (λ a. IsTrue (is_answer a.status)) }
{
    let text = printed_lines::accepted(alloc, system, accepted)?;
    Ok(Reply::new(accepted_status(&accepted.answer), text))
}

// The answer to a proof that is verified.
fn verified(alloc: Global, system: &System, header: &Header) -> Result<Reply, AllocError>
    requires { FitsHeader system.now header.now }
    ensures { IfOk result (λ a. a ≡ verified_answer system.now.names header.now (Ok tt)) }
{
    let text = printed_lines::verified_lines(alloc, system, header)?;
    Ok(Reply::new(Status::Yes, text))
}

// The answer to a certificate, or to a proof, that is refused.
fn refuse(alloc: Global, system: &System, fault: CertError) -> Result<Reply, AllocError>
    ensures ok { IfOk result (λ a. a ≡ refused_answer system.now.names fault) }
    ensures refused { IfOk result (λ a. (a.status ≡ Status.TooLarge) ⊎ (a.status ≡ Status.CertRefused)) }
    ensures fault { IsOk result → fault ≡ CertError.Memory → ⊥ }
{
    match fault {
        CertError::Memory => Err(AllocError),
        fault => {
            let text = printed_lines::cert_refused(alloc, system.names(), &fault)?;
            Ok(Reply::new(cert_status(&fault), text))
        }
    }
}

// What is said of the begun file.
fn check_begun<D: Desk>(
    alloc: Global,
    system: &System,
    claim: &Claim,
    desk: &mut D,
) -> Result<Reply, Early>
    requires { FitsClaim system.now claim.now }
    ensures answer { IfOk result (λ a. IsTrue D.tells →
        a ≡ claim_answer system.now claim.now (left_of Which.Cert (D.state desk.old))) }
    ensures answers { IfOk result (λ a. IsTrue (is_answer a.status)) }
    ensures shows { IfOk result (λ a. IsTrue D.tells → a.status ≡ Status.Yes →
        ShowsClaim system.now claim.now (left_of Which.Cert (D.state desk.old))) }
    ensures failing { IfErr result (λ e. (e ≡ Early.Read) ⊎ (e ≡ Early.Memory)) }
    ensures plain { IsErrOf result Early.Read → IsTrue D.tells → IsTrue (D.state desk.old).plain → ⊥ }
    ensures desk { ReadsDesk D.tells D.state D.faults desk.old desk.new (IsErrOf result Early.Read) }
{
    match claim {
        Claim::Cert(given) => match certificate_file::check(alloc, system, given, desk) {
            Ok(accepted) => {
                let reply = accept(alloc, system, &accepted);
                drop(accepted);
                Ok(reply?)
            }
            Err(CheckError::Cert(fault)) => Ok(refuse(alloc, system, fault)?),
            Err(CheckError::Read) => Err(Early::Read),
        },
        Claim::Proof(version, header) => {
            match certificate_file::check_lrat(alloc, system, *version, header, desk) {
                Ok(()) => Ok(verified(alloc, system, header)?),
                Err(CheckError::Cert(fault)) => Ok(refuse(alloc, system, fault)?),
                Err(CheckError::Read) => Err(Early::Read),
            }
        }
    }
}

// What is said of a file as a certificate, or as a proof.
fn check_file<D: Desk>(
    alloc: Global,
    system: &System,
    claim: &Claim,
    desk: &mut D,
    name: &str,
) -> Result<Reply, Early>
    requires { FitsClaim system.now claim.now }
    ensures gives { IsTrue D.tells → GivesReading (D.state desk.old).plain result (claim_in system.now claim.now ((D.state desk.old).files name.now)) }
    ensures answers { IfOk result (λ a. IsTrue (is_answer a.status)) }
    ensures shows { IfOk result (λ a. IsTrue D.tells → a.status ≡ Status.Yes →
        HasFile (ShowsClaim system.now claim.now) (D.state desk.old).files name.now) }
    ensures failing { IfErr result (λ e. (e ≡ Early.Read) ⊎ (e ≡ Early.Memory)) }
    ensures desk { ReadsDesk D.tells D.state D.faults desk.old desk.new (IsErrOf result Early.Read) }
{
    let Ok(()) = desk.begin(Which::Cert, name) else {
        return Err(Early::Read);
    };
    check_begun(alloc, system, claim, desk)
}

// What the file of a check is held to be, by what its order names in the system.
fn claim_by(
    command: Command,
    formula: u64,
    system: &System,
    config: &[u8],
    orgs: Option<GivenOrgs>,
    named: NamedNodes,
) -> Claim
    requires over { AreOver system.now orgs }
    requires named { FitsNamed (length system.now.sets) named }
    ensures value { result ≡ spec_claim_by command formula config.now system.now orgs named }
    ensures fits { FitsClaim system.now result }
{
    match command {
        Command::CheckLrat => Claim::Proof(version_of(formula), header_of(system, named)),
        _ => Claim::Cert(Given {
            digest: digest(config),
            orgs,
        }),
    }
}

/// What is said of the file of a check.
pub fn check<D: Desk>(
    alloc: Global,
    order: &Order,
    config: &[u8],
    operands: Operands,
    desk: &mut D,
) -> Result<Reply, Early>
    requires { FitsOperands operands }
    ensures gives { IsTrue D.tells → GivesReading (D.state desk.old).plain result
        (claim_in operands.system (spec_claim_by order.now.command order.now.formula config.now operands.system operands.orgs operands.named) ((D.state desk.old).files (order_view order.now).cert)) }
    ensures answers { IfOk result (λ a. IsTrue (is_answer a.status)) }
    ensures shows { IfOk result (λ a. IsTrue D.tells → a.status ≡ Status.Yes →
        HasFile (ShowsClaim operands.system (spec_claim_by order.now.command order.now.formula config.now operands.system operands.orgs operands.named)) (D.state desk.old).files (order_view order.now).cert) }
    ensures failing { IfErr result (λ e. (e ≡ Early.Read) ⊎ (e ≡ Early.Memory)) }
    ensures desk { ReadsDesk D.tells D.state D.faults desk.old desk.new (IsErrOf result Early.Read) }
{
    let Operands {
        system,
        orgs,
        named,
    } = operands;
    let claim = claim_by(order.command, order.formula, &system, config, orgs, named);
    let reply = check_file(alloc, &system, &claim, desk, &order.cert);
    drop(system);
    drop(claim);
    reply
}
