//! The organisations that an order names.
ghost use Rattle.std.specs.Prelude.{◌≡◌, All, IsTrue, IfOk, IfErr, IsErrOf, length, option_map, string_bytes};
ghost use Rattle.node_json.specs.Organisations.{orgs_of};
ghost use Rattle.printed_lines.specs.Lines.{orgs_refused};
ghost use Rattle.request_reading.specs.Answers.{or_orgs_refused, orgs_with_digest, orgs_given};
ghost use Rattle.request_reading.specs.Given.{AreOver, AreRead};
ghost use Rattle.request_reading.specs.Reading.{Gives, GivesReading, IsRefusal, ReadsDesk, ReadsTo};

use crate::early::Early;
use crate::files::read_file;
use crate::reply::Reply;
use crate::searches::look;
use crate::status::Status;
use certificate_file::GivenOrgs;
use desk_io::{Desk, Which};
use digest_text::digest;
use fbas_core::System;
use node_json::{OrgFault, Orgs, read_orgs};
use std::alloc::{AllocError, Global};

// The answer to organisations that are refused.
fn refuse_orgs(alloc: Global, fault: OrgFault) -> Result<Reply, AllocError>
    ensures { IfOk result (λ a. a ≡ record { status = Status.ConfigRefused; text = orgs_refused fault }) }
{
    let text = printed_lines::orgs_refused(alloc, fault)?;
    Ok(Reply::new(Status::ConfigRefused, text))
}

// The organisations of a file's bytes.
fn orgs_read(alloc: Global, system: &System, bytes: &[u8]) -> Result<Orgs, Early>
    ensures { ReadsTo result (or_orgs_refused (orgs_of system.now.names bytes.now))
        (All (λ org. length org.members ≡ length system.now.names)) }
{
    match read_orgs(alloc, bytes, system) {
        Ok(orgs) => Ok(orgs),
        Err(OrgFault::Memory) => Err(Early::Memory),
        Err(fault) => Err(Early::Refused(refuse_orgs(alloc, fault)?)),
    }
}

// The organisations of a file's bytes, with their digest.
fn orgs_with_digest(
    alloc: Global,
    system: &System,
    bytes: &[u8],
) -> Result<Option<GivenOrgs>, Early>
    ensures gives { Gives result (orgs_with_digest system.now.names bytes.now) }
    ensures refused { IfErr result IsRefusal }
    ensures over { IfOk result (AreOver system.now) }
    ensures read { IfOk result (AreRead system.now) }
{
    let digest = digest(bytes);
    look(&digest);
    let orgs = orgs_read(alloc, system, bytes)?;
    Ok(Some(GivenOrgs { orgs, digest }))
}

/// The organisations of the file that an order names, if it names one, with the digest of its bytes.
pub fn orgs_for<D: Desk>(
    alloc: Global,
    system: &System,
    desk: &mut D,
    path: &Option<String>,
) -> Result<Option<GivenOrgs>, Early>
    ensures gives { IsTrue D.tells → GivesReading (D.state desk.old).plain result
        (orgs_given system.now.names (D.state desk.old).files (option_map string_bytes path.now)) }
    ensures refused { IfErr result IsRefusal }
    ensures over { IfOk result (AreOver system.now) }
    ensures read { IfOk result (AreRead system.now) }
    ensures desk { ReadsDesk D.tells D.state D.faults desk.old desk.new (IsErrOf result Early.Read) }
{
    let Some(path) = path else {
        return Ok(None);
    };
    let bytes = read_file(alloc, desk, Which::Orgs, path, "orgs too-long\n")?;
    orgs_with_digest(alloc, system, &bytes)
}
