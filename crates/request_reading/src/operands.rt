//! What an order is about, once all of it but a checked file or a script was read.
ghost use Rattle.std.specs.Prelude.{IsTrue, IfOk, IfErr, IsErrOf};
ghost use Rattle.cli_words.specs.Order.{order_view};
ghost use Rattle.request_reading.specs.Answers.{operands_among, operands_of as spec_operands_of};
ghost use Rattle.request_reading.specs.Given.{AreOver, AreRead, FitsOperands};
ghost use Rattle.request_reading.specs.Reading.{GivesReading, IsRefusal, ReadsDesk, ReadsTo};

use crate::early::Early;
use crate::names::{NamedNodes, names_of};
use crate::orgs::orgs_for;
use certificate_file::GivenOrgs;
use cli_words::Order;
use desk_io::Desk;
use fbas_core::System;
use std::alloc::Global;

/// A system, and the organisations and the nodes of it that an order names.
#[derive(Drop)]
pub struct Operands {
    pub system: System,
    /// The organisations, with the digest of their file, if the order names one.
    pub orgs: Option<GivenOrgs>,
    pub named: NamedNodes,
}

// The nodes are read once the organisations were.
fn operands_among(
    alloc: Global,
    order: &Order,
    system: System,
    orgs: Option<GivenOrgs>,
) -> Result<Operands, Early>
    requires over { AreOver system orgs }
    requires read { AreRead system orgs }
    ensures { ReadsTo result (operands_among (order_view order.now) system orgs) FitsOperands }
{
    match names_of(alloc, order, &system, &orgs) {
        Ok(named) => Ok(Operands {
            system,
            orgs,
            named,
        }),
        Err(early) => {
            drop(system);
            drop(orgs);
            Err(early)
        }
    }
}

/// What an order names in the system of its configuration: the organisations are read first, and then the nodes.
pub fn operands_of<D: Desk>(
    alloc: Global,
    order: &Order,
    system: System,
    desk: &mut D,
) -> Result<Operands, Early>
    ensures gives { IsTrue D.tells → GivesReading (D.state desk.old).plain result
        (spec_operands_of (order_view order.now) system (D.state desk.old).files) }
    ensures refused { IfErr result IsRefusal }
    ensures fits { IfOk result FitsOperands }
    ensures desk { ReadsDesk D.tells D.state D.faults desk.old desk.new (IsErrOf result Early.Read) }
{
    match orgs_for(alloc, &system, desk, &order.orgs) {
        Ok(orgs) => operands_among(alloc, order, system, orgs),
        Err(early) => {
            drop(system);
            Err(early)
        }
    }
}
