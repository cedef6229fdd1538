//! The edits that are tried.
ghost use Rattle.std.specs.Prelude.{◌≡◌, [], IsTrue, IfOk, IfErr, IsErrOf, option_map, string_bytes, unwrap_or};
ghost use Rattle.cli_words.specs.Order.{order_view};
ghost use Rattle.request_reading.specs.Answers.{edits_of as spec_edits_of};
ghost use Rattle.request_reading.specs.Reading.{GivesReading, IsRefusal, ReadsDesk};

use crate::early::Early;
use crate::files::read_script;
use crate::operands::Operands;
use crate::reply::Text;
use crate::word::{Word, word_or_empty};
use cli_words::Order;
use desk_io::Desk;
use fbas_core::System;
use std::alloc::{AllocError, Global};

/// Edits of a system that are tried one after another, and the names of a set of nodes: whether the others are available is asked
/// after each edit.
#[derive(Drop)]
pub struct Edits {
    pub system: System,
    pub script: Text,
    /// The list of the set's names.
    pub set: Word,
}

// The edits of a script, and their set.
fn edits_with(
    alloc: Global,
    system: System,
    script: Text,
    set: &Option<String>,
) -> Result<Edits, AllocError>
    ensures { IfOk result (λ e. e ≡ record { system = system; script = script; set = unwrap_or (option_map string_bytes set.now) [] }) }
{
    let set = Word::of(alloc, word_or_empty(set))?;
    Ok(Edits {
        system,
        script,
        set,
    })
}

/// The edits that an order names. The names of the set are read already, and change with the edits: the list is kept.
pub fn edits_of<D: Desk>(
    alloc: Global,
    order: &Order,
    operands: Operands,
    desk: &mut D,
) -> Result<Edits, Early>
    ensures gives { IsTrue D.tells → GivesReading (D.state desk.old).plain result
        (spec_edits_of (order_view order.now) operands.system (D.state desk.old).files) }
    ensures refused { IfErr result IsRefusal }
    ensures desk { ReadsDesk D.tells D.state D.faults desk.old desk.new (IsErrOf result Early.Read) }
{
    let Operands {
        system,
        orgs: _,
        named: _,
    } = operands;
    match read_script(alloc, desk, &order.script) {
        Ok(script) => Ok(edits_with(alloc, system, script, &order.set)?),
        Err(early) => {
            drop(system);
            Err(early)
        }
    }
}
