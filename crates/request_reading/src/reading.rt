//! What the words ask, once everything that they name was read.
ghost use Rattle.std.specs.Prelude.{◌≡◌, ◌≤◌, Ok, IsTrue, IfOk, IfErr, IsOk, IsErr, IsErrOf, false};
ghost use Rattle.desk_io.specs.State.{OnlyReads};
ghost use Rattle.desk_io.specs.Faults.{ReadFails};
ghost use Rattle.cli_words.specs.Order.{order_view};
ghost use Rattle.cli_words.specs.Table.{has_configuration};
ghost use Rattle.cli_words.specs.Words.{order_of};
ghost use Rattle.cli_words.specs.declared.budget.TheConstants.{MOST_BUDGET};
ghost use Rattle.cli_words.specs.declared.organisations.TheConstants.{MOST_ORGANISATIONS};
ghost use Rattle.printed_lines.specs.Lines.{config_refused};
ghost use Rattle.request_reading.specs.Answers.{words_of, asked_of, or_words_refused, order_asked, refused_words, file_asked, trial_asked, config_asked, command_asked, query_asked, claim_by, is_check, system_in, FitsAsked};
ghost use Rattle.request_reading.specs.Meaning.{HasFile, ShowsClaim, ConfigMeans, FileMeans, WordsMean, YesMeans, ChecksFile, IsUsage};
ghost use Rattle.request_reading.specs.Given.{FitsOperands};
ghost use Rattle.request_reading.specs.Reading.{Fails, Gives, GivesReading, IsRefusal, ReadsDesk, ReadsTo};

use crate::checking::check;
use crate::early::Early;
use crate::edits::{Edits, edits_of};
use crate::files::read_file;
use crate::operands::{Operands, operands_of};
use crate::parts::{NodesInPart, part_named};
use crate::question::{Question, question_of};
use crate::reply::{Reply, refuse_usage, says};
use crate::searches::{Search, search_of, trial_of};
use crate::status::Status;
use cli_words::{Command, Order, OrderFault, Query};
use desk_io::{Desk, Which};
use fbas_core::System;
use node_json::{ConfigFault, read_config};
use std::alloc::{AllocError, Global};
use trial_network::Trial;

/// What is asked.
#[derive(Drop)]
pub enum Asked {
    /// A question about a part of the system.
    Question(System, Question),
    /// A search over the system.
    Search(Search),
    /// Edits of the system, tried one after another.
    Edits(Edits),
    /// The check of a certificate, or of a proof, with what it says.
    Checked(Reply),
}

// The answer to words that are refused.
fn refuse_words(alloc: Global, fault: OrderFault) -> Result<Reply, AllocError>
    ensures says { IfOk result (λ a. refused_words fault ≡ Early.Refused a) }
    ensures usage { IfOk result (λ a. a.status ≡ Status.Usage) }
{
    match fault {
        OrderFault::Words => refuse_usage(alloc),
        OrderFault::SamePath => says(alloc, Status::Usage, "usage same-path\n"),
        OrderFault::Memory => Err(AllocError),
    }
}

// The order of the words, or their refusal.
fn order_in(alloc: Global, words: &[String]) -> Result<Order, Early>
    ensures ok { IfOk result (λ o. order_of (words_of words.now) ≡ Ok (order_view o)) }
    ensures err { IfErr result (λ e. Fails e (or_words_refused (order_of (words_of words.now)))) }
    ensures few { IfOk result (λ o. o.budget ≤ MOST_BUDGET) }
    ensures organisations { IfOk result (λ o. has_configuration o.command ≡ false → (1 ≤ o.trial) × (o.trial ≤ MOST_ORGANISATIONS)) }
    ensures refused { IfErr result IsUsage }
{
    match cli_words::order(alloc, words) {
        Ok(order) => Ok(order),
        Err(fault) => Err(Early::Refused(refuse_words(alloc, fault)?)),
    }
}

// The answer to a configuration that is refused.
fn refuse_config(alloc: Global, fault: ConfigFault) -> Result<Reply, AllocError>
    ensures { IfOk result (λ a. a ≡ record { status = Status.ConfigRefused; text = config_refused fault }) }
{
    let text = printed_lines::config_refused(alloc, fault)?;
    Ok(Reply::new(Status::ConfigRefused, text))
}

// The system of a configuration.
fn system_in(alloc: Global, config: &[u8]) -> Result<System, Early>
    ensures gives { Gives result (system_in config.now) }
    ensures refused { IfErr result IsRefusal }
{
    match read_config(alloc, config) {
        Ok(system) => Ok(system),
        Err(ConfigFault::Memory) => Err(Early::Memory),
        Err(fault) => Err(Early::Refused(refuse_config(alloc, fault)?)),
    }
}

// What an order with this question asks of the part that its options name.
fn ask(
    alloc: Global,
    query: Query,
    order: &Order,
    config: &[u8],
    operands: Operands,
) -> Result<Asked, Early>
    requires { FitsOperands operands }
    ensures { ReadsTo result (query_asked query (order_view order.now) config.now operands) FitsAsked }
{
    let NodesInPart {
        system,
        node,
        faulty,
        set,
    } = part_named(alloc, operands)?;
    match question_of(alloc, query, order, config, node, faulty, set) {
        Ok(question) => Ok(Asked::Question(system, question)),
        Err(early) => {
            drop(system);
            Err(early)
        }
    }
}

// What a command asks, by what its order names; a check with what it says.
fn command<D: Desk>(
    alloc: Global,
    order: &Order,
    config: &[u8],
    operands: Operands,
    desk: &mut D,
) -> Result<Asked, Early>
    requires operands { FitsOperands operands }
    requires few { order.now.budget ≤ MOST_BUDGET }
    requires file { IsTrue (has_configuration order.now.command) }
    ensures gives { IsTrue D.tells → GivesReading (D.state desk.old).plain result
        (command_asked order.now.command (order_view order.now) config.now operands (D.state desk.old).files) }
    ensures refused { IfErr result IsRefusal }
    ensures fits { IfOk result FitsAsked }
    ensures shows { IfOk result (λ asked. IsTrue (is_check order.now.command) → IsTrue D.tells → YesMeans
        (HasFile (ShowsClaim operands.system (claim_by order.now.command order.now.formula config.now operands.system operands.orgs operands.named)) (D.state desk.old).files (order_view order.now).cert) asked) }
    ensures desk { ReadsDesk D.tells D.state D.faults desk.old desk.new (IsErrOf result Early.Read) }
{
    match order.command {
        Command::Query(query) => ask(alloc, query, order, config, operands),
        Command::Search(goal) => Ok(Asked::Search(search_of(
            alloc, goal, order, config, operands,
        )?)),
        Command::Whatif => Ok(Asked::Edits(edits_of(alloc, order, operands, desk)?)),
        Command::Check | Command::CheckLrat => {
            Ok(Asked::Checked(check(alloc, order, config, operands, desk)?))
        }
    }
}

// What an order asks over the bytes of its configuration.
fn over_config<D: Desk>(
    alloc: Global,
    order: &Order,
    config: &[u8],
    desk: &mut D,
) -> Result<Asked, Early>
    requires few { order.now.budget ≤ MOST_BUDGET }
    requires file { IsTrue (has_configuration order.now.command) }
    ensures gives { IsTrue D.tells → GivesReading (D.state desk.old).plain result
        (config_asked (order_view order.now) (D.state desk.old).files config.now) }
    ensures refused { IfErr result IsRefusal }
    ensures fits { IfOk result FitsAsked }
    ensures shows { IfOk result (λ asked. IsTrue (is_check order.now.command) → IsTrue D.tells → YesMeans
        (ConfigMeans (order_view order.now) (D.state desk.old).files config.now) asked) }
    ensures desk { ReadsDesk D.tells D.state D.faults desk.old desk.new (IsErrOf result Early.Read) }
{
    let system = system_in(alloc, config)?;
    let operands = operands_of(alloc, order, system, desk)?;
    command(alloc, order, config, operands, desk)
}

// What an order asks over the file of its configuration.
fn over_file<D: Desk>(alloc: Global, order: &Order, desk: &mut D) -> Result<Asked, Early>
    requires few { order.now.budget ≤ MOST_BUDGET }
    requires file { IsTrue (has_configuration order.now.command) }
    ensures gives { IsTrue D.tells → GivesReading (D.state desk.old).plain result (file_asked (order_view order.now) (D.state desk.old).files) }
    ensures refused { IfErr result IsRefusal }
    ensures fits { IfOk result FitsAsked }
    ensures shows { IfOk result (λ asked. IsTrue (is_check order.now.command) → IsTrue D.tells → YesMeans
        (FileMeans (order_view order.now) (D.state desk.old).files) asked) }
    ensures desk { ReadsDesk D.tells D.state D.faults desk.old desk.new (IsErrOf result Early.Read) }
{
    let config = read_file(
        alloc,
        desk,
        Which::Config,
        &order.config,
        "config too-long\n",
    )?;
    over_config(alloc, order, &config, desk)
}

// What a trial asks. Its configuration's text is in no file.
fn over_trial(alloc: Global, order: &Order) -> Result<Asked, Early>
    requires few { order.now.budget ≤ MOST_BUDGET }
    requires some { 1 ≤ order.now.trial }
    requires organisations { order.now.trial ≤ MOST_ORGANISATIONS }
    ensures gives { IfOk result (λ asked. trial_asked (order_view order.now) ≡ Ok asked) }
    ensures fits { IfOk result FitsAsked }
    ensures failing { IfErr result (λ e. e ≡ Early.Memory) }
{
    let Trial { text, system } = Trial::of(alloc, order.trial)?;
    let search = trial_of(alloc, order, system, text.as_bytes())?;
    Ok(Asked::Search(search))
}

// What an order asks.
fn carry_out<D: Desk>(alloc: Global, order: &Order, desk: &mut D) -> Result<Asked, Early>
    requires few { order.now.budget ≤ MOST_BUDGET }
    requires organisations { has_configuration order.now.command ≡ false → (1 ≤ order.now.trial) × (order.now.trial ≤ MOST_ORGANISATIONS) }
    ensures gives { IsTrue D.tells → GivesReading (D.state desk.old).plain result (order_asked (order_view order.now) (D.state desk.old).files) }
    ensures refused { IfErr result IsRefusal }
    ensures fits { IfOk result FitsAsked }
    ensures shows { IfOk result (λ asked. IsTrue (is_check order.now.command) → IsTrue D.tells → YesMeans
        (FileMeans (order_view order.now) (D.state desk.old).files) asked) }
    ensures desk { ReadsDesk D.tells D.state D.faults desk.old desk.new (IsErrOf result Early.Read) }
{
    if order.command.has_configuration() {
        return over_file(alloc, order, desk);
    }
    over_trial(alloc, order)
}

/// What the words ask, which begin with the program's name, or why nothing is asked. What a check says comes with it.
pub fn ask_by_words<D: Desk>(alloc: Global, words: &[String], desk: &mut D) -> Result<Asked, Early>
    ensures gives { IsTrue D.tells → GivesReading (D.state desk.old).plain result (asked_of (words_of words.now) (D.state desk.old).files) }
    ensures refused { IfErr result IsRefusal }
    ensures fits { IfOk result FitsAsked }
    ensures shows { IfOk result (λ asked. ChecksFile (order_of (words_of words.now)) → IsTrue D.tells → YesMeans
        (WordsMean (words_of words.now) (D.state desk.old).files) asked) }
    ensures usage { IsErr (order_of (words_of words.now)) → IfErr result IsUsage }
    ensures unasked { IsErr (order_of (words_of words.now)) → IsErr result }
    ensures taken { IsErrOf result Early.Read → IsOk (order_of (words_of words.now)) }
    ensures unread { IsErr (order_of (words_of words.now)) → IsTrue D.tells → D.state desk.new ≡ D.state desk.old }
    ensures reads { IsTrue D.tells → OnlyReads (D.state desk.old) (D.state desk.new) }
    ensures faults { ReadFails (D.faults desk.old) (D.faults desk.new) (IsErrOf result Early.Read) }
{
    let order = order_in(alloc, words)?;
    let asked = carry_out(alloc, &order, desk);
    // let go as a whole: at the end of the scope it would be part by part
    drop(order);
    asked
}
