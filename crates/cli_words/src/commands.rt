//! What clap reads for each command, and the order that its matches give.
ghost use Rattle.std.specs.Prelude.{◌≡◌, ◌≢◌, ◌⊎◌, true, false, map, IfOk, IfErr, OnOk, string_bytes, option_map};
ghost use Rattle.clap.specs.Words.{kind_of, app_of, rule_of, found_of, rows_of, matches_of, is_simple_and_free, first_of};
ghost use Rattle.cli_words.specs.Table.{flag_id};
ghost use Rattle.cli_words.specs.Words.{all_option_rules, app_for, file_rules, is_taken, needed as spec_needed, option_rules, optional as spec_optional, order_in, positional as spec_positional, text_of, with_rules};
ghost use Rattle.cli_words.specs.Order.{order_view};

use crate::orders::{Command, Order, OrderFault};
use crate::table::{Flag, Parameter, SecondFile, Target, row_of};
use clap::error::ErrorKind;
use clap::{Arg, ArgMatches};
use std::alloc::{AllocError, Global};

/// What the texts of an order say as numbers: the budget, how many organisations the trial has, and the version of the formula.
#[derive(Clone, Copy)]
pub struct Numbers {
    pub budget: u64,
    pub trial: u32,
    pub formula: u64,
}

// A word that must be there, by its place among these.
fn positional<'a>(alloc: Global, id: &'a str) -> Arg<'a>
    ensures rule { rule_of result ≡ spec_positional id.entry.now }
    ensures local { result.global ≡ false }
{
    Arg::new(alloc, id).required(true)
}

// An option that must be there.
fn needed<'a>(alloc: Global, flag: Flag) -> Arg<'a>
    ensures rule { rule_of result ≡ spec_needed (flag_id flag) }
    ensures local { result.global ≡ false }
{
    Arg::new(alloc, flag.id()).long(flag.id()).required(true)
}

// An option that may be left out.
fn optional<'a>(alloc: Global, flag: Flag) -> Arg<'a>
    ensures rule { rule_of result ≡ spec_optional (flag_id flag) }
    ensures local { result.global ≡ false }
{
    Arg::new(alloc, flag.id()).long(flag.id())
}

// The command with the options that ask about a part of the system, and that name faulty nodes.
fn with_common(alloc: Global, command: clap::Command<'_>) -> Result<clap::Command<'_>, AllocError>
    ensures { IfOk result (λ c. app_of c ≡ with_rules (app_of command.entry) (option_rules Parameter.Common)) }
{
    command
        .arg(optional(alloc, Flag::From))?
        .arg(optional(alloc, Flag::Faulty))?
        .arg(optional(alloc, Flag::Orgs))?
        .arg(optional(alloc, Flag::FaultyOrgs))
}

// The command with what it has of an option.
fn with_option(
    alloc: Global,
    command: clap::Command<'_>,
    option: Parameter,
) -> Result<clap::Command<'_>, AllocError>
    ensures { IfOk result (λ c. app_of c ≡ with_rules (app_of command.entry) (option_rules option)) }
{
    match option {
        Parameter::Needs(flag) => command.arg(needed(alloc, flag)),
        Parameter::Takes(flag) => command.arg(optional(alloc, flag)),
        Parameter::Common => with_common(alloc, command),
    }
}

// The command with these options after its own.
fn with_options<'a>(
    alloc: Global,
    mut command: clap::Command<'a>,
    options: &[Parameter],
) -> Result<clap::Command<'a>, AllocError>
    ensures { IfOk result (λ c. app_of c ≡ with_rules (app_of command.entry) (all_option_rules options.now)) }
{
    for option in options {
        command = with_option(alloc, command, *option)?;
    }
    Ok(command)
}

// The command with its second file.
fn with_file(
    alloc: Global,
    command: clap::Command<'_>,
    second: Option<SecondFile>,
) -> Result<clap::Command<'_>, AllocError>
    ensures { IfOk result (λ c. app_of c ≡ with_rules (app_of command.entry) (file_rules second)) }
{
    match second {
        Some(file) => command.arg(positional(alloc, file.id())),
        None => Ok(command),
    }
}

// The arguments that the command takes.
fn arguments_of<'a>(alloc: Global, command: Command) -> Result<clap::Command<'a>, AllocError>
    ensures { IfOk result (λ c. app_of c ≡ app_for command) }
{
    let row = row_of(command);
    let command = clap::Command::new(alloc, row.word).arg(positional(alloc, row.target.id()))?;
    let command = with_file(alloc, command, row.second)?;
    with_options(alloc, command, row.options)
}

/// The matches of a command's own words, or their refusal.
pub fn matched<'a>(
    alloc: Global,
    command: Command,
    words: &'a [String],
) -> Result<ArgMatches<'a>, OrderFault>
    ensures taken { IfOk result (λ m. is_taken (app_for command) (map string_bytes words.entry.now) ≡ true) }
    ensures rows { IfOk result (λ m. rows_of (found_of m)
        ≡ matches_of (app_for command) (map string_bytes words.entry.now)) }
    ensures err { IfErr result (λ e. (e ≡ OrderFault.Memory)
        ⊎ ((e ≡ OrderFault.Words)
        × (is_taken (app_for command) (map string_bytes words.entry.now) ≡ false))) }
{
    match arguments_of(alloc, command)?.try_get_matches_from(words) {
        Ok(matches) => Ok(matches),
        Err(e) => Err(fault(&e)),
    }
}

fn fault(e: &clap::Error) -> OrderFault
    ensures { (result ≡ OrderFault.Memory)
        ⊎ ((result ≡ OrderFault.Words) × (kind_of e.now ≢ ErrorKind.OutOfMemory)) }
{
    if e.kind() == ErrorKind::OutOfMemory {
        OrderFault::Memory
    } else {
        OrderFault::Words
    }
}

/// The first text of an argument.
pub fn text_at<'a>(matches: &ArgMatches<'a>, id: &str) -> Option<&'a str>
    ensures { option_map (λ s. s.now) result ≡ first_of id.now (rows_of (found_of matches.now)) }
{
    matches.get_str(id)
}

/// The first text of an argument, empty where there is none.
pub fn text_or_empty<'a>(matches: &ArgMatches<'a>, id: &str) -> &'a str
    ensures { result.now ≡ text_of id.now (rows_of (found_of matches.now)) }
{
    match text_at(matches, id) {
        Some(text) => text,
        None => "",
    }
}

// Puts the text of an argument there, empty where there is none.
fn put_text(
    alloc: Global,
    slot: &mut String,
    matches: &ArgMatches<'_>,
    id: &str,
) -> Result<(), AllocError>
    ensures { OnOk result (string_bytes slot.new ≡ text_of id.now (rows_of (found_of matches.now))) }
{
    *slot = String::from_str(alloc, text_or_empty(matches, id))?;
    Ok(())
}

// Puts the text of an option there, if it is given.
fn put_if_any(
    alloc: Global,
    slot: &mut Option<String>,
    matches: &ArgMatches<'_>,
    flag: Flag,
) -> Result<(), AllocError>
    ensures { OnOk result (option_map string_bytes slot.new ≡ first_of (flag_id flag) (rows_of (found_of matches.now))) }
{
    *slot = match text_at(matches, flag.id()) {
        Some(text) => Some(String::from_str(alloc, text)?),
        None => None,
    };
    Ok(())
}

// Puts the texts that the matches give: an option that the command lacks is among no matches.
fn put_texts(alloc: Global, order: &mut Order, matches: &ArgMatches<'_>) -> Result<(), AllocError>
    ensures { OnOk result (order_view order.new
        ≡ order_in order.old.command order.old.budget order.old.trial order.old.formula (rows_of (found_of matches.now))) }
{
    put_text(alloc, &mut order.config, matches, Target::Config.id())?;
    put_text(
        alloc,
        &mut order.cert,
        matches,
        SecondFile::Certificate.id(),
    )?;
    put_text(alloc, &mut order.script, matches, SecondFile::Script.id())?;
    put_if_any(alloc, &mut order.orgs, matches, Flag::Orgs)?;
    put_if_any(alloc, &mut order.node, matches, Flag::Node)?;
    put_if_any(alloc, &mut order.from, matches, Flag::From)?;
    put_if_any(alloc, &mut order.faulty, matches, Flag::Faulty)?;
    put_if_any(alloc, &mut order.faulty_orgs, matches, Flag::FaultyOrgs)?;
    put_if_any(alloc, &mut order.set, matches, Flag::Set)
}

/// The order that the command's matches give. It is made without texts and lent to what puts them there, so that it is let go
/// in one place where memory is wanting.
pub fn order_from(
    alloc: Global,
    command: Command,
    numbers: Numbers,
    matches: &ArgMatches<'_>,
) -> Result<Order, OrderFault>
    ensures texts { IfOk result (λ o. order_view o ≡ order_in command numbers.budget numbers.trial numbers.formula (rows_of (found_of matches.now))) }
    ensures command { IfOk result (λ o. o.command ≡ command) }
    ensures budget { IfOk result (λ o. o.budget ≡ numbers.budget) }
    ensures trial { IfOk result (λ o. o.trial ≡ numbers.trial) }
    ensures memory { IfErr result (λ e. e ≡ OrderFault.Memory) }
{
    let mut order = Order {
        command,
        config: String::new(alloc),
        cert: String::new(alloc),
        script: String::new(alloc),
        orgs: None,
        node: None,
        from: None,
        faulty: None,
        faulty_orgs: None,
        set: None,
        budget: numbers.budget,
        trial: numbers.trial,
        formula: numbers.formula,
    };
    match put_texts(alloc, &mut order, matches) {
        Ok(()) => Ok(order),
        Err(_) => {
            drop(order);
            Err(OrderFault::Memory)
        }
    }
}
