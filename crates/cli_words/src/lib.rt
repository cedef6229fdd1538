//! The words of the command line, read to an order.
#![tactic(auto)]

ghost use Rattle.std.specs.Prelude.{◌≡◌, ◌⊎◌, ◌≤◌, ℕ, false, map, None, Ok, Err, IfOk, IfErr, IfSome, string_bytes, option_map};
ghost use Rattle.std.specs.Str.{bytes_eq};
ghost use Rattle.clap.specs.Words.{found_of, rows_of};
ghost use Rattle.cli_words.specs.Words.{order_among, order_by, order_in, order_of, path_checked, command_named as spec_command_named};
ghost use Rattle.cli_words.specs.Order.{order_view, has_same_path as spec_has_same_path, is_path as spec_is_path};
ghost use Rattle.cli_words.specs.Table.{has_configuration, row_of as spec_row_of};
ghost use Rattle.cli_words.specs.declared.budget.TheConstants.{MOST_BUDGET};
ghost use Rattle.cli_words.specs.declared.organisations.TheConstants.{MOST_ORGANISATIONS};

mod budget;
mod commands;
mod formula;
mod numbers;
mod orders;
mod organisations;
mod table;
mod usage_text;

use budget::budget_of;
pub use budget::{MOST_BUDGET, USUAL_BUDGET};
use clap::ArgMatches;
use commands::{Numbers, matched, order_from, text_at, text_or_empty};
use formula::formula_of;
pub use formula::{NEWEST_FORMULA, OLDEST_FORMULA};
pub use orders::{Command, Goal, Order, OrderFault, Query};
pub use organisations::MOST_ORGANISATIONS;
use organisations::organisations_of;
use std::alloc::Global;
use table::{Flag, SecondFile, Target, all_commands, has_certificate, row_of};
pub use usage_text::usage;

/// The order that the words give, or why they give none. The words begin with the program's name, and a
/// request for help is no order. No names are read here: a list of names stays a text.
///
/// `Words` comes where the words are not those of a command, `SamePath` where they are and the path of the
/// certificate, or of the proof, equals that of the configuration or of the organisations as text. O(n) in the total length n of the words.
pub fn order(alloc: Global, words: &[String]) -> Result<Order, OrderFault>
    ensures ok { IfOk result (λ o. order_of (map string_bytes words.now) ≡ Ok (order_view o)) }
    ensures err { IfErr result (λ e. (e ≡ OrderFault.Memory)
        ⊎ (order_of (map string_bytes words.now) ≡ Err e)) }
    ensures few { IfOk result (λ o. o.budget ≤ MOST_BUDGET) }
    ensures organisations { IfOk result (λ o. has_configuration o.command ≡ false → (1 ≤ o.trial) × (o.trial ≤ MOST_ORGANISATIONS)) }
{
    let [_, rest @ ..] = words else {
        return Err(OrderFault::Words);
    };
    let [name, ..] = rest else {
        return Err(OrderFault::Words);
    };
    match command_named(name.as_str()) {
        Some(command) => command_order(alloc, command, rest),
        None => Err(OrderFault::Words),
    }
}

// Whether the name is the command's word.
fn is_named(command: Command, name: &str) -> bool
    ensures { result ≡ bytes_eq name.now (spec_row_of command).word }
{
    name == row_of(command).word
}

// The command whose word the name is.
#[tactic(auto, unfolding(crate::specs::Words::command_named))]
fn command_named(name: &str) -> Option<Command>
    ensures { result ≡ spec_command_named name.now }
{
    let commands = all_commands();
    for command in commands {
        if is_named(*command, name) {
            return Some(*command);
        }
    }
    None
}

// The order of a command by its own words, which begin with its name.
fn command_order(alloc: Global, command: Command, words: &[String]) -> Result<Order, OrderFault>
    ensures ok { IfOk result (λ o. order_by command (map string_bytes words.now)
        ≡ Ok (order_view o)) }
    ensures err { IfErr result (λ e. (e ≡ OrderFault.Memory)
        ⊎ (order_by command (map string_bytes words.now) ≡ Err e)) }
    ensures few { IfOk result (λ o. o.budget ≤ MOST_BUDGET) }
    ensures organisations { IfOk result (λ o. has_configuration o.command ≡ false → (1 ≤ o.trial) × (o.trial ≤ MOST_ORGANISATIONS)) }
{
    let matches = matched(alloc, command, words)?;
    let Some(numbers) = numbers_of(command, &matches) else {
        return Err(OrderFault::Words);
    };
    if has_same_path(command, &matches) {
        return Err(OrderFault::SamePath);
    }
    order_from(alloc, command, numbers, &matches)
}

// What the texts say as numbers, if all of them are numbers.
fn numbers_of(command: Command, matches: &ArgMatches<'_>) -> Option<Numbers>
    ensures none { result ≡ None → order_among command (rows_of (found_of matches.now)) ≡ Err OrderFault.Words }
    ensures some { IfSome result (λ n. order_among command (rows_of (found_of matches.now)) ≡ path_checked (order_in command n.budget n.trial n.formula (rows_of (found_of matches.now)))) }
    ensures few { IfSome result (λ n. n.budget ≤ MOST_BUDGET) }
    ensures organisations { IfSome result (λ n. has_configuration command ≡ false → (1 ≤ n.trial) × (n.trial ≤ MOST_ORGANISATIONS)) }
{
    let budget = budget_of(command, text_at(matches, Flag::Budget.id()))?;
    let trial = organisations_of(command, text_at(matches, Target::Organisations.id()))?;
    let formula = formula_of(command, text_at(matches, Flag::Formula.id()))?;
    Some(Numbers {
        budget,
        trial,
        formula,
    })
}

fn has_same_path(command: Command, matches: &ArgMatches<'_>) -> bool
    ensures { (budget trial formula : ℕ) → result ≡ spec_has_same_path (order_in command budget trial formula (rows_of (found_of matches.now))) }
{
    let cert = text_or_empty(matches, SecondFile::Certificate.id());
    has_certificate(command)
        && command.has_configuration()
        && (text_or_empty(matches, Target::Config.id()) == cert
            || is_path(text_at(matches, Flag::Orgs.id()), cert))
}

fn is_path(given: Option<&str>, path: &str) -> bool
    ensures { result ≡ spec_is_path (option_map (λ s. s.now) given.entry) path.now }
{
    match given {
        Some(given) => given == path,
        None => false,
    }
}
