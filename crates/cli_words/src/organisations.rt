//! How many organisations a trial has.
ghost use Rattle.std.specs.Prelude.{◌≡◌, ◌≤◌, IfSome, false, option_map};
ghost use Rattle.cli_words.specs.Organisations.{organisations_of as spec_organisations_of, organisations_in as spec_organisations_in};
ghost use Rattle.cli_words.specs.Table.{has_configuration};
ghost use Rattle.cli_words.specs.declared.organisations.TheConstants.{MOST_ORGANISATIONS};

use crate::numbers::number_between;
use crate::orders::Command;

/// The most organisations of a trial.
pub const MOST_ORGANISATIONS: u32 = 100;

// The number that a text says, if it is one from 1 on and not too large.
fn organisations_in(text: Option<&str>) -> Option<u32>
    ensures value { result ≡ spec_organisations_in (option_map (λ s. s.now) text.entry) }
    ensures some { IfSome result (λ n. 1 ≤ n) }
    ensures few { IfSome result (λ n. n ≤ MOST_ORGANISATIONS) }
{
    let number = number_between(1, MOST_ORGANISATIONS as u64, text?)?;
    Some(number as u32)
}

/// How many organisations the command has by this text, and none where the text says none. A command about a configuration has no
/// organisations.
pub fn organisations_of(command: Command, text: Option<&str>) -> Option<u32>
    ensures value { result ≡ spec_organisations_of command (option_map (λ s. s.now) text.entry) }
    ensures some { has_configuration command ≡ false → IfSome result (λ n. 1 ≤ n) }
    ensures few { IfSome result (λ n. n ≤ MOST_ORGANISATIONS) }
{
    if command.has_configuration() {
        return Some(0);
    }
    organisations_in(text)
}
