//! The version of the formula that is exported, and that a proof of another solver is about.
ghost use Rattle.std.specs.Prelude.{◌≡◌, option_map};
ghost use Rattle.cli_words.specs.Formula.{formula_of as spec_formula_of};

use crate::numbers::number_between;
use crate::orders::Command;
use crate::table::has_formula;

/// The oldest version of the formula that can be asked for.
pub const OLDEST_FORMULA: u64 = 2;

/// The newest version of the formula, which is meant if none is asked for.
pub const NEWEST_FORMULA: u64 = 3;

/// The version of the formula of a command by the text of its option, and none if the text names none. A command without that option
/// has version 0.
pub fn formula_of(command: Command, text: Option<&str>) -> Option<u64>
    ensures { result ≡ spec_formula_of command (option_map (λ s. s.now) text.entry) }
{
    if !has_formula(command) {
        return Some(0);
    }
    match text {
        Some(text) => number_between(OLDEST_FORMULA, NEWEST_FORMULA, text),
        None => Some(NEWEST_FORMULA),
    }
}
