//! The budget of a search.
ghost use Rattle.std.specs.Prelude.{◌≡◌, ◌≤◌, IfSome, option_map};
ghost use Rattle.cli_words.specs.Budget.{budget_of as spec_budget_of};
ghost use Rattle.cli_words.specs.declared.budget.TheConstants.{MOST_BUDGET};

use crate::numbers::number_between;
use crate::orders::Command;
use crate::table::has_budget;

/// The most units of a budget.
pub const MOST_BUDGET: u64 = 4_000_000_000;

/// The units of a budget that is not given.
pub const USUAL_BUDGET: u64 = 1_000_000;

/// The budget of a command by the text of its option, and none where the text says none. A command without that option has no units.
pub fn budget_of(command: Command, text: Option<&str>) -> Option<u64>
    ensures value { result ≡ spec_budget_of command (option_map (λ s. s.now) text.entry) }
    ensures few { IfSome result (λ units. units ≤ MOST_BUDGET) }
{
    if !has_budget(command) {
        return Some(0);
    }
    match text {
        Some(text) => number_between(0, MOST_BUDGET, text),
        None => Some(USUAL_BUDGET),
    }
}
