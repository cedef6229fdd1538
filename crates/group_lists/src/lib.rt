//! All minimal blocking sets of groups, as organisations are, with a journal of the search for them.
#![tactic(auto)]

mod listing;
mod outcome;
mod search;

pub use listing::list_groups;
pub use outcome::{GroupJournal, GroupOutcome};
