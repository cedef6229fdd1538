//! Whether every two quorums share a node, with the evidence.
#![tactic(auto)]

mod answers;
mod asking;
mod gates;
mod searching;

pub use answers::{Answer, AskError, Size};
pub use asking::{MOST_UNITS, intersect};
pub use lrat_text::Log;
pub use witness_pair::Pair;
