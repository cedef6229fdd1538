//! A smallest quorum of a system, with a journal that shows that no quorum has fewer nodes.
#![tactic(auto)]

mod outcome;
mod search;
mod smallest;

pub use outcome::LeastOutcome;
pub use smallest::least;
