//! A search over a formula whose gates are written out, whose log is carried over to the formula.
#![tactic(auto)]

mod carrier;
mod carrying;
mod counted;
mod hints;
mod searching;
mod values;

pub use counter_expansion::has_gates;
pub use searching::{Found, search};
