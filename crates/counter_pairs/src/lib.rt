//! Gates of both sides of an intersection formula that exclude each other, and the plan of decisions that shows it by a count
//! of their inputs. No answer depends on it: a gate that is read otherwise than it was written costs speed alone.
#![tactic(auto)]

mod counts;
mod matches;
mod pairs;
mod plans;
mod rivals;
mod sides;
mod walks;

pub use plans::{has_rivals, plan_of};
