//! Formulas whose gates are written out: where a gate says that at least k of its inputs are true, a clause for each set of
//! inputs one of which has to be true, in place of the clauses of its counter. Unit propagation finds as much over the ones
//! as over the others, so that a lemma which is useful over gates written out is useful over the formula.
#![tactic(auto)]

mod cells;
mod choices;
mod counters;
mod kinds;
mod reading;
mod search;
mod writing;

pub use cells::{Cell, is_outer};
pub use counters::Counter;
pub use reading::read_counter;
pub use search::has_gates;
pub use writing::{Origin, Written, write_out};
