//! Gates as a search over their sets of inputs needs them: of each gate it is counted how many of its inputs are false, so
//! that of the clauses that its sets are none has to be watched.
#![tactic(auto)]

mod gate;
mod gates;
mod guesses;
mod parts;
mod quiet;

pub use gate::Gate;
pub use gates::Gates;
