//! What guides a search that learns clauses, and no answer depends on: the order of decisions, when to begin again, and
//! which lemmas were used of late. Proved of the order is that it finds a variable that has no value wherever there is one.
#![tactic(auto)]

mod entries;
mod groups;
mod heap;
mod mean;
mod order;
mod plan;
mod queue;
mod restarts;
mod turns;
mod uses;

pub use entries::entry_or;
pub use groups::{CounterRows, Part, PlannedGroups, RowPair, Rows};
pub use order::DecisionOrder;
pub use plan::Plan;
pub use restarts::Restarts;
pub use uses::Uses;
