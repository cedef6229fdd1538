//! Which clauses a RAT step has to look at: those that have the negation of the lemma's first literal, its pivot. They are
//! told by counts, so that a step that is taken goes over no other clauses.
#![tactic(auto)]

mod counts;
mod hints;
mod kept;
mod scan;
mod store;

pub use clause_store::Store;
pub use hints::group_id;
pub use kept::KeptHints;
pub use lrat_model::Lit;
pub use store::CountedStore;
