//! Clauses under ids, their literals in one arena.
#![tactic(auto)]

mod compact;
mod guess;
mod index;
mod store;
mod view;

pub use lrat_model::Lit;
pub use store::Store;
pub use view::{ClauseRef, ClauseView, LongRef};
