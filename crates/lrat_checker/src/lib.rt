//! A checker of LRAT proofs, step by step, with RAT hints or without.
#![tactic(auto)]

mod checker;
mod hint;
mod idle;
mod keys;
mod opened;
mod rat;
mod status;
mod subsets;

pub use checker::Checker;
pub use clause_store::Store;
pub use hint::Hinting;
pub use idle::IdleChecker;
pub use lrat_model::{Lit, Progress, Rule, Step, StepFault};
