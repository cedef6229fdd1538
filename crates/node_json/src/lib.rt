//! The readers of configurations and of organisations.
#![tactic(auto)]

mod faults;
mod groups;
mod ids;
mod json_numbers;
mod keys;
mod named_orgs;
mod names;
mod nodes;
mod organisations;
mod quorum_sets;
mod seen_names;
mod slots;
mod system;
mod tree;

pub use faults::{ConfigFault, OrgFault, SetFault};
pub use groups::{Groups, groups_of};
pub use ids::read_ids;
pub use organisations::{Orgs, read_orgs};
pub use system::read_config;
