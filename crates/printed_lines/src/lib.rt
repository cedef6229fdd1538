//! The lines that the program prints.
#![tactic(auto)]

mod findings;
mod groups;
mod refusals;
mod words;

pub use findings::shown;
pub use groups::with_group_sets;
pub use refusals::{cert_refused, config_refused, names_refused, orgs_refused, script_refused};
pub use words::{
    accepted, counted, export_comments, push_edit, smallest, trial_size, verified_lines, with_list,
    with_pair, with_sets,
};
