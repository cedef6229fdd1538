//! What a search for a smallest quorum comes to.
use blocking_lists::Journal;
use name_set::NodeSet;

/// A smallest quorum or that there is none, with the journal of the search; or the journal of a search that spent its budget.
#[derive(Drop)]
pub enum LeastOutcome {
    Least(NodeSet, Journal),
    NoQuorum(Journal),
    Spent(Journal),
}
