//! What a search for all minimal blocking sets of groups comes to.
use blocking_lists::SetJournal;
use name_set::{GROUP_WORDS, GroupSet};

/// The lines of such a search: its quorums are sets of nodes, and its blocking sets are sets of groups.
pub type GroupJournal = SetJournal<GROUP_WORDS>;

/// All minimal blocking sets of groups, in the order of the groups' numbers, with the journal of the search, or the journal of a
/// search that spent its budget.
#[derive(Drop)]
pub enum GroupOutcome {
    Whole(Vec<GroupSet>, GroupJournal),
    Spent(GroupJournal),
}
