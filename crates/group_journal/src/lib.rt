//! Journals of a search for the minimal blocking sets of groups, as organisations are: by which rules they go, and what a whole
//! journal shows.
//!
//! A variable stands for each group that has a member in the greatest quorum. The clause of a quorum, a set of nodes, says that
//! one of the groups that have a member in it is in the set that is sought; that of a blocking set of groups, that one of them is
//! not. So a proof of the empty clause shows that no minimal blocking set of groups is missing.
#![tactic(auto)]

ghost use Rattle.std.specs.Prelude.{◌≡◌, List, length};
ghost use Rattle.fbas_model.specs.Nodes.{Table, members};
ghost use Rattle.fbas_model.specs.Fbas.{Fbas};
ghost use Rattle.greatest_quorum.specs.Greatest.{greatest_of};
ghost use Rattle.enumeration_journal.specs.Journals.{JournalLine, IsWholeJournal, sets_in};
ghost use Rattle.enumeration_journal.specs.declared.kinds.Listed.TheVariants.{Blocking};
ghost use Rattle.group_journal.specs.Groups.{AreMinimalGroupBlocks};
ghost use Rattle.group_journal.specs.Rules.{group_list_of};

mod clauses;
mod counting;
mod deciding;
mod marked;

pub use clauses::{block_clause, quorum_clause, touching};
pub use deciding::{is_group_block, is_least_block, minimal_groups};
pub use marked::MarkedGroups;

/// The blocking sets of a whole journal over groups are the minimal ones and no others: one that is not listed would satisfy every
/// clause.
pub fn a_whole_journal_has_each_minimal_blocking_set_of_groups()
    ensures { (f : Fbas) (b : Table) (groups : List Table) (journal : List JournalLine) → length b ≡ length f → IsWholeJournal (group_list_of f (members b) (greatest_of f b) groups) journal → AreMinimalGroupBlocks f (members b) (greatest_of f b) groups (sets_in Blocking journal) }
{}
