//! Journals of a search for a smallest quorum: what their lines are, and what a whole journal shows.
//!
//! A journal begins with the clauses of a counter: if they are true, a variable tells that at least this many of the nodes of
//! the greatest quorum are in the set. A listed quorum says that fewer nodes are in it than the quorum has, a blocking set that
//! one of its nodes is. So a proof of the empty clause shows that no quorum has fewer nodes than the one listed last.
#![tactic(auto)]

ghost use Rattle.std.specs.Prelude.{◌≡◌, List, length};
ghost use Rattle.fbas_model.specs.Nodes.{Table, members};
ghost use Rattle.fbas_model.specs.Fbas.{Fbas};
ghost use Rattle.greatest_quorum.specs.Greatest.{greatest_of};
ghost use Rattle.enumeration_journal.specs.Journals.{JournalLine};
ghost use Rattle.least_journal.specs.Least.{IsWholeLeast, IsLeastAnswer, answer_of};

mod clauses;

pub use clauses::clause_in;

/// The quorum that a whole journal lists last is a smallest one, and there is no quorum if it lists none: a smaller one would
/// satisfy every clause.
pub fn a_whole_journal_ends_with_a_smallest_quorum()
    ensures { (f : Fbas) (b : Table) (journal : List JournalLine) → length b ≡ length f → IsWholeLeast f (members b) (greatest_of f b) journal → IsLeastAnswer f (members b) (answer_of journal) }
{}
