//! Journals of a search for sets of nodes: what their lines are, by which rules they go, and what a whole journal shows.
//!
//! A journal lists quorums and blocking sets, each of which gives a clause over the nodes of the greatest quorum, and has the
//! steps of a proof from these clauses. Where minimal blocking sets are sought, a set of nodes satisfies the clause of a quorum
//! that it meets, and that of a blocking set that it does not hold; where minimal quorums are sought, it is the other way round.
//! So a proof of the empty clause shows that no minimal set of either kind is missing.
#![tactic(auto)]

ghost use Rattle.std.specs.Prelude.{◌≡◌, List, length, Contains};
ghost use Rattle.fbas_model.specs.Nodes.{Table, members};
ghost use Rattle.fbas_model.specs.Fbas.{Fbas};
ghost use Rattle.greatest_quorum.specs.Greatest.{greatest_of};
ghost use Rattle.enumeration_journal.specs.Journals.{JournalLine, IsWholeJournal, list_of, sets_in};
ghost use Rattle.enumeration_journal.specs.Kinds.{other};
ghost use Rattle.enumeration_journal.specs.Lists.{AreMinimalSets, IsMinimalSet};

mod clauses;
mod deciding;
mod kinds;
mod order;

pub use clauses::clause_of;
pub use deciding::{is_blocking, is_minimal, make_minimal};
pub use kinds::{ListKind, Listed};
pub use order::{NodeSets, SetList, rising};

/// The sought sets of a whole journal are the minimal ones of their kind and no others: one that is not listed would satisfy
/// every clause.
pub fn a_whole_journal_has_each_set_that_is_sought()
    ensures { (sought : Listed) (f : Fbas) (b : Table) (journal : List JournalLine) → length b ≡ length f → IsWholeJournal (list_of sought f (members b) (greatest_of f b)) journal → AreMinimalSets sought f (members b) (sets_in sought journal) }
{}

/// A whole journal has each minimal set of the other kind among its lines: what one that is not listed leaves of the greatest
/// quorum would satisfy every clause.
pub fn a_whole_journal_has_each_minimal_set_of_the_other_kind()
    ensures { (sought : Listed) (f : Fbas) (b s : Table) (journal : List JournalLine) → length b ≡ length f → IsMinimalSet (other sought) f (members b) s → IsWholeJournal (list_of sought f (members b) (greatest_of f b)) journal → Contains (sets_in (other sought) journal) s }
{}
