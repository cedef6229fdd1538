//! Journals of a search for the sets of groups that split a system, and of one for a least such set: what a whole journal shows.
//!
//! A set splits if two quorums share no node once its members are deleted. That is not monotone. The split formula is satisfiable,
//! with a set's variables true and no other group's, exactly where the set splits; a listed set says that one of its groups does
//! not lie. So a proof of the empty clause shows that each splitting set has a listed part.
#![tactic(auto)]

ghost use Rattle.std.specs.Prelude.{◌≡◌, ℕ, ◌≤◌, Bool, true, List, length, All};
ghost use Rattle.fbas_model.specs.Nodes.{Nodes, Table, members, size, ◌∪◌};
ghost use Rattle.fbas_model.specs.Fbas.{Fbas};
ghost use Rattle.lrat_model.specs.Literal.{formula_true};
ghost use Rattle.lrat_model.specs.Clauses.{numbered};
ghost use Rattle.lrat_model.specs.Ranges.{AreInRange};
ghost use Rattle.clause_encoder.specs.declared.version.Version.{Version};
ghost use Rattle.clause_encoder.specs.Meaning.{AreDisjointQuorums};
ghost use Rattle.enumeration_journal.specs.Order.{ordered};
ghost use Rattle.enumeration_journal.specs.Journals.{JournalLine, IsWholeJournal, sets_in};
ghost use Rattle.enumeration_journal.specs.declared.kinds.Listed.TheVariants.{Smaller};
ghost use Rattle.group_journal.specs.Groups.{joined, touching};
ghost use Rattle.split_journal.specs.Splitting.{Splits, IsSplitList};
ghost use Rattle.split_journal.specs.Minimal.{minimal_among};
ghost use Rattle.split_journal.specs.Formula.{left_of, split_clauses, split_vars};
ghost use Rattle.split_journal.specs.Nodes.{IsListOfSplitting, IsLeastOfSplitting, alone, is_split_by};
ghost use Rattle.split_journal.specs.Rules.{split_of, IsWholeLeastSplit, IsLeastSplitAnswer, least_split_answer};
ghost use Rattle.split_journal.specs.Meaning.{AreGroups, IsMarking, IsSetOf, TellsSet, TellsSplit, told_a, told_b};

mod among;

pub use among::minimal_among;

/// Where the groups are those whose variables are true, the split formula tells two quorums that share no node once the groups'
/// members are deleted, and every two such quorums are told by an assignment that is any before the nodes' variables.
pub fn the_split_formula_tells_what_splits()
    ensures says { (version : Version) (f : Fbas) (b : Table) (first : ℕ) (groups : List Table) (s : Table) (v : ℕ → Bool) → IsMarking v (touching groups (left_of f (members b))) s → formula_true v (split_clauses version f b first (left_of f (members b)) groups) ≡ true → AreDisjointQuorums f (members b ∪ joined groups s) (told_a f b first (left_of f (members b)) v) (told_b f b first (left_of f (members b)) v) }
    ensures tells { (version : Version) (f : Fbas) (b : Table) (first : ℕ) (groups : List Table) (s : Table) (base : ℕ → Bool) (u w : Nodes) → AreGroups f groups → size (touching groups (left_of f (members b))) ≤ first → IsMarking base (touching groups (left_of f (members b))) s → AreDisjointQuorums f (members b ∪ joined groups s) u w → TellsSplit version f b first (left_of f (members b)) groups base u w }
    ensures model { (version : Version) (f : Fbas) (b : Table) (first : ℕ) (groups : List Table) (v : ℕ → Bool) (s : Table) → length s ≡ length groups → IsSetOf v (touching groups (left_of f (members b))) s → formula_true v (split_clauses version f b first (left_of f (members b)) groups) ≡ true → TellsSet f b first (left_of f (members b)) groups v s }
    ensures range { (version : Version) (f : Fbas) (b : Table) (first : ℕ) (groups : List Table) → size (touching groups (left_of f (members b))) ≤ first → AreInRange (split_vars version f b first (left_of f (members b))) (numbered 1 (split_clauses version f b first (left_of f (members b)) groups)) }
{}

/// The listed sets of a whole journal that have no proper subset among them are the minimal sets that split, and no others.
pub fn a_whole_journal_has_each_minimal_splitting_set()
    ensures groups { (version : Version) (f : Fbas) (b : Table) (groups : List Table) (journal : List JournalLine) → AreGroups f groups → IsWholeJournal (split_of version f b (left_of f (members b)) groups) journal → IsSplitList f (members b) groups (ordered (minimal_among (sets_in Smaller journal))) }
    ensures nodes { (version : Version) (f : Fbas) (b : Table) (journal : List JournalLine) → IsWholeJournal (split_of version f b (left_of f (members b)) (alone (length f))) journal → IsListOfSplitting f (members b) (ordered (minimal_among (sets_in Smaller journal))) }
{}

/// The set that a whole journal of the other search lists last is a least one that splits, and no set splits if it lists none.
pub fn a_whole_journal_ends_with_a_least_splitting_set()
    ensures groups { (version : Version) (f : Fbas) (b : Table) (groups : List Table) (journal : List JournalLine) → AreGroups f groups → IsWholeLeastSplit version f b (left_of f (members b)) groups journal → IsLeastSplitAnswer f (members b) groups (least_split_answer journal) }
    ensures nodes { (version : Version) (f : Fbas) (b : Table) (journal : List JournalLine) → IsWholeLeastSplit version f b (left_of f (members b)) (alone (length f)) journal → IsLeastOfSplitting f (members b) (least_split_answer journal) }
{}

/// A quorum that does not meet every other, once b and s are deleted, shows that s splits, and the first of two that share no node does not.
pub fn a_quorum_shows_that_a_set_splits()
    ensures splits { (f : Fbas) (b s a : Table) → length b ≡ length f → length s ≡ length f → is_split_by f b s a ≡ true → Splits f (members b) (members s) }
    ensures shown { (f : Fbas) (b s a : Table) (w : Nodes) → length b ≡ length f → length s ≡ length f → length a ≡ length f → AreDisjointQuorums f (members b ∪ members s) (members a) w → is_split_by f b s a ≡ true }
{}
