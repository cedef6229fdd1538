//! Listed sets: quorums, ever smaller ones among them, and blocking sets.
ghost use Rattle.std.specs.Prelude.{◌≡◌, ◌⊎◌, ◌≤◌, ◌<◌, ◌&&◌, ◌||◌, true, not, length, None, IfOk, IfErr, OnOk, Ok, Err};
ghost use Rattle.fbas_model.specs.Nodes.{members, ◌⊆◌, IsInhabited, size};
ghost use Rattle.fbas_model.specs.Counting.{is_quorum};
ghost use Rattle.lrat_model.specs.Ranges.{IsInRange};
ghost use Rattle.enumeration_journal.specs.Kinds.{Is, is_sought};
ghost use Rattle.enumeration_journal.specs.Tests.{is_within, is_minimal};
ghost use Rattle.least_journal.specs.Least.{last_of};
ghost use Rattle.reach_kinds.specs.Bodies.{rules_of, asks_inside, is_listed_for, asks_minimal, asks_smaller, is_below, not_of, is_covered, right_set, new_set, list_set, with_sought};
ghost use Rattle.reach_kinds.specs.Known.{IsList, IsPartSet, IsSmallIf};
ghost use Rattle.reach_kinds.specs.declared.places.ReachPlace.TheVariants.{AtList};
ghost use Rattle.reach_kinds.specs.declared.places.ReachState.TheVariants.{Going};

use crate::places::{ListPart, Listing, Scope};
use cert_lines::CertError;
use enumeration_journal::{ListKind, Listed, NodeSets, clause_of, is_blocking, is_minimal};
use least_journal::clause_in;
use lrat_checker::IdleChecker;
use lrat_model::Lit;
use name_set::NodeSet;
use std::alloc::{AllocError, Global};

/// Whether a set of the one kind is a sought one.
fn is_sought(sought: Listed, which: Listed) -> bool
    ensures { result ≡ is_sought sought which }
{
    match (sought, which) {
        (Listed::Quorum, Listed::Quorum)
        | (Listed::Blocking, Listed::Blocking)
        | (Listed::Smaller, Listed::Smaller) => true,
        _ => false,
    }
}

/// Whether a set has to lie in the greatest quorum.
fn asks_inside(sought: Listed, which: Listed) -> bool
    ensures { result ≡ asks_inside sought which }
{
    match (sought, which) {
        (Listed::Quorum, Listed::Blocking) | (Listed::Smaller, _) => true,
        _ => false,
    }
}

/// That a set is not of its kind.
fn not_of(line: u64, which: Listed) -> CertError
    ensures { result ≡ not_of line which }
{
    match which {
        Listed::Quorum | Listed::Smaller => CertError::NotQuorum(line),
        Listed::Blocking => CertError::NotBlocking(line),
    }
}

/// Whether a set may have no node to spare.
fn asks_minimal(sought: Listed, which: Listed) -> bool
    ensures { result ≡ asks_minimal sought which }
{
    match (sought, which) {
        (Listed::Quorum, Listed::Quorum) | (Listed::Blocking, Listed::Blocking) => true,
        _ => false,
    }
}

/// Whether a set has to have fewer nodes than the one before it.
fn asks_smaller(sought: Listed, which: Listed) -> bool
    ensures { result ≡ asks_smaller sought which }
{
    match (sought, which) {
        (Listed::Smaller, Listed::Smaller) => true,
        _ => false,
    }
}

/// Whether the set lies in the greatest quorum, where that is asked.
fn is_inside(part: &ListPart, asked: bool, set: &NodeSet) -> bool
    requires places { length set.now ≡ length part.now.greatest }
    ensures { result ≡ (not asked || is_within set.now part.now.greatest) }
{
    if !asked {
        return true;
    }
    set.lies_in(&part.greatest)
}

/// Whether the set is a quorum once the faulty nodes are deleted. The cost is that of `shrink`.
pub(crate) fn is_quorum_in(part: &ListPart, set: &NodeSet) -> bool
    requires same_n { length set.now ≡ length part.now.system.sets }
    requires same_faulty { length part.now.faulty ≡ length part.now.system.sets }
    ensures { result ≡ is_quorum part.now.system.sets part.now.faulty set.now }
{
    part.system.is_quorum(set, &part.faulty)
}

/// Whether the set is what it is listed for. The cost is that of `shrink`.
fn is_listed_for(
    part: &ListPart,
    sought: Listed,
    which: Listed,
    set: &NodeSet,
    scratch: &mut NodeSet,
) -> bool
    requires same_n { length set.now ≡ length part.now.system.sets }
    requires same_faulty { length part.now.faulty ≡ length part.now.system.sets }
    requires same_scratch { length scratch.old ≡ length part.now.system.sets }
    ensures same_scratch { length scratch.new ≡ length scratch.old }
    ensures value { result ≡ is_listed_for sought which part.now.system.sets part.now.faulty set.now }
{
    match (sought, which) {
        (_, Listed::Blocking) => is_blocking(&part.system, &part.faulty, set, scratch),
        (Listed::Smaller, Listed::Smaller) | (Listed::Quorum | Listed::Blocking, Listed::Quorum) =>
            is_quorum_in(part, set),
        _ => false,
    }
}

/// Whether nothing can be taken out of the set, where that is asked. The cost is that of `shrink` for each of its nodes.
fn is_minimal_if(
    part: &ListPart,
    asked: bool,
    which: Listed,
    set: &NodeSet,
    scratch: &mut NodeSet,
) -> bool
    requires same_n { length set.now ≡ length part.now.system.sets }
    requires same_faulty { length part.now.faulty ≡ length part.now.system.sets }
    requires same_scratch { length scratch.old ≡ length part.now.system.sets }
    requires is { asked ≡ true → Is which part.now.system.sets (members part.now.faulty) (members set.now) }
    ensures { result ≡ (not asked || is_minimal which part.now.system.sets part.now.faulty set.now) }
{
    if !asked {
        return true;
    }
    let mut copy = NodeSet::new(part.system.len());
    is_minimal(&part.system, &part.faulty, which, set, &mut copy, scratch)
}

/// Whether the set has fewer nodes than the one that is listed last, where that is asked.
fn is_smaller_if(listing: &Listing, asked: bool, set: &NodeSet) -> bool
    ensures { result ≡ (not asked || is_below (size set.now) (last_of None listing.now.sets)) }
{
    if !asked {
        return true;
    }
    match listing.sets.as_slice().last() {
        Some(last) => set.count() < last.count(),
        None => true,
    }
}

/// That the set is what it is listed for.
fn right_set(listing: &Listing, line: u64, which: Listed, set: &NodeSet) -> Result<(), CertError>
    requires places { length listing.now.part.greatest ≡ length listing.now.part.system.sets }
    requires same_n { length set.now ≡ length listing.now.part.system.sets }
    requires same_faulty { length listing.now.part.faulty ≡ length listing.now.part.system.sets }
    ensures ok { OnOk result (right_set listing.now line which set.now ≡ Ok set.now) }
    ensures err { IfErr result (λ e. right_set listing.now line which set.now ≡ Err e) }
{
    let part = &listing.part;
    if !is_inside(part, asks_inside(listing.sought, which), set) {
        return Err(CertError::UnknownNode(line));
    }
    let mut scratch = NodeSet::new(part.system.len());
    if !is_listed_for(part, listing.sought, which, set, &mut scratch) {
        return Err(not_of(line, which));
    }
    if !is_minimal_if(
        part,
        asks_minimal(listing.sought, which),
        which,
        set,
        &mut scratch,
    ) {
        return Err(CertError::NotMinimal(line));
    }
    if !is_smaller_if(listing, asks_smaller(listing.sought, which), set) {
        return Err(CertError::NotSmaller(line));
    }
    Ok(())
}

/// Whether the clause of a set has to be new: in a part that of each but of ever smaller quorums, and in a list of all minimal
/// sets that of one of them.
fn asks_new(listing: &Listing, which: Listed) -> bool
    ensures { result ≡ (rules_of listing.now.sought listing.now.part).asks listing.now.kind which }
{
    match (listing.kind, listing.sought, which) {
        (ListKind::Partial, Listed::Smaller, Listed::Smaller) => false,
        (ListKind::Partial, _, _)
        | (ListKind::Whole, Listed::Quorum, Listed::Quorum)
        | (ListKind::Whole, Listed::Blocking, Listed::Blocking) => true,
        _ => false,
    }
}

/// The units that a listed set takes: one of ever smaller quorums takes none.
fn cost_of(listing: &Listing, which: Listed) -> u64
    ensures { result ≡ (rules_of listing.now.sought listing.now.part).cost which }
{
    match (listing.sought, which) {
        (Listed::Smaller, Listed::Smaller) => 0,
        _ => 1,
    }
}

/// Whether a clause held under a smaller id is a subset of this one. Linear in the literals that are held.
pub fn is_covered(checker: &IdleChecker, id: u64, clause: &[Lit]) -> bool
    ensures { result ≡ is_covered checker.now.database.held id clause.now }
{
    checker.covers(id, clause)
}

/// The set's clause.
fn clause_by(
    alloc: Global,
    listing: &Listing,
    which: Listed,
    set: &NodeSet,
) -> Result<Vec<Lit>, AllocError>
    requires places { length listing.now.part.greatest ≡ length listing.now.part.system.sets }
    requires same_n { length set.now ≡ length listing.now.part.system.sets }
    requires within { members set.now ⊆ members listing.now.part.greatest }
    requires some { which ≡ Listed.Smaller → IsInhabited (members set.now) }
    requires small { IsSmallIf listing.now.sought (size listing.now.part.greatest) }
    ensures clause { IfOk result (λ clause. clause.items ≡ (rules_of listing.now.sought listing.now.part).clause which set.now) }
    ensures range { IfOk result (λ clause. IsInRange (rules_of listing.now.sought listing.now.part).vars clause.items) }
{
    let n = listing.part.system.len();
    match listing.sought {
        Listed::Quorum | Listed::Blocking => {
            clause_of(alloc, listing.sought, which, n, &listing.part.greatest, set)
        }
        Listed::Smaller => clause_in(alloc, which, n, &listing.part.greatest, set),
    }
}

/// The set's clause, which has to be new where the kind asks for it.
fn new_clause(
    alloc: Global,
    listing: &Listing,
    line: u64,
    which: Listed,
    id: u64,
    set: &NodeSet,
) -> Result<Vec<Lit>, CertError>
    requires places { length listing.now.part.greatest ≡ length listing.now.part.system.sets }
    requires same_n { length set.now ≡ length listing.now.part.system.sets }
    requires within { members set.now ⊆ members listing.now.part.greatest }
    requires some { which ≡ Listed.Smaller → IsInhabited (members set.now) }
    requires small { IsSmallIf listing.now.sought (size listing.now.part.greatest) }
    ensures clause { IfOk result (λ clause. clause.items ≡ (rules_of listing.now.sought listing.now.part).clause which set.now) }
    ensures range { IfOk result (λ clause. IsInRange (rules_of listing.now.sought listing.now.part).vars clause.items) }
    ensures ok { IfOk result (λ _. new_set listing.now line which id set.now ≡ Ok set.now) }
    ensures err { IfErr result (λ e. (e ≡ CertError.Memory) ⊎ (new_set listing.now line which id set.now ≡ Err e)) }
{
    let clause = clause_by(alloc, listing, which, set)?;
    if asks_new(listing, which) && is_covered(&listing.checker, id, &clause) {
        return Err(CertError::NotNew(line));
    }
    Ok(clause)
}

/// The sets with this one, if it is of the sought kind.
fn with_sought(
    sets: &mut NodeSets,
    sought: Listed,
    which: Listed,
    set: NodeSet,
) -> Result<(), AllocError>
    ensures { IfOk result (λ _. sets.new ≡ with_sought sought sets.old which set) }
{
    if is_sought(sought, which) {
        return sets.push(set);
    }
    Ok(())
}

/// The set of the part listed under an id above the last one.
pub fn list_set(
    alloc: Global,
    scope: &Scope<'_>,
    listing: &mut Listing,
    line: u64,
    which: Listed,
    id: u64,
    set: NodeSet,
) -> Result<(), CertError>
    requires known { IsList scope.now.system.now scope.now.nodes.now scope.now.faulty.now listing.old }
    requires above { listing.old.checker.database.last < id }
    requires set { IsPartSet scope.now.system.now scope.now.nodes.now set }
    ensures ok { OnOk result (list_set scope.now.nodes.now listing.old line which id set ≡ Ok (Going (AtList listing.new))) }
    ensures err { IfErr result (λ e. (e ≡ CertError.Memory) ⊎ (list_set scope.now.nodes.now listing.old line which id set ≡ Err e)) }
{
    let cut = scope.system.cut(&set, scope.nodes);
    right_set(listing, line, which, &cut)?;
    let clause = new_clause(alloc, listing, line, which, id, &cut)?;
    listing.checker.give(id, &clause)?;
    with_sought(&mut listing.sets, listing.sought, which, set)?;
    let Some(units) = listing.units.checked_add(cost_of(listing, which)) else {
        return Err(CertError::Memory);
    };
    listing.units = units;
    Ok(())
}
