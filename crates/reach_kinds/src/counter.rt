//! The line that gives the size of the counter.
ghost use Rattle.std.specs.Prelude.{◌≡◌, ◌⊎◌, ◌≤◌, ◌<◌, ◌*◌, IfOk, IfErr, Ok, Err};
ghost use Rattle.fbas_model.specs.Nodes.{size};
ghost use Rattle.clause_encoder.specs.NameCounter.{counter_vars, counter_of};
ghost use Rattle.clause_encoder.specs.declared.limits.TheConstants.{MOST_VARS};
ghost use Rattle.lrat_model.specs.Runs.{formula_database};
ghost use Rattle.reach_kinds.specs.Bodies.{list_checking, counter_sized, counter_line};

use crate::places::{ListPart, Listing, ReachPlace, ReachState};
use cert_lines::{CertError, Counts, counter_in};
use clause_encoder::{EncodeError, counter_clauses, counter_vars};
use enumeration_journal::{ListKind, Listed, NodeSets};
use lrat_checker::IdleChecker;
use lrat_model::Rule;
use name_set::NodeSet;
use std::alloc::Global;

/// A checker that holds the counter of the nodes of the greatest quorum.
fn counting_checker(alloc: Global, greatest: &NodeSet) -> Result<IdleChecker, CertError>
    ensures ok { IfOk result (λ checker. checker ≡ list_checking (counter_vars (size greatest.now)) (formula_database (counter_of (size greatest.now)))) }
    ensures last { IfOk result (λ checker. checker.database.last ≡ size greatest.now * size greatest.now) }
    ensures small { IfOk result (λ _. counter_vars (size greatest.now) ≤ MOST_VARS) }
    ensures err { IfErr result (λ e. (e ≡ CertError.Memory) ⊎ ((e ≡ CertError.TooLarge (counter_vars (size greatest.now))) × (MOST_VARS < counter_vars (size greatest.now)))) }
{
    let names = greatest.count();
    match counter_clauses(alloc, names) {
        Ok(store) => {
            let mut checker = IdleChecker::start(alloc, store, counter_vars(names), Rule::Rup)?;
            checker.expect_covers(alloc);
            Ok(checker)
        }
        Err(EncodeError::TooLarge(vars)) => Err(CertError::TooLarge(vars)),
        Err(EncodeError::Memory) => Err(CertError::Memory),
    }
}

/// The lines begin where the counter has this many variables and clauses.
fn counter_sized(
    alloc: Global,
    kind: ListKind,
    part: ListPart,
    checker: IdleChecker,
    line: u64,
    counts: Counts,
) -> Result<ReachState, CertError>
    requires checker { checker ≡ list_checking (counter_vars (size part.greatest)) (formula_database (counter_of (size part.greatest))) }
    requires last { checker.database.last ≡ size part.greatest * size part.greatest }
    requires small { counter_vars (size part.greatest) ≤ MOST_VARS }
    ensures value { result ≡ counter_sized line kind part counts }
{
    if counts.vars != counter_vars(part.greatest.count()) || counts.clauses != checker.last() {
        drop(part);
        drop(checker);
        return Err(CertError::Formula(line));
    }
    Ok(ReachState::Going(ReachPlace::AtList(Listing {
        sought: Listed::Smaller,
        kind,
        part,
        checker,
        sets: NodeSets::new(alloc),
        units: 0,
    })))
}

/// The line `counter`: the variables and the clauses of the counter of the nodes of the greatest quorum, which is written anew.
/// Linear in its clauses, which are as many as the nodes squared.
pub fn counter_line(
    alloc: Global,
    kind: ListKind,
    part: ListPart,
    line: u64,
    text: &[u8],
) -> Result<ReachState, CertError>
    ensures ok { IfOk result (λ s. counter_line kind part line text.now ≡ Ok s) }
    ensures err { IfErr result (λ e. (e ≡ CertError.Memory) ⊎ (counter_line kind part line text.now ≡ Err e)) }
{
    let Some(counts) = counter_in(text) else {
        drop(part);
        return Err(CertError::BadLine(line));
    };
    match counting_checker(alloc, &part.greatest) {
        Ok(checker) => counter_sized(alloc, kind, part, checker, line, counts),
        Err(fault) => {
            drop(part);
            Err(fault)
        }
    }
}
