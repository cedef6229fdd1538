//! The plan that counts both sides: of small gates each pair of counts that come to more than their inputs, of others their
//! rows from the last one down.

use crate::matches::Matcher;
use crate::rivals::has_own_rival;
use crate::sides::{Side, range_of, read_side};
use clause_store::Store;
use counter_expansion::has_gates;
use search_heuristics::{CounterRows, Plan, PlannedGroups};
use std::alloc::{AllocError, Global};

/// This many groups for each clause of the formula are looked at, and no more.
const GROUPS_PER_CLAUSE: u64 = 16;

/// For this many clauses a lemma may come before the plan is dropped.
const CLAUSES_PER_LEMMA: u64 = 4;

/// Whether some pair of members, one of each side, has gates that exclude each other. Linear in the clauses.
pub fn has_rivals(alloc: Global, formula: &Store, vars: u64) -> Result<bool, AllocError> {
    let side = read_side(alloc, formula, range_of(formula, vars, true))?;
    has_own_rival(alloc, &side)
}

/// The plan for an intersection formula of version 2 or 3 among this many variables, if it is worth following: where half of all pairs
/// of members, one of each side, have gates that exclude each other; or any, if there are no gates worth writing out.
pub fn plan_of(alloc: Global, formula: &Store, vars: u64) -> Result<Option<Plan>, AllocError> {
    let first = read_side(alloc, formula, range_of(formula, vars, true))?;
    if !has_own_rival(alloc, &first)? {
        return Ok(None);
    }
    let other = read_side(alloc, formula, range_of(formula, vars, false))?;
    let left = formula.last().saturating_mul(GROUPS_PER_CLAUSE) as usize;
    let mut matcher = Matcher::new(alloc, &first, &other, left)?;
    matcher.match_all()?;
    if !is_half(matcher.count_of_pairs(), first.range.members) && has_gates(alloc, formula, vars)? {
        return Ok(None);
    }
    let parts = matcher.into_parts();
    let counters = counters_of(alloc, first, other)?;
    let lemmas = formula.last() / CLAUSES_PER_LEMMA;
    Ok(Some(Plan::of(alloc, PlannedGroups::of(counters, parts), left, lemmas)))
}

/// Whether this many pairs of members, one of each side, are half of all.
fn is_half(pairs: u64, members: u32) -> bool {
    let all = u64::from(members).saturating_mul(u64::from(members));
    pairs.saturating_mul(2) >= all
}

/// The counters of both sides' gates, those of side a first.
fn counters_of(alloc: Global, first: Side, other: Side) -> Result<Vec<CounterRows>, AllocError> {
    let mut counters = Vec::new(alloc);
    for gate in first.gates.into_iter().chain(other.gates) {
        counters.push(CounterRows {
            wanted: gate.wanted,
            rows: gate.rows,
        })?;
    }
    Ok(counters)
}
