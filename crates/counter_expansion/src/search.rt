//! The gates of a formula that are worth writing out.

use crate::counters::Counter;
use crate::reading::read_counter;
use clause_store::{Lit, Store};
use std::alloc::{AllocError, Global};

/// The most inputs of a gate that is written out.
const MOST_INPUTS: u32 = 32;

/// The most sets of inputs that a whole gate may have.
const MOST_SETS: u64 = 1 << 14;

/// The most clauses that the sets of all whole gates may take, for all their heads.
const MOST_CLAUSES: u64 = 1 << 20;

/// This many rows are written out of the counter of a gate whose sets are too many: that takes fewer than 128 clauses.
const FIRST_ROWS: usize = 7;

/// What a variable is to the counters that were found.
#[derive(Clone, Copy)]
enum Role {
    /// None of their places.
    Outer,
    /// A place of one, and not its last.
    Inner,
    /// The last place of the counter with this number, from 0 on.
    Output(usize),
}

/// The number of sets of n - k + 1 of n inputs. As much as a number holds stands for more.
fn count_of_sets(n: u64, k: u64) -> u64 {
    let mut count: u64 = 1;
    for i in 0..n.saturating_add(1).saturating_sub(k) {
        count = count.saturating_mul(n.saturating_sub(i)) / (i + 1);
    }
    count
}

/// Whether a counter was read to its end.
fn is_whole(counter: &Counter) -> bool {
    counter.inputs.len() as u64 <= u64::from(MOST_INPUTS)
}

/// How many clauses are left when a gate is written out whole, if its sets of inputs are not too many.
fn left_behind(counter: &Counter, left: u64) -> Option<u64> {
    let sets = count_of_sets(counter.inputs.len() as u64, counter.threshold as u64);
    if sets > MOST_SETS {
        return None;
    }
    left.checked_sub(sets.saturating_mul(counter.heads.len() as u64))
}

/// The whole counters in the order of their clauses, without heads.
fn whole_counters(alloc: Global, formula: &Store) -> Result<Vec<Counter>, AllocError> {
    let mut counters = Vec::new(alloc);
    let mut next = 1;
    for before in 0..formula.last() {
        let id = before + 1;
        if id < next {
            continue;
        }
        if let Some(counter) = read_counter(alloc, formula, id, MOST_INPUTS + 1)? {
            next = counter.end;
            if is_whole(&counter) {
                counters.push(counter)?;
            }
        }
    }
    Ok(counters)
}

/// The id past the clauses of the first rows of a counter.
fn end_of_rows(counter: &Counter, rows: usize) -> u64 {
    let mut end = counter.start;
    for before in 0..rows {
        let width = before.saturating_add(1).min(counter.threshold) as u64;
        end = end.saturating_add(width.saturating_mul(2).saturating_sub(1));
    }
    end
}

/// The counter, if as many clauses are left as its gate takes; else its first rows.
fn part_of(alloc: Global, counter: Counter, left: &mut u64) -> Counter {
    if let Some(behind) = left_behind(&counter, *left) {
        *left = behind;
        return counter;
    }
    let end = end_of_rows(&counter, FIRST_ROWS);
    let Counter {
        threshold,
        mut inputs,
        mut rows,
        start,
        ..
    } = counter;
    inputs.truncate(FIRST_ROWS);
    rows.truncate(FIRST_ROWS);
    Counter {
        threshold,
        inputs,
        rows,
        keeps_last: true,
        heads: Vec::new(alloc),
        head_ids: Vec::new(alloc),
        start,
        end,
    }
}

/// How many variables a counter has: each has a first clause, and each but the first of a row a second.
fn count_of_variables(counter: &Counter) -> u64 {
    let clauses = counter.end.saturating_sub(counter.start);
    let rows = counter.inputs.len() as u64;
    clauses.saturating_add(rows) / 2
}

/// How many variables go where the counter is written out.
fn count_of_places(counter: &Counter) -> u64 {
    let all = count_of_variables(counter);
    if counter.keeps_last {
        all.saturating_sub(counter.inputs.len().min(counter.threshold) as u64)
    } else {
        all
    }
}

/// Whether half of the variables are those of the counters. Where fewer are, most counters are left, and a search that knows few
/// of the gates gains nothing.
fn are_most(counters: &[Counter], vars: u64) -> bool {
    let mut count: u64 = 0;
    for counter in counters {
        count = count.saturating_add(count_of_variables(counter));
    }
    count >= vars / 2
}

/// Whether an eighth of the variables goes where the counters are written out. Where fewer do, it gains nothing.
fn go_many(counters: &[Counter], vars: u64) -> bool {
    let mut count: u64 = 0;
    for counter in counters {
        count = count.saturating_add(count_of_places(counter));
    }
    count >= vars / 8
}

/// Gives a variable a role, where it is in the table.
fn set_role(roles: &mut [Role], variable: u32, role: Role) {
    if let Some(there) = roles.get_mut(variable as usize) {
        *there = role;
    }
}

/// Marks this many variables from the first on as places.
fn mark_row(roles: &mut [Role], first: u32, width: u32) {
    for j in 0..width {
        set_role(roles, first.saturating_add(j), Role::Inner);
    }
}

/// Marks the places of a counter, and its output.
fn mark_counter(roles: &mut [Role], number: usize, counter: &Counter) {
    let mut width: u32 = 0;
    let mut output = 0;
    for first in &counter.rows {
        if (width as usize) < counter.threshold {
            width = width.saturating_add(1);
        }
        mark_row(roles, *first, width);
        output = first.saturating_add(width.saturating_sub(1));
    }
    set_role(roles, output, Role::Output(number));
}

/// The role of each variable, at its number.
fn roles_of(alloc: Global, counters: &[Counter], vars: u64) -> Result<Vec<Role>, AllocError> {
    let Some(size) = vars.checked_add(1) else {
        return Err(AllocError);
    };
    let mut roles = Vec::new(alloc);
    roles.resize(size as usize, Role::Outer)?;
    for (number, counter) in counters.iter().enumerate() {
        mark_counter(&mut roles, number, counter);
    }
    Ok(roles)
}

/// The role of a literal's variable.
fn role_of(roles: &[Role], lit: Lit) -> Role {
    match roles.get(lit.variable() as usize) {
        Some(role) => *role,
        None => Role::Outer,
    }
}

/// The number of the counter whose output this literal is.
fn output_of(roles: &[Role], lit: Lit) -> Option<usize> {
    match role_of(roles, lit) {
        Role::Output(number) if lit.number() > 0 => Some(number),
        _ => None,
    }
}

/// The variable of a literal that is the negation of one that is no place.
fn outer_denied(roles: &[Role], lit: Lit) -> Option<u32> {
    match role_of(roles, lit) {
        Role::Outer if lit.number() < 0 => Some(lit.variable()),
        _ => None,
    }
}

/// The head of a clause of two literals, where these are its negation and this output.
fn head_of(roles: &[Role], lits: &[Lit], output: Lit) -> Option<u32> {
    if lits.len() != 2 {
        return None;
    }
    let first = *lits.first()?;
    let last = *lits.last()?;
    let other = if first.same(output) { last } else { first };
    outer_denied(roles, other)
}

/// Sees a clause in which this literal is a counter's output: the counter has one more head, or it is shared.
fn see_use(
    counter: &mut Counter,
    shared: &mut bool,
    id: u64,
    head: Option<u32>,
) -> Result<(), AllocError> {
    match head {
        Some(head) => {
            counter.heads.push(head)?;
            counter.head_ids.push(id)?;
        }
        None => *shared = true,
    }
    Ok(())
}

/// Sees the outputs of counters in a clause.
fn see_clause(
    counters: &mut [Counter],
    shared: &mut [bool],
    roles: &[Role],
    id: u64,
    lits: &[Lit],
) -> Result<(), AllocError> {
    for lit in lits {
        if let Some(number) = output_of(roles, *lit)
            && let Some(counter) = counters.get_mut(number)
            && let Some(is_shared) = shared.get_mut(number)
        {
            see_use(counter, is_shared, id, head_of(roles, lits, *lit))?;
        }
    }
    Ok(())
}

/// Gives the counters their heads, and tells which of them are used otherwise.
fn see_clauses(
    alloc: Global,
    formula: &Store,
    vars: u64,
    counters: &mut Vec<Counter>,
) -> Result<Vec<bool>, AllocError> {
    let roles = roles_of(alloc, counters, vars)?;
    let mut shared = Vec::new(alloc);
    shared.resize(counters.len(), false)?;
    for before in 0..formula.last() {
        let id = before + 1;
        if let Some(lits) = formula.lits(id) {
            see_clause(counters, &mut shared, &roles, id, lits)?;
        }
    }
    Ok(shared)
}

/// The counters that are read whole and named by nothing but their heads' clauses.
fn own_counters(alloc: Global, formula: &Store, vars: u64) -> Result<Vec<Counter>, AllocError> {
    let mut counters = whole_counters(alloc, formula)?;
    let shared = see_clauses(alloc, formula, vars, &mut counters)?;
    let mut found = Vec::new(alloc);
    for (counter, is_shared) in counters.into_iter().zip(shared) {
        if !is_shared && !counter.heads.is_empty() {
            found.push(counter)?;
        }
    }
    Ok(found)
}

/// The gates with counters that are named by nothing but their heads' clauses, of at most 32 inputs: whole where
/// they have at most 16,384 sets of inputs, and these take no more than a million clauses in all; of others the first seven rows
/// of their counters. None where fewer than half of the
/// variables are theirs, or fewer than an eighth go. They stand in the order of their clauses. The ids of the formula are dense
/// from 1 on, and its variables are at most `vars`, else gates may be missed. Time is linear in the literals and `vars`, memory
/// in `vars` and the gates.
pub fn find_counters(
    alloc: Global,
    formula: &Store,
    vars: u64,
) -> Result<Vec<Counter>, AllocError> {
    let counters = own_counters(alloc, formula, vars)?;
    if !are_most(&counters, vars) {
        return Ok(Vec::new(alloc));
    }
    let mut parts = Vec::new(alloc);
    let mut left = MOST_CLAUSES;
    for counter in counters {
        parts.push(part_of(alloc, counter, &mut left))?;
    }
    if go_many(&parts, vars) {
        Ok(parts)
    } else {
        Ok(Vec::new(alloc))
    }
}

/// Whether the formula has gates that are worth writing out, as `find_counters` finds them. Costs what that does, and nothing
/// is written.
pub fn has_gates(alloc: Global, formula: &Store, vars: u64) -> Result<bool, AllocError> {
    let counters = find_counters(alloc, formula, vars)?;
    Ok(!counters.is_empty())
}
