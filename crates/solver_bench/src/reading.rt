//! Reads a formula in DIMACS form, as other solvers take it.
ghost use Rattle.std.specs.Prelude.{◌≡◌, ◌<◌, ◌^◌, true, IfOk};
ghost use Rattle.lrat_model.specs.Ranges.{AreInRange, IsInRange};

use anyhow::{Context, Result, bail};
use clause_store::Store;
use lrat_model::Lit;
use std::alloc::Global;

/// The clauses of a text, under the ids from 1 on, and how many variables it names. Its first line other than
/// comments says how many there are; each clause is a line that ends with 0.
pub fn read_dimacs(alloc: Global, text: &str) -> Result<(Store, u64)>
    ensures small { IfOk result (λ r. r.1 < 2 ^ 31) }
    ensures range { IfOk result (λ r. AreInRange r.1 r.0.held) }
{
    let vars = read_header(text)?;
    let store = read_clauses(alloc, text, vars)?;
    Ok((store, vars))
}

/// The number of variables.
fn read_header(text: &str) -> Result<u64>
    ensures { IfOk result (λ vars. vars < 2 ^ 31) }
{
    for line in text.lines() {
        if let Some(rest) = line.strip_prefix("p cnf ") {
            return variables_of(rest);
        }
    }
    bail!("no line 'p cnf'");
}

/// The first number after the words of the header.
fn variables_of(rest: &str) -> Result<u64>
    ensures { IfOk result (λ vars. vars < 2 ^ 31) }
{
    let Some(word) = rest.split_whitespace().next() else {
        bail!("how many variables?");
    };
    let vars: u64 = word.parse().context("the number of variables")?;
    if vars >= 1 << 31 {
        bail!("too many variables");
    }
    Ok(vars)
}

/// The clauses of all lines but comments and the header.
fn read_clauses(alloc: Global, text: &str, vars: u64) -> Result<Store>
    ensures { IfOk result (λ store. AreInRange vars store.held) }
{
    let mut store = Store::new(alloc);
    for line in text.lines() {
        if line.starts_with("c") || line.starts_with("p") {
            continue;
        }
        let clause = read_clause(alloc, line)?;
        let last = store.last();
        if last >= 1 << 40 || !are_in_range(&clause, vars) {
            bail!("a variable out of range");
        }
        store.push(last + 1, &clause)?;
    }
    Ok(store)
}

/// The literals of a line.
fn read_clause(alloc: Global, line: &str) -> Result<Vec<Lit>> {
    let mut lits = Vec::new(alloc);
    for word in line.split_whitespace() {
        let number: i32 = word.parse().context("a literal")?;
        if number != 0 && number != i32::MIN {
            lits.push(Lit::of(number))?;
        }
    }
    Ok(lits)
}

/// Whether each variable is one of the first.
fn are_in_range(lits: &[Lit], vars: u64) -> bool
    ensures { result ≡ true → IsInRange vars lits.now }
{
    lits.iter().all(|l| l.variable() as u64 <= vars)
}
