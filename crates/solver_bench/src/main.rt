//! Solves the formula of a trial configuration and checks the log, to be timed by `bench/solver.py`.
//!
//! `solver_bench N` takes the trial configuration of N organisations, 1 to 100, and prints what was found.
//! `solver_bench file PATH` takes a formula in DIMACS form, and prints the model too where there is one.
#![tactic(auto)]

mod outcome;
mod reading;
mod words;

use crate::outcome::{Outcome, UNITS, outcome_of, outcome_of_text};
use crate::words::{Task, asked, organisations_of};
use anyhow::Result;
use std::fs;

fn main(rt: HostRuntime) -> Result<()> {
    match asked(&rt)? {
        Task::File(path) => solve_file(&rt, path.as_str()),
        Task::Trial(word) => solve_trial(&rt, word.as_str()),
    }
}

fn solve_file(rt: &HostRuntime, path: &str) -> Result<()> {
    let text = fs::read_to_string(rt, path)?;
    let found = outcome_of_text(rt.alloc(), text.as_str(), UNITS)?;
    tell(rt, &found)?;
    tell_model(rt, &found.model)
}

fn solve_trial(rt: &HostRuntime, word: &str) -> Result<()> {
    let organisations = organisations_of(word)?;
    let found = outcome_of(rt.alloc(), organisations, UNITS)?;
    print!(rt; "organisations {organisations}, ")?;
    tell(rt, &found)
}

/// Prints what was found.
fn tell(rt: &HostRuntime, found: &Outcome) -> Result<()> {
    println!(rt;
        "variables {}, clauses {}, verdict {:?}, lemmas {}, refuted {}",
        found.variables, found.clauses, found.verdict, found.lemmas, found.is_refuted,
    )?;
    Ok(())
}

/// Prints the literals that a model makes true, where there is one.
fn tell_model(rt: &HostRuntime, model: &[bool]) -> Result<()> {
    let mut x: u64 = 0;
    for value in model {
        x = x.saturating_add(1);
        let sign = if *value { "" } else { "-" };
        print!(rt; "{sign}{x} ")?;
    }
    println!(rt; "0")?;
    Ok(())
}
