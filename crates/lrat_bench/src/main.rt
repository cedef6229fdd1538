//! Reads step lines from standard input and feeds them to the checker, to be timed by `bench/lrat.py`.
//!
//! `lrat_bench VARS GIVEN` takes the first GIVEN lines, additions, as the clauses of a formula over VARS variables,
//! and the others as steps, which may have RAT hints; `lrat_bench VARS GIVEN covers` also asks of each lemma whether a clause
//! covers it. Without words it only reads the lines. `lrat_bench log COUNT` makes a log of this many lemmas of 20 literals and
//! 100 hints, and counts its numbers.
#![tactic(auto)]

ghost use Rattle.std.specs.Prelude.{◌≡◌, ◌<◌, ◌^◌, IfOk};
ghost use Rattle.std.specs.Bool.{OnTrue};
ghost use Rattle.lrat_model.specs.Ranges.{IsInRange};

use anyhow::{Context, Result, bail};
use clause_store::Store;
use lrat_checker::IdleChecker;
use lrat_model::{Lit, Rule, Step};
use lrat_text::{HintsRef, Log, StepRef, read_step};
use std::alloc::Global;
use std::env;
use std::io::{BufRead, BufReader};

/// The greatest variable that a literal may have.
const MOST_VARIABLE: u64 = 2_147_483_647;

/// How many steps there were, and how many lemmas that a clause covered.
#[derive(Clone, Copy)]
struct Counts {
    additions: u64,
    deletions: u64,
    covered: u64,
}

impl Counts {
    fn none() -> Counts {
        Counts {
            additions: 0,
            deletions: 0,
            covered: 0,
        }
    }

    fn count(&mut self, step: &Step) {
        match step {
            Step::Add { .. } => self.additions = self.additions.saturating_add(1),
            Step::Delete { .. } => self.deletions = self.deletions.saturating_add(1),
        }
    }
}

fn in_range(lits: &[Lit], vars: u64) -> bool
    ensures { OnTrue result (IsInRange vars lits.now) }
{
    lits.iter().all(|l| u64::from(l.variable()) <= vars)
}

/// Takes a clause of the formula.
fn give(checker: &mut IdleChecker, vars: u64, step: &Step) -> Result<()>
    requires { checker.old.vars ≡ vars }
    ensures { checker.new.vars ≡ vars }
{
    let Step::Add { id, lits, hints: _ } = step else {
        bail!("no clause");
    };
    if *id <= checker.last() || !in_range(lits, vars) {
        bail!("no clause of the formula");
    }
    checker.give(*id, lits)?;
    Ok(())
}

/// Reads the next step, if a line is left.
fn next_step<R: BufRead>(alloc: Global, input: &mut R, line: &mut Vec<u8>) -> Result<Option<Step>> {
    line.clear();
    if input.read_until(b'\n', line)? == 0 {
        return Ok(None);
    }
    let text = line.strip_suffix(b"\n").unwrap_or(line);
    Ok(Some(read_step(alloc, text)?))
}

/// Reads all lines.
fn read_all<R: BufRead>(alloc: Global, input: &mut R) -> Result<Counts> {
    let mut counts = Counts::none();
    let mut line = Vec::new(alloc);
    for _ in 0..u64::MAX {
        let Some(step) = next_step(alloc, input, &mut line)? else {
            break;
        };
        counts.count(&step);
    }
    Ok(counts)
}

/// Whether a clause covers a lemma.
fn is_covered(checker: &IdleChecker, step: &Step) -> bool {
    match step {
        Step::Add { id, lits, hints: _ } => checker.covers(*id, lits),
        Step::Delete { .. } => false,
    }
}

/// Takes a step after the formula. Where `asks` is so, a lemma is asked about first.
fn take(checker: &mut IdleChecker, counts: &mut Counts, step: &Step, asks: bool) -> Result<()>
    ensures { checker.new.vars ≡ checker.old.vars }
{
    if asks && is_covered(checker, step) {
        counts.covered = counts.covered.saturating_add(1);
    }
    checker.step(step)?;
    counts.count(step);
    Ok(())
}

/// Takes the formula and then each step.
fn take_all<R: BufRead>(
    alloc: Global,
    input: &mut R,
    checker: &mut IdleChecker,
    vars: u64,
    given: u64,
    asks: bool,
) -> Result<Counts>
    requires { checker.old.vars ≡ vars }
{
    let mut counts = Counts::none();
    let mut line = Vec::new(alloc);
    for number in 0..u64::MAX {
        let Some(step) = next_step(alloc, input, &mut line)? else {
            break;
        };
        if number < given {
            give(checker, vars, &step)?;
        } else {
            take(checker, &mut counts, &step, asks)?;
        }
    }
    Ok(counts)
}

/// Starts a checker, which is lent to what takes the formula and the steps.
fn check_all<R: BufRead>(
    alloc: Global,
    input: &mut R,
    vars: u64,
    given: u64,
    asks: bool,
) -> Result<Counts>
    requires { vars < 2 ^ 31 }
{
    let mut checker = IdleChecker::start(alloc, Store::new(alloc), vars, Rule::Rat)?;
    if asks {
        checker.expect_covers(alloc);
    }
    take_all(alloc, input, &mut checker, vars, given, asks)
}

/// Makes a log of lemmas of 20 literals and 100 hints, and gives its length and how many literals and hints it has.
fn fill_log(alloc: Global, count: u32) -> Result<(usize, u64)> {
    let mut log = Log::new(alloc);
    let mut lits = Vec::new(alloc);
    for variable in 1..21_u32 {
        lits.push(Lit::positive(variable))?;
    }
    for id in 0..count {
        let mut hints = Vec::new(alloc);
        for place in 0..100_u32 {
            hints.push(i64::from(id) + i64::from(place) + 1)?;
        }
        log.push_addition(u64::from(id) + 1, &lits, &hints)?;
    }
    Ok((log.len(), count_numbers(&log)))
}

/// How many literals and hints the lemmas have.
fn count_numbers(log: &Log) -> u64 {
    let mut numbers: u64 = 0;
    for place in 0..log.len() {
        if let StepRef::Add { id: _, lits, hints } = log.step(place) {
            let hints = match hints {
                HintsRef::Short(ids) => ids.len(),
                HintsRef::Wide(ids) => ids.len(),
            };
            numbers = numbers
                .saturating_add(lits.len() as u64)
                .saturating_add(hints as u64);
        }
    }
    numbers
}

/// The numbers of a log, as two lines.
fn show_log(rt: &HostRuntime, count: &str) -> Result<()> {
    let count: u32 = count.parse().context("the number of lemmas")?;
    let (steps, numbers) = fill_log(rt.alloc(), count)?;
    println!(rt; "steps {steps}")?;
    println!(rt; "numbers {numbers}")?;
    Ok(())
}

/// The number of variables.
fn variables_of(word: &str) -> Result<u64>
    ensures { IfOk result (λ vars. vars < 2 ^ 31) }
{
    let vars: u64 = word.parse().context("the number of variables")?;
    if vars > MOST_VARIABLE {
        bail!("too many variables");
    }
    Ok(vars)
}

/// Reads the formula and the steps, and checks them.
fn check_input(rt: &HostRuntime, vars: &str, given: &str, asks: bool) -> Result<Counts> {
    let vars = variables_of(vars)?;
    let given: u64 = given.parse().context("the number of clauses")?;
    let mut input = BufReader::new(rt.alloc(), rt.reader())?;
    check_all(rt.alloc(), &mut input, vars, given, asks)
}

/// Only reads the steps.
fn read_input(rt: &HostRuntime) -> Result<Counts> {
    let mut input = BufReader::new(rt.alloc(), rt.reader())?;
    read_all(rt.alloc(), &mut input)
}

/// The counts, as three lines.
fn show_counts(rt: &HostRuntime, counts: Counts) -> Result<()> {
    println!(rt; "additions {}", counts.additions)?;
    println!(rt; "deletions {}", counts.deletions)?;
    println!(rt; "covered {}", counts.covered)?;
    Ok(())
}

fn run(rt: &HostRuntime, first: Option<&str>, second: Option<&str>, asks: bool) -> Result<()> {
    match (first, second) {
        (Some("log"), Some(count)) => show_log(rt, count),
        (Some(vars), Some(given)) => show_counts(rt, check_input(rt, vars, given, asks)?),
        _ => show_counts(rt, read_input(rt)?),
    }
}

fn main(rt: HostRuntime) -> Result<()> {
    let mut words = env::args(&rt)?;
    words.next();
    let (first, second) = (words.next(), words.next());
    let asks = words.next().is_some();
    run(&rt, first.as_deref(), second.as_deref(), asks)
}
