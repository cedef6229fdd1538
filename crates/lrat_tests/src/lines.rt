//! Step lines, read and written.
ghost use Rattle.lrat_model.specs.Steps.{step_of};
ghost use Rattle.lrat_text.specs.Texts.{HasNumbers};

use crate::shared::{lits, same};
use lrat_model::Step;
use lrat_text::{Log, read_step, write_step};
use std::alloc::{AllocError, Global};

/// What a line is read as, or its fault.
fn shown(alloc: Global, line: &str) -> Result<String, AllocError> {
    match read_step(alloc, line.as_bytes()) {
        Ok(Step::Add { id, lits, hints }) => format!(in alloc; "{id} + {lits:?} {hints:?}"),
        Ok(Step::Delete { id, ids }) => format!(in alloc; "{id} - {ids:?}"),
        Err(fault) => format!(in alloc; "{fault:?}"),
    }
}

static LINES: [(&str, &str); 25] = [
    ("17 -1 0 7 6 3 4 2 0", "17 + [Lit(-1)] [7, 6, 3, 4, 2]"),
    ("3 0 1 0", "3 + [] [1]"),
    (" \t8\t0  0 ", "8 + [] []"),
    (
        "7 2147483647 -2147483647 0 -9223372036854775807 0",
        "7 + [Lit(2147483647), Lit(-2147483647)] [-9223372036854775807]",
    ),
    (
        "9223372036854775807 d 17 1 0",
        "9223372036854775807 - [17, 1]",
    ),
    ("5 d 0", "5 - []"),
    ("", "NoZero"),
    (" \t", "NoZero"),
    ("3", "NoZero"),
    ("3 1 0 1", "NoZero"),
    ("3 d 1", "NoZero"),
    ("0 1 0 1 0", "BadNumber"),
    ("-3 1 0 1 0", "BadNumber"),
    ("9223372036854775808 0 0", "BadNumber"),
    ("3 -0 0 1 0", "BadNumber"),
    ("3 +1 0 1 0", "BadNumber"),
    ("3 01 0 1 0", "BadNumber"),
    ("3 2147483648 0 1 0", "BadNumber"),
    ("3 1 0 -9223372036854775808 0", "BadNumber"),
    ("3 d -1 0", "BadNumber"),
    ("3 1 d 0", "BadNumber"),
    ("d 1 0", "BadNumber"),
    ("3 1\r 0 1 0", "BadNumber"),
    ("3 1 0 1 0 0", "Extra"),
    ("3 d 1 0 x", "Extra"),
];

#[test]
fn lines_are_read_to_a_step_or_to_the_first_fault(rt: HostRuntime) {
    for (line, want) in LINES.iter() {
        same(&rt, shown(rt.alloc(), line), want);
    }
}

/// The line that is written of a step.
fn text(alloc: Global, step: &Step) -> Result<String, AllocError>
    requires { HasNumbers (step_of step.now) }
{
    let mut text = String::new(alloc);
    for byte in write_step(step) {
        text.push(byte as char)?;
    }
    Ok(text)
}

fn addition(alloc: Global) -> Result<String, AllocError> {
    let step = Step::Add {
        id: 17,
        lits: lits(alloc, &[-1, 2147483647])?,
        hints: Vec::from_slice(alloc, &[7, -6, 9223372036854775807])?,
    };
    text(alloc, &step)
}

#[test]
fn an_addition_is_written(rt: HostRuntime) {
    let want = "17 -1 2147483647 0 7 -6 9223372036854775807 0";
    same(&rt, addition(rt.alloc()), want);
}

fn empty_lemma(alloc: Global) -> Result<String, AllocError> {
    let step = Step::Add {
        id: 3,
        lits: Vec::new(alloc),
        hints: Vec::from_slice(alloc, &[1])?,
    };
    text(alloc, &step)
}

#[test]
fn the_empty_lemma_is_written(rt: HostRuntime) {
    same(&rt, empty_lemma(rt.alloc()), "3 0 1 0");
}

fn deletion(alloc: Global) -> Result<String, AllocError> {
    let step = Step::Delete {
        id: 17,
        ids: Vec::from_slice(alloc, &[17, 1])?,
    };
    text(alloc, &step)
}

fn deletion_read_back(alloc: Global) -> Result<String, AllocError> {
    let line = deletion(alloc)?;
    shown(alloc, &line)
}

#[test]
fn a_deletion_is_written(rt: HostRuntime) {
    same(&rt, deletion(rt.alloc()), "17 d 17 1 0");
    same(&rt, deletion_read_back(rt.alloc()), "17 - [17, 1]");
}

/// A log of the steps of these lines.
fn log(alloc: Global, lines: &[&str]) -> Result<Log, AllocError> {
    let mut log = Log::new(alloc);
    for line in lines {
        if let Ok(step) = read_step(alloc, line.as_bytes()) {
            log.push(step)?;
        }
    }
    Ok(log)
}

/// What a log lends, as a step of its own.
fn lent(alloc: Global, log: &Log, place: usize) -> Result<String, AllocError> {
    if place < log.len() {
        let step = log.step(place).to_step(alloc)?;
        format!(in alloc; "{step:?}")
    } else {
        String::from_str(alloc, "none")
    }
}

static LOGGED: [&str; 4] = [
    "3 2 -1 0 4294967295 1 0",
    "4 0 3 4294967296 0",
    "4 d 1 3 0",
    "5 0 0",
];

static LENT: [&str; 5] = [
    "Add { id: 3, lits: [Lit(2), Lit(-1)], hints: [4294967295, 1] }",
    "Add { id: 4, lits: [], hints: [3, 4294967296] }",
    "Delete { id: 4, ids: [1, 3] }",
    "Add { id: 5, lits: [], hints: [] }",
    "none",
];

#[test]
fn steps_are_logged(rt: HostRuntime) {
    let log = log(rt.alloc(), &LOGGED).expect(&rt, "memory");
    for (place, want) in LENT.iter().enumerate() {
        same(&rt, lent(rt.alloc(), &log, place), want);
    }
}
