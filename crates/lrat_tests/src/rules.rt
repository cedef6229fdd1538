//! Which steps the rule takes, by the plain program that computes the definition.

use crate::shared::{Lemma, REFUSED, TWO_OF_TWO, addition, deletion, lits, same};
use lrat_model::plain::step_fault;
use lrat_model::{Lit, Step};
use std::alloc::{AllocError, Global};
use std::process::Abort;

fn formula(alloc: Global) -> Result<Vec<(u64, Vec<Lit>)>, AllocError> {
    let mut held = Vec::new(alloc);
    for (i, clause) in TWO_OF_TWO.iter().enumerate() {
        held.push((i as u64 + 1, lits(alloc, clause)?))?;
    }
    Ok(held)
}

/// What is said of a step over the formula.
fn said(alloc: Global, held: &[(u64, Vec<Lit>)], step: &Step) -> Result<String, AllocError> {
    match step_fault(alloc, 8, held, 16, step)? {
        None => String::from_str(alloc, "taken"),
        Some(fault) => format!(in alloc; "{fault}"),
    }
}

fn added(alloc: Global, held: &[(u64, Vec<Lit>)], lemma: Lemma) -> Result<String, AllocError> {
    let step = addition(alloc, lemma)?;
    said(alloc, held, &step)
}

static LEMMAS: [(Lemma<'static>, &str); 4] = [
    ((17, &[-1], &[7, 6, 3, 4, 2]), "taken"),
    ((19, &[-1, -1], &[7, 5, 7, 6, 3, 4, 2, -9]), "taken"),
    ((17, &[-1], &[7, 6, 3, 4]), "no-conflict"),
    ((17, &[], &[1]), "not-unit 1"),
];

// Fails the test where something else is said of a lemma.
fn wants_said(rt: &impl Abort, alloc: Global, held: &[(u64, Vec<Lit>)], rows: &[(Lemma, &str)]) {
    for (lemma, want) in rows {
        same(rt, added(alloc, held, *lemma), want);
    }
}

#[test]
fn lemmas_of_two_of_two(rt: HostRuntime) {
    let held = formula(rt.alloc()).expect(&rt, "memory");
    wants_said(&rt, rt.alloc(), &held, &REFUSED);
    wants_said(&rt, rt.alloc(), &held, &LEMMAS);
}

fn deleted(alloc: Global, held: &[(u64, Vec<Lit>)], ids: &[u64]) -> Result<String, AllocError> {
    let step = deletion(alloc, 5, ids)?;
    said(alloc, held, &step)
}

static DELETIONS: [(&[u64], &str); 4] = [
    (&[3, 16], "taken"),
    (&[], "taken"),
    (&[3, 17], "no-such-clause 17"),
    (&[3, 4, 3], "no-such-clause 3"),
];

#[test]
fn deletions(rt: HostRuntime) {
    let held = formula(rt.alloc()).expect(&rt, "memory");
    for (ids, want) in DELETIONS.iter() {
        same(&rt, deleted(rt.alloc(), &held, ids), want);
    }
}
