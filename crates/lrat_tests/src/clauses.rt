//! Clauses under ids, put in, found and removed.

use crate::shared::{lits, same};
use clause_store::{ClauseView, LongRef, Store};
use lrat_model::Lit;
use std::alloc::{AllocError, Global};

static PUSHED: [(u64, &[i32]); 4] = [(2, &[1, -2]), (5, &[]), (9, &[3]), (10, &[-1, -3, 2])];

/// Puts a clause in, if its id is above those that are.
fn push(store: &mut Store, id: u64, clause: &[Lit]) -> Result<(), AllocError> {
    if store.last() < id {
        store.push(id, clause)?;
    }
    Ok(())
}

fn store(alloc: Global, pushed: &[(u64, &[i32])]) -> Result<Store, AllocError> {
    let mut store = Store::new(alloc);
    for (id, numbers) in pushed {
        push(&mut store, *id, &lits(alloc, numbers)?)?;
    }
    Ok(store)
}

fn push_clause(alloc: Global, text: &mut String, id: u64, lits: &[Lit]) -> Result<(), AllocError> {
    text.push_str(&format!(in alloc; " {id}:{lits:?}")?)
}

/// What is held, in the order of ids.
fn shown(alloc: Global, store: &Store) -> Result<String, AllocError> {
    let mut text = format!(in alloc; "last {}", store.last())?;
    let mut above = 0;
    for _ in 0..PUSHED.len() {
        if let Some((id, lits)) = store.first_above(above) {
            push_clause(alloc, &mut text, id, lits)?;
            above = id;
        }
    }
    Ok(text)
}

/// The first of the ids that is missing, or 0, and what is held once they are removed.
fn left(alloc: Global, ids: &[u64]) -> Result<String, AllocError> {
    let mut store = store(alloc, &PUSHED)?;
    let missing = store.remove_all(ids).err().unwrap_or(0);
    let held = shown(alloc, &store);
    drop(store);
    format!(in alloc; "{missing} missing, {}", held?)
}

static REMOVED: [(&[u64], &str); 7] = [
    (
        &[],
        "0 missing, last 10 2:[Lit(1), Lit(-2)] 5:[] 9:[Lit(3)] 10:[Lit(-1), Lit(-3), Lit(2)]",
    ),
    (
        &[10],
        "0 missing, last 10 2:[Lit(1), Lit(-2)] 5:[] 9:[Lit(3)]",
    ),
    (
        &[9, 2],
        "0 missing, last 10 5:[] 10:[Lit(-1), Lit(-3), Lit(2)]",
    ),
    (&[10, 2], "0 missing, last 10 5:[] 9:[Lit(3)]"),
    (&[2, 9, 10, 5], "0 missing, last 10"),
    (
        &[9, 3, 2],
        "3 missing, last 10 2:[Lit(1), Lit(-2)] 5:[] 9:[Lit(3)] 10:[Lit(-1), Lit(-3), Lit(2)]",
    ),
    (
        &[9, 2, 9],
        "9 missing, last 10 2:[Lit(1), Lit(-2)] 5:[] 9:[Lit(3)] 10:[Lit(-1), Lit(-3), Lit(2)]",
    ),
];

#[test]
fn ids_with_gaps(rt: HostRuntime) {
    for (ids, want) in REMOVED.iter() {
        same(&rt, left(rt.alloc(), ids), want);
    }
}

fn push_number(alloc: Global, text: &mut String, l: Lit) -> Result<(), AllocError> {
    text.push_str(&format!(in alloc; " {l}")?)
}

fn numbers<V: ClauseView>(alloc: Global, clause: &V) -> Result<String, AllocError> {
    let mut text = String::new(alloc);
    for i in 0..clause.len() {
        push_number(alloc, &mut text, clause.at(i))?;
    }
    Ok(text)
}

fn viewed<const K: usize>(alloc: Global, store: &Store, id: u64) -> Result<String, AllocError> {
    match store.view::<K>(id) {
        Some(clause) => numbers(alloc, &clause),
        None => String::from_str(alloc, "none"),
    }
}

/// The first three clauses of the intersection formula of three nodes of which each needs two.
static THREE: [(u64, &[i32]); 3] = [(1, &[1, 2, 3]), (2, &[4, 5, 6]), (3, &[-1, -4])];

/// The clause under an id as one of that width, 2 or 3, once another is removed.
fn of_width(alloc: Global, removed: u64, width: u32, id: u64) -> Result<String, AllocError> {
    let mut store = store(alloc, &THREE)?;
    store.remove(removed);
    let shown = if width == 2 {
        viewed::<2>(alloc, &store, id)
    } else {
        viewed::<3>(alloc, &store, id)
    };
    drop(store);
    shown
}

static WIDTHS: [(u64, u32, u64, &str); 4] = [
    (0, 3, 1, " 1 2 3"),
    (0, 2, 1, "none"),
    (0, 2, 3, " -1 -4"),
    (3, 2, 3, "none"),
];

#[test]
fn clauses_of_a_width(rt: HostRuntime) {
    for (removed, width, id, want) in WIDTHS.iter() {
        same(&rt, of_width(rt.alloc(), *removed, *width, *id), want);
    }
}

#[test]
fn a_clause_of_a_list(rt: HostRuntime) {
    let lits = [Lit::of(5), Lit::of(-7)];
    let found = numbers(rt.alloc(), &LongRef::of(&lits));
    same(&rt, found, " 5 -7");
}

/// How long the clause under an id was, whether it was removed, whether it is gone, and the last id.
fn removed(alloc: Global, store: &mut Store, id: u64) -> Result<String, AllocError> {
    let length = store.lits(id).map(|lits| lits.len());
    let found = store.remove(id);
    let is_gone = store.lits(id).is_none();
    format!(in alloc; "{length:?} {found} {is_gone} {}", store.last())
}

static ONE_BY_ONE: [(u64, &str); 5] = [
    (4, "None false true 10"),
    (9, "Some(1) true true 10"),
    (9, "None false true 10"),
    (10, "Some(3) true true 10"),
    (11, "None false true 10"),
];

#[test]
fn one_removed(rt: HostRuntime) {
    let alloc = rt.alloc();
    let mut store = store(alloc, &PUSHED).expect(&rt, "memory");
    for (id, want) in ONE_BY_ONE.iter() {
        same(&rt, removed(alloc, &mut store, *id), want);
    }
    drop(store);
}
