//! Lemmas over gates written out, carried over to the formula one by one: each under its new id with new hints, which a checker
//! takes.
ghost use Rattle.std.specs.Prelude.{◌≡◌, ◌+◌, ◌<◌, ◌≤◌, ◌^◌, true, [], None, Ok, IfOk, IfSome, All, map, length, pos};
ghost use Rattle.lrat_model.specs.Ranges.{AreInRange};
ghost use Rattle.lrat_model.specs.Steps.{Addition, step_of};
ghost use Rattle.lrat_text.specs.Texts.{IsId};
ghost use Rattle.expanded_search.specs.Carriers.{AreLitsNowhere, IsReady, Shows, HasChecked, HasLemma, HasDeletion};
ghost use Rattle.expanded_search.specs.Moved.{AreMoved};

use crate::hints::{Bases, END_OF_IDS, Hints};
use clause_store::Store;
use counter_expansion::{Cell, Written, is_outer};
use lrat_checker::{Checker, Rule, Step, StepFault};
use lrat_model::Lit;
use lrat_text::{HintsRef, Log};
use std::alloc::{AllocError, Global};

/// A checker over the formula, where hints are looked up too; the hints of the lemma that is carried; and the log so far.
#[derive(Drop)]
pub struct Carrier {
    pub checker: Checker,
    pub vars: u64,
    pub hints: Hints,
    pub log: Log,
}

impl Carrier {
    /// Nothing is carried over to the formula yet. None where the formula has no clause of its last id, which a copy could not
    /// have then either. Linear in it.
    pub fn start(alloc: Global, formula: &Store, vars: u64) -> Result<Option<Carrier>, AllocError>
        requires small { vars < 2 ^ 31 }
        requires range { AreInRange vars formula.now.held }
        ensures ready { IfOk result (λ found. IfSome found IsReady) }
        ensures database { IfOk result (λ found. IfSome found (λ c. c.checker.database ≡ formula.now)) }
        ensures vars { IfOk result (λ found. IfSome found (λ c. c.vars ≡ vars)) }
        ensures log { IfOk result (λ found. IfSome found (λ c. c.log ≡ [])) }
    {
        let hints = Hints::new(alloc, vars)?;
        let Some(checker) = checker_of(alloc, formula, vars)? else {
            return Ok(None);
        };
        Ok(Some(Carrier {
            checker,
            vars,
            hints,
            log: Log::new(alloc),
        }))
    }

    /// Shows a lemma over the formula, if hints are found that do: the step that adds it. The checker has taken it then, and
    /// it is not logged yet.
    pub fn show(
        &mut self,
        alloc: Global,
        written: &Written,
        bases: Bases,
        lits: &[Lit],
        hints: HintsRef<'_>,
    ) -> Result<Option<Step>, AllocError>
        requires ready { IsReady self.old }
        ensures shows { IfOk result (λ found. IfSome found (Shows written.now.cells.items self.old.vars self.old.checker.database lits.now)) }
        ensures checked { IfOk result (λ found. IfSome found (λ step. HasChecked self.old self.new (step_of step))) }
        ensures log { self.new.log ≡ self.old.log }
    {
        let last = self.checker.last();
        if last >= END_OF_IDS || !are_outer(&written.cells, lits) {
            return Ok(None);
        }
        self.hints
            .look_for(&self.checker, written, bases, lits, hints)?;
        if self.hints.ids.len() as u64 > self.vars + 1 {
            return Ok(None);
        }
        let step = addition(alloc, last + 1, lits, &self.hints.ids)?;
        match self.checker.step(&step) {
            Ok(_) => Ok(Some(step)),
            Err(StepFault::Memory) => Err(AllocError),
            Err(_) => Ok(None),
        }
    }

    /// Carries a lemma over, if it is shown.
    pub fn take(
        &mut self,
        alloc: Global,
        written: &Written,
        bases: Bases,
        lits: &[Lit],
        hints: HintsRef<'_>,
    ) -> Result<bool, AllocError>
        requires ready { IsReady self.old }
        ensures { result ≡ Ok true → HasLemma written.now.cells.items self.old self.new lits.now }
    {
        let Some(step) = self.show(alloc, written, bases, lits, hints)? else {
            return Ok(false);
        };
        self.log.push(step)?;
        Ok(true)
    }

    /// Carries a deletion over, if each of these ids is that of a lemma which is held.
    pub fn delete(&mut self, alloc: Global, bases: Bases, ids: &[u64]) -> Result<bool, AllocError>
        requires ready { IsReady self.old }
        ensures { result ≡ Ok true → HasDeletion bases.written bases.formula ids.now self.old self.new }
    {
        let last = self.checker.last();
        let Some(news) = moved(alloc, bases, ids)? else {
            return Ok(false);
        };
        if last == 0 || last >= END_OF_IDS || self.checker.delete(&news).is_err() {
            return Ok(false);
        }
        self.log.push_deletion(last, &news)?;
        Ok(true)
    }
}

/// A checker over the formula, if it has a clause of its last id.
fn checker_of(alloc: Global, formula: &Store, vars: u64) -> Result<Option<Checker>, AllocError>
    requires small { vars < 2 ^ 31 }
    requires range { AreInRange vars formula.now.held }
    ensures database { IfOk result (λ found. IfSome found (λ c. c.database ≡ formula.now)) }
    ensures vars { IfOk result (λ found. IfSome found (λ c. c.vars ≡ vars)) }
    ensures rule { IfOk result (λ found. IfSome found (λ c. c.rule ≡ Rule.Rup)) }
    ensures closed { IfOk result (λ found. IfSome found (λ c. c.open_addition ≡ None)) }
{
    match copy_of(alloc, formula)? {
        Some(copy) => Ok(Some(Checker::start(alloc, copy, vars, Rule::Rup)?)),
        None => Ok(None),
    }
}

/// The clauses of a store once more, under the same ids, if one of them has its last id: linear in it.
fn copy_of(alloc: Global, store: &Store) -> Result<Option<Store>, AllocError>
    ensures { IfOk result (λ found. IfSome found (λ copy. copy ≡ store.now)) }
{
    let last = store.last();
    let mut copy = Store::new(alloc);
    let mut above = 0;
    while above < last {
        let Some((id, lits)) = store.first_above(above) else {
            return Ok(None);
        };
        copy.push(id, lits)?;
        above = id;
    }
    if above == last {
        Ok(Some(copy))
    } else {
        Ok(None)
    }
}

/// Whether no literal is that of a place.
fn are_outer(cells: &[Cell], lits: &[Lit]) -> bool
    ensures { result ≡ true → AreLitsNowhere cells.now lits.now }
{
    for l in lits {
        if !is_outer(cells, *l) {
            return false;
        }
    }
    true
}

/// The step that adds a lemma with these ids as its hints.
fn addition(alloc: Global, id: u64, lits: &[Lit], ids: &[u64]) -> Result<Step, AllocError>
    requires { All IsId ids.now }
    ensures { IfOk result (λ step. step_of step ≡ Addition id lits.now (map pos ids.now)) }
{
    Ok(Step::Add {
        id,
        lits: Vec::from_slice(alloc, lits)?,
        hints: hints_of(alloc, ids)?,
    })
}

/// The ids as hints.
fn hints_of(alloc: Global, ids: &[u64]) -> Result<Vec<i64>, AllocError>
    requires { All IsId ids.now }
    ensures { IfOk result (λ hints. hints.items ≡ map pos ids.now) }
{
    let mut hints = Vec::with_capacity(alloc, ids.len())?;
    for id in ids {
        hints.push(*id as i64)?;
    }
    Ok(hints)
}

/// The ids as far past the formula as they are past what is written out, if each is past it and none is too great.
fn moved(alloc: Global, bases: Bases, ids: &[u64]) -> Result<Option<Vec<u64>>, AllocError>
    ensures moved { IfOk result (λ found. IfSome found (λ news. AreMoved bases.written bases.formula ids.now news.items)) }
    ensures numbers { IfOk result (λ found. IfSome found (λ news. All IsId news.items)) }
{
    let mut news = Vec::with_capacity(alloc, ids.len())?;
    for id in ids {
        if *id <= bases.written || *id >= END_OF_IDS || bases.formula >= END_OF_IDS {
            return Ok(None);
        }
        news.push(*id - bases.written + bases.formula)?;
    }
    Ok(Some(news))
}
