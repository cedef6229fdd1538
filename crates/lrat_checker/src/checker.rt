//! The checker.
mod adding;

ghost use Rattle.std.specs.Prelude.{◌≡◌, ◌≢◌, ℕ, ◌<◌, ◌^◌, [], ◌∷◌, Some, None, Err, IsSome, IfSome, IfOk, IfErr, OnErr, OnOk, MatchBool};
ghost use Rattle.std.specs.Option.{option_copied};
ghost use Rattle.lrat_model.specs.Clauses.{clause_at, with_clause, without};
ghost use Rattle.lrat_model.specs.Steps.{step_of, deletion_fault, after_step, progress_of, progress_at};
ghost use Rattle.lrat_model.specs.Rules.{step_fault_by, addition_fault_by};
ghost use Rattle.lrat_model.specs.declared.step.StepFault.TheVariants.{Memory};
ghost use Rattle.lrat_model.specs.Ranges.{IsInRange, AreInRange};
ghost use Rattle.lrat_checker.specs.Covers.{Covers};
ghost use Rattle.lrat_checker.specs.Checking.{IsAddition};

use crate::hint::lemma_fault;
use crate::opened::Opened;
use crate::subsets::{SubsetIndex, forget, put_clause, scan};
use assignment_trail::Assignment;
use clause_store::Store;
use lrat_model::{Lit, Progress, Rule, Step, StepFault};
use rat_candidates::{CountedStore, KeptHints};
use std::alloc::{AllocError, Global};
use std::marker::Model;

/// A checker of steps under a rule: the clauses that are held, by id, the last id, the number of variables, and the addition
/// that is open, if one is.
#[derive(Drop)]
pub struct Checker {
    rule: Rule,
    clauses: CountedStore,
    assignment: Assignment,
    subsets: Option<SubsetIndex>,
    opened: Option<Opened>,
    // The literals and the RAT hints of the addition that is open, or of one before it: their room stays.
    lits: Vec<Lit>,
    groups: KeptHints,
}

impl Model for Checker {
    ghost use Rattle.lrat_checker.specs.Checking.{Stepping};

    ghost Value = { Stepping };

    ghost use Rattle.lrat_checker.specs.State.{shown, IsReady};

    ghost view = { shown };

    ghost invariant = { IsReady };
}

impl Checker {
    /// A checker that holds the clauses of a store, among this many variables. Takes all the memory that it ever needs, O(vars),
    /// other than for the clauses that it adds, and for the literals and RAT hints of an addition whose hints come one after
    /// another. Under `Rat` it is counted how often each literal stands in the clauses: O(literals of the store).
    ///
    /// There are fewer than 2^31 variables since a literal is a signed number of 32 bits, so no clause has a greater one.
    pub fn start(alloc: Global, store: Store, vars: u64, rule: Rule) -> Result<Checker, AllocError>
        requires small { vars < 2 ^ 31 }
        requires range { AreInRange vars store.held }
        ensures database { IfOk result (λ c. c.database ≡ store) }
        ensures vars { IfOk result (λ c. c.vars ≡ vars) }
        ensures rule { IfOk result (λ c. c.rule ≡ rule) }
        ensures closed { IfOk result (λ c. c.open_addition ≡ None) }
    {
        let assignment = Assignment::new(alloc, vars)?;
        let clauses = clauses_for(alloc, store, vars, rule)?;
        Ok(Checker {
            rule,
            clauses,
            assignment,
            subsets: None,
            opened: None,
            lits: Vec::new(alloc),
            groups: KeptHints::new(alloc),
        })
    }

    /// The last id that was taken.
    pub fn last(&self) -> u64
        ensures value { result ≡ self.now.database.last }
        ensures none_above { (k : ℕ) → self.now.database.last < k → clause_at self.now.database.held k ≡ None }
    {
        self.clauses.store().last()
    }

    /// The literals of the clause held under an id. As fast as `Store::lits`.
    pub fn lits(&self, id: u64) -> Option<&[Lit]>
        ensures { option_copied result ≡ clause_at self.now.database.held id }
    {
        self.clauses.store().lits(id)
    }

    /// Takes a step, or answers its first fault: of an addition its id, then its literals in order, then
    /// its hints in order; of a deletion its ids in order. A checker that answered a fault is as it was.
    /// Only an addition that has no fault takes memory.
    ///
    /// O(literals of the step and of the clauses that its hints name), and O(log n) for each id. A lemma that no conflict shows
    /// costs more where the ids of its groups do not rise or a clause has none: O(literals of all clauses), and O(hints) for
    /// each clause that has the negation of its first literal. A deletion that has a fault costs that too, under `Rat`.
    pub fn step(&mut self, step: &Step) -> Result<Progress, StepFault>
        requires { self.old.open_addition ≡ None }
        ensures taken { OnOk result (step_fault_by self.old.rule self.old.vars self.old.database (step_of step.now) ≡ None) }
        ensures database { OnOk result (self.new.database ≡ after_step self.old.database (step_of step.now)) }
        ensures progress { IfOk result (λ progress. progress ≡ progress_of (step_of step.now)) }
        ensures refused { IfErr result (λ fault. fault ≢ Memory → step_fault_by self.old.rule self.old.vars self.old.database (step_of step.now) ≡ Some fault) }
        ensures memory { result ≡ Err Memory → IsAddition (step_of step.now) × (step_fault_by self.old.rule self.old.vars self.old.database (step_of step.now) ≡ None) }
        ensures unchanged { OnErr result (self.new ≡ self.old) }
        ensures vars { self.new.vars ≡ self.old.vars }
        ensures rule { self.new.rule ≡ self.old.rule }
        ensures closed { self.new.open_addition ≡ None }
    {
        match step {
            Step::Add { id, lits, hints } => self.add(*id, lits, hints),
            Step::Delete { id: _, ids } => self.delete(ids),
        }
    }

    /// Holds a clause that is given, under an id above the last one. Where memory runs out the checker is
    /// as it was.
    pub fn give(&mut self, id: u64, lits: &[Lit]) -> Result<(), AllocError>
        requires closed { self.old.open_addition ≡ None }
        requires above { self.old.database.last < id }
        requires range { IsInRange self.old.vars lits.now }
        ensures held { OnOk result (self.new.database.held ≡ with_clause self.old.database.held id lits.now) }
        ensures last { OnOk result (self.new.database.last ≡ id) }
        ensures unchanged { OnErr result (self.new ≡ self.old) }
        ensures vars { self.new.vars ≡ self.old.vars }
        ensures rule { self.new.rule ≡ self.old.rule }
        ensures closed { self.new.open_addition ≡ None }
    {
        self.clauses.push(id, lits)?;
        put_clause(&mut self.subsets, self.clauses.store(), id, lits);
        Ok(())
    }

    /// Makes ready for many `covers`: from now on each clause stands in an index, at the end of a path of its literals, and a
    /// `covers` goes the paths of the asked literals. O(literals held), and O(literals) for each later clause, amortised. Where
    /// memory for the index runs out, now or later, there is none any more, and a `covers` looks at all clauses.
    pub fn expect_covers(&mut self, alloc: Global)
        ensures { self.new ≡ self.old }
    {
        self.subsets = SubsetIndex::of(alloc, self.clauses.store());
    }

    /// Whether a clause held under a smaller id is a subset of the list.
    /// O(literals held under smaller ids x literals of the list), where `expect_covers` made no index.
    pub fn covers(&self, id: u64, lits: &[Lit]) -> bool
        ensures { MatchBool result (Covers self.now.database.held id lits.now) (¬ Covers self.now.database.held id lits.now) }
    {
        match &self.subsets {
            Some(index) => index.covers(self.clauses.store(), id, lits),
            None => scan(self.clauses.store(), id, lits),
        }
    }

    fn add(&mut self, id: u64, lits: &[Lit], hints: &[i64]) -> Result<Progress, StepFault>
        requires { self.old.open_addition ≡ None }
        ensures taken { OnOk result (addition_fault_by self.old.rule self.old.vars self.old.database id lits.now hints.now ≡ None) }
        ensures held { OnOk result (self.new.database.held ≡ with_clause self.old.database.held id lits.now) }
        ensures last { OnOk result (self.new.database.last ≡ id) }
        ensures progress { IfOk result (λ progress. progress ≡ progress_at lits.now) }
        ensures refused { IfErr result (λ fault. fault ≢ Memory → addition_fault_by self.old.rule self.old.vars self.old.database id lits.now hints.now ≡ Some fault) }
        ensures memory { result ≡ Err Memory → addition_fault_by self.old.rule self.old.vars self.old.database id lits.now hints.now ≡ None }
        ensures unchanged { OnErr result (self.new ≡ self.old) }
        ensures vars { self.new.vars ≡ self.old.vars }
        ensures rule { self.new.rule ≡ self.old.rule }
        ensures closed { self.new.open_addition ≡ None }
    {
        let last = self.clauses.store().last();
        if id <= last {
            return Err(StepFault::IdOrder(last, id));
        }
        let found = lemma_fault(&self.clauses, &mut self.assignment, self.rule, lits, hints);
        self.assignment.clear();
        if let Some(fault) = found {
            return Err(fault);
        }
        if self.give(id, lits).is_err() {
            return Err(StepFault::Memory);
        }
        Ok(progress_at(lits))
    }

    /// Takes the clauses of these ids out, or answers the first of them that is not held, a second time in the list among
    /// them. O(their literals), amortised, and O(log n) for each id at worst.
    pub fn delete(&mut self, ids: &[u64]) -> Result<Progress, StepFault>
        requires { self.old.open_addition ≡ None }
        ensures taken { OnOk result (deletion_fault self.old.database.held [] ids.now ≡ None) }
        ensures held { OnOk result (self.new.database.held ≡ without self.old.database.held ids.now) }
        ensures last { self.new.database.last ≡ self.old.database.last }
        ensures progress { IfOk result (λ progress. progress ≡ Progress.Going) }
        ensures refused { IfErr result (λ fault. deletion_fault self.old.database.held [] ids.now ≡ Some fault) }
        ensures no_memory { result ≢ Err Memory }
        ensures unchanged { OnErr result (self.new ≡ self.old) }
        ensures vars { self.new.vars ≡ self.old.vars }
        ensures rule { self.new.rule ≡ self.old.rule }
        ensures closed { self.new.open_addition ≡ None }
    {
        match self.clauses.remove_all(ids) {
            Ok(()) => {
                forget(&mut self.subsets, self.clauses.store(), ids.len());
                Ok(Progress::Going)
            }
            Err(id) => Err(StepFault::NoSuchClause(id)),
        }
    }
}

/// The clauses of a store, counted where RAT steps may come.
fn clauses_for(
    alloc: Global,
    store: Store,
    vars: u64,
    rule: Rule,
) -> Result<CountedStore, AllocError>
    ensures { IfOk result (λ clauses. clauses ≡ store) }
{
    match rule {
        Rule::Rup => Ok(CountedStore::new(alloc, store)),
        Rule::Rat => CountedStore::counted(alloc, store, vars),
    }
}

/// Where an addition of these literals leads: the empty lemma ends a refutation.
fn progress_at(lits: &[Lit]) -> Progress
    ensures { result ≡ progress_at lits.now }
{
    if lits.is_empty() {
        Progress::Refuted
    } else {
        Progress::Going
    }
}
