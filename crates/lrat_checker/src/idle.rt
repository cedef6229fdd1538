//! A checker between additions.
ghost use Rattle.std.specs.Prelude.{◌≡◌, ◌≢◌, ℕ, ◌<◌, ◌^◌, None, Err, IfOk, IfErr, OnErr, OnOk, MatchBool};
ghost use Rattle.lrat_model.specs.Clauses.{clause_at, with_clause};
ghost use Rattle.lrat_model.specs.Steps.{step_of, after_step, progress_of};
ghost use Rattle.lrat_model.specs.Rules.{step_fault_by};
ghost use Rattle.lrat_model.specs.declared.step.StepFault.TheVariants.{Memory};
ghost use Rattle.lrat_model.specs.Ranges.{IsInRange, AreInRange};
ghost use Rattle.lrat_checker.specs.Covers.{Covers};
ghost use Rattle.lrat_checker.specs.Checking.{IsAddition};

use crate::checker::Checker;
use clause_store::Store;
use lrat_model::{Lit, Progress, Rule, Step, StepFault};
use std::alloc::{AllocError, Global};
use std::marker::Model;

/// A checker with no addition open, for what is handed on from step to step.
#[derive(Drop)]
pub struct IdleChecker {
    checker: Checker,
}

impl Model for IdleChecker {
    ghost use Rattle.std.specs.Prelude.{◌≡◌, None};
    ghost use Rattle.lrat_checker.specs.Checking.{Checking};

    ghost Value = { Checking };

    ghost view = { λ c. record { rule = c.checker.rule; vars = c.checker.vars; database = c.checker.database } };

    ghost invariant = { λ c. c.checker.open_addition ≡ None };
}

impl IdleChecker {
    /// As `Checker::start`.
    pub fn start(
        alloc: Global,
        store: Store,
        vars: u64,
        rule: Rule,
    ) -> Result<IdleChecker, AllocError>
        requires small { vars < 2 ^ 31 }
        requires range { AreInRange vars store.held }
        ensures database { IfOk result (λ c. c.database ≡ store) }
        ensures vars { IfOk result (λ c. c.vars ≡ vars) }
        ensures rule { IfOk result (λ c. c.rule ≡ rule) }
    {
        let checker = Checker::start(alloc, store, vars, rule)?;
        Ok(IdleChecker { checker })
    }

    /// The checker, to which an addition may come hint by hint.
    pub fn opening(self) -> Checker
        ensures database { result.database ≡ self.database }
        ensures vars { result.vars ≡ self.vars }
        ensures rule { result.rule ≡ self.rule }
        ensures closed { result.open_addition ≡ None }
    {
        self.checker
    }

    /// A checker that has no addition open.
    pub fn closing(checker: Checker) -> IdleChecker
        requires { checker.open_addition ≡ None }
        ensures database { result.database ≡ checker.database }
        ensures vars { result.vars ≡ checker.vars }
        ensures rule { result.rule ≡ checker.rule }
    {
        IdleChecker { checker }
    }

    /// The last id that was taken.
    pub fn last(&self) -> u64
        ensures value { result ≡ self.now.database.last }
        ensures none_above { (k : ℕ) → self.now.database.last < k → clause_at self.now.database.held k ≡ None }
    {
        self.checker.last()
    }

    /// As `Checker::step`.
    pub fn step(&mut self, step: &Step) -> Result<Progress, StepFault>
        ensures taken { OnOk result (step_fault_by self.old.rule self.old.vars self.old.database (step_of step.now) ≡ None) }
        ensures database { OnOk result (self.new.database ≡ after_step self.old.database (step_of step.now)) }
        ensures progress { IfOk result (λ progress. progress ≡ progress_of (step_of step.now)) }
        ensures refused { IfErr result (λ fault. fault ≢ Memory → step_fault_by self.old.rule self.old.vars self.old.database (step_of step.now) ≡ Some fault) }
        ensures memory { result ≡ Err Memory → IsAddition (step_of step.now) × (step_fault_by self.old.rule self.old.vars self.old.database (step_of step.now) ≡ None) }
        ensures unchanged { OnErr result (self.new ≡ self.old) }
        ensures vars { self.new.vars ≡ self.old.vars }
        ensures rule { self.new.rule ≡ self.old.rule }
    {
        self.checker.step(step)
    }

    /// As `Checker::give`.
    pub fn give(&mut self, id: u64, lits: &[Lit]) -> Result<(), AllocError>
        requires above { self.old.database.last < id }
        requires range { IsInRange self.old.vars lits.now }
        ensures held { OnOk result (self.new.database.held ≡ with_clause self.old.database.held id lits.now) }
        ensures last { OnOk result (self.new.database.last ≡ id) }
        ensures unchanged { OnErr result (self.new ≡ self.old) }
        ensures vars { self.new.vars ≡ self.old.vars }
        ensures rule { self.new.rule ≡ self.old.rule }
    {
        self.checker.give(id, lits)
    }

    /// As `Checker::expect_covers`.
    pub fn expect_covers(&mut self, alloc: Global)
        ensures { self.new ≡ self.old }
    {
        self.checker.expect_covers(alloc);
    }

    /// As `Checker::covers`.
    pub fn covers(&self, id: u64, lits: &[Lit]) -> bool
        ensures { MatchBool result (Covers self.now.database.held id lits.now) (¬ Covers self.now.database.held id lits.now) }
    {
        self.checker.covers(id, lits)
    }
}
