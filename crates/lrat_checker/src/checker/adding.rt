//! Additions whose hints come one after another, so that no list of them is kept.
ghost use Rattle.std.specs.Prelude.{◌≡◌, ◌≢◌, ◌<◌, ℤ, List, [], false, Some, None, Err, IsSome, IfSome, IfOk, IfErr, OnErr, OnOk};
ghost use Rattle.lrat_model.specs.Literal.{Literal};
ghost use Rattle.lrat_model.specs.Clauses.{with_clause};
ghost use Rattle.lrat_model.specs.Steps.{literal_fault, progress_at};
ghost use Rattle.lrat_model.specs.Rules.{addition_fault_by};
ghost use Rattle.lrat_model.specs.declared.step.Rule.TheVariants.{Rat};
ghost use Rattle.lrat_model.specs.declared.step.StepFault.TheVariants.{Memory};
ghost use Rattle.rat_candidates.specs.Groups.{group_id};
ghost use Rattle.rat_candidates.specs.Kept.{NamesToo};
ghost use Rattle.lrat_checker.specs.Adding.{fault_from, fault_after, IsBegun, GoesOn, StopsAt, has_met, is_met};
ghost use Rattle.lrat_checker.specs.Courses.{led, Suits, IsUnitHint, IsNamed, HasGroupRoom};

use super::{Checker, progress_at};
use crate::hint::{Hinting, assume_negations};
use crate::opened::{Course, Opened, after_group, after_unit, end_fault};
use crate::subsets::put_clause;
use lrat_model::{Lit, Progress, Rule, StepFault};
use rat_candidates::{CountedStore, KeptHints, group_id};
use std::alloc::AllocError;

/// Copies the literals of an addition, and makes room for its groups.
fn make_room(
    clauses: &CountedStore,
    rule: Rule,
    lits: &[Lit],
    copy: &mut Vec<Lit>,
    groups: &mut KeptHints,
) -> Result<(), AllocError>
    ensures copy { OnOk result (copy.new.items ≡ lits.now) }
    ensures hints { OnOk result (groups.new.hints ≡ []) }
    ensures room { OnOk result (HasGroupRoom rule clauses.now.held lits.now groups.new) }
{
    copy.clear();
    copy.extend_from_slice(lits)?;
    match (rule, lits.first()) {
        (Rule::Rat, Some(pivot)) => clauses.make_room(groups, pivot.negated()),
        _ => groups.restart(0),
    }
}

/// Keeps the hint that began a group.
fn keep_group(clauses: &CountedStore, lits: &[Lit], groups: &mut KeptHints, hint: i64, id: u64)
    requires names { Some id ≡ group_id hint }
    requires named { IsNamed clauses.now.held lits.now id }
    requires room { HasGroupRoom Rat clauses.now.held lits.now groups.old }
    ensures named { NamesToo groups.old.hints id groups.new.hints }
    ensures room { HasGroupRoom Rat clauses.now.held lits.now groups.new }
{
    let Some(pivot) = lits.first() else {
        return;
    };
    clauses.keep(groups, pivot.negated(), hint, id);
}

impl Checker {
    /// Begins an addition, whose hints then come by `hint` in order, and which `finish_add` ends: the three together are one
    /// addition step. Answers the first fault of its id and of its literals in order, or, where these have none, want of memory:
    /// for a copy of the literals, and under `Rat` for a hint for each time that the negation of the first stands in the clauses.
    /// A checker that answered an `Err` is as it was. O(literals), and that room.
    pub fn begin_add(&mut self, id: u64, lits: &[Lit]) -> Result<(), StepFault>
        requires { self.old.open_addition ≡ None }
        ensures opened { OnOk result (IsBegun self.old.rule self.old.vars self.old.database id lits.now self.new.open_addition) }
        ensures refused { IfErr result (λ fault. fault ≢ Memory → (hints : List ℤ) → addition_fault_by self.old.rule self.old.vars self.old.database id lits.now hints ≡ Some fault) }
        ensures memory { result ≡ Err Memory → (self.old.database.last < id) × (literal_fault self.old.vars [] lits.now ≡ None) }
        ensures unchanged { OnErr result (self.new ≡ self.old) }
        ensures database { self.new.database ≡ self.old.database }
        ensures vars { self.new.vars ≡ self.old.vars }
        ensures rule { self.new.rule ≡ self.old.rule }
    {
        let last = self.clauses.store().last();
        if id <= last {
            return Err(StepFault::IdOrder(last, id));
        }
        if let Some(fault) = assume_negations(&mut self.assignment, lits) {
            self.assignment.clear();
            return Err(fault);
        }
        if make_room(
            &self.clauses,
            self.rule,
            lits,
            &mut self.lits,
            &mut self.groups,
        )
        .is_err()
        {
            self.assignment.clear();
            return Err(StepFault::Memory);
        }
        self.opened = Some(Opened {
            id,
            hints: 0,
            course: Course::Propagates,
        });
        Ok(())
    }

    /// How many hints of the open addition were looked at.
    pub fn hints(&self) -> u64
        requires { IsSome self.now.open_addition }
        ensures { IfSome self.now.open_addition (λ a. result ≡ a.hints) }
    {
        self.opened.as_ref().unwrap().hints
    }

    /// Takes the next hint of the open addition. Once a hint's clause was false before any group, which is `Conflict`, the hints
    /// after it are not looked at. Under `Rat` a negative hint begins a group, and is kept until the addition ends, in the room
    /// that `begin_add` made. After an `Err` the addition is gone, and the checker is as before it began. Takes no memory.
    /// O(literals of the hint's clause), and O(log n) for its id at worst; at a group's begin also O(literals of the group
    /// before), and O(groups) where its id does not rise.
    pub fn hint(&mut self, hint: i64) -> Result<Hinting, StepFault>
        requires { IsSome self.old.open_addition }
        ensures taken { OnOk result (GoesOn self.old.rule self.old.database.held hint self.old.open_addition self.new.open_addition) }
        ensures met { IfOk result (λ h. IfSome self.new.open_addition (λ a. is_met a.led ≡ has_met h)) }
        ensures refused { IfErr result (λ fault. StopsAt self.old.rule self.old.database.held hint self.old.open_addition fault) }
        ensures no_memory { result ≢ Err Memory }
        ensures gone { OnErr result (self.new.open_addition ≡ None) }
        ensures database { self.new.database ≡ self.old.database }
        ensures vars { self.new.vars ≡ self.old.vars }
        ensures rule { self.new.rule ≡ self.old.rule }
    {
        let opened = self.opened.as_ref().unwrap();
        if matches!(opened.course, Course::Met) {
            return Ok(Hinting::Conflict);
        }
        match (self.rule, group_id(hint)) {
            (Rule::Rat, Some(id)) => self.group_hint(hint, id),
            _ => self.unit_hint(hint),
        }
    }

    /// Takes a hint that begins no group.
    fn unit_hint(&mut self, hint: i64) -> Result<Hinting, StepFault>
        requires opened { IsSome self.old.open_addition }
        requires unit { IsUnitHint self.old.rule hint }
        ensures taken { OnOk result (GoesOn self.old.rule self.old.database.held hint self.old.open_addition self.new.open_addition) }
        ensures met { IfOk result (λ h. IfSome self.new.open_addition (λ a. is_met a.led ≡ has_met h)) }
        ensures refused { IfErr result (λ fault. StopsAt self.old.rule self.old.database.held hint self.old.open_addition fault) }
        ensures no_memory { result ≢ Err Memory }
        ensures gone { OnErr result (self.new.open_addition ≡ None) }
        ensures database { self.new.database ≡ self.old.database }
        ensures vars { self.new.vars ≡ self.old.vars }
        ensures rule { self.new.rule ≡ self.old.rule }
    {
        let opened = self.opened.as_mut().unwrap();
        match after_unit(self.clauses.store(), &mut self.assignment, opened, hint) {
            Ok(()) => Ok(opened.hinting()),
            Err(fault) => {
                self.assignment.clear();
                self.opened = None;
                Err(fault)
            }
        }
    }

    /// Takes a RAT hint, which names this id.
    fn group_hint(&mut self, hint: i64, id: u64) -> Result<Hinting, StepFault>
        requires opened { IfSome self.old.open_addition (λ a. is_met a.led ≡ false) }
        requires some { IsSome self.old.open_addition }
        requires rule { self.old.rule ≡ Rat }
        requires names { Some id ≡ group_id hint }
        ensures taken { OnOk result (GoesOn self.old.rule self.old.database.held hint self.old.open_addition self.new.open_addition) }
        ensures met { IfOk result (λ h. IfSome self.new.open_addition (λ a. is_met a.led ≡ has_met h)) }
        ensures refused { IfErr result (λ fault. StopsAt self.old.rule self.old.database.held hint self.old.open_addition fault) }
        ensures no_memory { result ≢ Err Memory }
        ensures gone { OnErr result (self.new.open_addition ≡ None) }
        ensures database { self.new.database ≡ self.old.database }
        ensures vars { self.new.vars ≡ self.old.vars }
        ensures rule { self.new.rule ≡ self.old.rule }
    {
        let opened = self.opened.unwrap();
        match after_group(
            self.clauses.store(),
            &mut self.assignment,
            &self.lits,
            opened,
            id,
        ) {
            Ok(next) => {
                keep_group(&self.clauses, &self.lits, &mut self.groups, hint, id);
                self.opened = Some(next);
                Ok(next.hinting())
            }
            Err(fault) => {
                self.assignment.clear();
                self.opened = None;
                Err(fault)
            }
        }
    }

    /// Ends the open addition: the clause is held, if the hints show that it may be. After a fault or want of memory the
    /// addition is gone, and the checker is as before it began. O(literals), amortised; where groups came, or no conflict, what
    /// such a lemma costs in `step`.
    pub fn finish_add(&mut self) -> Result<Progress, StepFault>
        requires { IsSome self.old.open_addition }
        ensures taken { OnOk result (IfSome self.old.open_addition (λ a. fault_after self.old.rule self.old.database.held a [] ≡ None)) }
        ensures held { OnOk result (IfSome self.old.open_addition (λ a. self.new.database.held ≡ with_clause self.old.database.held a.id a.lits)) }
        ensures last { OnOk result (IfSome self.old.open_addition (λ a. self.new.database.last ≡ a.id)) }
        ensures progress { IfOk result (λ progress. IfSome self.old.open_addition (λ a. progress ≡ progress_at a.lits)) }
        ensures refused { IfErr result (λ fault. fault ≢ Memory → IfSome self.old.open_addition (λ a. fault_after self.old.rule self.old.database.held a [] ≡ Some fault)) }
        ensures memory { result ≡ Err Memory → IfSome self.old.open_addition (λ a. fault_after self.old.rule self.old.database.held a [] ≡ None) }
        ensures unchanged { OnErr result (self.new.database ≡ self.old.database) }
        ensures closed { self.new.open_addition ≡ None }
        ensures vars { self.new.vars ≡ self.old.vars }
        ensures rule { self.new.rule ≡ self.old.rule }
    {
        let opened = self.opened.unwrap();
        self.opened = None;
        self.assignment.clear();
        if let Some(fault) = end_fault(
            &self.clauses,
            self.rule,
            &self.lits,
            self.groups.hints(),
            opened.course,
        ) {
            return Err(fault);
        }
        if self.clauses.push(opened.id, &self.lits).is_err() {
            return Err(StepFault::Memory);
        }
        put_clause(
            &mut self.subsets,
            self.clauses.store(),
            opened.id,
            &self.lits,
        );
        Ok(progress_at(&self.lits))
    }
}
