//! The addition that is open, one hint after another.
ghost use Rattle.std.specs.Prelude.{◌≡◌, ◌≢◌, ℕ, ◌+◌, ◌≤◌, List, [], ℤ, length, take, Some, None, Err, IfOk, IfErr, OnOk};
ghost use Rattle.lrat_model.specs.Literal.{Literal};
ghost use Rattle.lrat_model.specs.Ranges.{AreInRange};
ghost use Rattle.lrat_model.specs.Rat.{pivot_fault};
ghost use Rattle.lrat_model.specs.declared.step.Rule.TheVariants.{Rat};
ghost use Rattle.lrat_model.specs.declared.step.StepFault.TheVariants.{Memory, NoConflict};
ghost use Rattle.rat_candidates.specs.Groups.{group_id, ids_in};
ghost use Rattle.rat_candidates.specs.Kept.{NamesToo};
ghost use Rattle.lrat_checker.specs.Adding.{fault_from, HasPlace, GoesOn, StopsAt, has_met, is_met};
ghost use Rattle.lrat_checker.specs.Courses.{led, adding_of, Suits, IsUnitHint, is_over, onward, Ends, IsUndone, IsNamed, missing_of};

use crate::hint::{Hinting, take_hint, undo_to};
use crate::rat::open_group;
use assignment_trail::Assignment;
use clause_store::Store;
use lrat_model::{Lit, Rule, StepFault};
use rat_candidates::CountedStore;

/// Where the hints led so far.
#[derive(Clone, Copy)]
pub enum Course {
    /// On, by unit propagation, and no group came.
    Propagates,
    /// To a clause with all literals false, and no group came.
    Met,
    /// Into a group: how many literals were true before it, and whether it is done.
    InGroup { before: usize, is_done: bool },
}

impl Course {
    /// Whether the hints up to the next RAT hint are passed over.
    fn is_over(self) -> bool
        ensures { result ≡ is_over self }
    {
        match self {
            Course::Propagates => false,
            Course::Met => true,
            Course::InGroup { before: _, is_done } => is_done,
        }
    }

    /// Where a hint leads whose clause was false.
    fn ended(self) -> Course
        ensures { result ≡ onward self Hinting.Conflict }
    {
        match self {
            Course::Propagates | Course::Met => Course::Met,
            Course::InGroup { before, is_done: _ } => Course::InGroup {
                before,
                is_done: true,
            },
        }
    }
}

/// What is known of an open addition beside its literals and RAT hints: its id, how many hints were looked at, and where they
/// led.
#[derive(Clone, Copy)]
pub struct Opened {
    pub id: u64,
    pub hints: u64,
    pub course: Course,
}

impl Opened {
    /// The place of the next hint.
    fn place(&self) -> u64
        ensures place { HasPlace self.now.hints → result ≡ self.now.hints + 1 }
        ensures next { result ≤ self.now.hints + 1 }
    {
        self.hints.saturating_add(1)
    }

    /// Where a hint leads that was taken by unit propagation, from here.
    fn lead(&mut self, hinting: Hinting)
        ensures id { self.new.id ≡ self.old.id }
        ensures hints { self.new.hints ≡ self.old.hints }
        ensures course { self.new.course ≡ onward self.old.course hinting }
    {
        match hinting {
            Hinting::More => {}
            Hinting::Conflict => self.course = self.course.ended(),
        }
    }

    /// What `hint` answers where the hints led here.
    pub fn hinting(&self) -> Hinting
        ensures { (trues : List Literal) (groups : List ℤ) → is_met (led trues groups self.now.course) ≡ has_met result }
    {
        match self.course {
            Course::Met => Hinting::Conflict,
            Course::Propagates
            | Course::InGroup {
                before: _,
                is_done: _,
            } => Hinting::More,
        }
    }
}

/// Takes a hint that begins no group. The hints of a group that is done are passed over, and those after a conflict are not
/// looked at. Only what changes is written: a whole `Opened` is slow to read again so soon.
pub fn after_unit(
    store: &Store,
    assignment: &mut Assignment,
    opened: &mut Opened,
    hint: i64,
) -> Result<(), StepFault>
    requires range { AreInRange assignment.old.vars store.now.held }
    ensures taken { OnOk result ((rule : Rule) (lits : List Literal) (groups : List ℤ) → IsUnitHint rule hint → Suits rule assignment.old.trues groups opened.old.course
        → GoesOn rule store.now.held hint (Some (adding_of lits assignment.old.trues groups opened.old)) (Some (adding_of lits assignment.new.trues groups opened.new))) }
    ensures suits { OnOk result ((rule : Rule) (groups : List ℤ) → Suits rule assignment.old.trues groups opened.old.course → Suits rule assignment.new.trues groups opened.new.course) }
    ensures refused { IfErr result (λ fault. (rule : Rule) (lits : List Literal) (groups : List ℤ) → IsUnitHint rule hint → Suits rule assignment.old.trues groups opened.old.course
        → StopsAt rule store.now.held hint (Some (adding_of lits assignment.old.trues groups opened.old)) fault) }
    ensures no_memory { result ≢ Err Memory }
    ensures id { opened.new.id ≡ opened.old.id }
    ensures vars { assignment.new.vars ≡ assignment.old.vars }
{
    opened.hints = opened.place();
    if opened.course.is_over() {
        return Ok(());
    }
    let hinting = take_hint(store, assignment, opened.hints, hint)?;
    opened.lead(hinting);
    Ok(())
}

/// Ends the group, if there is one: what was true before it is true again. Gives how many literals that are.
fn end_group(assignment: &mut Assignment, course: Course) -> Result<usize, StepFault>
    requires unmet { course ≢ Course.Met }
    requires suits { (groups : List ℤ) × Suits Rat assignment.old.trues groups course }
    ensures ended { IfOk result (λ _. (groups : List ℤ) → Suits Rat assignment.old.trues groups course → Ends assignment.old.trues groups course assignment.new.trues) }
    ensures count { IfOk result (λ before. before ≡ length assignment.new.trues) }
    ensures undone { IfErr result (λ fault. (groups : List ℤ) → IsUndone assignment.old.trues groups course fault) }
    ensures no_memory { result ≢ Err Memory }
    ensures vars { assignment.new.vars ≡ assignment.old.vars }
{
    match course {
        Course::Propagates | Course::Met => Ok(assignment.trail().len()),
        Course::InGroup { before, is_done } => {
            if !is_done {
                return Err(StepFault::NoConflict);
            }
            undo_to(assignment, before);
            Ok(before)
        }
    }
}

/// Whether a hint's clause was false.
fn has_met(hinting: Hinting) -> bool
    ensures { result ≡ has_met hinting }
{
    match hinting {
        Hinting::More => false,
        Hinting::Conflict => true,
    }
}

/// Begins a group, with a RAT hint that names this id.
pub fn after_group(
    store: &Store,
    assignment: &mut Assignment,
    lits: &[Lit],
    opened: Opened,
    id: u64,
) -> Result<Opened, StepFault>
    requires range { AreInRange assignment.old.vars store.now.held }
    requires unmet { opened.course ≢ Course.Met }
    requires suits { (groups : List ℤ) × Suits Rat assignment.old.trues groups opened.course }
    ensures taken { IfOk result (λ next. (hint : ℤ) (groups later : List ℤ) → Some id ≡ group_id hint → NamesToo groups id later → Suits Rat assignment.old.trues groups opened.course
        → GoesOn Rat store.now.held hint (Some (adding_of lits.now assignment.old.trues groups opened)) (Some (adding_of lits.now assignment.new.trues later next))) }
    ensures candidate { OnOk result (IsNamed store.now.held lits.now id) }
    ensures suits { IfOk result (λ next. (groups : List ℤ) → Suits Rat assignment.new.trues groups next.course) }
    ensures refused { IfErr result (λ fault. (hint : ℤ) (groups : List ℤ) → Some id ≡ group_id hint → Suits Rat assignment.old.trues groups opened.course
        → StopsAt Rat store.now.held hint (Some (adding_of lits.now assignment.old.trues groups opened)) fault) }
    ensures no_memory { result ≢ Err Memory }
    ensures id { IfOk result (λ next. next.id ≡ opened.id) }
    ensures vars { assignment.new.vars ≡ assignment.old.vars }
{
    let place = opened.place();
    let before = end_group(assignment, opened.course)?;
    let Some(pivot) = lits.first() else {
        return Err(StepFault::RatStep(place));
    };
    let end = open_group(store, assignment, *pivot, place, id)?;
    Ok(Opened {
        id: opened.id,
        hints: place,
        course: Course::InGroup {
            before,
            is_done: has_met(end),
        },
    })
}

/// The first fault of a lemma whose hints ended here, where these RAT hints came.
pub fn end_fault(
    clauses: &CountedStore,
    rule: Rule,
    lits: &[Lit],
    groups: &[i64],
    course: Course,
) -> Option<StepFault>
    ensures fault { (trues : List Literal) (place : ℕ) → Suits rule trues groups.now course → result ≡ fault_from rule clauses.now.held lits.now place (led trues groups.now course) [] }
    ensures no_memory { result ≢ Some Memory }
{
    match course {
        Course::Met => None,
        Course::InGroup { before: _, is_done } => {
            if is_done {
                let id = first_missing(clauses, lits, groups)?;
                Some(StepFault::RatMissing(id))
            } else {
                Some(StepFault::NoConflict)
            }
        }
        Course::Propagates => match rule {
            Rule::Rup => Some(StepFault::NoConflict),
            Rule::Rat => unnamed_fault(clauses, lits),
        },
    }
}

/// The least id of a clause that has the negation of the first literal and is named by no RAT hint, if there is a literal.
fn first_missing(clauses: &CountedStore, lits: &[Lit], groups: &[i64]) -> Option<u64>
    ensures { result ≡ missing_of clauses.now.held (ids_in groups.now) lits.now }
{
    let pivot = lits.first()?;
    clauses.first_missing(pivot.negated(), groups)
}

/// The fault of a lemma without groups that no conflict shows.
fn unnamed_fault(clauses: &CountedStore, lits: &[Lit]) -> Option<StepFault>
    ensures fault { (trues : List Literal) → result ≡ pivot_fault clauses.now.held trues lits.now [] }
    ensures no_memory { result ≢ Some Memory }
{
    if lits.is_empty() {
        return Some(StepFault::NoConflict);
    }
    first_missing(clauses, lits, &[])?;
    Some(StepFault::NoConflict)
}
