//! The order in which variables are decided, each with the value that it had last (phase saving, of Pipatsrisawat and
//! Darwiche): by turns those first that a conflict saw last, or by scores that conflicts raise, late ones more than early
//! ones (VSIDS, of Chaff and MiniSat); in a search for many models, and where a caller says so, by scores alone; or in the
//! order of their numbers, each false first. A plan, where there is one, goes first. No answer depends on it, and only that the variable is open is proved.
ghost use Rattle.std.specs.Prelude.{◌≡◌, ◌⊎◌, ◌||◌, not, ℕ, ◌+◌, ◌<◌, ◌≤◌, ◌^◌, true, false, None, Some, IfOk, IfSome, length, slice_index_or};
ghost use Rattle.lrat_model.specs.Literal.{Literal, Plus, Minus, has, variable_of};
ghost use Rattle.search_heuristics.specs.Open.{open_count};

use crate::entries::entry_or;
use crate::heap::Heap;
use crate::plan::Plan;
use crate::queue::Queue;
use crate::turns::Turns;
use assignment_trail::Assignment;
use lrat_model::Lit;
use std::alloc::{AllocError, Global};
use std::marker::Model;

const FIRST_INCREMENT: u64 = 1 << 24;

const MAX_INCREMENT: u64 = 1 << 58;

/// By which of its parts the increment grows with a conflict: in a search for many models, which goes from place to place,
/// and in any other, where less is learnt so. Found by trials.
const FAST: u64 = 19;

const SLOW: u64 = 80;

/// As how many conflicts a clause counts that comes while a search goes on. Found by trials.
const CONFLICTS_OF_A_CLAUSE: u64 = 32;

/// The variables by when a conflict saw them last; scores that conflicts raise, late ones more than early ones; which of
/// the two decides; the value that each variable had last; and the plan that goes before both.
#[derive(Drop)]
pub struct DecisionOrder {
    vars: u32,
    scores: Vec<u64>,
    phases: Vec<bool>,
    increment: u64,
    heap: Heap,
    queue: Queue,
    turns: Turns,
    plan: Plan,
}

impl Model for DecisionOrder {
    ghost use Rattle.std.specs.Prelude.{ℕ};

    ghost Value = { ℕ };

    ghost use Rattle.search_heuristics.specs.Order.{shown, IsOrder};

    ghost view = { shown };

    ghost invariant = { IsOrder };
}

impl DecisionOrder {
    /// All scores are alike, and all phases false.
    pub fn new(alloc: Global, vars: u32) -> Result<DecisionOrder, AllocError>
        requires { vars < 2 ^ 31 }
        ensures { IfOk result (λ o. o ≡ vars) }
    {
        let places = vars as usize + 1;
        Ok(DecisionOrder {
            vars,
            scores: vec![in alloc; 0; places]?,
            phases: vec![in alloc; false; places]?,
            increment: FIRST_INCREMENT,
            heap: Heap::new(alloc, vars)?,
            queue: Queue::new(alloc, vars)?,
            turns: Turns::new(),
            plan: Plan::none(alloc),
        })
    }

    /// Decides by this plan from here on, as long as groups of it are left.
    pub fn follow(&mut self, plan: Plan)
        ensures { self.new ≡ self.old }
    {
        self.plan = plan;
    }

    /// Whether a plan decides. Scores, the queue, phases and turns rest then.
    pub fn has_plan(&self) -> bool {
        self.plan.is_on()
    }

    /// How many times the plan may have the trail cut before the next conflict.
    pub fn cuts(&self) -> usize {
        self.plan.cuts()
    }

    /// Has the plan choose what is decided next, or a place where the trail is to be cut before.
    pub fn look(
        &mut self,
        assignment: &Assignment,
        reasons: &[u64],
    ) -> Result<Option<usize>, AllocError>
        ensures { self.new ≡ self.old }
    {
        self.plan.look(assignment, reasons)
    }

    /// In each turn variables are decided by their scores, as suits formulas whose gates are written out.
    pub fn fix_scores(&mut self)
        ensures { self.new ≡ self.old }
    {
        self.turns.fix();
    }

    /// From here on variables are decided in the order of their numbers, and each is made false first. Scores, the queue and
    /// phases rest. So a search whose models are to have few true variables comes to a model with none to spare, and from one
    /// to the next the trail keeps all but its end.
    pub fn go_by_number(&mut self)
        ensures { self.new ≡ self.old }
    {
        self.turns.number();
    }

    /// From here on variables are decided by their scores, and there are no turns.
    pub fn use_scores(&mut self)
        ensures { self.new ≡ self.old }
    {
        self.turns.settle();
    }

    /// Whether variables are decided by their scores.
    pub fn has_scores(&self) -> bool {
        self.turns.by_scores()
    }

    /// Whether they are by turns, or in each turn.
    pub fn has_scores_by_turns(&self) -> bool {
        self.turns.by_scores() && !self.turns.is_settled()
    }

    /// Counts a lemma of this many literals.
    pub fn count(&mut self, literals: usize)
        ensures { self.new ≡ self.old }
    {
        if self.plan.is_on() {
            self.plan.count();
        } else {
            self.turns.count(literals.min(1 << 20) as u32);
        }
    }

    /// An open variable, the one that was seen last, of the greatest score or of the least number. O(1) for each that was seen later, and
    /// O(log n) for each of a greater score, which is taken out; linear in the variables where none is found so.
    pub fn best_open(&mut self, assignment: &Assignment) -> Option<u32>
        requires { assignment.now.vars ≡ self.old }
        ensures none { result ≡ None → open_count assignment.now.trues self.old ≡ 0 }
        ensures some { IfSome result (λ x. (0 < x) × (x ≤ self.old) × (has assignment.now.trues (Plus x) ≡ false) × (has assignment.now.trues (Minus x) ≡ false)) }
        ensures vars { self.new ≡ self.old }
    {
        if let Some(x) = self.planned(assignment) {
            return Some(x);
        }
        if self.turns.by_number() {
            return first_open(assignment, self.vars);
        }
        match self.first_choice(assignment) {
            Some(x) => Some(x),
            None => first_open(assignment, self.vars),
        }
    }

    /// The variable that is to be decided by the plan, if it is open.
    fn planned(&self, assignment: &Assignment) -> Option<u32>
        requires { assignment.now.vars ≡ self.now }
        ensures { IfSome result (λ x. (0 < x) × (x ≤ self.now) × (has assignment.now.trues (Plus x) ≡ false) × (has assignment.now.trues (Minus x) ≡ false)) }
    {
        let x = self.plan.planned()?.variable();
        if x <= self.vars && is_open(assignment, x) {
            Some(x)
        } else {
            None
        }
    }

    /// An open variable of the queue or of the heap, if they find one.
    fn first_choice(&mut self, assignment: &Assignment) -> Option<u32>
        requires { assignment.now.vars ≡ self.old }
        ensures some { IfSome result (λ x. (0 < x) × (x ≤ self.old) × (has assignment.now.trues (Plus x) ≡ false) × (has assignment.now.trues (Minus x) ≡ false)) }
        ensures vars { self.new ≡ self.old }
    {
        if self.turns.by_scores() {
            pop_open(&mut self.heap, &self.scores, assignment, self.vars)
        } else {
            self.queue.take_last_open(assignment, self.vars)
        }
    }

    /// The variable or its negation, as the plan has it, or its phase is.
    pub fn literal(&self, x: u32) -> Lit
        requires some { 0 < x }
        requires range { x ≤ self.now }
        ensures { variable_of result ≡ x }
    {
        if let Some(l) = self.plan.literal_of(x) {
            return l;
        }
        if self.phases[x as usize] && !self.turns.by_number() {
            Lit::positive(x)
        } else {
            Lit::negative(x)
        }
    }

    /// The place on a trail of the first decision whose variable comes after one that is open: what stands before it
    /// would be decided again by a search that went back to nothing. The length of the trail where there is none. Linear
    /// in the variables.
    pub fn overtaken(&self, assignment: &Assignment, reasons: &[u64]) -> usize
        requires { assignment.now.vars ≡ self.now }
    {
        if self.turns.by_number() {
            return assignment.trail().len();
        }
        if !self.turns.by_scores() {
            return self.queue.overtaken(assignment, reasons, self.vars);
        }
        let best = best_score(&self.scores, assignment, self.vars);
        first_below(&self.scores, assignment.trail(), reasons, best)
    }

    /// Keeps the values of literals that are taken from a trail, and puts their variables in again.
    pub fn reopen(&mut self, undone: &[Lit])
        ensures { self.new ≡ self.old }
    {
        if self.turns.by_number() {
            return;
        }
        if self.plan.is_on() {
            insert_all(&mut self.heap, &self.scores, undone);
        } else {
            reopen_all(&mut self.phases, &mut self.heap, &self.scores, undone);
        }
        self.queue.reopen(undone);
    }

    /// Moves the variables that a conflict has seen to the end of the queue, or raises their scores.
    pub fn raise(&mut self, seen: &[u32]) -> Result<(), AllocError>
        ensures { self.new ≡ self.old }
    {
        if self.plan.is_on() || self.turns.by_number() {
            return Ok(());
        }
        if !self.turns.by_scores() {
            self.queue.move_to_end(seen)?;
            return Ok(());
        }
        raise_all(&mut self.scores, &mut self.heap, seen, self.increment);
        let part = if self.turns.is_settled() { FAST } else { SLOW };
        self.grow(part);
        Ok(())
    }

    /// Raises the scores of the variables of a clause that comes while a search goes on, and doubles the increment.
    /// O(log n) for each variable.
    pub fn raise_clause(&mut self, lits: &[Lit])
        ensures { self.new ≡ self.old }
    {
        if self.turns.by_number() {
            return;
        }
        let by = self.increment.saturating_mul(CONFLICTS_OF_A_CLAUSE);
        raise_lits(&mut self.scores, &mut self.heap, lits, by);
        self.grow(1);
    }

    /// Increases the increment by its part of this number.
    fn grow(&mut self, part: u64)
        requires { 0 < part }
        ensures { self.new ≡ self.old }
    {
        self.increment = self.increment.saturating_add(self.increment / part);
        if self.increment > MAX_INCREMENT {
            lower(&mut self.scores);
            self.increment = FIRST_INCREMENT;
        }
    }
}

/// Keeps the values of literals, and puts their variables into a heap, in one walk: there are hundreds in a conflict.
fn reopen_all(phases: &mut [bool], heap: &mut Heap, scores: &[u64], lits: &[Lit])
    ensures { length phases.new ≡ length phases.old }
{
    for l in lits {
        if let Some(phase) = phases.get_mut(l.variable() as usize) {
            *phase = l.number() > 0;
        }
        heap.insert(l.variable(), scores);
    }
}

/// Puts the variables of literals into a heap.
fn insert_all(heap: &mut Heap, scores: &[u64], lits: &[Lit]) {
    for l in lits {
        heap.insert(l.variable(), scores);
    }
}

/// Adds to the scores of the variables of literals.
fn raise_lits(scores: &mut Vec<u64>, heap: &mut Heap, lits: &[Lit], by: u64)
    ensures { length scores.new.items ≡ length scores.old.items }
{
    for l in lits {
        raise_one(scores, l.variable(), by);
        heap.raised(l.variable(), scores);
    }
}

/// The first variable that comes from a heap and has no value.
fn pop_open(heap: &mut Heap, scores: &[u64], assignment: &Assignment, vars: u32) -> Option<u32>
    requires few { vars < 2 ^ 31 }
    requires vars { assignment.now.vars ≡ vars }
    ensures { IfSome result (λ x. (0 < x) × (x ≤ vars) × (has assignment.now.trues (Plus x) ≡ false) × (has assignment.now.trues (Minus x) ≡ false)) }
{
    while let Some(x) = heap.pop(scores) {
        if 0 < x && x <= vars && is_open(assignment, x) {
            return Some(x);
        }
    }
    None
}

/// The first variable that has no value.
fn first_open(assignment: &Assignment, vars: u32) -> Option<u32>
    requires few { vars < 2 ^ 31 }
    requires vars { assignment.now.vars ≡ vars }
    ensures none { result ≡ None → open_count assignment.now.trues vars ≡ 0 }
    ensures some { IfSome result (λ x. (0 < x) × (x ≤ vars) × (has assignment.now.trues (Plus x) ≡ false) × (has assignment.now.trues (Minus x) ≡ false)) }
{
    let mut done = 0;
    while done < vars {
        done += 1;
        if is_open(assignment, done) {
            return Some(done);
        }
    }
    None
}

/// Whether the variable has no value.
pub(crate) fn is_open(assignment: &Assignment, x: u32) -> bool
    requires some { 0 < x }
    requires small { x < 2 ^ 31 }
    requires range { x ≤ assignment.now.vars }
    ensures { result ≡ not (has assignment.now.trues (Plus x) || has assignment.now.trues (Minus x)) }
{
    !(assignment.is_true(Lit::positive(x)) || assignment.is_true(Lit::negative(x)))
}

/// The greatest score of a variable that has no value, 0 where each has one.
fn best_score(scores: &[u64], assignment: &Assignment, vars: u32) -> u64
    requires few { vars < 2 ^ 31 }
    requires vars { assignment.now.vars ≡ vars }
{
    let mut best = 0;
    let mut left = vars;
    while left > 0 {
        if is_open(assignment, left) {
            best = best.max(entry_or(scores, left as usize, 0));
        }
        left -= 1;
    }
    best
}

/// The place of the first decision of a lower score than this one, the length of the trail where there is none.
fn first_below(scores: &[u64], trail: &[Lit], reasons: &[u64], score: u64) -> usize {
    let mut place = 0;
    while place < trail.len() && place < reasons.len() {
        if reasons[place] == 0 && entry_or(scores, trail[place].variable() as usize, 0) < score {
            return place;
        }
        place += 1;
    }
    trail.len()
}

/// Adds to the scores of these variables.
fn raise_all(scores: &mut Vec<u64>, heap: &mut Heap, seen: &[u32], by: u64)
    ensures { length scores.new.items ≡ length scores.old.items }
{
    for x in seen {
        raise_one(scores, *x, by);
        heap.raised(*x, scores);
    }
}

/// Adds to the score of a variable.
fn raise_one(scores: &mut Vec<u64>, x: u32, by: u64)
    ensures { length scores.new.items ≡ length scores.old.items }
{
    let at = x as usize;
    if at < scores.len() {
        let score = scores[at];
        scores[at] = score.saturating_add(by);
    }
}

/// Lowers all scores alike.
fn lower(scores: &mut [u64])
    ensures { length scores.new ≡ length scores.old }
{
    for score in scores.iter_mut() {
        *score >>= 34;
    }
}
