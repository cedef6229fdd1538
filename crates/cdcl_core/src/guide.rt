//! What guides a search and no answer depends on: the order of decisions, restarts, and which literals of a
//! lemma are derived from others (recursive minimisation, of Sörensson and Biere, 'Minimizing learned
//! clauses', 2009). Proved of it is that it is safe, and that it keeps its size.
ghost use Rattle.std.specs.Prelude.{◌≡◌, ◌<◌, ◌+◌, ◌^◌, AllPairs, IfOk, length};
ghost use Rattle.cdcl_core.specs.Guides.{IsGuide};

use crate::clauses::Clauses;
use crate::marks::Marks;
use lrat_model::Lit;
use search_heuristics::{DecisionOrder, Restarts, entry_or};
use std::alloc::{AllocError, Global};

const FEW_LEVELS: u32 = 3;

const MANY_LEVELS: u32 = 7;

const MANY_LITERALS: usize = 400;

/// The order of decisions, the marks of an analysis, where the first decision stood last, and what is known
/// of literals that may be derived.
#[derive(Drop)]
pub struct Guide {
    pub order: DecisionOrder,
    pub marks: Marks,
    pub base: usize,
    pub minimiser: Minimiser,
    pub restarts: Restarts,
}

impl Guide {
    /// For this many variables.
    pub fn new(alloc: Global, vars: u32) -> Result<Guide, AllocError>
        requires { vars < 2 ^ 31 }
        ensures { IfOk result (λ guide. IsGuide vars guide) }
    {
        let marks = Marks::new(alloc, vars)?;
        let order = DecisionOrder::new(alloc, vars)?;
        let minimiser = Minimiser::new(alloc, vars)?;
        Ok(Guide {
            order,
            marks,
            base: 0,
            minimiser,
            restarts: Restarts::new(),
        })
    }

    /// Takes note of the variables that a conflict has seen, down to the implication point.
    pub fn note(&mut self, reasons: &[u64], places: &[usize], last: usize) -> Result<(), AllocError>
        ensures order { self.new.order ≡ self.old.order }
        ensures marks { self.new.marks ≡ self.old.marks }
    {
        self.order.raise(self.marks.listed())?;
        self.minimiser
            .begin(reasons, self.marks.listed(), places, last)
    }

    /// Whether the literal at a place below the last decision follows from marked ones.
    pub fn follows(
        &mut self,
        clauses: &Clauses,
        trail: &[Lit],
        reasons: &[u64],
        places: &[usize],
        place: usize,
        last: usize,
    ) -> Result<bool, AllocError>
        requires { AllPairs (λ e f. e.0 < f.0) clauses.now }
        ensures order { self.new.order ≡ self.old.order }
        ensures marks { self.new.marks ≡ self.old.marks }
    {
        if place < self.base || last <= place {
            return Ok(false);
        }
        self.minimiser
            .follows(clauses, trail, reasons, places, &self.marks, place)
    }

    /// What a lemma costs whose literals stand on the trail: the more, the sooner it is forgotten. That is how many decision
    /// levels they have, up to seven; but where scores decide in a turn, how many there are if the levels are more than two,
    /// since lemmas have many levels alike then, and a long one is gone through more often. Restarts go by the levels, and the
    /// order of decisions by the number of literals.
    pub fn cost_of(&mut self, lits: &[Lit], places: &[usize]) -> u32
        ensures order { self.new.order ≡ self.old.order }
        ensures marks { self.new.marks ≡ self.old.marks }
    {
        let levels = self.minimiser.levels_of(lits, places);
        if !self.order.has_plan() {
            self.restarts.note(levels);
        }
        self.order.count(lits.len());
        if levels >= FEW_LEVELS && self.order.has_scores_by_turns() {
            lits.len().min(MANY_LITERALS) as u32
        } else {
            levels.min(MANY_LEVELS)
        }
    }

    /// Counts a conflict; says whether a restart is due.
    pub fn is_restart_due(&mut self) -> bool
        ensures order { self.new.order ≡ self.old.order }
        ensures marks { self.new.marks ≡ self.old.marks }
    {
        if self.order.has_plan() {
            return false;
        }
        if self.order.has_scores() {
            self.restarts.is_next()
        } else {
            self.restarts.is_due()
        }
    }

    /// Keeps the values of literals that are taken from a trail, from this place on.
    pub fn leave(&mut self, undone: &[Lit], place: usize)
        ensures order { self.new.order ≡ self.old.order }
        ensures marks { self.new.marks ≡ self.old.marks }
    {
        self.order.reopen(undone);
        self.minimiser.cut(place);
    }
}

/// The decision level of each place of the trail; the levels of a lemma's literals; the variables that follow
/// from the lemma's literals, and those that do not.
#[derive(Drop)]
pub struct Minimiser {
    levels: Vec<u32>,
    met: Marks,
    implied: Marks,
    refused: Marks,
    waiting: Vec<usize>,
    tried: Vec<usize>,
}

impl Minimiser {
    /// For this many variables.
    fn new(alloc: Global, vars: u32) -> Result<Minimiser, AllocError>
        requires { vars < 2 ^ 31 }
    {
        let met = Marks::new(alloc, vars)?;
        let implied = Marks::new(alloc, vars)?;
        let refused = Marks::new(alloc, vars)?;
        Ok(Minimiser {
            levels: Vec::new(alloc),
            met,
            implied,
            refused,
            waiting: Vec::new(alloc),
            tried: Vec::new(alloc),
        })
    }

    /// Forgets the levels from this place on.
    pub fn cut(&mut self, len: usize) {
        self.levels.truncate(len);
    }

    /// Begins with a lemma whose literals stand at the places of these variables that are below the last
    /// decision.
    pub fn begin(
        &mut self,
        reasons: &[u64],
        variables: &[u32],
        places: &[usize],
        last: usize,
    ) -> Result<(), AllocError> {
        self.level(reasons)?;
        self.met.clear();
        self.implied.clear();
        self.refused.clear();
        for x in variables {
            let place = entry_or(places, *x as usize, 0);
            if place < last {
                let level = self.level_of(place);
                self.met.add(level);
            }
        }
        Ok(())
    }

    /// The level of a place of the trail.
    fn level_of(&self, place: usize) -> usize {
        entry_or(&self.levels, place, 0) as usize
    }

    /// Finds the levels of the places that are new.
    fn level(&mut self, reasons: &[u64]) -> Result<(), AllocError> {
        let mut place = self.levels.len();
        let mut level = if place > 0 { self.levels[place - 1] } else { 0 };
        while place < reasons.len() {
            if reasons[place] == 0 {
                level = level.saturating_add(1);
            }
            self.levels.push(level)?;
            place += 1;
        }
        Ok(())
    }

    /// How many levels the places of these literals have.
    fn levels_of(&mut self, lits: &[Lit], places: &[usize]) -> u32 {
        self.met.clear();
        let mut count = 0u32;
        for m in lits {
            let place = entry_or(places, m.variable() as usize, 0);
            let level = self.level_of(place);
            if !self.met.has(level) {
                self.met.add(level);
                count = count.saturating_add(1);
            }
        }
        count
    }

    /// Whether the literal at a place follows from marked ones, by reasons alone.
    pub fn follows(
        &mut self,
        clauses: &Clauses,
        trail: &[Lit],
        reasons: &[u64],
        places: &[usize],
        marks: &Marks,
        place: usize,
    ) -> Result<bool, AllocError>
        requires { AllPairs (λ e f. e.0 < f.0) clauses.now }
    {
        if entry_or(reasons, place, 0) == 0 {
            return Ok(false);
        }
        if self.is_implied(trail, place) {
            return Ok(true);
        }
        self.waiting.clear();
        self.tried.clear();
        self.walk(clauses, trail, reasons, places, marks, place)
    }

    /// Whether the literal at a place is known to follow.
    fn is_implied(&self, trail: &[Lit], place: usize) -> bool {
        place < trail.len() && self.implied.has(trail[place].variable() as usize)
    }

    /// Whether all that the literal at a place comes from follows, down to marked literals.
    fn walk(
        &mut self,
        clauses: &Clauses,
        trail: &[Lit],
        reasons: &[u64],
        places: &[usize],
        marks: &Marks,
        place: usize,
    ) -> Result<bool, AllocError>
        requires { AllPairs (λ e f. e.0 < f.0) clauses.now }
    {
        let mut next = place;
        let mut left = reasons.len();
        while left > 0 {
            left -= 1;
            let clause = clauses.under(entry_or(reasons, next, 0));
            if !self.looks_on(clause, reasons, places, marks, next)? {
                self.give_up(trail, next);
                return Ok(false);
            }
            match self.waiting.pop() {
                Some(waiting) => next = waiting,
                None => return Ok(true),
            }
        }
        Ok(false)
    }

    /// Notes which other literals of a reason have to follow too; false where one cannot.
    fn looks_on(
        &mut self,
        clause: &[Lit],
        reasons: &[u64],
        places: &[usize],
        marks: &Marks,
        own: usize,
    ) -> Result<bool, AllocError> {
        for m in clause {
            let x = m.variable() as usize;
            let place = entry_or(places, x, 0);
            if place == own || self.is_known(x, place, marks) {
                continue;
            }
            if self.is_refused(x, place, entry_or(reasons, place, 0)) {
                return Ok(false);
            }
            self.wait_for(x, place)?;
        }
        Ok(true)
    }

    /// Whether a variable, at a place, is valued without a decision, marked, or known to follow.
    fn is_known(&self, x: usize, place: usize, marks: &Marks) -> bool {
        self.level_of(place) == 0 || marks.has(x) || self.implied.has(x)
    }

    /// Whether a variable, at a place and with this reason, cannot follow.
    fn is_refused(&self, x: usize, place: usize, reason: u64) -> bool {
        reason == 0 || self.refused.has(x) || !self.met.has(self.level_of(place))
    }

    /// Tries whether a variable, at a place, follows.
    fn wait_for(&mut self, x: usize, place: usize) -> Result<(), AllocError> {
        self.implied.add(x);
        self.tried.push(x)?;
        self.waiting.push(place)?;
        Ok(())
    }

    /// The literal at a place does not follow, and of what was tried with it nothing is known.
    fn give_up(&mut self, trail: &[Lit], place: usize) {
        for x in &self.tried {
            self.implied.remove(*x);
        }
        if place < trail.len() {
            self.refused.add(trail[place].variable() as usize);
        }
    }
}
