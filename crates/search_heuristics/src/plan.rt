//! A plan of decisions: groups of literals, each of which a search decides one after another up to a conflict, before it
//! goes on by its own order. Where a proof of a known form is short, a search that follows it so learns its lemmas one by
//! one. No answer depends on it, and nothing is said of it but that it is safe.
ghost use Rattle.std.specs.Prelude.{◌≡◌, ◌<◌, IfSome};
ghost use Rattle.lrat_model.specs.Literal.{variable_of};

use crate::entries::entry_or;
use crate::groups::PlannedGroups;
use assignment_trail::Assignment;
use lrat_model::Lit;
use std::alloc::{AllocError, Global};

/// The groups, the one that is next, and how many of its literals were gone through; how many groups may be looked at and
/// lemmas come before the plan is dropped; what was decided of it and stands on the trail, and what is to be decided now.
#[derive(Drop)]
pub struct Plan {
    groups: PlannedGroups,
    group: Vec<Lit>,
    at: usize,
    left: usize,
    lemmas: u64,
    has_begun: bool,
    decided: Vec<Lit>,
    planned: Option<Lit>,
}

/// What is to be done with the next group: the trail is cut at a place, a literal of it decided, or another one looked at.
enum Turn {
    Cut(usize),
    Decide,
    Pass,
}

impl Plan {
    /// No plan.
    pub fn none(alloc: Global) -> Plan {
        Plan::of(
            alloc,
            PlannedGroups::of(Vec::new(alloc), Vec::new(alloc)),
            0,
            0,
        )
    }

    /// These groups, as long as no more are looked at and no more lemmas come than this many.
    pub fn of(alloc: Global, groups: PlannedGroups, left: usize, lemmas: u64) -> Plan {
        Plan {
            groups,
            group: Vec::new(alloc),
            at: 0,
            left,
            lemmas,
            has_begun: false,
            decided: Vec::new(alloc),
            planned: None,
        }
    }

    /// Whether groups are left.
    pub fn is_on(&self) -> bool {
        self.lemmas > 0 && self.left > 0
    }

    /// How many times the trail may be cut before the next conflict: as often as a group is left or a literal decided, and
    /// at the beginning and the end.
    pub fn cuts(&self) -> usize {
        if !self.is_on() {
            return 0;
        }
        self.left
            .saturating_add(self.decided.len())
            .saturating_add(2)
    }

    /// Counts a lemma. What was to be decided is none any more.
    pub fn count(&mut self) {
        self.lemmas = self.lemmas.saturating_sub(1);
        self.at = 0;
        self.planned = None;
    }

    /// Looks for the next literal to decide, or a place where the trail is to be cut before. Linear in the literals of the
    /// groups that are passed over.
    pub fn look(
        &mut self,
        assignment: &Assignment,
        reasons: &[u64],
    ) -> Result<Option<usize>, AllocError> {
        self.planned = None;
        if !self.is_on() {
            return Ok(None);
        }
        if !self.has_begun {
            self.has_begun = true;
            return Ok(Some(first_decision(reasons)));
        }
        self.see_what_stands(assignment);
        while self.left > 0 {
            match self.turn(assignment)? {
                Turn::Cut(place) => return Ok(Some(place)),
                Turn::Decide => return Ok(None),
                Turn::Pass => self.pass()?,
            }
        }
        self.decided.clear();
        Ok(Some(first_decision(reasons)))
    }

    /// Has the next group made.
    fn pass(&mut self) -> Result<(), AllocError>
        requires { 0 < self.old.left }
        ensures { self.new.left < self.old.left }
    {
        self.left -= 1;
        self.at = 0;
        let is_left = self.groups.next(&mut self.group)?;
        if !is_left {
            self.left = 0;
        }
        Ok(())
    }

    /// Forgets what was decided from the first literal on that is not true any more. After a deletion the trail is gone, and
    /// no lemma came.
    fn see_what_stands(&mut self, assignment: &Assignment) {
        let stands = true_up_to(&self.decided, 0, assignment);
        if stands < self.decided.len() {
            self.decided.truncate(stands);
            self.at = 0;
        }
    }

    /// What is to be done with the next group.
    fn turn(&mut self, assignment: &Assignment) -> Result<Turn, AllocError>
        ensures { self.new.left ≡ self.old.left }
    {
        if self.group.is_empty() {
            return Ok(Turn::Pass);
        }
        if self.at == 0 {
            let met = begun_by(&self.group, &self.decided, assignment);
            if let Some(l) = self.decided.get(met) {
                let place = entry_or(assignment.places(), l.variable() as usize, 0);
                self.decided.truncate(met);
                return Ok(Turn::Cut(place));
            }
            if has_false(&self.group, assignment) {
                return Ok(Turn::Pass);
            }
        }
        self.at = true_up_to(&self.group, self.at, assignment);
        match self.group.get(self.at) {
            Some(l) => {
                if is_false(assignment, *l) {
                    return Ok(Turn::Pass);
                }
                self.decided.push(*l)?;
                self.planned = Some(*l);
                Ok(Turn::Decide)
            }
            None => Ok(Turn::Pass),
        }
    }

    /// The literal that is to be decided now.
    pub fn planned(&self) -> Option<Lit> {
        self.planned
    }

    /// The literal that is to be decided now, if it is one of this variable.
    pub fn literal_of(&self, x: u32) -> Option<Lit>
        ensures { IfSome result (λ l. variable_of l ≡ x) }
    {
        match self.planned {
            Some(l) => { if l.variable() == x { Some(l) } else { None } }
            None => None,
        }
    }
}

/// Whether a literal is true.
fn is_true(assignment: &Assignment, l: Lit) -> bool {
    l.variable() as u64 <= assignment.vars() && assignment.is_true(l)
}

/// Whether a literal is false, or none of these variables.
fn is_false(assignment: &Assignment, l: Lit) -> bool {
    l.variable() as u64 > assignment.vars() || assignment.is_true(l.negated())
}

/// The first place from this one on whose literal is not true, the number of literals where there is none.
fn true_up_to(lits: &[Lit], from: usize, assignment: &Assignment) -> usize {
    let mut place = from;
    while place < lits.len() && is_true(assignment, lits[place]) {
        place += 1;
    }
    place
}

/// Whether one of these literals is false.
fn has_false(lits: &[Lit], assignment: &Assignment) -> bool {
    for l in lits {
        if is_false(assignment, *l) {
            return true;
        }
    }
    false
}

/// How many of the decided literals begin a group, in order, where those of the group between them are true.
fn begun_by(group: &[Lit], decided: &[Lit], assignment: &Assignment) -> usize {
    let mut met = 0;
    for l in group {
        if met < decided.len() && decided[met].same(*l) {
            met += 1;
        } else if !is_true(assignment, *l) {
            return met;
        }
    }
    met
}

/// The place of the first decision, the number of places where there is none.
fn first_decision(reasons: &[u64]) -> usize {
    let mut place = 0;
    while place < reasons.len() && reasons[place] != 0 {
        place += 1;
    }
    place
}
