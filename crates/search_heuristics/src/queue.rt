//! A queue of variables by when a conflict saw them last ('variable move to front', VMTF, of Ryan's Siege; Biere and
//! Fröhlich, 'Evaluating CDCL variable scoring schemes', 2015). It chooses what is decided, which no answer depends
//! on, so that nothing is said of it but that what it gives is open.
ghost use Rattle.std.specs.Prelude.{◌≡◌, ℕ, ◌<◌, ◌≤◌, ◌^◌, false, IfSome};
ghost use Rattle.lrat_model.specs.Literal.{Plus, Minus, has};

use crate::entries::entry_or;
use crate::order::is_open;
use assignment_trail::Assignment;
use lrat_model::Lit;
use std::alloc::{AllocError, Global};

/// The variables in a list that is linked both ways, what was seen last at its end, and room to sort them.
#[derive(Drop)]
pub struct Queue {
    links: Links,
    seen: Vec<(u64, u32)>,
}

impl Queue {
    /// The variables in order, so that the last is decided first.
    pub fn new(alloc: Global, vars: u32) -> Result<Queue, AllocError>
        requires { vars < 2 ^ 31 }
    {
        Ok(Queue {
            links: Links::new(alloc, vars)?,
            seen: Vec::new(alloc),
        })
    }

    /// Moves variables to the end, in the order in which they stood. O(n log n) for n of them.
    pub fn move_to_end(&mut self, variables: &[u32]) -> Result<(), AllocError> {
        self.seen.clear();
        for x in variables {
            let stamp = self.links.stamp_of(*x);
            self.seen.push((stamp, *x))?;
        }
        self.seen.sort_unstable();
        for (_, x) in &self.seen {
            self.links.unlink(*x);
            self.links.append(*x);
        }
        Ok(())
    }

    /// The variables of these literals lost their values.
    pub fn reopen(&mut self, undone: &[Lit]) {
        for l in undone {
            self.links.reopen(l.variable());
        }
    }

    /// The open variable that was seen last, where the queue finds one: O(1) for each that is not open and stands after
    /// it, once each until it is reopened.
    pub fn take_last_open(&mut self, assignment: &Assignment, vars: u32) -> Option<u32>
        requires few { vars < 2 ^ 31 }
        requires vars { assignment.now.vars ≡ vars }
        ensures { IfSome result (λ x. (0 < x) × (x ≤ vars) × (has assignment.now.trues (Plus x) ≡ false) × (has assignment.now.trues (Minus x) ≡ false)) }
    {
        let x = self.links.last_open(assignment, vars)?;
        self.links.next = x;
        Some(x)
    }

    /// The place on a trail of the first decision of a variable that was seen before one that is open, the length of the
    /// trail where there is none.
    pub fn overtaken(&self, assignment: &Assignment, reasons: &[u64], vars: u32) -> usize
        requires few { vars < 2 ^ 31 }
        requires vars { assignment.now.vars ≡ vars }
    {
        match self.links.last_open(assignment, vars) {
            Some(x) => first_before(
                &self.links,
                assignment.trail(),
                reasons,
                self.links.stamp_of(x),
            ),
            None => assignment.trail().len(),
        }
    }
}

/// What stands before and after each variable, 0 before the first and after the last; stamps, which are the greater the
/// later the variable was seen; the last variable, and one after which none is open.
#[derive(Drop)]
struct Links {
    before: Vec<u32>,
    after: Vec<u32>,
    stamps: Vec<u64>,
    last: u32,
    next: u32,
    stamp: u64,
}

impl Links {
    /// The variables in order.
    fn new(alloc: Global, vars: u32) -> Result<Links, AllocError>
        requires { vars < 2 ^ 31 }
    {
        let room = vars as usize + 1;
        let mut before = vec![in alloc; 0; room]?;
        let mut after = vec![in alloc; 0; room]?;
        let mut stamps = vec![in alloc; 0; room]?;
        let mut x = 0;
        while x < vars {
            after[x as usize] = x + 1;
            x += 1;
            before[x as usize] = x - 1;
            stamps[x as usize] = x as u64;
        }
        Ok(Links {
            before,
            after,
            stamps,
            last: vars,
            next: vars,
            stamp: vars as u64,
        })
    }

    /// Takes a variable out of its place.
    fn unlink(&mut self, x: u32) {
        let before = entry_or(&self.before, x as usize, 0);
        let after = entry_or(&self.after, x as usize, 0);
        set(&mut self.after, before, after);
        set(&mut self.before, after, before);
        if after == 0 {
            self.last = before;
        }
        if self.next == x {
            self.next = before;
        }
    }

    /// Puts a variable that stands nowhere at the end.
    fn append(&mut self, x: u32) {
        let last = self.last;
        set(&mut self.after, last, x);
        set(&mut self.before, x, last);
        set(&mut self.after, x, 0);
        self.last = x;
        self.stamp = self.stamp.saturating_add(1);
        if let Some(stamp) = self.stamps.get_mut(x as usize) {
            *stamp = self.stamp;
        }
    }

    /// The stamp of a variable.
    fn stamp_of(&self, x: u32) -> u64 {
        entry_or(&self.stamps, x as usize, 0)
    }

    /// A variable lost its value.
    fn reopen(&mut self, x: u32) {
        if self.stamp_of(x) > self.stamp_of(self.next) {
            self.next = x;
        }
    }

    /// The open variable that was seen last, where one is found.
    fn last_open(&self, assignment: &Assignment, vars: u32) -> Option<u32>
        requires few { vars < 2 ^ 31 }
        requires vars { assignment.now.vars ≡ vars }
        ensures { IfSome result (λ x. (0 < x) × (x ≤ vars) × (has assignment.now.trues (Plus x) ≡ false) × (has assignment.now.trues (Minus x) ≡ false)) }
    {
        let mut x = self.next;
        let mut left = vars;
        while left > 0 {
            if x == 0 || x > vars {
                return None;
            }
            if is_open(assignment, x) {
                return Some(x);
            }
            x = entry_or(&self.before, x as usize, 0);
            left -= 1;
        }
        None
    }
}

/// The place of the first decision of a lower stamp than this one, the length of the trail where there is none.
fn first_before(links: &Links, trail: &[Lit], reasons: &[u64], stamp: u64) -> usize {
    let mut place = 0;
    while place < trail.len() && place < reasons.len() {
        if reasons[place] == 0 && links.stamp_of(trail[place].variable()) < stamp {
            return place;
        }
        place += 1;
    }
    trail.len()
}

/// Sets the entry of a variable.
fn set(links: &mut [u32], x: u32, to: u32) {
    if let Some(link) = links.get_mut(x as usize) {
        *link = to;
    }
}
