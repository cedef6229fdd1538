//! A heap of variables by score. It chooses what is decided, which no answer depends on, so that nothing is
//! said of it but that it is safe.
ghost use Rattle.std.specs.Prelude.{◌≡◌, ℕ, ◌+◌, ◌<◌, ◌≤◌, ◌^◌, Some, length};

use crate::entries::entry_or;
use std::alloc::{AllocError, Global};

/// Variables, none of a greater score than the one at half its place, and where each stands, from 1 on.
#[derive(Drop)]
pub struct Heap {
    pub(crate) variables: Vec<u32>,
    pub(crate) places: Vec<usize>,
    pub(crate) size: usize,
}

impl Heap {
    /// All variables, with scores alike.
    pub fn new(alloc: Global, vars: u32) -> Result<Heap, AllocError>
        requires { vars < 2 ^ 31 }
    {
        let mut variables = vec![in alloc; 0; vars as usize]?;
        let mut places = vec![in alloc; 0; vars as usize + 1]?;
        let mut x = 0;
        while x < vars {
            variables[x as usize] = x + 1;
            x += 1;
            places[x as usize] = x as usize;
        }
        Ok(Heap {
            variables,
            places,
            size: vars as usize,
        })
    }

    /// Puts a variable in, where it is not. O(log n), and O(1) where it is, as are most that a search asks for.
    #[inline]
    pub fn insert(&mut self, x: u32, scores: &[u64]) {
        if entry_or(&self.places, x as usize, 0) == 0 {
            self.append(x, scores);
        }
    }

    /// Puts a variable in that is not. O(log n).
    fn append(&mut self, x: u32, scores: &[u64]) {
        let at = self.size;
        if at < self.variables.len() {
            self.variables[at] = x;
            self.size = at + 1;
            set_place(&mut self.places, x, at + 1);
            rise(&mut self.variables, &mut self.places, scores, at);
        }
    }

    /// Moves a variable whose score was raised. O(log n).
    pub fn raised(&mut self, x: u32, scores: &[u64]) {
        let place = entry_or(&self.places, x as usize, 0);
        if place > 0 {
            rise(&mut self.variables, &mut self.places, scores, place - 1);
        }
    }

    /// Takes the variable of the greatest score. O(log n).
    pub fn pop(&mut self, scores: &[u64]) -> Option<u32>
        ensures fewer { (x : ℕ) → result ≡ Some x → self.new.size + 1 ≡ self.old.size }
    {
        if self.size == 0 || self.size > self.variables.len() {
            return None;
        }
        let last = self.size - 1;
        let top = self.variables[0];
        exchange(&mut self.variables, &mut self.places, 0, last);
        set_place(&mut self.places, top, 0);
        self.size = last;
        sink(&mut self.variables, &mut self.places, scores, last);
        Some(top)
    }
}

/// Notes where a variable stands.
fn set_place(places: &mut [usize], x: u32, place: usize)
    ensures { length places.new ≡ length places.old }
{
    if (x as usize) < places.len() {
        places[x as usize] = place;
    }
}

/// The score of the variable at a place.
fn score_at(variables: &[u32], scores: &[u64], at: usize) -> u64 {
    match variables.get(at) {
        Some(x) => entry_or(scores, *x as usize, 0),
        None => 0,
    }
}

/// Exchanges the variables at two places.
fn exchange(variables: &mut [u32], places: &mut [usize], a: usize, b: usize)
    ensures variables { length variables.new ≡ length variables.old }
    ensures places { length places.new ≡ length places.old }
{
    if a < variables.len() && b < variables.len() {
        variables.swap(a, b);
        set_place(places, variables[a], a + 1);
        set_place(places, variables[b], b + 1);
    }
}

/// Moves the variable at a place up to where none above has a smaller score.
fn rise(variables: &mut [u32], places: &mut [usize], scores: &[u64], from: usize)
    ensures variables { length variables.new ≡ length variables.old }
    ensures places { length places.new ≡ length places.old }
{
    let mut at = from;
    while at > 0 {
        let above = (at - 1) / 2;
        if score_at(variables, scores, at) <= score_at(variables, scores, above) {
            break;
        }
        exchange(variables, places, at, above);
        at = above;
    }
}

/// Moves the first variable down to where none below, up to the size, has a greater score.
fn sink(variables: &mut [u32], places: &mut [usize], scores: &[u64], size: usize)
    ensures variables { length variables.new ≡ length variables.old }
    ensures places { length places.new ≡ length places.old }
{
    let mut at = 0;
    while at < size / 2 {
        let below = better_below(variables, scores, 2 * at + 1, size);
        if score_at(variables, scores, below) <= score_at(variables, scores, at) {
            break;
        }
        exchange(variables, places, at, below);
        at = below;
    }
}

/// The one of this place and the next of the greater score.
fn better_below(variables: &[u32], scores: &[u64], left: usize, size: usize) -> usize
    requires { left < size }
    ensures least { left ≤ result }
    ensures bound { result < size }
{
    let right = left + 1;
    if right < size && score_at(variables, scores, right) > score_at(variables, scores, left) {
        right
    } else {
        left
    }
}
