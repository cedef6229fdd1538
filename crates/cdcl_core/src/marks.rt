//! Marks on variables that are all taken away in constant time: a mark is the number of the present round.
ghost use Rattle.std.specs.Prelude.{◌≡◌, ◌+◌, ◌<◌, ◌≤◌, ◌^◌, true, false, All, IfOk, length, slice_index_or, slice_set};
ghost use Rattle.lrat_model.specs.Literal.{Literal};
ghost use Rattle.cdcl_core.specs.Marks.{is_marked};

use std::alloc::{AllocError, Global};
use std::marker::Model;

/// Which of the first numbers are marked, seen as a list of truth values, and those that were marked since
/// all marks were taken away, in order.
#[derive(Drop)]
pub struct Marks {
    rounds: Vec<u32>,
    round: u32,
    listed: Vec<u32>,
    count: usize,
}

impl Model for Marks {
    ghost use Rattle.std.specs.Prelude.{List, Bool};

    ghost Value = { List Bool };

    ghost use Rattle.cdcl_core.specs.Rounds.{shown, IsRound};

    ghost view = { shown };

    ghost invariant = { IsRound };
}

impl Marks {
    /// No number up to this one is marked.
    pub fn new(alloc: Global, vars: u32) -> Result<Marks, AllocError>
        requires { vars < 2 ^ 31 }
        ensures { IfOk result (λ marks. length marks ≡ vars + 1) }
    {
        let room = vars as usize + 1;
        Ok(Marks {
            rounds: vec![in alloc; 0; room]?,
            round: 0,
            listed: vec![in alloc; 0; room]?,
            count: 0,
        })
    }

    /// Takes all marks away. O(1), but once in 2^32 rounds.
    pub fn clear(&mut self)
        ensures length { length self.new ≡ length self.old }
        ensures none { (l : Literal) → is_marked self.new l ≡ false }
    {
        self.round = next_round(&mut self.rounds, self.round);
        self.count = 0;
    }

    /// Whether the number is marked; none out of range is.
    pub fn has(&self, x: usize) -> bool
        ensures { result ≡ slice_index_or self.now x false }
    {
        match self.rounds.get(x) {
            Some(round) => *round == self.round,
            None => false,
        }
    }

    /// Marks a number.
    pub fn set(&mut self, x: usize)
        requires { x < length self.old }
        ensures { self.new ≡ slice_set self.old x true }
    {
        let is_new = self.rounds[x] != self.round;
        self.rounds[x] = self.round;
        list(&mut self.listed, &mut self.count, x, is_new);
    }

    /// Marks a number that is in range.
    pub fn add(&mut self, x: usize) {
        if x < self.rounds.len() {
            self.rounds[x] = self.round;
        }
    }

    /// Takes the mark of a number away.
    pub fn remove(&mut self, x: usize) {
        if x < self.rounds.len() {
            self.rounds[x] = 0;
        }
    }

    /// What was marked by `set` since all marks were taken away, each once.
    pub fn listed(&self) -> &[u32] {
        if self.count <= self.listed.len() {
            &self.listed[..self.count]
        } else {
            &[]
        }
    }
}

/// Puts a number on a list where it is new there.
fn list(listed: &mut Vec<u32>, count: &mut usize, x: usize, is_new: bool) {
    if is_new && *count < listed.len() && x < 1 << 31 {
        listed[*count] = x as u32;
        *count += 1;
    }
}

/// A round later than all of these.
fn next_round(rounds: &mut Vec<u32>, round: u32) -> u32
    requires { All (λ r. r ≤ round) rounds.old.items }
    ensures length { length rounds.new.items ≡ length rounds.old.items }
    ensures later { All (λ r. r < result) rounds.new.items }
{
    if round == u32::MAX {
        forget(rounds);
        return 1;
    }
    round + 1
}

/// All numbers are 0.
fn forget(rounds: &mut Vec<u32>)
    ensures length { length rounds.new.items ≡ length rounds.old.items }
    ensures none { All (λ r. r < 1) rounds.new.items }
{
    let mut done = 0;
    while done < rounds.len() {
        rounds[done] = 0;
        done += 1;
    }
}
