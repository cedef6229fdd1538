//! Which of two orders of decisions a search goes by: the one whose lemmas have fewer literals, where each is tried from
//! time to time. Formulas of symmetric systems are refuted in a fifth of the lemmas by when a conflict saw a variable
//! last, those of random systems in half of them by scores. A caller may have scores decide in each turn. No answer depends
//! on it.

use crate::mean::Mean;

/// The lemmas of a turn in which an order is tried, and of any other.
const SHORT: u64 = 500;

const LONG: u64 = 1000;

/// In one of this many turns the order is tried whose lemmas had more literals.
const TURNS: u64 = 24;

/// Over how many lemmas a mean goes.
const LEMMAS: u64 = 1000;

/// Whether scores decide, whether they do in each turn, and whether the turns are over; whether the numbers of the variables
/// decide in place of both; the turns so far, and the lemmas
/// that are left of this one; the mean length of lemmas in both orders.
#[derive(Drop)]
pub struct Turns {
    by_scores: bool,
    is_fixed: bool,
    is_settled: bool,
    is_by_number: bool,
    turn: u64,
    left: u64,
    of_seen: Mean,
    of_scores: Mean,
}

impl Turns {
    /// What was seen last decides at first.
    pub fn new() -> Turns {
        Turns {
            by_scores: false,
            is_fixed: false,
            is_settled: false,
            is_by_number: false,
            turn: 0,
            left: SHORT,
            of_seen: Mean::new(LEMMAS),
            of_scores: Mean::new(LEMMAS),
        }
    }

    /// Whether scores decide.
    pub fn by_scores(&self) -> bool {
        self.by_scores
    }

    /// Whether the turns are over, and scores decide for good.
    pub fn is_settled(&self) -> bool {
        self.is_settled
    }

    /// Scores decide in each turn from here on.
    pub fn fix(&mut self) {
        self.by_scores = true;
        self.is_fixed = true;
    }

    /// Whether neither of both orders decides, but the numbers of the variables do.
    pub fn by_number(&self) -> bool {
        self.is_by_number
    }

    /// The numbers of the variables decide from here on.
    pub fn number(&mut self) {
        self.is_by_number = true;
    }

    /// The turns are over, and scores decide from here on.
    pub fn settle(&mut self) {
        self.by_scores = true;
        self.is_settled = true;
    }

    /// Counts a lemma of this many literals.
    pub fn count(&mut self, length: u32) {
        if self.by_scores {
            self.of_scores.add(length);
        } else {
            self.of_seen.add(length);
        }
        if self.left > 1 {
            self.left -= 1;
        } else if !self.is_settled {
            self.begin();
        }
    }

    /// Begins the next turn. The second is by scores, of which nothing is known yet, and each is where that is fixed.
    fn begin(&mut self) {
        self.turn = self.turn.saturating_add(1);
        let tries = self.turn == 1 || self.turn % TURNS == 0;
        let is_shorter = self.of_scores.value() < self.of_seen.value();
        self.by_scores = self.is_fixed || self.turn == 1 || is_shorter != tries;
        self.left = if tries { SHORT } else { LONG };
    }
}
