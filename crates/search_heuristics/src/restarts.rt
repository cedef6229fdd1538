//! When a search starts again from its first decision: where the lemmas learnt of late have more decision levels than
//! those of the whole search in the mean (Audemard and Simon, 'Refining restarts strategies for SAT and UNSAT', 2012;
//! with the moving averages of Biere and Fröhlich, 'Evaluating CDCL restart schemes', 2015); in a search for many models
//! by Luby's sequence (Luby, Sinclair and Zuckerman, 'Optimal speedup of Las Vegas algorithms', 1993), in Knuth's form.
//! No answer depends on it.

use crate::mean::Mean;

const UNIT: u64 = 100;

/// Over how many lemmas the two means go.
const LATE: u64 = 32;

const ALL: u64 = 1 << 16;

/// The fewest conflicts between two restarts.
const FEWEST: u64 = 5;

/// The means of the numbers of levels, late and of all; how many lemmas came since the last restart; a place in the sequence 1, 1, 2, 1, 1, 2, 4, .. and the conflicts that are left there.
#[derive(Drop)]
pub struct Restarts {
    late: Mean,
    all: Mean,
    since: u64,
    turn: u64,
    length: u64,
    left: u64,
}

impl Restarts {
    /// No lemma came so far.
    pub fn new() -> Restarts {
        Restarts {
            late: Mean::new(LATE),
            all: Mean::new(ALL),
            since: 0,
            turn: 1,
            length: 1,
            left: UNIT,
        }
    }

    /// A lemma of this many levels came.
    pub fn note(&mut self, levels: u32) {
        self.since = self.since.saturating_add(1);
        self.late.add(levels);
        self.all.add(levels);
    }

    /// Whether the late lemmas have more than 1.15 times the levels of all.
    pub fn is_due(&mut self) -> bool {
        let late = self.late.value().saturating_mul(100);
        let all = self.all.value().saturating_mul(115);
        if self.since < FEWEST || late <= all {
            return false;
        }
        self.since = 0;
        true
    }

    /// Counts a conflict; says whether Luby's sequence has a restart there.
    pub fn is_next(&mut self) -> bool {
        if self.left > 1 {
            self.left -= 1;
            return false;
        }
        if self.turn & self.turn.wrapping_neg() == self.length {
            self.turn = self.turn.saturating_add(1);
            self.length = 1;
        } else {
            self.length = self.length.saturating_mul(2);
        }
        self.left = self.length.saturating_mul(UNIT);
        true
    }
}
