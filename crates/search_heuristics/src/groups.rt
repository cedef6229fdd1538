//! The groups of a plan, made one at a time: as they are given, or from the rows of two counters whose gates exclude each
//! other. No answer depends on them, and nothing is said of them but that they are safe.
ghost use Rattle.std.specs.Prelude.{◌<◌, ◌^◌, IfSome};

use lrat_model::Lit;
use std::alloc::{AllocError, Global};

/// Groups that are given, or those of two counters.
#[derive(Drop)]
pub enum Part {
    Given(Vec<Vec<Lit>>),
    Rows(Rows),
}

/// A counter: how many of its inputs have to be true, and the first variable of each row. The variable after it by j - 1
/// says that at least j of the row's first inputs are true.
#[derive(Drop)]
pub struct CounterRows {
    pub wanted: usize,
    pub rows: Vec<u32>,
}

/// A row of each of two counters, and how many inputs are to be true in the one or the other.
#[derive(Clone, Copy)]
pub struct RowPair {
    pub row: u32,
    pub other: u32,
    pub wanted: u32,
}

/// The places of two counters among those of the plan, and the pairs of rows that are gone through, in order.
#[derive(Drop)]
pub struct Rows {
    pub first: usize,
    pub other: usize,
    pub pairs: Vec<RowPair>,
}

/// The parts one after another: which of them is next, which of its groups or pairs of rows, and which group of that pair.
#[derive(Drop)]
pub struct PlannedGroups {
    counters: Vec<CounterRows>,
    parts: Vec<Part>,
    part: usize,
    at: usize,
    turn: usize,
}

impl PlannedGroups {
    /// The groups of these parts, over these counters.
    pub fn of(counters: Vec<CounterRows>, parts: Vec<Part>) -> PlannedGroups {
        PlannedGroups {
            counters,
            parts,
            part: 0,
            at: 0,
            turn: 0,
        }
    }

    /// Makes the next group in the place of another, an empty one between two parts or where a pair of rows has none; says
    /// whether a part was left. Linear in the group.
    pub fn next(&mut self, group: &mut Vec<Lit>) -> Result<bool, AllocError> {
        group.clear();
        let is_made = match self.parts.get(self.part) {
            Some(Part::Given(groups)) => give(groups, self.at, group)?,
            Some(Part::Rows(rows)) => match pair_at(&self.counters, rows, self.at) {
                Some(pair) => pair.make(self.turn, group)?,
                None => Made::Nothing,
            },
            None => return Ok(false),
        };
        match is_made {
            Made::More => self.turn = self.turn.saturating_add(1),
            Made::Last => {
                self.at = self.at.saturating_add(1);
                self.turn = 0;
            }
            Made::Nothing => {
                self.part = self.part.saturating_add(1);
                self.at = 0;
                self.turn = 0;
            }
        }
        Ok(true)
    }
}

/// Whether a group was made, and more follow at this place, or it was the last one there; or there is no such place.
#[derive(Clone, Copy)]
enum Made {
    More,
    Last,
    Nothing,
}

/// Puts the group at a place into another.
fn give(groups: &[Vec<Lit>], at: usize, group: &mut Vec<Lit>) -> Result<Made, AllocError> {
    match groups.get(at) {
        Some(lits) => {
            group.extend_from_slice(lits)?;
            Ok(Made::Last)
        }
        None => Ok(Made::Nothing),
    }
}

/// Two counters and a pair of their rows.
#[derive(Clone, Copy)]
struct Pair<'a> {
    first: &'a CounterRows,
    other: &'a CounterRows,
    rows: RowPair,
}

/// The pair of rows at a place, with the counters.
fn pair_at<'a>(counters: &'a [CounterRows], rows: &Rows, at: usize) -> Option<Pair<'a>> {
    Some(Pair {
        first: counters.get(rows.first)?,
        other: counters.get(rows.other)?,
        rows: *rows.pairs.get(at)?,
    })
}

impl Pair<'_> {
    /// Makes a group: not more than this many of the first row's inputs, which fall with each turn, and fewer than the rest of
    /// the other's.
    fn make(&self, turn: usize, group: &mut Vec<Lit>) -> Result<Made, AllocError> {
        let few = self.first.most(self.rows.row).saturating_sub(turn);
        let least = self.least();
        if few >= least {
            let rest = (self.rows.wanted as usize)
                .saturating_sub(few)
                .saturating_sub(1);
            self.first.put_output(group)?;
            self.other.put_output(group)?;
            self.first.put_row(self.rows.row, few, group)?;
            self.other.put_row(self.rows.other, rest, group)?;
        }
        if few > least {
            Ok(Made::More)
        } else {
            Ok(Made::Last)
        }
    }

    /// With how few of the first row's inputs the last group is made.
    fn least(&self) -> usize {
        let of_other = self.other.most(self.rows.other).saturating_add(1);
        self.first
            .least(self.rows.row)
            .max((self.rows.wanted as usize).saturating_sub(of_other))
    }
}

impl CounterRows {
    /// How many of a row's inputs are counted.
    fn most(&self, row: u32) -> usize {
        self.wanted.min(row as usize)
    }

    /// The most that are too few of a row's inputs, whatever comes later.
    fn least(&self, row: u32) -> usize {
        let later = self.rows.len().saturating_sub(row as usize);
        self.wanted.saturating_sub(later).saturating_sub(1)
    }

    /// The variable that at least this many of a row's inputs are true.
    fn variable(&self, row: usize, count: usize) -> Option<u32>
        ensures { IfSome result (λ x. (0 < x) × (x < 2 ^ 31)) }
    {
        let first = *self.rows.get(row.checked_sub(1)?)? as usize;
        let x = first.saturating_add(count.saturating_sub(1));
        if 0 < x && x < 1 << 31 {
            Some(x as u32)
        } else {
            None
        }
    }

    /// Puts into a group that enough inputs are true.
    fn put_output(&self, group: &mut Vec<Lit>) -> Result<(), AllocError> {
        if let Some(x) = self.variable(self.rows.len(), self.wanted) {
            group.push(Lit::positive(x))?;
        }
        Ok(())
    }

    /// Puts into a group that not more than this many of a row's inputs are true, from the most down, as far as those that
    /// come later can make them enough.
    fn put_row(&self, row: u32, few: usize, group: &mut Vec<Lit>) -> Result<(), AllocError> {
        let least = few.max(self.least(row));
        let mut count = self.most(row);
        while count > least {
            if let Some(x) = self.variable(row as usize, count) {
                group.push(Lit::negative(x))?;
            }
            count -= 1;
        }
        Ok(())
    }
}
