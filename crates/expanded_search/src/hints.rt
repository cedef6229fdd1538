//! The hints of a lemma over the formula, from those over its gates written out. Each is the id of a clause held, as a log wants
//! it; that they show the lemma is not said here, since each lemma is checked.
ghost use Rattle.std.specs.Prelude.{◌≡◌, ◌<◌, ◌^◌, []};
ghost use Rattle.expanded_search.specs.Named.{AreNamed};

use crate::values::{Sight, Values};
use counter_expansion::{Counter, Origin, Written};
use lrat_checker::Checker;
use lrat_model::Lit;
use lrat_text::HintsRef;
use std::alloc::{AllocError, Global};

/// Each id that is given out here is below it.
pub const END_OF_IDS: u64 = 1 << 62;

/// The ids that were found for a lemma, the values that they lead to, and whether they lead to a clause with all literals
/// false.
#[derive(Drop)]
pub struct Hints {
    pub ids: Vec<u64>,
    values: Values,
    has_conflict: bool,
}

/// The last ids of the formula and of what is written out in its place, past which lemmas have their ids.
#[derive(Clone, Copy)]
pub struct Bases {
    pub formula: u64,
    pub written: u64,
}

/// The variable of a row's first place, and the id of its first clause.
#[derive(Clone, Copy)]
struct Row {
    variable: usize,
    id: u64,
}

impl Hints {
    /// None, among this many variables.
    pub fn new(alloc: Global, vars: u64) -> Result<Hints, AllocError>
        requires { vars < 2 ^ 31 }
    {
        Ok(Hints {
            ids: Vec::new(alloc),
            values: Values::new(alloc, vars)?,
            has_conflict: false,
        })
    }

    /// Looks for the hints of a lemma. O(the literals of the clauses and sets that its own hints name, and for each of these that
    /// is a set of a gate's inputs the rows and cells of the gate's counter).
    pub fn look_for(
        &mut self,
        checker: &Checker,
        written: &Written,
        bases: Bases,
        lits: &[Lit],
        hints: HintsRef<'_>,
    ) -> Result<(), AllocError>
        ensures { AreNamed checker.now.database.held self.new.ids.items }
    {
        self.begin(lits)?;
        for place in 0..count_of(hints) {
            self.follow(checker, written, bases, id_at(hints, place))?;
        }
        Ok(())
    }

    /// The lemma's literals are false, and there is no hint yet.
    fn begin(&mut self, lits: &[Lit]) -> Result<(), AllocError>
        ensures { self.new.ids.items ≡ [] }
    {
        self.ids.clear();
        self.values.clear();
        self.has_conflict = false;
        for l in lits {
            self.values.make_true(l.negated())?;
        }
        Ok(())
    }

    /// Goes after one hint: a lemma, a clause of the formula, or a set of the inputs of a gate, for which the gate's counter
    /// is gone through.
    fn follow(
        &mut self,
        checker: &Checker,
        written: &Written,
        bases: Bases,
        id: u64,
    ) -> Result<(), AllocError>
        requires { AreNamed checker.now.database.held self.old.ids.items }
        ensures { AreNamed checker.now.database.held self.new.ids.items }
    {
        if self.has_conflict {
            return Ok(());
        }
        if id > bases.written {
            return self.offer(checker, (id - bases.written).saturating_add(bases.formula));
        }
        match origin_of(written, id) {
            Origin::Formula(own) => self.offer(checker, own),
            Origin::Gate { number, head } => {
                let Some(set) = written.store.lits(id) else {
                    return Ok(());
                };
                match written.counters.get(number as usize) {
                    Some(counter) => self.count(checker, counter, head, set),
                    None => Ok(()),
                }
            }
        }
    }

    /// Goes through a gate's counter for a set of its inputs, which has the head's negation first, where that forces a literal or
    /// has all false: from the head to the gate; up the rows, where inputs of the set are false; and down again to the input that
    /// is forced, or else from the gate to the head. O(the set's literals, and where it is gone through the rows and cells of the
    /// counter).
    fn count(
        &mut self,
        checker: &Checker,
        counter: &Counter,
        head: u64,
        set: &[Lit],
    ) -> Result<(), AllocError>
        requires { AreNamed checker.now.database.held self.old.ids.items }
        ensures { AreNamed checker.now.database.held self.new.ids.items }
    {
        let forces_input = match self.values.see(set) {
            Sight::Forces(l) => l.number() > 0,
            Sight::Fails => false,
            Sight::Holds | Sight::Open => return Ok(()),
        };
        let Some((_, inputs)) = set.split_first() else {
            return Ok(());
        };
        self.offer(checker, head)?;
        self.rise(checker, counter, inputs)?;
        if forces_input {
            self.fall(checker, counter, inputs)
        } else {
            self.offer(checker, head)
        }
    }

    /// Up the rows: where f of the first i inputs are of the set and false, the places past i - f of row i are. Those past the
    /// head's column are not wanted, since no place leads to one in a later column.
    fn rise(&mut self, checker: &Checker, counter: &Counter, set: &[Lit]) -> Result<(), AllocError>
        requires { AreNamed checker.now.database.held self.old.ids.items }
        ensures { AreNamed checker.now.database.held self.new.ids.items }
    {
        let last = column_of(counter, set);
        let mut met: usize = 0;
        let mut falses: usize = 0;
        let mut number: usize = 0;
        let mut id = counter.start;
        for input in &counter.inputs {
            number = number.saturating_add(1);
            let is_met = is_at(set, met, *input);
            let is_false = is_met && self.values.is_false(*input);
            met = met.saturating_add(usize::from(is_met));
            falses = falses.saturating_add(usize::from(is_false));
            let width = number.min(counter.threshold);
            let from = number.saturating_sub(falses).saturating_add(1);
            let row = Row {
                variable: variable_at(counter, number, 1),
                id,
            };
            self.rise_in(checker, row, from, width.min(last), is_false)?;
            id = id.saturating_add(size_of_row(width));
        }
        Ok(())
    }

    /// In a row: the places from a column on to another are false, each by its first clause where the row's input is, and else by
    /// its second.
    fn rise_in(
        &mut self,
        checker: &Checker,
        row: Row,
        from: usize,
        to: usize,
        is_first: bool,
    ) -> Result<(), AllocError>
        requires { AreNamed checker.now.database.held self.old.ids.items }
        ensures { AreNamed checker.now.database.held self.new.ids.items }
    {
        for column in from..to.saturating_add(1) {
            let variable = row.variable.saturating_add(column.saturating_sub(1));
            let clause = first_clause(row.id, column).saturating_add(u64::from(!is_first));
            self.force(checker, variable, false, clause)?;
        }
        Ok(())
    }

    /// Down the rows to the input that is forced, the one of the set that is not false: where f of the first i inputs are of the
    /// set and false, place i - f of row i is true, by the first clause of the true place below it where input i + 1 is one of
    /// them, and else by the second.
    fn fall(&mut self, checker: &Checker, counter: &Counter, set: &[Lit]) -> Result<(), AllocError>
        requires { AreNamed checker.now.database.held self.old.ids.items }
        ensures { AreNamed checker.now.database.held self.new.ids.items }
    {
        let mut left = set.len();
        let mut column = column_of(counter, set);
        let mut row = counter.inputs.len();
        let mut id = counter.end;
        while row > 0 {
            id = id.saturating_sub(size_of_row(row.min(counter.threshold)));
            let first = first_clause(id, column);
            row -= 1;
            let input = input_at(counter, row);
            let is_met = is_at(set, left.saturating_sub(1), input);
            if is_met && !self.values.is_false(input) {
                return self.force(checker, input as usize, true, first);
            }
            left = left.saturating_sub(usize::from(is_met));
            column = column.saturating_sub(usize::from(!is_met));
            let clause = first.saturating_add(u64::from(!is_met));
            self.force(checker, variable_at(counter, row, column), true, clause)?;
        }
        Ok(())
    }

    /// Takes for a hint the clause of this id, which gives a variable this value, as is known from the counter without a look at
    /// it. None is wanted where the variable has the value already, and none after a conflict.
    fn force(
        &mut self,
        checker: &Checker,
        variable: usize,
        value: bool,
        id: u64,
    ) -> Result<(), AllocError>
        requires { AreNamed checker.now.database.held self.old.ids.items }
        ensures { AreNamed checker.now.database.held self.new.ids.items }
    {
        if self.has_conflict {
            return Ok(());
        }
        match self.values.of(variable) {
            None => self.values.set(variable, value)?,
            Some(known) if known == value => return Ok(()),
            Some(_) => self.has_conflict = true,
        }
        self.name(checker, id)
    }

    /// Takes a clause for a hint where one is held under the id, and it forces a literal or has all false; after one with all
    /// false none is wanted.
    fn offer(&mut self, checker: &Checker, id: u64) -> Result<(), AllocError>
        requires { AreNamed checker.now.database.held self.old.ids.items }
        ensures { AreNamed checker.now.database.held self.new.ids.items }
    {
        if self.has_conflict {
            return Ok(());
        }
        let Some(clause) = checker.lits(id) else {
            return Ok(());
        };
        match self.values.see(clause) {
            Sight::Fails => self.has_conflict = true,
            Sight::Forces(l) => self.values.make_true(l)?,
            Sight::Holds | Sight::Open => return Ok(()),
        }
        self.name(checker, id)
    }

    /// The id is one of the hints from here on, if it is in range and a clause is held under it.
    fn name(&mut self, checker: &Checker, id: u64) -> Result<(), AllocError>
        requires { AreNamed checker.now.database.held self.old.ids.items }
        ensures { AreNamed checker.now.database.held self.new.ids.items }
    {
        if id == 0 || id >= END_OF_IDS {
            return Ok(());
        }
        let Some(_clause) = checker.lits(id) else {
            return Ok(());
        };
        self.ids.push(id)?;
        Ok(())
    }
}

/// The number of hints.
fn count_of(hints: HintsRef<'_>) -> usize {
    match hints {
        HintsRef::Short(ids) => ids.len(),
        HintsRef::Wide(ids) => ids.len(),
    }
}

/// The id of the hint at a place; 0, which is none, past the last.
fn id_at(hints: HintsRef<'_>, place: usize) -> u64 {
    match hints {
        HintsRef::Short(ids) => ids.get(place).map_or(0, |id| u64::from(*id)),
        HintsRef::Wide(ids) => ids.get(place).map_or(0, |id| id.unsigned_abs()),
    }
}

/// The column of the last row's place that is true where the head is. This many inputs are true then, and a set has one more than
/// may be false.
fn column_of(counter: &Counter, set: &[Lit]) -> usize {
    counter
        .inputs
        .len()
        .saturating_add(1)
        .saturating_sub(set.len())
}

/// Whether the set has this input at this place. It has inputs in their order, so that each is met in turn.
fn is_at(set: &[Lit], place: usize, input: u32) -> bool {
    match set.get(place) {
        Some(l) => l.variable() == input,
        None => false,
    }
}

/// The input after this many others; 0 past the last, which is none.
fn input_at(counter: &Counter, before: usize) -> u32 {
    match counter.inputs.get(before) {
        Some(input) => *input,
        None => 0,
    }
}

/// The variable of a place, its row and its column from 1 on; 0, which is none, where the counter has no such row.
fn variable_at(counter: &Counter, row: usize, column: usize) -> usize {
    let (Some(above), Some(before)) = (row.checked_sub(1), column.checked_sub(1)) else {
        return 0;
    };
    match counter.rows.get(above) {
        Some(first) => (*first as usize).saturating_add(before),
        None => 0,
    }
}

/// The number of clauses of a row with this many places.
fn size_of_row(width: usize) -> u64 {
    (width as u64).saturating_mul(2).saturating_sub(1)
}

/// The id of the first clause of the place in a column, from 1 on, of a row whose clauses begin at this id.
fn first_clause(id: u64, column: usize) -> u64 {
    id.saturating_add((column as u64).saturating_mul(2).saturating_sub(3))
}

/// Where the clause of an id is from; where it is not told, a clause that no formula has.
fn origin_of(written: &Written, id: u64) -> Origin {
    if id == 0 {
        return Origin::Formula(0);
    }
    match written.origins.get(id as usize - 1) {
        Some(origin) => *origin,
        None => Origin::Formula(0),
    }
}
