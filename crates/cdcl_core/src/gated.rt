//! Propagation, through the clauses that watch literals and those that are counted.
ghost use Rattle.std.specs.Prelude.{◌≡◌, ℕ, ◌+◌, ◌<◌, ◌≤◌, ◌^◌, true, false, List, Ok, Some, OnOk, length};
ghost use Rattle.lrat_model.specs.Literal.{Literal};
ghost use Rattle.lrat_model.specs.Clauses.{Held, clause_at};
ghost use Rattle.lrat_model.specs.Propagation.{status};
ghost use Rattle.cdcl_core.specs.Fixpoint.{IsConflict, IsFixpoint, IsQuiet};
ghost use Rattle.cdcl_core.specs.Searching.{HasSame, IsHolding, IsSearching};
ghost use Rattle.cdcl_core.specs.Watches.{AreKept, id_at, lits_at};
ghost use Rattle.search_heuristics.specs.Open.{open_count};

use crate::growth::{Free, two_free};
use crate::propagation::Propagated;
use crate::search::Search;
use std::alloc::AllocError;

/// What came of clauses that were looked at: nothing; a literal is true that was not; or one is false.
#[derive(Clone, Copy, PartialEq, Eq)]
pub enum Taken {
    Nothing,
    Forced,
    Conflict(u64),
}

impl Search {
    /// Makes true what the clauses force, to a fixpoint or a false clause.
    pub fn propagate(&mut self) -> Result<Propagated, AllocError>
        requires room { self.old.last < 2 ^ 63 }
        requires holding { IsHolding self.old }
        requires searching { IsSearching self.old.clauses self.old }
        ensures same { HasSame self.old self.new }
        ensures searching { OnOk result (IsSearching self.new.clauses self.new) }
        ensures fixpoint { result ≡ Ok Propagated.Fixpoint → IsFixpoint self.new.clauses self.new.assignment.trues × AreKept self.new.clauses self.new.pairs.items self.new.assignment.trues self.new.assignment.trues }
        ensures conflict { (id : ℕ) → result ≡ Ok (Propagated.Conflict id) → IsConflict self.new.clauses self.new.assignment.trues id }
        ensures fewer { OnOk result (open_count self.new.assignment.trues self.new.vars ≤ open_count self.old.assignment.trues self.old.vars) }
    {
        'rounds: loop {
            if let Propagated::Conflict(id) = self.visit_watches()? {
                return Ok(Propagated::Conflict(id));
            }
            match self.take_counted()? {
                Taken::Nothing => return Ok(Propagated::Fixpoint),
                Taken::Forced => {}
                Taken::Conflict(id) => return Ok(Propagated::Conflict(id)),
            }
        }
    }

    /// Where the clauses that watch literals are at a fixpoint: makes true what those that are counted force, unless one of them
    /// is false; `Nothing` where all are quiet. Those that gates say may force something are looked at first, and all where the
    /// counts do not show that nothing is left.
    fn take_counted(&mut self) -> Result<Taken, AllocError>
        requires room { self.old.last < 2 ^ 63 }
        requires holding { IsHolding self.old }
        requires searching { IsSearching self.old.clauses self.old }
        requires kept { AreKept self.old.clauses self.old.pairs.items self.old.assignment.trues self.old.assignment.trues }
        ensures same { HasSame self.old self.new }
        ensures searching { OnOk result (IsSearching self.new.clauses self.new) }
        ensures nothing { result ≡ Ok Taken.Nothing → IsFixpoint self.new.clauses self.new.assignment.trues × AreKept self.new.clauses self.new.pairs.items self.new.assignment.trues self.new.assignment.trues }
        ensures forced { result ≡ Ok Taken.Forced → open_count self.new.assignment.trues self.new.vars < open_count self.old.assignment.trues self.old.vars }
        ensures conflict { (id : ℕ) → result ≡ Ok (Taken.Conflict id) → IsConflict self.new.clauses self.new.assignment.trues id }
        ensures fewer { OnOk result (open_count self.new.assignment.trues self.new.vars ≤ open_count self.old.assignment.trues self.old.vars) }
    {
        self.gates.count(self.assignment.trail())?;
        let taken = self.take_guessed()?;
        if taken != Taken::Nothing || self.gates.are_quiet(&self.assignment) {
            return Ok(taken);
        }
        self.take_any()
    }

    /// Looks at the clauses that gates say may be false or force something.
    fn take_guessed(&mut self) -> Result<Taken, AllocError>
        requires room { self.old.last < 2 ^ 63 }
        requires holding { IsHolding self.old }
        requires searching { IsSearching self.old.clauses self.old }
        ensures same { HasSame self.old self.new }
        ensures searching { OnOk result (IsSearching self.new.clauses self.new) }
        ensures nothing { result ≡ Ok Taken.Nothing → (self.new.assignment ≡ self.old.assignment) × (self.new.pairs ≡ self.old.pairs) × (self.new.gates.counted ≡ self.old.gates.counted) }
        ensures forced { result ≡ Ok Taken.Forced → open_count self.new.assignment.trues self.new.vars < open_count self.old.assignment.trues self.old.vars }
        ensures conflict { (id : ℕ) → result ≡ Ok (Taken.Conflict id) → IsConflict self.new.clauses self.new.assignment.trues id }
        ensures fewer { OnOk result (open_count self.new.assignment.trues self.new.vars ≤ open_count self.old.assignment.trues self.old.vars) }
    {
        self.gates.guess(&self.assignment)?;
        let mut taken = Taken::Nothing;
        let mut next = 0;
        while next < self.gates.guesses.ids.len() {
            let place = self.clauses.place(self.gates.guesses.ids[next]);
            if place < self.clauses.len() {
                match self.take_at(place)? {
                    Taken::Nothing => {}
                    Taken::Forced => taken = Taken::Forced,
                    Taken::Conflict(id) => return Ok(Taken::Conflict(id)),
                }
            }
            next += 1;
        }
        Ok(taken)
    }

    /// Looks at all clauses, up to one that forces a literal or is false. Linear in their literals.
    fn take_any(&mut self) -> Result<Taken, AllocError>
        requires room { self.old.last < 2 ^ 63 }
        requires holding { IsHolding self.old }
        requires searching { IsSearching self.old.clauses self.old }
        ensures same { HasSame self.old self.new }
        ensures searching { OnOk result (IsSearching self.new.clauses self.new) }
        ensures nothing { result ≡ Ok Taken.Nothing → (self.new ≡ self.old) × IsFixpoint self.new.clauses self.new.assignment.trues }
        ensures forced { result ≡ Ok Taken.Forced → open_count self.new.assignment.trues self.new.vars < open_count self.old.assignment.trues self.old.vars }
        ensures conflict { (id : ℕ) → result ≡ Ok (Taken.Conflict id) → IsConflict self.new.clauses self.new.assignment.trues id }
        ensures fewer { OnOk result (open_count self.new.assignment.trues self.new.vars ≤ open_count self.old.assignment.trues self.old.vars) }
    {
        let mut place = 0;
        while place < self.clauses.len() {
            let taken = self.take_at(place)?;
            if taken != Taken::Nothing {
                return Ok(taken);
            }
            place += 1;
        }
        Ok(Taken::Nothing)
    }

    /// Makes true what the clause at a place forces; says whether it is false. O(its literals).
    fn take_at(&mut self, place: usize) -> Result<Taken, AllocError>
        requires room { self.old.last < 2 ^ 63 }
        requires holding { IsHolding self.old }
        requires place { place < length self.old.clauses }
        requires searching { IsSearching self.old.clauses self.old }
        ensures same { HasSame self.old self.new }
        ensures gates { self.new.gates ≡ self.old.gates }
        ensures searching { OnOk result (IsSearching self.new.clauses self.new) }
        ensures nothing { result ≡ Ok Taken.Nothing → (self.new ≡ self.old) × IsQuiet self.old.assignment.trues (status self.old.assignment.trues (lits_at self.old.clauses place)) }
        ensures forced { result ≡ Ok Taken.Forced → open_count self.new.assignment.trues self.new.vars < open_count self.old.assignment.trues self.old.vars }
        ensures conflict { (id : ℕ) → result ≡ Ok (Taken.Conflict id) → IsConflict self.new.clauses self.new.assignment.trues id }
        ensures fewer { OnOk result (open_count self.new.assignment.trues self.new.vars ≤ open_count self.old.assignment.trues self.old.vars) }
    {
        let id = self.clauses.id(place);
        match two_free(&self.assignment, self.clauses.lits(place)) {
            Free::Two(_, _) => Ok(Taken::Nothing),
            Free::One(l) => {
                if self.assignment.is_true(l) {
                    return Ok(Taken::Nothing);
                }
                self.assignment.make_true(l);
                self.reasons.push(id)?;
                Ok(Taken::Forced)
            }
            Free::Nothing => Ok(Taken::Conflict(id)),
        }
    }
}
