//! How many inputs of each gate are false.
ghost use Rattle.std.specs.Prelude.{◌≡◌, ℕ, ◌+◌, ◌-◌, ◌<◌, ◌≤◌, ◌^◌, true, List, [], ◌∷◌, Ok, All, IfOk, OnOk, length, take, slice_index};
ghost use Rattle.lrat_model.specs.Literal.{Literal};
ghost use Rattle.cardinality_counts.specs.Gates.{IsGate, IsSet, has_number};
ghost use Rattle.cardinality_counts.specs.Counts.{times, tally, part_of, AreListed, IsCounting};

use crate::gate::{Gate, is_among, is_set_of, is_sound};
use crate::guesses::{Guesses, number_of};
use crate::parts::{Side, Table, part};
use assignment_trail::Assignment;
use lrat_model::Lit;
use std::alloc::{AllocError, Global};

/// Gates, of each of which it is counted how many inputs are false; up to which place of a trail that was counted; and which
/// gates may say something.
#[derive(Drop)]
pub struct Gates {
    pub vars: u32,
    pub gates: Vec<Gate>,
    /// For each variable the gates that have it among their inputs.
    pub starts: Vec<usize>,
    pub entries: Vec<u32>,
    pub counts: Vec<u32>,
    pub counted: usize,
    pub guesses: Guesses,
}

impl Gates {
    /// These gates, over this many variables; or none of them, where one has another variable or an input twice. Linear in
    /// the variables and quadratic in each gate's inputs.
    pub fn new(alloc: Global, vars: u32, gates: Vec<Gate>) -> Result<Gates, AllocError>
        requires { vars < 2 ^ 31 }
        ensures vars { IfOk result (λ g. g.vars ≡ vars) }
        ensures counting { IfOk result (λ g. (trail : List Literal) → IsCounting g trail) }
    {
        let made = Gates::over(alloc, vars, gates)?;
        if are_sound(&made.gates, vars) && are_listed(&made.starts, &made.entries, &made.gates) {
            Ok(made)
        } else {
            Gates::over(alloc, vars, Vec::new(alloc))
        }
    }

    /// These gates with their tables.
    fn over(alloc: Global, vars: u32, gates: Vec<Gate>) -> Result<Gates, AllocError>
        ensures vars { IfOk result (λ g. g.vars ≡ vars) }
        ensures gates { IfOk result (λ g. g.gates ≡ gates) }
        ensures counted { IfOk result (λ g. g.counted ≡ 0) }
        ensures long { IfOk result (λ g. length g.counts.items ≡ length gates.items) }
        ensures zero { IfOk result (λ g. (k : ℕ) → slice_index g.counts.items k ≡ 0) }
    {
        let Table { starts, entries } = Table::over(alloc, vars, &gates, Side::Inputs)?;
        let guesses = Guesses::over(alloc, vars, &gates)?;
        let counts = vec![in alloc; 0u32; gates.len()]?;
        Ok(Gates {
            vars,
            gates,
            starts,
            entries,
            counts,
            counted: 0,
            guesses,
        })
    }

    /// Counts on, up to the end of a trail. Linear in what the trail has more, and in the gates of these variables. A count
    /// that takes more than 32 bits is want of memory.
    pub fn count(&mut self, trail: &[Lit]) -> Result<(), AllocError>
        requires { IsCounting self.old trail.now }
        ensures counting { OnOk result (IsCounting self.new trail.now) }
        ensures counted { OnOk result (self.new.counted ≡ length trail.now) }
        ensures gates { OnOk result (self.new.gates ≡ self.old.gates) }
        ensures vars { OnOk result (self.new.vars ≡ self.old.vars) }
    {
        while self.counted < trail.len() {
            let l = trail[self.counted];
            raise_by(self.counts.as_mut_slice(), &self.starts, &self.entries, l)?;
            see(
                &mut self.guesses,
                &self.starts,
                &self.entries,
                &self.counts,
                l,
            )?;
            self.counted += 1;
        }
        Ok(())
    }

    /// Takes back what was counted of a trail from this place on. Linear in that.
    pub fn back_to(&mut self, trail: &[Lit], len: usize)
        requires counting { IsCounting self.old trail.now }
        requires within { len ≤ length trail.now }
        ensures counting { IsCounting self.new (take len trail.now) }
        ensures gates { self.new.gates ≡ self.old.gates }
        ensures vars { self.new.vars ≡ self.old.vars }
    {
        while self.counted > len {
            self.counted -= 1;
            let l = trail[self.counted];
            lower_by(self.counts.as_mut_slice(), &self.starts, &self.entries, l);
        }
    }

    /// Makes of what was seen since the last guess the ids of clauses that may be false or force something. Nothing but speed
    /// depends on them. Linear in the inputs of the gates that were seen, for each input that may be forced.
    pub fn guess(&mut self, assignment: &Assignment) -> Result<(), AllocError>
        ensures { self.new ≡ record self.old { guesses = self.new.guesses } }
    {
        self.guesses.guess(&self.gates, &self.counts, assignment)?;
        Ok(())
    }

    /// Whether the clause of this id is known to be that of a set of a gate's inputs. O(log n) for n gates, and linear in its
    /// literals and the gate's inputs.
    pub fn is_set(&self, id: u64, lits: &[Lit]) -> bool
        ensures { result ≡ true → IsSet self.now.gates.items lits.now }
    {
        let number = number_of(&self.gates, id);
        match self.gates.get(number) {
            Some(gate) => is_set_of(gate, lits),
            None => false,
        }
    }
}

/// Counts on by a literal that became true.
fn raise_by(counts: &mut [u32], starts: &[usize], entries: &[u32], l: Lit) -> Result<(), AllocError>
    ensures long { OnOk result (length counts.new ≡ length counts.old) }
    ensures raised { OnOk result ((g : ℕ) → g < length counts.old → slice_index counts.new g ≡ slice_index counts.old g + tally starts.now entries.now (l ∷ []) g) }
{
    if l.number() < 0 {
        raise(counts, part(starts, entries, l.variable()))
    } else {
        Ok(())
    }
}

/// Takes back what was counted of a literal.
fn lower_by(counts: &mut [u32], starts: &[usize], entries: &[u32], l: Lit)
    requires { (g : ℕ) → g < length counts.old → tally starts.now entries.now (l ∷ []) g ≤ slice_index counts.old g }
    ensures long { length counts.new ≡ length counts.old }
    ensures lowered { (g : ℕ) → g < length counts.old → slice_index counts.new g + tally starts.now entries.now (l ∷ []) g ≡ slice_index counts.old g }
{
    if l.number() < 0 {
        lower(counts, part(starts, entries, l.variable()));
    }
}

/// Sees that a literal became true.
fn see(
    guesses: &mut Guesses,
    starts: &[usize],
    entries: &[u32],
    counts: &[u32],
    l: Lit,
) -> Result<(), AllocError> {
    if l.number() < 0 {
        guesses.see_inputs(part(starts, entries, l.variable()), counts)
    } else {
        guesses.see_head(l.variable(), counts)
    }
}

/// Counts these gates once more.
fn raise(counts: &mut [u32], list: &[u32]) -> Result<(), AllocError>
    ensures long { OnOk result (length counts.new ≡ length counts.old) }
    ensures raised { OnOk result ((g : ℕ) → g < length counts.old → slice_index counts.new g ≡ slice_index counts.old g + times list.now g) }
{
    for g in list {
        raise_one(counts, *g)?;
    }
    Ok(())
}

/// Counts this gate once more.
fn raise_one(counts: &mut [u32], g: u32) -> Result<(), AllocError>
    ensures long { OnOk result (length counts.new ≡ length counts.old) }
    ensures raised { OnOk result ((k : ℕ) → k < length counts.old → slice_index counts.new k ≡ slice_index counts.old k + times (g ∷ []) k) }
{
    let place = g as usize;
    if place < counts.len() {
        let Some(more) = counts[place].checked_add(1) else {
            return Err(AllocError);
        };
        counts[place] = more;
    }
    Ok(())
}

/// Counts these gates once less.
fn lower(counts: &mut [u32], list: &[u32])
    requires { (g : ℕ) → g < length counts.old → times list.now g ≤ slice_index counts.old g }
    ensures long { length counts.new ≡ length counts.old }
    ensures lowered { (g : ℕ) → g < length counts.old → slice_index counts.new g + times list.now g ≡ slice_index counts.old g }
{
    for g in list {
        lower_one(counts, *g);
    }
}

/// Counts this gate once less.
fn lower_one(counts: &mut [u32], g: u32)
    ensures long { length counts.new ≡ length counts.old }
    ensures lowered { (k : ℕ) → k < length counts.old → slice_index counts.new k ≡ slice_index counts.old k - times (g ∷ []) k }
{
    let place = g as usize;
    if place < counts.len() {
        counts[place] = counts[place].saturating_sub(1);
    }
}

/// Whether all gates have variables up to `vars`, and no input twice.
fn are_sound(gates: &[Gate], vars: u32) -> bool
    ensures { result ≡ true → All (IsGate vars) gates.now }
{
    for gate in gates {
        if !is_sound(gate, vars) {
            return false;
        }
    }
    true
}

/// Whether each input of each gate names it.
fn are_listed(starts: &[usize], entries: &[u32], gates: &[Gate]) -> bool
    ensures { result ≡ true → AreListed starts.now entries.now gates.now }
{
    for (place, gate) in gates.iter().enumerate() {
        let Ok(number) = u32::try_from(place) else {
            return false;
        };
        if !is_listed(starts, entries, number, &gate.inputs) {
            return false;
        }
    }
    true
}

/// Whether each of these inputs names the gate.
fn is_listed(starts: &[usize], entries: &[u32], number: u32, inputs: &[u32]) -> bool
    ensures { result ≡ true → (x : ℕ) → has_number inputs.now x ≡ true → 0 < times (part_of starts.now entries.now x) number }
{
    for input in inputs {
        if !is_among(part(starts, entries, *input), number) {
            return false;
        }
    }
    true
}
