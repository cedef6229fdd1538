//! Which literals are true.
ghost use Rattle.std.specs.Prelude.{◌≡◌, ◌≢◌, ℕ, ◌+◌, ◌≤◌, ◌<◌, ◌^◌, [], ◌∷◌, ◌++◌, true, false, length, take, slice_index_or, All, IfOk};
ghost use Rattle.lrat_model.specs.Literal.{Literal, has, negated, variable_of};
ghost use Rattle.assignment_trail.specs.Values.{value_of, is_value, true_by, ArePlaces, IsAssignment};

use lrat_model::Lit;
use std::alloc::{AllocError, Global};
use std::marker::Model;

/// What a variable is set to.
#[derive(Clone, Copy)]
pub enum Value {
    Unassigned,
    True,
    False,
}

impl Value {
    /// Whether both are one. They are compared as numbers: a branch for each kind would hang on a literal's sign, which no
    /// processor foresees.
    fn is(self, other: Value) -> bool
        ensures { result ≡ is_value self other }
    {
        self as u8 == other as u8
    }
}

/// The values of variables, and the trail: the literals that were made true, in order. A variable's place
/// is where it stands on the trail, or stood last.
#[derive(Drop)]
pub struct Assignment {
    values: Vec<Value>,
    places: Vec<usize>,
    trail: Vec<Lit>,
}

impl Model for Assignment {
    ghost use Rattle.assignment_trail.specs.Assigned.{Assigned, shown, IsSound};

    ghost Value = { Assigned };

    ghost view = { shown };

    ghost invariant = { IsSound };
}

impl Assignment {
    /// No variable of this many has a value. Takes all the memory that an assignment ever needs. Linear in
    /// the variables.
    pub fn new(alloc: Global, vars: u64) -> Result<Assignment, AllocError>
        requires { vars < 2 ^ 31 }
        ensures vars { IfOk result (λ a. a.vars ≡ vars) }
        ensures trues { IfOk result (λ a. a.trues ≡ []) }
    {
        let room = vars as usize + 1;
        let values = vec![in alloc; Value::Unassigned; room]?;
        let places = vec![in alloc; 0; room]?;
        let trail = Vec::with_capacity(alloc, room)?;
        Ok(Assignment {
            values,
            places,
            trail,
        })
    }

    /// The number of variables. O(1).
    pub fn vars(&self) -> u64
        ensures { result ≡ self.now.vars }
    {
        self.values.len() as u64 - 1
    }

    /// The literals that are true, in the order in which they were made so. O(1).
    pub fn trail(&self) -> &[Lit]
        ensures { result.now ≡ self.now.trues }
    {
        &self.trail
    }

    /// The place on the trail of each variable that has a value, at its number. O(1).
    pub fn places(&self) -> &[usize]
        ensures long { length result.now ≡ self.now.vars + 1 }
        ensures placed { ArePlaces self.now.trues result.now }
    {
        &self.places
    }

    /// Whether the literal is true. O(1).
    pub fn is_true(&self, l: Lit) -> bool
        requires { variable_of l ≤ self.now.vars }
        ensures { result ≡ has self.now.trues l }
    {
        self.values[l.variable() as usize].is(value_of(l))
    }

    /// Makes a literal true whose variable has no value. O(1).
    pub fn make_true(&mut self, l: Lit)
        requires range { variable_of l ≤ self.old.vars }
        requires open { has self.old.trues l ≡ false }
        requires consistent { has self.old.trues (negated l) ≡ false }
        ensures trues { self.new.trues ≡ self.old.trues ++ l ∷ [] }
        ensures vars { self.new.vars ≡ self.old.vars }
    {
        let x = l.variable() as usize;
        self.places[x] = self.trail.len();
        self.values[x] = value_of(l);
        self.trail.push(l).unwrap();
    }

    /// Makes a literal true that is not false. O(1).
    pub fn force(&mut self, l: Lit)
        requires range { variable_of l ≤ self.old.vars }
        requires consistent { has self.old.trues (negated l) ≡ false }
        ensures trues { (m : Literal) → has (l ∷ self.old.trues) m ≡ has self.new.trues m }
        ensures vars { self.new.vars ≡ self.old.vars }
    {
        if !self.is_true(l) {
            self.make_true(l);
        }
    }

    /// Takes the values of the last literals away, so that this many are left. O(those that are taken).
    pub fn back_to(&mut self, len: usize)
        requires within { len ≤ length self.old.trues }
        requires apart { (place : ℕ) (d m : Literal) → place < length self.old.trues → has (take place self.old.trues) m ≡ true → variable_of m ≢ variable_of (slice_index_or self.old.trues place d) }
        ensures trues { self.new.trues ≡ take len self.old.trues }
        ensures vars { self.new.vars ≡ self.old.vars }
    {
        undo(&mut self.values, &self.trail, len);
        self.trail.truncate(len);
    }

    /// No variable has a value any more. O(literals that are true).
    pub fn clear(&mut self)
        ensures trues { self.new.trues ≡ [] }
        ensures vars { self.new.vars ≡ self.old.vars }
    {
        unassign(&mut self.values, &self.trail);
        self.trail.clear();
    }
}

/// The value that makes a literal true.
fn value_of(l: Lit) -> Value
    ensures { result ≡ value_of l }
{
    if l.number() > 0 {
        Value::True
    } else {
        Value::False
    }
}

/// Takes the values of the last literals away, from the last one down to this place.
fn undo(values: &mut Vec<Value>, trail: &[Lit], len: usize)
    requires within { len ≤ length trail.now }
    requires range { All (λ l. variable_of l < length values.old.items) trail.now }
    requires apart { (place : ℕ) (d m : Literal) → place < length trail.now → has (take place trail.now) m ≡ true → variable_of m ≢ variable_of (slice_index_or trail.now place d) }
    ensures long { length values.new.items ≡ length values.old.items }
    ensures sound { (room : ℕ) → IsAssignment values.old.items trail.now room → IsAssignment values.new.items (take len trail.now) room }
{
    let mut left = trail.len();
    while left > len {
        left -= 1;
        values[trail[left].variable() as usize] = Value::Unassigned;
    }
}

/// Takes the values of these literals' variables away.
fn unassign(values: &mut [Value], trail: &[Lit])
    requires range { All (λ l. variable_of l < length values.old) trail.now }
    requires agree { (l : Literal) → true_by values.old l ≡ true → has trail.now l ≡ true }
    ensures { (l : Literal) → true_by values.new l ≡ false }
{
    for l in trail {
        values[l.variable() as usize] = Value::Unassigned;
    }
}
