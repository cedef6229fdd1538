//! The values that variables have while hints are looked for. No answer depends on them: what they lead to is checked.
ghost use Rattle.std.specs.Prelude.{◌<◌, ◌^◌};

use lrat_model::Lit;
use std::alloc::{AllocError, Global};

/// What is seen of a clause: one of its literals is true; all are false; one is left and all others are false; or more are left.
#[derive(Clone, Copy)]
pub enum Sight {
    Holds,
    Fails,
    Forces(Lit),
    Open,
}

/// The value of each variable, at its number, and the variables that have one.
#[derive(Drop)]
pub struct Values {
    by_variable: Vec<Option<bool>>,
    known: Vec<usize>,
}

impl Values {
    /// No variable of this many has a value.
    pub fn new(alloc: Global, vars: u64) -> Result<Values, AllocError>
        requires { vars < 2 ^ 31 }
    {
        Ok(Values {
            by_variable: vec![in alloc; None; vars as usize + 1]?,
            known: Vec::new(alloc),
        })
    }

    /// The value of a variable, if it has one.
    pub fn of(&self, variable: usize) -> Option<bool> {
        match self.by_variable.get(variable) {
            Some(value) => *value,
            None => None,
        }
    }

    /// Whether the literal is true, if its variable has a value.
    fn value(&self, l: Lit) -> Option<bool> {
        match self.by_variable.get(l.variable() as usize) {
            Some(Some(value)) => Some(*value == (l.number() > 0)),
            _ => None,
        }
    }

    /// Whether a variable is false.
    pub fn is_false(&self, variable: u32) -> bool {
        matches!(self.by_variable.get(variable as usize), Some(Some(false)))
    }

    /// A variable has this value from here on. Of one past the last nothing is kept.
    pub fn set(&mut self, variable: usize, value: bool) -> Result<(), AllocError> {
        if let Some(place) = self.by_variable.get_mut(variable) {
            *place = Some(value);
        }
        self.known.push(variable)?;
        Ok(())
    }

    /// The literal is true from here on.
    pub fn make_true(&mut self, l: Lit) -> Result<(), AllocError> {
        self.set(l.variable() as usize, l.number() > 0)
    }

    /// No variable has a value any more: O(the variables that have one).
    pub fn clear(&mut self) {
        for variable in &self.known {
            if let Some(place) = self.by_variable.get_mut(*variable) {
                *place = None;
            }
        }
        self.known.clear();
    }

    /// What is seen of a clause: O(its literals), up to a true one or the second that is left.
    pub fn see(&self, clause: &[Lit]) -> Sight {
        let mut left = None;
        for l in clause {
            match (self.value(*l), left) {
                (Some(true), _) => return Sight::Holds,
                (Some(false), _) => {}
                (None, None) => left = Some(*l),
                (None, Some(_)) => return Sight::Open,
            }
        }
        match left {
            None => Sight::Fails,
            Some(l) => Sight::Forces(l),
        }
    }
}
