//! Literals, as DIMACS writes them.
use std::fmt;
use std::marker::Model;

/// A literal: a variable's number, negative where it is negated. It is never 0 nor the least i32.
#[derive(Debug, Clone, Copy)]
pub struct Lit(pub i32);

impl Model for Lit {
    ghost use Rattle.std.specs.Prelude.{◌≢◌, pos, negsuc};
    ghost use Rattle.lrat_model.specs.Literal.{Literal, literal_of, number_of};

    ghost Value = { Literal };

    ghost view = { λ l. literal_of l.0 };

    ghost invariant = { λ l. (l.0 ≢ pos 0) × (l.0 ≢ negsuc 2147483647) };

    ghost inverse = { λ l. record { 0 = number_of l } };
}

impl Lit {
    ghost use Rattle.std.specs.Prelude.{◌≡◌, ◌≢◌, ◌<◌, ◌^◌, pos, negsuc};
    ghost use Rattle.lrat_model.specs.Literal.{Plus, Minus, literal_of, number_of, variable_of, negated, same};

    /// The literal of a number that is neither zero nor the least one.
    pub fn of(number: i32) -> Lit
        requires nonzero { number ≢ pos 0 }
        requires not_least { number ≢ negsuc 2147483647 }
        ensures { result ≡ literal_of number }
    {
        Lit(number)
    }

    /// The literal that is true where the variable is.
    pub fn positive(variable: u32) -> Lit
        requires nonzero { 0 < variable }
        requires small { variable < 2 ^ 31 }
        ensures { result ≡ Plus variable }
    {
        Lit(variable as i32)
    }

    /// The literal that is true where the variable is false.
    pub fn negative(variable: u32) -> Lit
        requires nonzero { 0 < variable }
        requires small { variable < 2 ^ 31 }
        ensures { result ≡ Minus variable }
    {
        Lit(-(variable as i32))
    }

    /// The literal as a signed number.
    pub fn number(self) -> i32
        ensures value { result ≡ number_of self }
        ensures nonzero { result ≢ pos 0 }
        ensures not_least { result ≢ negsuc 2147483647 }
    {
        self.0
    }

    /// The number of its variable.
    pub fn variable(self) -> u32
        ensures value { result ≡ variable_of self }
        ensures nonzero { 0 < result }
        ensures small { result < 2 ^ 31 }
    {
        self.0.unsigned_abs()
    }

    /// The literal that is true where this one is false.
    pub fn negated(self) -> Lit
        ensures { result ≡ negated self }
    {
        Lit(-self.0)
    }

    /// Whether both are one literal.
    pub fn same(self, other: Lit) -> bool
        ensures { result ≡ same self other }
    {
        self.0 == other.0
    }
}

impl fmt::Display for Lit {
    ghost use Rattle.std.specs.Prelude.{Some};
    ghost use Rattle.std.specs.Fmt.{signed_decimal};
    ghost use Rattle.lrat_model.specs.Literal.{number_of};

    ghost output = { λ l. Some (signed_decimal (number_of l)) };

    fn fmt<W: fmt::Write>(&self, f: &mut fmt::Formatter<W>) -> fmt::Result {
        write!(f, "{}", self.0)
    }
}
