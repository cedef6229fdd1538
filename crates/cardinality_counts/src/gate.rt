//! A gate, and the clauses that it stands for.
ghost use Rattle.std.specs.Prelude.{◌≡◌, ◌≢◌, ℕ, ◌<◌, ◌≤◌, ◌^◌, true, false, List, All, AllPairs};
ghost use Rattle.lrat_model.specs.Literal.{Literal, Plus, Minus};
ghost use Rattle.cardinality_counts.specs.Gates.{IsGate, IsSetOf, is_part, has_number};

use lrat_model::Lit;

/// A gate says that where its head is true, of any `size` of its inputs one is true. For each such set of inputs there is a
/// clause, the head's negation and then the set in the order of the inputs; they stand in lexicographic order under the ids
/// from `first` on.
#[derive(Debug, Drop)]
pub struct Gate {
    /// The variable of the head.
    pub head: u32,
    /// The variables of the inputs.
    pub inputs: Vec<u32>,
    /// How many inputs a set has.
    pub size: usize,
    /// The id of the first clause. Nothing but speed depends on it.
    pub first: u64,
}

/// Whether the literal is that of a variable.
fn is_plus(l: Lit, variable: u32) -> bool
    ensures { result ≡ true → l ≡ Plus variable }
{
    l.number() > 0 && l.variable() == variable
}

/// Whether the literal is the negation of a variable's.
fn is_minus(l: Lit, variable: u32) -> bool
    ensures { result ≡ true → l ≡ Minus variable }
{
    l.number() < 0 && l.variable() == variable
}

/// Whether the literals are some of the inputs, in their order. Linear in the inputs.
fn is_part(lits: &[Lit], inputs: &[u32]) -> bool
    ensures { result ≡ true → is_part lits.now inputs.now ≡ true }
{
    let mut done = 0;
    for input in inputs {
        if done < lits.len() && is_plus(lits[done], *input) {
            done += 1;
        }
    }
    done == lits.len()
}

/// Whether the clause is that of a set of the gate's inputs. Linear in the inputs.
pub fn is_set_of(gate: &Gate, lits: &[Lit]) -> bool
    ensures { result ≡ true → IsSetOf gate.now lits.now }
{
    if lits.is_empty() || !is_minus(lits[0], gate.head) {
        return false;
    }
    let set = &lits[1..];
    set.len() == gate.size && is_part(set, &gate.inputs)
}

/// Whether the number is a variable up to `vars`.
fn is_variable(number: u32, vars: u32) -> bool
    ensures { result ≡ true → (0 < number) × (number ≤ vars) }
{
    0 < number && number <= vars
}

/// Whether all numbers are variables up to `vars`.
fn are_variables(numbers: &[u32], vars: u32) -> bool
    ensures { result ≡ true → All (λ x. (0 < x) × (x ≤ vars)) numbers.now }
{
    for number in numbers {
        if !is_variable(*number, vars) {
            return false;
        }
    }
    true
}

/// Whether a number is among others.
pub fn is_among(numbers: &[u32], number: u32) -> bool
    ensures some { result ≡ true → has_number numbers.now number ≡ true }
    ensures none { result ≡ false → All (λ x. x ≢ number) numbers.now }
{
    for other in numbers {
        if *other == number {
            return true;
        }
    }
    false
}

/// Whether no number stands twice. Quadratic in them.
fn are_apart(numbers: &[u32]) -> bool
    ensures { result ≡ true → AllPairs (λ x y. x ≢ y) numbers.now }
{
    let mut left = numbers.len();
    while left > 0 {
        left -= 1;
        if is_among(&numbers[left + 1..], numbers[left]) {
            return false;
        }
    }
    true
}

/// Whether head and inputs are variables up to `vars`, and no input stands twice. Quadratic in the inputs.
pub fn is_sound(gate: &Gate, vars: u32) -> bool
    ensures { result ≡ true → IsGate vars gate.now }
{
    is_variable(gate.head, vars) && are_variables(&gate.inputs, vars) && are_apart(&gate.inputs)
}
