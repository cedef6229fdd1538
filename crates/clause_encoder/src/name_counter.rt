//! The clauses of a counter of names, which tells how many are true.
ghost use Rattle.std.specs.Prelude.{◌≡◌, ℕ, Bool, true, false, ◌+◌, ◌*◌, ◌<◌, ◌≤◌, ◌^◌, [], ◌∷◌, ◌++◌, IfOk, OnOk, Err, length};
ghost use Rattle.lrat_model.specs.Literal.{Plus, Minus, formula_true};
ghost use Rattle.lrat_model.specs.Ranges.{AreInRange};
ghost use Rattle.lrat_model.specs.Runs.{formula_database};
ghost use Rattle.clause_encoder.specs.declared.limits.TheConstants.{MOST_VARS};
ghost use Rattle.clause_encoder.specs.declared.encoder.EncodeError.TheVariants.{TooLarge};
ghost use Rattle.clause_encoder.specs.NameCounter.{cells_before, counted, counter_vars, cell_of, row_of, rows_of, counter_of, true_count, extended};

use crate::clauses::Clauses;
use crate::encoder::EncodeError;
use crate::limits::MOST_VARS;
use crate::var::Var;
use clause_store::Store;
use std::alloc::{AllocError, Global};

/// How many variables the counter of g names has: those of the names, and one for each i up to g and each j up to i. O(1).
pub fn counter_vars(g: u32) -> u64
    ensures { result ≡ counter_vars g }
{
    let names = u64::from(g);
    names + names * (names + 1) / 2
}

/// That one more is counted where the name is true: j of the names before it are counted at `above + j`, of which there is none
/// where j is 0.
fn push_one_more(
    clauses: &mut Clauses,
    name: Var,
    above: u32,
    j: u32,
    cell: Var,
) -> Result<(), AllocError>
    requires room { above + j < 2 ^ 31 }
    ensures first { j ≡ 0 → OnOk result (clauses.new ≡ clauses.old ++ (Minus name ∷ Plus cell ∷ []) ∷ []) }
    ensures later { 0 < j → OnOk result (clauses.new ≡ clauses.old ++ (Minus name ∷ Minus (above + j) ∷ Plus cell ∷ []) ∷ []) }
{
    if j == 0 {
        return clauses.push(&[name.minus(), cell.plus()]);
    }
    clauses.push(&[name.minus(), Var::of(above + j).minus(), cell.plus()])
}

/// The clauses of t(i + 1, j + 1), where the variables of row i come after the variable `above`.
fn push_cell(clauses: &mut Clauses, above: u32, i: u32, j: u32) -> Result<(), AllocError>
    requires within { j ≤ i }
    requires room { above + 2 * i + 1 < 2 ^ 31 }
    ensures { (g : ℕ) → above ≡ g + cells_before i → OnOk result (clauses.new ≡ clauses.old ++ cell_of g i j) }
{
    let name = Var::of(i + 1);
    let cell = Var::of(above + i + (j + 1));
    if j < i {
        clauses.push(&[Var::of(above + (j + 1)).minus(), cell.plus()])?;
        return push_one_more(clauses, name, above, j, cell);
    }
    push_one_more(clauses, name, above, j, cell)
}

/// The clauses of row i + 1, where the variables of row i come after the variable `above`.
fn push_row(clauses: &mut Clauses, above: u32, i: u32) -> Result<(), AllocError>
    requires room { above + 2 * i + 1 < 2 ^ 31 }
    ensures { (g : ℕ) → above ≡ g + cells_before i → OnOk result (clauses.new ≡ clauses.old ++ row_of g i (i + 1)) }
{
    for j in 0..i + 1 {
        push_cell(clauses, above, i, j)?;
    }
    Ok(())
}

/// The clauses of all rows: O(g * g).
fn push_rows(clauses: &mut Clauses, g: u32) -> Result<(), AllocError>
    requires few { counter_vars g ≤ MOST_VARS }
    ensures { OnOk result (clauses.new ≡ clauses.old ++ counter_of g) }
{
    let mut above = g;
    for i in 0..g {
        push_row(clauses, above, i)?;
        above += i;
    }
    Ok(())
}

/// The clauses of a counter of g names under the ids from 1 on: g * g of them, over `counter_vars` variables. The names have
/// the variables from 1 on, and after them t(i, j), for each i up to g and each j up to i, tells that at least j of the first i
/// names are true (Sinz 2005, in this direction alone).
///
/// `TooLarge` comes where there are more than `MOST_VARS` variables, before anything is written. O(g * g).
pub fn counter_clauses(alloc: Global, g: u32) -> Result<Store, EncodeError>
    ensures store { IfOk result (λ store. store ≡ formula_database (counter_of g)) }
    ensures last { IfOk result (λ store. store.last ≡ g * g) }
    ensures small { IfOk result (λ store. counter_vars g ≤ MOST_VARS) }
    ensures in_range { IfOk result (λ store. AreInRange (counter_vars g) store.held) }
    ensures too_large { MOST_VARS < counter_vars g → result ≡ Err (TooLarge (counter_vars g)) }
    ensures only_then { (vars : ℕ) → result ≡ Err (TooLarge vars) → (vars ≡ counter_vars g) × (MOST_VARS < vars) }
{
    let vars = counter_vars(g);
    if vars > MOST_VARS {
        return Err(EncodeError::TooLarge(vars));
    }
    let mut clauses = Clauses::new(alloc);
    push_rows(&mut clauses, g)?;
    Ok(clauses.into_store())
}

/// What the counter of g names counts: if its clauses are true, its variable t(i, j) is true if j of the first i names are.
/// And each set of names makes them true, with t(i, j) true exactly if j of the first i are in it. There are g * g clauses over
/// g + g(g + 1)/2 variables.
pub fn a_counter_of_names_counts()
    ensures reached { (v : ℕ → Bool) (g i j : ℕ) → formula_true v (counter_of g) ≡ true → i ≤ g → 0 < j → j ≤ true_count v i → v (counted g i j) ≡ true }
    ensures few { (v : ℕ → Bool) (g m : ℕ) → formula_true v (counter_of g) ≡ true → 0 < m → v (counted g g m) ≡ false → true_count v g < m }
    ensures extends { (v : ℕ → Bool) (g m : ℕ) → m ≤ g → true_count v g < m → (formula_true (extended v g) (counter_of g) ≡ true) × (extended v g (counted g g m) ≡ false) }
    ensures names { (v : ℕ → Bool) (g x : ℕ) → x ≤ g → extended v g x ≡ v x }
    ensures clauses { (g : ℕ) → length (counter_of g) ≡ g * g }
    ensures vars { (g : ℕ) → 2 * counter_vars g ≡ g * (g + 3) }
{}
