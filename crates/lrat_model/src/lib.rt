//! Literals, clauses, the steps of an LRAT proof, and what they show.
#![tactic(auto)]

ghost use Rattle.std.specs.Prelude.{◌≡◌, ℕ, Bool, true, false, List, ℤ, Some, None, [], ◌∷◌, ◌++◌};
ghost use Rattle.lrat_model.specs.Literal.{Literal, clause_true, formula_true};
ghost use Rattle.lrat_model.specs.Clauses.{Held, Satisfies, IsUnsatisfiable};
ghost use Rattle.lrat_model.specs.Propagation.{Follows};
ghost use Rattle.lrat_model.specs.Steps.{Database, ProofStep, Addition, step_fault, after_step, progress_of};
ghost use Rattle.lrat_model.specs.Runs.{Run, formula_database};
ghost use Rattle.lrat_model.specs.Rules.{step_fault_by, RunBy, IsSatisfiable};
ghost use Rattle.lrat_model.specs.declared.step.Rule.{Rule};
ghost use Rattle.lrat_model.specs.declared.step.Rule.TheVariants.{Rup, Rat};
ghost use Rattle.lrat_model.specs.Lemmas.{IsUseful, IsNew};
ghost use Rattle.lrat_model.specs.declared.step.Progress.TheVariants.{Refuted};

pub mod lit;
pub mod plain;
pub mod step;

pub use lit::Lit;
pub use step::{ClauseStatus, Progress, Rule, Step, StepFault};

/// A clause that follows is true in each assignment in which all clauses held are true, and so is a
/// lemma that is taken.
pub fn a_taken_lemma_is_true()
    ensures follows { (held : Held) (clause : List Literal) (hints : List ℤ) (v : ℕ → Bool) → Follows held clause hints → Satisfies v held → clause_true v clause ≡ true }
    ensures taken { (vars : ℕ) (database : Database) (id : ℕ) (clause : List Literal) (hints : List ℤ) (v : ℕ → Bool) → step_fault vars database (Addition id clause hints) ≡ None → Satisfies v database.held → clause_true v clause ≡ true }
{}

/// Where a run of steps ends with the empty lemma, no assignment makes all the clauses true that were held
/// before it, whatever the run deleted. So a formula whose clauses these are is false in each assignment.
pub fn a_run_to_the_empty_lemma_refutes()
    ensures held { (vars : ℕ) (old : Database) (steps : List ProofStep) (last : ProofStep) (new : Database) → Run vars old (steps ++ last ∷ []) new → progress_of last ≡ Refuted → IsUnsatisfiable old.held }
    ensures formula { (vars : ℕ) (clauses : List (List Literal)) (steps : List ProofStep) (last : ProofStep) (new : Database) → Run vars (formula_database clauses) (steps ++ last ∷ []) new → progress_of last ≡ Refuted → (v : ℕ → Bool) → formula_true v clauses ≡ false }
{}

/// Under either rule each step that is taken keeps satisfiability: where some assignment makes all the clauses true
/// that are held before it, some assignment makes those true that are held after it.
pub fn a_taken_step_keeps_satisfiability()
    ensures step { (rule : Rule) (vars : ℕ) (old : Database) (step : ProofStep) → step_fault_by rule vars old step ≡ None → IsSatisfiable old.held → IsSatisfiable (after_step old step).held }
    ensures run { (rule : Rule) (vars : ℕ) (old : Database) (steps : List ProofStep) (new : Database) → RunBy rule vars old steps new → IsSatisfiable old.held → IsSatisfiable new.held }
{}

/// Where a run under either rule ends with the empty lemma, no assignment makes all the clauses true that were held
/// before it, whatever the run deleted. So a formula whose clauses these are is false in each assignment.
pub fn a_run_by_a_rule_to_the_empty_lemma_refutes()
    ensures held { (rule : Rule) (vars : ℕ) (old : Database) (steps : List ProofStep) (last : ProofStep) (new : Database) → RunBy rule vars old (steps ++ last ∷ []) new → progress_of last ≡ Refuted → IsUnsatisfiable old.held }
    ensures formula { (rule : Rule) (vars : ℕ) (clauses : List (List Literal)) (steps : List ProofStep) (last : ProofStep) (new : Database) → RunBy rule vars (formula_database clauses) (steps ++ last ∷ []) new → progress_of last ≡ Refuted → (v : ℕ → Bool) → formula_true v clauses ≡ false }
{}

/// What is taken without RAT hints is taken with them.
pub fn what_rup_takes_rat_takes()
    ensures step { (vars : ℕ) (database : Database) (step : ProofStep) → step_fault_by Rup vars database step ≡ None → step_fault_by Rat vars database step ≡ None }
    ensures run { (vars : ℕ) (old : Database) (steps : List ProofStep) (new : Database) → RunBy Rup vars old steps new → RunBy Rat vars old steps new }
{}

/// No clause held is a subset of a useful lemma.
pub fn a_useful_lemma_is_new()
    ensures { (held : Held) (clause : List Literal) → IsUseful held clause → IsNew held clause }
{}
