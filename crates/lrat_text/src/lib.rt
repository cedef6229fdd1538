//! Step lines of LRAT proofs without RAT: lines to steps and back, and logs of steps.
#![tactic(auto)]

ghost use Rattle.std.specs.Prelude.{◌≡◌, ℕ, List, Ok};
ghost use Rattle.lrat_model.specs.Steps.{ProofStep};
ghost use Rattle.lrat_text.specs.Words.{words_of};
ghost use Rattle.lrat_text.specs.Lines.{step_in};
ghost use Rattle.lrat_text.specs.Texts.{words_for, line_of, HasNumbers, HasLiterals};

mod arena;
mod entry;
mod faults;
mod lent;
mod log;
mod numbers;
mod reading;
mod words;
mod writing;

pub use faults::LineFault;
pub use lent::{HintsRef, StepRef};
pub use log::Log;
pub use lrat_model::{Lit, Step};
pub use numbers::{read_hint, read_id, read_literal};
pub use reading::{is_zero, read_step};
pub use words::{Words, blank_end, is_mark, word_len};
pub use writing::{StepBytes, write_lent, write_step};

/// A line is read as a step exactly where its words are those of the step and the step's numbers are in range.
/// So the line of a step reads back as the step, and no number has a second spelling.
pub fn a_line_says_its_step()
    ensures words { (line : List ℕ) (step : ProofStep) → step_in line ≡ Ok step → words_of line ≡ words_for step }
    ensures numbers { (line : List ℕ) (step : ProofStep) → step_in line ≡ Ok step → HasNumbers step × HasLiterals step }
    ensures read { (line : List ℕ) (step : ProofStep) → words_of line ≡ words_for step → HasNumbers step → HasLiterals step → step_in line ≡ Ok step }
    ensures read_back { (step : ProofStep) → HasNumbers step → HasLiterals step → step_in (line_of step) ≡ Ok step }
{}
