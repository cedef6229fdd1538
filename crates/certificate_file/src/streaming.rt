//! One step that was read as a stream.
ghost use Rattle.std.specs.Prelude.{◌≡◌, ◌≢◌, ◌⊎◌, ◌≤◌, ◌^◌, [], ℕ, Option, None, IfOk, IfErr, IfSome, OnOk, Ok, Err};
ghost use Rattle.lrat_model.specs.Steps.{Database};
ghost use Rattle.lrat_model.specs.declared.step.Rule.{Rule};
ghost use Rattle.lrat_checker.specs.Adding.{Adding};
ghost use Rattle.lrat_stream.specs.Ahead.{ahead, IsOpen, Fits};
ghost use Rattle.certificate_file.specs.Streamed.{finished, is_empty_lemma, covers_read, counted_read, read, checking_of};

use cert_lines::CertError;
use lrat_checker::Checker;
use lrat_model::{Progress, StepFault};
use lrat_stream::{Stage, StepWords};

/// Ends the step, and gives where it led, or the fault: of the line's words first.
pub fn finish(
    checker: &mut Checker,
    words: &mut StepWords,
    line: u64,
) -> Result<Progress, CertError>
    requires { Fits words.old checker.old.open_addition }
    ensures closed { OnOk result (checker.new.open_addition ≡ None) }
    ensures ok { IfOk result (λ p. finished line checker.old.rule checker.old.vars checker.old.database (ahead checker.old.rule checker.old.vars checker.old.database words.old checker.old.open_addition []) ≡ Ok (checking_of checker.new, p)) }
    ensures err { IfErr result (λ e. (e ≡ CertError.Memory) ⊎ (finished line checker.old.rule checker.old.vars checker.old.database (ahead checker.old.rule checker.old.vars checker.old.database words.old checker.old.open_addition []) ≡ Err e)) }
{
    match words.stage {
        Stage::Added(_) => finish_addition(checker, words, line),
        Stage::Deleted(_) => finish_deletion(checker, words, line),
        _ => Err(CertError::BadLine(line)),
    }
}

/// Ends an addition, where no fault was kept.
fn finish_addition(
    checker: &mut Checker,
    words: &mut StepWords,
    line: u64,
) -> Result<Progress, CertError>
    requires { (id : ℕ) × (words.old.stage ≡ Stage.Added id) × IsOpen id words.old.lits.items words.old.fault checker.old.open_addition }
    ensures closed { OnOk result (checker.new.open_addition ≡ None) }
    ensures ok { IfOk result (λ p. finished line checker.old.rule checker.old.vars checker.old.database (ahead checker.old.rule checker.old.vars checker.old.database words.old checker.old.open_addition []) ≡ Ok (checking_of checker.new, p)) }
    ensures err { IfErr result (λ e. (e ≡ CertError.Memory) ⊎ (finished line checker.old.rule checker.old.vars checker.old.database (ahead checker.old.rule checker.old.vars checker.old.database words.old checker.old.open_addition []) ≡ Err e)) }
{
    if let Some(fault) = words.fault.take() {
        return Err(CertError::Step(line, fault));
    }
    match checker.finish_add() {
        Ok(progress) => Ok(progress),
        Err(StepFault::Memory) => Err(CertError::Memory),
        Err(fault) => Err(CertError::Step(line, fault)),
    }
}

/// Takes the clauses of a deletion out.
fn finish_deletion(
    checker: &mut Checker,
    words: &mut StepWords,
    line: u64,
) -> Result<Progress, CertError>
    requires { (id : ℕ) × (words.old.stage ≡ Stage.Deleted id) × (checker.old.open_addition ≡ None) }
    ensures closed { OnOk result (checker.new.open_addition ≡ None) }
    ensures no_memory { result ≢ Err CertError.Memory }
    ensures ok { IfOk result (λ p. finished line checker.old.rule checker.old.vars checker.old.database (ahead checker.old.rule checker.old.vars checker.old.database words.old checker.old.open_addition []) ≡ Ok (checking_of checker.new, p)) }
    ensures err { IfErr result (λ e. (e ≡ CertError.Memory) ⊎ (finished line checker.old.rule checker.old.vars checker.old.database (ahead checker.old.rule checker.old.vars checker.old.database words.old checker.old.open_addition []) ≡ Err e)) }
{
    match checker.delete(&words.ids) {
        Ok(progress) => Ok(progress),
        Err(fault) => Err(CertError::Step(line, fault)),
    }
}

/// Whether it adds the empty lemma.
fn is_empty_lemma(words: &StepWords) -> bool
    ensures { (rule : Rule) (vars : ℕ) (database : Database) (now : Option Adding) → result ≡ is_empty_lemma (ahead rule vars database words.now now []) }
{
    match words.stage {
        Stage::Added(_) => words.lits.is_empty(),
        _ => false,
    }
}

/// Whether it adds a clause of which one that is held is a subset.
fn covers_read(checker: &Checker, words: &StepWords) -> bool
    ensures { (rule : Rule) (vars : ℕ) (database : Database) (now : Option Adding) → result ≡ covers_read checker.now.database.held (ahead rule vars database words.now now []) }
{
    match words.stage {
        Stage::Added(id) => checker.covers(id, &words.lits),
        _ => false,
    }
}

/// The units after it, while they can be counted.
fn counted_read(units: u64, words: &StepWords) -> Option<u64>
    ensures some { (rule : Rule) (vars : ℕ) (database : Database) (now : Option Adding) → IfSome result (λ n. n ≡ counted_read units (ahead rule vars database words.now now [])) }
    ensures none { (rule : Rule) (vars : ℕ) (database : Database) (now : Option Adding) → result ≡ None → 2 ^ 64 ≤ counted_read units (ahead rule vars database words.now now []) }
{
    match words.stage {
        Stage::Added(_) => units.checked_add(1),
        _ => Some(units),
    }
}

/// Takes the step that was read: where it led, with the units counted on. In a part of a proof the empty lemma may not stand,
/// and each lemma has to be new.
pub fn take_read(
    checker: &mut Checker,
    units: &mut u64,
    is_part: bool,
    words: &mut StepWords,
    line: u64,
) -> Result<Progress, CertError>
    requires { Fits words.old checker.old.open_addition }
    ensures closed { OnOk result (checker.new.open_addition ≡ None) }
    ensures ok { IfOk result (λ p. read line is_part checker.old.rule checker.old.vars checker.old.database units.old (ahead checker.old.rule checker.old.vars checker.old.database words.old checker.old.open_addition []) ≡ Ok ((checking_of checker.new, p), units.new)) }
    ensures err { IfErr result (λ e. (e ≡ CertError.Memory) ⊎ (read line is_part checker.old.rule checker.old.vars checker.old.database units.old (ahead checker.old.rule checker.old.vars checker.old.database words.old checker.old.open_addition []) ≡ Err e)) }
{
    if is_part && is_empty_lemma(words) {
        return Err(CertError::BadLine(line));
    }
    let is_old = is_part && covers_read(checker, words);
    let counted = counted_read(*units, words);
    let progress = finish(checker, words, line)?;
    if is_old {
        return Err(CertError::NotNew(line));
    }
    let Some(counted) = counted else {
        return Err(CertError::Memory);
    };
    *units = counted;
    Ok(progress)
}
