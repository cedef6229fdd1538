//! Lines to steps.
ghost use Rattle.std.specs.Prelude.{◌≡◌, ◌⊎◌, IfOk, IfErr, OnOk, Ok, Err, ◌∷◌};
ghost use Rattle.lrat_model.specs.Steps.{ProofStep, step_of};
ghost use Rattle.lrat_text.specs.Words.{Word, words_of};
ghost use Rattle.lrat_text.specs.Texts.{HasNumbers};
ghost use Rattle.lrat_text.specs.Lines.{is_zero, closed_list, ended, addition, deletion, after_id, step_in};

use crate::faults::LineFault;
use crate::numbers::Number;
use crate::words::Words;
use lrat_model::{Lit, Step};
use std::alloc::Global;

/// Reads a step line, without its line feed: `ID literals 0 hints 0` or `ID d ids 0`, words parted by
/// spaces and tabs.
///
/// Ids are from 1 to 2^63 - 1. Literals have variables from 1 to 2^31 - 1, hints are ids or their negations.
/// A number is decimal digits without a leading zero, with a `-` before it where it is negative.
///
/// `BadNumber` at the first word that is no number in the range of its place, `NoZero` where the line ends
/// before its closing 0, `Extra` where a word follows it. In time linear in the bytes of the line.
pub fn read_step(alloc: Global, line: &[u8]) -> Result<Step, LineFault>
    ensures ok { IfOk result (λ step. step_in line.now ≡ Ok (step_of step)) }
    ensures err { IfErr result (λ fault. (fault ≡ LineFault.Memory) ⊎ (step_in line.now ≡ Err fault)) }
    ensures numbers { IfOk result (λ step. HasNumbers (step_of step)) }
{
    let mut words = Words::of(line);
    let Some(first) = words.next() else {
        return Err(LineFault::NoZero);
    };
    let Some(id) = u64::read(first) else {
        return Err(LineFault::BadNumber);
    };
    read_after_id(alloc, id, &mut words)
}

/// What follows the id: `d` begins a deletion.
fn read_after_id(alloc: Global, id: u64, words: &mut Words<'_>) -> Result<Step, LineFault>
    ensures ok { IfOk result (λ step. after_id id words.old ≡ Ok (step_of step)) }
    ensures err { IfErr result (λ fault. (fault ≡ LineFault.Memory) ⊎ (after_id id words.old ≡ Err fault)) }
{
    if !words.take_mark() {
        return read_addition(alloc, id, words);
    }
    read_deletion(alloc, id, words)
}

fn read_addition(alloc: Global, id: u64, words: &mut Words<'_>) -> Result<Step, LineFault>
    ensures ok { IfOk result (λ step. addition id words.old ≡ Ok (step_of step)) }
    ensures err { IfErr result (λ fault. (fault ≡ LineFault.Memory) ⊎ (addition id words.old ≡ Err fault)) }
{
    let lits: Vec<Lit> = closed_list(alloc, words)?;
    let hints: Vec<i64> = closed_list(alloc, words)?;
    end(words)?;
    Ok(Step::Add { id, lits, hints })
}

fn read_deletion(alloc: Global, id: u64, words: &mut Words<'_>) -> Result<Step, LineFault>
    ensures ok { IfOk result (λ step. deletion id words.old ≡ Ok (step_of step)) }
    ensures err { IfErr result (λ fault. (fault ≡ LineFault.Memory) ⊎ (deletion id words.old ≡ Err fault)) }
{
    let ids: Vec<u64> = closed_list(alloc, words)?;
    end(words)?;
    Ok(Step::Delete { id, ids })
}

/// A list of numbers up to the 0 that closes it.
fn closed_list<T: Number>(alloc: Global, words: &mut Words<'_>) -> Result<Vec<T>, LineFault>
    ensures ok { IfOk result (λ numbers. closed_list T.number_in words.old ≡ Ok (numbers.items, words.new)) }
    ensures err { IfErr result (λ fault. (fault ≡ LineFault.Memory) ⊎ (closed_list T.number_in words.old ≡ Err fault)) }
{
    let mut numbers = Vec::new(alloc);
    while let Some(word) = words.next() {
        if is_zero(word) {
            return Ok(numbers);
        }
        let Some(number) = T::read(word) else {
            return Err(LineFault::BadNumber);
        };
        if numbers.push(number).is_err() {
            return Err(LineFault::Memory);
        }
    }
    Err(LineFault::NoZero)
}

/// The end of the line, after a step.
fn end(words: &mut Words<'_>) -> Result<(), LineFault>
    ensures ok { (step : ProofStep) → OnOk result (ended step words.old ≡ Ok step) }
    ensures err { (step : ProofStep) → IfErr result (λ fault. ended step words.old ≡ Err fault) }
{
    match words.next() {
        Some(_) => Err(LineFault::Extra),
        None => Ok(()),
    }
}

/// Whether the word closes a list.
pub fn is_zero(word: &[u8]) -> bool
    ensures { result ≡ is_zero word.now }
{
    word == b"0".as_slice()
}
