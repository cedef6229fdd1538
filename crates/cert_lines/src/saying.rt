//! What the words of a line say: a digest, the size of a formula or of a counter, or a step.
ghost use Rattle.std.specs.Prelude.{◌≡◌, ◌⊎◌, None, IfOk, IfErr, IfSome, Ok, Err};
ghost use Rattle.digest_text.specs.Digits.{digest_of};
ghost use Rattle.lrat_model.specs.Steps.{step_of};
ghost use Rattle.lrat_text.specs.Lines.{step_in};
ghost use Rattle.cert_lines.specs.Words.{digest_behind, digest_in, orgs_digest_in, words_of};
ghost use Rattle.cert_lines.specs.Saying.{number_in, counts_in, counter_in, or_bad_line};

use crate::faults::CertError;
use crate::words::Words;
use lrat_model::Step;
use lrat_text::{LineFault, read_id, read_step};
use std::alloc::Global;

/// How many variables and clauses a formula, or a counter, has.
#[derive(Clone, Copy)]
pub struct Counts {
    pub vars: u64,
    pub clauses: u64,
}

/// The word after this one, if there is one and nothing else.
fn digits_behind<'a>(name: &str, text: &'a [u8]) -> Option<&'a [u8]>
    ensures some { IfSome result (λ digits. digest_behind name.now (words_of text.now) ≡ digest_of digits.now) }
    ensures none { result ≡ None → digest_behind name.now (words_of text.now) ≡ None }
{
    let mut words = Words::of(text);
    match (words.next(), words.next(), words.next()) {
        (Some(word), Some(digits), None) if word == name.as_bytes() => Some(digits),
        _ => None,
    }
}

/// The word after the word `config`, if there is one and nothing else.
pub fn digits_in(text: &[u8]) -> Option<&[u8]>
    ensures some { IfSome result (λ digits. digest_in text.now ≡ digest_of digits.now) }
    ensures none { result ≡ None → digest_in text.now ≡ None }
{
    digits_behind("config", text)
}

/// The word after the word `orgs`, if there is one and nothing else.
pub fn orgs_digits_in(text: &[u8]) -> Option<&[u8]>
    ensures some { IfSome result (λ digits. orgs_digest_in text.now ≡ digest_of digits.now) }
    ensures none { result ≡ None → orgs_digest_in text.now ≡ None }
{
    digits_behind("orgs", text)
}

/// A number of variables or of clauses: 0, or what is written as an id is.
fn number(word: &[u8]) -> Option<u64>
    ensures { result ≡ number_in word.now }
{
    if word == b"0".as_slice() {
        return Some(0);
    }
    read_id(word)
}

/// The numbers after the word `formula`, if there are two and nothing else: each up to 2^63 - 1, and some clause.
pub fn counts_in(text: &[u8]) -> Option<Counts>
    ensures { result ≡ counts_in text.now }
{
    let mut words = Words::of(text);
    match (words.next(), words.next(), words.next(), words.next()) {
        (Some(word), Some(vars), Some(clauses), None) if word == b"formula".as_slice() => {
            Some(Counts {
                vars: number(vars)?,
                clauses: read_id(clauses)?,
            })
        }
        _ => None,
    }
}

/// The numbers after the word `counter`, if there are two and nothing else: each from 0 to 2^63 - 1.
pub fn counter_in(text: &[u8]) -> Option<Counts>
    ensures { result ≡ counter_in text.now }
{
    let mut words = Words::of(text);
    match (words.next(), words.next(), words.next(), words.next()) {
        (Some(word), Some(vars), Some(clauses), None) if word == b"counter".as_slice() => {
            Some(Counts {
                vars: number(vars)?,
                clauses: number(clauses)?,
            })
        }
        _ => None,
    }
}

/// The step that this line says, whatever its fault as a step line `BadLine`.
pub fn step_in(alloc: Global, line: u64, text: &[u8]) -> Result<Step, CertError>
    ensures ok { IfOk result (λ step. or_bad_line line (step_in text.now) ≡ Ok (step_of step)) }
    ensures err { IfErr result (λ e. (e ≡ CertError.Memory) ⊎ (or_bad_line line (step_in text.now) ≡ Err e)) }
{
    match read_step(alloc, text) {
        Ok(step) => Ok(step),
        Err(LineFault::Memory) => Err(CertError::Memory),
        Err(_) => Err(CertError::BadLine(line)),
    }
}
