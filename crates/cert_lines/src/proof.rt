//! The lines of a proof from outside, as a stream: comments and lines without a word are passed over.
ghost use Rattle.std.specs.Prelude.{◌≡◌, ◌≢◌, ℕ, Bool, List, [], ◌+◌, ◌++◌, ◌<◌, ◌≤◌, ◌⊎◌, ◌||◌, true, false, Some, None, length, IsTrue, IfSome, IfOk, IfErr, IsErrOf, OnOk, Ok, Err, if◌then◌else◌};
ghost use Rattle.desk_io.specs.State.{left_of, with_left};
ghost use Rattle.desk_io.specs.Faults.{ReadFails};
ghost use Rattle.lrat_text.specs.Lines.{step_in};
ghost use Rattle.lrat_stream.specs.Outline.{outline_in};
ghost use Rattle.lrat_stream.specs.Ahead.{ahead, Fits};
ghost use Rattle.cert_lines.specs.Ends.{OnCert};
ghost use Rattle.cert_lines.specs.Lines.{lines_of};
ghost use Rattle.cert_lines.specs.Steps.{is_comment, is_wordless, is_passed_over};
ghost use Rattle.cert_lines.specs.Taking.{goes_on, TookLine};
ghost use Rattle.cert_lines.specs.Texts.{texts_of, next_text, IsTooLong};

use crate::faults::{CertError, CheckError};
use crate::lines::{Lines, MAX_LINES};
use crate::pieces::LineEnd;
use crate::steps::read_step;
use desk_io::{Desk, Which};
use lrat_checker::Checker;
use lrat_stream::StepReader;

/// What comes next in a proof.
#[derive(Clone, Copy, Debug, PartialEq, Eq)]
pub enum ProofLine {
    /// Nothing: the proof has no line left.
    End,
    /// A comment, or a line without a word.
    Passed,
    /// A line that is read as a step.
    Step,
}

/// Whether the line begins with a `c`.
fn is_comment(text: &[u8]) -> bool
    ensures { result ≡ is_comment text.now }
{
    match text.first() {
        Some(byte) => *byte == b'c',
        None => false,
    }
}

/// Whether all bytes are spaces and tabs.
fn is_wordless(text: &[u8]) -> bool
    ensures { result ≡ is_wordless text.now }
{
    text.iter().all(|byte| *byte == b' ' || *byte == b'\t')
}

/// Whether a part of a line is passed over, given whether the line is a comment.
fn is_passed(is_comment: bool, part: &[u8]) -> bool
    ensures { result ≡ (is_comment || is_wordless part.now) }
{
    is_comment || is_wordless(part)
}

/// The next line of a proof from outside, whose last line may lack its line feed. What a step says then stands in the reader and
/// in the checker. Of its hints no list is kept, and of a line that is passed over nothing. A fault of the step is kept in the
/// reader, as those of the line's number, its length and its words come first.
///
/// O(bytes), and what the checker does with the literals and hints.
pub fn proof_line<D: Desk>(
    lines: &mut Lines,
    desk: &mut D,
    checker: &mut Checker,
    reader: &mut StepReader,
) -> Result<ProofLine, CheckError>
    requires fresh { lines.old.taken ≡ 0 }
    requires closed { checker.old.open_addition ≡ None }
    ensures end { result ≡ Ok ProofLine.End → IsTrue D.tells → next_text lines.old.number (texts_of (lines.old.unread ++ left_of Which.Cert (D.state desk.old))) ≡ Ok None }
    ensures passed { result ≡ Ok ProofLine.Passed → (text : List ℕ) × (is_passed_over text ≡ true)
        × (IsTrue D.tells → next_text lines.old.number (texts_of (lines.old.unread ++ left_of Which.Cert (D.state desk.old)))
        ≡ Ok (Some (record { text = text; more = texts_of (lines.new.unread ++ left_of Which.Cert (D.state desk.new)) }))) }
    ensures same { result ≡ Ok ProofLine.Passed → checker.new ≡ checker.old }
    ensures step { result ≡ Ok ProofLine.Step → (text : List ℕ) × (is_passed_over text ≡ false)
        × (IsTrue D.tells → next_text lines.old.number (texts_of (lines.old.unread ++ left_of Which.Cert (D.state desk.old)))
        ≡ Ok (Some (record { text = text; more = texts_of (lines.new.unread ++ left_of Which.Cert (D.state desk.new)) })))
        × (outline_in checker.old.rule checker.old.vars checker.old.database (step_in text) ≡ ahead checker.old.rule checker.old.vars checker.old.database reader.new.words checker.new.open_addition []) }
    ensures fits { result ≡ Ok ProofLine.Step → Fits reader.new.words checker.new.open_addition }
    ensures database { checker.new.database ≡ checker.old.database }
    ensures rule { checker.new.rule ≡ checker.old.rule }
    ensures vars { checker.new.vars ≡ checker.old.vars }
    ensures few { IfOk result (λ p. p ≢ ProofLine.End → lines.old.number ≤ MAX_LINES) }
    ensures number { IfOk result (λ p. p ≢ ProofLine.End → lines.new.number ≡ lines.old.number + 1) }
    ensures taken { IfOk result (λ p. p ≢ ProofLine.End → lines.new.taken ≡ 0) }
    ensures err { IfErr result (λ e. IsTrue D.tells → OnCert e (λ fault. (fault ≡ CertError.Memory)
        ⊎ (next_text lines.old.number (texts_of (lines.old.unread ++ left_of Which.Cert (D.state desk.old))) ≡ Err fault))) }
    ensures plain { IsErrOf result CheckError.Read → IsTrue D.tells → IsTrue (D.state desk.old).plain → ⊥ }
    ensures rest { IsTrue D.tells → D.state desk.new ≡ with_left Which.Cert (left_of Which.Cert (D.state desk.new)) (D.state desk.old) }
    ensures faults { ReadFails (D.faults desk.old) (D.faults desk.new) (IsErrOf result CheckError.Read) }
{
    if !lines.begin_text(desk)? {
        return Ok(ProofLine::End);
    }
    let Some(first) = pass_over(lines, desk)? else {
        return Ok(ProofLine::Passed);
    };
    read_step(lines, desk, checker, reader, first)?;
    Ok(ProofLine::Step)
}

/// Takes the parts of the next line, up to the first with a word: how that ends, or None if the line is passed over. Of a
/// comment all are taken.
fn pass_over<D: Desk>(lines: &mut Lines, desk: &mut D) -> Result<Option<LineEnd>, CheckError>
    requires few { lines.old.number ≤ MAX_LINES }
    requires fresh { lines.old.taken ≡ 0 }
    ensures passed { result ≡ Ok None → (text : List ℕ) × (end : LineEnd) × (is_passed_over text ≡ true) × (goes_on end ≡ false)
        × TookLine D.tells lines.old.number (lines.old.unread ++ left_of Which.Cert (D.state desk.old)) text end lines.new (left_of Which.Cert (D.state desk.new)) }
    ensures word { IfOk result (λ o. IfSome o (λ end. (blanks : List ℕ) × (is_wordless blanks ≡ true) × ((more : List ℕ) → is_passed_over ((blanks ++ lines.new.part) ++ more) ≡ false)
        × TookLine D.tells lines.old.number (lines.old.unread ++ left_of Which.Cert (D.state desk.old)) (blanks ++ lines.new.part) end lines.new (left_of Which.Cert (D.state desk.new)))) }
    ensures err { IfErr result (λ e. IsTrue D.tells → OnCert e (λ fault. IsTooLong lines.old.number (lines_of (lines.old.unread ++ left_of Which.Cert (D.state desk.old))) fault)) }
    ensures plain { IsErrOf result CheckError.Read → IsTrue D.tells → IsTrue (D.state desk.old).plain → ⊥ }
    ensures rest { IsTrue D.tells → D.state desk.new ≡ with_left Which.Cert (left_of Which.Cert (D.state desk.new)) (D.state desk.old) }
    ensures faults { ReadFails (D.faults desk.old) (D.faults desk.new) (IsErrOf result CheckError.Read) }
{
    let mut end = lines.take_part(desk)?;
    let is_comment = is_comment(lines.part());
    'parts: while is_passed(is_comment, lines.part()) {
        if !end.goes_on() {
            return Ok(None);
        }
        end = lines.take_part(desk)?;
    }
    Ok(Some(end))
}
