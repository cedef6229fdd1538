//! The lines of steps, as a stream.
ghost use Rattle.std.specs.Prelude.{◌≡◌, ℕ, List, [], ◌+◌, ◌++◌, ◌≤◌, ◌⊎◌, true, false, None, length, IsTrue, IfSome, IfOk, IfErr, IsErrOf, OnOk, Ok, Err};
ghost use Rattle.desk_io.specs.State.{left_of, with_left};
ghost use Rattle.desk_io.specs.Faults.{ReadFails};
ghost use Rattle.lrat_text.specs.Lines.{step_in};
ghost use Rattle.lrat_stream.specs.Outline.{outline_in};
ghost use Rattle.lrat_stream.specs.Ahead.{ahead, Fits};
ghost use Rattle.cert_lines.specs.Ends.{OnCert};
ghost use Rattle.cert_lines.specs.Lines.{lines_of};
ghost use Rattle.cert_lines.specs.Limits.{next_line};
ghost use Rattle.cert_lines.specs.Steps.{is_other};
ghost use Rattle.cert_lines.specs.Taking.{goes_on, TookLine};
ghost use Rattle.cert_lines.specs.Texts.{IsTooLong};

use crate::faults::{CertError, CheckError};
use crate::lines::{Lines, MAX_LINES};
use crate::pieces::LineEnd;
use desk_io::{Desk, Which};
use lrat_checker::Checker;
use lrat_stream::StepReader;
use std::alloc::Global;

/// Whether a line that begins so is none of a step: `end`, or one that lists a set.
fn is_other(text: &[u8]) -> bool
    ensures { result ≡ is_other text.now }
{
    match text.first() {
        Some(byte) => *byte == b'e' || *byte == b'q' || *byte == b'b' || *byte == b's',
        None => false,
    }
}

/// The next line, if it begins as no step does, or None if it is read as a step: what it says then stands in the reader
/// and in the checker. Of its hints no list is kept. A fault of the step is kept in the reader, as those of the line's number,
/// its length, its end and its words come first.
///
/// O(bytes), and what the checker does with the literals and hints.
pub fn line_or_step<D: Desk>(
    alloc: Global,
    lines: &mut Lines,
    desk: &mut D,
    checker: &mut Checker,
    reader: &mut StepReader,
) -> Result<Option<Vec<u8>>, CheckError>
    requires fresh { lines.old.taken ≡ 0 }
    requires closed { checker.old.open_addition ≡ None }
    ensures text { IfOk result (λ o. IfSome o (λ text. IsTrue D.tells → next_line lines.old.number (lines_of (lines.old.unread ++ left_of Which.Cert (D.state desk.old)))
        ≡ Ok (record { text = text.items; more = lines_of (lines.new.unread ++ left_of Which.Cert (D.state desk.new)) }))) }
    ensures same { IfOk result (λ o. IfSome o (λ _. checker.new ≡ checker.old)) }
    ensures step { result ≡ Ok None → (text : List ℕ) × (is_other text ≡ false)
        × (IsTrue D.tells → next_line lines.old.number (lines_of (lines.old.unread ++ left_of Which.Cert (D.state desk.old)))
        ≡ Ok (record { text = text; more = lines_of (lines.new.unread ++ left_of Which.Cert (D.state desk.new)) }))
        × (outline_in checker.old.rule checker.old.vars checker.old.database (step_in text) ≡ ahead checker.old.rule checker.old.vars checker.old.database reader.new.words checker.new.open_addition []) }
    ensures fits { result ≡ Ok None → Fits reader.new.words checker.new.open_addition }
    ensures database { checker.new.database ≡ checker.old.database }
    ensures rule { checker.new.rule ≡ checker.old.rule }
    ensures vars { checker.new.vars ≡ checker.old.vars }
    ensures few { OnOk result (lines.old.number ≤ MAX_LINES) }
    ensures number { OnOk result (lines.new.number ≡ lines.old.number + 1) }
    ensures taken { OnOk result (lines.new.taken ≡ 0) }
    ensures err { IfErr result (λ e. IsTrue D.tells → OnCert e (λ fault. (fault ≡ CertError.Memory)
        ⊎ (next_line lines.old.number (lines_of (lines.old.unread ++ left_of Which.Cert (D.state desk.old))) ≡ Err fault))) }
    ensures plain { IsErrOf result CheckError.Read → IsTrue D.tells → IsTrue (D.state desk.old).plain → ⊥ }
    ensures rest { IsTrue D.tells → D.state desk.new ≡ with_left Which.Cert (left_of Which.Cert (D.state desk.new)) (D.state desk.old) }
    ensures faults { ReadFails (D.faults desk.old) (D.faults desk.new) (IsErrOf result CheckError.Read) }
{
    lines.begin()?;
    let number = lines.number();
    let first = lines.take_part(desk)?;
    if is_other(lines.part()) {
        let mut text = Vec::new(alloc);
        let end = lines.rest_of_line(desk, &mut text, first)?;
        end.is_whole(number)?;
        return Ok(Some(text));
    }
    let end = read_step(lines, desk, checker, reader, first)?;
    end.is_whole(number)?;
    Ok(None)
}

/// Reads the step of the line whose part was taken last, with the parts that follow it: how the line ends. What came of the
/// line before that part are blanks.
pub fn read_step<D: Desk>(
    lines: &mut Lines,
    desk: &mut D,
    checker: &mut Checker,
    reader: &mut StepReader,
    first: LineEnd,
) -> Result<LineEnd, CheckError>
    requires few { goes_on first ≡ true → lines.old.number ≤ MAX_LINES }
    requires closed { checker.old.open_addition ≡ None }
    ensures line { IfOk result (λ end. (suffix : List ℕ) × (goes_on first ≡ false → suffix ≡ [])
        × ((l : ℕ) (before bytes : List ℕ) → TookLine D.tells l before bytes first lines.old (left_of Which.Cert (D.state desk.old)) → TookLine D.tells l before (bytes ++ suffix) end lines.new (left_of Which.Cert (D.state desk.new)))
        × (outline_in checker.old.rule checker.old.vars checker.old.database (step_in (lines.old.part ++ suffix)) ≡ ahead checker.old.rule checker.old.vars checker.old.database reader.new.words checker.new.open_addition [])) }
    ensures ended { IfOk result (λ end. goes_on end ≡ false) }
    ensures fits { OnOk result (Fits reader.new.words checker.new.open_addition) }
    ensures database { checker.new.database ≡ checker.old.database }
    ensures rule { checker.new.rule ≡ checker.old.rule }
    ensures vars { checker.new.vars ≡ checker.old.vars }
    ensures err { IfErr result (λ e. IsTrue D.tells → OnCert e (λ fault. (fault ≡ CertError.Memory)
        ⊎ ((l : ℕ) (before bytes : List ℕ) → TookLine D.tells l before bytes first lines.old (left_of Which.Cert (D.state desk.old)) → IsTooLong l (lines_of before) fault))) }
    ensures plain { IsErrOf result CheckError.Read → IsTrue D.tells → IsTrue (D.state desk.old).plain → ⊥ }
    ensures rest { IsTrue D.tells → D.state desk.new ≡ with_left Which.Cert (left_of Which.Cert (D.state desk.new)) (D.state desk.old) }
    ensures faults { ReadFails (D.faults desk.old) (D.faults desk.new) (IsErrOf result CheckError.Read) }
{
    reader.restart();
    let mut end = first;
    'parts: while end.goes_on() {
        reader.part(checker, lines.part())?;
        end = lines.take_part(desk)?;
    }
    reader.last(checker, lines.part())?;
    Ok(end)
}
