//! The lines of a certificate, and the limits on them.
ghost use Rattle.std.specs.Prelude.{◌≡◌, ◌≢◌, ℕ, List, [], ◌+◌, ◌++◌, ◌<◌, ◌≤◌, ◌⊎◌, length, true, false, None, IsTrue, IfSome, IfOk, IfErr, IsErrOf, OnOk, Ok, Err, if◌then◌else◌};
ghost use Rattle.desk_io.specs.State.{left_of, with_left};
ghost use Rattle.desk_io.specs.Faults.{ReadFails};
ghost use Rattle.cert_lines.specs.Ends.{OnCert};
ghost use Rattle.cert_lines.specs.Lines.{lines_of};
ghost use Rattle.cert_lines.specs.Limits.{next_line};
ghost use Rattle.cert_lines.specs.Parts.{with_front};
ghost use Rattle.cert_lines.specs.Taking.{goes_on, TookPart, TookLine};
ghost use Rattle.cert_lines.specs.Texts.{texts_of, next_text, IsTooLong};

use crate::faults::{CertError, CheckError};
use crate::pieces::{LineEnd, Pieces};
use desk_io::{Desk, Which};
use std::alloc::{AllocError, Global};
use std::marker::Model;

/// Lines that a certificate may have.
pub const MAX_LINES: u64 = 17_179_869_184;

/// Bytes that a line may have before its line feed.
pub const MAX_LINE_BYTES: u64 = 134_217_728;

/// What is left of a certificate, and the number of its next line, of which some bytes may be taken.
#[derive(Drop)]
pub struct Lines {
    bytes: Pieces,
    number: u64,
    taken: u64,
}

impl Model for Lines {
    ghost use Rattle.std.specs.Prelude.{◌≤◌};
    ghost use Rattle.cert_lines.specs.Limits.{Unread};

    ghost Value = { Unread };

    ghost view = { λ l. record { unread = l.bytes.unread; number = l.number; taken = l.taken; part = l.bytes.part } };

    ghost use Rattle.cert_lines.specs.declared.lines.TheConstants.{MAX_LINE_BYTES};

    ghost invariant = { λ l. l.taken ≤ MAX_LINE_BYTES };
}

impl Lines {
    /// Takes the buffer for the pieces.
    pub fn start(alloc: Global) -> Result<Lines, AllocError>
        ensures unread { IfOk result (λ l. l.unread ≡ []) }
        ensures number { IfOk result (λ l. l.number ≡ 1) }
        ensures taken { IfOk result (λ l. l.taken ≡ 0) }
    {
        Ok(Lines {
            bytes: Pieces::start(alloc)?,
            number: 1,
            taken: 0,
        })
    }

    /// The next line without its line feed, or the first fault of its number, its length and its end.
    pub fn line<D: Desk>(&mut self, alloc: Global, desk: &mut D) -> Result<Vec<u8>, CheckError>
        requires { self.old.taken ≡ 0 }
        ensures line { IfOk result (λ text. IsTrue D.tells → next_line self.old.number (lines_of (self.old.unread ++ left_of Which.Cert (D.state desk.old)))
            ≡ Ok (record { text = text.items; more = lines_of (self.new.unread ++ left_of Which.Cert (D.state desk.new)) })) }
        ensures few { OnOk result (self.old.number ≤ MAX_LINES) }
        ensures number { OnOk result (self.new.number ≡ self.old.number + 1) }
        ensures taken { OnOk result (self.new.taken ≡ 0) }
        ensures err { IfErr result (λ e. IsTrue D.tells → OnCert e (λ fault. (fault ≡ CertError.Memory)
            ⊎ (next_line self.old.number (lines_of (self.old.unread ++ left_of Which.Cert (D.state desk.old))) ≡ Err fault))) }
        ensures plain { IsErrOf result CheckError.Read → IsTrue D.tells → IsTrue (D.state desk.old).plain → ⊥ }
        ensures rest { IsTrue D.tells → D.state desk.new ≡ with_left Which.Cert (left_of Which.Cert (D.state desk.new)) (D.state desk.old) }
        ensures faults { ReadFails (D.faults desk.old) (D.faults desk.new) (IsErrOf result CheckError.Read) }
    {
        self.begin()?;
        let number = self.number;
        let first = self.take_part(desk)?;
        let mut text = Vec::new(alloc);
        let end = self.rest_of_line(desk, &mut text, first)?;
        end.is_whole(number)?;
        Ok(text)
    }

    /// That there may be a next line.
    pub fn begin(&self) -> Result<(), CertError>
        ensures ok { OnOk result (self.now.number ≤ MAX_LINES) }
        ensures err { IfErr result (λ e. (e ≡ CertError.TooManyLines) × ((bytes : List ℕ) → next_line self.now.number (lines_of bytes) ≡ Err e)) }
        ensures many { IfErr result (λ _. MAX_LINES < self.now.number) }
    {
        if self.number > MAX_LINES {
            return Err(CertError::TooManyLines);
        }
        Ok(())
    }

    /// Whether a text whose last line may lack its line feed has a next line, and one that there may be.
    pub fn begin_text<D: Desk>(&mut self, desk: &mut D) -> Result<bool, CheckError>
        ensures none { IfOk result (λ more. more ≡ false → IsTrue D.tells → next_text self.old.number (texts_of (self.old.unread ++ left_of Which.Cert (D.state desk.old))) ≡ Ok None) }
        ensures some { IfOk result (λ more. more ≡ true → (self.old.number ≤ MAX_LINES) × (0 < length self.new.unread)) }
        ensures all { OnOk result (IsTrue D.tells → self.old.unread ++ left_of Which.Cert (D.state desk.old) ≡ self.new.unread ++ left_of Which.Cert (D.state desk.new)) }
        ensures number { self.new.number ≡ self.old.number }
        ensures taken { self.new.taken ≡ self.old.taken }
        ensures err { IfErr result (λ e. IsTrue D.tells → OnCert e (λ fault. next_text self.old.number (texts_of (self.old.unread ++ left_of Which.Cert (D.state desk.old))) ≡ Err fault)) }
        ensures plain { IsErrOf result CheckError.Read → IsTrue D.tells → IsTrue (D.state desk.old).plain → ⊥ }
        ensures rest { IsTrue D.tells → D.state desk.new ≡ with_left Which.Cert (left_of Which.Cert (D.state desk.new)) (D.state desk.old) }
        ensures faults { ReadFails (D.faults desk.old) (D.faults desk.new) (IsErrOf result CheckError.Read) }
    {
        if !self.bytes.fill(desk)? {
            return Ok(false);
        }
        self.begin()?;
        Ok(true)
    }

    /// Takes the next part of the line: how it ends. If the input ends before a line feed, that ends the line too.
    pub fn take_part<D: Desk>(&mut self, desk: &mut D) -> Result<LineEnd, CheckError>
        requires { self.old.number ≤ MAX_LINES }
        ensures part { IfOk result (λ end. TookPart D.tells self.old (left_of Which.Cert (D.state desk.old)) end self.new (left_of Which.Cert (D.state desk.new))) }
        ensures err { IfErr result (λ e. IsTrue D.tells → OnCert e (λ fault. (front : List ℕ) → length front ≡ self.old.taken → IsTooLong self.old.number (with_front front (lines_of (self.old.unread ++ left_of Which.Cert (D.state desk.old)))) fault)) }
        ensures plain { IsErrOf result CheckError.Read → IsTrue D.tells → IsTrue (D.state desk.old).plain → ⊥ }
        ensures rest { IsTrue D.tells → D.state desk.new ≡ with_left Which.Cert (left_of Which.Cert (D.state desk.new)) (D.state desk.old) }
        ensures faults { ReadFails (D.faults desk.old) (D.faults desk.new) (IsErrOf result CheckError.Read) }
    {
        let end = self.bytes.take(desk)?;
        let taken = self.taken + self.bytes.part().len() as u64;
        if taken > MAX_LINE_BYTES {
            return Err(CheckError::Cert(CertError::LineTooLong(self.number)));
        }
        if end.goes_on() {
            self.taken = taken;
        } else {
            self.number += 1;
            self.taken = 0;
        }
        Ok(end)
    }

    /// Puts the part of the line that was taken last, and those that follow it, after the text: how the line ends.
    pub fn rest_of_line<D: Desk>(
        &mut self,
        desk: &mut D,
        text: &mut Vec<u8>,
        first: LineEnd,
    ) -> Result<LineEnd, CheckError>
        requires { goes_on first ≡ true → self.old.number ≤ MAX_LINES }
        ensures line { IfOk result (λ end. (suffix : List ℕ) × (text.new.items ≡ text.old.items ++ (self.old.part ++ suffix))
            × ((l : ℕ) (before bytes : List ℕ) → TookLine D.tells l before bytes first self.old (left_of Which.Cert (D.state desk.old)) → TookLine D.tells l before (bytes ++ suffix) end self.new (left_of Which.Cert (D.state desk.new)))) }
        ensures ended { IfOk result (λ end. goes_on end ≡ false) }
        ensures err { IfErr result (λ e. IsTrue D.tells → OnCert e (λ fault. (fault ≡ CertError.Memory)
            ⊎ ((l : ℕ) (before bytes : List ℕ) → TookLine D.tells l before bytes first self.old (left_of Which.Cert (D.state desk.old)) → IsTooLong l (lines_of before) fault))) }
        ensures plain { IsErrOf result CheckError.Read → IsTrue D.tells → IsTrue (D.state desk.old).plain → ⊥ }
        ensures rest { IsTrue D.tells → D.state desk.new ≡ with_left Which.Cert (left_of Which.Cert (D.state desk.new)) (D.state desk.old) }
        ensures faults { ReadFails (D.faults desk.old) (D.faults desk.new) (IsErrOf result CheckError.Read) }
    {
        text.extend_from_slice(self.part())?;
        let mut end = first;
        'parts: while end.goes_on() {
            end = self.take_part(desk)?;
            text.extend_from_slice(self.part())?;
        }
        Ok(end)
    }

    /// The part that was taken last.
    pub fn part(&self) -> &[u8]
        ensures { result.now ≡ self.now.part }
    {
        self.bytes.part()
    }

    /// The number of the next line.
    pub fn number(&self) -> u64
        ensures { result ≡ self.now.number }
    {
        self.number
    }

    /// Ends the reading after the last line: `Trailing` if something follows it.
    pub fn close<D: Desk>(mut self, desk: &mut D) -> Result<(), CheckError>
        ensures ok { OnOk result (IsTrue D.tells → self.unread ++ left_of Which.Cert (D.state desk.old) ≡ []) }
        ensures err { IfErr result (λ e. IsTrue D.tells → OnCert e (λ fault. (fault ≡ CertError.Trailing)
            × (self.unread ++ left_of Which.Cert (D.state desk.old) ≢ []))) }
        ensures plain { IsErrOf result CheckError.Read → IsTrue D.tells → IsTrue (D.state desk.old).plain → ⊥ }
        ensures rest { IsTrue D.tells → D.state desk.new ≡ with_left Which.Cert (left_of Which.Cert (D.state desk.new)) (D.state desk.old) }
        ensures faults { ReadFails (D.faults desk.old) (D.faults desk.new) (IsErrOf result CheckError.Read) }
    {
        if self.bytes.fill(desk)? {
            return Err(CheckError::Cert(CertError::Trailing));
        }
        Ok(())
    }
}
