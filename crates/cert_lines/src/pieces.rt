//! The bytes of the certificate, taken from a desk in pieces, and cut at the line feeds.
ghost use Rattle.std.specs.Prelude.{◌≡◌, ◌≢◌, ◌<◌, ◌≤◌, ◌∷◌, ◌++◌, [], drop, length, true, false, IsTrue, IfOk, IfErr, IsErr, OnOk, OnErr};
ghost use Rattle.desk_io.specs.State.{left_of, with_left};
ghost use Rattle.desk_io.specs.Faults.{ReadFails};
ghost use Rattle.cert_lines.specs.Lines.{lines_of};
ghost use Rattle.cert_lines.specs.Parts.{IsFeedless};
ghost use Rattle.cert_lines.specs.Taking.{goes_on, IsBegun};

use crate::faults::{CertError, CheckError};
use desk_io::{Desk, Which};
use memchr::memchr;
use std::alloc::{AllocError, Global};
use std::marker::Model;

/// Bytes that are asked of the desk at once.
const PIECE: usize = 65_536;

/// How a part of a line ends.
#[derive(Clone, Copy)]
pub enum LineEnd {
    /// The line goes on.
    More,
    /// With the line feed of the line.
    Feed,
    /// With the input, before a line feed.
    Input,
}

impl LineEnd {
    /// Whether the line goes on.
    pub fn goes_on(self) -> bool
        ensures { result ≡ goes_on self }
    {
        match self {
            LineEnd::More => true,
            LineEnd::Feed | LineEnd::Input => false,
        }
    }

    /// That the line doesn't end with the input, as no line of a certificate may.
    pub fn is_whole(self, line: u64) -> Result<(), CertError>
        ensures ok { OnOk result (self ≢ LineEnd.Input) }
        ensures err { IfErr result (λ e. (self ≡ LineEnd.Input) × (e ≡ CertError.Truncated line)) }
    {
        match self {
            LineEnd::More | LineEnd::Feed => Ok(()),
            LineEnd::Input => Err(CertError::Truncated(line)),
        }
    }
}

/// The part of a line that was cut off last, and what is not taken yet of the last piece after it. Both lie in one buffer.
#[derive(Drop)]
pub struct Pieces {
    piece: Vec<u8>,
    start: usize,
    stop: usize,
    at: usize,
    end: usize,
}

impl Model for Pieces {
    ghost use Rattle.std.specs.Prelude.{◌≤◌, ◌<◌, List, length, slice_range};
    ghost use Rattle.cert_lines.specs.Parts.{Piece};

    ghost Value = { Piece };

    ghost view = { λ p. record { part = slice_range p.piece.items p.start p.stop; unread = slice_range p.piece.items p.at p.end } };

    ghost invariant = { λ p. (p.start ≤ p.stop) × (p.stop ≤ length p.piece.items) × (p.at ≤ p.end) × (p.end ≤ length p.piece.items) × (0 < length p.piece.items) };
}

impl Pieces {
    /// Takes the buffer.
    pub fn start(alloc: Global) -> Result<Pieces, AllocError>
        ensures { IfOk result (λ p. p.unread ≡ []) }
    {
        Ok(Pieces {
            piece: vec![in alloc; 0u8; PIECE]?,
            start: 0,
            stop: 0,
            at: 0,
            end: 0,
        })
    }

    /// Takes the next piece in the place of the last one.
    fn refill<D: Desk>(&mut self, desk: &mut D) -> Result<(), CheckError>
        ensures all { OnOk result (IsTrue D.tells → left_of Which.Cert (D.state desk.old) ≡ self.new.unread ++ left_of Which.Cert (D.state desk.new)) }
        ensures end { OnOk result (IsTrue D.tells → self.new.unread ≡ [] → left_of Which.Cert (D.state desk.old) ≡ []) }
        ensures part { OnOk result (self.new.part ≡ []) }
        ensures err { IfErr result (λ e. e ≡ CheckError.Read) }
        ensures plain { OnErr result (IsTrue D.tells → IsTrue (D.state desk.old).plain → ⊥) }
        ensures rest { IsTrue D.tells → D.state desk.new ≡ with_left Which.Cert (left_of Which.Cert (D.state desk.new)) (D.state desk.old) }
        ensures faults { ReadFails (D.faults desk.old) (D.faults desk.new) (IsErr result) }
    {
        let Ok(count) = desk.next(Which::Cert, self.piece.as_mut_slice()) else {
            return Err(CheckError::Read);
        };
        self.start = 0;
        self.stop = 0;
        self.at = 0;
        self.end = count;
        Ok(())
    }

    /// Takes the next piece, if nothing is unread: whether something is unread then.
    pub fn fill<D: Desk>(&mut self, desk: &mut D) -> Result<bool, CheckError>
        ensures all { OnOk result (IsTrue D.tells → self.old.unread ++ left_of Which.Cert (D.state desk.old) ≡ self.new.unread ++ left_of Which.Cert (D.state desk.new)) }
        ensures some { IfOk result (λ more. more ≡ true → 0 < length self.new.unread) }
        ensures left { IfOk result (λ more. more ≡ true → IsTrue D.tells → 0 < length (self.old.unread ++ left_of Which.Cert (D.state desk.old))) }
        ensures none { IfOk result (λ more. more ≡ false → IsTrue D.tells → self.old.unread ++ left_of Which.Cert (D.state desk.old) ≡ []) }
        ensures part { IfOk result (λ more. more ≡ false → self.new.part ≡ []) }
        ensures err { IfErr result (λ e. e ≡ CheckError.Read) }
        ensures plain { OnErr result (IsTrue D.tells → IsTrue (D.state desk.old).plain → ⊥) }
        ensures rest { IsTrue D.tells → D.state desk.new ≡ with_left Which.Cert (left_of Which.Cert (D.state desk.new)) (D.state desk.old) }
        ensures faults { ReadFails (D.faults desk.old) (D.faults desk.new) (IsErr result) }
    {
        if !self.is_empty() {
            return Ok(true);
        }
        self.refill(desk)?;
        Ok(!self.is_empty())
    }

    /// Whether nothing is unread.
    fn is_empty(&self) -> bool
        ensures yes { result ≡ true → self.now.unread ≡ [] }
        ensures no { result ≡ false → 0 < length self.now.unread }
    {
        self.unread().is_empty()
    }

    /// What is unread of the piece.
    fn unread(&self) -> &[u8]
        ensures { result.now ≡ self.now.unread }
    {
        &self.piece[self.at..self.end]
    }

    /// The part that was cut off last.
    pub fn part(&self) -> &[u8]
        ensures { result.now ≡ self.now.part }
    {
        &self.piece[self.start..self.stop]
    }

    /// Takes the next part of a line: how it ends. If nothing is left, it is empty.
    pub fn take<D: Desk>(&mut self, desk: &mut D) -> Result<LineEnd, CheckError>
        ensures lines { IfOk result (λ end. IsTrue D.tells → IsBegun end self.new.part (lines_of (self.old.unread ++ left_of Which.Cert (D.state desk.old))) (lines_of (self.new.unread ++ left_of Which.Cert (D.state desk.new)))) }
        ensures grows { IfOk result (λ end. goes_on end ≡ true → 0 < length self.new.part) }
        ensures err { IfErr result (λ e. e ≡ CheckError.Read) }
        ensures plain { OnErr result (IsTrue D.tells → IsTrue (D.state desk.old).plain → ⊥) }
        ensures rest { IsTrue D.tells → D.state desk.new ≡ with_left Which.Cert (left_of Which.Cert (D.state desk.new)) (D.state desk.old) }
        ensures faults { ReadFails (D.faults desk.old) (D.faults desk.new) (IsErr result) }
    {
        if !self.fill(desk)? {
            return Ok(LineEnd::Input);
        }
        if self.cut() {
            return Ok(LineEnd::Feed);
        }
        Ok(LineEnd::More)
    }

    /// Cuts off what is unread up to the next line feed, which is taken too, or all of it: whether there was a line feed.
    fn cut(&mut self) -> bool
        ensures feed { result ≡ true → self.old.unread ≡ self.new.part ++ 10 ∷ self.new.unread }
        ensures all { result ≡ false → (self.new.part ≡ self.old.unread) × (self.new.unread ≡ []) }
        ensures feedless { IsFeedless self.new.part }
    {
        let found = memchr(b'\n', self.unread());
        self.start = self.at;
        match found {
            Some(place) => {
                self.stop = self.at + place;
                self.at = self.stop + 1;
                true
            }
            None => {
                self.stop = self.end;
                self.at = self.end;
                false
            }
        }
    }
}
