//! What is left to read of each begun file.
ghost use Rattle.std.specs.Prelude.{◌≡◌, ◌<◌, ◌≤◌, ◌++◌, ℕ, List, [], length, take};
ghost use Rattle.lent_desk.specs.Spans.{Fits};
ghost use Rattle.lent_desk.specs.Left.{rest_in, all_rest_in, reader_at, with_reader, FitsLeft};

use crate::bytes::copy_front;
use crate::spans::Span;
use desk_io::Which;

/// What is left of a file: some of the caller's bytes, and then some of those that are kept in the room. One of the two is empty.
#[derive(Clone, Copy)]
pub struct Left<'a> {
    pub lent: &'a [u8],
    pub span: Span,
}

/// What is left of each begun file.
#[derive(Clone, Copy)]
pub struct AllLeft<'a> {
    pub config: Left<'a>,
    pub orgs: Left<'a>,
    pub script: Left<'a>,
    pub cert: Left<'a>,
}

impl<'a> Left<'a> {
    /// Of the caller's bytes alone.
    pub fn of_lent(lent: &'a [u8]) -> Left<'a>
        ensures value { result.lent.now ≡ lent.now }
        ensures none { result.span ≡ record { from = 0; to = 0 } }
    {
        Left {
            lent,
            span: Span { from: 0, to: 0 },
        }
    }

    /// Takes bytes off the front, as many as `buf` has room for, and some where both have some.
    pub fn take(&mut self, kept: &[u8], buf: &mut [u8]) -> usize
        requires { Fits (length kept.now) self.old.span }
        ensures bound { result ≤ length buf.new }
        ensures front { rest_in self.old kept.now ≡ take result buf.new ++ rest_in self.new kept.now }
        ensures end { 0 < length buf.new → result ≡ 0 → rest_in self.old kept.now ≡ [] }
        ensures fits { Fits (length kept.now) self.new.span }
    {
        if self.lent.is_empty() {
            return self.span.take(kept, buf);
        }
        let count = self.lent.len().min(buf.len());
        copy_front(buf, &self.lent[..count]);
        self.lent = &self.lent[count..];
        count
    }
}

impl<'a> AllLeft<'a> {
    /// With nothing left anywhere.
    pub fn none() -> AllLeft<'a>
        ensures none { (kept : List ℕ) → all_rest_in result kept ≡ record { config = []; orgs = []; script = []; cert = [] } }
        ensures fits { (kept : ℕ) → FitsLeft kept result }
    {
        let none = Left::of_lent(&[]);
        AllLeft {
            config: none,
            orgs: none,
            script: none,
            cert: none,
        }
    }

    /// This is left there.
    pub fn set(&mut self, which: Which, left: Left<'a>)
        ensures { self.new ≡ with_reader which left.entry self.old }
    {
        match which {
            Which::Config => self.config = left,
            Which::Orgs => self.orgs = left,
            Which::Script => self.script = left,
            Which::Cert => self.cert = left,
        }
    }

    /// Takes bytes off the front of what is left there, as many as `buf` has room for.
    pub fn take(&mut self, which: Which, kept: &[u8], buf: &mut [u8]) -> usize
        requires { Fits (length kept.now) (reader_at which self.old).span }
        ensures bound { result ≤ length buf.new }
        ensures front { rest_in (reader_at which self.old) kept.now
            ≡ take result buf.new ++ rest_in (reader_at which self.new) kept.now }
        ensures end { 0 < length buf.new → result ≡ 0 → rest_in (reader_at which self.old) kept.now ≡ [] }
        ensures rest { self.new ≡ with_reader which (reader_at which self.new) self.old }
        ensures fits { Fits (length kept.now) (reader_at which self.new).span }
    {
        match which {
            Which::Config => self.config.take(kept, buf),
            Which::Orgs => self.orgs.take(kept, buf),
            Which::Script => self.script.take(kept, buf),
            Which::Cert => self.cert.take(kept, buf),
        }
    }
}

/// Takes bytes off the front of what is left there, of a room at whose front so many bytes are kept.
pub fn take_left(
    left: &mut AllLeft,
    which: Which,
    room: &[u8],
    kept: usize,
    buf: &mut [u8],
) -> usize
    requires kept { kept ≤ length room.now }
    requires fits { FitsLeft kept left.old }
    ensures bound { result ≤ length buf.new }
    ensures front { rest_in (reader_at which left.old) (take kept room.now)
        ≡ take result buf.new ++ rest_in (reader_at which left.new) (take kept room.now) }
    ensures end { 0 < length buf.new → result ≡ 0 → rest_in (reader_at which left.old) (take kept room.now) ≡ [] }
    ensures rest { left.new ≡ with_reader which (reader_at which left.new) left.old }
    ensures fits { FitsLeft kept left.new }
{
    left.take(which, &room[..kept], buf)
}
