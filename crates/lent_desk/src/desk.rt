//! The desk over the caller's files and room.
ghost use Rattle.std.specs.Prelude.{◌≡◌, ◌≤◌, ◌+◌, length};
ghost use Rattle.std.specs.Option.{ForSome};
ghost use Rattle.lent_desk.specs.Spans.{FitAll, IsOpen};
ghost use Rattle.lent_desk.specs.Left.{FitsLeft};

use crate::bytes::{put_at, put_last};
use crate::files::{File, LentFiles, lent, named};
use crate::left::{AllLeft, Left, take_left};
use crate::spans::{Open, Span, Spans};
use desk_io::{Desk, ReadFailed, To, Which, WriteFailed};

/// A desk over the caller's files `config`, `orgs`, `script` and `cert`, none of which is copied, with leave to make `made`.
///
/// The certificate goes to the front of the caller's room, and the text to its end. What is kept at the front is not written over,
/// so what is left to read of a file that was made stays as it was. A call fails if it is a `begin` of a missing file, a `create`
/// of another name, a `put` to `Cert` with none created, or a `put` of more bytes than there is room for. No call takes memory.
pub struct LentDesk<'a> {
    room: &'a mut [u8],
    // how many bytes stand at the room's front, and how many at its end
    kept: usize,
    said: usize,
    lent: LentFiles<'a>,
    spans: Spans,
    left: AllLeft<'a>,
    created: Option<Open>,
    reads: u64,
    writes: u64,
    ghost fits: { kept + said ≤ length room.now },
    ghost spans_fit: { FitAll kept spans },
    ghost left_fits: { FitsLeft kept left },
    ghost is_open: { ForSome created (IsOpen kept spans) },
}

/// How long the text and the certificate are, the last and the first bytes of the room.
#[derive(Clone, Copy, Debug)]
pub struct Lengths {
    pub text: usize,
    pub cert: usize,
}

impl<'a> Drop for LentDesk<'a> {
    fn drop(self)
        ensures { self.exit.0.now ≡ self.entry.room.now }
    {
        let LentDesk {
            room: _,
            kept: _,
            said: _,
            lent: _,
            spans: _,
            left: _,
            created: _,
            reads: _,
            writes: _,
        } = self;
    }
}

impl<'a> LentDesk<'a> {
    ghost use Rattle.std.specs.Prelude.{◌++◌, ◌-◌, ◌^◌, Some, None, MatchOption, take, drop, min};
    ghost use Rattle.desk_io.specs.State.{with_certificate, written};
    ghost use Rattle.lent_desk.specs.Files.{file_named, files_named, name_of};
    ghost use Rattle.lent_desk.specs.Spans.{Fits, slice_in};
    ghost use Rattle.lent_desk.specs.Left.{rest_in};
    ghost use Rattle.lent_desk.specs.LentDesk.{state_of, faults_of, at_start, made_in, kept_in, room_in, space_in, mark_of};

    /// A desk that was asked nothing. O(1).
    pub fn new(lent: LentFiles<'a>, room: &'a mut [u8]) -> LentDesk<'a>
        ensures state { state_of result
            ≡ at_start (files_named lent.entry.config.now lent.entry.orgs.now lent.entry.script.now lent.entry.cert.now) (mark_of room.entry) (length room.old) }
        ensures faults { faults_of result ≡ record { reads = 0; writes = 0 } }
        ensures same_room { (room_in result).ghost_name ≡ room.entry.ghost_name }
        ensures room { (room_in result).now ≡ room.old }
    {
        LentDesk {
            room,
            kept: 0,
            said: 0,
            lent,
            spans: Spans::none(),
            left: AllLeft::none(),
            created: None,
            reads: 0,
            writes: 0,
        }
    }

    /// Ends the work: brings the certificate to the front of the room, if it does not stand there. O(1), else O(its bytes).
    pub fn finish(&mut self) -> Lengths
        ensures cert { take result.cert (room_in self.new).now ≡ made_in (state_of self.old) }
        ensures text { mark_of (room_in self.old) ++ drop (length (room_in self.new).now - result.text) (room_in self.new).now
            ≡ (state_of self.old).out }
        ensures within { result.cert + result.text ≤ length (room_in self.new).now }
        ensures same_room { (room_in self.new).ghost_name ≡ (room_in self.old).ghost_name }
        ensures len { length (room_in self.new).now ≡ length (room_in self.old).now }
    {
        let cert = match self.spans.made {
            Some(span) => self.bring(span),
            None => 0,
        };
        Lengths {
            text: self.said,
            cert,
        }
    }

    // How many more bytes may be put.
    fn space(&self) -> usize
        ensures { result ≡ space_in self.now }
    {
        self.room.len() - self.kept - self.said
    }

    // What is left of the named file once it is begun.
    fn source(&self, name: &str) -> Option<Left<'a>>
        ensures missing { result ≡ None → (state_of self.now).files name.now ≡ None }
        ensures held { (left : _) → result ≡ Some left → (state_of self.now).files name.now ≡ Some (rest_in left (kept_in self.now)) }
        ensures fits { (left : _) → result ≡ Some left → Fits self.now.kept left.span }
    {
        let file = named(name)?;
        match self.spans.at(file) {
            Some(span) => Some(Left { lent: &[], span }),
            None => match lent(self.lent, file) {
                Some(bytes) => Some(Left::of_lent(bytes)),
                None => None,
            },
        }
    }

    // Makes the file, empty: it stands where nothing is kept yet.
    fn make(&mut self, file: File)
        ensures made { state_of self.new ≡ with_certificate (name_of file) (state_of self.old) }
        ensures faults { faults_of self.new ≡ faults_of self.old }
    {
        self.spans.set(
            file,
            Span {
                from: self.kept,
                to: self.kept,
            },
        );
        self.created = Some(Open {
            file,
            from: self.kept,
        });
    }

    // Puts bytes to the text.
    fn say(&mut self, bytes: &[u8])
        requires { length bytes.now ≤ space_in self.old }
        ensures said { state_of self.new ≡ written To.Out bytes.now (state_of self.old) }
        ensures faults { faults_of self.new ≡ faults_of self.old }
    {
        put_last(self.room, self.said, bytes);
        self.said += bytes.len();
    }

    // Puts bytes to the open file.
    fn keep(&mut self, opened: Open, bytes: &[u8])
        requires fits { length bytes.now ≤ space_in self.old }
        requires opened { self.old.created ≡ Some opened }
        ensures kept { state_of self.new ≡ written To.Cert bytes.now (state_of self.old) }
        ensures faults { faults_of self.new ≡ faults_of self.old }
    {
        put_at(self.room, self.kept, bytes);
        self.kept += bytes.len();
        self.spans.set(
            opened.file,
            Span {
                from: opened.from,
                to: self.kept,
            },
        );
    }

    // Counts a call that reads and failed.
    fn read_failed(&mut self) -> ReadFailed
        ensures counted { faults_of self.new ≡ record (faults_of self.old) { reads = min ((faults_of self.old).reads + 1) (2 ^ 64 - 1) } }
        ensures later { (faults_of self.old).reads ≤ (faults_of self.new).reads }
        ensures same { state_of self.new ≡ state_of self.old }
    {
        self.reads = self.reads.saturating_add(1);
        ReadFailed
    }

    // Counts a call that writes and failed.
    fn write_failed(&mut self) -> WriteFailed
        ensures counted { faults_of self.new ≡ record (faults_of self.old) { writes = min ((faults_of self.old).writes + 1) (2 ^ 64 - 1) } }
        ensures later { (faults_of self.old).writes ≤ (faults_of self.new).writes }
        ensures same { state_of self.new ≡ state_of self.old }
    {
        self.writes = self.writes.saturating_add(1);
        WriteFailed
    }

    // Brings what stands there to the front of the room.
    fn bring(&mut self, span: Span) -> usize
        requires { Fits self.old.kept span }
        ensures front { take result (room_in self.new).now ≡ slice_in span (kept_in self.old) }
        ensures within { result ≤ self.old.kept }
        ensures rest { drop (length (room_in self.old).now - self.old.said) (room_in self.new).now
            ≡ drop (length (room_in self.old).now - self.old.said) (room_in self.old).now }
        ensures len { length (room_in self.new).now ≡ length (room_in self.old).now }
        ensures same_room { (room_in self.new).ghost_name ≡ (room_in self.old).ghost_name }
        ensures said { self.new.said ≡ self.old.said }
    {
        if span.from > 0 {
            self.room.copy_within(span.from..span.to, 0);
        }
        span.to - span.from
    }
}

impl<'a> Desk for LentDesk<'a> {
    ghost use Rattle.std.specs.Prelude.{true};
    ghost use Rattle.lent_desk.specs.LentDesk.{state_of, faults_of};

    ghost tells = { true };

    ghost state = { state_of };

    ghost faults = { faults_of };

    fn begin(&mut self, which: Which, name: &str) -> Result<(), ReadFailed> {
        match self.source(name) {
            Some(left) => {
                self.left.set(which, left);
                Ok(())
            }
            None => {
                self.left.set(which, Left::of_lent(&[]));
                Err(self.read_failed())
            }
        }
    }

    fn next(&mut self, which: Which, buf: &mut [u8]) -> Result<usize, ReadFailed> {
        let room = &mut *self.room;
        Ok(take_left(&mut self.left, which, room, self.kept, buf))
    }

    fn create(&mut self, name: &str) -> Result<(), WriteFailed> {
        match named(name) {
            Some(file) => {
                self.make(file);
                Ok(())
            }
            None => Err(self.write_failed()),
        }
    }

    fn put(&mut self, to: To, bytes: &[u8]) -> Result<usize, WriteFailed> {
        if bytes.len() > self.space() {
            return Err(self.write_failed());
        }
        match (to, self.created) {
            (To::Out, _) => self.say(bytes),
            (To::Cert, Some(opened)) => self.keep(opened, bytes),
            (To::Cert, None) => return Err(self.write_failed()),
        }
        Ok(bytes.len())
    }
}
