//! A desk with more room than any caller has, which keeps no byte of what is put: by it the room that an answer wants is measured.
ghost use Rattle.std.specs.Prelude.{◌≡◌, ◌<◌, ◌≤◌, ◌+◌, [], None, length};
ghost use Rattle.lent_desk.specs.Left.{FitsLeft};
ghost use Rattle.lent_desk.specs.Room.{MOST_ROOM};

use crate::files::{File, LentFiles, lent, named};
use crate::heard::Heard;
use crate::left::{AllLeft, Left, take_left};
use desk_io::{Desk, ReadFailed, To, Which, WriteFailed};

/// A desk over the caller's files that counts what is put, and forgets it, with room for 2^64 - 2 bytes.
///
/// One file may be created, one of those that the caller lends or `made`, and after that none can be begun. No call takes memory.
#[derive(Drop)]
pub struct EndlessDesk<'a> {
    lent: LentFiles<'a>,
    left: AllLeft<'a>,
    created: Option<File>,
    // how many bytes the created file has, and how many the text
    kept: usize,
    said: usize,
    reads: u64,
    writes: u64,
    // what was put to the output and to the created file
    out: Heard,
    cert: Heard,
    ghost left_fits: { FitsLeft 0 left },
    ghost uncreated: { created ≡ None → cert.bytes ≡ [] },
    ghost cert_counted: { kept ≡ length cert.bytes },
    ghost out_counted: { said ≡ length out.bytes },
    ghost within: { kept + said ≤ MOST_ROOM },
}

impl<'a> EndlessDesk<'a> {
    ghost use Rattle.std.specs.Prelude.{Some, ◌^◌, ◌-◌, min};
    ghost use Rattle.desk_io.specs.State.{with_certificate, written, certificate_of};
    ghost use Rattle.lent_desk.specs.Files.{files_named, name_of};
    ghost use Rattle.lent_desk.specs.EndlessDesk.{state_of, faults_of, endless};

    /// A desk that was asked nothing. O(1).
    pub fn new(lent: LentFiles<'a>) -> EndlessDesk<'a>
        ensures state { state_of result
            ≡ endless (files_named lent.entry.config.now lent.entry.orgs.now lent.entry.script.now lent.entry.cert.now) }
        ensures faults { faults_of result ≡ record { reads = 0; writes = 0 } }
    {
        EndlessDesk {
            lent,
            left: AllLeft::none(),
            created: None,
            kept: 0,
            said: 0,
            reads: 0,
            writes: 0,
            out: Heard::new(),
            cert: Heard::new(),
        }
    }

    /// How many bytes the created file and the text have in all. O(1).
    pub fn wanting(&self) -> usize
        ensures value { result ≡ length (certificate_of (state_of self.now)) + length (state_of self.now).out }
        ensures within { result ≤ MOST_ROOM }
    {
        self.kept + self.said
    }

    // How many more bytes may be put.
    fn space(&self) -> usize
        ensures { result + (self.now.kept + self.now.said) ≡ MOST_ROOM }
    {
        usize::MAX - 1 - self.kept - self.said
    }

    // The bytes of the named file, before one is created.
    fn source(&self, name: &str) -> Option<&'a [u8]>
        ensures { (bytes : _) → result ≡ Some bytes → (state_of self.now).files name.now ≡ Some bytes.now }
    {
        let file = named(name)?;
        match self.created {
            Some(_) => None,
            None => lent(self.lent, file),
        }
    }

    // Creates the file, empty.
    fn make(&mut self, file: File)
        requires { self.old.created ≡ None }
        ensures made { state_of self.new ≡ with_certificate (name_of file) (state_of self.old) }
        ensures faults { faults_of self.new ≡ faults_of self.old }
    {
        self.created = Some(file);
    }

    // Puts bytes to the text.
    fn say(&mut self, bytes: &[u8])
        requires { length bytes.now + (self.old.kept + self.old.said) ≤ MOST_ROOM }
        ensures said { state_of self.new ≡ written To.Out bytes.now (state_of self.old) }
        ensures faults { faults_of self.new ≡ faults_of self.old }
    {
        self.out.hear(bytes);
        self.said += bytes.len();
    }

    // Puts bytes to the created file.
    fn keep(&mut self, bytes: &[u8])
        requires fits { length bytes.now + (self.old.kept + self.old.said) ≤ MOST_ROOM }
        requires created { self.old.created ≡ None → ⊥ }
        ensures kept { state_of self.new ≡ written To.Cert bytes.now (state_of self.old) }
        ensures faults { faults_of self.new ≡ faults_of self.old }
    {
        self.cert.hear(bytes);
        self.kept += bytes.len();
    }

    // Counts a call that reads and failed.
    fn read_failed(&mut self) -> ReadFailed
        ensures counted { faults_of self.new ≡ record (faults_of self.old) { reads = min ((faults_of self.old).reads + 1) (2 ^ 64 - 1) } }
        ensures later { (faults_of self.old).reads ≤ (faults_of self.new).reads }
        ensures same { state_of self.new ≡ state_of self.old }
    {
        self.reads = self.reads.saturating_add(1);
        ReadFailed
    }

    // Counts a call that writes and failed.
    fn write_failed(&mut self) -> WriteFailed
        ensures counted { faults_of self.new ≡ record (faults_of self.old) { writes = min ((faults_of self.old).writes + 1) (2 ^ 64 - 1) } }
        ensures later { (faults_of self.old).writes ≤ (faults_of self.new).writes }
        ensures same { state_of self.new ≡ state_of self.old }
    {
        self.writes = self.writes.saturating_add(1);
        WriteFailed
    }
}

impl<'a> Desk for EndlessDesk<'a> {
    ghost use Rattle.std.specs.Prelude.{true};
    ghost use Rattle.lent_desk.specs.EndlessDesk.{state_of, faults_of};

    ghost tells = { true };

    ghost state = { state_of };

    ghost faults = { faults_of };

    fn begin(&mut self, which: Which, name: &str) -> Result<(), ReadFailed> {
        match self.source(name) {
            Some(bytes) => {
                self.left.set(which, Left::of_lent(bytes));
                Ok(())
            }
            None => {
                self.left.set(which, Left::of_lent(&[]));
                Err(self.read_failed())
            }
        }
    }

    fn next(&mut self, which: Which, buf: &mut [u8]) -> Result<usize, ReadFailed> {
        Ok(take_left(&mut self.left, which, &[], 0, buf))
    }

    fn create(&mut self, name: &str) -> Result<(), WriteFailed> {
        match (named(name), self.created) {
            (Some(file), None) => {
                self.make(file);
                Ok(())
            }
            _ => Err(self.write_failed()),
        }
    }

    fn put(&mut self, to: To, bytes: &[u8]) -> Result<usize, WriteFailed> {
        if bytes.len() > self.space() {
            return Err(self.write_failed());
        }
        match (to, self.created) {
            (To::Out, _) => self.say(bytes),
            (To::Cert, Some(_)) => self.keep(bytes),
            (To::Cert, None) => return Err(self.write_failed()),
        }
        Ok(bytes.len())
    }
}
