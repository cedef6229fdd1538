//! The machine's files and standard output.
ghost use Rattle.std.specs.Prelude.{◌≡◌, ◌↔◌, ◌<◌, ◌≤◌, true, IfOk, IfSome, IsNone, IsSome, Some, length, take};
ghost use Rattle.std.specs.Io.KnownBytes.{Appends, Consumes, IsAtEnd, Keeps, ReadConsumes, WriteAppends};
ghost use Rattle.desk_io.specs.RealDesk.{bytes_in};

use crate::beside::{Beside, Created, create_certificate};
use crate::counts::FaultCounts;
use crate::desk::{Desk, ReadFailed, To, Which, WriteFailed};
use crate::folder::Folder;
use crate::opening::{TRIES, open_with, reading};
use std::io::{ErrorKind, Read, Write};

/// The desk of the machine: files of the file system by their paths, and standard output.
///
/// It tells no bytes. Nothing of what is put is kept back, so a `put` that fails says so itself. Each call of the
/// system is tried at most 1,000 times where it's interrupted.
#[derive(Drop)]
pub struct RealDesk<'a, R: Folder> {
    rt: &'a R,
    standard: [Option<R::File>; 3],
    config: Option<R::File>,
    orgs: Option<R::File>,
    script: Option<R::File>,
    cert: Option<R::File>,
    beside: Option<Beside<'a, R>>,
    created: Option<R::File>,
    faults: FaultCounts,
}

// A new descriptor is the lowest that is free. So three of these fill each hole among the standard three, and what is opened
// after them is none of those: no file is written for an output that is closed, and a write to that one fails.
fn hold_open<R: Folder>(rt: &R) -> Option<R::File> {
    open_with(rt, &reading(), "/dev/null").ok()
}

/// Reads, and tries at most 1,000 times where it's interrupted: `None` where it fails. Where the bytes of the file are known, they
/// are given, and none only at the end; after a failure they are all still there.
pub fn read_some<F: Read>(file: &mut F, buf: &mut [u8]) -> Option<usize>
    ensures bound { IfSome result (λ count. count ≤ length buf.new) }
    ensures given { IfSome result (λ count. Consumes (F.remaining file.old) (F.remaining file.new) (take count buf.new)) }
    ensures ended { IfSome result (λ count. count ≡ 0 → 0 < length buf.new → IsAtEnd (F.remaining file.new)) }
    ensures kept { IsNone result → Keeps (F.remaining file.old) (F.remaining file.new) }
{
    for _ in 0..TRIES {
        match file.read(buf) {
            Ok(count) => return Some(count),
            Err(e) if e.kind() == ErrorKind::Interrupted => {}
            Err(_) => return None,
        }
    }
    None
}

/// The same of a file that may be begun. Where none is nothing is left.
fn read_begun<F: Read>(begun: &mut Option<F>, buf: &mut [u8]) -> Option<usize>
    ensures bound { IfSome result (λ count. count ≤ length buf.new) }
    ensures nothing { IsNone begun.old → result ≡ Some 0 }
    ensures begun { IsSome begun.new ↔ IsSome begun.old }
    ensures given { IfSome result (λ count. Consumes (bytes_in F.remaining begun.old) (bytes_in F.remaining begun.new) (take count buf.new)) }
    ensures ended { IfSome result (λ count. count ≡ 0 → 0 < length buf.new → IsAtEnd (bytes_in F.remaining begun.new)) }
    ensures kept { IsNone result → Keeps (bytes_in F.remaining begun.old) (bytes_in F.remaining begun.new) }
{
    match begun {
        Some(file) => read_some(file, buf),
        None => Some(0),
    }
}

/// Writes, and tries at most 1,000 times where it's interrupted: `None` where it fails, or where none of some bytes is taken. Where
/// the bytes that the file holds are known, those that are taken are after them, and after a failure none.
pub fn write_some<F: Write>(file: &mut F, bytes: &[u8]) -> Option<usize>
    ensures bound { IfSome result (λ count. count ≤ length bytes.now) }
    ensures some { IfSome result (λ count. 0 < length bytes.now → 0 < count) }
    ensures taken { IfSome result (λ count. Appends (F.contents file.old) (F.contents file.new) (take count bytes.now)) }
    ensures kept { IsNone result → Keeps (F.contents file.old) (F.contents file.new) }
{
    for _ in 0..TRIES {
        match file.write(bytes) {
            Ok(count) if count > 0 || bytes.is_empty() => return Some(count),
            Err(e) if e.kind() == ErrorKind::Interrupted => {}
            _ => return None,
        }
    }
    None
}

/// The same of a file that may be created. Where none is it fails.
fn write_created<F: Write>(created: &mut Option<F>, bytes: &[u8]) -> Option<usize>
    ensures bound { IfSome result (λ count. count ≤ length bytes.now) }
    ensures some { IfSome result (λ count. 0 < length bytes.now → 0 < count) }
    ensures uncreated { IsNone created.old → IsNone result }
    ensures created { IsSome created.new ↔ IsSome created.old }
    ensures taken { IfSome result (λ count. Appends (bytes_in F.contents created.old) (bytes_in F.contents created.new) (take count bytes.now)) }
    ensures kept { IsNone result → Keeps (bytes_in F.contents created.old) (bytes_in F.contents created.new) }
{
    match created {
        Some(file) => write_some(file, bytes),
        None => None,
    }
}

impl<'a, R: Folder + Print> RealDesk<'a, R> {
    ghost use Rattle.std.specs.Prelude.{◌≢◌, IsTrue};
    ghost use Rattle.desk_io.specs.declared.desk.Which.{Which};
    ghost use Rattle.desk_io.specs.RealDesk.{begun_of, beside_of, created_of, faults_of, IsBegun, IsMade, IsPlaced};
    ghost use Rattle.desk_io.specs.Spare.{MayGo};

    /// A desk over this runtime, with nothing begun and nothing created.
    pub fn new(rt: &'a R) -> Self
        ensures begun { (which : Which) → IsNone (begun_of which result) }
        ensures created { IsNone (created_of result) }
        ensures beside { IsNone (beside_of result) }
        ensures faults { faults_of result ≡ record { reads = 0; writes = 0 } }
    {
        RealDesk {
            rt,
            standard: [hold_open(rt), hold_open(rt), hold_open(rt)],
            config: None,
            orgs: None,
            script: None,
            cert: None,
            beside: None,
            created: None,
            faults: FaultCounts::new(),
        }
    }

    /// Opens the file that is to be read there. Where it can't be opened, none is.
    fn reopen(&mut self, which: Which, name: &str) -> bool
        ensures begun { IsTrue result ↔ IsSome (begun_of which self.new) }
        ensures named { IsTrue result → IsBegun R.opened name.now (begun_of which self.new) }
        ensures others { (other : Which) → other ≢ which → begun_of other self.new ≡ begun_of other self.old }
        ensures created { created_of self.new ≡ created_of self.old }
        ensures faults { faults_of self.new ≡ faults_of self.old }
    {
        let opened = open_with(self.rt, &reading(), name).ok();
        let begun = opened.is_some();
        match which {
            Which::Config => self.config = opened,
            Which::Orgs => self.orgs = opened,
            Which::Script => self.script = opened,
            Which::Cert => self.cert = opened,
        }
        begun
    }

    /// Reads of the file that is begun there. Where none is, nothing is left.
    fn read_there(&mut self, which: Which, buf: &mut [u8]) -> Option<usize>
        ensures bound { IfSome result (λ count. count ≤ length buf.new) }
        ensures nothing { IsNone (begun_of which self.old) → result ≡ Some 0 }
        ensures begun { IsSome (begun_of which self.new) ↔ IsSome (begun_of which self.old) }
        ensures given { IfSome result (λ count. Consumes (bytes_in R.File.remaining (begun_of which self.old)) (bytes_in R.File.remaining (begun_of which self.new)) (take count buf.new)) }
        ensures ended { IfSome result (λ count. count ≡ 0 → 0 < length buf.new → IsAtEnd (bytes_in R.File.remaining (begun_of which self.new))) }
        ensures kept { IsNone result → Keeps (bytes_in R.File.remaining (begun_of which self.old)) (bytes_in R.File.remaining (begun_of which self.new)) }
        ensures others { (other : Which) → other ≢ which → begun_of other self.new ≡ begun_of other self.old }
        ensures created { created_of self.new ≡ created_of self.old }
        ensures faults { faults_of self.new ≡ faults_of self.old }
    {
        match which {
            Which::Config => read_begun(&mut self.config, buf),
            Which::Orgs => read_begun(&mut self.orgs, buf),
            Which::Script => read_begun(&mut self.script, buf),
            Which::Cert => read_begun(&mut self.cert, buf),
        }
    }
}

impl<R: Folder + Print> RealDesk<'_, R> {
    ghost use Rattle.std.specs.Prelude.{IsTrue};
    ghost use Rattle.desk_io.specs.declared.desk.Which.{Which};
    ghost use Rattle.desk_io.specs.RealDesk.{begun_of, beside_of, created_of, faults_of, IsBegun, IsMade, IsPlaced};
    ghost use Rattle.desk_io.specs.Spare.{MayGo};

    /// Whether a certificate that stands beside its name was given that name.
    fn take_place(&self) -> bool
        ensures placed { IsTrue result → IsPlaced R.renamed (MayGo R.opened R.File.remaining R.linked R.seen R.missing) (beside_of self.now) }
    {
        match (&self.beside, &self.created) {
            (Some(beside), Some(file)) => beside.take_place(file),
            (None, _) => true,
            (Some(_), None) => false,
        }
    }

    /// Gives a certificate that stands beside its name that name.
    fn finish(&mut self) -> bool
        ensures finished { IsTrue result → IsNone (beside_of self.new) }
        ensures placed { IsTrue result → IsPlaced R.renamed (MayGo R.opened R.File.remaining R.linked R.seen R.missing) (beside_of self.old) }
        ensures begun { (which : Which) → begun_of which self.new ≡ begun_of which self.old }
        ensures created { created_of self.new ≡ created_of self.old }
        ensures faults { faults_of self.new ≡ faults_of self.old }
    {
        let is_finished = self.take_place();
        if is_finished {
            self.beside = None;
        }
        is_finished
    }

    /// Writes to the output, once the certificate is finished.
    fn put_out(&mut self, bytes: &[u8]) -> Option<usize>
        ensures bound { IfSome result (λ count. count ≤ length bytes.now) }
        ensures some { IfSome result (λ count. 0 < length bytes.now → 0 < count) }
        ensures finished { IsSome result → IsNone (beside_of self.new) }
        ensures placed { IsSome result → IsPlaced R.renamed (MayGo R.opened R.File.remaining R.linked R.seen R.missing) (beside_of self.old) }
        ensures begun { (which : Which) → begun_of which self.new ≡ begun_of which self.old }
        ensures created { created_of self.new ≡ created_of self.old }
        ensures faults { faults_of self.new ≡ faults_of self.old }
    {
        if self.finish() {
            write_some(&mut std::io::writer(self.rt), bytes)
        } else {
            None
        }
    }
}

impl<R: Folder + Print> Desk for RealDesk<'_, R> {
    ghost use Rattle.std.specs.Prelude.{◌≢◌, false, IsErr, IsOk, OnErr, OnOk};
    ghost use Rattle.desk_io.specs.declared.desk.Which.{Which};
    ghost use Rattle.desk_io.specs.Faults.{ReadCause, WriteCause};
    ghost use Rattle.desk_io.specs.RealDesk.{begun_of, beside_of, created_of, faults_of, IsBegun, IsMade, IsPlaced};
    ghost use Rattle.desk_io.specs.Spare.{MayGo};
    ghost use Rattle.desk_io.specs.State.{nothing_told};

    ghost tells = { false };

    ghost state = { λ _. nothing_told };

    ghost faults = { λ d. faults_of d };

    fn begin(&mut self, which: Which, name: &str) -> Result<(), ReadFailed>
        ensures begun { IsSome (begun_of which self.new) ↔ IsOk result }
        ensures named { IsOk result → IsBegun R.opened name.now (begun_of which self.new) }
        ensures others { (other : Which) → other ≢ which → begun_of other self.new ≡ begun_of other self.old }
        ensures created { created_of self.new ≡ created_of self.old }
        ensures cause { ReadCause (faults_of self.old) (faults_of self.new) result }
    {
        if self.reopen(which, name) {
            Ok(())
        } else {
            Err(self.faults.read_failed())
        }
    }

    fn next(&mut self, which: Which, buf: &mut [u8]) -> Result<usize, ReadFailed>
        ensures bound { IfOk result (λ count. count ≤ length buf.new) }
        ensures nothing { IsNone (begun_of which self.old) → result ≡ Ok 0 }
        ensures begun { IsSome (begun_of which self.new) ↔ IsSome (begun_of which self.old) }
        ensures given { ReadConsumes (bytes_in R.File.remaining (begun_of which self.old)) (bytes_in R.File.remaining (begun_of which self.new)) result buf.new }
        ensures others { (other : Which) → other ≢ which → begun_of other self.new ≡ begun_of other self.old }
        ensures created { created_of self.new ≡ created_of self.old }
        ensures cause { ReadCause (faults_of self.old) (faults_of self.new) result }
    {
        match self.read_there(which, buf) {
            Some(count) => Ok(count),
            None => Err(self.faults.read_failed()),
        }
    }

    fn create(&mut self, name: &str) -> Result<(), WriteFailed>
        ensures created { OnOk result (IfSome (created_of self.new) (λ file. IsMade R.opened name.now file (beside_of self.new))) }
        ensures is_created { OnOk result (IsSome (created_of self.new)) }
        ensures failed { OnErr result (created_of self.new ≡ created_of self.old) }
        ensures begun { (which : Which) → begun_of which self.new ≡ begun_of which self.old }
        ensures cause { WriteCause (faults_of self.old) (faults_of self.new) result }
    {
        match create_certificate(self.rt, name) {
            Some(Created { file, beside }) => {
                self.beside = beside;
                self.created = Some(file);
                Ok(())
            }
            None => Err(self.faults.write_failed()),
        }
    }

    fn put(&mut self, to: To, bytes: &[u8]) -> Result<usize, WriteFailed>
        ensures bound { IfOk result (λ count. count ≤ length bytes.now) }
        ensures some { IfOk result (λ count. 0 < length bytes.now → 0 < count) }
        ensures uncreated { to ≡ To.Cert → IsNone (created_of self.old) → IsErr result }
        ensures created { IsSome (created_of self.new) ↔ IsSome (created_of self.old) }
        ensures taken { to ≡ To.Cert → WriteAppends (bytes_in R.File.contents (created_of self.old)) (bytes_in R.File.contents (created_of self.new)) result bytes.now }
        ensures other { to ≡ To.Out → created_of self.new ≡ created_of self.old }
        // Nothing is out while a certificate isn't in its place.
        ensures finished { to ≡ To.Out → IsOk result → IsNone (beside_of self.new) }
        // The certificate has its name then, and nothing is lost by it.
        ensures placed { to ≡ To.Out → IsOk result → IsPlaced R.renamed (MayGo R.opened R.File.remaining R.linked R.seen R.missing) (beside_of self.old) }
        ensures unfinished { to ≡ To.Cert → beside_of self.new ≡ beside_of self.old }
        ensures begun { (which : Which) → begun_of which self.new ≡ begun_of which self.old }
        ensures cause { WriteCause (faults_of self.old) (faults_of self.new) result }
    {
        let written = match to {
            To::Out => self.put_out(bytes),
            To::Cert => write_created(&mut self.created, bytes),
        };
        match written {
            Some(count) => Ok(count),
            None => Err(self.faults.write_failed()),
        }
    }
}
