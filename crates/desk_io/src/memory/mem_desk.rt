//! The desk in memory.
ghost use Rattle.std.specs.Prelude.{◌≡◌, ◌<◌, ◌≤◌, ◌+◌, length, IfSome, All, MatchOption, None, Some, ℕ};
ghost use Rattle.std.specs.Option.{ForSome};
ghost use Rattle.desk_io.specs.Entries.{IsOpen, files_of};

use crate::counts::FaultCounts;
use crate::desk::{Desk, ReadFailed, To, Which, WriteFailed};
use crate::memory::buffer::Buffer;
use crate::memory::failing::{Call, Failing};
use crate::memory::file::{MemFile, all_files, find, longest};
use crate::memory::readers::Readers;
use std::alloc::{AllocError, Global};

/// A desk in memory, for tests: it tells what it holds, moves its bytes in pieces, and fails the calls that it's told to.
///
/// A call fails exactly where it's listed, or is a `begin` of a missing file, a `create` of a name that the desk neither
/// holds nor may create, a `put` to `Cert` with none created, or a `put` whose bytes, cut to the piece size, pass the
/// room left. A call that fails takes and writes nothing. No call takes memory.
#[derive(Drop)]
pub struct MemDesk {
    files: Vec<MemFile>,
    readers: Readers,
    out: Buffer,
    created: Option<usize>,
    piece: usize,
    room: usize,
    failing: Failing,
    faults: FaultCounts,
    // each file and each reader has the memory of the longest file that there can be
    ghost sized: { All (λ f. f.size ≡ readers.size) files.items },
    ghost room_fits: { room ≤ readers.size },
    ghost out_fits: { length out.bytes + room ≤ out.size },
    ghost created_open: { ForSome created (IsOpen files.items room) },
    ghost positive: { 0 < piece },
}

/// The bytes of the named file.
fn file_of<'a>(files: &'a [MemFile], name: &str) -> Option<&'a [u8]>
    ensures held { MatchOption result (files_of files.now name.now ≡ None)
        (λ bytes. files_of files.now name.now ≡ Some bytes.now) }
    ensures fits { IfSome result (λ bytes. (size : ℕ) →
        All (λ f. f.size ≡ size) files.now → length bytes.now ≤ size) }
{
    let i = find(files, name)?;
    files[i].bytes()
}

impl MemDesk {
    ghost use Rattle.std.specs.Prelude.{◌==◌, IfOk, option_copied};
    ghost use Rattle.desk_io.specs.Entries.{new_state};
    ghost use Rattle.desk_io.specs.MemDesk.{state_of, faults_of, plan_of};

    /// A desk that holds these files and may create files of these names besides.
    ///
    /// A call of `next` or `put` moves at most `piece` bytes, and all puts together at most `capacity`. Each listed
    /// call fails: it's named by its kind and its number among the calls of that kind, from 1. Of files of one name
    /// the first counts. All memory is taken here: for each file, each name and each file that is read as much as the
    /// longest file or the capacity, whichever is more. O(that many bytes).
    pub fn new(
        alloc: Global,
        files: Vec<(String, Vec<u8>)>,
        may_create: Vec<String>,
        piece: usize,
        capacity: usize,
        failing: Vec<(Call, u64)>,
    ) -> Result<MemDesk, AllocError>
        requires { 0 < piece }
        ensures state { IfOk result (λ d. state_of d
            ≡ new_state files.items may_create.items capacity (length failing.items == 0)) }
        ensures plan { IfOk result (λ d. plan_of d ≡ record { piece = piece; failing = failing.items }) }
        ensures faults { IfOk result (λ d. faults_of d ≡ record { reads = 0; writes = 0 }) }
    {
        let size = longest(&files, capacity);
        let files = all_files(alloc, files, may_create, size)?;
        let readers = Readers::new(alloc, size)?;
        let out = Buffer::new(alloc, capacity)?;
        Ok(MemDesk {
            files,
            readers,
            out,
            created: None,
            piece,
            room: capacity,
            failing: Failing::new(failing),
            faults: FaultCounts::new(),
        })
    }

    /// What is written to `Out`. O(1).
    pub fn out(&self) -> &[u8]
        ensures { result.now ≡ (state_of self.now).out }
    {
        self.out.bytes()
    }

    /// What the named file holds, if there is such a file. O(number of files).
    pub fn file(&self, name: &str) -> Option<&[u8]>
        ensures { option_copied result ≡ (state_of self.now).files name.now }
    {
        file_of(&self.files, name)
    }
}

impl Desk for MemDesk {
    ghost use Rattle.std.specs.Prelude.{◌⊎◌, ◌↔◌, [], true, min, take, Contains, IfOk, IsErr, IsSome, OnOk, OnErr};
    ghost use Rattle.desk_io.specs.Failing.{IsDue};
    ghost use Rattle.desk_io.specs.Faults.{ReadCause, WriteCause};
    ghost use Rattle.desk_io.specs.MemDesk.{state_of, faults_of, plan_of, plan_after};
    ghost use Rattle.desk_io.specs.State.{left_of, with_left, Begins, Takes, with_certificate, written, CanCreate, CannotPut};

    ghost tells = { true };

    ghost state = { state_of };

    ghost faults = { faults_of };

    fn begin(&mut self, which: Which, name: &str) -> Result<(), ReadFailed>
        ensures begun { OnOk result (Begins which name.now (state_of self.old) (state_of self.new)) }
        ensures failed { OnErr result (state_of self.new ≡ with_left which [] (state_of self.old)) }
        ensures due { IsDue (Call.Begin which) (plan_of self.old).failing → IsErr result }
        ensures fails { OnErr result (IsDue (Call.Begin which) (plan_of self.old).failing
            ⊎ ((state_of self.old).files name.now ≡ None)) }
        ensures plan { plan_of self.new ≡ plan_after (Call.Begin which) (plan_of self.old) }
        ensures cause { ReadCause (faults_of self.old) (faults_of self.new) result }
    {
        let fails = self.failing.count(Call::Begin(which));
        match file_of(&self.files, name) {
            Some(bytes) if !fails => {
                self.readers.begin(which, bytes);
                Ok(())
            }
            _ => {
                self.readers.stop(which);
                Err(self.faults.read_failed())
            }
        }
    }

    fn next(&mut self, which: Which, buf: &mut [u8]) -> Result<usize, ReadFailed>
        ensures count { IfOk result (λ count. count
            ≡ min (min (length (left_of which (state_of self.old))) (length buf.new)) (plan_of self.old).piece) }
        ensures taken { IfOk result (λ count.
            Takes which (take count buf.new) (state_of self.old) (state_of self.new)) }
        ensures failed { OnErr result (state_of self.new ≡ state_of self.old) }
        ensures due { IsErr result ↔ IsDue (Call.Next which) (plan_of self.old).failing }
        ensures plan { plan_of self.new ≡ plan_after (Call.Next which) (plan_of self.old) }
        ensures cause { ReadCause (faults_of self.old) (faults_of self.new) result }
    {
        if self.failing.count(Call::Next(which)) {
            return Err(self.faults.read_failed());
        }
        Ok(self.readers.take(which, buf, self.piece))
    }

    fn create(&mut self, name: &str) -> Result<(), WriteFailed>
        ensures created { OnOk result (state_of self.new ≡ with_certificate name.now (state_of self.old)) }
        ensures allowed { OnOk result (CanCreate name.now (state_of self.old)) }
        ensures failed { OnErr result (state_of self.new ≡ state_of self.old) }
        ensures due { IsDue Call.Create (plan_of self.old).failing → IsErr result }
        ensures fails { OnErr result (IsDue Call.Create (plan_of self.old).failing
            ⊎ (((state_of self.old).files name.now ≡ None)
            × (Contains (state_of self.old).may_create name.now → ⊥))) }
        ensures plan { plan_of self.new ≡ plan_after Call.Create (plan_of self.old) }
        ensures cause { WriteCause (faults_of self.old) (faults_of self.new) result }
    {
        let fails = self.failing.count(Call::Create);
        match find(&self.files, name) {
            Some(i) if !fails => {
                let file = &mut self.files[i];
                file.empty();
                self.created = Some(i);
                Ok(())
            }
            _ => Err(self.faults.write_failed()),
        }
    }

    fn put(&mut self, to: To, bytes: &[u8]) -> Result<usize, WriteFailed>
        ensures count { IfOk result (λ count. count ≡ min (length bytes.now) (plan_of self.old).piece) }
        ensures written { IfOk result (λ count.
            state_of self.new ≡ written to (take count bytes.now) (state_of self.old)) }
        ensures fits { IfOk result (λ count. count ≤ (state_of self.old).room) }
        ensures created { OnOk result (to ≡ To.Cert → IsSome (state_of self.old).created) }
        ensures failed { OnErr result (state_of self.new ≡ state_of self.old) }
        ensures due { IsDue (Call.Put to) (plan_of self.old).failing → IsErr result }
        ensures fails { OnErr result (IsDue (Call.Put to) (plan_of self.old).failing
            ⊎ CannotPut to (min (length bytes.now) (plan_of self.old).piece) (state_of self.old)) }
        ensures plan { plan_of self.new ≡ plan_after (Call.Put to) (plan_of self.old) }
        ensures cause { WriteCause (faults_of self.old) (faults_of self.new) result }
    {
        let fails = self.failing.count(Call::Put(to));
        let count = bytes.len().min(self.piece);
        let front = &bytes[..count];
        match (to, self.created) {
            (To::Out, _) if !fails && count <= self.room => {
                self.out.append(front);
                self.room -= count;
                Ok(count)
            }
            (To::Cert, Some(i)) if !fails && count <= self.room => {
                let file = &mut self.files[i];
                file.append(front);
                self.room -= count;
                Ok(count)
            }
            _ => Err(self.faults.write_failed()),
        }
    }
}
