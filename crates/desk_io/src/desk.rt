//! A desk: the files that the program reads and what it writes.
ghost use Rattle.std.specs.Prelude.{◌≡◌, ◌<◌, ◌≤◌, Bool, IsTrue, [], length, take, Contains, IsSome, IfOk, OnOk, OnErr, None};
ghost use Rattle.desk_io.specs.State.{DeskState, left_of, with_left, Begins, Takes, with_certificate, written, CanCreate, CannotPut};
ghost use Rattle.desk_io.specs.Faults.{Faults, ReadCause, WriteCause};

use thiserror::Error;

/// Which file is read.
#[derive(Clone, Copy, Debug, PartialEq, Eq)]
pub enum Which {
    /// The configuration of the nodes.
    Config,
    /// The table of organisations.
    Orgs,
    /// The script of edits.
    Script,
    /// The certificate, or another file in its place.
    Cert,
}

/// Where bytes are written.
#[derive(Clone, Copy, Debug, PartialEq, Eq)]
pub enum To {
    /// The text of the answer, as standard output.
    Out,
    /// The certificate file that was created last.
    Cert,
}

/// A call that reads failed. The desk has counted it among its read faults.
#[derive(Clone, Copy, Debug, Error)]
#[error("a read failed")]
pub struct ReadFailed;

/// A call that writes failed. The desk has counted it among its write faults.
#[derive(Clone, Copy, Debug, Error)]
#[error("a write failed")]
pub struct WriteFailed;

/// The outside of the program: files by their names, and an output for text.
///
/// What a desk holds, and how each call changes it, is told by desks in memory; the real desk tells nothing of its
/// bytes. Every desk counts its failures, and an `Err` comes only where a count rose. What a call isn't said to
/// change stays, after `Ok` and after `Err`.
pub trait Desk {
    /// Whether desks of this kind tell what they hold: those in memory do, and the real one doesn't.
    ghost tells: { Bool };

    /// What the desk holds, where it tells.
    ghost state: { Self → DeskState };

    /// How often it has failed. A count that stands at 2^64 - 1 stays there.
    ghost faults: { Self → Faults };

    /// Makes the named file the one that `which` reads, from its first byte. A missing file is a read fault, and
    /// after an `Err` nothing is left to read there.
    fn begin(&mut self, which: Which, name: &str) -> Result<(), ReadFailed>
        ensures begun { OnOk result (IsTrue tells →
            Begins which name.now (state self.old) (state self.new)) }
        ensures failed { OnErr result (IsTrue tells →
            state self.new ≡ with_left which [] (state self.old)) }
        ensures plain { OnErr result (IsTrue tells → IsTrue (state self.old).plain →
            (state self.old).files name.now ≡ None) }
        ensures cause { ReadCause (faults self.old) (faults self.new) result };

    /// Takes bytes off the front of what is left, up to as many as `buf` has room for, and gives their number. On a
    /// `buf` that isn't empty, 0 comes exactly where nothing is left.
    fn next(&mut self, which: Which, buf: &mut [u8]) -> Result<usize, ReadFailed>
        ensures bound { IfOk result (λ count. count ≤ length buf.new) }
        ensures taken { IfOk result (λ count. IsTrue tells →
            Takes which (take count buf.new) (state self.old) (state self.new)) }
        ensures end { IfOk result (λ count. IsTrue tells →
            0 < length buf.new → count ≡ 0 → left_of which (state self.old) ≡ []) }
        ensures failed { OnErr result (IsTrue tells → state self.new ≡ state self.old) }
        ensures plain { OnErr result (IsTrue tells → IsTrue (state self.old).plain → ⊥) }
        ensures cause { ReadCause (faults self.old) (faults self.new) result };

    /// Makes the named file the certificate file, and makes it empty. A name that the desk neither holds nor may create
    /// is a write fault. A file that is begun keeps what is left of it.
    fn create(&mut self, name: &str) -> Result<(), WriteFailed>
        ensures created { OnOk result (IsTrue tells →
            state self.new ≡ with_certificate name.now (state self.old)) }
        ensures allowed { OnOk result (IsTrue tells → CanCreate name.now (state self.old)) }
        ensures failed { OnErr result (IsTrue tells → state self.new ≡ state self.old) }
        ensures plain { OnErr result (IsTrue tells → IsTrue (state self.old).plain →
            ((state self.old).files name.now ≡ None)
            × (Contains (state self.old).may_create name.now → ⊥)) }
        ensures cause { WriteCause (faults self.old) (faults self.new) result };

    /// Writes a front part of the bytes, not an empty one of bytes that aren't empty, and gives its length, by which the
    /// room falls. A put to `Cert` with no created file is a write fault.
    fn put(&mut self, to: To, bytes: &[u8]) -> Result<usize, WriteFailed>
        ensures bound { IfOk result (λ count. count ≤ length bytes.now) }
        ensures some { IfOk result (λ count. 0 < length bytes.now → 0 < count) }
        ensures written { IfOk result (λ count. IsTrue tells →
            state self.new ≡ written to (take count bytes.now) (state self.old)) }
        ensures fits { IfOk result (λ count. IsTrue tells → count ≤ (state self.old).room) }
        ensures created { OnOk result (IsTrue tells →
            to ≡ To.Cert → IsSome (state self.old).created) }
        ensures failed { OnErr result (IsTrue tells → state self.new ≡ state self.old) }
        ensures plain { OnErr result (IsTrue tells → IsTrue (state self.old).plain →
            CannotPut to (length bytes.now) (state self.old)) }
        ensures cause { WriteCause (faults self.old) (faults self.new) result };
}
