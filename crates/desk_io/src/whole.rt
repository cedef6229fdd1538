//! Whole files and whole texts, over the pieces that a desk gives and takes.
ghost use Rattle.std.specs.Prelude.{◌≡◌, ◌+◌, ◌<◌, ◌≤◌, ℕ, IsTrue, [], length, take, IfOk, OnOk, OnErr, IsErr, IsErrOf};
ghost use Rattle.desk_io.specs.State.{left_of, with_left, written, CannotPut};
ghost use Rattle.desk_io.specs.Faults.{ReadFails, WriteFails};
ghost use Rattle.desk_io.specs.declared.whole.TheConstants.{PIECE};
ghost use Rattle.desk_io.specs.declared.whole.ReadError.TheVariants.{Failed, Memory};

use crate::{Desk, ReadFailed, To, Which, WriteFailed};
use std::alloc::{AllocError, Global};
use thiserror::Error;

/// Why a file wasn't read whole.
#[derive(Clone, Copy, Debug, Error)]
pub enum ReadError {
    /// A call of the desk failed.
    #[error("a read failed")]
    Failed,
    /// More bytes came than the limit.
    #[error("the file is longer than its limit")]
    Longer,
    /// No memory for the bytes.
    #[error("out of memory")]
    Memory,
}

impl From<ReadFailed> for ReadError {
    ghost from_gives = { λ _ e. e ≡ Failed };

    fn from(_failed: ReadFailed) -> ReadError {
        ReadError::Failed
    }
}

impl From<AllocError> for ReadError {
    ghost from_gives = { λ _ e. e ≡ Memory };

    fn from(_failed: AllocError) -> ReadError {
        ReadError::Memory
    }
}

/// Bytes that are asked of the desk at once.
const PIECE: usize = 16_384;

// How many bytes are asked for where this many may still come: one more, at most a piece.
fn asked(left: u64) -> usize
    ensures some { 0 < result }
    ensures piece { result ≤ PIECE }
    ensures one_more { result ≤ left + 1 }
{
    left.saturating_add(1).min(PIECE as u64) as usize
}

/// Reads all that is left, to the end of input, where it is at most `limit` bytes.
///
/// `Longer` comes exactly where byte number `limit + 1` came, and nothing is read after it. `Failed` comes exactly where a call of the desk failed. After an `Err` only what is left there has changed.
/// O(bytes read), in pieces of at most 16,384 bytes, and at most `limit + 1` calls of `next`.
pub fn read_all<D: Desk>(
    alloc: Global,
    desk: &mut D,
    which: Which,
    limit: u64,
) -> Result<Vec<u8>, ReadError>
    ensures all { IfOk result (λ bytes. IsTrue D.tells →
        bytes.items ≡ left_of which (D.state desk.old)) }
    ensures ended { OnOk result (IsTrue D.tells → left_of which (D.state desk.new) ≡ []) }
    ensures fits { IfOk result (λ bytes. length bytes.items ≤ limit) }
    ensures longer { IsErrOf result ReadError.Longer → IsTrue D.tells →
        limit < length (left_of which (D.state desk.old)) }
    ensures rest { IsTrue D.tells →
        D.state desk.new ≡ with_left which (left_of which (D.state desk.new)) (D.state desk.old) }
    // At most one byte more than the limit is taken.
    ensures taken { IsTrue D.tells →
        length (left_of which (D.state desk.old)) ≤ length (left_of which (D.state desk.new)) + (limit + 1) }
    ensures plain { IsErrOf result ReadError.Failed → IsTrue D.tells →
        IsTrue (D.state desk.old).plain → ⊥ }
    ensures faults { ReadFails (D.faults desk.old) (D.faults desk.new)
        (IsErrOf result ReadError.Failed) }
{
    let mut bytes = Vec::new(alloc);
    let mut buffer = [0u8; PIECE];
    loop {
        let room = asked(limit - bytes.len() as u64);
        let piece = &mut buffer[..room];
        let count = desk.next(which, piece)?;
        if count == 0 {
            return Ok(bytes);
        }
        if count as u64 > limit - bytes.len() as u64 {
            return Err(ReadError::Longer);
        }
        bytes.extend_from_slice(&piece[..count])?;
    }
}

/// Puts all the bytes, in as many calls of `put` as the desk makes of them, at most one a byte.
///
/// After an `Err` a proper prefix of them is out. Takes no memory.
pub fn put_all<D: Desk>(desk: &mut D, to: To, bytes: &[u8]) -> Result<(), WriteFailed>
    ensures written { OnOk result (IsTrue D.tells →
        D.state desk.new ≡ written to bytes.now (D.state desk.old)) }
    ensures fits { OnOk result (IsTrue D.tells → length bytes.now ≤ (D.state desk.old).room) }
    ensures prefix { OnErr result (IsTrue D.tells → (n : ℕ) × (n < length bytes.now)
        × (D.state desk.new ≡ written to (take n bytes.now) (D.state desk.old))) }
    ensures plain { OnErr result (IsTrue D.tells → IsTrue (D.state desk.old).plain →
        CannotPut to (length bytes.now) (D.state desk.old)) }
    ensures faults { WriteFails (D.faults desk.old) (D.faults desk.new) (IsErr result) }
{
    let mut at = 0;
    while at < bytes.len() {
        at += desk.put(to, &bytes[at..])?;
    }
    Ok(())
}
