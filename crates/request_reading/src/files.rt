//! The files that are read whole.
ghost use Rattle.std.specs.Prelude.{◌≡◌, ◌≤◌, Ok, IsTrue, IfOk, IfErr, IsErrOf, length};
ghost use Rattle.request_reading.specs.Answers.{file_in, file_within, script_in};
ghost use Rattle.request_reading.specs.Reading.{FailsReading, GivesReading, IsRefusal, is_refusal, ReadsDesk};

use crate::early::Early;
use crate::reply::{Text, says};
use crate::status::Status;
use desk_io::{Desk, ReadError, Which, read_all};
use std::alloc::Global;

/// The most bytes of a configuration, or of organisations, that are read.
pub const MAX_FILE: u64 = 16_777_216;

/// The most bytes of a script of edits that are read.
pub const MAX_SCRIPT: u64 = 1_048_576;

/// A limit on a file's bytes: how many there may be, and how the program ends and what it says where there are more.
#[derive(Clone, Copy)]
struct Limit<'a> {
    most: u64,
    status: Status,
    too_long: &'a str,
}

// The bytes of a file within a limit.
fn read_within<D: Desk>(
    alloc: Global,
    desk: &mut D,
    which: Which,
    name: &str,
    limit: Limit<'_>,
) -> Result<Vec<u8>, Early>
    requires { IsTrue (is_refusal limit.status) }
    ensures ok { IfOk result (λ bytes. IsTrue D.tells → file_within limit.entry.most (record { status = limit.entry.status; text = limit.entry.too_long.now }) ((D.state desk.old).files name.now) ≡ Ok bytes.items) }
    ensures err { IfErr result (λ e. IsTrue D.tells → FailsReading (D.state desk.old).plain e (file_within limit.entry.most (record { status = limit.entry.status; text = limit.entry.too_long.now }) ((D.state desk.old).files name.now))) }
    ensures within { IfOk result (λ bytes. length bytes.items ≤ limit.entry.most) }
    ensures refused { IfErr result IsRefusal }
    ensures desk { ReadsDesk D.tells D.state D.faults desk.old desk.new (IsErrOf result Early.Read) }
{
    let Ok(()) = desk.begin(which, name) else {
        return Err(Early::Read);
    };
    match read_all(alloc, desk, which, limit.most) {
        Ok(bytes) => Ok(bytes),
        Err(ReadError::Longer) => Err(Early::Refused(says(alloc, limit.status, limit.too_long)?)),
        Err(ReadError::Failed) => Err(Early::Read),
        Err(ReadError::Memory) => Err(Early::Memory),
    }
}

/// The bytes of a file, which is refused with this text where they are too many. Linear in the file, and reads at most one
/// piece past the limit.
pub fn read_file<D: Desk>(
    alloc: Global,
    desk: &mut D,
    which: Which,
    name: &str,
    too_long: &str,
) -> Result<Vec<u8>, Early>
    ensures ok { IfOk result (λ bytes. IsTrue D.tells → file_in too_long.now ((D.state desk.old).files name.now) ≡ Ok bytes.items) }
    ensures err { IfErr result (λ e. IsTrue D.tells → FailsReading (D.state desk.old).plain e (file_in too_long.now ((D.state desk.old).files name.now))) }
    ensures within { IfOk result (λ bytes. length bytes.items ≤ MAX_FILE) }
    ensures refused { IfErr result IsRefusal }
    ensures desk { ReadsDesk D.tells D.state D.faults desk.old desk.new (IsErrOf result Early.Read) }
{
    let limit = Limit {
        most: MAX_FILE,
        status: Status::ConfigRefused,
        too_long,
    };
    read_within(alloc, desk, which, name, limit)
}

/// The script of a file. Linear in the file, and reads at most one piece past the limit.
pub fn read_script<D: Desk>(alloc: Global, desk: &mut D, name: &str) -> Result<Text, Early>
    ensures gives { IsTrue D.tells → GivesReading (D.state desk.old).plain result (script_in ((D.state desk.old).files name.now)) }
    ensures refused { IfErr result IsRefusal }
    ensures desk { ReadsDesk D.tells D.state D.faults desk.old desk.new (IsErrOf result Early.Read) }
{
    let limit = Limit {
        most: MAX_SCRIPT,
        status: Status::ScriptRefused,
        too_long: "script too-long\n",
    };
    let bytes = read_within(alloc, desk, Which::Script, name, limit)?;
    Ok(Text::of(bytes))
}
