//! How a question is answered.
ghost use Rattle.std.specs.Prelude.{All, IsTrue, false, ◌≡◌, ◌⊎◌, ◌<◌, ◌≤◌, ◌+◌, ◌-◌, ◌^◌, ◌∷◌, [], length};
ghost use Rattle.std.specs.Str.{IsUtf8};
ghost use Rattle.request_reading.specs.Answers.{words_of};
ghost use Rattle.request_reading.specs.Status.{code_of, is_answer};
ghost use Rattle.lent_desk.specs.Files.{files_named};
ghost use Rattle.lent_desk.specs.LentDesk.{room_in, mark_of, state_of};
ghost use Rattle.lent_desk.specs.Room.{MOST_ROOM};
ghost use Rattle.quorum_answers.specs.Answering.{Answers, Attempts, EndsShort, Holds, IsNothing, words_in, program};

use crate::reading::{Unread, words};
use command_run::{Status, run};
use lent_desk::{EndlessDesk, LentDesk, LentFiles};
use std::alloc::Global;

/// How a question ended.
#[repr(C)]
#[derive(Clone, Copy)]
pub struct QuorumEnd {
    /// What the process would end with, 0 to 10.
    pub status: u8,
    /// How many bytes the text of the answer has, the last of the room.
    pub text: usize,
    /// How many bytes the certificate has, the first of the room.
    pub cert: usize,
    /// With status 7 how many bytes of room the answer fits, exactly: the greatest number if no room helps. Else 0.
    pub wanting: usize,
}

// An end with nothing in the room.
fn silent(status: Status, wanting: usize) -> QuorumEnd
    ensures { result ≡ record { status = code_of status; text = 0; cert = 0; wanting = wanting } }
{
    QuorumEnd {
        status: status.code(),
        text: 0,
        cert: 0,
        wanting,
    }
}

// An end with what is on the desk.
fn told(status: Status, desk: &mut LentDesk) -> QuorumEnd
    ensures status { result.status ≡ code_of status }
    ensures wanting { result.wanting ≡ 0 }
    ensures holds { Holds (room_in desk.new).now (mark_of (room_in desk.old)) result (state_of desk.old) }
    ensures within { result.cert + result.text ≤ length (room_in desk.new).now }
    ensures same_room { (room_in desk.new).ghost_name ≡ (room_in desk.old).ghost_name }
    ensures len { length (room_in desk.new).now ≡ length (room_in desk.old).now }
{
    let lengths = desk.finish();
    QuorumEnd {
        status: status.code(),
        text: lengths.text,
        cert: lengths.cert,
        wanting: 0,
    }
}

// The end of a run that ended so, without what is wanting.
fn close(status: Status, desk: &mut LentDesk) -> QuorumEnd
    ensures status { result.status ≡ code_of status }
    ensures wanting { result.wanting ≡ 0 }
    ensures holds { IsTrue (is_answer status)
        → Holds (room_in desk.new).now (mark_of (room_in desk.old)) result (state_of desk.old) }
    ensures nothing { is_answer status ≡ false → IsNothing result }
    ensures within { result.cert + result.text ≤ length (room_in desk.new).now }
    ensures same_room { (room_in desk.new).ghost_name ≡ (room_in desk.old).ghost_name }
    ensures len { length (room_in desk.new).now ≡ length (room_in desk.old).now }
{
    match status {
        Status::ReadFault | Status::WriteFault | Status::Memory => silent(status, 0),
        _ => told(status, desk),
    }
}

// The end of a question for which this room was too small, where a run on the endless desk ended so and put so many bytes. Both runs
// do the same, so a second one that reads less, or fits, has only been short of memory.
fn measured(status: Status, total: usize, room: usize) -> QuorumEnd
    requires total { total ≤ MOST_ROOM }
    requires room { room < 2 ^ 64 - 1 }
    ensures nothing { IsNothing result }
    ensures status { (result.status ≡ 8) ⊎ (result.status ≡ 7) }
    ensures memory { result.status ≡ 8 → result.wanting ≡ 0 }
    ensures more { result.status ≡ 7 → room < result.wanting }
    ensures answer { result.status ≡ 7 → IsTrue (is_answer status) → result.wanting ≡ total }
    ensures fault { result.status ≡ 7 → is_answer status ≡ false → status ≡ Status.WriteFault }
    ensures never { result.status ≡ 7 → is_answer status ≡ false → result.wanting ≡ 2 ^ 64 - 1 }
{
    match status {
        Status::ReadFault | Status::Memory => silent(Status::Memory, 0),
        Status::WriteFault => silent(Status::WriteFault, usize::MAX),
        _ if total > room => silent(Status::WriteFault, total),
        _ => silent(Status::Memory, 0),
    }
}

// Measures how much room the answer wants, by a second run, on a desk that only counts.
fn short(alloc: Global, words: &[String], files: LentFiles, room: usize) -> QuorumEnd
    requires { room < 2 ^ 64 - 1 }
    ensures { EndsShort (words_of words.now) (files_named files.entry.config.now files.entry.orgs.now files.entry.script.now files.entry.cert.now) room result }
{
    let mut desk = EndlessDesk::new(files);
    let status = run(alloc, words, &mut desk);
    let total = desk.wanting();
    measured(status, total, room)
}

// The answer in the room, if it fits.
fn attempt(alloc: Global, words: &[String], files: LentFiles, room: &mut [u8]) -> QuorumEnd
    ensures answered { Attempts (words_of words.now) (files_named files.entry.config.now files.entry.orgs.now files.entry.script.now files.entry.cert.now) room.new result }
    ensures len { length room.new ≡ length room.old }
{
    let mut desk = LentDesk::new(files, room);
    let status = run(alloc, words, &mut desk);
    close(status, &mut desk)
}

// The answer to words that were read.
fn ended(alloc: Global, words: &[String], files: LentFiles, room: &mut [u8]) -> QuorumEnd
    ensures answered { Answers (words_of words.now) (files_named files.entry.config.now files.entry.orgs.now files.entry.script.now files.entry.cert.now) room.new result }
    ensures len { length room.new ≡ length room.old }
{
    let first = attempt(alloc, words, files, room);
    if first.status == 7 {
        let most = room.len();
        return short(alloc, words, files, most);
    }
    first
}

/// Answers the words over the files, as the program does.
///
/// The words stand between zero bytes, without the program's name. They name the files `config`, `orgs`, `script` and `cert`, and a
/// search makes the certificate `made`. The certificate is written to the front of the room and the text to its end: if it is too small for
/// both, the status is 7, and a second run, whose bytes go nowhere, measures how much room they want. Words of which one is not UTF-8 are
/// answered as none are.
pub fn answered(alloc: Global, text: &[u8], files: LentFiles, room: &mut [u8]) -> QuorumEnd
    ensures words { All IsUtf8 (words_in text.now)
        → Answers (program ∷ words_in text.now) (files_named files.entry.config.now files.entry.orgs.now files.entry.script.now files.entry.cert.now) room.new result }
    ensures other { (All IsUtf8 (words_in text.now) → ⊥)
        → Answers [] (files_named files.entry.config.now files.entry.orgs.now files.entry.script.now files.entry.cert.now) room.new result }
    ensures len { length room.new ≡ length room.old }
{
    match words(alloc, text) {
        Ok(words) => ended(alloc, &words, files, room),
        Err(Unread::NotText) => ended(alloc, &[], files, room),
        Err(Unread::Memory) => silent(Status::Memory, 0),
    }
}
