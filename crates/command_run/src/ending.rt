//! How the process ends, by the words that it was given.
ghost use Rattle.std.specs.Prelude.{◌≡◌, false, [], IfErr, IfOk, IfSome, IsErr, IsOk, IsNone, IsSome, IsTrue, Some};
ghost use Rattle.std.specs.IoError.{error_kind};
ghost use Rattle.std.specs.Vec.Iter.{into_iter_items};
ghost use Rattle.std.specs.Process.{exit_status};
ghost use Rattle.request_reading.specs.Status.{code_of};
ghost use Rattle.request_reading.specs.Answers.{words_of};
ghost use Rattle.command_run.specs.Running.{Runs, RunsOnAny};
ghost use Rattle.command_run.specs.Ending.{is_memory, words_given};
ghost use Rattle.command_run.specs.Ended.{desk_of, status_in, status_of};

use crate::run;
use desk_io::{Desk, RealDesk};
use request_reading::Status;
use std::alloc::{AllocError, Global};
use std::env;
use std::io::{self, ErrorKind};
use std::process::{ExitCode, Termination};
use std::rt::Files;

/// The words where the command line could not be read: want of memory, or none where one of them is not UTF-8.
fn unread_words(alloc: Global, kind: ErrorKind) -> Result<Vec<String>, AllocError>
    ensures memory { IsTrue (is_memory kind) → IsErr result }
    ensures other { is_memory kind ≡ false → IsOk result }
    ensures none { IfOk result (λ words. words.items ≡ []) }
{
    match kind {
        ErrorKind::OutOfMemory => Err(AllocError),
        _ => Ok(Vec::new(alloc)),
    }
}

/// All the arguments, in order.
fn all(alloc: Global, args: env::Args) -> Result<Vec<String>, AllocError>
    ensures { IfOk result (λ words. words.items ≡ into_iter_items args) }
{
    args.collect(alloc)
}

/// The words of the command line.
fn words(alloc: Global, args: io::Result<env::Args>) -> Result<Vec<String>, AllocError>
    ensures given { IfOk result (λ words. words_given args ≡ Some (words_of words.items)) }
    ensures unread { IsErr args → IsSome (words_given args) → IsOk result }
{
    match args {
        Ok(args) => all(alloc, args),
        Err(error) => unread_words(alloc, error.kind()),
    }
}

/// How a run of the words ends: for want of memory where there was none for them.
fn run_words<D: Desk>(
    alloc: Global,
    words: &Result<Vec<String>, AllocError>,
    desk: &mut D,
) -> Status
    ensures told { IsTrue D.tells → IfOk words.now (λ held. Runs (words_of held.items) (D.state desk.old) (D.state desk.new) result) }
    ensures any { IfOk words.now (λ held. RunsOnAny (words_of held.items) (D.faults desk.old) (D.faults desk.new) result) }
    ensures memory { IsErr words.now → result ≡ Status.Memory }
    ensures untouched { IsErr words.now → IsTrue D.tells → D.state desk.new ≡ D.state desk.old }
    ensures uncounted { IsErr words.now → D.faults desk.new ≡ D.faults desk.old }
{
    match words {
        Ok(words) => run(alloc, words, desk),
        Err(AllocError) => Status::Memory,
    }
}

/// How a run on a desk ended: its status, and the desk as the run left it. `end` alone makes one.
#[derive(Drop)]
pub struct Ended<D> {
    status: Status,
    desk: D,
}

/// What a process ends with. It is made of how a run on the machine's desk ended, and of nothing else.
#[derive(Drop)]
pub struct Exit {
    status: Status,
}

impl<R: Files + Print> Ended<RealDesk<'_, R>> {
    /// What the process ends with after it.
    pub fn exit(self) -> Exit
        ensures { status_in result ≡ status_of self.entry }
    {
        Exit {
            status: self.status,
        }
    }
}

impl Termination for Exit {
    /// The number of the status.
    fn report<R: Eprint>(self, _rt: &R) -> ExitCode
        ensures { exit_status result ≡ code_of (status_in self) }
    {
        ExitCode::from(self.status.code())
    }
}

/// All that the process does, over its arguments and a desk: `run` of these words. Where one of them is not UTF-8 it is a run of no
/// words, which puts out the usage text.
pub fn end<D: Desk>(alloc: Global, args: io::Result<env::Args>, desk: D) -> Ended<D>
    ensures told { IsTrue D.tells → IfSome (words_given args) (λ words.
        Runs words (D.state desk) (D.state (desk_of result)) (status_of result)) }
    // Whatever the desk tells, the machine's too.
    ensures any { IfSome (words_given args) (λ words.
        RunsOnAny words (D.faults desk) (D.faults (desk_of result)) (status_of result)) }
    // Where there was no memory for the arguments, nothing is done.
    ensures memory { IsNone (words_given args) → status_of result ≡ Status.Memory }
    ensures untouched { IsNone (words_given args) → IsTrue D.tells → D.state (desk_of result) ≡ D.state desk }
    ensures uncounted { IsNone (words_given args) → D.faults (desk_of result) ≡ D.faults desk }
{
    let words = words(alloc, args);
    let mut desk = desk;
    let status = run_words(alloc, &words, &mut desk);
    Ended { status, desk }
}
