//! The program, over the words and a desk.
#![tactic(auto)]

ghost use Rattle.std.specs.Prelude.{◌≡◌, ◌⊎◌, ◌↔◌, ◌<◌, ℕ, List, Ok, Err, IsTrue, IsOk, IsErr, IfErr, length, take};
ghost use Rattle.desk_io.specs.State.{OnlyReads, written};
ghost use Rattle.desk_io.specs.Faults.{Rose, WriteFails, CountedWhere};
ghost use Rattle.cli_words.specs.Words.{order_of};
ghost use Rattle.request_reading.specs.Status.{is_answer};
ghost use Rattle.request_reading.specs.Answers.{words_of, asked_of, FitsAsked};
ghost use Rattle.command_run.specs.Headline.{Headline, MayChange};
ghost use Rattle.command_run.specs.Printing.{PrintsAnswer, PrintsAnswerPart, PrintsAsked, PrintsAskedPart, Prints, PrintsPart, IsTooLarge};

mod commands;
mod ending;
mod finding;
mod found;
mod printing;
mod replies;
mod searched;
mod searching;
mod solving;
mod trying;

use crate::printing::print;
use crate::searching::search;
use crate::solving::solve;
use crate::trying::try_edits;
use desk_io::Desk;
pub use ending::{Ended, Exit, end};
pub use request_reading::Status;
use request_reading::{Asked, Early, ask_by_words};
use std::alloc::{AllocError, Global};

// Puts the answer to what is asked.
fn answer<D: Desk>(alloc: Global, desk: &mut D, asked: Asked) -> Status
    requires { FitsAsked asked }
    ensures answered { IsTrue D.tells → IsTrue (is_answer result) → PrintsAsked asked (D.state desk.old) (D.state desk.new) result }
    ensures part { IsTrue D.tells → result ≡ Status.WriteFault → PrintsAskedPart asked (D.state desk.old) (D.state desk.new) }
    ensures silent { IsTrue D.tells → result ≡ Status.Memory → D.state desk.new ≡ D.state desk.old }
    ensures ends { IsTrue (is_answer result) ⊎ (result ≡ Status.WriteFault) ⊎ (result ≡ Status.Memory) }
    ensures faults { WriteFails (D.faults desk.old) (D.faults desk.new) (result ≡ Status.WriteFault) }
{
    match asked {
        Asked::Question(system, question) => match solve(alloc, &system, &question) {
            Ok(reply) => print(desk, &reply),
            Err(AllocError) => Status::Memory,
        },
        Asked::Search(sought) => search(alloc, desk, &sought),
        Asked::Edits(edits) => match try_edits(alloc, edits) {
            Ok(reply) => print(desk, &reply),
            Err(AllocError) => Status::Memory,
        },
        Asked::Checked(reply) => print(desk, &reply),
    }
}

/// All that the program does. The words begin with the program's name; the files are those of the desk, to whose output
/// the text of the answer goes. A search writes its certificate before that, and nothing else is changed. Everything is read,
/// and all memory is taken, before a file is made or the first byte is put out.
pub fn run<D: Desk>(alloc: Global, words: &[String], desk: &mut D) -> Status
    // An answer is the defined one, and its text is all that goes to the output.
    ensures answered { IsTrue D.tells → IsTrue (is_answer result) →
        Prints (asked_of (words_of words.now) (D.state desk.old).files) (D.state desk.old) (D.state desk.new) result }
    // The headline, for every configuration file, every set of faulty nodes and every budget: what is so where a no, a yes, a list
    // or an unknown is printed, that each finished certificate is accepted, and that only what is so is accepted.
    ensures headline { IsTrue D.tells → IsTrue (is_answer result) →
        Headline (words_of words.now) (D.state desk.old) (D.state desk.new) result }
    // The status is 9 exactly where what is asked encodes a formula of more than 4,000,000 variables, or a certificate has one.
    ensures too_large { IsTrue D.tells → IsTrue (is_answer result) →
        (result ≡ Status.TooLarge) ↔ IsTooLarge (asked_of (words_of words.now) (D.state desk.old).files) }
    // After a write fault a proper prefix of it is out, and where only too little room makes one, so much was wanting. After a read
    // fault or for want of memory nothing is out.
    ensures part { IsTrue D.tells → result ≡ Status.WriteFault →
        PrintsPart (asked_of (words_of words.now) (D.state desk.old).files) (D.state desk.old) (D.state desk.new) }
    ensures silent { IsTrue D.tells → (result ≡ Status.ReadFault) ⊎ (result ≡ Status.Memory) →
        (D.state desk.new).out ≡ (D.state desk.old).out }
    ensures untouched { IsTrue D.tells → (result ≡ Status.ReadFault) ⊎ (result ≡ Status.Memory) →
        (D.state desk.new).files ≡ (D.state desk.old).files }
    // No file changes but the certificate of a search.
    ensures files { IsTrue D.tells → (path : List ℕ)
        → (MayChange path (asked_of (words_of words.now) (D.state desk.old).files) → ⊥) → (D.state desk.new).files path ≡ (D.state desk.old).files path }

    // For words that are no order, what is left to read of each file stays as it was.
    ensures unread { IsTrue D.tells → IsErr (order_of (words_of words.now)) → (D.state desk.new).left ≡ (D.state desk.old).left }

    // Whatever the desk tells: words that are no order are refused, and a read fault comes only where they are one.
    ensures refused { IsErr (order_of (words_of words.now)) → IsTrue (is_answer result) → result ≡ Status.Usage }
    ensures taken { result ≡ Status.ReadFault → IsOk (order_of (words_of words.now)) }
    // Faults are answered exactly where they are counted.
    ensures read_faults { CountedWhere (D.faults desk.old).reads (D.faults desk.new).reads (result ≡ Status.ReadFault) }
    ensures write_faults { CountedWhere (D.faults desk.old).writes (D.faults desk.new).writes (result ≡ Status.WriteFault) }
    // Where no fault is counted an answer comes, or memory is wanting.
    ensures complete { (Rose (D.faults desk.old).reads (D.faults desk.new).reads → ⊥)
        → (Rose (D.faults desk.old).writes (D.faults desk.new).writes → ⊥)
        → IsTrue (is_answer result) ⊎ (result ≡ Status.Memory) }

    // On a plain desk only a missing file makes a read fault.
    ensures plain_read { IsTrue D.tells → IsTrue (D.state desk.old).plain → result ≡ Status.ReadFault →
        asked_of (words_of words.now) (D.state desk.old).files ≡ Err Early.Read }
{
    match ask_by_words(alloc, words, desk) {
        Ok(asked) => answer(alloc, desk, asked),
        Err(Early::Refused(reply)) => print(desk, &reply),
        Err(Early::Read) => Status::ReadFault,
        Err(Early::Memory) => Status::Memory,
    }
}
