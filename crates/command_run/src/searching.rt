//! A search: its answer, its certificate, and what is put out. All memory is taken before the certificate's file is created.
ghost use Rattle.std.specs.Prelude.{◌≡◌, ◌<◌, ℕ, length, IsTrue, IsErr, OnOk, OnErr, IfOk};
ghost use Rattle.fbas_model.specs.Restriction.{closure_of, kept, restricted};
ghost use Rattle.desk_io.specs.Faults.{WriteFails};
ghost use Rattle.cert_writer.specs.Writing.{IsFresh};
ghost use Rattle.command_run.specs.Meanings.{cert_of, IsCertified, AreTooMany, meaning_of};
ghost use Rattle.command_run.specs.Printing.{PrintsAnswer, PrintsAnswerPart};
ghost use Rattle.command_run.specs.Putting.{put_whole, PutsSome};
ghost use Rattle.command_run.specs.Replies.{too_large_answer};
ghost use Rattle.command_run.specs.Searching.{SearchEnds};
ghost use Rattle.command_run.specs.Sought.{part, deleted, request, FitsPart};
ghost use Rattle.request_reading.specs.Searches.{FitsSearch};

use crate::finding::Found;
use crate::found::{
    BlockingFound, DsetFound, IntersectFound, LeastFound, OrgBlockingFound, QuorumsFound,
    SplitsFound, TrialFound,
};
use crate::printing::print;
use crate::replies::too_large;
use crate::searched::SearchedPart;
use cert_writer::CertWriter;
use cli_words::Goal;
use desk_io::{Desk, To, WriteFailed, put_all};
use fbas_core::System;
use name_set::NodeSet;
use quorum_questions::AskError;
use request_reading::{Reply, Search, Status};
use std::alloc::{AllocError, Global};

// Creates the certificate's file, writes it whole, and puts the text to the output.
fn put_both<D: Desk, F: Found>(
    desk: &mut D,
    path: &str,
    over: &SearchedPart<'_>,
    writer: &mut CertWriter,
    found: &F,
    text: &[u8],
) -> Result<(), WriteFailed>
    requires fresh { IsFresh writer.old }
    requires over { FitsPart over.now }
    requires found { IsCertified (meaning_of F.sought) (request over.now.search.now) (F.shown found.now) }
    ensures all { OnOk result (IsTrue D.tells → D.state desk.new ≡ put_whole path.now (cert_of (meaning_of F.sought) (request over.now.search.now) (F.shown found.now)) text.now (D.state desk.old)) }
    ensures part { OnErr result (IsTrue D.tells → PutsSome path.now (cert_of (meaning_of F.sought) (request over.now.search.now) (F.shown found.now)) text.now (D.state desk.old) (D.state desk.new)) }
    ensures faults { WriteFails (D.faults desk.old) (D.faults desk.new) (IsErr result) }
{
    desk.create(path)?;
    found.write(desk, writer, over)?;
    put_all(desk, To::Out, text)
}

// Puts what was found: its certificate, and then its text.
fn put_found<D: Desk, F: Found>(
    desk: &mut D,
    over: &SearchedPart<'_>,
    writer: &mut CertWriter,
    found: &F,
    reply: &Reply,
) -> Status
    requires fresh { IsFresh writer.old }
    requires over { FitsPart over.now }
    requires asked { over.now.search.now.goal ≡ F.sought }
    requires small { (n : ℕ) → AreTooMany (meaning_of F.sought).vars over.now.part.now over.now.faulty.now n → ⊥ }
    requires found { IsCertified (meaning_of F.sought) (request over.now.search.now) (F.shown found.now) }
    requires replies { (meaning_of F.sought).Replies over.now.part.now over.now.faulty.now over.now.search.now.budget (F.shown found.now) reply.now }
    ensures { SearchEnds D.tells over.now.search.now (D.state desk.old) (D.faults desk.old) (D.state desk.new) (D.faults desk.new) result }
{
    match put_both(
        desk,
        over.search.path.as_str(),
        over,
        writer,
        found,
        reply.text.bytes(),
    ) {
        Ok(()) => reply.status,
        Err(WriteFailed) => Status::WriteFault,
    }
}

// Tells that clauses of this many variables are too large.
fn tell_too_large<D: Desk>(
    alloc: Global,
    desk: &mut D,
    over: &SearchedPart<'_>,
    vars: u64,
) -> Status
    requires { AreTooMany (meaning_of over.now.search.now.goal).vars (part over.now.search.now) (deleted over.now.search.now) vars }
    ensures { SearchEnds D.tells over.now.search.now (D.state desk.old) (D.faults desk.old) (D.state desk.new) (D.faults desk.new) result }
{
    match too_large(alloc, vars) {
        Ok(reply) => print(desk, &reply),
        Err(AllocError) => Status::Memory,
    }
}

// Tells what was found, with all the memory that this wants taken before. What is replied comes as it was made, so that what was
// found is held over no other want of memory.
fn tell<D: Desk, F: Found>(
    alloc: Global,
    desk: &mut D,
    over: &SearchedPart<'_>,
    found: &F,
) -> Status
    requires over { FitsPart over.now }
    requires asked { over.now.search.now.goal ≡ F.sought }
    requires small { (n : ℕ) → AreTooMany (meaning_of F.sought).vars over.now.part.now over.now.faulty.now n → ⊥ }
    requires found { IsCertified (meaning_of F.sought) (request over.now.search.now) (F.shown found.now) }
    ensures { SearchEnds D.tells over.now.search.now (D.state desk.old) (D.faults desk.old) (D.state desk.new) (D.faults desk.new) result }
{
    match (found.reply(alloc, over), CertWriter::start(alloc)) {
        (Ok(reply), Ok(mut writer)) => put_found(desk, over, &mut writer, found, &reply),
        _ => Status::Memory,
    }
}

// The search of one command.
fn search_for<D: Desk, F: Found>(alloc: Global, desk: &mut D, over: &SearchedPart<'_>) -> Status
    requires over { FitsPart over.now }
    requires asked { over.now.search.now.goal ≡ F.sought }
    ensures { SearchEnds D.tells over.now.search.now (D.state desk.old) (D.faults desk.old) (D.state desk.new) (D.faults desk.new) result }
{
    match F::find(alloc, over) {
        Ok(found) => tell(alloc, desk, over, &found),
        Err(AskError::TooLarge(vars)) => tell_too_large(alloc, desk, over, vars),
        Err(AskError::Memory) => Status::Memory,
    }
}

// The search of the command that is asked.
fn search_in<D: Desk>(alloc: Global, desk: &mut D, over: &SearchedPart<'_>) -> Status
    requires { FitsPart over.now }
    ensures { SearchEnds D.tells over.now.search.now (D.state desk.old) (D.faults desk.old) (D.state desk.new) (D.faults desk.new) result }
{
    match over.search.goal {
        Goal::Intersect => search_for::<D, IntersectFound>(alloc, desk, over),
        Goal::Splits => search_for::<D, SplitsFound>(alloc, desk, over),
        Goal::Dset => search_for::<D, DsetFound>(alloc, desk, over),
        Goal::Trial => search_for::<D, TrialFound>(alloc, desk, over),
        Goal::Blocking => search_for::<D, BlockingFound>(alloc, desk, over),
        Goal::Quorums => search_for::<D, QuorumsFound>(alloc, desk, over),
        Goal::Least => search_for::<D, LeastFound>(alloc, desk, over),
        Goal::OrgBlocking => search_for::<D, OrgBlockingFound>(alloc, desk, over),
    }
}

// The part of the system that is the trust closure of a node, and the deleted nodes by their numbers there.
fn part_at(alloc: Global, search: &Search, node: u32) -> Result<(System, NodeSet), AllocError>
    requires node { node < length search.now.whole.sets }
    requires same_n { length search.now.header.faulty ≡ length search.now.whole.sets }
    ensures part { IfOk result (λ r. r.0 ≡ restricted (closure_of search.now.whole.sets node) search.now.whole) }
    ensures faulty { IfOk result (λ r. r.1 ≡ kept (closure_of search.now.whole.sets node) search.now.header.faulty) }
    ensures places { IfOk result (λ r. length r.1 ≡ length r.0.sets) }
{
    let closure = search.whole.closure(node);
    let faulty = search.whole.cut(&search.header.faulty, &closure);
    let part = search.whole.restrict(alloc, &closure)?;
    Ok((part, faulty))
}

/// A search: what it finds is written to its certificate, and then told.
pub fn search<D: Desk>(alloc: Global, desk: &mut D, search: &Search) -> Status
    requires { FitsSearch search.now }
    ensures { SearchEnds D.tells search.now (D.state desk.old) (D.faults desk.old) (D.state desk.new) (D.faults desk.new) result }
{
    let _ = search.whole.len();
    let Some(node) = search.header.from else {
        let whole = SearchedPart {
            search,
            part: &search.whole,
            faulty: &search.header.faulty,
        };
        return search_in(alloc, desk, &whole);
    };
    match part_at(alloc, search, node) {
        Ok((part, faulty)) => {
            let over = SearchedPart {
                search,
                part: &part,
                faulty: &faulty,
            };
            search_in(alloc, desk, &over)
        }
        Err(AllocError) => Status::Memory,
    }
}
