//! The commands that search.
ghost use Rattle.std.specs.Prelude.{◌≡◌, ◌<◌, ◌^◌, ℕ, Err, Some, IfOk, OnOk};
ghost use Rattle.cli_words.specs.declared.orders.Goal.{Goal};
ghost use Rattle.enumeration_journal.specs.Kinds.{HasLists};
ghost use Rattle.cert_writer.specs.Promises.{PutsCertificate};
ghost use Rattle.cert_writer.specs.Writing.{IsFresh};
ghost use Rattle.command_run.specs.Sought.{request, FitsPart};
ghost use Rattle.command_run.specs.Meanings.{cert_of, IsCertified, AreTooMany, lists, meaning_of};

use crate::finding::Found;
use crate::found::{
    BlockingFound, DsetFound, IntersectFound, LeastFound, OrgBlockingFound, QuorumsFound,
    SplitsFound, TrialFound,
};
use crate::replies::{
    dset_answer, group_answer, intersect_answer, least_answer, list_answer, splits_answer,
    trial_answer,
};
use crate::searched::SearchedPart;
use blocking_lists::{ListOutcome, list_all};
use cdcl_core::Budget;
use cert_writer::{
    CertWriter, Certified, what_is_grouped_is_found, what_is_least_is_found,
    what_is_listed_is_found, what_is_shown_is_found, write_found, write_groups, write_least,
    write_list,
};
use certificate_file::GivenOrgs;
use clause_encoder::EncodeError;
use cli_words::Goal;
use desk_io::{Desk, WriteFailed};
use enumeration_journal::Listed;
use greatest_quorum::{available, greatest};
use group_lists::list_groups;
use least_quorum::least;
use name_set::NodeSet;
use node_json::groups_of;
use quorum_questions::{Answer, AskError, intersect};
use request_reading::Reply;
use std::alloc::{AllocError, Global};

// The units that a search may take.
fn units_of(over: &SearchedPart<'_>) -> Budget
    requires { FitsPart over.now }
    ensures units { result ≡ over.now.search.now.budget }
    ensures few { result < 2 ^ 62 }
{
    Budget::of(over.search.budget)
}

// Whether every two quorums share a node.
fn ask(alloc: Global, over: &SearchedPart<'_>) -> Result<Answer, AskError>
    requires { FitsPart over.now }
    ensures found { IfOk result (IsCertified (meaning_of Goal.Intersect) (request over.now.search.now)) }
    ensures small { OnOk result ((n : ℕ) → AreTooMany (meaning_of Goal.Intersect).vars over.now.part.now over.now.faulty.now n → ⊥) }
    ensures too_large { (n : ℕ) → result ≡ Err (AskError.TooLarge n) → AreTooMany (meaning_of Goal.Intersect).vars over.now.part.now over.now.faulty.now n }
{
    let _ = over.search.whole.len();
    what_is_shown_is_found();
    intersect(alloc, over.part, over.faulty, over.search.budget)
}

fn write_answer<D: Desk>(
    desk: &mut D,
    writer: &mut CertWriter,
    over: &SearchedPart<'_>,
    found: &Answer,
) -> Result<(), WriteFailed>
    requires fresh { IsFresh writer.old }
    requires over { FitsPart over.now }
    requires found { IsCertified (meaning_of Goal.Intersect) (request over.now.search.now) found.now }
    ensures { PutsCertificate D.tells (cert_of (meaning_of Goal.Intersect) (request over.now.search.now) found.now)
        result (D.state desk.old) (D.faults desk.old) (D.state desk.new) (D.faults desk.new) }
{
    let _ = over.part.len();
    let about = Certified {
        digest: &over.search.digest,
        header: &over.search.header,
        whole: &over.search.whole,
        part: over.part,
    };
    write_found(writer, desk, &about, found)
}

impl Found for IntersectFound {
    ghost sought = { Goal.Intersect };

    ghost shown = { λ x. x.0 };

    fn find(alloc: Global, over: &SearchedPart<'_>) -> Result<IntersectFound, AskError> {
        Ok(IntersectFound(ask(alloc, over)?))
    }

    fn reply(&self, alloc: Global, over: &SearchedPart<'_>) -> Result<Reply, AllocError> {
        intersect_answer(alloc, over.part, over.search.budget, &self.0)
    }

    fn write<D: Desk>(
        &self,
        desk: &mut D,
        writer: &mut CertWriter,
        over: &SearchedPart<'_>,
    ) -> Result<(), WriteFailed> {
        write_answer(desk, writer, over, &self.0)
    }
}

impl Found for SplitsFound {
    ghost sought = { Goal.Splits };

    ghost shown = { λ x. x.0 };

    fn find(alloc: Global, over: &SearchedPart<'_>) -> Result<SplitsFound, AskError> {
        Ok(SplitsFound(ask(alloc, over)?))
    }

    fn reply(&self, alloc: Global, over: &SearchedPart<'_>) -> Result<Reply, AllocError> {
        splits_answer(alloc, over.part, over.search.budget, &self.0)
    }

    fn write<D: Desk>(
        &self,
        desk: &mut D,
        writer: &mut CertWriter,
        over: &SearchedPart<'_>,
    ) -> Result<(), WriteFailed> {
        write_answer(desk, writer, over, &self.0)
    }
}

impl Found for DsetFound {
    ghost sought = { Goal.Dset };

    ghost shown = { λ x. x.0 };

    fn find(alloc: Global, over: &SearchedPart<'_>) -> Result<DsetFound, AskError> {
        Ok(DsetFound(ask(alloc, over)?))
    }

    fn reply(&self, alloc: Global, over: &SearchedPart<'_>) -> Result<Reply, AllocError> {
        let mut unmet = NodeSet::new(over.part.len());
        let is_available = available(over.part, over.faulty, &mut unmet);
        dset_answer(
            alloc,
            over.part,
            is_available,
            &unmet,
            over.search.budget,
            &self.0,
        )
    }

    fn write<D: Desk>(
        &self,
        desk: &mut D,
        writer: &mut CertWriter,
        over: &SearchedPart<'_>,
    ) -> Result<(), WriteFailed> {
        write_answer(desk, writer, over, &self.0)
    }
}

impl Found for TrialFound {
    ghost sought = { Goal.Trial };

    ghost shown = { λ x. x.0 };

    fn find(alloc: Global, over: &SearchedPart<'_>) -> Result<TrialFound, AskError> {
        Ok(TrialFound(ask(alloc, over)?))
    }

    fn reply(&self, alloc: Global, over: &SearchedPart<'_>) -> Result<Reply, AllocError> {
        trial_answer(alloc, over.part, over.search.budget, &self.0)
    }

    fn write<D: Desk>(
        &self,
        desk: &mut D,
        writer: &mut CertWriter,
        over: &SearchedPart<'_>,
    ) -> Result<(), WriteFailed> {
        write_answer(desk, writer, over, &self.0)
    }
}

// All minimal sets of a kind, over no clauses that are encoded.
fn list(alloc: Global, sought: Listed, over: &SearchedPart<'_>) -> Result<ListOutcome, AskError>
    requires over { FitsPart over.now }
    requires all { HasLists sought }
    ensures found { IfOk result (IsCertified (lists sought) (request over.now.search.now)) }
    ensures too_large { (n : ℕ) → result ≡ Err (AskError.TooLarge n) → ⊥ }
{
    let _ = over.search.whole.len();
    what_is_listed_is_found();
    let mut units = units_of(over);
    let found = list_all(alloc, sought, over.part, over.faulty, &mut units)?;
    Ok(found)
}

fn reply_sets(
    alloc: Global,
    sought: Listed,
    over: &SearchedPart<'_>,
    found: &ListOutcome,
) -> Result<Reply, AllocError>
    requires over { FitsPart over.now }
    requires found { IsCertified (lists sought) (request over.now.search.now) found.now }
    ensures { IfOk result ((lists sought).Replies over.now.part.now over.now.faulty.now over.now.search.now.budget found.now) }
{
    list_answer(alloc, sought, over.part, over.search.budget, found)
}

fn write_sets<D: Desk>(
    desk: &mut D,
    writer: &mut CertWriter,
    sought: Listed,
    over: &SearchedPart<'_>,
    found: &ListOutcome,
) -> Result<(), WriteFailed>
    requires fresh { IsFresh writer.old }
    requires over { FitsPart over.now }
    requires found { IsCertified (lists sought) (request over.now.search.now) found.now }
    ensures { PutsCertificate D.tells (cert_of (lists sought) (request over.now.search.now) found.now)
        result (D.state desk.old) (D.faults desk.old) (D.state desk.new) (D.faults desk.new) }
{
    let _ = over.part.len();
    what_is_listed_is_found();
    let about = Certified {
        digest: &over.search.digest,
        header: &over.search.header,
        whole: &over.search.whole,
        part: over.part,
    };
    write_list(writer, desk, &about, sought, found)
}

impl Found for BlockingFound {
    ghost sought = { Goal.Blocking };

    ghost shown = { λ x. x.0 };

    fn find(alloc: Global, over: &SearchedPart<'_>) -> Result<BlockingFound, AskError> {
        Ok(BlockingFound(list(alloc, Listed::Blocking, over)?))
    }

    fn reply(&self, alloc: Global, over: &SearchedPart<'_>) -> Result<Reply, AllocError> {
        reply_sets(alloc, Listed::Blocking, over, &self.0)
    }

    fn write<D: Desk>(
        &self,
        desk: &mut D,
        writer: &mut CertWriter,
        over: &SearchedPart<'_>,
    ) -> Result<(), WriteFailed> {
        write_sets(desk, writer, Listed::Blocking, over, &self.0)
    }
}

impl Found for QuorumsFound {
    ghost sought = { Goal.Quorums };

    ghost shown = { λ x. x.0 };

    fn find(alloc: Global, over: &SearchedPart<'_>) -> Result<QuorumsFound, AskError> {
        Ok(QuorumsFound(list(alloc, Listed::Quorum, over)?))
    }

    fn reply(&self, alloc: Global, over: &SearchedPart<'_>) -> Result<Reply, AllocError> {
        reply_sets(alloc, Listed::Quorum, over, &self.0)
    }

    fn write<D: Desk>(
        &self,
        desk: &mut D,
        writer: &mut CertWriter,
        over: &SearchedPart<'_>,
    ) -> Result<(), WriteFailed> {
        write_sets(desk, writer, Listed::Quorum, over, &self.0)
    }
}

impl Found for LeastFound {
    ghost sought = { Goal.Least };

    ghost shown = { λ x. x };

    // The search begins with a counter of the nodes of the greatest quorum.
    fn find(alloc: Global, over: &SearchedPart<'_>) -> Result<LeastFound, AskError> {
        let _ = over.search.whole.len();
        what_is_least_is_found();
        let nodes = greatest(over.part, over.faulty).count();
        let mut units = units_of(over);
        match least(alloc, over.part, over.faulty, &mut units) {
            Ok(outcome) => Ok(LeastFound { nodes, outcome }),
            Err(EncodeError::TooLarge(vars)) => Err(AskError::TooLarge(vars)),
            Err(EncodeError::Memory) => Err(AskError::Memory),
        }
    }

    fn reply(&self, alloc: Global, over: &SearchedPart<'_>) -> Result<Reply, AllocError> {
        least_answer(alloc, over.part, over.search.budget, &self.outcome)
    }

    fn write<D: Desk>(
        &self,
        desk: &mut D,
        writer: &mut CertWriter,
        over: &SearchedPart<'_>,
    ) -> Result<(), WriteFailed> {
        let _ = over.part.len();
        what_is_least_is_found();
        let about = Certified {
            digest: &over.search.digest,
            header: &over.search.header,
            whole: &over.search.whole,
            part: over.part,
        };
        write_least(writer, desk, &about, self.nodes, &self.outcome)
    }
}

// All minimal blocking sets of the organisations that are given, and of the nodes of the part that are in none.
fn list_blocks(
    alloc: Global,
    over: &SearchedPart<'_>,
    given: &GivenOrgs,
) -> Result<OrgBlockingFound, AllocError>
    requires over { FitsPart over.now }
    requires given { over.now.search.now.orgs ≡ Some given.now }
    ensures { IfOk result (IsCertified (meaning_of Goal.OrgBlocking) (request over.now.search.now)) }
{
    let SearchedPart {
        search,
        part,
        faulty,
    } = *over;
    let whole = &search.whole;
    let _ = whole.len();
    let _ = part.len();
    what_is_grouped_is_found();
    let mut units = units_of(over);
    let groups = groups_of(alloc, &given.orgs, whole, part)?;
    let outcome = list_groups(alloc, part, &groups, faulty, &mut units)?;
    Ok(OrgBlockingFound {
        digest: given.digest,
        groups,
        outcome,
    })
}

impl Found for OrgBlockingFound {
    ghost sought = { Goal.OrgBlocking };

    ghost shown = { λ x. x };

    fn find(alloc: Global, over: &SearchedPart<'_>) -> Result<OrgBlockingFound, AskError> {
        match &over.search.orgs {
            Some(given) => Ok(list_blocks(alloc, over, given)?),
            None => unreachable!(),
        }
    }

    fn reply(&self, alloc: Global, over: &SearchedPart<'_>) -> Result<Reply, AllocError> {
        group_answer(alloc, &self.groups, over.search.budget, &self.outcome)
    }

    fn write<D: Desk>(
        &self,
        desk: &mut D,
        writer: &mut CertWriter,
        over: &SearchedPart<'_>,
    ) -> Result<(), WriteFailed> {
        let _ = over.part.len();
        what_is_grouped_is_found();
        let about = Certified {
            digest: &over.search.digest,
            header: &over.search.header,
            whole: &over.search.whole,
            part: over.part,
        };
        write_groups(
            writer,
            desk,
            &about,
            &self.digest,
            &self.groups,
            &self.outcome,
        )
    }
}
