//! What a search prints of what it found.
ghost use Rattle.std.specs.Prelude.{◌≡◌, ◌⊎◌, ◌↔◌, All, IsTrue, IfOk, length};
ghost use Rattle.witness_pair.specs.declared.Pair.{Pair};
ghost use Rattle.fbas_model.specs.Nodes.{members};
ghost use Rattle.fbas_model.specs.Fbas.{Available, AreUnmet};
ghost use Rattle.cert_writer.specs.Finding.{CanBeWritten};
ghost use Rattle.printed_lines.specs.Lines.{available_lines as spec_available, counted};
ghost use Rattle.command_run.specs.Replies.{intersect_answer as spec_intersect, splits_answer as spec_splits, list_word as spec_list_word, unknown_word as spec_unknown_word, list_answer as spec_list, HasSets, least_answer as spec_least, HasPlaces, group_answer as spec_groups, HasGroupSets, HasSize, RepliesTrial, dset_status as spec_dset_status, dset_line as spec_dset_line, dset_answer as spec_dset, too_large_answer};
ghost use Rattle.request_reading.specs.Status.{is_answer};
ghost use Rattle.node_json.specs.Groups.{texts_of};

use blocking_lists::ListOutcome;
use enumeration_journal::Listed;
use fbas_core::System;
use group_lists::GroupOutcome;
use least_quorum::LeastOutcome;
use name_set::NodeSet;
use node_json::Groups;
use quorum_questions::{Answer, Size};
use request_reading::{Reply, Status, says};
use std::alloc::{AllocError, Global};

/// That clauses of this many variables are too large.
pub fn too_large(alloc: Global, vars: u64) -> Result<Reply, AllocError>
    ensures { IfOk result (λ a. a ≡ too_large_answer vars) }
{
    let text = printed_lines::counted(alloc, "too-large", vars)?;
    Ok(Reply::new(Status::TooLarge, text))
}

// That the budget is spent.
fn unknown(alloc: Global, word: &str, budget: u64) -> Result<Reply, AllocError>
    ensures { IfOk result (λ a. a ≡ record { status = Status.Unknown; text = counted word.now budget }) }
{
    let text = printed_lines::counted(alloc, word, budget)?;
    Ok(Reply::new(Status::Unknown, text))
}

/// Whether every two quorums share a node, by what a search found.
pub fn intersect_answer(
    alloc: Global,
    part: &System,
    budget: u64,
    found: &Answer,
) -> Result<Reply, AllocError>
    requires { CanBeWritten (length part.now.sets) found.now }
    ensures { IfOk result (λ a. a ≡ spec_intersect part.now.names budget found.now) }
{
    match found {
        Answer::Yes(_, _) => says(alloc, Status::Yes, "intersects yes\n"),
        Answer::No(pair) => {
            let text = printed_lines::with_pair(alloc, "intersects no\n", part, pair)?;
            Ok(Reply::new(Status::No, text))
        }
        Answer::Spent(_, _) => unknown(alloc, "intersects unknown", budget),
    }
}

/// Whether two quorums share no node, by what a search found.
pub fn splits_answer(
    alloc: Global,
    part: &System,
    budget: u64,
    found: &Answer,
) -> Result<Reply, AllocError>
    requires { CanBeWritten (length part.now.sets) found.now }
    ensures { IfOk result (λ a. a ≡ spec_splits part.now.names budget found.now) }
{
    match found {
        Answer::Yes(_, _) => says(alloc, Status::No, "splits no\n"),
        Answer::No(pair) => {
            let text = printed_lines::with_pair(alloc, "splits yes\n", part, pair)?;
            Ok(Reply::new(Status::Yes, text))
        }
        Answer::Spent(_, _) => unknown(alloc, "splits unknown", budget),
    }
}

// What the line of the number of sets begins with.
fn list_word(sought: Listed) -> &'static str
    ensures { result.now ≡ spec_list_word sought }
{
    match sought {
        Listed::Quorum => "quorums",
        Listed::Blocking => "blocking",
        Listed::Smaller => "least",
    }
}

// And the line of a spent budget.
fn unknown_word(sought: Listed) -> &'static str
    ensures { result.now ≡ spec_unknown_word sought }
{
    match sought {
        Listed::Quorum => "quorums unknown",
        Listed::Blocking => "blocking unknown",
        Listed::Smaller => "least unknown",
    }
}

/// All minimal sets of a kind, by what a search for them found.
pub fn list_answer(
    alloc: Global,
    sought: Listed,
    part: &System,
    budget: u64,
    found: &ListOutcome,
) -> Result<Reply, AllocError>
    requires { HasSets (length part.now.sets) found.now }
    ensures { IfOk result (λ a. a ≡ spec_list sought part.now.names budget found.now) }
{
    match found {
        ListOutcome::Whole(sets, _) => {
            let text = printed_lines::with_sets(alloc, list_word(sought), part, sets.as_slice())?;
            Ok(Reply::new(Status::Yes, text))
        }
        ListOutcome::Spent(_) => unknown(alloc, unknown_word(sought), budget),
    }
}

/// A smallest quorum, by what a search for one found.
pub fn least_answer(
    alloc: Global,
    part: &System,
    budget: u64,
    found: &LeastOutcome,
) -> Result<Reply, AllocError>
    requires { HasPlaces (length part.now.sets) found.now }
    ensures { IfOk result (λ a. a ≡ spec_least part.now.names budget found.now) }
{
    match found {
        LeastOutcome::Least(set, _) => {
            let text = printed_lines::smallest(alloc, part, set)?;
            Ok(Reply::new(Status::Yes, text))
        }
        LeastOutcome::NoQuorum(_) => says(alloc, Status::Yes, "least none\n"),
        LeastOutcome::Spent(_) => unknown(alloc, unknown_word(Listed::Smaller), budget),
    }
}

/// All minimal blocking sets of groups, by what a search for them found.
pub fn group_answer(
    alloc: Global,
    groups: &Groups,
    budget: u64,
    found: &GroupOutcome,
) -> Result<Reply, AllocError>
    requires { HasGroupSets (length groups.now) found.now }
    ensures { IfOk result (λ a. a ≡ spec_groups (texts_of groups.now) budget found.now) }
{
    match found {
        GroupOutcome::Whole(sets, _) => {
            let text = printed_lines::with_group_sets(alloc, "org-blocking", groups, sets)?;
            Ok(Reply::new(Status::Yes, text))
        }
        GroupOutcome::Spent(_) => unknown(alloc, "org-blocking unknown", budget),
    }
}

// How large the formula is, by what a search found: no two quorums are apart.
fn size_of(found: &Answer) -> Size
    requires { (p : Pair) → found.now ≡ Answer.No p → ⊥ }
    ensures { HasSize found.now result }
{
    match found {
        Answer::Yes(_, size) => *size,
        Answer::No(_) => unreachable!(),
        Answer::Spent(_, size) => *size,
    }
}

/// How large a trial is, and whether every two quorums share a node, by what a search found: no two quorums are apart.
pub fn trial_answer(
    alloc: Global,
    part: &System,
    budget: u64,
    found: &Answer,
) -> Result<Reply, AllocError>
    requires written { CanBeWritten (length part.now.sets) found.now }
    requires together { (p : Pair) → found.now ≡ Answer.No p → ⊥ }
    ensures { IfOk result (RepliesTrial part.now budget found.now) }
{
    let size = size_of(found);
    let answer = intersect_answer(alloc, part, budget, found)?;
    let nodes = part.len() as u64;
    let mut text = printed_lines::trial_size(alloc, nodes / 3, nodes, size.vars, size.clauses)?;
    text.extend_from_slice(answer.text.bytes())?;
    Ok(Reply::new(answer.status, text))
}

// The lines that say whether the others are available.
fn available_lines(
    alloc: Global,
    part: &System,
    is_available: bool,
    unmet: &NodeSet,
) -> Result<Vec<u8>, AllocError>
    requires { length unmet.now ≡ length part.now.sets }
    ensures { IfOk result (λ text. text.items ≡ spec_available part.now.names is_available unmet.now) }
{
    if is_available {
        Vec::from_slice(alloc, b"available yes\n")
    } else {
        printed_lines::with_list(alloc, "available no\n", "unmet", part, unmet)
    }
}

// No where either is no, yes where both are yes, else unknown.
fn dset_status(is_available: bool, status: Status) -> Status
    ensures { result ≡ spec_dset_status is_available status }
{
    if is_available { status } else { Status::No }
}

fn dset_line(status: Status) -> &'static str
    ensures { result.now ≡ spec_dset_line status }
{
    match status {
        Status::Yes => "dset yes\n",
        Status::No => "dset no\n",
        _ => "dset unknown\n",
    }
}

/// Whether a set is dispensable, by what a search found with it deleted.
pub fn dset_answer(
    alloc: Global,
    part: &System,
    is_available: bool,
    unmet: &NodeSet,
    budget: u64,
    found: &Answer,
) -> Result<Reply, AllocError>
    requires places { length unmet.now ≡ length part.now.sets }
    requires written { CanBeWritten (length part.now.sets) found.now }
    ensures { IfOk result (λ a. a ≡ spec_dset part.now.names is_available unmet.now (spec_intersect part.now.names budget found.now)) }
{
    let answer = intersect_answer(alloc, part, budget, found)?;
    let status = dset_status(is_available, answer.status);
    let mut text = available_lines(alloc, part, is_available, unmet)?;
    text.extend_from_slice(answer.text.bytes())?;
    text.extend_from_slice(dset_line(status).as_bytes())?;
    Ok(Reply::new(status, text))
}
