//! The answer to a question.
ghost use Rattle.std.specs.Prelude.{◌≡◌, ◌⊎◌, ◌<◌, List, IfOk, length, option_map};
ghost use Rattle.request_reading.specs.Questions.{FitsQuestion};
ghost use Rattle.command_run.specs.QuestionAnswers.{Answers, AnswersClosure, AnswersGreatest, SaysAvailable, SaysUnavailable, SaysBlocks, SaysNotBlocks, AnswersVblocks, AnswersExport, export_answer, says};
ghost use Rattle.fbas_model.specs.Nodes.{members};
ghost use Rattle.fbas_model.specs.Fbas.{IsGreatestQuorum, all_nodes};
ghost use Rattle.printed_lines.specs.Lines.{shown, exported};
ghost use Rattle.lrat_model.specs.Literal.{Literal};
ghost use Rattle.clause_encoder.specs.Dimacs.{dimacs};
ghost use Rattle.lrat_model.specs.Runs.{formula_database};

use crate::replies::too_large;
use clause_encoder::{EncodeError, VarMap, encode, push_dimacs};
use clause_store::Store;
use fbas_core::System;
use name_set::NodeSet;
use request_reading::{Origin, Question, Reply, Status, says, version_of};
use std::alloc::{AllocError, Global};

fn show(alloc: Global, system: &System) -> Result<Reply, AllocError>
    ensures { IfOk result (says (shown system.now)) }
{
    Ok(Reply::new(Status::Yes, printed_lines::shown(alloc, system)?))
}

fn closure(alloc: Global, system: &System, node: u32) -> Result<Reply, AllocError>
    requires { node < length system.now.sets }
    ensures { IfOk result (AnswersClosure system.now node) }
{
    let closure = system.closure(node);
    let text = printed_lines::with_list(alloc, "", "closure", system, &closure)?;
    Ok(Reply::new(Status::Yes, text))
}

fn greatest(alloc: Global, system: &System, faulty: &NodeSet) -> Result<Reply, AllocError>
    requires { length faulty.now ≡ length system.now.sets }
    ensures { IfOk result (AnswersGreatest system.now faulty.now) }
{
    let quorum = greatest_quorum::greatest(system, faulty);
    let text = printed_lines::with_list(alloc, "", "greatest", system, &quorum)?;
    Ok(Reply::new(Status::Yes, text))
}

fn available(alloc: Global, system: &System, set: &NodeSet) -> Result<Reply, AllocError>
    requires { length set.now ≡ length system.now.sets }
    ensures { IfOk result (λ a. SaysAvailable system.now set.now a ⊎ SaysUnavailable system.now set.now a) }
{
    let mut unmet = NodeSet::new(system.len());
    if greatest_quorum::available(system, set, &mut unmet) {
        return says(alloc, Status::Yes, "available yes\n");
    }
    let text = printed_lines::with_list(alloc, "available no\n", "unmet", system, &unmet)?;
    Ok(Reply::new(Status::No, text))
}

fn blocks(
    alloc: Global,
    system: &System,
    set: &NodeSet,
    faulty: &NodeSet,
) -> Result<Reply, AllocError>
    requires set { length set.now ≡ length system.now.sets }
    requires faulty { length faulty.now ≡ length system.now.sets }
    ensures { IfOk result (λ a. SaysBlocks system.now set.now faulty.now a ⊎ SaysNotBlocks system.now set.now faulty.now a) }
{
    let mut quorum = NodeSet::new(system.len());
    if greatest_quorum::blocks(system, set, faulty, &mut quorum) {
        return says(alloc, Status::Yes, "blocks yes\n");
    }
    let text = printed_lines::with_list(alloc, "blocks no\n", "quorum", system, &quorum)?;
    Ok(Reply::new(Status::No, text))
}

fn vblocks(alloc: Global, system: &System, node: u32, set: &NodeSet) -> Result<Reply, AllocError>
    requires node { node < length system.now.sets }
    requires set { length set.now ≡ length system.now.sets }
    ensures { IfOk result (AnswersVblocks system.now node set.now) }
{
    if system.v_blocks(node, set) {
        return says(alloc, Status::Yes, "vblocks yes\n");
    }
    says(alloc, Status::No, "vblocks no\n")
}

// The name of the node of whose trust closure an exported formula speaks, if it speaks of one.
fn from_of(origin: &Origin) -> Option<&[u8]>
    ensures { option_map (λ name. name.now) result ≡ origin.now.from }
{
    match &origin.from {
        Some(name) => Some(name.as_str().as_bytes()),
        None => None,
    }
}

// The answer to a formula that was made.
fn formula_text(
    alloc: Global,
    system: &System,
    origin: &Origin,
    faulty: &NodeSet,
    store: &Store,
    map: &VarMap,
) -> Result<Reply, AllocError>
    requires same_n { length faulty.now ≡ length system.now.sets }
    requires places { length map.now.greatest ≡ length system.now.names }
    ensures { (clauses : List (List Literal)) → store.now ≡ formula_database clauses
        → IfOk result (says (exported origin.now.formula origin.now.digest origin.now.from system.now.names faulty.now (dimacs system.now.names map.now clauses))) }
{
    let from = from_of(origin);
    let mut text = printed_lines::export_comments(
        alloc,
        origin.formula,
        &origin.digest,
        from,
        system,
        faulty,
    )?;
    push_dimacs(&mut text, store, map, system)?;
    Ok(Reply::new(Status::Yes, text))
}

// The formula over the greatest quorum, or that it is too large.
fn formula(
    alloc: Global,
    system: &System,
    origin: &Origin,
    faulty: &NodeSet,
    greatest: &NodeSet,
) -> Result<Reply, AllocError>
    requires same_faulty { length faulty.now ≡ length system.now.sets }
    requires same_n { length greatest.now ≡ length system.now.sets }
    requires same_names { length greatest.now ≡ length system.now.names }
    requires greatest { IsGreatestQuorum system.now.sets (members faulty.now) (all_nodes system.now.sets) (members greatest.now) }
    ensures { IfOk result (λ a. a ≡ export_answer system.now origin.now faulty.now greatest.now) }
{
    match encode(alloc, version_of(origin.formula), system, faulty, greatest) {
        Ok((store, map)) => formula_text(alloc, system, origin, faulty, &store, &map),
        Err(EncodeError::TooLarge(vars)) => too_large(alloc, vars),
        Err(EncodeError::Memory) => Err(AllocError),
    }
}

fn export(
    alloc: Global,
    system: &System,
    origin: &Origin,
    faulty: &NodeSet,
) -> Result<Reply, AllocError>
    requires { length faulty.now ≡ length system.now.sets }
    ensures { IfOk result (AnswersExport system.now origin.now faulty.now) }
{
    let _ = system.len();
    let quorum = greatest_quorum::greatest(system, faulty);
    formula(alloc, system, origin, faulty, &quorum)
}

/// The answer to a question about a system.
pub fn solve(alloc: Global, system: &System, question: &Question) -> Result<Reply, AllocError>
    requires { FitsQuestion (length system.now.sets) question.now }
    ensures { IfOk result (Answers system.now question.now) }
{
    match question {
        Question::Show => show(alloc, system),
        Question::Closure(node) => closure(alloc, system, *node),
        Question::Greatest(faulty) => greatest(alloc, system, faulty),
        Question::Available(set) => available(alloc, system, set),
        Question::Blocks(set, faulty) => blocks(alloc, system, set, faulty),
        Question::Export(origin, faulty) => export(alloc, system, origin, faulty),
        Question::Vblocks(node, set) => vblocks(alloc, system, *node, set),
    }
}
