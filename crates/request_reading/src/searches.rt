//! What a search is asked for.
ghost use Rattle.std.specs.Prelude.{◌≡◌, ◌≤◌, ◌<◌, IfOk, IfSome, IsSome, IsTrue, Ok, length};
ghost use Rattle.fbas_model.specs.Nodes.{members, ∅};
ghost use Rattle.fbas_model.specs.Fbas.{Intersects};
ghost use Rattle.cli_words.specs.Order.{order_view};
ghost use Rattle.cli_words.specs.Table.{has_configuration};
ghost use Rattle.cli_words.specs.declared.budget.TheConstants.{MOST_BUDGET};
ghost use Rattle.fbas_model.specs.Restriction.{union};
ghost use Rattle.request_reading.specs.Searches.{nobody as spec_nobody, cut_within as spec_cut_within, header_of as spec_header_of, orgs_needed as spec_orgs_needed, orgs_sought as spec_orgs_sought, search_of as spec_search_of, trial_of as spec_trial_of, FitsSearch};
ghost use Rattle.request_reading.specs.Given.{FitsOperands};
ghost use Rattle.request_reading.specs.Names.{FitsNamed};
ghost use Rattle.hex.specs.Hex.{IsBytes};
ghost use Rattle.sha2.specs.Sha256.{sha256};
ghost use Rattle.cert_writer.specs.Promises.{IsHeader};
ghost use Rattle.certificate_file.specs.Known.{FitsHeader};
ghost use Rattle.request_reading.specs.Reading.{ReadsTo};

use crate::early::Early;
use crate::names::NamedNodes;
use crate::operands::Operands;
use crate::reply::refuse_usage;
use crate::word::Word;
use certificate_file::{GivenOrgs, Header};
use cli_words::{Command, Goal, Order};
use digest_text::digest;
use fbas_core::System;
use name_set::NodeSet;
use std::alloc::{AllocError, Global};

/// A search over a system, and where its certificate goes.
#[derive(Drop)]
pub struct Search {
    /// What it finds out.
    pub goal: Goal,
    /// The path of the certificate.
    pub path: Word,
    pub whole: System,
    /// The digest of the configuration.
    pub digest: [u8; 32],
    /// The part of the system that is meant, and the nodes of it that are deleted.
    pub header: Header,
    /// The organisations whose blocking sets are sought, with the digest of their file, and none where others are sought.
    pub orgs: Option<GivenOrgs>,
    /// How many units it may take.
    pub budget: u64,
}

// No node of a system.
fn nobody(system: &System) -> NodeSet
    ensures value { result ≡ spec_nobody system.now }
    ensures empty { members result ≡ ∅ }
    ensures places { length result ≡ length system.now.sets }
{
    NodeSet::new(system.len())
}

// The nodes of either set.
fn joined(first: NodeSet, second: &NodeSet) -> NodeSet
    requires { length first ≡ length second.now }
    ensures value { result ≡ union first second.now }
    ensures places { length result ≡ length first }
{
    let mut all = first;
    all.join(second);
    all
}

// The nodes of a set that are in the part, the whole system or the trust closure of a node.
fn cut_within(system: &System, from: Option<u32>, set: NodeSet) -> NodeSet
    requires node { IfSome from (λ v. v < length system.now.sets) }
    requires same_n { length set ≡ length system.now.sets }
    ensures cut { result ≡ spec_cut_within system.now from set }
    ensures places { length result ≡ length system.now.sets }
{
    let mut set = set;
    if let Some(node) = from {
        set.meet(&system.closure(node));
    }
    set
}

// The part that is meant, and the nodes of it that are deleted.
fn header_with(system: &System, from: Option<u32>, named: NodeSet) -> Header
    requires node { IfSome from (λ v. v < length system.now.sets) }
    requires same_n { length named ≡ length system.now.sets }
    ensures value { result ≡ record { from = from; faulty = spec_cut_within system.now from named } }
    ensures fits { IsHeader system.now result }
    ensures places { FitsHeader system.now result }
{
    let _ = system.len();
    let faulty = cut_within(system, from, named);
    Header { from, faulty }
}

/// The part that the options name, and the nodes of it that are deleted: the faulty ones, and those of the set.
pub fn header_of(system: &System, named: NamedNodes) -> Header
    requires { FitsNamed (length system.now.sets) named }
    ensures value { result ≡ spec_header_of system.now named }
    ensures fits { IsHeader system.now result }
    ensures places { FitsHeader system.now result }
{
    let NamedNodes {
        node: _,
        from,
        faulty,
        set,
    } = named;
    header_with(system, from, joined(faulty, &set))
}

// What is known of the bytes of an array is known where it is handed to a call.
fn hand(_digest: &[u8; 32]) {}

/// Shows that a digest has 32 bytes.
pub fn look(digest: &[u8; 32])
    ensures long { length digest.now ≡ 32 }
    ensures bytes { IsBytes digest.now }
{
    hand(digest);
}

// Blocking sets of organisations are sought over a file of them.
fn orgs_needed(alloc: Global, goal: Goal, given: &Option<GivenOrgs>) -> Result<(), Early>
    ensures { ReadsTo result (spec_orgs_needed goal given.now) (λ _. goal ≡ Goal.OrgBlocking → IsSome given.now) }
{
    match goal {
        Goal::OrgBlocking => match given {
            Some(_) => Ok(()),
            None => Err(Early::Refused(refuse_usage(alloc)?)),
        },
        _ => Ok(()),
    }
}

// The organisations that a search keeps: those whose blocking sets are sought.
fn orgs_sought(goal: Goal, given: Option<GivenOrgs>) -> Option<GivenOrgs>
    ensures value { result ≡ spec_orgs_sought goal given }
    ensures only { IsSome result → goal ≡ Goal.OrgBlocking }
{
    match goal {
        Goal::OrgBlocking => given,
        _ => {
            drop(given);
            None
        }
    }
}

// The search with this header and these organisations, which nothing can refuse any more.
fn search_with(
    alloc: Global,
    goal: Goal,
    order: &Order,
    system: System,
    config: &[u8],
    header: Header,
    orgs: Option<GivenOrgs>,
) -> Result<Search, AllocError>
    ensures value { IfOk result (λ s. s ≡ record { goal = goal; path = (order_view order.now).cert; whole = system; digest = sha256 config.now; header = header; orgs = orgs; budget = order.now.budget }) }
    ensures long { length (sha256 config.now) ≡ 32 }
    ensures bytes { IsBytes (sha256 config.now) }
{
    let digest = digest(config);
    look(&digest);
    let path = Word::of(alloc, &order.cert)?;
    Ok(Search {
        goal,
        path,
        whole: system,
        digest,
        header,
        orgs,
        budget: order.budget,
    })
}

/// What an order with this goal asks, by what it names in the system of a configuration.
#[tactic(auto, unfolding(cli_words::specs::Table::row_of))]
pub fn search_of(
    alloc: Global,
    goal: Goal,
    order: &Order,
    config: &[u8],
    operands: Operands,
) -> Result<Search, Early>
    requires fits { FitsOperands operands }
    requires few { order.now.budget ≤ MOST_BUDGET }
    requires file { IsTrue (has_configuration (Command.Search goal)) }
    ensures { ReadsTo result (spec_search_of goal (order_view order.now) config.now operands) FitsSearch }
{
    let Operands {
        system,
        orgs,
        named,
    } = operands;
    match orgs_needed(alloc, goal, &orgs) {
        Ok(()) => {
            let header = header_of(&system, named);
            let orgs = orgs_sought(goal, orgs);
            Ok(search_with(alloc, goal, order, system, config, header, orgs)?)
        }
        Err(early) => {
            drop(system);
            drop(orgs);
            drop(named);
            Err(early)
        }
    }
}

/// What a trial asks of the system of its configuration's text, in which every two quorums share a node. It is the whole system
/// that is meant, and nobody is deleted.
pub fn trial_of(
    alloc: Global,
    order: &Order,
    system: System,
    config: &[u8],
) -> Result<Search, AllocError>
    requires few { order.now.budget ≤ MOST_BUDGET }
    requires meets { Intersects system.sets ∅ }
    ensures gives { IfOk result (λ s. s ≡ spec_trial_of system config.now (order_view order.now)) }
    ensures fits { IfOk result FitsSearch }
{
    let header = header_with(&system, None, nobody(&system));
    search_with(alloc, Goal::Trial, order, system, config, header, None)
}
