//! The nodes that the options name.
ghost use Rattle.std.specs.Prelude.{◌≡◌, ◌≤◌, ◌<◌, All, Ok, Err, IfOk, IfErr, IfSome, length, option_map, string_bytes};
ghost use Rattle.cli_words.specs.Order.{order_view};
ghost use Rattle.fbas_model.specs.declared.TheConstants.{MOST_NODES};
ghost use Rattle.request_reading.specs.Names.{or_refused, set_named as set_by_option, node_named as node_by_option, orgs_named as orgs_by_option, faulty_named as faulty_by_options, names_of, FitsNamed};
ghost use Rattle.node_json.specs.Organisations.{ids_read};
ghost use Rattle.request_reading.specs.Given.{AreOver, orgs_among};
ghost use Rattle.request_reading.specs.Reading.{ReadsTo};

use crate::early::Early;
use crate::reply::Reply;
use crate::status::Status;
use crate::word::word_or_empty;
use certificate_file::GivenOrgs;
use cli_words::Order;
use fbas_core::System;
use name_set::{NameFault, NodeSet, read_name, read_names};
use node_json::{Orgs, read_ids};
use std::alloc::Global;

/// The nodes that the options of an order name: an option that was not given, or that its command lacks, names none.
#[derive(Drop)]
pub struct NamedNodes {
    /// That of `--node`.
    pub node: Option<u32>,
    /// That of `--from`, whose trust closure is the part that is meant.
    pub from: Option<u32>,
    /// Those of `--faulty`, and the members of the organisations of `--faulty-orgs`.
    pub faulty: NodeSet,
    /// Those of `--set`.
    pub set: NodeSet,
}

// What names after an option were read to, or their refusal.
fn or_refused<A: Drop>(alloc: Global, option: &str, read: Result<A, NameFault>) -> Result<A, Early>
    ensures { ReadsTo result (or_refused option.now read) (λ a. read ≡ Ok a) }
{
    match read {
        Ok(found) => Ok(found),
        Err(fault) => {
            let text = printed_lines::names_refused(alloc, option, fault)?;
            Err(Early::Refused(Reply::new(Status::Usage, text)))
        }
    }
}

// The set that an option's list names, empty if the option is not given.
fn set_named(
    alloc: Global,
    system: &System,
    option: &str,
    list: &Option<String>,
) -> Result<NodeSet, Early>
    ensures { ReadsTo result (set_by_option system.now.names option.now (option_map string_bytes list.now))
        (λ s. length s ≡ length system.now.sets) }
{
    let _ = system.len();
    let read = read_names(word_or_empty(list).as_bytes(), system.names());
    or_refused(alloc, option, read)
}

// The node that an option names, if it is given.
fn node_named(
    alloc: Global,
    system: &System,
    option: &str,
    name: &Option<String>,
) -> Result<Option<u32>, Early>
    ensures { ReadsTo result (node_by_option system.now.names option.now (option_map string_bytes name.now))
        (λ node. IfSome node (λ v. v < length system.now.sets)) }
{
    let Some(name) = name else {
        return Ok(None);
    };
    let read = read_name(name.as_bytes(), system.names());
    let node = or_refused(alloc, option, read)?;
    Ok(Some(node))
}

// The nodes that a list of ids stands for: no id is known where no organisations are given.
fn members_listed(
    alloc: Global,
    given: &Option<GivenOrgs>,
    n: u32,
    list: &str,
) -> Result<NodeSet, NameFault>
    requires sized { IfSome given.now (λ g. All (λ org. length org.members ≡ n) g.orgs) }
    requires few { n ≤ MOST_NODES }
    ensures ok { IfOk result (λ s. ids_read list.now (orgs_among given.now) n ≡ Ok s) }
    ensures err { IfErr result (λ e. ids_read list.now (orgs_among given.now) n ≡ Err e) }
    ensures fits { IfOk result (λ s. length s ≡ n) }
{
    if let Some(given) = given {
        return read_ids(list.as_bytes(), &given.orgs, n);
    }
    let none = Orgs::none(alloc);
    let nodes = read_ids(list.as_bytes(), &none, n);
    drop(none);
    nodes
}

// The set that an option's list of organisations stands for, empty if the option is not given.
fn orgs_named(
    alloc: Global,
    given: &Option<GivenOrgs>,
    n: u32,
    option: &str,
    list: &Option<String>,
) -> Result<NodeSet, Early>
    requires sized { IfSome given.now (λ g. All (λ org. length org.members ≡ n) g.orgs) }
    requires few { n ≤ MOST_NODES }
    ensures { ReadsTo result (orgs_by_option n (orgs_among given.now) option.now (option_map string_bytes list.now))
        (λ s. length s ≡ n) }
{
    let read = members_listed(alloc, given, n, word_or_empty(list));
    or_refused(alloc, option, read)
}

// The faulty nodes: those that `--faulty` names, and the members of the organisations that `--faulty-orgs` names.
fn faulty_named(
    alloc: Global,
    system: &System,
    given: &Option<GivenOrgs>,
    order: &Order,
) -> Result<NodeSet, Early>
    requires { AreOver system.now given.now }
    ensures { ReadsTo result (faulty_by_options system.now (orgs_among given.now) (order_view order.now))
        (λ s. length s ≡ length system.now.sets) }
{
    let n = system.len();
    let mut named = set_named(alloc, system, "--faulty", &order.faulty)?;
    let members = orgs_named(alloc, given, n, "--faulty-orgs", &order.faulty_orgs)?;
    named.join(&members);
    Ok(named)
}

/// The nodes that the options name, read in the order `--node`, `--from`, `--faulty`, `--faulty-orgs`, `--set`.
pub fn names_of(
    alloc: Global,
    order: &Order,
    system: &System,
    given: &Option<GivenOrgs>,
) -> Result<NamedNodes, Early>
    requires { AreOver system.now given.now }
    ensures { ReadsTo result (names_of system.now (orgs_among given.now) (order_view order.now)) (FitsNamed (length system.now.sets)) }
{
    let node = node_named(alloc, system, "--node", &order.node)?;
    let from = node_named(alloc, system, "--from", &order.from)?;
    let faulty = faulty_named(alloc, system, given, order)?;
    let set = set_named(alloc, system, "--set", &order.set)?;
    Ok(NamedNodes {
        node,
        from,
        faulty,
        set,
    })
}
