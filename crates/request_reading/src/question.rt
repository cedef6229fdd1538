//! What is asked of a system.
ghost use Rattle.std.specs.Prelude.{◌≡◌, ◌<◌, IfOk, IfSome, Some, length};
ghost use Rattle.cli_words.specs.Order.{order_view};
ghost use Rattle.request_reading.specs.Questions.{node_needed as spec_node_needed, origin_of as spec_origin_of, question_of as spec_question_of, FitsQuestion};
ghost use Rattle.request_reading.specs.Reading.{ReadsTo};

use crate::early::Early;
use crate::reply::refuse_usage;
use crate::word::{Word, word_if_any};
use cli_words::{Order, Query};
use digest_text::digest;
use name_set::NodeSet;
use std::alloc::{AllocError, Global};

/// Where an exported formula comes from.
#[derive(Drop)]
pub struct Origin {
    /// The digest of the configuration.
    pub digest: [u8; 32],
    /// The node of whose trust closure the formula speaks, if it is one.
    pub from: Option<Word>,
    /// The version of the formula, by its number.
    pub formula: u64,
}

/// A question about a system, with the sets of nodes that it speaks of.
#[derive(Drop)]
pub enum Question {
    /// How large it is, and what is odd in its quorum sets.
    Show,
    /// The trust closure of this node.
    Closure(u32),
    /// Its greatest quorum once these nodes are deleted.
    Greatest(NodeSet),
    /// Whether it is available without these nodes.
    Available(NodeSet),
    /// Whether the first nodes meet every quorum once the second are deleted.
    Blocks(NodeSet, NodeSet),
    /// Whether the nodes meet every slice of this one.
    Vblocks(u32, NodeSet),
    /// The formula that says whether its quorums intersect once these nodes are deleted.
    Export(Origin, NodeSet),
}

// The node that a command needs: without it the words are refused.
fn node_needed(alloc: Global, node: Option<u32>) -> Result<u32, Early>
    ensures { ReadsTo result (spec_node_needed node) (λ v. node ≡ Some v) }
{
    match node {
        Some(node) => Ok(node),
        None => Err(Early::Refused(refuse_usage(alloc)?)),
    }
}

// Where a formula of this configuration comes from.
fn origin_of(alloc: Global, order: &Order, config: &[u8]) -> Result<Origin, AllocError>
    ensures { IfOk result (λ origin. origin ≡ spec_origin_of config.now (order_view order.now)) }
{
    let from = word_if_any(alloc, &order.from)?;
    Ok(Origin {
        digest: digest(config),
        from,
        formula: order.formula,
    })
}

/// What an order with this question asks of a part of the system of a configuration, by the nodes that it names there.
pub fn question_of(
    alloc: Global,
    query: Query,
    order: &Order,
    config: &[u8],
    node: Option<u32>,
    faulty: NodeSet,
    set: NodeSet,
) -> Result<Question, Early>
    requires node { IfSome node (λ v. v < length faulty) }
    requires same_n { length set ≡ length faulty }
    ensures { ReadsTo result (spec_question_of query (order_view order.now) config.now node faulty set) (FitsQuestion (length faulty)) }
{
    match query {
        Query::Show => Ok(Question::Show),
        Query::Closure => Ok(Question::Closure(node_needed(alloc, node)?)),
        Query::Greatest => Ok(Question::Greatest(faulty)),
        Query::Available => Ok(Question::Available(set)),
        Query::Blocks => Ok(Question::Blocks(set, faulty)),
        Query::Vblocks => Ok(Question::Vblocks(node_needed(alloc, node)?, set)),
        Query::Export => Ok(Question::Export(origin_of(alloc, order, config)?, faulty)),
    }
}
