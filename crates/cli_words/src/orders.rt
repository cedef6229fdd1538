//! Orders, and why words give none.
ghost use Rattle.std.specs.Prelude.{◌≡◌};
ghost use Rattle.cli_words.specs.Table.{has_configuration};
ghost use Rattle.cli_words.specs.declared.orders.OrderFault.TheVariants.{Memory};

use crate::table::{Target, row_of};
use std::alloc::AllocError;
use thiserror::Error;

/// A question about a system that is answered at once.
#[derive(Clone, Copy)]
pub enum Query {
    /// How large the system is, and what is odd in its quorum sets.
    Show,
    /// The trust closure of a node.
    Closure,
    /// The greatest quorum without the faulty nodes.
    Greatest,
    /// Whether the system is available without a set of nodes.
    Available,
    /// Whether a set meets every quorum without the faulty nodes.
    Blocks,
    /// Whether a set meets every slice of a node.
    Vblocks,
    /// The intersection formula as a text.
    Export,
}

/// What a search finds out, within a budget. The evidence for the answer is written to a certificate.
#[derive(Clone, Copy)]
pub enum Goal {
    /// Whether every two quorums without the faulty nodes share a node.
    Intersect,
    /// Whether a set is dispensable: the system is available without it, and its quorums intersect despite it.
    Dset,
    /// Whether quorums intersect once the nodes of a set are deleted.
    Splits,
    /// All minimal blocking sets.
    Blocking,
    /// Whether every two quorums of a trial configuration share a node.
    Trial,
    /// All minimal quorums.
    Quorums,
    /// A smallest quorum.
    Least,
    /// All minimal blocking sets of organisations.
    OrgBlocking,
}

/// What the program is to do, by the command's word. The table of the commands has what each is about, and its options.
#[derive(Clone, Copy)]
pub enum Command {
    /// A question is answered at once.
    Query(Query),
    /// A question is searched.
    Search(Goal),
    /// A certificate is checked.
    Check,
    /// Another solver's proof is checked.
    CheckLrat,
    /// The edits of a script are tried one after another.
    Whatif,
}

impl Command {
    /// Whether it names a configuration: a trial makes its own.
    pub fn has_configuration(self) -> bool
        ensures { result ≡ has_configuration self }
    {
        matches!(row_of(self).target, Target::Config)
    }
}

/// Why the words give no order.
#[derive(Clone, Copy, Debug, Error)]
pub enum OrderFault {
    /// The words are not those of a command.
    #[error("the words are not those of a command")]
    Words,
    /// The words are taken, and the path of the certificate, or of the proof, equals that of the configuration or of the
    /// organisations as text.
    #[error("the certificate has the path of another file")]
    SamePath,
    /// Memory is wanting.
    #[error("out of memory")]
    Memory,
}

/// A command with its texts. An option is `None` where it was not given or the command has none.
#[derive(Drop)]
pub struct Order {
    pub command: Command,
    /// The path of the configuration, empty where the command has none.
    pub config: String,
    /// The path of the certificate, or of the proof of `check-lrat`, empty where the command has none.
    pub cert: String,
    /// The path of the script of edits, empty where the command has none.
    pub script: String,
    /// The path of the organisations, which `--orgs` gives.
    pub orgs: Option<String>,
    /// The name that `--node` gives.
    pub node: Option<String>,
    /// The name that `--from` gives.
    pub from: Option<String>,
    /// The list of names that `--faulty` gives.
    pub faulty: Option<String>,
    /// The list of ids that `--faulty-orgs` gives.
    pub faulty_orgs: Option<String>,
    /// The list of names that `--set` gives.
    pub set: Option<String>,
    /// How many units a search may take, 0 where the command does not search.
    pub budget: u64,
    /// How many organisations the trial has, 0 where the command is none.
    pub trial: u32,
    /// The version of the formula, 0 if the command takes none.
    pub formula: u64,
}

impl From<AllocError> for OrderFault {
    ghost from_gives = { λ _ e. e ≡ Memory };

    fn from(_e: AllocError) -> OrderFault {
        OrderFault::Memory
    }
}
